//! A store of which one field is spoiled, where a block of it is kept: what the next session then says.

use std::alloc::AllocError;
use std::test::Fail;
use vt_host_memory::messages::{
    GOODBYE, HELLO, LINE, OUR_LINE, READ_ABC, WELCOME, WRITE_ABC, WROTE_ABC,
};
use vt_host_memory::{
    Act, Bits, Row, Runtime, SMALL_STORE, Told, Twin, do_act, made, see_row, see_rows, told,
};
use vt_rows::Rows;

const SESSION: &[&str] = &["session", "v.conf"];

// ---- arenas by their version

/// A version that no arena has, and what is told of it.
const OTHER_VERSION: &str = "venti: a.part: version is 3, want 2\n";

/// An arena's clumps have all the room behind its head, and one of them an entry; what is told of that.
const NO_ROOM: &str = "venti: a.part: used is 8217, want 8192\n";

// ---- what is spoiled

/// The head of the arena, of the section and of the filter, and the bucket of the block.
const ARENA: Twin = Twin {
    name: "a.part",
    start: 8_192,
    frame: 8_192,
};

const SECTION: Twin = Twin {
    name: "i.part",
    start: 0,
    frame: 8_192,
};

const FILTER: Twin = Twin {
    name: "b.part",
    start: 0,
    frame: 16_384,
};

const BUCKET: Twin = Twin {
    name: "i.part",
    start: 24_576 + 2 * 16_896,
    frame: 8_192,
};

/// What the next session comes to.
#[derive(Clone, Copy)]
enum Ends {
    /// It isn't begun, which this line tells.
    Refused(&'static str),
    /// Its read of the block tells that something is damaged, and this line what.
    ReadDamaged(&'static str),
    /// Its write of the block does.
    WriteDamaged(&'static str),
}

const READ: Bits = &[LINE, HELLO, READ_ABC, GOODBYE];

const READ_DAMAGED: Bits = &[OUR_LINE, WELCOME, b"\x00\x11\x01\x02\x00\x0dblock damaged"];

const WRITE: Bits = &[LINE, HELLO, WRITE_ABC, GOODBYE];

const WRITE_DAMAGED: Bits = &[OUR_LINE, WELCOME, b"\x00\x11\x01\x01\x00\x0dblock damaged"];

/// Its row.
fn row_of(ends: Ends) -> Row {
    match ends {
        Ends::Refused(line) => (SESSION, READ, 3, &[], line),
        Ends::ReadDamaged(line) => (SESSION, READ, 9, READ_DAMAGED, line),
        Ends::WriteDamaged(line) => (SESSION, WRITE, 9, WRITE_DAMAGED, line),
    }
}

/// What is told of a bucket without a magic.
const NO_MAGIC: &str = "venti: damaged: want 56424b54, found 00000000\n";

const NONE: &[u8] = &[0; 4];

/// What is done to a store, and the next session.
type Spoiled = (Act, Ends);

const SPOILED: [Spoiled; 30] = [
    // The table of the partition of arenas, which stands once.
    (
        Act::Spoil("a.part", 0, NONE),
        Ends::Refused("venti: a.part: not formatted\n"),
    ),
    (
        Act::Spoil("a.part", 4, &[0, 2]),
        Ends::Refused("venti: a.part: version is 2, want 1\n"),
    ),
    (
        Act::Spoil("a.part", 70, &[0, 0, 0, 0, 0, 0, 0x9c, 0x40]),
        Ends::Refused("venti: a.part: arenasize is 40000, want 32768\n"),
    ),
    (
        Act::Spoil("a.part", 78, NONE),
        Ends::Refused("venti: a.part: count is 0, want 1\n"),
    ),
    (
        Act::Spoil("a.part", 78, &[0, 0, 0, 2]),
        Ends::Refused("venti: a.part: too small: 40960, need 73728\n"),
    ),
    (
        Act::Cut("a.part", 8_000),
        Ends::Refused("venti: a.part: too small: 8000, need 8192\n"),
    ),
    // The head of its arena.
    (
        Act::SpoilCurrent(ARENA, 0, NONE),
        Ends::Refused("venti: a.part: not formatted\n"),
    ),
    (
        Act::SpoilCurrent(ARENA, 4, &[0, 3]),
        Ends::Refused(OTHER_VERSION),
    ),
    (
        Act::SpoilCurrent(ARENA, 6, &[0, 0, 0, 5]),
        Ends::Refused("venti: a.part: number is 5, want 0\n"),
    ),
    (
        Act::SpoilCurrent(ARENA, 10, &[2]),
        Ends::Refused("venti: a.part: sealed is 2, want 1\n"),
    ),
    (
        Act::SpoilCurrent(ARENA, 11, &[0, 0, 0, 1, 0, 0, 0, 0, 0, 0, 0x20, 0]),
        Ends::Refused(NO_ROOM),
    ),
    // The head of the section.
    (
        Act::Cut("i.part", 41_471),
        Ends::Refused("venti: i.part: too small: 41471, need 41472\n"),
    ),
    (
        Act::SpoilCurrent(SECTION, 0, NONE),
        Ends::Refused("venti: i.part: not formatted\n"),
    ),
    (
        Act::SpoilCurrent(SECTION, 4, &[0, 3]),
        Ends::Refused("venti: i.part: version is 3, want 1\n"),
    ),
    (
        Act::SpoilCurrent(SECTION, 6, &[0]),
        Ends::Refused("venti: i.part: state is 0, want 1\n"),
    ),
    (
        Act::SpoilCurrent(SECTION, 6, &[2]),
        Ends::Refused("venti: i.part: state is 2, want 1: run buildindex\n"),
    ),
    (
        Act::SpoilCurrent(SECTION, 71, &[0, 0, 0, 1]),
        Ends::Refused("venti: i.part: first is 1, want 0\n"),
    ),
    (
        Act::SpoilCurrent(SECTION, 75, &[0, 0, 0, 3]),
        Ends::Refused("venti: i.part: count is 3, want 4\n"),
    ),
    (
        Act::SpoilCurrent(SECTION, 79, &[0, 0, 0, 5]),
        Ends::Refused("venti: i.part: total is 5, want 4\n"),
    ),
    (
        Act::SpoilCurrent(SECTION, 83, &[0, 0, 0, 0, 0, 0, 0, 2]),
        Ends::Refused("venti: i.part: mark is 2, want 1\n"),
    ),
    // The filter.
    (
        Act::Cut("b.part", 40_959),
        Ends::Refused("venti: b.part: too small: 40959, need 40960\n"),
    ),
    (
        Act::SpoilCurrent(FILTER, 0, NONE),
        Ends::Refused("venti: b.part: not formatted\n"),
    ),
    (
        Act::SpoilCurrent(FILTER, 4, &[0, 3]),
        Ends::Refused("venti: b.part: version is 3, want 1\n"),
    ),
    (
        Act::SpoilCurrent(FILTER, 6, &[17]),
        Ends::Refused("venti: b.part: m is 17, want 16\n"),
    ),
    (
        Act::SpoilCurrent(FILTER, 7, &[33]),
        Ends::Refused("venti: b.part: k is 33, want 32\n"),
    ),
    (
        Act::SpoilCurrent(FILTER, 8, &[0, 0, 0, 0, 0, 0, 0, 2]),
        Ends::Refused("venti: b.part: mark is 2, want 1\n"),
    ),
    // The bucket of the block.
    (
        Act::SpoilCurrent(BUCKET, 0, NONE),
        Ends::ReadDamaged(NO_MAGIC),
    ),
    (
        Act::SpoilCurrent(BUCKET, 0, NONE),
        Ends::WriteDamaged(NO_MAGIC),
    ),
    (
        Act::SpoilCurrent(BUCKET, 4, &[0, 0, 0, 1]),
        Ends::ReadDamaged("venti: damaged: want 2, found 1\n"),
    ),
    (
        Act::SpoilCurrent(BUCKET, 8, &[1, 8]),
        Ends::ReadDamaged("venti: damaged: want 263, found 264\n"),
    ),
];

/// A block is written, and committed when its session ends.
const WRITTEN: &[Row] = &[(SESSION, WRITE, 0, &[OUR_LINE, WELCOME, WROTE_ABC], "")];

const WRITES: Told = told!("a block that is written before a field is spoiled");

const SPOILS: Told = told!("a store of which a field is spoiled");

/// Notes whether a new store with a block, to which this is done, leaves what is said of it.
fn see_spoiled(
    rt: &impl Runtime,
    rows: &mut Rows,
    number: usize,
    spoiled: &Spoiled,
) -> Result<(), AllocError> {
    let (act, ends) = spoiled;
    let mut parts = made(rt, rows, SMALL_STORE)?;
    see_rows(rt, rows, &mut parts, &WRITES, WRITTEN)?;
    do_act(rt, rows, &mut parts, act)?;
    see_row(rt, rows, &mut parts, &SPOILS, number, &row_of(*ends))
}

#[test]
fn a_field_may_be_spoiled(rt: HostRuntime) -> Result<(), Fail> {
    let mut rows = Rows::new();
    for (number, spoiled) in SPOILED.iter().enumerate() {
        see_spoiled(&rt, &mut rows, number, spoiled)?;
    }
    rows.all()?;
    Ok(())
}
