//! Sessions over the store of a configuration: words, what comes in, what goes out, the status and
//! the line on the fault sink; and what the next command then says.

use std::alloc::{AllocError, Global};
use std::test::Fail;
use vt_host_memory::messages::{
    GAVE_ABC, HELLO, LINE, OUR_LINE, READ_ABC, READ_ABD, SYNC, SYNCED, WELCOME, WRITE_ABC,
    WRITE_ABD, WROTE_ABC, WROTE_ABD,
};
use vt_host_memory::{
    Act, Bits, Commands, FILTERED, Given, INDEX, ONE_BUCKET, PARTITIONS, Partitions, Ran, Row,
    Runtime, SMALL_ARENA, THIRD_BYTE, TWO_ARENAS, Talk, Told, are_joined, do_acts, failing_store,
    made, make, numbered, run, see_rows, see_talk, store, told,
};
use vt_memdisk::CrashMode;
use vt_rows::Rows;

/// The types of replies.
const GIVEN: u8 = 13;

const WRITTEN: u8 = 15;

const ALL_SYNCED: u8 = 17;

const SESSION: &[&str] = &["session", "v.conf"];

const SMALL: &[&str] = &["session", "small.conf"];

/// What isn't opened: there is no configuration, or it is refused; there is no partition.
const UNOPENED: &[Row] = &[
    (&["session", "x.conf"], &[], 6, &[], "venti: read fault\n"),
    (
        &["session", "size.conf"],
        &[],
        2,
        &[],
        "venti: config line 4: bad size\n",
    ),
    (
        &["session", "empty.conf"],
        &[],
        2,
        &[],
        "venti: config line 0: no arenas\n",
    ),
    (SESSION, &[], 4, &[], "venti: disk fault\n"),
];

/// A section that isn't in use yet.
const UNUSED: &[Row] = &[(
    SESSION,
    &[LINE, HELLO, WRITE_ABC],
    3,
    &[],
    "venti: i.part: state is 0, want 1\n",
)];

/// A block is written without a sync, and read in the next sessions; the input may end anywhere.
const KEPT: &[Row] = &[
    (
        SESSION,
        &[LINE, HELLO, WRITE_ABC],
        0,
        &[OUR_LINE, WELCOME, WROTE_ABC],
        "",
    ),
    (
        SESSION,
        &[LINE, HELLO, READ_ABC, READ_ABC],
        0,
        &[OUR_LINE, WELCOME, GAVE_ABC, GAVE_ABC],
        "",
    ),
    (
        SESSION,
        &[LINE, HELLO, WRITE_ABC, SYNC],
        0,
        &[OUR_LINE, WELCOME, WROTE_ABC, SYNCED],
        "",
    ),
    (
        SESSION,
        &[LINE, HELLO, READ_ABC, b"\x00"],
        5,
        &[OUR_LINE, WELCOME, GAVE_ABC],
        "venti: cut at 56\n",
    ),
];

/// Its clump on the partition has another byte.
const DAMAGED: &[Row] = &[(
    SESSION,
    &[LINE, HELLO, READ_ABC],
    9,
    &[OUR_LINE, WELCOME, b"\x00\x11\x01\x02\x00\x0dblock damaged"],
    "venti: damaged: want a9993e364706816aba3e25717850c26c9cd0d89d, found \
    cb4cc28df0fdbe0ecf9d9662e294b118092a5735\n",
)];

/// A store from before it is there to a block of it that is damaged.
const STORE: &[Act] = &[
    Act::See(told!("a store that isn't opened"), UNOPENED),
    Act::Make(PARTITIONS),
    Act::See(told!("a section that isn't in use"), UNUSED),
    Act::Make(&[INDEX]),
    Act::See(told!("a block that is kept"), KEPT),
    Act::Spoil("a.part", THIRD_BYTE, b"d"),
    Act::See(told!("a block that is damaged"), DAMAGED),
];

#[test]
fn a_store_is_opened_used_and_damaged(rt: HostRuntime) -> Result<(), Fail> {
    let mut rows = Rows::new();
    do_acts(&rt, &mut rows, STORE)?;
    rows.all()?;
    Ok(())
}

// ---- a full store

/// What a full store says to a write under tag 1.
const ARENAS_FULL: &[u8] = b"\x00\x0f\x01\x01\x00\x0barenas full";

const INDEX_FULL: &[u8] = b"\x00\x0e\x01\x01\x00\x0aindex full";

/// A session in which so many blocks are taken without a sync, the next one is refused, and the
/// first one is still there.
fn too_many(alloc: Global, count: u16, refusal: &[u8]) -> Result<Talk, AllocError> {
    let mut talk = Talk::many(alloc, count)?;
    talk.write_told(&numbered(count), &[refusal])?;
    talk.write(&numbered(0))?;
    Ok(talk)
}

/// A session in which an arena takes, as its first block, one of so many bytes, and none of one byte
/// more.
fn largest(alloc: Global) -> Result<Talk, AllocError> {
    let block = vec![in alloc; 7; 8_130]?;
    let mut talk = Talk::greeted(alloc)?;
    talk.write_told(&block, &[ARENAS_FULL])?;
    talk.write(block.get(1..).unwrap_or(&[]))?;
    Ok(talk)
}

const IN_USE: Told = told!("a session that fills a store");

/// Notes whether a session over a new store, which these commands make, says this.
fn see_new(
    rt: &impl Runtime,
    rows: &mut Rows,
    number: usize,
    commands: Commands,
    talk: &Talk,
) -> Result<(), AllocError> {
    let mut parts = made(rt, rows, commands)?;
    see_talk(rt, rows, &mut parts, &IN_USE, number, SMALL, talk)
}

/// What makes a store, how many blocks it takes, and how it refuses one more.
const FULL: [(Commands, u16, &[u8]); 3] = [
    (SMALL_ARENA, 124, ARENAS_FULL),
    (TWO_ARENAS, 248, ARENAS_FULL),
    (ONE_BUCKET, 263, INDEX_FULL),
];

#[test]
fn a_full_store_refuses_the_next_block(rt: HostRuntime) -> Result<(), Fail> {
    let mut rows = Rows::new();
    for (number, (commands, count, refusal)) in FULL.into_iter().enumerate() {
        let talk = too_many(rt.alloc(), count, refusal)?;
        see_new(&rt, &mut rows, number, commands, &talk)?;
    }
    rows.all()?;
    Ok(())
}

#[test]
fn an_arena_takes_a_block_that_fits(rt: HostRuntime) -> Result<(), Fail> {
    let mut rows = Rows::new();
    let talk = largest(rt.alloc())?;
    see_new(&rt, &mut rows, 0, SMALL_ARENA, &talk)?;
    rows.all()?;
    Ok(())
}

/// An index of one bucket for the arenas of a store, and arenas of the same name.
const BESIDE: Commands = &[
    &["fmtisect", "j.part", "j0", "41472"],
    &["fmtindex", "next.conf"],
    &["fmtarenas", "c.part", "a0", "40960", "32768"],
];

/// More blocks than the buckets have room for, and two partitions of one name.
const REFUSED: &[Row] = &[
    (
        &["session", "next.conf"],
        &[],
        3,
        &[],
        "venti: j.part: crowd is 264, want 263\n",
    ),
    (
        &["session", "twice.conf"],
        &[],
        3,
        &[],
        "venti: c.part: name is that of a.part\n",
    ),
];

const UNFIT: Told = told!("a store that doesn't fit its configuration");

/// A store of 264 blocks.
#[test]
fn a_store_may_not_fit_its_configuration(rt: HostRuntime) -> Result<(), Fail> {
    let mut rows = Rows::new();
    let talk = Talk::many(rt.alloc(), 264)?;
    let mut parts = store(&rt, &mut rows)?;
    see_talk(&rt, &mut rows, &mut parts, &IN_USE, 0, SMALL, &talk)?;
    make(&rt, &mut rows, &mut parts, BESIDE)?;
    see_rows(&rt, &mut rows, &mut parts, &UNFIT, REFUSED)?;
    rows.all()?;
    Ok(())
}

// ---- partitions of which calls fail

/// More calls than are made of a partition in a test.
const FROM_THEN_ON: u64 = 128;

/// The type of the reply with this number, of those behind the server's line.
fn reply(output: &[u8], number: usize) -> u8 {
    let mut left = output.get(OUR_LINE.len()..).unwrap_or(&[]);
    for _ in 0..number {
        let [high, low, ..] = left else {
            return 0;
        };
        let len = usize::from(u16::from_be_bytes([*high, *low]));
        left = left.get(len.saturating_add(2)..).unwrap_or(&[]);
    }
    left.get(2).copied().unwrap_or(0)
}

/// What a crash leaves of the partitions.
fn crash(
    alloc: Global,
    rows: &mut Rows,
    parts: &mut Partitions,
    mode: CrashMode,
) -> Result<(), AllocError> {
    for (name, _) in FILTERED {
        let is_there = parts.crash(alloc, name, mode)?;
        rows.is("a partition that crashes", is_there);
    }
    Ok(())
}

/// What comes in while calls fail.
const SCRIPT: Bits = &[LINE, HELLO, WRITE_ABC, SYNC, WRITE_ABD, SYNC, READ_ABC];

/// What is said where none fails.
const REPLIES: Bits = &[
    OUR_LINE, WELCOME, WROTE_ABC, SYNCED, WROTE_ABD, SYNCED, GAVE_ABC,
];

/// What comes in behind a crash.
const BEHIND: Bits = &[LINE, HELLO, READ_ABC, READ_ABD];

/// Notes whether a session behind a crash finds each block whose write and a sync behind that were
/// answered in `SCRIPT`, and none without the one that was written before.
fn see_found(rows: &mut Rows, call: usize, said: &[u8], ran: &Ran) {
    let abc = reply(&ran.output, 1) == GIVEN;
    let abd = reply(&ran.output, 2) == GIVEN;
    let wrote_abc = reply(said, 1) == WRITTEN;
    let wrote_abd = reply(said, 3) == WRITTEN;
    let synced = reply(said, 4) == ALL_SYNCED;
    let synced_abc = synced || abd || reply(said, 2) == ALL_SYNCED;
    rows.nth(call, "the status behind a crash", ran.status == 0);
    rows.nth(
        call,
        "the first block behind a crash",
        abc || !(wrote_abc && synced_abc),
    );
    rows.nth(
        call,
        "the second block behind a crash",
        abd || !(wrote_abd && synced),
    );
}

/// What a session says in which calls fail: `m` that the store wasn't made; `o` that it wasn't
/// opened; `f` that a request failed; `e` that nothing did but the end; `w` that all went well; `?`
/// anything else.
fn letter(ran: &Ran) -> u8 {
    let well = are_joined(&ran.output, REPLIES);
    match (ran.status, well) {
        (0, true) => b'w',
        (4, true) => b'e',
        (4, false) if ran.output.is_empty() => b'o',
        (4, false) => b'f',
        _ => b'?',
    }
}

/// The letter of a session in which these calls of a partition fail. What it synced is found behind
/// a crash.
fn fails(
    rt: &impl Runtime,
    rows: &mut Rows,
    number: usize,
    call: usize,
    first: u64,
    span: u64,
) -> Result<u8, AllocError> {
    let Some(mut parts) = failing_store(rt, rows, number, first, span)? else {
        return Ok(b'm');
    };
    let ran = run(rt, &mut parts, &Given::new(SESSION, SCRIPT))?;
    crash(
        rt.alloc(),
        rows,
        &mut parts,
        CrashMode::ALL[first as usize % 4],
    )?;
    let found = run(rt, &mut parts, &Given::new(SESSION, BEHIND))?;
    see_found(rows, call, &ran.output, &found);
    Ok(letter(&ran))
}

/// What is said where a call of a partition fails: of this one, in turn from this call on; and what
/// a failed row tells.
type Failing = (usize, u64, &'static [u8], &'static str);

/// One of each partition of `FILTERED`. What a letter says stands at `letter`.
const FAILING: [Failing; 3] = [
    (
        0,
        6,
        b"mmmmoooofffffffffffffwww",
        "where a call of the arenas fails",
    ),
    (
        1,
        30,
        b"mmoooffeeeeeeeeewww",
        "where a call of the section fails",
    ),
    (2, 4, b"mmoooeeeewww", "where a call of the filter fails"),
];

/// It fails alone, or with all of so many behind it. Crashes take turns.
fn see_letters(
    rt: &impl Runtime,
    rows: &mut Rows,
    failing: &Failing,
    span: u64,
) -> Result<(), AllocError> {
    let (number, first, letters, what) = *failing;
    for (call, wanted) in letters.iter().enumerate() {
        let begin = first.saturating_add(call as u64);
        let found = fails(rt, rows, number, call, begin, span)?;
        rows.nth(call, what, found == *wanted);
    }
    Ok(())
}

/// Each call in turn.
#[test]
fn calls_of_a_partition_fail(rt: HostRuntime) -> Result<(), Fail> {
    let mut rows = Rows::new();
    for failing in &FAILING {
        see_letters(&rt, &mut rows, failing, 1)?;
    }
    rows.all()?;
    Ok(())
}

#[test]
fn all_calls_of_a_partition_fail_from_one_on(rt: HostRuntime) -> Result<(), Fail> {
    let mut rows = Rows::new();
    for failing in &FAILING {
        see_letters(&rt, &mut rows, failing, FROM_THEN_ON)?;
    }
    rows.all()?;
    Ok(())
}

/// The first sync of the arenas fails behind opening: what is queued is read, and nothing more is
/// taken.
const STOPPED: &[Row] = &[(
    SESSION,
    &[LINE, HELLO, WRITE_ABC, SYNC, WRITE_ABD, SYNC, READ_ABC],
    4,
    &[
        OUR_LINE,
        WELCOME,
        WROTE_ABC,
        b"\x00\x0e\x01\x03\x00\x0adisk fault",
        b"\x00\x11\x01\x01\x00\x0dstore stopped",
        b"\x00\x11\x01\x03\x00\x0dstore stopped",
        GAVE_ABC,
    ],
    "venti: disk fault\n",
)];

const STOPS: Told = told!("a store that stops");

#[test]
fn a_store_stops_at_a_failed_sync(rt: HostRuntime) -> Result<(), Fail> {
    let mut rows = Rows::new();
    match failing_store(&rt, &mut rows, 0, 15, 1)? {
        Some(mut parts) => see_rows(&rt, &mut rows, &mut parts, &STOPS, STOPPED)?,
        None => rows.is("a store is made", false),
    }
    rows.all()?;
    Ok(())
}

// ---- how many calls are made

/// Whether sessions of these inputs, one behind another over a new store, all end well where each
/// call of the partition with this number fails from this one on.
fn end_well(
    rt: &impl Runtime,
    rows: &mut Rows,
    number: usize,
    first: u64,
    inputs: &[Bits],
) -> Result<bool, AllocError> {
    let Some(mut parts) = failing_store(rt, rows, number, first, FROM_THEN_ON)? else {
        return Ok(false);
    };
    for input in inputs {
        let ran = run(rt, &mut parts, &Given::new(SESSION, input))?;
        if ran.status != 0 {
            return Ok(false);
        }
    }
    Ok(true)
}

/// How many calls of the partition they make, with those that make the store: behind them all may
/// fail.
fn calls(
    rt: &impl Runtime,
    rows: &mut Rows,
    number: usize,
    inputs: &[Bits],
) -> Result<u64, AllocError> {
    let (mut least, mut most) = (0u64, FROM_THEN_ON);
    for _ in 0..8 {
        let middle = least.saturating_add(most) / 2;
        if end_well(rt, rows, number, middle, inputs)? {
            most = middle;
        } else {
            least = middle.saturating_add(1);
        }
    }
    rows.nth(number, "the calls are few", most < FROM_THEN_ON);
    Ok(most)
}

/// Sessions one behind another.
type Sessions = &'static [Bits];

/// A block that was read is in memory.
const READ_ONCE: Sessions = &[&[LINE, HELLO, WRITE_ABC], &[LINE, HELLO, READ_ABC]];

const READ_TWICE: Sessions = &[
    &[LINE, HELLO, WRITE_ABC],
    &[LINE, HELLO, READ_ABC, READ_ABC],
];

/// Opening a store that has a block makes as many calls as opening one that has none: no entry of a
/// directory is read.
const HELD: Sessions = &[&[LINE, HELLO, WRITE_ABC]];

const HELD_OPENED: Sessions = &[&[LINE, HELLO, WRITE_ABC], &[LINE, HELLO]];

const EMPTY: Sessions = &[&[LINE, HELLO]];

const EMPTY_OPENED: Sessions = &[&[LINE, HELLO], &[LINE, HELLO]];

/// How many more calls of the partition these sessions make than those.
fn more_calls(
    rt: &impl Runtime,
    rows: &mut Rows,
    number: usize,
    those: Sessions,
    these: Sessions,
) -> Result<u64, AllocError> {
    let few = calls(rt, rows, number, those)?;
    let many = calls(rt, rows, number, these)?;
    Ok(many.abs_diff(few))
}

#[test]
fn what_is_in_memory_is_not_read(rt: HostRuntime) -> Result<(), Fail> {
    let mut rows = Rows::new();
    for number in 0..3 {
        let more = more_calls(&rt, &mut rows, number, READ_ONCE, READ_TWICE)?;
        rows.nth(number, "a second read makes no calls", more == 0);
        let opened = more_calls(&rt, &mut rows, number, HELD, HELD_OPENED)?;
        let again = more_calls(&rt, &mut rows, number, EMPTY, EMPTY_OPENED)?;
        rows.nth(
            number,
            "a block makes no calls while its store is opened",
            opened == again,
        );
    }
    rows.all()?;
    Ok(())
}
