//! Indices that are rebuilt, and arenas that are checked, over partitions in memory: what is printed,
//! the status, and the line on the fault sink.

use std::alloc::{AllocError, Global};
use std::test::Fail;
use vt_base::{Scorer, Sha1Scorer};
use vt_host_memory::messages::OUR_LINE;
use vt_host_memory::{
    Act, Given, ONE_ARENA, Partitions, Row, Runtime, THIRD_BYTE, TWO_ARENAS, Talk, Told, do_acts,
    failing_store, made, numbered, run, see_row, see_rows, see_talk, told,
};
use vt_rows::Rows;

// ---- arenas

const CHECK: &[&str] = &["checkarenas", "small.conf"];

/// One block is written; and then a byte of it is changed.
const SOUND: &[Row] = &[
    (
        &["write", "small.conf", "13"],
        &[b"abc"],
        0,
        &[b"a9993e364706816aba3e25717850c26c9cd0d89d\n"],
        "",
    ),
    (
        CHECK,
        &[],
        0,
        &[
            b"arena 0: 1 clumps, 41 bytes, unsealed, ok\n",
            b"arena 1: 0 clumps, 0 bytes, unsealed, ok\n",
        ],
        "",
    ),
    (
        &["buildindex", "small.conf"],
        &[],
        0,
        &[b"buildindex: 1 blocks\n"],
        "",
    ),
    (
        &["checkarenas", "x.conf"],
        &[],
        6,
        &[],
        "venti: read fault\n",
    ),
    (
        &["buildindex", "none.conf"],
        &[],
        4,
        &[],
        "venti: disk fault\n",
    ),
];

/// The first arena is damaged; the other one has no blocks.
const DAMAGED: &[Row] = &[(
    CHECK,
    &[],
    9,
    &[
        b"arena 0: 1 clumps, 41 bytes, unsealed, damaged\n",
        b"arena 1: 0 clumps, 0 bytes, unsealed, ok\n",
    ],
    "venti: damaged: want a9993e364706816aba3e25717850c26c9cd0d89d, found \
    cb4cc28df0fdbe0ecf9d9662e294b118092a5735\n",
)];

/// A new store is checked before and behind a change of a byte on its disk.
const CHECKED: &[Act] = &[
    Act::Make(TWO_ARENAS),
    Act::See(told!("arenas that are sound"), SOUND),
    Act::Spoil("a.part", THIRD_BYTE, b"d"),
    Act::See(told!("arenas of which one is damaged"), DAMAGED),
];

#[test]
fn each_arena_has_its_line(rt: HostRuntime) -> Result<(), Fail> {
    let mut rows = Rows::new();
    do_acts(&rt, &mut rows, CHECKED)?;
    rows.all()?;
    Ok(())
}

/// A sink that takes less than the lines ends them.
#[test]
fn a_sink_may_take_no_more(rt: HostRuntime) -> Result<(), Fail> {
    let mut rows = Rows::new();
    let mut parts = made(&rt, &mut rows, TWO_ARENAS)?;
    let given = Given {
        room: 20,
        ..Given::new(CHECK, &[])
    };
    let ran = run(&rt, &mut parts, &given)?;
    rows.is("the status", ran.status == 7);
    rows.is(
        "no more is written than the sink takes",
        ran.output.len() <= 20,
    );
    rows.all()?;
    Ok(())
}

// ---- an index that is lost

/// The section, of which all bytes are lost, is made anew, and its index is rebuilt.
const REBUILT: &[Row] = &[
    (
        &["session", "small.conf"],
        &[],
        3,
        &[],
        "venti: i.part: not formatted\n",
    ),
    (
        &["fmtisect", "i.part", "i0", "92160"],
        &[],
        0,
        &[b"fmtisect i0: 4 buckets\n"],
        "",
    ),
    (
        &["fmtindex", "small.conf"],
        &[],
        0,
        &[b"fmtindex main: 4 buckets in 1 sections\n"],
        "",
    ),
    (
        &["buildindex", "small.conf"],
        &[],
        0,
        &[b"buildindex: 248 blocks\n"],
        "",
    ),
];

/// A session that reads the blocks with the numbers below this one.
fn reads(alloc: Global, count: u16) -> Result<Talk, AllocError> {
    let mut talk = Talk::greeted(alloc)?;
    for number in 0..count {
        read(&mut talk, &numbered(number))?;
    }
    Ok(talk)
}

/// This block of three bytes is read.
fn read(talk: &mut Talk, block: &[u8]) -> Result<(), AllocError> {
    let score = Sha1Scorer.score(block);
    talk.say(
        &[b"\x00\x1a\x0c\x02", &score.0, b"\x0d\x00\x00\x03"],
        &[b"\x00\x05\x0d\x02", block],
    )
}

const SESSION: &[&str] = &["session", "small.conf"];

const WRITES: Told = told!("a session that fills a store");

const READS: Told = told!("a session that reads each block");

const LOST: Told = told!("a section that is lost, and rebuilt");

/// The section is lost, and rebuilt.
fn lose_and_rebuild(
    rt: &impl Runtime,
    rows: &mut Rows,
    parts: &mut Partitions,
) -> Result<(), AllocError> {
    let zeros = vec![in rt.alloc(); 0u8; 92_160]?;
    let is_lost = parts.spoil(rt.alloc(), "i.part", 0, &zeros)?;
    rows.is("the section is lost", is_lost);
    see_rows(rt, rows, parts, &LOST, REBUILT)
}

/// Both arenas are full, and each block is found as before.
#[test]
fn a_lost_index_is_rebuilt(rt: HostRuntime) -> Result<(), Fail> {
    let mut rows = Rows::new();
    let written = Talk::many(rt.alloc(), 248)?;
    let read = reads(rt.alloc(), 248)?;
    let mut parts = made(&rt, &mut rows, TWO_ARENAS)?;
    see_talk(&rt, &mut rows, &mut parts, &WRITES, 0, SESSION, &written)?;
    see_talk(&rt, &mut rows, &mut parts, &READS, 0, SESSION, &read)?;
    lose_and_rebuild(&rt, &mut rows, &mut parts)?;
    see_talk(&rt, &mut rows, &mut parts, &READS, 1, SESSION, &read)?;
    rows.all()?;
    Ok(())
}

// ---- an index that has no room

/// Of a section of one bucket nothing is put to use, where that has no room for all blocks.
const FULL: &[Row] = &[
    (
        &["fmtisect", "j.part", "j0", "41472"],
        &[],
        0,
        &[b"fmtisect j0: 1 buckets\n"],
        "",
    ),
    (
        &["buildindex", "next.conf"],
        &[],
        10,
        &[],
        "venti: index full\n",
    ),
    (
        &["checkarenas", "next.conf"],
        &[],
        3,
        &[],
        "venti: j.part: state is 0, want 1\n",
    ),
];

const NO_ROOM: Told = told!("a section that has no room");

/// There is one block more than a bucket takes.
#[test]
fn an_index_may_have_no_room(rt: HostRuntime) -> Result<(), Fail> {
    let mut rows = Rows::new();
    let written = Talk::many(rt.alloc(), 264)?;
    let mut parts = made(&rt, &mut rows, ONE_ARENA)?;
    see_talk(&rt, &mut rows, &mut parts, &WRITES, 0, SESSION, &written)?;
    see_rows(&rt, &mut rows, &mut parts, &NO_ROOM, FULL)?;
    rows.all()?;
    Ok(())
}

// ---- an index that is half rebuilt

/// The call of the section that fails: behind those that make it and put it to use, and those by
/// which its head says that it is being built.
const FAILING: u64 = 39;

/// What is told of a section that is being built.
const STATE: &str = "venti: i.part: state is 2, want 1: run buildindex\n";

/// The score of `abc`, by SHA-1.
const SCORE: &str = "a9993e364706816aba3e25717850c26c9cd0d89d";

/// Then nothing else is done before the index is rebuilt or made anew.
const STOPPED: &[Row] = &[
    (
        &["buildindex", "v.conf"],
        &[],
        4,
        &[],
        "venti: disk fault\n",
    ),
    (&["session", "v.conf"], &[], 3, &[], STATE),
    (&["read", "v.conf", SCORE, "13"], &[], 3, &[], STATE),
    (&["write", "v.conf", "13"], &[], 3, &[], STATE),
    (&["vac", "v.conf", "nowhere"], &[], 3, &[], STATE),
    (&["vacfs", "v.conf", SCORE], &[], 3, &[], STATE),
    (&["checkarenas", "v.conf"], &[], 3, &[], STATE),
];

/// The two commands by which it is in use again.
const BEHIND: [Row; 2] = [
    (
        &["buildindex", "v.conf"],
        &[],
        0,
        &[b"buildindex: 0 blocks\n"],
        "",
    ),
    (
        &["fmtindex", "v.conf"],
        &[],
        0,
        &[b"fmtindex main: 1 buckets in 1 sections\n"],
        "",
    ),
];

/// It is in use, and has no blocks.
const USED: &[Row] = &[
    (
        &["checkarenas", "v.conf"],
        &[],
        0,
        &[b"arena 0: 0 clumps, 0 bytes, unsealed, ok\n"],
        "",
    ),
    (&["session", "v.conf"], &[], 0, &[OUR_LINE], ""),
];

const HALF: Told = told!("an index that is half rebuilt");

const ANEW: Told = told!("an index that is made anew");

const USES: Told = told!("an index that was made anew");

/// A store whose index is half rebuilt is in use again behind this command.
fn see_stopped(
    rt: &impl Runtime,
    rows: &mut Rows,
    number: usize,
    behind: &Row,
) -> Result<(), AllocError> {
    let Some(mut parts) = failing_store(rt, rows, 1, FAILING, 1)? else {
        rows.is("a store is made", false);
        return Ok(());
    };
    see_rows(rt, rows, &mut parts, &HALF, STOPPED)?;
    see_row(rt, rows, &mut parts, &ANEW, number, behind)?;
    see_rows(rt, rows, &mut parts, &USES, USED)
}

#[test]
fn a_stopped_index_is_made_anew(rt: HostRuntime) -> Result<(), Fail> {
    let mut rows = Rows::new();
    for (number, behind) in BEHIND.iter().enumerate() {
        see_stopped(&rt, &mut rows, number, behind)?;
    }
    rows.all()?;
    Ok(())
}
