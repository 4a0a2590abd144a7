//! Blocks that go to the store of a configuration and come back: words, what comes in, the status,
//! what goes out, and the line on the fault sink.

use std::alloc::{AllocError, Global};
use std::test::Fail;
use vt_base::{Scorer, Sha1Scorer, score_text};
use vt_host_memory::messages::OUR_LINE;
use vt_host_memory::{
    Act, Commands, Given, ONE_ARENA, ONE_BUCKET, Partitions, Ran, Row, Runtime, SMALL_ARENA, Talk,
    Told, Wanted, do_acts, made, run, see_talk, told,
};
use vt_rows::Rows;

/// The score of `abc`, and that as a line.
const A: &str = "a9993e364706816aba3e25717850c26c9cd0d89d";

const A_LINE: &[u8] = b"a9993e364706816aba3e25717850c26c9cd0d89d\n";

/// The score of no bytes.
const ZERO: &str = "da39a3ee5e6b4b0d3255bfef95601890afd80709";

/// Words that aren't those of a block, and a store that isn't opened.
const REFUSED: &[Row] = &[
    (
        &["read", "small.conf", "abc", "13"],
        &[],
        5,
        &[],
        "venti: bad score at 3\n",
    ),
    (
        &["read", "small.conf", A, "256"],
        &[],
        5,
        &[],
        "venti: bad number at 0\n",
    ),
    (
        &["read", "small.conf", A, "1x"],
        &[],
        5,
        &[],
        "venti: bad number at 1\n",
    ),
    (
        &["read", "small.conf", A, "10"],
        &[],
        11,
        &[],
        "venti: refused: bad type\n",
    ),
    (
        &["write", "small.conf", "0"],
        &[b"abc"],
        11,
        &[],
        "venti: refused: bad type\n",
    ),
    (
        &["write", "small.conf", ""],
        &[b"abc"],
        5,
        &[],
        "venti: bad number at 0\n",
    ),
    (
        &["write", "x.conf", "13"],
        &[b"abc"],
        6,
        &[],
        "venti: read fault\n",
    ),
    (
        &["read", "size.conf", A, "13"],
        &[],
        2,
        &[],
        "venti: config line 4: bad size\n",
    ),
    (
        &["write", "small.conf", "13"],
        &[b"abc"],
        4,
        &[],
        "venti: disk fault\n",
    ),
    (
        &["read", "small.conf", A, "13"],
        &[],
        4,
        &[],
        "venti: disk fault\n",
    ),
];

/// A block, and that of no bytes, which every store has.
const KEPT: &[Row] = &[
    (
        &["read", "small.conf", A, "13"],
        &[],
        11,
        &[],
        "venti: refused: no such block\n",
    ),
    (&["write", "small.conf", "13"], &[b"abc"], 0, &[A_LINE], ""),
    (&["write", "small.conf", "13"], &[b"abc"], 0, &[A_LINE], ""),
    (&["read", "small.conf", A, "13"], &[], 0, &[b"abc"], ""),
    (
        &[
            "read",
            "small.conf",
            "vac:A9993E364706816aba3e25717850c26c9cd0d89d",
            "13",
        ],
        &[],
        0,
        &[b"abc"],
        "",
    ),
    (
        &["read", "small.conf", A, "2"],
        &[],
        11,
        &[],
        "venti: refused: no such block\n",
    ),
    (
        &["write", "small.conf", "2"],
        &[],
        0,
        &[b"da39a3ee5e6b4b0d3255bfef95601890afd80709\n"],
        "",
    ),
    (&["read", "small.conf", ZERO, "13"], &[], 0, &[], ""),
    (&["session", "small.conf"], &[], 0, &[OUR_LINE], ""),
];

/// Blocks are written and read by commands, once there is a store.
const BLOCK: &[Act] = &[
    Act::See(told!("what is refused"), REFUSED),
    Act::Make(ONE_ARENA),
    Act::See(told!("a block that is kept"), KEPT),
];

#[test]
fn a_block_goes_in_and_comes_out(rt: HostRuntime) -> Result<(), Fail> {
    let mut rows = Rows::new();
    do_acts(&rt, &mut rows, BLOCK)?;
    rows.all()?;
    Ok(())
}

const WRITE: &[&str] = &["write", "small.conf", "13"];

const WRITES: Told = told!("a block that is written");

/// Runs the program with a write of this block.
fn run_write(rt: &impl Runtime, parts: &mut Partitions, block: &[u8]) -> Result<Ran, AllocError> {
    let input = [block];
    run(rt, parts, &Given::new(WRITE, &input))
}

/// The status, and the line on the fault sink.
type End = (u8, &'static str);

/// Notes whether this score is printed.
fn see_score(rows: &mut Rows, number: usize, ran: &Ran, score: &[u8]) {
    let wanted = Wanted {
        status: 0,
        output: &[score, b"\n"],
        complaint: b"",
    };
    ran.see(rows, number, &WRITES, &wanted);
}

/// Notes whether nothing is printed, and the run ends so.
fn see_end(rows: &mut Rows, number: usize, ran: &Ran, end: &End) {
    let (status, complaint) = *end;
    let wanted = Wanted {
        status,
        output: &[],
        complaint: complaint.as_bytes(),
    };
    ran.see(rows, number, &WRITES, &wanted);
}

/// Notes whether a write of this block ends so. Where it is well, its score is printed.
fn see_write(
    rt: &impl Runtime,
    rows: &mut Rows,
    parts: &mut Partitions,
    number: usize,
    block: &[u8],
    end: &End,
) -> Result<(), AllocError> {
    let score = score_text(rt.alloc(), &Sha1Scorer.score(block))?;
    let ran = run_write(rt, parts, block)?;
    if end.0 == 0 {
        see_score(rows, number, &ran, score.as_slice());
    } else {
        see_end(rows, number, &ran, end);
    }
    Ok(())
}

/// A block of so many bytes is written, and ends so.
type Length = (usize, End);

/// What makes a store, and the blocks that are written to it: what it takes, and what it refuses before.
const LENGTHS: [(Commands, &[Length]); 2] = [
    (
        SMALL_ARENA,
        &[
            (8_130, (10, "venti: arenas full\n")),
            (57_344, (10, "venti: arenas full\n")),
            (57_345, (11, "venti: refused: block too big\n")),
            (8_129, (0, "")),
        ],
    ),
    (
        ONE_ARENA,
        &[
            (57_344, (0, "")),
            (57_345, (11, "venti: refused: block too big\n")),
        ],
    ),
];

/// Notes whether a store takes blocks of these lengths, and refuses them, as they say.
fn see_lengths(
    rt: &impl Runtime,
    rows: &mut Rows,
    parts: &mut Partitions,
    lengths: &[Length],
) -> Result<(), AllocError> {
    for (number, (len, end)) in lengths.iter().enumerate() {
        let block = vec![in rt.alloc(); 7; *len]?;
        see_write(rt, rows, parts, number, &block, end)?;
    }
    Ok(())
}

/// The largest block goes to a store that has room for it, and no larger one to any.
#[test]
fn a_block_may_be_too_large(rt: HostRuntime) -> Result<(), Fail> {
    let mut rows = Rows::new();
    for (commands, lengths) in LENGTHS {
        let mut parts = made(&rt, &mut rows, commands)?;
        see_lengths(&rt, &mut rows, &mut parts, lengths)?;
    }
    rows.all()?;
    Ok(())
}

/// A session that writes so many blocks, each of two bytes.
fn writes(alloc: Global, count: u16) -> Result<Talk, AllocError> {
    let mut talk = Talk::greeted(alloc)?;
    for n in 0..count {
        talk.write(&n.to_be_bytes())?;
    }
    Ok(talk)
}

const FILLS: Told = told!("a session that fills a bucket");

/// A store whose one bucket is full.
fn full(rt: &impl Runtime, rows: &mut Rows) -> Result<Partitions, AllocError> {
    let talk = writes(rt.alloc(), 263)?;
    let mut parts = made(rt, rows, ONE_BUCKET)?;
    let words = ["session", "small.conf"];
    see_talk(rt, rows, &mut parts, &FILLS, 0, &words, &talk)?;
    Ok(parts)
}

/// There a block that stands there is written again, and no other one is.
#[test]
fn a_bucket_may_be_full(rt: HostRuntime) -> Result<(), Fail> {
    let mut rows = Rows::new();
    let mut parts = full(&rt, &mut rows)?;
    see_write(
        &rt,
        &mut rows,
        &mut parts,
        0,
        b"abc",
        &(10, "venti: index full\n"),
    )?;
    see_write(&rt, &mut rows, &mut parts, 1, b"\x00\x07", &(0, ""))?;
    rows.all()?;
    Ok(())
}
