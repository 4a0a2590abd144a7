//! Sessions from outside: what goes in, what comes out, the status and the line on the fault sink.

use std::alloc::AllocError;
use std::test::Fail;
use vt_base::{Scorer, Sha1Scorer, ShortScorer};
use vt_host_memory::messages::{
    GAVE_ABC, GOODBYE, HELLO, LINE, OUR_LINE, READ_ABC, SYNC, SYNCED, WELCOME, WRITE_ABC, WROTE_ABC,
};
use vt_host_memory::{
    Act, Bits, Given, Part, Partitions, Row, Runtime, Talk, Told, Wanted, do_acts, run,
    run_patient, run_scored, store, told,
};
use vt_rows::Rows;

/// The scores of `abc` and of no bytes.
const SCORE_ABC: &[u8] =
    b"\xa9\x99\x3e\x36\x47\x06\x81\x6a\xba\x3e\x25\x71\x78\x50\xc2\x6c\x9c\xd0\xd8\x9d";

const ZERO_SCORE: &[u8] =
    b"\xda\x39\xa3\xee\x5e\x6b\x4b\x0d\x32\x55\xbf\xef\x95\x60\x18\x90\xaf\xd8\x07\x09";

/// How the reply to a write under tag 1 begins, and a read under tag 2: a score comes behind it.
const WROTE: &[u8] = b"\x00\x16\x0f\x01";

const READ: &[u8] = b"\x00\x1a\x0c\x02";

/// A ping, and its reply.
const PING: &[u8] = b"\x00\x02\x02\x05";

const PONG: &[u8] = b"\x00\x02\x03\x05";

/// A hello of version 03, and what is said to it and where there was no hello.
const THIRD: &[u8] = b"\x00\x0b\x04\x00\x00\x0203\x00\x00\x00\x00\x00";

const NOT_AGREED: &[u8] = b"\x00\x16\x01\x00\x00\x12version not agreed";

const EXPECTED: &[u8] = b"\x00\x12\x01\x05\x00\x0ehello expected";

/// What is said to a write under tag 1 whose score another block has.
const COLLISION: &[u8] = b"\x00\x13\x01\x01\x00\x0fscore collision";

/// What comes in, what goes out, the status, and the line on the fault sink.
type Session<'a> = (&'a [&'a [u8]], &'a [&'a [u8]], u8, &'a str);

/// Sessions one behind another, over the same store.
const TALKS: [Session<'static>; 22] = [
    // Blocks are written and read.
    (&[LINE, HELLO], &[OUR_LINE, WELCOME], 0, ""),
    (
        &[LINE, HELLO, WRITE_ABC, WRITE_ABC],
        &[OUR_LINE, WELCOME, WROTE_ABC, WROTE_ABC],
        0,
        "",
    ),
    (
        &[LINE, HELLO, WRITE_ABC, READ_ABC],
        &[OUR_LINE, WELCOME, WROTE_ABC, GAVE_ABC],
        0,
        "",
    ),
    (
        &[LINE, HELLO, WRITE_ABC, READ, SCORE_ABC, b"\x0d\x00\x00\x02"],
        &[
            OUR_LINE,
            WELCOME,
            WROTE_ABC,
            b"\x00\x13\x01\x02\x00\x0fcount too small",
        ],
        0,
        "",
    ),
    (
        &[LINE, HELLO, WRITE_ABC, READ, SCORE_ABC, b"\x02\x00\x00\x03"],
        &[
            OUR_LINE,
            WELCOME,
            WROTE_ABC,
            b"\x00\x11\x01\x02\x00\x0dno such block",
        ],
        0,
        "",
    ),
    (
        &[LINE, HELLO, b"\x00\x06\x0e\x01\x0d\x00\x00\x00"],
        &[OUR_LINE, WELCOME, WROTE, ZERO_SCORE],
        0,
        "",
    ),
    (
        &[LINE, HELLO, READ, ZERO_SCORE, b"\x0d\x00\x00\x00"],
        &[OUR_LINE, WELCOME, b"\x00\x02\x0d\x02"],
        0,
        "",
    ),
    // Other messages, and some that are refused.
    (
        &[LINE, HELLO, SYNC, PING, GOODBYE, PING],
        &[OUR_LINE, WELCOME, SYNCED, PONG],
        0,
        "",
    ),
    (
        &[LINE, HELLO, b"\x00\x06\x0e\x01\x0a\x00\x00\x00"],
        &[OUR_LINE, WELCOME, b"\x00\x0c\x01\x01\x00\x08bad type"],
        0,
        "",
    ),
    (
        &[LINE, HELLO, HELLO],
        &[OUR_LINE, WELCOME, b"\x00\x12\x01\x00\x00\x0ehello repeated"],
        0,
        "",
    ),
    (
        &[
            LINE,
            HELLO,
            b"\x00\x1b\x0c\x02",
            SCORE_ABC,
            b"\x0d\x00\x00\x03\x00",
        ],
        &[OUR_LINE, WELCOME, b"\x00\x0f\x01\x02\x00\x0bbad message"],
        0,
        "",
    ),
    (
        &[LINE, HELLO, b"\x00\x02\x63\x07", PING],
        &[
            OUR_LINE,
            WELCOME,
            b"\x00\x13\x01\x07\x00\x0funknown message",
            PONG,
        ],
        0,
        "",
    ),
    (
        &[LINE, HELLO, b"\x00\x03\x06\x07x", PING],
        &[
            OUR_LINE,
            WELCOME,
            b"\x00\x0f\x01\x07\x00\x0bbad message",
            PONG,
        ],
        0,
        "",
    ),
    // There is no hello, or none that can be accepted.
    (&[LINE, PING, HELLO], &[OUR_LINE, EXPECTED, WELCOME], 0, ""),
    (
        &[LINE, THIRD, HELLO],
        &[OUR_LINE, NOT_AGREED, WELCOME],
        0,
        "",
    ),
    (
        &[b"venti-04:03-test\n", HELLO, PING],
        &[OUR_LINE, NOT_AGREED, EXPECTED],
        0,
        "",
    ),
    (&[LINE, GOODBYE, HELLO], &[OUR_LINE], 0, ""),
    // The input ends badly.
    (&[b"v"], &[OUR_LINE], 5, "venti: cut at 1\n"),
    (&[b"xyz\n"], &[OUR_LINE], 5, "venti: malformed at 0\n"),
    (&[b"venti-02\n"], &[OUR_LINE], 5, "venti: malformed at 8\n"),
    (&[LINE, b"\x00"], &[OUR_LINE], 5, "venti: cut at 15\n"),
    (
        &[LINE, b"\x00\x01\x02\x00"],
        &[OUR_LINE],
        5,
        "venti: malformed at 14\n",
    ),
];

/// Blocks with one score, and no other bytes under it.
const COLLISIONS: Session<'static> = (
    &[
        LINE,
        HELLO,
        WRITE_ABC,
        b"\x00\x09\x0e\x01\x0d\x00\x00\x00abd",
        b"\x00\x09\x0e\x01\x02\x00\x00\x00abd",
        b"\x00\x09\x0e\x01\x02\x00\x00\x00abc",
        b"\x00\x07\x0e\x01\x0d\x00\x00\x00\x00",
    ],
    &[
        OUR_LINE, WELCOME, WROTE, b"a", &[0; 19], COLLISION, COLLISION, WROTE, b"a", &[0; 19],
        COLLISION,
    ],
    0,
    "",
);

/// Words that ask for a session, and what a failed row of such tells.
pub(crate) type Over = (&'static [&'static str], Told);

/// Sessions are held over a store of each kind: one in memory, and that of a configuration.
pub(crate) const OVER: [Over; 2] = [
    (
        &["session", ":memory:"],
        told!("a session over the store in memory"),
    ),
    (
        &["session", "v.conf"],
        told!("a session over the store of a configuration"),
    ),
];

/// Notes whether a session over a store of each kind leaves what is said of it.
fn see_session<C: Scorer + Sync>(
    rt: &impl Runtime,
    rows: &mut Rows,
    parts: &mut Partitions,
    number: usize,
    session: &Session<'_>,
    scorer: &C,
) -> Result<(), AllocError> {
    let (input, output, status, complaint) = *session;
    let wanted = Wanted {
        status,
        output,
        complaint: complaint.as_bytes(),
    };
    for (words, told) in &OVER {
        let ran = run_scored(rt, parts, &Given::new(words, input), scorer)?;
        ran.see(rows, number, told, &wanted);
    }
    Ok(())
}

/// Notes whether sessions go as `TALKS` says.
fn see_talks(rt: &impl Runtime, rows: &mut Rows, parts: &mut Partitions) -> Result<(), AllocError> {
    for (number, talk) in TALKS.iter().enumerate() {
        see_session(rt, rows, parts, number, talk, &Sha1Scorer)?;
    }
    Ok(())
}

#[test]
fn sessions_are_answered(rt: HostRuntime) -> Result<(), Fail> {
    let mut rows = Rows::new();
    let mut parts = store(&rt, &mut rows)?;
    see_talks(&rt, &mut rows, &mut parts)?;
    rows.all()?;
    Ok(())
}

// ---- what is no message

/// Messages under tag 9 whose types a client may not send.
const UNKNOWN_TYPES: [&[u8]; 12] = [
    b"\x00\x02\x01\x09",
    b"\x00\x02\x03\x09",
    b"\x00\x02\x07\x09",
    b"\x00\x02\x08\x09",
    b"\x00\x02\x09\x09",
    b"\x00\x02\x0a\x09",
    b"\x00\x02\x0b\x09",
    b"\x00\x02\x0d\x09",
    b"\x00\x02\x0f\x09",
    b"\x00\x02\x11\x09",
    b"\x00\x02\x12\x09",
    b"\x00\x02\xff\x09",
];

/// What is said to each.
const NOBODY_KNOWS: &[u8] = b"\x00\x13\x01\x09\x00\x0funknown message";

/// Notes whether a session in which this message comes is told that nobody knows it.
fn see_unknown(
    rt: &impl Runtime,
    rows: &mut Rows,
    parts: &mut Partitions,
    number: usize,
    message: &[u8],
) -> Result<(), AllocError> {
    let session: Session<'_> = (
        &[LINE, HELLO, message],
        &[OUR_LINE, WELCOME, NOBODY_KNOWS],
        0,
        "",
    );
    see_session(rt, rows, parts, number, &session, &Sha1Scorer)
}

#[test]
fn types_may_be_unknown(rt: HostRuntime) -> Result<(), Fail> {
    let mut rows = Rows::new();
    let mut parts = store(&rt, &mut rows)?;
    for (number, message) in UNKNOWN_TYPES.into_iter().enumerate() {
        see_unknown(&rt, &mut rows, &mut parts, number, message)?;
    }
    rows.all()?;
    Ok(())
}

/// What is said to a hello under tag 7 that is none.
const BAD_HELLO: &[u8] = b"\x00\x0f\x01\x07\x00\x0bbad message";

/// A version of 1,025 bytes, one with a zero byte, and more codecs than the message has; then what ends the session: a
/// size without a message, a size of no message, and a line of 1,025 bytes.
const BAD_MESSAGES: [Session<'static>; 6] = [
    (
        &[
            LINE,
            HELLO,
            b"\x04\x0a\x04\x07\x04\x01",
            &[b'0'; 1_025],
            b"\x00\x00\x00\x00\x00",
        ],
        &[OUR_LINE, WELCOME, BAD_HELLO],
        0,
        "",
    ),
    (
        &[
            LINE,
            HELLO,
            b"\x00\x0b\x04\x07\x00\x020\x00\x00\x00\x00\x00\x00",
        ],
        &[OUR_LINE, WELCOME, BAD_HELLO],
        0,
        "",
    ),
    (
        &[
            LINE,
            HELLO,
            b"\x00\x0d\x04\x07\x00\x0202\x00\x00\x00\x00\x05ab",
        ],
        &[OUR_LINE, WELCOME, BAD_HELLO],
        0,
        "",
    ),
    (
        &[LINE, HELLO, b"\xff\xff"],
        &[OUR_LINE, WELCOME],
        5,
        "venti: cut at 29\n",
    ),
    (
        &[LINE, HELLO, b"\x00\x00"],
        &[OUR_LINE, WELCOME],
        5,
        "venti: malformed at 27\n",
    ),
    (
        &[b"venti-02-", &[b'x'; 1_015], b"\n"],
        &[OUR_LINE],
        5,
        "venti: malformed at 1024\n",
    ),
];

#[test]
fn messages_may_be_bad(rt: HostRuntime) -> Result<(), Fail> {
    let mut rows = Rows::new();
    let mut parts = store(&rt, &mut rows)?;
    for (number, session) in BAD_MESSAGES.iter().enumerate() {
        see_session(&rt, &mut rows, &mut parts, number, session, &Sha1Scorer)?;
    }
    rows.all()?;
    Ok(())
}

// ---- blocks

/// A session in which the largest block is taken, and a larger one isn't.
fn large_blocks(rt: &impl Runtime) -> Result<Talk, AllocError> {
    let alloc = rt.alloc();
    let block = vec![in alloc; 7; 57_345]?;
    let mut talk = Talk::greeted(alloc)?;
    talk.write(block.get(1..).unwrap_or(&[]))?;
    talk.write_told(&block, &[b"\x00\x11\x01\x01\x00\x0dblock too big"])?;
    Ok(talk)
}

#[test]
fn a_block_has_57344_bytes_at_most(rt: HostRuntime) -> Result<(), Fail> {
    let mut rows = Rows::new();
    let talk = large_blocks(&rt)?;
    let mut parts = store(&rt, &mut rows)?;
    let session: Session<'_> = (&[&talk.asked], &[&talk.replied], 0, "");
    see_session(&rt, &mut rows, &mut parts, 0, &session, &Sha1Scorer)?;
    rows.all()?;
    Ok(())
}

#[test]
fn scores_may_collide(rt: HostRuntime) -> Result<(), Fail> {
    let mut rows = Rows::new();
    let mut parts = store(&rt, &mut rows)?;
    see_session(&rt, &mut rows, &mut parts, 0, &COLLISIONS, &ShortScorer)?;
    rows.all()?;
    Ok(())
}

/// A session of a write, a read, a sync and a goodbye.
const SAMPLE: Bits = &[LINE, HELLO, WRITE_ABC, READ_ABC, SYNC, GOODBYE];

/// What it gives.
const SAMPLE_OUTPUT: Bits = &[OUR_LINE, WELCOME, WROTE_ABC, GAVE_ABC, SYNCED];

/// It ends well.
const WELL: Wanted<'static> = Wanted {
    status: 0,
    output: SAMPLE_OUTPUT,
    complaint: b"",
};

/// How many bytes come in at a time.
const CUTS: [usize; 5] = [1, 2, 3, 5, 65_537];

/// What a session is given whose input comes in such pieces.
fn in_pieces<'a>(words: &'a [&'a str], pieces: &'a [usize]) -> Given<'a> {
    Given {
        pieces,
        ..Given::new(words, SAMPLE)
    }
}

/// Input in pieces of so many bytes gives the same output.
fn see_pieces(
    rt: &impl Runtime,
    rows: &mut Rows,
    parts: &mut Partitions,
    number: usize,
    cut: usize,
    over: &Over,
) -> Result<(), AllocError> {
    let (words, told) = over;
    let pieces = [cut];
    let ran = run(rt, parts, &in_pieces(words, &pieces))?;
    ran.see(rows, number, told, &WELL);
    Ok(())
}

/// The same, over a store of either kind.
fn see_cut(
    rt: &impl Runtime,
    rows: &mut Rows,
    parts: &mut Partitions,
    number: usize,
    cut: usize,
) -> Result<(), AllocError> {
    for over in &OVER {
        see_pieces(rt, rows, parts, number, cut, over)?;
    }
    Ok(())
}

#[test]
fn pieces_leave_the_same(rt: HostRuntime) -> Result<(), Fail> {
    let mut rows = Rows::new();
    let mut parts = store(&rt, &mut rows)?;
    for (number, cut) in CUTS.into_iter().enumerate() {
        see_cut(&rt, &mut rows, &mut parts, number, cut)?;
    }
    rows.all()?;
    Ok(())
}

/// Words that are no command: nothing is read or answered.
const BAD_WORDS: &[Row] = &[
    (&["session"], SAMPLE, 1, &[], BAD),
    (&["serve", ":memory:"], SAMPLE, 1, &[], BAD),
    (&["session", ":memory:", "more"], SAMPLE, 1, &[], BAD),
];

/// What goes to the fault sink for each of these.
const BAD: &str = "venti: bad command line\n";

/// Runs without any partition.
const UNKNOWN: &[Act] = &[Act::See(told!("words that are no command"), BAD_WORDS)];

#[test]
fn words_may_be_no_command(rt: HostRuntime) -> Result<(), Fail> {
    let mut rows = Rows::new();
    do_acts(&rt, &mut rows, UNKNOWN)?;
    rows.all()?;
    Ok(())
}

/// What a patient client sends, and how many bytes it is told before it sends more.
const PATIENT: [Part; 6] = [
    (LINE, 0),
    (HELLO, WELCOME.len()),
    (WRITE_ABC, WROTE_ABC.len()),
    (READ_ABC, GAVE_ABC.len()),
    (SYNC, SYNCED.len()),
    (GOODBYE, 0),
];

/// A client that waits for each reply gets it, over a store of either kind.
fn see_waits(
    rt: &impl Runtime,
    rows: &mut Rows,
    parts: &mut Partitions,
    number: usize,
    cut: usize,
) -> Result<(), AllocError> {
    for (words, told) in &OVER {
        run_patient(rt, parts, words, &PATIENT, cut)?.see(rows, number, told, &WELL);
    }
    Ok(())
}

/// However its bytes come in.
#[test]
fn no_reply_waits(rt: HostRuntime) -> Result<(), Fail> {
    let mut rows = Rows::new();
    let mut parts = store(&rt, &mut rows)?;
    for (number, cut) in CUTS.into_iter().enumerate() {
        see_waits(&rt, &mut rows, &mut parts, number, cut)?;
    }
    rows.all()?;
    Ok(())
}
