//! Inputs, byte for byte, and what is heard of them, whole and in pieces.

use crate::tables::{each, in_turn};
use std::alloc::Global;
use std::test::Fail;
use vt_base::{Operation, Score};
use vt_rows::Rows;
use vt_session::{Ended, Next, Talker};
use vt_wire::ProtocolCause;

/// The line of a client that offers version 02, and of one that offers 04 alone.
const LINE: &[u8] = b"venti-02-test\n";

const LINE_04: &[u8] = b"venti-04-test\n";

/// A hello of version 02, and one of 03.
const HELLO: &[u8] = b"\x00\x0b\x04\x00\x00\x0202\x00\x00\x00\x00\x00";

const HELLO_03: &[u8] = b"\x00\x0b\x04\x07\x00\x0203\x00\x00\x00\x00\x00";

/// A read of `abc` by its score.
const READ: &[u8] =
    b"\x00\x1a\x0c\x02\xa9\x99\x3e\x36\x47\x06\x81\x6a\xba\x3e\x25\x71\x78\x50\xc2\x6c\
    \x9c\xd0\xd8\x9d\x0d\x00\x00\x03";

/// A read without its last byte, and one with a byte too many.
const CUT_READ: &[u8] =
    b"\x00\x1a\x0c\x02\xa9\x99\x3e\x36\x47\x06\x81\x6a\xba\x3e\x25\x71\x78\x50\xc2\x6c\
    \x9c\xd0\xd8\x9d\x0d\x00\x00";

const LONG_READ: &[u8] =
    b"\x00\x1b\x0c\x09\xa9\x99\x3e\x36\x47\x06\x81\x6a\xba\x3e\x25\x71\x78\x50\xc2\x6c\
    \x9c\xd0\xd8\x9d\x0d\x00\x00\x03\x00";

/// A line that is too long, and its front.
const LONG_LINE: &[u8] = &[b'v'; 1_025];

const CUT_LINE: &[u8] = &[b'v'; 1_024];

/// Messages of types that no request has.
const UNKNOWN: &[u8] = b"\x00\x02\x63\x08";

const TWO_UNKNOWN: &[u8] = b"\x00\x02\x63\x08\x00\x04\x03\xff\x00\x00";

/// A message of a type that only replies have.
const SYNC_REPLY: &[u8] = b"\x00\x02\x11\x01";

/// A write of `abc` as a block of type 13, one of no bytes, and the requests without a block.
const WRITE: &[u8] = b"\x00\x09\x0e\x01\x0d\x00\x00\x00abc";

const EMPTY_WRITE: &[u8] = b"\x00\x06\x0e\x03\x0d\x00\x00\x00";

const SYNC: &[u8] = b"\x00\x02\x10\x03";

const PING: &[u8] = b"\x00\x02\x02\x05";

const GOODBYE: &[u8] = b"\x00\x02\x06\x04";

/// What is heard of them.
const HEARD_HELLO: Next = Next::Hello(0);

const HEARD_READ: Next = Next::Ask(
    2,
    Operation::Read {
        score: Score(
            *b"\xa9\x99\x3e\x36\x47\x06\x81\x6a\xba\x3e\x25\x71\x78\x50\xc2\x6c\x9c\xd0\xd8\x9d",
        ),
        kind: 13,
        count: 3,
    },
);

const HEARD_WRITE: Next = Next::Ask(
    1,
    Operation::Write {
        kind: 13,
        bytes: b"abc",
    },
);

const HEARD_EMPTY: Next = Next::Ask(
    3,
    Operation::Write {
        kind: 13,
        bytes: b"",
    },
);

const HEARD_SYNC: Next = Next::Ask(3, Operation::Sync);

const HEARD_PING: Next = Next::Ping(5);

/// What is heard of a ping before the hello, and of a hello of version 03 or of the other line.
const EARLY: Next = Next::Refused(ProtocolCause::HelloExpected, 5);

const NOT_03: Next = Next::Refused(ProtocolCause::VersionNotAgreed, 7);

const NOT_02: Next = Next::Refused(ProtocolCause::VersionNotAgreed, 0);

/// What is heard of a second hello.
const AGAIN: Next = Next::Refused(ProtocolCause::HelloRepeated, 0);

const AGAIN_03: Next = Next::Refused(ProtocolCause::HelloRepeated, 7);

/// What is heard of messages of unknown types.
const UNHEARD: Next = Next::Refused(ProtocolCause::UnknownMessage, 8);

const UNHEARD_ERROR: Next = Next::Refused(ProtocolCause::UnknownMessage, 255);

const UNHEARD_SYNC: Next = Next::Refused(ProtocolCause::UnknownMessage, 1);

/// What is heard of a read with a byte too many.
const BAD: Next = Next::Refused(ProtocolCause::BadMessage, 9);

/// What an input is, its pieces, what is heard of it, and how it ends.
type Case = (
    &'static str,
    &'static [&'static [u8]],
    &'static [Next<'static>],
    Ended,
);

/// Whether this is what comes at the end of an input, and again behind it.
fn has_ended(talker: &mut Talker, ended: Ended) -> bool {
    let once = is_at_end(talker, ended);
    talker.pass();
    once && is_at_end(talker, ended)
}

/// Whether this is what is told now, as the next thing heard or as the end.
fn is_at_end(talker: &Talker, ended: Ended) -> bool {
    match talker.next() {
        Some(next) => next == Next::End(ended),
        None => talker.end() == ended,
    }
}

/// How long the pieces of an input are.
#[derive(Clone, Copy)]
enum Cut {
    /// Each has so many bytes.
    Each(usize),
    /// As long as drawn numbers tell.
    Drawn,
}

/// The number behind so many others of a row of drawn ones (an xorshift).
fn drawn(others: u64) -> u64 {
    let mut x = 1u64;
    for _ in 0..=others {
        x ^= x << 13;
        x ^= x >> 7;
        x ^= x << 17;
    }
    x
}

/// How long the piece is that comes behind so many bytes.
fn length_behind(taken: u64, cut: Cut) -> usize {
    match cut {
        Cut::Each(length) => length,
        Cut::Drawn => 1 + (drawn(taken % 64) % 997) as usize,
    }
}

/// Feeds the talker until something is to be heard, and gives what is left of the input.
fn fed<'a>(talker: &mut Talker, input: &'a [u8], cut: Cut) -> &'a [u8] {
    let mut rest = input;
    for _ in 0..1_000_000 {
        if rest.is_empty() || !talker.needs_more() {
            return rest;
        }
        let length = length_behind(talker.taken(), cut);
        let took = talker.feed(&rest[..length.min(rest.len())]);
        rest = &rest[took..];
    }
    rest
}

/// Whether a talker that is fed the input in such pieces hears just these items, and this end, once
/// and again.
fn hears(talker: &mut Talker, input: &[u8], cut: Cut, items: &[Next], ended: Ended) -> bool {
    let mut rest = input;
    for item in items {
        rest = fed(talker, rest, cut);
        if talker.next() != Some(*item) {
            return false;
        }
        talker.pass();
    }
    rest = fed(talker, rest, cut);
    (rest.is_empty() || !talker.needs_more()) && has_ended(talker, ended)
}

/// Whether an input, one piece behind another, is heard so.
fn is_heard(
    alloc: Global,
    pieces: &[&[u8]],
    cut: Cut,
    items: &[Next],
    ended: Ended,
) -> Result<bool, Fail> {
    let input = pieces.concat(alloc)?;
    let mut talker = Talker::new(alloc)?;
    Ok(hears(&mut talker, &input, cut, items, ended))
}

/// It is heard so where it comes in whole.
fn whole_is_heard(alloc: Global, row: usize, case: &Case) -> Result<(), Fail> {
    let (what, input, items, ended) = *case;
    let is_so = is_heard(alloc, input, Cut::Each(usize::MAX), items, ended)?;
    let mut rows = Rows::new();
    rows.nth(row, what, is_so);
    rows.all()?;
    Ok(())
}

const ENDS: [Case; 17] = [
    ("no bytes", &[], &[], Ended::Closed),
    ("a line alone", &[LINE], &[], Ended::Closed),
    (
        "a line and a hello",
        &[LINE, HELLO],
        &[HEARD_HELLO],
        Ended::Closed,
    ),
    ("a line that is cut", &[b"xyz"], &[], Ended::Cut),
    ("a long line that is cut", &[CUT_LINE], &[], Ended::Cut),
    ("a size that is cut", &[LINE, b"\x00"], &[], Ended::Cut),
    ("a small size alone", &[LINE, b"\x00\x01"], &[], Ended::Cut),
    ("a large size alone", &[LINE, b"\xff\xff"], &[], Ended::Cut),
    (
        "a read that is cut",
        &[LINE, HELLO, CUT_READ],
        &[HEARD_HELLO],
        Ended::Cut,
    ),
    ("another line", &[b"xyz\n"], &[], Ended::Malformed(0)),
    (
        "a line without its end",
        &[b"venti-02\n"],
        &[],
        Ended::Malformed(8),
    ),
    (
        "a line that is too long",
        &[LONG_LINE],
        &[],
        Ended::Malformed(1_024),
    ),
    (
        "a size of 0",
        &[LINE, b"\x00\x00"],
        &[],
        Ended::Malformed(14),
    ),
    (
        "a size of 1",
        &[LINE, b"\x00\x01\x02"],
        &[],
        Ended::Malformed(14),
    ),
    (
        "a size of 1 behind a hello",
        &[LINE, HELLO, b"\x00\x01\x02", PING],
        &[HEARD_HELLO],
        Ended::Malformed(27),
    ),
    ("a goodbye", &[LINE, GOODBYE], &[], Ended::Goodbye),
    (
        "a ping behind a goodbye",
        &[LINE, HELLO, GOODBYE, PING],
        &[HEARD_HELLO],
        Ended::Goodbye,
    ),
];

#[test]
fn inputs_end(rt: HostRuntime) -> Result<(), Fail> {
    each(rt.alloc(), &ENDS, whole_is_heard)
}

const MESSAGES: [Case; 1] = [(
    "a message of each type",
    &[LINE, HELLO, WRITE, READ, EMPTY_WRITE, SYNC, PING],
    &[
        HEARD_HELLO,
        HEARD_WRITE,
        HEARD_READ,
        HEARD_EMPTY,
        HEARD_SYNC,
        HEARD_PING,
    ],
    Ended::Closed,
)];

#[test]
fn messages_are_heard(rt: HostRuntime) -> Result<(), Fail> {
    each(rt.alloc(), &MESSAGES, whole_is_heard)
}

const REFUSED: [Case; 6] = [
    (
        "a ping before the hello",
        &[LINE, PING, HELLO, PING],
        &[EARLY, HEARD_HELLO, HEARD_PING],
        Ended::Closed,
    ),
    (
        "a second hello",
        &[LINE, HELLO, HELLO, PING],
        &[HEARD_HELLO, AGAIN, HEARD_PING],
        Ended::Closed,
    ),
    (
        "a hello of another version",
        &[LINE, HELLO_03, PING, HELLO],
        &[NOT_03, EARLY, HEARD_HELLO],
        Ended::Closed,
    ),
    (
        "a line of another version",
        &[LINE_04, HELLO, PING],
        &[NOT_02, EARLY],
        Ended::Closed,
    ),
    (
        "a read that is too long",
        &[LINE, LONG_READ, HELLO, LONG_READ],
        &[BAD, HEARD_HELLO, BAD],
        Ended::Closed,
    ),
    (
        "messages of unknown types",
        &[LINE, TWO_UNKNOWN, HELLO, SYNC_REPLY],
        &[UNHEARD, UNHEARD_ERROR, HEARD_HELLO, UNHEARD_SYNC],
        Ended::Closed,
    ),
];

#[test]
fn messages_are_refused(rt: HostRuntime) -> Result<(), Fail> {
    each(rt.alloc(), &REFUSED, whole_is_heard)
}

const CUTS: [Cut; 7] = [
    Cut::Each(1),
    Cut::Each(2),
    Cut::Each(3),
    Cut::Each(5),
    Cut::Each(65_537),
    Cut::Drawn,
    Cut::Each(usize::MAX),
];

/// It is heard so in pieces of this length.
fn cut_is_heard(with: (Global, Case), row: usize, cut: &Cut) -> Result<(), Fail> {
    let (alloc, (what, input, items, ended)) = with;
    let is_so = is_heard(alloc, input, *cut, items, ended)?;
    let mut rows = Rows::new();
    rows.nth(row, what, is_so);
    rows.all()?;
    Ok(())
}

/// It is heard so in pieces of each length: the row that doesn't hold tells the cut.
fn pieces_are_heard(alloc: Global, _row: usize, case: &Case) -> Result<(), Fail> {
    each((alloc, *case), &CUTS, cut_is_heard)?;
    Ok(())
}

const PIECES: [Case; 7] = [
    ("no bytes, in pieces", &[], &[], Ended::Closed),
    (
        "a line without its end, in pieces",
        &[b"venti-02\n"],
        &[],
        Ended::Malformed(8),
    ),
    (
        "a line that is too long, in pieces",
        &[LONG_LINE],
        &[],
        Ended::Malformed(1_024),
    ),
    (
        "a size of 1, in pieces",
        &[LINE, b"\x00\x01\x02"],
        &[],
        Ended::Malformed(14),
    ),
    (
        "refused messages, in pieces",
        &[LINE_04, HELLO, PING, LONG_READ],
        &[NOT_02, EARLY, BAD],
        Ended::Closed,
    ),
    (
        "short messages, in pieces",
        &[
            LINE,
            HELLO,
            HELLO_03,
            WRITE,
            READ,
            EMPTY_WRITE,
            SYNC,
            READ,
            HELLO_03,
        ],
        &[
            HEARD_HELLO,
            AGAIN_03,
            HEARD_WRITE,
            HEARD_READ,
            HEARD_EMPTY,
            HEARD_SYNC,
            HEARD_READ,
            AGAIN_03,
        ],
        Ended::Closed,
    ),
    (
        "a ping behind a goodbye, in pieces",
        &[LINE, HELLO, PING, GOODBYE, PING],
        &[HEARD_HELLO, HEARD_PING],
        Ended::Goodbye,
    ),
];

/// Inputs of all kinds are, also with a line that is too long.
#[test]
fn pieces_are_heard_alike(rt: HostRuntime) -> Result<(), Fail> {
    each(rt.alloc(), &PIECES, pieces_are_heard)
}

/// Frames of the longest body, which is given, are heard so in pieces of this length.
fn longest_are_heard(with: (Global, &[u8]), row: usize, cut: &Cut) -> Result<(), Fail> {
    let (alloc, body) = with;
    let head: &[u8] = b"\xff\xff\x0e\x01";
    let bytes = body.get(4..).unwrap_or(&[]);
    let longest = Next::Ask(1, Operation::Write { kind: b'x', bytes });
    let input: &[&[u8]] = &[
        LINE, HELLO, head, body, READ, head, body, UNKNOWN, head, body, b"\x00",
    ];
    let items: &[Next] = &[HEARD_HELLO, longest, HEARD_READ, longest, UNHEARD, longest];
    let is_so = is_heard(alloc, input, *cut, items, Ended::Cut)?;
    let mut rows = Rows::new();
    rows.nth(row, "the longest messages, in pieces", is_so);
    rows.all()?;
    Ok(())
}

#[test]
fn longest_pieces_are_heard_alike(rt: HostRuntime) -> Result<(), Fail> {
    let alloc = rt.alloc();
    let body = vec![in alloc; b'x'; 65_533]?;
    each((alloc, body.as_slice()), &CUTS, longest_are_heard)
}

/// What is done to a talker, and what it answers.
enum Act {
    /// These bytes come in, of which it takes so many.
    Feeds(&'static [u8], usize),
    /// This is what it hears next.
    Hears(Option<Next<'static>>),
    /// It goes on behind what it heard.
    Passes,
    /// It would end so, if no more came.
    Ends(Ended),
    /// It has room for so many more bytes.
    HasRoom(usize),
    /// It took so many bytes in all.
    Took(u64),
}

/// Whether the talker answers so.
fn does(_: (), talker: &mut Talker, act: &Act) -> bool {
    match *act {
        Act::Feeds(piece, took) => talker.feed(piece) == took,
        Act::Hears(next) => talker.next() == next,
        Act::Passes => {
            talker.pass();
            true
        }
        Act::Ends(ended) => talker.end() == ended,
        Act::HasRoom(room) => talker.room() == room,
        Act::Took(taken) => talker.taken() == taken,
    }
}

const ACTS: [Act; 19] = [
    Act::Ends(Ended::Closed),
    Act::Feeds(b"ven", 3),
    Act::Ends(Ended::Cut),
    Act::Feeds(b"ti-02-test\n", 11),
    Act::Hears(None),
    Act::HasRoom(65_537),
    Act::Feeds(HELLO, 13),
    Act::Feeds(PING, 0),
    Act::Hears(Some(HEARD_HELLO)),
    Act::Hears(Some(HEARD_HELLO)),
    Act::Passes,
    Act::Hears(None),
    Act::Passes,
    Act::Feeds(GOODBYE, 4),
    Act::Hears(Some(Next::End(Ended::Goodbye))),
    Act::Passes,
    Act::Hears(Some(Next::End(Ended::Goodbye))),
    Act::Feeds(PING, 0),
    Act::Took(31),
];

#[test]
fn a_message_is_heard_before_more_is_taken(rt: HostRuntime) -> Result<(), Fail> {
    let mut talker = Talker::new(rt.alloc())?;
    in_turn((), &mut talker, &ACTS, "what a talker does", does)?;
    Ok(())
}
