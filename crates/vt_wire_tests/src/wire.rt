//! Lines, requests and replies, byte for byte.

ghost use Rattle.std.specs.Prelude.{◌≤◌, length};
ghost use Rattle.vt_wire.specs.Messages.{spelled_reply, asked, FitsReply, FitsRequest};
ghost use Rattle.vt_wire.specs.Views.{message_of, reply_of};

use crate::tables::each;
use std::test::Fail;
use vt_base::Score;
use vt_rows::Rows;
use vt_wire::{
    Line, ProtocolCause, Reply, Request, WireBad, decode, decode_line, decode_reply, encode,
    encode_request, frame_len, rule_text,
};

/// The score of `abc`.
const ABC: Score = Score(
    *b"\xa9\x99\x3e\x36\x47\x06\x81\x6a\xba\x3e\x25\x71\x78\x50\xc2\x6c\x9c\xd0\xd8\x9d",
);

/// A request to read a block with that score, under tag 2, and the reply that gives the score.
const READ_ABC: &[u8] = b"\x00\x1a\x0c\x02\
    \xa9\x99\x3e\x36\x47\x06\x81\x6a\xba\x3e\x25\x71\x78\x50\xc2\x6c\x9c\xd0\xd8\x9d\x0d\x00\x01\x03";

const WROTE_ABC: &[u8] = b"\x00\x16\x0f\x01\
    \xa9\x99\x3e\x36\x47\x06\x81\x6a\xba\x3e\x25\x71\x78\x50\xc2\x6c\x9c\xd0\xd8\x9d";

/// A welcome under tag 0, and an error under tag 2.
const WELCOME: &[u8] = b"\x00\x0f\x05\x00\x00\x09anonymous\x00\x00";

const TOO_SMALL: &[u8] = b"\x00\x13\x01\x02\x00\x0fcount too small";

/// Three requests, and an error, as a message says them.
const HELLO: Request = Request::Hello { version: b"02" };

const READ: Request = Request::Read {
    score: ABC,
    kind: 13,
    count: 259,
};

const WRITE: Request = Request::Write {
    kind: 13,
    bytes: b"abc",
};

const ERROR: Reply = Reply::Error(b"count too small");

/// Whether a request under this tag is spelled so.
fn asks(tag: u8, request: &Request, want: &[u8]) -> bool
    requires fits { FitsRequest (message_of request.now) }
    requires room { length (asked tag (message_of request.now)) ≤ 64 }
{
    let mut buf = [0xee; 64];
    let len = encode_request(tag, request, &mut buf);
    &buf[..len] == want
}

/// Whether a reply under this tag is spelled so.
fn replies(tag: u8, reply: &Reply, want: &[u8]) -> bool
    requires fits { FitsReply (reply_of reply.now) }
    requires room { length (spelled_reply tag (reply_of reply.now)) ≤ 64 }
{
    let mut buf = [0xee; 64];
    let len = encode(tag, reply, &mut buf);
    &buf[..len] == want
}

/// Requests, with their tags.
const REQUESTS: [(&[u8], u8, Request); 7] = [
    (b"\x00\x0b\x04\x00\x00\x0202\x00\x00\x00\x00\x00", 0, HELLO),
    (
        b"\x00\x17\x04\x07\x00\x0202\x00\x09anonymous\x05\x02ab\x01c",
        7,
        HELLO,
    ),
    (b"\x00\x09\x0e\x01\x0d\x00\x00\x00abc", 1, WRITE),
    (READ_ABC, 2, READ),
    (b"\x00\x02\x10\x03", 3, Request::Sync),
    (b"\x00\x02\x02\x05", 5, Request::Ping),
    (b"\x00\x02\x06\x04", 4, Request::Goodbye),
];

/// This frame is read as this request under this tag.
fn request_is_read(_: (), row: usize, case: &(&[u8], u8, Request)) -> Result<(), Fail> {
    let (frame, tag, request) = *case;
    let mut rows = Rows::new();
    rows.nth(row, "the request", decode(frame) == Ok((tag, request)));
    rows.nth(row, "its length", frame_len(frame) == Some(frame.len()));
    rows.all()?;
    Ok(())
}

#[test]
fn requests_are_read() -> Result<(), Fail> {
    each((), &REQUESTS, request_is_read)
}

/// What is no request, and why.
const NO_REQUESTS: [(&[u8], WireBad); 6] = [
    (b"\x00\x01\x02", WireBad::Short),
    (b"\x00\x02\x02\x05\x00", WireBad::Short),
    (b"\x00\x03\x63\x01\x00", WireBad::Unknown(99)),
    (b"\x00\x03\x02\x05\x00", WireBad::Bad(0)),
    (
        b"\x00\x1b\x0c\x02abcdefghijklmnopqrst\x0d\x00\x00\x03\x00",
        WireBad::Bad(4),
    ),
    (
        b"\x00\x0b\x04\x00\x00\x0202\x00\x00\x00\x00\x01",
        WireBad::Bad(4),
    ),
];

/// This frame is refused as no request, for this.
fn is_no_request(_: (), row: usize, case: &(&[u8], WireBad)) -> Result<(), Fail> {
    let (frame, bad) = *case;
    let mut rows = Rows::new();
    rows.nth(row, "why it is no request", decode(frame) == Err(bad));
    rows.all()?;
    Ok(())
}

#[test]
fn what_is_no_request() -> Result<(), Fail> {
    each((), &NO_REQUESTS, is_no_request)
}

#[test]
fn a_frame_that_is_cut() -> Result<(), Fail> {
    let mut rows = Rows::new();
    rows.is(
        "a frame that is cut has no length",
        frame_len(b"\x00\x02\x02") == None,
    );
    rows.all()?;
    Ok(())
}

#[test]
fn requests_are_written() -> Result<(), Fail> {
    let spelled = b"\x00\x14\x04\x00\x00\x0202\x00\x09anonymous\x00\x00\x00";
    let hello = asks(0, &HELLO, spelled);
    let read = asks(2, &READ, READ_ABC);
    let mut rows = Rows::new();
    rows.is("how a hello is spelled", hello);
    rows.is("how a read is spelled", read);
    rows.all()?;
    Ok(())
}

/// Replies, with their tags.
const REPLIES: [(&[u8], u8, Reply); 7] = [
    (WELCOME, 0, Reply::Hello),
    (b"\x00\x09\x05\x00\x00\x03sid\x01\x02", 0, Reply::Hello),
    (b"\x00\x05\x0d\x02abc", 2, Reply::Read(b"abc")),
    (b"\x00\x02\x11\x03", 3, Reply::Sync),
    (b"\x00\x02\x03\x05", 5, Reply::Ping),
    (WROTE_ABC, 1, Reply::Write(ABC)),
    (TOO_SMALL, 2, ERROR),
];

/// This frame is read as this reply under this tag.
fn reply_is_read(_: (), row: usize, case: &(&[u8], u8, Reply)) -> Result<(), Fail> {
    let (frame, tag, reply) = *case;
    let mut rows = Rows::new();
    rows.nth(row, "the reply", decode_reply(frame) == Ok((tag, reply)));
    rows.all()?;
    Ok(())
}

#[test]
fn replies_are_read() -> Result<(), Fail> {
    each((), &REPLIES, reply_is_read)
}

/// What is no reply, and why.
const NO_REPLIES: [(&[u8], WireBad); 4] = [
    (b"\x00\x02\x03\x05\x00", WireBad::Short),
    (b"\x00\x02\x02\x05", WireBad::Unknown(2)),
    (b"\x00\x06\x01\x05\x00\x01aa", WireBad::Bad(1)),
    (b"\x00\x07\x05\x00\x00\x00\x00\x00\x00", WireBad::Bad(3)),
];

/// This frame is refused as no reply, for this.
fn is_no_reply(_: (), row: usize, case: &(&[u8], WireBad)) -> Result<(), Fail> {
    let (frame, bad) = *case;
    let mut rows = Rows::new();
    rows.nth(row, "why it is no reply", decode_reply(frame) == Err(bad));
    rows.all()?;
    Ok(())
}

#[test]
fn what_is_no_reply() -> Result<(), Fail> {
    each((), &NO_REPLIES, is_no_reply)
}

#[test]
fn replies_are_written() -> Result<(), Fail> {
    let welcome = replies(0, &Reply::Hello, WELCOME);
    let score = replies(1, &Reply::Write(ABC), WROTE_ABC);
    let error = replies(2, &ERROR, TOO_SMALL);
    let mut rows = Rows::new();
    rows.is("how a welcome is spelled", welcome);
    rows.is("how a score is spelled", score);
    rows.is("how an error is spelled", error);
    rows.all()?;
    Ok(())
}

/// What bytes are as a line, the last of them too long.
const LINES: [(&[u8], Line); 10] = [
    (
        b"venti-02-test\n",
        Line::Whole {
            len: 14,
            has_02: true,
        },
    ),
    (
        b"venti-04:02-libventi\nmore",
        Line::Whole {
            len: 21,
            has_02: true,
        },
    ),
    (
        b"venti-020:102-\n",
        Line::Whole {
            len: 15,
            has_02: false,
        },
    ),
    (b"xyz", Line::More),
    (b"xyz\n", Line::Bad(0)),
    (b"ventu-02-\n", Line::Bad(4)),
    (b"venti--\n", Line::Bad(6)),
    (b"venti-02\n", Line::Bad(8)),
    (b"venti-02:-\n", Line::Bad(9)),
    (&[b'x'; 1_025], Line::Bad(1_024)),
];

/// These bytes are read as this line, or as none.
fn line_is_read(_: (), row: usize, case: &(&[u8], Line)) -> Result<(), Fail> {
    let (bytes, line) = *case;
    let mut rows = Rows::new();
    rows.nth(row, "the line", decode_line(bytes) == line);
    rows.all()?;
    Ok(())
}

#[test]
fn lines_are_read() -> Result<(), Fail> {
    each((), &LINES, line_is_read)
}

#[test]
fn a_rule_has_a_text() -> Result<(), Fail> {
    let mut rows = Rows::new();
    rows.is(
        "the text of a rule",
        rule_text(ProtocolCause::HelloExpected) == "hello expected",
    );
    rows.all()?;
    Ok(())
}
