//! Messages byte for byte, as they are spelled in the manual and as another encoder has them.

ghost use Rattle.std.specs.Prelude.{◌≤◌, length};
ghost use Rattle.nine_wire.specs.Frames.{spelled_reply};
ghost use Rattle.nine_wire.specs.Messages.{FitsReply};
ghost use Rattle.nine_wire.specs.Views.{reply_of};

use nine_wire::{Names, NineError, Qid, Reply, Request, Stat, decode, encode};
use std::test::Fail;
use vt_rows::Rows;

/// Whether a message is read as a request of this kind, and why it isn't.
fn told(message: &[u8]) -> (u16, &str) {
    match decode(message) {
        Ok((tag, request)) => (tag, kind_of(&request)),
        Err(NineError::Short) => (0, "short"),
        Err(NineError::Unknown { tag }) => (tag, "unknown"),
        Err(NineError::Bad { tag }) => (tag, "bad"),
    }
}

/// The name of a request's kind, as the manual has it.
fn kind_of(request: &Request<'_>) -> &'static str {
    match request {
        Request::Version { .. } => "version",
        Request::Auth { .. } => "auth",
        Request::Attach { .. } => "attach",
        Request::Flush { .. } => "flush",
        Request::Walk { .. } => "walk",
        Request::Open { .. } => "open",
        Request::Create { .. } => "create",
        Request::Read { .. } => "read",
        Request::Write { .. } => "write",
        Request::Clunk { .. } => "clunk",
        Request::Remove { .. } => "remove",
        Request::Stat { .. } => "stat",
        Request::Wstat { .. } => "wstat",
    }
}

/// Messages, the tag of each, and the kind of request as which it is read, or why it isn't (`told`).
const MESSAGES: &[(&[u8], u16, &str)] = &[
    (
        b"\x13\0\0\0\x64\xff\xff\0\x20\0\0\x06\09P2000",
        0xffff,
        "version",
    ),
    (b"\x10\0\0\0\x66\x01\0\x05\0\0\0\x01\0u\0\0", 1, "auth"),
    (
        b"\x13\0\0\0\x68\x01\0\x01\0\0\0\xff\xff\xff\xff\0\0\0\0",
        1,
        "attach",
    ),
    (b"\x09\0\0\0\x6c\x09\0\x4d\0", 9, "flush"),
    (
        b"\x17\0\0\0\x6e\x01\0\x01\0\0\0\x02\0\0\0\x02\0\x01\0d\x01\0x",
        1,
        "walk",
    ),
    (b"\x11\0\0\0\x6e\x01\0\x01\0\0\0\x02\0\0\0\0\0", 1, "walk"),
    (b"\x0c\0\0\0\x70\x01\0\x01\0\0\0\0", 1, "open"),
    (
        b"\x13\0\0\0\x72\x01\0\x01\0\0\0\x01\0n\xa4\x01\0\0\x01",
        1,
        "create",
    ),
    (
        b"\x17\0\0\0\x74\x01\0\x01\0\0\0\0\0\0\0\0\0\0\0\0\x20\0\0",
        1,
        "read",
    ),
    (
        b"\x1a\0\0\0\x76\x01\0\x01\0\0\0\0\0\0\0\0\0\0\0\x03\0\0\0\0\0\0",
        1,
        "write",
    ),
    (b"\x0b\0\0\0\x78\x01\0\x01\0\0\0", 1, "clunk"),
    (b"\x0b\0\0\0\x7a\x05\0\x01\0\0\0", 5, "remove"),
    (b"\x0b\0\0\0\x7c\x01\0\x01\0\0\0", 1, "stat"),
    (b"\x10\0\0\0\x7e\x01\0\x01\0\0\0\x03\0\0\0\0", 1, "wstat"),
    // A byte less, a byte more, and a name less.
    (b"\x0b\0\0\0\x7c\x01\0\x01\0\0", 0, "short"),
    (b"\x0b\0\0\0\x7c\x01\0\x01\0\0\0\0", 0, "short"),
    (b"\x0c\0\0\0\x7c\x01\0\x01\0\0\0\0", 1, "bad"),
    (
        b"\x14\0\0\0\x6e\x01\0\x01\0\0\0\x02\0\0\0\x02\0\x01\0d",
        1,
        "bad",
    ),
    (b"\x06\0\0\0\x7c\x01", 0, "short"),
    // An Rversion, a type that no message has, and a count that doesn't fit.
    (
        b"\x13\0\0\0\x65\xff\xff\0\x20\0\0\x06\09P2000",
        0xffff,
        "unknown",
    ),
    (b"\x07\0\0\0\x6a\x02\0", 2, "unknown"),
    (
        b"\x1a\0\0\0\x76\x01\0\x01\0\0\0\0\0\0\0\0\0\0\0\x04\0\0\0\0\0\0",
        1,
        "bad",
    ),
];

#[test]
fn requests_are_read(rt: HostRuntime) -> Result<(), Fail> {
    let mut rows = Rows::new();
    for (row, (message, tag, kind)) in MESSAGES.iter().enumerate() {
        let found = told(message);
        rows.nth(row, "the tag", found.0 == *tag);
        rows.nth(row, "the kind", found.1 == *kind);
    }
    rows.all()?;
    Ok(())
}

/// These are the names `d` and `x`.
fn see_names(names: &Names<'_>, rows: &mut Rows) {
    rows.is("how many names there are", names.len() == 2);
    rows.is("whether there is none", !names.is_empty());
    let Some((first, others)) = names.split_first() else {
        rows.is("whether there is a name", false);
        return;
    };
    let Some((second, none)) = others.split_first() else {
        rows.is("whether there is a second name", false);
        return;
    };
    rows.is("the first name", first == b"d".as_slice());
    rows.is("the second name", second == b"x".as_slice());
    rows.is("what is behind it", none.split_first().is_none());
}

#[test]
fn names_are_read(rt: HostRuntime) -> Result<(), Fail> {
    let walk = b"\x17\0\0\0\x6e\x01\0\x01\0\0\0\x02\0\0\0\x02\0\x01\0d\x01\0x";
    let mut rows = Rows::new();
    match decode(walk) {
        Ok((_, Request::Walk { fid, newfid, names })) => {
            rows.is("the fids", (fid, newfid) == (1, 2));
            see_names(&names, &mut rows);
        }
        _ => rows.is("the kind", false),
    }
    rows.all()?;
    Ok(())
}

/// Whether the reply has these bytes.
fn is_spelled(tag: u16, reply: &Reply<'_>, wanted: &[u8]) -> bool
    requires fits { FitsReply (reply_of reply.now) }
    requires room { length (spelled_reply tag (reply_of reply.now)) ≤ 64 }
{
    let mut buf = [0; 64];
    let len = encode(tag, reply, &mut buf);
    &buf[..len] == wanted
}

#[test]
fn replies_are_spelled(rt: HostRuntime) -> Result<(), Fail> {
    let mut rows = Rows::new();
    let qid = Qid {
        is_folder: true,
        path: 2,
    };
    let version = Reply::Version {
        msize: 8192,
        version: b"9P2000",
    };
    rows.is(
        "the reply to a version",
        is_spelled(
            0xffff,
            &version,
            b"\x13\0\0\0\x65\xff\xff\0\x20\0\0\x06\09P2000",
        ),
    );
    let attach = Reply::Attach(qid);
    rows.is(
        "the reply to an attach",
        is_spelled(
            1,
            &attach,
            b"\x14\0\0\0\x69\x01\0\x80\0\0\0\0\x02\0\0\0\0\0\0\0",
        ),
    );
    rows.is(
        "the reply to a flush",
        is_spelled(9, &Reply::Flush, b"\x07\0\0\0\x6d\x09\0"),
    );
    let walk = Reply::Walk(&[qid]);
    rows.is(
        "the reply to a walk",
        is_spelled(
            1,
            &walk,
            b"\x16\0\0\0\x6f\x01\0\x01\0\x80\0\0\0\0\x02\0\0\0\0\0\0\0",
        ),
    );
    let open = Reply::Open { qid, iounit: 8168 };
    rows.is(
        "the reply to an open",
        is_spelled(
            1,
            &open,
            b"\x18\0\0\0\x71\x01\0\x80\0\0\0\0\x02\0\0\0\0\0\0\0\xe8\x1f\0\0",
        ),
    );
    rows.is(
        "the reply to a read",
        is_spelled(
            1,
            &Reply::Read(b"abc"),
            b"\x0e\0\0\0\x75\x01\0\x03\0\0\0abc",
        ),
    );
    rows.is(
        "the reply to a clunk",
        is_spelled(1, &Reply::Clunk, b"\x07\0\0\0\x79\x01\0"),
    );
    let error = Reply::Error(b"read-only file system");
    rows.is(
        "an error",
        is_spelled(
            5,
            &error,
            b"\x1e\0\0\0\x6b\x05\0\x15\0read-only file system",
        ),
    );
    rows.all()?;
    Ok(())
}

#[test]
fn stats_are_spelled(rt: HostRuntime) -> Result<(), Fail> {
    let mut rows = Rows::new();
    let stat = Stat {
        qid: Qid {
            is_folder: false,
            path: 3,
        },
        mode: 0o644,
        mtime: 5,
        len: 7,
        name: b"f",
        uid: b"u",
        gid: b"g",
    };
    let want = b"\x3e\0\0\0\x7d\x01\0\x35\0\x33\0\0\0\0\0\0\0\0\0\0\0\0\x03\0\0\0\0\0\0\0\
        \xa4\x01\0\0\x05\0\0\0\x05\0\0\0\x07\0\0\0\0\0\0\0\x01\0f\x01\0u\x01\0g\x01\0u";
    rows.is(
        "the reply to a stat",
        is_spelled(1, &Reply::Stat(stat), want),
    );
    rows.all()?;
    Ok(())
}
