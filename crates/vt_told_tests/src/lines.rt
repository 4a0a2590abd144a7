//! How a call that failed stands in a line.

use crate::fakes::{Page, has_line};
use std::alloc::Global;
use std::cell::RefCell;
use std::io;
use std::io::ErrorKind;
use std::test::Fail;
use vt_host::System;
use vt_rows::Rows;
use vt_told::{Call, ErrorLines, Teller};

/// A kind of error, or a number of the system.
#[derive(Clone, Copy)]
enum Why {
    Kind(ErrorKind),
    Number(i32),
}

/// An error of this kind, or of this number.
fn error(why: Why) -> io::Error {
    match why {
        Why::Kind(kind) => io::Error::from(kind),
        Why::Number(number) => io::Error::from_raw_os_error(number),
    }
}

/// A call, a name, an error, and the line.
const LINES: [(Call, &str, Why, &str); 21] = [
    (
        Call::Open,
        "store/a0",
        Why::Number(2),
        "open store/a0: no such file or folder",
    ),
    (
        Call::Open,
        "d/./secret",
        Why::Number(13),
        "open d/secret: permission denied",
    ),
    (
        Call::LookAt,
        "./d/.",
        Why::Number(20),
        "look at ./d: not a folder",
    ),
    (
        Call::List,
        "//.",
        Why::Number(13),
        "list /: permission denied",
    ),
    (
        Call::Open,
        "d/..",
        Why::Number(21),
        "open d/..: is a folder",
    ),
    (
        Call::Open,
        "d/.a",
        Why::Number(40),
        "open d/.a: too many links",
    ),
    (
        Call::Open,
        "",
        Why::Number(30),
        "open : read-only file system",
    ),
    (
        Call::Lock,
        "a0",
        Why::Kind(ErrorKind::WouldBlock),
        "lock a0: locked already, by this process or another",
    ),
    (
        Call::Read,
        "standard input",
        Why::Kind(ErrorKind::WouldBlock),
        "read standard input: would block",
    ),
    (
        Call::Read,
        "a0",
        Why::Kind(ErrorKind::UnexpectedEof),
        "read a0: ends too early",
    ),
    (
        Call::Read,
        "a0",
        Why::Number(5),
        "read a0: input or output error",
    ),
    (
        Call::Write,
        "standard output",
        Why::Number(9),
        "write standard output: not open",
    ),
    (
        Call::Write,
        "a0",
        Why::Number(28),
        "write a0: no space left",
    ),
    (Call::Sync, "a0", Why::Number(61), "sync a0: error 61"),
    (
        Call::Ask,
        "the clock",
        Why::Kind(ErrorKind::Other),
        "ask the clock: failed",
    ),
    (
        Call::Connect,
        "tcp!h!1",
        Why::Number(111),
        "connect tcp!h!1: connection refused",
    ),
    (
        Call::Connect,
        "tcp!h!1",
        Why::Kind(ErrorKind::Uncategorized),
        "connect tcp!h!1: no address found",
    ),
    (
        Call::Connect,
        "tcp!h!1",
        Why::Number(97),
        "connect tcp!h!1: error 97",
    ),
    (
        Call::Open,
        "a \"b\\c",
        Why::Number(1),
        "open a \"b\\c: permission denied",
    ),
    (
        Call::Open,
        "a\"b\\c\n\x7f",
        Why::Number(1),
        "open \"a\\\"b\\\\c\\012\\177\": permission denied",
    ),
    (
        Call::Open,
        "\u{e4}",
        Why::Number(36),
        "open \u{e4}: name too long",
    ),
];

/// Whether a line of it is this.
fn is_line(alloc: Global, call: Call, name: &str, why: Why, line: &str) -> bool {
    let page = RefCell::new(Vec::new(alloc));
    ErrorLines::new(alloc, System(Page(&page))).tell(call, name, &error(why));
    has_line(&page, Some(line))
}

#[test]
fn lines_name_the_call_and_the_reason(rt: HostRuntime) -> Result<(), Fail> {
    let mut rows = Rows::new();
    for (row, (call, name, why, line)) in LINES.into_iter().enumerate() {
        rows.nth(row, "the line", is_line(rt.alloc(), call, name, why, line));
    }
    rows.passes()
}
