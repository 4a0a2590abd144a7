//! What a terminal is shown.

use std::alloc::Global;
use std::io;
use std::io::ErrorKind;
use std::test::Fail;
use std::time::Duration;
use vt_host::{ClockCalls, Erasing, System, Terminal, WriteCalls};
use vt_out::Sink;
use vt_rows::Rows;

/// A clock that gives these milliseconds, one after the other, and then can't be asked.
#[derive(Drop)]
struct Ticks(&'static [u64]);

impl ClockCalls for Ticks {
    ghost use Rattle.std.specs.Prelude.{false, None};

    ghost tells = { false };

    ghost answer = { λ _. None };

    fn time(&mut self) -> io::Result<Duration> {
        match self.0 {
            [first, others @ ..] => {
                self.0 = others;
                Ok(Duration::from_millis(*first))
            }
            [] => Err(io::Error::from(ErrorKind::Other)),
        }
    }
}

/// Of what the clock gives, what is put there, and what is shown.
const SHOWN: [(&[u64], &[&[u8]], &[u8]); 8] = [
    (
        &[5],
        &[b"venti: ", b"1 of 2", b"\r"],
        b"venti: 1 of 2\x1b[K\r",
    ),
    (&[5, 104], &[b"a\r", b"b\r"], b"a\x1b[K\r"),
    (&[5, 105], &[b"a\r", b"b\r"], b"a\x1b[K\rb\x1b[K\r"),
    (&[5, 6], &[b"a\r", b"b", b"\n"], b"a\x1b[K\rb\x1b[K\n"),
    (&[5, 6], &[b"a\r", b"b\r", b"c\n"], b"a\x1b[K\rc\x1b[K\n"),
    (&[900, 5], &[b"a\r", b"b\r"], b"a\x1b[K\rb\x1b[K\r"),
    (&[], &[b"a\r", b"b\r"], b"a\x1b[K\rb\x1b[K\r"),
    (&[5], &[b"a"], b""),
];

/// What is shown of these pieces, or nothing where one couldn't be put.
fn shown(alloc: Global, times: &'static [u64], pieces: &[&[u8]]) -> Option<Vec<u8>> {
    let mut output = Vec::new(alloc);
    let mut terminal = Terminal::new(System(&mut output), Ticks(times));
    for piece in pieces {
        terminal.put(piece).ok()?;
    }
    drop(terminal);
    Some(output)
}

#[test]
fn lines_are_shown_now_and_then(rt: HostRuntime) -> Result<(), Fail> {
    let mut rows = Rows::new();
    for (row, (times, pieces, wanted)) in SHOWN.into_iter().enumerate() {
        let is = match shown(rt.alloc(), times, pieces) {
            Some(output) => output.as_slice() == wanted,
            None => false,
        };
        rows.nth(row, "what is shown", is);
    }
    rows.passes()
}

/// Whether this is written of a piece, to a terminal or not.
fn writes(alloc: Global, is_terminal: bool, wanted: &[u8]) -> bool {
    let mut output = Vec::new(alloc);
    let mut erasing = Erasing::new(System(&mut output), is_terminal);
    let done = erasing.put_all(b"venti: ").is_ok();
    drop(erasing);
    done && output.as_slice() == wanted
}

#[test]
fn a_line_erases_what_is_left_of_another(rt: HostRuntime) -> Result<(), Fail> {
    let mut rows = Rows::new();
    rows.is("a terminal", writes(rt.alloc(), true, b"\x1b[Kventi: "));
    rows.is("a file", writes(rt.alloc(), false, b"venti: "));
    rows.passes()
}
