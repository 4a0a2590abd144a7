//! Streams that break, and streams that keep a record of their calls.

use crate::fakes::{FakeInput, FakeOutput};
use std::io::{Read, Write};
use std::test::Fail;
use std::{fs, io, process};
use vt_base::Failed;
use vt_host::{FileDisk, StdSink, StdSource, System};
use vt_out::{Sink, Source};
use vt_rows::Rows;

/// Is interrupted once, gives and takes three bytes at once, and breaks at its call number 3.
#[derive(Drop)]
struct Broken {
    /// How many reads and writes were made.
    calls: u8,
    /// The first eight bytes that were written.
    taken: [u8; 8],
    /// How many of these there are.
    len: usize,
}

impl Broken {
    fn new() -> Self {
        Broken {
            calls: 0,
            taken: [b'.'; 8],
            len: 0,
        }
    }

    /// Counts a call: the first is interrupted, and the fourth breaks.
    fn next(&mut self) -> io::Result<()> {
        self.calls = self.calls.saturating_add(1);
        match self.calls {
            1 => Err(io::Error::from(io::ErrorKind::Interrupted)),
            4 => Err(io::Error::from(io::ErrorKind::BrokenPipe)),
            _ => Ok(()),
        }
    }
}

impl Read for Broken {
    fn read(&mut self, buf: &mut [u8]) -> io::Result<usize> {
        self.next()?;
        let n = buf.len().min(3);
        buf[..n].copy_from_slice(&b"abc"[..n]);
        Ok(n)
    }
}

impl Write for Broken {
    fn write(&mut self, buf: &[u8]) -> io::Result<usize> {
        self.next()?;
        let n = buf.len().min(3);
        for byte in buf.iter().take(n) {
            if self.len < 8 {
                self.taken[self.len] = *byte;
                self.len += 1;
            }
        }
        Ok(n)
    }

    fn flush(&mut self) -> io::Result<()> {
        Ok(())
    }
}

/// What comes in by each call.
const READS: [Result<usize, Failed>; 4] = [Ok(3), Ok(3), Err(Failed), Ok(3)];

fn see_reads<S: Source>(rows: &mut Rows, source: &mut S) {
    for (row, wanted) in READS.into_iter().enumerate() {
        let mut buf = [b'.'; 4];
        let taken = source.take(&mut buf);
        rows.nth(row, "how many bytes come in", taken == wanted);
        rows.nth(
            row,
            "the bytes that come in",
            taken.is_err() || buf == *b"abc.",
        );
    }
}

#[test]
fn a_broken_read_is_a_fault(rt: HostRuntime) -> Result<(), Fail> {
    let mut rows = Rows::new();
    see_reads(&mut rows, &mut StdSource::new(System(Broken::new())));
    rows.passes()
}

/// Pieces, and what a sink says of them.
type Pieces = [(&'static [u8], Result<(), Failed>); 3];

fn see_pieces<S: Sink>(rows: &mut Rows, sink: &mut S, pieces: Pieces) {
    for (row, (piece, wanted)) in pieces.into_iter().enumerate() {
        rows.nth(row, "a piece", sink.put(piece) == wanted);
    }
}

#[test]
fn a_piece_is_written_whole_or_is_a_fault(rt: HostRuntime) -> Result<(), Fail> {
    let pieces: Pieces = [(b"abcde", Ok(())), (b"f", Err(Failed)), (b"g", Ok(()))];
    let mut rows = Rows::new();
    see_pieces(&mut rows, &mut StdSink::new(System(Broken::new())), pieces);
    rows.passes()
}

#[test]
fn a_piece_is_flushed(rt: HostRuntime) -> Result<(), Fail> {
    let pieces: Pieces = [(b"ab", Ok(())), (b"cd", Err(Failed)), (b"ef", Ok(()))];
    let mut sink = StdSink::new(FakeOutput::new(rt, rt.alloc(), 3));
    let mut rows = Rows::new();
    see_pieces(&mut rows, &mut sink, pieces);
    rows.passes()
}

#[test]
fn an_interrupted_read_is_made_again(rt: HostRuntime) -> Result<(), Fail> {
    let mut source = StdSource::new(FakeInput::new(rt, rt.alloc(), 0));
    let mut buf = [0; 3];
    let taken = source.take(&mut buf);
    let mut rows = Rows::new();
    rows.is("how many bytes come in", taken == Ok(3));
    rows.is("the bytes that come in", buf == [7; 3]);
    rows.passes()
}

/// Takes what may go to another thread.
fn go<T: Send + Drop>(_value: T) {}

#[test]
fn adapters_may_go_to_other_threads(rt: HostRuntime) -> Result<(), Fail> {
    let name = format!(in rt.alloc(); "/proc/{}/stat", process::id(rt.process()))?;
    let file = fs::File::open(&rt, name.as_str())?;
    go(StdSource::new(System(file)));
    go(StdSink::new(System(rt.stdout())));
    if let Ok(disk) = FileDisk::open(&mut System(rt), "", None) {
        go(disk);
    }
    Ok(())
}
