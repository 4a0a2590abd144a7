//! What stands outside the store, as its fakes in memory do it.

use std::alloc::{AllocError, Global};
use std::test::Fail;
use vt_base::{Bytes, Failed, Text};
use vt_out::{
    Clock, Files, Link, MemClock, MemFiles, MemLink, MemSink, MemSource, OutErr, Progress, Silent,
    Sink, Source,
};
use vt_rows::Rows;

/// What a caller whose buffer has so many bytes takes to the end of input, where no call fails.
fn take_all<S: Source>(alloc: Global, source: &mut S, room: usize) -> Option<Vec<u8>> {
    let mut buf = vec![in alloc; 0u8; room].ok()?;
    let mut all = Vec::new(alloc);
    for _ in 0..1000 {
        let n = source.take(&mut buf).ok()?;
        if n == 0 {
            break;
        }
        all.extend_from_slice(&buf[..n]).ok()?;
    }
    Some(all)
}

/// A source of these bytes, in pieces of these lengths in turn.
fn source_in_pieces(alloc: Global, bytes: &[u8], lens: &[usize]) -> Result<MemSource, AllocError> {
    let lens = Vec::from_slice(alloc, lens)?;
    let bytes = Vec::from_slice(alloc, bytes)?;
    Ok(MemSource::new(alloc, bytes).in_pieces(lens))
}

/// A source of these bytes, of which these calls fail.
fn failing_source(alloc: Global, bytes: &[u8], calls: &[u64]) -> Result<MemSource, AllocError> {
    let calls = Vec::from_slice(alloc, calls)?;
    let bytes = Vec::from_slice(alloc, bytes)?;
    Ok(MemSource::new(alloc, bytes).failing(calls))
}

/// What a source is to give, however it is cut.
const CONTENT: &[u8] = b"the bytes of an input";

/// Whether a caller whose buffer has so many bytes takes the content that comes in pieces of this
/// length, and no call fails.
fn takes_pieces(alloc: Global, piece: usize, room: usize) -> Option<bool> {
    let mut source = source_in_pieces(alloc, CONTENT, &[piece]).ok()?;
    let all = take_all(alloc, &mut source, room)?;
    Some((all.as_slice() == CONTENT) & (source.faults() == 0))
}

/// The length of a source's pieces, in bytes, and what is told where a row doesn't hold.
const PIECES: [(usize, &str); 6] = [
    (0, "pieces of 0 bytes"),
    (1, "pieces of 1 byte"),
    (2, "pieces of 2 bytes"),
    (3, "pieces of 3 bytes"),
    (5, "pieces of 5 bytes"),
    (100, "pieces of 100 bytes"),
];

/// A row that doesn't hold is told by the length of its pieces, and its number is the buffer's
/// length.
#[test]
fn pieces_make_up_the_content(rt: HostRuntime) -> Result<(), Fail> {
    let mut rows = Rows::new();
    for (piece, what) in &PIECES {
        for room in [1, 2, 3, 5, 100] {
            rows.nth(
                room,
                *what,
                takes_pieces(rt.alloc(), *piece, room) == Some(true),
            );
        }
    }
    rows.passes()
}

/// A call of `take`: how many bytes there is room for, what it answers, and what then stands in the
/// buffer, what is left, and how many calls have failed.
type Take = (usize, Result<usize, Failed>, [u8; 4], &'static [u8], u64);

/// Whether a source answers a call of `take` so.
fn takes(source: &mut MemSource, buf: &mut [u8; 4], take: &Take) -> bool {
    let (room, moved, after, left, faults) = *take;
    let found = source.take(&mut buf[..room.min(4)]);
    (found == moved) & (*buf == after) & (source.left() == left) & (source.faults() == faults)
}

/// Makes these calls of a source.
fn see_takes(source: MemSource, calls: &[Take]) -> Rows {
    let mut source = source;
    let mut buf = [b'.'; 4];
    let mut rows = Rows::new();
    for (row, take) in calls.iter().enumerate() {
        rows.nth(
            row,
            "a take: its answer, the buffer, the rest and the faults",
            takes(&mut source, &mut buf, take),
        );
    }
    rows
}

/// Calls of a source of `abcdefgh` that comes in pieces of one byte and of three, in turn.
const IN_TURN: [Take; 6] = [
    (4, Ok(1), *b"a...", b"bcdefgh", 0),
    (4, Ok(3), *b"bcd.", b"efgh", 0),
    (0, Ok(0), *b"bcd.", b"efgh", 0),
    (4, Ok(3), *b"efg.", b"h", 0),
    (4, Ok(1), *b"hfg.", b"", 0),
    (4, Ok(0), *b"hfg.", b"", 0),
];

#[test]
fn pieces_come_in_turn(rt: HostRuntime) -> Result<(), Fail> {
    let source = source_in_pieces(rt.alloc(), b"abcdefgh", &[1, 3])?;
    see_takes(source, &IN_TURN).passes()
}

/// Calls of a source of `abc` of which the second and the fourth fail.
const FAILING_TAKES: [Take; 5] = [
    (2, Ok(2), *b"ab..", b"c", 0),
    (2, Err(Failed), *b"ab..", b"c", 1),
    (2, Ok(1), *b"cb..", b"", 1),
    (2, Err(Failed), *b"cb..", b"", 2),
    (2, Ok(0), *b"cb..", b"", 2),
];

#[test]
fn a_failed_take_loses_nothing(rt: HostRuntime) -> Result<(), Fail> {
    let source = failing_source(rt.alloc(), b"abc", &[1, 3])?;
    see_takes(source, &FAILING_TAKES).passes()
}

/// A sink with room for so many bytes, of which these calls fail.
fn failing_sink(alloc: Global, room: usize, calls: &[u64]) -> Result<MemSink, AllocError> {
    let calls = Vec::from_slice(alloc, calls)?;
    Ok(MemSink::new(alloc, room)?.failing(calls))
}

/// A call of `put`: a piece, what it answers, and then all that is written, and how many calls have
/// failed.
type Put = (&'static [u8], Result<(), Failed>, &'static [u8], u64);

/// Whether a sink answers a call of `put` so.
fn puts(sink: &mut MemSink, put: &Put) -> bool {
    let (piece, answer, written, faults) = *put;
    let found = sink.put(piece);
    (found == answer) & (sink.written() == written) & (sink.faults() == faults)
}

/// Makes these calls of a sink.
fn see_puts(sink: MemSink, calls: &[Put]) -> Rows {
    let mut sink = sink;
    let mut rows = Rows::new();
    for (row, put) in calls.iter().enumerate() {
        rows.nth(
            row,
            "a put: its answer, all that is written and the faults",
            puts(&mut sink, put),
        );
    }
    rows
}

/// Calls of a sink with room for 12 bytes, of which the second fails.
const FAILING_PUTS: [Put; 6] = [
    (b"abc", Ok(()), b"abc", 0),
    (b"defgh", Err(Failed), b"abcde", 1),
    (b"", Ok(()), b"abcde", 1),
    (b"ijklmn", Ok(()), b"abcdeijklmn", 1),
    // Two bytes don't fit into the room for one.
    (b"op", Err(Failed), b"abcdeijklmno", 2),
    (b"q", Err(Failed), b"abcdeijklmno", 3),
];

#[test]
fn a_failed_put_writes_half(rt: HostRuntime) -> Result<(), Fail> {
    let sink = failing_sink(rt.alloc(), 12, &[1])?;
    see_puts(sink, &FAILING_PUTS).passes()
}

#[test]
fn a_clock_stands_still() -> Result<(), Fail> {
    let mut clock = MemClock::new(1_000_000_000);
    let mut rows = Rows::new();
    rows.is("the time", clock.now() == 1_000_000_000);
    rows.is("the time again", clock.now() == 1_000_000_000);
    rows.passes()
}

/// A call of `take` and one of `put`: what the first answers, and what then stands in the buffer; the
/// piece of the second, what it answers, and all that is then written; and how many calls of each have
/// failed.
type Turn = (
    Result<usize, Failed>,
    [u8; 2],
    &'static [u8],
    Result<(), Failed>,
    &'static [u8],
    (u64, u64),
);

/// Whether a link answers a turn so.
fn turns(link: &mut MemLink, buf: &mut [u8; 2], turn: &Turn) -> bool {
    let (moved, after, piece, answer, written, faults) = *turn;
    let took = link.take(buf);
    let put = link.put(piece);
    let failed = (link.source.faults(), link.sink.faults());
    (took == moved)
        & (*buf == after)
        & (put == answer)
        & (link.sink.written() == written)
        & (failed == faults)
}

/// Takes the turns of a link.
fn see_turns(link: MemLink, calls: &[Turn]) -> Rows {
    let mut link = link;
    let mut buf = [b'.'; 2];
    let mut rows = Rows::new();
    for (row, turn) in calls.iter().enumerate() {
        rows.nth(
            row,
            "a take and a put: their answers, the buffer, all that is written and the faults",
            turns(&mut link, &mut buf, turn),
        );
    }
    rows
}

/// Turns of a link whose second take and first put fail.
const TURNS: [Turn; 3] = [
    (Ok(2), *b"ab", b"defg", Err(Failed), b"de", (0, 1)),
    (Err(Failed), *b"ab", b"hi", Ok(()), b"dehi", (1, 1)),
    (Ok(1), *b"cb", b"", Ok(()), b"dehi", (1, 1)),
];

#[test]
fn a_link_takes_and_puts_apart(rt: HostRuntime) -> Result<(), Fail> {
    let source = failing_source(rt.alloc(), b"abc", &[1])?;
    let sink = failing_sink(rt.alloc(), 8, &[0])?;
    see_turns(MemLink { source, sink }, &TURNS).all()?;
    Ok(())
}

/// These files, and one more.
fn with_file(
    alloc: Global,
    files: MemFiles,
    name: &[u8],
    content: &[u8],
) -> Result<MemFiles, AllocError> {
    let name = Text::copy_of(alloc, name)?;
    let content = Bytes::copy_of(alloc, content)?;
    files.with(name, content)
}

/// Three files, of which two have one name.
fn three_files(alloc: Global) -> Result<MemFiles, AllocError> {
    let files = with_file(alloc, MemFiles::new(alloc), b"a", b"abc")?;
    let files = with_file(alloc, files, b"b", b"def")?;
    with_file(alloc, files, b"a", b"ghi")
}

/// A call of `read`: a file's name, the limit, and the front of the file, or why there is none.
type Read = (&'static [u8], u32, Result<&'static [u8], OutErr>);

/// Whether files answer a call of `read` so.
fn reads(alloc: Global, files: &mut MemFiles, read: &Read) -> bool {
    let (name, limit, front) = *read;
    let Ok(name) = Text::copy_of(alloc, name) else {
        return false;
    };
    match files.read(alloc, &name, limit) {
        Ok(bytes) => front == Ok(bytes.as_slice()),
        Err(why) => front == Err(why),
    }
}

/// Makes these calls of files.
fn see_reads(
    alloc: Global,
    files: &mut MemFiles,
    calls: &[(&'static str, Read)],
    rows: Rows,
) -> Rows {
    let mut rows = rows;
    for (row, (what, read)) in calls.iter().enumerate() {
        rows.nth(row, *what, reads(alloc, files, read));
    }
    rows
}

/// What a row tells, and a call of `read`; the files are `a`, `b`, and another `a`.
const READS: [(&str, Read); 3] = [
    ("the first of two files of a name", (b"a", 3, Ok(b"abc"))),
    ("a byte more than the limit", (b"b", 1, Ok(b"de"))),
    ("no file", (b"c", 3, Err(OutErr::Failed))),
];

/// The same, where the next call fails.
const LATER_READS: [(&str, Read); 2] = [
    ("a call that fails", (b"a", 3, Err(OutErr::Failed))),
    ("a limit of no bytes", (b"a", 0, Ok(b"a"))),
];

/// Makes calls of files before and after some are made to fail.
fn see_files(alloc: Global, files: MemFiles, failing: Vec<u64>) -> Rows {
    let mut files = files;
    let rows = see_reads(alloc, &mut files, &READS, Rows::new());
    let mut files = files.failing(failing);
    let mut rows = see_reads(alloc, &mut files, &LATER_READS, rows);
    rows.is("the faults", files.faults() == 2);
    rows
}

#[test]
fn files_are_read_up_to_a_limit(rt: HostRuntime) -> Result<(), Fail> {
    let failing = Vec::from_slice(rt.alloc(), &[3])?;
    let files = three_files(rt.alloc())?;
    see_files(rt.alloc(), files, failing).passes()
}

/// Takes what may go to another thread.
fn go<T: Send + Drop>(_value: T) {}

#[test]
fn fakes_may_go_to_other_threads(rt: HostRuntime) -> Result<(), Fail> {
    let alloc = rt.alloc();
    let sink = MemSink::new(alloc, 8)?;
    let source = MemSource::new(alloc, Vec::new(alloc));
    go(MemLink { source, sink });
    go(MemFiles::new(alloc));
    go(MemClock::new(7));
    go(Silent);
    Ok(())
}

/// Counts its reports.
struct Counted(u64);

impl Progress for Counted {
    fn report(&mut self, _done: u64, _all: u64) {
        self.0 = self.0.saturating_add(1);
    }
}

/// A long call of three steps.
fn count_to_three<P: Progress>(progress: &mut P) {
    for done in 1..=3 {
        progress.report(done, 3);
    }
}

#[test]
fn progress_is_reported() -> Result<(), Fail> {
    let mut counted = Counted(0);
    count_to_three(&mut counted);
    count_to_three(&mut Silent);
    let Counted(reports) = counted;
    let mut rows = Rows::new();
    rows.is("how many reports there were", reports == 3);
    rows.passes()
}
