//! Which calls are told where they fail, under which names, and that their errors are handed on.

ghost use Rattle.std.specs.Prelude.{◌≡◌};
ghost use Rattle.vt_host.specs.Opening.{read_options};

use crate::fakes::{Fake, Page, has_line};
use std::alloc::Global;
use std::cell::RefCell;
use std::fs::OpenOptions;
use std::io;
use std::io::ErrorKind;
use std::test::Fail;
use vt_host::{
    ClockCalls, Connector, FileCalls, FolderCalls, Opener, PieceCalls, ReadCalls, System,
    WriteCalls,
};
use vt_rows::Rows;
use vt_told::{Call, ErrorLines, Teller, Told, ToldAs, ToldNet};

/// What a call is made of.
#[derive(Clone, Copy)]
enum Of {
    /// The file `d/disk`.
    File,
    /// Standard output, or standard input.
    Stream,
    /// A connection.
    Link,
    /// What stands at this path.
    Path(&'static str),
    Clock,
}

/// How a file is opened that is read whole.
fn read_options() -> OpenOptions
    ensures { result ≡ read_options }
{
    let mut options = OpenOptions::new();
    options.read(true);
    options
}

/// Makes this call of a file, which is opened first.
fn use_file<O: Opener>(files: &mut O, call: Call) -> io::Result<()>
where
    O::File: Drop,
{
    let mut file = files.open(&read_options(), "d/disk")?;
    match call {
        Call::Measure => file.measure().map(|_| ()),
        Call::Resize => file.resize(9),
        Call::Read => file.read_at(1, &mut [0; 2]),
        Call::Write => file.write_at(1, b"ab"),
        Call::Lock => file.lock(),
        Call::Sync => file.sync(),
        _ => Ok(()),
    }
}

/// Makes this call of what comes in or goes out.
fn use_streams<R: ReadCalls, W: WriteCalls>(
    input: &mut R,
    output: &mut W,
    call: Call,
) -> io::Result<()> {
    match call {
        Call::Read => input.read_some(&mut [0; 3]).map(|_| ()),
        Call::Write => output.put_all(b"ab"),
        Call::Flush => output.flush_all(),
        _ => Ok(()),
    }
}

/// Makes this call of a connection, which is made first, and closed behind it.
fn use_net<N: Connector>(net: &mut N, call: Call) -> io::Result<()> {
    let (mut input, mut output) = net.connect("localhost", 17_034)?;
    let done = use_streams(&mut input, &mut output, call);
    net.close(input, output);
    done
}

/// Looks at a path, lists it, or opens it and reads what is there.
fn use_path<C: FolderCalls>(alloc: Global, folder: &mut C, call: Call, path: &str) -> io::Result<()>
where
    C::File: Drop,
{
    match call {
        Call::LookAt => folder.look(path).map(|_| ()),
        Call::List => folder.names(alloc, path).map(|_| ()),
        _ => folder.open(path)?.read_piece(0, &mut [0; 2]).map(|_| ()),
    }
}

/// Makes this call of that, and tells this teller.
fn make<T: Teller + Copy>(
    alloc: Global,
    teller: T,
    fake: Fake,
    of: Of,
    call: Call,
) -> io::Result<()> {
    match of {
        Of::File => use_file(&mut Told::new(fake, alloc, teller), call),
        Of::Stream => use_streams(
            &mut ToldAs::new(fake, alloc, "standard input", teller),
            &mut ToldAs::new(fake, alloc, "standard output", teller),
            call,
        ),
        Of::Link => use_net(&mut ToldNet::new(fake, alloc, teller), call),
        Of::Path(path) => use_path(alloc, &mut Told::new(fake, alloc, teller), call, path),
        Of::Clock => ToldAs::new(fake, alloc, "the clock", teller)
            .time()
            .map(|_| ()),
    }
}

/// Whether this call, where it fails so, hands on its error, and is told by this line, if any.
fn is_told(
    alloc: Global,
    of: Of,
    call: Call,
    fails: Option<ErrorKind>,
    line: Option<&str>,
) -> bool {
    let page = RefCell::new(Vec::new(alloc));
    let lines = ErrorLines::new(alloc, System(Page(&page)));
    let opens = call != Call::Open && call != Call::Connect;
    let kind = match make(alloc, lines, Fake { fails, opens }, of, call) {
        Ok(()) => None,
        Err(why) => Some(why.kind()),
    };
    kind == fails && has_line(&page, line)
}

/// What a call is made of, the call, how it fails, and what is told.
const CALLS: [(Of, Call, ErrorKind, Option<&str>); 21] = [
    (
        Of::File,
        Call::Open,
        ErrorKind::NotFound,
        Some("open d/disk: no such file or folder"),
    ),
    (
        Of::File,
        Call::Measure,
        ErrorKind::Other,
        Some("measure d/disk: failed"),
    ),
    (
        Of::File,
        Call::Resize,
        ErrorKind::StorageFull,
        Some("resize d/disk: no space left"),
    ),
    (
        Of::File,
        Call::Read,
        ErrorKind::UnexpectedEof,
        Some("read d/disk: ends too early"),
    ),
    (
        Of::File,
        Call::Write,
        ErrorKind::Other,
        Some("write d/disk: failed"),
    ),
    (
        Of::File,
        Call::Lock,
        ErrorKind::Other,
        Some("lock d/disk: failed"),
    ),
    (
        Of::File,
        Call::Sync,
        ErrorKind::Other,
        Some("sync d/disk: failed"),
    ),
    (
        Of::Stream,
        Call::Read,
        ErrorKind::BrokenPipe,
        Some("read standard input: broken pipe"),
    ),
    (Of::Stream, Call::Read, ErrorKind::Interrupted, None),
    (
        Of::Stream,
        Call::Write,
        ErrorKind::StorageFull,
        Some("write standard output: no space left"),
    ),
    (
        Of::Stream,
        Call::Flush,
        ErrorKind::Other,
        Some("flush standard output: failed"),
    ),
    (
        Of::Link,
        Call::Connect,
        ErrorKind::TimedOut,
        Some("connect tcp!localhost!17034: timed out"),
    ),
    (
        Of::Link,
        Call::Read,
        ErrorKind::Other,
        Some("read tcp!localhost!17034: failed"),
    ),
    (
        Of::Link,
        Call::Write,
        ErrorKind::BrokenPipe,
        Some("write tcp!localhost!17034: broken pipe"),
    ),
    (
        Of::Path("home/./z"),
        Call::LookAt,
        ErrorKind::NotFound,
        None,
    ),
    (
        Of::Path("home/./z"),
        Call::LookAt,
        ErrorKind::Other,
        Some("look at home/z: failed"),
    ),
    (
        Of::Path("none/."),
        Call::LookAt,
        ErrorKind::NotFound,
        Some("look at none: no such file or folder"),
    ),
    (
        Of::Path("home/."),
        Call::List,
        ErrorKind::NotFound,
        Some("list home: no such file or folder"),
    ),
    (
        Of::Path("home/./f"),
        Call::Open,
        ErrorKind::PermissionDenied,
        Some("open home/f: permission denied"),
    ),
    (
        Of::Path("home/./f"),
        Call::Read,
        ErrorKind::Other,
        Some("read home/f: failed"),
    ),
    (
        Of::Clock,
        Call::Ask,
        ErrorKind::Other,
        Some("ask the clock: failed"),
    ),
];

#[test]
fn calls_that_fail_are_told(rt: HostRuntime) -> Result<(), Fail> {
    let alloc = rt.alloc();
    let mut rows = Rows::new();
    for (row, (of, call, kind, line)) in CALLS.into_iter().enumerate() {
        rows.nth(
            row,
            "what is told",
            is_told(alloc, of, call, Some(kind), line),
        );
        rows.nth(row, "that nothing is", is_told(alloc, of, call, None, None));
    }
    rows.passes()
}
