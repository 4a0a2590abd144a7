//! The program: a Venti server and its tools (venti(8)).
#![tactic(auto)]

pub mod laws;
mod program;

use crate::program::program;
use run_base::{CommandError, Outside};
use std::alloc::Global;
use std::env;
use std::io::{ErrorKind, IsTerminal, Stderr};
use std::process::ExitCode;
use std::rt::Env;
use vt_handler::Streams;
use vt_host::{
    Erasing, FileParts, StdClock, StdDialer, StdFiles, StdFolders, StdSink, StdSource, System,
    Terminal,
};
use vt_told::{ErrorLines, Told, ToldAs, ToldNet};

/// Hands the system's streams, files, folders, connections and clock to `program`, and ends by the
/// status that it tells. Each call of theirs that fails is told on standard error, but for those of
/// standard error itself, of the clock by which a terminal is shown lines, and of the files that name
/// users and groups, which a system may lack.
fn main(rt: HostRuntime) -> ExitCode {
    let alloc = rt.alloc();
    let errors = Erasing::new(System(rt.stderr()), rt.stderr().is_terminal());
    let lines = ErrorLines::new(alloc, errors);
    let mut host = Outside {
        streams: Streams {
            source: StdSource::new(ToldAs::new(System(rt.stdin()), alloc, "standard input", lines)),
            sink: StdSink::new(ToldAs::new(System(rt.stdout()), alloc, "standard output", lines)),
        },
        fault_sink: StdSink::new(errors),
        files: StdFiles::new(Told::new(System(rt), alloc, lines)),
        parts: FileParts::new(Told::new(System(rt), alloc, lines)),
        dialer: StdDialer::new(ToldNet::new(System(rt), alloc, lines)),
        folders: StdFolders::new(Told::new(System(rt), alloc, lines), System(rt)),
        clock: StdClock(ToldAs::new(System(rt), alloc, "the clock", lines)),
        terminal: terminal(rt),
    };
    ExitCode::from(program(&rt, alloc, arguments(&rt), &mut host))
}

/// Standard error, if it is a terminal.
fn terminal(rt: HostRuntime) -> Option<Terminal<System<Stderr>, System<HostRuntime>>> {
    let output = rt.stderr();
    if output.is_terminal() {
        Some(Terminal::new(System(output), System(rt)))
    } else {
        None
    }
}

/// The command line. One with a word that isn't UTF-8 is faulty.
fn arguments(rt: &(impl Env + AllocGlobal)) -> Result<Vec<String>, CommandError> {
    match env::args(rt) {
        Ok(args) => args.collect(rt.alloc()).map_err(|_| CommandError::NoMemory),
        Err(error) if error.kind() == ErrorKind::OutOfMemory => Err(CommandError::NoMemory),
        Err(_) => Err(CommandError::BadWords),
    }
}
