//! Runs of the program.

use crate::bits::joined;
use crate::call_order::{CallOrder, NotedParts};
use crate::host::{Lent, Runtime, confs, folder_named, run_lent, server_at, source_of, with_file};
use crate::partitions::Partitions;
use crate::ran::Ran;
use std::alloc::{AllocError, Global};
use vt_base::{Scorer, Sha1Scorer};
use vt_dial::MemDialer;
use vt_out::{MemFiles, MemFolders, MemSink, MemSource};

/// What a run is given beside partitions and folders.
#[derive(Clone, Copy)]
pub struct Given<'a> {
    /// The words of the command line.
    pub words: &'a [&'a str],
    /// What comes in, in parts.
    pub input: &'a [&'a [u8]],
    /// How many bytes come in by a call, in turn, if it says any.
    pub pieces: &'a [usize],
    /// The calls by which bytes come in that fail, numbered from 0.
    pub failing: &'a [u64],
    /// How many bytes the sink takes.
    pub room: usize,
    /// The calls by which bytes go to the sink that fail, numbered from 0.
    pub failing_puts: &'a [u64],
    /// A file beside the configurations of tests.
    pub file: Option<(&'a str, &'a [u8])>,
    /// The server that can be dialled, if there is one.
    pub server: Option<Server<'a>>,
}

/// A server at this machine's port of Venti, which says all this whatever it hears.
#[derive(Clone, Copy)]
pub struct Server<'a> {
    /// In parts.
    pub says: &'a [&'a [u8]],
    /// How many bytes come from it by a call, in turn, if it says any.
    pub pieces: &'a [usize],
    /// The calls by which bytes come from it that fail, numbered from 0.
    pub failing: &'a [u64],
}

impl<'a> Given<'a> {
    /// These words, and this input, which comes in at once. Nothing fails.
    pub fn new(words: &'a [&'a str], input: &'a [&'a [u8]]) -> Self {
        Given {
            words,
            input,
            pieces: &[],
            failing: &[],
            room: 1 << 16,
            failing_puts: &[],
            file: None,
            server: None,
        }
    }
}

/// Runs the program over these partitions.
pub fn run(
    rt: &impl Runtime,
    parts: &mut Partitions,
    given: &Given<'_>,
) -> Result<Ran, AllocError> {
    run_scored(rt, parts, given, &Sha1Scorer)
}

/// The same, with scores by this scorer.
pub fn run_scored<C: Scorer + Sync>(
    rt: &impl Runtime,
    parts: &mut Partitions,
    given: &Given<'_>,
    scorer: &C,
) -> Result<Ran, AllocError> {
    let folders = no_folder(rt.alloc())?;
    run_all(rt, parts, folders, given, scorer)
}

/// Runs the program over these partitions and folders.
pub fn run_with_folders(
    rt: &impl Runtime,
    parts: &mut Partitions,
    folders: MemFolders,
    given: &Given<'_>,
) -> Result<Ran, AllocError> {
    run_all(rt, parts, folders, given, &Sha1Scorer)
}

/// A folder that nobody asks for.
pub(crate) fn no_folder(alloc: Global) -> Result<MemFolders, AllocError> {
    folder_named(alloc, "nowhere", Vec::new(alloc), usize::MAX, &[])
}

/// Runs the program with all of these, and puts the partitions back.
fn run_all<C: Scorer + Sync>(
    rt: &impl Runtime,
    parts: &mut Partitions,
    folders: MemFolders,
    given: &Given<'_>,
    scorer: &C,
) -> Result<Ran, AllocError> {
    let alloc = rt.alloc();
    let lent = lent_of(alloc, folders, given)?;
    let (ran, back) = run_lent(rt, given.words, lent, parts.take(alloc), scorer)?;
    parts.put_back(back);
    Ok(ran)
}

/// Runs the program over these partitions, and notes the order of their calls.
pub fn run_noted(
    rt: &impl Runtime,
    parts: &mut Partitions,
    order: &CallOrder,
    given: &Given<'_>,
) -> Result<Ran, AllocError> {
    let alloc = rt.alloc();
    let lent = lent_of(alloc, no_folder(alloc)?, given)?;
    let noted = NotedParts {
        parts: parts.take(alloc),
        order,
    };
    let (ran, back) = run_lent(rt, given.words, lent, noted, &Sha1Scorer)?;
    let NotedParts {
        parts: back,
        order: _,
    } = back;
    parts.put_back(back);
    Ok(ran)
}

/// What the program is lent of this, and these folders.
fn lent_of(
    alloc: Global,
    folders: MemFolders,
    given: &Given<'_>,
) -> Result<Lent<MemSource, MemSink>, AllocError> {
    let input = joined(alloc, given.input)?;
    let failing_puts = Vec::from_slice(alloc, given.failing_puts)?;
    Ok(Lent {
        source: source_of(alloc, input, given.pieces, given.failing)?,
        sink: MemSink::new(alloc, given.room)?.failing(failing_puts),
        files: files_of(alloc, given.file)?,
        dialer: dialer_of(alloc, given.server)?,
        folders,
    })
}

/// The configurations of tests, and this file.
fn files_of(alloc: Global, file: Option<(&str, &[u8])>) -> Result<MemFiles, AllocError> {
    let files = confs(alloc)?;
    match file {
        Some((name, content)) => with_file(alloc, files, name, content),
        None => Ok(files),
    }
}

/// A dialer of this server, or of one that nobody asks for.
pub(crate) fn dialer_of(
    alloc: Global,
    server: Option<Server<'_>>,
) -> Result<MemDialer, AllocError> {
    match server {
        Some(
            Server {
                says,
                pieces,
                failing,
            },
        ) => {
            let says = joined(alloc, says)?;
            server_at(alloc, "localhost", 17_034, says, pieces, failing)
        }
        None => server_at(alloc, "nobody", 1, Vec::new(alloc), &[], &[]),
    }
}
