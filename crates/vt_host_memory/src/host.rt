//! A host in memory.

use crate::ran::Ran;
use run_base::Outside;
use std::alloc::{AllocError, Global};
use std::thread::Threads;
use vt_base::{Bytes, Scorer, Text};
use vt_commands::run_with;
use vt_dial::MemDialer;
use vt_handler::Streams;
use vt_out::{
    MemClock, MemFiles, MemFolder, MemFolders, MemItem, MemLink, MemSink, MemSource, Sink, Source,
};
use vt_partitions::Parts;

/// What a test hands to the program.
pub trait Runtime: Threads + Sync + AllocGlobal {}

impl<R: Threads + Sync + AllocGlobal> Runtime for R {}

/// A sink that says what went to it.
pub(crate) trait TestSink: Sink + Drop {
    /// A copy of all that went to it.
    fn told(&self, alloc: Global) -> Result<Vec<u8>, AllocError>;
}

impl TestSink for MemSink {
    fn told(&self, alloc: Global) -> Result<Vec<u8>, AllocError> {
        Ok(Vec::from_slice(alloc, self.written())?)
    }
}

/// What the program is lent beside partitions.
#[derive(Drop)]
pub(crate) struct Lent<S, K> {
    /// The stream that is read.
    pub source: S,
    /// Where results go.
    pub sink: K,
    /// The configurations, and what else is read whole.
    pub files: MemFiles,
    pub dialer: MemDialer,
    pub folders: MemFolders,
}

/// Runs the program with these words. Gives the partitions back.
pub(crate) fn run_lent<C: Scorer + Sync, S: Source + Drop, K: TestSink, P: Parts + Drop>(
    rt: &impl Runtime,
    words: &[&str],
    lent: Lent<S, K>,
    parts: P,
    scorer: &C,
) -> Result<(Ran, P), AllocError> {
    let alloc = rt.alloc();
    let fault_sink = MemSink::new(alloc, 200)?;
    let Lent {
        source,
        sink,
        files,
        dialer,
        folders,
    } = lent;
    let mut host = Outside {
        streams: Streams { source, sink },
        fault_sink,
        files,
        parts,
        dialer,
        folders,
        clock: MemClock::new(0),
        terminal: None::<MemSink>,
    };
    let status = run_with(rt, alloc, words, &mut host, scorer);
    let Outside {
        streams: Streams {
            source: _source,
            sink,
        },
        fault_sink,
        files: _files,
        parts,
        dialer,
        folders: _folders,
        clock: _,
        terminal: _terminal,
    } = host;
    let ran = ran_of(alloc, status, sink, fault_sink, dialer)?;
    Ok((ran, parts))
}

/// What is left by a run that ended with this status.
fn ran_of<K: TestSink>(
    alloc: Global,
    status: u8,
    sink: K,
    fault_sink: MemSink,
    dialer: MemDialer,
) -> Result<Ran, AllocError> {
    let output = sink.told(alloc)?;
    let complaint = fault_sink.told(alloc)?;
    let heard = match dialer.into_link() {
        Some(link) => link.sink.told(alloc)?,
        None => Vec::new(alloc),
    };
    Ok(Ran {
        status,
        output,
        complaint,
        heard,
    })
}

// ---- what is lent

/// Configurations of the partitions that tests make.
const CONFS: [(&str, &str); 8] = [
    (
        "v.conf",
        "index main\narenas a.part\nisect i.part\nbloom b.part\nmem 1m\nicmem 1m\n",
    ),
    (
        "small.conf",
        "arenas a.part\nisect i.part\nmem 1k\nicmem 1k\n",
    ),
    ("twice.conf", "arenas a.part\narenas c.part\nisect i.part\n"),
    ("next.conf", "arenas a.part\nisect j.part\n"),
    (
        "size.conf",
        "index main\narenas a.part\nisect i.part\nmem 1x\n",
    ),
    ("empty.conf", ""),
    ("none.conf", "arenas a.part\nisect none.part\n"),
    ("other.conf", "arenas a.part\nisect b.part\n"),
];

/// They are in files of these names.
pub(crate) fn confs(alloc: Global) -> Result<MemFiles, AllocError> {
    let mut files = MemFiles::new(alloc);
    for (name, content) in CONFS {
        files = with_file(alloc, files, name, content.as_bytes())?;
    }
    Ok(files)
}

/// With one more file.
pub(crate) fn with_file(
    alloc: Global,
    files: MemFiles,
    name: &str,
    content: &[u8],
) -> Result<MemFiles, AllocError> {
    let name = Text::copy_of(alloc, name.as_bytes())?;
    let content = Bytes::copy_of(alloc, content)?;
    files.with(name, content)
}

/// A source of these bytes. Each call moves as many of them as the list says, in turn, if it says
/// any, and those with these numbers fail.
pub(crate) fn source_of(
    alloc: Global,
    bytes: Vec<u8>,
    pieces: &[usize],
    failing: &[u64],
) -> Result<MemSource, AllocError> {
    let pieces = Vec::from_slice(alloc, pieces)?;
    let failing = Vec::from_slice(alloc, failing)?;
    Ok(
        MemSource::new(alloc, bytes)
            .in_pieces(pieces)
            .failing(failing),
    )
}

/// A dialer of one server, at this host and port, which says all this whatever it hears.
pub(crate) fn server_at(
    alloc: Global,
    host: &str,
    port: u16,
    says: Vec<u8>,
    pieces: &[usize],
    failing: &[u64],
) -> Result<MemDialer, AllocError> {
    let host = Text::copy_of(alloc, host.as_bytes())?;
    let pieces = Vec::from_slice(alloc, pieces)?;
    let failing = Vec::from_slice(alloc, failing)?;
    let sink = MemSink::new(alloc, 600)?;
    let source = MemSource::new(alloc, says)
        .in_pieces(pieces)
        .failing(failing);
    Ok(MemDialer::new(host, port, MemLink { source, sink }))
}

/// Under this name, a folder with these items. A call reads so many bytes at most, and those with
/// these numbers fail.
pub fn folder_named(
    alloc: Global,
    name: &str,
    items: Vec<MemItem>,
    most: usize,
    failing: &[u64],
) -> Result<MemFolders, AllocError> {
    let name = Text::copy_of(alloc, name.as_bytes())?;
    let failing = Vec::from_slice(alloc, failing)?;
    let folder = MemFolder::new(alloc, items)
        .in_pieces(most)
        .failing(failing);
    Ok(MemFolders::new(name, folder))
}
