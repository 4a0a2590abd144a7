//! A folder that is shown on a terminal while it is read.

ghost use Rattle.std.specs.Prelude.{◌≡◌};
ghost use Rattle.run_archives.specs.Watched.{watched_folder};

use itoa::Buffer;
use run_base::put_pieces;
use std::alloc::Global;
use vt_base::{Failed, Text};
use vt_out::{Folder, Listing, OutErr, Sink};

/// So many files are read between two lines on the terminal.
const FILES: u64 = 64;

/// So many bytes are.
const BYTES: u64 = 1 << 22;

/// A folder, of which it is shown on a terminal, if there is one, how many files and bytes were
/// read. That is no result: no clause speaks of it, and a terminal that fails changes nothing.
#[derive(Drop)]
pub struct Watched<F, K> {
    folder: F,
    terminal: Option<K>,
    /// How many files were begun: a read counts as one that begins at the first byte.
    files: u64,
    /// How many bytes came, of all files. At 2^64 - 1 it stays.
    bytes: u64,
}

impl<F: Folder, K: Sink + Drop> Watched<F, K> {
    /// Shows on this terminal, if there is one, what is read of this folder; nothing was read yet.
    pub fn new(folder: F, terminal: Option<K>) -> Self
        ensures { watched_folder result ≡ folder }
    {
        Watched {
            folder,
            terminal,
            files: 0,
            bytes: 0,
        }
    }

    /// Shows how much was read of it, and how many blocks that came to, and what these are.
    pub fn show_end(&mut self, blocks: u64, what: &[u8])
        ensures { watched_folder self.new ≡ watched_folder self.old }
    {
        let mut digits = Buffer::new();
        self.show(&[b" bytes, ", digits.format(blocks).as_bytes(), what]);
    }

    /// The folder, and the terminal.
    pub fn into_parts(self) -> (F, Option<K>)
        ensures { result.0 ≡ watched_folder self }
    {
        let Watched {
            folder,
            terminal,
            files: _,
            bytes: _,
        } = self;
        (folder, terminal)
    }

    /// Counts what was read from this place of a file on.
    fn count(&mut self, at: u64, len: usize)
        ensures { watched_folder self.new ≡ watched_folder self.old }
    {
        let (files, bytes) = (self.files, self.bytes);
        self.bytes = bytes.saturating_add(len as u64);
        if at == 0 {
            self.files = files.saturating_add(1);
        }
        if self.files / FILES != files / FILES || self.bytes / BYTES != bytes / BYTES {
            self.show(&[b" bytes\r"]);
        }
    }

    /// Shows how many files and bytes were read so far, with this behind it. A terminal that fails
    /// is of no account.
    fn show(&mut self, end: &[&[u8]])
        ensures { watched_folder self.new ≡ watched_folder self.old }
    {
        let Some(terminal) = &mut self.terminal else {
            return;
        };
        let mut files = Buffer::new();
        let mut bytes = Buffer::new();
        let _ = put_pieces(
            terminal,
            &[
                b"venti: ",
                files.format(self.files).as_bytes(),
                b" files, ",
                bytes.format(self.bytes).as_bytes(),
            ],
        );
        let _ = put_pieces(terminal, end);
    }
}

impl<F: Folder, K: Sink + Drop> Folder for Watched<F, K> {
    ghost tells = { F.tells };

    ghost holds = { λ watched. F.holds (watched_folder watched) };

    ghost may_fail = { λ watched. F.may_fail (watched_folder watched) };

    ghost faults = { λ watched. F.faults (watched_folder watched) };

    ghost holds_bytes = { λ watched. F.holds_bytes (watched_folder watched) };

    ghost faults_fit = { λ watched. F.faults_fit (watched_folder watched) };

    /// Lists what stands at the path of the folder that is watched.
    fn list(&mut self, alloc: Global, path: &[Text]) -> Result<Listing, OutErr> {
        self.folder.list(alloc, path)
    }

    /// Reads a file of the folder that is watched, and counts the bytes that came.
    fn read(&mut self, path: &[Text], at: u64, buf: &mut [u8]) -> Result<usize, Failed> {
        let len = self.folder.read(path, at, buf)?;
        self.count(at, len);
        Ok(len)
    }
}
