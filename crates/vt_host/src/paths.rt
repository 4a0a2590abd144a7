//! What the folders ask of the system, by path.
//!
//! Each method is one call, or the reads of one folder to its end. The system tells nothing of the
//! calls that were made of it, nor of what stands at its paths, so that the few lines of its impls
//! below are trusted.

ghost use Rattle.std.specs.Prelude.{◌≡◌, ◌≤◌, ◌<◌, ◌++◌, ◌∷◌, ℕ, Bool, IsTrue, List, [], length};
ghost use Rattle.std.specs.Prelude.{IfErr, IfOk, OnErr, Option, Some, None, is_ok, take, drop};
ghost use Rattle.std.specs.IoError.{error_kind};
ghost use Rattle.std.specs.declared.io.ErrorKind.TheVariants.{NotFound};
ghost use Rattle.std.specs.Result.{result_ok};
ghost use Rattle.vt_host.specs.Paths.{FolderCall, looked, listed, opened, PieceCall, MovesPiece};
ghost use Rattle.std.specs.Fs.{file_type, metadata_mode};
ghost use Rattle.vt_host.specs.Kinds.{IsKindOf};

use crate::system::System;
use std::alloc::Global;
use std::fs::{File, Files, Metadata, OpenOptions};
use std::io;
use std::io::{BufReader, Read};
use std::os::unix::fs::{FileExt, MetadataExt};
use vt_out::ItemKind;

/// What stands at a path (stat(2)).
#[derive(Clone, Copy)]
pub struct Look {
    pub kind: ItemKind,
    /// The type and the permissions, as the system has them.
    pub mode: u32,
    /// In seconds since 1970, or before.
    pub mtime: i64,
    /// The number of its owner.
    pub uid: u32,
    /// The number of its group.
    pub gid: u32,
}

/// Looks at folders and files by path.
pub trait FolderCalls {
    ghost use Rattle.vt_host.specs.declared.paths.Look.{Look};

    /// What a file is opened as.
    type File: PieceCalls;

    /// Whether it tells which calls were made of it.
    ghost tells: { Bool };

    /// The calls that were made of it, in order.
    ghost made: { Self → List FolderCall };

    /// Whether it tells what stands at the paths, which stays so as long as the program runs.
    ghost still: { Bool };

    /// What stands at this path, where anything does.
    ghost look_at: { (path : List ℕ) → Option Look };

    /// The names in the folder at this path, each with a zero byte behind it.
    ghost names_at: { (path : List ℕ) → Option (List ℕ) };

    /// One more, of which no call was made.
    fn another(&self) -> Self
        ensures { IsTrue tells → made result ≡ [] };

    /// What stands at this path: of a link, the link itself. `NotFound` says that nothing does.
    fn look(&mut self, path: &str) -> io::Result<Look>
        ensures noted { IsTrue tells
            → made self.new ≡ made self.old ++ looked path.now (result_ok result) ∷ [] }
        ensures seen { IfOk result (λ look. IsTrue still → look_at path.now ≡ Some look) }
        ensures absent { IfErr result (λ why. IsTrue still → error_kind why ≡ NotFound
            → look_at path.now ≡ None) };

    /// The names in the folder at this path, each with a zero byte behind it, `.` and `..` among
    /// them.
    fn names(&mut self, alloc: Global, path: &str) -> io::Result<Vec<u8>>
        ensures noted { IsTrue tells
            → made self.new ≡ made self.old ++ listed path.now (is_ok result) ∷ [] }
        ensures seen { IfOk result (λ names. IsTrue still → names_at path.now ≡ Some names.items) };

    /// Opens the file at this path, to be read.
    fn open(&mut self, path: &str) -> io::Result<Self::File>
        ensures noted { IsTrue tells
            → made self.new ≡ made self.old ++ opened path.now (is_ok result) ∷ [] }
        ensures unread { IfOk result (λ file. IsTrue Self.File.tells → Self.File.made file ≡ []) }
        ensures path { IfOk result (λ file. IsTrue Self.File.still → Self.File.path file ≡ path.now) };
}

/// A file that is read in pieces.
pub trait PieceCalls {
    /// Whether files of this type tell which calls were made of them.
    ghost tells: { Bool };

    /// The calls that were made of it, in order.
    ghost made: { Self → List PieceCall };

    /// Whether files of this type tell what stands at the paths, which stays so as long as the
    /// program runs.
    ghost still: { Bool };

    /// The bytes of the file at this path, where one is.
    ghost bytes_at: { (path : List ℕ) → Option (List ℕ) };

    /// The path that it was opened by.
    ghost path: { Self → List ℕ };

    /// Moves bytes of the file, from this place on, to the front of the buffer, and says how many.
    /// 0 is the file's end, where the buffer has room.
    fn read_piece(&mut self, start: u64, buf: &mut [u8]) -> io::Result<usize>
        ensures fits { IfOk result (λ n. n ≤ length buf.old) }
        ensures noted { IsTrue tells → made self.new ≡ made self.old
            ++ record { start = start; buf = buf.new; answer = result } ∷ [] }
        ensures moved { IfOk result (λ n. IsTrue still
            → MovesPiece (bytes_at (path self.old)) start n buf.old buf.new) }
        ensures untouched { OnErr result (IsTrue still → buf.new ≡ buf.old) }
        ensures path { IsTrue still → path self.new ≡ path self.old };
}

impl<R: Files<File = File> + Copy> FolderCalls for System<R> {
    ghost use Rattle.std.specs.Prelude.{false, None};

    type File = File;

    ghost tells = { false };

    ghost made = { λ _. [] };

    ghost still = { false };

    ghost look_at = { λ _. None };

    ghost names_at = { λ _. None };

    /// The same handle of the system's files.
    fn another(&self) -> System<R> {
        *self
    }

    /// What stands at the path, where a link isn't followed.
    fn look(&mut self, path: &str) -> io::Result<Look> {
        Ok(look_of(&self.0.symlink_metadata(path)?))
    }

    /// The names in the folder at the path, all of them in one buffer.
    fn names(&mut self, alloc: Global, path: &str) -> io::Result<Vec<u8>> {
        let folder = self.0.open_dir(path)?;
        let mut names = Vec::new(alloc);
        BufReader::new(alloc, folder)?.read_to_end(&mut names)?;
        Ok(names)
    }

    /// Opens the file at the path, to be read.
    fn open(&mut self, path: &str) -> io::Result<File> {
        OpenOptions::new().read(true).open(&self.0, path)
    }
}

/// What the system says of what it found. Its time and the numbers of its owner and its group have
/// no clause, since std's have none: these lines are trusted.
fn look_of(found: &Metadata) -> Look
    ensures kind { IsKindOf (file_type found.now) result.kind }
    ensures mode { result.mode ≡ metadata_mode found.now }
{
    Look {
        kind: kind_of(found),
        mode: found.mode(),
        mtime: found.mtime(),
        uid: found.uid(),
        gid: found.gid(),
    }
}

/// A regular file, a folder, or neither.
fn kind_of(found: &Metadata) -> ItemKind
    ensures { IsKindOf (file_type found.now) result }
{
    if found.is_file() {
        ItemKind::File
    } else if found.is_dir() {
        ItemKind::Folder
    } else {
        ItemKind::Other
    }
}

impl PieceCalls for File {
    ghost use Rattle.std.specs.Prelude.{false, None};

    ghost tells = { false };

    ghost made = { λ _. [] };

    ghost still = { false };

    ghost bytes_at = { λ _. None };

    ghost path = { λ _. [] };

    /// Reads once from this place on, as many bytes as there are and fit.
    fn read_piece(&mut self, start: u64, buf: &mut [u8]) -> io::Result<usize> {
        self.read_at(buf, start)
    }
}
