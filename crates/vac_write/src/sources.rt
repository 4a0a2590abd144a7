//! What is written as a stream: a file of a folder, or bytes in memory.

ghost use Rattle.std.specs.Prelude.{◌≤◌, length};
ghost use Rattle.vt_base.specs.Bytes.{AreBytes};

use vt_base::{Failed, Text};
use vt_out::{Folder, Source};

/// The bytes of a file of a folder, front to back.
#[derive(Drop)]
pub(crate) struct FileSource<'a, 'b, F: Folder> {
    pub(crate) folder: &'a mut F,
    /// The names on the way to the file.
    pub(crate) path: &'b [Text],
    /// How many bytes were read.
    pub(crate) at: u64,
}

impl<'a, 'b, F: Folder> Source for FileSource<'a, 'b, F> {
    ghost use Rattle.std.specs.Prelude.{ℕ, Bool, Option, List, take, drop};
    ghost use Rattle.vt_out.specs.declared.folder_item.Facts.{Facts};
    ghost use Rattle.vt_out.specs.FolderItems.{FailingPaths, Items};
    ghost use Rattle.vac_write.specs.Sources.{bytes_at_path, left_bytes, told_folder, is_sure};
    ghost use Rattle.vac_write.specs.Sources.{sure_faults, unsure_faults, unsure_fit};

    ghost tells = { F.tells };

    ghost given = { λ s. take s.at (bytes_at_path s.path.now (F.holds s.folder.now)) };

    ghost left = { λ s. drop s.at (bytes_at_path s.path.now (F.holds s.folder.now)) };

    // (where no read may fail none is counted, so that one that is told is one that may)
    ghost faults = { λ s. unsure_faults
        (is_sure F.tells (F.holds s.folder.now) (F.may_fail s.folder.now) s.path.now)
        (F.faults s.folder.now) };

    ghost Kept = { ℕ × List (List ℕ) × Option (Items Facts × FailingPaths) × Bool × ℕ };

    ghost kept = { λ s. (
      s.folder.ghost_name,
      s.path.now,
      told_folder F.tells (F.holds s.folder.now) (F.may_fail s.folder.now),
      is_sure F.tells (F.holds s.folder.now) (F.may_fail s.folder.now) s.path.now,
      sure_faults
          (is_sure F.tells (F.holds s.folder.now) (F.may_fail s.folder.now) s.path.now)
          (F.faults s.folder.now),
    ) };

    ghost left_bytes = { λ s.
        left_bytes s.path.now (F.holds s.folder.now) (F.holds_bytes s.folder.now) s.at };

    ghost faults_fit = { λ s. unsure_fit
        (is_sure F.tells (F.holds s.folder.now) (F.may_fail s.folder.now) s.path.now)
        (F.faults s.folder.now) (F.faults_fit s.folder.now) };

    /// No more is read than the place has room to count.
    fn take(&mut self, buf: &mut [u8]) -> Result<usize, Failed> {
        let room = buf.len().min((u64::MAX - self.at) as usize);
        let n = self.folder.read(self.path, self.at, &mut buf[..room])?;
        self.at += n as u64;
        Ok(n)
    }
}

/// Bytes in memory, of which some were taken.
#[derive(Drop)]
pub(crate) struct SliceSource<'a> {
    bytes: &'a [u8],
    /// How many of them were taken.
    at: usize,
    ghost at_fits: { at ≤ length bytes.now },
    ghost are_bytes: { AreBytes bytes.now },
}

impl<'a> SliceSource<'a> {
    ghost use Rattle.std.specs.Prelude.{◌≡◌};

    /// Gives these bytes, from the first.
    pub(crate) fn new(bytes: &'a [u8]) -> Self
        ensures at { result.at ≡ 0 }
        ensures bytes { result.bytes ≡ bytes.entry }
    {
        SliceSource { bytes, at: 0 }
    }
}

impl<'a> Source for SliceSource<'a> {
    ghost use Rattle.std.specs.Prelude.{◌+◌, true, take, drop};
    ghost use Rattle.std.proofs.Common.{arith};
    ghost use Rattle.std.proofs.lemmas.List.{get_or-drop};

    ghost tells = { true };

    ghost given = { λ s. take s.at s.bytes.now };

    ghost left = { λ s. drop s.at s.bytes.now };

    ghost faults = { λ _. 0 };

    ghost Kept = { Unit {0} };

    ghost kept = { λ _. tt };

    ghost left_bytes = { λ s i. Prim.omega
        (arith, get_or-drop s.at s.bytes.now i 0, s.are_bytes (s.at + i)) };

    ghost faults_fit = { λ _. Prim.omega arith };

    /// Gives the next bytes of the slice, as many as the buffer has room for.
    fn take(&mut self, buf: &mut [u8]) -> Result<usize, Failed> {
        let left = &self.bytes[self.at..];
        let n = left.len().min(buf.len());
        buf[..n].copy_from_slice(&left[..n]);
        self.at += n;
        Ok(n)
    }
}
