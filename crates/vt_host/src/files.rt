//! Files that are read whole, by name.

ghost use Rattle.std.specs.Prelude.{◌≡◌, ◌≤◌, ◌+◌, ◌++◌, ◌∷◌, [], true, IsTrue, IfErr, IfOk, OnOk, length};
ghost use Rattle.vt_host.specs.Opening.{file_opening, ReadsFront, StopsReading};
ghost use Rattle.vt_host.specs.ToldFiles.{FrontOf};

use crate::disk::read_options;
use crate::faults::Faults;
use crate::system::{FileCalls, Opener};
use std::alloc::Global;
use std::str;
use vt_base::{Bytes, Text};
use vt_out::{Files, OutErr};

/// Files of the system, which are read whole. Names are taken as they are, from the working folder.
#[derive(Drop)]
pub struct StdFiles<O> {
    /// What opens them.
    files: O,
    faults: Faults,
}

impl<O: Opener> StdFiles<O> {
    ghost use Rattle.vt_host.specs.Named.{files_opener, files_faults};

    /// Files that this opens.
    pub fn new(files: O) -> Self
        ensures files { files_opener result ≡ files }
        ensures faults { files_faults result ≡ 0 }
    {
        StdFiles {
            files,
            faults: Faults::new(),
        }
    }
}

/// The front of the file of this name: all of it, or one byte more than the limit.
fn read_front<O: Opener>(
    alloc: Global,
    files: &mut O,
    name: &Text,
    limit: u32,
) -> Result<Bytes, OutErr>
where
    O::File: Drop,
    ensures bound { IfOk result (λ bytes. length bytes ≤ limit + 1) }
    ensures opened { OnOk result (IsTrue O.File.tells
        → O.opened files.new ≡ O.opened files.old ++ file_opening name.now true ∷ []) }
    ensures made { IfOk result (λ bytes. IsTrue O.File.tells → (file : O.File)
        × ReadsFront limit bytes (O.File.made file)) }
    ensures failed { IfErr result (λ why. IsTrue O.File.tells
        → StopsReading O.File.made name.now why (O.opened files.old) (O.opened files.new)) }
    ensures content { IfOk result (λ bytes. IsTrue O.File.tells → IsTrue O.still
        → FrontOf (O.holds name.now) (limit + 1) bytes) }
{
    let Ok(name) = str::from_utf8(name.as_slice()) else {
        return Err(OutErr::Failed);
    };
    let Ok(mut file) = files.open(&read_options(), name) else {
        return Err(OutErr::Failed);
    };
    let Ok(len) = file.measure() else {
        return Err(OutErr::Failed);
    };
    let front = len.min(u64::from(limit) + 1) as usize;
    let Ok(mut bytes) = vec![in alloc; 0; front] else {
        return Err(OutErr::NoMemory);
    };
    if file.read_at(0, &mut bytes).is_err() {
        return Err(OutErr::Failed);
    }
    Ok(Bytes::from_vec(bytes))
}

impl<O: Opener> Files for StdFiles<O>
where
    O::File: Drop,
{
    ghost use Rattle.std.specs.Prelude.{◌≡◌, ◌≤◌, ◌+◌, ◌++◌, ◌∷◌, ◌&&◌, [], true, IsTrue, IfErr};
    ghost use Rattle.std.specs.Prelude.{IfOk, OnOk, length};
    ghost use Rattle.vt_base.specs.Faults.{CountsFault};
    ghost use Rattle.vt_host.specs.Named.{files_faults, files_opener};
    ghost use Rattle.vt_host.specs.Opening.{file_opening, ReadsFront, StopsReading};
    ghost use Rattle.vt_host.specs.ToldFiles.{FrontOf, content_told};
    ghost use Rattle.vt_out.specs.Files.{is_fault};

    ghost tells = { O.File.tells && O.still };

    ghost content = { λ _ name. content_told (O.File.tells && O.still) (O.holds name) };

    ghost faults = { files_faults };

    ghost faults_fit = { λ files. files.faults.fits };

    /// Opens the file and reads it to its end, or up to one byte more than the limit; a call that
    /// fails is counted.
    fn read(&mut self, alloc: Global, name: &Text, limit: u32) -> Result<Bytes, OutErr>
        ensures bound { IfOk result (λ bytes. length bytes ≤ limit + 1) }
        ensures opened { OnOk result (IsTrue O.File.tells → O.opened (files_opener self.new)
            ≡ O.opened (files_opener self.old) ++ file_opening name.now true ∷ []) }
        ensures made { IfOk result (λ bytes. IsTrue O.File.tells → (file : O.File)
            × ReadsFront limit bytes (O.File.made file)) }
        ensures failed { IfErr result (λ why. IsTrue O.File.tells
            → StopsReading O.File.made name.now why
            (O.opened (files_opener self.old)) (O.opened (files_opener self.new))) }
        ensures content { IfOk result (λ bytes. IsTrue O.File.tells → IsTrue O.still
            → FrontOf (O.holds name.now) (limit + 1) bytes) }
        ensures cause { CountsFault is_fault result
            (files_faults self.old) (files_faults self.new) }
    {
        let read = read_front(alloc, &mut self.files, name, limit);
        if matches!(read, Err(OutErr::Failed)) {
            self.faults.count_one();
        }
        read
    }
}
