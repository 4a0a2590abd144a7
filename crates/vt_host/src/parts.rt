//! Files as partitions by name.

ghost use Rattle.std.specs.Prelude.{◌≡◌};

use crate::disk::FileDisk;
use crate::faults::Faults;
use crate::system::Opener;
use std::alloc::Global;
use std::str;
use vt_base::{Failed, Text};
use vt_partitions::Parts;

/// Files of the system as partitions, each with its exclusive lock. Names are taken as they are,
/// from the working folder.
#[derive(Drop)]
pub struct FileParts<O> {
    /// What opens them.
    files: O,
    /// Failed calls of `part`.
    faults: Faults,
}

impl<O: Opener> FileParts<O> {
    ghost use Rattle.vt_host.specs.Named.{parts_files, parts_faults};

    /// Partitions that this opens.
    pub fn new(files: O) -> Self
        ensures files { parts_files result ≡ files }
        ensures faults { parts_faults result ≡ 0 }
    {
        FileParts {
            files,
            faults: Faults::new(),
        }
    }
}

impl<O: Opener> Parts for FileParts<O>
where
    O::File: Drop,
{
    ghost use Rattle.std.specs.Prelude.{◌≡◌, ◌≤◌, ◌⊎◌, ◌++◌, false, IsTrue, IfOk, IfSome, OnOk, OnErr};
    ghost use Rattle.std.specs.Prelude.{IsUtf8, length};
    ghost use Rattle.vt_base.specs.Faults.{HasCause};
    ghost use Rattle.vt_disk.specs.Disk.{Only};
    ghost use Rattle.vt_host.specs.Disks.{disk_file, disk_size};
    ghost use Rattle.vt_host.specs.Named.{parts_files, parts_faults};
    ghost use Rattle.vt_host.specs.Opening.{openings, BecomesDisk, StopsOpening};
    ghost use Rattle.vt_partitions.specs.Parts.{nothing};

    type Disk = FileDisk<O::File>;

    ghost tells = { false };

    ghost standing = { λ _ _. nothing };

    ghost faults = { parts_faults };

    ghost faults_fit = { λ parts. parts.faults.fits };

    /// The file of this name as a disk. A name that isn't UTF-8 is none of a file.
    fn part(
        &mut self,
        _alloc: Global,
        name: &Text,
        grow_to: Option<u64>,
    ) -> Result<FileDisk<O::File>, Failed>
        ensures grown { IfOk result (λ disk. IfSome grow_to (λ least. least ≤ disk_size disk)) }
        ensures opened { OnOk result (IsTrue O.File.tells → O.opened (parts_files self.new)
            ≡ O.opened (parts_files self.old) ++ openings name.now grow_to) }
        ensures failed { OnErr result (IsTrue O.File.tells
            → ((¬ IsUtf8 name.now)
            × (O.opened (parts_files self.new) ≡ O.opened (parts_files self.old)))
            ⊎ StopsOpening O.File.made name.now grow_to
            (O.opened (parts_files self.old)) (O.opened (parts_files self.new))) }
        ensures made { IfOk result (λ disk. IsTrue O.File.tells
            → BecomesDisk grow_to (O.File.made (disk_file disk)) (disk_size disk)) }
        ensures sized { IfOk result (λ disk. IsTrue O.File.tells
            → length (O.File.bytes (disk_file disk)) ≡ disk_size disk) }
        ensures settled { IfOk result (λ disk. IsTrue O.File.tells
            → Only (O.File.bytes (disk_file disk)) (O.File.images (disk_file disk))) }
        ensures cause { HasCause result (parts_faults self.old) (parts_faults self.new) }
    {
        let disk = match str::from_utf8(name.as_slice()) {
            Ok(name) => FileDisk::open(&mut self.files, name, grow_to),
            Err(_) => Err(Failed),
        };
        self.faults.counted(disk)
    }

    /// Closes the file, and so gives its lock back.
    fn done(&mut self, _name: &Text, disk: FileDisk<O::File>)
        ensures faults { parts_faults self.new ≡ parts_faults self.old }
    {
        drop(disk);
    }
}
