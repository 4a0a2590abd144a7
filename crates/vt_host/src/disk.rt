//! Files as disks.

ghost use Rattle.std.specs.Prelude.{◌≡◌, ◌⊎◌, ◌<◌, ◌≤◌, ◌^◌, ◌++◌, ◌∷◌, [], ℕ, List, length, true, false};
ghost use Rattle.std.specs.Prelude.{IsTrue, IsSome, IfOk, IfSome, OnOk, OnErr};
ghost use Rattle.std.specs.Result.{result_ok};
ghost use Rattle.vt_disk.specs.Disk.{Only};
ghost use Rattle.vt_host.specs.Calls.{FileCall, synced};
ghost use Rattle.vt_host.specs.Held.{HaveLength};
ghost use Rattle.vt_host.specs.Opening.{disk_options, read_options, folder_of, folder_opening};
ghost use Rattle.vt_host.specs.Opening.{GrowsFile, BecomesDisk, StopsShort};

use crate::faults::Faults;
use crate::system::{FileCalls, Opener};
use std::fs::OpenOptions;
use std::io;
use std::path::Path;
use vt_base::Failed;
use vt_disk::Disk;

/// A file or a partition of the system, as long as it was when it was opened, whose lock is held, and
/// which was synced then.
#[derive(Drop)]
pub struct FileDisk<F: FileCalls> {
    file: F,
    /// In bytes.
    len: u64,
    faults: Faults,
    ghost len_fits: { len < 2 ^ 64 },
    ghost sized: { IsTrue F.tells → length (F.bytes file) ≡ len },
    ghost held: { IsTrue F.tells → IsTrue (F.kept file) },
    ghost leaves: { IsTrue F.tells → HaveLength len (F.images file) },
}

/// How a file is opened as a disk.
fn options(create: bool) -> OpenOptions
    ensures { result ≡ disk_options create }
{
    let mut options = OpenOptions::new();
    options.read(true).write(true).create(create);
    options
}

/// How a folder, and a file that is read whole, is opened.
pub(crate) fn read_options() -> OpenOptions
    ensures { result ≡ read_options }
{
    let mut options = OpenOptions::new();
    options.read(true);
    options
}

/// The folder that a file of this name stands in.
fn folder_of(name: &str) -> &str
    ensures { result.now ≡ folder_of name.now }
{
    match Path::new(name).parent() {
        Some(folder) if !folder.as_os_str().is_empty() => folder.as_os_str(),
        _ => ".",
    }
}

/// Fills the file up to this length where it is shorter, and says how many bytes it then has.
fn grow<F: FileCalls>(file: &mut F, wanted: u64) -> io::Result<u64>
    ensures calls { IsTrue F.tells → (calls : List FileCall)
        × (F.made file.new ≡ F.made file.old ++ calls) × GrowsFile wanted calls (result_ok result) }
    ensures grown { IfOk result (λ len. wanted ≤ len) }
    ensures length { IfOk result (λ len. IsTrue F.tells → IsTrue (F.kept file.old)
        → length (F.bytes file.new) ≡ len) }
    ensures kept { IsTrue F.tells → IsTrue (F.kept file.old) → IsTrue (F.kept file.new) }
{
    let found = file.measure()?;
    if found < wanted {
        file.resize(wanted)?;
        return Ok(wanted);
    }
    Ok(found)
}

/// Puts the entry of the file of this name on the disk.
fn sync_folder<F: FileCalls + Drop, O: Opener<File = F>>(
    files: &mut O,
    name: &str,
) -> io::Result<()>
    ensures ok { OnOk result (IsTrue F.tells →
        (O.opened files.new ≡ O.opened files.old ++ folder_opening name.now true ∷ [])
        × ((folder : F) × (F.made folder ≡ synced true ∷ []))) }
    ensures failed { OnErr result (IsTrue F.tells →
        (O.opened files.new ≡ O.opened files.old ++ folder_opening name.now false ∷ [])
        ⊎ ((O.opened files.new ≡ O.opened files.old ++ folder_opening name.now true ∷ [])
        × ((folder : F) × (F.made folder ≡ synced false ∷ [])))) }
{
    let mut folder = files.open(&read_options(), folder_of(name))?;
    folder.sync()
}

/// Locks the file, makes it as long as wanted, and syncs it. Gives its length.
fn lock_and_grow<F: FileCalls>(file: &mut F, grow_to: Option<u64>) -> io::Result<u64>
    ensures grown { IfOk result (λ len. IfSome grow_to (λ wanted. wanted ≤ len)) }
    ensures made { IfOk result (λ len. IsTrue F.tells → (calls : List FileCall)
        × (F.made file.new ≡ F.made file.old ++ calls) × BecomesDisk grow_to calls len) }
    ensures failed { OnErr result (IsTrue F.tells → (calls : List FileCall)
        × (F.made file.new ≡ F.made file.old ++ calls) × StopsShort grow_to calls) }
    ensures length { IfOk result (λ len. IsTrue F.tells → length (F.bytes file.new) ≡ len) }
    ensures kept { OnOk result (IsTrue F.tells → IsTrue (F.kept file.new)) }
    ensures settled { OnOk result (IsTrue F.tells → Only (F.bytes file.new) (F.images file.new)) }
{
    file.lock()?;
    let len = grow(file, grow_to.unwrap_or(0))?;
    file.sync()?;
    Ok(len)
}

impl<F: FileCalls + Drop> FileDisk<F> {
    ghost use Rattle.std.specs.Prelude.{◌≡◌, ◌≤◌, ◌⊎◌, ◌++◌, ◌∷◌, [], true, false, IsTrue, IsSome, length};
    ghost use Rattle.std.specs.Prelude.{Some, None, IfOk, IfSome, OnOk, OnErr};
    ghost use Rattle.vt_disk.specs.Disk.{Only};
    ghost use Rattle.vt_host.specs.Calls.{synced};
    ghost use Rattle.vt_host.specs.Disks.{disk_file, disk_size, disk_faults};
    ghost use Rattle.vt_host.specs.Opening.{openings, BecomesDisk, StopsOpening};

    /// Opens what has this name, and takes its exclusive lock, which goes with the disk: a file
    /// that is open as a disk already, here or in another process, is Failed. With a length to grow
    /// to, a file that isn't there is made, and one that is shorter is filled up with zero bytes;
    /// none is made shorter. Then the file is synced, and with a length to grow to its entry in its
    /// folder too. Failed is the answer where one of these calls fails.
    pub fn open<O: Opener<File = F>>(
        files: &mut O,
        name: &str,
        grow_to: Option<u64>,
    ) -> Result<Self, Failed>
        ensures grown { IfOk result (λ disk. IfSome grow_to (λ wanted. wanted ≤ disk_size disk)) }
        ensures faults { IfOk result (λ disk. disk_faults disk ≡ 0) }
        ensures opened { OnOk result (IsTrue F.tells →
            O.opened files.new ≡ O.opened files.old ++ openings name.now grow_to) }
        ensures made { IfOk result (λ disk. IsTrue F.tells →
            BecomesDisk grow_to (F.made (disk_file disk)) (disk_size disk)) }
        ensures entry { OnOk result (IsTrue F.tells → IsSome grow_to →
            (folder : F) × (F.made folder ≡ synced true ∷ [])) }
        ensures failed { OnErr result (IsTrue F.tells → StopsOpening F.made name.now grow_to
            (O.opened files.old) (O.opened files.new)) }
        ensures sized { IfOk result (λ disk. IsTrue F.tells
            → length (F.bytes (disk_file disk)) ≡ disk_size disk) }
        ensures settled { IfOk result (λ disk. IsTrue F.tells
            → Only (F.bytes (disk_file disk)) (F.images (disk_file disk))) }
    {
        let Ok(mut file) = files.open(&options(grow_to.is_some()), name) else {
            return Err(Failed);
        };
        let Ok(len) = lock_and_grow(&mut file, grow_to) else {
            return Err(Failed);
        };
        if grow_to.is_some() && sync_folder(files, name).is_err() {
            return Err(Failed);
        }
        Ok(FileDisk {
            file,
            len,
            faults: Faults::new(),
        })
    }
}

impl<F: FileCalls> Disk for FileDisk<F> {
    ghost use Rattle.std.specs.Prelude.{◌≡◌, ◌+◌, ◌≤◌, ◌++◌, ◌∷◌, [], length, IsTrue, OnOk, is_ok};
    ghost use Rattle.vt_base.specs.Faults.{HasCause};
    ghost use Rattle.vt_disk.specs.Disk.{Only, part, with_bytes};
    ghost use Rattle.vt_host.specs.Calls.{read, written, synced};
    ghost use Rattle.vt_host.specs.Disks.{disk_file, disk_size, disk_faults};
    ghost use Rattle.vt_host.specs.Held.{StaysHeld, Overwrites};
    ghost use Rattle.vt_host.specs.ToldDisks.{told, images_told, call_count, read_is_told};

    ghost tells = { F.tells };

    ghost size = { λ disk. disk.len };

    ghost bytes = { λ disk. told F.tells (F.bytes disk.file) };

    ghost images = { λ disk. images_told F.tells disk.len (F.images disk.file) };

    ghost calls = { λ disk. call_count (F.made disk.file) };

    ghost faults = { λ disk. disk.faults.count };

    ghost size_fits = { λ disk. disk.len_fits };

    ghost faults_fit = { λ disk. disk.faults.fits };

    ghost read_is_image = { λ disk tells. read_is_told F.tells disk.len (F.bytes disk.file)
        (F.images disk.file) tells (disk.sized tells) (F.are_bytes disk.file tells)
        (F.read_is_image disk.file tells) };

    ghost images_fit = { λ _ _ image. (image.0, image.1) };

    /// How many bytes the file has, as it was measured when it was opened.
    fn len(&self) -> u64 {
        self.len
    }

    /// One read of the file.
    fn read_at(&mut self, start: u64, buf: &mut [u8]) -> Result<(), Failed>
        ensures made { IsTrue F.tells → F.made (disk_file self.new)
            ≡ F.made (disk_file self.old) ++ read start buf.new (is_ok result) ∷ [] }
        ensures size { disk_size self.new ≡ disk_size self.old }
        ensures cause { HasCause result (disk_faults self.old) (disk_faults self.new) }
        ensures read { OnOk result (IsTrue F.tells
            → buf.new ≡ part start (length buf.old) (F.bytes (disk_file self.old))) }
        ensures stays { IsTrue F.tells → StaysHeld (F.kept (disk_file self.new))
            (F.bytes (disk_file self.old)) (F.bytes (disk_file self.new))
            (F.images (disk_file self.old)) (F.images (disk_file self.new)) }
    {
        self.faults.counted(self.file.read_at(start, buf))
    }

    /// One write of the file.
    fn write_at(&mut self, start: u64, chunk: &[u8]) -> Result<(), Failed>
        requires { start + length chunk.now ≤ disk_size self.old }
        ensures made { IsTrue F.tells → F.made (disk_file self.new)
            ≡ F.made (disk_file self.old) ++ written start chunk.now (is_ok result) ∷ [] }
        ensures size { disk_size self.new ≡ disk_size self.old }
        ensures cause { HasCause result (disk_faults self.old) (disk_faults self.new) }
        ensures written { OnOk result (IsTrue F.tells → F.bytes (disk_file self.new)
            ≡ with_bytes start chunk.now (F.bytes (disk_file self.old))) }
        ensures others { IsTrue F.tells → Overwrites start (length chunk.now)
            (F.kept (disk_file self.new))
            (F.bytes (disk_file self.old)) (F.bytes (disk_file self.new))
            (F.images (disk_file self.old)) (F.images (disk_file self.new)) }
    {
        self.faults.counted(self.file.write_at(start, chunk))
    }

    /// One sync of the file.
    fn sync(&mut self) -> Result<(), Failed>
        ensures made { IsTrue F.tells → F.made (disk_file self.new)
            ≡ F.made (disk_file self.old) ++ synced (is_ok result) ∷ [] }
        ensures size { disk_size self.new ≡ disk_size self.old }
        ensures cause { HasCause result (disk_faults self.old) (disk_faults self.new) }
        ensures settled { OnOk result (IsTrue F.tells
            → Only (F.bytes (disk_file self.old)) (F.images (disk_file self.new))) }
        ensures stays { IsTrue F.tells → StaysHeld (F.kept (disk_file self.new))
            (F.bytes (disk_file self.old)) (F.bytes (disk_file self.new))
            (F.images (disk_file self.old)) (F.images (disk_file self.new)) }
    {
        self.faults.counted(self.file.sync())
    }
}
