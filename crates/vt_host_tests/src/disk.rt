//! Files as disks.

use crate::fakes::{FakeOpener, Notes};
use std::alloc::Global;
use std::process::Abort;
use std::test::Fail;
use std::{env, fs, process};
use vt_base::Failed;
use vt_disk::Disk;
use vt_host::{FileDisk, System};
use vt_rows::Rows;

/// A disk of 10,000 bytes is written and read.
fn see_disk<D: Disk>(rows: &mut Rows, disk: &mut D) {
    if disk.len() != 10_000 {
        rows.is("the length of a file that is longer", false);
        return;
    }
    rows.is("a write at the end", disk.write_at(9_998, b"yz") == Ok(()));
    rows.is("a write", disk.write_at(5_000, b"abc") == Ok(()));
    rows.is("a sync", disk.sync() == Ok(()));
    let mut buf = [b'.'; 3];
    rows.is("a read", disk.read_at(5_000, &mut buf) == Ok(()));
    rows.is("what was written", buf == *b"abc");
    rows.is("a read at the end", disk.read_at(9_997, &mut buf) == Ok(()));
    rows.is("what was written at the end", buf == *b"\0yz");
}

/// Its file was made shorter, and has 5,001 bytes.
fn see_short<D: Disk>(rows: &mut Rows, disk: &mut D) {
    if disk.len() != 10_000 {
        rows.is("the length of a file that was made shorter", false);
        return;
    }
    let mut buf = [b'.'; 3];
    rows.is(
        "a read over the end",
        disk.read_at(5_000, &mut buf) == Err(Failed),
    );
    rows.is(
        "a read behind it",
        disk.read_at(9_997, &mut buf) == Err(Failed),
    );
    let mut buf = [b'.'; 2];
    rows.is("a read before it", disk.read_at(4_999, &mut buf) == Ok(()));
    rows.is("what is before it", buf == *b"\0a");
}

#[test]
fn a_file_is_a_disk(rt: HostRuntime) -> Result<(), Fail> {
    let folder = env::temp_dir(&rt)?;
    let name = format!(in rt.alloc();
        "{}/vt_host_{}",
        folder.display(),
        process::id(rt.process())
    )?;
    let mut files = System(rt);
    let mut rows = Rows::new();
    let none = FileDisk::open(&mut files, name.as_str(), None);
    rows.is("a file that isn't there", none.is_err());
    drop(FileDisk::open(&mut files, name.as_str(), Some(10_000))?);
    let mut disk = FileDisk::open(&mut files, name.as_str(), Some(500))?;
    let again = FileDisk::open(&mut files, name.as_str(), None);
    rows.is("a file that is open", again.is_err());
    let file = fs::OpenOptions::new().write(true).open(&rt, name.as_str())?;
    fs::remove_file(&rt, name.as_str())?;
    see_disk(&mut rows, &mut disk);
    // The file is made shorter behind the disk's back.
    file.set_len(5_001)?;
    see_short(&mut rows, &mut disk);
    rows.passes()
}

/// Opens files by name. The opening of the first number fails, and of each file the call of the
/// second.
pub fn opener<R: Abort + Copy + Drop>(
    rt: R,
    alloc: Global,
    opening: usize,
    call: usize,
) -> FakeOpener<R> {
    FakeOpener {
        notes: Notes::new(rt, alloc, opening),
        file_failing: call,
    }
}

/// A disk of 10 bytes, of which the first sync fails.
fn see_sync<D: Disk>(rows: &mut Rows, disk: &mut D) {
    if disk.len() != 10 {
        rows.is("the length", false);
        return;
    }
    let mut buf = [0; 2];
    rows.is("a write", disk.write_at(3, b"ab") == Ok(()));
    rows.is("a sync that fails", disk.sync() == Err(Failed));
    rows.is("a read", disk.read_at(3, &mut buf) == Ok(()));
    rows.is("the next sync", disk.sync() == Ok(()));
    rows.is("what is read", buf == *b"ab");
}

#[test]
fn an_error_of_a_file_is_handed_on(rt: HostRuntime) -> Result<(), Fail> {
    let mut files = opener(rt, rt.alloc(), 9, 5);
    let mut disk = FileDisk::open(&mut files, "a/disk", Some(10))?;
    let mut rows = Rows::new();
    see_sync(&mut rows, &mut disk);
    rows.is("how many files are opened", files.notes.calls.len() == 2);
    rows.passes()
}

/// Whether a file is opened as a disk of 9 bytes, where this opening, and of each file this call,
/// fails.
fn opens<R: Abort + Copy + Drop>(rt: R, alloc: Global, opening: usize, call: usize) -> bool {
    FileDisk::open(&mut opener(rt, alloc, opening, call), "disk", Some(9)).is_ok()
}

/// The opening that fails, the call that fails of each file, and whether a disk is there; 9 is none.
/// Each call before a disk is there: the opening, the folder's, and then the lock, the length, the
/// change of the length and the sync.
const OPENINGS: [(usize, usize, bool); 7] = [
    (9, 9, true),
    (0, 9, false),
    (1, 9, false),
    (9, 0, false),
    (9, 1, false),
    (9, 2, false),
    (9, 3, false),
];

#[test]
fn an_error_of_opening_is_handed_on(rt: HostRuntime) -> Result<(), Fail> {
    let mut rows = Rows::new();
    for (row, (opening, call, wanted)) in OPENINGS.into_iter().enumerate() {
        let found = opens(rt, rt.alloc(), opening, call);
        rows.nth(row, "a disk is opened", found == wanted);
    }
    rows.passes()
}
