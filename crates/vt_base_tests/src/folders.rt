//! A folder in memory: it is handed out once under its name, and its failed calls count.

use std::alloc::Global;
use std::test::Fail;
use vt_base::Text;
use vt_out::{Folder, Folders, MemFolder, MemFolders};
use vt_rows::Rows;

/// How many items a folder lists, which then is back.
fn listed<F: Folders>(alloc: Global, folders: &mut F, name: &Text) -> Option<usize> {
    let mut folder = folders.folder(alloc, name).ok()?;
    let listing = folder.list(alloc, &[]);
    folders.done(name, folder);
    Some(listing.ok()?.as_slice().len())
}

/// The same, by a name's bytes.
fn listed_as(alloc: Global, folders: &mut MemFolders, name: &[u8]) -> Option<usize> {
    match Text::copy_of(alloc, name) {
        Ok(name) => listed(alloc, folders, &name),
        Err(_) => None,
    }
}

/// How many calls of the folder that is back were made.
fn calls_of(folders: MemFolders) -> Option<u64> {
    match folders.into_folder() {
        Some(folder) => Some(folder.calls()),
        None => None,
    }
}

/// What a row tells, the name of a folder, and how many items that lists.
type Step = (&'static str, &'static [u8], Option<usize>);

/// Lists these folders, of which so many calls fail. The folder then is back, and was called once.
fn see(alloc: Global, folders: MemFolders, steps: &[Step], faults: u64) -> Rows {
    let mut folders = folders;
    let mut rows = Rows::new();
    for (row, (what, name, items)) in steps.iter().enumerate() {
        rows.nth(row, *what, listed_as(alloc, &mut folders, name) == *items);
    }
    rows.is("the faults", folders.faults() == faults);
    rows.is(
        "the calls of the folder that is back",
        calls_of(folders) == Some(1),
    );
    rows
}

/// Calls for a folder that is there as `home`.
const ONCE: [Step; 3] = [
    ("another name", b"homes", None),
    ("the first time", b"home", Some(0)),
    ("the second time", b"home", None),
];

#[test]
fn a_folder_is_handed_out_once(rt: HostRuntime) -> Result<(), Fail> {
    let name = Text::copy_of(rt.alloc(), b"home")?;
    let folder = MemFolder::new(rt.alloc(), Vec::new(rt.alloc()));
    see(rt.alloc(), MemFolders::new(name, folder), &ONCE, 2).passes()
}

/// A call for a folder whose first call fails.
const FAILING: [Step; 1] = [("a call that fails", b"home", None)];

#[test]
fn failed_calls_of_a_folder_count(rt: HostRuntime) -> Result<(), Fail> {
    let failing = Vec::from_slice(rt.alloc(), &[0])?;
    let name = Text::copy_of(rt.alloc(), b"home")?;
    let folder = MemFolder::new(rt.alloc(), Vec::new(rt.alloc())).failing(failing);
    see(rt.alloc(), MemFolders::new(name, folder), &FAILING, 1).passes()
}
