//! What is listed of a file: its time, and the names that lines give to its owner and its group.

use crate::disk::opener;
use crate::fakes::{FakeFolder, Notes, StillFolder};
use std::alloc::Global;
use std::process::Abort;
use std::test::Fail;
use vt_base::Text;
use vt_host::StdFolders;
use vt_out::{Folder, Folders, Item};
use vt_rows::Rows;

/// The one item of a folder, if it is listed.
fn item_in<G: Folders>(alloc: Global, folders: &mut G) -> Option<Item> {
    let name = Text::copy_of(alloc, b"home").ok()?;
    let mut folder = folders.folder(alloc, &name).ok()?;
    let listing = folder.list(alloc, &[]).ok();
    folders.done(&name, folder);
    listing?.into_vec().pop()
}

/// What is listed of a file of this owner, group and time, where lines name users and groups. The
/// file of this number can't be opened.
fn listed<R: Abort + Copy + Drop>(
    rt: R,
    alloc: Global,
    failing: usize,
    id: u32,
    mtime: i64,
) -> Option<Item> {
    let files = opener(rt, alloc, failing, 9);
    let mut folders = StdFolders::new(FakeFolder { id, mtime }, files);
    item_in(alloc, &mut folders)
}

/// Which file can't be opened, a number, and the names that the lines of users and of groups give it;
/// 9 is none.
const NAMES: [(usize, u32, &[u8], &[u8]); 8] = [
    (9, 0, b"root", b"wheel"),
    (9, 1, b"1", b"1"),
    (9, 7, b"a", b"staff"),
    (9, 8, b"", b"8"),
    (9, 9, b"last", b"9"),
    (9, u32::MAX, b"4294967295", b"4294967295"),
    (0, 0, b"0", b"wheel"),
    (1, 0, b"root", b"0"),
];

/// Notes at this row whether a file is listed with these names for its owner and its group.
fn see_names(rows: &mut Rows, row: usize, item: Option<Item>, user: &[u8], group: &[u8]) {
    match item {
        Some(item) => {
            rows.nth(row, "the owner's name", item.uid.as_slice() == user);
            rows.nth(row, "the group's name", item.gid.as_slice() == group);
        }
        None => rows.nth(row, "a file is listed", false),
    }
}

#[test]
fn lines_name_numbers(rt: HostRuntime) -> Result<(), Fail> {
    let mut rows = Rows::new();
    for (row, (failing, id, user, group)) in NAMES.into_iter().enumerate() {
        let item = listed(rt, rt.alloc(), failing, id, 0);
        see_names(&mut rows, row, item, user, group);
    }
    rows.passes()
}

/// A file of this time has this one in 32 bits.
const TIMES: [(i64, u32); 7] = [
    (i64::MIN, 0),
    (-1, 0),
    (0, 0),
    (1_700_000_000, 1_700_000_000),
    (4_294_967_295, u32::MAX),
    (4_294_967_296, u32::MAX),
    (i64::MAX, u32::MAX),
];

#[test]
fn a_time_has_32_bits(rt: HostRuntime) -> Result<(), Fail> {
    let mut rows = Rows::new();
    for (row, (time, wanted)) in TIMES.into_iter().enumerate() {
        let found = listed(rt, rt.alloc(), 9, 0, time);
        rows.nth(
            row,
            "the time",
            found.is_some_and(|item| item.mtime == wanted),
        );
    }
    rows.passes()
}

/// A file, from where on it is read, how many bytes come, and how they stand in the buffer.
const READS: [(&[u8], u64, usize, [u8; 4]); 4] = [
    (b"f", 1, 2, *b"bc.."),
    (b"g", 0, 4, *b"wxyz"),
    (b"g", 1, 3, *b"xyz."),
    (b"f", 0, 3, *b"abc."),
];

/// Each of two files is read.
fn see_reads<F: Folder>(rows: &mut Rows, alloc: Global, folder: &mut F) -> Option<()> {
    for (row, (name, at, n, bytes)) in READS.into_iter().enumerate() {
        let path = [Text::copy_of(alloc, name).ok()?];
        let mut buf = [b'.'; 4];
        let found = folder.read(&path, at, &mut buf);
        rows.nth(row, "how many bytes are read", found == Ok(n));
        rows.nth(row, "the bytes that are read", buf == bytes);
    }
    Some(())
}

/// The last file of a folder that stays as it is, and the bytes of each.
fn see_still<G: Folders>(rows: &mut Rows, alloc: Global, folders: &mut G) -> Option<()> {
    let home = Text::copy_of(alloc, b"home").ok()?;
    let mut folder = folders.folder(alloc, &home).ok()?;
    let mut items = folder.list(alloc, &[]).ok()?.into_vec();
    rows.is("how many items are listed", items.len() == 2);
    let item = items.pop()?;
    rows.is("the file's name", item.name.as_slice() == b"g".as_slice());
    let user = item.uid.as_slice();
    rows.is("the file's owner", user == b"root".as_slice());
    see_reads(rows, alloc, &mut folder)?;
    folders.done(&home, folder);
    Some(())
}

#[test]
fn a_folder_that_stays_is_read(rt: HostRuntime) -> Result<(), Fail> {
    let alloc = rt.alloc();
    let mut rows = Rows::new();
    let folder = StillFolder {
        notes: Notes::new(rt, alloc, usize::MAX),
    };
    let mut folders = StdFolders::new(folder, opener(rt, alloc, 9, 9));
    let seen = see_still(&mut rows, alloc, &mut folders);
    rows.is("each call succeeds", seen.is_some());
    rows.passes()
}
