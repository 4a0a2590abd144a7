//! Folders of the system, on a real one.

use std::alloc::{AllocError, Global};
use std::os::unix::fs::symlink;
use std::test::Fail;
use std::{env, fs, process};
use vt_base::{Failed, Text};
use vt_host::{StdFolders, System};
use vt_out::{Folder, Folders, Item, ItemKind, OutErr};
use vt_rows::Rows;

/// How many items the folder at a path lists, and what the one of this name is.
fn list<F: Folder>(
    alloc: Global,
    folder: &mut F,
    path: &[Text],
    name: &[u8],
) -> Result<(usize, Option<ItemKind>), OutErr> {
    let listing = folder.list(alloc, path)?;
    let items = listing.as_slice();
    let named = items.iter().position(|item| item.name.as_slice() == name);
    Ok((items.len(), named.map(|place| items[place].kind)))
}

/// How many bytes a read at this place answers, and a buffer of four that had dots.
fn read<F: Folder>(folder: &mut F, path: &[Text], at: u64) -> (Result<usize, Failed>, [u8; 4]) {
    let mut buf = [b'.'; 4];
    (folder.read(path, at, &mut buf), buf)
}

/// The name of something in a folder.
fn inside(alloc: Global, folder: &str, name: &str) -> Result<String, AllocError> {
    Ok(format!(in alloc; "{folder}/{name}")?)
}

/// Makes a folder of this name, with a folder `d`, a file `d/f` of `abcde`, and a link to that.
fn make(rt: HostRuntime, folder: &str) -> Result<(), Fail> {
    let alloc = rt.alloc();
    let d = inside(alloc, folder, "d")?;
    let f = inside(alloc, folder, "d/f")?;
    let link = inside(alloc, folder, "link")?;
    fs::create_dir(&rt, folder)?;
    fs::create_dir(&rt, d.as_str())?;
    fs::write(&rt, f.as_str(), b"abcde")?;
    symlink(&rt, "d/f", link.as_str())?;
    Ok(())
}

/// How many names of the path `d`, `f` are gone, a name there, how many items are listed, and what
/// the one of that name is, if there is one; or else that the call fails.
type Listed = (
    usize,
    &'static [u8],
    Result<(usize, Option<ItemKind>), OutErr>,
);

const LISTED: [Listed; 4] = [
    (0, b"d", Ok((2, Some(ItemKind::Folder)))),
    (0, b"link", Ok((2, Some(ItemKind::Other)))),
    (1, b"f", Ok((1, Some(ItemKind::File)))),
    (2, b"f", Err(OutErr::Failed)),
];

fn see_listed<F: Folder>(rows: &mut Rows, alloc: Global, folder: &mut F, path: &[Text]) {
    for (row, (names, name, wanted)) in LISTED.into_iter().enumerate() {
        let found = list(alloc, folder, path.get(..names).unwrap_or(&[]), name);
        rows.nth(row, "what is listed", found == wanted);
    }
}

/// From where, how many bytes are read, and how they stand in the buffer.
const READ: [(u64, Result<usize, Failed>, [u8; 4]); 3] = [
    (0, Ok(4), *b"abcd"),
    (4, Ok(1), *b"e..."),
    (5, Ok(0), *b"...."),
];

fn see_read<F: Folder>(rows: &mut Rows, folder: &mut F, path: &[Text]) {
    for (row, (at, count, bytes)) in READ.into_iter().enumerate() {
        let (found, buf) = read(folder, path, at);
        rows.nth(row, "how many bytes are read", found == count);
        rows.nth(row, "the bytes that are read", buf == bytes);
    }
}

/// Names of a link, a folder, nothing, and no text.
const UNREAD: [&[u8]; 4] = [b"link", b"d", b"none", b"\xff"];

fn see_unread<F: Folder>(rows: &mut Rows, alloc: Global, folder: &mut F) -> Result<(), AllocError> {
    for (row, name) in UNREAD.into_iter().enumerate() {
        let path = [Text::copy_of(alloc, name)?];
        let (found, _) = read(folder, &path, 0);
        rows.nth(row, "what isn't read", found == Err(Failed));
    }
    Ok(())
}

/// What stands under this name is handed out, listed and read.
fn see_folder<G: Folders>(
    rows: &mut Rows,
    alloc: Global,
    folders: &mut G,
    name: &str,
) -> Result<(), AllocError> {
    let name = Text::copy_of(alloc, name.as_bytes())?;
    let path = [Text::copy_of(alloc, b"d")?, Text::copy_of(alloc, b"f")?];
    let Ok(mut folder) = folders.folder(alloc, &name) else {
        rows.is("a folder is handed out", false);
        return Ok(());
    };
    see_listed(rows, alloc, &mut folder, &path);
    see_read(rows, &mut folder, &path);
    let unread = see_unread(rows, alloc, &mut folder);
    folders.done(&name, folder);
    unread
}

/// Under this name stands no folder.
fn see_none<G: Folders>(
    rows: &mut Rows,
    alloc: Global,
    folders: &mut G,
    row: usize,
    name: &[u8],
) -> Result<(), AllocError> {
    let name = Text::copy_of(alloc, name)?;
    let found = folders.folder(alloc, &name);
    rows.nth(
        row,
        "what is no folder",
        matches!(found, Err(OutErr::Failed)),
    );
    Ok(())
}

/// The name of a folder for a test.
fn temp_name(rt: HostRuntime, what: &str) -> Result<String, Fail> {
    let temp = env::temp_dir(&rt)?;
    let id = process::id(rt.process());
    Ok(format!(in rt.alloc(); "{}/vt_host_{what}_{id}", temp.display())?)
}

#[test]
fn a_folder_of_the_system_is_listed_and_read(rt: HostRuntime) -> Result<(), Fail> {
    let alloc = rt.alloc();
    let name = temp_name(rt, "folder")?;
    let file = inside(alloc, name.as_str(), "d/f")?;
    let none = inside(alloc, name.as_str(), "e")?;
    make(rt, name.as_str())?;
    let mut rows = Rows::new();
    let mut folders = StdFolders::new(System(rt), System(rt));
    see_folder(&mut rows, alloc, &mut folders, name.as_str())?;
    see_none(&mut rows, alloc, &mut folders, 0, file.as_bytes())?;
    see_none(&mut rows, alloc, &mut folders, 1, none.as_bytes())?;
    see_none(&mut rows, alloc, &mut folders, 2, b"")?;
    see_none(&mut rows, alloc, &mut folders, 3, b"\xff")?;
    fs::remove_dir_all(&rt, name.as_str())?;
    rows.passes()
}

// ---- a folder of many files

/// What is named so by its number.
fn numbered(alloc: Global, folder: &str, n: u32) -> Result<String, AllocError> {
    Ok(format!(in alloc; "{folder}/a file that has a name of its own, number {n}")?)
}

/// Makes a folder of this name with so many files.
fn make_many(rt: HostRuntime, folder: &str, files: u32) -> Result<(), Fail> {
    fs::create_dir(&rt, folder)?;
    for n in 0..files {
        let file = numbered(rt.alloc(), folder, n)?;
        fs::write(&rt, file.as_str(), b"")?;
    }
    Ok(())
}

/// Whether among the items is a file of this name.
fn has_file(items: &[Item], name: &[u8]) -> bool {
    let found = items.iter().find(|item| item.name.as_slice() == name);
    match found {
        Some(item) => item.kind == ItemKind::File,
        None => false,
    }
}

/// The items are so many files of these names.
fn see_numbered(
    rows: &mut Rows,
    alloc: Global,
    items: &[Item],
    files: u32,
) -> Result<(), AllocError> {
    rows.is("how many items are listed", items.len() == files as usize);
    for n in 0..files {
        let name = numbered(alloc, "", n)?;
        let is_there = has_file(items, name.as_bytes().get(1..).unwrap_or(b""));
        rows.nth(n as usize, "a file that is listed", is_there);
    }
    Ok(())
}

/// What stands under this name is handed out, and lists so many files.
fn see_many<G: Folders>(
    rows: &mut Rows,
    alloc: Global,
    folders: &mut G,
    name: &str,
    files: u32,
) -> Result<(), AllocError> {
    let name = Text::copy_of(alloc, name.as_bytes())?;
    let Ok(mut folder) = folders.folder(alloc, &name) else {
        rows.is("a folder is handed out", false);
        return Ok(());
    };
    let listed = folder.list(alloc, &[]);
    folders.done(&name, folder);
    match listed {
        Ok(listing) => see_numbered(rows, alloc, listing.as_slice(), files),
        Err(_) => {
            rows.is("a folder is listed", false);
            Ok(())
        }
    }
}

#[test]
fn a_folder_of_many_files_is_listed_whole(rt: HostRuntime) -> Result<(), Fail> {
    let name = temp_name(rt, "many")?;
    make_many(rt, name.as_str(), 300)?;
    let mut rows = Rows::new();
    let mut folders = StdFolders::new(System(rt), System(rt));
    see_many(&mut rows, rt.alloc(), &mut folders, name.as_str(), 300)?;
    fs::remove_dir_all(&rt, name.as_str())?;
    rows.passes()
}
