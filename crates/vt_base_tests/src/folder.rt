//! A folder in memory: what it lists and reads, and which of its calls fail.

use std::alloc::{AllocError, Global};
use std::test::Fail;
use vt_base::{Failed, Text};
use vt_out::{Facts, Folder, Item, ItemKind, MemContent, MemFolder, MemItem, MemPath, OutErr};
use vt_rows::Rows;

/// The facts of an item of this name and mode: what else they say is the same of each.
fn facts(alloc: Global, name: &[u8], mode: u32) -> Result<Facts, AllocError> {
    let name = Text::copy_of(alloc, name)?;
    let uid = Text::copy_of(alloc, b"u")?;
    let gid = Text::copy_of(alloc, b"g")?;
    Ok(Facts {
        name,
        mode,
        mtime: 7,
        uid,
        gid,
    })
}

/// A file of this name, mode and content.
fn file(alloc: Global, name: &[u8], mode: u32, bytes: &[u8]) -> Result<MemItem, AllocError> {
    let bytes = Vec::from_slice(alloc, bytes)?;
    let facts = facts(alloc, name, mode)?;
    Ok(MemItem::File(facts, MemContent::from_vec(bytes)))
}

/// These items, and one more.
fn with(items: Vec<MemItem>, item: MemItem) -> Result<Vec<MemItem>, AllocError> {
    let mut items = items;
    items.push(item)?;
    Ok(items)
}

/// The folder `d` with the file `f` of `abcde`.
fn inner(alloc: Global) -> Result<MemItem, AllocError> {
    let inside = with(Vec::new(alloc), file(alloc, b"f", 0o644, b"abcde")?)?;
    let facts = facts(alloc, b"d", 0o755)?;
    Ok(MemItem::Folder(facts, inside))
}

/// The folder `d` with the file `f` of `abcde`, and the link `f`.
fn front(alloc: Global) -> Result<Vec<MemItem>, AllocError> {
    let items = with(Vec::new(alloc), inner(alloc)?)?;
    let link = facts(alloc, b"f", 0o777)?;
    with(items, MemItem::Other(link))
}

/// These, and the file `d` of no bytes.
fn sample(alloc: Global) -> Result<MemFolder, AllocError> {
    let items = front(alloc)?;
    let empty = file(alloc, b"d", 0o600, b"")?;
    Ok(MemFolder::new(alloc, with(items, empty)?))
}

/// An item's name, its kind and its mode.
type Row = (&'static [u8], ItemKind, u32);

/// What is done to a folder, and what it has to answer.
enum Act {
    /// The items of a folder are listed.
    List(Result<&'static [Row], OutErr>),
    /// A file is read from this place on, into four bytes that are zeros.
    Read(u64, Result<usize, Failed>, [u8; 4]),
}

/// What a row tells, the path of what it is done to, and what is done.
type Step = (&'static str, &'static [&'static [u8]], Act);

/// Whether this is the item.
fn is(item: &Item, row: &Row) -> bool {
    (item.name.as_slice() == row.0) & (item.kind == row.1) & (item.mode == row.2)
}

/// Whether these are the items.
fn are(items: &[Item], rows: &[Row]) -> bool {
    items.len() == rows.len() && items.iter().zip(rows).all(|(item, row)| is(item, row))
}

/// Whether a folder lists this.
fn lists<F: Folder>(
    alloc: Global,
    folder: &mut F,
    path: &[Text],
    rows: Result<&[Row], OutErr>,
) -> bool {
    match (folder.list(alloc, path), rows) {
        (Ok(listing), Ok(rows)) => are(listing.as_slice(), rows),
        (Err(found), Err(why)) => found == why,
        _ => false,
    }
}

/// How many bytes a folder reads, and a buffer of four that had zeros.
fn read<F: Folder>(folder: &mut F, path: &[Text], at: u64) -> (Result<usize, Failed>, [u8; 4]) {
    let mut buf = [0; 4];
    (folder.read(path, at, &mut buf), buf)
}

/// The path of these names.
fn path(alloc: Global, names: &[&[u8]]) -> Result<Vec<Text>, AllocError> {
    let mut path = Vec::new(alloc);
    for name in names {
        path.push(Text::copy_of(alloc, name)?)?;
    }
    Ok(path)
}

/// Whether a folder answers this, at a path.
fn answers(alloc: Global, folder: &mut MemFolder, path: &[Text], act: &Act) -> bool {
    match act {
        Act::List(rows) => lists(alloc, folder, path, *rows),
        Act::Read(at, moved, buf) => read(folder, path, *at) == (*moved, *buf),
    }
}

/// The same, at the path of these names.
fn answers_at(alloc: Global, folder: &mut MemFolder, names: &[&[u8]], act: &Act) -> bool {
    match path(alloc, names) {
        Ok(path) => answers(alloc, folder, &path, act),
        Err(_) => false,
    }
}

/// Does all these to the sample, of which so many calls are made then, and so many have failed.
fn see(alloc: Global, folder: MemFolder, steps: &[Step], calls: u64, faults: u64) -> Rows {
    let mut folder = folder;
    let mut rows = Rows::new();
    for (row, (what, names, act)) in steps.iter().enumerate() {
        rows.nth(row, *what, answers_at(alloc, &mut folder, names, act));
    }
    rows.is("the calls", folder.calls() == calls);
    rows.is("the faults", folder.faults() == faults);
    rows.is("how many items there are", folder.items().len() == 3);
    rows
}

/// What stands in the sample.
const TOP: &[Row] = &[
    (b"d", ItemKind::Folder, 0o755),
    (b"f", ItemKind::Other, 0o777),
    (b"d", ItemKind::File, 0o600),
];

/// What stands in its folder.
const INSIDE: &[Row] = &[(b"f", ItemKind::File, 0o644)];

/// Calls of a folder that reads three bytes a call at most.
const READING: [Step; 9] = [
    ("the items on top", &[], Act::List(Ok(TOP))),
    ("the items inside", &[b"d"], Act::List(Ok(INSIDE))),
    (
        "a file is not listed",
        &[b"d", b"f"],
        Act::List(Err(OutErr::Failed)),
    ),
    (
        "a file from its front on",
        &[b"d", b"f"],
        Act::Read(0, Ok(3), *b"abc\0"),
    ),
    (
        "a file from its middle on",
        &[b"d", b"f"],
        Act::Read(3, Ok(2), *b"de\0\0"),
    ),
    (
        "a file from its end on",
        &[b"d", b"f"],
        Act::Read(5, Ok(0), [0; 4]),
    ),
    (
        "a file far behind its end",
        &[b"d", b"f"],
        Act::Read(1 << 63, Ok(0), [0; 4]),
    ),
    ("a file of no bytes", &[b"d"], Act::Read(0, Ok(0), [0; 4])),
    (
        "a folder is not read",
        &[],
        Act::Read(0, Err(Failed), [0; 4]),
    ),
];

#[test]
fn a_folder_is_listed_and_read(rt: HostRuntime) -> Result<(), Fail> {
    let folder = sample(rt.alloc())?.in_pieces(3);
    see(rt.alloc(), folder, &READING, 9, 2).passes()
}

/// Calls of a folder of which the second and the fourth call fail.
const FAILING: [Step; 5] = [
    ("the first call lists", &[], Act::List(Ok(TOP))),
    ("the second call fails", &[], Act::List(Err(OutErr::Failed))),
    (
        "the third call reads",
        &[b"d", b"f"],
        Act::Read(1, Ok(4), *b"bcde"),
    ),
    (
        "the fourth call fails",
        &[b"d", b"f"],
        Act::Read(1, Err(Failed), [0; 4]),
    ),
    (
        "the fifth call reads",
        &[b"d", b"f"],
        Act::Read(4, Ok(1), *b"e\0\0\0"),
    ),
];

#[test]
fn calls_fail_on_demand(rt: HostRuntime) -> Result<(), Fail> {
    let failing = Vec::from_slice(rt.alloc(), &[1, 3])?;
    let folder = sample(rt.alloc())?.failing(failing);
    see(rt.alloc(), folder, &FAILING, 5, 2).passes()
}

/// The one path of these names.
fn only(alloc: Global, names: &[&[u8]]) -> Result<Vec<MemPath>, AllocError> {
    let mut paths = Vec::new(alloc);
    paths.push(MemPath::from_vec(path(alloc, names)?))?;
    Ok(paths)
}

/// Calls of a folder of which each at `d/f` fails.
const FAILING_AT: [Step; 5] = [
    ("the top is listed", &[], Act::List(Ok(TOP))),
    (
        "the folder of that file is listed",
        &[b"d"],
        Act::List(Ok(INSIDE)),
    ),
    (
        "a read of the file fails",
        &[b"d", b"f"],
        Act::Read(0, Err(Failed), [0; 4]),
    ),
    (
        "the next one fails too",
        &[b"d", b"f"],
        Act::Read(1, Err(Failed), [0; 4]),
    ),
    ("another file is read", &[b"d"], Act::Read(0, Ok(0), [0; 4])),
];

#[test]
fn calls_fail_at_a_path(rt: HostRuntime) -> Result<(), Fail> {
    let paths = only(rt.alloc(), &[b"d", b"f"])?;
    let folder = sample(rt.alloc())?.failing_at(paths);
    see(rt.alloc(), folder, &FAILING_AT, 5, 2).passes()
}
