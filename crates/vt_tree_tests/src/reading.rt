//! Archives that are written by hand: what of them is read, and what of a broken one is told.

ghost use Rattle.std.specs.Prelude.{◌≡◌, ◌<◌, ◌≤◌, length, IfOk, IfSome};
ghost use Rattle.vt_tree.specs.Entries.{IsTreeEntry};
ghost use Rattle.vac_read.specs.Nodes.{AreNodeEntries, IsDirectory};
ghost use Rattle.vac_read.specs.declared.node.Stored.{Stored};

use crate::blocks::{put, stream};
use std::alloc::{AllocError, Global};
use std::test::Fail;
use vac_meta::RecordKind;
use vac_read::{Archive, Node, RootField, Stored, VacBad, list, read, walk};
use vt_base::{Kind, Score, Sha1Scorer, Text};
use vt_out::{Item, ItemKind};
use vt_rows::Rows;
use vt_tree::{BlockErr, Blocks, Entry, MemBlocks, Root, TreeErr};

/// A root's bytes, with one of them changed.
fn root(top: Score, at: usize, byte: u8) -> [u8; 300] {
    let mut root = Root {
        name: [0; 128],
        kind: [0; 128],
        score: top,
        block_size: 8192,
        prev: Score([0; 20]),
    };
    root.kind[..4].copy_from_slice(b"rvac");
    let mut bytes = root.encode();
    if let Some(there) = bytes.get_mut(at) {
        *there = byte;
    }
    bytes
}

/// A block that begins with two entries, and ten bytes behind them.
fn top_block(first: &[u8; 40], second: &[u8; 40]) -> [u8; 90] {
    let mut top = [0; 90];
    top[..40].copy_from_slice(first);
    top[40..80].copy_from_slice(second);
    top
}

/// What was answered: an archive, or how many items, a field of a root that is no archive's, the place
/// of a flaw, an entry that can't stand, a block that isn't there, or a stream that is too long.
#[derive(Clone, Copy, PartialEq, Eq)]
enum Told {
    Opened,
    Items(usize),
    Root(RootField),
    Flaw(usize),
    BadEntry,
    Absent,
    TooLong,
    /// Any other refusal: no row wants it.
    Other,
}

/// What is told of an archive whose root has this score.
fn opened_as<B: Blocks>(alloc: Global, blocks: &mut B, score: &Score) -> Told {
    match Archive::at(alloc, blocks, score) {
        Ok(_) => Told::Opened,
        Err(bad) => broken(&bad),
    }
}

/// What is told where a folder is listed.
fn listed_as<B: Blocks>(alloc: Global, blocks: &mut B, folder: &Node) -> Told
    requires { AreNodeEntries folder.now.stored }
{
    match list(alloc, blocks, folder) {
        Ok(nodes) => Told::Items(nodes.as_slice().len()),
        Err(bad) => broken(&bad),
    }
}

/// What this refusal is told as.
fn broken(bad: &VacBad) -> Told {
    match bad {
        VacBad::Root { field } => Told::Root(*field),
        VacBad::Meta { at } => Told::Flaw(*at),
        VacBad::Tree(TreeErr::BadEntry(_)) => Told::BadEntry,
        VacBad::Tree(TreeErr::Block(BlockErr::Refused(_))) => Told::Absent,
        VacBad::Tree(TreeErr::TooLong) => Told::TooLong,
        _ => Told::Other,
    }
}

/// What is told of an archive whose root has these bytes.
fn root_told<B: Blocks>(alloc: Global, blocks: &mut B, bytes: &[u8]) -> Told
    requires { length bytes.now ≤ 57344 }
{
    match blocks.put(alloc, Kind::ROOT, bytes) {
        Ok(score) => opened_as(alloc, blocks, &score),
        Err(_) => Told::Other,
    }
}

/// The bytes of the entries of a folder with no items.
fn empty_folder<B: Blocks>(alloc: Global, blocks: &mut B) -> Result<([u8; 40], [u8; 40]), Fail> {
    let entries = stream(alloc, blocks, b"", true)?;
    let metadata = stream(alloc, blocks, b"", false)?;
    Ok((entries.encode(), metadata.encode()))
}

/// How many bytes of a root there are, one that is changed, and what is told.
const ROOTS: &[(usize, usize, u8, Told)] = &[
    (300, 300, 0, Told::Opened),
    (300, 279, 1, Told::Opened),
    (299, 1, 3, Told::Root(RootField::Length)),
    (300, 1, 3, Told::Root(RootField::Version)),
    (300, 130, b'v', Told::Root(RootField::Type)),
    (300, 257, 1, Told::Root(RootField::Type)),
    (300, 278, 1, Told::Root(RootField::BlockSize)),
    (300, 278, 0xd1, Told::Root(RootField::BlockSize)),
];

/// Each field of a root that names this block is tested.
fn see_roots<B: Blocks>(alloc: Global, blocks: &mut B, top: Score, rows: &mut Rows) {
    for (n, (len, at, byte, wanted)) in ROOTS.iter().enumerate() {
        let bytes = root(top, *at, *byte);
        let told = root_told(alloc, blocks, &bytes[..(*len).min(300)]);
        rows.nth(n, "what is told of the root", told == *wanted);
    }
}

#[test]
fn roots_are_tested_field_by_field(rt: HostRuntime) -> Result<(), Fail> {
    let alloc = rt.alloc();
    let mut blocks = MemBlocks::new(alloc, Sha1Scorer);
    let (entries, metadata) = empty_folder(alloc, &mut blocks)?;
    let top = top_block(&entries, &metadata);
    let top = put(alloc, &mut blocks, Kind::DIRECTORY, &top)?;
    let mut rows = Rows::new();
    see_roots(alloc, &mut blocks, top, &mut rows);
    rows.passes()
}

/// What is told of an archive whose root names so many bytes of these two entries.
fn top_told<B: Blocks>(
    alloc: Global,
    blocks: &mut B,
    first: &[u8; 40],
    second: &[u8; 40],
    len: usize,
) -> Told {
    let top = top_block(first, second);
    match blocks.put(alloc, Kind::DIRECTORY, &top[..len.min(90)]) {
        Ok(top) => root_told(alloc, blocks, &root(top, 300, 0)),
        Err(_) => Told::Other,
    }
}

/// The entries of the top folder are those of its items and of its metadata, whole and in this order.
fn see_top<B: Blocks>(
    alloc: Global,
    blocks: &mut B,
    entries: &[u8; 40],
    metadata: &[u8; 40],
    rows: &mut Rows,
) {
    rows.is(
        "two entries",
        top_told(alloc, blocks, entries, metadata, 80) == Told::Opened,
    );
    rows.is(
        "a byte less than two entries",
        top_told(alloc, blocks, entries, metadata, 79) == Told::Flaw(0),
    );
    rows.is(
        "a byte less than one entry",
        top_told(alloc, blocks, entries, metadata, 39) == Told::Flaw(0),
    );
    rows.is(
        "no entry of items",
        top_told(alloc, blocks, metadata, metadata, 80) == Told::Flaw(0),
    );
    rows.is(
        "no entry of metadata",
        top_told(alloc, blocks, entries, entries, 80) == Told::Flaw(0),
    );
    rows.is(
        "what is no entry",
        top_told(alloc, blocks, &[0x40; 40], metadata, 80) == Told::BadEntry,
    );
    let absent = root(Score([7; 20]), 300, 0);
    rows.is(
        "a block that isn't there",
        root_told(alloc, blocks, &absent) == Told::Absent,
    );
}

#[test]
fn top_entries_are_tested(rt: HostRuntime) -> Result<(), Fail> {
    let alloc = rt.alloc();
    let mut blocks = MemBlocks::new(alloc, Sha1Scorer);
    let (entries, metadata) = empty_folder(alloc, &mut blocks)?;
    let mut rows = Rows::new();
    see_top(alloc, &mut blocks, &entries, &metadata, &mut rows);
    rows.passes()
}

/// The bytes of entries, one behind another.
fn joined(alloc: Global, entries: &[[u8; 40]]) -> Result<Vec<u8>, AllocError> {
    let mut bytes = Vec::new(alloc);
    for entry in entries {
        bytes.extend_from_slice(entry)?;
    }
    Ok(bytes)
}

/// The bytes of the record of an item of this name, whose other numbers are zeros, and whose owners have
/// no names.
fn record(name: u8, kind: RecordKind, entry: u32) -> [u8; 28] {
    let mut bytes = [0; 28];
    bytes[1] = 1;
    bytes[2] = name;
    bytes[3] = u8::from(kind == RecordKind::Folder);
    bytes[4..8].copy_from_slice(&entry.to_be_bytes());
    bytes
}

/// The bytes of two records.
fn two_records(first: &[u8; 28], second: &[u8; 28]) -> [u8; 56] {
    let mut bytes = [0; 56];
    bytes[..28].copy_from_slice(first);
    bytes[28..].copy_from_slice(second);
    bytes
}

/// A folder of these two streams.
fn node(alloc: Global, entries: Entry, metadata: Entry) -> Result<Node, AllocError>
    requires { AreNodeEntries (Stored.Folder entries metadata) }
    ensures { IfOk result (λ node. AreNodeEntries node.stored) }
{
    Ok(Node {
        item: Item {
            name: Text::copy_of(alloc, b"d")?,
            kind: ItemKind::Folder,
            mode: 0,
            mtime: 0,
            uid: Text::copy_of(alloc, b"")?,
            gid: Text::copy_of(alloc, b"")?,
        },
        qid: 0,
        size: 0,
        stored: Stored::Folder { entries, metadata },
    })
}

/// A stream of entries: two files, a folder's two, one that is no entry, and fourteen files.
fn nineteen_entries<B: Blocks>(alloc: Global, blocks: &mut B) -> Result<Entry, Fail>
    ensures { IfOk result IsDirectory }
{
    let file = stream(alloc, blocks, b"abc", false)?.encode();
    let directory = stream(alloc, blocks, b"", true)?.encode();
    let mut all = [file; 19];
    all[2] = directory;
    all[4] = [0x40; 40];
    let bytes = joined(alloc, &all)?;
    stream(alloc, blocks, &bytes, true)
}

/// A folder of these entries with the file `a` of the first of them, and an item `b` of this kind
/// and entry.
fn pair<B: Blocks>(
    alloc: Global,
    blocks: &mut B,
    entries: Entry,
    kind: RecordKind,
    entry: u32,
) -> Result<Node, Fail>
    requires { IsDirectory entries }
    ensures { IfOk result (λ node. AreNodeEntries node.stored) }
{
    let first = record(b'a', RecordKind::File, 0);
    let records = two_records(&first, &record(b'b', kind, entry));
    let metadata = stream(alloc, blocks, &records, false)?;
    Ok(node(alloc, entries, metadata)?)
}

/// What is told where such a folder is listed, and whether its first item, of three bytes, is found.
fn pair_told<B: Blocks>(
    alloc: Global,
    blocks: &mut B,
    entries: Entry,
    kind: RecordKind,
    entry: u32,
) -> Result<(Told, bool), Fail>
    requires { IsDirectory entries }
{
    let folder = pair(alloc, blocks, entries, kind, entry)?;
    let told = listed_as(alloc, blocks, &folder);
    Ok((told, size_at(alloc, blocks, &folder, &[b"a"]) == Some(3)))
}

/// The second record's kind and entry, and what is told of the folder.
const PAIRS: &[(RecordKind, u32, Told)] = &[
    (RecordKind::File, 1, Told::Items(2)),
    (RecordKind::File, 18, Told::Items(2)),
    (RecordKind::Folder, 2, Told::Items(2)),
    (RecordKind::File, 19, Told::Flaw(32)),
    (RecordKind::File, u32::MAX, Told::Flaw(32)),
    (RecordKind::File, 2, Told::Flaw(32)),
    (RecordKind::Folder, 3, Told::Flaw(32)),
    (RecordKind::File, 4, Told::BadEntry),
];

/// The second record's flaw is told, and the first item is there in any case.
fn see_pairs<B: Blocks>(
    alloc: Global,
    blocks: &mut B,
    entries: Entry,
    rows: &mut Rows,
) -> Result<(), Fail>
    requires { IsDirectory entries }
{
    for (n, (kind, entry, wanted)) in PAIRS.iter().enumerate() {
        let (told, has_first) = pair_told(alloc, blocks, entries, *kind, *entry)?;
        rows.nth(n, "what is told of the folder", told == *wanted);
        rows.nth(n, "the first item", has_first);
    }
    Ok(())
}

#[test]
fn broken_records_are_placed(rt: HostRuntime) -> Result<(), Fail> {
    let alloc = rt.alloc();
    let mut blocks = MemBlocks::new(alloc, Sha1Scorer);
    let entries = nineteen_entries(alloc, &mut blocks)?;
    let mut rows = Rows::new();
    see_pairs(alloc, &mut blocks, entries, &mut rows)?;
    rows.passes()
}

/// These names as texts.
fn texts(alloc: Global, names: &[&[u8]]) -> Result<Vec<Text>, AllocError> {
    let mut texts = Vec::new(alloc);
    for name in names {
        texts.push(Text::copy_of(alloc, name)?)?;
    }
    Ok(texts)
}

/// The node that these names lead to.
fn found<B: Blocks>(alloc: Global, blocks: &mut B, top: &Node, names: &[&[u8]]) -> Option<Node>
    requires { AreNodeEntries top.now.stored }
    ensures { IfSome result (λ node. AreNodeEntries node.stored) }
{
    let Ok(names) = texts(alloc, names) else {
        return None;
    };
    match walk(alloc, blocks, top, &names) {
        Ok(found) => found,
        Err(_) => None,
    }
}

/// How many bytes the item has that these names lead to, if they do.
fn size_at<B: Blocks>(alloc: Global, blocks: &mut B, top: &Node, names: &[&[u8]]) -> Option<u64>
    requires { AreNodeEntries top.now.stored }
{
    match found(alloc, blocks, top, names) {
        Some(node) => Some(node.size),
        None => None,
    }
}

/// The entries of the folder `d`, which has the file `x` of `abc`: those of its items, and its
/// metadata.
fn inside<B: Blocks>(alloc: Global, blocks: &mut B) -> Result<([u8; 40], [u8; 40]), Fail> {
    let file = stream(alloc, blocks, b"abc", false)?.encode();
    let entries = stream(alloc, blocks, &file, true)?.encode();
    let records = record(b'x', RecordKind::File, 0);
    let metadata = stream(alloc, blocks, &records, false)?.encode();
    Ok((entries, metadata))
}

/// The score of an archive with the file `a`, which is empty, and the folder `d`.
fn sample<B: Blocks>(alloc: Global, blocks: &mut B) -> Result<Score, Fail> {
    let empty = stream(alloc, blocks, b"", false)?.encode();
    let (inside, below) = inside(alloc, blocks)?;
    let bytes = joined(alloc, &[empty, inside, below])?;
    let entries = stream(alloc, blocks, &bytes, true)?.encode();
    let first = record(b'a', RecordKind::File, 0);
    let records = two_records(&first, &record(b'd', RecordKind::Folder, 1));
    let metadata = stream(alloc, blocks, &records, false)?.encode();
    let top = top_block(&entries, &metadata);
    let top = put(alloc, blocks, Kind::DIRECTORY, &top)?;
    put(alloc, blocks, Kind::ROOT, &root(top, 300, 0))
}

/// The top folder of that archive, which is put into the store.
fn sample_top<B: Blocks>(alloc: Global, blocks: &mut B) -> Result<Node, Fail>
    ensures { IfOk result (λ node. AreNodeEntries node.stored) }
{
    let score = sample(alloc, blocks)?;
    match Archive::at(alloc, blocks, &score) {
        Ok(archive) => Ok(archive.top),
        Err(_) => Err("not opened".into()),
    }
}

/// Two names, and how many bytes the item has that they lead to, if they do.
const ENDS: &[([&[u8]; 2], Option<u64>)] = &[
    ([b"d", b"x"], Some(3)),
    ([b"d", b"y"], None),
    ([b"d", b""], None),
    ([b"D", b"x"], None),
    ([b"a", b"x"], None),
];

/// The items of that archive are listed and found.
fn see_items<B: Blocks>(alloc: Global, blocks: &mut B, top: &Node, rows: &mut Rows)
    requires { AreNodeEntries top.now.stored }
{
    let told = listed_as(alloc, blocks, top);
    rows.is("how many items are listed", told == Told::Items(2));
    for (n, (names, size)) in ENDS.iter().enumerate() {
        let found = size_at(alloc, blocks, top, names);
        rows.nth(
            n,
            "the size of the item that the names lead to",
            found == *size,
        );
    }
}

#[test]
fn items_are_listed_and_found(rt: HostRuntime) -> Result<(), Fail> {
    let alloc = rt.alloc();
    let mut blocks = MemBlocks::new(alloc, Sha1Scorer);
    let top = sample_top(alloc, &mut blocks)?;
    let mut rows = Rows::new();
    see_items(alloc, &mut blocks, &top, &mut rows);
    rows.passes()
}

/// Whether these bytes are read.
fn gives<B: Blocks>(
    alloc: Global,
    blocks: &mut B,
    node: &Node,
    at: u64,
    n: u32,
    wanted: &[u8],
) -> bool
    requires { AreNodeEntries node.now.stored }
{
    match read(alloc, blocks, node, at, n) {
        Ok(bytes) => bytes.as_slice() == wanted,
        Err(_) => false,
    }
}

/// A place of the file `d/x`, how many bytes are read from it on, and these.
const PARTS: &[(u64, u32, &[u8])] = &[
    (0, 40_000, b"abc"),
    (1, 1, b"b"),
    (2, 9, b"c"),
    (3, 1, b""),
    (u64::MAX, u32::MAX, b""),
];

/// Parts of a file of `abc` are read.
fn see_parts<B: Blocks>(alloc: Global, blocks: &mut B, file: &Node, rows: &mut Rows)
    requires { AreNodeEntries file.now.stored }
{
    for (n, (at, len, wanted)) in PARTS.iter().enumerate() {
        let is_read = gives(alloc, blocks, file, *at, *len, wanted);
        rows.nth(n, "the bytes", is_read);
    }
}

#[test]
fn parts_of_files_are_read(rt: HostRuntime) -> Result<(), Fail> {
    let alloc = rt.alloc();
    let mut rows = Rows::new();
    let mut blocks = MemBlocks::new(alloc, Sha1Scorer);
    let top = sample_top(alloc, &mut blocks)?;
    rows.is(
        "a folder's bytes, of which there are none",
        gives(alloc, &mut blocks, &top, 0, 9, b""),
    );
    match found(alloc, &mut blocks, &top, &[b"d", b"x"]) {
        Some(file) => see_parts(alloc, &mut blocks, &file, &mut rows),
        None => rows.is("the way to the file", false),
    }
    rows.passes()
}

/// An entry with another byte of its size at this place.
fn resized(entry: Entry, at: usize, byte: u8) -> Result<Entry, Fail>
    requires entry { IsTreeEntry entry }
    requires within { at < 40 }
    ensures entry { IfOk result IsTreeEntry }
    ensures kind { IfOk result (λ e. e.is_dir ≡ entry.is_dir) }
{
    let mut bytes = entry.encode();
    bytes[at] = byte;
    match Entry::decode(&bytes) {
        Ok(other) if other.is_dir == entry.is_dir => Ok(other),
        _ => Err("no entry".into()),
    }
}

/// The entries and the metadata of a folder of the file `a`, which has more than a tebibyte.
fn long_file<B: Blocks>(alloc: Global, blocks: &mut B) -> Result<(Entry, Entry), Fail>
    ensures { IfOk result (λ f. AreNodeEntries (Stored.Folder f.0 f.1)) }
{
    let file = resized(stream(alloc, blocks, b"abc", false)?, 14, 1)?;
    let entries = stream(alloc, blocks, &file.encode(), true)?;
    let records = record(b'a', RecordKind::File, 0);
    let metadata = stream(alloc, blocks, &records, false)?;
    Ok((entries, metadata))
}

/// What is told where the file `a` of a folder of these streams is read, and how many bytes it has.
fn read_as<B: Blocks>(
    alloc: Global,
    blocks: &mut B,
    entries: Entry,
    metadata: Entry,
) -> Result<(u64, Told), Fail>
    requires { AreNodeEntries (Stored.Folder entries metadata) }
{
    let folder = node(alloc, entries, metadata)?;
    let Some(file) = found(alloc, blocks, &folder, &[b"a"]) else {
        return Err("no file".into());
    };
    match read(alloc, blocks, &file, 0, 1) {
        Ok(_) => Ok((file.size, Told::Opened)),
        Err(bad) => Ok((file.size, broken(&bad))),
    }
}

/// What is told where a folder of these streams is listed.
fn streams_told<B: Blocks>(
    alloc: Global,
    blocks: &mut B,
    entries: Entry,
    metadata: Entry,
) -> Result<Told, Fail>
    requires { AreNodeEntries (Stored.Folder entries metadata) }
{
    let folder = node(alloc, entries, metadata)?;
    Ok(listed_as(alloc, blocks, &folder))
}

#[test]
fn streams_past_their_limits_are_too_long(rt: HostRuntime) -> Result<(), Fail> {
    let alloc = rt.alloc();
    let mut blocks = MemBlocks::new(alloc, Sha1Scorer);
    let (entries, metadata) = long_file(alloc, &mut blocks)?;
    let long_entries = resized(entries, 14, 1)?;
    let long_metadata = resized(metadata, 16, 1)?;
    // A file of more than a tebibyte is listed, and nothing of it is read. Nor is a folder of which a
    // stream is too long.
    let file = read_as(alloc, &mut blocks, entries, metadata)?;
    let first = streams_told(alloc, &mut blocks, long_entries, metadata)?;
    let second = streams_told(alloc, &mut blocks, entries, long_metadata)?;
    let mut rows = Rows::new();
    rows.is("a long file", file == ((1 << 40) + 3, Told::TooLong));
    rows.is("a folder of many entries", first == Told::TooLong);
    rows.is("a folder of long metadata", second == Told::TooLong);
    rows.passes()
}
