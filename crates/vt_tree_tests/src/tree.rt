//! Entries, roots and blocks in memory, with scores and bytes from outside.

use crate::blocks::put;
use std::alloc::Global;
use std::test::Fail;
use vt_base::{Kind, Score, Scorer, Sha1Scorer};
use vt_rows::Rows;
use vt_tree::{
    BlockErr, Blocks, ContentError, Entry, EntryError, EntryField, MemBlocks, Root, RootError,
    TreeErr, byte_at, content, read_range,
};

/// The score of no bytes, by SHA-1.
const ZERO: Score = Score(
    *b"\xda\x39\xa3\xee\x5e\x6b\x4b\x0d\x32\x55\xbf\xef\x95\x60\x18\x90\xaf\xd8\x07\x09",
);

/// The bytes of an entry that says this, and zeros.
fn entry_bytes(psize: u8, dsize: u8, flags: u8) -> [u8; 40] {
    let mut bytes = [0u8; 40];
    bytes[5] = psize;
    bytes[7] = dsize;
    bytes[8] = flags;
    bytes
}

/// The sizes and the flags of an entry, and the field that can't stand in it.
type Row = (u8, u8, u8, Option<(EntryField, u16)>);

const ENTRIES: &[Row] = &[
    (19, 0, 0x41, Some((EntryField::PSize, 19))),
    (20, 0, 0x41, Some((EntryField::DSize, 0))),
    (20, 39, 0x43, Some((EntryField::DSize, 39))),
    (20, 39, 0x41, Some((EntryField::Flags, 0x41))),
    (0, 0, 0x40, Some((EntryField::Flags, 0x40))),
    (20, 40, 0x03, None),
    (20, 1, 0xbd, None),
    (0, 0, 0x02, None),
];

/// Each field that can't stand in an entry is told.
fn see_entries(rows: &mut Rows) {
    for (n, (psize, dsize, flags, bad)) in ENTRIES.iter().enumerate() {
        let wanted = bad.map(|(field, found)| EntryError { field, found });
        let found = Entry::decode(&entry_bytes(*psize, *dsize, *flags)).err();
        rows.nth(
            n,
            "the field that can't stand in the entry",
            found == wanted,
        );
    }
}

#[test]
fn entries_are_tested_field_by_field(rt: HostRuntime) -> Result<(), Fail> {
    let mut rows = Rows::new();
    let found = Entry::decode(&entry_bytes(0, 0, 0xa0));
    rows.is(
        "an entry that isn't active",
        found.is_ok_and(|e| !e.active && e.depth == 0),
    );
    see_entries(&mut rows);
    rows.passes()
}

#[test]
fn roots_are_300_bytes_of_version_2(rt: HostRuntime) -> Result<(), Fail> {
    let mut root = Root {
        name: [0; 128],
        kind: [0; 128],
        score: Score([1; 20]),
        block_size: 8192,
        prev: ZERO,
    };
    root.name[0] = b'v';
    root.kind[127] = b'r';
    let mut bytes = root.encode();
    let mut rows = Rows::new();
    rows.is(
        "the version and the name",
        &bytes[0..3] == b"\x00\x02v".as_slice(),
    );
    rows.is(
        "the type and the score",
        &bytes[257..259] == b"r\x01".as_slice(),
    );
    rows.is(
        "the block size and the earlier root",
        &bytes[278..282] == b"\x20\x00\xda\x39".as_slice(),
    );
    rows.is("the root that is read", Root::decode(&bytes) == Ok(root));
    rows.is(
        "a root of 299 bytes",
        Root::decode(&bytes[..299]) == Err(RootError::Length),
    );
    bytes[1] = 3;
    rows.is(
        "a root of version 3",
        Root::decode(&bytes) == Err(RootError::Version),
    );
    rows.passes()
}

/// What a call came to.
#[derive(Clone, Copy, PartialEq, Eq)]
enum Came {
    /// To what was wanted.
    Well,
    /// The call failed.
    Fault,
    /// The store said no.
    Refused,
    /// Anything else: no row wants it.
    Other,
}

/// What this refusal is told as.
fn failed(bad: &BlockErr) -> Came {
    match bad {
        BlockErr::Fault => Came::Fault,
        BlockErr::Refused(_) => Came::Refused,
        _ => Came::Other,
    }
}

/// What asking for a block that has these bytes comes to.
fn gets<B: Blocks>(alloc: Global, blocks: &mut B, score: &Score, wanted: &[u8]) -> Came {
    match blocks.get(alloc, Kind::DATA, score) {
        Ok(bytes) if bytes.as_slice() == wanted => Came::Well,
        Ok(_) => Came::Other,
        Err(bad) => failed(&bad),
    }
}

/// What a sync came to.
fn syncs<B: Blocks>(alloc: Global, blocks: &mut B) -> Came {
    match blocks.sync(alloc) {
        Ok(()) => Came::Well,
        Err(bad) => failed(&bad),
    }
}

/// A store of one block: calls 1 and 3 fail, call 5 is refused, and so is a block that isn't there.
fn see_calls(alloc: Global, blocks: &mut MemBlocks<Sha1Scorer>, score: &Score, rows: &mut Rows) {
    rows.is(
        "call 1, a get that fails",
        gets(alloc, blocks, score, b"abc") == Came::Fault,
    );
    rows.is(
        "call 2, a get",
        gets(alloc, blocks, score, b"abc") == Came::Well,
    );
    rows.is(
        "call 3, a sync that fails",
        syncs(alloc, blocks) == Came::Fault,
    );
    rows.is("what a failed sync covers", blocks.synced() == 0);
    rows.is("call 4, a sync", syncs(alloc, blocks) == Came::Well);
    rows.is("what a sync covers", blocks.synced() == 1);
    rows.is(
        "call 5, a sync that is refused",
        syncs(alloc, blocks) == Came::Refused,
    );
    rows.is(
        "a get of a block that isn't there",
        gets(alloc, blocks, &Score([7; 20]), b"") == Came::Refused,
    );
    rows.is("how many calls failed", blocks.faults() == 2);
    rows.is("how many calls were refused", blocks.refusals() == 2);
}

#[test]
fn calls_fail_and_are_refused_on_demand(rt: HostRuntime) -> Result<(), Fail> {
    let alloc = rt.alloc();
    let failing = vec![in alloc; 1, 3]?;
    let refusing = vec![in alloc; 5]?;
    let blocks = MemBlocks::new(alloc, Sha1Scorer).failing(failing);
    let mut blocks = blocks.refusing(refusing);
    let score = put(alloc, &mut blocks, Kind::DATA, b"abc")?;
    let mut rows = Rows::new();
    see_calls(alloc, &mut blocks, &score, &mut rows);
    rows.passes()
}

/// A file below one pointer block, whose leaves are three bytes, none, and three bytes.
fn small_tree<B: Blocks>(alloc: Global, blocks: &mut B) -> Result<Entry, Fail> {
    put(alloc, blocks, Kind::DATA, b"abc")?;
    let pointers =
        b"\xa9\x99\x3e\x36\x47\x06\x81\x6a\xba\x3e\x25\x71\x78\x50\xc2\x6c\x9c\xd0\xd8\x9d\
        \xda\x39\xa3\xee\x5e\x6b\x4b\x0d\x32\x55\xbf\xef\x95\x60\x18\x90\xaf\xd8\x07\x09\
        \xa9\x99\x3e\x36\x47\x06\x81\x6a\xba\x3e\x25\x71\x78\x50\xc2\x6c\x9c\xd0\xd8\x9d";
    let Some(kind) = Kind::from_wire(3) else {
        return Err("no type".into());
    };
    let score = put(alloc, blocks, kind, pointers)?;
    Ok(Entry {
        generation: 0,
        psize: 80,
        dsize: 4,
        active: true,
        is_dir: false,
        depth: 1,
        size: 17,
        score,
    })
}

/// The bytes of that file.
const CONTENT: &[u8; 17] = b"abc\0\0\0\0\0abc\0\0\0\0\0\0";

/// Whether an entry's file, told byte by byte, has these bytes.
fn has_content<S: Scorer>(
    alloc: Global,
    blocks: &MemBlocks<S>,
    entry: &Entry,
    wanted: &[u8],
) -> bool {
    if entry.depth >= 8 || entry.size >= 1 << 48 || entry.dsize == 0 {
        return false;
    }
    match content(alloc, blocks, entry) {
        Ok(Ok(bytes)) => bytes.as_slice() == wanted,
        _ => false,
    }
}

/// The first byte of an entry's file, where the entry's fields have room for what they say.
fn first_byte<S: Scorer>(blocks: &MemBlocks<S>, entry: &Entry) -> Option<Result<u8, ContentError>> {
    if entry.depth >= 8 || entry.size >= 1 << 48 || entry.dsize == 0 {
        return None;
    }
    Some(byte_at(blocks, entry, 0))
}

/// The small tree's file is told, and what can't be told of it; beside it there is a block of five bytes
/// with this score.
fn see_bytes<S: Scorer>(
    alloc: Global,
    blocks: &MemBlocks<S>,
    entry: Entry,
    long: Score,
    rows: &mut Rows,
) {
    let inactive = Entry {
        active: false,
        ..entry
    };
    let narrow = Entry { psize: 59, ..entry };
    let flat = Entry { depth: 0, ..entry };
    let short = Entry {
        score: long,
        ..flat
    };
    let fitting = Entry { dsize: 5, ..short };
    rows.is("the file", has_content(alloc, blocks, &entry, CONTENT));
    rows.is(
        "the file of an entry that isn't active",
        has_content(alloc, blocks, &inactive, b""),
    );
    rows.is(
        "a pointer block that is too long",
        first_byte(blocks, &narrow) == Some(Err(ContentError::BadBlock { depth: 1, len: 60 })),
    );
    rows.is(
        "a leaf that isn't there",
        first_byte(blocks, &flat) == Some(Err(ContentError::Absent)),
    );
    rows.is(
        "a leaf that is too long",
        first_byte(blocks, &short) == Some(Err(ContentError::BadBlock { depth: 0, len: 5 })),
    );
    rows.is(
        "the first byte of a leaf",
        first_byte(blocks, &fitting) == Some(Ok(b'd')),
    );
}

#[test]
fn a_file_is_told_byte_by_byte(rt: HostRuntime) -> Result<(), Fail> {
    let alloc = rt.alloc();
    let mut blocks = MemBlocks::new(alloc, Sha1Scorer);
    let long = put(alloc, &mut blocks, Kind::DATA, b"defgh")?;
    let entry = small_tree(alloc, &mut blocks)?;
    let mut rows = Rows::new();
    see_bytes(alloc, &blocks, entry, long, &mut rows);
    rows.passes()
}

/// What reading comes to.
#[derive(Clone, Copy, PartialEq, Eq)]
enum Told {
    /// To the bytes that are wanted.
    Bytes,
    /// To a block of this depth and length that can't stand there.
    BadBlock(u8, usize),
    /// To a file of more than 2^40 bytes.
    TooLong,
    /// To an entry that can't stand.
    BadEntry,
    /// To a block that the store refuses.
    Refused,
    /// To anything else, which no row wants.
    Other,
}

/// What is told of an entry's file: whether so many bytes from a place on are these.
fn reads<B: Blocks>(
    alloc: Global,
    blocks: &mut B,
    entry: &Entry,
    at: u64,
    n: u32,
    wanted: &[u8],
) -> Told {
    if entry.depth >= 8 || entry.size >= 1 << 48 {
        return Told::Other;
    }
    match read_range(alloc, blocks, entry, at, n) {
        Ok(bytes) if bytes.as_slice() == wanted => Told::Bytes,
        Ok(_) => Told::Other,
        Err(bad) => unread(&bad),
    }
}

/// What this refusal is told as.
fn unread(bad: &TreeErr) -> Told {
    match bad {
        TreeErr::BadBlock { depth, len } => Told::BadBlock(*depth, *len),
        TreeErr::TooLong => Told::TooLong,
        TreeErr::BadEntry(_) => Told::BadEntry,
        TreeErr::Block(BlockErr::Refused(_)) => Told::Refused,
        _ => Told::Other,
    }
}

/// So many bytes of the small tree's file from a place on.
fn part_of(at: u64, n: u32) -> &'static [u8] {
    let from = at.min(17) as usize;
    let to = (from + n as usize).min(17);
    CONTENT.get(from..to).unwrap_or(b"")
}

/// A place, how many bytes are read from it on, and how many blocks are asked for.
const PARTS: &[(u64, u32, usize)] = &[
    (0, 17, 3),
    (0, 100, 3),
    (0, 0, 0),
    (2, 1, 2),
    (3, 6, 3),
    (4, 4, 1),
    (9, 3, 2),
    (12, 5, 1),
    (16, 9, 0),
    (17, 1, 0),
    (1 << 40, 1, 0),
];

/// Each part is read, by as many blocks.
fn see_parts(alloc: Global, blocks: &mut MemBlocks<Sha1Scorer>, entry: &Entry, rows: &mut Rows) {
    for (n, (at, len, gets)) in PARTS.iter().enumerate() {
        let before = blocks.gets().len();
        let part = reads(alloc, blocks, entry, *at, *len, part_of(*at, *len));
        let asked = blocks.gets().len().saturating_sub(before);
        rows.nth(n, "the bytes", part == Told::Bytes);
        rows.nth(n, "how many blocks are asked for", asked == *gets);
    }
}

#[test]
fn parts_are_read_by_the_blocks_on_their_way(rt: HostRuntime) -> Result<(), Fail> {
    let alloc = rt.alloc();
    let mut blocks = MemBlocks::new(alloc, Sha1Scorer);
    let entry = small_tree(alloc, &mut blocks)?;
    let mut rows = Rows::new();
    see_parts(alloc, &mut blocks, &entry, &mut rows);
    rows.passes()
}

/// What is told of the first ten bytes of an entry's file, which has none or can't be read.
fn front<B: Blocks>(alloc: Global, blocks: &mut B, entry: Entry) -> Told {
    reads(alloc, blocks, &entry, 0, 10, b"")
}

/// Changes to the small tree's entry, and what is told then.
fn see_refusals<B: Blocks>(alloc: Global, blocks: &mut B, entry: Entry, rows: &mut Rows) {
    let leaves = Entry { dsize: 2, ..entry };
    let pointers = Entry { psize: 59, ..entry };
    let long = Entry {
        size: (1 << 40) + 1,
        ..entry
    };
    let sizeless = Entry { dsize: 0, ..entry };
    let absent = Entry {
        score: Score([7; 20]),
        ..entry
    };
    let inactive = Entry {
        active: false,
        ..sizeless
    };
    rows.is(
        "a leaf that is too long",
        front(alloc, blocks, leaves) == Told::BadBlock(0, 3),
    );
    rows.is(
        "a pointer block that is too long",
        front(alloc, blocks, pointers) == Told::BadBlock(1, 60),
    );
    rows.is(
        "a file that is too long",
        front(alloc, blocks, long) == Told::TooLong,
    );
    rows.is(
        "leaves of no bytes",
        front(alloc, blocks, sizeless) == Told::BadEntry,
    );
    rows.is(
        "a block that isn't there",
        front(alloc, blocks, absent) == Told::Refused,
    );
    rows.is(
        "an entry that isn't active",
        front(alloc, blocks, inactive) == Told::Bytes,
    );
}

#[test]
fn a_bad_tree_is_refused(rt: HostRuntime) -> Result<(), Fail> {
    let alloc = rt.alloc();
    let mut blocks = MemBlocks::new(alloc, Sha1Scorer);
    let entry = small_tree(alloc, &mut blocks)?;
    let mut rows = Rows::new();
    see_refusals(alloc, &mut blocks, entry, &mut rows);
    rows.passes()
}
