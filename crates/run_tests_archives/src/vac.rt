//! Folders in memory that are archived into a store of partitions in memory: what is printed, what
//! goes to the fault sink, and the status.

use crate::items::{file, folder, one, other, two};
use std::alloc::{AllocError, Global};
use std::test::Fail;
use vt_base::Text;
use vt_host_memory::{
    Given, Partitions, Row, Runtime, SMALL_ARENA, Told, Wanted, folder_named, made,
    run_with_folders, see_rows, told,
};
use vt_out::{Facts, MemContent, MemFolders, MemItem};
use vt_rows::Rows;

/// The folder `d` with the file `f` of `abc` and a link.
fn inner(alloc: Global) -> Result<MemItem, AllocError> {
    let content = Vec::from_slice(alloc, b"abc")?;
    let f = file(alloc, (b"f", 0o100_644, b"u"), content)?;
    let link = other(alloc, (b"l\xff", 0o777, b"u"))?;
    folder(alloc, (b"d", 0o755, b"u"), two(alloc, f, link)?)
}

/// Under the name `home`, that folder, and the empty file `a` or one of this name.
fn home(alloc: Global, name: &[u8], failing: &[u64]) -> Result<MemFolders, AllocError> {
    let empty = file(alloc, (name, 0o100_644, b"u"), Vec::new(alloc))?;
    let items = two(alloc, inner(alloc)?, empty)?;
    folder_named(alloc, "home", items, usize::MAX, failing)
}

/// What is printed of that folder in blocks of 8,192 bytes, and in blocks of 512.
const LINE: &[u8] = b"vac:7cb9bdd602e2a403c8d34ad446017ae13b317aa7\n";

const SMALL_LINE: &[u8] = b"vac:808ed0b4711370b9f8b7241cd07ee0206d217fa7\n";

/// The same in blocks of 8,192 bytes without `a`, without `d`, and without `d/f`.
const WITHOUT_A: &[u8] = b"vac:4fc52f9f8cb8946bf84644deaba8e2c3328138d5\n";

const WITHOUT_D: &[u8] = b"vac:5066a714f0c8a597805c4a5b88664f6c1faa1535\n";

const WITHOUT_F: &[u8] = b"vac:7bf81679d685121181fea42a5f2d692a21737433\n";

/// What is told of the link.
const SKIPPED: &[u8] = b"venti: skipped d/l\xff\n";

const VAC: &[&str] = &["vac", "small.conf", "home"];

/// The words, the name of the empty file, the calls of the folder that fail; the status, what is
/// printed, and what goes to the fault sink.
type Archived = (
    &'static [&'static str],
    &'static [u8],
    &'static [u64],
    u8,
    &'static [u8],
    &'static [u8],
);

/// Scores by the formats alone, from another encoder.
const ARCHIVED: [Archived; 16] = [
    (VAC, b"a", &[], 0, LINE, SKIPPED),
    (VAC, b"a", &[], 0, LINE, SKIPPED),
    (
        &["vac", "-b", "512", "small.conf", "home"],
        b"a",
        &[],
        0,
        SMALL_LINE,
        SKIPPED,
    ),
    (
        &["vac", "-b", "511", "small.conf", "home"],
        b"a",
        &[],
        5,
        b"",
        b"venti: bad number at 0\n",
    ),
    (
        &["vac", "-b", "53249", "small.conf", "home"],
        b"a",
        &[],
        5,
        b"",
        b"venti: bad number at 0\n",
    ),
    (
        &["vac", "-b", "5k", "small.conf", "home"],
        b"a",
        &[],
        5,
        b"",
        b"venti: bad number at 1\n",
    ),
    (
        &["vac", "x.conf", "home"],
        b"a",
        &[],
        6,
        b"",
        b"venti: read fault\n",
    ),
    (
        &["vac", "small.conf", "homes"],
        b"a",
        &[],
        6,
        b"",
        b"venti: read fault\n",
    ),
    // Of the folder's calls the first lists it, the second reads `a`, the third lists `d`, and two read `d/f`.
    (VAC, b"a", &[0], 6, b"", b"venti: read fault\n"),
    (
        VAC,
        b"a",
        &[1],
        6,
        WITHOUT_A,
        b"venti: skipped d/l\xff\nventi: can't read a\nventi: read fault\n",
    ),
    (
        VAC,
        b"a\n\"\\",
        &[1],
        6,
        WITHOUT_A,
        b"venti: skipped d/l\xff\nventi: can't read \"a\\012\\\"\\\\\"\nventi: read fault\n",
    ),
    (
        VAC,
        b"\"a",
        &[1],
        6,
        WITHOUT_A,
        b"venti: skipped d/l\xff\nventi: can't read \"\\\"a\"\nventi: read fault\n",
    ),
    (
        VAC,
        b"a",
        &[2],
        6,
        WITHOUT_D,
        b"venti: can't read d\nventi: read fault\n",
    ),
    (
        VAC,
        b"a",
        &[3],
        6,
        WITHOUT_F,
        b"venti: skipped d/l\xff\nventi: can't read d/f\nventi: read fault\n",
    ),
    (
        VAC,
        b"a",
        &[4],
        6,
        WITHOUT_F,
        b"venti: skipped d/l\xff\nventi: can't read d/f\nventi: read fault\n",
    ),
    (VAC, b"a/b", &[], 5, b"", b"venti: bad name at 0\n"),
];

/// The folder of the first row is as it was, for a client of 9P2000: a version, the top folder, a
/// walk to `d` and to nothing behind it, after which the new fid is unknown, one to nothing, one to
/// `d/f`, its bytes, the list of the top folder, and a removal of it, after which its fid is unknown, too.
const SHOWN: &[Row] = &[(
    &[
        "vacfs",
        "small.conf",
        "vac:7cb9bdd602e2a403c8d34ad446017ae13b317aa7",
    ],
    &[
        b"\x13\0\0\0d\xff\xff\0\x20\0\0\x06\09P2000",
        b"\x13\0\0\0h\x01\0\x01\0\0\0\xff\xff\xff\xff\0\0\0\0",
        b"\x17\0\0\0n\x02\0\x01\0\0\0\x02\0\0\0\x02\0\x01\0d\x01\0x",
        b"\x0b\0\0\0x\x03\0\x02\0\0\0",
        b"\x14\0\0\0n\x04\0\x01\0\0\0\x02\0\0\0\x01\0\x01\0x",
        b"\x17\0\0\0n\x05\0\x01\0\0\0\x02\0\0\0\x02\0\x01\0d\x01\0f",
        b"\x0c\0\0\0p\x06\0\x02\0\0\0\0",
        b"\x17\0\0\0t\x07\0\x02\0\0\0\0\0\0\0\0\0\0\0d\0\0\0",
        b"\x0c\0\0\0p\x0a\0\x01\0\0\0\0",
        b"\x17\0\0\0t\x0b\0\x01\0\0\0\0\0\0\0\0\0\0\0\0\x20\0\0",
        b"\x0b\0\0\0z\x08\0\x01\0\0\0",
        b"\x0b\0\0\0x\x09\0\x01\0\0\0",
    ],
    0,
    &[
        b"\x13\0\0\0e\xff\xff\0\x20\0\0\x06\09P2000",
        b"\x14\0\0\0i\x01\0\x80\0\0\0\0\0\0\0\0\0\0\0\0",
        b"\x16\0\0\0o\x02\0\x01\0\x80\0\0\0\0\x02\0\0\0\0\0\0\0",
        b"\x14\0\0\0k\x03\0\x0b\0unknown fid",
        b"\x1c\0\0\0k\x04\0\x13\0file does not exist",
        b"\x23\0\0\0o\x05\0\x02\0\x80\0\0\0\0\x02\0\0\0\0\0\0\0\0\0\0\0\0\x03\0\0\0\0\0\0\0",
        b"\x18\0\0\0q\x06\0\0\0\0\0\0\x03\0\0\0\0\0\0\0\xe8\x1f\0\0",
        b"\x0e\0\0\0u\x07\0\x03\0\0\0abc",
        b"\x18\0\0\0q\x0a\0\x80\0\0\0\0\0\0\0\0\0\0\0\0\xe8\x1f\0\0",
        b"\x75\0\0\0u\x0b\0\x6a\0\0\0",
        b"3\0\0\0\0\0\0\0\0\0\0\0\0\x01\0\0\0\0\0\0\0\xa4\x01\0\0\x07\0\0\0\x07\0\0\0\0\0\0\0\0\0\0\0\x01\0a\x01\0u\x01\0g\x01\0u",
        b"3\0\0\0\0\0\0\0\x80\0\0\0\0\x02\0\0\0\0\0\0\0\xed\x01\0\x80\x07\0\0\0\x07\0\0\0\0\0\0\0\0\0\0\0\x01\0d\x01\0u\x01\0g\x01\0u",
        b"\x1e\0\0\0k\x08\0\x15\0read-only file system",
        b"\x14\0\0\0k\x09\0\x0b\0unknown fid",
    ],
    "",
)];

const ARCHIVES: Told = told!("a folder that is archived");

/// Notes whether the run of this row is as it says.
fn see_archived(
    rt: &impl Runtime,
    rows: &mut Rows,
    parts: &mut Partitions,
    number: usize,
    row: &Archived,
) -> Result<(), AllocError> {
    let (words, name, failing, status, output, complaint) = *row;
    let folders = home(rt.alloc(), name, failing)?;
    let ran = run_with_folders(rt, parts, folders, &Given::new(words, &[]))?;
    let wanted = Wanted {
        status,
        output: &[output],
        complaint,
    };
    ran.see(rows, number, &ARCHIVES, &wanted);
    Ok(())
}

const SHOWS: Told = told!("an archive that is shown");

/// The rows one behind another, and then the archive is shown.
#[test]
fn a_folder_is_archived_and_shown(rt: HostRuntime) -> Result<(), Fail> {
    let mut rows = Rows::new();
    let mut parts = made(&rt, &mut rows, SMALL_ARENA)?;
    for (number, row) in ARCHIVED.iter().enumerate() {
        see_archived(&rt, &mut rows, &mut parts, number, row)?;
    }
    see_rows(&rt, &mut rows, &mut parts, &SHOWS, SHOWN)?;
    rows.all()?;
    Ok(())
}

// ---- folders that aren't archived

const REFUSES: Told = told!("a folder that isn't archived");

/// Notes whether a new store doesn't take these folders, and says so.
fn see_refused(
    rt: &impl Runtime,
    rows: &mut Rows,
    folders: MemFolders,
    status: u8,
    complaint: &[u8],
) -> Result<(), AllocError> {
    let mut parts = made(rt, rows, SMALL_ARENA)?;
    let ran = run_with_folders(rt, &mut parts, folders, &Given::new(VAC, &[]))?;
    let wanted = Wanted {
        status,
        output: &[],
        complaint,
    };
    ran.see(rows, 0, &REFUSES, &wanted);
    Ok(())
}

/// A file that is larger than the one arena.
fn large(alloc: Global) -> Result<MemFolders, AllocError> {
    let mut bytes = Vec::new(alloc);
    for n in 0..20_000u16 {
        bytes.extend_from_slice(&n.to_be_bytes())?;
    }
    let item = file(alloc, (b"large", 0o100_644, b"u"), bytes)?;
    folder_named(alloc, "home", one(alloc, item)?, 9_000, &[])
}

#[test]
fn a_store_may_be_too_small_for_a_folder(rt: HostRuntime) -> Result<(), Fail> {
    let mut rows = Rows::new();
    let folders = large(rt.alloc())?;
    see_refused(&rt, &mut rows, folders, 10, b"venti: arenas full\n")?;
    rows.all()?;
    Ok(())
}

/// So many folders `d`, one in another.
fn nested(alloc: Global, depth: u16) -> Result<Vec<MemItem>, AllocError> {
    let mut items = Vec::new(alloc);
    for _ in 0..depth {
        items = one(alloc, folder(alloc, (b"d", 0o755, b"u"), items)?)?;
    }
    Ok(items)
}

/// An item has 256 names above it at most.
#[test]
fn a_folder_may_be_too_deep(rt: HostRuntime) -> Result<(), Fail> {
    let mut rows = Rows::new();
    let items = nested(rt.alloc(), 257)?;
    let folders = folder_named(rt.alloc(), "home", items, usize::MAX, &[])?;
    see_refused(&rt, &mut rows, folders, 5, b"venti: too deep at 0\n")?;
    rows.all()?;
    Ok(())
}

/// A text of 255 bytes.
fn long_text(alloc: Global, front: &[u8], filler: &[u8; 250]) -> Result<Text, AllocError> {
    let mut text = Vec::from_slice(alloc, front)?;
    text.extend_from_slice(filler)?;
    Ok(Text::from_vec(text))
}

/// An empty file of this number, with a name, a uid and a gid of 255 bytes, and a record of 792.
fn long_named(alloc: Global, number: u16) -> Result<MemItem, AllocError> {
    let digits = format!(in alloc; "{number:05}")?;
    let name = long_text(alloc, digits.as_bytes(), &[b'n'; 250])?;
    let uid = long_text(alloc, b"ooooo", &[b'o'; 250])?;
    let gid = long_text(alloc, b"ooooo", &[b'o'; 250])?;
    let about = Facts {
        name,
        mode: 0,
        mtime: 0,
        uid,
        gid,
    };
    Ok(MemItem::File(about, MemContent::from_vec(Vec::new(alloc))))
}

/// So many such files.
fn many(alloc: Global, count: u16) -> Result<Vec<MemItem>, AllocError> {
    let mut items = Vec::new(alloc);
    for number in 0..count {
        items.push(long_named(alloc, number)?)?;
    }
    Ok(items)
}

/// The metadata of a folder has 2^24 bytes at most.
#[test]
fn a_folder_may_be_too_long(rt: HostRuntime) -> Result<(), Fail> {
    let mut rows = Rows::new();
    let items = many(rt.alloc(), 21_184)?;
    let folders = folder_named(rt.alloc(), "home", items, usize::MAX, &[])?;
    see_refused(&rt, &mut rows, folders, 5, b"venti: too long at 0\n")?;
    rows.all()?;
    Ok(())
}
