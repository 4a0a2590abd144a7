//! Items of folders in memory.

use std::alloc::{AllocError, Global};
use std::test::Fail;
use vt_base::Text;
use vt_out::{Facts, MemContent, MemItem};

pub fn facts(
    alloc: Global,
    name: &[u8],
    mode: u32,
    mtime: u32,
    uid: &[u8],
    gid: &[u8],
) -> Result<Facts, AllocError> {
    Ok(Facts {
        name: Text::copy_of(alloc, name)?,
        mode,
        mtime,
        uid: Text::copy_of(alloc, uid)?,
        gid: Text::copy_of(alloc, gid)?,
    })
}

/// A file of the owner `u` and the group `g`, of time 0.
pub fn file(alloc: Global, name: &[u8], mode: u32, bytes: &[u8]) -> Result<MemItem, Fail> {
    let content = MemContent::from_vec(Vec::from_slice(alloc, bytes)?);
    Ok(MemItem::File(facts(alloc, name, mode, 0, b"u", b"g")?, content))
}

/// A folder of the same, with mode 0o40755.
pub fn folder(alloc: Global, name: &[u8], items: Vec<MemItem>) -> Result<MemItem, Fail> {
    Ok(MemItem::Folder(facts(alloc, name, 0o40755, 0, b"u", b"g")?, items))
}

/// What is no file and no folder, with mode 0o777.
pub fn link(alloc: Global, name: &[u8]) -> Result<MemItem, Fail> {
    Ok(MemItem::Other(facts(alloc, name, 0o777, 0, b"u", b"g")?))
}

/// Bytes of which no two leaves of 512 are equal.
pub fn some_bytes(alloc: Global, len: u32) -> Result<Vec<u8>, Fail> {
    let mut bytes = Vec::new(alloc);
    for i in 0..len {
        bytes.push(((i / 512 * 7 + i % 512 * 3 + 1) % 251) as u8)?;
    }
    Ok(bytes)
}

/// Two thousand zeros, one byte, and 99 zeros.
fn with_holes(alloc: Global) -> Result<Vec<u8>, Fail> {
    let mut bytes = vec![in alloc; 0u8; 2100]?;
    bytes[2000] = b'x';
    Ok(bytes)
}

/// Folders whose archives are known.
#[derive(Clone, Copy)]
pub enum Sample {
    /// No items.
    Empty,
    /// The empty file `a`, and the folder `d` with the file `f` of `abc`.
    Small,
    /// Items out of order, links, times and modes of all bits, owners of no bytes.
    Mixed,
    /// A file of 20,000 bytes, and behind it a folder of one with a hole.
    Large,
    /// That folder alone.
    LargeBehind,
    /// Forty files.
    Many,
}

/// The items of a sample.
pub fn items_of(alloc: Global, which: Sample) -> Result<Vec<MemItem>, Fail> {
    match which {
        Sample::Empty => Ok(Vec::new(alloc)),
        Sample::Small => small(alloc),
        Sample::Mixed => mixed(alloc),
        Sample::Large => large(alloc),
        Sample::LargeBehind => one(alloc, hole(alloc)?),
        Sample::Many => many(alloc),
    }
}

/// A folder's items.
pub fn one(alloc: Global, item: MemItem) -> Result<Vec<MemItem>, Fail> {
    Ok(vec![in alloc; item]?)
}

/// The items of a folder of two.
pub fn two(alloc: Global, first: MemItem, second: MemItem) -> Result<Vec<MemItem>, Fail> {
    Ok(vec![in alloc; first, second]?)
}

/// A folder of one item.
fn folder_of(alloc: Global, name: &[u8], item: MemItem) -> Result<MemItem, Fail> {
    folder(alloc, name, one(alloc, item)?)
}

/// The items of `Sample::Small`.
fn small(alloc: Global) -> Result<Vec<MemItem>, Fail> {
    let f = file(alloc, b"f", 0o644, b"abc")?;
    let d = folder_of(alloc, b"d", f)?;
    let a = file(alloc, b"a", 0o644, b"")?;
    two(alloc, a, d)
}

/// A file or a link: its name, mode and time, whether it has an owner, and the file's bytes.
type Row = (&'static [u8], u32, u32, bool, Option<&'static [u8]>);

/// The items of `Sample::Mixed` beside its folder `a`, and those in it.
const ABOVE: [Row; 4] = [
    (b"b", 0o100644, 5, true, Some(b"b")),
    (b"link", 0o777, 0, true, None),
    (b"a\xff", 0o777, 0, true, Some(&[0; 600])),
    (b"ab", 0o7777, 0, true, Some(b"q")),
];

const INSIDE: [Row; 3] = [
    (b"z", 0o777, 0, true, None),
    (b"a.", 0o600, 0, false, Some(b"")),
    (b"a", 0o600, 0, true, Some(b"xyz")),
];

/// The item of a row: it has the owner `u` and the group `g`, or neither.
fn item_of(alloc: Global, row: Row) -> Result<MemItem, Fail> {
    let (name, mode, mtime, is_owned, bytes) = row;
    let owner: (&[u8], &[u8]) = if is_owned { (b"u", b"g") } else { (b"", b"") };
    let about = facts(alloc, name, mode, mtime, owner.0, owner.1)?;
    let Some(bytes) = bytes else {
        return Ok(MemItem::Other(about));
    };
    let content = Vec::from_slice(alloc, bytes)?;
    Ok(MemItem::File(about, MemContent::from_vec(content)))
}

/// The items of `Sample::Mixed`.
fn mixed(alloc: Global) -> Result<Vec<MemItem>, Fail> {
    let mut inside = Vec::new(alloc);
    for row in INSIDE {
        inside.push(item_of(alloc, row)?)?;
    }
    let about = facts(alloc, b"a", 0o40755, u32::MAX, b"u", b"g")?;
    let mut items = vec![in alloc; MemItem::Folder(about, inside)]?;
    for row in ABOVE {
        items.push(item_of(alloc, row)?)?;
    }
    Ok(items)
}

/// The file `big` of 20,000 bytes.
fn big_file(alloc: Global) -> Result<MemItem, Fail> {
    let bytes = some_bytes(alloc, 20_000)?;
    file(alloc, b"big", 0o644, &bytes)
}

/// The file `z` of 2,100 bytes, most of them zeros.
fn file_with_holes(alloc: Global) -> Result<MemItem, Fail> {
    let bytes = with_holes(alloc)?;
    file(alloc, b"z", 0o644, &bytes)
}

/// The folder `hole` with that file.
fn hole(alloc: Global) -> Result<MemItem, Fail> {
    let file = file_with_holes(alloc)?;
    folder_of(alloc, b"hole", file)
}

/// The items of `Sample::Large`.
fn large(alloc: Global) -> Result<Vec<MemItem>, Fail> {
    let hole = hole(alloc)?;
    let big = big_file(alloc)?;
    two(alloc, big, hole)
}

/// The items of `Sample::Many`: `000` to `039`, each with its number in digits as its content.
fn many(alloc: Global) -> Result<Vec<MemItem>, Fail> {
    let mut items = Vec::new(alloc);
    for i in 0..40u32 {
        let name = format!(in alloc; "{i:03}")?;
        let bytes = format!(in alloc; "{i}")?;
        items.push(file(alloc, name.as_bytes(), 0o644, bytes.as_bytes())?)?;
    }
    Ok(items)
}

/// Items in a folder named `d`, beside a link.
fn around(alloc: Global, inside: Vec<MemItem>) -> Result<Vec<MemItem>, Fail> {
    let d = folder(alloc, b"d", inside)?;
    let c = link(alloc, b"c")?;
    two(alloc, c, d)
}

/// So many folders named `d`, each beside a link and one in another, and a file in the last.
pub fn nested(alloc: Global, depth: u32) -> Result<Vec<MemItem>, Fail> {
    let mut items = one(alloc, file(alloc, b"f", 0, b"abc")?)?;
    for _ in 0..depth {
        items = around(alloc, items)?;
    }
    Ok(items)
}

/// So many files of one byte, of which each has a name, a uid and a gid of 255 bytes, and a record of
/// 792.
pub fn long_named(alloc: Global, count: u32) -> Result<Vec<MemItem>, Fail> {
    let owner = vec![in alloc; b'o'; 255]?;
    let mut items = Vec::new(alloc);
    for i in 0..count {
        let digits = format!(in alloc; "{i:05}")?;
        let mut name = Vec::from_slice(alloc, digits.as_bytes())?;
        name.extend_from_slice(&owner[..250])?;
        let about = facts(alloc, &name, 0, 0, &owner, &owner)?;
        let content = MemContent::from_vec(vec![in alloc; b'.']?);
        items.push(MemItem::File(about, content))?;
    }
    Ok(items)
}
