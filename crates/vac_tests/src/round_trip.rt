//! Folders in memory are archived and read back.

ghost use Rattle.std.specs.Prelude.{IfOk};
ghost use Rattle.vac_read.specs.Nodes.{AreNodeEntries};

use crate::items::one;
use std::alloc::Global;
use std::test::Fail;
use vac_read::{Archive, Node, list, read, walk};
use vac_write::archive;
use vt_base::{Sha1Scorer, Text};
use vt_out::{Facts, Folder, Item, ItemKind, MemContent, MemFolder, MemItem};
use vt_rows::Rows;
use vt_tree::{Blocks, MemBlocks};

/// Facts of this name and mode, of time 7, with an owner of no bytes.
fn facts(alloc: Global, name: &[u8], mode: u32) -> Result<Facts, Fail> {
    Ok(Facts {
        name: Text::copy_of(alloc, name)?,
        mode,
        mtime: 7,
        uid: Text::copy_of(alloc, b"")?,
        gid: Text::copy_of(alloc, b"group")?,
    })
}

/// A file of so many bytes, of which no two leaves are equal and some are zeros.
fn file(alloc: Global, name: &[u8], len: u32) -> Result<MemItem, Fail> {
    let mut bytes = Vec::new(alloc);
    for i in 0..len {
        let byte = if i / 512 % 3 == 1 {
            0
        } else {
            i / 512 + i % 250
        };
        bytes.push((byte % 251) as u8)?;
    }
    Ok(MemItem::File(facts(alloc, name, 0o100640)?, MemContent::from_vec(bytes)))
}

/// Sixty files of each length below 60, the last name first.
fn short_files(alloc: Global) -> Result<Vec<MemItem>, Fail> {
    let mut files = Vec::new(alloc);
    for i in 0..60u32 {
        let name = format!(in alloc; "{:02}", 59 - i)?;
        files.push(file(alloc, name.as_bytes(), i)?)?;
    }
    Ok(files)
}

/// A folder whose file has a name that is no text.
fn deeper(alloc: Global) -> Result<MemItem, Fail> {
    let about = facts(alloc, b"30+", 0o40700)?;
    let inside = one(alloc, file(alloc, b"\xff\x01", 1000)?)?;
    Ok(MemItem::Folder(about, inside))
}

/// A folder of these.
fn many(alloc: Global) -> Result<MemItem, Fail> {
    let about = facts(alloc, b"many", 0o42755)?;
    let deeper = deeper(alloc)?;
    let mut inside = short_files(alloc)?;
    inside.push(deeper)?;
    Ok(MemItem::Folder(about, inside))
}

/// The items of the sample, by their places.
fn part(alloc: Global, place: u32) -> Result<MemItem, Fail> {
    match place {
        0 => file(alloc, b"z", 20_000),
        1 => many(alloc),
        2 => Ok(MemItem::Other(facts(alloc, b"link", 0o777)?)),
        3 => Ok(MemItem::Folder(facts(alloc, b"empty", 0o40000)?, Vec::new(alloc))),
        _ => file(alloc, b"a", 512),
    }
}

/// Files of many lengths, folders in folders, a link, and names that are no text.
fn sample(alloc: Global) -> Result<MemFolder, Fail> {
    let mut items = Vec::new(alloc);
    for place in 0..5u32 {
        items.push(part(alloc, place)?)?;
    }
    Ok(MemFolder::new(alloc, items))
}

/// The files and folders that a folder lists, in order.
fn listed<F: Folder>(alloc: Global, folder: &mut F, path: &[Text]) -> Result<Vec<Item>, Fail> {
    let Ok(listing) = folder.list(alloc, path) else {
        return Err("not listed".into());
    };
    let mut items = Vec::new(alloc);
    for item in listing.into_vec() {
        if item.kind != ItemKind::Other {
            items.push(item)?;
        }
    }
    items.sort_by(|a, b| a.name.as_slice().cmp(b.name.as_slice()))?;
    Ok(items)
}

/// The first bytes of a file in memory.
fn content<F: Folder>(alloc: Global, folder: &mut F, path: &[Text]) -> Result<Vec<u8>, Fail> {
    let mut bytes = vec![in alloc; 0u8; 30_000]?;
    match folder.read(path, 0, &mut bytes) {
        Ok(n) => bytes.truncate(n),
        Err(_) => return Err("not read".into()),
    }
    Ok(bytes)
}

/// What a node says, beside its number, is what its folder says of an item.
fn is_same(node: &Node, item: &Item) -> bool {
    node.item.name.as_slice() == item.name.as_slice()
        && node.item.kind == item.kind
        && node.item.mode == item.mode & 0o777
        && node.item.mtime == item.mtime
        && node.item.uid.as_slice() == item.uid.as_slice()
        && node.item.gid.as_slice() == item.gid.as_slice()
}

/// Whether these are the same, in their order.
fn are_same(nodes: &[Node], items: &[Item]) -> bool {
    nodes.len() == items.len()
        && nodes
            .iter()
            .zip(items)
            .all(|(node, item)| is_same(node, item))
}

/// The path of these names, the folder above first.
fn path_of(alloc: Global, names: &[&[u8]]) -> Result<Vec<Text>, Fail> {
    let mut path = Vec::new(alloc);
    for name in names {
        path.push(Text::copy_of(alloc, name)?)?;
    }
    Ok(path)
}

/// Whether the items of the archive's folder at this path are those of the folder in memory.
fn is_folder<F: Folder, B: Blocks>(
    alloc: Global,
    folder: &mut F,
    blocks: &mut B,
    top: &Node,
    names: &[&[u8]],
) -> Result<bool, Fail>
    requires { AreNodeEntries top.now.stored }
{
    let path = path_of(alloc, names)?;
    let items = listed(alloc, folder, &path)?;
    let Ok(Some(node)) = walk(alloc, blocks, top, &path) else {
        return Ok(false);
    };
    match list(alloc, blocks, &node) {
        Ok(nodes) => Ok(are_same(nodes.as_slice(), &items)),
        Err(_) => Ok(false),
    }
}

/// Whether the file at this path has this number, and the bytes of that in memory.
fn is_file<F: Folder, B: Blocks>(
    alloc: Global,
    folder: &mut F,
    blocks: &mut B,
    top: &Node,
    names: &[&[u8]],
    qid: u64,
) -> Result<bool, Fail>
    requires { AreNodeEntries top.now.stored }
{
    let path = path_of(alloc, names)?;
    let wanted = content(alloc, folder, &path)?;
    let Ok(Some(node)) = walk(alloc, blocks, top, &path) else {
        return Ok(false);
    };
    match read(alloc, blocks, &node, 0, 40_000) {
        Ok(found) => Ok(node.qid == qid && found.as_slice() == wanted.as_slice()),
        Err(_) => Ok(false),
    }
}

/// Folders of the sample.
const FOLDERS: &[&[&[u8]]] = &[&[], &[b"many"], &[b"many", b"30+"], &[b"empty"]];

/// Files of the sample, and their numbers.
const FILES: &[(&[&[u8]], u64)] = &[
    (&[b"a"], 1),
    (&[b"many", b"00"], 4),
    (&[b"many", b"30"], 34),
    (&[b"many", b"30+", b"\xff\x01"], 36),
    (&[b"many", b"31"], 37),
    (&[b"many", b"59"], 65),
    (&[b"z"], 66),
];

/// The top folder of the archive of a folder, in blocks of this size. It is generic, so that no clause
/// is looked at with the folder and the blocks in memory.
fn archived<F: Folder, B: Blocks>(
    alloc: Global,
    folder: &mut F,
    blocks: &mut B,
    bsize: u16,
) -> Result<Node, Fail>
    ensures { IfOk result (λ node. AreNodeEntries node.stored) }
{
    let Ok(archived) = archive(alloc, folder, blocks, bsize.clamp(512, 53_248)) else {
        return Err("not archived".into());
    };
    match Archive::at(alloc, blocks, &archived.score) {
        Ok(found) => Ok(found.top),
        Err(_) => Err("not opened".into()),
    }
}

/// The sample's folders are read back.
fn see_folders<F: Folder, B: Blocks>(
    alloc: Global,
    folder: &mut F,
    blocks: &mut B,
    top: &Node,
    rows: &mut Rows,
) -> Result<(), Fail>
    requires { AreNodeEntries top.now.stored }
{
    for (n, names) in FOLDERS.iter().enumerate() {
        let is_same = is_folder(alloc, folder, blocks, top, names)?;
        rows.nth(n, "the items of the folder", is_same);
    }
    Ok(())
}

/// The sample's files are read back.
fn see_files<F: Folder, B: Blocks>(
    alloc: Global,
    folder: &mut F,
    blocks: &mut B,
    top: &Node,
    rows: &mut Rows,
) -> Result<(), Fail>
    requires { AreNodeEntries top.now.stored }
{
    for (n, (names, qid)) in FILES.iter().enumerate() {
        let is_same = is_file(alloc, folder, blocks, top, names, *qid)?;
        rows.nth(n, "the number and the bytes of the file", is_same);
    }
    Ok(())
}

/// Archives the sample in blocks of this size, and reads it back.
fn see_sample<F: Folder, B: Blocks>(
    alloc: Global,
    folder: &mut F,
    blocks: &mut B,
    bsize: u16,
    rows: &mut Rows,
) -> Result<(), Fail> {
    let top = archived(alloc, folder, blocks, bsize)?;
    see_folders(alloc, folder, blocks, &top, rows)?;
    see_files(alloc, folder, blocks, &top, rows)
}

/// The sample is read back from blocks of this size.
fn see_blocks_of(alloc: Global, bsize: u16) -> Result<(), Fail> {
    let mut rows = Rows::new();
    let mut folder = sample(alloc)?;
    let mut blocks = MemBlocks::new(alloc, Sha1Scorer);
    see_sample(alloc, &mut folder, &mut blocks, bsize, &mut rows)?;
    rows.all()?;
    Ok(())
}

#[test]
fn folders_are_read_back_from_blocks_of_512(rt: HostRuntime) -> Result<(), Fail> {
    see_blocks_of(rt.alloc(), 512)
}

#[test]
fn folders_are_read_back_from_blocks_of_8192(rt: HostRuntime) -> Result<(), Fail> {
    see_blocks_of(rt.alloc(), 8192)
}

#[test]
fn folders_are_read_back_from_blocks_of_53248(rt: HostRuntime) -> Result<(), Fail> {
    see_blocks_of(rt.alloc(), 53_248)
}

/// Whether these names lead to an item of the archive, where the way can be read.
fn leads<B: Blocks>(
    alloc: Global,
    blocks: &mut B,
    top: &Node,
    names: &[&[u8]],
) -> Result<Option<bool>, Fail>
    requires { AreNodeEntries top.now.stored }
{
    let path = path_of(alloc, names)?;
    match walk(alloc, blocks, top, &path) {
        Ok(end) => Ok(Some(end.is_some())),
        Err(_) => Ok(None),
    }
}

/// Names, and whether the sample has something there.
const ENDS: &[(&[&[u8]], bool)] = &[
    (&[b"many", b"07"], true),
    (&[b"many", b"60"], false),
    (&[b"Many", b"07"], false),
    (&[b"z", b"z"], false),
    (&[b"link", b""], false),
    (&[b"empty", b""], false),
    (&[b"many", b"30+"], true),
];

/// Names lead to what the sample has, and to nothing else.
fn see_ends<B: Blocks>(
    alloc: Global,
    blocks: &mut B,
    top: &Node,
    rows: &mut Rows,
) -> Result<(), Fail>
    requires { AreNodeEntries top.now.stored }
{
    for (n, (names, is_there)) in ENDS.iter().enumerate() {
        let end = leads(alloc, blocks, top, names)?;
        rows.nth(
            n,
            "whether the names lead to an item",
            end == Some(*is_there),
        );
    }
    Ok(())
}

/// Archives the sample, and walks it.
fn see_walks<F: Folder, B: Blocks>(
    alloc: Global,
    folder: &mut F,
    blocks: &mut B,
    rows: &mut Rows,
) -> Result<(), Fail> {
    let top = archived(alloc, folder, blocks, 512)?;
    see_ends(alloc, blocks, &top, rows)
}

#[test]
fn absent_names_lead_nowhere(rt: HostRuntime) -> Result<(), Fail> {
    let alloc = rt.alloc();
    let mut rows = Rows::new();
    let mut folder = sample(alloc)?;
    let mut blocks = MemBlocks::new(alloc, Sha1Scorer);
    see_walks(alloc, &mut folder, &mut blocks, &mut rows)?;
    rows.all()?;
    Ok(())
}
