//! What is in the folders of an archive.

ghost use Rattle.std.specs.Prelude.{[], IfOk, IfSome, OnOk};
ghost use Rattle.std.specs.List.{All};
ghost use Rattle.vac_read.specs.Asking.{FindAsks, ListAsks, ReadsFew};
ghost use Rattle.vac_read.specs.Kept.{IsRightKept, KeepsStored, StaysKept};
ghost use Rattle.vac_read.specs.LastWay.{ReadsNodeOnWay};
ghost use Rattle.vac_read.specs.Nodes.{AreNodeEntries, FitsToldItem};
ghost use Rattle.vac_read.specs.Reading.{ReadsArchive, ListsFolder, FindsItem, WalksTo, ReadsNode};

use crate::items::nodes_of;
use crate::last_way::range_on_way;
use crate::records::records_of;
use crate::{Kept, LastWay, Node, Nodes, Stored, VacBad};
use std::alloc::Global;
use vt_base::{Bytes, Text};
use vt_tree::{Blocks, read_range};

/// The items of a folder, in the order of their names. A file has none. The first record that
/// can't stand in its metadata, or whose entry isn't there or is of another kind, is told.
pub fn list<B: Blocks>(alloc: Global, blocks: &mut B, node: &Node) -> Result<Nodes, VacBad>
    requires { AreNodeEntries node.now.stored }
    ensures lists { ReadsFew B.does B.holds B.score_of blocks.old blocks.new result
        (ListsFolder node.now.stored result) (ListAsks (B.score_of []) node.now.stored) }
    ensures entries { IfOk result (All (λ n. AreNodeEntries n.stored)) }
    ensures items { IfOk result (All (λ n. FitsToldItem n.item)) }
{
    let Stored::Folder { entries, metadata } = node.stored else {
        return Ok(Nodes::from_vec(Vec::new(alloc)));
    };
    let records = records_of(alloc, blocks, &entries, &metadata)?;
    nodes_of(alloc, blocks, entries, records)
}

/// The node that these names lead to from another, one after another; None exactly where a name is
/// absent or stands below a file. Of a folder on the way its records have to stand, and of these
/// only the one of the next name has to have its entries.
pub fn walk<B: Blocks>(
    alloc: Global,
    blocks: &mut B,
    node: &Node,
    names: &[Text],
) -> Result<Option<Node>, VacBad>
    requires { AreNodeEntries node.now.stored }
    ensures walks { ReadsArchive B.does B.holds B.score_of blocks.old blocks.new result
        (WalksTo node.now names.now result) }
    ensures entries { IfOk result (λ found. IfSome found (λ n. AreNodeEntries n.stored)) }
{
    let mut kept = Kept::new(alloc);
    let mut found = node.copied(alloc)?;
    for name in names {
        match find_item(alloc, blocks, &mut kept, &found, name.as_slice())? {
            Some(next) => found = next,
            None => return Ok(None),
        }
    }
    Ok(Some(found))
}

/// The item of this name in a folder; None exactly where it is absent, and below a file. The
/// folder's records have to stand, and of these only the one of this name has to have its entries.
/// Its records are read unless they are kept, and are kept then.
pub fn find_item<B: Blocks>(
    alloc: Global,
    blocks: &mut B,
    kept: &mut Kept,
    node: &Node,
    name: &[u8],
) -> Result<Option<Node>, VacBad>
    requires { AreNodeEntries node.now.stored }
    ensures finds { ReadsFew B.does B.holds B.score_of blocks.old blocks.new result
        (λ map. IsRightKept map kept.old → IsRightKept map kept.new
        × FindsItem node.now.stored name.now result map)
        (FindAsks (B.score_of []) node.now.stored kept.old) }
    ensures kept { OnOk result (KeepsStored node.now.stored kept.new) }
    ensures stays { StaysKept node.now.stored kept.old kept.new }
    ensures entries { IfOk result (λ found. IfSome found (λ n. AreNodeEntries n.stored)) }
    ensures item { IfOk result (λ found. IfSome found (λ n. FitsToldItem n.item)) }
{
    let Stored::Folder { entries, metadata } = node.stored else {
        return Ok(None);
    };
    let at = kept.enter(alloc, blocks, entries, metadata)?;
    kept.find(alloc, blocks, at, name)
}

/// So many bytes of a file from this place on, and fewer where it ends before. A folder has none.
pub fn read<B: Blocks>(
    alloc: Global,
    blocks: &mut B,
    node: &Node,
    at: u64,
    n: u32,
) -> Result<Bytes, VacBad>
    requires { AreNodeEntries node.now.stored }
    ensures { ReadsNode B.does B.holds B.score_of blocks.old blocks.new node.now.stored at n
        result }
{
    match node.stored {
        Stored::File(entry) => Ok(read_range(alloc, blocks, &entry, at, n)?),
        Stored::Folder { .. } => Ok(Bytes::from_vec(Vec::new(alloc))),
    }
}

/// The same of what is stored so, by what is kept of the way of the last reading: of the blocks on the way, those that
/// are kept aren't asked for again.
pub fn read_on_way<B: Blocks>(
    alloc: Global,
    blocks: &mut B,
    way: &mut LastWay,
    stored: &Stored,
    at: u64,
    n: u32,
) -> Result<Bytes, VacBad>
    requires { AreNodeEntries stored.now }
    ensures { ReadsNodeOnWay B.does B.holds B.score_of blocks.old blocks.new way.old way.new
        stored.now at n result }
{
    match *stored {
        Stored::File(entry) => Ok(range_on_way(alloc, blocks, way, &entry, at, n)?),
        Stored::Folder { .. } => Ok(Bytes::from_vec(Vec::new(alloc))),
    }
}
