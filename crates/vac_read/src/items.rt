//! The items of a folder.

ghost use Rattle.std.specs.Prelude.{◌≡◌, ◌+◌, ◌*◌, ◌<◌, ◌≤◌, ◌^◌, IfOk, IfSome, length};
ghost use Rattle.std.specs.List.{All, AllByRecursion};
ghost use Rattle.vac_meta.specs.Records.{AreRecords, IsRecord, all_spelled, record_bytes, string};
ghost use Rattle.vac_model.specs.declared.TheConstants.{MAX_METADATA};
ghost use Rattle.vac_read.specs.Asking.{ReadsFew, leaf_blocks};
ghost use Rattle.vac_read.specs.Broken.{entry_field};
ghost use Rattle.vac_read.specs.Folders.{KeepsLeaf, TellsNamed, TellsNode, TellsNodes};
ghost use Rattle.vac_read.specs.Folders.{TellsStoredEntries, moved_to};
ghost use Rattle.vac_read.specs.Nodes.{AreNodeEntries, FitsToldItem, IsDirectory, item_of, len_of};

use crate::directory::Directory;
use crate::records::{entry_field, find_named, record_len};
use crate::{Node, Nodes, Stored, VacBad};
use std::alloc::{AllocError, Global};
use vac_meta::{Record, RecordKind, Records};
use vt_base::Text;
use vt_out::{Item, ItemKind};
use vt_tree::{Blocks, Entry};

/// The nodes of a folder's records, of which the first stands at the front of its metadata.
pub(crate) fn nodes_of<B: Blocks>(
    alloc: Global,
    blocks: &mut B,
    entries: Entry,
    records: Records,
) -> Result<Nodes, VacBad>
    requires stream { IsDirectory entries }
    requires each { AllByRecursion IsRecord records }
    requires short { length (all_spelled records) < 2 ^ 63 }
    ensures entries { IfOk result (All (λ n. AreNodeEntries n.stored)) }
    ensures items { IfOk result (All (λ n. FitsToldItem n.item)) }
    ensures reads { ReadsFew B.does B.holds B.score_of blocks.old blocks.new result
        (TellsNodes entries records result)
        (λ map n. n ≤ length records * (2 * leaf_blocks entries)) }
{
    let mut directory = Directory::new(alloc, entries);
    let mut nodes = Vec::with_capacity(alloc, records.as_slice().len())?;
    let mut place = 0;
    for record in records.into_vec() {
        let at = place;
        place += record_len(&record);
        let node = node_of(blocks, &mut directory, record, at)?;
        nodes.push(node)?;
    }
    Ok(Nodes::from_vec(nodes))
}

/// The node of a record at this place of the metadata, with the entries that it names.
pub(crate) fn node_of<B: Blocks>(
    blocks: &mut B,
    directory: &mut Directory,
    item: Record,
    at: usize,
) -> Result<Node, VacBad>
    requires stream { IsDirectory directory.old.stream }
    requires item { IsRecord item }
    requires place { at + length (record_bytes item) < 2 ^ 63 }
    ensures stream { directory.new.stream ≡ directory.old.stream }
    ensures entries { IfOk result (λ n. AreNodeEntries n.stored) }
    ensures item { IfOk result (λ n. FitsToldItem n.item) }
    ensures reads { ReadsFew B.does B.holds B.score_of blocks.old blocks.new result
        (λ map. KeepsLeaf map directory.old → KeepsLeaf map directory.new
        × TellsNode directory.old.stream item (at + length (string item.name) + 1) result map)
        (λ map n. n ≤ 2 * leaf_blocks directory.old.stream) }
{
    // Behind the name and the kind.
    let field = at + 2 + item.name.len() + 1;
    let stored = stored_of(blocks, directory, item.kind, item.entry, field)?;
    let qid = item.qid;
    Ok(Node {
        item: item_of(item),
        qid,
        size: stored.size(),
        stored,
    })
}

/// The item of this name among the records of a folder, with the entries that its record names; None where no record
/// has it.
pub(crate) fn item_named<B: Blocks>(
    alloc: Global,
    blocks: &mut B,
    directory: &mut Directory,
    records: &[Record],
    name: &[u8],
) -> Result<Option<Node>, VacBad>
    requires stream { IsDirectory directory.old.stream }
    requires records { AreRecords records.now }
    requires short { length (all_spelled records.now) ≤ MAX_METADATA }
    ensures stream { directory.new.stream ≡ directory.old.stream }
    ensures entries { IfOk result (λ found. IfSome found (λ n. AreNodeEntries n.stored)) }
    ensures item { IfOk result (λ found. IfSome found (λ n. FitsToldItem n.item)) }
    ensures reads { ReadsFew B.does B.holds B.score_of blocks.old blocks.new result
        (λ map. KeepsLeaf map directory.old → KeepsLeaf map directory.new
        × TellsNamed directory.old.stream records.now name.now result map)
        (λ map n. n ≤ 2 * leaf_blocks directory.old.stream) }
{
    let Some((before, record)) = find_named(records, name) else {
        return Ok(None);
    };
    let found = node_behind(alloc, blocks, directory, before, record)?;
    Ok(Some(found))
}

/// The node of a record behind these, with the entries that it names.
fn node_behind<B: Blocks>(
    alloc: Global,
    blocks: &mut B,
    directory: &mut Directory,
    before: &[Record],
    item: &Record,
) -> Result<Node, VacBad>
    requires stream { IsDirectory directory.old.stream }
    requires each { AllByRecursion IsRecord before.now }
    requires item { IsRecord item.now }
    requires short { length (all_spelled before.now) + length (record_bytes item.now) < 2 ^ 63 }
    ensures stream { directory.new.stream ≡ directory.old.stream }
    ensures entries { IfOk result (λ n. AreNodeEntries n.stored) }
    ensures item { IfOk result (λ n. FitsToldItem n.item) }
    ensures reads { ReadsFew B.does B.holds B.score_of blocks.old blocks.new result
        (λ map. KeepsLeaf map directory.old → KeepsLeaf map directory.new
        × TellsNode directory.old.stream item.now (entry_field before.now item.now) result map)
        (λ map n. n ≤ 2 * leaf_blocks directory.old.stream) }
{
    match stored_of(blocks, directory, item.kind, item.entry, 0) {
        Ok(stored) => Ok(node_with(alloc, item, stored)?),
        Err(bad) => Err(placed(bad, before, item)),
    }
}

/// Why the entries of a record behind these aren't told, with the place of their number where that is told. It is
/// reckoned then alone, since many records may stand before.
fn placed(bad: VacBad, before: &[Record], item: &Record) -> VacBad
    requires each { AllByRecursion IsRecord before.now }
    requires item { IsRecord item.now }
    requires short { length (all_spelled before.now) + length (record_bytes item.now) < 2 ^ 63 }
    ensures { result ≡ moved_to (entry_field before.now item.now) bad }
{
    match bad {
        VacBad::Meta { .. } => VacBad::Meta {
            at: entry_field(before, item),
        },
        bad => bad,
    }
}

/// The node of a record with these entries, in memory of its own.
fn node_with(alloc: Global, item: &Record, stored: Stored) -> Result<Node, AllocError>
    ensures item { IfOk result (λ n. n.item ≡ item_of item.now) }
    ensures qid { IfOk result (λ n. n.qid ≡ item.now.qid) }
    ensures size { IfOk result (λ n. n.size ≡ len_of stored) }
    ensures stored { IfOk result (λ n. n.stored ≡ stored) }
{
    Ok(Node {
        item: item_of(Record {
            name: Text::copy_of(alloc, item.name.as_slice())?,
            kind: item.kind,
            entry: item.entry,
            mode: item.mode,
            mtime: item.mtime,
            qid: item.qid,
            uid: Text::copy_of(alloc, item.uid.as_slice())?,
            gid: Text::copy_of(alloc, item.gid.as_slice())?,
        }),
        qid: item.qid,
        size: stored.size(),
        stored,
    })
}

/// The entries of a directory that a record of this kind names, from this number on; this is the
/// place of the number in the folder's metadata.
fn stored_of<B: Blocks>(
    blocks: &mut B,
    directory: &mut Directory,
    kind: RecordKind,
    number: u32,
    at: usize,
) -> Result<Stored, VacBad>
    requires { IsDirectory directory.old.stream }
    ensures stream { directory.new.stream ≡ directory.old.stream }
    ensures entries { IfOk result AreNodeEntries }
    ensures reads { ReadsFew B.does B.holds B.score_of blocks.old blocks.new result
        (λ map. KeepsLeaf map directory.old → KeepsLeaf map directory.new
        × TellsStoredEntries directory.old.stream kind number at result map)
        (λ map n. n ≤ 2 * leaf_blocks directory.old.stream) }
{
    let number = u64::from(number);
    match kind {
        RecordKind::File => Ok(Stored::File(directory.entry(blocks, number, false, at)?)),
        RecordKind::Folder => {
            let entries = directory.entry(blocks, number, true, at)?;
            let metadata = directory.entry(blocks, number + 1, false, at)?;
            Ok(Stored::Folder { entries, metadata })
        }
    }
}

/// What a record says of an item.
fn item_of(item: Record) -> Item
    ensures { result ≡ item_of item }
{
    Item {
        name: item.name,
        kind: match item.kind {
            RecordKind::File => ItemKind::File,
            RecordKind::Folder => ItemKind::Folder,
        },
        mode: item.mode & 0o777,
        mtime: item.mtime,
        uid: item.uid,
        gid: item.gid,
    }
}
