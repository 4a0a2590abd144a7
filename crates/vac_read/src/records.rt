//! The records of a folder's items.

ghost use Rattle.std.specs.Prelude.{◌≡◌, ◌+◌, ◌<◌, ◌≤◌, ◌^◌, None, [], IfOk, OnOk, MatchOption, length, take};
ghost use Rattle.std.specs.List.{AllByRecursion};
ghost use Rattle.vt_tree.specs.Content.{size_of};
ghost use Rattle.vac_meta.specs.Records.{AreRecords, Ascend, FitsRecord, IsRecord};
ghost use Rattle.vac_meta.specs.Records.{all_spelled, record_bytes};
ghost use Rattle.vac_model.specs.declared.TheConstants.{MAX_METADATA};
ghost use Rattle.vac_read.specs.Asking.{ReadsFew, stream_blocks};
ghost use Rattle.vac_read.specs.Broken.{entry_field};
ghost use Rattle.vac_read.specs.Folders.{IsNamed, IsNamedAt, TellsRecords};
ghost use Rattle.vac_read.specs.Nodes.{AreNodeEntries, named};
ghost use Rattle.vac_read.specs.declared.node.Stored.{Stored};

use crate::VacBad;
use crate::directory::size_of;
use std::alloc::Global;
use vac_meta::{MetaErr, Record, Records, decode};
use vac_model::{MAX_FILE, MAX_METADATA};
use vt_tree::{Blocks, Entry, TreeErr, read_range};

/// The records of a folder's metadata.
pub(crate) fn records_of<B: Blocks>(
    alloc: Global,
    blocks: &mut B,
    entries: &Entry,
    metadata: &Entry,
) -> Result<Records, VacBad>
    requires { AreNodeEntries (Stored.Folder entries.now metadata.now) }
    ensures reads { ReadsFew B.does B.holds B.score_of blocks.old blocks.new result
        (TellsRecords entries.now metadata.now result)
        (λ map n. n ≤ stream_blocks (B.score_of []) metadata.now map) }
    ensures records { IfOk result AreRecords }
    ensures short { IfOk result (λ records. length (all_spelled records)
        ≤ size_of metadata.now) }
    ensures most { OnOk result (size_of metadata.now ≤ MAX_METADATA) }
{
    let size = size_of(metadata);
    if size_of(entries) > MAX_FILE || size > MAX_METADATA as u64 {
        return Err(VacBad::Tree(TreeErr::TooLong));
    }
    let bytes = read_range(alloc, blocks, metadata, 0, size as u32)?;
    match decode(alloc, front(bytes.as_slice(), size as usize)) {
        Ok(records) => Ok(records),
        Err(MetaErr::Bad { at, .. }) => Err(VacBad::Meta { at }),
        Err(MetaErr::NoMemory) => Err(VacBad::NoMemory),
    }
}

/// The record of this name, and those before it; None where no record has it. They are searched by halving, since
/// they ascend by name.
pub(crate) fn find_named<'a>(
    records: &'a [Record],
    name: &[u8],
) -> Option<(&'a [Record], &'a Record)>
    requires { Ascend None records.now }
    ensures { MatchOption result (named name.now records.now ≡ None)
        (λ found. IsNamed records.now name.now found.0.now found.1.now) }
{
    let Some(number) = place_named(records, name) else {
        return None;
    };
    Some((&records[..number], &records[number]))
}

/// The number of the record of this name, if one has it.
fn place_named(records: &[Record], name: &[u8]) -> Option<usize>
    requires { Ascend None records.now }
    ensures { MatchOption result (named name.now records.now ≡ None)
        (IsNamedAt records.now name.now) }
{
    match records.binary_search_by(|record| record.name.as_slice().cmp(name)) {
        Ok(number) => Some(number),
        Err(_) => None,
    }
}

/// Where the number of a record's entry stands in the metadata, behind these records.
pub(crate) fn entry_field(before: &[Record], item: &Record) -> usize
    requires each { AllByRecursion IsRecord before.now }
    requires item { IsRecord item.now }
    requires short { length (all_spelled before.now) + length (record_bytes item.now) < 2 ^ 63 }
    ensures { result ≡ entry_field before.now item.now }
{
    let mut place = 0;
    for record in before {
        place += record_len(record);
    }
    // Behind the name and the kind.
    place + 2 + item.name.len() + 1
}

/// The first bytes, so many, or all where there are fewer.
fn front(bytes: &[u8], n: usize) -> &[u8]
    ensures { result.now ≡ take n bytes.now }
{
    &bytes[..n.min(bytes.len())]
}

/// How many bytes a record has.
pub(crate) fn record_len(item: &Record) -> usize
    requires { FitsRecord item.now }
    ensures { result ≡ length (record_bytes item.now) }
{
    // 27: three lengths of 2, kind 1, entry 4, mode 4, mtime 4, qid 8.
    27 + item.name.len() + item.uid.len() + item.gid.len()
}
