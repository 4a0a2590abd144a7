//! A folder's two streams: its directory of entries, and the records of its metadata (vac(1)).

ghost use Rattle.std.specs.Prelude.{◌≡◌, ◌*◌, ◌/◌, ◌≤◌, ◌<◌, ◌^◌, ◌++◌, [], IfOk, IfErr, OnOk};
ghost use Rattle.std.specs.Prelude.{length, bit_and};
ghost use Rattle.vt_tree.specs.Entries.{IsTreeEntry, tree_entry_bytes};
ghost use Rattle.vt_tree.specs.Streams.{stream_of, entry_of_stream};
ghost use Rattle.vac_meta.specs.declared.record.Record.{Record};
ghost use Rattle.vac_meta.specs.Records.{record_bytes};
ghost use Rattle.vac_model.specs.declared.TheConstants.{MIN_BLOCK_SIZE, MAX_BLOCK_SIZE};
ghost use Rattle.vac_write.specs.Listing.{FitsArchivedItem};
ghost use Rattle.vac_write.specs.Puts.{PutsBlocks, GivesUpBlocks, IsOfStore};
ghost use Rattle.vac_write.specs.Walking.{WritesStreams, streams_blocks, item_shape};

use crate::VacErr;
use crate::sources::SliceSource;
use std::alloc::Global;
use vac_meta::{Record, RecordKind, encode};
use vt_out::Item;
use vt_tree::{Blocks, ENTRY_LEN, Entry, write_stream};

/// The bytes of a folder's entries and of its metadata, as far as its items were archived.
#[derive(Drop)]
pub(crate) struct Streams {
    entries: Vec<u8>,
    metadata: Vec<u8>,
}

/// The entries of a folder's two streams.
#[derive(Clone, Copy)]
pub(crate) struct FolderEntries {
    /// The one of its entries, a directory.
    pub(crate) entries: Entry,
    /// The one of its metadata, a file.
    pub(crate) metadata: Entry,
}

impl Streams {
    /// The streams of a folder without items.
    pub(crate) fn new(alloc: Global) -> Self
        ensures entries { result.entries.items ≡ [] }
        ensures metadata { result.metadata.items ≡ [] }
    {
        Streams {
            entries: Vec::new(alloc),
            metadata: Vec::new(alloc),
        }
    }

    /// Puts the record of an item behind the others, whose first entry is the next one.
    pub(crate) fn add_record(
        &mut self,
        item: Item,
        kind: RecordKind,
        qid: u64,
    ) -> Result<(), VacErr>
        requires fits { FitsArchivedItem item }
        requires few { length self.old.entries.items / 40 < 2 ^ 32 }
        ensures written { let written : Record = record {
          name = item.name;
          kind = kind;
          entry = length self.old.entries.items / 40;
          mode = bit_and item.mode 511;
          mtime = item.mtime;
          qid = qid;
          uid = item.uid;
          gid = item.gid;
        } in OnOk result (self.new.metadata.items
            ≡ self.old.metadata.items ++ record_bytes written) }
        ensures time { OnOk result (item.mtime < 2 ^ 32) }
        ensures entries { self.new.entries.items ≡ self.old.entries.items }
        ensures err { IfErr result (λ err. err ≡ VacErr.NoMemory) }
    {
        let record = Record {
            name: item.name,
            kind,
            entry: (self.entries.len() / ENTRY_LEN) as u32,
            mode: item.mode & 0o777,
            mtime: item.mtime,
            qid,
            uid: item.uid,
            gid: item.gid,
        };
        encode(&record, &mut self.metadata)?;
        Ok(())
    }

    /// Puts an entry behind the others.
    pub(crate) fn add_entry(&mut self, entry: &Entry) -> Result<(), VacErr>
        requires { IsTreeEntry entry.now }
        ensures written { OnOk result (self.new.entries.items
            ≡ self.old.entries.items ++ tree_entry_bytes entry.now) }
        ensures metadata { self.new.metadata.items ≡ self.old.metadata.items }
        ensures err { IfErr result (λ err. err ≡ VacErr.NoMemory) }
    {
        self.entries.extend_from_slice(&entry.encode())?;
        Ok(())
    }

    /// Writes both streams as trees of blocks, and gives the entries that stand for them.
    pub(crate) fn write<B: Blocks>(
        &self,
        alloc: Global,
        blocks: &mut B,
        bsize: u16,
    ) -> Result<FolderEntries, VacErr>
        requires least { MIN_BLOCK_SIZE ≤ bsize }
        requires most { bsize ≤ MAX_BLOCK_SIZE }
        requires entries { length self.now.entries.items ≤ 2 ^ 40 }
        requires metadata { length self.now.metadata.items ≤ 2 ^ 40 }
        ensures written { IfOk result (WritesStreams B.does B.score_of blocks.old blocks.new
            bsize self.now) }
        ensures allowed { IfOk result (λ e. IsTreeEntry e.entries × IsTreeEntry e.metadata) }
        ensures refused { IfErr result (GivesUpBlocks B.does blocks.old blocks.new
            (streams_blocks B.score_of bsize self.now)) }
        ensures plain { IfErr result IsOfStore }
    {
        let entries = write_bytes(alloc, blocks, &self.entries, bsize, true)?;
        let metadata = write_bytes(alloc, blocks, &self.metadata, bsize, false)?;
        Ok(FolderEntries { entries, metadata })
    }
}

/// Writes bytes as a stream of an archive of this block size.
fn write_bytes<B: Blocks>(
    alloc: Global,
    blocks: &mut B,
    bytes: &[u8],
    bsize: u16,
    is_dir: bool,
) -> Result<Entry, VacErr>
    requires least { MIN_BLOCK_SIZE ≤ bsize }
    requires most { bsize ≤ MAX_BLOCK_SIZE }
    requires short { length bytes.now ≤ 2 ^ 40 }
    ensures written { OnOk result (PutsBlocks B.does blocks.old blocks.new
        (stream_of B.score_of (item_shape bsize is_dir) bytes.now).blocks) }
    ensures entry { IfOk result (λ e. (e
        ≡ entry_of_stream B.score_of (item_shape bsize is_dir) bytes.now)
        × IsTreeEntry e) }
    ensures refused { IfErr result (GivesUpBlocks B.does blocks.old blocks.new
        (stream_of B.score_of (item_shape bsize is_dir) bytes.now).blocks) }
    ensures plain { IfErr result IsOfStore }
{
    let mut source = SliceSource::new(bytes);
    let dsize = leaf_len(bsize, is_dir);
    let psize = pointer_len(bsize);
    Ok(write_stream(alloc, blocks, &mut source, dsize, psize, is_dir)?)
}

/// How many bytes a pointer block has at most: whole scores.
pub(crate) fn pointer_len(bsize: u16) -> u16
    ensures { result ≡ bsize / 20 * 20 }
{
    // 20: the bytes of a score.
    bsize / 20 * 20
}

/// How many bytes a leaf has at most: a directory's has whole entries.
fn leaf_len(bsize: u16, is_dir: bool) -> u16
    ensures { result ≡ (item_shape bsize is_dir).dsize }
{
    // 40: the bytes of an entry.
    if is_dir { bsize / 40 * 40 } else { bsize }
}
