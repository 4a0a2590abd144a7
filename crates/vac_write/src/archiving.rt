//! A folder becomes the blocks of its archive, and a score.

ghost use Rattle.std.specs.Prelude.{◌≡◌, ◌+◌, ◌-◌, ◌/◌, ◌≤◌, ◌<◌, ◌^◌, ◌++◌, ◌∷◌, [], false, length, take};
ghost use Rattle.std.specs.Prelude.{IsTrue, IfOk, IfErr, OnOk, MatchResult};
ghost use Rattle.vt_base.specs.Faults.{CountsFault};
ghost use Rattle.vac_model.specs.declared.TheConstants.{MIN_BLOCK_SIZE, MAX_BLOCK_SIZE, MAX_NESTING};
ghost use Rattle.vac_write.specs.Archiving.{CountsFailures, WritesArchive, GivesUpArchive, folder_read};
ghost use Rattle.vac_write.specs.Archiving.{is_folder_fault};
ghost use Rattle.vac_write.specs.Puts.{PutsBlocks, GivesUpBlocks, IsOfStore};
ghost use Rattle.vac_write.specs.Walking.{AddsFile, AddsFolder, LeavesOut, IsHandedOn};
ghost use Rattle.vac_write.specs.Walking.{top_of, root_blocks};
ghost use Rattle.vac_write.specs.Walking.{ArchivesItems, GivesUpItems, ArchivesItem, GivesUpItem};
ghost use Rattle.vac_write.specs.Files.{IsUnread, IsWholeFile, GivesUpTree};
ghost use Rattle.vac_write.specs.Listing.{AreListed, StandsAt, joined_path, IfKept, FitsArchivedItem};
ghost use Rattle.vac_model.specs.Archives.{file_shape, root_of};
ghost use Rattle.vac_model.specs.Kept.{path_to};
ghost use Rattle.vt_tree.specs.Entries.{IsTreeEntry};
ghost use Rattle.vt_tree.specs.Roots.{root_bytes};
ghost use Rattle.vt_tree.specs.Writing.{WritesStream};

use crate::listing::{items_at, path_to};
use crate::sources::FileSource;
use crate::streams::{FolderEntries, Streams, pointer_len};
use crate::{Archived, Paths, VacErr};
use std::alloc::Global;
use vac_meta::RecordKind;
use vac_model::MAX_NESTING;
use vt_base::fields::{filled, put};
use vt_base::{Kind, Score, Text};
use vt_out::{Folder, Item, ItemKind};
use vt_tree::{Blocks, Entry, Root, write_stream};

/// Archives a folder (vac(1)) in blocks of at most so many bytes, 512 to 53,248: puts the blocks of
/// its archive, each behind those that it names, and commits them. Each folder is listed once, and
/// each file read once, front to back, to its first empty read; what is in memory grows with the
/// folders on the way to one, and not with files. What is neither a file nor a folder is skipped.
/// A file of which a read fails, and a folder below this one that can't be listed, is left out, with
/// all that is in it; of such a file blocks may have been put, which the archive doesn't name.
/// It ends where this folder can't be listed, at the first refusal of the store, or at the first item
/// that can't be archived, in the order of names; a folder is listed, and its items are tested, before
/// what is in them.
pub fn archive<F: Folder, B: Blocks>(
    alloc: Global,
    folder: &mut F,
    blocks: &mut B,
    bsize: u16,
) -> Result<Archived, VacErr>
    requires least { MIN_BLOCK_SIZE ≤ bsize }
    requires most { bsize ≤ MAX_BLOCK_SIZE }
    ensures archived { IfOk result (WritesArchive B.does B.holds B.score_of blocks.old blocks.new
        bsize (folder_read F.Folder folder.old folder.new)) }
    ensures refused { IfErr result (GivesUpArchive B.does B.holds B.score_of blocks.old blocks.new
        bsize (folder_read F.Folder folder.old folder.new)) }
    ensures cause { CountsFailures result (F.faults folder.old) (F.faults folder.new) }
    ensures stays { IsTrue F.tells → F.holds folder.new ≡ F.holds folder.old }
    ensures paths { IsTrue F.tells → F.may_fail folder.new ≡ F.may_fail folder.old }
{
    let items = items_at(alloc, folder, &[])?;
    let mut walk = Walk {
        alloc,
        bsize,
        path: Vec::new(alloc),
        qid: 1,
        skipped: Vec::new(alloc),
        failed: Vec::new(alloc),
    };
    let top = walk.archive_items(folder, blocks, items)?;
    let score = put_root(alloc, blocks, bsize, &top)?;
    blocks.sync(alloc)?;
    Ok(walk.into_archived(score))
}

/// What an archiving goes by, and what it has noted on its way.
#[derive(Drop)]
struct Walk {
    alloc: Global,
    /// The most bytes of a block.
    bsize: u16,
    /// The names on the way to the folder that is archived.
    path: Vec<Text>,
    /// The number of the next file or folder.
    qid: u64,
    /// The paths of what was skipped, in order.
    skipped: Vec<Text>,
    /// The paths of the files and folders of which a call has failed, in order.
    failed: Vec<Text>,
}

impl Walk {
    /// Archives these items of the folder at the path, as it listed them, and writes its two streams.
    #[cycle(walk)]
    fn archive_items<F: Folder, B: Blocks>(
        &mut self,
        folder: &mut F,
        blocks: &mut B,
        items: Vec<Item>,
    ) -> Result<FolderEntries, VacErr>
        requires least { MIN_BLOCK_SIZE ≤ self.old.bsize }
        requires most { self.old.bsize ≤ MAX_BLOCK_SIZE }
        requires deep { length self.old.path.items ≤ MAX_NESTING }
        requires listed { AreListed F.tells (F.holds folder.old) self.old.path.items items.items }
        ensures archived { IfOk result (ArchivesItems B.does B.score_of blocks.old blocks.new
            F.tells (F.holds folder.old) (F.may_fail folder.old) (F.faults folder.old)
            (F.faults folder.new) self.old self.new) }
        ensures allowed { IfOk result (λ e. IsTreeEntry e.entries × IsTreeEntry e.metadata) }
        ensures refused { IfErr result (GivesUpItems B.does B.score_of blocks.old blocks.new
            F.tells (F.holds folder.old) (F.may_fail folder.old) (F.faults folder.old)
            (F.faults folder.new) self.old) }
        ensures goes_on { IfErr result (λ err. is_folder_fault err ≡ false) }
        ensures stays { IsTrue F.tells → F.holds folder.new ≡ F.holds folder.old }
        ensures paths { IsTrue F.tells → F.may_fail folder.new ≡ F.may_fail folder.old }
    {
        let mut streams = Streams::new(self.alloc);
        for item in items {
            self.archive_item(folder, blocks, item, &mut streams)?;
        }
        streams.write(self.alloc, blocks, self.bsize)
    }

    /// Archives an item of the folder at the path, whose streams these are, or leaves it out.
    #[cycle(walk)]
    fn archive_item<F: Folder, B: Blocks>(
        &mut self,
        folder: &mut F,
        blocks: &mut B,
        item: Item,
        streams: &mut Streams,
    ) -> Result<(), VacErr>
        requires least { MIN_BLOCK_SIZE ≤ self.old.bsize }
        requires most { self.old.bsize ≤ MAX_BLOCK_SIZE }
        requires deep { length self.old.path.items ≤ MAX_NESTING }
        requires stands { IsTrue F.tells → StandsAt (F.holds folder.old)
            (self.old.path.items ++ item.name ∷ []) item.kind }
        requires fits { IfKept item.kind (FitsArchivedItem item) }
        requires few { length streams.old.entries.items / 40 < 2 ^ 32 }
        ensures archived { OnOk result (ArchivesItem B.does B.score_of blocks.old blocks.new
            F.tells (F.holds folder.old) (F.may_fail folder.old) (F.faults folder.old)
            (F.faults folder.new) self.old self.new streams.old streams.new item) }
        ensures refused { IfErr result (GivesUpItem B.does B.score_of blocks.old blocks.new
            F.tells (F.holds folder.old) (F.may_fail folder.old) (F.faults folder.old)
            (F.faults folder.new) self.old item) }
        ensures goes_on { IfErr result (λ err. is_folder_fault err ≡ false) }
        ensures stays { IsTrue F.tells → F.holds folder.new ≡ F.holds folder.old }
        ensures paths { IsTrue F.tells → F.may_fail folder.new ≡ F.may_fail folder.old }
    {
        match item.kind {
            ItemKind::File => self.archive_file(folder, blocks, item, streams),
            ItemKind::Folder => self.archive_folder(folder, blocks, item, streams),
            ItemKind::Other => self.skip(&item),
        }
    }

    /// Archives a folder in the folder at the path, or leaves it out where it can't be listed.
    #[cycle(walk)]
    fn archive_folder<F: Folder, B: Blocks>(
        &mut self,
        folder: &mut F,
        blocks: &mut B,
        item: Item,
        streams: &mut Streams,
    ) -> Result<(), VacErr>
        requires least { MIN_BLOCK_SIZE ≤ self.old.bsize }
        requires most { self.old.bsize ≤ MAX_BLOCK_SIZE }
        requires deep { length self.old.path.items ≤ MAX_NESTING }
        requires kind { item.kind ≡ ItemKind.Folder }
        requires stands { IsTrue F.tells → StandsAt (F.holds folder.old)
            (self.old.path.items ++ item.name ∷ []) item.kind }
        requires fits { FitsArchivedItem item }
        requires few { length streams.old.entries.items / 40 < 2 ^ 32 }
        ensures archived { OnOk result (ArchivesItem B.does B.score_of blocks.old blocks.new
            F.tells (F.holds folder.old) (F.may_fail folder.old) (F.faults folder.old)
            (F.faults folder.new) self.old self.new streams.old streams.new item) }
        ensures refused { IfErr result (GivesUpItem B.does B.score_of blocks.old blocks.new
            F.tells (F.holds folder.old) (F.may_fail folder.old) (F.faults folder.old)
            (F.faults folder.new) self.old item) }
        ensures goes_on { IfErr result (λ err. is_folder_fault err ≡ false) }
        ensures stays { IsTrue F.tells → F.holds folder.new ≡ F.holds folder.old }
        ensures paths { IsTrue F.tells → F.may_fail folder.new ≡ F.may_fail folder.old }
    {
        if self.path.len() >= MAX_NESTING {
            return Err(VacErr::TooDeep(self.path_to(&item)?));
        }
        self.enter(&item)?;
        let items = match items_at(self.alloc, folder, &self.path) {
            Ok(items) => items,
            Err(err) => return self.leave_out(&item, err),
        };
        let qid = self.number()?;
        let inside = self.archive_items(folder, blocks, items)?;
        self.add_folder(item, qid, &inside, streams)
    }

    /// Archives a file of the folder at the path, or leaves it out where it can't be read to its end.
    fn archive_file<F: Folder, B: Blocks>(
        &mut self,
        folder: &mut F,
        blocks: &mut B,
        item: Item,
        streams: &mut Streams,
    ) -> Result<(), VacErr>
        requires least { MIN_BLOCK_SIZE ≤ self.old.bsize }
        requires most { self.old.bsize ≤ MAX_BLOCK_SIZE }
        requires kind { item.kind ≡ ItemKind.File }
        requires stands { IsTrue F.tells → StandsAt (F.holds folder.old)
            (self.old.path.items ++ item.name ∷ []) item.kind }
        requires fits { FitsArchivedItem item }
        requires few { length streams.old.entries.items / 40 < 2 ^ 32 }
        ensures archived { OnOk result (ArchivesItem B.does B.score_of blocks.old blocks.new
            F.tells (F.holds folder.old) (F.may_fail folder.old) (F.faults folder.old)
            (F.faults folder.new) self.old self.new streams.old streams.new item) }
        ensures refused { IfErr result (GivesUpItem B.does B.score_of blocks.old blocks.new
            F.tells (F.holds folder.old) (F.may_fail folder.old) (F.faults folder.old)
            (F.faults folder.new) self.old item) }
        ensures goes_on { IfErr result (λ err. is_folder_fault err ≡ false) }
        ensures stays { IsTrue F.tells → F.holds folder.new ≡ F.holds folder.old }
        ensures paths { IsTrue F.tells → F.may_fail folder.new ≡ F.may_fail folder.old }
    {
        self.enter(&item)?;
        let entry = match write_file(self.alloc, folder, &self.path, blocks, self.bsize) {
            Ok(entry) => entry,
            Err(err) => return self.leave_out(&item, err),
        };
        self.add_file(item, &entry, streams)
    }

    /// What was archived, under this score. The next number fits eight bytes.
    fn into_archived(self, score: Score) -> Archived
        ensures score { result.score ≡ score }
        ensures skipped { result.skipped ≡ self.skipped.items }
        ensures failed { result.failed ≡ self.failed.items }
        ensures few { self.qid < 2 ^ 64 }
    {
        Archived {
            score,
            skipped: Paths::from_vec(self.skipped),
            failed: Paths::from_vec(self.failed),
        }
    }

    /// Notes an item that is neither a file nor a folder.
    fn skip(&mut self, item: &Item) -> Result<(), VacErr>
        ensures noted { OnOk result (self.new.skipped.items ≡ self.old.skipped.items
            ++ path_to (joined_path self.old.path.items) item.now.name ∷ []) }
        ensures failed { self.new.failed.items ≡ self.old.failed.items }
        ensures qid { self.new.qid ≡ self.old.qid }
        ensures path { self.new.path.items ≡ self.old.path.items }
        ensures bsize { self.new.bsize ≡ self.old.bsize }
        ensures err { IfErr result (λ err. err ≡ VacErr.NoMemory) }
    {
        let path = self.path_to(item)?;
        self.skipped.push(path)?;
        Ok(())
    }

    /// Goes on to a file or a folder of the folder at the path.
    fn enter(&mut self, item: &Item) -> Result<(), VacErr>
        ensures path { OnOk result (self.new.path.items
            ≡ self.old.path.items ++ item.now.name ∷ []) }
        ensures left { OnOk result ((self.new.bsize ≡ self.old.bsize)
            × (self.new.qid ≡ self.old.qid)
            × (self.new.skipped.items ≡ self.old.skipped.items)
            × (self.new.failed.items ≡ self.old.failed.items)) }
        ensures err { IfErr result (λ err. err ≡ VacErr.NoMemory) }
    {
        let name = Text::copy_of(self.alloc, item.name.as_slice())?;
        self.path.push(name)?;
        Ok(())
    }

    /// Goes back from a file or a folder of which a call has failed, and notes it. Whatever else it
    /// isn't archived for is handed on.
    fn leave_out(&mut self, item: &Item, err: VacErr) -> Result<(), VacErr>
        ensures noted { OnOk result (LeavesOut self.old self.new item.now err) }
        ensures err { IfErr result (IsHandedOn err) }
    {
        let VacErr::FolderFault = err else {
            return Err(err);
        };
        self.path.pop();
        let path = self.path_to(item)?;
        self.failed.push(path)?;
        Ok(())
    }

    /// The next number, which is taken.
    fn number(&mut self) -> Result<u64, VacErr>
        ensures qid { IfOk result (λ qid. (qid ≡ self.old.qid) × (self.new.qid ≡ qid + 1)) }
        ensures path { self.new.path.items ≡ self.old.path.items }
        ensures bsize { self.new.bsize ≡ self.old.bsize }
        ensures skipped { self.new.skipped.items ≡ self.old.skipped.items }
        ensures failed { self.new.failed.items ≡ self.old.failed.items }
        ensures err { IfErr result (λ err. err ≡ VacErr.NoMemory) }
    {
        let qid = self.qid;
        self.qid = qid.checked_add(1).ok_or(VacErr::NoMemory)?;
        Ok(qid)
    }

    /// Goes back from a file that was written, gives it a number, and adds it to the streams of its
    /// folder.
    fn add_file(&mut self, item: Item, entry: &Entry, streams: &mut Streams) -> Result<(), VacErr>
        requires fits { FitsArchivedItem item }
        requires few { length streams.old.entries.items / 40 < 2 ^ 32 }
        requires entry { IsTreeEntry entry.now }
        ensures added { OnOk result
            (AddsFile self.old self.new streams.old streams.new item entry.now) }
        ensures err { IfErr result (λ err. err ≡ VacErr.NoMemory) }
    {
        self.path.pop();
        let qid = self.number()?;
        streams.add_record(item, RecordKind::File, qid)?;
        streams.add_entry(entry)
    }

    /// Goes back from a folder of this number that was written, and adds it to the streams of the
    /// folder above it.
    fn add_folder(
        &mut self,
        item: Item,
        qid: u64,
        inside: &FolderEntries,
        streams: &mut Streams,
    ) -> Result<(), VacErr>
        requires fits { FitsArchivedItem item }
        requires few { length streams.old.entries.items / 40 < 2 ^ 32 }
        requires entries { IsTreeEntry inside.now.entries }
        requires metadata { IsTreeEntry inside.now.metadata }
        ensures added { OnOk result
            (AddsFolder self.old self.new streams.old streams.new item qid inside.now) }
        ensures err { IfErr result (λ err. err ≡ VacErr.NoMemory) }
    {
        self.path.pop();
        streams.add_record(item, RecordKind::Folder, qid)?;
        streams.add_entry(&inside.entries)?;
        streams.add_entry(&inside.metadata)
    }

    /// The path of an item of the folder at the path.
    fn path_to(&self, item: &Item) -> Result<Text, VacErr>
        ensures { MatchResult result
            (λ text. text ≡ path_to (joined_path self.now.path.items) item.now.name)
            (λ err. err ≡ VacErr.NoMemory) }
    {
        Ok(path_to(self.alloc, &self.path, item.name.as_slice())?)
    }
}

/// Writes the file at a path as a stream.
fn write_file<F: Folder, B: Blocks>(
    alloc: Global,
    folder: &mut F,
    path: &[Text],
    blocks: &mut B,
    bsize: u16,
) -> Result<Entry, VacErr>
    requires least { MIN_BLOCK_SIZE ≤ bsize }
    requires most { bsize ≤ MAX_BLOCK_SIZE }
    ensures written { IfOk result (WritesStream B.does B.holds B.score_of blocks.old blocks.new
        (file_shape bsize) (IsWholeFile F.tells (F.holds folder.old) path.now)) }
    ensures entry { IfOk result IsTreeEntry }
    ensures refused { IfErr result (GivesUpTree B.does B.score_of blocks.old blocks.new
        (file_shape bsize) (IsWholeFile F.tells (F.holds folder.old) path.now)
        (IsUnread F.tells (F.holds folder.old) (F.may_fail folder.old) path.now)) }
    ensures cause { CountsFault is_folder_fault result
        (F.faults folder.old) (F.faults folder.new) }
    ensures stays { IsTrue F.tells → F.holds folder.new ≡ F.holds folder.old }
    ensures paths { IsTrue F.tells → F.may_fail folder.new ≡ F.may_fail folder.old }
{
    let mut source = FileSource {
        folder,
        path,
        at: 0,
    };
    let dsize = bsize;
    let psize = pointer_len(bsize);
    Ok(write_stream(alloc, blocks, &mut source, dsize, psize, false)?)
}

/// Puts the block of the top folder's two entries, and the root that names it.
fn put_root<B: Blocks>(
    alloc: Global,
    blocks: &mut B,
    bsize: u16,
    top: &FolderEntries,
) -> Result<Score, VacErr>
    requires entries { IsTreeEntry top.now.entries }
    requires metadata { IsTreeEntry top.now.metadata }
    ensures put { OnOk result (PutsBlocks B.does blocks.old blocks.new
        (root_blocks B.score_of bsize (top_of top.now))) }
    ensures scored { IfOk result (λ score. score.0
        ≡ B.score_of (root_bytes (root_of B.score_of bsize (top_of top.now)))) }
    ensures refused { IfErr result (GivesUpBlocks B.does blocks.old blocks.new
        (root_blocks B.score_of bsize (top_of top.now))) }
    ensures plain { IfErr result IsOfStore }
{
    // (two entries of 40 bytes, in a block that the root names)
    let mut bytes = [0; 80];
    let at = put(&mut bytes, 0, &top.entries.encode());
    put(&mut bytes, at, &top.metadata.encode());
    let score = blocks.put(alloc, Kind::DIRECTORY, &bytes)?;
    let root = Root {
        name: filled(b"vac"),
        kind: filled(b"rvac"),
        score,
        block_size: bsize,
        prev: blocks.score(&[]),
    };
    Ok(blocks.put(alloc, Kind::ROOT, &root.encode())?)
}
