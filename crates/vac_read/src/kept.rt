//! The folders in which names were looked for.

ghost use Rattle.std.specs.Prelude.{ℕ, ◌≡◌, ◌+◌, ◌*◌, ◌<◌, ◌≤◌, ◌⊎◌, ◌++◌, ◌∷◌, ⊤, [], IfOk, IfSome};
ghost use Rattle.std.specs.Prelude.{MatchBool, MatchOption, OnErr, OnOk, length};
ghost use Rattle.vt_tree.specs.declared.entry.Entry.{Entry};
ghost use Rattle.vac_read.specs.Asking.{EnterAsks, ReadsFew, leaf_blocks};
ghost use Rattle.vac_read.specs.Broken.{LacksRecords};
ghost use Rattle.vac_read.specs.Folders.{KeepsLeaf, TellsNamed};
ghost use Rattle.vac_read.specs.Kept.{IsKeptAt, IsKeptFolder, IsKeptOf, IsRightKept, KeepsFolder};
ghost use Rattle.vac_read.specs.Kept.{StaysKept, all_cost, kept_cost};
ghost use Rattle.vac_read.specs.Nodes.{AreNodeEntries, FitsToldItem};
ghost use Rattle.vac_read.specs.Reading.{AnswersOrTells, FindsItem};
ghost use Rattle.vac_read.specs.declared.TheConstants.{MAX_KEPT};
ghost use Rattle.vac_read.specs.declared.node.Stored.{Stored};

use crate::directory::{Directory, size_of};
use crate::items::item_named;
use crate::records::records_of;
use crate::{KEPT_FOLDER, MAX_KEPT, Node, VacBad};
use std::alloc::{AllocError, Global};
use std::marker::Model;
use vac_meta::Records;
use vt_tree::{Blocks, Entry};

/// A folder of which the records were read.
#[derive(Drop)]
pub(crate) struct KeptFolder {
    metadata: Entry,
    records: Records,
    /// Its entries, with the leaf of them that was read last.
    directory: Directory,
}

impl KeptFolder {
    /// Whether it is the folder of these two entries.
    fn is_of(&self, entries: &Entry, metadata: &Entry) -> bool
        ensures { MatchBool result (IsKeptOf entries.now metadata.now self.now)
            (IsKeptOf entries.now metadata.now self.now → ⊥) }
    {
        is_same(self.directory.stream(), entries) && is_same(&self.metadata, metadata)
    }

    /// The item of this name.
    fn find<B: Blocks>(
        &mut self,
        alloc: Global,
        blocks: &mut B,
        name: &[u8],
    ) -> Result<Option<Node>, VacBad>
        requires { IsKeptFolder self.old }
        ensures same { self.new ≡ record self.old { directory = self.new.directory } }
        ensures stream { self.new.directory.stream ≡ self.old.directory.stream }
        ensures entries { IfOk result (λ found. IfSome found (λ n. AreNodeEntries n.stored)) }
        ensures item { IfOk result (λ found. IfSome found (λ n. FitsToldItem n.item)) }
        ensures reads { ReadsFew B.does B.holds B.score_of blocks.old blocks.new result
            (λ map. KeepsLeaf map self.old.directory → KeepsLeaf map self.new.directory
            × TellsNamed self.old.directory.stream self.old.records name.now result map)
            (λ map n. n ≤ 2 * leaf_blocks self.old.directory.stream) }
    {
        item_named(
            alloc,
            blocks,
            &mut self.directory,
            self.records.as_slice(),
            name,
        )
    }
}

/// What is kept of the folders in which names were looked for, so that the metadata of each is read once for all names
/// in it. A folder is found by its entries, so one of these serves all archives of one store; over another store what
/// it tells would be the first one's. Where one more folder has no room, all others are let go.
#[derive(Drop)]
pub struct Kept {
    folders: Vec<KeptFolder>,
    /// What they count together.
    total: u64,
}

impl Model for Kept {
    ghost use Rattle.std.specs.Prelude.{◌≡◌, List};
    ghost use Rattle.vac_read.specs.declared.kept.KeptFolder.{KeptFolder};
    ghost use Rattle.vac_read.specs.Kept.{AreKept, all_cost};

    ghost Value = { List KeptFolder };

    ghost view = { λ k. k.folders.items };

    ghost invariant = { λ k. AreKept k.folders.items × (k.total ≡ all_cost k.folders.items) };
}

impl Kept {
    /// Nothing is kept.
    pub fn new(alloc: Global) -> Self
        ensures { result ≡ [] }
    {
        Kept {
            folders: Vec::new(alloc),
            total: 0,
        }
    }

    /// Reads the records of this folder, unless they are kept, and says where they are kept.
    pub(crate) fn enter<B: Blocks>(
        &mut self,
        alloc: Global,
        blocks: &mut B,
        entries: Entry,
        metadata: Entry,
    ) -> Result<usize, VacBad>
        requires { AreNodeEntries (Stored.Folder entries metadata) }
        ensures kept { IfOk result (IsKeptAt entries metadata self.new) }
        ensures stays { StaysKept (Stored.Folder entries metadata) self.old self.new }
        ensures reads { ReadsFew B.does B.holds B.score_of blocks.old blocks.new result
            (λ map. IsRightKept map self.old → IsRightKept map self.new
            × AnswersOrTells result (λ _. ⊤) (LacksRecords map entries metadata))
            (EnterAsks (B.score_of []) entries metadata self.old) }
    {
        if let Some(at) = self.place_of(&entries, &metadata) {
            return Ok(at);
        }
        // (before the next one is read, so that what was kept isn't in memory beside it)
        self.make_room(KEPT_FOLDER + size_of(&metadata));
        let records = records_of(alloc, blocks, &entries, &metadata)?;
        let directory = Directory::new(alloc, entries);
        let at = self.keep(KeptFolder {
            metadata,
            records,
            directory,
        })?;
        Ok(at)
    }

    /// The item of this name in the folder that is kept at this place.
    pub(crate) fn find<B: Blocks>(
        &mut self,
        alloc: Global,
        blocks: &mut B,
        at: usize,
        name: &[u8],
    ) -> Result<Option<Node>, VacBad>
        requires { at < length self.old }
        ensures kept { (entries metadata : Entry) (place : ℕ)
            → IsKeptAt entries metadata self.old place → IsKeptAt entries metadata self.new place }
        ensures costs { all_cost self.new ≡ all_cost self.old }
        ensures entries { IfOk result (λ found. IfSome found (λ n. AreNodeEntries n.stored)) }
        ensures item { IfOk result (λ found. IfSome found (λ n. FitsToldItem n.item)) }
        ensures reads { (entries metadata : Entry) → IsKeptAt entries metadata self.old at
            → ReadsFew B.does B.holds B.score_of blocks.old blocks.new result
            (λ map. IsRightKept map self.old → IsRightKept map self.new
            × FindsItem (Stored.Folder entries metadata) name.now result map)
            (λ map n. n ≤ 2 * leaf_blocks entries) }
    {
        self.folders[at].find(alloc, blocks, name)
    }

    /// Where this folder is kept, if it is.
    fn place_of(&self, entries: &Entry, metadata: &Entry) -> Option<usize>
        ensures { MatchOption result (KeepsFolder entries.now metadata.now self.now → ⊥)
            (IsKeptAt entries.now metadata.now self.now) }
    {
        place_in(&self.folders, entries, metadata)
    }

    /// Lets all folders go, unless one that counts so much has room beside them.
    fn make_room(&mut self, cost: u64)
        ensures room { cost ≤ MAX_KEPT → all_cost self.new + cost ≤ MAX_KEPT }
        ensures left { (self.new ≡ self.old) ⊎ (self.new ≡ []) }
        ensures stays { all_cost self.old + cost ≤ MAX_KEPT → self.new ≡ self.old }
    {
        if cost > MAX_KEPT - self.total {
            self.folders.clear();
            self.total = 0;
        }
    }

    /// Keeps one folder more, behind the others, and says where.
    fn keep(&mut self, folder: KeptFolder) -> Result<usize, AllocError>
        requires folder { IsKeptFolder folder }
        requires room { all_cost self.old + kept_cost folder ≤ MAX_KEPT }
        ensures ok { OnOk result (self.new ≡ self.old ++ folder ∷ []) }
        ensures at { IfOk result (λ at. at ≡ length self.old) }
        ensures err { OnErr result (self.new ≡ self.old) }
    {
        let at = self.folders.len();
        let cost = KEPT_FOLDER + size_of(&folder.metadata);
        self.folders.push(folder)?;
        self.total += cost;
        Ok(at)
    }
}

/// Where the folder of these two entries is among these, if it is.
fn place_in(folders: &[KeptFolder], entries: &Entry, metadata: &Entry) -> Option<usize>
    ensures { MatchOption result (KeepsFolder entries.now metadata.now folders.now → ⊥)
        (IsKeptAt entries.now metadata.now folders.now) }
{
    let mut at = 0;
    for folder in folders {
        if folder.is_of(entries, metadata) {
            return Some(at);
        }
        at += 1;
    }
    None
}

/// Whether two entries are one.
fn is_same(a: &Entry, b: &Entry) -> bool
    ensures { MatchBool result (a.now ≡ b.now) (a.now ≡ b.now → ⊥) }
{
    *a == *b
}
