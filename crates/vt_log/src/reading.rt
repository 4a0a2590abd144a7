//! Reading a block.

ghost use Rattle.std.specs.Prelude.{◌≡◌, ◌≢◌, ◌⊎◌, ◌∷◌, ◌++◌, ◌+◌, ◌<◌, ◌≤◌, ℕ, List, Some, Err, IsTrue, IfOk, IfErr, OnOk, MatchResult, length, drop, slice_get};
ghost use Rattle.vt_base.specs.Damage.{Differ};
ghost use Rattle.vt_base.specs.declared.TheConstants.{MAX_BLOCK};
ghost use Rattle.vt_base.specs.declared.why.FieldValue.{FieldValue};
ghost use Rattle.vt_clump.specs.declared.packed.Packed.{Packed};
ghost use Rattle.vt_clump.specs.Spelling.{Stored};
ghost use Rattle.vt_clump.specs.Clumps.{IsClumpRead};
ghost use Rattle.vt_model.specs.declared.TheConstants.{ARENA_HEAD_LEN, CLUMP_HEADER_LEN};
ghost use Rattle.vt_model.specs.History.{Accepted, History};
ghost use Rattle.vt_model.specs.Places.{place_of};
ghost use Rattle.vt_part.specs.declared.layout.ArenaRegion.{ArenaRegion};
ghost use Rattle.vt_arena.specs.Layout.{Content, IsArenaContent, HasBlocks};
ghost use Rattle.vt_arena.specs.Places.{offset_of};
ghost use Rattle.vt_arena.specs.Reading.{HasHeader, clump_at, is_clump_fault, ReadsClumpAs};
ghost use Rattle.vt_log.specs.Reading.{IsDamagedBy};

use crate::log::Log;
use std::alloc::Global;
use std::sync::ledger::Ledger;
use vt_arena::{ReadBad, has_header};
use vt_base::{Bytes, FieldValue, Key, Kind, Place, Score, Scorer, Steps};
use vt_clump::{Clump, Packed};
use vt_disk::Disk;
use vt_model::CLUMP_HEADER_LEN;

impl<D: Disk, S: Scorer> Log<D, S> {
    ghost use Rattle.vt_log.specs.Answers.{OnlyReadsLog, Spares};
    ghost use Rattle.vt_log.specs.Faults.{CountsFaults};
    ghost use Rattle.vt_log.specs.Log.{setup_of_log, packed_of};
    ghost use Rattle.vt_log.specs.Queue.{IsFirstAt, IsNowhere, spot_of};
    ghost use Rattle.vt_log.specs.Reading.{AnswersRead};
    ghost use Rattle.vt_log.specs.Sound.{IsSoundLog, IsArenaAt};

    /// Reads the block with this key that stands at this place. A queued block is given from the
    /// queue, without a device call. Else one clump is read from its disk, and counted as one step,
    /// where its header can lie at the place: by one device call where the block has at most `size`
    /// bytes, and else by two. The answer is the same, whatever `size` is.
    ///
    /// Damaged says by what value the place, the clump or its key differs from what was wanted: of
    /// an arena that isn't there, that the last one was, or 0 where there is none. Fault says that
    /// a device call failed, and NoMemory that there was no room for the block.
    pub fn read<L: Ledger>(
        &mut self,
        alloc: Global,
        place: Place,
        size: u16,
        key: &Key,
        steps: &mut Steps<L>,
    ) -> Result<Bytes, ReadBad>
        // Each accepted block is given, by its place and key.
        ensures block { (h : History) (i : ℕ) (e : Accepted) → IsTrue D.tells
            → IsSoundLog S.score_of D.Disk self.old h
            → slice_get h i ≡ Some e → place_of (setup_of_log self.old) h i ≡ Some (spot_of place)
            → key.now.kind ≡ e.block.kind → key.now.score.0 ≡ S.score_of e.block.bytes
            → MatchResult result (λ block. block ≡ e.block.bytes)
            (λ bad. (bad ≡ ReadBad.Fault) ⊎ (bad ≡ ReadBad.NoMemory)) }

        // For any place and key the answer is what stands there. The two values of a damage are of
        // one form and differ, where there is an arena.
        ensures answer { AnswersRead S.score_of D.Disk self.old place key.now result }
        ensures differ { 0 < length self.old.layout → (want found : FieldValue)
            → result ≡ Err (ReadBad.Damaged want found) → Differ want found }
        ensures whole { IfOk result (λ block. length block ≤ MAX_BLOCK) }

        // One step is counted where a clump is read, and none else. It makes one read at most where
        // a block is given that has no more than `size` bytes, else two, and changes nothing.
        ensures cost { (r : ArenaRegion) → IsNowhere self.old.queue.places place
            → slice_get self.old.layout place.arena ≡ Some r → HasHeader r.region.len place.offset
            → steps.new ≡ steps.old + 1 }
        ensures free { ((i : ℕ) × IsFirstAt self.old.queue.places place i)
            ⊎ (length self.old.layout ≤ place.arena)
            ⊎ ((r : ArenaRegion) × (slice_get self.old.layout place.arena ≡ Some r)
            × ¬ HasHeader r.region.len place.offset)
            → (steps.new ≡ steps.old) × (self.new ≡ self.old) }
        ensures reads { OnlyReadsLog S.score_of D.Disk 2 self.old self.new }
        ensures once { IfOk result (λ block. length block ≤ size
            → OnlyReadsLog S.score_of D.Disk 1 self.old self.new) }
        ensures spares { (r : ArenaRegion) → slice_get self.old.layout place.arena ≡ Some r
            → Spares r.part self.old.disks self.new.disks }
        ensures cause { CountsFaults D.Disk is_clump_fault result self.old.disks self.new.disks }
    {
        if let Some(index) = self.queue.find(place) {
            return copy_queued(alloc, self.packed(index), key);
        }
        let arenas = self.arenas();
        if place.arena >= arenas {
            return Err(ReadBad::Damaged {
                want: FieldValue::Number(u128::from(arenas.saturating_sub(1))),
                found: FieldValue::Number(u128::from(place.arena)),
            });
        }
        let clump = self.read_clump(alloc, place, size, steps)?;
        check_key(key, clump.kind, clump.score)?;
        Ok(clump.bytes)
    }

    /// Reads the clump at a place of an arena, and counts a step where its header can lie there.
    fn read_clump<L: Ledger>(
        &mut self,
        alloc: Global,
        place: Place,
        size: u16,
        steps: &mut Steps<L>,
    ) -> Result<Clump, ReadBad>
        requires { place.arena < length self.old.layout }
        ensures outside { (r : ArenaRegion) → slice_get self.old.layout place.arena ≡ Some r
            → ¬ HasHeader r.region.len place.offset → (result ≡ Err (ReadBad.Damaged
            (FieldValue.Number ARENA_HEAD_LEN) (FieldValue.Number place.offset)))
            × (self.new ≡ self.old) × (steps.new ≡ steps.old) }
        ensures stored { (r : ArenaRegion) (disk : D) → IsArenaAt self.old place.arena r disk
            → HasHeader r.region.len place.offset → (bytes : List ℕ)
            × (IsTrue D.tells → bytes ≡ clump_at r.region place.offset (D.bytes disk))
            × ReadsClumpAs S.score_of bytes result }
        ensures committed { (r : ArenaRegion) (disk : D) (a : Content)
            (before behind : List Stored) (s : Stored) → IsTrue D.tells
            → IsArenaAt self.old place.arena r disk → IsArenaContent S.score_of r.region.len a
            → HasBlocks r.region a (D.bytes disk) → a.stored ≡ before ++ s ∷ behind
            → place.offset ≡ offset_of a.version before → MatchResult result (IsClumpRead s)
            (λ bad. (bad ≡ ReadBad.Fault) ⊎ (bad ≡ ReadBad.NoMemory)) }
        ensures whole { IfOk result (λ clump. length clump.bytes ≤ MAX_BLOCK) }
        ensures cost { (r : ArenaRegion) → slice_get self.old.layout place.arena ≡ Some r
            → HasHeader r.region.len place.offset → steps.new ≡ steps.old + 1 }
        ensures reads { OnlyReadsLog S.score_of D.Disk 2 self.old self.new }
        ensures once { IfOk result (λ clump. length clump.bytes ≤ size
            → OnlyReadsLog S.score_of D.Disk 1 self.old self.new) }
        ensures spares { (r : ArenaRegion) → slice_get self.old.layout place.arena ≡ Some r
            → Spares r.part self.old.disks self.new.disks }
        ensures cause { CountsFaults D.Disk is_clump_fault result self.old.disks self.new.disks }
    {
        let r = self.layout.as_slice()[place.arena as usize];
        let offset = u64::from(place.offset);
        if has_header(r.region.len, offset) {
            steps.tick();
        }
        let disk = &mut self.parts[r.part as usize].disk;
        vt_arena::read(alloc, disk, r.region, offset, size, &self.scorer)
    }

    /// A queued clump, counted from the first one.
    pub(crate) fn packed(&self, index: usize) -> &Packed
        requires { index < length self.now.queue.places }
        ensures { slice_get (packed_of self.now) index ≡ Some result.now }
    {
        let staged = self.arena.staged();
        if index < staged.len() {
            &staged[index]
        } else {
            self.queue.waiting_block(index - staged.len())
        }
    }
}

/// The block of a queued clump, if it has this key.
fn copy_queued(alloc: Global, packed: &Packed, key: &Key) -> Result<Bytes, ReadBad>
    ensures key { IfOk result (λ _. (packed.now.kind ≡ key.now.kind)
        × (packed.now.score ≡ key.now.score)) }
    ensures block { IfOk result (λ block. block ≡ drop CLUMP_HEADER_LEN packed.now.bytes) }
    ensures whole { IfOk result (λ block. length block ≤ MAX_BLOCK) }
    ensures other { IfErr result (λ bad. (bad ≡ ReadBad.NoMemory)
        ⊎ IsDamagedBy key.now packed.now.kind packed.now.score.0 bad) }
{
    check_key(key, packed.kind, packed.score)?;
    match Bytes::copy_of(alloc, &packed.bytes.as_slice()[CLUMP_HEADER_LEN..]) {
        Ok(block) => Ok(block),
        Err(NoMemory) => Err(ReadBad::NoMemory),
    }
}

/// Tests a clump's type and then its score. The first that isn't the one that is wanted is told as
/// damage.
fn check_key(key: &Key, kind: Kind, score: Score) -> Result<(), ReadBad>
    ensures same { OnOk result ((kind ≡ key.now.kind) × (score ≡ key.now.score)) }
    ensures other { IfErr result (IsDamagedBy key.now kind score.0) }
{
    if kind != key.kind {
        return Err(ReadBad::Damaged {
            want: FieldValue::Number(u128::from(key.kind.wire())),
            found: FieldValue::Number(u128::from(kind.wire())),
        });
    }
    if score != key.score {
        return Err(ReadBad::Damaged {
            want: FieldValue::Score(key.score),
            found: FieldValue::Score(score),
        });
    }
    Ok(())
}
