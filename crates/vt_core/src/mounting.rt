//! Finding the store of devices.

ghost use Rattle.std.specs.Prelude.{◌≡◌, ◌⊎◌, ◌+◌, ◌^◌, ◌<◌, ◌≤◌, ℕ, All, IsTrue, IfOk, IfErr, MatchResult, None, Some, List, [], ◌∷◌, ◌++◌, length, map, sum};
ghost use Rattle.vt_base.specs.declared.mount.MountBad.{MountBad};
ghost use Rattle.vt_base.specs.declared.mount.MountField.{MountField};
ghost use Rattle.vt_model.specs.History.{History};
ghost use Rattle.vt_model.specs.Places.{Setup};
ghost use Rattle.vt_part.specs.Parts.{disk_of, table_of, tables_of};
ghost use Rattle.vt_part.specs.Table.{arenas_end};
ghost use Rattle.vt_log.specs.Log.{IsMountedLog};
ghost use Rattle.vt_log.specs.Logs.{arena_count};
ghost use Rattle.vt_core.specs.Files.{all_of};
ghost use Rattle.vt_core.specs.Mounting.{devices_in, devices_after, tables_in, IsLogOf, KeepsLimits, LeavesStanding, MountsStore};
ghost use Rattle.vt_core.specs.Opening.{AgreeWith, AreHeld, IsBeside, IsLogFound, IsMountOf, RefusesBeside, TestsHeads, TestsMarks, TestsParts, beside_after, buckets_in_each, with_log};
ghost use Rattle.vt_recover.specs.Refusals.{CountsRefusal};
ghost use Rattle.vt_core.specs.Refusals.{IsTally, PassesOrRefuses, RefusesToMount, wrong_head};

use crate::laws::what_is_read_is_a_prefix;
use crate::store::Core;
use crate::{MOST_ARENAS, MOST_BUCKETS};
use std::alloc::Global;
use vt_base::{MountBad, MountField, Scorer};
use vt_bloom::{Bits, Bloom};
use vt_disk::Disk;
use vt_isect::{Head, Section};
use vt_log::Log;
use vt_mount_errors::of_log;
use vt_part::Part;
use vt_recover::{
    Devices, close_sections, close_shards, device_of, least_mark, open_filter, open_memory,
    open_sections, read_back,
};
use vt_shard::Sizes;

impl<D: Disk, S: Scorer + Drop> Core<D, S> {
    /// Finds the store of these devices. It syncs each of them, finds the log, the sections and the
    /// filter, and then reads the log's directory back from its end to the least mark, to find the
    /// entries that the sections lack and to set the bits of their scores. Without a filter's
    /// device that mark is 0. There is room for so many sessions, and each shard keeps as much in
    /// memory as `sizes` say.
    ///
    /// It is refused by the first of these tests that fails: how many arenas there are; two
    /// partitions of one name, and each arena; each section; the filter; how many buckets there
    /// are; what each section's head says; the marks; and, while the log is read back, its
    /// directory and how many blocks each bucket has. A refusal hands the devices back. It writes
    /// nothing but entries of the log's blocks into their buckets, where more than 1,024 of a
    /// section lack theirs.
    pub fn mount(
        alloc: Global,
        devices: Devices<D>,
        sizes: Sizes,
        sessions: u32,
        scorer: S,
    ) -> Result<Self, (MountBad, Devices<D>)>
        requires many { length devices.parts.items + length devices.sections.items + 1 < 2 ^ 32 }
        requires rooms { All (λ part. arenas_end (table_of part) ≤ D.size (disk_of part))
            devices.parts.items }
        requires some_arena { 0 < arena_count (tables_in devices) }
        requires some_section { 0 < length devices.sections.items }
        requires lumps { 0 < sizes.lumps }
        requires clean { 0 < sizes.clean }

        // The store has the log that is read, and on devices that stand for prefixes of one legal
        // history nothing but a fault and want of memory keeps it from being found.
        ensures mounts { IfOk result (MountsStore S.score_of D.Disk (tables_in devices)
            (devices_in devices) sizes sessions) }
        ensures found { (c : Setup) (h g : History) (base : ℕ) → IsTrue D.tells
            → IsLogOf S.score_of D.Disk (tables_in devices) (devices_in devices) c h g base
            → KeepsLimits (tables_in devices) c → IfErr result (λ refusal.
            (refusal.0 ≡ MountBad.Fault) ⊎ (refusal.0 ≡ MountBad.NoMemory)) }

        // When it returns, whatever calls failed, a second crash loses nothing more.
        ensures standing { IsTrue D.tells → LeavesStanding S.score_of D.Disk (tables_in devices)
            (devices_in devices) (devices_after result) }

        // A refusal has its cause, whatever the devices hold, and hands them back.
        ensures refused { IfErr result
            (λ refusal. RefusesToMount S.score_of D.Disk (tables_in devices)
            (devices_in devices) refusal.0 refusal.1) }
    {
        let Devices {
            parts,
            sections,
            filter,
        } = devices;
        let part = parts.len() as u32;
        if let Err(bad) = test_arenas(&parts) {
            let devices = Devices {
                parts,
                sections,
                filter,
            };
            return Err((bad, devices));
        }
        match vt_log::mount(alloc, parts, scorer) {
            Ok(log) => open(alloc, log, sections, filter, part, sizes, sessions),
            Err((bad, parts)) => {
                let bad = of_log(&parts, bad);
                let devices = Devices {
                    parts,
                    sections,
                    filter,
                };
                Err((bad, devices))
            }
        }
    }
}

/// Opens the sections and the filter beside a log, reads it back, and makes a store of them. The
/// first section is this part of it.
fn open<D: Disk, S: Scorer + Drop>(
    alloc: Global,
    mut log: Log<D, S>,
    sections: Vec<D>,
    filter: Option<D>,
    part: u32,
    sizes: Sizes,
    sessions: u32,
) -> Result<Core<D, S>, (MountBad, Devices<D>)>
    requires many { part + length sections.items + 1 < 2 ^ 32 }
    requires mounted { IsMountedLog log }
    requires part { part ≡ length log.disks }
    requires some_arena { 0 < length log.layout }
    requires some_section { 0 < length sections.items }
    requires lumps { 0 < sizes.lumps }
    requires clean { 0 < sizes.clean }
    ensures { (before : List D)
        → IsLogFound S.score_of D.Disk before sections.items filter log
        → IsMountOf S.score_of D.Disk log.tables (with_log before sections.items filter)
        sizes sessions result }
{
    what_is_read_is_a_prefix::<D>();
    vt_bloom::saved_filters_are_told_apart();
    vt_model::laws::base_is_free();
    vt_model::laws::first_blocks_are_legal();
    vt_shard::base_is_free::<D>();
    vt_shard::files_agree::<D>();
    vt_shard::no_block_lacks::<D>();
    let beside = match open_beside(alloc, sections, filter, part, log.durable()) {
        Ok(beside) => beside,
        Err((bad, sections, filter)) => return Err((bad, hand_back(log, sections, filter))),
    };
    let Beside {
        sections,
        room,
        bloom,
        mut bits,
    } = beside;
    let (mut shards, room, waiting) = match open_memory(alloc, sections, sizes, sessions, room) {
        Ok(opened) => opened,
        Err(sections) => {
            let devices = hand_back(log, sections, device_of(bloom));
            return Err((MountBad::NoMemory, devices));
        }
    };
    let least = least_mark(&shards, &bloom);
    if let Err(bad) = read_back(&mut log, &mut shards, &mut bits, least, part) {
        let sections = close_shards(shards, room);
        return Err((bad, hand_back(log, sections, device_of(bloom))));
    }
    Ok(Core {
        synced: log.durable(),
        log,
        shards,
        bloom,
        bits,
        waiting,
        room,
    })
}

/// All devices, where the sections' and the filter's are closed.
fn hand_back<D: Disk, S: Scorer + Drop>(
    log: Log<D, S>,
    sections: Vec<D>,
    filter: Option<D>,
) -> Devices<D>
    ensures devices { devices_in result ≡ with_log log.disks sections.items filter }
    ensures tables { tables_in result ≡ log.tables }
{
    Devices {
        parts: log.into_devices(),
        sections,
        filter,
    }
}

/// What stands beside the log of a store: its sections, with the memory to hand their devices back
/// in, and its filter with its bits.
struct Beside<D: Disk> {
    sections: Vec<Section<D>>,
    // (the list that the devices came in, emptied: handing them back takes no memory)
    room: Vec<D>,
    /// The filter as it is saved, where the store has a device for it.
    bloom: Option<Bloom<D>>,
    /// The bits that were saved; without a device 2^16 of them, none set.
    bits: Bits,
}

/// Opens the sections and the filter, and tests them on a log of so many blocks. A refusal hands
/// their devices back.
fn open_beside<D: Disk>(
    alloc: Global,
    devices: Vec<D>,
    filter: Option<D>,
    part: u32,
    len: u64,
) -> Result<Beside<D>, (MountBad, Vec<D>, Option<D>)>
    requires { part + length devices.items < 2 ^ 32 }
    ensures opened { IfOk result (IsBeside D.Disk part len devices.items filter) }
    ensures refused { IfErr result (λ refusal. RefusesBeside D.Disk part len devices.items filter
        refusal.0) }
    ensures found { (score : List ℕ → List ℕ) (c : Setup) (g : History) → IsTrue D.tells
        → AgreeWith score D.Disk c g devices.items filter → length g ≡ len
        → IfErr result (λ refusal. (refusal.0 ≡ MountBad.Fault)
        ⊎ (refusal.0 ≡ MountBad.NoMemory)) }
    ensures held { AreHeld D.Disk (with_log [] devices.items filter) (beside_after [] result) }
    ensures counts { MatchResult result (λ _. map D.faults (all_of (beside_after [] result))
        ≡ map D.faults (all_of (with_log [] devices.items filter)))
        (λ refusal. CountsRefusal refusal.0
        (map D.faults (all_of (with_log [] devices.items filter)))
        (map D.faults (all_of (beside_after [] result)))) }
{
    vt_bloom::saved_filters_are_told_apart();
    let (sections, room) = match open_sections(alloc, devices, part) {
        Ok(opened) => opened,
        Err((bad, devices)) => return Err((bad, devices, filter)),
    };
    let (bloom, bits) = match open_filter(alloc, filter, part + sections.len() as u32) {
        Ok(opened) => opened,
        Err((bad, filter)) => return Err((bad, close_sections(sections, room), filter)),
    };
    if let Err(bad) = test_parts(&sections, &bloom, part, len) {
        return Err((bad, close_sections(sections, room), device_of(bloom)));
    }
    Ok(Beside {
        sections,
        room,
        bloom,
        bits,
    })
}

/// Tests how many buckets there are, what the heads of the sections say, and the marks, on a log of
/// so many blocks.
fn test_parts<D: Disk>(
    sections: &[Section<D>],
    bloom: &Option<Bloom<D>>,
    part: u32,
    len: u64,
) -> Result<(), MountBad>
    requires { part + length sections.now < 2 ^ 32 }
    ensures { TestsParts part sections.now bloom.now len result }
{
    let buckets = test_buckets(sections, part)?;
    test_heads(sections, part, buckets)?;
    test_marks(sections, bloom, part, len)
}

/// How many of something parts have so far, and with which of them they first passed a limit, if
/// they did.
#[derive(Drop)]
struct Tally {
    /// How many all parts so far have, also where that is above the limit.
    sum: u64,
    /// The part with which the limit was passed.
    past: Option<u32>,
}

impl Tally {
    /// Adds what the next part has. The sum goes on behind the limit, since the refusal tells all
    /// of it.
    fn add(&mut self, part: u32, count: u32, most: u32)
        requires { self.old.sum + count < 2 ^ 64 }
        ensures { (first : ℕ) (counts : List ℕ) → IsTally most first counts self.old
            → part ≡ first + length counts → IsTally most first (counts ++ count ∷ []) self.new }
    {
        self.sum += u64::from(count);
        if self.past.is_some() {
            return;
        }
        if self.sum > u64::from(most) {
            self.past = Some(part);
        }
    }

    /// Refuses the part that passed the limit, if one did.
    fn test(&self, field: MountField, most: u32) -> Result<u32, MountBad>
        requires { self.now.past ≡ None → self.now.sum ≤ most }
        ensures { (first : ℕ) (counts : List ℕ) → IsTally most first counts self.now
            → PassesOrRefuses field most first counts result }
    {
        match self.past {
            Some(part) => Err(disagree(part, field, self.sum, u64::from(most))),
            None => Ok(self.sum as u32),
        }
    }
}

/// The partitions have no more arenas than a store may have.
pub fn test_arenas<D>(parts: &[Part<D>]) -> Result<u32, MountBad>
    requires { length parts.now < 2 ^ 32 }
    ensures { PassesOrRefuses MountField.Arenas MOST_ARENAS 0
        (map (λ t. t.count) (tables_of parts.now)) result }
{
    let mut tally = Tally { sum: 0, past: None };
    for i in 0..parts.len() {
        tally.add(i as u32, parts[i].count(), MOST_ARENAS);
    }
    tally.test(MountField::Arenas, MOST_ARENAS)
}

/// The sections have no more buckets than a store may have. It gives how many they have.
pub fn test_buckets<D: Disk>(sections: &[Section<D>], part: u32) -> Result<u32, MountBad>
    requires { part + length sections.now < 2 ^ 32 }
    ensures { PassesOrRefuses MountField.Buckets MOST_BUCKETS part
        (map (λ s. s.buckets) sections.now) result }
{
    let mut tally = Tally { sum: 0, past: None };
    for i in 0..sections.len() {
        tally.add(part + i as u32, sections[i].buckets(), MOST_BUCKETS);
    }
    tally.test(MountField::Buckets, MOST_BUCKETS)
}

/// The heads say that the sections are in use (state 1) and divide the buckets among them in order.
pub fn test_heads<D: Disk>(sections: &[Section<D>], part: u32, total: u32) -> Result<(), MountBad>
    requires many { part + length sections.now < 2 ^ 32 }
    requires total { total ≡ sum (buckets_in_each sections.now) }
    ensures { TestsHeads part sections.now result }
{
    let mut first = 0;
    for i in 0..sections.len() {
        let section = &sections[i];
        test_head(
            &section.head(),
            part + i as u32,
            first,
            section.buckets(),
            total,
        )?;
        first += section.buckets();
    }
    Ok(())
}

/// Tests what the head of a section says, and names the first field that is wrong: it is in use
/// (state 1), its first bucket is this one, it has `count` buckets, and all sections have `total`.
fn test_head(head: &Head, part: u32, first: u32, count: u32, total: u32) -> Result<(), MountBad>
    ensures { MatchResult result (λ _. wrong_head part first count total head.now ≡ None)
        (λ bad. wrong_head part first count total head.now ≡ Some bad) }
{
    if head.state != 1 {
        return Err(disagree(part, MountField::State, u64::from(head.state), 1));
    }
    if head.first != first {
        return Err(disagree(
            part,
            MountField::First,
            u64::from(head.first),
            u64::from(first),
        ));
    }
    if head.count != count {
        return Err(disagree(
            part,
            MountField::Count,
            u64::from(head.count),
            u64::from(count),
        ));
    }
    if head.total != total {
        return Err(disagree(
            part,
            MountField::Total,
            u64::from(head.total),
            u64::from(total),
        ));
    }
    Ok(())
}

/// No mark is above the log's length.
fn test_marks<D: Disk>(
    sections: &[Section<D>],
    bloom: &Option<Bloom<D>>,
    part: u32,
    len: u64,
) -> Result<(), MountBad>
    requires { part + length sections.now < 2 ^ 32 }
    ensures { TestsMarks part sections.now bloom.now len result }
{
    for i in 0..sections.len() {
        test_mark(part + i as u32, sections[i].mark(), len)?;
    }
    match bloom {
        Some(bloom) => test_mark(part + sections.len() as u32, bloom.mark(), len),
        None => Ok(()),
    }
}

/// Refuses a mark beyond the log's end: entries or bits of blocks that aren't there.
fn test_mark(part: u32, mark: u64, len: u64) -> Result<(), MountBad>
    ensures { MatchResult result (λ _. mark ≤ len)
        (λ bad. (len < mark) × (bad ≡ MountBad.Disagree part MountField.Mark mark len)) }
{
    if mark > len {
        return Err(disagree(part, MountField::Mark, mark, len));
    }
    Ok(())
}

/// The refusal that names a part's field, what it holds and what it had to hold.
fn disagree(part: u32, field: MountField, found: u64, want: u64) -> MountBad
    ensures { result ≡ MountBad.Disagree part field found want }
{
    MountBad::Disagree {
        part,
        field,
        found: u128::from(found),
        want: u128::from(want),
    }
}
