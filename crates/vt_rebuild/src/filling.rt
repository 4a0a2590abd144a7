//! Filling the buckets of a section from the log.

ghost use Rattle.std.specs.Prelude.{◌≡◌, ◌+◌, ◌*◌, ◌<◌, ◌≤◌, ℕ, List, IsTrue, IfErr, OnOk, length};
ghost use Rattle.vt_base.specs.declared.place.Entry.{Entry};
ghost use Rattle.vt_isect.specs.Layout.{InRange};
ghost use Rattle.vt_isect.specs.Section.{IsAtRest};
ghost use Rattle.vt_isect.specs.Sound.{DiskHolds, nothing_known};
ghost use Rattle.vt_model.specs.History.{History};
ghost use Rattle.vt_model.specs.Places.{Setup};
ghost use Rattle.vt_rebuild.specs.Filling.{CanFill, CountsEither, FitsBuckets, HasFilled, PutsBucket};
ghost use Rattle.vt_rebuild.specs.Gathering.{HasItsBlocks, IsGathered, IsInOrder};
ghost use Rattle.vt_log.specs.Faults.{CountsFaults};
ghost use Rattle.vt_rebuild.specs.Building.{NamesDamage};
ghost use Rattle.vt_rebuild.specs.Rebuilt.{HasHistory};
ghost use Rattle.vt_rebuild.specs.Walking.{FaultOrMemory, KeepsLog, TellsOfReading, is_rebuild_fault};

use crate::RebuildBad;
use crate::gathering::Gathered;
use std::sync::ledger::Ledger;
use vt_base::{Scorer, Steps};
use vt_bucket::Full;
use vt_disk::Disk;
use vt_isect::{Section, soundness_is_kept};
use vt_log::Log;
use vt_out::Progress;

/// Fills all buckets of a section, and tells how many of all are filled. No sync is made.
pub(crate) fn fill_section<D: Disk, S: Scorer, L: Ledger, G: Progress>(
    log: &mut Log<D, S>,
    section: &mut Section<D>,
    counts: &[u16],
    gathered: &mut Gathered,
    progress: &mut G,
    steps: &mut Steps<L>,
) -> Result<(), RebuildBad>
    requires rest { IsAtRest section.old }
    requires within { section.old.head.first + section.old.buckets ≤ length counts.now }
    requires total { length counts.now ≡ gathered.old.total }
    requires order { IsInOrder gathered.old }
    ensures filled { (c : Setup) (h : History)
        → CanFill S.score_of D.Disk c h log.old gathered.old
        → OnOk result (HasFilled S.score_of D.Disk c h section.old.head.first
        (section.old.head.first + section.old.buckets) section.new
        × IsGathered S.score_of c h gathered.new) }
    ensures fits { (c : Setup) (h : History)
        → CanFill S.score_of D.Disk c h log.old gathered.old
        → FitsBuckets S.score_of gathered.old.total h → IfErr result FaultOrMemory }
    ensures gathered { OnOk result (IsInOrder gathered.new) }
    ensures total { gathered.new.total ≡ gathered.old.total }
    ensures same { section.new ≡ record section.old { disk = section.new.disk } }
    ensures size { D.size section.new.disk ≡ D.size section.old.disk }
    ensures holds { IsTrue D.tells → DiskHolds D.Disk section.old nothing_known
        → DiskHolds D.Disk section.new nothing_known }
    ensures calls { IsTrue D.tells → D.calls section.new.disk
        ≤ D.calls section.old.disk + 2 * section.old.buckets }
    ensures damage { IfErr result NamesDamage }
    ensures keeps { KeepsLog S.score_of D.Disk log.old log.new }
    ensures faults { CountsEither D.Disk result log.old log.new section.old section.new }
{
    let first = section.head().first;
    let all = counts.len() as u64;
    for i in 0..section.buckets() {
        fill_bucket(log, section, counts, gathered, first + i, steps)?;
        progress.report(u64::from(first + i) + 1, all);
    }
    Ok(())
}

/// Fills a bucket with the entries of its blocks, which it gathers with those of the buckets behind
/// it where that wasn't done.
fn fill_bucket<D: Disk, S: Scorer, L: Ledger>(
    log: &mut Log<D, S>,
    section: &mut Section<D>,
    counts: &[u16],
    gathered: &mut Gathered,
    number: u32,
    steps: &mut Steps<L>,
) -> Result<(), RebuildBad>
    requires rest { IsAtRest section.old }
    requires in_range { InRange section.old.head section.old.buckets number }
    requires number { number < length counts.now }
    requires total { length counts.now ≡ gathered.old.total }
    requires order { IsInOrder gathered.old }
    ensures filled { OnOk result ((entries : List Entry)
        × PutsBucket D.Disk number entries section.old section.new
        × ((c : Setup) (h : History) → CanFill S.score_of D.Disk c h log.old gathered.old
        → HasItsBlocks S.score_of c h number entries)) }
    ensures gathers { (c : Setup) (h : History)
        → CanFill S.score_of D.Disk c h log.old gathered.old
        → OnOk result (IsGathered S.score_of c h gathered.new) }
    ensures fits { (c : Setup) (h : History)
        → CanFill S.score_of D.Disk c h log.old gathered.old
        → FitsBuckets S.score_of gathered.old.total h → IfErr result FaultOrMemory }
    ensures order { OnOk result (IsInOrder gathered.new) }
    ensures total { gathered.new.total ≡ gathered.old.total }
    ensures same { section.new ≡ record section.old { disk = section.new.disk } }
    ensures size { D.size section.new.disk ≡ D.size section.old.disk }
    ensures holds { IsTrue D.tells → DiskHolds D.Disk section.old nothing_known
        → DiskHolds D.Disk section.new nothing_known }
    ensures calls { IsTrue D.tells
        → D.calls section.new.disk ≤ D.calls section.old.disk + 2 }
    ensures damage { IfErr result NamesDamage }
    ensures keeps { KeepsLog S.score_of D.Disk log.old log.new }
    ensures faults { CountsEither D.Disk result log.old log.new section.old section.new }
{
    soundness_is_kept::<D>();
    cover(log, counts, gathered, number, steps)?;
    let bucket = match gathered.bucket(number) {
        Ok(bucket) => bucket,
        Err(Full) => return Err(RebuildBad::IndexFull { bucket: number }),
    };
    match section.fill(&bucket) {
        Ok(()) => Ok(()),
        Err(_) => Err(RebuildBad::Fault),
    }
}

/// Gathers the entries of this bucket and of those behind it, where that wasn't done.
fn cover<D: Disk, S: Scorer, L: Ledger>(
    log: &mut Log<D, S>,
    counts: &[u16],
    gathered: &mut Gathered,
    number: u32,
    steps: &mut Steps<L>,
) -> Result<(), RebuildBad>
    requires number { number < length counts.now }
    requires total { length counts.now ≡ gathered.old.total }
    requires order { IsInOrder gathered.old }
    ensures covered { OnOk result ((gathered.new.first ≤ number) × (number < gathered.new.end)) }
    ensures gathers { (c : Setup) (h : History)
        → CanFill S.score_of D.Disk c h log.old gathered.old
        → OnOk result (IsGathered S.score_of c h gathered.new) }
    ensures undamaged { (h : History) → HasHistory S.score_of D.Disk log.old h
        → IfErr result FaultOrMemory }
    ensures order { OnOk result (IsInOrder gathered.new) }
    ensures total { gathered.new.total ≡ gathered.old.total }
    ensures keeps { KeepsLog S.score_of D.Disk log.old log.new }
    ensures faults { CountsFaults D.Disk is_rebuild_fault result log.old.disks log.new.disks }
    ensures ends_early { IfErr result TellsOfReading }
{
    if number < gathered.first || gathered.end <= number {
        return gathered.refill(log, counts, number, steps);
    }
    Ok(())
}
