//! What holds of stores between their events, and of their runs.

ghost use Rattle.std.specs.Prelude.{◌≡◌, ◌≤◌, ◌^◌, ℕ, All, IsTrue, List, None, Some, length, slice_get};
ghost use Rattle.vt_base.specs.declared.mount.MountBad.{MountBad};
ghost use Rattle.vt_model.specs.History.{History};
ghost use Rattle.vt_model.specs.Legal.{IsLegal};
ghost use Rattle.vt_model.specs.Places.{Setup};
ghost use Rattle.vt_bloom.specs.Bloom.{BloomState};
ghost use Rattle.vt_isect.specs.declared.head.Head.{Head};
ghost use Rattle.vt_part.specs.Layout.{layout_of};
ghost use Rattle.vt_part.specs.Table.{Table};
ghost use Rattle.vt_log.specs.Logs.{LogStandsFor};
ghost use Rattle.vt_log.specs.Sound.{AreImagesOf};
ghost use Rattle.vt_shard.specs.Shard.{ShardState};
ghost use Rattle.vt_mount_errors.specs.MountErrors.{NamesTwo};
ghost use Rattle.vt_core.specs.declared.event.Event.{Event};
ghost use Rattle.vt_core.specs.declared.event.Out.{Out};
ghost use Rattle.vt_core.specs.Core.{CoreState, setup_of, devices_of, machine_of};
ghost use Rattle.vt_core.specs.Crashing.{Act, Lives, LivesMachine, MayTurnInto, Recovers};
ghost use Rattle.vt_core.specs.Files.{DeviceFiles, PerDevice, AreImages};
ghost use Rattle.vt_core.specs.Machine.{Crashes};
ghost use Rattle.vt_core.specs.Mounting.{EachStands, AllStandFor, IsHeadRead, IsLogOf, IsMarkRead, IsReadAs, IsSetupOf};
ghost use Rattle.vt_core.specs.Refusals.{IsRefusedMount};
ghost use Rattle.vt_core.specs.Sound.{IsSound};
ghost use Rattle.vt_core.specs.Stands.{ArePartitions, StandsFor, StandForPrefix};
ghost use Rattle.vt_core.specs.Steps.{KeepsStore, Runs, RunsMachine};

use vt_disk::Disk;

/// Between two events a crash leaves devices that, taken together, stand for a prefix of the
/// history that has all durable blocks. The log alone says for which: the sections and the filter
/// go with each prefix that has them.
pub fn crash_gives_a_prefix<D: Disk>()
    ensures prefix { (score : List ℕ → List ℕ) (k : CoreState D) (h : History) (files : DeviceFiles)
        → IsSound score D.Disk k h → AreImages D.Disk (devices_of k) files
        → StandForPrefix score (setup_of k) k.log.tables k.log.durable files h }
    ensures each { (score : List ℕ → List ℕ) (k : CoreState D) (h : History) (files : DeviceFiles)
        (n : ℕ) → IsSound score D.Disk k h
        → AreImagesOf D.Disk (devices_of k).sections files.sections
        → AreImagesOf D.Disk (devices_of k).filter files.filter
        → k.log.durable ≤ n → n ≤ length h
        → ArePartitions k.log.tables files.partitions
        → LogStandsFor score (setup_of k) (layout_of k.log.tables) files.partitions h n
        → StandsFor score (setup_of k) k.log.tables files h n }
{
    vt_log::crash_gives_a_prefix::<D>();
    vt_shard::files_agree::<D>();
    vt_bloom::crash_gives_old_or_new::<D>();
    vt_bloom::true_marks_stay();
}

/// A store that is mounted behind a crash, at a moment of an event or between two, is the machine
/// behind a crash: it has a prefix of the history with every synced block, and its devices are
/// sound for it.
pub fn recovery_is_a_crash<D: Disk>()
    ensures { (score : List ℕ → List ℕ) (old during again : CoreState D) (h : History)
        → IsTrue D.tells → IsSound score D.Disk old h → MayTurnInto score D.Disk old during
        → Recovers score D.Disk old during again → (g : History)
        × Crashes (machine_of old h) (machine_of again g) × IsSound score D.Disk again g }
{
    crash_gives_a_prefix::<D>();
    vt_part::partitions_are_told_apart();
}

/// A run of events is a run of the machine, from each history for which the devices are sound.
pub fn runs_are_runs_of_the_machine<D: Disk>()
    ensures { (score : List ℕ → List ℕ) (events : List Event) (outs : List Out)
        (old new : CoreState D) (h : History) → IsTrue D.tells → IsSound score D.Disk old h
        → Runs score D.Disk events outs old new → (next : History)
        × RunsMachine score events outs (machine_of old h) (machine_of new next)
        × IsSound score D.Disk new next }
{}

/// A run of events with crashes is one of the machine, too: what was accepted is never other than a
/// prefix of what it was, with all that a sync covered.
pub fn lives_are_lives_of_the_machine<D: Disk>()
    ensures { (score : List ℕ → List ℕ) (acts : List Act) (old new : CoreState D) (h : History)
        → IsTrue D.tells → IsSound score D.Disk old h → Lives score D.Disk acts old new
        → (next : History) × LivesMachine score acts (machine_of old h) (machine_of new next)
        × IsSound score D.Disk new next }
{
    recovery_is_a_crash::<D>();
}

/// Of devices of which every combination of images stands for a prefix of one history, what is read
/// is one of these prefixes, and the sections and the filter agree with it.
pub fn what_is_read_is_a_prefix<D: Disk>()
    ensures { (score : List ℕ → List ℕ) (c : Setup) (tables : List Table)
        (devices : PerDevice D) (h g : History) (base : ℕ) → IsTrue D.tells
        → All (λ r. r.region.len ≤ 2 ^ 30) (layout_of tables)
        → IsLogOf score D.Disk tables devices c h g base
        → IsReadAs score D.Disk c tables devices h g base }
{
    vt_log::logs_are_told_apart();
}

/// What a store leaves, at any time, can be mounted: every combination of images stands for a prefix
/// of its history and, where all of it is durable, for all of it; and there is a log that is read.
pub fn stores_can_be_mounted<D: Disk>()
    ensures prefix { (score : List ℕ → List ℕ) (k : CoreState D) (h : History)
        → IsSound score D.Disk k h
        → EachStands score D.Disk (setup_of k) k.log.tables k.log.durable (devices_of k) h }
    ensures all { (score : List ℕ → List ℕ) (k : CoreState D) (h : History)
        → IsSound score D.Disk k h → k.log.durable ≡ length h
        → AllStandFor score D.Disk (setup_of k) k.log.tables (devices_of k) h (length h) }
    ensures log { (score : List ℕ → List ℕ) (k : CoreState D) (h : History) → IsTrue D.tells
        → IsSound score D.Disk k h → (g : History) × (base : ℕ)
        × IsLogOf score D.Disk k.log.tables (devices_of k) (setup_of k) h g base }
{
    crash_gives_a_prefix::<D>();
}

/// The marks of a store are those that its devices have, and no others, while nothing is being
/// written back or saved: the head of each section as it is read, and the filter's mark.
pub fn marks_are_read<D: Disk>()
    ensures heads { (score : List ℕ → List ℕ) (k : CoreState D) (h : History) (i : ℕ)
        (s : ShardState D) → IsTrue D.tells → IsSound score D.Disk k h
        → slice_get k.shards i ≡ Some s → s.writeback ≡ None
        → IsHeadRead D.Disk (devices_of k) i s.section.head }
    ensures mark { (score : List ℕ → List ℕ) (k : CoreState D) (h : History) (b : BloomState D)
        → IsTrue D.tells → IsSound score D.Disk k h → k.bloom ≡ Some b → b.twin.change ≡ None
        → IsMarkRead D.Disk (devices_of k) b.mark }
    ensures one_head { (devices : PerDevice D) (i : ℕ) (head other : Head) → IsTrue D.tells
        → IsHeadRead D.Disk devices i head → IsHeadRead D.Disk devices i other → head ≡ other }
    ensures one_mark { (devices : PerDevice D) (mark other : ℕ) → IsTrue D.tells
        → IsMarkRead D.Disk devices mark → IsMarkRead D.Disk devices other → mark ≡ other }
{
    vt_isect::images_agree::<D>();
    vt_isect::sections_are_told_apart();
    vt_bloom::crash_gives_old_or_new::<D>();
    vt_bloom::saved_filters_are_told_apart();
}

/// Devices of which every combination of images stands for a prefix of one history have a log, with
/// its base, that is read of them.
pub fn devices_have_a_log<D: Disk>()
    ensures { (score : List ℕ → List ℕ) (c : Setup) (tables : List Table)
        (devices : PerDevice D) (h : History) → IsTrue D.tells → IsLegal score c h
        → IsSetupOf D.Disk tables devices c → EachStands score D.Disk c tables 0 devices h
        → (g : History) × (base : ℕ) × IsLogOf score D.Disk tables devices c h g base }
{}

/// A run of events keeps what the store was mounted with, and loses no block.
pub fn runs_keep_the_store<D: Disk>()
    ensures { (score : List ℕ → List ℕ) (events : List Event) (outs : List Out)
        (old new : CoreState D) → Runs score D.Disk events outs old new → KeepsStore D.Disk old new }
{}

/// A refusal to mount names two values that differ, whatever the devices hold.
pub fn refusals_name_two<D: Disk>()
    ensures { (score : List ℕ → List ℕ) (tables : List Table) (devices : PerDevice D)
        (c : Setup) (bad : MountBad) → IsRefusedMount score D.Disk tables devices c bad
        → NamesTwo bad }
{
    vt_mount_errors::refusals_name_two();
}
