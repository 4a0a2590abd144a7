//! A crash of a store's devices, and mounting what is left of them.

ghost use Rattle.std.specs.Prelude.{◌≡◌, ℕ, All, IfOk, List};
ghost use Rattle.std.specs.List.{AllZip};
ghost use Rattle.std.specs.Option.{option_to_list};
ghost use Rattle.vt_core.specs.Core.{machine_of};
ghost use Rattle.vt_core.specs.Machine.{Crashes};
ghost use Rattle.vt_model.specs.History.{History};
ghost use Rattle.vt_part.specs.Parts.{disk_of, table_of};
ghost use Rattle.vt_part.specs.Table.{IsPartition};
ghost use Rattle.vt_rehearse.specs.Limits.{AreAtMost, GrowsByRound, MOST};
ghost use Rattle.vt_rehearse.specs.Crashed.{IsImageLeft, IsLeftMounted, KeepsSealed, Restarts};
ghost use Rattle.vt_rehearse.specs.Rehearsal.{CrashesIn};
ghost use Rattle.vt_rehearse.specs.Stage.{AreAlike, IsMemory, IsSteady, none_waits};

use crate::opening::open;
use crate::stage::Stage;
use std::alloc::{AllocError, Global};
use vt_base::Scorer;
use vt_core::{Core, crash_gives_a_prefix, recovery_is_a_crash, stores_can_be_mounted};
use vt_disk::Disk;
use vt_memdisk::{CrashMode, MemDisk, Plan};
use vt_part::Part;
use vt_recover::Devices;

/// A disk of which a crash can be tried.
pub(crate) trait Crashable: Disk + Drop {
    ghost use Rattle.std.specs.Prelude.{◌≡◌, List, ℕ};
    ghost use Rattle.vt_disk.specs.Disk.{Only};
    ghost use Rattle.vt_memdisk.specs.declared.crash.CrashMode.{CrashMode};

    /// What a crash in this mode leaves of it.
    ghost leaves: { CrashMode → Self → List ℕ → Type 0 };

    /// The disk behind a crash, which leaves one of its images. A second crash leaves just that.
    fn crashed(self, mode: CrashMode) -> Self
        ensures left { leaves mode self (Self.bytes result) }
        ensures image { Self.images self (Self.bytes result) }
        ensures only { Only (Self.bytes result) (Self.images result) }
        ensures size { Self.size result ≡ Self.size self };
}

impl<P: Plan> Crashable for MemDisk<P> {
    ghost use Rattle.vt_rehearse.specs.Memory.{LeavesMemory};

    ghost leaves = { LeavesMemory };

    /// The disk that a crash in this mode leaves.
    fn crashed(self, mode: CrashMode) -> Self {
        self.crash_in(mode)
    }
}

/// All devices crash, and the store is mounted again. The list is cut to the blocks that it has,
/// which are compared with those that were synced.
pub(crate) fn crash<D: Crashable, S: Scorer + Copy + Drop>(
    stage: Stage<D, S>,
    alloc: Global,
    scorer: S,
    mode: CrashMode,
) -> Result<Stage<D, S>, AllocError>
    requires memory { IsMemory D.Disk }
    requires alike { AreAlike S.score_of D.Disk stage }
    requires most { AreAtMost MOST stage.summary }
    ensures crashes { IfOk result (CrashesIn S.score_of D.Disk D.leaves mode stage) }
    ensures alike { IfOk result (AreAlike S.score_of D.Disk) }
    ensures grows { IfOk result (λ it. GrowsByRound stage.summary it.summary) }
{
    let Stage {
        core,
        listed,
        summary,
    } = stage;
    let synced = core.synced();
    let core = restart(alloc, core, mode, scorer)?;
    let mut stage = Stage {
        core,
        listed,
        summary,
    };
    stage.judge_crash(synced);
    let left = stage.history_len();
    stage.note_crash(left);
    Ok(stage)
}

/// The store on what a crash leaves of its devices.
fn restart<D: Crashable, S: Scorer + Drop>(
    alloc: Global,
    core: Core<D, S>,
    mode: CrashMode,
    scorer: S,
) -> Result<Core<D, S>, AllocError>
    requires memory { IsMemory D.Disk }
    requires steady { (h : History) × IsSteady S.score_of D.Disk core h }
    ensures restarts { IfOk result (Restarts S.score_of D.Disk D.leaves mode core) }
    ensures crashes { (h : History) → IsSteady S.score_of D.Disk core h → IfOk result (λ it.
        (g : History) × Crashes (machine_of core h) (machine_of it g)
        × IsSteady S.score_of D.Disk it g × (it.waiting ≡ none_waits)
        × KeepsSealed it.log.base h g) }
{
    crash_gives_a_prefix::<D>();
    recovery_is_a_crash::<D>();
    stores_can_be_mounted::<D>();
    let Devices {
        parts,
        sections,
        filter,
    } = core.into_devices();
    let parts = crash_parts(alloc, parts, mode)?;
    let sections = crash_all(alloc, sections, mode)?;
    let filter = crash_one(filter, mode);
    let devices = Devices {
        parts,
        sections,
        filter,
    };
    open(alloc, devices, scorer)
}

/// What a crash leaves of partitions, each of which has its table in every image.
fn crash_parts<D: Crashable>(
    alloc: Global,
    mut parts: Vec<Part<D>>,
    mode: CrashMode,
) -> Result<Vec<Part<D>>, AllocError>
    requires memory { IsMemory D.Disk }
    requires tables { All (λ part. (c : List ℕ) → D.images (disk_of part) c
        → IsPartition (table_of part) c) parts.items }
    ensures { IfOk result (λ left.
        AllZip (IsLeftMounted D.Disk D.leaves mode) parts.items left.items) }
{
    let mut left = Vec::with_capacity(alloc, parts.len())?;
    while let Some(part) = parts.pop() {
        left.push(crash_part(part, mode))?;
    }
    left.reverse();
    Ok(left)
}

/// What a crash leaves of a partition, which has its table in every image.
fn crash_part<D: Crashable>(part: Part<D>, mode: CrashMode) -> Part<D>
    requires memory { IsMemory D.Disk }
    requires table { (c : List ℕ) → D.images (disk_of part) c → IsPartition (table_of part) c }
    ensures { IsLeftMounted D.Disk D.leaves mode part result }
{
    match vt_part::mount(part.into_devices().crashed(mode)) {
        Ok(part) => part,
        Err(_) => unreachable!(),
    }
}

/// What a crash leaves of a disk, if there is one.
fn crash_one<D: Crashable>(disk: Option<D>, mode: CrashMode) -> Option<D>
    ensures { AllZip (IsImageLeft D.Disk D.leaves mode) (option_to_list disk)
        (option_to_list result) }
{
    match disk {
        Some(disk) => Some(disk.crashed(mode)),
        None => None,
    }
}

/// What a crash leaves of these disks.
fn crash_all<D: Crashable>(
    alloc: Global,
    disks: Vec<D>,
    mode: CrashMode,
) -> Result<Vec<D>, AllocError>
    ensures { IfOk result
        (λ left. AllZip (IsImageLeft D.Disk D.leaves mode) disks.items left.items) }
{
    let mut left = Vec::with_capacity(alloc, disks.len())?;
    for disk in disks {
        left.push(disk.crashed(mode))?;
    }
    Ok(left)
}
