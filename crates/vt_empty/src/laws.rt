//! That what formatting leaves can be opened, and that disks in memory don't fail.

ghost use Rattle.std.specs.Prelude.{◌≡◌, ◌≤◌, ◌+◌, ◌*◌, ℕ, List, [], None, Some, Ok, IsTrue, map, length};
ghost use Rattle.std.specs.List.{All};
ghost use Rattle.vt_conf.specs.declared.conf.Conf.{Conf};
ghost use Rattle.vt_core.specs.Files.{PerDevice};
ghost use Rattle.vt_core.specs.Mounting.{AllStandFor, EachStands, IsLogOf, IsSetupOf, KeepsLimits};
ghost use Rattle.vt_core.specs.Stands.{ArePartitions};
ghost use Rattle.vt_format.specs.declared.index.Index.{Index};
ghost use Rattle.vt_empty.specs.Devices.{AreFormatted, HasNewIndex, setup_on};
ghost use Rattle.vt_empty.specs.Formatted.{AreEmptyLogs, IsUnset};
ghost use Rattle.vt_empty.specs.Indexed.{HaveOwnNames, PutsToUse};
ghost use Rattle.vt_memdisk.specs.declared.mem_disk.MemDisk.{MemDisk};
ghost use Rattle.vt_memdisk.specs.declared.plan.Never.{Never};
ghost use Rattle.vt_model.specs.History.{History};
ghost use Rattle.vt_model.specs.Legal.{IsLegal};
ghost use Rattle.vt_model.specs.Places.{Setup};
ghost use Rattle.vt_open.specs.Names.{AreUnder};
ghost use Rattle.vt_part.specs.Table.{Table};
ghost use Rattle.vt_partitions.specs.Parts.{Standing};

use vt_disk::Disk;
use vt_memdisk::{MemDisk, Never};
use vt_part::{layouts_are_in_order, partitions_are_told_apart};

/// What formatting leaves is a store without blocks, in each combination of what a crash leaves.
pub fn formatted_devices_hold_nothing<D: Disk>()
    ensures all { (score : List ℕ → List ℕ) (tables : List Table) (devices : PerDevice D)
        → AreFormatted D.Disk tables devices
        → AllStandFor score D.Disk (setup_on D.Disk tables devices) tables devices [] 0 }
    ensures log { (score : List ℕ → List ℕ) (tables : List Table) (devices : PerDevice D)
        → IsTrue D.tells → AreFormatted D.Disk tables devices
        → IsLogOf score D.Disk tables devices (setup_on D.Disk tables devices) [] [] 0 }
{
    layouts_are_in_order();
}

/// A log keeps its blocks when it gets a new index, as long as the new buckets have room for them:
/// sections without entries agree with every history. So does a filter without a bit.
pub fn logs_keep_their_blocks<D: Disk>()
    ensures each { (score : List ℕ → List ℕ) (c : Setup) (sections : List ℕ)
        (tables : List Table) (least : ℕ) (old new : PerDevice D) (h : History)
        → IsTrue D.tells → HasNewIndex D.Disk old new
        → IsSetupOf D.Disk tables new c → IsLegal score c h
        → EachStands score D.Disk (record c { sections = sections }) tables least old h
        → EachStands score D.Disk c tables least new h }
    ensures log { (score : List ℕ → List ℕ) (c : Setup) (sections : List ℕ)
        (tables : List Table) (old new : PerDevice D) (h g : History) (base : ℕ)
        → IsTrue D.tells → HasNewIndex D.Disk old new
        → IsSetupOf D.Disk tables new c → IsLegal score c h
        → IsLogOf score D.Disk tables old (record c { sections = sections }) h g base
        → IsLogOf score D.Disk tables new c h g base }
{
    vt_model::laws::first_blocks_are_legal();
}

/// Where `fmtindex` answers, the store that the configuration names has a new index and keeps the
/// limits of a store; and where `fmtarenas` made its arenas and `fmtbloom` its filter, it can be
/// opened, and has no blocks.
pub fn formatted_stores_can_be_opened<D: Disk>()
    ensures index { (conf : Conf) (before after : List ℕ → Standing D) (old new : PerDevice D)
        (it : Index) → AreUnder before conf old → AreUnder after conf new → HaveOwnNames conf
        → PutsToUse D.Disk conf before after it → HasNewIndex D.Disk old new }
    ensures limits { (conf : Conf) (before after : List ℕ → Standing D)
        (old new : PerDevice D) (it : Index) (tables : List Table) (c : Setup)
        → AreUnder before conf old → AreUnder after conf new → PutsToUse D.Disk conf before after it
        → ArePartitions tables (map D.bytes old.partitions) → IsSetupOf D.Disk tables new c
        → KeepsLimits tables c }
    ensures formatted { (conf : Conf) (before after : List ℕ → Standing D)
        (old new : PerDevice D) (it : Index) (tables : List Table)
        → AreUnder before conf old → AreUnder after conf new → HaveOwnNames conf
        → AreEmptyLogs D.Disk tables old.partitions → All (IsUnset D.Disk) old.filter
        → PutsToUse D.Disk conf before after it → AreFormatted D.Disk tables new }
    ensures opened { (score : List ℕ → List ℕ) (conf : Conf)
        (before after : List ℕ → Standing D) (old new : PerDevice D) (it : Index)
        (tables : List Table) → IsTrue D.tells
        → AreUnder before conf old → AreUnder after conf new → HaveOwnNames conf
        → AreEmptyLogs D.Disk tables old.partitions → All (IsUnset D.Disk) old.filter
        → PutsToUse D.Disk conf before after it
        → IsLogOf score D.Disk tables new (setup_on D.Disk tables new) [] [] 0
        × KeepsLimits tables (setup_on D.Disk tables new) }
{
    formatted_devices_hold_nothing::<D>();
    partitions_are_told_apart();
}

/// A disk in memory that `new` made counts no failed call.
pub fn memory_never_fails()
    ensures { (disk : MemDisk Never) → ⟦<MemDisk<Never> as Disk>⟧.faults disk ≡ 0 }
{}
