//! What holds of stores whose index was rebuilt, and of refusals.

ghost use Rattle.std.specs.Prelude.{◌≡◌, ◌<◌, ℕ, Bool, IsTrue, List, Ok, length, map};
ghost use Rattle.std.specs.List.{All};
ghost use Rattle.vt_base.specs.declared.mount.MountBad.{MountBad};
ghost use Rattle.vt_conf.specs.declared.conf.Conf.{Conf};
ghost use Rattle.vt_recover.specs.declared.devices.Devices.{Devices};
ghost use Rattle.vt_core.specs.Files.{PerDevice};
ghost use Rattle.vt_core.specs.Mounting.{IsLogOf, IsSetupOf, KeepsLimits};
ghost use Rattle.vt_core.specs.Stands.{ArePartitions, FilterStandsFor};
ghost use Rattle.vt_log.specs.Logs.{IsLog, versions_of};
ghost use Rattle.vt_model.specs.History.{History};
ghost use Rattle.vt_model.specs.Legal.{IsLegal};
ghost use Rattle.vt_model.specs.Places.{Setup};
ghost use Rattle.vt_open.specs.Names.{AreUnder};
ghost use Rattle.vt_part.specs.Layout.{layout_of};
ghost use Rattle.vt_part.specs.Table.{Table};
ghost use Rattle.vt_partitions.specs.Parts.{Standing};
ghost use Rattle.vt_mount_errors.specs.MountErrors.{NamesTwo};
ghost use Rattle.vt_maintain.specs.Opened.{RefusesOpening, RefusesUse};
ghost use Rattle.vt_maintain.specs.Rebuilding.{Rebuilds};
ghost use Rattle.vt_maintain.specs.Stores.{WorksOnStore};

use vt_disk::Disk;
use vt_part::partitions_are_told_apart;

/// Where the log and the sections of a store aren't found, or aren't in use, two values that are
/// told are two, whatever its devices hold.
pub fn refusals_name_two<D: Disk>()
    ensures opening { (devices : Devices D) (bad : MountBad) → RefusesOpening D.Disk devices bad
        → NamesTwo bad }
    ensures in_use { (score : List ℕ → List ℕ) (devices : Devices D) (bad : MountBad)
        → RefusesUse score D.Disk devices bad → NamesTwo bad }
{
    vt_core::refusals_name_two::<D>();
}

/// Where the index of a store was rebuilt whose arenas read as a legal history, in the setup's
/// versions, and whose filter is true of it in each image, every combination of images stands for all
/// of that history, whatever the sections held before. So the store can be opened, with just these
/// blocks.
pub fn rebuilt_stores_can_be_opened<D: Disk>()
    ensures { (score : List ℕ → List ℕ) (tells : Bool) (conf : Conf)
        (old new : List ℕ → Standing D) (faults faults' blocks : ℕ) (tables : List Table)
        (devices back : PerDevice D) (c : Setup) (sections : List ℕ) (g : History) (base : ℕ)
        → IsTrue tells → IsTrue D.tells
        → WorksOnStore D.Disk (IsTrue tells) conf (RefusesOpening D.Disk) (Rebuilds score D.Disk)
        old new faults faults' (Ok blocks)
        → 0 < length conf.sections.items
        → AreUnder old conf devices → AreUnder new conf back
        → ArePartitions tables (map D.bytes devices.partitions)
        → (log : IsLog score (layout_of tables) (map D.bytes devices.partitions) g base)
        → IsSetupOf D.Disk tables back c → c.versions ≡ versions_of log.contents
        → IsLegal score (record c { base = base; sections = sections }) g
        → All (λ filter. (file : List ℕ) → D.images filter file → FilterStandsFor score g file)
        devices.filter
        → (blocks ≡ length g) × IsLogOf score D.Disk tables back (record c { base = base }) g g base
        × KeepsLimits tables c }
{
    partitions_are_told_apart();
}
