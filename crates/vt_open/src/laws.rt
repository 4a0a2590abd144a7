//! What holds of stores that were opened, and of their partitions.

ghost use Rattle.std.specs.Prelude.{◌≡◌, ◌+◌, ◌^◌, ◌<◌, ℕ, Bool, IsTrue, List, length};
ghost use Rattle.std.specs.List.{All};
ghost use Rattle.std.specs.Option.{option_map};
ghost use Rattle.vt_conf.specs.Configuration.{Configures};
ghost use Rattle.vt_conf.specs.declared.conf.Conf.{Conf};
ghost use Rattle.vt_core.specs.Core.{CoreState, devices_of, each_of};
ghost use Rattle.vt_core.specs.Files.{PerDevice, all_of};
ghost use Rattle.vt_core.specs.Mounting.{IsLogOf, KeepsLimits, LeavesStanding, Recalls};
ghost use Rattle.vt_core.specs.Steps.{Runs};
ghost use Rattle.vt_core.specs.declared.event.Event.{Event};
ghost use Rattle.vt_core.specs.declared.event.Out.{Out};
ghost use Rattle.vt_model.specs.History.{History};
ghost use Rattle.vt_model.specs.Places.{Setup};
ghost use Rattle.vt_open.specs.Names.{AreUnder, HaveOneShape, files_of};
ghost use Rattle.vt_open.specs.declared.error.OpenError.{OpenError};
ghost use Rattle.vt_open.specs.Opening.{IsFaultOrMemory, NamesCause, Opens, RefusesStore};
ghost use Rattle.vt_open.specs.Taking.{AreHandedBack};
ghost use Rattle.vt_part.specs.Table.{Table};
ghost use Rattle.vt_partitions.specs.Parts.{Standing, there};

use vt_conf::laws::configurations_name_few_files;
use vt_disk::Disk;
use vt_part::partitions_are_told_apart;

/// A configuration that a text says can be opened: it names a file of arenas and one of a section,
/// and no more files than can be numbered.
pub fn configurations_can_be_opened()
    ensures few { (text : List ℕ) (conf : Conf) → Configures text conf
        → length conf.arenas.items + length conf.sections.items + 1 < 2 ^ 32 }
    ensures some_arenas { (text : List ℕ) (conf : Conf) → Configures text conf
        → 0 < length conf.arenas.items }
    ensures some_section { (text : List ℕ) (conf : Conf) → Configures text conf
        → 0 < length conf.sections.items }
{
    configurations_name_few_files();
}

/// What stands under the names of a configuration's files is one list of devices, and there is one
/// where something stands under each of them.
pub fn devices_have_names<D: Disk>()
    ensures one { (standing : List ℕ → Standing D) (conf : Conf) (a b : PerDevice D)
        → AreUnder standing conf a → AreUnder standing conf b → a ≡ b }
    ensures some { (standing : List ℕ → Standing D) (conf : Conf)
        → All (λ file. (device : D) × (standing file.name ≡ there device)) (all_of (files_of conf))
        → (devices : PerDevice D) × AreUnder standing conf devices }
{}

/// A store that was opened has the log of its partitions, with just its blocks and its base, and
/// their tables.
pub fn opened_stores_recall<D: Disk>()
    ensures recalls { (score : List ℕ → List ℕ) (tells : Bool) (conf : Conf) (sessions : ℕ)
        (old new : List ℕ → Standing D) (k : CoreState D) (tables : List Table)
        (devices : PerDevice D) (c : Setup) (h g : History) (base : ℕ) → IsTrue tells
        → IsTrue D.tells → Opens score D.Disk (IsTrue tells) conf sessions old new k
        → AreUnder old conf devices → IsLogOf score D.Disk tables devices c h g base
        → Recalls score D.Disk c g base k }
    ensures tables { (score : List ℕ → List ℕ) (tells : Bool) (conf : Conf) (sessions : ℕ)
        (old new : List ℕ → Standing D) (k : CoreState D) (tables : List Table)
        (devices : PerDevice D) (c : Setup) (h g : History) (base : ℕ) → IsTrue tells
        → IsTrue D.tells → Opens score D.Disk (IsTrue tells) conf sessions old new k
        → AreUnder old conf devices → IsLogOf score D.Disk tables devices c h g base
        → k.log.tables ≡ tables }
{
    partitions_are_told_apart();
}

/// Where a store isn't opened, two values that are told are two. Where every combination of the
/// partitions' images stood for a prefix of a legal history, and the limits are kept, a call failed
/// or memory ran out; and whatever call failed, a crash then loses nothing more.
pub fn refused_stores_stand<D: Disk>()
    ensures differs { (score : List ℕ → List ℕ) (tells : Bool) (conf : Conf)
        (old new : List ℕ → Standing D) (before after : ℕ) (bad : OpenError)
        → RefusesStore score D.Disk (IsTrue tells) conf old new before after bad
        → NamesCause bad }
    ensures found { (score : List ℕ → List ℕ) (tells : Bool) (conf : Conf)
        (old new : List ℕ → Standing D) (before after : ℕ) (bad : OpenError) (tables : List Table)
        (devices : PerDevice D) (c : Setup) (h g : History) (base : ℕ) → IsTrue tells
        → IsTrue D.tells → RefusesStore score D.Disk (IsTrue tells) conf old new before after bad
        → AreUnder old conf devices → IsLogOf score D.Disk tables devices c h g base
        → KeepsLimits tables c → IsFaultOrMemory bad }
    ensures standing { (score : List ℕ → List ℕ) (tells : Bool) (conf : Conf)
        (old new : List ℕ → Standing D) (before after : ℕ) (bad : OpenError) (tables : List Table)
        (devices back : PerDevice D) → IsTrue tells → IsTrue D.tells
        → RefusesStore score D.Disk (IsTrue tells) conf old new before after bad
        → AreUnder old conf devices → AreUnder new conf back
        → LeavesStanding score D.Disk tables devices back }
{
    partitions_are_told_apart();
    vt_mount_errors::refusals_name_two();
    vt_core::refusals_name_two::<D>();
}

/// A run of events keeps how many devices of each kind there are, as whatever keeps their sizes and
/// the count of shards and filters does; and where a store that was opened is closed behind it,
/// they stand under the names of the configuration's files.
pub fn shapes_are_kept<D: Disk>()
    ensures run { (score : List ℕ → List ℕ) (events : List Event) (outs : List Out)
        (old new : CoreState D) → Runs score D.Disk events outs old new
        → HaveOneShape (devices_of new) (devices_of old) }
    ensures kept { (old new : CoreState D) → each_of D.size new ≡ each_of D.size old
        → length new.shards ≡ length old.shards
        → option_map (λ b. b.m) new.bloom ≡ option_map (λ b. b.m) old.bloom
        → HaveOneShape (devices_of new) (devices_of old) }
    ensures closed { (score : List ℕ → List ℕ) (tells : Bool) (conf : Conf) (sessions : ℕ)
        (before during after : List ℕ → Standing D) (opened k : CoreState D) → IsTrue tells
        → Opens score D.Disk (IsTrue tells) conf sessions before during opened
        → HaveOneShape (devices_of k) (files_of conf)
        → AreHandedBack (IsTrue tells) (all_of (files_of conf)) during after (all_of (devices_of k))
        → AreUnder after conf (devices_of k) }
{}
