//! What follows of a use of a store.

ghost use Rattle.std.specs.Prelude.{◌≡◌, ◌*◌, ℕ, Bool, false, None, Ok, Result, List, IfErr, IfSome, IsTrue, length};
ghost use Rattle.std.specs.List.{All, AllByRecursion};
ghost use Rattle.vt_handler.specs.Taking.{first_told};
ghost use Rattle.vt_base.specs.declared.why.Why.{Why};
ghost use Rattle.vt_conf.specs.declared.conf.Conf.{Conf};
ghost use Rattle.vt_core.specs.Causes.{OnlyReadFrom, READS_MOST};
ghost use Rattle.vt_core.specs.Core.{CoreState, devices_of, setup_of, stops_of};
ghost use Rattle.vt_core.specs.Files.{PerDevice, all_of};
ghost use Rattle.vt_core.specs.Mounting.{IsLogOf};
ghost use Rattle.vt_core.specs.Sound.{IsSound};
ghost use Rattle.vt_requests.specs.Answers.{KeepsAll};
ghost use Rattle.vt_model.specs.History.{History};
ghost use Rattle.vt_model.specs.Places.{Setup};
ghost use Rattle.vt_open.specs.Names.{AreUnder, HaveOneShape, files_of};
ghost use Rattle.vt_open.specs.Opening.{Opens};
ghost use Rattle.vt_open.specs.Taking.{AreHandedBack};
ghost use Rattle.vt_part.specs.Table.{Table};
ghost use Rattle.vt_partitions.specs.Parts.{Standing};
ghost use Rattle.vt_use.specs.Answers.{AreModelAnswers, FailsForMemoryOnly};
ghost use Rattle.vt_use.specs.Causes.{FailsFor, HasItsCause, NoCallFails, TellsStops};
ghost use Rattle.vt_use.specs.Stores.{Exchange, MakesRun};
ghost use Rattle.vt_use.specs.Uses.{AsksAndEnds, LeftByUse, LeftInStore};

use vt_core::{marks_are_read, stores_can_be_mounted};
use vt_disk::Disk;
use vt_open::{opened_stores_recall, shapes_are_kept};

/// What a store is asked, and the end of its use behind that, are a run of events, so all holds of
/// them that holds of runs: at each moment whatever a crash leaves of all devices, taken together,
/// stands for a prefix of the history with every durable block. What the store was mounted with
/// stays. A part stops in a run only where a device counts a failed call.
pub fn calls_are_runs<D: Disk>()
    ensures run { (score : List ℕ → List ℕ) (now : ℕ) (writes : Bool) (exchanges : List Exchange)
        (closed : Result (Unit {0}) Why) (old kept new : CoreState D)
        → AsksAndEnds score D.Disk now writes exchanges closed old kept new
        → MakesRun score D.Disk old new }
    ensures keeps { (score : List ℕ → List ℕ) (now : ℕ) (writes : Bool)
        (exchanges : List Exchange) (closed : Result (Unit {0}) Why) (old kept new : CoreState D)
        → AsksAndEnds score D.Disk now writes exchanges closed old kept new → KeepsAll D.Disk old new }
    ensures stops { (score : List ℕ → List ℕ) (old new : CoreState D)
        → MakesRun score D.Disk old new → TellsStops D.Disk old new }
{}

/// Where no part had stopped before, each failure that is told has its cause, whatever the devices
/// hold: a device counted a failed call, two values differ, or memory was wanting.
pub fn uses_have_causes<D: Disk>()
    ensures each { (score : List ℕ → List ℕ) (now : ℕ) (writes : Bool) (exchanges : List Exchange)
        (closed : Result (Unit {0}) Why) (old kept new : CoreState D)
        → AsksAndEnds score D.Disk now writes exchanges closed old kept new
        → All (λ stop. stop ≡ None) (stops_of old)
        → AllByRecursion (HasItsCause D.Disk old new) exchanges }
    ensures first { (score : List ℕ → List ℕ) (now : ℕ) (writes : Bool)
        (exchanges : List Exchange) (closed : Result (Unit {0}) Why) (old kept new : CoreState D)
        → AsksAndEnds score D.Disk now writes exchanges closed old kept new
        → All (λ stop. stop ≡ None) (stops_of old)
        → IfSome (first_told exchanges) (λ why. FailsFor D.Disk why old new) }
    ensures closed { (score : List ℕ → List ℕ) (now : ℕ) (writes : Bool)
        (exchanges : List Exchange) (closed : Result (Unit {0}) Why) (old kept new : CoreState D)
        → AsksAndEnds score D.Disk now writes exchanges closed old kept new
        → All (λ stop. stop ≡ None) (stops_of old)
        → IfErr closed (λ why. FailsFor D.Disk why old new) }
{}

/// Each answer of a store whose devices are sound for a history is the model's, which goes on with
/// what that adds; or the store failed, and it stays. What a sync was answered for is durable.
pub fn calls_are_answered<D: Disk>()
    ensures { (score : List ℕ → List ℕ) (now : ℕ) (writes : Bool) (exchanges : List Exchange)
        (closed : Result (Unit {0}) Why) (h : History) (old kept new : CoreState D)
        → AsksAndEnds score D.Disk now writes exchanges closed old kept new → IsTrue D.tells
        → IsSound score D.Disk old h → (last : History) × IsSound score D.Disk kept last
        × AreModelAnswers score (setup_of old) h exchanges last kept.log.durable }
{}

/// Where no part had stopped and no device counted a failed call, a use of a sound store needs memory
/// alone.
pub fn uses_need_memory<D: Disk>()
    ensures { (score : List ℕ → List ℕ) (now : ℕ) (writes : Bool) (exchanges : List Exchange)
        (closed : Result (Unit {0}) Why) (h : History) (old kept new : CoreState D)
        → AsksAndEnds score D.Disk now writes exchanges closed old kept new → IsTrue D.tells
        → IsSound score D.Disk old h → NoCallFails D.Disk old new
        → AllByRecursion FailsForMemoryOnly exchanges × (closed ≡ Ok tt) }
{}

/// Where it is only read, a sound store holds what it held, and nothing but reads is made of its
/// devices.
pub fn readers_leave_all<D: Disk>()
    ensures { (score : List ℕ → List ℕ) (now : ℕ) (exchanges : List Exchange)
        (closed : Result (Unit {0}) Why) (h : History) (old kept new : CoreState D)
        → AsksAndEnds score D.Disk now false exchanges closed old kept new → IsTrue D.tells
        → IsSound score D.Disk old h → IsSound score D.Disk new h
        × OnlyReadFrom D.Disk (READS_MOST * length exchanges) (all_of (devices_of old))
        (all_of (devices_of new)) }
{}

/// Whatever device calls failed, what is left of a store that held a history behind what it was
/// asked stands for a prefix of that with each durable block, and where its use was ended and nothing
/// failed in that for all of it.
pub fn uses_leave<D: Disk>()
    ensures { (score : List ℕ → List ℕ) (now : ℕ) (writes : Bool) (exchanges : List Exchange)
        (closed : Result (Unit {0}) Why) (last : History) (old kept new : CoreState D)
        → AsksAndEnds score D.Disk now writes exchanges closed old kept new → IsTrue D.tells
        → IsSound score D.Disk kept last
        → LeftByUse score D.Disk writes closed last old kept new }
{
    marks_are_read::<D>();
    stores_can_be_mounted::<D>();
}

/// Whatever device calls failed, what is left of the store of a configuration stands for a prefix
/// of what it held behind what it was asked, with each durable block, where every combination of
/// the images of its partitions stood for a prefix of one legal history.
pub fn uses_leave_the_store<D: Disk>()
    ensures { (score : List ℕ → List ℕ) (told : Bool) (conf : Conf) (now : ℕ) (writes : Bool)
        (exchanges : List Exchange) (closed : Result (Unit {0}) Why) (last : History)
        (old during new : List ℕ → Standing D) (opened kept left : CoreState D)
        (tables : List Table) (devices : PerDevice D) (c : Setup) (h g : History) (base : ℕ)
        → IsTrue told → IsTrue D.tells
        → Opens score D.Disk (IsTrue told) conf 1 old during opened
        → AsksAndEnds score D.Disk now writes exchanges closed opened kept left
        → HaveOneShape (devices_of left) (files_of conf)
        → AreHandedBack (IsTrue told) (all_of (files_of conf)) during new (all_of (devices_of left))
        → AreUnder old conf devices → IsLogOf score D.Disk tables devices c h g base
        → IsSound score D.Disk kept last
        → LeftInStore score D.Disk conf writes closed last kept new tables
        (record c { base = base }) g }
{
    opened_stores_recall::<D>();
    shapes_are_kept::<D>();
    uses_leave::<D>();
}

/// The answers of such a store are the model's, from the history on that its partitions read as, or
/// the store failed; and what is left of it stands for a prefix of that and of what they add behind
/// it, with each durable block.
pub fn stores_are_used<D: Disk>()
    ensures { (score : List ℕ → List ℕ) (told : Bool) (conf : Conf) (now : ℕ) (writes : Bool)
        (exchanges : List Exchange) (closed : Result (Unit {0}) Why)
        (old during new : List ℕ → Standing D) (opened kept left : CoreState D)
        (tables : List Table) (devices : PerDevice D) (c : Setup) (h g : History) (base : ℕ)
        → IsTrue told → IsTrue D.tells
        → Opens score D.Disk (IsTrue told) conf 1 old during opened
        → AsksAndEnds score D.Disk now writes exchanges closed opened kept left
        → HaveOneShape (devices_of left) (files_of conf)
        → AreHandedBack (IsTrue told) (all_of (files_of conf)) during new (all_of (devices_of left))
        → AreUnder old conf devices → IsLogOf score D.Disk tables devices c h g base
        → (last : History) × IsSound score D.Disk kept last
        × AreModelAnswers score (record c { base = base }) g exchanges last kept.log.durable
        × LeftInStore score D.Disk conf writes closed last kept new tables
        (record c { base = base }) g }
{
    opened_stores_recall::<D>();
    uses_leave_the_store::<D>();
}
