//! What follows of a session over a store.

ghost use Rattle.std.specs.Prelude.{◌≡◌, ℕ, ◌++◌, Bool, IsTrue, List, None};
ghost use Rattle.std.specs.List.{All};
ghost use Rattle.vt_core.specs.Core.{CoreState, stops_of};
ghost use Rattle.vt_core.specs.Sound.{IsSound};
ghost use Rattle.vt_requests.specs.Answers.{KeepsAll};
ghost use Rattle.vt_model.specs.History.{History};
ghost use Rattle.vt_use.specs.Sessions.{EndsWell, LeavesAll, MakesRun, NeedsMemory, NoCallFails, ServesStore, TellsCauses, TellsStops};
ghost use Rattle.vt_use.specs.declared.session.StoreServed.{StoreServed};
ghost use Rattle.vt_session.specs.Turns.{causes_of, synced_numbers};

use crate::laws::uses_leave;
use vt_disk::Disk;

/// A session and the end of the store's use are a run of events, so all holds of them that holds of
/// runs: at each moment whatever a crash leaves of all devices, taken together, stands for a prefix
/// of the history with every durable block. What the store was mounted with stays. A part stops in a
/// run only where a device counts a failed call.
pub fn sessions_are_runs<D: Disk>()
    ensures run { (score : List ℕ → List ℕ) (end : StoreServed) (now : ℕ) (old new : CoreState D)
        (tells : Bool) (input output : List ℕ)
        → ServesStore score D.Disk end now old new tells input output
        → MakesRun score D.Disk old new }
    ensures keeps { (score : List ℕ → List ℕ) (end : StoreServed) (now : ℕ)
        (old new : CoreState D) (tells : Bool) (input output : List ℕ)
        → ServesStore score D.Disk end now old new tells input output
        → KeepsAll D.Disk old new }
    ensures stops { (score : List ℕ → List ℕ) (old new : CoreState D)
        → MakesRun score D.Disk old new → TellsStops D.Disk old new }
{}

/// Where no part had stopped before, each failure that is told has its cause, whatever the devices
/// hold: a device counted a failed call, two values differ, or memory was wanting.
pub fn sessions_tell_causes<D: Disk>()
    ensures { (score : List ℕ → List ℕ) (end : StoreServed) (now : ℕ) (old new : CoreState D)
        (tells : Bool) (input output : List ℕ)
        → ServesStore score D.Disk end now old new tells input output
        → All (λ stop. stop ≡ None) (stops_of old) → TellsCauses D.Disk end old new }
{}

/// Where no device counted a failed call, a session over a sound store needs memory alone, whatever
/// its streams tell of what came in and went out.
pub fn sound_stores_need_memory<D: Disk>()
    ensures { (score : List ℕ → List ℕ) (end : StoreServed) (now : ℕ) (old new : CoreState D)
        (tells : Bool) (input output : List ℕ) (h : History)
        → ServesStore score D.Disk end now old new tells input output
        → IsTrue D.tells → IsSound score D.Disk old h → NoCallFails D.Disk old new
        → NeedsMemory end }
{}

/// Whatever device calls failed, what is left behind a session stands for a prefix of its history
/// that has all that a sync was answered for.
pub fn sessions_leave_all<D: Disk>()
    ensures { (score : List ℕ → List ℕ) (end : StoreServed) (now : ℕ) (old new : CoreState D)
        (tells : Bool) (input output : List ℕ) (h : History)
        (serves : ServesStore score D.Disk end now old new tells input output)
        (disk_tells : IsTrue D.tells) (sound : IsSound score D.Disk old h) (told : IsTrue tells)
        → let session = serves.session h disk_tells sound told in
        LeavesAll score D.Disk (synced_numbers (session.turns ++ session.unsaid)) session.last
        old new }
{
    uses_leave::<D>();
}

/// Where no device counted a failed call, nothing but memory was wanting, and all is on the devices
/// and marked, as it is read of them.
pub fn sessions_end_well<D: Disk>()
    ensures { (score : List ℕ → List ℕ) (end : StoreServed) (now : ℕ) (old new : CoreState D)
        (tells : Bool) (input output : List ℕ) (h : History)
        (serves : ServesStore score D.Disk end now old new tells input output)
        (disk_tells : IsTrue D.tells) (sound : IsSound score D.Disk old h) (told : IsTrue tells)
        → NoCallFails D.Disk old new
        → let session = serves.session h disk_tells sound told in
        EndsWell score D.Disk end (causes_of (session.turns ++ session.unsaid)) session.last
        old new }
{
    uses_leave::<D>();
}
