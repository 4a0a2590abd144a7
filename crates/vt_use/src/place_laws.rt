//! Why a store of this process said no to a job of blocks.

ghost use Rattle.std.specs.Prelude.{◌≡◌, ℕ, Bool, None, Option, Result, List, IfErr, IfSome};
ghost use Rattle.std.specs.List.{All, AllByRecursion};
ghost use Rattle.vt_base.specs.declared.why.Why.{Why};
ghost use Rattle.vt_core.specs.Core.{CoreState, stops_of};
ghost use Rattle.vt_handler.specs.Serving.{tells_failure};
ghost use Rattle.vt_use.specs.PlaceCalls.{CallsStore, FailsAs, SaysFirst};
ghost use Rattle.vt_tree.specs.Calls.{Call, refusals_of};
ghost use Rattle.vt_use.specs.Causes.{FailsFor};

use vt_disk::Disk;

/// Where no part of a store had stopped before it was called so, each failure that is told has its
/// cause, whatever its devices hold: a device counted a failed call, two values differ, or memory was
/// wanting. So it is with why it said no first, with each refusal of a call, and with the end of its
/// use. Why it said no first is why the first of these calls was refused that was.
pub fn local_refusals_have_causes<D: Disk>()
    ensures said { (score : List ℕ → List ℕ) (now : ℕ) (writes : Bool) (calls : List Call)
        (said : Option Why) (closed : Result (Unit {0}) Why) (old new : CoreState D)
        → CallsStore score D.Disk now writes calls said closed old new
        → All (λ stop. stop ≡ None) (stops_of old)
        → IfSome said (λ why. tells_failure why ≡ Bool.true → FailsFor D.Disk why old new) }
    ensures first { (score : List ℕ → List ℕ) (now : ℕ) (writes : Bool) (calls : List Call)
        (said : Option Why) (closed : Result (Unit {0}) Why) (old new : CoreState D)
        → CallsStore score D.Disk now writes calls said closed old new → SaysFirst said calls }
    ensures each { (score : List ℕ → List ℕ) (now : ℕ) (writes : Bool) (calls : List Call)
        (said : Option Why) (closed : Result (Unit {0}) Why) (old new : CoreState D)
        → CallsStore score D.Disk now writes calls said closed old new
        → All (λ stop. stop ≡ None) (stops_of old)
        → AllByRecursion (FailsAs D.Disk old new) (refusals_of calls) }
    ensures closed { (score : List ℕ → List ℕ) (now : ℕ) (writes : Bool) (calls : List Call)
        (said : Option Why) (closed : Result (Unit {0}) Why) (old new : CoreState D)
        → CallsStore score D.Disk now writes calls said closed old new
        → All (λ stop. stop ≡ None) (stops_of old)
        → IfErr closed (λ why. FailsFor D.Disk why old new) }
{}
