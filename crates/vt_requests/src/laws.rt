//! What requests and ends are, event by event.

ghost use Rattle.std.specs.Prelude.{◌≡◌, ◌↔◌, ℕ, List, Result};
ghost use Rattle.std.specs.List.{All};
ghost use Rattle.vt_base.specs.Protocol.{Operation, RMessage};
ghost use Rattle.vt_base.specs.declared.answer.Answer.{Answer};
ghost use Rattle.vt_base.specs.declared.operation.Operation.{Operation as Asked};
ghost use Rattle.vt_base.specs.declared.why.Why.{Why};
ghost use Rattle.vt_core.specs.Core.{CoreState};
ghost use Rattle.vt_core.specs.Steps.{Runs};
ghost use Rattle.vt_core.specs.declared.event.Event.{Event};
ghost use Rattle.vt_core.specs.declared.event.Out.{Out};
ghost use Rattle.vt_requests.specs.Driven.{DoesRequest, DrivenState, HoldsOn, condition_of};
ghost use Rattle.vt_requests.specs.Requests.{IsForRequest, IsRequested};
ghost use Rattle.vt_model.specs.History.{History};

use crate::Driven;
use vt_base::Scorer;
use vt_disk::Disk;
use vt_handler::Store;

/// A request that was driven to its answer is a run of events, and so all holds of it that holds of
/// runs: at each moment of it whatever a crash leaves of all devices, taken together, stands for a
/// prefix of the history with every durable block. The request is asked with its own time, and no
/// other one is.
pub fn requests_are_runs<D: Disk>()
    ensures { (score : List ℕ → List ℕ) (session : ℕ) (asked : Asked) (now : ℕ) (a : Answer)
        (old new : CoreState D) → IsRequested score D.Disk session asked now a old new
        → (events : List Event) × (outs : List Out) × All (IsForRequest session asked now) events
        × Runs score D.Disk events outs old new }
{}

/// A store on devices, in the words of stores that sessions ask.
pub fn core_as_store<D: Disk, S: Scorer>()
    ensures scores { (bytes : List ℕ) →
        ⟦<Driven<D, S> as Store>⟧.score_of bytes ≡ S.score_of bytes }
    ensures condition { (d : DrivenState D) →
        ⟦<Driven<D, S> as Store>⟧.condition d ≡ condition_of D.Disk d }
    ensures holds { (d : DrivenState D) (h : History) →
        ⟦<Driven<D, S> as Store>⟧.holds d h ↔ HoldsOn S.score_of D.Disk d h }
    ensures does { (d d' : DrivenState D) (m : Operation) (result : Result RMessage Why) →
        ⟦<Driven<D, S> as Store>⟧.does d m result d'
        ↔ DoesRequest S.score_of D.Disk m result d d' }
{}
