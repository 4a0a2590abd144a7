//! A store on devices, as the store that one session asks.

ghost use Rattle.std.specs.Prelude.{◌≡◌};
ghost use Rattle.vt_base.specs.Operations.{operation_of};
ghost use Rattle.vt_core.specs.Machine.{WaitsForNone};
ghost use Rattle.vt_handler.specs.Serving.{asked_of_store};

use crate::requests::ask;
use std::alloc::Global;
use std::marker::Model;
use vt_base::{MAX_BLOCK, Operation, Said, Scorer};
use vt_core::Core;
use vt_disk::Disk;
use vt_handler::Store;

/// A store on devices, and the session that asks it: each operation is one of session 0, and all
/// clumps that it adds get one time.
#[derive(Drop)]
pub struct Driven<D: Disk, S: Scorer> {
    core: Core<D, S>,
    /// The time of the clumps that it adds, in seconds since 1970.
    now: u32,
}

impl<D: Disk, S: Scorer> Model for Driven<D, S> {
    ghost use Rattle.vt_requests.specs.Driven.{DrivenState};
    ghost use Rattle.vt_core.specs.Machine.{WaitsForNone};

    ghost Value = { DrivenState D };

    ghost view = { λ d. record { core = d.core; now = d.now } };

    ghost invariant = { λ d. WaitsForNone d.core.waiting 0 };
}

impl<D: Disk, S: Scorer> Driven<D, S> {
    /// The first session of a store, which waits for nothing. `now` is the second at which it
    /// began, the time of the clumps that it adds.
    pub fn new(core: Core<D, S>, now: u32) -> Self
        requires { WaitsForNone core.waiting 0 }
        ensures { result ≡ record { core = core; now = now } }
    {
        Driven { core, now }
    }

    /// The store, whose first session waits for nothing.
    pub fn into_core(self) -> Core<D, S>
        ensures core { result ≡ self.core }
        ensures free { WaitsForNone result.waiting 0 }
    {
        self.core
    }
}

impl<D: Disk, S: Scorer> Store for Driven<D, S> {
    ghost use Rattle.vt_requests.specs.Driven.{HoldsOn, DoesRequest, condition_of};
    ghost use Rattle.std.specs.Prelude.{◌≤◌};
    ghost use Rattle.std.proofs.Common.{subst};
    ghost use Rattle.std.proofs.Math.Nat.{le-add_right};
    ghost use Rattle.vt_log.specs.Log.{queued};

    ghost score_of = { S.score_of };

    ghost condition = { λ d. condition_of D.Disk d };

    ghost holds = { λ d h. HoldsOn S.score_of D.Disk d h };

    ghost does = { λ d m result d'. DoesRequest S.score_of D.Disk m result d d' };

    ghost durable_is_held = { λ d h hold. subst (λ n. d.core.log.durable ≤ n) hold.1.log.front
        (le-add_right d.core.log.durable (queued d.core.log)) };

    /// Asks the store as its first session, and drives it until it has answered; a block gets the
    /// time that is kept here.
    fn ask(&mut self, alloc: Global, operation: Operation<'_>) -> Said {
        let operation = asked_for(operation);
        ask(&mut self.core, alloc, 0, operation, self.now).said
    }
}

/// The operation, of which a read takes no more than a block may have.
fn asked_for(operation: Operation<'_>) -> Operation<'_>
    ensures { operation_of result ≡ asked_of_store (operation_of operation.entry) }
{
    match operation {
        Operation::Read { score, kind, count } => Operation::Read {
            score,
            kind,
            count: count.min(MAX_BLOCK as u32),
        },
        Operation::Write { .. } | Operation::Sync => operation,
    }
}
