//! Using a store: it is opened, a job is done with it, and it is closed, whatever the job came to.

ghost use Rattle.std.specs.Prelude.{◌≡◌, ◌+◌, ◌^◌, ◌<◌, IsTrue, IfErr, OnErr, OnOk, IfOk, length};
ghost use Rattle.vt_core.specs.Machine.{WaitsForNone};
ghost use Rattle.vt_open.specs.Opening.{NamesCause, RefusesStore};
ghost use Rattle.vt_requests.specs.Driven.{DrivenState};
ghost use Rattle.vt_use.specs.Stores.{store_on};
ghost use Rattle.vt_use.specs.Uses.{Uses, UsesCore};

use crate::job::Job;
use crate::laws::calls_are_runs;
use std::alloc::Global;
use vt_base::{Scorer, Why};
use vt_conf::Conf;
use vt_core::Core;
use vt_disk::Disk;
use vt_open::{OpenError, close_store, open_store, shapes_are_kept};
use vt_partitions::Parts;
use vt_requests::{Driven, end};

/// What came of the use of a store.
#[derive(Drop)]
pub struct Used<O> {
    /// What the job came to, also where the end of the store's use failed.
    pub output: O,
    /// How many blocks are new in the store.
    pub added: u64,
    /// What failed first at the end of the store's use, if anything did. Behind a job that only reads
    /// nothing is done there.
    pub closed: Result<(), Why>,
}

/// Does this with a store whose first session waits for nothing. Where the job may add blocks, the
/// store's use is ended behind it, whatever came of it: what is queued is committed, entries are
/// written back, marks are raised and the Bloom filter is saved, as far as no part has stopped. `now`
/// is the second at which it begins, the time of the clumps that it adds.
pub fn use_core<D: Disk, S: Scorer, X, J: Job<X>>(
    alloc: Global,
    core: Core<D, S>,
    now: u32,
    job: &J,
    beside: &mut X,
) -> (Used<J::Output>, Core<D, S>)
    requires free { WaitsForNone core.waiting 0 }
    requires fits { J.fits (DrivenState D) (store_on S.score_of D.Disk) job.now beside.old }
    ensures uses { UsesCore S.score_of D.Disk now (J.writes job.now)
        (J.does (DrivenState D) (store_on S.score_of D.Disk) job.now result.0.output beside.old
        beside.new) result.0.added result.0.closed core result.1 }
    ensures waiting { result.1.waiting ≡ core.waiting }
{
    let before = core.history_len();
    let (output, store) = job.run(alloc, Driven::new(core, now), beside);
    let mut core = store.into_core();
    let closed = if job.writes() {
        end(&mut core, alloc)
    } else {
        Ok(())
    };
    let added = core.history_len().saturating_sub(before);
    let used = Used {
        output,
        added,
        closed,
    };
    (used, core)
}

/// Opens the store of a configuration, uses it so, and closes it, whatever came of it. Where the store
/// isn't opened, nothing is done.
pub fn use_store<P: Parts, S: Scorer, X, J: Job<X>>(
    alloc: Global,
    parts: &mut P,
    conf: &Conf,
    scorer: &S,
    now: u32,
    job: &J,
    beside: &mut X,
) -> Result<Used<J::Output>, OpenError>
    requires few { length conf.now.arenas.items + length conf.now.sections.items + 1 < 2 ^ 32 }
    requires some_arenas { 0 < length conf.now.arenas.items }
    requires some_section { 0 < length conf.now.sections.items }
    requires fits { J.fits (DrivenState P.Disk) (store_on S.score_of P.Disk.Disk) job.now beside.old }
    ensures uses { IfOk result (λ used. Uses S.score_of P.Disk.Disk (IsTrue P.tells) conf.now
        (UsesCore S.score_of P.Disk.Disk now (J.writes job.now)
        (J.does (DrivenState P.Disk) (store_on S.score_of P.Disk.Disk) job.now used.output
        beside.old beside.new) used.added used.closed) (P.standing parts.old)
        (P.standing parts.new)) }
    ensures faults { OnOk result (P.faults parts.new ≡ P.faults parts.old) }
    ensures refused { IfErr result (RefusesStore S.score_of P.Disk.Disk (IsTrue P.tells) conf.now
        (P.standing parts.old) (P.standing parts.new) (P.faults parts.old) (P.faults parts.new)) }
    ensures differs { IfErr result NamesCause }
    ensures untouched { OnErr result (beside.new ≡ beside.old) }
{
    calls_are_runs::<P::Disk>();
    shapes_are_kept::<P::Disk>();
    let core = open_store(alloc, parts, conf, 1, scorer)?;
    let (used, core) = use_core(alloc, core, now, job, beside);
    close_store(parts, conf, core);
    Ok(used)
}
