//! Using a store, wherever it is.

ghost use Rattle.std.specs.Prelude.{◌≡◌, ◌+◌, ◌^◌, ◌<◌, IfErr, IfOk, IsTrue, OnErr, length};
ghost use Rattle.vt_core.specs.Machine.{WaitsForNone};
ghost use Rattle.vt_blocks.specs.Local.{DoesLocal, HoldsLocal, LocalState};
ghost use Rattle.vt_open.specs.Opening.{NamesCause, RefusesStore};
ghost use Rattle.vt_requests.specs.Driven.{DrivenState};
ghost use Rattle.vt_use.specs.Stores.{store_on};
ghost use Rattle.vt_use.specs.Change.{dialer_change, parts_change};
ghost use Rattle.vt_use.specs.Places.{CanBeOpened, OpensNone, UsesAt, UsesConf, as_ended, as_refused};

use crate::block_job::{BlockJob, LocalJob};
use crate::server::use_server;
use crate::used_at::{StoreAt, StoreError, UsedAt};
use crate::using::use_store;
use std::alloc::Global;
use vt_base::{Scorer, Why};
use vt_conf::Conf;
use vt_dial::Dialer;
use vt_partitions::Parts;

/// Does this with a store of blocks, wherever that is. That of a configuration is opened for it, and
/// closed behind it, whatever came of it; to a server a link is made, over which both greet, and a
/// goodbye is said. Where the store isn't opened or the server isn't reached, nothing is done. `now` is
/// the time of the clumps that are added to the store of a configuration.
pub fn use_at<P: Parts, N: Dialer, S: Scorer, X, J: BlockJob<X> + Drop>(
    alloc: Global,
    parts: &mut P,
    dialer: &mut N,
    store: &StoreAt,
    scorer: &S,
    now: u32,
    job: J,
    beside: &mut X,
) -> Result<UsedAt<J::Output>, StoreError>
    requires can { CanBeOpened store.now }
    requires fits { J.fits job beside.old }
    ensures uses { UsesAt S.score_of P.Disk.Disk N.Link.Link store.now now (J.writes job)
        (λ output T act holds calls s s'. J.does T act holds S.score_of job output beside.old
        beside.new calls s s') result (parts_change P.Parts parts.old parts.new)
        (dialer_change N.Dialer N.Link.Link dialer.old dialer.new) }
    ensures untouched { OnErr result (beside.new ≡ beside.old) }
{
    match store {
        StoreAt::Conf(conf) => use_conf(alloc, parts, conf, scorer, now, job, beside),
        StoreAt::Server(address) => use_server(alloc, dialer, address, scorer, job, beside),
    }
}

/// The same, with the store of a configuration.
pub fn use_conf<P: Parts, S: Scorer, X, J: BlockJob<X> + Drop>(
    alloc: Global,
    parts: &mut P,
    conf: &Conf,
    scorer: &S,
    now: u32,
    job: J,
    beside: &mut X,
) -> Result<UsedAt<J::Output>, StoreError>
    requires few { length conf.now.arenas.items + length conf.now.sections.items + 1 < 2 ^ 32 }
    requires some_arenas { 0 < length conf.now.arenas.items }
    requires some_section { 0 < length conf.now.sections.items }
    requires fits { J.fits job beside.old }
    ensures uses { IfOk result (λ used. UsesConf S.score_of P.Disk.Disk conf.now now (J.writes job)
        (λ calls l l'. J.does (LocalState (DrivenState P.Disk))
        (DoesLocal (store_on S.score_of P.Disk.Disk))
        (HoldsLocal (store_on S.score_of P.Disk.Disk) S.score_of) S.score_of job used.output
        beside.old beside.new calls l l') used.refusal used.blocks used.closed
        (parts_change P.Parts parts.old parts.new)) }
    ensures none { IfErr result (λ bad. OpensNone S.score_of P.Disk.Disk conf.now bad
        (parts_change P.Parts parts.old parts.new)) }
    ensures untouched { OnErr result (beside.new ≡ beside.old) }
{
    let local = LocalJob { job, scorer };
    match use_store(alloc, parts, conf, scorer, now, &local, beside) {
        Ok(used) => {
            let (output, first_refusal) = used.output;
            Ok(UsedAt {
                output,
                refusal: as_refused(first_refusal),
                blocks: used.added,
                closed: as_ended(used.closed),
            })
        }
        Err(bad) => Err(StoreError::Unopened(bad)),
    }
}

/// Why a store of this process said no first, if it did.
fn as_refused(first_refusal: Option<Why>) -> Option<StoreError>
    ensures { result ≡ as_refused first_refusal }
{
    match first_refusal {
        Some(why) => Some(StoreError::Refused(why)),
        None => None,
    }
}

/// How the use of a store of this process ended: well, or with what failed first in that.
fn as_ended(closed: Result<(), Why>) -> Result<(), StoreError>
    ensures { result ≡ as_ended closed }
{
    match closed {
        Ok(()) => Ok(()),
        Err(why) => Err(StoreError::Refused(why)),
    }
}
