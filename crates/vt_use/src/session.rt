//! Serving a session over a store on devices.

ghost use Rattle.std.specs.Prelude.{◌≡◌, ◌≤◌, ◌++◌, ℕ, [], None, IsTrue, length};
ghost use Rattle.vt_handler.specs.Links.{AnswersLink, ReadCause, since};
ghost use Rattle.vt_handler.specs.Sessions.{SinkCause};
ghost use Rattle.vt_handler.specs.Taking.{DoesSome};
ghost use Rattle.vt_core.specs.Machine.{WaitsForNone};
ghost use Rattle.vt_model.specs.History.{History};
ghost use Rattle.vt_use.specs.Sessions.{ServesStore};
ghost use Rattle.vt_session.specs.Talk.{Took, spent_len};

use crate::job::Job;
use crate::using::use_core;
use std::alloc::Global;
use vt_base::{Scorer, Why};
use vt_core::Core;
use vt_disk::Disk;
use vt_handler::{Answering, Client, Served, Store};
use vt_session::Ended;

/// What came of a session over a store.
#[derive(Clone, Copy, Debug, PartialEq, Eq)]
pub struct StoreServed {
    /// How the session ended.
    pub ended: Ended,
    /// How many bytes were taken.
    pub taken: u64,
    /// Why the store failed first in a request, if it did.
    pub failure: Option<Why>,
    /// What failed first at the end of the store's use, if anything did.
    pub closed: Result<(), Why>,
}

/// Serves a session over a store whose first session waits for nothing, and ends the store's use,
/// whatever ended the session: what is queued is committed, entries are written back, marks are
/// raised and the Bloom filter is saved, as far as no part has stopped. `now` is the second at which
/// the session began, the time of the clumps that it adds.
///
/// Where there is no memory for a session, nothing is taken or put.
pub fn serve_store<D: Disk, S: Scorer, C: Client>(
    alloc: Global,
    core: Core<D, S>,
    now: u32,
    client: &mut C,
) -> (StoreServed, Core<D, S>)
    requires free { WaitsForNone core.waiting 0 }
    requires begins { IsTrue C.tells → IsTrue C.waits →
        (C.sent client.old ≡ []) × (C.written client.old ≡ []) }
    ensures serves { ServesStore S.score_of D.Disk result.0 now core result.1 C.tells
        (since (C.sent client.old) (C.sent client.new))
        (since (C.written client.old) (C.written client.new)) }
    ensures waiting { result.1.waiting ≡ core.waiting }
    ensures took { IsTrue C.tells → Took (C.left client.old)
        (since (C.sent client.old) (C.sent client.new)) (C.left client.new) result.0.ended }
    ensures taken { IsTrue C.tells → result.0.taken
        ≡ length (since (C.sent client.old) (C.sent client.new)) }
    ensures most { result.0.taken ≤ spent_len }
    ensures written { IsTrue C.tells → C.written client.new
        ≡ C.written client.old ++ since (C.written client.old) (C.written client.new) }
    ensures reads { ReadCause result.0.ended
        (C.read_faults client.old) (C.read_faults client.new) }
    ensures writes { SinkCause result.0.ended
        (C.write_faults client.old) (C.write_faults client.new) }
    ensures memory { result.0.ended ≡ Ended.NoMemory → client.new ≡ client.old }
{
    let (used, core) = use_core(alloc, core, now, &ServeSession, client);
    let (served, failure) = used.output;
    let all = StoreServed {
        ended: served.ended,
        taken: served.taken,
        failure,
        closed: used.closed,
    };
    (all, core)
}

/// One session is served to a client. Beside how it ended it is told why the store failed first in a
/// request, if it did.
pub struct ServeSession;

impl<C: Client> Job<C> for ServeSession {
    ghost use Rattle.std.specs.Prelude.{true};
    ghost use Rattle.vt_use.specs.Sessions.{ServesSession};

    type Output = (Served, Option<Why>);

    ghost fits = { λ T store it client. IsTrue C.tells → IsTrue C.waits →
        (C.sent client ≡ []) × (C.written client ≡ []) };

    ghost does = { λ T store it output before after exchanges old new.
        ServesSession store C.Client output.0 output.1 before after exchanges old new };

    ghost writes = { λ it. true };

    /// It writes, since a client may.
    fn writes(&self) -> bool {
        true
    }

    /// Serves the session of the client.
    fn run<T: Store>(
        &self,
        alloc: Global,
        mut store: T,
        client: &mut C,
    ) -> ((Served, Option<Why>), T) {
        let output = serve_session(alloc, &mut store, client);
        (output, store)
    }
}

/// Serves a session, if there is memory for its answers, and tells why the store failed first.
fn serve_session<T: Store, C: Client>(
    alloc: Global,
    store: &mut T,
    client: &mut C,
) -> (Served, Option<Why>)
    requires begins { IsTrue C.tells → IsTrue C.waits →
        (C.sent client.old ≡ []) × (C.written client.old ≡ []) }
    ensures told { (h : History) → T.holds store.old h → IsTrue C.tells
        → AnswersLink T.Store store.old store.new h result.1
        (since (C.sent client.old) (C.sent client.new))
        (since (C.written client.old) (C.written client.new)) result.0.ended }
    ensures took { IsTrue C.tells → Took (C.left client.old)
        (since (C.sent client.old) (C.sent client.new)) (C.left client.new) result.0.ended }
    ensures taken { IsTrue C.tells → result.0.taken
        ≡ length (since (C.sent client.old) (C.sent client.new)) }
    ensures most { result.0.taken ≤ spent_len }
    ensures written { IsTrue C.tells → C.written client.new
        ≡ C.written client.old ++ since (C.written client.old) (C.written client.new) }
    ensures does { DoesSome T.Store store.old store.new None result.1 }
    ensures reads { ReadCause result.0.ended
        (C.read_faults client.old) (C.read_faults client.new) }
    ensures writes { SinkCause result.0.ended
        (C.write_faults client.old) (C.write_faults client.new) }
    ensures memory { result.0.ended ≡ Ended.NoMemory
        → (store.new ≡ store.old) × (client.new ≡ client.old) }
{
    let Ok(mut answering) = Answering::new(alloc) else {
        let none = Served {
            ended: Ended::NoMemory,
            taken: 0,
        };
        return (none, None);
    };
    let served = answering.serve(alloc, store, client);
    (served, answering.failure())
}
