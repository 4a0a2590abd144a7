//! What went over the link to a server, and why it didn't answer: each law the contract of a function that does
//! nothing. In each, `calls` are those of a store of blocks that were made of the client, `met` and `last` the client
//! behind the greeting and behind these calls, `back` its link when it was taken back, and `score_of` any function of
//! a block's bytes.

ghost use Rattle.std.specs.Prelude.{◌≡◌, ℕ, IsTrue, List, [], map};
ghost use Rattle.vt_client.specs.declared.error.ClientErr.{ClientErr};
ghost use Rattle.vt_client.specs.Clients.{ClientState};
ghost use Rattle.vt_client.specs.Exchanges.{traffic_of};
ghost use Rattle.vt_remote.specs.Exchanged.{Exchanged, exchange_of, sent_behind};
ghost use Rattle.vt_remote.specs.Refused.{HasCauseOver, IsFirstRefusal};
ghost use Rattle.vt_remote.specs.Remote.{MeetsInVain, TalksFor};
ghost use Rattle.vt_tree.specs.Calls.{Call, refusals_of};

use vt_out::Link;

/// Where all calls of a server's client were answered, over a link that tells its bytes, the request of
/// each went out, and each had its reply before the next one; and nothing else was asked. The client
/// tells how many blocks the server took in.
pub fn calls_are_exchanged<L: Link>()
    ensures all { (score_of : List ℕ → List ℕ) (calls : List Call) (met last : ClientState L)
        (back : L) → IsTrue L.tells → TalksFor L.Link score_of calls met last back
        → refusals_of calls ≡ []
        → Exchanged (map (exchange_of score_of) calls) (traffic_of L.Link back) }
    ensures sent { (score_of : List ℕ → List ℕ) (calls : List Call) (met last : ClientState L)
        (back : L) → TalksFor L.Link score_of calls met last back
        → last.sent ≡ sent_behind calls 0 }
{}

/// A refusal has its cause, over any link: a failed call is told only where the link that came back
/// counts one, and of scores only two that differ. What a client tells that it was refused for first is
/// what the first refusal was told of.
pub fn refusals_have_causes<L: Link>()
    ensures met { (score_of : List ℕ → List ℕ) (why : ClientErr) (back : L)
        → MeetsInVain L.Link score_of why back → HasCauseOver L.Link why back }
    ensures first { (score_of : List ℕ → List ℕ) (calls : List Call) (met last : ClientState L)
        (back : L) → TalksFor L.Link score_of calls met last back
        → IsFirstRefusal L.Link last.refused calls back }
{}
