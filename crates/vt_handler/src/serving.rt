//! Serving a session, whose input is answered as it comes in.

ghost use Rattle.std.specs.Prelude.{◌≡◌, ◌≢◌, ◌+◌, ◌<◌, ◌≤◌, ◌++◌, ℕ, List, [], None, length, false, IsTrue, IfOk, IfSome};
ghost use Rattle.vt_base.specs.Bytes.{AreBytes};
ghost use Rattle.vt_base.specs.Faults.{HasCause};
ghost use Rattle.vt_model.specs.History.{History};
ghost use Rattle.vt_session.specs.Hearing.{MatchNext};
ghost use Rattle.vt_session.specs.Talk.{Took, spent_len};
ghost use Rattle.vt_session.specs.Talking.{at_line, fed, needs_more, room, EndsAnyhow, IsHeardStage, IsOpen};
ghost use Rattle.vt_session.specs.Turns.{server_line};
ghost use Rattle.vt_handler.specs.Clients.{IsAnswered};
ghost use Rattle.vt_handler.specs.Condition.{ConditionGoesOn};
ghost use Rattle.vt_handler.specs.Links.{AdvancesStage, InputComes, Goes, SaysNext, EndsHere, TookAll, AllSaid, ReadCause, ReadsSo, LessIsLeft, AnswersLink, ended_of, since};
ghost use Rattle.vt_handler.specs.Sessions.{AnswersNext, AsksOnce, IsItemOrEnd, SinkCause};
ghost use Rattle.vt_handler.specs.Taking.{DoesSome};
ghost use Rattle.vt_handler.specs.Writing.{WritesOut};

use crate::asking::{failure_of, reply};
use crate::{Answering, Client, Store};
use std::alloc::{AllocError, Global};
use vt_base::Failed;
use vt_session::{Ended, Next, Talker};
use vt_wire::{Reply, rule_text};

/// How many bytes are taken at a time.
const PIECE: usize = 65_536;

/// What came of a session.
#[derive(Clone, Copy, Debug, PartialEq, Eq)]
pub struct Served {
    /// How it ended.
    pub ended: Ended,
    /// How many bytes were taken.
    pub taken: u64,
}

impl Answering {
    /// Serves a session until it ends, and tells how. The server's line goes out first, and
    /// whatever can be answered is answered, and has gone out, before more is taken.
    pub fn serve<T: Store, C: Client>(
        &mut self,
        alloc: Global,
        store: &mut T,
        client: &mut C,
    ) -> Served
        requires line { self.old ≡ record { waiting = server_line; failure = None } }
        requires begins { IsTrue C.tells → IsTrue C.waits →
            (C.sent client.old ≡ []) × (C.written client.old ≡ []) }
        ensures told { (h : History) → T.holds store.old h → IsTrue C.tells
            → AnswersLink T.Store store.old store.new h self.new.failure
            (since (C.sent client.old) (C.sent client.new))
            (since (C.written client.old) (C.written client.new)) result.ended }
        ensures took { IsTrue C.tells → Took (C.left client.old)
            (since (C.sent client.old) (C.sent client.new)) (C.left client.new) result.ended }
        ensures taken { IsTrue C.tells → result.taken
            ≡ length (since (C.sent client.old) (C.sent client.new)) }
        ensures most { result.taken ≤ spent_len }
        ensures written { IsTrue C.tells → C.written client.new
            ≡ C.written client.old ++ since (C.written client.old) (C.written client.new) }
        ensures goes_on { ConditionGoesOn (T.condition store.old) (T.condition store.new) }
        ensures does { DoesSome T.Store store.old store.new None self.new.failure }
        ensures reads { ReadCause result.ended
            (C.read_faults client.old) (C.read_faults client.new) }
        ensures writes { SinkCause result.ended
            (C.write_faults client.old) (C.write_faults client.new) }
        ensures memory { result.ended ≡ Ended.NoMemory
            → (store.new ≡ store.old) × (client.new ≡ client.old) }
    {
        let Ok((mut talker, mut piece)) = session_memory(alloc) else {
            return Served {
                ended: Ended::NoMemory,
                taken: 0,
            };
        };
        let ended = match self.serve_talker(alloc, store, &mut talker, &mut piece, client) {
            Ok(ended) => ended,
            Err(Failed) => Ended::WriteFault,
        };
        Served {
            ended,
            taken: talker.taken(),
        }
    }

    /// Answers what comes until the session ends, through a buffer.
    fn serve_talker<T: Store, C: Client>(
        &mut self,
        alloc: Global,
        store: &mut T,
        talker: &mut Talker,
        piece: &mut [u8],
        client: &mut C,
    ) -> Result<Ended, Failed>
        requires line { self.old ≡ record { waiting = server_line; failure = None } }
        requires begins { IsTrue C.tells → IsTrue C.waits →
            (C.sent client.old ≡ []) × (C.written client.old ≡ []) }
        requires talker { talker.old ≡ record { stage = at_line []; taken = 0 } }
        requires some { 0 < length piece.old }
        ensures told { (h : History) → T.holds store.old h → IsTrue C.tells
            → AnswersLink T.Store store.old store.new h self.new.failure
            (since (C.sent client.old) (C.sent client.new))
            (since (C.written client.old) (C.written client.new)) (ended_of result) }
        ensures took { IsTrue C.tells → Took (C.left client.old)
            (since (C.sent client.old) (C.sent client.new)) (C.left client.new) (ended_of result) }
        ensures taken { IsTrue C.tells → talker.new.taken
            ≡ length (since (C.sent client.old) (C.sent client.new)) }
        ensures written { IsTrue C.tells → C.written client.new
            ≡ C.written client.old ++ since (C.written client.old) (C.written client.new) }
        ensures goes_on { ConditionGoesOn (T.condition store.old) (T.condition store.new) }
        ensures does { DoesSome T.Store store.old store.new None self.new.failure }
        ensures reads { ReadCause (ended_of result)
            (C.read_faults client.old) (C.read_faults client.new) }
        ensures writes { SinkCause (ended_of result)
            (C.write_faults client.old) (C.write_faults client.new) }
        ensures memory { ended_of result ≢ Ended.NoMemory }
    {
        loop {
            if let Some(ended) = self.step(alloc, store, talker, piece, client)? {
                self.output.flush(client)?;
                return Ok(ended);
            }
        }
    }

    /// Answers what comes next; where more is needed for that, writes what waits, and takes more.
    /// Or it says how the session ends.
    fn step<T: Store, C: Client>(
        &mut self,
        alloc: Global,
        store: &mut T,
        talker: &mut Talker,
        piece: &mut [u8],
        client: &mut C,
    ) -> Result<Option<Ended>, Failed>
        requires answered { IsTrue C.tells → IsTrue C.waits → IsOpen talker.old.stage
            → IsAnswered (C.sent client.old) (C.written client.old ++ self.old.waiting) }
        requires heard { IsHeardStage talker.old.stage }
        requires some { 0 < length piece.old }
        ensures goes { Goes T.Store (IsTrue C.tells) result store.old store.new self.old self.new
            (C.written client.old) (C.written client.new) (C.sent client.old) (C.sent client.new)
            (C.left client.old) (C.left client.new) talker.old talker.new }
        ensures ends { EndsHere result talker.new }
        ensures all { IsTrue C.tells → TookAll result (C.left client.new) }
        ensures said { AllSaid result self.new.waiting }
        ensures less { LessIsLeft result talker.old talker.new }
        ensures heard { IsHeardStage talker.new.stage }
        ensures goes_on { ConditionGoesOn (T.condition store.old) (T.condition store.new) }
        ensures does { DoesSome T.Store store.old store.new self.old.failure self.new.failure }
        ensures reads { ReadsSo result (C.read_faults client.old) (C.read_faults client.new) }
        ensures writes { HasCause result
            (C.write_faults client.old) (C.write_faults client.new) }
    {
        if talker.needs_more() {
            self.output.flush(client)?;
            Ok(hear_more(talker, piece, client))
        } else {
            self.answer_next(alloc, store, talker, client)
        }
    }

    /// Answers what comes next, once there is room for the reply; or says how the session ends.
    fn answer_next<T: Store, C: Client>(
        &mut self,
        alloc: Global,
        store: &mut T,
        talker: &mut Talker,
        client: &mut C,
    ) -> Result<Option<Ended>, Failed>
        requires some { needs_more talker.old.stage ≡ false }
        requires heard { IsHeardStage talker.old.stage }
        ensures advances { AdvancesStage T.Store store.old store.new self.old self.new
            (λ said. IsTrue C.tells → WritesOut result (C.written client.old) self.old.waiting
            (C.written client.new) self.new.waiting said) talker.old.stage talker.new.stage [] }
        ensures kept { IsTrue C.tells → (C.sent client.new ≡ C.sent client.old)
            × (C.left client.new ≡ C.left client.old) }
        ensures taken { talker.new.taken ≡ talker.old.taken }
        ensures ends { EndsHere result talker.new }
        ensures itself { IfOk result (λ ended. IfSome ended EndsAnyhow) }
        ensures less { LessIsLeft result talker.old talker.new }
        ensures heard { IsHeardStage talker.new.stage }
        ensures goes_on { ConditionGoesOn (T.condition store.old) (T.condition store.new) }
        ensures does { DoesSome T.Store store.old store.new self.old.failure self.new.failure }
        ensures reads { ReadsSo result (C.read_faults client.old) (C.read_faults client.new) }
        ensures writes { HasCause result
            (C.write_faults client.old) (C.write_faults client.new) }
    {
        if self.output.is_full() {
            self.output.flush(client)?;
        }
        Ok(self.say_next(alloc, store, talker))
    }

    /// Says what the next item is answered, which waits; or tells the end.
    fn say_next<T: Store>(
        &mut self,
        alloc: Global,
        store: &mut T,
        talker: &mut Talker,
    ) -> Option<Ended>
        requires some { needs_more talker.old.stage ≡ false }
        requires room { length self.old.waiting + 57348 ≤ 131072 }
        ensures advances { AdvancesStage T.Store store.old store.new self.old self.new
            (λ said. self.new.waiting ≡ self.old.waiting ++ said)
            talker.old.stage talker.new.stage [] }
        ensures taken { talker.new.taken ≡ talker.old.taken }
        ensures ends { EndsHere (Ok result) talker.new }
        ensures itself { IfSome result EndsAnyhow }
        ensures less { LessIsLeft (Ok result) talker.old talker.new }
        ensures heard { IsHeardStage talker.new.stage }
        ensures goes_on { ConditionGoesOn (T.condition store.old) (T.condition store.new) }
        ensures does { DoesSome T.Store store.old store.new self.old.failure self.new.failure }
    {
        let Some(next) = talker.next() else {
            return None;
        };
        let ended = self.say(alloc, store, &next);
        talker.pass();
        ended
    }

    /// Says what one item is answered, which then waits to be written; None, unless this is the
    /// end.
    fn say<T: Store>(&mut self, alloc: Global, store: &mut T, next: &Next<'_>) -> Option<Ended>
        requires known { IsItemOrEnd next.now }
        requires room { length self.old.waiting + 57348 ≤ 131072 }
        ensures answers { AnswersNext T.Store store.old store.new self.old self.new
            (λ said. self.new.waiting ≡ self.old.waiting ++ said) next.now }
        ensures says { SaysNext next.now self.old.waiting self.new.waiting }
        ensures end { MatchNext next.now (λ item. result ≡ None) (λ ended. result ≡ Some ended) }
        ensures goes_on { ConditionGoesOn (T.condition store.old) (T.condition store.new) }
        ensures does { DoesSome T.Store store.old store.new self.old.failure self.new.failure }
        ensures once { AsksOnce T.Store store.old store.new next.now }
    {
        match *next {
            Next::End(ended) => Some(ended),
            Next::Refused(rule, tag) => {
                let text = rule_text(rule).as_bytes();
                self.output.push(tag, &Reply::Error(text));
                None
            }
            Next::Hello(tag) => {
                self.output.push(tag, &Reply::Hello);
                None
            }
            Next::Ping(tag) => {
                self.output.push(tag, &Reply::Ping);
                None
            }
            Next::Ask(tag, operation) => {
                let said = store.ask(alloc, operation);
                self.failure = self.failure.or(failure_of(&said));
                self.output.push(tag, &reply(&said));
                None
            }
        }
    }
}

/// Takes more of the input, as much as there is room for. None says that the session goes on; it
/// ends where the read fails, nothing more comes, or the link has taken all that it may.
fn hear_more<C: Client>(talker: &mut Talker, piece: &mut [u8], client: &mut C) -> Option<Ended>
    requires needs { IsTrue (needs_more talker.old.stage) }
    requires unfinished { IsOpen talker.old.stage }
    requires heard { IsHeardStage talker.old.stage }
    requires answered { IsTrue C.tells → IsTrue C.waits
        → IsAnswered (C.sent client.old) (C.written client.old) }
    requires some { 0 < length piece.old }
    ensures comes { InputComes (IsTrue C.tells) (C.sent client.old) (C.sent client.new)
        (C.left client.old) (C.left client.new) talker.old talker.new }
    ensures ends { EndsHere (Ok result) talker.new }
    ensures all { IsTrue C.tells → TookAll (Ok result) (C.left client.new) }
    ensures less { LessIsLeft (Ok result) talker.old talker.new }
    ensures heard { IsHeardStage talker.new.stage }
    ensures written { IsTrue C.tells → C.written client.new ≡ C.written client.old }
    ensures reads { ReadsSo (Ok result) (C.read_faults client.old) (C.read_faults client.new) }
    ensures writes { C.write_faults client.new ≡ C.write_faults client.old }
{
    let most = talker.room().min(piece.len());
    if most == 0 {
        return Some(Ended::Spent);
    }
    match client.take(&mut piece[..most]) {
        Err(Failed) => Some(Ended::ReadFault),
        Ok(0) => Some(talker.end()),
        Ok(n) => {
            feed_all(talker, &piece[..n]);
            None
        }
    }
}

/// Feeds a piece that there is room for.
fn feed_all(talker: &mut Talker, piece: &[u8])
    requires { length piece.now ≤ room talker.old }
    ensures fed { talker.new ≡ fed talker.old piece.now }
    ensures bytes { AreBytes piece.now }
    ensures heard { IsHeardStage talker.new.stage }
{
    talker.feed(piece);
}

/// What hears the input, and a buffer for pieces of it.
fn session_memory(alloc: Global) -> Result<(Talker, Vec<u8>), AllocError>
    ensures talker { IfOk result (λ it. it.0 ≡ record { stage = at_line []; taken = 0 }) }
    ensures piece { IfOk result (λ it. 0 < length it.1.items) }
{
    let talker = Talker::new(alloc)?;
    let piece = vec![in alloc; 0; PIECE]?;
    Ok((talker, piece))
}
