//! Answering syncs that wait.

ghost use Rattle.std.specs.Prelude.{◌<◌, length};
ghost use Rattle.vt_core.specs.declared.event.Event.{Event};
ghost use Rattle.vt_core.specs.Asking.{AnswersSync};

use crate::asking::say;
use crate::event::Out;
use crate::laws::crash_gives_a_prefix;
use crate::store::Core;
use vt_base::{Said, Scorer, Why};
use vt_disk::Disk;

impl<D: Disk, S: Scorer> Core<D, S> {
    ghost use Rattle.vt_core.specs.Steps.{Steps};
    ghost use Rattle.vt_core.specs.Whole.{IsWhole};

    /// The answer to the sync that a session waits for.
    pub(crate) fn answer_sync(&mut self, session: u32) -> Out
        requires { session < length self.old.waiting }
        ensures { Steps S.score_of D.Disk (Event.Answer session) result self.old self.new }
    {
        crash_gives_a_prefix::<D>();
        self.end_sync(session)
    }

    /// What a session gets whose sync waits.
    fn end_sync(&mut self, session: u32) -> Out
        requires { session < length self.old.waiting }
        ensures answers { AnswersSync session result self.old self.new }
        ensures whole { IsWhole D.Disk self.old }
    {
        let at = session as usize;
        let Some(number) = self.waiting[at] else {
            return Out::Nothing;
        };
        if let Some(call) = self.log.stopped() {
            self.waiting[at] = None;
            return say(Said::Refused(Why::Stopped(call)), number);
        }
        if number > self.log.durable() {
            return Out::NotYet;
        }
        self.waiting[at] = None;
        self.synced = self.synced.max(number);
        say(Said::Synced, number)
    }
}
