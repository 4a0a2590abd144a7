//! Answering what a session hears.

ghost use Rattle.std.specs.Prelude.{◌≡◌, None, IfOk};
ghost use Rattle.vt_session.specs.Turns.{server_line};

use crate::output::Output;
use std::alloc::{AllocError, Global};
use std::marker::Model;
use vt_base::Why;

/// One session's answers: the replies that wait to be written, and why the store failed first.
#[derive(Drop)]
pub struct Answering {
    pub(crate) output: Output,
    pub(crate) failure: Option<Why>,
}

impl Model for Answering {
    ghost use Rattle.vt_handler.specs.Sessions.{Spoken};

    ghost Value = { Spoken };

    ghost view = { λ a. record { waiting = a.output; failure = a.failure } };
}

impl Answering {
    /// The server's line waits, and nothing failed.
    pub fn new(alloc: Global) -> Result<Self, AllocError>
        ensures { IfOk result (λ it. it ≡ record { waiting = server_line; failure = None }) }
    {
        let output = Output::new(alloc)?;
        Ok(Answering {
            output,
            failure: None,
        })
    }

    /// Why the store failed first, if it did.
    pub fn failure(&self) -> Option<Why>
        ensures { result ≡ self.now.failure }
    {
        self.failure
    }
}
