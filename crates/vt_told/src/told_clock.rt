//! A clock that tells where it can't be asked.

use crate::teller::{Call, Teller};
use crate::told::ToldAs;
use std::io;
use std::time::Duration;
use vt_host::ClockCalls;

impl<C: ClockCalls, T: Teller + Copy> ClockCalls for ToldAs<C, T> {
    ghost tells = { C.tells };

    ghost answer = { λ clock. C.answer clock.calls };

    /// Asks it once.
    fn time(&mut self) -> io::Result<Duration> {
        let time = self.calls.time();
        self.label.hear(Call::Ask, &time);
        time
    }
}
