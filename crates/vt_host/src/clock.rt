//! The system's clock.

use crate::system::ClockCalls;
use vt_out::Clock;

/// A clock of the system, as a runtime is. It gives 0 where that fails, as before 1970, and
/// 2^32 - 1 where that many seconds have passed, in 2106.
#[derive(Drop)]
pub struct StdClock<C>(pub C);

impl<C: ClockCalls> Clock for StdClock<C> {
    ghost use Rattle.vt_host.specs.Times.{seconds};

    ghost tells = { C.tells };

    ghost time = { λ clock. seconds (C.answer clock.0) };

    /// The system's time in seconds, at most the greatest of 32 bits, and 0 where it can't be
    /// asked.
    fn now(&mut self) -> u32 {
        match self.0.time() {
            Ok(time) => u32::try_from(time.as_secs()).unwrap_or(u32::MAX),
            Err(_) => 0,
        }
    }
}
