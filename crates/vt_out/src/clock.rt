//! The time, as a trait (`Clock`), and a clock that stands still.

ghost use Rattle.std.specs.Prelude.{◌≡◌, ℕ, Bool, IsTrue};

use std::marker::Model;

/// Gives the time, in seconds since the beginning of 1970.
pub trait Clock {
    /// Whether clocks of this type tell the time that they give next. The system's doesn't.
    ghost tells: { Bool };

    /// The time that it gives next, where it tells it.
    ghost time: { Self → ℕ };

    /// The time, in seconds since 1970.
    fn now(&mut self) -> u32
        ensures { IsTrue tells → result ≡ time self.old };
}

/// A clock that stands still, which contracts see as its time.
#[derive(Clone, Copy, Debug)]
pub struct MemClock {
    /// In seconds since 1970.
    time: u32,
}

impl Model for MemClock {
    ghost use Rattle.std.specs.Prelude.{ℕ};

    ghost Value = { ℕ };

    ghost view = { λ clock. clock.time };

    ghost inverse = { λ n. record { time = n } };
}

impl MemClock {
    /// A clock that gives this time at each call.
    pub fn new(time: u32) -> Self
        ensures { result ≡ time }
    {
        MemClock { time }
    }
}

impl Clock for MemClock {
    ghost use Rattle.std.specs.Prelude.{◌≡◌, true};

    ghost tells = { true };

    ghost time = { λ clock. clock };

    /// The time that it was made with.
    fn now(&mut self) -> u32
        ensures time { result ≡ self.old }
        ensures still { self.new ≡ self.old }
    {
        self.time
    }
}
