//! The count of an adapter's failed calls.

ghost use Rattle.std.specs.Prelude.{◌<◌, ◌^◌};

use vt_base::Failed;

/// How many calls of an adapter have failed.
#[derive(Drop)]
pub struct Faults {
    /// Of the adapter's calls, each of which may make several of the system. It stays at the
    /// greatest u64.
    pub count: u64,
    ghost fits: { count < 2 ^ 64 },
}

impl Faults {
    ghost use Rattle.std.specs.Prelude.{◌≡◌, ◌+◌, ◌-◌, IfOk, Ok, is_ok, min};
    ghost use Rattle.vt_base.specs.Faults.{HasCause, HasRisen};

    /// No call has failed.
    pub fn new() -> Self
        ensures { result.count ≡ 0 }
    {
        Faults { count: 0 }
    }

    /// What was answered. An error is counted.
    pub fn counted<T, E: Drop>(&mut self, answer: Result<T, E>) -> Result<T, Failed>
        ensures variant { is_ok result ≡ is_ok answer }
        ensures value { IfOk result (λ v. answer ≡ Ok v) }
        ensures cause { HasCause result self.old.count self.new.count }
    {
        match answer {
            Ok(value) => Ok(value),
            Err(_) => {
                self.count_one();
                Err(Failed)
            }
        }
    }

    /// Counts a failed call.
    pub fn count_one(&mut self)
        ensures { HasRisen self.old.count self.new.count }
    {
        self.count = self.count.saturating_add(1);
    }

    /// Counts so many failed calls.
    pub fn count_all(&mut self, calls: u64)
        ensures { self.new.count ≡ min (self.old.count + calls) (2 ^ 64 - 1) }
    {
        self.count = self.count.saturating_add(calls);
    }
}
