//! Which calls of a fake fail: those whose numbers, counted from 0, a list has.

ghost use Rattle.std.specs.Prelude.{◌≡◌, ◌↔◌, ◌+◌, ◌-◌, ◌<◌, ◌^◌, min};
ghost use Rattle.std.specs.Prelude.{IsTrue, Contains, MatchBool};
ghost use Rattle.vt_base.specs.Faults.{HasRisen, IsOneMore};

/// The numbers of the calls that fail, and how many calls were made and have failed.
#[derive(Drop)]
pub struct Plan {
    pub failing: Vec<u64>,
    pub calls: u64,
    pub faults: u64,
    ghost faults_fit: { faults < 2 ^ 64 },
}

impl Plan {
    /// No call was made yet.
    pub fn new(failing: Vec<u64>) -> Self
        ensures failing { result.failing ≡ failing }
        ensures calls { result.calls ≡ 0 }
        ensures faults { result.faults ≡ 0 }
    {
        Plan {
            failing,
            calls: 0,
            faults: 0,
        }
    }

    /// Whether the next call is in the list.
    pub fn lists_next(&self) -> bool
        ensures { IsTrue result ↔ Contains self.now.failing.items self.now.calls }
    {
        self.failing.contains(&self.calls)
    }

    /// Counts a call, and where it failed a fault too.
    pub fn count(&mut self, failed: bool)
        ensures failing { self.new.failing ≡ self.old.failing }
        ensures calls { IsOneMore self.old.calls self.new.calls }
        ensures faults { MatchBool failed
            (HasRisen self.old.faults self.new.faults) (self.new.faults ≡ self.old.faults) }
    {
        self.calls = self.calls.saturating_add(1);
        if failed {
            self.faults = self.faults.saturating_add(1);
        }
    }
}
