//! Which calls of a disk in memory fail.

ghost use Rattle.std.specs.Prelude.{◌≡◌, ◌↔◌, ◌^◌, ◌<◌, ℕ, List, [], IsTrue, Contains, MatchBool};
ghost use Rattle.vt_base.specs.Faults.{HasRisen, IsOneMore};

/// Counts the reads, writes and syncs of a disk from 0, and says which fail.
pub trait Plan: Drop {
    /// The numbers of the calls that fail.
    ghost listed: { Self → List ℕ };

    /// The number of the next call.
    ghost calls: { Self → ℕ };

    /// How many calls have failed.
    ghost faults: { Self → ℕ };

    /// Counts a call, and tells whether it fails.
    fn next_fails(&mut self) -> bool
        ensures fails { IsTrue result ↔ Contains (listed self.old) (calls self.old) }
        ensures listed { listed self.new ≡ listed self.old }
        ensures calls { IsOneMore (calls self.old) (calls self.new) }
        ensures faults { MatchBool result
            (HasRisen (faults self.old) (faults self.new)) (faults self.new ≡ faults self.old) };

    /// The machine starts again: from now on no call fails, and calls are counted from 0.
    fn restart(&mut self)
        ensures listed { listed self.new ≡ [] }
        ensures calls { calls self.new ≡ 0 }
        ensures faults { faults self.new ≡ faults self.old };

    /// A count of failed calls is a u64.
    ghost faults_fit: { (plan : Self) → faults plan < 2 ^ 64 };
}

/// No call fails.
#[derive(Drop)]
pub struct Never {
    /// How many were made since the start or the last restart.
    calls: u64,
}

impl Never {
    /// Before the first call.
    pub(crate) fn new() -> Self
        ensures { result.calls ≡ 0 }
    {
        Never { calls: 0 }
    }
}

impl Plan for Never {
    ghost use Rattle.std.specs.Prelude.{◌<◌, ◌^◌};
    ghost use Rattle.std.proofs.Common.{arith};

    ghost listed = { λ _. [] };

    ghost calls = { λ plan. plan.calls };

    ghost faults = { λ _. 0 };

    ghost faults_fit = { λ _. Prim.omega arith };

    /// No call fails. It is counted.
    fn next_fails(&mut self) -> bool {
        self.calls = self.calls.saturating_add(1);
        false
    }

    /// The count of calls begins anew.
    fn restart(&mut self) {
        self.calls = 0;
    }
}

/// The calls of a list fail.
#[derive(Drop)]
pub struct Listed {
    /// Their numbers, counted from 0; none behind a restart.
    failing: Vec<u64>,
    /// How many were made since the start or the last restart.
    calls: u64,
    /// How many have failed, also before a restart.
    faults: u64,
    ghost in_range: { faults < 2 ^ 64 },
}

impl Listed {
    /// Before the first call; the numbers, counted from 0, are those of the calls that will fail.
    pub(crate) fn new(failing: Vec<u64>) -> Self
        ensures failing { result.failing ≡ failing }
        ensures calls { result.calls ≡ 0 }
        ensures faults { result.faults ≡ 0 }
    {
        Listed {
            failing,
            calls: 0,
            faults: 0,
        }
    }
}

impl Plan for Listed {
    ghost listed = { λ plan. plan.failing.items };

    ghost calls = { λ plan. plan.calls };

    ghost faults = { λ plan. plan.faults };

    ghost faults_fit = { λ plan. plan.in_range };

    /// The call fails whose number is in the list. It is counted, and so is the failure.
    fn next_fails(&mut self) -> bool {
        let fails = self.failing.contains(&self.calls);
        self.calls = self.calls.saturating_add(1);
        if fails {
            self.faults = self.faults.saturating_add(1);
        }
        fails
    }

    /// No call fails any more, and the count of calls begins anew.
    fn restart(&mut self) {
        self.failing.clear();
        self.calls = 0;
    }
}
