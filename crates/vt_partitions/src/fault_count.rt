//! The count of failed calls of partitions in memory.

ghost use Rattle.std.specs.Prelude.{◌<◌, ◌^◌};

/// How many calls have failed.
#[derive(Drop)]
pub struct Faults {
    /// It stays at the greatest u64.
    pub count: u64,
    ghost fits: { count < 2 ^ 64 },
}

impl Faults {
    ghost use Rattle.std.specs.Prelude.{◌≡◌};
    ghost use Rattle.vt_base.specs.Faults.{HasRisen};

    /// No call has failed.
    pub fn new() -> Self
        ensures { result.count ≡ 0 }
    {
        Faults { count: 0 }
    }

    /// Counts a failed call.
    pub fn count_one(&mut self)
        ensures { HasRisen self.old.count self.new.count }
    {
        self.count = self.count.saturating_add(1);
    }
}
