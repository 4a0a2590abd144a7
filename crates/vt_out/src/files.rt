//! Files that are read whole, by name.

ghost use Rattle.std.specs.Prelude.{◌≡◌, ◌≤◌, ◌<◌, ◌^◌, ◌+◌, ℕ, Bool, IsTrue, IfOk, IfErr, List};
ghost use Rattle.std.specs.Prelude.{Option, Some, length, take};
ghost use Rattle.vt_base.specs.Faults.{CountsFault};
ghost use Rattle.vt_out.specs.Files.{is_fault};

use std::alloc::Global;
use vt_base::{Bytes, Text};

/// Why a call to the outside gave nothing.
#[derive(Clone, Copy, Debug, PartialEq, Eq)]
pub enum OutErr {
    /// It failed, as where there is no file of this name.
    Failed,
    /// There was no memory for the answer.
    NoMemory,
}

/// The files that can be read.
pub trait Files {
    /// Whether files of this type tell what they hold. Those of the system don't.
    ghost tells: { Bool };

    /// The content of the file of this name, where there is one and it tells it.
    ghost content: { Self → (name : List ℕ) → Option (List ℕ) };

    /// How many calls have failed.
    ghost faults: { Self → ℕ };

    /// The content of the file of this name: of a longer one than the limit, one byte more, so that
    /// the caller sees that it is longer.
    fn read(&mut self, alloc: Global, name: &Text, limit: u32) -> Result<Bytes, OutErr>
        ensures bound { IfOk result (λ bytes. length bytes ≤ limit + 1) }
        ensures content { IfOk result (λ bytes. IsTrue tells → (file : List ℕ)
            × (content self.old name.now ≡ Some file) × (bytes ≡ take (limit + 1) file)) }
        ensures files { (name : List ℕ) → content self.new name ≡ content self.old name }
        ensures cause { CountsFault is_fault result (faults self.old) (faults self.new) };

    /// A count of failed calls is a u64.
    ghost faults_fit: { (files : Self) → faults files < 2 ^ 64 };
}
