//! The numbers that a rehearsal is drawn by, which follow from its seed.

ghost use Rattle.std.specs.Prelude.{◌≡◌, ◌<◌, ℕ};
ghost use Rattle.vt_rehearse.specs.Draws.{drawn, next_draw};

use std::marker::Model;

/// A sequence of numbers that its first one determines (a linear congruence modulo 2^64, with
/// Knuth's multiplier of MMIX).
#[derive(Drop)]
pub struct Draws {
    /// The last number of the sequence, all of its 64 bits; at first the seed.
    x: u64,
}

impl Model for Draws {
    ghost use Rattle.std.specs.Prelude.{ℕ};

    ghost Value = { ℕ };

    ghost view = { λ d. d.x };
}

impl Draws {
    /// The draws that follow from this number.
    pub fn new(seed: u64) -> Self
        ensures { result ≡ seed }
    {
        Draws { x: seed }
    }

    /// The next number, of its high bits, modulo this.
    pub fn draw(&mut self, below: u32) -> u32
        requires { 0 < below }
        ensures drawn { result ≡ drawn self.old below }
        ensures within { result < below }
        ensures next { self.new ≡ next_draw self.old }
    {
        self.x = self
            .x
            .wrapping_mul(6_364_136_223_846_793_005)
            .wrapping_add(1_442_695_040_888_963_407);
        // (the low bits of such a sequence repeat soon, so the highest 31 are taken)
        (self.x >> 33) as u32 % below
    }
}
