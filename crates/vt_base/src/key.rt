//! What a block is found by.

ghost use Rattle.std.proofs.Common.{rules};
ghost use Rattle.std.specs.Cmp.{partial_order_from_own_ties};
ghost use Rattle.std.specs.Cmp.Lexicographic.{slice_cmp};
ghost use Rattle.std.specs.Cmp.Rules.{comparing};
ghost use Rattle.std.specs.Ordering.{nat_cmp, on, then_cmp, as_partial_cmp};

use crate::{Kind, Score};
use std::cmp::Ordering;

/// What a block is found by. Keys are in order by score, byte by byte, and then by type.
#[derive(Clone, Copy, Debug, PartialEq, Eq, Hash)]
pub struct Key {
    pub score: Score,
    pub kind: Kind,
}

impl Ord for Key {
    ghost cmp = { then_cmp (on (λ k. k.score.0) (slice_cmp nat_cmp)) (on (λ k. k.kind) nat_cmp) };

    ghost total = { Prim.search (comparing, rules) };

    ghost matches_partial_cmp = { Prim.search (comparing, rules) };

    ghost matches_eq = { Prim.search (comparing, rules) };

    /// By score, and then by type.
    fn cmp(&self, other: &Key) -> Ordering {
        self.score
            .cmp(&other.score)
            .then(self.kind.cmp(&other.kind))
    }
}

impl PartialOrd for Key {
    ghost partial_cmp = { as_partial_cmp
        (then_cmp (on (λ k. k.score.0) (slice_cmp nat_cmp)) (on (λ k. k.kind) nat_cmp)) };

    ghost laws = { partial_order_from_own_ties
        (Prim.search (comparing, rules)) (Prim.search (comparing, rules)) };

    /// The same order, which two keys always have.
    fn partial_cmp(&self, other: &Key) -> Option<Ordering> {
        Some(self.cmp(other))
    }
}
