//! The shared parts, and the rule that is kept over them.

ghost use Rattle.std.specs.Prelude.{◌≡◌, ◌+◌, ◌<◌, ◌^◌, suc};
ghost use Rattle.vt_turns.specs.Views.{first_view};
ghost use Rattle.vt_turns.specs.Rule.{Rule};

use crate::held::Held;
use crate::view::{Opening, View};
use atomic_table::{Seat, Table, TableRule};
use std::alloc::Global;
use std::snapshot::Snapshot;

/// What stays as long as the store is open: how it was opened, and how many words its bits take.
#[derive(Drop)]
pub struct Fixed<P, B> {
    /// With what the store was opened. Contracts read it by `opening_of`.
    pub opening: Snapshot<Seat<(), Opening<P, B>>>,
    /// How many words of 64 Bloom bits there are.
    pub bit_words: usize,
}

/// The rule over words, parts at home and views.
pub struct Law;

impl<P: Held<B>, B> TableRule<Option<P>, View<P, B>, Fixed<P, B>> for Law {
    ghost holds = { λ fixed. Rule P.means fixed.bit_words fixed.opening.value.me.0 };

    ghost first = { λ fixed. first_view P.means fixed.opening.value.me.0 };
}

/// The log and the shards of a store, which threads take in turns, and the words that they share:
/// the count of accepted blocks and the Bloom bits.
#[derive(Drop)]
pub struct Turns<P: Held<B>, B> {
    /// Its words are the front, one for each part, and the Bloom bits; it has a slot for each part.
    pub table: Table<Option<P>, View<P, B>, Fixed<P, B>, Law, Global>,
    /// How many parts there are, the log among them: the bits begin at the word with the number behind this.
    pub(crate) parts: usize,
    pub ghost counted: { parts ≡ table.shared.table_id.slots },
    pub ghost sized: { table.shared.table_id.words
        ≡ suc table.shared.table_id.slots + table.shared.key.bit_words },
    pub ghost fits: { table.shared.table_id.words < 2 ^ 64 },
}
