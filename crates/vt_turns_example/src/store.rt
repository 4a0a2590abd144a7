//! The store, and how it is opened and closed.

ghost use Rattle.std.specs.Prelude.{◌≡◌, true};
ghost use Rattle.vt_turns.specs.Calls.{part_count, word_count, opening_of};
ghost use Rattle.vt_turns_example.specs.Parts.{is_cut};

use crate::part::{Block, Part};
use vt_turns::Turns;

/// The shared parts: the log, the shard of the keys below `cut` and that of the others.
#[derive(Drop)]
pub struct Store {
    pub turns: Turns<Part, Block>,
    pub cut: u64,
    ghost parts: { part_count turns ≡ 3 },
    ghost words: { word_count turns ≡ 2 },
    ghost kept: { (opening_of turns).kept ≡ true },
    ghost cut_is: { is_cut cut (opening_of turns).parts ≡ true },
}
