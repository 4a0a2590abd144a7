//! Links, of which each asks and is answered, and where they come from.

ghost use Rattle.std.specs.Prelude.{◌≡◌, ◌++◌, ◌∷◌, [], List, Bool, true, IfSome};
ghost use Rattle.vt_turns_example.specs.declared.link.Line.{Line as TheLine};
ghost use Rattle.vt_turns_example.specs.Keys.{IsAsk};

use crate::part::Block;

/// What a link asks.
#[derive(Clone, Copy)]
pub enum Ask {
    /// That the block be stored.
    Write(Block),
    /// Whether the key is absent.
    Look(u64),
}

/// What it is answered.
#[derive(Clone, Copy, PartialEq, Eq)]
pub enum Said {
    /// The block is new and was added.
    Added,
    /// The key has this value.
    Held,
    /// The key has another value.
    Collision,
    /// There was no memory, and nothing was added.
    NoMemory,
    /// The key has no value.
    Absent,
    /// The key may have a value.
    Unknown,
}

/// An answer, which is that of the first `at` blocks.
#[derive(Clone, Copy)]
pub struct Line {
    pub ask: Ask,
    pub said: Said,
    /// How many blocks there were before it: where the answer is `Added`, the number of the new one.
    pub at: u64,
}

/// One link.
pub trait Link {
    /// What it asked and was answered.
    ghost told: { Self → List TheLine };

    /// Whether it waits for an answer.
    ghost asked: { Self → Bool };

    /// What it asks next. Nothing ends it.
    fn next(&mut self) -> Option<Ask>
        ensures told { told self.new ≡ told self.old }
        ensures ask { IfSome result (λ ask. IsAsk ask × (asked self.new ≡ true)) };

    /// Answers what was asked last.
    fn answer(&mut self, line: Line)
        requires asked { asked self.old ≡ true }
        ensures told { told self.new ≡ told self.old ++ line ∷ [] };
}

/// Where links come from.
pub trait Listener {
    /// What a link is handed out as.
    type Link: Link + Send + Drop;

    /// The next link, which has asked nothing yet. Nothing ends it.
    fn accept(&mut self) -> Option<Self::Link>
        ensures fresh { IfSome result (λ l. Self.Link.told l ≡ []) };
}
