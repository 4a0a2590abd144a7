//! Links in memory, which ask what stands in a list.

ghost use Rattle.std.specs.Prelude.{◌≡◌, ◌≤◌, [], All, IfOk, vec_len, vec_capacity};
ghost use Rattle.vt_turns_example.specs.Keys.{IsAsk};

use crate::link::{Ask, Line, Link, Listener};
use std::alloc::{AllocError, Global};

/// A link that asks what stands in a list, and keeps the answers.
#[derive(Drop)]
pub struct Script {
    /// What it asks, in order. As many of these were asked and answered as there are `lines`.
    asks: Vec<Ask>,
    pub lines: Vec<Line>,
    ghost keys: { All IsAsk asks.items },
    ghost room: { vec_len asks ≤ vec_capacity lines },
}

/// Links that wait in a list.
#[derive(Drop)]
pub struct Scripts {
    /// The last of these is handed out next.
    waiting: Vec<Script>,
    ghost fresh: { All (λ s. s.lines.items ≡ []) waiting.items },
}

impl Link for Script {
    ghost use Rattle.std.specs.Prelude.{ltb, vec_len};

    ghost told = { λ s. s.lines.items };

    ghost asked = { λ s. ltb (vec_len s.lines) (vec_len s.asks) };

    /// The next line of the script, or None behind its last.
    fn next(&mut self) -> Option<Ask> {
        if self.lines.len() >= self.asks.len() {
            return None;
        }
        Some(self.asks[self.lines.len()])
    }

    /// Notes what was answered.
    fn answer(&mut self, line: Line) {
        self.lines.push_reserved(line);
    }
}

impl Script {
    /// A link that asks this.
    pub fn new(alloc: Global, asks: Vec<Ask>) -> Result<Script, AllocError>
        requires { All IsAsk asks.items }
        ensures { IfOk result (λ s. s.lines.items ≡ []) }
    {
        let lines = Vec::with_capacity(alloc, asks.len())?;
        Ok(Script { asks, lines })
    }
}

impl Scripts {
    /// These links, of which the last one comes first.
    pub fn new(waiting: Vec<Script>) -> Scripts
        requires { All (λ s. s.lines.items ≡ []) waiting.items }
    {
        Scripts { waiting }
    }
}

impl Listener for Scripts {
    type Link = Script;

    /// The next script, or None where none waits.
    fn accept(&mut self) -> Option<Script> {
        self.waiting.pop()
    }
}

impl Script {
    /// What it was answered, in order.
    pub fn lines(&self) -> &[Line]
        ensures { result.now ≡ self.now.lines.items }
    {
        self.lines.as_slice()
    }
}
