//! The names of a walk, where they stand in its message.

ghost use Rattle.std.specs.Prelude.{◌≡◌, ◌≢◌, ℕ, List, IfSome, IfNone, length};
ghost use Rattle.std.specs.List.{AllByRecursion, flat_map};
ghost use Rattle.nine_wire.specs.Messages.{string, IsString};
ghost use Rattle.nine_wire.specs.Names.{SpellNames};

use crate::fields::string_at;
use std::marker::Model;

/// The names of a walk (walk(5)), which contracts see as a list.
#[derive(Drop)]
pub struct Names<'a> {
    /// How many names the bytes still have.
    count: u16,
    /// The names that are left, each behind its length in two bytes.
    bytes: &'a [u8],
}

impl<'a> Model for Names<'a> {
    ghost use Rattle.std.specs.Prelude.{ℕ, List};
    ghost use Rattle.nine_wire.specs.Names.{names_in, SpellNames};

    ghost Value = { List (List ℕ) };

    ghost view = { λ n. names_in n.count n.bytes.now };

    ghost invariant = { λ n. SpellNames (names_in n.count n.bytes.now) n.bytes.now };
}

impl<'a> Names<'a> {
    ghost use Rattle.std.specs.Prelude.{◌≡◌, ◌==◌, [], ◌∷◌, length};

    /// How many there are.
    pub fn len(&self) -> u16
        ensures { result ≡ length self.now }
    {
        self.count
    }

    /// Whether no names are left.
    pub fn is_empty(&self) -> bool
        ensures { result ≡ (length self.now == 0) }
    {
        self.count == 0
    }

    /// The first name, and the others.
    pub fn split_first(&self) -> Option<(&'a [u8], Names<'a>)>
        ensures some { IfSome result (λ r. self.now ≡ r.0.now ∷ r.1) }
        ensures none { IfNone result (self.now ≡ []) }
    {
        if self.count == 0 {
            return None;
        }
        let (name, rest) = string_at(self.bytes)?;
        let others = Names {
            count: self.count - 1,
            bytes: rest,
        };
        Some((name, others))
    }
}

/// So many names, where they and nothing more are these bytes; else None.
pub(crate) fn names_of(count: u16, bytes: &[u8]) -> Option<Names<'_>>
    ensures found { IfSome result (λ names. (length names ≡ count) × SpellNames names bytes.now) }
    ensures none { IfNone result ((names : List (List ℕ)) →
        length names ≡ count → ¬ SpellNames names bytes.now) }
{
    let mut rest = bytes;
    for _ in 0..count {
        let (_name, behind) = string_at(rest)?;
        rest = behind;
    }
    if rest.is_empty() {
        Some(Names { count, bytes })
    } else {
        None
    }
}
