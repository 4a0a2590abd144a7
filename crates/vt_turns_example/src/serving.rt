//! Serving one link: each of its asks is answered, until it ends.

ghost use Rattle.std.specs.Prelude.{◌≡◌, [], ◌∷◌};
ghost use Rattle.vt_turns_example.specs.Keys.{IsAsk};
ghost use Rattle.vt_turns_example.specs.Stores.{IsFree};
ghost use Rattle.vt_turns_example.specs.Work.{Works};

use crate::link::{Ask, Line, Link};
use crate::part::{Block, Part};
use crate::store::Store;
use std::sync::Wait;
use vt_turns::Pass;

/// Answers what a link asks.
fn answer<R: Wait>(rt: &R, store: &Store, pass: &mut Pass<Part, Block>, ask: Ask) -> Line
    requires free { IsFree store.now pass.old }
    requires ask { IsAsk ask }
    ensures free { IsFree store.now pass.new }
    ensures works { Works pass.old pass.new (result ∷ []) }
{
    match ask {
        Ask::Write(block) => store.write(rt, pass, block),
        Ask::Look(key) => store.look(pass, key),
    }
}

/// Serves a link to its end.
pub fn serve<R: Wait, L: Link>(rt: &R, store: &Store, pass: &mut Pass<Part, Block>, link: &mut L)
    requires free { IsFree store.now pass.old }
    requires fresh { L.told link.old ≡ [] }
    ensures free { IsFree store.now pass.new }
    ensures works { Works pass.old pass.new (L.told link.new) }
{
    for _ in rt.forever() {
        let Some(ask) = link.next() else {
            break;
        };
        let line = answer(rt, store, pass, ask);
        link.answer(line);
    }
}
