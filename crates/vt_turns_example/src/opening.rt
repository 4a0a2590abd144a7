//! How a store is opened, with three parts and one pass that has all shares, and how it is closed.

ghost use Rattle.std.specs.Prelude.{◌≡◌, [], IfOk};
ghost use Rattle.vt_turns.specs.Views.{view};
ghost use Rattle.vt_turns_example.specs.Keys.{IsKey};
ghost use Rattle.vt_turns_example.specs.declared.part.Shard.{Shard as TheShard};
ghost use Rattle.vt_turns_example.specs.Stores.{IsFree};

use crate::part::{Block, Log, Part, Shard};
use crate::store::Store;
use std::alloc::{AllocError, Global};
use std::collections::BTreeMap;
use std::marker::Brand;
use vt_turns::{Pass, Turns};

/// How many parts a store has.
pub(crate) const PARTS: usize = 3;

/// A shard of an empty store.
fn empty_shard(alloc: Global, low: u64, high: u64) -> Part
    ensures { (s : TheShard) × (result ≡ Part.Shard s) × (s.low ≡ low) × (s.high ≡ high)
        × (s.numbers.entries ≡ []) }
{
    Part::Shard(Shard {
        low,
        high,
        numbers: BTreeMap::new(alloc),
    })
}

/// An empty store, whose keys below `cut` are in the first shard. The pass has all shares.
pub fn open(alloc: Global, cut: u64) -> Result<(Store, Pass<Part, Block>), AllocError>
    requires { IsKey cut }
    ensures free { IfOk result (λ r. IsFree r.0 r.1) }
    ensures share { IfOk result (λ r. (view r.1).share ≡ 65536) }
    ensures empty { IfOk result (λ r. ((view r.1).own ≡ []) × ((view r.1).opening.history ≡ [])) }
{
    let mut parts = Vec::with_capacity(alloc, PARTS)?;
    parts.push_reserved(Part::Log(Log {
        blocks: Vec::new(alloc),
    }));
    parts.push_reserved(empty_shard(alloc, 0, cut));
    parts.push_reserved(empty_shard(alloc, cut, u64::MAX));
    match Turns::new::<Brand>(alloc, parts, 0, &[0, 0]) {
        Ok((turns, pass)) => Ok((Store { turns, cut }, pass)),
        Err(_) => Err(AllocError),
    }
}
