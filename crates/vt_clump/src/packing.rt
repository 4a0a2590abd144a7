//! From a block to its clump.

ghost use Rattle.std.specs.Prelude.{◌≡◌, ◌<◌, ◌≤◌, ℕ, List, length, replicate, IfOk};
ghost use Rattle.vt_clump.specs.Clumps.{IsPacked};
ghost use Rattle.vt_clump.specs.Spelling.{clump_bytes};

use crate::Packed;
use crate::header::{HEADER_LEN, Header};
use std::alloc::{AllocError, Global};
use vt_base::{Bytes, Kind, MAX_BLOCK, Score};

/// The clump of a block of 1 to 57,344 bytes. The score is taken as given.
pub fn pack(
    alloc: Global,
    kind: Kind,
    block: &[u8],
    score: Score,
    time: u32,
) -> Result<Packed, AllocError>
    requires some { 0 < length block.now }
    requires most { length block.now ≤ MAX_BLOCK }
    ensures kind { IfOk result (λ packed. packed.kind ≡ kind) }
    ensures score { IfOk result (λ packed. packed.score ≡ score) }
    ensures len { IfOk result (λ packed. packed.len ≡ length block.now) }
    ensures bytes { IfOk result (λ packed. packed.bytes ≡ clump_bytes (record {
      kind = kind;
      score = score.0;
      creator = replicate 4 0;
      time = time;
      block = block.now;
    })) }
    ensures packed { (score_of : List ℕ → List ℕ) → score.0 ≡ score_of block.now
        → IfOk result (IsPacked score_of) }
{
    let header = Header {
        kind,
        size: block.len() as u16,
        score,
        time,
    };
    let mut bytes = Vec::with_capacity(alloc, HEADER_LEN + block.len())?;
    bytes.extend_from_slice(&header.encode())?;
    bytes.extend_from_slice(block)?;
    Ok(Packed {
        kind,
        score,
        len: block.len() as u32,
        bytes: Bytes::from_vec(bytes),
    })
}
