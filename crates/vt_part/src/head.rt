//! The table in block 0 of a partition, which names it and counts its arenas.

ghost use Rattle.std.specs.Prelude.{◌≡◌, ◌<◌, ◌≤◌, None, Some, MatchResult, IfOk, IfErr, length, take};
ghost use Rattle.vt_disk.specs.declared.TheConstants.{NAME_LEN};
ghost use Rattle.vt_base.specs.Filled.{filled};
ghost use Rattle.vt_part.specs.Table.{arenas_end, table_bytes, HasNoFill, IsTable};
ghost use Rattle.vt_part.specs.Faults.{first_bad_part, NamesPartCause};

use crate::TABLE_LEN;
use crate::error::{Field, PartBad};
use crate::formatting::is_arena_size;
use vt_base::fields::{u16_at, u32_at, u64_at};
use vt_disk::{BLOCK_LEN, LEAST_ARENA, NAME_LEN};

/// The table of a partition's arenas.
#[derive(Drop)]
pub struct Head {
    /// The name, filled up with zeros.
    pub field: [u8; NAME_LEN],
    /// How many of these bytes are the name.
    pub name_len: usize,
    /// How many bytes each arena has.
    pub arena_size: u64,
    /// How many arenas there are.
    pub count: u32,
    ghost within: { name_len ≤ NAME_LEN },
    ghost allowed: { IsTable (record {
      name = take name_len field;
      arena_size = arena_size;
      count = count;
    }) },
}

impl Head {
    ghost use Rattle.vt_part.specs.Parts.{table_in};

    /// The table that these bytes spell, on a disk of this length.
    pub fn decode(head: &[u8; TABLE_LEN], len: u64) -> Result<Head, PartBad>
        requires { BLOCK_LEN ≤ len }
        ensures spelling { IfOk result (λ it. head.now ≡ table_bytes (table_in it)) }
        ensures table { IfOk result (λ it. IsTable (table_in it)) }
        ensures room { IfOk result (λ it. arenas_end (table_in it) ≤ len) }
        ensures refused { MatchResult result (λ _. first_bad_part len head.now ≡ None)
            (λ bad. first_bad_part len head.now ≡ Some bad) }
        ensures differs { IfErr result (NamesPartCause len) }
    {
        // (the places of the fields: docs/FORMATS.md, Partitions of arenas)
        if head[..4] != b"VPRT"[..] {
            return Err(PartBad::NotFormatted);
        }
        let version = u16_at(head, 4);
        if version != 1 {
            return Err(torn(Field::Version, u64::from(version), 1));
        }
        let arena_size = u64_at(head, 70);
        if !is_arena_size(arena_size) {
            return Err(torn(Field::ArenaSize, arena_size, LEAST_ARENA));
        }
        let count = u32_at(head, 78);
        if count == 0 {
            return Err(torn(Field::Count, 0, 1));
        }
        let need = BLOCK_LEN as u64 + u64::from(count) * arena_size;
        if len < need {
            return Err(PartBad::TooSmall { len, need });
        }
        let mut field = [0; NAME_LEN];
        field.copy_from_slice(&head[6..70]);
        Ok(Head {
            field,
            name_len: name_len(&field),
            arena_size,
            count,
        })
    }
}

/// The refusal of a field of block 0, with what stands there and what had to.
fn torn(field: Field, found: u64, want: u64) -> PartBad
    ensures { result ≡ PartBad.Torn field found want }
{
    PartBad::Torn { field, found, want }
}

/// How many bytes of a name stand before the zeros that fill it up.
fn name_len(field: &[u8; NAME_LEN]) -> usize
    ensures within { result ≤ NAME_LEN }
    ensures filled { field.now ≡ filled NAME_LEN (take result field.now) }
    ensures end { HasNoFill (take result field.now) }
{
    let mut len = NAME_LEN;
    while len > 0 && field[len - 1] == 0 {
        len -= 1;
    }
    len
}
