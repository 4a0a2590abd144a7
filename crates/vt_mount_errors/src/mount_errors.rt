//! What is told of a part's refusal.

ghost use Rattle.std.specs.Prelude.{◌≡◌, ◌^◌, ◌<◌, length};
ghost use Rattle.vt_log.specs.Logs.{arena_count};
ghost use Rattle.vt_mount_errors.specs.MountErrors.{field_of_arena, field_of_filter, field_of_part, of_arena, of_filter, of_log, of_part, of_section, of_shard, partition_of};
ghost use Rattle.vt_part.specs.Layout.{layout_of};
ghost use Rattle.vt_part.specs.Parts.{tables_of};

use vt_arena::{ArenaBad, Field as ArenaField};
use vt_base::{MountBad, MountField, Site};
use vt_bloom::{BloomError, Field as BloomField};
use vt_isect::{SectBad, ShardErr};
use vt_log::LogBad;
use vt_part::{Field as PartField, Part, PartBad};

/// Why the table of a partition of arenas is refused. Parts are counted from 0: first the
/// partitions of arenas, then the index sections, then the Bloom filter.
pub fn of_part(part: u32, bad: PartBad) -> MountBad
    ensures { result ≡ of_part part bad }
{
    match bad {
        PartBad::Fault => MountBad::Fault,
        PartBad::TooSmall { len, need } => MountBad::TooSmall { part, len, need },
        PartBad::NotFormatted => MountBad::NotFormatted { part },
        PartBad::Torn { field, found, want } => MountBad::Disagree {
            part,
            field: field_of_part(field),
            found: u128::from(found),
            want: u128::from(want),
        },
        PartBad::DuplicateName { first, second } => MountBad::DuplicateName { first, second },
        PartBad::NoMemory => MountBad::NoMemory,
    }
}

/// The field's name for a store, which has fields of all of its parts.
fn field_of_part(field: PartField) -> MountField
    ensures { result ≡ field_of_part field }
{
    match field {
        PartField::Version => MountField::Version,
        PartField::ArenaSize => MountField::ArenaSize,
        PartField::Count => MountField::Count,
    }
}

/// Why the log of these partitions is refused.
pub fn of_log<D>(parts: &[Part<D>], bad: LogBad) -> MountBad
    requires many { length parts.now < 2 ^ 32 }
    requires few { arena_count (tables_of parts.now) < 2 ^ 32 }
    ensures { result ≡ of_log (layout_of (tables_of parts.now)) bad }
{
    match bad {
        LogBad::Part(bad) => of_part(0, bad),
        LogBad::Arena { arena, bad } => of_arena(partition_of(parts, arena), bad),
        LogBad::Order { arena, clumps } => MountBad::Disagree {
            part: partition_of(parts, arena),
            field: MountField::Clumps,
            found: u128::from(clumps),
            want: 0,
        },
        LogBad::Fault => MountBad::Fault,
        LogBad::NoMemory => MountBad::NoMemory,
    }
}

/// The partition of an arena, or 0 where there is no such arena.
fn partition_of<D>(parts: &[Part<D>], arena: u32) -> u32
    requires many { length parts.now < 2 ^ 32 }
    requires few { arena_count (tables_of parts.now) < 2 ^ 32 }
    ensures { result ≡ partition_of (layout_of (tables_of parts.now)) arena }
{
    let mut first = 0;
    for i in 0..parts.len() {
        let count = parts[i].count();
        if arena - first < count {
            return i as u32;
        }
        first += count;
    }
    0
}

/// Why an arena is refused that stands in this part.
pub fn of_arena(part: u32, bad: ArenaBad) -> MountBad
    ensures { result ≡ of_arena part bad }
{
    match bad {
        ArenaBad::Fault => MountBad::Fault,
        ArenaBad::NotFormatted => MountBad::NotFormatted { part },
        ArenaBad::Torn { field, found, want } => MountBad::Disagree {
            part,
            field: field_of_arena(field),
            found,
            want,
        },
        ArenaBad::NoMemory => MountBad::NoMemory,
    }
}

/// The field's name for a store, which has fields of all of its parts.
fn field_of_arena(field: ArenaField) -> MountField
    ensures { result ≡ field_of_arena field }
{
    match field {
        ArenaField::Version => MountField::Version,
        ArenaField::Number => MountField::Number,
        ArenaField::Sealed => MountField::Sealed,
        ArenaField::Used => MountField::Used,
        ArenaField::Last => MountField::Last,
    }
}

/// Why this part is refused as an index section.
pub fn of_section(part: u32, bad: SectBad) -> MountBad
    ensures { result ≡ of_section part bad }
{
    match bad {
        SectBad::Fault => MountBad::Fault,
        SectBad::TooSmall { len, need } => MountBad::TooSmall { part, len, need },
        SectBad::NotFormatted => MountBad::NotFormatted { part },
        SectBad::Torn {
            field: _,
            found,
            want,
        } => MountBad::Disagree {
            part,
            field: MountField::Version,
            found: u128::from(found),
            want: u128::from(want),
        },
        SectBad::NoMemory => MountBad::NoMemory,
    }
}

/// Why this part is refused as a saved Bloom filter.
pub fn of_filter(part: u32, bad: BloomError) -> MountBad
    ensures { result ≡ of_filter part bad }
{
    match bad {
        BloomError::Fault => MountBad::Fault,
        BloomError::TooSmall { len, need } => MountBad::TooSmall { part, len, need },
        BloomError::NotFormatted => MountBad::NotFormatted { part },
        BloomError::Torn { field, found, want } => MountBad::Disagree {
            part,
            field: field_of_filter(field),
            found: u128::from(found),
            want: u128::from(want),
        },
        BloomError::NoMemory => MountBad::NoMemory,
    }
}

/// The field's name for a store, which has fields of all of its parts.
fn field_of_filter(field: BloomField) -> MountField
    ensures { result ≡ field_of_filter field }
{
    match field {
        BloomField::Version => MountField::Version,
        BloomField::M => MountField::M,
        BloomField::K => MountField::K,
    }
}

/// Why a look-up or a writeback of a shard is refused. A stop comes behind a fault alone, and is
/// told as one.
pub fn of_shard(bad: ShardErr) -> MountBad
    ensures { result ≡ of_shard bad }
{
    match bad {
        ShardErr::Fault | ShardErr::Stopped(_) => MountBad::Fault,
        ShardErr::Damaged {
            bucket,
            want,
            found,
        } => MountBad::Damaged {
            site: Site::Bucket(bucket),
            want,
            found,
        },
    }
}
