//! An arena: clumps one behind another, a directory of them, and a head that changes whole. A
//! commit writes what is staged and then the head, one device call at a time, so that whatever a
//! crash leaves is the arena as it was or, at the end, the arena with all that was staged. Arenas of
//! version 2 are read: each clump begins a sector, and there is a directory only once one is sealed.
// Tests: crates/vt_log_tests/src/arena.rt, crates/vt_log_tests/src/version_two.rt.
#![tactic(auto)]

mod arena;
mod committing;
mod directory;
mod error;
mod head;
mod headers;
mod laws;
mod mounting;
mod reading;

pub use arena::Arena;
pub use directory::{At, info};
pub use error::{ArenaBad, BackBad, Field, ReadBad};
pub use head::{ArenaHead, Found, version_counted};
pub use laws::{
    arenas_are_in_their_regions, arenas_are_told_apart, blocks_stand_at_their_places,
    crash_gives_old_or_next, room_is_the_models, settled_regions, soundness_is_kept,
};
pub use mounting::{find, format, mount};
pub use reading::{has_header, read};
use vt_disk::{BLOCK_LEN, SECTOR_LEN};
use vt_model::{ARENA_HEAD_LEN, CLUMP_HEADER_LEN, CLUMP_UNIT, DIRECTORY_ENTRY_LEN, SECTOR_VERSION};

/// How many bytes a frame of the head has.
pub const FRAME_LEN: usize = BLOCK_LEN;

const _: () = prove!(FRAME_LEN == 8192);

// The model's numbers are those of the heads and clumps of this disk.
const _: () = prove!(ARENA_HEAD_LEN == 2 * FRAME_LEN + BLOCK_LEN);

const _: () = prove!(CLUMP_HEADER_LEN == vt_clump::HEADER_LEN);

const _: () = prove!(CLUMP_UNIT == SECTOR_LEN);

/// How many bytes of a frame the head's fields are: magic, version, number, sealed, clumps, used
/// and chain, and in version 2 `last`.
pub const FIELDS_LEN: usize = 4 + 2 + 4 + 1 + 4 + 8 + 20 + LAST_LEN;

const _: () = prove!(FIELDS_LEN == 47);

/// How many bytes the field `last` has, which version 1 doesn't have.
pub const LAST_LEN: usize = 4;

/// How many clumps may be staged for one commit.
pub const STAGED_MAX: usize = 64;

const _: () = prove!(STAGED_MAX == 64);

/// How many bytes their directory entries are.
const DIRECTORY_MAX: usize = STAGED_MAX * DIRECTORY_ENTRY_LEN;

/// A length, rounded up to whole sectors.
fn whole_units(len: u64) -> u64
    requires { len < 2 ^ 40 }
    ensures { result ≡ whole_units len }
{
    let unit = CLUMP_UNIT as u64;
    (len + (unit - 1)) / unit * unit
}

/// What a block of `n` bytes takes of an arena of this version, in bytes.
fn block_room(version: u16, n: u32) -> u64
    ensures room { result ≡ block_room version n }
    ensures bound { result < 2 ^ 33 }
{
    let clump = CLUMP_HEADER_LEN as u64 + u64::from(n);
    if version == SECTOR_VERSION {
        whole_units(clump)
    } else {
        clump
    }
}

/// How many sectors the clump of a block of `n` bytes takes in version 2.
fn sectors_of(n: u16) -> u32
    ensures sectors { result ≡ sectors_of n }
    ensures some { 0 < result }
    ensures most { result ≤ 129 }
{
    (block_room(SECTOR_VERSION, u32::from(n)) / CLUMP_UNIT as u64) as u32
}

/// What the directory of so many blocks takes there.
fn directory_room(version: u16, blocks: u64) -> u64
    requires { blocks ≤ 2 ^ 32 }
    ensures room { result ≡ directory_room version blocks }
    ensures bound { result < 2 ^ 38 }
{
    let entries = entries_len(blocks);
    if version == SECTOR_VERSION {
        whole_units(entries)
    } else {
        entries
    }
}

/// How many bytes so many directory entries are.
fn entries_len(entries: u64) -> u64
    requires { entries ≤ 2 ^ 32 }
    ensures { result ≡ entries_len entries }
{
    DIRECTORY_ENTRY_LEN as u64 * entries
}

/// What is wanted where the last of so many clumps, which take `used` bytes in all, can't take so many
/// sectors.
fn bad_last(clumps: u32, used: u64, last: u32) -> Option<u64>
    ensures { result ≡ bad_last clumps used last }
{
    let most = used / CLUMP_UNIT as u64;
    if clumps == 0 {
        return (last != 0).then_some(0);
    }
    if last == 0 {
        return Some(1);
    }
    (u64::from(last) > most).then_some(most)
}

/// What an arena of this length has for clumps and directory.
fn arena_room(len: u64) -> u64
    ensures { result ≡ arena_room len }
{
    len.saturating_sub(ARENA_HEAD_LEN as u64)
}

/// Whether a block of `n` bytes fits an arena of this version and length, behind so many clumps of
/// `used` bytes in all.
pub fn has_room(version: u16, len: u64, used: u64, clumps: u32, n: u32) -> bool
    ensures { result ≡ has_room version len used clumps n }
{
    let directory = directory_room(version, u64::from(clumps) + 1);
    let taken = u128::from(used) + u128::from(block_room(version, n)) + u128::from(directory);
    taken <= u128::from(arena_room(len))
}

ghost use Rattle.std.specs.Prelude.{◌≡◌, ◌<◌, ◌≤◌, ◌^◌};
ghost use Rattle.vt_model.specs.Places.{whole_units};
ghost use Rattle.vt_arena.specs.Places.{block_room, directory_room, entries_len, sectors_of, arena_room, has_room, bad_last};
