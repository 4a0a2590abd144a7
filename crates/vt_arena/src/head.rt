//! The head of an arena.

ghost use Rattle.std.specs.Prelude.{◌≡◌, ◌≤◌, ◌+◌, None, Some, IfOk, IfErr, OnOk, MatchResult, length, take, drop, replicate, ◌++◌};
ghost use Rattle.byteorder.specs.Endian.{big_bytes};
ghost use Rattle.vt_arena.specs.declared.TheConstants.{FIELDS_LEN, LAST_LEN};
ghost use Rattle.vt_arena.specs.Arena.{version_counted};
ghost use Rattle.std.specs.Option.{option_or};
ghost use Rattle.vt_arena.specs.Faults.{bad_value, bad_last_value, first_bad_fields, CanStand};
ghost use Rattle.vt_arena.specs.Heads.{fields_of, fields_with, last_in, own_fields, IsHeadOf};
ghost use Rattle.vt_arena.specs.Places.{IsVersion, arena_room, bad_last, directory_room};

use crate::error::{ArenaBad, Field};
use crate::{FIELDS_LEN, arena_room, bad_last, directory_room};
use vt_base::Score;
use vt_base::fields::{put, put_u8, put_u16, put_u32, put_u64, u16_at, u32_at, u64_at};
use vt_model::{SECTOR_VERSION, WRITTEN_VERSION};

/// The fields of an arena's head but its magic number.
#[derive(Clone, Copy, Debug, PartialEq, Eq)]
pub struct ArenaHead {
    /// The version of the format, 1 or 2.
    pub version: u16,
    /// The arena's number in its partition, from 0.
    pub number: u32,
    /// Whether the arena is closed for more.
    pub sealed: bool,
    /// How many blocks it holds.
    pub clumps: u32,
    /// How many bytes their clumps take.
    pub used: u64,
    /// The chain of the scores of their directory entries. Once an arena is sealed this stays as it
    /// is, and is the score by which the arena as a whole is known.
    pub chain: Score,
    /// How many sectors the last clump takes; 0 where there is none, and in version 1.
    pub last: u32,
}

/// What finding an arena gives: its current head, and the first byte of the selector, whose parity
/// is the number of the head's frame.
#[derive(Clone, Copy, Debug, PartialEq, Eq)]
pub struct Found {
    pub head: ArenaHead,
    pub selector: u8,
}

/// The version of an arena with this head: one without clumps counts as one of the version that is
/// written, since its first commit writes it so.
pub fn version_counted(head: &ArenaHead) -> u16
    ensures { result ≡ version_counted head.now }
{
    if head.clumps == 0 {
        WRITTEN_VERSION
    } else {
        head.version
    }
}

impl ArenaHead {
    /// Writes the fields, and leaves the rest of the frame.
    pub(crate) fn encode(&self, frame: &mut [u8])
        requires { FIELDS_LEN ≤ length frame.old }
        ensures version { length self.now.chain.0 ≡ 20 }
        ensures fields { take FIELDS_LEN frame.new
            ≡ fields_with self.now (big_bytes LAST_LEN self.now.last) }
        ensures behind { drop FIELDS_LEN frame.new ≡ drop FIELDS_LEN frame.old }
    {
        let at = put(frame, 0, b"VARN");
        let at = put_u16(frame, at, self.version);
        let at = put_u32(frame, at, self.number);
        let at = put_u8(frame, at, u8::from(self.sealed));
        let at = put_u32(frame, at, self.clumps);
        let at = put_u64(frame, at, self.used);
        let at = put(frame, at, &self.chain.0);
        put_u32(frame, at, self.last);
    }

    /// The head that these fields spell, for an arena of this number and length, or the first test
    /// that fails. In version 1 the last four bytes aren't looked at.
    pub(crate) fn decode(
        fields: &[u8; FIELDS_LEN],
        number: u32,
        len: u64,
    ) -> Result<ArenaHead, ArenaBad>
        ensures refused { MatchResult result (λ _. first_bad_fields number len fields.now ≡ None)
            (λ bad. first_bad_fields number len fields.now ≡ Some bad) }
        ensures memory { IfErr result (λ bad. ¬ (bad ≡ ArenaBad.NoMemory)) }
        ensures head { IfOk result (IsHeadOf fields.now) }
        ensures spelling { IfOk result (λ head. fields_of head ≡ own_fields fields.now) }
        ensures checked { IfOk result (CanStand number len) }
    {
        if fields[..4] != b"VARN"[..] {
            return Err(ArenaBad::NotFormatted);
        }
        let mut chain = [0; 20];
        // (the places of the fields: docs/FORMATS.md, Arenas)
        chain.copy_from_slice(&fields[23..43]);
        let head = ArenaHead {
            version: u16_at(fields, 4),
            number: u32_at(fields, 6),
            sealed: fields[10] == 1,
            clumps: u32_at(fields, 11),
            used: u64_at(fields, 15),
            chain: Score(chain),
            last: last_in(fields),
        };
        match check(&head, fields[10], number, len) {
            Ok(()) => Ok(head),
            Err(bad) => Err(bad),
        }
    }
}

/// How many sectors the last clump takes by these fields; 0 in version 1, which doesn't say.
fn last_in(fields: &[u8; FIELDS_LEN]) -> u32
    ensures { result ≡ last_in fields.now }
{
    if u16_at(fields, 4) != 2 {
        return 0;
    }
    u32_at(fields, 43)
}

/// Tests a head whose byte for `sealed` is this one. It is refused by the first test that fails.
fn check(head: &ArenaHead, sealed: u8, number: u32, len: u64) -> Result<(), ArenaBad>
    ensures refused { let h = head.now in
        let taken = h.used + directory_room h.version h.clumps in
        let bad = option_or (bad_value number len h.version h.number sealed taken)
        (bad_last_value h.version h.clumps h.used h.last) in
        MatchResult result (λ _. bad ≡ None) (λ it. bad ≡ Some it) }
    ensures memory { IfErr result (λ bad. ¬ (bad ≡ ArenaBad.NoMemory)) }
    ensures version { OnOk result (IsVersion head.now.version) }
    ensures number { OnOk result (head.now.number ≡ number) }
    ensures fit { OnOk result
        (head.now.used + directory_room head.now.version head.now.clumps ≤ arena_room len) }
    ensures sealed { OnOk result (sealed ≤ 1) }
    ensures last { OnOk result (head.now.version ≡ 2
        → bad_last head.now.clumps head.now.used head.now.last ≡ None) }
{
    if head.version != 1 && head.version != SECTOR_VERSION {
        let latest = u128::from(SECTOR_VERSION);
        return Err(torn(Field::Version, u128::from(head.version), latest));
    }
    if head.number != number {
        return Err(torn(Field::Number, u128::from(head.number), u128::from(number)));
    }
    if sealed > 1 {
        return Err(torn(Field::Sealed, u128::from(sealed), 1));
    }
    let directory = directory_room(head.version, u64::from(head.clumps));
    let taken = u128::from(head.used) + u128::from(directory);
    let room = u128::from(arena_room(len));
    if taken > room {
        return Err(torn(Field::Used, taken, room));
    }
    check_last(head)
}

/// Tests the field `last` of a head of version 2.
fn check_last(head: &ArenaHead) -> Result<(), ArenaBad>
    ensures refused { let h = head.now in
        let bad = bad_last_value h.version h.clumps h.used h.last in
        MatchResult result (λ _. bad ≡ None) (λ it. bad ≡ Some it) }
    ensures memory { IfErr result (λ bad. ¬ (bad ≡ ArenaBad.NoMemory)) }
    ensures last { OnOk result (head.now.version ≡ 2
        → bad_last head.now.clumps head.now.used head.now.last ≡ None) }
{
    if head.version != SECTOR_VERSION {
        return Ok(());
    }
    match bad_last(head.clumps, head.used, head.last) {
        Some(want) => Err(torn(Field::Last, u128::from(head.last), u128::from(want))),
        None => Ok(()),
    }
}

/// The refusal of a field of a head, with what stands there and what had to.
fn torn(field: Field, found: u128, want: u128) -> ArenaBad
    ensures { result ≡ ArenaBad.Torn field found want }
{
    ArenaBad::Torn { field, found, want }
}
