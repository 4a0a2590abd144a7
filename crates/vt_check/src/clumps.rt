//! Testing clumps in memory, with their directory entries.

ghost use Rattle.std.specs.Prelude.{Bool, ◌≡◌, ◌+◌, ◌-◌, ◌*◌, ◌/◌, ◌^◌, ◌<◌, ◌≤◌, ◌∷◌, ◌++◌, [], ℕ, List, All, IsTrue, IfOk, IfErr, OnOk, OnErr, Some, None, MatchOption, length, map, take, drop};
ghost use Rattle.std.specs.List.{AllZip};
ghost use Rattle.vt_clump.specs.Clumps.{IsClumpRead};
ghost use Rattle.vt_clump.specs.declared.header.TheConstants.{HEADER_LEN};
ghost use Rattle.vt_clump.specs.Spelling.{Stored, size_in, stored_in};
ghost use Rattle.vt_disk.specs.Disk.{part};
ghost use Rattle.vt_model.specs.declared.TheConstants.{CLUMP_UNIT, DIRECTORY_ENTRY_LEN};
ghost use Rattle.vt_arena.specs.Directory.{entry_in_header, sectors_before};
ghost use Rattle.vt_check.specs.Checking.{bad_clump, clump_in, damage_by, entry_damage, link_damage, taken};
ghost use Rattle.vt_check.specs.Following.{CutsFirst, HasFollowed, HasOwnEntry, IsCut, IsEntryRead, IsFrontOf, IsSoundClump, IsWithinWindow, TestsAs, cut_bytes, entries_in, taken_by_cuts};

use crate::{CheckErr, Damage};
use rayon::prelude::*;
use std::alloc::Global;
use std::thread::Threads;
use vt_base::fields::{put, u16_at, u32_at};
use vt_base::{FieldValue, Score, Scorer};
use vt_clump::{Clump, ClumpBad, Encoding, HEADER_LEN, block_len, unpack};
use vt_model::{CLUMP_UNIT, DIRECTORY_ENTRY_LEN, SECTOR_VERSION};

/// How many clumps a thread tests at least, where there are as many.
const LEAST_PIECE: usize = 32;

/// The most bytes that a clump has by its header.
pub(crate) const MOST_CLUMP: usize = HEADER_LEN + u16::MAX as usize;

const _: () = prove!(MOST_CLUMP == 65_573);

/// A clump within the bytes that were read together, and its directory entry.
#[derive(Clone, Copy)]
pub(crate) struct Cut {
    /// The places are within the bytes, and the end is behind the clump.
    pub(crate) start: usize,
    pub(crate) end: usize,
    /// Of the arena's directory or, where it has none yet, of the clump's header.
    pub(crate) entry: [u8; DIRECTORY_ENTRY_LEN],
    /// How many sectors the clump before takes, by the field `creator` of the header; 0 where the
    /// bytes don't have it.
    pub(crate) creator: u32,
}

/// What testing a clump and its entry found.
#[derive(Clone, Copy)]
pub(crate) enum Tested {
    /// The clump is sound, and the entry is its own.
    Sound,
    /// The clump is sound, and its entry isn't its own.
    BadEntry(Damage),
    /// The bytes are no clump, or have another score; the entry isn't tested.
    BadClump(Damage),
    /// Memory ran out.
    NoMemory,
}

/// How far an arena's clumps were followed: how many they were, how many bytes they take, how many
/// sectors the last one, the first damage of what one names of the one before it and of an entry, and
/// the chain of the entries.
#[derive(Drop)]
pub(crate) struct Followed {
    pub(crate) clumps: u32,
    /// How many bytes they take, in version 2 whole sectors.
    pub(crate) used: u64,
    /// How many sectors the last of them takes; 0 where there is none.
    pub(crate) last: u32,
    /// The first damage of what a clump names of the one before it, if there is any. It counts in
    /// version 2 alone.
    pub(crate) link: Option<Damage>,
    /// The first damage of an entry, if there is any.
    pub(crate) entry: Option<Damage>,
    pub(crate) chain: Score,
}

impl Followed {
    /// Before the first clump: no bytes, and the chain that an arena begins with, 20 zeros.
    pub(crate) fn nothing() -> Followed
        ensures { (score : List ℕ → List ℕ) (version : ℕ) → HasFollowed score version [] [] result }
    {
        Followed {
            clumps: 0,
            used: 0,
            last: 0,
            link: None,
            entry: None,
            chain: Score([0; 20]),
        }
    }

    /// Goes on behind these clumps of an arena of this version, up to the first that is damaged.
    pub(crate) fn follow<S: Scorer>(
        &mut self,
        version: u16,
        cuts: &[Cut],
        tested: &[Tested],
        scorer: &S,
    ) -> Result<Option<Damage>, CheckErr>
        requires many { length tested.now ≡ length cuts.now }
        requires cuts { All IsCut cuts.now }
        requires few { self.old.clumps + length cuts.now < 2 ^ 32 }
        requires small { self.old.used + taken_by_cuts version cuts.now < 2 ^ 63 }
        ensures followed { (window : List ℕ) (clumps entries : List (List ℕ))
            → HasFollowed S.score_of version clumps entries self.old
            → All (IsWithinWindow window) cuts.now
            → AllZip (λ cut found. TestsAs S.score_of (cut_bytes window cut) cut.entry found)
            cuts.now tested.now
            → IfOk result (λ damage. MatchOption damage
            (HasFollowed S.score_of version (clumps ++ map (cut_bytes window) cuts.now)
            (entries ++ map (λ cut. cut.entry) cuts.now) self.new)
            (λ it. (behind : List (List ℕ)) → bad_clump S.score_of
            (clumps ++ map (cut_bytes window) cuts.now ++ behind) ≡ Some it)) }
        ensures refused { IfErr result (λ bad. bad ≡ CheckErr.NoMemory) }
    {
        for i in 0..cuts.len() {
            match tested[i] {
                Tested::Sound => self.step(version, &cuts[i], None, scorer),
                Tested::BadEntry(damage) => self.step(version, &cuts[i], Some(damage), scorer),
                Tested::BadClump(damage) => return Ok(Some(damage)),
                Tested::NoMemory => return Err(CheckErr::NoMemory),
            }
        }
        Ok(None)
    }

    /// Goes on behind a clump with this damage of its entry, if there is any.
    fn step<S: Scorer>(&mut self, version: u16, cut: &Cut, damage: Option<Damage>, scorer: &S)
        requires cut { IsCut cut.now }
        requires few { self.old.clumps + 1 < 2 ^ 32 }
        requires small { self.old.used + taken version (cut.now.end - cut.now.start) < 2 ^ 64 }
        ensures count { self.new.clumps ≡ self.old.clumps + 1 }
        ensures used { self.new.used ≡ self.old.used + taken version (cut.now.end - cut.now.start) }
        ensures followed { (clumps entries : List (List ℕ)) (clump : List ℕ)
            → HasFollowed S.score_of version clumps entries self.old
            → length clump ≡ cut.now.end - cut.now.start → IsSoundClump S.score_of clump
            → cut.now.creator ≡ sectors_before clump
            → entry_damage (stored_in clump) cut.now.entry ≡ damage
            → HasFollowed S.score_of version (clumps ++ clump ∷ []) (entries ++ cut.now.entry ∷ [])
            self.new }
    {
        // (the next chain is the score of the one so far and the entry behind it)
        let mut bytes = [0; 20 + DIRECTORY_ENTRY_LEN];
        let at = put(&mut bytes, 0, &self.chain.0);
        put(&mut bytes, at, &cut.entry);
        self.chain = scorer.score(&bytes);
        self.clumps += 1;
        let len = cut.end - cut.start;
        self.used += taken(version, len) as u64;
        self.link = self.link.or(link_damage(self.last, cut.creator));
        self.last = sectors_in(len);
        self.entry = self.entry.or(damage);
    }
}

/// Cuts bytes of an arena of this version into so many clumps, one for each of these entries, of which
/// the last stands first; where each has its own entry in its header there are none. Where more bytes
/// follow, only clumps that surely end among these are cut.
pub(crate) fn cut_all(
    version: u16,
    bytes: &[u8],
    more: bool,
    entries: &[u8],
    own: bool,
    count: usize,
    cuts: &mut Vec<Cut>,
) -> Result<(), CheckErr>
    requires entries { own ≡ Bool.false → length entries.now ≡ DIRECTORY_ENTRY_LEN * count }
    requires room { IsTrue more → MOST_CLUMP ≤ length bytes.now }
    requires small { length bytes.now < 2 ^ 32 }
    ensures within { All (IsWithinWindow bytes.now) cuts.new.items }
    ensures few { length cuts.new.items ≤ count }
    ensures some { OnOk result (0 < count → 0 < length cuts.new.items) }
    ensures first { OnOk result ((all : List ℕ) → IsFrontOf more bytes.now all
        → CutsFirst version bytes.now all cuts.new.items) }
    ensures entries { OnOk result (own ≡ Bool.false → map (λ cut. cut.entry) cuts.new.items
        ++ entries_in (count - length cuts.new.items) entries.now ≡ entries_in count entries.now) }
    ensures own { own ≡ Bool.true → All (HasOwnEntry bytes.now) cuts.new.items }
    ensures refused { IfErr result (λ bad. bad ≡ CheckErr.NoMemory) }
{
    cuts.clear();
    let least = least_left(more);
    let mut start = 0;
    let mut left = count;
    while left > 0 && bytes.len() - start >= least {
        left -= 1;
        let cut = cut_at(bytes, start, entries, own, left);
        // (behind its last clump an arena may end within a sector)
        start = (start + taken(version, cut.end - cut.start)).min(bytes.len());
        push(cuts, cut)?;
    }
    Ok(())
}

/// The clump that begins at this place of the bytes, with entry i of these, or its own.
fn cut_at(bytes: &[u8], start: usize, entries: &[u8], own: bool, i: usize) -> Cut
    requires start { start ≤ length bytes.now }
    requires small { length bytes.now < 2 ^ 32 }
    requires entries { own ≡ Bool.false → DIRECTORY_ENTRY_LEN * (i + 1) ≤ length entries.now }
    ensures start { result.start ≡ start }
    ensures within { IsWithinWindow bytes.now result }
    ensures clump { cut_bytes bytes.now result ≡ clump_in (drop start bytes.now) }
    ensures len { result.end - result.start ≡ length (clump_in (drop start bytes.now)) }
    ensures small { HEADER_LEN ≤ length (drop start bytes.now)
        → size_in (drop start bytes.now) < 2 ^ 16 }
    ensures entry { own ≡ Bool.false
        → result.entry ≡ part (DIRECTORY_ENTRY_LEN * i) DIRECTORY_ENTRY_LEN entries.now }
    ensures own { own ≡ Bool.true → HasOwnEntry bytes.now result }
{
    let end = start + clump_len(&bytes[start..]);
    let clump = &bytes[start..end];
    Cut {
        start,
        end,
        entry: entry_of(clump, entries, own, i),
        creator: creator_of(clump),
    }
}

/// How many bytes have to be left for a clump that surely ends among them.
fn least_left(more: bool) -> usize
    ensures more { more ≡ Bool.true → result ≡ MOST_CLUMP }
    ensures all { more ≡ Bool.false → result ≡ 0 }
{
    if more { MOST_CLUMP } else { 0 }
}

/// Puts one more clump behind the others.
fn push(cuts: &mut Vec<Cut>, cut: Cut) -> Result<(), CheckErr>
    ensures pushed { OnOk result (cuts.new.items ≡ cuts.old.items ++ cut ∷ []) }
    ensures same { OnErr result (cuts.new.items ≡ cuts.old.items) }
    ensures refused { IfErr result (λ bad. bad ≡ CheckErr.NoMemory) }
{
    match cuts.push(cut) {
        Ok(()) => Ok(()),
        Err(_) => Err(CheckErr::NoMemory),
    }
}

/// Entry i of these, or the one in the clump's own header; where the bytes don't have that it is zeros.
fn entry_of(clump: &[u8], entries: &[u8], own: bool, i: usize) -> [u8; DIRECTORY_ENTRY_LEN]
    requires { own ≡ Bool.false → DIRECTORY_ENTRY_LEN * (i + 1) ≤ length entries.now }
    ensures entry { own ≡ Bool.false
        → result ≡ part (DIRECTORY_ENTRY_LEN * i) DIRECTORY_ENTRY_LEN entries.now }
    ensures own { own ≡ Bool.true → HEADER_LEN ≤ length clump.now
        → result ≡ entry_in_header clump.now }
    ensures read { IsEntryRead result }
{
    if own {
        own_entry(clump)
    } else {
        entry_at(entries, i)
    }
}

/// The directory entry in a clump's header, or zeros where the bytes don't have that.
fn own_entry(clump: &[u8]) -> [u8; DIRECTORY_ENTRY_LEN]
    ensures entry { HEADER_LEN ≤ length clump.now → result ≡ entry_in_header clump.now }
    ensures read { IsEntryRead result }
{
    let mut entry = [0; DIRECTORY_ENTRY_LEN];
    if clump.len() >= HEADER_LEN {
        // (its fields stand behind the magic number, in the entry's order)
        entry.copy_from_slice(&clump[4..4 + DIRECTORY_ENTRY_LEN]);
    }
    entry
}

/// How many sectors the clump before takes, by a clump's header, or 0 where the bytes don't have that.
fn creator_of(clump: &[u8]) -> u32
    ensures { HEADER_LEN ≤ length clump.now → result ≡ sectors_before clump.now }
{
    if clump.len() < HEADER_LEN {
        return 0;
    }
    u32_at(clump, 30)
}

/// What a clump of so many bytes takes of an arena of this version.
fn taken(version: u16, len: usize) -> usize
    requires { len < 2 ^ 32 }
    ensures taken { result ≡ taken version len }
    ensures most { result ≤ len + 511 }
{
    if version == SECTOR_VERSION {
        (len + (CLUMP_UNIT - 1)) / CLUMP_UNIT * CLUMP_UNIT
    } else {
        len
    }
}

/// How many sectors a clump of so many bytes takes in version 2.
fn sectors_in(len: usize) -> u32
    requires { len < 2 ^ 32 }
    ensures { result ≡ taken 2 len / CLUMP_UNIT }
{
    (taken(SECTOR_VERSION, len) / CLUMP_UNIT) as u32
}

/// What is wrong where a clump that stands behind one of so many sectors names so many.
fn link_damage(before: u32, found: u32) -> Option<Damage>
    ensures { (clump : List ℕ) → found ≡ sectors_before clump → result ≡ link_damage before clump }
{
    (found != before).then_some(Damage::of_numbers(u64::from(before), u64::from(found)))
}

/// Entry i among these bytes.
fn entry_at(entries: &[u8], i: usize) -> [u8; DIRECTORY_ENTRY_LEN]
    requires { DIRECTORY_ENTRY_LEN * (i + 1) ≤ length entries.now }
    ensures entry { result ≡ part (DIRECTORY_ENTRY_LEN * i) DIRECTORY_ENTRY_LEN entries.now }
    ensures read { IsEntryRead result }
{
    let at = DIRECTORY_ENTRY_LEN * i;
    let mut entry = [0; DIRECTORY_ENTRY_LEN];
    entry.copy_from_slice(&entries[at..at + DIRECTORY_ENTRY_LEN]);
    entry
}

/// How many of these bytes are their first clump: as many as its header says, or all.
fn clump_len(bytes: &[u8]) -> usize
    ensures clump { take result bytes.now ≡ clump_in bytes.now }
    ensures len { result ≡ length (clump_in bytes.now) }
    ensures small { HEADER_LEN ≤ length bytes.now → size_in bytes.now < 2 ^ 16 }
    ensures most { result ≤ MOST_CLUMP }
{
    if bytes.len() < HEADER_LEN {
        return bytes.len();
    }
    bytes.len().min(HEADER_LEN + block_len(bytes) as usize)
}

/// Tests clumps in parallel.
pub(crate) fn test_clumps<S: Scorer + Sync>(
    rt: &(impl Threads + Sync),
    alloc: Global,
    bytes: &[u8],
    cuts: &[Cut],
    scorer: &S,
) -> Result<Vec<Tested>, CheckErr>
    requires { All (IsWithinWindow bytes.now) cuts.now }
    ensures tested { IfOk result (λ tested.
        AllZip (λ cut found. TestsAs S.score_of (cut_bytes bytes.now cut) cut.entry found)
        cuts.now tested.items) }
    ensures refused { IfErr result (λ bad. bad ≡ CheckErr.NoMemory) }
{
    let tested = cuts
        .par_iter()
        .with_min_len(LEAST_PIECE)
        .map(
            |cut: &Cut| -> Tested
                requires { IsWithinWindow bytes.now cut.now }
                ensures { TestsAs S.score_of (cut_bytes bytes.entry.now cut.now) cut.now.entry
                    result }
            { test_cut(alloc, bytes, cut, scorer) },
        )
        .collect(rt, alloc);
    match tested {
        Ok(tested) => Ok(tested),
        Err(_) => Err(CheckErr::NoMemory),
    }
}

/// Tests a clump among these bytes, and its entry.
fn test_cut<S: Scorer>(alloc: Global, bytes: &[u8], cut: &Cut, scorer: &S) -> Tested
    requires { IsWithinWindow bytes.now cut.now }
    ensures { TestsAs S.score_of (cut_bytes bytes.now cut.now) cut.now.entry result }
{
    test_clump(alloc, &bytes[cut.start..cut.end], &cut.entry, scorer)
}

/// Tests the bytes of one clump, its score among them, and its entry against it.
fn test_clump<S: Scorer>(
    alloc: Global,
    bytes: &[u8],
    entry: &[u8; DIRECTORY_ENTRY_LEN],
    scorer: &S,
) -> Tested
    ensures { TestsAs S.score_of bytes.now entry.now result }
{
    let clump = match unpack(alloc, bytes, scorer) {
        Ok(clump) => clump,
        Err(bad) => return refusal(bad),
    };
    match test_entry(&clump, entry) {
        Some(damage) => Tested::BadEntry(damage),
        None => Tested::Sound,
    }
}

/// The first field of a directory entry that isn't the clump's.
fn test_entry(clump: &Clump, entry: &[u8; DIRECTORY_ENTRY_LEN]) -> Option<Damage>
    ensures { (s : Stored) → IsClumpRead s clump.now → result ≡ entry_damage s entry.now }
{
    let kind = u64::from(clump.kind.wire());
    let size = clump.bytes.len() as u64;
    // (the places of the fields: docs/FORMATS.md, Arenas)
    let [kind_found, size_found, uncsize_found] = [
        u64::from(entry[0]),
        u64::from(u16_at(entry, 1)),
        u64::from(u16_at(entry, 3)),
    ];
    if kind_found != kind {
        return Some(Damage::of_numbers(kind, kind_found));
    }
    if size_found != size {
        return Some(Damage::of_numbers(size, size_found));
    }
    if uncsize_found != size {
        return Some(Damage::of_numbers(size, uncsize_found));
    }
    let mut score = [0; 20];
    score.copy_from_slice(&entry[5..]);
    if Score(score) != clump.score {
        return Some(Damage::of_scores(clump.score, Score(score)));
    }
    None
}

/// What was wanted and what was found, in bytes that are no clump.
fn refusal(bad: ClumpBad) -> Tested
    ensures damaged { ¬ (bad ≡ ClumpBad.NoMemory) → result ≡ Tested.BadClump (damage_by bad) }
    ensures memory { bad ≡ ClumpBad.NoMemory → result ≡ Tested.NoMemory }
{
    // (of what may stand there, the value that this program writes is told as wanted: type 13,
    // encoding 1)
    Tested::BadClump(match bad {
        ClumpBad::Short => Damage::of_numbers(HEADER_LEN as u64, 0),
        ClumpBad::Magic(found) => Damage {
            want: FieldValue::Magic(*b"VCLP"),
            found: FieldValue::Magic(found),
        },
        ClumpBad::Kind(found) => Damage::of_numbers(13, u64::from(found)),
        ClumpBad::Encoding(Encoding::Compressed) => Damage::of_numbers(1, 2),
        ClumpBad::Encoding(Encoding::Unknown(found)) => Damage::of_numbers(1, u64::from(found)),
        ClumpBad::Size { want, found } => Damage::of_numbers(u64::from(want), u64::from(found)),
        ClumpBad::Score { want, found } => Damage::of_scores(want, found),
        ClumpBad::NoMemory => return Tested::NoMemory,
    })
}
