//! The plain store, by its answers to rows of calls.

use std::alloc::{AllocError, Global};
use std::test::Fail;
use vt_base::{Score, Scorer, Sha1Scorer, ShortScorer, Why};
use vt_model::{PlainStore, WRITTEN_VERSION};
use vt_rows::Rows;

/// The number of the block type of data.
const DATA: u8 = 13;

/// That of directories.
const DIRECTORY: u8 = 2;

// SHA-1 of `abc` and of no bytes (FIPS 180-4).
const ABC: Score = Score([
    0xa9, 0x99, 0x3e, 0x36, 0x47, 0x06, 0x81, 0x6a, 0xba, 0x3e, 0x25, 0x71, 0x78, 0x50, 0xc2, 0x6c,
    0x9c, 0xd0, 0xd8, 0x9d,
]);

const ZERO: Score = Score([
    0xda, 0x39, 0xa3, 0xee, 0x5e, 0x6b, 0x4b, 0x0d, 0x32, 0x55, 0xbf, 0xef, 0x95, 0x60, 0x18, 0x90,
    0xaf, 0xd8, 0x07, 0x09,
]);

// One arena with room for thousands of blocks of three bytes.
const LARGE: [u32; 1] = [1_048_576];

/// A call of a store, and what it has to answer.
#[derive(Clone, Copy)]
enum Call<'a> {
    /// A block of a type is written.
    Write(u8, &'a [u8], Result<Score, Why>),
    /// The block of a score and a type is read, of so many bytes at most.
    Read(Score, u8, u32, Result<&'a [u8], Why>),
    /// So many numbered blocks are written: these are taken, and the next is refused.
    Fill(u16, u16, Option<Why>),
}

/// Whether a store answers this.
fn answers<S: Scorer>(alloc: Global, store: &mut PlainStore<S>, call: &Call) -> bool {
    match call {
        Call::Write(kind, block, answer) => store.write(alloc, *kind, block) == *answer,
        Call::Read(score, kind, count, answer) => store.read(score, *kind, *count) == *answer,
        Call::Fill(blocks, taken, refusal) => fill(alloc, store, *blocks) == (*taken, *refusal),
    }
}

/// How many of the numbered blocks are taken before the first refusal, and that refusal.
fn fill<S: Scorer>(alloc: Global, store: &mut PlainStore<S>, blocks: u16) -> (u16, Option<Why>) {
    for i in 0..blocks {
        if let Err(why) = store.write(alloc, DATA, &numbered(i)) {
            return (i, Some(why));
        }
    }
    (blocks, None)
}

/// Block i of distinct blocks of three bytes.
fn numbered(i: u16) -> [u8; 3] {
    let [high, low] = i.to_be_bytes();
    [7, high, low]
}

/// A store without blocks. `buckets` is how many its index section has.
fn store_of<S: Scorer + Drop>(
    alloc: Global,
    scorer: S,
    arenas: &[u32],
    buckets: u32,
) -> Result<PlainStore<S>, AllocError> {
    let versions = vec![in alloc; WRITTEN_VERSION; arenas.len()]?;
    let arenas = Vec::from_slice(alloc, arenas)?;
    let sections = Vec::from_slice(alloc, &[buckets])?;
    Ok(PlainStore::new(alloc, scorer, arenas, versions, 0, sections))
}

/// Makes these calls of a store.
fn answers_all<S: Scorer>(
    what: &'static str,
    alloc: Global,
    store: &mut PlainStore<S>,
    calls: &[Call],
) -> Rows {
    let mut rows = Rows::new();
    for (row, call) in calls.iter().enumerate() {
        rows.nth(row, what, answers(alloc, store, call));
    }
    rows
}

/// Makes these calls of a store without blocks, and tells the first of them, by its number, that is
/// answered otherwise. `buckets` is how many its index section has.
fn see<S: Scorer + Drop>(
    what: &'static str,
    alloc: Global,
    scorer: S,
    arenas: &[u32],
    buckets: u32,
    calls: &[Call],
) -> Rows {
    let mut rows = Rows::new();
    match store_of(alloc, scorer, arenas, buckets) {
        Ok(mut store) => rows = answers_all(what, alloc, &mut store, calls),
        Err(_) => rows.is("memory for a store", false),
    }
    rows
}

const KEYED: [Call; 9] = [
    Call::Read(ABC, DATA, 3, Err(Why::Absent)),
    Call::Write(DATA, b"abc", Ok(ABC)),
    Call::Write(DATA, b"abc", Ok(ABC)),
    Call::Read(ABC, DATA, 3, Ok(b"abc")),
    Call::Read(ABC, DATA, 2, Err(Why::TooSmall)),
    Call::Read(ABC, DIRECTORY, 3, Err(Why::Absent)),
    Call::Read(ABC, 10, 3, Err(Why::BadType)),
    Call::Write(DIRECTORY, b"abc", Ok(ABC)),
    Call::Read(ABC, DIRECTORY, 65_535, Ok(b"abc")),
];

#[test]
fn a_block_is_read_back_under_its_key(rt: HostRuntime) -> Result<(), Fail> {
    see(
        "the answer to a call",
        rt.alloc(),
        Sha1Scorer,
        &LARGE,
        1_000,
        &KEYED,
    )
    .passes()
}

const EMPTY: [Call; 5] = [
    Call::Write(DATA, b"", Ok(ZERO)),
    Call::Read(ZERO, DATA, 0, Ok(b"")),
    Call::Read(ZERO, 1, 9, Ok(b"")),
    Call::Write(0, b"", Err(Why::BadType)),
    Call::Write(DATA, b"abc", Err(Why::ArenasFull)),
];

#[test]
fn no_bytes_are_always_held(rt: HostRuntime) -> Result<(), Fail> {
    // no arena has room, and no bucket is there
    see(
        "the answer to a call",
        rt.alloc(),
        Sha1Scorer,
        &[],
        0,
        &EMPTY,
    )
    .passes()
}

#[test]
fn a_block_has_a_limit(rt: HostRuntime) -> Result<(), Fail> {
    let block = [7; 57_345];
    see_too_big(rt.alloc(), &block).all()?;
    see_most(rt.alloc(), &block[..57_344]).passes()
}

/// A store refuses this block, and takes another.
fn see_too_big(alloc: Global, block: &[u8]) -> Rows {
    let calls = [
        Call::Write(DATA, block, Err(Why::TooBig)),
        Call::Write(DATA, b"abc", Ok(ABC)),
    ];
    see("a byte too many", alloc, Sha1Scorer, &LARGE, 1_000, &calls)
}

/// A store takes this block, and gives it to a reader with room for it.
fn see_most(alloc: Global, block: &[u8]) -> Rows {
    let score = Sha1Scorer.score(block);
    let calls = [
        Call::Write(DATA, block, Ok(score)),
        Call::Read(score, DATA, 57_344, Ok(block)),
        Call::Read(score, DATA, 57_343, Err(Why::TooSmall)),
    ];
    see("the most bytes", alloc, Sha1Scorer, &LARGE, 1_000, &calls)
}

/// Numbers that are no block type's, and what a wrong answer is told by.
const NO_TYPES: [(u8, &str); 5] = [
    (0, "type 0"),
    (10, "type 10"),
    (12, "type 12"),
    (14, "type 14"),
    (255, "type 255"),
];

/// A store refuses blocks of this type, whatever they have.
fn see_no_type(alloc: Global, kind: u8, what: &'static str) -> Rows {
    let more = [7; 57_345];
    let calls = [
        Call::Write(kind, b"abc", Err(Why::BadType)),
        Call::Write(kind, b"", Err(Why::BadType)),
        Call::Write(kind, &more, Err(Why::BadType)),
    ];
    see(what, alloc, Sha1Scorer, &LARGE, 1_000, &calls)
}

#[test]
fn a_block_has_a_type(rt: HostRuntime) -> Result<(), Fail> {
    for (kind, what) in &NO_TYPES {
        see_no_type(rt.alloc(), *kind, *what).all()?;
    }
    Ok(())
}

/// What a wrong answer is told by, the bytes of each arena, and how many blocks of three bytes they
/// take, one behind another.
const ARENAS: [(&str, &[u32], u16); 5] = [
    ("no arena", &[], 0),
    ("an arena without room", &[24_576], 0),
    ("one arena", &[32_768], 124),
    ("two arenas", &[32_768, 32_768], 248),
    (
        "an arena without room between two",
        &[32_768, 24_576, 32_768],
        124,
    ),
];

/// A store takes so many blocks.
fn see_full(alloc: Global, what: &'static str, arenas: &[u32], taken: u16) -> Rows {
    let calls = [
        Call::Fill(300, taken, Some(Why::ArenasFull)),
        // each that was taken still is
        Call::Fill(taken, taken, None),
    ];
    see(what, alloc, Sha1Scorer, arenas, 1_000, &calls)
}

#[test]
fn arenas_fill_one_after_another(rt: HostRuntime) -> Result<(), Fail> {
    for (what, arenas, taken) in &ARENAS {
        see_full(rt.alloc(), *what, arenas, *taken).all()?;
    }
    Ok(())
}

/// A store of one arena answers this to a block, and this to `abc` behind it.
fn see_first(
    what: &'static str,
    alloc: Global,
    block: &[u8],
    answer: Result<Score, Why>,
    next: Result<Score, Why>,
) -> Rows {
    let calls = [
        Call::Write(DATA, block, answer),
        Call::Write(DATA, b"abc", next),
    ];
    see(what, alloc, Sha1Scorer, &[32_768], 1_000, &calls)
}

#[test]
fn the_first_block_fills_an_arena(rt: HostRuntime) -> Result<(), Fail> {
    let full = Err(Why::ArenasFull);
    let block = [7; 8_130];
    let fits = &block[..8_129];
    let score = Sha1Scorer.score(fits);
    see_first("a block that fits", rt.alloc(), fits, Ok(score), full).all()?;
    see_first("a byte too many", rt.alloc(), &block, full, Ok(ABC)).passes()
}

const ONE_BUCKET: [Call; 2] = [
    Call::Fill(300, 263, Some(Why::IndexFull)),
    Call::Fill(263, 263, None),
];

#[test]
fn a_bucket_fills(rt: HostRuntime) -> Result<(), Fail> {
    see(
        "blocks of one bucket",
        rt.alloc(),
        Sha1Scorer,
        &LARGE,
        1,
        &ONE_BUCKET,
    )
    .passes()
}

// The short score of `abc` and of `abd`.
const SHORT: Score = Score([
    0x61, 0, 0, 0, 0, 0, 0, 0, 0, 0, 0, 0, 0, 0, 0, 0, 0, 0, 0, 0,
]);

const COLLIDING: [Call; 6] = [
    Call::Write(DATA, b"abc", Ok(SHORT)),
    Call::Write(DATA, b"abd", Err(Why::Collision)),
    Call::Write(DIRECTORY, b"abd", Err(Why::Collision)),
    Call::Write(DIRECTORY, b"abc", Ok(SHORT)),
    Call::Write(DATA, b"\0", Err(Why::Collision)),
    Call::Read(SHORT, DIRECTORY, 3, Ok(b"abc")),
];

#[test]
fn equal_scores_collide(rt: HostRuntime) -> Result<(), Fail> {
    see(
        "the answer to a call",
        rt.alloc(),
        ShortScorer,
        &LARGE,
        1_000,
        &COLLIDING,
    )
    .passes()
}
