//! Entries that are put in, found, settled and evicted.

use std::alloc::Global;
use std::test::Fail;
use vt_base::{Info, Key, Kind, Place, Score};
use vt_icache::{IndexCache, entry_of};
use vt_rows::Rows;

/// The first byte of a block's score, and the block's number.
type Block = (u8, u64);

/// The blocks that are put in.
const A: Block = (0xa0, 0);

const B: Block = (0xb0, 1);

const C: Block = (0xc0, 2);

/// A block that is never put in.
const OTHER: Block = (0xb1, 0);

/// The entry of a block of this type.
fn info(block: Block, kind: Kind) -> Info {
    let mut score = [0; 20];
    score[0] = block.0;
    score[1] = (block.1 % 256) as u8;
    Info {
        key: Key {
            score: Score(score),
            kind,
        },
        size: 3,
        place: Place {
            arena: 0,
            offset: 24_576,
        },
        number: block.1,
    }
}

/// Its entry as one of data.
fn data(block: Block) -> Info {
    info(block, Kind::DATA)
}

/// What is done with a cache, and what has to come of it.
#[derive(Clone, Copy)]
enum Act {
    /// An entry is put in, of a key that isn't there.
    Put(Block),
    /// It is found by its key, and by its score.
    Finds(Block),
    /// Nothing is found of its key.
    Lacks(Block),
    /// Nor is anything under another type.
    LacksRoot(Block),
    /// Nothing is found of its score.
    LacksScore(Block),
    /// It becomes clean, as one of a block below this number.
    Settles(Block, u64),
    /// There is no dirty entry of this key below this number.
    SettlesNone(Block, u64),
    /// The entries that are dirty are these two.
    Dirty(Block, Block),
    /// So many more fit.
    Spare(u32),
    /// What settled entries have is room again.
    Forget,
    /// A clean entry goes.
    Evicts,
    /// There is none to go.
    EvictsNone,
}

/// What is compared where it is done.
fn compared(act: Act) -> &'static str {
    match act {
        Act::Put(_) => "an entry is put in",
        Act::Finds(_) => "the entry that is found",
        Act::Lacks(_) => "no entry of the key is found",
        Act::LacksRoot(_) => "no entry is found under another type",
        Act::LacksScore(_) => "no entry of the score is found",
        Act::Settles(_, _) => "the entry becomes clean",
        Act::SettlesNone(_, _) => "no entry becomes clean",
        Act::Dirty(_, _) => "the dirty entries",
        Act::Spare(_) => "how many more fit",
        Act::Forget => "settled entries are forgotten",
        Act::Evicts => "a clean entry goes",
        Act::EvictsNone => "there is no clean entry to go",
    }
}

/// Does it, and says whether that came of it.
fn does(index: &mut IndexCache, act: Act) -> bool {
    match act {
        Act::Put(block) => puts(index, data(block)),
        Act::Finds(block) => finds(index, &data(block)),
        Act::Lacks(block) => index.find(&data(block).key).is_none(),
        Act::LacksRoot(block) => index.find(&info(block, Kind::ROOT).key).is_none(),
        Act::LacksScore(block) => index.find_score(&data(block).key.score).is_none(),
        Act::Settles(block, below) => index.settle(&data(block).key, below),
        Act::SettlesNone(block, below) => !index.settle(&data(block).key, below),
        Act::Dirty(one, two) => index.dirty() == [data(one), data(two)].as_slice(),
        Act::Spare(count) => index.spare() == count,
        Act::Forget => {
            index.forget_settled();
            true
        }
        Act::Evicts => index.evict(),
        Act::EvictsNone => !index.evict(),
    }
}

/// Puts an entry in, and says whether its key wasn't there and it had room.
fn puts(index: &mut IndexCache, one: Info) -> bool {
    let None = index.find(&one.key) else {
        return false;
    };
    if index.spare() == 0 {
        return false;
    }
    index.put_dirty(one);
    true
}

/// Whether it is found by its score, and by its key.
fn finds(index: &mut IndexCache, one: &Info) -> bool {
    let entry = Some(entry_of(one));
    index.find_score(&one.key.score) == entry && index.find(&one.key) == entry
}

/// Does it, and notes in this row whether that came of it.
fn see(rows: &mut Rows, row: usize, index: &mut IndexCache, act: Act) {
    rows.nth(row, compared(act), does(index, act));
}

/// Does one after another.
fn see_all(rows: &mut Rows, index: &mut IndexCache, acts: &[Act]) {
    for (row, act) in acts.iter().enumerate() {
        see(rows, row, index, *act);
    }
}

/// Fills the cache, and settles all, as the turn of this number.
fn fills(rows: &mut Rows, index: &mut IndexCache, turn: u64) {
    let row = turn as usize;
    for first in 0..8u8 {
        see(rows, row, index, Act::Put((first, turn)));
    }
    see(rows, row, index, Act::Spare(0));
    if turn % 2 == 0 {
        see(rows, row, index, Act::Forget);
    }
    for first in 0..8u8 {
        see(
            rows,
            row,
            index,
            Act::Settles((first, turn), turn.saturating_add(1)),
        );
    }
    see(rows, row, index, Act::Spare(8));
}

/// What is done with room for three dirty entries and two clean ones.
const ACTS: [Act; 26] = [
    Act::Spare(3),
    Act::EvictsNone,
    Act::Put(A),
    Act::Put(B),
    Act::Put(C),
    Act::Spare(0),
    Act::Finds(B),
    Act::LacksRoot(B),
    Act::Lacks(OTHER),
    Act::LacksScore(OTHER),
    // block 2 isn't below 2
    Act::Settles(A, 2),
    Act::SettlesNone(C, 2),
    Act::SettlesNone(A, 2),
    Act::Dirty(C, B),
    Act::Spare(1),
    Act::Finds(A),
    Act::Settles(B, 3),
    Act::Settles(C, 3),
    Act::Spare(3),
    // there is room for two clean ones, and the first was used before the others
    Act::Lacks(A),
    Act::Finds(B),
    Act::Evicts,
    Act::Lacks(C),
    Act::Evicts,
    Act::EvictsNone,
    Act::Lacks(B),
];

/// Does `ACTS` with a cache of three dirty entries and two clean ones.
fn settle(alloc: Global) -> Rows {
    let mut rows = Rows::new();
    match IndexCache::new(alloc, 3, 2) {
        Ok(mut index) => see_all(&mut rows, &mut index, &ACTS),
        Err(_) => rows.is("memory for a cache", false),
    }
    rows
}

#[test]
fn dirty_entries_become_clean(rt: HostRuntime) -> Result<(), Fail> {
    settle(rt.alloc()).passes()
}

/// Fills the cache 64 times.
fn fills_on(rows: &mut Rows, index: &mut IndexCache) {
    for turn in 0..64u64 {
        fills(rows, index, turn);
    }
}

/// The same, with a new cache of eight dirty entries and four clean ones.
fn fill_again(alloc: Global) -> Rows {
    let mut rows = Rows::new();
    match IndexCache::new(alloc, 8, 4) {
        Ok(mut index) => fills_on(&mut rows, &mut index),
        Err(_) => rows.is("memory for a cache", false),
    }
    rows
}

// The cache is filled again and again, so that what settled entries have has to come back.
#[test]
fn room_comes_back(rt: HostRuntime) -> Result<(), Fail> {
    fill_again(rt.alloc()).passes()
}
