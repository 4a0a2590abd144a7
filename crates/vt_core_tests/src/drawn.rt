//! Drawn events and crashes, beside a store that is one list.

ghost use Rattle.std.specs.Prelude.{◌<◌};

use crate::disks::Fails;
use crate::running::{Case, passes_short};
use crate::stores::{Given, TestStore, again, ask, fresh, is, is_block, is_score, there, work};
use std::alloc::Global;
use std::test::Fail;
use vt_base::{Operation, Scorer, ShortScorer};
use vt_core::{Event, Out};
use vt_memdisk::CrashMode;
use vt_model::{PlainStore, WRITTEN_VERSION};
use vt_rows::Rows;

/// Numbers that follow from the first one.
#[derive(Drop)]
struct Draws {
    /// The last number, all of its 64 bits.
    x: u64,
}

impl Draws {
    /// The next number, below this one.
    fn draw(&mut self, below: u32) -> u32
        requires { 0 < below }
        ensures { result < below }
    {
        self.x = self
            .x
            .wrapping_mul(6_364_136_223_846_793_005)
            .wrapping_add(1_442_695_040_888_963_407);
        (self.x >> 33) as u32 % below
    }
}

/// How many words there are, each of two types.
const WORDS: u32 = 64;

/// A block, by the number of its word and of its type.
#[derive(Clone, Copy)]
struct Word {
    bytes: [u8; 64],
    /// How many of these bytes are the block's.
    len: usize,
    /// The type: 13, or 2 for the numbers from 64 on.
    kind: u8,
}

/// Word w has w + 1 bytes of its number. The last four have the scores of the first four, with
/// other bytes.
fn word_of(number: u32) -> Word {
    let w = number % WORDS;
    let mut bytes = [w as u8; 64];
    bytes[0] = (w % 60) as u8 * 4;
    Word {
        bytes,
        len: w as usize + 1,
        kind: if number < WORDS { 13 } else { 2 },
    }
}

/// A store, what it accepted, and a list that holds the same.
#[derive(Drop)]
struct Pair<T: TestStore> {
    store: T,
    /// The numbers of the words, in the order in which they were accepted.
    accepted: Vec<u32>,
    plain: PlainStore<ShortScorer>,
}

/// The list of these blocks.
fn plain_of(alloc: Global, accepted: &[u32]) -> Option<PlainStore<ShortScorer>> {
    let arenas = vec![in alloc; 32_768, 32_768, 32_768].ok()?;
    let versions = vec![in alloc; WRITTEN_VERSION; arenas.len()].ok()?;
    let sections = vec![in alloc; 1, 1].ok()?;
    let mut plain = PlainStore::new(alloc, ShortScorer, arenas, versions, 0, sections);
    for number in accepted {
        let it = word_of(*number);
        plain.write(alloc, it.kind, it.bytes.get(..it.len)?).ok()?;
    }
    Some(plain)
}

/// A store that accepted these blocks, and the list of them. None says that memory is wanting.
fn paired<T: TestStore>(alloc: Global, store: T, accepted: Vec<u32>) -> Option<Pair<T>> {
    match plain_of(alloc, &accepted) {
        Some(plain) => Some(Pair {
            store,
            accepted,
            plain,
        }),
        None => None,
    }
}

/// A new store of three arenas, and an empty list.
fn new_pair<T: TestStore>(alloc: Global, rows: &mut Rows) -> Option<Pair<T>> {
    let store = there(rows, 0, fresh(alloc, 3, 0, Fails::Never))?;
    paired(alloc, store, Vec::new(alloc))
}

/// A block is written. Where the queue is full, the log commits first.
fn write_through<T: TestStore>(alloc: Global, store: &mut T, kind: u8, bytes: &[u8]) -> Out {
    let write = ask(0, Operation::Write { kind, bytes });
    let out = store.event(alloc, write);
    if matches!(out, Out::NotYet) && work(alloc, store, Event::LogAdvance) {
        return store.event(alloc, write);
    }
    out
}

/// Whether a write is answered as the list answers it.
fn is_written<S: Scorer>(
    alloc: Global,
    plain: &mut PlainStore<S>,
    it: &Word,
    bytes: &[u8],
    out: &Out,
) -> bool {
    match plain.write(alloc, it.kind, bytes) {
        Ok(score) => is_score(out, &score, Ok(())),
        Err(why) => is(out, Given::Refused(why)),
    }
}

/// A block is written to both. It gives whether they answer alike.
fn write_word<T: TestStore>(alloc: Global, pair: &mut Pair<T>, number: u32) -> bool {
    let it = word_of(number);
    let Some(bytes) = it.bytes.get(..it.len) else {
        return false;
    };
    let before = pair.store.counts()[0];
    let out = write_through(alloc, &mut pair.store, it.kind, bytes);
    if before < pair.store.counts()[0] && pair.accepted.push(number).is_err() {
        return false;
    }
    is_written(alloc, &mut pair.plain, &it, bytes, &out)
}

/// A block is read of both. It gives whether they answer alike.
fn read_word<T: TestStore>(alloc: Global, pair: &mut Pair<T>, number: u32) -> bool {
    let it = word_of(number);
    let (score, kind, count) = (ShortScorer.score(&it.bytes), it.kind, 57_344);
    let read = ask(0, Operation::Read { score, kind, count });
    let out = pair.store.event(alloc, read);
    is_block(&out, pair.plain.read(&score, kind, count))
}

/// A sync, and what it waits for.
fn sync<T: TestStore>(alloc: Global, store: &mut T, rows: &mut Rows, row: usize) {
    let out = store.event(alloc, ask(0, Operation::Sync));
    rows.nth(row, "a sync waits", matches!(out, Out::Waits));
    let done = work(alloc, store, Event::LogAdvance);
    rows.nth(row, "the commit of a sync", done);
    let [len, ..] = store.counts();
    let out = store.event(alloc, Event::Answer(0));
    rows.nth(row, "the reply to a sync", is(&out, Given::Synced(len)));
}

/// A crash cuts what was accepted, but for what was synced.
fn crash<T: TestStore>(
    alloc: Global,
    pair: Pair<T>,
    mode: CrashMode,
    rows: &mut Rows,
    row: usize,
) -> Option<Pair<T>> {
    let Pair {
        store,
        mut accepted,
        plain: _,
    } = pair;
    let [_, _, synced] = store.counts();
    let store = there(rows, row, again(alloc, store, mode))?;
    let [left, ..] = store.counts();
    let prefix = synced <= left && left <= accepted.len() as u64;
    rows.nth(row, "a prefix is left, with what was synced", prefix);
    accepted.truncate(left as usize);
    paired(alloc, store, accepted)
}

/// A piece of the store's own work.
fn drawn_work(draws: &mut Draws) -> Event<'static> {
    let shard = draws.draw(2);
    match draws.draw(8) {
        0..=2 => Event::LogAdvance,
        3 => Event::FileBegin(shard),
        4 | 5 => Event::FileAdvance(shard),
        6 => Event::EvictLump(shard),
        _ => Event::BloomAdvance,
    }
}

/// A write, a read, a sync, a crash, or a piece of work.
fn round<T: TestStore>(
    alloc: Global,
    mut pair: Pair<T>,
    draws: &mut Draws,
    rows: &mut Rows,
    row: usize,
) -> Option<Pair<T>> {
    let number = draws.draw(2 * WORDS);
    match draws.draw(16) {
        0..=4 => {
            let right = write_word(alloc, &mut pair, number);
            rows.nth(row, "the reply to a write", right);
        }
        5..=7 => {
            let right = read_word(alloc, &mut pair, number);
            rows.nth(row, "the reply to a read", right);
        }
        8 => sync(alloc, &mut pair.store, rows, row),
        9 => {
            let mode = CrashMode::ALL[draws.draw(4) as usize];
            return crash(alloc, pair, mode, rows, row);
        }
        _ => {
            let out = pair.store.event(alloc, drawn_work(draws));
            rows.nth(row, "a piece of work", !is(&out, Given::Failed));
        }
    }
    Some(pair)
}

/// So many rounds from a number on.
fn played<T: TestStore>(alloc: Global, mut pair: Pair<T>, rows: &mut Rows) -> Option<Pair<T>> {
    let mut draws = Draws { x: 7 };
    for row in 0..2_000usize {
        pair = round(alloc, pair, &mut draws, rows, row)?;
    }
    Some(pair)
}

/// A row that doesn't hold has the number of its round, or in the end of the word that is read.
fn rounds<T: TestStore>(alloc: Global, rows: &mut Rows) -> Option<()> {
    let pair: Pair<T> = new_pair(alloc, rows)?;
    let mut pair = played(alloc, pair, rows)?;
    for number in 0..2 * WORDS {
        let right = read_word(alloc, &mut pair, number);
        rows.nth(number as usize, "the reply to a read in the end", right);
    }
    Some(())
}

pub fn see<T: TestStore>(alloc: Global, rows: &mut Rows) {
    let all = rounds::<T>(alloc, rows);
    rows.is("memory for all rounds", all.is_some());
}

/// Each reply is that of the list, whose end a crash may cut.
#[test]
fn a_store_answers_as_a_list_does(rt: HostRuntime) -> Result<(), Fail> {
    passes_short(rt.alloc(), Case::Draws)
}
