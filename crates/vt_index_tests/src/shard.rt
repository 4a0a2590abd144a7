//! Shards on disks in memory, beside plain lists of their blocks.
//!
//! What a test does is done to any `TestShard`, and `see_in_memory` alone names the real one.

ghost use Rattle.std.specs.Prelude.{◌<◌};

use crate::disks::Change;
use crate::isect::{live, used};
use crate::sections::TestSection;
use crate::shards::{MadeShard, TestShard};
use std::alloc::Global;
use std::test::Fail;
use vt_base::{Bytes, Entry, Info, Key, Kind, Place, Score};
use vt_icache::entry_of;
use vt_isect::ShardErr;
use vt_memdisk::CrashMode;
use vt_rows::Rows;
use vt_shard::{ROOM, Sizes};
use vt_twin::Step;

/// A head and one bucket, a head and two, and a head and eight.
const ONE: u64 = 41_472;

const TWO: u64 = 58_368;

const EIGHT: u64 = 24_576 + 8 * 16_896;

/// The calls before those of a test on two buckets: three of formatting, three of mounting, four of
/// each change of the head, and five for the buckets that are cleared.
const FIRST_CALL: u64 = 19;

/// Caches of the least size, and ample ones.
const LEAST: Sizes = Sizes { lumps: 1, clean: 1 };

const AMPLE: Sizes = Sizes {
    lumps: 64,
    clean: 2048,
};

/// The directory entry of block `number`, whose score begins with these bytes.
fn block(first: u8, second: u8, kind: Kind, number: u64) -> Info {
    let mut score = [0; 20];
    score[0] = first;
    score[1] = second;
    Info {
        key: Key {
            score: Score(score),
            kind,
        },
        size: 3,
        place: Place {
            arena: 0,
            offset: (number % 1_000_000) as u32,
        },
        number,
    }
}

/// The same, of type 13.
fn data(first: u8, second: u8, number: u64) -> Info {
    block(first, second, Kind::DATA, number)
}

/// A shard of a new disk of this length, with so many empty buckets, of which these calls fail.
fn new_shard<T: TestShard>(
    alloc: Global,
    len: u64,
    buckets: u32,
    failing: &[u64],
    sizes: Sizes,
) -> Option<T> {
    let section: T::Section = live(alloc, len, failing, buckets)?;
    T::open(alloc, section, sizes)
}

/// Puts a block in, where there is room and it isn't held, as far as its bucket tells.
fn put<T: TestShard>(shard: &mut T, info: Info, row: usize, rows: &mut Rows) {
    if let Err(what) = shard.add(info) {
        rows.nth(row, what, false);
    }
}

/// Puts these blocks in.
fn put_all<T: TestShard>(shard: &mut T, blocks: &[Info], rows: &mut Rows) {
    for (row, info) in blocks.iter().enumerate() {
        put(shard, *info, row, rows);
    }
}

/// Whether a look-up finds a block.
fn finds<T: TestShard>(shard: &mut T, info: &Info) -> bool {
    shard.find(&info.key) == Some(Ok(Some(entry_of(info))))
}

/// Look-ups find these blocks.
fn finds_all<T: TestShard>(shard: &mut T, blocks: &[Info], rows: &mut Rows) {
    for (row, info) in blocks.iter().enumerate() {
        rows.nth(row, "a look-up finds the row's block", finds(shard, info));
    }
}

/// Makes a call of the writeback under way.
fn step<T: TestShard>(
    shard: &mut T,
    row: usize,
    rows: &mut Rows,
) -> Option<Result<Step, ShardErr>> {
    let owed = shard.told().owed;
    let answer = shard.step();
    let is_less = !matches!(answer, Some(Ok(_))) || shard.told().owed < owed;
    rows.nth(row, "fewer calls are owed behind one that is done", is_less);
    answer
}

/// Makes calls of the writeback until one answers something else than More.
fn write_back<T: TestShard>(
    shard: &mut T,
    row: usize,
    rows: &mut Rows,
) -> Option<Result<Step, ShardErr>> {
    for _ in 0..6_148u16 {
        let answer = step(shard, row, rows);
        if answer != Some(Ok(Step::More)) {
            return answer;
        }
    }
    None
}

// ---- beside a list

/// Look-ups, and the crowd of each bucket, are those of the list.
fn agrees<T: TestShard>(shard: &mut T, blocks: &[Info], buckets: u32, rows: &mut Rows) {
    for (row, info) in blocks.iter().enumerate() {
        has_just(shard, info, row, rows);
    }
    for number in 0..buckets {
        let wanted = crowd_of(blocks, buckets, number);
        let found = shard.count(number) == Some(Ok(wanted));
        rows.nth(number as usize, "the crowd of the row's bucket", found);
    }
}

/// Look-ups find a block, and none of another type with its score.
fn has_just<T: TestShard>(shard: &mut T, info: &Info, row: usize, rows: &mut Rows) {
    rows.nth(row, "a look-up finds the row's block", finds(shard, info));
    let other = Key {
        kind: Kind::ROOT,
        ..info.key
    };
    let is_none = shard.find(&other) == Some(Ok(None));
    rows.nth(row, "no block of another type is found", is_none);
    let is_held = has_score(shard, &info.key);
    rows.nth(row, "an entry of the row's score is found", is_held);
}

/// Whether an entry is found that has a key's score.
fn has_score<T: TestShard>(shard: &mut T, key: &Key) -> bool {
    match shard.find_score(key) {
        Some(Ok(Some(one))) => one.key.score == key.score,
        _ => false,
    }
}

/// How many blocks of a list a bucket has, of so many.
fn crowd_of(blocks: &[Info], buckets: u32, number: u32) -> u32 {
    let mut count = 0u32;
    for info in blocks {
        if vt_isect::bucket_number(buckets, &info.key.score) == number {
            count = count.saturating_add(1);
        }
    }
    count
}

/// Writes back the blocks below a number, without a fault.
fn writes_all<T: TestShard>(shard: &mut T, number: u64, row: usize, rows: &mut Rows) {
    rows.nth(row, "a writeback begins", shard.begin(number) == Some(true));
    let is_done = write_back(shard, row, rows) == Some(Ok(Step::Done));
    rows.nth(row, "a writeback ends", is_done);
    rows.nth(
        row,
        "the mark behind a writeback",
        shard.told().mark == number,
    );
}

// ---- a writeback that is stopped

/// Two blocks of bucket 0, of two, and one of bucket 1.
fn three() -> [Info; 3] {
    [data(0x7f, 0, 0), data(0x80, 0, 1), data(0x01, 2, 2)]
}

/// The calls before those of the writeback of the three blocks: those that make the section, three
/// that mount it again, and of the look-ups two for each bucket, and one where the first bucket is
/// read again.
const FIRST_STEP: u64 = FIRST_CALL + 3 + 5;

/// The calls of that writeback, whose two buckets are one group: of each bucket one read, since the
/// look-ups have read its selector, and the write of its idle frame, a sync, a selector each, a
/// sync, and four for the head.
const WRITEBACK: u8 = 12;

/// Ends the writeback of the three blocks with this call of it.
fn stops<T: TestShard>(shard: &mut T, call: u8, fails: bool, rows: &mut Rows) {
    let blocks = three();
    put_all(shard, &blocks, rows);
    rows.is("a writeback begins", shard.begin(3) == Some(true));
    goes_on(shard, call, rows);
    ends(shard, call, fails, rows);
    agrees(shard, &blocks, 2, rows);
}

/// Makes so many calls of a writeback, each of which gives More.
fn goes_on<T: TestShard>(shard: &mut T, calls: u8, rows: &mut Rows) {
    for _ in 0..calls {
        let is_done = step(shard, 0, rows) == Some(Ok(Step::More));
        rows.is("a call before the last gives More", is_done);
    }
}

/// Makes this call. A fault in a read ends a writeback, and in a write or a sync it stops the shard.
fn ends<T: TestShard>(shard: &mut T, call: u8, fails: bool, rows: &mut Rows) {
    let answer = step(shard, 0, rows);
    let is_it = answer.is_some_and(|answer| answer.is_err() == fails);
    rows.is("whether the last call fails", is_it);
    let stops = fails && !matches!(call, 0 | 2);
    rows.is(
        "whether the shard is stopped",
        shard.told().is_stopped == stops,
    );
}

/// Puts in a block where its bucket lacks it behind a crash.
fn fill_up<T: TestShard>(shard: &mut T, info: &Info, mark: u64, row: usize, rows: &mut Rows) {
    match shard.find(&info.key) {
        Some(Ok(Some(entry))) => {
            rows.nth(
                row,
                "the entry that a crash leaves",
                entry == entry_of(info),
            );
        }
        Some(Ok(None)) => {
            let is_above = info.number >= mark;
            rows.nth(row, "no block below the mark lacks its entry", is_above);
            put(shard, *info, row, rows);
        }
        _ => rows.nth(row, "a look-up behind a crash is answered", false),
    }
}

/// Puts in what the buckets lack of the three blocks, as while the log is read back from its end.
fn fills_up<T: TestShard>(shard: &mut T, rows: &mut Rows) {
    let mark = shard.told().mark;
    rows.is("the mark that a crash leaves", mark == 0 || mark == 3);
    let blocks = three();
    for (row, info) in blocks.iter().enumerate().rev() {
        fill_up(shard, info, mark, row, rows);
    }
    agrees(shard, &blocks, 2, rows);
    writes_bare(shard, rows);
    agrees(shard, &blocks, 2, rows);
}

/// Writes back whatever is dirty. The mark stays.
fn writes_bare<T: TestShard>(shard: &mut T, rows: &mut Rows) {
    let mark = shard.told().mark;
    match shard.begin_all() {
        Some(true) => {
            let is_done = write_back(shard, 0, rows) == Some(Ok(Step::Done));
            rows.is("a writeback of all ends", is_done);
        }
        Some(false) => {}
        None => rows.is("a writeback of all may begin", false),
    }
    let told = shard.told();
    rows.is("no entry is dirty behind it", told.spare == ROOM);
    rows.is("the mark stays as it is", told.mark == mark);
}

/// The call of the disk that fails, where this call of the writeback does.
fn failing_call(call: u8, fails: bool) -> u64 {
    if fails {
        FIRST_STEP + u64::from(call)
    } else {
        u64::MAX
    }
}

/// A shard whose writeback ended with this call of it.
fn stopped<T: TestShard>(alloc: Global, call: u8, fails: bool, rows: &mut Rows) -> Option<T> {
    let mut shard: T = new_shard(alloc, TWO, 2, &[failing_call(call, fails)], LEAST)?;
    stops(&mut shard, call, fails, rows);
    Some(shard)
}

/// The same behind a crash.
fn crashed<T: TestShard>(
    alloc: Global,
    call: u8,
    fails: bool,
    change: Change,
    rows: &mut Rows,
) -> Option<T> {
    let shard: T = stopped(alloc, call, fails, rows)?;
    shard.again(alloc, change, LEAST)
}

/// What a crash leaves has each of the three blocks then.
fn recovers<T: TestShard>(alloc: Global, call: u8, fails: bool, change: Change) -> Rows {
    let mut rows = Rows::new();
    match crashed::<T>(alloc, call, fails, change, &mut rows) {
        Some(mut shard) => fills_up(&mut shard, &mut rows),
        None => rows.is("a shard is mounted", false),
    }
    rows
}

/// The same in each mode. The rows' numbers are this one and the mode's.
fn crash_in_each<T: TestShard>(
    alloc: Global,
    call: u8,
    fails: bool,
    first: usize,
    rows: &mut Rows,
) {
    for (number, mode) in CrashMode::ALL.iter().enumerate() {
        let found = recovers::<T>(alloc, call, fails, Change::Crash(*mode));
        rows.note(first.saturating_add(number), &found);
    }
}

/// A writeback ends with each of its calls, which is made or fails, and there is a crash in each mode.
fn stop_anywhere<T: TestShard>(alloc: Global) -> Rows {
    let mut rows = Rows::new();
    for call in 0..WRITEBACK {
        let first = 100 * usize::from(call);
        crash_in_each::<T>(alloc, call, false, first, &mut rows);
        crash_in_each::<T>(alloc, call, true, first + 10, &mut rows);
    }
    rows
}

// The digits of a row's number are two of the call, 1 where it fails, and the mode's.
#[test]
fn what_a_crash_leaves_has_each_block(rt: HostRuntime) -> Result<(), Fail> {
    see_in_memory(rt.alloc(), Case::Crashes).passes()
}

/// A writeback fails in this call, which writes a selector of the group, and a crash leaves any of
/// it. The rows' numbers are this one and the selector's.
fn select<T: TestShard>(alloc: Global, call: u8, first: usize, rows: &mut Rows) {
    for selector in &[0u8, 1, 2, 254, 255] {
        let change = Change::Torn(u16::from(*selector));
        let found = recovers::<T>(alloc, call, true, change);
        rows.note(first.saturating_add(usize::from(*selector)), &found);
    }
}

fn select_each<T: TestShard>(alloc: Global) -> Rows {
    let mut rows = Rows::new();
    select::<T>(alloc, 7, 7_000, &mut rows);
    select::<T>(alloc, 8, 8_000, &mut rows);
    rows
}

// The digits of a row's number are the call, and three of the selector.
#[test]
fn whatever_selector_a_crash_leaves(rt: HostRuntime) -> Result<(), Fail> {
    see_in_memory(rt.alloc(), Case::Selectors).passes()
}

// ---- a full bucket

/// As many blocks as a bucket has room for.
fn bucketful(alloc: Global) -> Option<Vec<Info>> {
    let mut blocks = Vec::with_capacity(alloc, 263).ok()?;
    for number in 0..263u16 {
        let [first, second] = number.to_be_bytes();
        blocks.push(data(first, second, u64::from(number))).ok()?;
    }
    Some(blocks)
}

/// A bucket with as many blocks as it has room for, most of them written back.
fn fills_a_bucket<T: TestShard>(shard: &mut T, blocks: &[Info]) -> Rows {
    let mut rows = Rows::new();
    for (row, info) in blocks.iter().enumerate() {
        put(shard, *info, row, &mut rows);
        if row % 100 == 99 {
            writes_all(shard, row as u64, row, &mut rows);
        }
    }
    agrees(shard, blocks, 1, &mut rows);
    rows.is("the crowd of the bucket", shard.count(0) == Some(Ok(263)));
    let is_none = shard.find(&data(9, 9, 0).key) == Some(Ok(None));
    rows.is("no block is found that was never put in", is_none);
    rows
}

/// One bucket is filled, and takes no more.
fn fill_one<T: TestShard>(alloc: Global) -> Rows {
    let Some(mut shard) = new_shard::<T>(alloc, ONE, 1, &[], AMPLE) else {
        return Rows::wrong("a shard is mounted");
    };
    match bucketful(alloc) {
        Some(blocks) => fills_a_bucket(&mut shard, &blocks),
        None => Rows::wrong("memory for blocks"),
    }
}

// A row is a block.
#[test]
fn a_bucket_is_full(rt: HostRuntime) -> Result<(), Fail> {
    see_in_memory(rt.alloc(), Case::FullBucket).passes()
}

// ---- drawn calls

/// Bytes that look drawn, from this number on.
fn draw(state: &mut u64, most: u64) -> u64
    requires { 0 < most }
    ensures { result < most }
{
    *state = state
        .wrapping_mul(6_364_136_223_846_793_005)
        .wrapping_add(1_442_695_040_888_963_407);
    (*state >> 33) % most
}

/// The blocks of a shard of two buckets, and the number that the next drawn one comes from.
#[derive(Drop)]
struct Blocks {
    /// Each has the number at which it stands here.
    list: Vec<Info>,
    /// See `draw`.
    state: u64,
}

impl Blocks {
    /// A block of a drawn key, and the one in the list that has that.
    fn drawn(&mut self) -> (Info, Option<Info>) {
        let kind = if draw(&mut self.state, 2) == 0 {
            Kind::DATA
        } else {
            Kind::DIRECTORY
        };
        let first = draw(&mut self.state, 16) as u8 * 16;
        let second = draw(&mut self.state, 8) as u8;
        let info = block(first, second, kind, self.list.len() as u64);
        let held = self.list.iter().find(|it| it.key == info.key).copied();
        (info, held)
    }

    /// Whether the list has a key's score.
    fn has_score(&self, key: &Key) -> bool {
        self.list.iter().any(|it| it.key.score == key.score)
    }

    /// Looks a drawn key up, and puts its block in where it isn't held.
    fn write<T: TestShard>(&mut self, shard: &mut T, row: usize, rows: &mut Rows) {
        let (info, held) = self.drawn();
        let is_it = shard.find(&info.key) == Some(Ok(entry_in(&held)));
        rows.nth(row, "the entry of a drawn key", is_it);
        let is_it = holds(shard, &info.key) == Some(self.has_score(&info.key));
        rows.nth(row, "whether a drawn score is held", is_it);
        if held.is_none() {
            put(shard, info, row, rows);
            rows.nth(row, "there is memory", self.list.push(info).is_ok());
        }
    }

    /// Begins a writeback, or makes a call of the one under way.
    fn write_back<T: TestShard>(&mut self, shard: &mut T, row: usize, rows: &mut Rows) {
        let told = shard.told();
        if told.owed != 0 {
            let is_done = matches!(step(shard, row, rows), Some(Ok(_)));
            rows.nth(row, "a call of a writeback is done", is_done);
            return;
        }
        let len = self.list.len() as u64;
        let durable = len - draw(&mut self.state, 3).min(len);
        let begins = shard.begin(durable) == Some(true) || told.mark >= durable;
        rows.nth(row, "a writeback begins or has nothing to do", begins);
    }

    /// Keeps a block in memory, or drops one, or drops a clean entry.
    fn evict<T: TestShard>(&mut self, shard: &mut T, alloc: Global, row: usize, rows: &mut Rows) {
        let (info, held) = self.drawn();
        if held.is_none() {
            let _ = shard.drop_clean();
            let _ = shard.drop_block();
            return;
        }
        let bytes = &info.key.score.0;
        keeps(shard, alloc, &info.key, bytes, row, rows);
    }

    /// A drawn call.
    fn go_on<T: TestShard>(&mut self, shard: &mut T, alloc: Global, row: usize, rows: &mut Rows) {
        match draw(&mut self.state, 4) {
            0 | 1 => self.write(shard, row, rows),
            2 => self.write_back(shard, row, rows),
            _ => self.evict(shard, alloc, row, rows),
        }
    }
}

/// The entry of a block, if there is one.
fn entry_in(held: &Option<Info>) -> Option<Entry> {
    match held {
        Some(held) => Some(entry_of(held)),
        None => None,
    }
}

/// Whether an entry of a key's score is held.
fn holds<T: TestShard>(shard: &mut T, key: &Key) -> Option<bool> {
    match shard.find_score(key) {
        Some(Ok(one)) => Some(one.is_some()),
        _ => None,
    }
}

/// Keeps a copy of a block's bytes in memory, and finds it.
fn keeps<T: TestShard>(
    shard: &mut T,
    alloc: Global,
    key: &Key,
    bytes: &[u8],
    row: usize,
    rows: &mut Rows,
) {
    let is_kept = match Bytes::copy_of(alloc, bytes) {
        Ok(copy) => shard.keep(*key, copy),
        Err(_) => false,
    };
    rows.nth(row, "a block is kept in memory", is_kept);
    rows.nth(row, "a block in memory is found", shard.touch(key));
    let same = shard
        .kept(key)
        .is_some_and(|found| found.as_slice() == bytes);
    rows.nth(row, "the bytes of a block in memory", same);
}

/// Drawn calls, with caches of the least size.
fn agrees_with_a_list<T: TestShard>(shard: &mut T, alloc: Global) -> Rows {
    let mut rows = Rows::new();
    let mut blocks = Blocks {
        list: Vec::new(alloc),
        state: 1,
    };
    for row in 0..1_500usize {
        blocks.go_on(shard, alloc, row, &mut rows);
    }
    agrees(shard, &blocks.list, 2, &mut rows);
    rows.is("more than 200 blocks are drawn", blocks.list.len() > 200);
    rows.is("something is written back", shard.told().mark > 0);
    rows
}

/// A new shard with caches of the least size does what is drawn.
fn draw_calls<T: TestShard>(alloc: Global) -> Rows {
    match new_shard::<T>(alloc, TWO, 2, &[], LEAST) {
        Some(mut shard) => agrees_with_a_list(&mut shard, alloc),
        None => Rows::wrong("a shard is mounted"),
    }
}

// A row is a drawn call, or at the end a block.
#[test]
fn a_shard_is_the_list_of_its_blocks(rt: HostRuntime) -> Result<(), Fail> {
    see_in_memory(rt.alloc(), Case::DrawnCalls).passes()
}

// ---- beside damage

/// 1,024 blocks of other buckets than the first, of eight, from number 1 on.
fn many(alloc: Global) -> Option<Vec<Info>> {
    let mut blocks = Vec::with_capacity(alloc, 1_024).ok()?;
    for i in 0..1_024u16 {
        let first = 0x20 + (i % 0xe0) as u8;
        blocks
            .push(data(first, (i / 0xe0) as u8, u64::from(i) + 1))
            .ok()?;
    }
    Some(blocks)
}

/// Writes back what can be: a damaged bucket ends each writeback, the second time as the last one.
fn write_all<T: TestShard>(shard: &mut T, durable: u64, row: usize, rows: &mut Rows) {
    for _ in 0..2u8 {
        let begins = shard.begin(durable) == Some(true);
        rows.nth(row, "a writeback begins", begins);
        let answer = write_back(shard, row, rows);
        let is_told = matches!(answer, Some(Err(ShardErr::Damaged { bucket: 0, .. })));
        rows.nth(row, "the damaged bucket ends a writeback", is_told);
    }
}

/// Puts these blocks in. Where there is no room, all that can be is written back first.
fn put_beside<T: TestShard>(shard: &mut T, blocks: &[Info], rows: &mut Rows) {
    for (row, info) in blocks.iter().enumerate() {
        if shard.told().spare == 0 {
            write_all(shard, info.number, row, rows);
        }
        put(shard, *info, row, rows);
    }
}

/// A damaged bucket keeps no other from being written back: one block of it, and 1,024 of others.
fn writes_beside_damage<T: TestShard>(shard: &mut T, blocks: &[Info]) -> Rows {
    let mut rows = Rows::new();
    put(shard, data(0, 0, 0), 0, &mut rows);
    let answer = shard.find(&data(0, 1, 0).key);
    let is_told = matches!(answer, Some(Err(ShardErr::Damaged { .. })));
    rows.is("a look-up tells the damage", is_told);
    put_beside(shard, blocks, &mut rows);
    write_all(shard, 1_025, 0, &mut rows);
    finds_all(shard, blocks, &mut rows);
    rows.is("no entry but one is dirty", shard.told().spare == 1_023);
    rows
}

/// A shard of eight buckets, of which both frames of the first are spoiled.
fn spoiled_shard<T: TestShard>(alloc: Global) -> Option<T> {
    let section: T::Section = used(alloc, EIGHT, &[], 8)?;
    let change = Change::Spoil(&[(24_576, &[0xee; 16_384])]);
    T::open(alloc, section.again(alloc, change)?, AMPLE)
}

/// Blocks of all buckets are written back beside the spoiled one.
fn write_beside<T: TestShard>(alloc: Global) -> Rows {
    let Some(mut shard) = spoiled_shard::<T>(alloc) else {
        return Rows::wrong("a shard is mounted");
    };
    match many(alloc) {
        Some(blocks) => writes_beside_damage(&mut shard, &blocks),
        None => Rows::wrong("memory for blocks"),
    }
}

// A row is a block.
#[test]
fn other_buckets_are_written_beside_damage(rt: HostRuntime) -> Result<(), Fail> {
    see_in_memory(rt.alloc(), Case::DamagedBucket).passes()
}

// ---- memory

/// Finds clean entries on a disk of which each call behind the writeback fails.
fn finds_clean<T: TestShard>(shard: &mut T, blocks: &[Info; 3], rows: &mut Rows) {
    put_all(shard, blocks, rows);
    let is_second = shard.bucket_number(&blocks[1].key.score) == 1;
    rows.is("the bucket of the second block", is_second);
    writes_all(shard, 3, 0, rows);
    finds_all(shard, blocks, rows);
}

/// Drops the three clean entries.
fn drops_clean<T: TestShard>(shard: &mut T, first: &Key, rows: &mut Rows) {
    for row in 0..3usize {
        rows.nth(row, "a clean entry is dropped", shard.drop_clean());
    }
    rows.is("no clean entry is left", !shard.drop_clean());
    let fails = shard.find(first) == Some(Err(ShardErr::Fault));
    rows.is("a look-up on the disk fails", fails);
}

/// Finds clean entries and a block in memory.
fn finds_in_memory<T: TestShard>(shard: &mut T, alloc: Global) -> Rows {
    let mut rows = Rows::new();
    let blocks = three();
    let first = blocks[0].key;
    finds_clean(shard, &blocks, &mut rows);
    drops_clean(shard, &first, &mut rows);
    keeps(shard, alloc, &first, b"abc", 0, &mut rows);
    rows.is("the block in memory is dropped", shard.drop_block());
    let is_gone = shard.kept(&first).is_none();
    rows.is("the block isn't in memory then", is_gone);
    rows
}

/// The first call behind the writeback of the three blocks.
const BEHIND: u64 = FIRST_STEP + WRITEBACK as u64;

/// Eight calls from that one on, which fail: more than are made there.
const ALL_BEHIND: [u64; 8] = [
    BEHIND,
    BEHIND + 1,
    BEHIND + 2,
    BEHIND + 3,
    BEHIND + 4,
    BEHIND + 5,
    BEHIND + 6,
    BEHIND + 7,
];

/// Blocks are found whose disk fails behind their writeback.
fn find_in_memory<T: TestShard>(alloc: Global) -> Rows {
    match new_shard::<T>(alloc, TWO, 2, &ALL_BEHIND, AMPLE) {
        Some(mut shard) => finds_in_memory(&mut shard, alloc),
        None => Rows::wrong("a shard is mounted"),
    }
}

#[test]
fn what_is_in_memory_needs_no_disk(rt: HostRuntime) -> Result<(), Fail> {
    see_in_memory(rt.alloc(), Case::Memory).passes()
}

// ---- the tests

/// What a test sees.
#[derive(Clone, Copy)]
enum Case {
    /// A writeback is stopped at each of its calls, with a crash behind it.
    Crashes,
    /// A crash tears a selector.
    Selectors,
    /// A bucket is filled.
    FullBucket,
    /// A shard and a list of blocks do what is drawn.
    DrawnCalls,
    /// Entries are written back beside a damaged bucket.
    DamagedBucket,
    /// Entries and blocks are found in memory while the disk fails.
    Memory,
}

fn see<T: TestShard>(alloc: Global, case: Case) -> Rows {
    match case {
        Case::Crashes => stop_anywhere::<T>(alloc),
        Case::Selectors => select_each::<T>(alloc),
        Case::FullBucket => fill_one::<T>(alloc),
        Case::DrawnCalls => draw_calls::<T>(alloc),
        Case::DamagedBucket => write_beside::<T>(alloc),
        Case::Memory => find_in_memory::<T>(alloc),
    }
}

/// The same, of shards of disks in memory.
fn see_in_memory(alloc: Global, case: Case) -> Rows {
    see::<MadeShard>(alloc, case)
}
