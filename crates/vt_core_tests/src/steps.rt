//! The steps of a read and of a write, on a log and a shard that are handed in.

ghost use Rattle.std.specs.Prelude.{◌≡◌, ◌<◌, ◌≤◌, IfSome, IsTrue, None, Ok, length};
ghost use Rattle.vt_icache.specs.Index.{dirty_info};
ghost use Rattle.vt_isect.specs.Section.{IsAtRest};
ghost use Rattle.vt_log.specs.Log.{has_next};
ghost use Rattle.vt_shard.specs.Shard.{HasScore};
ghost use Rattle.vt_lookup.specs.declared.writing.Verdict.TheVariants.{New};

use crate::disks::{ARENA_LEN, Fails, Mem, TestDisk, mounted_part, only, partition, section};
use crate::stores::{SIZES, there};
use std::alloc::Global;
use std::marker::Brand;
use std::sync::ledger::{Blank, Ledger};
use std::test::Fail;
use vt_base::{Bytes, Key, Kind, MAX_BLOCK, Scorer, ShortScorer, Steps, Why};
use vt_clump::pack;
use vt_disk::Disk;
use vt_isect::Section;
use vt_log::Log;
use vt_lookup::{Verdict, add_block, find_block, test_write};
use vt_rows::Rows;
use vt_shard::Shard;

/// What the steps are handed, but for the filter. What a test asks is proved for any such parts, which
/// is much less work than for those of a store, and runs on them.
trait TestParts: Drop {
    /// Those of a store without blocks.
    fn made(alloc: Global) -> Option<Self>;

    /// What a write finds. A block that is new is added.
    fn write(
        &mut self,
        alloc: Global,
        key: &Key,
        block: &[u8],
    ) -> Result<Result<Verdict, Why>, &'static str>;

    /// The block of a key, where the filter may have it or not.
    fn find(
        &mut self,
        alloc: Global,
        may_have: bool,
        key: &Key,
    ) -> Result<Option<Bytes>, &'static str>;
}

/// A log of one arena, and the shard of the only section, which has one bucket.
#[derive(Drop)]
struct Parts<D: Disk> {
    log: Log<D, ShortScorer>,
    shard: Shard<D>,
}

impl<D: TestDisk> TestParts for Parts<D> {
    fn made(alloc: Global) -> Option<Self> {
        Some(Parts {
            log: log(alloc)?,
            shard: shard(alloc)?,
        })
    }

    fn write(
        &mut self,
        alloc: Global,
        key: &Key,
        block: &[u8],
    ) -> Result<Result<Verdict, Why>, &'static str> {
        let Parts { log, shard } = self;
        write_on::<D, Brand>(alloc, log, shard, key, block, Blank::new(1))
    }

    fn find(
        &mut self,
        alloc: Global,
        may_have: bool,
        key: &Key,
    ) -> Result<Option<Bytes>, &'static str> {
        let Parts { log, shard } = self;
        find_on::<D, Brand>(alloc, log, shard, may_have, key, Blank::new(1))
    }
}

/// Tests a block for room and what is held, and adds it if it is new.
fn write_on<D: Disk, L: Ledger>(
    alloc: Global,
    log: &mut Log<D, ShortScorer>,
    shard: &mut Shard<D>,
    key: &Key,
    block: &[u8],
    blank: Blank,
) -> Result<Result<Verdict, Why>, &'static str>
    requires name { blank.name ≡ L.name }
    requires parts { blank.parts ≡ L.parts }
    requires some { 0 < L.parts }
{
    if block.is_empty() || block.len() > MAX_BLOCK || !shard.has_key(key) {
        return Err("the block is one of this shard");
    }
    let mut steps = Steps::<L>::new(blank);
    let verdict = test_write(alloc, log, shard, true, key, block, &mut steps);
    if let Ok(Verdict::New) = verdict
        && let Err(what) = add(alloc, log, shard, key, block)
    {
        return Err(what);
    }
    Ok(verdict)
}

/// Looks a block up, where its key is one of the shard's.
fn find_on<D: Disk, L: Ledger>(
    alloc: Global,
    log: &mut Log<D, ShortScorer>,
    shard: &mut Shard<D>,
    may_have: bool,
    key: &Key,
    blank: Blank,
) -> Result<Option<Bytes>, &'static str>
    requires name { blank.name ≡ L.name }
    requires parts { blank.parts ≡ L.parts }
    requires some { 0 < L.parts }
{
    if !shard.has_key(key) {
        return Err("the key is one of this shard");
    }
    let mut steps = Steps::<L>::new(blank);
    match find_block(alloc, log, shard, may_have, key, &mut steps) {
        Ok(found) => Ok(found),
        Err(_) => Err("the block is looked for"),
    }
}

/// The log of a new partition of one arena.
fn log<D: TestDisk>(alloc: Global) -> Option<Log<D, ShortScorer>> {
    let part = mounted_part(partition(alloc, 1, ARENA_LEN, Fails::Never)?)?;
    match vt_log::mount(alloc, only(alloc, part)?, ShortScorer) {
        Ok(log) => Some(log),
        Err(_) => None,
    }
}

/// The only section, of which no bucket is being written back.
fn resting<D: TestDisk>(alloc: Global) -> Option<Section<D>>
    ensures { IfSome result IsAtRest }
{
    let Ok(section) = vt_isect::mount(alloc, section(alloc, 0, 1, 1, Fails::Never)?) else {
        return None;
    };
    if section.is_changing() {
        return None;
    }
    Some(section)
}

/// The shard of that section.
fn shard<D: TestDisk>(alloc: Global) -> Option<Shard<D>> {
    match vt_shard::mount(alloc, resting(alloc)?, SIZES) {
        Ok(shard) => Some(shard),
        Err(_) => None,
    }
}

/// Adds a block that is new, where the queue and the shard have room.
fn add<D: Disk>(
    alloc: Global,
    log: &mut Log<D, ShortScorer>,
    shard: &mut Shard<D>,
    key: &Key,
    block: &[u8],
) -> Result<(), &'static str>
    requires some { 0 < length block.now }
    requires most { length block.now ≤ MAX_BLOCK }
    requires fits { IsTrue (has_next log.old (length block.now)) }
    requires absent { dirty_info key.now shard.old.index ≡ None }
{
    if log.queue_full() || shard.spare() == 0 || shard.owed() > 0 || !shard.has_key(key) {
        return Err("there is room for the block");
    }
    if log.front() == u64::MAX {
        return Err("there is a number for the block");
    }
    match pack(alloc, key.kind, block, key.score, 0) {
        Ok(packed) => {
            add_block(log, shard, packed);
            Ok(())
        }
        Err(_) => Err("memory for the block"),
    }
}

// ---- requests

/// What is asked of the parts.
enum Act<'a> {
    /// A block of this type is written, and this is found.
    Write(Kind, &'a [u8], Result<Verdict, Why>),
    /// The block of its score and this type is looked for, where the filter may have it or not, and
    /// found or not.
    Find(Kind, &'a [u8], bool, bool),
}

/// A block of a type is new once, and then held; one of its score with other bytes collides under
/// each type, and one with the same bytes is new under another type. None is found that the filter
/// doesn't have. The last one is too large for the arena.
const ACTS: [Act<'static>; 11] = [
    Act::Find(Kind::DATA, b"abc", true, false),
    Act::Write(Kind::DATA, b"abc", Ok(Verdict::New)),
    Act::Write(Kind::DATA, b"abc", Ok(Verdict::Held)),
    Act::Write(Kind::DATA, b"abd", Err(Why::Collision)),
    Act::Find(Kind::DATA, b"abc", true, true),
    Act::Find(Kind::DATA, b"abc", false, false),
    Act::Find(Kind::DIRECTORY, b"abc", true, false),
    Act::Write(Kind::DIRECTORY, b"abd", Err(Why::Collision)),
    Act::Write(Kind::DIRECTORY, b"abc", Ok(Verdict::New)),
    Act::Find(Kind::DIRECTORY, b"abc", true, true),
    Act::Write(Kind::DATA, &[1; 9_000], Err(Why::ArenasFull)),
];

/// Whether one act gives what it says, or why it can't be done.
fn does<T: TestParts>(alloc: Global, parts: &mut T, act: &Act<'_>) -> Result<bool, &'static str> {
    match act {
        Act::Write(kind, block, wanted) => {
            match parts.write(alloc, &key(*kind, block), block) {
                Ok(verdict) => Ok(verdict == *wanted),
                Err(what) => Err(what),
            }
        }
        Act::Find(kind, block, may_have, wanted) => {
            match parts.find(alloc, *may_have, &key(*kind, block)) {
                Ok(Some(found)) => Ok(*wanted && found.as_slice() == *block),
                Ok(None) => Ok(!*wanted),
                Err(what) => Err(what),
            }
        }
    }
}

/// The key of a block.
fn key(kind: Kind, block: &[u8]) -> Key {
    Key {
        score: ShortScorer.score(block),
        kind,
    }
}

fn see<T: TestParts>(alloc: Global, parts: &mut T, act: &Act<'_>, rows: &mut Rows, row: usize) {
    match does(alloc, parts, act) {
        Ok(right) => rows.nth(row, "what an act gives", right),
        Err(what) => rows.nth(row, what, false),
    }
}

/// Does what these rows say, one behind another.
fn do_all<T: TestParts>(alloc: Global, rows: &mut Rows) {
    let Some(mut parts) = there(rows, 0, T::made(alloc).ok_or("the parts")) else {
        return;
    };
    for (row, act) in ACTS.iter().enumerate() {
        see(alloc, &mut parts, act, rows, row);
    }
}

#[test]
fn a_block_is_tested_added_and_found(rt: HostRuntime) -> Result<(), Fail> {
    let mut rows = Rows::new();
    do_all::<Parts<Mem>>(rt.alloc(), &mut rows);
    rows.passes()
}
