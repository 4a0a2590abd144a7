//! Stores whose index is lost, or half rebuilt, and whose arenas are damaged.

use crate::made::{Form, InMemory, Made, Making, in_memory, make_all};
use std::alloc::Global;
use std::test::Fail;
use std::thread::Threads;
use vt_base::{FieldValue, Kind, MAX_BLOCK, MountBad, MountField, Scorer, Sha1Scorer, Text};
use vt_check::{ArenaReport, CheckErr, Damage, Report};
use vt_conf::parse_conf;
use vt_disk::Disk;
use vt_format::Index;
use vt_maintain::{MaintainError, check_store, rebuild_store};
use vt_memdisk::{CrashMode, Listed, MemDisk};
use vt_open::{OpenError, configurations_can_be_opened};
use vt_out::Silent;
use vt_partitions::Parts;
use vt_rebuild::RebuildBad;
use vt_rows::{RowError, Rows};
use vt_use::{ReadBlock, WriteBlock, answer_at, use_conf};

/// Partitions that a test makes. What is done to them is proved for any such, which is much less
/// work than for those in memory, and runs on those.
trait TestParts: Parts + Drop {
    /// The same bytes, on a disk of which these calls fail: two are made to put them there.
    fn refitted(alloc: Global, disk: Self::Disk, calls: Vec<u64>) -> Option<Self::Disk>;

    /// What a crash leaves of a disk.
    fn crashed(disk: Self::Disk, mode: CrashMode) -> Self::Disk;
}

impl TestParts for InMemory {
    fn refitted(
        alloc: Global,
        mut disk: MemDisk<Listed>,
        calls: Vec<u64>,
    ) -> Option<MemDisk<Listed>> {
        let len = disk.len();
        let mut bytes = vec![in alloc; 0; len as usize].ok()?;
        let mut other = MemDisk::failing(alloc, len, calls).ok()?;
        if is_copied(&mut disk, &mut other, &mut bytes) {
            Some(other)
        } else {
            None
        }
    }

    fn crashed(disk: MemDisk<Listed>, mode: CrashMode) -> MemDisk<Listed> {
        disk.crash_in(mode)
    }
}

/// All bytes of a disk are written to another, and synced.
fn is_copied<D: Disk>(from: &mut D, to: &mut D, bytes: &mut [u8]) -> bool {
    let len = bytes.len() as u64;
    if from.len() < len || to.len() < len || from.read_at(0, bytes).is_err() {
        return false;
    }
    to.write_at(0, bytes).is_ok() && to.sync().is_ok()
}

/// Writes these bytes over those of a disk.
fn is_put<D: Disk>(disk: &mut D, at: u64, bytes: &[u8]) -> bool {
    if disk.len() < at || disk.len() - at < bytes.len() as u64 {
        return false;
    }
    disk.write_at(at, bytes).is_ok()
}

/// The block of three bytes that has this number.
fn block(number: u16) -> [u8; 3] {
    let [high, low] = number.to_be_bytes();
    [b'n', high, low]
}

type Rebuilt = Result<u64, MaintainError<RebuildBad>>;

type Checked = Result<Report, MaintainError<CheckErr>>;

/// What is told of the first section.
fn refused<T, E>(bad: MountBad) -> Result<T, MaintainError<E>> {
    Err(MaintainError::Unopened(OpenError::Refused(bad)))
}

/// The configuration of a store of arenas, and of sections with one bucket and with two; and its
/// partitions.
const CONF: &[u8] = b"arenas a\nisect i\nisect j\n";

const NAMES: [&[u8]; 3] = [b"a", b"i", b"j"];

impl<P: TestParts> Made<P> {
    /// Makes a store of so many arenas, in a partition of so many bytes, whose index is in use and
    /// has no entries.
    fn make_store(&mut self, arenas: u32, len: u64, rows: &mut Rows) {
        let making: [Making<'_>; 3] = [
            ("the arenas", Form::Arenas, b"a", b"a", len, Ok(arenas)),
            (
                "the first section",
                Form::Section,
                b"i",
                b"i",
                41_472,
                Ok(1),
            ),
            (
                "the second section",
                Form::Section,
                b"j",
                b"j",
                58_368,
                Ok(2),
            ),
        ];
        make_all(self, &making, rows);
        let index = Index {
            buckets: 3,
            sections: 2,
        };
        rows.is("the index", self.index(CONF) == Some(Ok(index)));
    }

    /// Writes a block, and says whether it is taken.
    fn takes(&mut self, block: &[u8]) -> bool {
        configurations_can_be_opened();
        let Ok(conf) = parse_conf(self.alloc, CONF) else {
            return false;
        };
        let (alloc, parts) = (self.alloc, &mut self.parts);
        let kind = Kind::DATA;
        let job = WriteBlock { kind, bytes: block };
        block.len() <= MAX_BLOCK
            && answer_at(use_conf(alloc, parts, &conf, &Sha1Scorer, 0, job, &mut ())).is_ok()
    }

    /// Whether the block is there.
    fn has(&mut self, block: &[u8]) -> bool {
        configurations_can_be_opened();
        let Ok(conf) = parse_conf(self.alloc, CONF) else {
            return false;
        };
        let score = Sha1Scorer.score(block);
        let (alloc, parts) = (self.alloc, &mut self.parts);
        let kind = Kind::DATA;
        let job = ReadBlock { kind, score };
        match answer_at(use_conf(alloc, parts, &conf, &Sha1Scorer, 0, job, &mut ())) {
            Ok(bytes) => bytes.as_slice() == block,
            Err(_) => false,
        }
    }

    /// Writes the blocks of the numbers below this one.
    fn write_all(&mut self, count: u16, rows: &mut Rows) {
        for number in 0..count {
            let taken = self.takes(&block(number));
            rows.nth(
                usize::from(number),
                "the block of this number is taken",
                taken,
            );
        }
    }

    /// They are there.
    fn has_all(&mut self, count: u16) -> bool {
        for number in 0..count {
            if !self.has(&block(number)) {
                return false;
            }
        }
        true
    }

    /// Rebuilds the index. None says that memory is wanting.
    fn rebuild(&mut self) -> Option<Rebuilt> {
        configurations_can_be_opened();
        let Ok(conf) = parse_conf(self.alloc, CONF) else {
            return None;
        };
        let (alloc, parts) = (self.alloc, &mut self.parts);
        Some(rebuild_store(alloc, parts, &conf, Sha1Scorer, &mut Silent))
    }

    /// Checks the arenas. None says that memory is wanting.
    fn check(&mut self, rt: &(impl Threads + Sync)) -> Option<Checked> {
        configurations_can_be_opened();
        let Ok(conf) = parse_conf(self.alloc, CONF) else {
            return None;
        };
        let (alloc, parts) = (self.alloc, &mut self.parts);
        Some(check_store(rt, alloc, parts, &conf, &Sha1Scorer, &mut Silent))
    }

    /// The check tells this of the arenas.
    fn tells(&mut self, rt: &(impl Threads + Sync), arenas: &[ArenaReport; 2]) -> bool {
        match self.check(rt) {
            Some(Ok(report)) => report.arenas.as_slice() == arenas.as_slice(),
            _ => false,
        }
    }

    /// Whether the arenas are checked, or why they aren't.
    fn is_checked(
        &mut self,
        rt: &(impl Threads + Sync),
    ) -> Option<Result<(), MaintainError<CheckErr>>> {
        match self.check(rt)? {
            Ok(_) => Some(Ok(())),
            Err(bad) => Some(Err(bad)),
        }
    }

    /// Writes these bytes over those of a partition.
    fn put(&mut self, name: &[u8], at: u64, bytes: &[u8]) -> Option<bool> {
        let name = Text::copy_of(self.alloc, name).ok()?;
        let mut disk = self.parts.part(self.alloc, &name, None).ok()?;
        let done = is_put(&mut disk, at, bytes);
        self.parts.done(&name, disk);
        Some(done)
    }

    /// Of a partition this call fails, once.
    fn refit(&mut self, name: &[u8], call: u64) -> Option<()> {
        let name = Text::copy_of(self.alloc, name).ok()?;
        let calls = vec![in self.alloc; call; 1].ok()?;
        let disk = self.parts.part(self.alloc, &name, None).ok()?;
        let disk = P::refitted(self.alloc, disk, calls)?;
        self.parts.done(&name, disk);
        Some(())
    }

    /// What a crash leaves of a partition.
    fn crash_one(&mut self, name: &[u8], mode: CrashMode) -> Option<()> {
        let name = Text::copy_of(self.alloc, name).ok()?;
        let disk = self.parts.part(self.alloc, &name, None).ok()?;
        self.parts.done(&name, P::crashed(disk, mode));
        Some(())
    }

    /// What it leaves of all of them.
    fn crash(&mut self, mode: CrashMode) -> bool {
        for name in NAMES {
            if self.crash_one(name, mode).is_none() {
                return false;
            }
        }
        true
    }
}

// ---- what is done

/// Something that is done to a store, and what is wanted of it.
#[derive(Clone, Copy)]
enum Act<'a> {
    /// A block is written.
    Take(&'a [u8]),
    /// The head of the first section is lost.
    Lose,
    /// These bytes are written over those of a partition.
    Put(&'a [u8], u64, &'a [u8]),
    /// The first section is made anew.
    MakeSection,
    /// The index is rebuilt.
    Rebuild(Rebuilt),
    /// The blocks of the numbers below this one are there.
    HasAll(u16),
    /// Checking tells this of the arenas.
    Tells([ArenaReport; 2]),
    /// The arenas aren't checked for this.
    IsRefused(MountBad),
}

/// Sees that an act gives what is wanted.
fn does<P: TestParts>(rt: &(impl Threads + Sync), store: &mut Made<P>, act: &Act<'_>) -> bool {
    match act {
        Act::Take(block) => store.takes(block),
        Act::Lose => store.put(b"i", 0, &[0; 24_576]) == Some(true),
        Act::Put(name, at, bytes) => store.put(name, *at, bytes) == Some(true),
        Act::MakeSection => store.section(b"i", b"i", 41_472) == Some(Ok(1)),
        Act::Rebuild(wanted) => store.rebuild() == Some(*wanted),
        Act::HasAll(count) => store.has_all(*count),
        Act::Tells(arenas) => store.tells(rt, arenas),
        Act::IsRefused(bad) => store.is_checked(rt) == Some(refused(*bad)),
    }
}

/// Does each of these, and notes whether it comes to what is wanted.
fn do_all<P: TestParts>(
    rt: &(impl Threads + Sync),
    store: &mut Made<P>,
    acts: &[(&'static str, Act<'_>)],
    rows: &mut Rows,
) {
    for (row, (what, act)) in acts.iter().enumerate() {
        rows.nth(row, what, does(rt, store, act));
    }
}

// ---- an index that is lost

/// What is told of an arena of so many blocks.
fn sound(number: u32, clumps: u32) -> ArenaReport {
    ArenaReport {
        number,
        clumps,
        used: 41 * u64::from(clumps),
        sealed: false,
        damage: None,
    }
}

/// The sections aren't in use before the index is rebuilt, or aren't even sections; and each block
/// is there again afterwards.
fn see_lost<P: TestParts>(rt: &(impl Threads + Sync), store: &mut Made<P>, rows: &mut Rows) {
    store.make_store(2, 73_728, rows);
    store.write_all(12, rows);
    let state = MountBad::Disagree {
        part: 1,
        field: MountField::State,
        found: 0,
        want: 1,
    };
    let acts = [
        ("the first section is lost", Act::Lose),
        (
            "rebuilding without a section",
            Act::Rebuild(refused(MountBad::NotFormatted { part: 1 })),
        ),
        ("a section is made anew", Act::MakeSection),
        ("checking without an index", Act::IsRefused(state)),
        ("rebuilding", Act::Rebuild(Ok(12))),
        ("each block is there again", Act::HasAll(12)),
        ("what is told then", Act::Tells([sound(0, 12), sound(1, 0)])),
    ];
    do_all(rt, store, &acts, rows);
}

// ---- a damaged arena

/// A byte of a block is another: its arena is damaged, and the index can still be rebuilt.
fn see_damaged<P: TestParts>(rt: &(impl Threads + Sync), store: &mut Made<P>, rows: &mut Rows) {
    store.make_store(2, 73_728, rows);
    let damage = Damage {
        want: FieldValue::Score(Sha1Scorer.score(b"abc")),
        found: FieldValue::Score(Sha1Scorer.score(b"abd")),
    };
    let damaged = ArenaReport {
        damage: Some(damage),
        ..sound(0, 1)
    };
    let acts = [
        ("a block is taken", Act::Take(b"abc")),
        (
            "a byte of it is another",
            Act::Put(b"a", 8_192 + 24_576 + 38 + 2, b"d"),
        ),
        ("the damage is told", Act::Tells([damaged, sound(1, 0)])),
        ("rebuilding", Act::Rebuild(Ok(1))),
    ];
    do_all(rt, store, &acts, rows);
}

// ---- an index that is half rebuilt

/// What became of rebuilding the index of three blocks where one call failed, behind a crash: `w`
/// that it went well; and else that the index is in use, `u`, or isn't, `s`. Any other is an error.
fn letter<P: TestParts>(
    rt: &(impl Threads + Sync),
    store: &mut Made<P>,
    mode: CrashMode,
) -> Result<char, &'static str> {
    let rebuilt = store.rebuild();
    if !store.crash(mode) {
        return Err("what a crash leaves");
    }
    match rebuilt {
        Some(Ok(3)) => return Ok('w'),
        Some(Err(MaintainError::Ended(RebuildBad::Fault))) => {}
        Some(Err(MaintainError::Unopened(OpenError::Refused(MountBad::Fault)))) => {}
        _ => return Err("why the index isn't rebuilt"),
    }
    state(rt, store)
}

/// Whether the index is in use, `u`, or isn't since it was half rebuilt, `s`.
fn state<P: TestParts>(
    rt: &(impl Threads + Sync),
    store: &mut Made<P>,
) -> Result<char, &'static str> {
    match store.is_checked(rt) {
        Some(Ok(())) => Ok('u'),
        Some(
            Err(
                MaintainError::Unopened(
                    OpenError::Refused(
                        MountBad::Disagree {
                            field: MountField::State,
                            found: 2,
                            want: 1,
                            part: _,
                        },
                    ),
                ),
            ),
        ) => Ok('s'),
        _ => Err("the state of the index"),
    }
}

/// The letter of a call of this partition, behind the two that refit it. A second rebuilding gives the entries of all blocks.
fn see_stop<P: TestParts>(
    rt: &(impl Threads + Sync),
    store: &mut Made<P>,
    name: &[u8],
    row: usize,
    wanted: char,
    rows: &mut Rows,
) {
    let call = row.saturating_add(2);
    let refitted = store.refit(name, call as u64);
    rows.nth(row, "a partition of which a call fails", refitted.is_some());
    match letter(rt, store, CrashMode::ALL[call % 4]) {
        Ok(left) => rows.nth(row, "what is left where this call fails", left == wanted),
        Err(what) => rows.nth(row, what, false),
    }
    rows.nth(row, "the second rebuilding", store.rebuild() == Some(Ok(3)));
    rows.nth(row, "each block behind that", store.has_all(3));
}

/// The letters of a partition, from the first call on that is made of it.
fn see_stopped<P: TestParts>(
    rt: &(impl Threads + Sync),
    store: &mut Made<P>,
    name: &[u8],
    letters: &str,
    rows: &mut Rows,
) {
    store.make_store(1, 40_960, rows);
    store.write_all(3, rows);
    for (row, wanted) in letters.chars().enumerate() {
        see_stop(rt, store, name, row, wanted, rows);
    }
}

// ---- the tests

/// What a test sees.
#[derive(Clone, Copy)]
enum Case<'a> {
    /// Sections are lost, and rebuilt.
    Lost,
    /// A block on the arenas is damaged.
    Damaged,
    /// The calls of a partition fail in turn, and leave these letters.
    Stopped(&'a [u8], &'a str),
}

fn see<P: TestParts>(
    rt: &(impl Threads + Sync),
    store: &mut Made<P>,
    case: Case<'_>,
    rows: &mut Rows,
) {
    match case {
        Case::Lost => see_lost(rt, store, rows),
        Case::Damaged => see_damaged(rt, store, rows),
        Case::Stopped(name, letters) => see_stopped(rt, store, name, letters, rows),
    }
}

/// The same, of partitions in memory.
fn see_in_memory(
    rt: &(impl Threads + Sync),
    alloc: Global,
    case: Case<'_>,
) -> Result<(), RowError> {
    let mut rows = Rows::new();
    see(rt, &mut in_memory(alloc), case, &mut rows);
    rows.all()
}

#[test]
fn lost_indices_are_rebuilt(rt: HostRuntime) -> Result<(), Fail> {
    see_in_memory(&rt, rt.alloc(), Case::Lost)?;
    Ok(())
}

#[test]
fn damage_is_told(rt: HostRuntime) -> Result<(), Fail> {
    see_in_memory(&rt, rt.alloc(), Case::Damaged)?;
    Ok(())
}

#[test]
fn calls_of_the_arenas_fail(rt: HostRuntime) -> Result<(), Fail> {
    see_in_memory(&rt, rt.alloc(), Case::Stopped(b"a", "uuuuuuusssw"))?;
    Ok(())
}

/// Its head is the first that says that the index is being built.
#[test]
fn calls_of_the_first_section_fail(rt: HostRuntime) -> Result<(), Fail> {
    see_in_memory(&rt, rt.alloc(), Case::Stopped(b"i", "uuuuuuusssssssw"))?;
    Ok(())
}

/// Its head is the last that says that the index is in use.
#[test]
fn calls_of_the_last_section_fail(rt: HostRuntime) -> Result<(), Fail> {
    see_in_memory(&rt, rt.alloc(), Case::Stopped(b"j", "uuussssssssssssuw"))?;
    Ok(())
}
