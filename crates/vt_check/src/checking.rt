//! Checking the arenas of a log against their heads and directories (venti(8), checkarenas).

ghost use Rattle.std.specs.Prelude.{Bool, ◌≡◌, ◌+◌, ◌-◌, ◌*◌, ◌^◌, ◌<◌, ◌≤◌, ◌++◌, ℕ, List, All, IsTrue, IfOk, IfErr, IfSome, OnOk, length, slice_get, sum_by, ◌∷◌, []};
ghost use Rattle.vt_arena.specs.Directory.{walks_headers};
ghost use Rattle.vt_arena.specs.Faults.{read_at};
ghost use Rattle.vt_arena.specs.Heads.{fields_of, own_fields};
ghost use Rattle.vt_model.specs.declared.TheConstants.{ARENA_HEAD_LEN, DIRECTORY_ENTRY_LEN};
ghost use Rattle.vt_arena.specs.Places.{arena_room, directory_room};
ghost use Rattle.vt_arena.specs.declared.head.Found.{Found};
ghost use Rattle.vt_disk.specs.Disk.{part};
ghost use Rattle.vt_log.specs.Answers.{OnlyReadsLog};
ghost use Rattle.vt_log.specs.Faults.{CountsFaults};
ghost use Rattle.vt_log.specs.Sound.{IsArenaAt};
ghost use Rattle.vt_part.specs.declared.layout.ArenaRegion.{ArenaRegion};
ghost use Rattle.vt_check.specs.Checking.{AreReports, AreTold, DamageDiffers, HasItsHeads, TellsOf, end_damage, in_second, is_check_fault};
ghost use Rattle.vt_check.specs.Following.{HasFollowed, HasOwnEntry, IsWithinWindow};
ghost use Rattle.vt_check.specs.Reading.{AreNextCuts};

use crate::clumps::{Cut, Followed, MOST_CLUMP, cut_all, test_clumps};
use std::alloc::Global;
use std::thread::Threads;
use vt_arena::ArenaHead;
use vt_base::{FieldValue, Score, Scorer};
use vt_disk::Disk;
use vt_log::Log;
use vt_model::{ARENA_HEAD_LEN, DIRECTORY_ENTRY_LEN, SECTOR_VERSION};
use vt_out::Progress;

/// How many clumps are tested at once at most.
pub const CLUMPS_AT_ONCE: usize = 4096;

const _: () = prove!(CLUMPS_AT_ONCE == 4096);

/// How many bytes of clumps are in memory at once at most, 8 MiB.
pub const BYTES_AT_ONCE: usize = 8 << 20;

const _: () = prove!(BYTES_AT_ONCE == 8_388_608);

/// Why arenas weren't checked.
#[derive(Clone, Copy, Debug, PartialEq, Eq)]
pub enum CheckErr {
    /// A call of a disk failed, and its count of faults rose.
    Fault,
    /// Memory ran out.
    NoMemory,
}

/// What stands where something else should.
#[derive(Clone, Copy, Debug, PartialEq, Eq)]
pub struct Damage {
    pub want: FieldValue,
    pub found: FieldValue,
}

impl Damage {
    ghost use Rattle.vt_check.specs.Checking.{damage_of_numbers, scores};

    /// A number that had to be there, and the one that is.
    pub(crate) fn of_numbers(want: u64, found: u64) -> Damage
        ensures { result ≡ damage_of_numbers want found }
    {
        Damage {
            want: FieldValue::Number(u128::from(want)),
            found: FieldValue::Number(u128::from(found)),
        }
    }

    /// A score that had to be there, and the one that is.
    pub(crate) fn of_scores(want: Score, found: Score) -> Damage
        ensures { result ≡ scores want.0 found.0 }
    {
        Damage {
            want: FieldValue::Score(want),
            found: FieldValue::Score(found),
        }
    }
}

/// What is told of an arena: what its head says, and the first damage, if there is any.
#[derive(Clone, Copy, Debug, PartialEq, Eq)]
pub struct ArenaReport {
    /// Over all partitions, from 0.
    pub number: u32,
    /// How many blocks it has.
    pub clumps: u32,
    /// How many bytes their clumps take.
    pub used: u64,
    /// Whether it is closed for more.
    pub sealed: bool,
    /// The first, in the order of the tests.
    pub damage: Option<Damage>,
}

/// What is told of each arena, in order.
#[derive(Drop)]
pub struct Report {
    pub arenas: Vec<ArenaReport>,
}

/// Checks all arenas of a log, of those blocks that are committed. Of each arena the first of these
/// tests that fails is told: each clump; in version 2 how many sectors each names for the one before
/// it; how many bytes they take; in version 2 how many sectors the last one takes; each directory
/// entry; and the chain of the entries. Where an arena has no directory yet, its entries are those in
/// the clumps' headers.
///
/// At most 4,096 clumps are in memory at once, and at most 8 MiB of them. Those are tested in
/// parallel. Two reads are made for each such part of an arena, and one where it has no directory.
pub fn check<D: Disk, S: Scorer + Sync, G: Progress>(
    rt: &(impl Threads + Sync),
    alloc: Global,
    log: &mut Log<D, S>,
    scorer: &S,
    progress: &mut G,
) -> Result<Report, CheckErr>
    // There is a report of each arena, in order. A damage has two values of one form that differ.
    ensures reports { IfOk result (λ report. AreReports log.old report.arenas.items) }

    // It tells of the first damage, and of none exactly where the arena's bytes are one.
    ensures told { IfOk result (λ report. IsTrue D.tells → HasItsHeads D.Disk log.old
        → AreTold S.score_of D.Disk log.old report.arenas.items) }

    // The log is only read from, at most twice for each block that its heads count.
    ensures reads { OnlyReadsLog S.score_of D.Disk
        (2 * sum_by (λ found. found.head.clumps) log.old.heads) log.old log.new }
    ensures faults { CountsFaults D.Disk is_check_fault result log.old.disks log.new.disks }
{
    let mut arenas = Vec::new(alloc);
    let mut room = Room::new(alloc);
    let all = log.arenas();
    for number in 0..all {
        let damage = check_arena(rt, alloc, log, number, &mut room, scorer)?;
        let head = log.head(number);
        let report = ArenaReport {
            number,
            clumps: head.clumps,
            used: head.used,
            sealed: head.sealed,
            damage,
        };
        add(&mut arenas, report)?;
        progress.report(u64::from(number) + 1, u64::from(all));
    }
    Ok(Report { arenas })
}

/// Puts the report of one more arena behind the others.
fn add(arenas: &mut Vec<ArenaReport>, report: ArenaReport) -> Result<(), CheckErr>
    ensures added { OnOk result (arenas.new.items ≡ arenas.old.items ++ report ∷ []) }
    ensures refused { IfErr result (λ bad. bad ≡ CheckErr.NoMemory) }
{
    match arenas.push(report) {
        Ok(()) => Ok(()),
        Err(_) => Err(CheckErr::NoMemory),
    }
}

/// The first damage of an arena.
fn check_arena<D: Disk, S: Scorer + Sync>(
    rt: &(impl Threads + Sync),
    alloc: Global,
    log: &mut Log<D, S>,
    arena: u32,
    room: &mut Room,
    scorer: &S,
) -> Result<Option<Damage>, CheckErr>
    requires { arena < length log.old.layout }
    ensures differs { IfOk result (λ damage. IfSome damage DamageDiffers) }
    ensures told { (r : ArenaRegion) (disk : D) (found : Found) → IsTrue D.tells
        → IsArenaAt log.old arena r disk → slice_get log.old.heads arena ≡ Some found
        → own_fields (read_at r.region r.number (D.bytes disk)) ≡ fields_of found.head
        → IfOk result (TellsOf S.score_of r found.head (D.bytes disk)) }
    ensures reads { (found : Found) × (slice_get log.old.heads arena ≡ Some found)
        × OnlyReadsLog S.score_of D.Disk (2 * found.head.clumps) log.old log.new }
    ensures faults { CountsFaults D.Disk is_check_fault result log.old.disks log.new.disks }
{
    let head = log.head(arena);
    let len = log.arena_len(arena);
    let mut followed = Followed::nothing();
    while followed.clumps < head.clumps {
        room.fill(log, arena, len, &head, &followed)?;
        let tested = test_clumps(rt, alloc, &room.clumps, &room.cuts, scorer)?;
        if let Some(damage) = followed.follow(head.version, &room.cuts, &tested, scorer)? {
            return Ok(Some(damage));
        }
    }
    Ok(end_of(&head, &followed))
}

/// What is wrong where all clumps of an arena with this head were followed, and none is damaged.
fn end_of(head: &ArenaHead, followed: &Followed) -> Option<Damage>
    ensures { (score : List ℕ → List ℕ) (clumps entries : List (List ℕ))
        → HasFollowed score head.now.version clumps entries followed.now
        → result ≡ end_damage score head.now clumps entries }
{
    let sum = (followed.used != head.used).then_some(Damage::of_numbers(head.used, followed.used));
    let last = (head.last != followed.last).then_some(Damage::of_numbers(
        u64::from(followed.last),
        u64::from(head.last),
    ));
    let chain = (head.chain != followed.chain).then_some(Damage::of_scores(
        followed.chain,
        head.chain,
    ));
    in_second(head.version, followed.link)
        .or(sum)
        .or(in_second(head.version, last))
        .or(followed.entry)
        .or(chain)
}

/// What is wrong with what only version 2 says, in an arena of this version.
fn in_second(version: u16, damage: Option<Damage>) -> Option<Damage>
    ensures { result ≡ in_second version damage }
{
    if version == SECTOR_VERSION {
        damage
    } else {
        None
    }
}

/// Whether an arena with this head has no directory yet: it is of version 2, and isn't sealed.
fn has_own_entries(head: &ArenaHead) -> bool
    ensures { result ≡ walks_headers head.now }
{
    head.version == SECTOR_VERSION && !head.sealed
}

/// Room for what is read of an arena at once.
#[derive(Drop)]
struct Room {
    /// The bytes of clumps, as many as are read at once.
    clumps: Vec<u8>,
    /// The directory entries of the clumps, the last of which stands first.
    entries: Vec<u8>,
    /// Where each clump begins and ends, with its entry.
    cuts: Vec<Cut>,
}

impl Room {
    /// Takes no memory yet. What is read at once has at most `BYTES_AT_ONCE` bytes of clumps, and
    /// `CLUMPS_AT_ONCE` entries.
    fn new(alloc: Global) -> Room {
        Room {
            clumps: Vec::new(alloc),
            entries: Vec::new(alloc),
            cuts: Vec::new(alloc),
        }
    }

    /// Reads the clumps of an arena of this length that come next, with their entries.
    fn fill<D: Disk, S: Scorer>(
        &mut self,
        log: &mut Log<D, S>,
        arena: u32,
        len: u64,
        head: &ArenaHead,
        followed: &Followed,
    ) -> Result<(), CheckErr>
        requires arena { arena < length log.old.layout }
        requires len { (r : ArenaRegion) → slice_get log.old.layout arena ≡ Some r
            → len ≡ r.region.len }
        requires most { len ≤ 2 ^ 30 }
        requires least { ARENA_HEAD_LEN ≤ len }
        requires left { followed.now.clumps < head.now.clumps }
        requires small { followed.now.used < 2 ^ 62 }
        requires fit { head.now.used + directory_room head.now.version head.now.clumps
            ≤ arena_room len }
        ensures cuts { OnOk result (All (IsWithinWindow self.new.clumps.items) self.new.cuts.items) }
        ensures some { OnOk result (0 < length self.new.cuts.items) }
        ensures few { OnOk result
            (followed.now.clumps + length self.new.cuts.items ≤ head.now.clumps) }
        ensures next { (r : ArenaRegion) (disk : D) → IsTrue D.tells
            → IsArenaAt log.old arena r disk
            → OnOk result (AreNextCuts r.region head.now (D.bytes disk) followed.now.clumps
            followed.now.used self.new.clumps.items self.new.cuts.items) }
        ensures own { OnOk result (walks_headers head.now ≡ Bool.true
            → All (HasOwnEntry self.new.clumps.items) self.new.cuts.items) }
        ensures reads { OnlyReadsLog S.score_of D.Disk 2 log.old log.new }
        ensures faults { CountsFaults D.Disk is_check_fault result log.old.disks log.new.disks }
    {
        // (behind its last clump an arena may end within a sector)
        let at = (ARENA_HEAD_LEN as u64 + followed.used).min(len);
        let left = len - at;
        let count = (head.clumps - followed.clumps).min(CLUMPS_AT_ONCE as u32);
        // What so many clumps take on the average, so that few bytes are read twice.
        let mean = head.used / u64::from(head.clumps) + 1;
        let wanted = mean
            .saturating_mul(u64::from(count))
            .saturating_add(MOST_CLUMP as u64);
        let bytes = left.min(wanted).min(BYTES_AT_ONCE as u64);
        read(log, arena, at, bytes as usize, &mut self.clumps)?;
        let own = has_own_entries(head);
        read_entries(
            log,
            arena,
            len,
            own,
            followed.clumps,
            count,
            &mut self.entries,
        )?;
        cut_all(
            head.version,
            &self.clumps,
            bytes < left,
            &self.entries,
            own,
            count as usize,
            &mut self.cuts,
        )
    }
}

/// Reads so many entries of the directory of an arena of this length, from this one on, in the place
/// of others. The last of them stands first. Where each clump has its own entry, nothing is read.
fn read_entries<D: Disk, S: Scorer>(
    log: &mut Log<D, S>,
    arena: u32,
    len: u64,
    own: bool,
    first: u32,
    count: u32,
    entries: &mut Vec<u8>,
) -> Result<(), CheckErr>
    requires arena { arena < length log.old.layout }
    requires len { (r : ArenaRegion) → slice_get log.old.layout arena ≡ Some r → len ≡ r.region.len }
    requires within { DIRECTORY_ENTRY_LEN * (first + count) ≤ len }
    ensures len { own ≡ Bool.false
        → OnOk result (length entries.new.items ≡ DIRECTORY_ENTRY_LEN * count) }
    ensures read { own ≡ Bool.false → (r : ArenaRegion) (disk : D) → IsTrue D.tells
        → IsArenaAt log.old arena r disk
        → OnOk result (entries.new.items ≡ part (r.region.start
        + (r.region.len - DIRECTORY_ENTRY_LEN * (first + count))) (DIRECTORY_ENTRY_LEN * count)
        (D.bytes disk)) }
    ensures reads { OnlyReadsLog S.score_of D.Disk 1 log.old log.new }
    ensures faults { CountsFaults D.Disk is_check_fault result log.old.disks log.new.disks }
{
    if own {
        return Ok(());
    }
    let behind = DIRECTORY_ENTRY_LEN as u64 * (u64::from(first) + u64::from(count));
    let bytes = DIRECTORY_ENTRY_LEN * count as usize;
    read(log, arena, len - behind, bytes, entries)
}

/// Reads so many bytes of an arena's region, from this offset on, in the place of others.
fn read<D: Disk, S: Scorer>(
    log: &mut Log<D, S>,
    arena: u32,
    at: u64,
    len: usize,
    bytes: &mut Vec<u8>,
) -> Result<(), CheckErr>
    requires arena { arena < length log.old.layout }
    requires within { (r : ArenaRegion) → slice_get log.old.layout arena ≡ Some r
        → at + len ≤ r.region.len }
    ensures len { OnOk result (length bytes.new.items ≡ len) }
    ensures read { (r : ArenaRegion) (disk : D) → IsTrue D.tells → IsArenaAt log.old arena r disk
        → OnOk result (bytes.new.items ≡ part (r.region.start + at) len (D.bytes disk)) }
    ensures reads { OnlyReadsLog S.score_of D.Disk 1 log.old log.new }
    ensures faults { CountsFaults D.Disk is_check_fault result log.old.disks log.new.disks }
{
    let Ok(()) = bytes.resize(len, 0) else {
        return Err(CheckErr::NoMemory);
    };
    match log.bytes(arena, at, bytes) {
        Ok(()) => Ok(()),
        Err(_) => Err(CheckErr::Fault),
    }
}
