//! Logs on disks in memory: filled to the end, mounted again, crashed at each call of a commit,
//! with calls that fail, and side by side with the plain store.
//!
//! What is done with a log is data. It is done to any `TestLog`, and one function alone names the real
//! one.

use crate::arena::{ABC, ABD};
use crate::disks::Crash;
use crate::logs::{ARENA_LEN, MadeLog, TestLog};
use std::alloc::Global;
use std::test::Fail;
use vt_arena::ReadBad;
use vt_base::{Bytes, Failed, FieldValue, Info, Key, Kind, Place, Scorer, Sha1Scorer, Why};
use vt_clump::{Packed, pack};
use vt_log::{LogBad, LogErr, Progress};
use vt_memdisk::CrashMode;
use vt_model::{PlainStore, WRITTEN_VERSION};
use vt_part::PartBad;
use vt_rows::Rows;

/// The lengths of partitions of one arena, of two and of three.
const ONE: u64 = 40_960;

const TWO: u64 = 73_728;

const THREE: u64 = 106_496;

/// The calls of a disk of one arena before a commit's first one: two of formatting the partition,
/// two of mounting it twice, three of formatting its arena, a sync and two reads of mounting the
/// log.
const FIRST_CALL: u64 = 10;

/// The clump of `abc`, of type 13, at time 0.
const ABC_CLUMP: [u8; 41] = *b"VCLP\x0d\x00\x03\x00\x03\
    \xa9\x99\x3e\x36\x47\x06\x81\x6a\xba\x3e\x25\x71\x78\x50\xc2\x6c\x9c\xd0\xd8\x9d\
    \x01\x00\x00\x00\x00\x00\x00\x00\x00abc";

/// Where a log's first block stands, and the second one behind a block of three bytes.
const FIRST: Place = Place {
    arena: 0,
    offset: 24_576,
};

const SECOND: Place = Place {
    arena: 0,
    offset: 24_617,
};

/// Where the last of 124 blocks of three bytes stands.
const LAST: Place = Place {
    arena: 0,
    offset: 24_576 + 123 * 41,
};

/// The first and the last of them in the next arena.
const NEXT: Place = Place {
    arena: 1,
    offset: 24_576,
};

const NEXT_LAST: Place = Place {
    arena: 1,
    offset: 24_576 + 123 * 41,
};

/// The key of a block of this type.
fn key_of(kind: Kind, block: &[u8]) -> Key {
    Key {
        score: Sha1Scorer.score(block),
        kind,
    }
}

/// The clump of a block of this type, at time 0; None where the block is too long or has no bytes.
fn packed(alloc: Global, kind: Kind, block: &[u8]) -> Option<Packed> {
    if block.is_empty() || block.len() > 57_344 {
        return None;
    }
    let score = Sha1Scorer.score(block);
    pack(alloc, kind, block, score, 0).ok()
}

/// Advances until nothing is queued or a call fails, and gives how many calls it took.
fn flush<T: TestLog>(log: &mut T) -> Result<u64, LogErr> {
    let most = log.told().owed;
    for call in 0..most {
        match log.step() {
            Ok(Progress::Idle) => return Ok(call),
            Ok(_) => {}
            Err(bad) => return Err(bad),
        }
    }
    Ok(most)
}

/// Makes so many calls of a log's commits. Whether none fails.
fn advance<T: TestLog>(log: &mut T, calls: u64) -> bool {
    for _ in 0..calls {
        if log.step().is_err() {
            return false;
        }
    }
    true
}

/// Takes a block in, where there is room for it. A full queue is committed first. None says that
/// this can't be done, or that there is room where no place is given or the other way round.
fn put<T: TestLog>(alloc: Global, log: &mut T, kind: Kind, block: &[u8]) -> Option<Option<Place>> {
    if log.told().is_full && flush(log).is_err() {
        return None;
    }
    match packed(alloc, kind, block) {
        Some(packed) => log.add(packed),
        None => None,
    }
}

/// Takes in blocks of three bytes until there is no room for one, and gives how many it took and
/// the place of the last.
fn fill<T: TestLog>(alloc: Global, log: &mut T) -> Option<(u8, Place)> {
    let mut last = FIRST;
    for n in 0..255u8 {
        match put(alloc, log, Kind::DATA, &[1, 2, n]) {
            Some(Some(place)) => last = place,
            Some(None) => return Some((n, last)),
            None => return None,
        }
    }
    None
}

/// The block of type 13 that was written with these bytes.
fn read<T: TestLog>(
    alloc: Global,
    log: &mut T,
    place: Place,
    block: &[u8],
) -> Result<Bytes, ReadBad> {
    log.find(alloc, place, 3, &key_of(Kind::DATA, block))
}

/// Whether a walk gives so many blocks.
fn walks<T: TestLog>(alloc: Global, log: &mut T, blocks: usize) -> bool {
    let mut infos = Vec::new(alloc);
    log.walk(&mut infos) && infos.len() == blocks
}

/// Whether a log gave a block with these bytes.
fn is_block(found: &Result<Bytes, ReadBad>, block: &[u8]) -> bool {
    match found {
        Ok(found) => found.as_slice() == block,
        Err(_) => false,
    }
}

/// Whether the block is read that was written with these bytes.
fn is_read<T: TestLog>(alloc: Global, log: &mut T, place: Place, block: &[u8]) -> bool {
    is_block(&read(alloc, log, place, block), block)
}

/// What is done with a log, and what it has to give.
#[derive(Clone, Copy)]
enum Act<'a> {
    /// A block of type 13 is taken in, at this place, or there is no room for it.
    Put(&'a [u8], Option<Place>),
    /// Blocks of three bytes are taken in until there is no room: so many, the last one there.
    Fill(u8, Place),
    /// So many calls of commits are made.
    Advance(u64),
    /// All that is queued is committed.
    Commit,
    /// The same, by so many calls, or a call fails.
    Flush(Result<u64, LogErr>),
    /// A call is made of a log that stopped at this one.
    Stopped(u64),
    /// So many blocks are accepted, and so many are committed.
    Counts(u64, u64),
    /// So many blocks are left, or one more where that is said, and all are committed.
    Left(u64, bool),
    /// An arena is sealed or not, and has so many blocks.
    Head(u32, bool, u32),
    /// The block at a place is read.
    Read(Place, &'a [u8]),
    /// The same, if the block of this number is left.
    ReadLeft(u64, Place, &'a [u8]),
    /// No block with these bytes is read at a place.
    Unread(Place, &'a [u8], ReadBad),
    /// A walk gives so many blocks.
    Walk(usize),
    /// A walk's first step fails.
    Stay,
    /// The clump of the first block is read.
    Clump(Result<[u8; 41], Failed>),
}

impl Act<'_> {
    /// What is compared behind it.
    fn what(&self) -> &'static str {
        match self {
            Act::Put(..) => "the place of a block that is taken in",
            Act::Fill(..) => "how many blocks fill the log, and the place of the last",
            Act::Advance(_) => "calls of commits are done",
            Act::Commit => "all is committed",
            Act::Flush(_) => "how many calls commit all, or that one fails",
            Act::Stopped(_) => "the call that stopped the log",
            Act::Counts(..) => "how many blocks are accepted and how many committed",
            Act::Left(..) => "how many blocks are left, all committed",
            Act::Head(..) => "whether an arena is sealed, and its blocks",
            Act::Read(..) => "a block is read",
            Act::ReadLeft(..) => "a block is read if it is left",
            Act::Unread(..) => "why a block isn't read",
            Act::Walk(_) => "how many blocks a walk gives",
            Act::Stay => "a walk's first step fails and leaves all blocks",
            Act::Clump(_) => "the clump of the first block",
        }
    }
}

/// Does these with a log. Each is a row, and the first has this number.
fn play<T: TestLog>(alloc: Global, log: &mut T, acts: &[Act], first: usize, rows: &mut Rows) {
    for (number, act) in acts.iter().enumerate() {
        let holds = reads(alloc, log, act);
        rows.nth(first.saturating_add(number), act.what(), holds);
    }
}

/// Whether a log gives what it has to.
fn reads<T: TestLog>(alloc: Global, log: &mut T, act: &Act) -> bool {
    match act {
        Act::Read(place, block) => is_read(alloc, log, *place, block),
        Act::ReadLeft(number, place, block) => {
            log.told().front <= *number || is_read(alloc, log, *place, block)
        }
        Act::Unread(place, block, bad) => read(alloc, log, *place, block).err() == Some(*bad),
        Act::Walk(blocks) => walks(alloc, log, *blocks),
        Act::Stay => log.stays(),
        Act::Clump(clump) => log.first_clump() == Some(*clump),
        _ => writes(alloc, log, act),
    }
}

/// The same where nothing is read of the clumps.
fn writes<T: TestLog>(alloc: Global, log: &mut T, act: &Act) -> bool {
    match act {
        Act::Put(block, place) => put(alloc, log, Kind::DATA, block) == Some(*place),
        Act::Fill(blocks, place) => fill(alloc, log) == Some((*blocks, *place)),
        Act::Advance(calls) => advance(log, *calls),
        Act::Commit => flush(log).is_ok(),
        Act::Flush(end) => flush(log) == *end,
        Act::Stopped(call) => log.step() == Err(LogErr::Stopped(*call)),
        _ => tells(log, act),
    }
}

/// The same where the log isn't changed.
fn tells<T: TestLog>(log: &T, act: &Act) -> bool {
    let told = log.told();
    let counts = (told.front, told.durable);
    match act {
        Act::Counts(front, durable) => counts == (*front, *durable),
        Act::Left(blocks, or_more) => {
            let more = blocks.saturating_add(1);
            counts == (*blocks, *blocks) || *or_more && counts == (more, more)
        }
        Act::Head(arena, sealed, clumps) => log.head_of(*arena) == Some((*sealed, *clumps)),
        _ => false,
    }
}

/// Does these with a log, and gives it back. Each is a row, and the first has this number.
fn session<T: TestLog>(
    alloc: Global,
    log: Option<T>,
    acts: &[Act],
    first: usize,
    rows: &mut Rows,
) -> Option<T> {
    match log {
        Some(mut log) => {
            play(alloc, &mut log, acts, first, rows);
            Some(log)
        }
        None => {
            rows.nth(first, "a log is mounted", false);
            None
        }
    }
}

/// Does these with a log without blocks on a new disk of this length, of which these calls fail. Each
/// is a row.
fn run<T: TestLog>(alloc: Global, len: u64, failing: &[u64], acts: &[Act]) -> Rows {
    let mut rows = Rows::new();
    session(alloc, T::made(alloc, len, failing), acts, 0, &mut rows);
    rows
}

/// A log is mounted again, behind a crash if there is one.
fn again<T: TestLog>(alloc: Global, log: Option<T>, crash: Crash) -> Option<T> {
    match log {
        Some(log) => log.again(alloc, crash),
        None => None,
    }
}

/// The same on a disk of two arenas of which no call fails, and further acts where the log is mounted
/// again, behind a crash if there is one. They are numbered on.
fn run_on<T: TestLog>(alloc: Global, acts: &[Act], crash: Crash, then: &[Act]) -> Rows {
    let mut rows = Rows::new();
    let log = session(alloc, T::made(alloc, TWO, &[]), acts, 0, &mut rows);
    let log = again(alloc, log, crash);
    session(alloc, log, then, acts.len(), &mut rows);
    rows
}

// ---- tables of acts

/// `abc` is queued, committed and read before and after. No other block is read where it stands.
const COMMITTED: [Act<'static>; 11] = [
    Act::Put(b"abc", Some(FIRST)),
    Act::Counts(1, 0),
    Act::Read(FIRST, b"abc"),
    Act::Walk(1),
    Act::Flush(Ok(6)),
    Act::Counts(1, 1),
    Act::Head(0, false, 1),
    Act::Read(FIRST, b"abc"),
    Act::Unread(
        FIRST,
        b"abd",
        ReadBad::Damaged {
            want: FieldValue::Score(ABD),
            found: FieldValue::Score(ABC),
        },
    ),
    Act::Walk(1),
    Act::Clump(Ok(ABC_CLUMP)),
];

// A row is an act.
#[test]
fn a_block_is_committed(rt: HostRuntime) -> Result<(), Fail> {
    see_in_memory(rt.alloc(), Case::Committed).passes()
}

/// One arena has room for 124 blocks of three bytes, or for one of 8,129.
fn fill_arena<T: TestLog>(alloc: Global) -> Rows {
    let mut rows = Rows::new();
    let acts: [Act; 3] = [
        Act::Fill(124, LAST),
        Act::Put(&[7; 8_129], Some(FIRST)),
        Act::Put(&[7; 8_130], None),
    ];
    for (row, act) in acts.iter().enumerate() {
        rows.note(row, &run::<T>(alloc, ONE, &[], &[*act]));
    }
    rows
}

#[test]
fn an_arena_is_filled(rt: HostRuntime) -> Result<(), Fail> {
    see_in_memory(rt.alloc(), Case::Arena).passes()
}

/// Two arenas have room for 248, which are there when they are mounted again.
const FILLS: [Act<'static>; 2] = [Act::Fill(248, NEXT_LAST), Act::Commit];

/// What is there then.
const FILLED: [Act<'static>; 8] = [
    Act::Counts(248, 248),
    Act::Head(0, true, 124),
    Act::Head(1, false, 124),
    Act::Read(FIRST, &[1, 2, 0]),
    Act::Read(LAST, &[1, 2, 123]),
    Act::Read(NEXT, &[1, 2, 124]),
    Act::Read(NEXT_LAST, &[1, 2, 247]),
    Act::Walk(248),
];

// A row is an act.
#[test]
fn two_arenas_are_filled(rt: HostRuntime) -> Result<(), Fail> {
    see_in_memory(rt.alloc(), Case::TwoArenas).passes()
}

// ---- crashes and calls that fail

/// What fills an arena up behind `abc`, to its last byte: each of both takes 63 bytes besides its own, for the clump's
/// header and the entry in the directory.
const REST: [u8; 8_063] = [7; 8_192 - 66 - 63];

/// A crash behind so many calls of two commits of one block each, behind `abc`. The first of them
/// seals the first arena. A commit has six calls, of which the fifth is the one that counts.
fn crash_at<T: TestLog>(alloc: Global, calls: u8, mode: CrashMode) -> Rows {
    let acts = [
        Act::Put(b"abc", Some(FIRST)),
        Act::Commit,
        Act::Put(&REST, Some(SECOND)),
        Act::Put(b"abd", Some(NEXT)),
        Act::Advance(u64::from(calls)),
    ];
    let then = [
        Act::Left(1 + u64::from(calls / 6), calls % 6 == 5),
        Act::Read(FIRST, b"abc"),
        Act::ReadLeft(1, SECOND, &REST),
        Act::ReadLeft(2, NEXT, b"abd"),
    ];
    run_on::<T>(alloc, &acts, Crash::Mode(mode), &then)
}

/// The same behind each count of calls. The rows' numbers are this one and the calls.
fn crash_in<T: TestLog>(alloc: Global, mode: CrashMode, first: usize, rows: &mut Rows) {
    for calls in 0..13u8 {
        let found = crash_at::<T>(alloc, calls, mode);
        rows.note(first.saturating_add(usize::from(calls)), &found);
    }
}

/// There is a crash in each mode behind each count of calls. A row is a hundred for each mode, and the count.
fn crash_in_each<T: TestLog>(alloc: Global) -> Rows {
    let mut rows = Rows::new();
    for (number, mode) in CrashMode::ALL.iter().enumerate() {
        crash_in::<T>(alloc, *mode, number.saturating_mul(100), &mut rows);
    }
    rows
}

// A row's number has the mode's and the calls, which are its last two digits.
#[test]
fn crashes_leave_a_prefix(rt: HostRuntime) -> Result<(), Fail> {
    see_in_memory(rt.alloc(), Case::Crashes).passes()
}

/// A commit's call fails.
fn fail_at<T: TestLog>(alloc: Global, call: u64) -> Rows {
    let acts = [
        Act::Put(b"abc", Some(FIRST)),
        Act::Flush(Err(LogErr::Fault)),
        Act::Stopped(call),
        Act::Counts(1, 0),
        Act::Read(FIRST, b"abc"),
        Act::Walk(1),
    ];
    run::<T>(alloc, ONE, &[FIRST_CALL.saturating_add(call)], &acts)
}

/// Each of a commit's six calls fails.
fn fail_at_each<T: TestLog>(alloc: Global) -> Rows {
    let mut rows = Rows::new();
    for row in 0..6u8 {
        rows.note(usize::from(row), &fail_at::<T>(alloc, u64::from(row)));
    }
    rows
}

// A row's number is that of the call.
#[test]
fn faults_leave_a_prefix(rt: HostRuntime) -> Result<(), Fail> {
    see_in_memory(rt.alloc(), Case::Faults).passes()
}

/// Reading a block, a step back and reading bytes fail, and then do what they are asked.
const READ_AGAIN: [Act<'static>; 8] = [
    Act::Put(b"abc", Some(FIRST)),
    Act::Commit,
    Act::Unread(FIRST, b"abc", ReadBad::Fault),
    Act::Read(FIRST, b"abc"),
    Act::Stay,
    Act::Walk(1),
    Act::Clump(Err(Failed)),
    Act::Clump(Ok(ABC_CLUMP)),
];

/// The calls of the disk that fail then.
const FAILING: [u64; 3] = [FIRST_CALL + 6, FIRST_CALL + 8, FIRST_CALL + 10];

// A row is an act.
#[test]
fn what_failed_is_read_again(rt: HostRuntime) -> Result<(), Fail> {
    see_in_memory(rt.alloc(), Case::ReadAgain).passes()
}

/// Why there is no log on a partition named `a` and one of this name, of which this call fails.
fn refusal<T: TestLog>(alloc: Global, name: &[u8], failing: u64) -> Option<LogBad> {
    match T::made_pair(alloc, (ONE, ONE), name, &[failing]) {
        Some(Err(bad)) => Some(bad),
        _ => None,
    }
}

/// Why two partitions of one name are refused.
const NAMESAKES: LogBad = LogBad::Part(PartBad::DuplicateName {
    first: 0,
    second: 1,
});

/// Namesakes are refused, and a disk that fails. Before the calls of mounting the log, which are a
/// sync and two reads of a head, it has 7.
fn refuse<T: TestLog>(alloc: Global) -> Rows {
    let mut rows = Rows::new();
    let found = refusal::<T>(alloc, b"a", u64::MAX);
    rows.is("the refusal of namesakes", found == Some(NAMESAKES));
    for call in 7..10u8 {
        let found = refusal::<T>(alloc, b"b", u64::from(call));
        let is_it = found == Some(LogBad::Fault);
        rows.nth(usize::from(call), "the refusal where a call fails", is_it);
    }
    rows
}

// A row is the call.
#[test]
fn what_is_no_log_is_refused(rt: HostRuntime) -> Result<(), Fail> {
    see_in_memory(rt.alloc(), Case::Refusals).passes()
}

// ---- side by side with the plain store

/// The next of a row of drawn numbers (an xorshift).
fn drawn(state: &mut u64) -> u64 {
    let mut x = *state;
    x ^= x << 13;
    x ^= x >> 7;
    x ^= x << 17;
    *state = x;
    x
}

/// What is drawn before a block is written and one is read.
#[derive(Drop)]
struct Turn {
    /// Of the block that is written.
    kind: Kind,
    block: Vec<u8>,
    /// How many calls of commits are made between both.
    calls: u64,
    /// The number of the block that is read, once their count is taken off as often as may be.
    number: u64,
}

/// A block of a drawn type and length that begins with this number, so that it is like no other.
fn numbered_block(alloc: Global, state: &mut u64, number: u16) -> Option<Turn> {
    let kind = Kind::from_wire(1 + (drawn(state) % 9) as u8)?;
    let n = 2 + (drawn(state) % 300) as usize;
    let mut block = vec![in alloc; kind.wire(); n].ok()?;
    let [high, low] = number.to_be_bytes();
    block[0] = high;
    block[1] = low;
    Some(Turn {
        kind,
        block,
        calls: drawn(state) % 8,
        number: drawn(state),
    })
}

/// 300 of these.
fn all_drawn(alloc: Global) -> Option<Vec<Turn>> {
    let mut state = 1996;
    let mut all = Vec::with_capacity(alloc, 300).ok()?;
    for number in 0..300u16 {
        all.push(numbered_block(alloc, &mut state, number)?).ok()?;
    }
    Some(all)
}

/// A log and a plain store side by side, what is known of the blocks that both took, with the number
/// of each among those that are drawn, and how many both refused.
#[derive(Drop)]
struct Sides<T: TestLog> {
    log: T,
    plain: PlainStore<Sha1Scorer>,
    /// In the order in which they were taken, which is that of the log.
    taken: Vec<(Info, usize)>,
    refused: u64,
}

impl<T: TestLog> Sides<T> {
    /// Gives both a block that neither has: both take it in, under its score, or both have no room.
    fn write(&mut self, alloc: Global, kind: Kind, block: &[u8], row: usize, rows: &mut Rows) {
        let key = key_of(kind, block);
        let answer = self.plain.write(alloc, kind.wire(), block);
        match put(alloc, &mut self.log, kind, block) {
            Some(Some(place)) => {
                let is_taken = answer == Ok(key.score);
                rows.nth(row, "the plain store takes a block in too", is_taken);
                let info = Info {
                    key,
                    size: block.len().min(57_344) as u16,
                    place,
                    number: self.taken.len() as u64,
                };
                rows.nth(row, "there is memory", self.taken.push((info, row)).is_ok());
            }
            Some(None) => {
                self.refused = self.refused.saturating_add(1);
                let same = answer == Err(Why::ArenasFull);
                rows.nth(row, "the plain store has no room either", same);
            }
            None => rows.nth(row, "the log takes a block in or has no room", false),
        }
    }

    /// Both give one of the blocks, the same bytes.
    fn read(&mut self, alloc: Global, all: &[Turn], number: u64, row: usize, rows: &mut Rows) {
        if self.taken.is_empty() {
            return;
        }
        let (info, from) = self.taken[(number % self.taken.len() as u64) as usize];
        match all.get(from) {
            Some(drawn) => self.reads(alloc, &info, &drawn.block, number, row, rows),
            None => rows.nth(row, "a block was drawn", false),
        }
    }

    /// The same of this block, which is often thought to have another size.
    fn reads(
        &mut self,
        alloc: Global,
        info: &Info,
        block: &[u8],
        number: u64,
        row: usize,
        rows: &mut Rows,
    ) {
        let kind = info.key.kind.wire();
        let same = self.plain.read(&info.key.score, kind, 57_344) == Ok(block);
        rows.nth(row, "the plain store gives a block", same);
        let size = (number % 400) as u16;
        let found = self.log.find(alloc, info.place, size, &info.key);
        rows.nth(row, "the log gives a block", is_block(&found, block));
    }

    /// Writes a block, makes calls of commits and reads a block.
    fn go_on(&mut self, alloc: Global, all: &[Turn], row: usize, rows: &mut Rows) {
        let Some(drawn) = all.get(row) else {
            return rows.nth(row, "a block is drawn", false);
        };
        self.write(alloc, drawn.kind, &drawn.block, row, rows);
        let is_done = advance(&mut self.log, drawn.calls);
        rows.nth(row, "calls of commits are done", is_done);
        self.read(alloc, all, drawn.number, row, rows);
    }

    /// A walk gives what is known of each block.
    fn see_walk(&mut self, alloc: Global, rows: &mut Rows) {
        let mut infos = Vec::new(alloc);
        rows.is("a walk ends", self.log.walk(&mut infos));
        let same = infos.len() == self.taken.len();
        rows.is("how many blocks a walk gives", same);
        see_infos(&infos, &self.taken, rows);
    }

    /// At the end all blocks are committed.
    fn commit_all(&mut self, rows: &mut Rows) {
        let blocks = self.taken.len() as u64;
        rows.is("more than 100 blocks are taken in", blocks > 100);
        rows.is("a block has no room", self.refused > 0);
        rows.is("all is committed", flush(&mut self.log).is_ok());
        let durable = self.log.told().durable;
        rows.is("how many blocks are committed", durable == blocks);
    }

    /// Writes, commits and reads one block after another, and then reads all.
    fn compare(&mut self, alloc: Global, all: &[Turn]) -> Rows {
        let mut rows = Rows::new();
        for row in 0..all.len() {
            self.go_on(alloc, all, row, &mut rows);
        }
        self.commit_all(&mut rows);
        for number in 0..self.taken.len() {
            self.read(alloc, all, number as u64, number, &mut rows);
        }
        self.see_walk(alloc, &mut rows);
        rows
    }
}

/// These are what is known of the blocks, from the last to the first.
fn see_infos(infos: &[Info], taken: &[(Info, usize)], rows: &mut Rows) {
    for (row, (taken, _)) in taken.iter().enumerate() {
        let same = row < infos.len() && infos[infos.len() - 1 - row] == *taken;
        rows.nth(row, "what a walk gives of the row's block", same);
    }
}

/// The plain store with the arenas of a log on partitions of three and of two.
fn plain_store(alloc: Global) -> Option<PlainStore<Sha1Scorer>> {
    let arenas = Vec::from_slice(alloc, &[ARENA_LEN as u32; 5]).ok()?;
    let versions = Vec::from_slice(alloc, &[WRITTEN_VERSION; 5]).ok()?;
    let sections = Vec::from_slice(alloc, &[4000]).ok()?;
    Some(PlainStore::new(alloc, Sha1Scorer, arenas, versions, 0, sections))
}

/// Both of these.
fn new_sides<T: TestLog>(alloc: Global) -> Option<Sides<T>> {
    let plain = plain_store(alloc)?;
    match T::made_pair(alloc, (THREE, TWO), b"b", &[]) {
        Some(Ok(log)) => Some(Sides {
            log,
            plain,
            taken: Vec::new(alloc),
            refused: 0,
        }),
        _ => None,
    }
}

/// Both do what is drawn, and then have the same blocks.
fn side_by_side<T: TestLog>(alloc: Global) -> Rows {
    let Some(mut sides) = new_sides::<T>(alloc) else {
        return Rows::wrong("a log and a plain store are there");
    };
    match all_drawn(alloc) {
        Some(all) => sides.compare(alloc, &all),
        None => Rows::wrong("memory for the blocks"),
    }
}

// A row is a block, as it is drawn or at the end as it is taken in.
#[test]
fn the_log_and_the_plain_store_agree(rt: HostRuntime) -> Result<(), Fail> {
    see_in_memory(rt.alloc(), Case::Sides).passes()
}

// ---- the tests

/// What a test sees.
#[derive(Clone, Copy)]
enum Case {
    /// A block is queued, committed and read.
    Committed,
    /// An arena is filled to its end.
    Arena,
    /// Two arenas are filled, and mounted again.
    TwoArenas,
    /// There are crashes behind each call of two commits.
    Crashes,
    /// Calls of a commit fail.
    Faults,
    /// Calls of reading fail once.
    ReadAgain,
    /// What is no log is refused.
    Refusals,
    /// A log and a plain store do the same.
    Sides,
}

fn see<T: TestLog>(alloc: Global, case: Case) -> Rows {
    match case {
        Case::Committed => run::<T>(alloc, ONE, &[], &COMMITTED),
        Case::Arena => fill_arena::<T>(alloc),
        Case::TwoArenas => run_on::<T>(alloc, &FILLS, Crash::None, &FILLED),
        Case::Crashes => crash_in_each::<T>(alloc),
        Case::Faults => fail_at_each::<T>(alloc),
        Case::ReadAgain => run::<T>(alloc, ONE, &FAILING, &READ_AGAIN),
        Case::Refusals => refuse::<T>(alloc),
        Case::Sides => side_by_side::<T>(alloc),
    }
}

/// The same, of logs on disks in memory.
fn see_in_memory(alloc: Global, case: Case) -> Rows {
    see::<MadeLog>(alloc, case)
}
