//! Arenas on disks in memory: committed, stopped, crashed, damaged and mounted again.
//!
//! What is done with an arena is data. It is done to any `TestArena`, and one function alone names the
//! real one.

use crate::arenas::{LEN, MadeArena, NUMBER, REGION, TestArena};
use crate::disks::Crash;
use std::alloc::Global;
use std::test::Fail;
use vt_arena::{ArenaBad, At, BackBad, Field, Found, ReadBad, has_room};
use vt_base::{FieldValue, Info, Key, Kind, Place, Score, Scorer, Sha1Scorer};
use vt_clump::{Clump, Packed, pack};
use vt_memdisk::CrashMode;
use vt_rows::Rows;
use vt_twin::{Step, TwinErr};

/// What a block of three bytes is thought to have at most.
const SIZES: [u16; 4] = [0, 2, 3, u16::MAX];

/// The calls before a commit's first one: three of formatting, three of mounting.
const FIRST_CALL: u64 = 6;

/// The number of a call that no test reaches.
const NEVER: u64 = u64::MAX;

/// The score of `abc` (FIPS 180-4).
pub const ABC: Score = Score(
    *b"\xa9\x99\x3e\x36\x47\x06\x81\x6a\xba\x3e\x25\x71\x78\x50\xc2\x6c\x9c\xd0\xd8\x9d",
);

/// The score of `abd`.
pub const ABD: Score = Score(
    *b"\xcb\x4c\xc2\x8d\xf0\xfd\xbe\x0e\xcf\x9d\x96\x62\xe2\x94\xb1\x18\x09\x2a\x57\x35",
);

/// The clumps of `abc` and `abd`, of type 13, at time 0.
const CLUMPS: [u8; 82] = *b"VCLP\x0d\x00\x03\x00\x03\
    \xa9\x99\x3e\x36\x47\x06\x81\x6a\xba\x3e\x25\x71\x78\x50\xc2\x6c\x9c\xd0\xd8\x9d\
    \x01\x00\x00\x00\x00\x00\x00\x00\x00abc\
    VCLP\x0d\x00\x03\x00\x03\
    \xcb\x4c\xc2\x8d\xf0\xfd\xbe\x0e\xcf\x9d\x96\x62\xe2\x94\xb1\x18\x09\x2a\x57\x35\
    \x01\x00\x00\x00\x00\x00\x00\x00\x00abd";

/// Their directory, the last entry first.
const DIRECTORY: [u8; 50] = *b"\x0d\x00\x03\x00\x03\
    \xcb\x4c\xc2\x8d\xf0\xfd\xbe\x0e\xcf\x9d\x96\x62\xe2\x94\xb1\x18\x09\x2a\x57\x35\
    \x0d\x00\x03\x00\x03\
    \xa9\x99\x3e\x36\x47\x06\x81\x6a\xba\x3e\x25\x71\x78\x50\xc2\x6c\x9c\xd0\xd8\x9d";

/// The heads of arena 3, empty and with the two blocks.
const EMPTY: [u8; 43] = *b"VARN\x00\x01\x00\x00\x00\x03\x00\x00\x00\x00\x00\
    \x00\x00\x00\x00\x00\x00\x00\x00\
    \x00\x00\x00\x00\x00\x00\x00\x00\x00\x00\x00\x00\x00\x00\x00\x00\x00\x00\x00\x00";

const TWO: [u8; 43] = *b"VARN\x00\x01\x00\x00\x00\x03\x00\x00\x00\x00\x02\
    \x00\x00\x00\x00\x00\x00\x00\x52\
    \xe5\xa4\x74\x09\x00\xa0\x3a\x26\x25\xaa\x16\x03\x07\xa5\x80\x90\x38\x65\xf8\x3b";

/// What is done with an arena, and what it has to give.
#[derive(Clone, Copy)]
enum Act<'a> {
    /// A block of type 13 is staged as often as it has room, up to so many times: so often.
    Stage(&'a [u8], u32, u32),
    /// A commit of what is staged has so many calls.
    Calls(u64),
    /// What is staged is committed: the last call of a commit ends it.
    Commit,
    /// So many calls of a commit are made, each of which gives More, and one further call, which
    /// fails where that is said.
    Stop(u64, bool),
    /// The arena is stopped at this call, in a commit that stays under way, or at none.
    Stopped(Option<u64>),
    /// The next commit is to seal the arena.
    Seal,
    /// A seal is coming.
    Sealing,
    /// The head is sealed or not, and has so many blocks.
    Head(bool, u32),
    /// The disk has these frames and this selector, two clumps and their directory, and zeros.
    Bytes(&'a [u8; 43], &'a [u8; 43], u8),
    /// The block at an offset is read, whatever size it is thought to have.
    Read(u64, &'a [u8]),
    /// The same, if the head has so many blocks.
    ReadLeft(u32, u64, &'a [u8]),
    /// No block is read at an offset, whatever size it is thought to have.
    Unread(u64, ReadBad),
    /// A read of the first block, which is thought to have so many bytes, fails or doesn't.
    ReadFails(u16, bool),
    /// A walk of the directory starts here.
    Start(At),
    /// A walk that stands here answers this, and then stands there.
    Back(At, Option<Result<Info, BackBad>>, At),
    /// A walk's first read fails or doesn't.
    BackFails(bool),
    /// These bytes are written over the disk, from a place of the region on.
    Write(u64, &'a [u8]),
    /// The arena isn't found.
    Unfound(ArenaBad),
    /// It isn't mounted.
    Unmounted(ArenaBad),
    /// The arena's room is given to the one that stands there, which is itself.
    Move,
    /// The arena is found with the head that it has, and with this selector.
    Found(u8),
}

impl Act<'_> {
    /// What is compared behind it.
    fn what(&self) -> &'static str {
        match self {
            Act::Stage(..) => "how often a block is staged",
            Act::Calls(_) => "how many calls a commit has",
            Act::Commit => "the last call ends a commit, and no other",
            Act::Stop(..) => "whether the last of some calls fails, and no other",
            Act::Stopped(_) => "the call that stopped the arena",
            Act::Seal => "the arena may be sealed",
            Act::Sealing => "a seal is coming",
            Act::Head(..) => "whether the head is sealed, and how many blocks it has",
            Act::Bytes(..) => "each byte of the disk",
            Act::Read(..) => "a block is read",
            Act::ReadLeft(..) => "a block is read if it is left",
            Act::Unread(..) => "why a block isn't read",
            Act::ReadFails(..) => "whether a read of a block fails",
            Act::Start(_) => "where a walk starts",
            Act::Back(..) => "what a walk answers, and where it stands then",
            Act::BackFails(_) => "whether a read of an entry fails",
            Act::Write(..) => "bytes are written over the disk",
            Act::Unfound(_) => "why the arena isn't found",
            Act::Unmounted(_) => "why the arena isn't mounted",
            Act::Move => "the arena turns to itself",
            Act::Found(_) => "the head and the selector that are found",
        }
    }
}

/// Does these in turn. Each is a row, and the first has this number.
fn play<T: TestArena>(alloc: Global, arena: &mut T, acts: &[Act], first: usize, rows: &mut Rows) {
    for (number, act) in acts.iter().enumerate() {
        let holds = does(alloc, arena, act);
        rows.nth(first.saturating_add(number), act.what(), holds);
    }
}

/// Whether an arena gives what it has to.
fn does<T: TestArena>(alloc: Global, arena: &mut T, act: &Act) -> bool {
    match act {
        Act::Stage(block, n, staged) => stage_many(alloc, arena, block, *n) == Some(*staged),
        Act::Commit => commit(arena),
        Act::Stop(call, fails) => stop(arena, *call, *fails),
        Act::Stopped(call) => is_stopped(arena, *call),
        Act::Seal => arena.begin_seal(),
        Act::Move => arena.turn_to_itself(),
        _ => reads(alloc, arena, act),
    }
}

/// The same where it is read.
fn reads<T: TestArena>(alloc: Global, arena: &mut T, act: &Act) -> bool {
    match act {
        Act::Read(offset, block) => is_read(alloc, arena, *offset, block),
        Act::ReadLeft(clumps, offset, block) => {
            arena.told().head.clumps < *clumps || is_read(alloc, arena, *offset, block)
        }
        Act::Unread(offset, bad) => is_refused(alloc, arena, *offset, *bad),
        Act::ReadFails(size, fails) => {
            let bad = arena.block(alloc, 24_576, *size).err();
            (bad == Some(ReadBad::Fault)) == *fails
        }
        Act::Back(start, answer, end) => steps_back(arena, *start, *end, answer),
        Act::BackFails(fails) => fails_back(arena) == *fails,
        _ => finds(alloc, arena, act),
    }
}

/// The same where the disk is read or written over.
fn finds<T: TestArena>(alloc: Global, arena: &mut T, act: &Act) -> bool {
    match act {
        Act::Bytes(first, second, selector) => {
            is_spelled(arena.bytes(alloc), first, second, *selector)
        }
        Act::Write(at, bytes) => arena.write_over(*at, bytes),
        Act::Unfound(bad) => arena.found() == Err(*bad),
        Act::Unmounted(bad) => arena.refusal(alloc) == Some(*bad),
        Act::Found(selector) => {
            let wanted = Found {
                head: arena.told().head,
                selector: *selector,
            };
            arena.found() == Ok(wanted)
        }
        _ => tells(arena, act),
    }
}

/// The same where it tells of itself.
fn tells<T: TestArena>(arena: &T, act: &Act) -> bool {
    let told = arena.told();
    match act {
        Act::Calls(calls) => told.calls == *calls,
        Act::Sealing => told.is_sealing && !told.head.sealed,
        Act::Head(sealed, clumps) => told.head.sealed == *sealed && told.head.clumps == *clumps,
        Act::Start(at) => At::start(&told.head) == *at,
        _ => false,
    }
}

/// A block of type 13.
fn packed(alloc: Global, block: &[u8]) -> Option<Packed> {
    if block.is_empty() || block.len() > 57_344 {
        return None;
    }
    pack(alloc, Kind::DATA, block, Sha1Scorer.score(block), 0).ok()
}

/// Stages a block of type 13 as often as it has room, up to `n` times.
fn stage_many<T: TestArena>(alloc: Global, arena: &mut T, block: &[u8], n: u32) -> Option<u32> {
    for i in 0..n {
        match packed(alloc, block) {
            Some(packed) => {
                if !arena.add(packed) {
                    return Some(i);
                }
            }
            None => return None,
        }
    }
    Some(n)
}

/// Makes so many calls of a commit and one further call, which gives this, where each of those
/// before it gives More.
fn step_after<T: TestArena>(arena: &mut T, calls: u64) -> Option<Result<Step, TwinErr>> {
    for _ in 0..calls {
        if arena.step() != Ok(Step::More) {
            return None;
        }
    }
    Some(arena.step())
}

/// Whether of so many calls and one further call that alone fails, or none.
fn stop<T: TestArena>(arena: &mut T, call: u64, fails: bool) -> bool {
    match step_after(arena, call) {
        Some(Ok(_)) => !fails,
        Some(Err(bad)) => fails && bad == TwinErr::Fault,
        None => false,
    }
}

/// Whether the arena is stopped at this call, and so is its commit, or at none.
fn is_stopped<T: TestArena>(arena: &mut T, call: Option<u64>) -> bool {
    if arena.told().stopped != call {
        return false;
    }
    match call {
        Some(call) => arena.step() == Err(TwinErr::Stopped(call)) && arena.told().is_committing,
        None => true,
    }
}

/// Commits what is staged.
fn commit<T: TestArena>(arena: &mut T) -> bool {
    let calls = arena.told().calls;
    step_after(arena, calls.saturating_sub(1)) == Some(Ok(Step::Done))
}

/// Whether the block at an offset is read as this one, whatever size it is thought to have.
fn is_read<T: TestArena>(alloc: Global, arena: &mut T, offset: u64, block: &[u8]) -> bool {
    for size in SIZES {
        if !is_block(&arena.block(alloc, offset, size), block) {
            return false;
        }
    }
    true
}

/// Whether no block is read at an offset for this reason, whatever size it is thought to have.
fn is_refused<T: TestArena>(alloc: Global, arena: &mut T, offset: u64, bad: ReadBad) -> bool {
    for size in SIZES {
        if arena.block(alloc, offset, size).err() != Some(bad) {
            return false;
        }
    }
    true
}

/// Whether a walk answers this, and then stands there.
fn steps_back<T: TestArena>(
    arena: &mut T,
    start: At,
    end: At,
    answer: &Option<Result<Info, BackBad>>,
) -> bool {
    let mut at = start;
    arena.walk(&mut at) == *answer && at == end
}

/// Whether a walk's first read fails.
fn fails_back<T: TestArena>(arena: &mut T) -> bool {
    let mut at = At::start(&arena.told().head);
    arena.walk(&mut at) == Some(Err(BackBad::Fault))
}

/// Whether a disk is as it is spelled by hand.
fn is_spelled(file: Option<Vec<u8>>, first: &[u8; 43], second: &[u8; 43], selector: u8) -> bool {
    match file {
        Some(file) => are_expected(&file, first, second, selector),
        None => false,
    }
}

/// Whether a block with these bytes was read.
fn is_block(found: &Result<Clump, ReadBad>, block: &[u8]) -> bool {
    match found {
        Ok(clump) => {
            clump.bytes.as_slice() == block && clump.kind == Kind::DATA && clump.time == 0
        }
        Err(_) => false,
    }
}

/// Whether each byte of a disk is as it is spelled by hand.
fn are_expected(file: &[u8], first: &[u8; 43], second: &[u8; 43], selector: u8) -> bool {
    for (at, byte) in file.iter().enumerate() {
        if *byte != expected(at, first, second, selector) {
            return false;
        }
    }
    true
}

/// The byte at a place of the disk, by hand: the two frames, the selector, the clumps of `abc` and
/// `abd` and their directory, and zeros.
fn expected(at: usize, first: &[u8; 43], second: &[u8; 43], selector: u8) -> u8 {
    if at >= 512 && at < 555 {
        first[at - 512]
    } else if at >= 8704 && at < 8747 {
        second[at - 8704]
    } else if at == 16_896 {
        selector
    } else if at >= 25_088 && at < 25_170 {
        CLUMPS[at - 25_088]
    } else if at >= 33_230 && at < 33_280 {
        DIRECTORY[at - 33_230]
    } else {
        0
    }
}

/// Does these with an arena, and gives it back. Each is a row, and the first has this number.
fn session<T: TestArena>(
    alloc: Global,
    arena: Option<T>,
    acts: &[Act],
    first: usize,
    rows: &mut Rows,
) -> Option<T> {
    match arena {
        Some(mut arena) => {
            play(alloc, &mut arena, acts, first, rows);
            Some(arena)
        }
        None => {
            rows.nth(first, "an arena is mounted", false);
            None
        }
    }
}

/// An empty arena on a new disk of which this call fails.
fn made<T: TestArena>(alloc: Global, failing: u64) -> Option<T> {
    match T::made(alloc, failing) {
        Some(Ok(arena)) => Some(arena),
        _ => None,
    }
}

/// An arena is mounted again, behind a crash.
fn again<T: TestArena>(alloc: Global, arena: Option<T>, crash: Crash) -> Option<T> {
    match arena {
        Some(arena) => arena.again(alloc, crash),
        None => None,
    }
}

/// Does these with an empty arena on a disk of which this call fails. Each is a row.
fn run<T: TestArena>(alloc: Global, failing: u64, acts: &[Act]) -> Rows {
    let mut rows = Rows::new();
    let arena: Option<T> = made(alloc, failing);
    session(alloc, arena, acts, 0, &mut rows);
    rows
}

/// The same, and further acts with what a crash leaves. They are numbered on.
fn run_on<T: TestArena>(
    alloc: Global,
    failing: u64,
    acts: &[Act],
    crash: Crash,
    then: &[Act],
) -> Rows {
    let mut rows = Rows::new();
    let arena: Option<T> = made(alloc, failing);
    let arena = session(alloc, arena, acts, 0, &mut rows);
    session(
        alloc,
        again(alloc, arena, crash),
        then,
        acts.len(),
        &mut rows,
    );
    rows
}

// ---- room

/// How many bytes of clumps an arena of 32,768 bytes has, how many clumps these are, how long a block is, and whether
/// that has room.
const ROOMS: [(u64, u32, u32, bool); 5] = [
    (0, 0, 8129, true),
    (0, 0, 8130, false),
    (5043, 123, 3, true),
    (5084, 124, 3, false),
    (u64::MAX, u32::MAX, u32::MAX, false),
];

fn see_rooms() -> Rows {
    let mut rows = Rows::new();
    for (row, (used, clumps, n, fits)) in ROOMS.iter().enumerate() {
        let is_it = has_room(1, 32_768, *used, *clumps, *n) == *fits;
        rows.nth(row, "a block has room", is_it);
    }
    rows
}

#[test]
fn room_is_used_to_the_end(_rt: HostRuntime) -> Result<(), Fail> {
    see_rooms().passes()
}

/// An arena is filled, with 64 blocks a commit at most.
const FILLED: [Act<'static>; 10] = [
    Act::Stage(b"abc", 65, 64),
    Act::Calls(69),
    Act::Commit,
    Act::Stage(b"abc", 64, 60),
    Act::Calls(65),
    Act::Commit,
    Act::Stage(b"abc", 1, 0),
    Act::Calls(4),
    Act::Head(false, 124),
    Act::Read(24_576 + 123 * 41, b"abc"),
];

// A row is an act.
#[test]
fn an_arena_is_filled(rt: HostRuntime) -> Result<(), Fail> {
    see_in_memory(rt.alloc(), Case::Filled).passes()
}

/// The same head as `TWO`, but for the flag.
const SEALED: [u8; 43] = *b"VARN\x00\x01\x00\x00\x00\x03\x01\x00\x00\x00\x02\
    \x00\x00\x00\x00\x00\x00\x00\x52\
    \xe5\xa4\x74\x09\x00\xa0\x3a\x26\x25\xaa\x16\x03\x07\xa5\x80\x90\x38\x65\xf8\x3b";

/// Two blocks byte for byte, and sealed.
const SPELLED: [Act<'static>; 9] = [
    Act::Stage(b"abc", 1, 1),
    Act::Stage(b"abd", 1, 1),
    Act::Commit,
    Act::Bytes(&EMPTY, &TWO, 1),
    Act::Seal,
    Act::Sealing,
    Act::Commit,
    Act::Head(true, 2),
    Act::Bytes(&SEALED, &TWO, 0),
];

// A row is an act.
#[test]
fn two_blocks_byte_for_byte(rt: HostRuntime) -> Result<(), Fail> {
    see_in_memory(rt.alloc(), Case::Spelled).passes()
}

// ---- a commit that is stopped

/// The call of a commit at which it ends, whether it fails, and how many blocks a crash then leaves
/// in each mode. The new selector is 0, so that a5 names the old frame.
const STOPS: [(u8, bool, [u32; 4]); 12] = [
    (0, true, [1, 1, 1, 1]),
    (0, false, [1, 1, 1, 1]),
    (1, true, [1, 1, 1, 1]),
    (1, false, [1, 1, 1, 1]),
    (2, true, [1, 1, 1, 1]),
    (2, false, [1, 1, 1, 1]),
    (3, true, [1, 1, 1, 1]),
    (3, false, [1, 1, 1, 1]),
    (4, true, [1, 1, 1, 1]),
    (4, false, [1, 2, 2, 1]),
    (5, true, [1, 2, 2, 1]),
    (5, false, [2, 2, 2, 2]),
];

/// The number of the call of a commit behind that of `abc`, and the call of the disk that it is.
const NEXT_COMMIT: u64 = 6;

const NEXT_CALL: u64 = FIRST_CALL + NEXT_COMMIT;

/// The call of the disk that fails where this call of that commit does, and the call at which the
/// arena is stopped then.
fn failing(call: u64, fails: bool) -> (u64, Option<u64>) {
    if fails {
        let stop = NEXT_COMMIT.saturating_add(call);
        (NEXT_CALL.saturating_add(call), Some(stop))
    } else {
        (NEVER, None)
    }
}

/// A commit of `abd` behind `abc` is stopped at a call, and there is a crash.
fn crash_at<T: TestArena>(
    alloc: Global,
    call: u64,
    fails: bool,
    mode: CrashMode,
    clumps: u32,
) -> Rows {
    let (failing, stop) = failing(call, fails);
    let acts = [
        Act::Stage(b"abc", 1, 1),
        Act::Commit,
        Act::Stage(b"abd", 1, 1),
        Act::Stop(call, fails),
        Act::Stopped(stop),
        Act::Read(24_576, b"abc"),
    ];
    let then = [
        Act::Head(false, clumps),
        Act::Read(24_576, b"abc"),
        Act::ReadLeft(2, 24_617, b"abd"),
    ];
    run_on::<T>(alloc, failing, &acts, Crash::Mode(mode), &then)
}

/// A hundred for each mode before this one, and what is wanted in it.
fn in_mode(mode: CrashMode, wanted: [u32; 4]) -> (usize, u32) {
    let [synced, written, even, garbled] = wanted;
    match mode {
        CrashMode::Synced => (0, synced),
        CrashMode::Written => (100, written),
        CrashMode::EvenWritten => (200, even),
        CrashMode::Garbled => (300, garbled),
    }
}

/// The same in each mode, whose rows are told by that of the call (`row_of`), and a hundred for each mode before.
fn crash_in_each<T: TestArena>(
    alloc: Global,
    call: u64,
    fails: bool,
    wanted: [u32; 4],
    rows: &mut Rows,
) {
    for mode in &CrashMode::ALL {
        let (hundreds, clumps) = in_mode(*mode, wanted);
        let found = crash_at::<T>(alloc, call, fails, *mode, clumps);
        rows.note(hundreds.saturating_add(row_of(call, fails)), &found);
    }
}

/// The last two digits of a row's number are the call, and 1 where it fails.
fn row_of(call: u64, fails: bool) -> usize {
    (call as usize)
        .saturating_mul(10)
        .saturating_add(usize::from(fails))
}

/// A commit is stopped in each of these ways, and there is a crash in each mode.
fn stop_anywhere<T: TestArena>(alloc: Global) -> Rows {
    let mut rows = Rows::new();
    for (call, fails, wanted) in &STOPS {
        crash_in_each::<T>(alloc, u64::from(*call), *fails, *wanted, &mut rows);
    }
    rows
}

// The digits of a row's number are the mode's, the call, and 1 where it fails.
#[test]
fn a_commit_is_stopped_anywhere(rt: HostRuntime) -> Result<(), Fail> {
    see_in_memory(rt.alloc(), Case::Stops).passes()
}

/// A bit for each block of 512 bytes that the directory of a commit of 63 blocks is in, and how many of
/// its bytes are there: it is 1,575 bytes from 31,680 on.
const PARTS: [(u8, usize); 4] = [(1, 64), (2, 512), (4, 512), (8, 487)];

/// What a crash leaves of that commit: its clumps, and of its directory the bytes that were written
/// or those that were there, by blocks of 512 bytes, whose bits say which.
fn torn(alloc: Global, blocks: u8) -> Option<Vec<u16>> {
    let mut choice = vec![in alloc; 257; 63 * 41].ok()?;
    for (bit, len) in &PARTS {
        let end = choice.len().saturating_add(*len);
        let byte = if blocks & bit == *bit { 257 } else { 256 };
        choice.resize(end, byte).ok()?;
    }
    Some(choice)
}

/// A commit of 63 blocks behind `abc` is stopped at the write of their directory, and a crash leaves
/// this.
fn tear<T: TestArena>(alloc: Global, choice: &[u16], fails: bool) -> Rows {
    let (failing, stop) = failing(63, fails);
    let acts = [
        Act::Stage(b"abc", 1, 1),
        Act::Commit,
        Act::Stage(b"abd", 63, 63),
        Act::Stop(63, fails),
        Act::Stopped(stop),
    ];
    let start = At {
        index: 1,
        end: 41,
        sectors: 0,
    };
    let then = [
        Act::Read(24_576, b"abc"),
        Act::Start(start),
        Act::Back(
            start,
            Some(Ok(info_of(b"abc", 0, 24_576))),
            At {
                index: 0,
                end: 0,
                sectors: 0,
            },
        ),
    ];
    run_on::<T>(alloc, failing, &acts, Crash::Choice(choice), &then)
}

/// A crash leaves these blocks of the directory.
fn tear_at<T: TestArena>(alloc: Global, blocks: u8, fails: bool) -> Rows {
    match torn(alloc, blocks) {
        Some(choice) => tear::<T>(alloc, &choice, fails),
        None => Rows::wrong("memory for what a crash leaves"),
    }
}

/// A crash leaves each of the 16 choices of the directory's four blocks. Where the write fails a row is 100 more.
fn tear_each<T: TestArena>(alloc: Global) -> Rows {
    let mut rows = Rows::new();
    for blocks in 0..16u8 {
        let row = usize::from(blocks);
        rows.note(row, &tear_at::<T>(alloc, blocks, false));
        rows.note(100 + row, &tear_at::<T>(alloc, blocks, true));
    }
    rows
}

// A row's number tells by its bits which blocks of the directory are left, and is greater by 100
// where their write fails.
#[test]
fn a_torn_directory_loses_no_block(rt: HostRuntime) -> Result<(), Fail> {
    see_in_memory(rt.alloc(), Case::TornDirectory).passes()
}

// ---- what isn't mounted or read

/// Bytes of a head at a place, and the field for which it is refused, with what is found there and
/// what is wanted; none says that it isn't formatted.
type BadHead = (u64, [u8; 8], Option<(Field, u128, u128)>);

const HEADS: [BadHead; 7] = [
    (0, *b"VARM\0\0\0\0", None),
    (4, *b"\0\x03\0\0\0\x04\x02\0", Some((Field::Version, 3, 2))),
    (6, *b"\0\0\0\x04\x02\0\0\0", Some((Field::Number, 4, 3))),
    (10, *b"\x02\0\0\x01\x48\0\0\0", Some((Field::Sealed, 2, 1))),
    (
        11,
        *b"\0\0\x01\x48\0\0\0\0",
        Some((Field::Used, 8_200, 8_192)),
    ),
    (
        15,
        *b"\0\0\0\0\0\0\x20\x01",
        Some((Field::Used, 8_193, 8_192)),
    ),
    (
        15,
        [0xff; 8],
        Some((Field::Used, 18_446_744_073_709_551_615, 8_192)),
    ),
];

/// Why such a head is refused.
fn bad_of(torn: Option<(Field, u128, u128)>) -> ArenaBad {
    match torn {
        Some((field, found, want)) => ArenaBad::Torn { field, found, want },
        None => ArenaBad::NotFormatted,
    }
}

/// Such a head is refused.
fn refuse_head<T: TestArena>(alloc: Global, (at, bytes, torn): &BadHead) -> Rows {
    let bad = bad_of(*torn);
    let acts = [
        Act::Write(*at, bytes),
        Act::Unfound(bad),
        Act::Unmounted(bad),
    ];
    run::<T>(alloc, NEVER, &acts)
}

fn refuse_heads<T: TestArena>(alloc: Global) -> Rows {
    let mut rows = Rows::new();
    for (row, head) in HEADS.iter().enumerate() {
        rows.note(row, &refuse_head::<T>(alloc, head));
    }
    rows
}

#[test]
fn heads_are_refused(rt: HostRuntime) -> Result<(), Fail> {
    see_in_memory(rt.alloc(), Case::Heads).passes()
}

/// Whether the empty arena of a disk isn't mounted where this call fails.
fn is_faulty<T: TestArena>(alloc: Global, failing: u64) -> bool {
    match T::made(alloc, failing) {
        Some(Err(bad)) => bad == ArenaBad::Fault,
        _ => false,
    }
}

/// The arena isn't mounted where one of the calls fails by which that is done. A row is the call.
fn fail_each<T: TestArena>(alloc: Global) -> Rows {
    let mut rows = Rows::new();
    for call in 3..6u8 {
        let is_faulty = is_faulty::<T>(alloc, u64::from(call));
        rows.nth(usize::from(call), "why the arena isn't mounted", is_faulty);
    }
    rows
}

// Each call of mounting fails in turn: the sync, the read of the selector, that of the head. A row
// is the call.
#[test]
fn a_fault_refuses_an_arena(rt: HostRuntime) -> Result<(), Fail> {
    see_in_memory(rt.alloc(), Case::Faults).passes()
}

/// An offset, a byte at a place, and what is wanted and found at the offset then.
type Damage = (u64, u64, u8, FieldValue, FieldValue);

const DAMAGES: [Damage; 9] = [
    (
        24_576,
        24_576,
        b'X',
        FieldValue::Magic(*b"VCLP"),
        FieldValue::Magic(*b"XCLP"),
    ),
    (
        24_576,
        24_580,
        0,
        FieldValue::Number(13),
        FieldValue::Number(0),
    ),
    (
        24_576,
        24_605,
        2,
        FieldValue::Number(1),
        FieldValue::Number(2),
    ),
    (
        24_576,
        24_605,
        7,
        FieldValue::Number(1),
        FieldValue::Number(7),
    ),
    (
        24_576,
        24_582,
        4,
        FieldValue::Number(4),
        FieldValue::Number(3),
    ),
    (
        24_576,
        24_584,
        4,
        FieldValue::Number(3),
        FieldValue::Number(4),
    ),
    (
        24_576,
        24_616,
        b'd',
        FieldValue::Score(ABC),
        FieldValue::Score(ABD),
    ),
    (
        24_575,
        24_616,
        b'c',
        FieldValue::Number(24_576),
        FieldValue::Number(24_575),
    ),
    (
        32_731,
        24_616,
        b'c',
        FieldValue::Number(24_576),
        FieldValue::Number(32_731),
    ),
];

/// In an arena that holds `abc` no block is read at an offset, with a byte at a place.
fn refuse_clump<T: TestArena>(alloc: Global, damage: &Damage) -> Rows {
    let (offset, at, byte, want, found) = *damage;
    let acts = [
        Act::Stage(b"abc", 1, 1),
        Act::Commit,
        Act::Read(24_576, b"abc"),
        Act::Write(at, &[byte]),
        Act::Unread(offset, ReadBad::Damaged { want, found }),
    ];
    run::<T>(alloc, NEVER, &acts)
}

fn refuse_clumps<T: TestArena>(alloc: Global) -> Rows {
    let mut rows = Rows::new();
    for (row, damage) in DAMAGES.iter().enumerate() {
        rows.note(row, &refuse_clump::<T>(alloc, damage));
    }
    rows
}

#[test]
fn damaged_clumps_are_refused(rt: HostRuntime) -> Result<(), Fail> {
    see_in_memory(rt.alloc(), Case::Clumps).passes()
}

// ---- the directory

/// What a directory says of a block of data.
fn info_of(block: &[u8], number: u64, offset: u32) -> Info {
    Info {
        key: Key {
            score: Sha1Scorer.score(block),
            kind: Kind::DATA,
        },
        size: block.len().min(8) as u16,
        place: Place {
            arena: NUMBER,
            offset,
        },
        number,
    }
}

/// A directory of three blocks is walked.
fn walk_three<T: TestArena>(alloc: Global) -> Rows {
    let third = At {
        index: 3,
        end: 120,
        sectors: 0,
    };
    let second = At {
        index: 2,
        end: 79,
        sectors: 0,
    };
    let first = At {
        index: 1,
        end: 39,
        sectors: 0,
    };
    let none = At {
        index: 0,
        end: 0,
        sectors: 0,
    };
    let acts = [
        Act::Stage(b"a", 1, 1),
        Act::Stage(b"bc", 1, 1),
        Act::Stage(b"def", 1, 1),
        Act::Commit,
        Act::Start(third),
        Act::Back(third, Some(Ok(info_of(b"def", 2, 24_655))), second),
        Act::Back(second, Some(Ok(info_of(b"bc", 1, 24_615))), first),
        Act::Back(first, Some(Ok(info_of(b"a", 0, 24_576))), none),
        Act::Back(none, None, none),
    ];
    run::<T>(alloc, NEVER, &acts)
}

// A row is an act.
#[test]
fn the_directory_is_walked(rt: HostRuntime) -> Result<(), Fail> {
    see_in_memory(rt.alloc(), Case::Walk).passes()
}

/// The size that a block is thought to have, the call that fails, and whether it is one of reading
/// the block or one of reading its entry: that of a clump or, where its block has more bytes than
/// was thought, those of its header and block; then that of an entry.
const FAULTS: [(u16, u8, bool, bool); 10] = [
    (2, 0, true, false),
    (2, 1, true, false),
    (2, 2, false, true),
    (2, 3, false, false),
    (3, 0, true, false),
    (3, 1, false, true),
    (3, 2, false, false),
    (4, 0, true, false),
    (4, 1, false, true),
    (4, 2, false, false),
];

/// A read of `abc` fails, or one of its entry.
fn fail_read<T: TestArena>(
    alloc: Global,
    (size, call, reads, walks): &(u16, u8, bool, bool),
) -> Rows {
    let acts = [
        Act::Stage(b"abc", 1, 1),
        Act::Commit,
        Act::ReadFails(*size, *reads),
        Act::BackFails(*walks),
    ];
    run::<T>(alloc, NEXT_CALL + u64::from(*call), &acts)
}

fn fail_reads<T: TestArena>(alloc: Global) -> Rows {
    let mut rows = Rows::new();
    for (row, case) in FAULTS.iter().enumerate() {
        rows.note(row, &fail_read::<T>(alloc, case));
    }
    rows
}

#[test]
fn each_read_fails(rt: HostRuntime) -> Result<(), Fail> {
    see_in_memory(rt.alloc(), Case::Reads).passes()
}

/// Where a walk stands, the bytes with which the entry there begins, and what is wanted and found
/// in it.
const ENTRIES: [(At, [u8; 5], u128, u128); 6] = [
    (
        At {
            index: 3,
            end: 120,
            sectors: 0,
        },
        [0, 0, 3, 0, 3],
        13,
        0,
    ),
    (
        At {
            index: 3,
            end: 120,
            sectors: 0,
        },
        [13, 0, 0, 0, 0],
        1,
        0,
    ),
    (
        At {
            index: 3,
            end: 120,
            sectors: 0,
        },
        [13, 0xe0, 1, 0xe0, 1],
        1,
        57_345,
    ),
    (
        At {
            index: 3,
            end: 120,
            sectors: 0,
        },
        [13, 0, 3, 0, 4],
        3,
        4,
    ),
    (
        At {
            index: 3,
            end: 120,
            sectors: 0,
        },
        [13, 0, 83, 0, 83],
        120,
        121,
    ),
    (
        At {
            index: 1,
            end: 39,
            sectors: 0,
        },
        [13, 0, 2, 0, 2],
        120,
        121,
    ),
];

/// A walk of a directory of three blocks refuses an entry that begins with these bytes, and stays.
fn refuse_entry<T: TestArena>(alloc: Global, case: &(At, [u8; 5], u128, u128)) -> Rows {
    let (at, bytes, want, found) = *case;
    let bad = BackBad::Damaged {
        want: FieldValue::Number(want),
        found: FieldValue::Number(found),
    };
    let place = u64::from(at.index).saturating_mul(25);
    let acts = [
        Act::Stage(b"a", 1, 1),
        Act::Stage(b"bc", 1, 1),
        Act::Stage(b"def", 1, 1),
        Act::Commit,
        Act::Write(REGION.len.saturating_sub(place), &bytes),
        Act::Back(at, Some(Err(bad)), at),
    ];
    run::<T>(alloc, NEVER, &acts)
}

fn refuse_entries<T: TestArena>(alloc: Global) -> Rows {
    let mut rows = Rows::new();
    for (row, case) in ENTRIES.iter().enumerate() {
        rows.note(row, &refuse_entry::<T>(alloc, case));
    }
    rows
}

#[test]
fn damaged_entries_are_refused(rt: HostRuntime) -> Result<(), Fail> {
    see_in_memory(rt.alloc(), Case::Entries).passes()
}

/// An arena's room is given to itself, and it goes on.
const MOVED: [Act<'static>; 4] = [
    Act::Move,
    Act::Stage(b"abc", 1, 1),
    Act::Commit,
    Act::Found(1),
];

// A row is an act.
#[test]
fn an_arena_moves_to_another(rt: HostRuntime) -> Result<(), Fail> {
    see_in_memory(rt.alloc(), Case::Moved).passes()
}

// ---- the tests

/// What a test sees.
#[derive(Clone, Copy)]
enum Case {
    /// Blocks are staged and committed up to the arena's end.
    Filled,
    /// What stands on the disk, byte for byte.
    Spelled,
    /// A commit is stopped at each of its calls, with a crash behind it.
    Stops,
    /// A crash tears the write of the directory.
    TornDirectory,
    /// Each head that can't stand is refused.
    Heads,
    /// Calls of mounting fail.
    Faults,
    /// Damaged clumps are refused.
    Clumps,
    /// The directory is walked back.
    Walk,
    /// Calls of reading fail.
    Reads,
    /// A walk refuses damaged entries.
    Entries,
    /// An arena's room is given to itself.
    Moved,
}

fn see<T: TestArena>(alloc: Global, case: Case) -> Rows {
    match case {
        Case::Filled => run::<T>(alloc, NEVER, &FILLED),
        Case::Spelled => run::<T>(alloc, NEVER, &SPELLED),
        Case::Stops => stop_anywhere::<T>(alloc),
        Case::TornDirectory => tear_each::<T>(alloc),
        Case::Heads => refuse_heads::<T>(alloc),
        Case::Faults => fail_each::<T>(alloc),
        Case::Clumps => refuse_clumps::<T>(alloc),
        Case::Walk => walk_three::<T>(alloc),
        Case::Reads => fail_reads::<T>(alloc),
        Case::Entries => refuse_entries::<T>(alloc),
        Case::Moved => run::<T>(alloc, NEVER, &MOVED),
    }
}

/// The same, of arenas on disks in memory.
fn see_in_memory(alloc: Global, case: Case) -> Rows {
    see::<MadeArena>(alloc, case)
}
