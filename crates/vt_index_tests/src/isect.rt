//! Sections on disks in memory: spelled by hand, stopped, crashed, damaged and refused.
//!
//! What is done with a section is data. It is done to any `TestSection`, and `see_in_memory` alone names
//! the real one.

use crate::disks::{Change, Made, TestDisk, changed};
use crate::sections::{MadeSection, TestSection, count, make};
use std::alloc::{AllocError, Global};
use std::test::Fail;
use vt_base::{Entry, FieldValue, Key, Kind, Place, Score};
use vt_bucket::Bucket;
use vt_isect::{Entries, Field, SectBad, ShardErr, bucket_number};
use vt_memdisk::CrashMode;
use vt_rows::Rows;
use vt_twin::Step;

/// A head and two buckets.
const LEN: u64 = 58_368;

/// The calls before those of a writeback: three of formatting, three of mounting, four of each
/// change of the head, five for the two buckets that are cleared, and three of mounting again.
const FIRST_CALL: u64 = 22;

/// The number of a call that no test reaches.
const NEVER: u64 = u64::MAX;

/// How many buckets a section of this length has, which is one group and two buckets.
const MANY: u32 = 66;

const MANY_LEN: u64 = 1_139_712;

/// An entry whose score begins with these bytes.
fn entry(first: u8, second: u8, offset: u32) -> Entry {
    let kind = Kind::DATA;
    let mut score = [0; 20];
    score[0] = first;
    score[1] = second;
    Entry {
        key: Key {
            score: Score(score),
            kind,
        },
        size: 3,
        place: Place { arena: 1, offset },
    }
}

/// The three entries that are written back: two of bucket 0, not in order, and one of bucket 1.
fn three(alloc: Global) -> Result<Entries, AllocError> {
    let list = vec![in alloc; entry(0x7f, 0, 7), entry(0x80, 0, 8), entry(0x01, 2, 9)]?;
    Ok(Entries::from_vec(list))
}

/// An entry of each bucket but the last.
fn one_of_each(alloc: Global) -> Result<Entries, AllocError> {
    let mut list = Vec::with_capacity(alloc, 65)?;
    for number in 0..MANY - 1 {
        let mut one = entry(0, 0, number);
        one.key.score.0[..4].copy_from_slice(&(number * 65_075_263).to_be_bytes());
        list.push(one)?;
    }
    Ok(Entries::from_vec(list))
}

/// What is done with a section, and what it has to give.
#[derive(Clone, Copy)]
enum Act<'a> {
    /// The head, of the only section, is changed to this state and mark.
    ChangeHead(u8, u64),
    /// So many buckets are cleared, from this one on.
    Clear(u32, u32),
    /// Bucket 1 is filled with an entry, looked up and cleared, up to a call that fails.
    FillAndClear(Result<(), ShardErr>),
    /// The three entries begin to be written back, those of buckets behind this one first.
    Put(Option<u32>),
    /// An entry of each bucket but the last begins to be written back.
    PutMany,
    /// What is under way takes so many calls at most.
    Calls(u64),
    /// This bucket is under way.
    UnderWay(Option<u32>),
    /// So many calls are made, each of which gives More.
    Go(u64),
    /// What is under way ends with the last of so many calls.
    Finish(u64),
    /// So many calls are made, each of which gives More, and one further call, which fails where
    /// that is said.
    Stop(u64, bool),
    /// So many calls are made, each of which gives More, and one further call, which is refused.
    Refused(u64, ShardErr),
    /// The section is stopped at this call, or at none.
    Stopped(Option<u64>),
    /// Something is under way, or nothing.
    Changing(bool),
    /// So many entries are written.
    Written(usize),
    /// The writeback of the three entries has come so far.
    Level(u8),
    /// A bucket has entries at these offsets, in this order, and no others.
    Has(u32, &'a [u32]),
    /// A look-up gives bucket 1, or it is refused.
    Found(bool),
    /// A look-up of a bucket is refused.
    Lost(u32, ShardErr),
    /// The three entries are handed back, in the order of their buckets, and not twice.
    TakeBack,
    /// The section's name begins so.
    Name(&'a [u8; 8]),
    /// It has so many buckets.
    Buckets(u32),
}

impl Act<'_> {
    /// What is compared behind it.
    fn what(&self) -> &'static str {
        match self {
            Act::ChangeHead(..) => "the last of four calls ends a change of the head",
            Act::Clear(..) => "buckets are cleared",
            Act::FillAndClear(_) => "a bucket is filled, looked up and cleared, or a call fails",
            Act::Put(_) => "a writeback of three entries begins",
            Act::PutMany => "a writeback of many entries begins",
            Act::Calls(_) => "how many calls are left at most",
            Act::UnderWay(_) => "the bucket under way",
            Act::Go(_) => "each of some calls gives More",
            Act::Finish(_) => "the last of some calls ends what is under way, and no other",
            Act::Stop(..) => "whether the last of some calls fails, and no other",
            Act::Refused(..) => "why the last of some calls is refused, and no other",
            Act::Stopped(_) => "the call that stopped the section",
            Act::Changing(_) => "whether something is under way",
            Act::Written(_) => "how many entries are written",
            Act::Level(_) => "how far a writeback of three entries has come",
            Act::Has(..) => "the entries of a bucket",
            Act::Found(_) => "whether a look-up gives a bucket",
            Act::Lost(..) => "why a look-up doesn't give a bucket",
            Act::TakeBack => "the three entries are handed back, once and in order",
            Act::Name(_) => "the section's name",
            Act::Buckets(_) => "how many buckets there are",
        }
    }
}

/// Does these with a section. Each is a row, and the first has this number.
fn play<T: TestSection>(
    alloc: Global,
    section: &mut T,
    acts: &[Act],
    first: usize,
    rows: &mut Rows,
) {
    for (number, act) in acts.iter().enumerate() {
        let holds = begins(alloc, section, act);
        rows.nth(first.saturating_add(number), act.what(), holds);
    }
}

/// Whether a section gives what it has to.
fn begins<T: TestSection>(alloc: Global, section: &mut T, act: &Act) -> bool {
    match act {
        Act::ChangeHead(state, mark) => change_head(section, *state, *mark),
        Act::Clear(first, count) => section.empty(*first, *count) == Some(Ok(())),
        Act::FillAndClear(answer) => fill_and_clear(section) == Some(*answer),
        Act::Put(behind) => put(section, three(alloc), *behind),
        Act::PutMany => put(section, one_of_each(alloc), None),
        Act::TakeBack => take_back(section),
        _ => goes_on(section, act),
    }
}

/// The same of what is under way.
fn goes_on<T: TestSection>(section: &mut T, act: &Act) -> bool {
    match act {
        Act::Go(calls) => { step_after(section, calls.saturating_sub(1)) == Some(Ok(Step::More)) }
        Act::Finish(calls) => finish(section, *calls),
        Act::Stop(call, fails) => stop(section, *call, *fails),
        Act::Refused(call, bad) => step_after(section, *call) == Some(Err(*bad)),
        Act::Stopped(call) => is_stopped(section, *call),
        Act::Level(wanted) => level(section) == *wanted,
        Act::Has(number, offsets) => has(section, *number, offsets),
        Act::Found(is_found) => matches!(section.look_up(1), Some(Ok(_))) == *is_found,
        Act::Lost(number, bad) => section.look_up(*number).and_then(Result::err) == Some(*bad),
        _ => tells(section, act),
    }
}

/// The same where the section isn't changed.
fn tells<T: TestSection>(section: &T, act: &Act) -> bool {
    let told = section.told();
    match act {
        Act::Calls(most) => told.calls == *most,
        Act::UnderWay(bucket) => told.bucket == *bucket,
        Act::Changing(changes) => told.is_changing == *changes,
        Act::Written(entries) => told.written == *entries,
        Act::Name(name) => told.name == **name,
        Act::Buckets(count) => told.buckets == *count,
        _ => false,
    }
}

/// Makes so many device calls and one further call, which gives this, where each of those before it
/// gives More.
fn step_after<T: TestSection>(section: &mut T, calls: u64) -> Option<Result<Step, ShardErr>> {
    for _ in 0..calls {
        if section.step() != Some(Ok(Step::More)) {
            return None;
        }
    }
    section.step()
}

/// Whether what is under way takes so many calls at least, and ends with the last of them.
fn finish<T: TestSection>(section: &mut T, calls: u64) -> bool {
    section.told().calls >= calls
        && step_after(section, calls.saturating_sub(1)) == Some(Ok(Step::Done))
        && section.told().calls == 0
}

/// Whether of so many calls and one further call that alone fails, or none.
fn stop<T: TestSection>(section: &mut T, call: u64, fails: bool) -> bool {
    match step_after(section, call) {
        Some(Ok(_)) => !fails,
        Some(Err(bad)) => fails && bad == ShardErr::Fault,
        None => false,
    }
}

/// Whether the section is stopped at this call, or at none.
fn is_stopped<T: TestSection>(section: &mut T, call: Option<u64>) -> bool {
    if section.told().stopped != call {
        return false;
    }
    match call {
        Some(call) => section.step() == Some(Err(ShardErr::Stopped(call))),
        None => true,
    }
}

/// Changes the head to this state and mark.
fn change_head<T: TestSection>(section: &mut T, state: u8, mark: u64) -> bool {
    section.begin_change(state, mark) && finish(section, 4)
}

/// Fills bucket 1 with an entry, looks it up and clears it again, up to a call that fails. None where
/// another bucket is looked up, or it isn't there.
fn fill_and_clear<T: TestSection>(section: &mut T) -> Option<Result<(), ShardErr>> {
    let mut one = Bucket::new(1);
    if one.with(entry(0x80, 0, 8)).is_err() {
        return None;
    }
    if let Err(bad) = section.refill(&one)? {
        return Some(Err(bad));
    }
    match section.look_up(1)? {
        Ok(found) if found.entries() == one.entries() => section.empty(1, 1),
        Ok(_) => None,
        Err(bad) => Some(Err(bad)),
    }
}

/// Begins to write these entries back, where there is memory for them.
fn put<T: TestSection>(
    section: &mut T,
    entries: Result<Entries, AllocError>,
    behind: Option<u32>,
) -> bool {
    match entries {
        Ok(entries) => section.begin_writeback(entries, behind),
        Err(_) => false,
    }
}

/// Whether the three entries are handed back, in the order of their buckets, and not twice.
fn take_back<T: TestSection>(section: &mut T) -> bool {
    let Some(list) = section.take_back() else {
        return false;
    };
    let entries = list.as_slice();
    let is_last = entries.last().is_some_and(|last| last.place.offset == 8);
    entries.len() == 3 && is_last && section.take_back().is_none()
}

/// Whether a look-up gives a bucket with entries at these offsets, in this order, and no others.
fn has<T: TestSection>(section: &mut T, number: u32, offsets: &[u32]) -> bool {
    match section.look_up(number) {
        Some(Ok(bucket)) => are_at(bucket.entries(), offsets),
        _ => false,
    }
}

/// Whether entries have these offsets, in this order, and are no more.
fn are_at(entries: &[Entry], offsets: &[u32]) -> bool {
    if entries.len() != offsets.len() {
        return false;
    }
    for (entry, offset) in entries.iter().zip(offsets) {
        if entry.place.offset != *offset {
            return false;
        }
    }
    true
}

/// How far the writeback of the three entries has come, as the disk has it: 0 where nothing is
/// written, 1 where bucket 0 is, 2 where both buckets are, 3 where the mark is raised too. Else the
/// buckets and the mark don't go together.
fn level<T: TestSection>(section: &mut T) -> u8 {
    let mark = section.told().mark;
    let first = [has(section, 0, &[]), has(section, 0, &[9, 7])];
    let second = [has(section, 1, &[]), has(section, 1, &[8])];
    match (first, second, mark) {
        ([true, false], [true, false], 0) => b'0',
        ([false, true], [true, false], 0) => b'1',
        ([false, true], [false, true], 0) => b'2',
        ([false, true], [false, true], 3) => b'3',
        _ => b'?',
    }
}

// ---- sections of new disks

/// Puts a section to use with so many empty buckets.
fn begins_use<T: TestSection>(section: &mut T, buckets: u32) -> bool {
    change_head(section, 2, 0)
        && section.empty(0, buckets) == Some(Ok(()))
        && change_head(section, 1, 0)
}

/// A section that is put to use with so many empty buckets, on a new disk of this length, of which
/// these calls fail.
pub fn used<T: TestSection>(alloc: Global, len: u64, failing: &[u64], buckets: u32) -> Option<T> {
    let mut section = T::made(alloc, len, failing, &[])?;
    if begins_use(&mut section, buckets) {
        Some(section)
    } else {
        None
    }
}

/// The same, mounted again, so that it remembers no bucket's frame.
pub fn live<T: TestSection>(alloc: Global, len: u64, failing: &[u64], buckets: u32) -> Option<T> {
    let section: Option<T> = used(alloc, len, failing, buckets);
    again(alloc, section, Change::Nothing)
}

/// A section is mounted again, behind a change of its disk.
fn again<T: TestSection>(alloc: Global, section: Option<T>, change: Change) -> Option<T> {
    match section {
        Some(section) => section.again(alloc, change),
        None => None,
    }
}

/// Does these with a section, and gives it back. Each is a row, and the first has this number.
fn session<T: TestSection>(
    alloc: Global,
    section: Option<T>,
    acts: &[Act],
    first: usize,
    rows: &mut Rows,
) -> Option<T> {
    match section {
        Some(mut section) => {
            play(alloc, &mut section, acts, first, rows);
            Some(section)
        }
        None => {
            rows.nth(first, "a section is mounted", false);
            None
        }
    }
}

/// Does these with a section that was put to use and is mounted again behind a change of its disk. It
/// has two buckets, and this call of the disk fails. Each is a row.
fn run<T: TestSection>(alloc: Global, failing: u64, change: Change, acts: &[Act]) -> Rows {
    let mut rows = Rows::new();
    let section: Option<T> = used(alloc, LEN, &[failing], 2);
    session(alloc, again(alloc, section, change), acts, 0, &mut rows);
    rows
}

// ---- a writeback that is stopped

/// How a writeback of the three entries ends.
#[derive(Clone, Copy)]
struct End {
    /// The call with which it ends, and whether that fails.
    call: u64,
    fails: bool,
    /// The number of the disk's call that fails.
    failing: u64,
    /// The call at which the section is stopped then.
    stopped: Option<u64>,
    /// Whether something is under way then.
    is_changing: bool,
}

/// It ends with this call. The first two calls of a bucket read, and end a writeback where they fail.
fn end_with(call: u64, fails: bool) -> End {
    let is_read = call < 2 || call == 3 || call == 4;
    if fails {
        End {
            call,
            fails,
            failing: FIRST_CALL.saturating_add(call),
            stopped: if is_read { None } else { Some(call) },
            is_changing: !is_read,
        }
    } else {
        End {
            call,
            fails,
            failing: NEVER,
            stopped: None,
            is_changing: call < 13,
        }
    }
}

/// A section of which a writeback of the three entries ends so.
fn written<T: TestSection>(alloc: Global, end: &End, rows: &mut Rows) -> Option<T> {
    let acts = [
        Act::Put(None),
        Act::Calls(16),
        Act::UnderWay(Some(0)),
        Act::Stop(end.call, end.fails),
        Act::Stopped(end.stopped),
        Act::Changing(end.is_changing),
    ];
    let section = live(alloc, LEN, &[end.failing], 2);
    session(alloc, section, &acts, 0, rows)
}

/// What is left by a crash after each call, in the four modes, where it is done and where it fails:
/// of each bucket two reads and the write of a frame, a sync, two selectors, and a sync; and four
/// of the head. The new selectors are 1, so that a5 names the new frame.
const WRITEBACK: [[[u8; 4]; 2]; 14] = [
    [*b"0000", *b"0000"],
    [*b"0000", *b"0000"],
    [*b"0000", *b"0000"],
    [*b"0000", *b"0000"],
    [*b"0000", *b"0000"],
    [*b"0000", *b"0000"],
    [*b"0000", *b"0000"],
    [*b"0111", *b"0001"],
    [*b"0222", *b"0112"],
    [*b"2222", *b"0222"],
    [*b"2222", *b"2222"],
    [*b"2222", *b"2222"],
    [*b"2333", *b"2223"],
    [*b"3333", *b"2333"],
];

/// How far a writeback has come that ends so, after a crash.
fn crash_at<T: TestSection>(alloc: Global, end: &End, mode: CrashMode, wanted: u8) -> Rows {
    let mut rows = Rows::new();
    let section: Option<T> = written(alloc, end, &mut rows);
    let section = again(alloc, section, Change::Crash(mode));
    session(alloc, section, &[Act::Level(wanted)], 6, &mut rows);
    rows
}

/// The same of each mode.
fn crash_in_each<T: TestSection>(alloc: Global, end: &End, wanted: [u8; 4], rows: &mut Rows) {
    for mode in &CrashMode::ALL {
        let (thousands, wanted) = in_mode(*mode, wanted);
        let found = crash_at::<T>(alloc, end, *mode, wanted);
        rows.note(thousands.saturating_add(row_of(end)), &found);
    }
}

/// The last three digits of a row's number are two of the call, and 1 where it fails.
fn row_of(end: &End) -> usize {
    (end.call as usize)
        .saturating_mul(10)
        .saturating_add(usize::from(end.fails))
}

/// A thousand for each mode before this one, and what is wanted in it.
fn in_mode(mode: CrashMode, wanted: [u8; 4]) -> (usize, u8) {
    let [synced, written, even, garbled] = wanted;
    match mode {
        CrashMode::Synced => (0, synced),
        CrashMode::Written => (1_000, written),
        CrashMode::EvenWritten => (2_000, even),
        CrashMode::Garbled => (3_000, garbled),
    }
}

/// A writeback ends with each of its calls, which is made or fails, and there is a crash in each mode.
fn stop_anywhere<T: TestSection>(alloc: Global) -> Rows {
    let mut rows = Rows::new();
    for (call, [done, failed]) in WRITEBACK.iter().enumerate() {
        crash_in_each::<T>(alloc, &end_with(call as u64, false), *done, &mut rows);
        crash_in_each::<T>(alloc, &end_with(call as u64, true), *failed, &mut rows);
    }
    rows
}

// The digits of a row's number are the mode's, two of the call, and 1 where it fails.
#[test]
fn a_writeback_is_stopped_anywhere(rt: HostRuntime) -> Result<(), Fail> {
    see_in_memory(rt.alloc(), Case::Writeback).passes()
}

/// These where a bucket is new, as its selector's byte is odd, and else none.
fn where_new(byte: u8, offsets: &[u32]) -> &[u32] {
    if byte % 2 == 1 { offsets } else { &[] }
}

/// A writeback ended behind the sync of the frames, and the selectors begin with these bytes: each
/// bucket is new where its byte is odd, and else as before the writeback.
fn select<T: TestSection>(alloc: Global, first: u8, second: u8) -> Rows {
    let mut rows = Rows::new();
    let section: Option<T> = written(alloc, &end_with(6, false), &mut rows);
    let change = Change::Spoil(&[(40_960, &[first]), (57_856, &[second])]);
    let acts = [
        Act::Has(0, where_new(first, &[9, 7])),
        Act::Has(1, where_new(second, &[8])),
    ];
    session(alloc, again(alloc, section, change), &acts, 6, &mut rows);
    rows
}

/// Bytes with which selectors begin.
const SELECTORS: [u8; 6] = [0x00, 0x01, 0x7f, 0xa5, 0xfe, 0xff];

/// The first selector begins with this byte. The rows' numbers are this one and the second's.
fn select_second<T: TestSection>(alloc: Global, first: u8, tens: usize, rows: &mut Rows) {
    for (ones, second) in SELECTORS.iter().enumerate() {
        let found = select::<T>(alloc, first, *second);
        rows.note(tens.saturating_add(ones), &found);
    }
}

/// The first selector begins with each of these bytes, and the second one too.
fn select_each<T: TestSection>(alloc: Global) -> Rows {
    let mut rows = Rows::new();
    for (number, first) in SELECTORS.iter().enumerate() {
        select_second::<T>(alloc, *first, number.saturating_mul(10), &mut rows);
    }
    rows
}

// A row's number tells by its two digits which of the bytes the selectors begin with.
#[test]
fn selectors_hold_any_bytes(rt: HostRuntime) -> Result<(), Fail> {
    see_in_memory(rt.alloc(), Case::Selectors).passes()
}

// ---- a section that is spelled by hand

/// The three entries are written back where the frames of both buckets are remembered, and looked up
/// while they are written.
const SPELLS: [Act<'static>; 19] = [
    Act::ChangeHead(2, 0),
    Act::Clear(0, 2),
    Act::ChangeHead(1, 0),
    Act::Name(b"index.0\0"),
    Act::Put(None),
    Act::Calls(15),
    Act::UnderWay(Some(0)),
    Act::Go(2),
    Act::UnderWay(Some(1)),
    Act::Go(5),
    Act::UnderWay(None),
    Act::Written(0),
    // No new frame is looked up before the sync of the selectors.
    Act::Level(b'0'),
    Act::Go(1),
    Act::Written(3),
    Act::Finish(4),
    Act::Level(b'3'),
    Act::TakeBack,
    Act::ChangeHead(2, 0x0102_0304_0506_0708),
];

/// The bytes of a section, by hand: from this place on these stand there.
const SPELLED: [(u64, [u8; 31]); 6] = [
    // The head, in frame 0: what begins it, and its numbers.
    (
        0,
        *b"VSEC\x00\x01\x02index.0\0\0\0\0\0\0\0\0\0\0\0\0\0\0\0\0\0",
    ),
    (
        60,
        *b"\0\0\0\0\0\0\0\0\0\0\0\0\0\0\0\0\0\0\x02\0\0\0\x02\x01\x02\x03\x04\x05\x06\x07\x08",
    ),
    // Frame 0 of bucket 1, at 24,576 + 16,896, as it was cleared.
    (
        41_472,
        *b"VBKT\x00\x00\x00\x01\x00\x00\0\0\0\0\0\0\0\0\0\0\0\0\0\0\0\0\0\0\0\0\0",
    ),
    // Its frame 1: its head with a score's front, and the rest of that entry.
    (
        49_664,
        *b"VBKT\x00\x00\x00\x01\x00\x01\x80\0\0\0\0\0\0\0\0\0\0\0\0\0\0\0\0\0\0\0\x0d",
    ),
    (
        49_695,
        *b"\x00\x03\x00\x00\x00\x01\x00\x00\x00\x08\0\0\0\0\0\0\0\0\0\0\0\0\0\0\0\0\0\0\0\0\0",
    ),
    // Its selector behind them.
    (
        57_856,
        *b"\x01\0\0\0\0\0\0\0\0\0\0\0\0\0\0\0\0\0\0\0\0\0\0\0\0\0\0\0\0\0\0",
    ),
];

/// Whether these bytes stand at a place.
fn stand(bytes: &[u8], at: u64, wanted: &[u8; 31]) -> bool {
    match bytes.get(at as usize..) {
        Some(found) => found.starts_with(wanted),
        None => false,
    }
}

/// The bytes of a disk are as they are spelled.
fn see_bytes(bytes: &[u8], rows: &mut Rows) {
    rows.is("the length of a disk", bytes.len() as u64 == LEN);
    for (row, (at, wanted)) in SPELLED.iter().enumerate() {
        let is_it = stand(bytes, *at, wanted);
        rows.nth(row, "the bytes at a place of the disk", is_it);
    }
}

/// The bytes of a section's disk.
fn bytes<T: TestSection>(alloc: Global, section: Option<T>) -> Option<Vec<u8>> {
    section?.bytes(alloc)
}

/// The bytes of such a section, where other bytes stood before.
fn spell<T: TestSection>(alloc: Global) -> Rows {
    let mut rows = Rows::new();
    let section = T::made(alloc, LEN, &[NEVER], &[(41_472, &[0xa5; 16_896])]);
    let section = session(alloc, section, &SPELLS, 0, &mut rows);
    match bytes(alloc, section) {
        Some(bytes) => see_bytes(&bytes, &mut rows),
        None => rows.is("the bytes of a disk", false),
    }
    rows
}

// A row is an act, or behind these a place.
#[test]
fn a_section_is_spelled(rt: HostRuntime) -> Result<(), Fail> {
    see_in_memory(rt.alloc(), Case::Spelled).passes()
}

// ---- what is no section

/// The length of a disk, a call of it that fails, bytes at a place, and what mounting answers.
type Refusal = (u64, u64, u64, [u8; 2], Result<u32, SectBad>);

/// Why a disk that is a byte too short is refused, and one of another version.
const SMALL: SectBad = SectBad::TooSmall {
    len: 41_471,
    need: 41_472,
};

const OTHER: SectBad = SectBad::Torn {
    field: Field::Version,
    found: 256,
    want: 1,
};

const REFUSALS: [Refusal; 10] = [
    (41_471, NEVER, 98, *b"\0\0", Err(SMALL)),
    (41_472, NEVER, 98, *b"\0\0", Ok(1)),
    (58_367, NEVER, 98, *b"\0\0", Ok(1)),
    (92_160, NEVER, 98, *b"\0\0", Ok(4)),
    (LEN, NEVER, 3, *b"B\x01", Err(SectBad::NotFormatted)),
    (LEN, NEVER, 4, *b"\x01\x00", Err(OTHER)),
    // A call of formatting fails, and, behind the write of these bytes, each one of mounting.
    (LEN, 1, 98, *b"\0\0", Err(SectBad::Fault)),
    (LEN, 4, 98, *b"\0\0", Err(SectBad::Fault)),
    (LEN, 5, 98, *b"\0\0", Err(SectBad::Fault)),
    (LEN, 6, 98, *b"\0\0", Err(SectBad::Fault)),
];

/// How many buckets a disk has as a section, or why it isn't one, of which formatting told this:
/// behind a write of the bytes, if it was made a section. Where a call failed it isn't mounted.
fn remounted<D: TestDisk>(
    alloc: Global,
    disk: D,
    made: Result<u32, SectBad>,
    case: &Refusal,
) -> Option<Result<u32, SectBad>> {
    match made {
        Ok(_) => {
            let change = Change::Spoil(&[(case.2, &case.3)]);
            Some(count(alloc, changed(disk, change)?))
        }
        Err(SectBad::Fault) => Some(made),
        Err(_) => Some(count(alloc, disk)),
    }
}

/// Whether a disk is refused as is wanted, and what formatting refuses is refused by mounting.
fn is_refused<D: TestDisk>(alloc: Global, case: &Refusal) -> bool {
    let Some(mut disk) = D::failing(alloc, case.0, &[case.1]) else {
        return false;
    };
    let Some(made) = make(alloc, &mut disk) else {
        return false;
    };
    let found = remounted(alloc, disk, made, case);
    found == Some(case.4) && (made.is_ok() || found == Some(made))
}

/// Each of these disks is mounted or refused. A row is one of `REFUSALS`.
fn refuse<D: TestDisk>(alloc: Global) -> Rows {
    let mut rows = Rows::new();
    for (row, case) in REFUSALS.iter().enumerate() {
        let is_it = is_refused::<D>(alloc, case);
        rows.nth(row, "the buckets of a section, or its refusal", is_it);
    }
    rows
}

#[test]
fn sections_are_refused(rt: HostRuntime) -> Result<(), Fail> {
    refuse::<Made>(rt.alloc()).passes()
}

// ---- buckets that are filled and looked up

/// A bucket of a new section is filled and cleared, where this call fails.
fn fill_fresh<T: TestSection>(alloc: Global, call: u8, answer: Result<(), ShardErr>) -> Rows {
    let mut rows = Rows::new();
    let section = T::made(alloc, LEN, &[u64::from(call)], &[]);
    session(alloc, section, &[Act::FillAndClear(answer)], 0, &mut rows);
    rows
}

/// A new bucket is filled, looked up and cleared, where one call of that fails, and where none does.
fn fill_each<T: TestSection>(alloc: Global) -> Rows {
    let mut rows = Rows::new();
    for call in 6..12u8 {
        let found = fill_fresh::<T>(alloc, call, Err(ShardErr::Fault));
        rows.note(usize::from(call), &found);
    }
    rows.note(12, &fill_fresh::<T>(alloc, 12, Ok(())));
    rows
}

// Each call fails in turn: two of filling, one of the look-up, three of clearing. A row is the call.
#[test]
fn buckets_are_filled_and_cleared(rt: HostRuntime) -> Result<(), Fail> {
    see_in_memory(rt.alloc(), Case::Fills).passes()
}

/// A call that fails, and which of three look-ups of a bucket behind mounting are answered: the
/// first reads the selector and the frame, and another one the frame alone, where the first has read
/// the selector.
const LOOK_UPS: [(u8, [bool; 3]); 5] = [
    (22, [false, true, true]),
    (23, [false, true, true]),
    (24, [true, false, true]),
    (25, [true, true, false]),
    (26, [true, true, true]),
];

/// A bucket is looked up three times, where one call of that fails, and where none does.
fn look_up_thrice<T: TestSection>(alloc: Global) -> Rows {
    let mut rows = Rows::new();
    for (call, [first, second, third]) in &LOOK_UPS {
        let acts = [Act::Found(*first), Act::Found(*second), Act::Found(*third)];
        let found = run::<T>(alloc, u64::from(*call), Change::Nothing, &acts);
        rows.note(usize::from(*call), &found);
    }
    rows
}

// A row is the call.
#[test]
fn a_selector_is_read_once(rt: HostRuntime) -> Result<(), Fail> {
    see_in_memory(rt.alloc(), Case::LookUps).passes()
}

// ---- damage

/// A byte at a place of bucket 0, and what is wanted and found then.
type Damage = (u8, u8, FieldValue, FieldValue);

const DAMAGES: [Damage; 4] = [
    (
        0,
        b'W',
        FieldValue::Magic(*b"VBKT"),
        FieldValue::Magic(*b"WBKT"),
    ),
    (7, 5, FieldValue::Number(0), FieldValue::Number(5)),
    (8, 2, FieldValue::Number(263), FieldValue::Number(512)),
    (9, 1, FieldValue::Number(1), FieldValue::Number(0)),
];

/// A look-up and a writeback tell a damage of bucket 0.
fn damage<T: TestSection>(alloc: Global, (at, byte, want, found): &Damage) -> Rows {
    let bad = ShardErr::Damaged {
        bucket: 0,
        want: *want,
        found: *found,
    };
    let acts = [
        Act::Lost(0, bad),
        Act::Put(None),
        Act::Calls(15),
        Act::UnderWay(Some(0)),
        Act::Refused(0, bad),
    ];
    let change = Change::Spoil(&[(24_576 + u64::from(*at), &[*byte])]);
    run::<T>(alloc, NEVER, change, &acts)
}

/// Each of these damages is told by a look-up. A row is one of `DAMAGES`.
fn tell_damage<T: TestSection>(alloc: Global) -> Rows {
    let mut rows = Rows::new();
    for (row, case) in DAMAGES.iter().enumerate() {
        rows.note(row, &damage::<T>(alloc, case));
    }
    rows
}

#[test]
fn damage_is_told_with_both_values(rt: HostRuntime) -> Result<(), Fail> {
    see_in_memory(rt.alloc(), Case::Damages).passes()
}

/// Bucket 1 is damaged.
const DAMAGED: ShardErr = ShardErr::Damaged {
    bucket: 1,
    want: FieldValue::Magic(*b"VBKT"),
    found: FieldValue::Magic(*b"WBKT"),
};

/// A writeback of both buckets ends with neither written. The next one begins behind the damaged one,
/// and writes bucket 0 by itself before it ends.
const BESIDE: [Act<'static>; 10] = [
    Act::Put(None),
    Act::Calls(16),
    Act::UnderWay(Some(0)),
    Act::Refused(4, DAMAGED),
    Act::Written(0),
    Act::Has(0, &[]),
    Act::Put(Some(1)),
    Act::Refused(5, DAMAGED),
    Act::Written(2),
    Act::Has(0, &[9, 7]),
];

/// The frame of the second bucket is damaged, and entries are written to both.
fn write_beside<T: TestSection>(alloc: Global) -> Rows {
    let change = Change::Spoil(&[(41_472, b"W")]);
    run::<T>(alloc, NEVER, change, &BESIDE)
}

// A row is an act.
#[test]
fn a_damaged_bucket_keeps_no_other_from_being_written(rt: HostRuntime) -> Result<(), Fail> {
    see_in_memory(rt.alloc(), Case::DamagedBucket).passes()
}

// ---- a full group

/// Entries are written to 65 buckets, which are two groups: two reads and two writes for each of
/// them, two syncs for each group, and the four calls of the head. When that is done again no selector
/// is read.
const FULL: [Act<'static>; 9] = [
    Act::Buckets(MANY),
    Act::PutMany,
    Act::Finish(268),
    Act::PutMany,
    Act::Finish(203),
    Act::Has(0, &[0]),
    Act::Has(63, &[63]),
    Act::Has(64, &[64]),
    Act::Has(65, &[]),
];

/// Entries are written to a section of 66 buckets, twice.
fn fill_group<T: TestSection>(alloc: Global) -> Rows {
    let mut rows = Rows::new();
    let section: Option<T> = live(alloc, MANY_LEN, &[NEVER], MANY);
    session(alloc, section, &FULL, 0, &mut rows);
    rows
}

// A row is an act.
#[test]
fn a_group_is_full(rt: HostRuntime) -> Result<(), Fail> {
    see_in_memory(rt.alloc(), Case::FullGroup).passes()
}

// ---- the tests of sections

/// What a test sees.
#[derive(Clone, Copy)]
enum Case {
    /// A writeback is stopped at each of its calls.
    Writeback,
    /// Selectors begin with any bytes.
    Selectors,
    /// What stands on the disk, byte for byte.
    Spelled,
    /// Buckets are filled and cleared, and calls fail.
    Fills,
    /// Calls of look-ups fail.
    LookUps,
    /// Damaged buckets are looked up.
    Damages,
    /// A writeback meets a damaged bucket.
    DamagedBucket,
    /// A writeback fills a group of selectors, and goes on behind it.
    FullGroup,
}

fn see<T: TestSection>(alloc: Global, case: Case) -> Rows {
    match case {
        Case::Writeback => stop_anywhere::<T>(alloc),
        Case::Selectors => select_each::<T>(alloc),
        Case::Spelled => spell::<T>(alloc),
        Case::Fills => fill_each::<T>(alloc),
        Case::LookUps => look_up_thrice::<T>(alloc),
        Case::Damages => tell_damage::<T>(alloc),
        Case::DamagedBucket => write_beside::<T>(alloc),
        Case::FullGroup => fill_group::<T>(alloc),
    }
}

/// The same, of sections of disks in memory.
fn see_in_memory(alloc: Global, case: Case) -> Rows {
    see::<MadeSection>(alloc, case)
}

// ---- the bucket of a score

/// The greatest score, and that of `abc`, as far as it says the bucket.
const LAST: Score = Score([0xff; 20]);

const ABC: Score = Score(
    *b"\xa9\x99\x3e\x36\xff\xff\xff\xff\xff\xff\xff\xff\xff\xff\xff\xff\xff\xff\xff\xff",
);

/// A count of buckets, a score, and its bucket.
const NUMBERS: [(u32, Score, u32); 5] = [
    (1, LAST, 0),
    (2, LAST, 1),
    (u32::MAX, LAST, u32::MAX - 1),
    (4, ABC, 2),
    (1000, ABC, 662),
];

/// Each score has its bucket. A row is one of `NUMBERS`.
fn number_scores() -> Rows {
    let mut rows = Rows::new();
    for (row, (total, score, wanted)) in NUMBERS.iter().enumerate() {
        let number = bucket_number(*total, score);
        rows.nth(row, "the bucket of a score", number == *wanted);
    }
    rows
}

#[test]
fn buckets_go_by_the_first_32_bits(_rt: HostRuntime) -> Result<(), Fail> {
    number_scores().passes()
}
