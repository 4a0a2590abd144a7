//! Filters on disks in memory: formatted, mounted, saved, stopped, crashed and refused.
//!
//! All is said of any disk, which is much less work to prove than for one in memory.

use crate::disks::{FailingDisk, Made, NEVER, in_mode, left_in, read, write};
use std::alloc::Global;
use std::test::Fail;
use vt_base::Score;
use vt_bloom::{Bits, Bloom, BloomError, Field, exponent, format, mount, positions};
use vt_disk::{CallError, Disk};
use vt_memdisk::CrashMode;
use vt_rows::Rows;
use vt_twin::Step;

/// Two frames of 16,384 bytes and a selector of 8,192.
const LEN: u64 = 40_960;

/// The calls before the first one of a save: three of formatting, three of mounting.
const FIRST_CALL: u64 = 6;

/// The score of `abc` (FIPS 180-4).
const A: Score = Score([
    0xa9, 0x99, 0x3e, 0x36, 0x47, 0x06, 0x81, 0x6a, 0xba, 0x3e, 0x25, 0x71, 0x78, 0x50, 0xc2, 0x6c,
    0x9c, 0xd0, 0xd8, 0x9d,
]);

/// It has A's first position and no other one of A's.
const B: Score = Score([
    0xa9, 0x99, 0x3e, 0x36, 0x47, 0x06, 0x81, 0x6a, 0x00, 0x00, 0x00, 0x00, 0x00, 0x00, 0x00, 0x00,
    0x00, 0x00, 0x00, 0x00,
]);

/// Makes a disk a filter of 8,192 bytes and 3 bits a score.
fn format_least<D: Disk>(alloc: Global, disk: &mut D) -> Result<(), BloomError> {
    format(alloc, disk, 8192, 3)
}

/// What a filter tells: its m and k, its mark, and whether it may have A and B.
type Told = (u8, u8, u64, bool, bool);

fn told<D: Disk>(bloom: &Bloom<D>, bits: &Bits) -> Told {
    let (has_a, has_b) = may_have(bits);
    (bloom.m(), bloom.k(), bloom.mark(), has_a, has_b)
}

/// Whether bits may have A, and whether they may have B.
fn may_have(bits: &Bits) -> (bool, bool) {
    (bits.may_have(&A), bits.may_have(&B))
}

/// What the filter of a disk tells, or why the disk isn't mounted.
fn mounted<D: Disk + Drop>(alloc: Global, disk: D) -> Result<Told, BloomError> {
    match mount(alloc, disk) {
        Ok((bloom, bits)) => Ok(told(&bloom, &bits)),
        Err((bad, _disk)) => Err(bad),
    }
}

/// A filter of which a save is under way. What is done to it is proved for any such filter, which
/// is much less work than for one on a device.
trait Saves {
    /// Makes one device call of the save: None where none is under way.
    fn step(&mut self) -> Option<Result<Step, CallError>>;

    /// Whether a save is under way, the number of the call that stopped it, and the mark.
    fn standing(&self) -> (bool, Option<u64>, u64);
}

impl<D: Disk> Saves for Bloom<D> {
    fn step(&mut self) -> Option<Result<Step, CallError>> {
        if !self.saving() {
            return None;
        }
        Some(self.advance())
    }

    fn standing(&self) -> (bool, Option<u64>, u64) {
        (self.saving(), self.stopped(), self.mark())
    }
}

/// Makes so many device calls and one further. None where one before that doesn't give More.
fn step_after<F: Saves>(filter: &mut F, calls: u64) -> Option<Result<Step, CallError>> {
    for _ in 0..calls {
        if filter.step() != Some(Ok(Step::More)) {
            return None;
        }
    }
    filter.step()
}

/// What comes of a save that ends with this call: the answer to it, and how the save stands then.
fn end(call: u64, fails: bool) -> (Option<Result<Step, CallError>>, (bool, Option<u64>, u64)) {
    if fails {
        (Some(Err(CallError::Fault)), (true, Some(call), 0))
    } else if call < 3 {
        (Some(Ok(Step::More)), (true, None, 0))
    } else {
        (Some(Ok(Step::Done)), (false, None, 1))
    }
}

/// Makes the calls of a save up to this one. Where it fails, the save goes no further.
fn stop<F: Saves>(rows: &mut Rows, row: usize, filter: &mut F, call: u64, fails: bool) {
    let (answer, standing) = end(call, fails);
    let last = step_after(filter, call);
    rows.nth(row, "the answer to the last call", last == answer);
    if fails {
        let is_stopped = filter.step() == Some(Err(CallError::Stopped(call)));
        rows.nth(row, "the answer behind a call that failed", is_stopped);
    }
    let stands = filter.standing() == standing;
    rows.nth(
        row,
        "whether a save is under way, what stopped it, and the mark",
        stands,
    );
}

/// Begins to save A and the mark 1. Whether it may begin.
fn begin<D: Disk>(bloom: &mut Bloom<D>, mut bits: Bits) -> bool {
    bits.mark_bits(&A);
    let fits = bits.m() == bloom.m() && bits.k() == bloom.k();
    if bloom.saving() || !fits {
        return false;
    }
    bloom.save(&bits, 1);
    true
}

/// The disk of a new filter to which A is saved up to this call. None where it isn't made, or no
/// save may begin.
fn saved<D: Disk + Drop>(
    rows: &mut Rows,
    alloc: Global,
    mut disk: D,
    row: usize,
    (call, fails): (u64, bool),
) -> Option<D> {
    format_least(alloc, &mut disk).ok()?;
    let Ok((mut bloom, bits)) = mount(alloc, disk) else {
        return None;
    };
    let new = told(&bloom, &bits);
    if !begin(&mut bloom, bits) {
        return None;
    }
    stop(rows, row, &mut bloom, call, fails);
    rows.nth(row, "the new filter", new == OLD);
    Some(bloom.into_devices())
}

/// Whether these are the three positions of a score among 2^16 bits.
fn has_positions(score: &Score, wanted: &[u32; 3]) -> bool {
    positions(score, 16, 3).as_slice() == wanted.as_slice()
}

/// Marks A in bits that have none.
fn mark(rows: &mut Rows, bits: &mut Bits) {
    rows.is("A isn't there at first", !bits.may_have(&A));
    bits.mark_bits(&A);
    rows.is("A is there, and B isn't", may_have(bits) == (true, false));
}

/// Makes bits with A of the words of others.
fn remake(rows: &mut Rows, bits: Bits) {
    let (m, k) = (bits.m(), bits.k());
    rows.is("the counts of bits", (m, k) == (16, 3));
    // Position 33130 is bit 42 of word 517.
    rows.is("the count of words", bits.words().len() == 1024);
    let words = bits.into_words();
    let word = words.get(517).copied();
    rows.is("the word of a position", word == Some(1 << 42));
    let bits = Bits::from_words(m, k, words);
    let found = may_have(&bits);
    rows.is("the words have A, and not B", found == (true, false));
}

#[test]
fn a_score_has_positions(rt: HostRuntime) -> Result<(), Fail> {
    let mut bits = Bits::new(rt.alloc(), 16, 3)?;
    let mut rows = Rows::new();
    let of_a = has_positions(&A, &[33130, 17367, 1604]);
    rows.is("the positions of A", of_a);
    let of_b = has_positions(&B, &[33130, 33131, 33132]);
    rows.is("the positions of B", of_b);
    mark(&mut rows, &mut bits);
    remake(&mut rows, bits);
    rows.passes()
}

/// The bytes of a filter, and its m, if a filter may have that size.
const SIZES: [(u64, Option<u8>); 7] = [
    (8192, Some(16)),
    (16_384, Some(17)),
    (1_048_576, Some(23)),
    (4096, None),
    (8193, None),
    (2_097_152, None),
    (0, None),
];

#[test]
fn a_filter_has_one_size(rt: HostRuntime) -> Result<(), Fail> {
    let mut rows = Rows::new();
    for (row, (size, m)) in SIZES.iter().enumerate() {
        rows.nth(row, "the m of the size", exponent(*size) == *m);
    }
    rows.passes()
}

/// The frame of a filter, by hand: a new one, or one with A and the mark 1.
fn spelled(has_a: bool) -> [u8; 16_384] {
    let mut frame = [0; 16_384];
    frame[..8].copy_from_slice(b"VBLM\x00\x01\x10\x03");
    if has_a {
        frame[15] = 1;
        frame[8399] = 0x10;
        frame[10_365] = 0x80;
        frame[12_330] = 0x04;
    }
    frame
}

/// Saves A to a new filter, and sees its bytes. None where it isn't saved.
fn spell<D: FailingDisk>(rows: &mut Rows, alloc: Global) -> Option<()> {
    let disk = D::failing_at(alloc, LEN, &[])?;
    let mut disk = saved(rows, alloc, disk, 0, (3, false))?;
    // The frame that formatting wrote stands beside the new one, which the selector names.
    let old = read(&mut disk, 0);
    let new = read(&mut disk, 16_384);
    let selector = read(&mut disk, 32_768);
    let found = mounted(alloc, disk);
    rows.is("the frame of the new filter", old == Some(spelled(false)));
    rows.is("the frame of the saved filter", new == Some(spelled(true)));
    rows.is("what begins the selector", selector == Some([1, 0]));
    rows.is("the saved filter", found == Ok(NEW));
    Some(())
}

#[test]
fn a_frame_is_spelled(rt: HostRuntime) -> Result<(), Fail> {
    let mut rows = Rows::new();
    let is_done = spell::<Made>(&mut rows, rt.alloc()).is_some();
    rows.is("a filter is saved", is_done);
    rows.passes()
}

/// What the filter tells behind a save up to this call, and a crash.
fn crashed<D: FailingDisk>(
    rows: &mut Rows,
    alloc: Global,
    row: usize,
    (call, fails): (u64, bool),
    mode: CrashMode,
) -> Option<Told> {
    let failing_call = if fails {
        call.saturating_add(FIRST_CALL)
    } else {
        NEVER
    };
    let disk = D::failing_at(alloc, LEN, &[failing_call])?;
    let disk = saved(rows, alloc, disk, row, (call, fails))?;
    mounted(alloc, disk.crashed_in(mode)).ok()
}

/// Ends a save with this call and crashes, in each mode: whether the filter is the new one then, which
/// has the mark 1 and A, and else the old one.
fn crash<D: FailingDisk>(
    rows: &mut Rows,
    alloc: Global,
    row: usize,
    end: (u64, bool),
    is_new: &[bool; 4],
) {
    for mode in &CrashMode::ALL {
        let found = crashed::<D>(rows, alloc, row, end, *mode);
        let wanted = if in_mode(*mode, is_new) { NEW } else { OLD };
        rows.nth(row, left_in(*mode), found == Some(wanted));
    }
}

/// What both filters tell.
const OLD: Told = (16, 3, 0, false, false);

const NEW: Told = (16, 3, 1, true, false);

// The call at which a save ends, whether it fails, and in which modes a crash then leaves the new
// filter.
const ENDS: [(u64, bool, [bool; 4]); 8] = [
    (0, true, [false, false, false, false]),
    (0, false, [false, false, false, false]),
    (1, true, [false, false, false, false]),
    (1, false, [false, false, false, false]),
    (2, true, [false, false, false, true]),
    (2, false, [false, true, true, true]),
    (3, true, [false, true, true, true]),
    (3, false, [true, true, true, true]),
];

/// A save ends in each of these ways, and there is a crash. A row is one of `ENDS`.
fn stop_anywhere<D: FailingDisk>(alloc: Global) -> Rows {
    let mut rows = Rows::new();
    for (row, (call, fails, is_new)) in ENDS.iter().enumerate() {
        crash::<D>(&mut rows, alloc, row, (*call, *fails), is_new);
    }
    rows
}

#[test]
fn a_save_is_stopped_anywhere(rt: HostRuntime) -> Result<(), Fail> {
    stop_anywhere::<Made>(rt.alloc()).passes()
}

/// Whether a disk of this length that begins with these bytes has a filter that tells this, or isn't
/// mounted for this cause, where this call of it fails. Call 0 writes the bytes.
fn mounts<D: FailingDisk>(
    alloc: Global,
    (len, failing_call, start): (u64, u64, &[u8; 8]),
    wanted: Result<Told, BloomError>,
) -> bool {
    let Some(mut disk) = D::failing_at(alloc, len, &[failing_call]) else {
        return false;
    };
    write(&mut disk, 0, start) == Some(Ok(())) && mounted(alloc, disk) == wanted
}

/// Why a disk that is a byte too short is refused.
const TOO_SMALL: BloomError = BloomError::TooSmall {
    len: 40_959,
    need: LEN,
};

fn torn(field: Field, found: u64, want: u64) -> BloomError {
    BloomError::Torn { field, found, want }
}

#[test]
fn the_first_fault_is_told(rt: HostRuntime) -> Result<(), Fail> {
    let mut rows = Rows::new();
    // The length says how large the filter is, and not the field.
    let table = [
        (40_959, NEVER, b"\0\0\0\0\0\0\0\0", Err(TOO_SMALL)),
        (LEN, 1, b"\0\0\0\0\0\0\0\0", Err(BloomError::Fault)),
        (LEN, 2, b"\0\0\0\0\0\0\0\0", Err(BloomError::Fault)),
        (LEN, 3, b"\0\0\0\0\0\0\0\0", Err(BloomError::Fault)),
        (
            LEN,
            NEVER,
            b"\0\0\0\0\0\0\0\0",
            Err(BloomError::NotFormatted),
        ),
        (LEN, NEVER, b"VBLM\0\0\0\0", Err(torn(Field::Version, 0, 1))),
        (LEN, NEVER, b"VBLM\0\x01\0\0", Err(torn(Field::M, 0, 16))),
        (
            57_344,
            NEVER,
            b"VBLM\0\x01\x10\0",
            Err(torn(Field::M, 16, 17)),
        ),
        (LEN, NEVER, b"VBLM\0\x01\x10\0", Err(torn(Field::K, 0, 32))),
        (
            LEN,
            NEVER,
            b"VBLM\0\x01\x10\x21",
            Err(torn(Field::K, 33, 32)),
        ),
        (
            57_343,
            NEVER,
            b"VBLM\0\x01\x10\x20",
            Ok((16, 32, 0, false, false)),
        ),
    ];
    for (row, (len, failing_call, start, wanted)) in table.iter().enumerate() {
        let is_it = mounts::<Made>(rt.alloc(), (*len, *failing_call, start), *wanted);
        rows.nth(row, "the filter, or the refusal", is_it);
    }
    rows.passes()
}

/// Whether this is the answer to formatting a disk of this length, of which this call fails.
fn answers<D: FailingDisk>(
    alloc: Global,
    len: u64,
    failing_call: u64,
    answer: Result<(), BloomError>,
) -> bool {
    match D::failing_at(alloc, len, &[failing_call]) {
        Some(mut disk) => format_least(alloc, &mut disk) == answer,
        None => false,
    }
}

#[test]
fn formatting_is_refused(rt: HostRuntime) -> Result<(), Fail> {
    let mut rows = Rows::new();
    let table = [
        (40_959, NEVER, Err(TOO_SMALL)),
        (57_344, NEVER, Err(torn(Field::M, 16, 17))),
        (LEN, 0, Err(BloomError::Fault)),
        (LEN, 1, Err(BloomError::Fault)),
        (LEN, 2, Err(BloomError::Fault)),
        (LEN, 3, Ok(())),
    ];
    for (row, (len, failing_call, answer)) in table.iter().enumerate() {
        let is_it = answers::<Made>(rt.alloc(), *len, *failing_call, *answer);
        rows.nth(row, "the answer", is_it);
    }
    rows.passes()
}
