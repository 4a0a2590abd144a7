//! Twins on disks in memory: changed, stopped, crashed and mounted again.
//!
//! All is said of any disk, which is much less work to prove than for one in memory.

ghost use Rattle.std.specs.Prelude.{◌≡◌, IsSome, true};

use crate::disks::{FailingDisk, Made, NEVER, in_mode, left_in, read};
use std::alloc::Global;
use std::test::Fail;
use vt_base::Bytes;
use vt_disk::{CallCount, Disk, Region};
use vt_memdisk::CrashMode;
use vt_rows::Rows;
use vt_twin::{Step, Twin, TwinErr, format, mount};

/// The bytes of a disk.
const LEN: u64 = 2560;

/// Two frames of 512 bytes and a selector of 512, with 512 bytes before them and 512 behind.
const REGION: Region = Region {
    start: 512,
    len: 1536,
};

type Frame = [u8; 512];

/// The frame that is there at first, the one that a change writes, and the next one.
const OLD: Frame = [1; 512];

const NEW: Frame = [2; 512];

const NEXT: Frame = [3; 512];

/// The calls before a change's first one: two of the test's, three of formatting, two of mounting.
const FIRST_CALL: u64 = 7;

/// A twin that a test changes. What is done to it is proved for any such twin, which is much less
/// work than for one on a disk.
trait Changes {
    /// Begins a change to this frame. Whether none is under way.
    fn begin(&mut self, alloc: Global, frame: &Frame) -> bool;

    /// Makes one call of a change: None where none is under way.
    fn step(&mut self) -> Option<Result<Step, TwinErr>>;

    /// The current frame, if it can be read.
    fn frame(&mut self) -> Option<Frame>;

    /// The count of its calls.
    fn calls(&self) -> CallCount;

    /// The buffer that is handed back.
    fn idle(&mut self) -> Option<Bytes>;
}

/// A disk with a twin, the twin, and the count of its calls.
#[derive(Drop)]
struct Rig<D: Disk> {
    disk: D,
    twin: Twin,
    calls: CallCount,
    ghost sized: { D.size disk ≡ 2560 },
    ghost len: { twin.frame_len ≡ 512 },
    ghost lent: { twin.failed ≡ true → IsSome calls.stopped },
}

impl<D: Disk + Drop> Rig<D> {
    /// A disk that is given a twin with the old frame, among other bytes.
    fn new(mut disk: D) -> Option<Self> {
        if disk.len() != LEN {
            return None;
        }
        disk.write_at(0, &[7; 2560]).ok()?;
        disk.sync().ok()?;
        format(&mut disk, REGION, &OLD).ok()?;
        Rig::mounted(disk)
    }

    /// A disk with the twin that is there.
    fn mounted(mut disk: D) -> Option<Self> {
        if disk.len() != LEN {
            return None;
        }
        match mount(&mut disk, REGION, 512) {
            Ok(twin) => Some(Rig {
                disk,
                twin,
                calls: CallCount::new(),
            }),
            Err(_) => None,
        }
    }
}

impl<D: Disk + Drop> Changes for Rig<D> {
    fn begin(&mut self, alloc: Global, frame: &Frame) -> bool {
        let Ok(frame) = Bytes::copy_of(alloc, frame) else {
            return false;
        };
        if self.twin.is_changing() {
            return false;
        }
        self.twin.begin(frame);
        true
    }

    fn step(&mut self) -> Option<Result<Step, TwinErr>> {
        if !self.twin.is_changing() {
            return None;
        }
        Some(self.twin.advance(&mut self.calls, &mut self.disk, REGION))
    }

    fn frame(&mut self) -> Option<Frame> {
        let mut frame = [0; 512];
        let start = 512 * u64::from(self.twin.current());
        REGION.read_at(&mut self.disk, start, &mut frame).ok()?;
        Some(frame)
    }

    fn calls(&self) -> CallCount {
        self.calls
    }

    fn idle(&mut self) -> Option<Bytes> {
        self.twin.idle()
    }
}

/// Makes so many calls of a change, and one further call. None where one before that doesn't give
/// More.
fn step_after<T: Changes>(twin: &mut T, calls: u64) -> Option<Result<Step, TwinErr>> {
    for _ in 0..calls {
        if twin.step() != Some(Ok(Step::More)) {
            return None;
        }
    }
    twin.step()
}

/// Makes so many calls of a change and one further, which fails where that is said: it goes no
/// further then, and leaves the old frame.
fn stop<T: Changes>(rows: &mut Rows, row: usize, twin: &mut T, call: u64, fails: bool) {
    let last = step_after(twin, call);
    let count = CallCount {
        made: call.saturating_add(1),
        stopped: if fails { Some(call) } else { None },
    };
    rows.nth(row, "the count of the calls", twin.calls() == count);
    if !fails {
        rows.nth(row, "the last call is made", matches!(last, Some(Ok(_))));
        return;
    }
    let again = twin.step();
    let frame = twin.frame();
    rows.nth(
        row,
        "the answer to a call that fails",
        last == Some(Err(TwinErr::Fault)),
    );
    rows.nth(
        row,
        "the answer behind a call that failed",
        again == Some(Err(TwinErr::Stopped(call))),
    );
    rows.nth(row, "the count behind it", twin.calls() == count);
    rows.nth(
        row,
        "the frame behind a call that failed",
        frame == Some(OLD),
    );
}

/// Changes the frame to this one, and takes the buffer again.
fn change<T: Changes>(rows: &mut Rows, row: usize, alloc: Global, twin: &mut T, frame: &Frame) {
    rows.nth(row, "the change begins", twin.begin(alloc, frame));
    let last = step_after(twin, 3);
    rows.nth(row, "the change's last call", last == Some(Ok(Step::Done)));
    let found = twin.frame();
    rows.nth(row, "the frame behind the change", found == Some(*frame));
    let is_buffer = is_bytes(twin.idle(), frame);
    rows.nth(row, "the buffer that is handed back", is_buffer);
    let is_gone = twin.idle().is_none();
    rows.nth(row, "no buffer is handed back twice", is_gone);
}

/// Whether a buffer is there, with these bytes.
fn is_bytes(buffer: Option<Bytes>, bytes: &Frame) -> bool {
    match buffer {
        Some(buffer) => buffer.as_slice() == bytes.as_slice(),
        None => false,
    }
}

/// Notes of a twin whose selector begins with this byte whether its current frame is this one, and
/// nothing is under way.
fn see_resumed(rows: &mut Rows, row: usize, selector: u8, current: u8) {
    let mut twin = Twin::resume(512, selector);
    rows.nth(row, "the current frame", twin.current() == current);
    rows.nth(row, "no change is under way", !twin.is_changing());
    rows.nth(row, "no buffer is there", twin.idle().is_none());
    rows.nth(row, "no call is left", twin.calls_left() == 0);
}

#[test]
fn a_byte_names_a_frame(rt: HostRuntime) -> Result<(), Fail> {
    let mut rows = Rows::new();
    let table = [(0x00, 0), (0xfe, 0), (0x01, 1), (0x7f, 1)];
    for (row, (selector, current)) in table.iter().enumerate() {
        see_resumed(&mut rows, row, *selector, *current);
    }
    rows.passes()
}

/// The disk of a change that ends with this call.
fn stopped<D: Disk + Drop>(
    rows: &mut Rows,
    alloc: Global,
    disk: D,
    row: usize,
    (call, fails): (u64, bool),
) -> Option<D> {
    let mut rig = Rig::new(disk)?;
    rows.nth(row, "the change begins", rig.begin(alloc, &NEW));
    stop(rows, row, &mut rig, call, fails);
    let Rig {
        disk,
        twin: _,
        calls: _,
    } = rig;
    Some(disk)
}

/// The frame of the twin of a disk.
fn frame<D: Disk + Drop>(disk: D) -> Option<Frame> {
    Rig::mounted(disk)?.frame()
}

/// The frame behind a change that ends with this call, and a crash.
fn crashed<D: FailingDisk>(
    rows: &mut Rows,
    alloc: Global,
    row: usize,
    (call, fails): (u64, bool),
    mode: CrashMode,
) -> Option<Frame> {
    let failing_call = if fails {
        call.saturating_add(FIRST_CALL)
    } else {
        NEVER
    };
    let disk = D::failing_at(alloc, LEN, &[failing_call])?;
    let disk = stopped(rows, alloc, disk, row, (call, fails))?;
    frame(disk.crashed_in(mode))
}

/// Ends a change with this call and crashes, in each mode: whether the new frame is there then, and
/// else the old one.
fn crash<D: FailingDisk>(
    rows: &mut Rows,
    alloc: Global,
    row: usize,
    end: (u64, bool),
    is_new: &[bool; 4],
) {
    for mode in &CrashMode::ALL {
        let found = crashed::<D>(rows, alloc, row, end, *mode);
        let wanted = if in_mode(*mode, is_new) { NEW } else { OLD };
        rows.nth(row, left_in(*mode), found == Some(wanted));
    }
}

// The call at which a change ends, whether it fails, and in which modes a crash then leaves the new
// frame.
const ENDS: [(u64, bool, [bool; 4]); 8] = [
    (0, true, [false, false, false, false]),
    (0, false, [false, false, false, false]),
    (1, true, [false, false, false, false]),
    (1, false, [false, false, false, false]),
    (2, true, [false, false, false, true]),
    (2, false, [false, true, true, true]),
    (3, true, [false, true, true, true]),
    (3, false, [true, true, true, true]),
];

/// A change ends in each of these ways, and there is a crash. A row is one of `ENDS`.
fn stop_anywhere<D: FailingDisk>(alloc: Global) -> Rows {
    let mut rows = Rows::new();
    for (row, (call, fails, is_new)) in ENDS.iter().enumerate() {
        crash::<D>(&mut rows, alloc, row, (*call, *fails), is_new);
    }
    rows
}

#[test]
fn a_change_is_stopped_anywhere(rt: HostRuntime) -> Result<(), Fail> {
    stop_anywhere::<Made>(rt.alloc()).passes()
}

/// Changes a frame twice, and sees the disk byte for byte: what lies outside stays, and the
/// selector is its number and zeros. None where there is no twin.
fn change_twice<D: FailingDisk>(rows: &mut Rows, alloc: Global) -> Option<()> {
    let mut rig = Rig::new(D::failing_at(alloc, LEN, &[])?)?;
    change(rows, 0, alloc, &mut rig, &NEW);
    let number = rig.twin.current();
    change(rows, 1, alloc, &mut rig, &NEXT);
    let Rig {
        mut disk,
        twin: _,
        calls: _,
    } = rig;
    rows.is("the frame behind the first change", number == 1);
    rows.is("the disk's bytes", read(&mut disk, 0) == Some(changed()));
    Some(())
}

/// The bytes of a disk whose frame was changed twice.
fn changed() -> [u8; 2560] {
    let mut bytes = [7; 2560];
    bytes[512..1024].copy_from_slice(&NEXT);
    bytes[1024..1536].copy_from_slice(&NEW);
    bytes[1536..2048].copy_from_slice(&[0; 512]);
    bytes
}

#[test]
fn changes_follow_one_another(rt: HostRuntime) -> Result<(), Fail> {
    let mut rows = Rows::new();
    let is_done = change_twice::<Made>(&mut rows, rt.alloc()).is_some();
    rows.is("a twin is mounted", is_done);
    rows.passes()
}
