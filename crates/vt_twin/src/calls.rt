//! The device calls of a change.

ghost use Rattle.std.specs.Prelude.{◌≡◌, ◌+◌, ◌-◌, ◌*◌, ◌^◌, ◌<◌, ◌≤◌, IsTrue, OnOk};
ghost use Rattle.vt_base.specs.Faults.{HasCause};
ghost use Rattle.vt_disk.specs.Calls.{WritesAt, MadeCalls};
ghost use Rattle.vt_disk.specs.DeviceCalls.{call_of};
ghost use Rattle.vt_disk.specs.DeviceCalls.DeviceCall.{write};
ghost use Rattle.vt_disk.specs.Disk.{Touches};
ghost use Rattle.vt_twin.specs.Frames.{FitsTwin, selector_start, selector_len, selector_bytes, with_selector};
ghost use Rattle.vt_twin.specs.Calls.{stage_number, next_stage};

use vt_base::Failed;
use vt_disk::{BLOCK_LEN, Call, Disk, Region};

/// How far a change has come: its next device call.
#[derive(Clone, Copy, Debug, PartialEq, Eq)]
pub enum Stage {
    /// It writes the idle frame.
    WriteFrame,
    /// It syncs that frame, so that no selector names it before it is whole.
    SyncFrame,
    /// It writes the selector that names that frame.
    WriteSelector,
    /// It syncs the selector; behind it, that frame is the current one.
    SyncSelector,
}

/// What comes behind this call, if it isn't the last.
pub fn next(stage: Stage) -> Option<Stage>
    ensures { result ≡ next_stage stage }
{
    match stage {
        Stage::WriteFrame => Some(Stage::SyncFrame),
        Stage::SyncFrame => Some(Stage::WriteSelector),
        Stage::WriteSelector => Some(Stage::SyncSelector),
        Stage::SyncSelector => None,
    }
}

/// How many calls are left before this one was made.
pub fn left(stage: Stage) -> u64
    ensures all { result + stage_number stage ≡ 4 }
    ensures some { 0 < result }
{
    match stage {
        Stage::WriteFrame => 4,
        Stage::SyncFrame => 3,
        Stage::WriteSelector => 2,
        Stage::SyncSelector => 1,
    }
}

/// A selector that names this frame, as long as the longest one: a region's has its first bytes.
pub fn selector_naming(number: u8) -> [u8; BLOCK_LEN]
    ensures { result ≡ selector_bytes number BLOCK_LEN }
{
    let mut selector = [0; BLOCK_LEN];
    selector[0] = number;
    selector
}

/// The call that writes the selector that names this frame: the first bytes of the longest one.
pub fn selector_call<'a>(
    region: Region,
    frame_len: u64,
    number: u8,
    selector: &'a [u8; BLOCK_LEN],
) -> Call<'a>
    requires end { region.start + region.len < 2 ^ 64 }
    requires least { 2 * frame_len < region.len }
    requires most { region.len ≤ 2 * frame_len + BLOCK_LEN }
    requires names { selector.now ≡ selector_bytes number BLOCK_LEN }
    ensures { call_of result ≡ write (selector_start region frame_len)
        (selector_bytes number (selector_len region frame_len)) }
{
    let len = (region.len - 2 * frame_len) as usize;
    // (the selector, behind both frames)
    region.write_call(2 * frame_len, &selector[..len])
}

/// Writes the whole selector, so that it names this frame.
pub fn write_selector<D: Disk>(
    disk: &mut D,
    region: Region,
    frame_len: u64,
    number: u8,
) -> Result<(), Failed>
    requires { FitsTwin region frame_len (D.size disk.old) }
    ensures writes { WritesAt D.Disk
        (Touches (selector_start region frame_len) (selector_len region frame_len)) 1
        disk.old disk.new }
    ensures written { OnOk result (IsTrue D.tells → D.bytes disk.new
        ≡ with_selector region frame_len number (D.bytes disk.old)) }
    ensures calls { MadeCalls D.Disk 1 disk.old disk.new }
    ensures cause { HasCause result (D.faults disk.old) (D.faults disk.new) }
{
    let selector = selector_naming(number);
    let len = (region.len - 2 * frame_len) as usize;
    // (the selector, behind both frames)
    region.write_at(disk, 2 * frame_len, &selector[..len])
}
