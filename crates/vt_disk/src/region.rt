//! A bounded part of a disk.

ghost use Rattle.std.specs.Prelude.{◌≡◌, ◌+◌, ◌^◌, ◌<◌, ◌≤◌, length, IsTrue, OnOk};
ghost use Rattle.vt_base.specs.Faults.{HasCause};
ghost use Rattle.vt_disk.specs.Calls.{OnlyReads, WritesAt, MadeCalls};
ghost use Rattle.vt_disk.specs.DeviceCalls.{call_of};
ghost use Rattle.vt_disk.specs.DeviceCalls.DeviceCall.{write};
ghost use Rattle.vt_disk.specs.Disk.{Touches, part, with_bytes, AreAmong};
ghost use Rattle.vt_disk.specs.Region.{FitsDisk};

use crate::{Call, Disk};
use vt_base::Failed;

/// A bounded part of a disk, as two numbers. What works on it is handed the disk beside it, so that
/// its contract speaks of the whole disk: of what the region holds, and that the rest stays.
#[derive(Clone, Copy, Debug, PartialEq, Eq)]
pub struct Region {
    /// The disk's byte at which it begins.
    pub start: u64,
    /// How many bytes it has.
    pub len: u64,
}

impl Region {
    /// The call that writes from a place in the region on, counted from its start. It is made by
    /// `CallCount::make`, which asks that it fits the disk: that it lies in the region is for the
    /// caller to show.
    pub fn write_call<'a>(self, at: u64, chunk: &'a [u8]) -> Call<'a>
        requires { self.start + at < 2 ^ 64 }
        ensures { call_of result ≡ write (self.start + at) chunk.now }
    {
        Call::Write {
            start: self.start + at,
            chunk,
        }
    }

    /// Reads from a place in the region, counted from its start.
    pub fn read_at<D: Disk>(self, disk: &mut D, at: u64, buf: &mut [u8]) -> Result<(), Failed>
        requires region { FitsDisk self (D.size disk.old) }
        requires within { at + length buf.old ≤ self.len }
        ensures reads { OnlyReads D.Disk 1 disk.old disk.new }
        ensures read { OnOk result (IsTrue D.tells
            → buf.new ≡ part (self.start + at) (length buf.old) (D.bytes disk.old)) }
        ensures calls { MadeCalls D.Disk 1 disk.old disk.new }
        ensures cause { HasCause result (D.faults disk.old) (D.faults disk.new) }
    {
        disk.read_at(self.start + at, buf)
    }

    /// Writes from a place in the region on, counted from its start.
    pub fn write_at<D: Disk>(self, disk: &mut D, at: u64, chunk: &[u8]) -> Result<(), Failed>
        requires region { FitsDisk self (D.size disk.old) }
        requires within { at + length chunk.now ≤ self.len }
        ensures writes { WritesAt D.Disk (Touches (self.start + at) (length chunk.now)) 1
            disk.old disk.new }
        ensures written { OnOk result (IsTrue D.tells
            → D.bytes disk.new ≡ with_bytes (self.start + at) chunk.now (D.bytes disk.old)) }
        ensures kept { AreAmong (D.images disk.old) (D.images disk.new) }
        ensures calls { MadeCalls D.Disk 1 disk.old disk.new }
        ensures cause { HasCause result (D.faults disk.old) (D.faults disk.new) }
    {
        disk.write_at(self.start + at, chunk)
    }
}
