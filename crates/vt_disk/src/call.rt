//! The device calls of what changes a disk step by step.

ghost use Rattle.std.specs.Prelude.{◌≡◌, IsTrue, None, OnOk};
ghost use Rattle.vt_base.specs.Faults.{HasCause, one_more};
ghost use Rattle.vt_disk.specs.Calls.{WritesAt, MadeCalls, IsSynced};
ghost use Rattle.vt_disk.specs.DeviceCalls.{DeviceCall, call_of, CallFits, TouchedBy, bytes_after, CallMade};
ghost use Rattle.vt_disk.specs.DeviceCalls.DeviceCall.{sync};

use crate::Disk;
use vt_base::Failed;

/// A device call that writes or syncs.
#[derive(Clone, Copy)]
pub enum Call<'a> {
    /// Writes these bytes over what stands from this place of the disk on.
    Write { start: u64, chunk: &'a [u8] },
    /// Syncs the disk.
    Sync,
}

/// Why a step made no device call that succeeded.
#[derive(Clone, Copy, Debug, PartialEq, Eq)]
pub enum CallError {
    /// Its device call failed, and the device's count of faults rose.
    Fault,
    /// The device call of this number, a write or a sync, has failed earlier. The calls are those
    /// that were made step by step, counted from 0; those of mounting aren't among them.
    Stopped(u64),
}

/// How many device calls were made step by step, and the number of the write or the sync among them
/// that failed, counted from 0. Behind that one none is to be made.
#[derive(Clone, Copy, Debug, PartialEq, Eq)]
pub struct CallCount {
    /// A call counts before it is made, so that one that failed is among them.
    pub made: u64,
    /// The number of the call that failed, the last one that was made.
    pub stopped: Option<u64>,
}

impl CallCount {
    /// No call was made, and none failed.
    pub fn new() -> CallCount
        ensures { result ≡ record { made = 0; stopped = None } }
    {
        CallCount {
            made: 0,
            stopped: None,
        }
    }

    /// Counts a call. It is counted before it is made.
    pub fn count(&mut self)
        ensures { self.new ≡ record self.old { made = one_more self.old.made } }
    {
        self.made = self.made.saturating_add(1);
    }

    /// Makes this call, and counts it. One that fails stops the count: it is to be the last.
    pub fn make<D: Disk>(&mut self, disk: &mut D, call: Call<'_>) -> Result<(), Failed>
        requires goes { self.old.stopped ≡ None }
        requires fits { CallFits (call_of call) (D.size disk.old) }
        ensures { CallMade D.Disk (call_of call.entry) result self.old self.new disk.old disk.new }
    {
        let number = self.made;
        self.count();
        match make_call(disk, call) {
            Ok(()) => Ok(()),
            Err(Failed) => {
                self.stopped = Some(number);
                Err(Failed)
            }
        }
    }
}

/// Makes this call, and counts nothing.
fn make_call<D: Disk>(disk: &mut D, call: Call<'_>) -> Result<(), Failed>
    requires { CallFits (call_of call) (D.size disk.old) }
    ensures written { OnOk result (IsTrue D.tells
        → D.bytes disk.new ≡ bytes_after (call_of call.entry) (D.bytes disk.old)) }
    ensures settled { OnOk result (call_of call.entry ≡ sync → IsSynced D.Disk disk.new) }
    ensures writes { WritesAt D.Disk (TouchedBy (call_of call.entry)) 1 disk.old disk.new }
    ensures calls { MadeCalls D.Disk 1 disk.old disk.new }
    ensures cause { HasCause result (D.faults disk.old) (D.faults disk.new) }
{
    match call {
        Call::Write { start, chunk } => disk.write_at(start, chunk),
        Call::Sync => disk.sync(),
    }
}
