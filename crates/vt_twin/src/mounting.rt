//! Formatting a twin, and finding its current frame.

ghost use Rattle.std.specs.Prelude.{◌≡◌, ◌⊎◌, ◌+◌, ◌-◌, ◌*◌, ◌%◌, ◌≤◌, List, ℕ, length, IsTrue, IfOk, OnOk, OnErr};
ghost use Rattle.vt_base.specs.Faults.{HasCause};
ghost use Rattle.vt_disk.specs.Calls.{OnlyReads, WritesWithin, MadeCalls, IsSynced};
ghost use Rattle.vt_twin.specs.Formatting.{EndsFormat};
ghost use Rattle.vt_twin.specs.Frames.{FitsTwin, frame_of, selector_of, selector_len, selector_bytes, named_number, current_frame};
ghost use Rattle.vt_twin.specs.Twin.{fresh};
ghost use Rattle.vt_twin.specs.Sound.{IsSoundTwin};

use crate::Twin;
use crate::calls::write_selector;
use vt_base::Failed;
use vt_disk::{Disk, Region};

/// Writes frame 0 and a selector of zero bytes, and syncs. Frame 1 stays as it is.
pub fn format<D: Disk>(disk: &mut D, region: Region, frame: &[u8]) -> Result<(), Failed>
    requires { FitsTwin region (length frame.now) (D.size disk.old) }

    ensures frame { let n = length frame.now in OnOk result (IsTrue D.tells
        → frame_of region n 0 (D.bytes disk.new) ≡ frame.now) }
    ensures selector { let n = length frame.now in OnOk result (IsTrue D.tells
        → selector_of region n (D.bytes disk.new) ≡ selector_bytes 0 (selector_len region n)) }
    ensures idle { let n = length frame.now in OnOk result (IsTrue D.tells
        → frame_of region n 1 (D.bytes disk.new) ≡ frame_of region n 1 (D.bytes disk.old)) }
    ensures current { let n = length frame.now in OnOk result (IsTrue D.tells
        → current_frame region n (D.bytes disk.new) ≡ frame.now) }
    ensures settled { OnOk result (IsSynced D.Disk disk.new) }

    // Nothing outside the region changes, and nothing is written behind a call that fails.
    ensures writes { WritesWithin D.Disk region 3 disk.old disk.new }
    ensures calls { OnOk result (MadeCalls D.Disk 3 disk.old disk.new) }
    ensures failed { OnErr result ((made : ℕ)
        × EndsFormat D.Disk region frame.now made disk.old disk.new) }
    ensures cause { HasCause result (D.faults disk.old) (D.faults disk.new) }
{
    region.write_at(disk, 0, frame)?;
    write_selector(disk, region, frame.len() as u64, 0)?;
    disk.sync()
}

/// Syncs, and then reads the selector: only what was synced names the current frame for good.
pub fn mount<D: Disk>(disk: &mut D, region: Region, frame_len: u64) -> Result<Twin, Failed>
    requires { FitsTwin region frame_len (D.size disk.old) }

    ensures fresh { IfOk result (λ twin. twin ≡ fresh frame_len twin.current) }
    ensures named { IfOk result (λ twin. IsTrue D.tells
        → twin.current ≡ named_number region frame_len (D.bytes disk.old)) }
    ensures sound { IfOk result (λ twin. IsTrue D.tells
        → IsSoundTwin twin region (current_frame region frame_len (D.bytes disk.old))
        (D.bytes disk.new) (D.images disk.new)) }
    ensures settled { OnOk result (IsSynced D.Disk disk.new) }

    // It writes nothing, and reads nothing behind a sync that fails.
    ensures reads { OnlyReads D.Disk 2 disk.old disk.new }
    ensures calls { OnOk result (MadeCalls D.Disk 2 disk.old disk.new) }
    ensures failed { OnErr result (MadeCalls D.Disk 1 disk.old disk.new
        ⊎ (MadeCalls D.Disk 2 disk.old disk.new × IsSynced D.Disk disk.new)) }
    ensures cause { HasCause result (D.faults disk.old) (D.faults disk.new) }
{
    disk.sync()?;
    let mut selector = [0];
    // (the selector stands behind both frames; its first byte names the current one)
    region.read_at(disk, 2 * frame_len, &mut selector)?;
    Ok(Twin::resume(frame_len, selector[0]))
}
