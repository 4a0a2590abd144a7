//! Formatting a device for a filter.

ghost use Rattle.std.specs.Prelude.{◌≡◌, ◌≢◌, ℕ, List, IsTrue, IfErr, OnOk, Err};
ghost use Rattle.vt_base.specs.Faults.{CountsFault};
ghost use Rattle.vt_disk.specs.Calls.{WritesWithin, MadeCalls, IsSynced};
ghost use Rattle.vt_twin.specs.Formatting.{EndsFormat};
ghost use Rattle.vt_twin.specs.Frames.{frame_of, selector_of, selector_len, selector_bytes};
ghost use Rattle.vt_bloom.specs.declared.error.BloomError.{BloomError};
ghost use Rattle.vt_bloom.specs.Bits.{AreCounts};
ghost use Rattle.vt_bloom.specs.Faults.{RefusesFilterFormat, is_filter_fault};
ghost use Rattle.vt_bloom.specs.Frame.{HasSaved, empty_of, saved_frame};
ghost use Rattle.vt_bloom.specs.Size.{IsFilterSize, IsLargest, filter_frame_len, filter_region};

use crate::LEAST_LEN;
use crate::bits::Bits;
use crate::error::{BloomError, Field};
use crate::frame::encoded;
use crate::size::{exponent, filter_frame_len, largest, region};
use std::alloc::Global;
use vt_base::{Bytes, Failed};
use vt_disk::Disk;

/// Makes the device one with a filter of this many bytes, of which each score has k bits. None is
/// set, and the mark is 0. The size has to be the largest that the device has room for.
pub fn format<D: Disk>(alloc: Global, disk: &mut D, size: u64, k: u8) -> Result<(), BloomError>
    requires { (m : ℕ) × IsFilterSize m size × AreCounts m k }

    // Whatever a crash leaves from then on, it leaves this filter.
    ensures saved { OnOk result (IsTrue D.tells → (m : ℕ) → IsFilterSize m size
        → (c : List ℕ) → D.images disk.new c → HasSaved (empty_of m k) c) }
    ensures settled { OnOk result (IsSynced D.Disk disk.new) }

    // What it writes, and that the other frame stays as it is.
    ensures frame { OnOk result (IsTrue D.tells → (m : ℕ) → IsFilterSize m size
        → frame_of (filter_region m) (filter_frame_len m) 0 (D.bytes disk.new)
        ≡ saved_frame (empty_of m k)) }
    ensures selector { OnOk result (IsTrue D.tells → (m : ℕ) → IsFilterSize m size
        → selector_of (filter_region m) (filter_frame_len m) (D.bytes disk.new)
        ≡ selector_bytes 0 (selector_len (filter_region m) (filter_frame_len m))) }
    ensures idle { OnOk result (IsTrue D.tells → (m : ℕ) → IsFilterSize m size
        → frame_of (filter_region m) (filter_frame_len m) 1 (D.bytes disk.new)
        ≡ frame_of (filter_region m) (filter_frame_len m) 1 (D.bytes disk.old)) }

    ensures largest { OnOk result ((m : ℕ) → IsFilterSize m size → IsLargest (D.size disk.old) m) }
    ensures refused { IfErr result (RefusesFilterFormat (D.size disk.old) size) }
    ensures untouched { IfErr result (λ bad. bad ≢ BloomError.Fault → disk.new ≡ disk.old) }

    // Nothing behind the filter changes, and nothing is written behind a call that fails.
    ensures writes { (m : ℕ) → IsFilterSize m size
        → WritesWithin D.Disk (filter_region m) 3 disk.old disk.new }
    ensures calls { OnOk result (MadeCalls D.Disk 3 disk.old disk.new) }
    ensures failed { result ≡ Err BloomError.Fault → (m : ℕ) → IsFilterSize m size → (made : ℕ)
        × EndsFormat D.Disk (filter_region m) (saved_frame (empty_of m k)) made disk.old disk.new }
    ensures cause { CountsFault is_filter_fault result (D.faults disk.old) (D.faults disk.new) }
{
    let len = disk.len();
    if len < LEAST_LEN {
        return Err(BloomError::TooSmall {
            len,
            need: LEAST_LEN,
        });
    }
    let m = largest(len);
    let Some(found) = exponent(size) else {
        unreachable!()
    };
    if found != m {
        return Err(BloomError::Torn {
            field: Field::M,
            found: u64::from(found),
            want: u64::from(m),
        });
    }
    let bits = Bits::new(alloc, m, k)?;
    let memory = vec![in alloc; 0; filter_frame_len(m)]?;
    let frame = encoded(&bits, 0, Bytes::from_vec(memory));
    match vt_twin::format(disk, region(m), frame.as_slice()) {
        Ok(()) => Ok(()),
        Err(Failed) => Err(BloomError::Fault),
    }
}
