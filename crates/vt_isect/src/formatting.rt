//! Making a disk a section.

ghost use Rattle.std.specs.Prelude.{◌≡◌, ◌+◌, ◌-◌, ◌<◌, ◌≤◌, ℕ, List, length, IsTrue, IfOk, IfErr, OnOk, Err};
ghost use Rattle.vt_base.specs.Faults.{CountsFault};
ghost use Rattle.vt_disk.specs.Calls.{WritesWithin, MadeCalls, IsSynced};
ghost use Rattle.vt_twin.specs.Formatting.{EndsFormat};
ghost use Rattle.vt_twin.specs.Frames.{selector_of, selector_bytes, current_frame};
ghost use Rattle.vt_base.specs.Filled.{filled};
ghost use Rattle.vt_isect.specs.Faults.{RefusesSectionFormat, refuses_by_fault};
ghost use Rattle.vt_isect.specs.Head.{encoded, IsHeadFrame};
ghost use Rattle.vt_isect.specs.Layout.{head_place, buckets_in, formatted};

use crate::error::SectBad;
use crate::head::{Head, encode_head};
use crate::place::{buckets_in, head_place};
use crate::{FRAME_LEN, LEAST_LEN};
use vt_base::Text;
use vt_base::fields::filled;
use vt_disk::{BLOCK_LEN, Disk, NAME_LEN};

/// Makes the disk a section in state 0, with mark 0 and without a place among others: writes its
/// head and syncs it. Gives the count of its buckets.
///
/// It leaves the buckets as they are: their numbers aren't known before the section has its place.
/// Whoever puts it to use clears each. The name has at most 64 bytes, which aren't tested.
pub fn format<D: Disk>(disk: &mut D, name: &Text) -> Result<u32, SectBad>
    requires { length name.now ≤ NAME_LEN }

    ensures count { IfOk result (λ count. count ≡ buckets_in (D.size disk.old)) }

    // Whatever a crash leaves from then on, it leaves that head.
    ensures head { IfOk result (λ count. IsTrue D.tells → (c : List ℕ) → D.images disk.new c
        → current_frame head_place FRAME_LEN c
        ≡ encoded (filled NAME_LEN name.now) (formatted count)) }
    ensures head_frame { IfOk result (λ count. IsTrue D.tells
        → (c : List ℕ) → D.images disk.new c → IsHeadFrame (filled NAME_LEN name.now)
        (formatted count) (current_frame head_place FRAME_LEN c)) }
    ensures selector { OnOk result (IsTrue D.tells
        → selector_of head_place FRAME_LEN (D.bytes disk.new) ≡ selector_bytes 0 BLOCK_LEN) }
    ensures settled { OnOk result (IsSynced D.Disk disk.new) }

    ensures room { OnOk result (LEAST_LEN ≤ D.size disk.old) }
    ensures refused { IfErr result (RefusesSectionFormat (D.size disk.old)) }
    ensures untouched { D.size disk.old < LEAST_LEN → disk.new ≡ disk.old }

    // Nothing behind the head changes, and nothing is written behind a call that fails.
    ensures writes { WritesWithin D.Disk head_place 3 disk.old disk.new }
    ensures calls { OnOk result (MadeCalls D.Disk 3 disk.old disk.new) }
    ensures failed { result ≡ Err SectBad.Fault → (made : ℕ) × EndsFormat D.Disk head_place
        (encoded (filled NAME_LEN name.now) (formatted (buckets_in (D.size disk.old)))) made
        disk.old disk.new }
    ensures cause { CountsFault refuses_by_fault result (D.faults disk.old) (D.faults disk.new) }
{
    let len = disk.len();
    if len < LEAST_LEN {
        return Err(SectBad::TooSmall {
            len,
            need: LEAST_LEN,
        });
    }
    let count = buckets_in(len);
    let head = Head {
        state: 0,
        first: 0,
        count,
        total: 0,
        mark: 0,
    };
    let mut frame = [0; FRAME_LEN];
    encode_head(&filled(name.as_slice()), &head, &mut frame);
    vt_twin::format(disk, head_place(), &frame)?;
    Ok(count)
}
