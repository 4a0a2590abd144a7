//! Finding the filter that is saved on a device.

ghost use Rattle.std.specs.Prelude.{◌≡◌, ◌⊎◌, ◌<◌, None, IsTrue, IfOk, IfErr, MatchResult, length, ⊤, false};
ghost use Rattle.vt_base.specs.Faults.{CountsFault};
ghost use Rattle.vt_disk.specs.Calls.{OnlyReads, MadeCalls, IsSynced};
ghost use Rattle.vt_twin.specs.Sound.{IsSoundTwin};
ghost use Rattle.vt_twin.specs.Twin.{fresh};
ghost use Rattle.vt_bloom.specs.Bits.{IsFilter};
ghost use Rattle.vt_bloom.specs.Bloom.{IsSoundBloom, HasTested, disk_after};
ghost use Rattle.vt_bloom.specs.Faults.{RefusesFilterMount, NamesFilterCause, TellsOfFrame, is_filter_fault};
ghost use Rattle.vt_bloom.specs.Frame.{Saved, HasSaved, current_of};
ghost use Rattle.vt_bloom.specs.Size.{IsLargest, filter_frame_len, filter_region};
ghost use Rattle.vt_bloom.specs.declared.error.BloomError.{BloomError};

use crate::LEAST_LEN;
use crate::bits::Bits;
use crate::bloom::Bloom;
use crate::error::BloomError;
use crate::frame::{decode_head, read_words};
use crate::size::{filter_frame_len, largest, region};
use std::alloc::Global;
use vt_base::Bytes;
use vt_disk::{BLOCK_LEN, CallCount, Disk};
use vt_twin::Twin;

/// Syncs the device, and finds the filter that is saved there. Its bits come back beside it. A
/// refusal hands the device back.
pub fn mount<D: Disk>(alloc: Global, disk: D) -> Result<(Bloom<D>, Bits), (BloomError, D)>
    // It finds the filter that is there, and nothing else.
    ensures found { IfOk result (λ it. IsTrue D.tells
        → HasSaved (record { filter = it.1; mark = it.0.mark }) (D.bytes disk)) }
    ensures all_are_found { (saved : Saved) → IsTrue D.tells → HasSaved saved (D.bytes disk)
        → MatchResult result (λ it. record { filter = it.1; mark = it.0.mark } ≡ saved)
        (λ refusal. (refusal.0 ≡ BloomError.Fault) ⊎ (refusal.0 ≡ BloomError.NoMemory)) }
    ensures refused { IfErr result (λ refusal. IsTrue D.tells
        → RefusesFilterMount (D.bytes disk) (D.size disk) refusal.0) }

    // From then on each crash leaves that filter.
    ensures sound { IfOk result (λ it. IsTrue D.tells → (coming : Saved)
        → IsSoundBloom it.0 (record { filter = it.1; mark = it.0.mark }) coming
        (D.bytes it.0.disk) (D.images it.0.disk)) }

    // So much is known of a device that doesn't tell what it holds, too.
    ensures rest { IfOk result (λ it. it.0.twin.change ≡ None) }
    ensures next { IfOk result (λ it. it.0.next ≡ it.0.mark) }
    ensures runs { IfOk result (λ it. (it.0.calls.stopped ≡ None)
        × (it.0.twin.failed ≡ false)) }
    ensures largest { IfOk result (λ it. IsLargest (D.size disk) it.0.m) }
    ensures filter { IfOk result (λ it. IsFilter it.1) }
    ensures counts { IfOk result (λ it. (it.1.m ≡ it.0.m) × (it.1.k ≡ it.0.k)) }
    ensures differs { IfErr result (λ refusal. NamesFilterCause (D.size disk) refusal.0) }

    // It syncs, reads the selector, reads the current frame and tests it, and changes nothing.
    // Nothing is read behind a sync that fails, so that what is told is told of a settled device.
    ensures settled { HasTested result → IsSynced D.Disk (disk_after result) }
    ensures calls { HasTested result → MadeCalls D.Disk 3 disk (disk_after result) }
    ensures failed { IfErr result (λ refusal. refusal.0 ≡ BloomError.Fault
        → MadeCalls D.Disk 1 disk refusal.1 ⊎ IsSynced D.Disk refusal.1) }
    ensures untouched { D.size disk < LEAST_LEN → disk_after result ≡ disk }
    ensures no_memory { IfErr result (λ refusal. refusal.0 ≡ BloomError.NoMemory
        → refusal.1 ≡ disk) }
    ensures reads { OnlyReads D.Disk 3 disk (disk_after result) }
    ensures cause { CountsFault (λ refusal. is_filter_fault refusal.0) result
        (D.faults disk) (D.faults (disk_after result)) }
{
    let mut disk = disk;
    match find(alloc, &mut disk) {
        Ok(found) => {
            let Found {
                twin,
                frame,
                mark,
                bits,
            } = found;
            let bloom = Bloom {
                disk,
                m: bits.m,
                k: bits.k,
                mark,
                next: mark,
                twin,
                calls: CallCount::new(),
                frame: Some(Bytes::from_vec(frame)),
            };
            Ok((bloom, bits))
        }
        Err(bad) => Err((bad, disk)),
    }
}

/// What is found on a device: the pair of frames, a buffer of a frame's length, and the filter.
#[derive(Drop)]
struct Found {
    twin: Twin,
    frame: Vec<u8>,
    /// For how many of the log's first blocks these bits are set.
    mark: u64,
    bits: Bits,
}

/// Finds the filter of a device. It is refused by the first test that fails; else a call of the
/// device failed, or memory ran out.
fn find<D: Disk>(alloc: Global, disk: &mut D) -> Result<Found, BloomError>
    ensures found { IfOk result (λ it. IsTrue D.tells
        → HasSaved (record { filter = it.bits; mark = it.mark }) (D.bytes disk.old)) }
    ensures twin { IfOk result (λ it. IsTrue D.tells
        → IsSoundTwin it.twin (filter_region it.bits.m) (current_of it.bits.m (D.bytes disk.old))
        (D.bytes disk.new) (D.images disk.new)) }
    ensures settled { MatchResult result (λ _. ⊤) TellsOfFrame → IsSynced D.Disk disk.new }
    ensures fresh { IfOk result (λ it. it.twin
        ≡ fresh (filter_frame_len it.bits.m) it.twin.current) }
    ensures filter { IfOk result (λ it. IsFilter it.bits) }
    ensures buffer { IfOk result (λ it. length it.frame.items ≡ filter_frame_len it.bits.m) }
    ensures largest { IfOk result (λ it. IsLargest (D.size disk.old) it.bits.m) }
    ensures refused { IfErr result (λ bad. IsTrue D.tells
        → RefusesFilterMount (D.bytes disk.old) (D.size disk.old) bad) }
    ensures differs { IfErr result (NamesFilterCause (D.size disk.old)) }
    ensures failed { IfErr result (λ bad. bad ≡ BloomError.Fault
        → MadeCalls D.Disk 1 disk.old disk.new ⊎ IsSynced D.Disk disk.new) }
    ensures untouched { D.size disk.old < LEAST_LEN → disk.new ≡ disk.old }
    ensures no_memory { IfErr result (λ bad. bad ≡ BloomError.NoMemory → disk.new ≡ disk.old) }
    ensures calls { MatchResult result (λ _. ⊤) TellsOfFrame
        → MadeCalls D.Disk 3 disk.old disk.new }
    ensures reads { OnlyReads D.Disk 3 disk.old disk.new }
    ensures cause { CountsFault is_filter_fault result (D.faults disk.old) (D.faults disk.new) }
{
    let len = disk.len();
    if len < LEAST_LEN {
        return Err(BloomError::TooSmall {
            len,
            need: LEAST_LEN,
        });
    }
    let m = largest(len);
    let mut frame = vec![in alloc; 0; filter_frame_len(m)]?;
    // (2^m bits, in words of 2^6)
    let mut words = vec![in alloc; 0; 1 << (m - 6)]?;
    let region = region(m);
    let twin = vt_twin::mount(disk, region, frame.len() as u64)?;
    let start = frame.len() as u64 * u64::from(twin.current());
    region.read_at(disk, start, &mut frame)?;
    let (k, mark) = decode_head(&frame, m)?;
    read_words(&frame[BLOCK_LEN..], &mut words);
    let bits = Bits { m, k, words };
    Ok(Found {
        twin,
        frame,
        mark,
        bits,
    })
}
