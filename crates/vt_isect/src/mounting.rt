//! Finding the section of a disk.

ghost use Rattle.std.specs.Prelude.{◌≡◌, ◌⊎◌, ⊤, ◌+◌, ◌-◌, ◌*◌, ◌<◌, ◌≤◌, ℕ, List, [], None, Some, IsTrue, IfOk, IfErr, OnOk, MatchResult, length, replicate, slice_get, vec_capacity};
ghost use Rattle.vt_base.specs.Faults.{HasCause, CountsFault};
ghost use Rattle.vt_base.specs.declared.place.Entry.{Entry};
ghost use Rattle.vt_bucket.specs.Frame.{IsBucketFrame};
ghost use Rattle.vt_disk.specs.Calls.{OnlyReads, MadeCalls, IsSynced};
ghost use Rattle.vt_disk.specs.declared.region.Region.{Region};
ghost use Rattle.vt_model.specs.History.{History};
ghost use Rattle.vt_model.specs.Places.{Setup};
ghost use Rattle.vt_twin.specs.Frames.{current_frame};
ghost use Rattle.vt_twin.specs.Sound.{IsSoundTwin};
ghost use Rattle.vt_twin.specs.Twin.{fresh};
ghost use Rattle.vt_isect.specs.Agreement.{AgreesWith, KnownAgrees};
ghost use Rattle.vt_isect.specs.declared.head.Head.{Head};
ghost use Rattle.vt_isect.specs.Faults.{first_bad_section, RefusesSectionMount, NamesSectionCause, TellsOfHead, refuses_by_fault};
ghost use Rattle.vt_isect.specs.Head.{IsHeadFrame};
ghost use Rattle.vt_isect.specs.Layout.{head_place, IsBucketPlace, InRange, IsSection, buckets_in};
ghost use Rattle.vt_isect.specs.Section.{mounted_section, disk_after};
ghost use Rattle.vt_isect.specs.Sound.{KnownBuckets, all_known, DiskHolds};

use crate::error::SectBad;
use crate::groups::Member;
use crate::head::{Head, decode_head};
use crate::phase::Phase;
use crate::place::{buckets_in, head_place};
use crate::remembered::Remembered;
use crate::section::Section;
use crate::{FRAME_LEN, GROUP_MAX, LEAST_LEN};
use std::alloc::Global;
use vt_base::Failed;
use vt_disk::{Disk, NAME_LEN};
use vt_twin::Twin;

/// Finds the section of a disk: syncs, and reads its head. A refusal hands the disk back. What the
/// head says of its state, its place among the sections and its mark is for the caller to judge.
///
/// It takes the memory of two frames, one for the head and one for a bucket, of a group of buckets,
/// and of which frame of each bucket is current.
pub fn mount<D: Disk>(alloc: Global, mut disk: D) -> Result<Section<D>, (SectBad, D)>
    // It finds the head that is there, and is at rest.
    ensures head { IfOk result (λ it. IsTrue D.tells
        → IsHeadFrame it.name it.head (current_frame head_place FRAME_LEN (D.bytes disk))) }
    ensures fresh { IfOk result (λ it. it
        ≡ mounted_section it.disk (buckets_in (D.size disk)) it.name it.head it.head_twin.current) }

    // The disk is sound for it, whatever is known of the buckets that are read.
    ensures sound { (known : KnownBuckets) → IfOk result (λ it. IsTrue D.tells
        → ((n : ℕ) (region : Region) (entries : List Entry) → InRange it.head it.buckets n
        → IsBucketPlace (n - it.head.first) region → known n ≡ Some entries
        → IsBucketFrame n entries (current_frame region FRAME_LEN (D.bytes disk)))
        → DiskHolds D.Disk it known) }

    // Where the bytes are a section that agrees with a history, so does what is known.
    ensures agrees { (score : List ℕ → List ℕ) (c : Setup) (h : History)
        (entries : ℕ → List Entry) → IfOk result (λ it. IsTrue D.tells
        → IsSection it.name it.head it.buckets entries (D.bytes disk)
        → AgreesWith score c h it.buckets it.head entries
        → DiskHolds D.Disk it (all_known entries)
        × KnownAgrees score c h it (all_known entries)) }

    // Nothing is read behind a sync that fails, so that what is told of the head is told of a
    // settled disk.
    ensures settled { MatchResult result (λ _. ⊤) (λ refusal. TellsOfHead refusal.0)
        → IsSynced D.Disk (disk_after result) }
    ensures failed { IfErr result (λ refusal. refusal.0 ≡ SectBad.Fault
        → MadeCalls D.Disk 1 disk refusal.1 ⊎ IsSynced D.Disk refusal.1) }
    ensures refused { IfErr result (λ refusal. IsTrue D.tells
        → RefusesSectionMount (D.size disk)
        (current_frame head_place FRAME_LEN (D.bytes disk)) refusal.0) }
    ensures accepted { IfOk result (λ _. IsTrue D.tells
        → first_bad_section (D.size disk) (current_frame head_place FRAME_LEN (D.bytes disk))
        ≡ None) }

    // Each section is found, unless a call of the disk fails or memory runs out.
    ensures all_are_found { (name : List ℕ) (head : Head) → IsTrue D.tells → LEAST_LEN ≤ D.size disk
        → IsHeadFrame name head (current_frame head_place FRAME_LEN (D.bytes disk))
        → MatchResult result (λ it. (it.name ≡ name) × (it.head ≡ head))
        (λ refusal. (refusal.0 ≡ SectBad.Fault) ⊎ (refusal.0 ≡ SectBad.NoMemory)) }

    // So much is known of a disk that doesn't tell what it holds, too.
    ensures room { OnOk result (LEAST_LEN ≤ D.size disk) }
    ensures differs { IfErr result (λ refusal. NamesSectionCause (D.size disk) refusal.0) }

    // It takes its memory first, syncs, and makes two reads, and changes nothing.
    ensures untouched { D.size disk < LEAST_LEN → disk_after result ≡ disk }
    ensures memory_first { IfErr result (λ refusal. refusal.0 ≡ SectBad.NoMemory
        → refusal.1 ≡ disk) }
    ensures calls { MatchResult result (λ _. ⊤) (λ refusal. TellsOfHead refusal.0)
        → MadeCalls D.Disk 3 disk (disk_after result) }
    ensures reads { OnlyReads D.Disk 3 disk (disk_after result) }
    ensures cause { CountsFault (λ refusal. refuses_by_fault refusal.0) result
        (D.faults disk) (D.faults (disk_after result)) }
{
    match open(alloc, &mut disk) {
        Ok(opened) => {
            let buckets = buckets_in(disk.len());
            Ok(Section::new(disk, buckets, opened))
        }
        Err(bad) => Err((bad, disk)),
    }
}

/// What mounting makes and finds.
#[derive(Drop)]
pub struct Opened {
    /// The two frames of the head on the disk.
    pub twin: Twin,
    /// The section's name, as the head has it.
    pub name: [u8; NAME_LEN],
    /// What the current one of these frames says.
    pub head: Head,
    /// The frame of the head.
    pub head_frame: Vec<u8>,
    /// Room for the frame of a bucket.
    pub frame: Vec<u8>,
    /// Room for a group of buckets.
    pub group: Vec<Member>,
    /// Of no bucket it is known which frame is current.
    pub frames: Remembered,
}

/// Syncs the disk, so that what is read stays, and reads the head. It fails where a call of the
/// disk does, or memory runs out.
fn open<D: Disk>(alloc: Global, disk: &mut D) -> Result<Opened, SectBad>
    ensures head { IfOk result (λ it. IsTrue D.tells
        → IsHeadFrame it.name it.head (current_frame head_place FRAME_LEN (D.bytes disk.old))) }
    ensures twin { IfOk result (λ it. it.twin ≡ fresh FRAME_LEN it.twin.current) }
    ensures sound { IfOk result (λ it. IsTrue D.tells
        → IsSoundTwin it.twin head_place (current_frame head_place FRAME_LEN (D.bytes disk.old))
        (D.bytes disk.new) (D.images disk.new)) }
    ensures frames { IfOk result (λ it. (length it.head_frame.items ≡ FRAME_LEN)
        × (it.frame.items ≡ replicate FRAME_LEN 0)) }
    ensures group { IfOk result (λ it. (it.group.items ≡ [])
        × (GROUP_MAX ≤ vec_capacity it.group)) }
    ensures room_for_frames { IfOk result (λ it. buckets_in (D.size disk.old) ≤ length it.frames) }
    ensures current { IfOk result (λ it. (j : ℕ) → j < length it.frames
        → slice_get it.frames j ≡ Some None) }
    ensures name { IfOk result (λ it. length it.name ≡ NAME_LEN) }
    ensures room { OnOk result (LEAST_LEN ≤ D.size disk.old) }
    ensures settled { MatchResult result (λ _. ⊤) TellsOfHead → IsSynced D.Disk disk.new }
    ensures failed { IfErr result (λ bad. bad ≡ SectBad.Fault
        → MadeCalls D.Disk 1 disk.old disk.new ⊎ IsSynced D.Disk disk.new) }
    ensures accepted { OnOk result (IsTrue D.tells
        → first_bad_section (D.size disk.old)
        (current_frame head_place FRAME_LEN (D.bytes disk.old))
        ≡ None) }
    ensures refused { IfErr result (λ bad. IsTrue D.tells → RefusesSectionMount (D.size disk.old)
        (current_frame head_place FRAME_LEN (D.bytes disk.old)) bad) }
    ensures differs { IfErr result (NamesSectionCause (D.size disk.old)) }
    ensures untouched { D.size disk.old < LEAST_LEN → disk.new ≡ disk.old }
    ensures memory_first { IfErr result (λ bad. bad ≡ SectBad.NoMemory → disk.new ≡ disk.old) }
    ensures calls { MatchResult result (λ _. ⊤) TellsOfHead → MadeCalls D.Disk 3 disk.old disk.new }
    ensures reads { OnlyReads D.Disk 3 disk.old disk.new }
    ensures cause { CountsFault refuses_by_fault result (D.faults disk.old) (D.faults disk.new) }
{
    let len = disk.len();
    if len < LEAST_LEN {
        return Err(SectBad::TooSmall {
            len,
            need: LEAST_LEN,
        });
    }
    let mut head_frame = vec![in alloc; 0; FRAME_LEN]?;
    let frame = vec![in alloc; 0; FRAME_LEN]?;
    let group = Vec::with_capacity(alloc, GROUP_MAX)?;
    let frames = Remembered::new(alloc, buckets_in(len))?;
    let twin = read_head(disk, &mut head_frame)?;
    match decode_head(&head_frame, len) {
        Ok(found) => {
            let (name, head) = found;
            Ok(Opened {
                twin,
                name,
                head,
                head_frame,
                frame,
                group,
                frames,
            })
        }
        Err(bad) => Err(bad),
    }
}

/// Syncs, and reads the current frame of the head.
fn read_head<D: Disk>(disk: &mut D, frame: &mut [u8]) -> Result<Twin, Failed>
    requires room { LEAST_LEN ≤ D.size disk.old }
    requires whole { length frame.old ≡ FRAME_LEN }
    ensures read { OnOk result (IsTrue D.tells
        → frame.new ≡ current_frame head_place FRAME_LEN (D.bytes disk.old)) }
    ensures twin { IfOk result (λ twin. twin ≡ fresh FRAME_LEN twin.current) }
    ensures sound { IfOk result (λ twin. IsTrue D.tells
        → IsSoundTwin twin head_place (current_frame head_place FRAME_LEN (D.bytes disk.old))
        (D.bytes disk.new) (D.images disk.new)) }
    ensures settled { MadeCalls D.Disk 1 disk.old disk.new ⊎ IsSynced D.Disk disk.new }
    ensures synced { OnOk result (IsSynced D.Disk disk.new) }
    ensures calls { OnOk result (MadeCalls D.Disk 3 disk.old disk.new) }
    ensures reads { OnlyReads D.Disk 3 disk.old disk.new }
    ensures cause { HasCause result (D.faults disk.old) (D.faults disk.new) }
{
    let place = head_place();
    let twin = vt_twin::mount(disk, place, FRAME_LEN as u64)?;
    let start = FRAME_LEN as u64 * u64::from(twin.current());
    place.read_at(disk, start, frame)?;
    Ok(twin)
}
