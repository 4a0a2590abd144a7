//! Which frames of a section's buckets are remembered to be current.

ghost use Rattle.std.specs.Prelude.{◌≡◌, ℕ, ◌+◌, ◌<◌, ◌≤◌, length, slice_get, slice_set, slice_index, IsTrue, IfOk, OnErr, IfSome, Some, None, Ok};
ghost use Rattle.vt_base.specs.Faults.{HasCause};
ghost use Rattle.vt_disk.specs.Calls.{OnlyReads, MadeCalls};
ghost use Rattle.vt_twin.specs.Frames.{FitsTwin, named_number};
ghost use Rattle.vt_isect.specs.Remembered.{pairs_of, told_by, told_in};

use crate::FRAME_LEN;
use std::alloc::{AllocError, Global};
use std::marker::Model;
use vt_base::Failed;
use vt_disk::{Disk, Region};

/// Of each bucket of a section, counted from 0 there, the number of its current frame, where that
/// is remembered. A bucket takes two bits.
#[derive(Drop)]
pub struct Remembered {
    /// Four buckets a byte, the first in its lowest two bits: there the higher bit says that the
    /// current frame is remembered, and the lower one is its number.
    bytes: Vec<u8>,
}

impl Model for Remembered {
    ghost use Rattle.std.specs.Prelude.{ℕ, List, Option};
    ghost use Rattle.vt_isect.specs.Remembered.{told_in};

    ghost Value = { List (Option ℕ) };

    ghost view = { λ r. told_in r.bytes.items };
}

impl Remembered {
    ghost use Rattle.vt_isect.specs.Layout.{IsBucketPlace};
    ghost use Rattle.vt_isect.specs.Remembered.{Remembers};

    /// Room for so many buckets, of none of which anything is remembered.
    pub fn new(alloc: Global, buckets: u32) -> Result<Remembered, AllocError>
        ensures room { IfOk result (λ it. (buckets ≤ length it) × (length it < buckets + 4)) }
        ensures nothing { IfOk result (λ it. (j : ℕ) → j < length it
            → slice_get it j ≡ Some None) }
    {
        let bytes = vec![in alloc; 0; (buckets as usize).div_ceil(4)]?;
        Ok(Remembered { bytes })
    }

    /// The number of a bucket's current frame, where it is remembered.
    pub fn get(&self, bucket: u32) -> Option<u8>
        requires { bucket < length self.now }
        ensures number { slice_get self.now bucket ≡ Some result }
        ensures bound { IfSome result (λ number. number < 2) }
    {
        let bucket = bucket as usize;
        let pair = pairs(self.bytes[bucket / 4])[bucket % 4];
        if pair < 2 { None } else { Some(pair - 2) }
    }

    /// From now on it is remembered that a bucket's current frame has this number.
    pub fn put(&mut self, bucket: u32, number: u8)
        requires bucket { bucket < length self.old }
        requires number { number < 2 }
        ensures { self.new ≡ slice_set self.old bucket (Some number) }
    {
        set(&mut self.bytes, bucket as usize, 2 + number);
    }

    /// From now on nothing is remembered of a bucket.
    pub fn forget(&mut self, bucket: u32)
        requires { bucket < length self.old }
        ensures { self.new ≡ slice_set self.old bucket None }
    {
        set(&mut self.bytes, bucket as usize, 0);
    }

    /// Reads the selector of the bucket that stands in this place, and remembers the number of the
    /// frame that it names.
    pub fn read<D: Disk>(&mut self, disk: &mut D, place: Region, bucket: u32) -> Result<u8, Failed>
        requires bucket { bucket < length self.old }
        requires room { FitsTwin place FRAME_LEN (D.size disk.old) }
        ensures named { IfOk result (λ number. IsTrue D.tells
            → number ≡ named_number place FRAME_LEN (D.bytes disk.old)) }
        ensures bound { IfOk result (λ number. number < 2) }
        ensures remembers { IfOk result (λ number.
            self.new ≡ slice_set self.old bucket (Some number)) }
        ensures failed { OnErr result (self.new ≡ self.old) }
        ensures reads { OnlyReads D.Disk 1 disk.old disk.new }
        ensures calls { MadeCalls D.Disk 1 disk.old disk.new }
        ensures cause { HasCause result (D.faults disk.old) (D.faults disk.new) }
    {
        let mut selector = [0];
        // (the selector stands behind both frames; its first byte names the current one)
        place.read_at(disk, 2 * FRAME_LEN as u64, &mut selector)?;
        let number = selector[0] % 2;
        self.put(bucket, number);
        Ok(number)
    }

    /// The number of the current frame of the bucket that stands in this place. Its selector is
    /// read where that isn't remembered, and then it is.
    pub fn find<D: Disk>(&mut self, disk: &mut D, place: Region, bucket: u32) -> Result<u8, Failed>
        requires bucket { bucket < length self.old }
        requires room { FitsTwin place FRAME_LEN (D.size disk.old) }
        requires place { IsBucketPlace bucket place }
        ensures named { (buckets : ℕ) → IfOk result (λ number.
            Remembers D.Disk disk.old buckets self.old → IsTrue D.tells
            → number ≡ named_number place FRAME_LEN (D.bytes disk.old)) }
        ensures bound { IfOk result (λ number. number < 2) }
        ensures remembers { IfOk result (λ number.
            self.new ≡ slice_set self.old bucket (Some number)) }
        ensures failed { OnErr result (self.new ≡ self.old) }
        ensures reads { OnlyReads D.Disk 1 disk.old disk.new }
        ensures cause { HasCause result (D.faults disk.old) (D.faults disk.new) }

        // It makes a call just where nothing is remembered.
        ensures known { (number : ℕ) → slice_get self.old bucket ≡ Some (Some number)
            → (result ≡ Ok number) × (disk.new ≡ disk.old) }
        ensures unknown { slice_get self.old bucket ≡ Some None
            → MadeCalls D.Disk 1 disk.old disk.new }
    {
        match self.get(bucket) {
            Some(number) => Ok(number),
            None => self.read(disk, place, bucket),
        }
    }
}

/// The four pairs of bits of a byte, the lowest first.
fn pairs(byte: u8) -> [u8; 4]
    ensures { result ≡ pairs_of byte }
{
    [byte % 4, byte / 4 % 4, byte / 16 % 4, byte / 64]
}

/// The byte of four pairs of bits.
fn byte_of(pairs: [u8; 4]) -> u8
    requires { (i : ℕ) → i < 4 → slice_index pairs i < 4 }
    ensures { pairs_of result ≡ pairs }
{
    pairs[0] + 4 * pairs[1] + 16 * pairs[2] + 64 * pairs[3]
}

/// Sets the two bits of a bucket.
fn set(bytes: &mut [u8], bucket: usize, pair: u8)
    requires bucket { bucket < length (told_in bytes.old) }
    requires pair { pair < 4 }
    ensures { told_in bytes.new ≡ slice_set (told_in bytes.old) bucket (told_by pair) }
{
    let byte = &mut bytes[bucket / 4];
    let mut all = pairs(*byte);
    all[bucket % 4] = pair;
    *byte = byte_of(all);
}
