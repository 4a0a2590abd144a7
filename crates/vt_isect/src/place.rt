//! Where the buckets of a section stand.

ghost use Rattle.std.specs.Prelude.{◌≡◌, ◌+◌, ◌*◌, ◌^◌, ◌<◌, ◌≤◌, ℕ};
ghost use Rattle.vt_model.specs.Places.{bucket_of};
ghost use Rattle.vt_disk.specs.DeviceCalls.{call_of};
ghost use Rattle.vt_disk.specs.DeviceCalls.DeviceCall.{write};
ghost use Rattle.vt_twin.specs.Frames.{FitsTwin, frame_start, selector_start};
ghost use Rattle.vt_isect.specs.Layout.{head_place, bucket_place, IsBucketPlace, buckets_in};

use crate::{BUCKET_PLACE_LEN, FRAME_LEN, HEAD_PLACE_LEN};
use vt_base::Score;
use vt_disk::{Call, Region, SECTOR_LEN};
use vt_model::bucket_of;

/// How many buckets a section of this length has.
pub fn buckets_in(len: u64) -> u32
    ensures count { result ≡ buckets_in len }
    ensures room { HEAD_PLACE_LEN ≤ len → HEAD_PLACE_LEN + BUCKET_PLACE_LEN * result ≤ len }
{
    let count = len.saturating_sub(HEAD_PLACE_LEN) / BUCKET_PLACE_LEN;
    count.min(u64::from(u32::MAX)) as u32
}

/// The place of the head.
pub fn head_place() -> Region
    ensures { result ≡ head_place }
{
    Region {
        start: 0,
        len: HEAD_PLACE_LEN,
    }
}

/// The place of a bucket, which is counted from 0 in its section.
pub fn bucket_place(bucket: u32) -> Region
    ensures place { IsBucketPlace bucket result }
    ensures room { (size : ℕ) → HEAD_PLACE_LEN + BUCKET_PLACE_LEN * bucket + BUCKET_PLACE_LEN ≤ size
        → FitsTwin result FRAME_LEN size }
{
    Region {
        start: HEAD_PLACE_LEN + BUCKET_PLACE_LEN * u64::from(bucket),
        len: BUCKET_PLACE_LEN,
    }
}

/// The call that writes a frame of a bucket, which is counted from 0 in its section.
pub fn frame_write<'a>(bucket: u32, number: u8, frame: &'a [u8]) -> Call<'a>
    ensures { call_of result ≡ write (frame_start (bucket_place bucket) FRAME_LEN number) frame.now }
{
    bucket_place(bucket).write_call(FRAME_LEN as u64 * u64::from(number), frame)
}

/// The call that writes its selector.
pub fn selector_write<'a>(bucket: u32, selector: &'a [u8; SECTOR_LEN]) -> Call<'a>
    ensures { call_of result ≡ write (selector_start (bucket_place bucket) FRAME_LEN) selector.now }
{
    // (the selector, behind both frames)
    bucket_place(bucket).write_call(2 * FRAME_LEN as u64, selector)
}

/// The number of a score's bucket, of so many.
pub fn bucket_number(total: u32, score: &Score) -> u32
    ensures bucket { result ≡ bucket_of total score.now.0 }
    ensures range { 0 < total → result < total }
{
    bucket_of(u128::from(total), score) as u32
}
