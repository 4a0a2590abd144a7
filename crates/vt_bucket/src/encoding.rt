//! From entries to the bytes of a frame.

ghost use Rattle.std.specs.Prelude.{◌≡◌, ◌+◌, ◌≤◌, ◌++◌, length, take};
ghost use Rattle.vt_bucket.specs.Buckets.{number_of_bucket, bucket_entries};
ghost use Rattle.vt_bucket.specs.Frame.{cell, bucket_frame, IsIndexEntry, IsBucketFrame};

use crate::{Bucket, CELL_LEN, FRAME_LEN};
use vt_base::Entry;
use vt_base::fields::{put, put_u8, put_u16, put_u32};

impl Bucket {
    /// Writes the bucket's frame.
    pub fn encode(&self, frame: &mut [u8])
        requires { length frame.old ≡ FRAME_LEN }
        ensures bytes { frame.new
            ≡ bucket_frame (number_of_bucket self.now) (bucket_entries self.now) }
        ensures spelled { IsBucketFrame (number_of_bucket self.now) (bucket_entries self.now)
            frame.new }
    {
        let entries = self.entries();
        let at = put(frame, 0, b"VBKT");
        let at = put_u32(frame, at, self.number);
        let mut at = put_u16(frame, at, entries.len() as u16);
        for entry in entries {
            at = put_entry(frame, at, entry);
        }
        frame[at..].fill(0);
    }
}

/// Writes the bytes of an entry at this place, and gives the place behind them.
fn put_entry(frame: &mut [u8], at: usize, entry: &Entry) -> usize
    requires { at + CELL_LEN ≤ length frame.old }
    ensures written { take (at + CELL_LEN) frame.new ≡ take at frame.old ++ cell entry.now }
    ensures end { result ≡ at + CELL_LEN }
    ensures entry { IsIndexEntry entry.now }
{
    let at = put(frame, at, &entry.key.score.0);
    let at = put_u8(frame, at, entry.key.kind.wire());
    let at = put_u16(frame, at, entry.size);
    let at = put_u32(frame, at, entry.place.arena);
    put_u32(frame, at, entry.place.offset)
}
