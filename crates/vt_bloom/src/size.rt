//! How large a filter is, and where it stands.

ghost use Rattle.std.specs.Prelude.{◌≡◌, ◌≤◌, ℕ, IfSome, IfNone};
ghost use Rattle.vt_bloom.specs.Size.{IsFilterSize, IsLargest, filter_frame_len, filter_region};

use crate::LEAST_LEN;
use vt_disk::{BLOCK_LEN, Region};

/// The m of a filter of this many bytes, which has 2^m bits, if a filter may have that size: the
/// powers of two from 8,192 to 1,048,576.
pub fn exponent(size: u64) -> Option<u8>
    ensures found { IfSome result (λ m. IsFilterSize m size) }
    ensures none { IfNone result ((m : ℕ) → ¬ IsFilterSize m size) }
{
    // (2^m bits are 2^(m-3) bytes)
    for m in 16..24 {
        if size == 1 << (m - 3) {
            return Some(m);
        }
    }
    None
}

/// The m of the largest filter that a device of this length has room for.
pub fn largest(len: u64) -> u8
    requires { LEAST_LEN ≤ len }
    ensures { IsLargest len result }
{
    let mut m = 16;
    // (from 2^16 bits, 8 KiB, to 2^23, 1 MiB)
    while m < 23 && region(m + 1).len <= len {
        m += 1;
    }
    m
}

/// How many bytes a frame of a filter of 2^m bits has.
pub fn filter_frame_len(m: u8) -> usize
    requires least { 16 ≤ m }
    requires most { m ≤ 23 }
    ensures { result ≡ filter_frame_len m }
{
    BLOCK_LEN + (1 << (m - 3))
}

/// The region of a filter of 2^m bits, from the device's start on.
pub fn region(m: u8) -> Region
    requires least { 16 ≤ m }
    requires most { m ≤ 23 }
    ensures { result ≡ filter_region m }
{
    Region {
        start: 0,
        len: (2 * filter_frame_len(m) + BLOCK_LEN) as u64,
    }
}
