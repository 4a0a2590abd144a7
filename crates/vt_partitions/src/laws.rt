//! Laws of partitions that are handed out by name, each the contract of a function that does nothing. In each,
//! `found` is what is handed out, `grow_to` or `least` the length that it is to have at least, and `old` what stood
//! under the name.

ghost use Rattle.std.specs.Prelude.{◌≡◌, ◌≤◌, ℕ, Option, Some, None, length, take, replicate, unwrap_or};
ghost use Rattle.vt_disk.specs.Disk.{Only};
ghost use Rattle.vt_partitions.specs.Parts.{HandsOut, lent, nothing, there};

use vt_disk::Disk;

/// Where nothing stands, a partition is handed out only with a length to grow to, and is so many
/// zeros, of which a crash leaves nothing else. One that was handed out already isn't. One that
/// stands there is handed out as it is where it is long enough; it is never made shorter, and keeps
/// its bytes at its front.
pub fn what_is_handed_out<D: Disk>()
    ensures made { (found : D) (least : ℕ) → HandsOut D.Disk nothing (Some least) found
        → (D.bytes found ≡ replicate least 0) × Only (replicate least 0) (D.images found) }
    ensures absent { (found : D) → HandsOut D.Disk nothing None found → ⊥ }
    ensures once { (found : D) (grow_to : Option ℕ) → HandsOut D.Disk lent grow_to found → ⊥ }
    ensures same { (old found : D) (grow_to : Option ℕ)
        → HandsOut D.Disk (there old) grow_to found
        → unwrap_or grow_to 0 ≤ D.size old → found ≡ old }
    ensures longer { (old found : D) (grow_to : Option ℕ)
        → HandsOut D.Disk (there old) grow_to found → D.size old ≤ D.size found }
    ensures front { (old found : D) (grow_to : Option ℕ) → length (D.bytes old) ≡ D.size old
        → HandsOut D.Disk (there old) grow_to found
        → take (D.size old) (D.bytes found) ≡ D.bytes old }
{}
