//! How messages are cut from what came: by the two bytes in front that count theirs.

ghost use Rattle.std.specs.Prelude.{◌≡◌, ◌≤◌, ◌↔◌, length, take, drop, IsNone, IfSome};
ghost use Rattle.vt_wire.specs.Frames.{size_width, frame_len, IsFrame, IsPartial};

use vt_base::fields::u16_at;

/// How many bytes a size field has.
const SIZE_WIDTH: usize = 2;

/// How many bytes the first frame has, its size field with it; None exactly where less than a whole
/// frame stands here.
pub fn frame_len(bytes: &[u8]) -> Option<usize>
    ensures size { IfSome result (λ len. (len ≡ frame_len bytes.now) × (len ≤ length bytes.now)) }
    ensures frame { IfSome result (λ len.
        IsFrame (take len bytes.now) (drop size_width (take len bytes.now))) }
    ensures partial { IsNone result ↔ IsPartial bytes.now }
{
    if bytes.len() < SIZE_WIDTH {
        return None;
    }
    let len = SIZE_WIDTH + usize::from(u16_at(bytes, 0));
    if len <= bytes.len() { Some(len) } else { None }
}
