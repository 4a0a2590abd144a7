//! Fields at the front of bytes, and fields put into a buffer. Numbers have the low byte first.

ghost use Rattle.std.specs.Prelude.{◌≡◌, ◌≢◌, ◌+◌, ◌<◌, ◌≤◌, ◌++◌, ℕ, List, length};
ghost use Rattle.std.specs.Prelude.{IfSome, IfNone};
ghost use Rattle.byteorder.specs.Endian.{little_bytes};
ghost use Rattle.nine_wire.specs.Messages.{string, IsString};
ghost use Rattle.nine_wire.specs.Writing.{WritesField};

use byteorder::{ByteOrder, LittleEndian};
use vt_base::fields::put;

/// A number field of two bytes in front, and what stands behind it; None where there are fewer
/// bytes.
pub(crate) fn u16_at(bytes: &[u8]) -> Option<(u16, &[u8])>
    ensures found { IfSome result (λ r. bytes.now ≡ little_bytes 2 r.0 ++ r.1.now) }
    ensures none { IfNone result (length bytes.now < 2) }
{
    let (field, rest) = bytes.split_first_chunk::<2>()?;
    Some((LittleEndian::read_u16(field), rest))
}

/// A number field of four bytes in front, and what stands behind it; None where there are fewer
/// bytes.
pub(crate) fn u32_at(bytes: &[u8]) -> Option<(u32, &[u8])>
    ensures found { IfSome result (λ r. bytes.now ≡ little_bytes 4 r.0 ++ r.1.now) }
    ensures none { IfNone result (length bytes.now < 4) }
{
    let (field, rest) = bytes.split_first_chunk::<4>()?;
    Some((LittleEndian::read_u32(field), rest))
}

/// A number field of eight bytes in front, and what stands behind it; None where there are fewer
/// bytes.
pub(crate) fn u64_at(bytes: &[u8]) -> Option<(u64, &[u8])>
    ensures found { IfSome result (λ r. bytes.now ≡ little_bytes 8 r.0 ++ r.1.now) }
    ensures none { IfNone result (length bytes.now < 8) }
{
    let (field, rest) = bytes.split_first_chunk::<8>()?;
    Some((LittleEndian::read_u64(field), rest))
}

/// A string in front, which has two bytes of length, and what stands behind it; None where there
/// are fewer bytes than that counts.
pub(crate) fn string_at(bytes: &[u8]) -> Option<(&[u8], &[u8])>
    ensures short { IfSome result (λ r. IsString r.0.now) }
    ensures found { IfSome result (λ r. bytes.now ≡ string r.0.now ++ r.1.now) }
    ensures none { IfNone result ((text rest : List ℕ) →
        IsString text → bytes.now ≢ string text ++ rest) }
{
    let (len, rest) = u16_at(bytes)?;
    rest.split_at_checked(usize::from(len))
}

/// Writes a number field of two bytes at this place, and gives the place behind it.
pub(crate) fn put_u16(buf: &mut [u8], at: usize, value: u16) -> usize
    requires { at + 2 ≤ length buf.old }
    ensures { WritesField at result buf.old buf.new (little_bytes 2 value) }
{
    LittleEndian::write_u16(&mut buf[at..], value);
    at + 2
}

/// Writes a number field of four bytes at this place, and gives the place behind it.
pub(crate) fn put_u32(buf: &mut [u8], at: usize, value: u32) -> usize
    requires { at + 4 ≤ length buf.old }
    ensures { WritesField at result buf.old buf.new (little_bytes 4 value) }
{
    LittleEndian::write_u32(&mut buf[at..], value);
    at + 4
}

/// Writes a number field of eight bytes at this place, and gives the place behind it.
pub(crate) fn put_u64(buf: &mut [u8], at: usize, value: u64) -> usize
    requires { at + 8 ≤ length buf.old }
    ensures { WritesField at result buf.old buf.new (little_bytes 8 value) }
{
    LittleEndian::write_u64(&mut buf[at..], value);
    at + 8
}

/// Writes a string at this place, and gives the place behind it.
pub(crate) fn put_string(buf: &mut [u8], at: usize, text: &[u8]) -> usize
    requires short { IsString text.now }
    requires room { at + length (string text.now) ≤ length buf.old }
    ensures { WritesField at result buf.old buf.new (string text.now) }
{
    let at = put_u16(buf, at, text.len() as u16);
    put(buf, at, text)
}
