//! Writing and reading the fields of a frame at their places. Numbers have the high byte first.
// Tests: crates/vt_base_tests/src/fields.rt.

ghost use Rattle.std.specs.Prelude.{◌≡◌, ◌+◌, ◌^◌, ◌<◌, ◌≤◌, [], ◌∷◌, ◌++◌, length, take, drop};
ghost use Rattle.byteorder.specs.Endian.{big_bytes, big_number};
ghost use Rattle.vt_base.specs.Filled.{filled};

use byteorder::{BigEndian, ByteOrder};

/// Writes a field of bytes at this place, and gives the place behind it.
pub fn put(buf: &mut [u8], at: usize, field: &[u8]) -> usize
    requires { at + length field.now ≤ length buf.old }
    ensures written { take (at + length field.now) buf.new ≡ take at buf.old ++ field.now }
    ensures behind { drop (at + length field.now) buf.new ≡ drop (at + length field.now) buf.old }
    ensures end { result ≡ at + length field.now }
{
    let end = at + field.len();
    buf[at..end].copy_from_slice(field);
    end
}

/// These bytes, and zeros that fill them up to the length of a field.
pub fn filled<const N: usize>(bytes: &[u8]) -> [u8; N]
    requires { length bytes.now ≤ N }
    ensures bytes { result ≡ filled N bytes.now }
    ensures len { length result ≡ N }
{
    let mut field = [0; N];
    put(&mut field, 0, bytes);
    field
}

/// Writes a field of one byte at this place, and gives the place behind it.
pub fn put_u8(buf: &mut [u8], at: usize, value: u8) -> usize
    requires { at + 1 ≤ length buf.old }
    ensures written { take (at + 1) buf.new ≡ take at buf.old ++ value ∷ [] }
    ensures behind { drop (at + 1) buf.new ≡ drop (at + 1) buf.old }
    ensures end { result ≡ at + 1 }
{
    buf[at] = value;
    at + 1
}

/// Writes a number field of two bytes at this place, and gives the place behind it.
pub fn put_u16(buf: &mut [u8], at: usize, value: u16) -> usize
    requires { at + 2 ≤ length buf.old }
    ensures written { take (at + 2) buf.new ≡ take at buf.old ++ big_bytes 2 value }
    ensures behind { drop (at + 2) buf.new ≡ drop (at + 2) buf.old }
    ensures end { result ≡ at + 2 }
{
    BigEndian::write_u16(&mut buf[at..], value);
    at + 2
}

/// Writes a number field of four bytes at this place, and gives the place behind it.
pub fn put_u32(buf: &mut [u8], at: usize, value: u32) -> usize
    requires { at + 4 ≤ length buf.old }
    ensures written { take (at + 4) buf.new ≡ take at buf.old ++ big_bytes 4 value }
    ensures behind { drop (at + 4) buf.new ≡ drop (at + 4) buf.old }
    ensures end { result ≡ at + 4 }
{
    BigEndian::write_u32(&mut buf[at..], value);
    at + 4
}

/// Writes a number field of six bytes at this place, and gives the place behind it.
pub fn put_u48(buf: &mut [u8], at: usize, value: u64) -> usize
    requires room { at + 6 ≤ length buf.old }
    requires fits { value < 2 ^ 48 }
    ensures written { take (at + 6) buf.new ≡ take at buf.old ++ big_bytes 6 value }
    ensures behind { drop (at + 6) buf.new ≡ drop (at + 6) buf.old }
    ensures end { result ≡ at + 6 }
{
    BigEndian::write_u48(&mut buf[at..], value);
    at + 6
}

/// Writes a number field of eight bytes at this place, and gives the place behind it.
pub fn put_u64(buf: &mut [u8], at: usize, value: u64) -> usize
    requires { at + 8 ≤ length buf.old }
    ensures written { take (at + 8) buf.new ≡ take at buf.old ++ big_bytes 8 value }
    ensures behind { drop (at + 8) buf.new ≡ drop (at + 8) buf.old }
    ensures end { result ≡ at + 8 }
{
    BigEndian::write_u64(&mut buf[at..], value);
    at + 8
}

/// The number field of two bytes at this place.
pub fn u16_at(bytes: &[u8], at: usize) -> u16
    requires { at + 2 ≤ length bytes.now }
    ensures { result ≡ big_number 2 (drop at bytes.now) }
{
    BigEndian::read_u16(&bytes[at..])
}

/// The number field of four bytes at this place.
pub fn u32_at(bytes: &[u8], at: usize) -> u32
    requires { at + 4 ≤ length bytes.now }
    ensures { result ≡ big_number 4 (drop at bytes.now) }
{
    BigEndian::read_u32(&bytes[at..])
}

/// The number field of six bytes at this place.
pub fn u48_at(bytes: &[u8], at: usize) -> u64
    requires { at + 6 ≤ length bytes.now }
    ensures number { result ≡ big_number 6 (drop at bytes.now) }
    ensures fits { result < 2 ^ 48 }
{
    BigEndian::read_u48(&bytes[at..])
}

/// The number field of eight bytes at this place.
pub fn u64_at(bytes: &[u8], at: usize) -> u64
    requires { at + 8 ≤ length bytes.now }
    ensures { result ≡ big_number 8 (drop at bytes.now) }
{
    BigEndian::read_u64(&bytes[at..])
}
