//! The frame of a saved filter.

ghost use Rattle.std.specs.Prelude.{◌≡◌, ◌+◌, ◌-◌, ◌≤◌, ◌^◌, ◌<◌, ◌*◌, ◌++◌, ◌∷◌, ℕ, codes, length, take, drop, replicate, slice_index, None, Some, IfOk, IfErr, OnOk, MatchResult};
ghost use Rattle.std.specs.List.{flat_map};
ghost use Rattle.byteorder.specs.Endian.{big_bytes, big_number};
ghost use Rattle.vt_bloom.specs.Bits.{AreCounts};
ghost use Rattle.vt_bloom.specs.Faults.{first_bad_filter, TellsOfFrame};
ghost use Rattle.vt_bloom.specs.Frame.{HaveWords, IsFilterFrame, head_bytes, saved_frame, magic_in, version_in, m_in, k_in, mark_in};
ghost use Rattle.vt_bloom.specs.Size.{filter_frame_len};

use crate::bits::Bits;
use crate::error::{BloomError, Field};
use byteorder::{BigEndian, ByteOrder};
use vt_base::Bytes;
use vt_base::fields::{put, put_u8, put_u16, put_u64, u16_at, u64_at};
use vt_disk::BLOCK_LEN;

/// Writes the frame of a filter with this mark.
fn encode(bits: &Bits, mark: u64, frame: &mut [u8])
    requires { length frame.old ≡ filter_frame_len bits.now.m }
    ensures written { frame.new ≡ saved_frame (record { filter = bits.now; mark = mark }) }
    ensures is { IsFilterFrame (record { filter = bits.now; mark = mark }) frame.new }
{
    let (head, words) = frame.split_at_mut(BLOCK_LEN);
    encode_head(bits.m, bits.k, mark, head);
    write_words(&bits.words, words);
}

/// The frame of a filter with this mark, in the memory of one that is as long.
pub fn encoded(bits: &Bits, mark: u64, memory: Bytes) -> Bytes
    requires { length memory ≡ filter_frame_len bits.now.m }
    ensures written { result ≡ saved_frame (record { filter = bits.now; mark = mark }) }
    ensures is { IsFilterFrame (record { filter = bits.now; mark = mark }) result }
    ensures whole { length result ≡ filter_frame_len bits.now.m }
{
    let mut frame = memory.into_vec();
    encode(bits, mark, &mut frame);
    Bytes::from_vec(frame)
}

/// Writes the block before the words.
fn encode_head(m: u8, k: u8, mark: u64, head: &mut [u8])
    requires { length head.old ≡ BLOCK_LEN }
    ensures { head.new ≡ head_bytes m k mark ++ replicate (BLOCK_LEN - 16) 0 }
{
    let at = put(head, 0, b"VBLM");
    let at = put_u16(head, at, 1);
    let at = put_u8(head, at, m);
    let at = put_u8(head, at, k);
    let at = put_u64(head, at, mark);
    head[at..].fill(0);
}

/// What the head of a frame says, on a device with room for 2^m bits: how many bits a score has,
/// and the mark. They are refused by the first test that fails.
pub fn decode_head(frame: &[u8], m: u8) -> Result<(u8, u64), BloomError>
    requires long { BLOCK_LEN ≤ length frame.now }
    requires least { 16 ≤ m }
    requires most { m ≤ 23 }
    ensures magic { OnOk result (magic_in frame.now ≡ codes "VBLM") }
    ensures version { OnOk result (version_in frame.now ≡ 1) }
    ensures m { OnOk result (m_in frame.now ≡ m) }
    ensures k { IfOk result (λ found. found.0 ≡ k_in frame.now) }
    ensures mark { IfOk result (λ found. found.1 ≡ mark_in frame.now) }
    ensures counts { IfOk result (λ found. AreCounts m found.0) }
    ensures refused { IfErr result (λ bad. first_bad_filter m frame.now ≡ Some bad) }
    ensures tells { IfErr result TellsOfFrame }
{
    // (the places of the fields: docs/FORMATS.md, The Bloom filter)
    if frame[..4] != b"VBLM"[..] {
        return Err(BloomError::NotFormatted);
    }
    let version = u16_at(frame, 4);
    if version != 1 {
        return Err(torn(Field::Version, u64::from(version), 1));
    }
    if frame[6] != m {
        return Err(torn(Field::M, u64::from(frame[6]), u64::from(m)));
    }
    let k = frame[7];
    if k == 0 || k > 32 {
        return Err(torn(Field::K, u64::from(k), 32));
    }
    Ok((k, u64_at(frame, 8)))
}

/// The refusal of a field of a frame, with what stands there and what had to.
fn torn(field: Field, found: u64, want: u64) -> BloomError
    ensures { result ≡ BloomError.Torn field found want }
{
    BloomError::Torn { field, found, want }
}

/// Writes words one behind another.
fn write_words(words: &[u64], bytes: &mut [u8])
    requires { length bytes.old ≡ 8 * length words.now }
    ensures written { bytes.new ≡ flat_map (big_bytes 8) words.now }
    ensures fit { (i : ℕ) → slice_index words.now i < 2 ^ 64 }
{
    BigEndian::write_u64_into(words, bytes);
}

/// Reads words that stand one behind another.
pub fn read_words(bytes: &[u8], words: &mut [u64])
    requires { length bytes.now ≡ 8 * length words.old }
    ensures { HaveWords bytes.now words.new }
{
    BigEndian::read_u64_into(bytes, words);
}
