//! Names, lengths and sizes on the command line.

ghost use Rattle.std.specs.Prelude.{◌≡◌, ◌≤◌, ℕ, Ok, decimal, length, IfErr, IfOk, OnOk};
ghost use Rattle.std.specs.List.{prefix_len};
ghost use Rattle.vt_bloom.specs.Size.{IsFilterSize};
ghost use Rattle.vt_conf.specs.Numbers.{wrong_digit};
ghost use Rattle.vt_format.specs.Words.{wrong_name};
ghost use Rattle.vt_part.specs.Table.{IsPartName, IsArenaSize, is_name_byte};

use crate::{LEAST_FILTER, MAX_LEN, MOST_FILTER, MOST_POSITIONS};
use vt_bloom::exponent;
use vt_conf::{NumberError, parse_number};
use vt_disk::{LEAST_ARENA, MOST_ARENA, NAME_LEN};
use vt_part::{is_arena_size, is_name};

/// A word is no name of a partition.
#[derive(Clone, Copy, Debug, PartialEq, Eq)]
pub struct NameError {
    /// The place of the first byte that can't stand in a name, 64 where the name is too long, or 0
    /// where it is empty.
    pub at: usize,
}

/// Whether a partition may have this name: 1 to 64 bytes, each a letter or a digit of ASCII, a dot,
/// a dash or an underscore.
pub fn parse_name(text: &[u8]) -> Result<(), NameError>
    ensures ok { OnOk result (IsPartName text.now) }
    ensures only { IsPartName text.now → result ≡ Ok tt }
    ensures bad { IfErr result (λ bad. bad.at ≡ wrong_name text.now) }
{
    if is_name(text) {
        Ok(())
    } else {
        Err(NameError {
            at: wrong_name(text),
        })
    }
}

/// The length that a device is to have, up to 1 TiB. Any other word is refused with the place of
/// its first wrong byte, or 0.
pub fn parse_len(text: &[u8]) -> Result<u64, NumberError>
    ensures ok { IfOk result (λ n. text.now ≡ decimal n) }
    ensures most { IfOk result (λ n. n ≤ MAX_LEN) }
    ensures only { (n : ℕ) → text.now ≡ decimal n → n ≤ MAX_LEN → result ≡ Ok n }
    ensures bad { IfErr result (λ bad. bad.at ≡ wrong_digit text.now) }
{
    parse_number(text, 0, MAX_LEN)
}

/// The size of a partition's arenas: whole blocks, from 32 KiB to 1 GiB. A number that is no such
/// size is bad at 0.
pub fn parse_arena_size(text: &[u8]) -> Result<u64, NumberError>
    ensures ok { IfOk result (λ n. text.now ≡ decimal n) }
    ensures size { IfOk result IsArenaSize }
    ensures only { (n : ℕ) → text.now ≡ decimal n → IsArenaSize n → result ≡ Ok n }
    ensures bad { IfErr result (λ bad. bad.at ≡ wrong_digit text.now) }
{
    let size = parse_number(text, LEAST_ARENA, MOST_ARENA)?;
    if is_arena_size(size) {
        Ok(size)
    } else {
        Err(NumberError { at: 0 })
    }
}

/// The size of a Bloom filter in bytes: a power of two from 8,192 to 1,048,576. A number that is no
/// such size is bad at 0.
pub fn parse_filter_size(text: &[u8]) -> Result<u64, NumberError>
    ensures ok { IfOk result (λ n. text.now ≡ decimal n) }
    ensures size { IfOk result (λ n. (m : ℕ) × IsFilterSize m n) }
    ensures only { (n m : ℕ) → text.now ≡ decimal n → IsFilterSize m n → result ≡ Ok n }
    ensures bad { IfErr result (λ bad. bad.at ≡ wrong_digit text.now) }
{
    let size = parse_number(text, LEAST_FILTER, MOST_FILTER)?;
    match exponent(size) {
        Some(_) => Ok(size),
        None => Err(NumberError { at: 0 }),
    }
}

/// How many bits of a Bloom filter each score has, from 1 to 32. Any other word is refused with the
/// place of its first wrong byte, or 0.
pub fn parse_positions(text: &[u8]) -> Result<u8, NumberError>
    ensures ok { IfOk result (λ n. text.now ≡ decimal n) }
    ensures some { IfOk result (λ n. 1 ≤ n) }
    ensures most { IfOk result (λ n. n ≤ MOST_POSITIONS) }
    ensures only { (n : ℕ) → text.now ≡ decimal n → 1 ≤ n → n ≤ MOST_POSITIONS → result ≡ Ok n }
    ensures bad { IfErr result (λ bad. bad.at ≡ wrong_digit text.now) }
{
    Ok(parse_number(text, 1, MOST_POSITIONS)? as u8)
}

/// The place of the first byte that can't stand in a name, or where a name that is too long ends.
fn wrong_name(text: &[u8]) -> usize
    ensures { result ≡ wrong_name text.now }
{
    let len = name_len(text);
    if len == text.len() && len <= NAME_LEN {
        0
    } else {
        len.min(NAME_LEN)
    }
}

/// How many bytes of names stand at the front.
fn name_len(text: &[u8]) -> usize
    ensures { result ≡ prefix_len is_name_byte text.now }
{
    text.iter()
        .take_while(|b| b.is_ascii_alphanumeric() || **b == b'.' || **b == b'-' || **b == b'_')
        .count()
}
