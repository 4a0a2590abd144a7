//! Numbers as text: decimal digits without a sign or a leading zero.

ghost use Rattle.std.specs.Prelude.{◌≡◌, ◌≤◌, ◌<◌, ◌^◌, ◌==◌, ℕ, decimal, length, IfErr, IfOk, IfSome};
ghost use Rattle.std.specs.List.{prefix_len};
ghost use Rattle.std.specs.Char.{is_ascii_digit};
ghost use Rattle.vt_conf.specs.Numbers.{number_len, wrong_digit};

use std::str;

/// A word is not a number, or not one that is allowed.
#[derive(Clone, Copy, Debug, PartialEq, Eq)]
pub struct NumberError {
    /// The place of the first byte that can't stand in a number, or 0 where the word is empty or
    /// its number isn't allowed.
    pub at: usize,
}

/// The number of a word of the command line: decimal digits, without a sign and without zeros in
/// front, from `least` to `most`. Any other word is refused with the place of its first wrong byte,
/// or 0 where its number isn't allowed.
pub fn parse_number(text: &[u8], least: u64, most: u64) -> Result<u64, NumberError>
    ensures ok { IfOk result (λ n. text.now ≡ decimal n) }
    ensures least { IfOk result (λ n. least ≤ n) }
    ensures most { IfOk result (λ n. n ≤ most) }
    ensures only { (n : ℕ) → text.now ≡ decimal n → least ≤ n → n ≤ most → result ≡ Ok n }
    ensures bad { IfErr result (λ bad. bad.at ≡ wrong_digit text.now) }
{
    match number(text) {
        Some(n) if least <= n && n <= most => Ok(n),
        _ => Err(NumberError {
            at: wrong_digit(text),
        }),
    }
}

/// The number whose decimal digits these are; None where the text is no number, or its number
/// doesn't fit 64 bits.
pub(crate) fn number(text: &[u8]) -> Option<u64>
    ensures value { IfSome result (λ n. text.now ≡ decimal n) }
    ensures only { (n : ℕ) → n < 2 ^ 64 → text.now ≡ decimal n → result ≡ Some n }
{
    if number_len(text) < text.len() {
        return None;
    }
    str::from_utf8(text).ok()?.parse().ok()
}

/// The place of the first byte that can't stand in a number, or 0 where there is none.
fn wrong_digit(text: &[u8]) -> usize
    ensures { result ≡ wrong_digit text.now }
{
    let len = number_len(text);
    if len < text.len() { len } else { 0 }
}

/// How many bytes at the front are those of a number: digits, and none behind a zero in front.
fn number_len(text: &[u8]) -> usize
    ensures { result ≡ number_len text.now }
{
    if !text.is_empty() && text[0] == b'0' {
        1
    } else {
        digits_len(text)
    }
}

/// How many digits stand at the front.
fn digits_len(text: &[u8]) -> usize
    ensures { result ≡ prefix_len is_ascii_digit text.now }
{
    text.iter().take_while(|b| b.is_ascii_digit()).count()
}
