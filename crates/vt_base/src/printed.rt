//! Scores as text: 40 hexadecimal digits.

ghost use Rattle.std.specs.Prelude.{◌≡◌, ℕ, List, ◌≤◌, length, IfOk, IfErr, IsOkAnd};
ghost use Rattle.std.specs.List.{prefix_len};
ghost use Rattle.hex.specs.Hex.{encode_lower};
ghost use Rattle.vt_base.specs.ScoreText.{SpellsScore, is_label_byte, front_len, digits_len, wrong_place};

use crate::{Score, Text};
use hex::FromHex;
use std::alloc::{AllocError, Global};

/// How many digits a score has.
const DIGITS: usize = 40;

/// A text is not that of a score.
#[derive(Clone, Copy, Debug, PartialEq, Eq)]
pub struct BadScore {
    /// The place of the first byte that can't stand there, or the length where the text is too
    /// short.
    pub at: usize,
}

/// The 40 digits of a score, with small letters.
pub fn score_text(alloc: Global, score: &Score) -> Result<Text, AllocError>
    ensures { IfOk result (λ text. text ≡ encode_lower score.now.0) }
{
    let text = hex::encode(alloc, score.0.as_slice())?;
    Ok(Text::from_vec(text.into_bytes()))
}

/// The score of a text: 40 digits in either case and nothing more, behind a label and a colon or
/// without them, as `vac:` (vac(1)). Any other text is refused with the place of its first wrong
/// byte.
pub fn parse_score(text: &[u8]) -> Result<Score, BadScore>
    ensures ok { IfOk result (λ score. SpellsScore score.0 text.now) }
    ensures only { (score : List ℕ) → SpellsScore score text.now → IsOkAnd result (λ s. s.0 ≡ score) }
    ensures bad { IfErr result (λ bad. bad.at ≡ wrong_place text.now) }
{
    let start = front_len(text);
    let digits = &text[start..];
    match <[u8; 20]>::from_hex(digits) {
        Ok(bytes) => Ok(Score(bytes)),
        Err(_) => Err(BadScore {
            at: start + digits_len(digits),
        }),
    }
}

/// How many bytes a label at the front has, with its colon; 0 where no label is there.
fn front_len(text: &[u8]) -> usize
    ensures value { result ≡ front_len text.now }
    ensures within { result ≤ length text.now }
{
    let n = label_len(text);
    if n > 0 && n < text.len() && text[n] == b':' {
        n + 1
    } else {
        0
    }
}

/// How many lower-case letters and decimal digits stand at the front.
fn label_len(text: &[u8]) -> usize
    ensures value { result ≡ prefix_len is_label_byte text.now }
    ensures within { result ≤ length text.now }
{
    text.iter()
        .take_while(|b| b.is_ascii_lowercase() || b.is_ascii_digit())
        .count()
}

/// How many hexadecimal digits stand at the front, of which 40 are looked at.
fn digits_len(text: &[u8]) -> usize
    ensures value { result ≡ digits_len text.now }
    ensures within { result ≤ length text.now }
{
    text.iter()
        .take(DIGITS)
        .take_while(|b| b.is_ascii_hexdigit())
        .count()
}
