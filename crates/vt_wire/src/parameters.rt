//! Reading the parameters of a message, one behind another. Each call takes the parameter of this
//! number from the front, and gives what stands behind it too.

ghost use Rattle.std.specs.Prelude.{◌≡◌, ◌≢◌, ℕ, List, [], ◌++◌, length, IfOk, IfErr};
ghost use Rattle.vt_wire.specs.Fields.{IsText, string, bytes_of, a_string, a_list, BeginsWithForm};

use crate::{MAX_STRING, WireBad};
use vt_base::fields::u16_at;

/// The parameter in front, which has so many bytes, and what stands behind it. It is `Bad` with its
/// number where there are fewer bytes.
pub(crate) fn array_at<const N: usize>(
    bytes: &[u8],
    number: u8,
) -> Result<(&[u8; N], &[u8]), WireBad>
    ensures found { IfOk result (λ r. (length r.0.now ≡ N) × (bytes.now ≡ r.0.now ++ r.1.now)) }
    ensures bad { IfErr result (λ e. e ≡ WireBad.Bad number) }
    ensures none { IfErr result (λ _. (rest : List ℕ)
        → ¬ BeginsWithForm (bytes_of N) bytes.now rest) }
{
    bytes.split_first_chunk().ok_or(WireBad::Bad(number))
}

/// A string, which has two bytes of length. It is `Bad` with its number where there are fewer bytes
/// than that counts, or they are no text.
pub(crate) fn string_at(bytes: &[u8], number: u8) -> Result<(&[u8], &[u8]), WireBad>
    ensures found { IfOk result (λ r. IsText r.0.now × (bytes.now ≡ string r.0.now ++ r.1.now)) }
    ensures bad { IfErr result (λ e. e ≡ WireBad.Bad number) }
    ensures none { IfErr result (λ _. (rest : List ℕ) → ¬ BeginsWithForm a_string bytes.now rest) }
{
    if bytes.len() < 2 {
        return Err(WireBad::Bad(number));
    }
    let Some((text, rest)) = bytes[2..].split_at_checked(usize::from(u16_at(bytes, 0))) else {
        return Err(WireBad::Bad(number));
    };
    if text.len() > MAX_STRING || text.contains(&0) {
        return Err(WireBad::Bad(number));
    }
    Ok((text, rest))
}

/// What stands behind a list, which has one byte of length. It is `Bad` with its number where there
/// are fewer bytes than that counts.
pub(crate) fn behind_list(bytes: &[u8], number: u8) -> Result<&[u8], WireBad>
    ensures found { IfOk result (λ rest. BeginsWithForm a_list bytes.now rest.now) }
    ensures bad { IfErr result (λ e. e ≡ WireBad.Bad number) }
    ensures none { IfErr result (λ _. (rest : List ℕ) → ¬ BeginsWithForm a_list bytes.now rest) }
{
    let (size, rest) = bytes.split_first().ok_or(WireBad::Bad(number))?;
    let (_items, rest) = rest
        .split_at_checked(usize::from(*size))
        .ok_or(WireBad::Bad(number))?;
    Ok(rest)
}

/// Nothing, behind the last parameter. Where bytes stand there it is `Bad`, with the number one
/// past the last.
pub(crate) fn at_end(bytes: &[u8], number: u8) -> Result<(), WireBad>
    ensures found { IfOk result (λ _. bytes.now ≡ []) }
    ensures bad { IfErr result (λ e. e ≡ WireBad.Bad number) }
    ensures none { IfErr result (λ _. bytes.now ≢ []) }
{
    if bytes.is_empty() {
        Ok(())
    } else {
        Err(WireBad::Bad(number))
    }
}

/// A message without parameters: any byte behind the tag is too much.
pub(crate) fn alone<T: Copy>(parameters: &[u8], message: T) -> Result<T, WireBad>
    ensures ok { IfOk result (λ m. (m ≡ message) × (parameters.now ≡ [])) }
    ensures err { IfErr result (λ e. (e ≡ WireBad.Bad 0) × (parameters.now ≢ [])) }
{
    at_end(parameters, 0)?;
    Ok(message)
}
