//! Sizes as text: digits, and k, m or g behind them (venti.conf(6)).

ghost use Rattle.std.specs.Prelude.{◌≡◌, ◌*◌, ◌<◌, ◌^◌, ℕ, Some, decimal, IfSome};
ghost use Rattle.vt_conf.specs.Sizes.{SpellsSize, unit_of};

use crate::number::number;

/// How many bytes the text of a size says (venti.conf(6)): a number, and behind it at most one of
/// `k`, `m` and `g` in either case, for 1,024, its square and its cube. Sizes are below 2^63.
pub fn parse_size(text: &[u8]) -> Option<u64>
    ensures size { IfSome result (λ size. SpellsSize size text.now) }
    ensures only { (size : ℕ) → SpellsSize size text.now → result ≡ Some size }
{
    let (last, front) = text.split_last()?;
    match unit(*last) {
        Some(unit) => sized(front, unit),
        None => sized(text, 1),
    }
}

/// So many units as these digits say; None where that is no number, or no size.
fn sized(digits: &[u8], unit: u64) -> Option<u64>
    requires { 0 < unit }
    ensures size { IfSome result (λ size. (n : ℕ) × (digits.now ≡ decimal n) × (n < 2 ^ 64)
        × (size ≡ n * unit) × (size < 2 ^ 63)) }
    ensures only { (n : ℕ) → digits.now ≡ decimal n → n * unit < 2 ^ 63
        → result ≡ Some (n * unit) }
{
    let n = number(digits)?;
    n.checked_mul(unit).filter(|size| *size < 1 << 63)
}

/// What the letter at a size's end stands for, or None where it stands for nothing.
fn unit(letter: u8) -> Option<u64>
    ensures value { result ≡ unit_of letter }
    ensures some { IfSome result (λ unit. 0 < unit) }
{
    match letter {
        b'k' | b'K' => Some(1 << 10),
        b'm' | b'M' => Some(1 << 20),
        b'g' | b'G' => Some(1 << 30),
        _ => None,
    }
}
