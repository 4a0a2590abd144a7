//! What one line of a configuration sets.

ghost use Rattle.std.specs.Prelude.{◌≡◌, [], ◌∷◌, IfErr, IfOk, IfNone, IfSome, OnOk};
ghost use Rattle.vt_conf.specs.Lines.{words_of_line};
ghost use Rattle.vt_conf.specs.Settings.{IsValue, IsSizeText, IsAddress, LacksValue, IsSettingRead, Misreads};

use crate::address::is_address;
use crate::error::ConfCause;
use crate::line::next_word;
use crate::{Keyword, parse_size};
use vt_base::Text;

/// What a line sets.
#[derive(Drop)]
pub struct Setting {
    pub keyword: Keyword,
    /// The keyword's value, or no bytes where it takes none.
    pub value: Text,
    /// The line, counted from 1.
    pub line: usize,
}

/// The keyword and the value of a line, if it has words.
pub(crate) fn read_line(line: &[u8]) -> Result<Option<(Keyword, &[u8])>, ConfCause>
    ensures none { IfOk result (λ read. IfNone read (words_of_line line.now ≡ [])) }
    ensures some { IfOk result (λ read. IfSome read (λ setting.
        IsSettingRead (words_of_line line.now) setting.0 setting.1.now)) }
    ensures bad { IfErr result (Misreads (words_of_line line.now)) }
{
    let Some((name, rest)) = next_word(line) else {
        return Ok(None);
    };
    let keyword = Keyword::of(name).ok_or(ConfCause::UnknownName)?;
    let (value, rest) = if keyword.takes_value() {
        next_word(rest).ok_or(ConfCause::MissingValue)?
    } else {
        (&rest[..0], rest)
    };
    if next_word(rest).is_some() {
        return Err(ConfCause::ExtraValue);
    }
    test_value(keyword, value)?;
    Ok(Some((keyword, value)))
}

/// Whether a keyword may have this value.
fn test_value(keyword: Keyword, value: &[u8]) -> Result<(), ConfCause>
    ensures ok { OnOk result (IsValue keyword value.now) }
    ensures bad { IfErr result (LacksValue keyword value.now) }
{
    if keyword.takes_size() {
        test_size(value)
    } else if keyword.takes_address() {
        test_address(value)
    } else {
        Ok(())
    }
}

/// Whether a text says a size. One that doesn't is refused for that.
fn test_size(text: &[u8]) -> Result<(), ConfCause>
    ensures ok { OnOk result (IsSizeText text.now) }
    ensures bad { IfErr result (λ why. (why ≡ ConfCause.BadSize) × ¬ IsSizeText text.now) }
{
    match parse_size(text) {
        Some(_) => Ok(()),
        None => Err(ConfCause::BadSize),
    }
}

/// Whether a text says an address. One that doesn't is refused for that.
fn test_address(text: &[u8]) -> Result<(), ConfCause>
    ensures ok { OnOk result (IsAddress text.now) }
    ensures bad { IfErr result (λ why. (why ≡ ConfCause.BadAddress) × ¬ IsAddress text.now) }
{
    if is_address(text) {
        Ok(())
    } else {
        Err(ConfCause::BadAddress)
    }
}
