//! Reading a configuration.

ghost use Rattle.std.specs.Prelude.{◌≡◌, ◌≤◌, ◌==◌, length, All, IfErr, IfOk, OnOk};
ghost use Rattle.std.specs.List.{before_first, position_or_len};
ghost use Rattle.vt_conf.specs.Configuration.{Configures, IsFirstCause, IsFirstWrong, IsConfText, IsPlainLine, IsWrongLine};
ghost use Rattle.vt_conf.specs.Configuration.{AreSettings};
ghost use Rattle.vt_conf.specs.Lines.{lines_of};
ghost use Rattle.vt_conf.specs.Parsing.{AddsLine, IsBad, IsBadLine};

use crate::conf::Conf;
use crate::error::{ConfBad, ConfCause, ConfErr};
use crate::line::ends_in_return;
use crate::said::{conf_of, count};
use crate::setting::{Setting, read_line};
use crate::{Keyword, MAX_CONF};
use std::alloc::Global;
use std::str;
use vt_base::Text;

/// Reads a configuration (venti.conf(6)): each line says one thing by its first word, and what
/// begins with `#` is a comment. It takes time in the length of the text.
pub fn parse_conf(alloc: Global, text: &[u8]) -> Result<Conf, ConfErr>
    ensures conf { IfOk result (Configures text.now) }
    ensures bad { IfErr result (IsBad (IsFirstCause text.now)) }
{
    test_text(text)?;
    let settings = read_settings(alloc, text)?;
    let settings = settings.as_slice();
    if count(settings, Keyword::Arenas) == 0 {
        return Err(ConfErr::Bad(whole(ConfCause::NoArenas)));
    }
    if count(settings, Keyword::Isect) == 0 {
        return Err(ConfErr::Bad(whole(ConfCause::NoSections)));
    }
    Ok(conf_of(alloc, settings)?)
}

/// What is wrong with the whole text.
fn whole(why: ConfCause) -> ConfBad
    ensures { result ≡ record { line = 0; why = why } }
{
    ConfBad { line: 0, why }
}

/// Whether a text may be a configuration, whatever its lines say.
fn test_text(text: &[u8]) -> Result<(), ConfBad>
    ensures ok { OnOk result (IsConfText text.now) }
    ensures bad { IfErr result (λ bad. IsFirstCause text.now bad.line bad.why) }
{
    test_lines(text)?;
    if text.len() > MAX_CONF {
        return Err(whole(ConfCause::TooLong));
    }
    Ok(())
}

/// Whether each line of a text is UTF-8, and none ends with a carriage return. The first that isn't
/// so is refused with its number.
fn test_lines(text: &[u8]) -> Result<(), ConfBad>
    ensures ok { OnOk result (All IsPlainLine (lines_of text.now)) }
    ensures bad { IfErr result (λ bad. IsFirstWrong text.now bad.line bad.why) }
{
    let mut number = 0;
    let mut start = 0;
    while start <= text.len() {
        let line = first_line(&text[start..]);
        number += 1;
        if let Err(why) = test_line(line) {
            return Err(ConfBad { line: number, why });
        }
        start += line.len() + 1;
    }
    Ok(())
}

/// Whether a line is UTF-8 and ends without a carriage return: one would be part of a file's name.
fn test_line(line: &[u8]) -> Result<(), ConfCause>
    ensures ok { OnOk result (IsPlainLine line.now) }
    ensures bad { IfErr result (λ why. IsWrongLine why line.now) }
{
    if str::from_utf8(line).is_err() {
        return Err(ConfCause::NotUtf8);
    }
    if ends_in_return(line) {
        return Err(ConfCause::CarriageReturn);
    }
    Ok(())
}

/// What the lines of a text set. The first that says nothing is refused with its number and the
/// cause.
fn read_settings(alloc: Global, text: &[u8]) -> Result<Vec<Setting>, ConfErr>
    requires { IsConfText text.now }
    ensures ok { IfOk result (λ settings. AreSettings text.now settings.items) }
    ensures bad { IfErr result (IsBad (IsFirstCause text.now)) }
{
    let mut settings = Vec::new(alloc);
    let mut number = 0;
    let mut start = 0;
    while start <= text.len() {
        let line = first_line(&text[start..]);
        number += 1;
        add_line(alloc, &mut settings, number, line)?;
        start += line.len() + 1;
    }
    Ok(settings)
}

/// Adds what a line sets. There are 137 settings at most, so that a line takes no longer the more
/// there are.
fn add_line(
    alloc: Global,
    settings: &mut Vec<Setting>,
    number: usize,
    line: &[u8],
) -> Result<(), ConfErr>
    ensures ok { OnOk result (AddsLine number line.now settings.old.items settings.new.items) }
    ensures bad { IfErr result (IsBad (IsBadLine settings.old.items number line.now)) }
{
    let (keyword, value) = match read_line(line) {
        Ok(Some(read)) => read,
        Ok(None) => return Ok(()),
        Err(why) => return Err(ConfErr::Bad(ConfBad { line: number, why })),
    };
    if count(settings, keyword) >= keyword.room() {
        let why = keyword.exceeded();
        return Err(ConfErr::Bad(ConfBad { line: number, why }));
    }
    let value = Text::copy_of(alloc, value)?;
    settings.push(Setting {
        keyword,
        value,
        line: number,
    })?;
    Ok(())
}

/// The first line of a text, without its newline.
fn first_line(text: &[u8]) -> &[u8]
    ensures value { result.now ≡ before_first (λ b. b == 10) text.now }
    ensures within { length result.now ≤ length text.now }
{
    &text[..line_len(text)]
}

/// How many bytes stand before the first newline.
fn line_len(text: &[u8]) -> usize
    ensures value { result ≡ position_or_len (λ b. b == 10) text.now }
    ensures within { result ≤ length text.now }
{
    text.iter().take_while(|b| **b != b'\n').count()
}
