//! What is told where a partition that a configuration names is refused, or its store isn't opened.

ghost use Rattle.std.specs.Prelude.{◌≡◌, IfOk};
ghost use Rattle.vt_format.specs.Index.{files_in_order};
ghost use Rattle.run_base.specs.Configurations.{IsRefusalAmong, name_at};
ghost use Rattle.run_base.specs.Unopened.{IsOpenRefusal};

use crate::error::CommandError;
use crate::shown::{Shown, Unit};
use std::alloc::{AllocError, Global};
use vt_base::{MountBad, Text};
use vt_conf::Conf;
use vt_open::OpenError;
use vt_out::Sink;

/// What is told where the store isn't opened. A file that can't be had is named on the terminal.
pub fn told<T: Sink + Drop>(
    alloc: Global,
    terminal: Option<T>,
    file: &Text,
    conf: &Conf,
    bad: OpenError,
) -> CommandError
    ensures { IsOpenRefusal file.now conf.now bad result }
{
    let mut shown = Shown::new(terminal, Unit::Buckets);
    told_on(alloc, &mut shown, file, conf, bad)
}

/// Why a store wasn't opened, told as `told` does, where the terminal shows how far a command has
/// come.
pub fn told_on<T: Sink>(
    alloc: Global,
    shown: &mut Shown<T>,
    file: &Text,
    conf: &Conf,
    bad: OpenError,
) -> CommandError
    ensures { IsOpenRefusal file.now conf.now bad result }
{
    match bad {
        OpenError::Missing { part } => {
            shown.name(name_at(file, conf, part).as_slice());
            CommandError::DiskFault
        }
        OpenError::Refused(bad) => match refusal_among(alloc, file, conf, bad) {
            Ok(failure) => failure,
            Err(AllocError) => CommandError::NoMemory,
        },
    }
}

/// What is told where a partition that a configuration names is refused.
pub fn refusal_among(
    alloc: Global,
    file: &Text,
    conf: &Conf,
    bad: MountBad,
) -> Result<CommandError, AllocError>
    ensures { IfOk result (IsRefusalAmong file.now (files_in_order conf.now) bad) }
{
    Ok(match bad {
        MountBad::NotFormatted { part } => CommandError::NotFormatted {
            file: name_of(alloc, file, conf, part)?,
        },
        MountBad::TooSmall { part, len, need } => CommandError::TooSmall {
            file: name_of(alloc, file, conf, part)?,
            len,
            need,
        },
        MountBad::DuplicateName { first, second } => CommandError::SameName {
            file: name_of(alloc, file, conf, second)?,
            other: name_of(alloc, file, conf, first)?,
        },
        MountBad::Disagree {
            part,
            field,
            found,
            want,
        } => CommandError::Disagree {
            file: name_of(alloc, file, conf, part)?,
            field,
            found,
            want,
        },
        MountBad::Damaged {
            site: _,
            want,
            found,
        } => CommandError::Damaged { want, found },
        MountBad::Fault => CommandError::DiskFault,
        MountBad::NoMemory => CommandError::NoMemory,
    })
}

/// The name by which the configuration has that file.
fn name_of(alloc: Global, file: &Text, conf: &Conf, part: u32) -> Result<Text, AllocError>
    ensures { IfOk result (λ name. name ≡ name_at file.now (files_in_order conf.now) part) }
{
    Text::copy_of(alloc, name_at(file, conf, part).as_slice())
}

/// The file of the partition with this number, or the configuration's own where it names none.
pub fn name_at<'a>(file: &'a Text, conf: &'a Conf, part: u32) -> &'a Text
    ensures { result.now ≡ name_at file.now (files_in_order conf.now) part }
{
    let at = part as usize;
    if let Some(named) = conf.arenas.get(at) {
        return &named.name;
    }
    let at = at - conf.arenas.len();
    if let Some(named) = conf.sections.get(at) {
        return &named.name;
    }
    match &conf.filter {
        Some(named) if at == conf.sections.len() => &named.name,
        _ => file,
    }
}
