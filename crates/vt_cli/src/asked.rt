//! What the words of a command line ask for.

ghost use Rattle.std.specs.Prelude.{map, IfOk};
ghost use Rattle.clap.specs.Simple.{subcommand_rows_of};
ghost use Rattle.clap.specs.Values.{kind_of};
ghost use Rattle.vt_cli.specs.Words.{Asks, said_by, IsSpoken, IsUnspoken};

use crate::command::{Command, command_of};
use crate::venti::venti;
use clap::error::ErrorKind;
use clap::{ArgMatches, Error};
use std::alloc::{AllocError, Global};
use std::convert::AsStr;

/// What the words of a command line ask for.
#[derive(Debug, Drop)]
pub enum Asked {
    /// A command.
    Do(Command),
    /// To be told how the program is used.
    Help(String),
    /// To be told its version.
    Version(String),
    /// Nothing that the program knows.
    Faulty,
}

/// What these words ask for, which stand behind the program's name.
pub fn ask<'a, S: AsStr>(alloc: Global, words: &'a [S]) -> Result<Asked, AllocError>
    ensures { IfOk result (Asks (map S.text words.entry.now)) }
{
    match venti(alloc)?.try_get_matches_from(words) {
        Ok(found) => spoken(alloc, &found),
        Err(error) => unspoken(alloc, &error),
    }
}

/// What was said where clap takes the words: a command, if it is one and has all its values.
fn spoken(alloc: Global, found: &ArgMatches<'_>) -> Result<Asked, AllocError>
    ensures { IfOk result (IsSpoken (said_by (subcommand_rows_of found.now))) }
{
    let command = match found.subcommand() {
        Some((name, values)) => command_of(alloc, name, values)?,
        None => None,
    };
    match command {
        Some(command) => Ok(Asked::Do(command)),
        None => Ok(Asked::Faulty),
    }
}

/// What was asked where clap doesn't take the words.
fn unspoken(alloc: Global, error: &Error) -> Result<Asked, AllocError>
    ensures { IfOk result (IsUnspoken (kind_of error.now)) }
{
    match error.kind() {
        ErrorKind::OutOfMemory => Err(AllocError),
        ErrorKind::DisplayHelp => Ok(Asked::Help(text_of(alloc, error)?)),
        ErrorKind::DisplayVersion => Ok(Asked::Version(text_of(alloc, error)?)),
        _ => Ok(Asked::Faulty),
    }
}

/// What clap would print of it: help, or the version.
fn text_of(alloc: Global, error: &Error) -> Result<String, AllocError> {
    Ok(format!(in alloc; "{error}")?)
}
