//! The commands of the program, with their words.

ghost use Rattle.std.specs.Prelude.{◌≡◌, IfOk};
ghost use Rattle.clap.specs.Matches.{found_of};
ghost use Rattle.clap.specs.Walk.{first_of, rows_of};
ghost use Rattle.vt_cli.specs.Words.{command_of, session_of, arenas_of, section_of, filter_of, index_of, rehearsal_of};
ghost use Rattle.vt_cli.specs.Words.{rebuild_of, check_of, read_of, write_of, vac_of, view_of};

use clap::ArgMatches;
use std::alloc::{AllocError, Global};
use vt_base::Text;

/// A command, with the words behind its name, which aren't read yet.
#[derive(Debug, Drop)]
pub enum Command {
    /// `session STORE`
    Session {
        store: Text,
    },
    /// `fmtarenas FILE NAME LENGTH ARENASIZE`
    FormatArenas {
        file: Text,
        name: Text,
        length: Text,
        arena_size: Text,
    },
    /// `fmtisect FILE NAME LENGTH`
    FormatSection {
        file: Text,
        name: Text,
        length: Text,
    },
    /// `fmtbloom FILE SIZE POSITIONS`
    FormatFilter {
        file: Text,
        size: Text,
        positions: Text,
    },
    /// `fmtindex CONF`
    FormatIndex {
        file: Text,
    },
    /// `buildindex CONF`
    RebuildIndex {
        file: Text,
    },
    /// `checkarenas CONF`
    CheckArenas {
        file: Text,
    },
    /// `read STORE SCORE TYPE`
    Read {
        store: Text,
        score: Text,
        kind: Text,
    },
    /// `write STORE TYPE`
    Write {
        store: Text,
        kind: Text,
    },
    /// `rehearse SEED COUNT`
    Rehearse {
        seed: Text,
        count: Text,
    },
    /// `vac [-b BSIZE] STORE FOLDER`
    Vac {
        store: Text,
        folder: Text,
        size: Option<Text>,
    },
    /// `vacfs STORE SCORE`
    View {
        store: Text,
        score: Text,
    },
}

/// The command of this name, with the values that clap found, if it is one and has them all.
pub(crate) fn command_of(
    alloc: Global,
    name: &str,
    found: &ArgMatches<'_>,
) -> Result<Option<Command>, AllocError>
    ensures { IfOk result (λ it. it ≡ command_of name.now (rows_of (found_of found.now))) }
{
    if name == "session" {
        session_of(alloc, found)
    } else if name == "fmtarenas" {
        arenas_of(alloc, found)
    } else if name == "fmtisect" {
        section_of(alloc, found)
    } else if name == "fmtbloom" {
        filter_of(alloc, found)
    } else if name == "fmtindex" {
        index_of(alloc, found)
    } else if name == "buildindex" {
        rebuild_of(alloc, found)
    } else if name == "checkarenas" {
        check_of(alloc, found)
    } else if name == "read" {
        read_of(alloc, found)
    } else if name == "write" {
        write_of(alloc, found)
    } else if name == "rehearse" {
        rehearsal_of(alloc, found)
    } else if name == "vac" {
        vac_of(alloc, found)
    } else if name == "vacfs" {
        view_of(alloc, found)
    } else {
        Ok(None)
    }
}

/// `session STORE`: its words as they were said, or nothing where one of them is missing.
fn session_of(alloc: Global, found: &ArgMatches<'_>) -> Result<Option<Command>, AllocError>
    ensures { IfOk result (λ it. it ≡ session_of (rows_of (found_of found.now))) }
{
    let Some(store) = value_of(alloc, found, "STORE")? else {
        return Ok(None);
    };
    Ok(Some(Command::Session { store }))
}

/// `fmtarenas FILE NAME LENGTH ARENASIZE`: its words as they were said, or nothing where one of
/// them is missing.
fn arenas_of(alloc: Global, found: &ArgMatches<'_>) -> Result<Option<Command>, AllocError>
    ensures { IfOk result (λ it. it ≡ arenas_of (rows_of (found_of found.now))) }
{
    let Some(file) = value_of(alloc, found, "FILE")? else {
        return Ok(None);
    };
    let Some(name) = value_of(alloc, found, "NAME")? else {
        return Ok(None);
    };
    let Some(length) = value_of(alloc, found, "LENGTH")? else {
        return Ok(None);
    };
    let Some(arena_size) = value_of(alloc, found, "ARENASIZE")? else {
        return Ok(None);
    };
    Ok(Some(Command::FormatArenas {
        file,
        name,
        length,
        arena_size,
    }))
}

/// `fmtisect FILE NAME LENGTH`: its words as they were said, or nothing where one of them is
/// missing.
fn section_of(alloc: Global, found: &ArgMatches<'_>) -> Result<Option<Command>, AllocError>
    ensures { IfOk result (λ it. it ≡ section_of (rows_of (found_of found.now))) }
{
    let Some(file) = value_of(alloc, found, "FILE")? else {
        return Ok(None);
    };
    let Some(name) = value_of(alloc, found, "NAME")? else {
        return Ok(None);
    };
    let Some(length) = value_of(alloc, found, "LENGTH")? else {
        return Ok(None);
    };
    Ok(Some(Command::FormatSection { file, name, length }))
}

/// `fmtbloom FILE SIZE POSITIONS`: its words as they were said, or nothing where one of them is
/// missing.
fn filter_of(alloc: Global, found: &ArgMatches<'_>) -> Result<Option<Command>, AllocError>
    ensures { IfOk result (λ it. it ≡ filter_of (rows_of (found_of found.now))) }
{
    let Some(file) = value_of(alloc, found, "FILE")? else {
        return Ok(None);
    };
    let Some(size) = value_of(alloc, found, "SIZE")? else {
        return Ok(None);
    };
    let Some(positions) = value_of(alloc, found, "POSITIONS")? else {
        return Ok(None);
    };
    Ok(Some(Command::FormatFilter {
        file,
        size,
        positions,
    }))
}

/// `fmtindex CONF`: its words as they were said, or nothing where one of them is missing.
fn index_of(alloc: Global, found: &ArgMatches<'_>) -> Result<Option<Command>, AllocError>
    ensures { IfOk result (λ it. it ≡ index_of (rows_of (found_of found.now))) }
{
    let Some(file) = value_of(alloc, found, "CONF")? else {
        return Ok(None);
    };
    Ok(Some(Command::FormatIndex { file }))
}

/// `buildindex CONF`: its words as they were said, or nothing where one of them is missing.
fn rebuild_of(alloc: Global, found: &ArgMatches<'_>) -> Result<Option<Command>, AllocError>
    ensures { IfOk result (λ it. it ≡ rebuild_of (rows_of (found_of found.now))) }
{
    let Some(file) = value_of(alloc, found, "CONF")? else {
        return Ok(None);
    };
    Ok(Some(Command::RebuildIndex { file }))
}

/// `checkarenas CONF`: its words as they were said, or nothing where one of them is missing.
fn check_of(alloc: Global, found: &ArgMatches<'_>) -> Result<Option<Command>, AllocError>
    ensures { IfOk result (λ it. it ≡ check_of (rows_of (found_of found.now))) }
{
    let Some(file) = value_of(alloc, found, "CONF")? else {
        return Ok(None);
    };
    Ok(Some(Command::CheckArenas { file }))
}

/// `read STORE SCORE TYPE`: its words as they were said, or nothing where one of them is missing.
fn read_of(alloc: Global, found: &ArgMatches<'_>) -> Result<Option<Command>, AllocError>
    ensures { IfOk result (λ it. it ≡ read_of (rows_of (found_of found.now))) }
{
    let Some(store) = value_of(alloc, found, "STORE")? else {
        return Ok(None);
    };
    let Some(score) = value_of(alloc, found, "SCORE")? else {
        return Ok(None);
    };
    let Some(kind) = value_of(alloc, found, "TYPE")? else {
        return Ok(None);
    };
    Ok(Some(Command::Read { store, score, kind }))
}

/// `write STORE TYPE`: its words as they were said, or nothing where one of them is missing.
fn write_of(alloc: Global, found: &ArgMatches<'_>) -> Result<Option<Command>, AllocError>
    ensures { IfOk result (λ it. it ≡ write_of (rows_of (found_of found.now))) }
{
    let Some(store) = value_of(alloc, found, "STORE")? else {
        return Ok(None);
    };
    let Some(kind) = value_of(alloc, found, "TYPE")? else {
        return Ok(None);
    };
    Ok(Some(Command::Write { store, kind }))
}

/// `rehearse SEED COUNT`: its words as they were said, or nothing where one of them is missing.
fn rehearsal_of(alloc: Global, found: &ArgMatches<'_>) -> Result<Option<Command>, AllocError>
    ensures { IfOk result (λ it. it ≡ rehearsal_of (rows_of (found_of found.now))) }
{
    let Some(seed) = value_of(alloc, found, "SEED")? else {
        return Ok(None);
    };
    let Some(count) = value_of(alloc, found, "COUNT")? else {
        return Ok(None);
    };
    Ok(Some(Command::Rehearse { seed, count }))
}

/// `vac` with STORE, FOLDER and, if it was said, BSIZE: its words as they were said, or nothing
/// where one of the first two is missing.
fn vac_of(alloc: Global, found: &ArgMatches<'_>) -> Result<Option<Command>, AllocError>
    ensures { IfOk result (λ it. it ≡ vac_of (rows_of (found_of found.now))) }
{
    let Some(store) = value_of(alloc, found, "STORE")? else {
        return Ok(None);
    };
    let Some(folder) = value_of(alloc, found, "FOLDER")? else {
        return Ok(None);
    };
    let size = value_of(alloc, found, "BSIZE")?;
    Ok(Some(Command::Vac {
        store,
        folder,
        size,
    }))
}

/// `vacfs STORE SCORE`: its words as they were said, or nothing where one of them is missing.
fn view_of(alloc: Global, found: &ArgMatches<'_>) -> Result<Option<Command>, AllocError>
    ensures { IfOk result (λ it. it ≡ view_of (rows_of (found_of found.now))) }
{
    let Some(store) = value_of(alloc, found, "STORE")? else {
        return Ok(None);
    };
    let Some(score) = value_of(alloc, found, "SCORE")? else {
        return Ok(None);
    };
    Ok(Some(Command::View { store, score }))
}

/// The first value of this name, if there is one.
fn value_of(alloc: Global, found: &ArgMatches<'_>, id: &str) -> Result<Option<Text>, AllocError>
    ensures { IfOk result (λ it. it ≡ first_of id.now (rows_of (found_of found.now))) }
{
    let Some(value) = found.get_str(id) else {
        return Ok(None);
    };
    Ok(Some(Text::copy_of(alloc, value.as_bytes())?))
}
