//! Command lines, and what they ask for.

use std::alloc::Global;
use std::test::Fail;
use vt_cli::{Asked, Command, ask};
use vt_rows::Rows;

/// What is asked for, in a letter.
fn letter(asked: &Asked) -> char {
    match asked {
        Asked::Do(Command::Session { .. }) => 's',
        Asked::Do(Command::FormatArenas { .. }) => 'a',
        Asked::Do(Command::FormatSection { .. }) => 'i',
        Asked::Do(Command::FormatFilter { .. }) => 'b',
        Asked::Do(Command::FormatIndex { .. }) => 'x',
        Asked::Do(Command::RebuildIndex { .. }) => 'o',
        Asked::Do(Command::CheckArenas { .. }) => 'e',
        Asked::Do(Command::Read { .. }) => 'r',
        Asked::Do(Command::Write { .. }) => 'w',
        Asked::Do(Command::Rehearse { .. }) => 'c',
        Asked::Do(Command::Vac { size: None, .. }) => 'k',
        Asked::Do(Command::Vac { size: Some(_), .. }) => 'z',
        Asked::Do(Command::View { .. }) => 'n',
        Asked::Help(_) => 'h',
        Asked::Version(_) => 'v',
        Asked::Faulty => 'f',
    }
}

/// The text that is told, if there is one.
fn text(asked: &Asked) -> &str {
    match asked {
        Asked::Help(text) | Asked::Version(text) => text.as_str(),
        Asked::Do(_) | Asked::Faulty => "",
    }
}

/// How many of these words, from the first one on, stand in a text.
fn told(text: &str, words: &[&str]) -> usize {
    words
        .iter()
        .take_while(|word| text.contains(**word))
        .count()
}

/// What words ask for, in a letter, and how many of some words its text tells; None where there is no
/// memory.
fn asked_by(alloc: Global, words: &[&str], teaching: &[&str]) -> Option<(char, usize)> {
    match ask(alloc, words) {
        Ok(asked) => Some((letter(&asked), told(text(&asked), teaching))),
        Err(_) => None,
    }
}

/// The words of a command line, and the letter of what they ask for (`letter`).
const CASES: [(&[&str], char); 32] = [
    (&["session", ":memory:"], 's'),
    (&["fmtarenas", "a.part", "a0", "40960", "32768"], 'a'),
    (&["fmtisect", "i.part", "i0", "92160"], 'i'),
    (&["fmtbloom", "b.part", "8192", "8"], 'b'),
    (&["fmtindex", "v.conf"], 'x'),
    (&["fmtindex"], 'f'),
    (&["buildindex", "v.conf"], 'o'),
    (&["checkarenas", "v.conf"], 'e'),
    (&["checkarenas", "v.conf", "0"], 'f'),
    (&["rehearse", "7", "20000"], 'c'),
    (&["rehearse", "7"], 'f'),
    (&["read", "v.conf", "vac:00", "13"], 'r'),
    (&["write", "v.conf", "13"], 'w'),
    (&["write", "v.conf"], 'f'),
    (&["vac", "v.conf", "home"], 'k'),
    (&["vac", "-b", "512", "v.conf", "home"], 'z'),
    (&["vac", "v.conf", "home", "-b4096"], 'z'),
    (&["vac", "v.conf", "-b", "512"], 'f'),
    (&["vacfs", "v.conf", "vac:00"], 'n'),
    (&["vacfs", "v.conf"], 'f'),
    (&["fmtisect", "--", "-i.part", "i0", "92160"], 'i'),
    (&["fmtisect", "-i.part", "i0", "92160"], 'f'),
    (&["fmtisect", "i.part", "i0", "-5"], 'f'),
    (&[], 'f'),
    (&["session"], 'f'),
    (&["session", ":memory:", "more"], 'f'),
    (&["serve", ":memory:"], 'f'),
    (&["help"], 'f'),
    (&["--help"], 'h'),
    (&["fmtbloom", "-h"], 'h'),
    (&["--version"], 'v'),
    (&["session", "--version"], 'f'),
];

/// A row that doesn't hold is told by its first word.
#[test]
fn words_ask_for_this(rt: HostRuntime) -> Result<(), Fail> {
    let mut rows = Rows::new();
    for (row, (words, asked)) in CASES.iter().enumerate() {
        let what = match words.first() {
            Some(word) => *word,
            None => "no words",
        };
        rows.nth(
            row,
            what,
            asked_by(rt.alloc(), words, &[]) == Some((*asked, 0)),
        );
    }
    rows.passes()
}

/// Whether words ask for this, and its text tells each of some words. A word that it lacks is told.
fn teaches(alloc: Global, words: &[&str], asked: char, teaching: &[&'static str]) -> Rows {
    let mut rows = Rows::new();
    match asked_by(alloc, words, teaching) {
        Some((found, told)) => {
            rows.is("what is asked for", found == asked);
            if let Some(word) = teaching.get(told) {
                rows.nth(told, *word, false);
            }
        }
        None => rows.is("memory", false),
    }
    rows
}

/// Each command, and how an example begins.
const COMMANDS: [&str; 13] = [
    "session",
    "fmtarenas",
    "fmtisect",
    "fmtbloom",
    "fmtindex",
    "buildindex",
    "checkarenas",
    "rehearse",
    "read",
    "write",
    "vac",
    "vacfs",
    "mkdir store",
];

/// Help names each command and gives an example.
#[test]
fn help_teaches(rt: HostRuntime) -> Result<(), Fail> {
    teaches(rt.alloc(), &["--help"], 'h', &COMMANDS).passes()
}

#[test]
fn a_version_is_told(rt: HostRuntime) -> Result<(), Fail> {
    teaches(rt.alloc(), &["-V"], 'v', &["0.1.0", "logic"]).passes()
}
