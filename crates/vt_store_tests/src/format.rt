//! Words that are taken and words that aren't, and partitions that are formatted.

use crate::made::{Form, Made, Making, failing, in_memory, make_all};
use std::alloc::Global;
use std::test::Fail;
use vt_base::{MountBad, MountField};
use vt_format::{
    Index, IndexError, parse_arena_size, parse_filter_size, parse_len, parse_name, parse_positions,
};
use vt_partitions::Parts;
use vt_rows::Rows;

// ---- words

/// What a number on the command line is.
#[derive(Clone, Copy)]
enum Number {
    /// The bytes of a partition.
    Len,
    /// Those of an arena.
    ArenaSize,
    /// Those of a filter.
    FilterSize,
    /// How many bits of a filter a score has.
    Positions,
}

/// Words and the numbers that they are, or the places where they are bad.
type Wanted<'a> = &'a [(&'a [u8], Result<u64, usize>)];

/// Such words, of each number.
const LENGTHS: [(&[u8], Result<u64, usize>); 5] = [
    (b"0", Ok(0)),
    (b"41471", Ok(41_471)),
    (b"1099511627776", Ok(1 << 40)),
    (b"1099511627777", Err(0)),
    (b"4k", Err(1)),
];

const ARENA_SIZES: [(&[u8], Result<u64, usize>); 5] = [
    (b"32768", Ok(32_768)),
    (b"1073741824", Ok(1 << 30)),
    (b"40000", Err(0)),
    (b"24576", Err(0)),
    (b"32768 ", Err(5)),
];

const FILTER_SIZES: [(&[u8], Result<u64, usize>); 6] = [
    (b"8192", Ok(8192)),
    (b"1048576", Ok(1 << 20)),
    (b"4096", Err(0)),
    (b"2097152", Err(0)),
    (b"8193", Err(0)),
    (b"8k", Err(1)),
];

const POSITIONS: [(&[u8], Result<u64, usize>); 5] = [
    (b"1", Ok(1)),
    (b"32", Ok(32)),
    (b"0", Err(0)),
    (b"33", Err(0)),
    (b"x", Err(0)),
];

/// What a row says of a number, the number, and its words.
const NUMBERS: [(&str, Number, Wanted<'static>); 4] = [
    ("a length", Number::Len, &LENGTHS),
    ("an arena's size", Number::ArenaSize, &ARENA_SIZES),
    ("a filter's size", Number::FilterSize, &FILTER_SIZES),
    ("a count of positions", Number::Positions, &POSITIONS),
];

/// What a word is taken for.
fn parsed(word: Number, text: &[u8]) -> Result<u64, usize> {
    let taken = match word {
        Number::Len => parse_len(text),
        Number::ArenaSize => parse_arena_size(text),
        Number::FilterSize => parse_filter_size(text),
        Number::Positions => match parse_positions(text) {
            Ok(positions) => Ok(u64::from(positions)),
            Err(bad) => Err(bad),
        },
    };
    match taken {
        Ok(number) => Ok(number),
        Err(bad) => Err(bad.at),
    }
}

/// Notes whether each of these words is taken for what it is.
fn numbers(rows: &mut Rows, what: &'static str, word: Number, words: Wanted<'_>) {
    for (row, (text, wanted)) in words.iter().enumerate() {
        rows.nth(row, what, parsed(word, text) == *wanted);
    }
}

/// Words that are names, the longest among them, and those that aren't, with the places where they
/// are bad.
const NAMES: [(&[u8], Result<(), usize>); 8] = [
    (b"a0", Ok(())),
    (b"A.b-c_9", Ok(())),
    (
        b"aaaaaaaaaaaaaaaaaaaaaaaaaaaaaaaaaaaaaaaaaaaaaaaaaaaaaaaaaaaaaaaa",
        Ok(()),
    ),
    (
        b"aaaaaaaaaaaaaaaaaaaaaaaaaaaaaaaaaaaaaaaaaaaaaaaaaaaaaaaaaaaaaaaaa",
        Err(64),
    ),
    (b"", Err(0)),
    (b"a b", Err(1)),
    (b"/a", Err(0)),
    (b"caf\xc3\xa9", Err(3)),
];

/// Whether a word is a name, or where it is bad.
fn name(text: &[u8]) -> Result<(), usize> {
    match parse_name(text) {
        Ok(()) => Ok(()),
        Err(bad) => Err(bad.at),
    }
}

/// Notes whether each of `NAMES` is taken for what it is.
fn names(rows: &mut Rows) {
    for (row, (text, wanted)) in NAMES.iter().enumerate() {
        rows.nth(row, "a name", name(text) == *wanted);
    }
}

#[test]
fn words(rt: HostRuntime) -> Result<(), Fail> {
    let mut rows = Rows::new();
    names(&mut rows);
    for (what, word, words) in &NUMBERS {
        numbers(&mut rows, what, *word, words);
    }
    rows.passes()
}

// ---- partitions

/// Partitions are made and grown, and those that are too short are refused.
const EACH: [Making<'static>; 8] = [
    (
        "arenas in a new file",
        Form::Arenas,
        b"a.part",
        b"a0",
        40_960,
        Ok(1),
    ),
    (
        "arenas in a file that is grown",
        Form::Arenas,
        b"a.part",
        b"a0",
        73_728,
        Ok(2),
    ),
    (
        "arenas in a file that is long",
        Form::Arenas,
        b"a.part",
        b"a0",
        0,
        Ok(2),
    ),
    (
        "arenas in a short file",
        Form::Arenas,
        b"small",
        b"a0",
        40_959,
        Err(MountBad::TooSmall {
            part: 0,
            len: 40_959,
            need: 40_960,
        }),
    ),
    (
        "a section's buckets",
        Form::Section,
        b"i.part",
        b"i0",
        92_160,
        Ok(4),
    ),
    (
        "a section in a short file",
        Form::Section,
        b"short",
        b"i0",
        41_471,
        Err(MountBad::TooSmall {
            part: 0,
            len: 41_471,
            need: 41_472,
        }),
    ),
    ("a filter", Form::Filter, b"b.part", b"", 0, Ok(0)),
    (
        "a filter in a section's file",
        Form::Filter,
        b"i.part",
        b"",
        0,
        Err(MountBad::Disagree {
            part: 0,
            field: MountField::M,
            found: 16,
            want: 18,
        }),
    ),
];

/// The partitions of the configurations below.
const MADE: [Making<'static>; 5] = [
    ("arenas a", Form::Arenas, b"a", b"a0", 40_960, Ok(1)),
    ("arenas c", Form::Arenas, b"c", b"a0", 40_960, Ok(1)),
    ("section i", Form::Section, b"i", b"i0", 92_160, Ok(4)),
    ("section j", Form::Section, b"j", b"i0", 41_472, Ok(1)),
    ("filter b", Form::Filter, b"b", b"", 0, Ok(0)),
];

/// A configuration, and what its index then is, or what it is refused for, which is found first.
const CASES: [(&[u8], Result<Index, IndexError>); 11] = [
    (
        b"arenas a\nisect i\nisect j\nbloom b\n",
        Ok(Index {
            buckets: 5,
            sections: 2,
        }),
    ),
    (
        b"arenas a\nisect j\n",
        Ok(Index {
            buckets: 1,
            sections: 1,
        }),
    ),
    (
        b"arenas a\nisect x\n",
        Err(IndexError::Fault { part: Some(1) }),
    ),
    // (behind a healthy one, and in front of two)
    (
        b"arenas a\nisect i\nisect x\nisect j\nbloom b\n",
        Err(IndexError::Fault { part: Some(2) }),
    ),
    (
        b"arenas a\narenas a\nisect i\n",
        Err(IndexError::Fault { part: Some(1) }),
    ),
    (
        b"arenas a\nisect i\nisect i\n",
        Err(IndexError::Fault { part: Some(2) }),
    ),
    (
        b"arenas a\nisect i\nbloom a\n",
        Err(IndexError::Fault { part: Some(2) }),
    ),
    (
        b"arenas a\narenas c\nisect i\n",
        Err(IndexError::Refused(MountBad::DuplicateName {
            first: 0,
            second: 1,
        })),
    ),
    (
        b"arenas a\nisect i\nbloom j\n",
        Err(IndexError::Refused(MountBad::NotFormatted { part: 2 })),
    ),
    (
        b"arenas i\nisect x\n",
        Err(IndexError::Refused(MountBad::NotFormatted { part: 0 })),
    ),
    (
        b"arenas a\nisect c\nbloom x\n",
        Err(IndexError::Refused(MountBad::TooSmall {
            part: 1,
            len: 40_960,
            need: 41_472,
        })),
    ),
];

/// Makes all partitions, and puts the sections of each configuration to use.
fn indexes<P: Parts>(to: &mut Made<P>, rows: &mut Rows) {
    make_all(to, &MADE, rows);
    for (row, (conf, answer)) in CASES.iter().enumerate() {
        rows.nth(
            row,
            "the index of a configuration",
            to.index(conf) == Some(*answer),
        );
    }
}

fn see<P: Parts>(to: &mut Made<P>, rows: &mut Rows) {
    make_all(to, &EACH, rows);
    indexes(to, rows);
}

#[test]
fn partitions_are_formatted(rt: HostRuntime) -> Result<(), Fail> {
    let mut rows = Rows::new();
    see(&mut in_memory(rt.alloc()), &mut rows);
    rows.passes()
}

// ---- calls that fail

/// An index of one section is put to use.
fn index_one<P: Parts>(to: &mut Made<P>) -> Option<Result<Index, IndexError>> {
    if to.makes_two() {
        to.index(b"arenas a\nisect i\n")
    } else {
        None
    }
}

/// What is answered where this call of the section's disk fails.
fn answer(alloc: Global, call: u64) -> Option<Result<Index, IndexError>> {
    index_one(&mut failing(alloc, b"i", 41_472, call)?)
}

/// The section's disk has three calls when it is formatted. Three mount it, four say that it is
/// being built, eighteen clear its bucket, and four say that it is in use.
#[test]
fn calls_of_sections_fail(rt: HostRuntime) -> Result<(), Fail> {
    let mut rows = Rows::new();
    for call in 3..33u64 {
        let wanted = match call {
            3..6 => Err(IndexError::Fault { part: Some(1) }),
            6..32 => Err(IndexError::Stopped { part: 1 }),
            _ => Ok(Index {
                buckets: 1,
                sections: 1,
            }),
        };
        let found = answer(rt.alloc(), call);
        rows.nth(
            call as usize,
            "the answer where this call fails",
            found == Some(wanted),
        );
    }
    rows.passes()
}
