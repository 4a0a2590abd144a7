//! Stores that a configuration names, opened and closed again; and why they aren't opened.

use crate::made::{Form, Made, Making, failing, in_memory, make_all};
use std::alloc::Global;
use std::test::Fail;
use vt_base::{MountBad, MountField, Sha1Scorer};
use vt_conf::parse_conf;
use vt_open::{OpenError, close_store, configurations_can_be_opened, file_of, open_store};
use vt_partitions::Parts;
use vt_rows::Rows;

/// A configuration of one section, and one of all that is made.
const ONE: &[u8] = b"arenas a\nisect i\n";

const ALL: &[u8] = b"arenas a\narenas c\nisect i\nisect j\nbloom b\n";

impl<P: Parts> Made<P> {
    /// Opens the store of a configuration and closes it: how many blocks it has.
    fn opened(&mut self, text: &[u8]) -> Option<Result<u64, OpenError>> {
        configurations_can_be_opened();
        let Ok(conf) = parse_conf(self.alloc, text) else {
            return None;
        };
        match open_store(self.alloc, &mut self.parts, &conf, 1, Sha1Scorer) {
            Ok(core) => {
                let blocks = core.history_len();
                close_store(&mut self.parts, &conf, core);
                Some(Ok(blocks))
            }
            Err(bad) => Some(Err(bad)),
        }
    }

    /// Puts the sections of a configuration to use.
    fn is_indexed(&mut self, text: &[u8]) -> bool {
        matches!(self.index(text), Some(Ok(_)))
    }
}

/// What is made before a configuration is opened.
const MADE: [Making<'static>; 6] = [
    ("arenas a", Form::Arenas, b"a", b"a", 40_960, Ok(1)),
    ("arenas c", Form::Arenas, b"c", b"c", 40_960, Ok(1)),
    ("section i", Form::Section, b"i", b"i", 92_160, Ok(4)),
    ("section j", Form::Section, b"j", b"j", 41_472, Ok(1)),
    ("section k", Form::Section, b"k", b"k", 41_472, Ok(1)),
    ("filter b", Form::Filter, b"b", b"", 0, Ok(0)),
];

/// A configuration, and how many blocks its store has; or what isn't there or isn't in use.
const CASES: [(&[u8], Result<u64, OpenError>); 10] = [
    (ALL, Ok(0)),
    (b"arenas x\nisect i\n", Err(OpenError::Missing { part: 0 })),
    (b"arenas a\nisect x\n", Err(OpenError::Missing { part: 1 })),
    (
        b"arenas a\nisect i\nbloom x\n",
        Err(OpenError::Missing { part: 2 }),
    ),
    (
        b"arenas a\narenas a\nisect i\n",
        Err(OpenError::Missing { part: 1 }),
    ),
    (
        b"arenas i\nisect x\n",
        Err(OpenError::Refused(MountBad::NotFormatted { part: 0 })),
    ),
    (
        b"arenas a\nisect c\n",
        Err(OpenError::Refused(MountBad::TooSmall {
            part: 1,
            len: 40_960,
            need: 41_472,
        })),
    ),
    (
        b"arenas a\nisect j\n",
        Err(OpenError::Refused(MountBad::Disagree {
            part: 1,
            field: MountField::First,
            found: 4,
            want: 0,
        })),
    ),
    (
        b"arenas a\nisect k\nbloom b\n",
        Err(OpenError::Refused(MountBad::Disagree {
            part: 1,
            field: MountField::State,
            found: 0,
            want: 1,
        })),
    ),
    (ALL, Ok(0)),
];

/// Each configuration is opened. Behind each answer all is there again.
fn opens_each<P: Parts>(to: &mut Made<P>, rows: &mut Rows) {
    make_all(to, &MADE, rows);
    rows.is("the index", to.is_indexed(ALL));
    for (row, (conf, answer)) in CASES.iter().enumerate() {
        rows.nth(
            row,
            "the store of a configuration",
            to.opened(conf) == Some(*answer),
        );
    }
}

#[test]
fn stores_are_opened(rt: HostRuntime) -> Result<(), Fail> {
    let mut rows = Rows::new();
    opens_each(&mut in_memory(rt.alloc()), &mut rows);
    rows.passes()
}

// ---- calls that fail

/// What opening answers where a call fails.
const FAULT: Result<u64, OpenError> = Err(OpenError::Refused(MountBad::Fault));

/// The section's disk has 32 calls when it is put to use, and three more open it. Behind the one
/// that fails the store is opened again.
fn fails_and_opens<P: Parts>(to: &mut Made<P>, call: usize, rows: &mut Rows) {
    rows.nth(call, "the arenas and the section", to.makes_two());
    rows.nth(call, "the index", to.is_indexed(ONE));
    let failed = to.opened(ONE);
    rows.nth(
        call,
        "the store where this call fails",
        failed == Some(FAULT),
    );
    rows.nth(call, "the store behind that", to.opened(ONE) == Some(Ok(0)));
}

#[test]
fn calls_fail_in_turn(rt: HostRuntime) -> Result<(), Fail> {
    let mut rows = Rows::new();
    for call in 32..35u64 {
        fail_in(rt.alloc(), call, &mut rows);
    }
    rows.passes()
}

/// The section's disk fails in this call, and then no more. A row is the call.
fn fail_in(alloc: Global, call: u64, rows: &mut Rows) {
    match failing(alloc, b"i", 41_472, call) {
        Some(mut to) => fails_and_opens(&mut to, call as usize, rows),
        None => rows.nth(call as usize, "memory for the disk", false),
    }
}

/// The state of a section of which a call fails while it is put to use: the one for which opening
/// refuses it then, or 1 where it doesn't.
fn state_behind<P: Parts>(to: &mut Made<P>) -> Result<u128, &'static str> {
    if !to.makes_two() {
        return Err("the arenas and the section");
    }
    if to.is_indexed(ONE) {
        return Err("putting to use goes on where this call fails");
    }
    match to.opened(ONE) {
        Some(Ok(_)) => Ok(1),
        Some(Err(OpenError::Refused(MountBad::Disagree { part: 1, found, .. }))) => Ok(found),
        _ => Err("why the store isn't opened"),
    }
}

/// Notes whether the state is this one where this call fails. A row is the call.
fn see_state(alloc: Global, call: u64, wanted: u128, rows: &mut Rows) {
    let state = match failing(alloc, b"i", 41_472, call) {
        Some(mut to) => state_behind(&mut to),
        None => Err("memory for the disk"),
    };
    match state {
        Ok(state) => rows.nth(call as usize, "the section's state", state == wanted),
        Err(what) => rows.nth(call as usize, what, false),
    }
}

/// Three calls make the section and three mount it. The selector of its head is written by the
/// third of the next four, and then by the third of the last four.
#[test]
fn a_section_is_refused_until_it_is_in_use(rt: HostRuntime) -> Result<(), Fail> {
    let mut rows = Rows::new();
    for call in 6..32u64 {
        let state = match call {
            6..9 => 0,
            9..31 => 2,
            _ => 1,
        };
        see_state(rt.alloc(), call, state, &mut rows);
    }
    rows.passes()
}

// ---- the files of a configuration

#[test]
fn files_have_numbers(rt: HostRuntime) -> Result<(), Fail> {
    let mut rows = Rows::new();
    let Ok(conf) = parse_conf(rt.alloc(), b"isect i\nbloom b\narenas a\nisect j\n") else {
        return Err("configuration".into());
    };
    let names: [Option<&[u8]>; 5] = [Some(b"a"), Some(b"i"), Some(b"j"), Some(b"b"), None];
    for (part, name) in names.iter().enumerate() {
        let found = match file_of(&conf, part as u32) {
            Some(file) => Some(file.name.as_slice()),
            None => None,
        };
        rows.nth(part, "the file of a partition", found == *name);
    }
    drop(conf);
    rows.passes()
}
