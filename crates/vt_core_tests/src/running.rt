//! The stores in memory on which tests run. What a test does is proved for any `TestStore`, and these
//! functions alone name the real one.

use crate::disks::Mem;
use crate::stores::TestStore;
use crate::{asking, crashing, drawn, mounting, refusals};
use std::alloc::Global;
use std::test::Fail;
use vt_base::{Sha1Scorer, ShortScorer};
use vt_core::Core;
use vt_rows::Rows;

/// What a test of a store sees.
#[derive(Clone, Copy)]
pub enum Case {
    /// Requests are answered, also to a sync that waits.
    Answers,
    /// A script is stopped at each device call.
    Script,
    /// A crash tears a bucket's selector.
    TornSelector,
    /// A store and a list do what is drawn, with crashes.
    Draws,
    /// Calls fail while a log is read back.
    DirectoryReads,
    /// What is damaged is told when a store is mounted.
    Damages,
    /// Mounting is stopped by a second crash.
    SecondCrashes,
    /// The index is replaced by a smaller one.
    SmallerIndex,
    /// Each test of mounting fails once.
    Refusals,
}

fn see<T: TestStore>(alloc: Global, case: Case, rows: &mut Rows) {
    match case {
        Case::Answers => asking::see::<T>(alloc, rows),
        Case::Script => crashing::script::<T>(alloc, rows),
        Case::TornSelector => crashing::tear::<T>(alloc, rows),
        Case::Draws => drawn::see::<T>(alloc, rows),
        Case::DirectoryReads => mounting::read_directory::<T>(alloc, rows),
        Case::Damages => mounting::tell_damages::<T>(alloc, rows),
        Case::SecondCrashes => mounting::second_crashes::<T>(alloc, rows),
        Case::SmallerIndex => mounting::smaller_index::<T>(alloc, rows),
        Case::Refusals => refusals::see::<T>(alloc, rows),
    }
}

/// A test of stores on disks in memory.
pub fn passes(alloc: Global, case: Case) -> Result<(), Fail> {
    let mut rows = Rows::new();
    see::<Core<Mem, Sha1Scorer>>(alloc, case, &mut rows);
    rows.passes()
}

/// The same, where two blocks may have one score.
pub fn passes_short(alloc: Global, case: Case) -> Result<(), Fail> {
    let mut rows = Rows::new();
    see::<Core<Mem, ShortScorer>>(alloc, case, &mut rows);
    rows.passes()
}
