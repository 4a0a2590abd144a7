//! What a store of blocks is asked in tests. It is generic, so that no clause is looked at with the
//! store of a test.

use std::alloc::Global;
use vt_base::{FieldValue, Kind, Score};
use vt_tree::{BlockErr, Blocks};

/// What a store of blocks is to tell in place of an answer.
#[derive(Clone, Copy)]
pub(crate) enum Told {
    /// A call failed.
    Fault,
    /// A refusal with this text.
    Says(&'static [u8]),
    /// Another score than this one.
    Not(Score),
    /// A value is damaged: it is this one, and was to be that one.
    Damaged { want: FieldValue, found: FieldValue },
}

/// Whether this is told.
fn is_told(bad: &BlockErr, told: Told) -> bool {
    match told {
        Told::Fault => matches!(bad, BlockErr::Fault),
        Told::Says(text) => matches!(bad, BlockErr::Refused(found) if found.as_slice() == text),
        Told::Not(score) => matches!(bad, BlockErr::WrongScore { want, .. } if *want == score),
        Told::Damaged { want, found } => matches!(bad, BlockErr::Damaged { want: a, found: b }
            if *a == want && *b == found),
    }
}

/// Whether it answers so where the block `abc` is put under this type.
pub(crate) fn puts<B: Blocks>(
    blocks: &mut B,
    alloc: Global,
    kind: Kind,
    wanted: Result<Score, Told>,
) -> bool {
    match (&blocks.put(alloc, kind, b"abc"), wanted) {
        (Ok(score), Ok(wanted)) => *score == wanted,
        (Err(bad), Err(told)) => is_told(bad, told),
        _ => false,
    }
}

/// Whether it answers so where the data with this score is got.
pub(crate) fn gets<B: Blocks>(
    blocks: &mut B,
    alloc: Global,
    score: &Score,
    wanted: Result<&'static [u8], Told>,
) -> bool {
    match (&blocks.get(alloc, Kind::DATA, score), wanted) {
        (Ok(bytes), Ok(wanted)) => bytes.as_slice() == wanted,
        (Err(bad), Err(told)) => is_told(bad, told),
        _ => false,
    }
}

/// Whether it answers so where it is synced.
pub(crate) fn syncs<B: Blocks>(blocks: &mut B, alloc: Global, wanted: Result<(), Told>) -> bool {
    match (&blocks.sync(alloc), wanted) {
        (Ok(()), Ok(())) => true,
        (Err(bad), Err(told)) => is_told(bad, told),
        _ => false,
    }
}
