//! Rehearsals of some seeds.

use std::alloc::Global;
use std::test::Fail;
use vt_out::Silent;
use vt_rehearse::{Summary, rehearse};
use vt_rows::Rows;

/// What a rehearsal without rounds comes to: the 64 words are looked up.
const NOTHING: Summary = Summary {
    events: 0,
    writes: 0,
    accepted: 0,
    held: 0,
    reads: 0,
    found: 0,
    missing: 0,
    syncs: 0,
    crashes: 0,
    lost: 0,
    blocks: 0,
    compared: 64,
    ok: true,
};

/// Seeds, counts of rounds, and what they come to: a read of an empty store, a crash of one, the
/// beginning of a writeback that has nothing to do, and many rounds.
const ROUNDS: [(u64, u32, Summary); 5] = [
    (1, 0, NOTHING),
    (
        1,
        1,
        Summary {
            events: 1,
            reads: 1,
            missing: 1,
            compared: 65,
            ..NOTHING
        },
    ),
    (
        0,
        1,
        Summary {
            crashes: 1,
            compared: 65,
            ..NOTHING
        },
    ),
    (
        2,
        1,
        Summary {
            events: 1,
            ..NOTHING
        },
    ),
    (
        7,
        2_000,
        Summary {
            events: 2_353,
            writes: 772,
            accepted: 119,
            held: 653,
            reads: 363,
            found: 304,
            missing: 59,
            syncs: 130,
            crashes: 112,
            lost: 55,
            blocks: 64,
            compared: 1_441,
            ok: true,
        },
    ),
];

/// What so many rounds of a seed come to. None says that memory is wanting.
fn summary(alloc: Global, seed: u64, count: u32) -> Option<Summary> {
    rehearse(alloc, &mut Silent, seed, count).ok()
}

#[test]
fn rehearsals_are_those_of_the_seed(rt: HostRuntime) -> Result<(), Fail> {
    let mut rows = Rows::new();
    for (row, (seed, count, wanted)) in ROUNDS.iter().enumerate() {
        let found = summary(rt.alloc(), *seed, *count);
        rows.nth(
            row,
            "what the rounds of a seed come to",
            found == Some(*wanted),
        );
    }
    rows.passes()
}

/// Two rehearsals of one seed, and whether both are there, all answers are right, and they are alike.
fn see_alike(alloc: Global, rows: &mut Rows) {
    let first = summary(alloc, 7, 20_000);
    let second = summary(alloc, 7, 20_000);
    rows.is(
        "each answer is that of the list",
        matches!(first, Some(it) if it.ok),
    );
    rows.is("two rehearsals of one seed are alike", first == second);
}

#[test]
fn a_long_rehearsal_ends_well_and_alike(rt: HostRuntime) -> Result<(), Fail> {
    let mut rows = Rows::new();
    see_alike(rt.alloc(), &mut rows);
    rows.passes()
}
