//! Stores of two shapes, made in memory and used.

ghost use Rattle.vt_empty.specs.Shape.{IsShape};

use std::alloc::Global;
use std::test::Fail;
use vt_base::{Operation, Said, Score, Scorer, Sha1Scorer};
use vt_core::{Core, Event, Out};
use vt_disk::Disk;
use vt_empty::{Shape, fresh_store};
use vt_rows::Rows;
use vt_shard::Sizes;

/// What a shard keeps in memory: four blocks, and 64 clean entries.
const SIZES: Sizes = Sizes {
    lumps: 4,
    clean: 64,
};

/// One arena, and one section of four buckets.
const ONE: Shape = Shape {
    arenas: 1,
    arena_len: 1_048_576,
    sections: 1,
    buckets: 4,
    filter: 8_192,
    positions: 8,
};

/// Several arenas and sections.
const SEVERAL: Shape = Shape {
    arenas: 3,
    arena_len: 32_768,
    sections: 2,
    buckets: 1,
    filter: 8_192,
    positions: 4,
};

/// What the only session is told, which asks for this.
fn ask<D: Disk, S: Scorer>(
    alloc: Global,
    core: &mut Core<D, S>,
    operation: Operation<'_>,
) -> Option<Said> {
    if core.sessions() == 0 {
        return None;
    }
    let event = Event::Ask {
        session: 0,
        operation,
        now: 0,
    };
    match core.step(alloc, event) {
        Out::Said(answer) => Some(answer.said),
        _ => None,
    }
}

/// A block is written: its score, where it is taken.
fn write<D: Disk, S: Scorer>(alloc: Global, core: &mut Core<D, S>) -> Option<Score> {
    let operation = Operation::Write {
        kind: 13,
        bytes: b"block",
    };
    match ask(alloc, core, operation) {
        Some(Said::Score(score)) => Some(score),
        _ => None,
    }
}

/// Whether that block is read by this score.
fn is_held<D: Disk, S: Scorer>(alloc: Global, core: &mut Core<D, S>, score: Score) -> bool {
    let operation = Operation::Read {
        score,
        kind: 13,
        count: 5,
    };
    match ask(alloc, core, operation) {
        Some(Said::Block(block)) => block.as_slice() == b"block".as_slice(),
        _ => false,
    }
}

/// A store of so many sections takes a block, and gives it back.
fn takes_one<D: Disk, S: Scorer>(alloc: Global, core: &mut Core<D, S>, sections: u32) -> Rows {
    let mut rows = Rows::new();
    rows.is("a shard for each section", core.shards() == sections);
    rows.is("no block at first", core.history_len() == 0);
    match write(alloc, core) {
        Some(score) => {
            rows.is("one block behind a write", core.history_len() == 1);
            rows.is("the block is read back", is_held(alloc, core, score));
        }
        None => rows.is("a block is taken", false),
    }
    rows
}

/// What becomes of a store of this shape.
fn see(alloc: Global, shape: &Shape) -> Option<Rows>
    requires { IsShape shape.now }
{
    let Ok(mut core) = fresh_store(alloc, shape, SIZES, 1, Sha1Scorer) else {
        return None;
    };
    Some(takes_one(alloc, &mut core, shape.sections))
}

#[test]
fn a_store_of_one_arena_takes_a_block(rt: HostRuntime) -> Result<(), Fail> {
    see(rt.alloc(), &ONE).ok_or("no memory")?.passes()
}

#[test]
fn a_store_of_several_arenas_takes_a_block(rt: HostRuntime) -> Result<(), Fail> {
    see(rt.alloc(), &SEVERAL).ok_or("no memory")?.passes()
}
