//! A store that answers what it is told to, as a store of blocks.

ghost use Rattle.std.specs.Prelude.{◌≡◌, ⊤, Bool, [], IfOk, length, replicate};

use crate::blocks::{Told, gets, puts, syncs};
use crate::tables::in_turn;
use std::alloc::{AllocError, Global};
use std::test::Fail;
use vt_base::{Bytes, FieldValue, Kind, Operation, Said, Score, Scorer, Site, Why};
use vt_blocks::Local;
use vt_handler::Store;
use vt_rows::Rows;

/// The score of each block.
const SCORE: Score = Score(*b"ssssssssssssssssssss");

/// Gives all blocks one score.
#[derive(Clone, Copy)]
struct OneScore;

impl Scorer for OneScore {
    ghost use Rattle.std.proofs.Common.{rules, arith};
    ghost use Rattle.std.proofs.lemmas.Grind.{common_steps};

    ghost score_of = { λ bytes. replicate 20 115 };

    ghost score_len = { λ bytes. Prim.search rules };

    ghost score_bytes = { λ bytes are i. Prim.grind (arith, common_steps) };

    fn score(&self, _block: &[u8]) -> Score {
        SCORE
    }
}

/// Answers a write by its type, gives one block, and counts the calls. It holds no history, so
/// nothing is claimed of its answers.
#[derive(Drop)]
struct Scripted {
    /// How many requests there were.
    calls: u64,
}

impl Store for Scripted {
    ghost score_of = { λ bytes. replicate 20 115 };

    ghost condition = { λ s. record {
      setup = record { arenas = []; versions = []; base = 0; sections = [] };
      alone = Bool.false;
      faults = [];
      stops = [];
      durable = 0;
    } };

    ghost holds = { λ s h. ⊥ };

    ghost does = { λ s m answer s'. ⊤ };

    ghost durable_is_held = { λ s h hold. absurd hold };

    fn ask(&mut self, alloc: Global, operation: Operation<'_>) -> Said {
        self.calls = self.calls.wrapping_add(1);
        match operation {
            Operation::Write { kind: 13, .. } => Said::Score(SCORE),
            Operation::Write { kind: 1, .. } => Said::Refused(Why::Collision),
            Operation::Write { kind: 2, .. } => Said::Refused(DAMAGE),
            Operation::Write { .. } => Said::Refused(Why::NoMemory),
            Operation::Read { score, count, .. } => {
                if score != SCORE || count < 3 {
                    return Said::Refused(Why::Absent);
                }
                match block(alloc) {
                    Ok(bytes) => Said::Block(bytes),
                    Err(AllocError) => Said::Refused(Why::NoMemory),
                }
            }
            Operation::Sync => Said::Synced,
        }
    }
}

/// Why a write of type 2 is refused.
const DAMAGE: Why = Why::Damaged {
    site: Site::Bucket(1),
    want: FieldValue::Number(2),
    found: FieldValue::Number(3),
};

/// The one block.
fn block(alloc: Global) -> Result<Bytes, AllocError>
    ensures { IfOk result (λ bytes. length bytes ≡ 3) }
{
    Bytes::copy_of(alloc, b"abc")
}

/// What is asked of a store of blocks, and what it answers.
enum Act {
    Puts(Kind, Result<Score, Told>),
    Gets(Score, Result<&'static [u8], Told>),
    Syncs(Result<(), Told>),
    /// This is why the store said no first, if it did.
    Refused(Option<Why>),
}

const ACTS: [Act; 9] = [
    Act::Puts(Kind::DATA, Ok(SCORE)),
    Act::Gets(SCORE, Ok(b"abc")),
    Act::Syncs(Ok(())),
    Act::Refused(None),
    Act::Puts(Kind::ROOT, Err(Told::Says(b"score collision"))),
    Act::Refused(Some(Why::Collision)),
    Act::Puts(
        Kind::DIRECTORY,
        Err(Told::Damaged {
            want: FieldValue::Number(2),
            found: FieldValue::Number(3),
        }),
    ),
    Act::Gets(Score([7; 20]), Err(Told::Says(b"no such block"))),
    Act::Refused(Some(Why::Collision)),
];

/// Whether a store of blocks answers so.
fn does<T: Store, S: Scorer>(alloc: Global, blocks: &mut Local<T, S>, act: &Act) -> bool {
    match act {
        Act::Puts(kind, wanted) => puts(blocks, alloc, *kind, *wanted),
        Act::Gets(score, wanted) => gets(blocks, alloc, score, *wanted),
        Act::Syncs(wanted) => syncs(blocks, alloc, *wanted),
        Act::Refused(wanted) => blocks.refused() == *wanted,
    }
}

#[test]
fn answers_and_refusals_are_handed_on(rt: HostRuntime) -> Result<(), Fail> {
    let mut blocks = Local::new(Scripted { calls: 0 }, OneScore);
    in_turn(
        rt.alloc(),
        &mut blocks,
        &ACTS,
        "what blocks of this process answer",
        does,
    )?;
    let (store, _) = blocks.into_parts();
    let mut rows = Rows::new();
    rows.is("a call of the store for each", store.calls == 6);
    rows.all()?;
    Ok(())
}
