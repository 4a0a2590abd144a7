//! What the whole store shares: scores and what computes them, block types, keys, places, bytes and
//! text, what a store is asked and what it answers, and why a request was not done; the fields of
//! frames at their places, and a count of steps.
// Tests: crates/vt_base_tests/src/base.rt, fields.rt and steps.rt.
#![tactic(auto)]

mod answer;
mod bytes;
pub mod fields;
mod key;
mod kind;
mod mount;
mod operation;
mod place;
mod printed;
mod score;
mod steps;
mod why;

pub use answer::{Answer, Said};
pub use bytes::{Bytes, Text};
pub use key::Key;
pub use kind::Kind;
pub use mount::{MountBad, MountField};
pub use operation::Operation;
pub use place::{Entry, Info, Place};
pub use printed::{BadScore, parse_score, score_text};
pub use score::{Score, Scorer, Sha1Scorer, ShortScorer};
pub use steps::Steps;
pub use why::{Failed, FieldValue, Site, Why, why_text};

/// The most bytes that a block may have, 56 KiB (venti(6)).
pub const MAX_BLOCK: usize = 57_344;

const _: () = prove!(MAX_BLOCK == 56 * 1024);
