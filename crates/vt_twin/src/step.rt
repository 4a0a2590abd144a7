//! How far a change that is made by device calls has come: what each call answers.

/// How far a step has come with what is under way: Done at its last call, else More.
#[derive(Clone, Copy, Debug, PartialEq, Eq)]
pub enum Step {
    More,
    Done,
}
