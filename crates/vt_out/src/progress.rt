//! How far a long call has come.

/// Is told how far a long call has come. No clause speaks of what it is told.
pub trait Progress {
    /// So many of so many steps are done. What a step is, each call says.
    fn report(&mut self, done: u64, all: u64);
}

/// Says nothing.
#[derive(Clone, Copy, Debug)]
pub struct Silent;

impl Progress for Silent {
    /// Tells nobody.
    fn report(&mut self, _done: u64, _all: u64) {}
}
