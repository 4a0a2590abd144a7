//! What stands behind a fid, the number by which a client names a file (intro(5)).

ghost use Rattle.std.specs.Prelude.{◌≡◌, IfOk};

use crate::{Place, Way};
use std::alloc::{AllocError, Global};
use vac_read::{Node, Nodes};

/// What stands behind a fid (intro(5)).
#[derive(Drop)]
pub struct Fid {
    pub node: Node,
    /// The folders above it.
    pub above: Way,
    /// The files in an open folder, once they were listed.
    pub files: Option<Nodes>,
    /// How far it was read, where it is open.
    pub reading: Option<Reading>,
}

/// How far an open folder was read; a file is read anywhere.
#[derive(Clone, Copy, Debug, PartialEq, Eq)]
pub struct Reading {
    /// The number of the file that is told of next.
    pub next: usize,
    /// Where the last read ended.
    pub offset: u128,
    /// How many bytes of its count the last read that was answered left.
    pub left: u32,
}

impl Reading {
    ghost use Rattle.nine_view.specs.Answers.{unread};

    /// Nothing was read yet.
    pub fn new() -> Self
        ensures { result ≡ unread }
    {
        Reading {
            next: 0,
            offset: 0,
            left: 0,
        }
    }
}

impl Fid {
    /// Where it stands, in memory of its own.
    pub fn place(&self, alloc: Global) -> Result<Place, AllocError>
        ensures { IfOk result (λ at. (at.node ≡ self.now.node) × (at.above ≡ self.now.above)) }
    {
        Ok(Place {
            node: self.node.copied(alloc)?,
            above: self.above.copied(alloc)?,
        })
    }
}
