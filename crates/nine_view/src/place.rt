//! Where a fid stands: a file of the archive, with the folders above it.

ghost use Rattle.std.specs.Prelude.{◌≡◌, ◌∷◌, IfOk};
ghost use Rattle.nine_view.specs.Walks.{parent};

use crate::{Fid, Way};
use std::alloc::{AllocError, Global};
use vac_read::Node;

/// A file of an archive, and the folders above it.
#[derive(Drop)]
pub struct Place {
    pub node: Node,
    pub above: Way,
}

impl Place {
    ghost use Rattle.nine_view.specs.Answers.{unopened};

    /// The folder above; the top folder's is itself.
    pub fn parent(self) -> Place
        ensures { result ≡ parent self.node self.above }
    {
        let mut above = self.above;
        match above.pop() {
            Some(node) => Place { node, above },
            None => Place {
                node: self.node,
                above,
            },
        }
    }

    /// The place of a file of this folder, which then stands above it.
    pub fn into_file(self, node: Node) -> Result<Place, AllocError>
        ensures { IfOk result (λ at. (at.node ≡ node) × (at.above ≡ self.node ∷ self.above)) }
    {
        let mut above = self.above;
        above.push(self.node)?;
        Ok(Place { node, above })
    }

    /// A fid that stands here, and isn't open.
    pub fn unopened(self) -> Fid
        ensures { result ≡ unopened self }
    {
        Fid {
            node: self.node,
            above: self.above,
            files: None,
            reading: None,
        }
    }
}
