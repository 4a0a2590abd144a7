//! The folders above a file, by which a walk goes up again.

ghost use Rattle.std.specs.Prelude.{◌≡◌, [], ◌∷◌, MatchOption, IfOk, OnErr};

use std::alloc::{AllocError, Global};
use std::marker::Model;
use vac_read::Node;

/// The folders above a file, which contracts see as a list, the nearest first.
#[derive(Drop)]
pub struct Way {
    /// The top folder first.
    nodes: Vec<Node>,
}

impl Model for Way {
    ghost use Rattle.std.specs.Prelude.{List, reverse};
    ghost use Rattle.vac_read.specs.declared.node.Node.{Node};

    ghost Value = { List Node };

    ghost view = { λ w. reverse w.nodes.items };
}

impl Way {
    /// No folders, as above the top folder.
    pub fn new(alloc: Global) -> Self
        ensures { result ≡ [] }
    {
        Way {
            nodes: Vec::new(alloc),
        }
    }

    /// A copy, for another fid.
    pub fn copied(&self, alloc: Global) -> Result<Self, AllocError>
        ensures { IfOk result (λ way. way ≡ self.now) }
    {
        let mut nodes = Vec::with_capacity(alloc, self.nodes.len())?;
        for node in &self.nodes {
            nodes.push(node.copied(alloc)?)?;
        }
        Ok(Way { nodes })
    }

    /// One folder further down.
    pub fn push(&mut self, node: Node) -> Result<(), AllocError>
        ensures { IfOk result (λ _. self.new ≡ node ∷ self.old) }
    {
        self.nodes.push(node)?;
        Ok(())
    }

    /// The nearest folder, which is taken out; None where there is none.
    pub fn pop(&mut self) -> Option<Node>
        ensures { MatchOption result ((self.old ≡ []) × (self.new ≡ []))
            (λ node. self.old ≡ node ∷ self.new) }
    {
        self.nodes.pop()
    }
}
