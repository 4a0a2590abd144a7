//! Items of an archive.

use crate::directory::size_of;
use std::alloc::{AllocError, Global};
use std::marker::Model;
use vt_base::Text;
use vt_out::Item;
use vt_tree::Entry;

/// Where an item's bytes or items stand.
#[derive(Clone, Copy, Debug, PartialEq, Eq)]
pub enum Stored {
    /// The entry of its bytes.
    File(Entry),
    /// The entries of its two streams.
    Folder { entries: Entry, metadata: Entry },
}

impl Stored {
    ghost use Rattle.std.specs.Prelude.{◌≡◌};
    ghost use Rattle.vac_read.specs.Nodes.{len_of};

    /// How many bytes a file has; a folder has none.
    pub(crate) fn size(&self) -> u64
        ensures { result ≡ len_of self.now }
    {
        match self {
            Stored::File(entry) => size_of(entry),
            Stored::Folder { .. } => 0,
        }
    }
}

/// An item of an archive.
#[derive(Drop)]
pub struct Node {
    /// Its name, kind, permissions, time and owners.
    pub item: Item,
    /// Its number in the archive.
    pub qid: u64,
    /// How many bytes a file has; 0 of a folder.
    pub size: u64,
    pub stored: Stored,
}

impl Node {
    ghost use Rattle.std.specs.Prelude.{◌≡◌, IfOk};

    /// A copy that outlives the folder's list.
    pub fn copied(&self, alloc: Global) -> Result<Self, AllocError>
        ensures { IfOk result (λ node. node ≡ self.now) }
    {
        Ok(Node {
            item: Item {
                name: Text::copy_of(alloc, self.item.name.as_slice())?,
                kind: self.item.kind,
                mode: self.item.mode,
                mtime: self.item.mtime,
                uid: Text::copy_of(alloc, self.item.uid.as_slice())?,
                gid: Text::copy_of(alloc, self.item.gid.as_slice())?,
            },
            qid: self.qid,
            size: self.size,
            stored: self.stored,
        })
    }
}

/// Items in memory, which contracts see as a list.
#[derive(Drop)]
pub struct Nodes {
    nodes: Vec<Node>,
}

impl Model for Nodes {
    ghost use Rattle.std.specs.Prelude.{List};
    ghost use Rattle.vac_read.specs.declared.node.Node.{Node};

    ghost Value = { List Node };

    ghost view = { λ n. n.nodes.items };
}

impl Nodes {
    ghost use Rattle.std.specs.Prelude.{◌≡◌};

    /// These items, with the memory that they are in.
    pub(crate) fn from_vec(nodes: Vec<Node>) -> Self
        ensures { result ≡ nodes.items }
    {
        Nodes { nodes }
    }

    /// The items, in the order of their names.
    pub fn as_slice(&self) -> &[Node]
        ensures { result.now ≡ self.now }
    {
        &self.nodes
    }
}
