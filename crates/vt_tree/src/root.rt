//! Roots of trees.

ghost use Rattle.std.specs.Prelude.{◌≡◌, Some, IfOk, IfErr, IsOkAnd};
ghost use Rattle.vt_tree.specs.declared.root.Root.{Root};
ghost use Rattle.vt_tree.specs.Roots.{IsRoot, root_bytes, root_fault};

use vt_base::Score;
use vt_base::fields::{put, put_u16, u16_at};

/// How many bytes a root has.
pub const ROOT_LEN: usize = 300;

/// The root of a tree (venti(6)). Zero bytes fill up its name and its type.
#[derive(Clone, Copy, Debug, PartialEq, Eq)]
pub struct Root {
    /// The tree's name, which this program doesn't look at.
    pub name: [u8; 128],
    /// What the tree is, as `vac` of an archive.
    pub kind: [u8; 128],
    /// The score of the tree's directory block.
    pub score: Score,
    /// The size of the tree's blocks, in bytes.
    pub block_size: u16,
    /// The score of an earlier root, or the zero score.
    pub prev: Score,
}

/// What is tested of a root: how many bytes it has, and its version.
#[derive(Clone, Copy, Debug, PartialEq, Eq)]
pub enum RootError {
    /// It hasn't 300 bytes.
    Length,
    /// It isn't 2.
    Version,
}

impl Root {
    /// The root that these bytes spell, or what makes them none: that they aren't 300 bytes, or
    /// else a version other than 2.
    pub fn decode(bytes: &[u8]) -> Result<Self, RootError>
        ensures ok { IfOk result (λ root. IsRoot root × (bytes.now ≡ root_bytes root)) }
        ensures only { (root : Root) → IsRoot root → bytes.now ≡ root_bytes root
            → IsOkAnd result (λ r. r ≡ root) }
        ensures bad { IfErr result (λ field. root_fault bytes.now ≡ Some field) }
    {
        if bytes.len() != ROOT_LEN {
            return Err(RootError::Length);
        }
        if u16_at(bytes, 0) != 2 {
            return Err(RootError::Version);
        }
        // (the places of the fields: docs/FORMATS.md, Entries of directories, and roots)
        let mut root = Root {
            name: [0; 128],
            kind: [0; 128],
            score: Score([0; 20]),
            block_size: u16_at(bytes, 278),
            prev: Score([0; 20]),
        };
        root.name.copy_from_slice(&bytes[2..130]);
        root.kind.copy_from_slice(&bytes[130..258]);
        root.score.0.copy_from_slice(&bytes[258..278]);
        root.prev.0.copy_from_slice(&bytes[280..]);
        Ok(root)
    }

    /// The bytes of a root.
    pub fn encode(&self) -> [u8; 300]
        ensures { result ≡ root_bytes self.now }
    {
        let mut bytes = [0; ROOT_LEN];
        let at = put_u16(&mut bytes, 0, 2);
        let at = put(&mut bytes, at, &self.name);
        let at = put(&mut bytes, at, &self.kind);
        let at = put(&mut bytes, at, &self.score.0);
        let at = put_u16(&mut bytes, at, self.block_size);
        put(&mut bytes, at, &self.prev.0);
        bytes
    }
}
