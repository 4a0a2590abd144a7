//! What was archived: the score of the archive, and the paths that were left out.

use std::marker::Model;
use vt_base::{Score, Text};

/// What was archived.
#[derive(Drop)]
pub struct Archived {
    /// What the archive is found by.
    pub score: Score,
    /// The paths of what is neither a file nor a folder, and isn't in the archive.
    pub skipped: Paths,
    /// The paths of files that couldn't be read and folders that couldn't be listed. They aren't in
    /// the archive either, and nor is what is in such a folder.
    pub failed: Paths,
}

/// Paths in memory, which contracts see as a list.
#[derive(Drop)]
pub struct Paths {
    /// Each with slashes between its names.
    paths: Vec<Text>,
}

impl Model for Paths {
    ghost use Rattle.std.specs.Prelude.{ℕ, List};

    ghost Value = { List (List ℕ) };

    ghost view = { λ p. p.paths.items };
}

impl Paths {
    ghost use Rattle.std.specs.Prelude.{◌≡◌};

    /// These paths, with the memory that they are in.
    pub(crate) fn from_vec(paths: Vec<Text>) -> Self
        ensures { result ≡ paths.items }
    {
        Paths { paths }
    }

    /// The paths, with slashes between the names on the way to each.
    pub fn as_slice(&self) -> &[Text]
        ensures { result.now ≡ self.now }
    {
        &self.paths
    }
}
