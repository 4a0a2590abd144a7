//! A path below a folder in memory.

ghost use Rattle.std.specs.Prelude.{◌≡◌, bytes_eq};
ghost use lib.Pointwise.{pointwise};
ghost use Rattle.vt_out.specs.FolderMemory.{is_path_of};

use std::marker::Model;
use vt_base::Text;

/// A path below a folder in memory, which contracts see as the names on the way; that of the folder
/// itself has none.
#[derive(Drop)]
pub struct MemPath {
    names: Vec<Text>,
}

impl Model for MemPath {
    ghost use Rattle.std.specs.Prelude.{ℕ, List};

    ghost Value = { List (List ℕ) };

    ghost view = { λ path. path.names.items };
}

impl MemPath {
    ghost use Rattle.std.specs.Prelude.{◌≡◌};

    /// The path of these names, with the memory that they are in.
    pub fn from_vec(names: Vec<Text>) -> Self
        ensures { result ≡ names.items }
    {
        MemPath { names }
    }

    /// Lends the names.
    fn as_slice(&self) -> &[Text]
        ensures { result.now ≡ self.now }
    {
        &self.names
    }
}

/// Whether two paths have the same names.
fn is_same(path: &[Text], other: &[Text]) -> bool
    ensures { result ≡ pointwise bytes_eq path.now other.now }
{
    match path {
        [] => match other {
            [] => true,
            _ => false,
        },
        [name, rest @ ..] => match other {
            [] => false,
            [first, others @ ..] => name.as_slice() == first.as_slice() && is_same(rest, others),
        },
    }
}

/// Whether this path is one of these.
pub(crate) fn is_path_of(paths: &[MemPath], path: &[Text]) -> bool
    ensures { result ≡ is_path_of paths.now path.now }
{
    match paths {
        [] => false,
        [first, rest @ ..] => is_same(first.as_slice(), path) || is_path_of(rest, path),
    }
}
