//! Where a folder in memory is: not handed out yet, in use, or back.

use crate::MemFolder;
use std::mem;

/// Where a folder in memory is.
#[derive(Drop)]
pub(crate) enum Place {
    /// It waits to be handed out.
    Waiting(MemFolder),
    /// It was handed out, and isn't back.
    Out,
    /// It was taken back.
    Back(MemFolder),
}

impl Place {
    ghost use Rattle.std.specs.Prelude.{◌≡◌, ◌≢◌, MatchOption};
    ghost use Rattle.vt_out.specs.declared.folder_place.Place.TheVariants.{Out, Back};
    ghost use Rattle.vt_out.specs.FolderPlaces.{waiting_in};

    /// The folder that waits, which then is out; None where none waits.
    pub fn take(&mut self) -> Option<MemFolder>
        ensures folder { result ≡ waiting_in self.old }
        ensures left { MatchOption result (self.new ≡ self.old) (λ _. self.new ≡ Out) }
    {
        match mem::replace(self, Place::Out) {
            Place::Waiting(folder) => Some(folder),
            other => {
                *self = other;
                None
            }
        }
    }

    /// Keeps a folder that comes back, if one is out.
    pub fn put_back(&mut self, folder: MemFolder)
        ensures back { self.old ≡ Out → self.new ≡ Back folder }
        ensures kept { self.old ≢ Out → self.new ≡ self.old }
        ensures waiting { waiting_in self.new ≡ waiting_in self.old }
    {
        *self = match mem::replace(self, Place::Out) {
            Place::Out => Place::Back(folder),
            other => other,
        }
    }
}
