//! A folder in memory that is handed out by its name.

ghost use Rattle.std.specs.Prelude.{◌≡◌, ◌<◌, ◌^◌};
ghost use Rattle.std.specs.Option.{ForSome};
ghost use Rattle.vt_out.specs.FolderMemory.{state_of};
ghost use Rattle.vt_out.specs.FolderPlaces.{waiting_in};

use crate::folder_place::Place;
use crate::{Folders, MemFolder, OutErr};
use std::alloc::Global;
use vt_base::Text;

/// One folder in memory, which is handed out once.
#[derive(Drop)]
pub struct MemFolders {
    /// The one name under which it is handed out.
    name: Text,
    /// Whether it waits to be handed out, is in use or is back.
    place: Place,
    /// How many calls have failed, those of the folder among them once it is back.
    faults: u64,
    ghost fresh: { ForSome (waiting_in place) (λ folder. (state_of folder).faults ≡ 0) },
    ghost faults_fit: { faults < 2 ^ 64 },
}

impl MemFolders {
    ghost use Rattle.std.specs.Prelude.{◌≡◌, ◌≢◌, ◌⊎◌, ℕ, List, Some, None, IfNone, IfSome};
    ghost use Rattle.std.specs.Prelude.{MatchOption};
    ghost use Rattle.vt_out.specs.FolderMemory.{state_of};
    ghost use Rattle.vt_out.specs.NamedFolders.{back_of, folders_faults, name_of, standing_in};
    ghost use Rattle.vt_out.specs.NamedFolders.{waiting_of};
    ghost use Rattle.vt_out.specs.FolderStanding.{lent};

    /// This folder, no call of which has failed, under this name.
    pub fn new(name: Text, folder: MemFolder) -> Self
        requires { (state_of folder).faults ≡ 0 }
        ensures name { name_of result ≡ name }
        ensures waiting { waiting_of result ≡ Some folder }
        ensures faults { folders_faults result ≡ 0 }
    {
        MemFolders {
            name,
            place: Place::Waiting(folder),
            faults: 0,
        }
    }

    /// The folder, if it was handed out and is back.
    pub fn into_folder(self) -> Option<MemFolder>
        ensures { result ≡ back_of self }
    {
        let MemFolders {
            name: _name,
            place,
            faults: _,
        } = self;
        match place {
            Place::Back(folder) => Some(folder),
            Place::Waiting(_) | Place::Out => None,
        }
    }

    /// How many calls have failed, those of the folder among them if it is back.
    pub fn faults(&self) -> u64
        ensures { result ≡ folders_faults self.now }
    {
        self.faults
    }

    /// The folder that waits under this name, which then is out; None where none waits under it.
    fn lend(&mut self, name: &Text) -> Option<MemFolder>
        ensures folder { MatchOption result
            ((name.now ≢ name_of self.old) ⊎ (waiting_of self.old ≡ None))
            (λ folder. (name.now ≡ name_of self.old) × (waiting_of self.old ≡ Some folder)) }
        ensures fresh { IfSome result (λ folder. (state_of folder).faults ≡ 0) }
        ensures lent { IfSome result (λ _. standing_in self.new name.now ≡ lent) }
        ensures stays { IfNone result
            (standing_in self.new name.now ≡ standing_in self.old name.now) }
        ensures others { (other : List ℕ) → other ≢ name.now
            → standing_in self.new other ≡ standing_in self.old other }
        ensures name { name_of self.new ≡ name_of self.old }
        ensures faults { folders_faults self.new ≡ folders_faults self.old }
    {
        if self.name.as_slice() == name.as_slice() {
            self.place.take()
        } else {
            None
        }
    }
}

impl Folders for MemFolders {
    ghost use Rattle.std.specs.Prelude.{◌≡◌, ◌≢◌, ◌⊎◌, ◌↔◌, true, ℕ, List, None, IfOk, IsErr};
    ghost use Rattle.std.specs.Prelude.{OnErr, OnOk};
    ghost use Rattle.vt_base.specs.Faults.{CountsFault};
    ghost use Rattle.vt_out.specs.FolderMemory.{may_fail_in, state_of};
    ghost use Rattle.vt_out.specs.NamedFolders.{folders_faults, name_of, standing_in, waiting_of};
    ghost use Rattle.vt_out.specs.FolderStanding.{lent, there};
    ghost use Rattle.vt_out.specs.Files.{is_fault};

    type Folder = MemFolder;

    ghost tells = { true };

    ghost standing = { standing_in };

    ghost faults = { folders_faults };

    ghost faults_fit = { λ folders. folders.faults_fit };

    /// There is no other folder, and this one isn't handed out a second time.
    fn folder(&mut self, _alloc: Global, name: &Text) -> Result<MemFolder, OutErr>
        ensures folder { IfOk result (λ folder. waiting_of self.old ≡ Some folder) }
        ensures refused { IsErr result
            ↔ ((name.now ≢ name_of self.old) ⊎ (waiting_of self.old ≡ None)) }
        ensures found { IfOk result (λ folder.
            standing_in self.old name.now
            ≡ there (state_of folder).items (may_fail_in (state_of folder))) }
        ensures fresh { IfOk result (λ folder. (state_of folder).faults ≡ 0) }
        ensures lent { OnOk result (standing_in self.new name.now ≡ lent) }
        ensures stays { OnErr result
            (standing_in self.new name.now ≡ standing_in self.old name.now) }
        ensures others { (other : List ℕ) → other ≢ name.now
            → standing_in self.new other ≡ standing_in self.old other }
        ensures cause { CountsFault is_fault result
            (folders_faults self.old) (folders_faults self.new) }
    {
        if let Some(folder) = self.lend(name) {
            return Ok(folder);
        }
        self.faults = self.faults.saturating_add(1);
        Err(OutErr::Failed)
    }

    /// Takes back the folder, whose failed calls count from now on, and keeps it if its name is
    /// this one.
    fn done(&mut self, name: &Text, folder: MemFolder) {
        self.faults = self.faults.saturating_add(folder.faults());
        if self.name.as_slice() == name.as_slice() {
            self.place.put_back(folder);
        }
    }
}
