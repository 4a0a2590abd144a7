//! Folders that are handed out by name.

ghost use Rattle.std.specs.Prelude.{◌≡◌, ◌≢◌, ◌+◌, ◌-◌, ◌<◌, ◌^◌, ℕ, Bool, List, IsTrue, IfOk, OnOk};
ghost use Rattle.std.specs.Prelude.{OnErr, min};
ghost use Rattle.vt_base.specs.Faults.{CountsFault};
ghost use Rattle.vt_out.specs.FolderStanding.{Standing, lent, there};
ghost use Rattle.vt_out.specs.Files.{is_fault};

use crate::{Folder, OutErr};
use std::alloc::Global;
use vt_base::Text;

/// Hands out folders by name, each to one holder at a time, and takes them back.
pub trait Folders {
    /// What a folder is handed out as.
    type Folder: Folder + Drop;

    /// Whether folders of this type tell what stands under which name. Those of the system don't.
    ghost tells: { Bool };

    /// What stands under this name, where it tells it.
    ghost standing: { Self → (name : List ℕ) → Standing };

    /// How many calls have failed, those of folders that are back among them.
    ghost faults: { Self → ℕ };

    /// Hands out the folder of this name. It fails where there is none, as where that is a file,
    /// and where it was handed out already.
    fn folder(&mut self, alloc: Global, name: &Text) -> Result<Self::Folder, OutErr>
        ensures found { IfOk result (λ folder. IsTrue tells → IsTrue Self.Folder.tells
            × (standing self.old name.now
            ≡ there (Self.Folder.holds folder) (Self.Folder.may_fail folder))) }
        ensures fresh { IfOk result (λ folder. Self.Folder.faults folder ≡ 0) }
        ensures lent { OnOk result (IsTrue tells → standing self.new name.now ≡ lent) }
        ensures stays { OnErr result (IsTrue tells
            → standing self.new name.now ≡ standing self.old name.now) }
        ensures others { IsTrue tells → (other : List ℕ) → other ≢ name.now
            → standing self.new other ≡ standing self.old other }
        ensures cause { CountsFault is_fault result (faults self.old) (faults self.new) };

    /// Takes back the folder that was handed out under this name; its failed calls count.
    fn done(&mut self, name: &Text, folder: Self::Folder)
        ensures back { IsTrue tells → standing self.old name.now ≡ lent
            → standing self.new name.now
            ≡ there (Self.Folder.holds folder) (Self.Folder.may_fail folder) }
        ensures others { IsTrue tells → (other : List ℕ) → other ≢ name.now
            → standing self.new other ≡ standing self.old other }
        ensures faults { faults self.new
            ≡ min (faults self.old + Self.Folder.faults folder) (2 ^ 64 - 1) };

    /// A count of failed calls is a u64.
    ghost faults_fit: { (folders : Self) → faults folders < 2 ^ 64 };
}
