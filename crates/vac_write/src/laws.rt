//! What holds of a folder that was archived whole. The law is the contract of a function that does nothing.

ghost use Rattle.std.specs.Prelude.{◌≡◌, ℕ, List, [], IsTrue, false};
ghost use Rattle.vac_write.specs.declared.archived.Archived.{Archived};
ghost use Rattle.vac_write.specs.Archiving.{FolderRead, WritesArchive, WritesWhole};

use vt_tree::Blocks;

/// Where a folder tells what it holds, and no path is told of which a call has failed, its archive is
/// that of the folder, and nothing else was asked of the store. No such path is told where no call
/// may fail.
pub fn whole_folders_are_archived<B: Blocks>()
    ensures whole { (s s' : B) (bsize : ℕ) (folder : FolderRead) (a : Archived)
        → IsTrue folder.tells
        → WritesArchive B.does B.holds B.score_of s s' bsize folder a → a.failed ≡ []
        → WritesWhole B.does B.holds B.score_of s s' bsize folder.held a }
    ensures sure { (s s' : B) (bsize : ℕ) (folder : FolderRead) (a : Archived)
        → IsTrue folder.tells
        → ((path : List (List ℕ)) → folder.failing.list path ≡ false)
        → ((path : List (List ℕ)) → folder.failing.read path ≡ false)
        → WritesArchive B.does B.holds B.score_of s s' bsize folder a → a.failed ≡ [] }
{}
