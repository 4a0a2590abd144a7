//! Folders that can be read.

ghost use Rattle.std.specs.Prelude.{◌≡◌, ◌≤◌, ◌<◌, ◌^◌, ℕ, Bool, IsTrue, IfOk, OnErr, Some};
ghost use Rattle.std.specs.Prelude.{List, length, take, drop};
ghost use Rattle.vt_base.specs.Faults.{CountsFault, HasCause};
ghost use Rattle.vt_out.specs.declared.folder_item.Facts.{Facts};
ghost use Rattle.vt_out.specs.FolderItems.{Items, HaveBytes, FailingPaths, ListMayFail, ReadMayFail};
ghost use Rattle.vt_out.specs.FolderItems.{listing_of, folder_at, file_at};
ghost use Rattle.vt_out.specs.Files.{is_fault};

use crate::{Listing, OutErr};
use std::alloc::Global;
use vt_base::{Failed, Text};

/// A folder, and all that is in it. A path is the names on the way from this folder on; that of the
/// folder itself is empty.
pub trait Folder {
    /// Whether folders of this type tell what they hold. Those of the system don't.
    ghost tells: { Bool };

    /// What it holds, where it tells it.
    ghost holds: { Self → Items Facts };

    /// At which paths a call may fail though a folder, or a file, stands there, where it tells it.
    ghost may_fail: { Self → FailingPaths };

    /// How many calls have failed.
    ghost faults: { Self → ℕ };

    /// The items of the folder at this path. It fails where there is none.
    fn list(&mut self, alloc: Global, path: &[Text]) -> Result<Listing, OutErr>
        ensures listed { IfOk result (λ list. IsTrue tells → (items : Items Facts)
            × (folder_at path.now (holds self.old) ≡ Some items) × (list ≡ listing_of items)) }
        ensures because { result ≡ Err OutErr.Failed → IsTrue tells
            → ListMayFail (may_fail self.old) (holds self.old) path.now }
        ensures stays { IsTrue tells → holds self.new ≡ holds self.old }
        ensures paths { IsTrue tells → may_fail self.new ≡ may_fail self.old }
        ensures cause { CountsFault is_fault result (faults self.old) (faults self.new) };

    /// Moves bytes of the file at this path to the front of the buffer, from this place in the file
    /// on, and says how many. 0 is the file's end, where the buffer has room. It fails where there
    /// is no file.
    fn read(&mut self, path: &[Text], at: u64, buf: &mut [u8]) -> Result<usize, Failed>
        ensures fits { IfOk result (λ n. n ≤ length buf.old) }
        ensures moved { IfOk result (λ n. IsTrue tells → (bytes : List ℕ)
            × (file_at path.now (holds self.old) ≡ Some bytes)
            × (take n buf.new ≡ take n (drop at bytes))
            × (n ≡ 0 → 0 < length buf.old → length bytes ≤ at)) }
        ensures rest { IfOk result (λ n. IsTrue tells → drop n buf.new ≡ drop n buf.old) }
        ensures untouched { OnErr result (IsTrue tells → buf.new ≡ buf.old) }
        ensures because { OnErr result (IsTrue tells
            → ReadMayFail (may_fail self.old) (holds self.old) path.now) }
        ensures stays { IsTrue tells → holds self.new ≡ holds self.old }
        ensures paths { IsTrue tells → may_fail self.new ≡ may_fail self.old }
        ensures cause { HasCause result (faults self.old) (faults self.new) };

    /// Each file that it holds, at all depths, is bytes, and fewer than 2^64.
    ghost holds_bytes: { (folder : Self) → HaveBytes (holds folder) };

    /// A count of failed calls is a u64.
    ghost faults_fit: { (folder : Self) → faults folder < 2 ^ 64 };
}
