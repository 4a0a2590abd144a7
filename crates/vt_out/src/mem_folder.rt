//! A folder in memory.

ghost use Rattle.std.specs.Prelude.{◌<◌, ◌^◌, ◌↔◌, IsTrue, Contains, length};
ghost use Rattle.vt_base.specs.Bytes.{AreBytes};

use crate::finding_items::{behind, file_at, folder_at, listing};
use crate::mem_path::is_path_of;
use crate::{Facts, Folder, Listing, MemPath, OutErr};
use std::alloc::Global;
use vt_base::{Failed, Text};

/// The bytes of a file in memory.
#[derive(Drop)]
pub struct MemContent {
    bytes: Vec<u8>,
    ghost are_bytes: { AreBytes bytes.items },
    ghost few: { length bytes.items < 2 ^ 64 },
}

impl MemContent {
    ghost use Rattle.std.specs.Prelude.{◌≡◌};
    ghost use Rattle.vt_out.specs.FolderMemory.{content_bytes};

    /// These bytes, with the memory that they are in.
    pub fn from_vec(bytes: Vec<u8>) -> Self
        ensures { content_bytes result ≡ bytes.items }
    {
        MemContent { bytes }
    }

    /// Lends the file's bytes.
    pub fn as_slice(&self) -> &[u8]
        ensures { result.now ≡ content_bytes self.now }
    {
        &self.bytes
    }
}

/// An item of a folder in memory.
#[derive(Drop)]
pub enum MemItem {
    /// A file with its bytes.
    File(Facts, MemContent),
    /// A folder with what is in it.
    Folder(Facts, Vec<MemItem>),
    /// Neither, as a link or a device.
    Other(Facts),
}

/// A folder in memory, which tells what it holds. Its calls are counted from 0.
#[derive(Drop)]
pub struct MemFolder {
    items: Vec<MemItem>,
    /// The most bytes that one read of a file gives; 0 counts as 1.
    most: usize,
    /// The numbers of the calls that fail.
    failing: Vec<u64>,
    /// The paths at which each call fails.
    failing_at: Vec<MemPath>,
    /// How many calls were made, of `list` and `read` together.
    calls: u64,
    /// How many of them have failed.
    faults: u64,
    ghost faults_fit: { faults < 2 ^ 64 },
}

impl MemFolder {
    ghost use Rattle.std.specs.Prelude.{◌≡◌, ◌^◌, ◌-◌, []};
    ghost use Rattle.vt_out.specs.FolderMemory.{items_in_memory, state_of};

    /// A folder with these items. A call fails only where there is nothing at its path.
    pub fn new(alloc: Global, items: Vec<MemItem>) -> Self
        ensures { state_of result ≡ record {
          items = items_in_memory items.items;
          most = 2 ^ 64 - 1;
          failing = [];
          failing_at = [];
          calls = 0;
          faults = 0;
        } }
    {
        MemFolder {
            items,
            most: usize::MAX,
            failing: Vec::new(alloc),
            failing_at: Vec::new(alloc),
            calls: 0,
            faults: 0,
        }
    }

    /// From now on a call reads no more bytes than this, and 1 where it is 0.
    pub fn in_pieces(self, most: usize) -> Self
        ensures { state_of result ≡ record (state_of self) { most = most } }
    {
        let mut folder = self;
        folder.most = most;
        folder
    }

    /// From now on the calls with these numbers fail, in place of those that were named before.
    pub fn failing(self, calls: Vec<u64>) -> Self
        ensures { state_of result ≡ record (state_of self) { failing = calls.items } }
    {
        let mut folder = self;
        folder.failing = calls;
        folder
    }

    /// From now on each call at one of these paths fails, in place of those that were named before.
    pub fn failing_at(self, paths: Vec<MemPath>) -> Self
        ensures { state_of result ≡ record (state_of self) { failing_at = paths.items } }
    {
        let mut folder = self;
        folder.failing_at = paths;
        folder
    }

    /// The items that it holds, with all that is in them.
    pub fn items(&self) -> &[MemItem]
        ensures { items_in_memory result.now ≡ (state_of self.now).items }
    {
        &self.items
    }

    /// How many calls were made.
    pub fn calls(&self) -> u64
        ensures { result ≡ (state_of self.now).calls }
    {
        self.calls
    }

    /// How many calls have failed.
    pub fn faults(&self) -> u64
        ensures { result ≡ (state_of self.now).faults }
    {
        self.faults
    }
}

/// Whether a call of this number is to fail.
fn is_listed(failing: &[u64], call: u64) -> bool
    ensures { IsTrue result ↔ Contains failing.now call }
{
    failing.contains(&call)
}

impl MemFolder {
    ghost use Rattle.std.specs.Prelude.{◌≡◌, MatchBool};
    ghost use Rattle.vt_base.specs.Faults.{HasRisen};
    ghost use Rattle.vt_out.specs.FolderMemory.{state_of, IsToFail, Leaves};

    /// Whether the next call fails by the plan, where it is one at this path.
    fn is_to_fail(&self, path: &[Text]) -> bool
        ensures { IsTrue result ↔ IsToFail (state_of self.now) path.now }
    {
        is_listed(&self.failing, self.calls) || is_path_of(&self.failing_at, path)
    }

    /// Counts a call, and where it fails a fault too.
    fn count(&mut self, failed: bool)
        ensures left { Leaves (state_of self.old) (state_of self.new) }
        ensures faults { MatchBool failed
            (HasRisen (state_of self.old).faults (state_of self.new).faults)
            ((state_of self.new).faults ≡ (state_of self.old).faults) }
    {
        self.calls = self.calls.saturating_add(1);
        if failed {
            self.faults = self.faults.saturating_add(1);
        }
    }
}

impl Folder for MemFolder {
    ghost use Rattle.std.specs.Prelude.{◌≡◌, ◌↔◌, ◌-◌, ◌++◌, true, ℕ, List, Some, IfOk, OnErr};
    ghost use Rattle.std.specs.Prelude.{IsErr, take, drop};
    ghost use Rattle.vt_base.specs.Faults.{CountsFault, HasCause};
    ghost use Rattle.vt_out.specs.declared.folder_item.Facts.{Facts};
    ghost use Rattle.vt_out.specs.FolderItems.{Items, listing_of, folder_at, file_at};
    ghost use Rattle.vt_out.specs.FolderMemory.{state_of, FailsToList, FailsToRead, Leaves, piece};
    ghost use Rattle.vt_out.specs.FolderMemory.{may_fail_in};
    ghost use Rattle.vt_out.specs.FolderMemoryLaws.{items_have_bytes};
    ghost use Rattle.vt_out.specs.Files.{is_fault};

    ghost tells = { true };

    ghost holds = { λ m. (state_of m).items };

    ghost may_fail = { λ m. may_fail_in (state_of m) };

    ghost faults = { λ m. (state_of m).faults };

    ghost holds_bytes = { λ m. items_have_bytes m.items.items };

    ghost faults_fit = { λ m. m.faults_fit };

    /// A call fails where its number or its path is in a list, and where there is no folder there.
    fn list(&mut self, alloc: Global, path: &[Text]) -> Result<Listing, OutErr>
        ensures fails { (result ≡ Err OutErr.Failed) ↔ FailsToList (state_of self.old) path.now }
        ensures listed { IfOk result (λ list. (items : Items Facts)
            × (folder_at path.now (state_of self.old).items ≡ Some items)
            × (list ≡ listing_of items)) }
        ensures left { Leaves (state_of self.old) (state_of self.new) }
        ensures cause { CountsFault is_fault result
            (state_of self.old).faults (state_of self.new).faults }
    {
        let fails = self.is_to_fail(path);
        match folder_at(&self.items, path) {
            Some(items) if !fails => {
                let listed = listing(alloc, items);
                self.count(false);
                listed.map_err(|_| OutErr::NoMemory)
            }
            _ => {
                self.count(true);
                Err(OutErr::Failed)
            }
        }
    }

    /// A call fails where its number or its path is in a list, and where there is no file there.
    fn read(&mut self, path: &[Text], at: u64, buf: &mut [u8]) -> Result<usize, Failed>
        ensures fails { IsErr result ↔ FailsToRead (state_of self.old) path.now }
        ensures moved { IfOk result (λ n. (bytes : List ℕ)
            × (file_at path.now (state_of self.old).items ≡ Some bytes)
            × (n ≡ piece (state_of self.old) (length bytes - at) (length buf.old))
            × (buf.new ≡ take n (drop at bytes) ++ drop n buf.old)) }
        ensures untouched { OnErr result (buf.new ≡ buf.old) }
        ensures left { Leaves (state_of self.old) (state_of self.new) }
        ensures cause { HasCause result (state_of self.old).faults (state_of self.new).faults }
    {
        let fails = self.is_to_fail(path);
        match file_at(&self.items, path) {
            Some(bytes) if !fails => {
                let left = behind(bytes, at);
                let n = left.len().min(self.most.max(1)).min(buf.len());
                buf[..n].copy_from_slice(&left[..n]);
                self.count(false);
                Ok(n)
            }
            _ => {
                self.count(true);
                Err(Failed)
            }
        }
    }
}
