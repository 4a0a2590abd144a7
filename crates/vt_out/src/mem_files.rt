//! Files in memory.

ghost use Rattle.std.specs.Prelude.{◌≡◌, option_map};
ghost use Rattle.vt_out.specs.Held.{content_of};

use crate::plan::Plan;
use crate::{Files, OutErr};
use std::alloc::{AllocError, Global};
use vt_base::{Bytes, Text};

/// A file in memory.
#[derive(Drop)]
pub struct MemFile {
    pub name: Text,
    pub content: Bytes,
}

/// Gives the content of stated files. Its calls are counted from 0.
#[derive(Drop)]
pub struct MemFiles {
    /// Of two of one name, the first is read.
    files: Vec<MemFile>,
    /// Which calls fail.
    plan: Plan,
}

impl MemFiles {
    ghost use Rattle.std.specs.Prelude.{◌≡◌, ◌++◌, ◌∷◌, [], IfOk};
    ghost use Rattle.vt_out.specs.Held.{files_held, files_failing, files_calls, files_faults};

    /// No files. A call fails only where there is no file of its name.
    pub fn new(alloc: Global) -> Self
        ensures held { files_held result ≡ [] }
        ensures failing { files_failing result ≡ [] }
        ensures calls { files_calls result ≡ 0 }
        ensures faults { files_faults result ≡ 0 }
    {
        MemFiles {
            files: Vec::new(alloc),
            plan: Plan::new(Vec::new(alloc)),
        }
    }

    /// One file more. Of two of one name, the first is read.
    pub fn with(self, name: Text, content: Bytes) -> Result<Self, AllocError>
        ensures held { IfOk result (λ files. files_held files
            ≡ files_held self ++ record { name = name; content = content } ∷ []) }
        ensures failing { IfOk result (λ files. files_failing files ≡ files_failing self) }
        ensures calls { IfOk result (λ files. files_calls files ≡ files_calls self) }
        ensures faults { IfOk result (λ files. files_faults files ≡ files_faults self) }
    {
        let mut files = self;
        files.files.push(MemFile { name, content })?;
        Ok(files)
    }

    /// From now on the calls with these numbers fail, in place of those that were named before.
    pub fn failing(self, calls: Vec<u64>) -> Self
        ensures held { files_held result ≡ files_held self }
        ensures failing { files_failing result ≡ calls.items }
        ensures calls { files_calls result ≡ files_calls self }
        ensures faults { files_faults result ≡ files_faults self }
    {
        let mut files = self;
        files.plan.failing = calls;
        files
    }

    /// How many calls have failed.
    pub fn faults(&self) -> u64
        ensures { result ≡ files_faults self.now }
    {
        self.plan.faults
    }
}

/// The content of the first file that has this name.
fn find<'a>(files: &'a [MemFile], name: &Text) -> Option<&'a [u8]>
    ensures { option_map (λ content. content.now) result ≡ content_of files.now name.now }
{
    match files {
        [] => None,
        [first, rest @ ..] => {
            if first.name.as_slice() == name.as_slice() {
                Some(first.content.as_slice())
            } else {
                find(rest, name)
            }
        }
    }
}

impl Files for MemFiles {
    ghost use Rattle.std.specs.Prelude.{◌≡◌, ◌↔◌, ◌⊎◌, ◌+◌, ◌-◌, ◌^◌, min, true, take, Contains};
    ghost use Rattle.std.specs.Prelude.{option_map, IfOk, None, Some};
    ghost use Rattle.vt_base.specs.Faults.{CountsFault, IsOneMore};
    ghost use Rattle.vt_out.specs.Files.{is_fault};
    ghost use Rattle.vt_out.specs.Held.{content_of, files_held, files_failing, files_calls};
    ghost use Rattle.vt_out.specs.Held.{files_faults};

    ghost tells = { true };

    ghost content = { λ files name. content_of files.files.items name };

    ghost faults = { files_faults };

    ghost faults_fit = { λ files. files.plan.faults_fit };

    /// A call fails where its number is in the list, and where there is no file of this name.
    fn read(&mut self, alloc: Global, name: &Text, limit: u32) -> Result<Bytes, OutErr>
        ensures failing { (result ≡ Err OutErr.Failed)
            ↔ (Contains (files_failing self.old) (files_calls self.old)
            ⊎ (content_of (files_held self.old) name.now ≡ None)) }
        ensures content { IfOk result (λ bytes. option_map (take (limit + 1))
            (content_of (files_held self.old) name.now) ≡ Some bytes) }
        ensures cause { CountsFault is_fault result
            (files_faults self.old) (files_faults self.new) }
        ensures calls { IsOneMore (files_calls self.old) (files_calls self.new) }
        ensures held { files_held self.new ≡ files_held self.old }
        ensures list { files_failing self.new ≡ files_failing self.old }
    {
        let listed = self.plan.lists_next();
        let found = find(&self.files, name);
        match found {
            Some(content) if !listed => {
                self.plan.count(false);
                let front = content.len().min(limit as usize + 1);
                Bytes::copy_of(alloc, &content[..front]).map_err(|_| OutErr::NoMemory)
            }
            _ => {
                self.plan.count(true);
                Err(OutErr::Failed)
            }
        }
    }
}
