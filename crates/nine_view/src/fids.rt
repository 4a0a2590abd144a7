//! The fids that a client has set.

ghost use Rattle.std.specs.Prelude.{◌≡◌, ◌==◌, Some, [], find, position, length, IfOk, IfSome, OnErr};
ghost use Rattle.std.specs.Option.{option_copied};
ghost use Rattle.nine_view.specs.Known.{fid_at, is_known, with_fid, without_fid};

use crate::{Fid, Reading};
use std::alloc::{AllocError, Global};
use std::marker::Model;
use vac_read::Nodes;

/// Fids by their numbers, which contracts see as a list.
#[derive(Drop)]
pub(crate) struct Fids {
    entries: Vec<(u32, Fid)>,
}

impl Model for Fids {
    ghost use Rattle.std.specs.Prelude.{ℕ, List};
    ghost use Rattle.nine_view.specs.declared.fid.Fid.{Fid};

    ghost Value = { List (ℕ × Fid) };

    ghost view = { λ f. f.entries.items };
}

impl Fids {
    /// No fid is known.
    pub(crate) fn new(alloc: Global) -> Self
        ensures { result ≡ [] }
    {
        Fids {
            entries: Vec::new(alloc),
        }
    }

    /// How many fids are known.
    pub(crate) fn len(&self) -> usize
        ensures { result ≡ length self.now }
    {
        self.entries.len()
    }

    /// No fid is known any more.
    pub(crate) fn clear(&mut self)
        ensures { self.new ≡ [] }
    {
        self.entries.clear();
    }

    /// What is known of a fid, if it is known.
    pub(crate) fn get(&self, fid: u32) -> Option<&Fid>
        ensures { option_copied result ≡ fid_at fid self.now }
    {
        match find_entry(&self.entries, fid) {
            Some(entry) => Some(&entry.1),
            None => None,
        }
    }

    /// Whether a fid is known.
    pub(crate) fn contains(&self, fid: u32) -> bool
        ensures { result ≡ is_known fid self.now }
    {
        find_entry(&self.entries, fid).is_some()
    }

    /// Sets a fid, whether it was known or not.
    pub(crate) fn set(&mut self, fid: u32, f: Fid) -> Result<(), AllocError>
        ensures ok { IfOk result (λ _. self.new ≡ with_fid fid f self.old) }
        ensures err { OnErr result (self.new ≡ self.old) }
    {
        match place_of(&self.entries, fid) {
            Some(at) => self.entries[at] = (fid, f),
            None => self.entries.push((fid, f))?,
        }
        Ok(())
    }

    /// A fid isn't known any more.
    pub(crate) fn remove(&mut self, fid: u32)
        ensures { self.new ≡ without_fid fid self.old }
    {
        if let Some(at) = place_of(&self.entries, fid) {
            self.entries.remove(at);
        }
    }

    /// Opens a fid, or sets how far it was read.
    pub(crate) fn set_reading(&mut self, fid: u32, reading: Reading)
        ensures { IfSome (fid_at fid self.old) (λ f.
            self.new ≡ with_fid fid (record f { reading = Some reading }) self.old) }
    {
        if let Some(at) = place_of(&self.entries, fid) {
            self.entries[at].1.reading = Some(reading);
        }
    }

    /// Keeps the files that an open folder lists, so that the next read of it goes on; it does
    /// nothing where the fid isn't known.
    pub(crate) fn keep(&mut self, fid: u32, files: Nodes)
        ensures { IfSome (fid_at fid self.old) (λ f.
            self.new ≡ with_fid fid (record f { files = Some files }) self.old) }
    {
        if let Some(at) = place_of(&self.entries, fid) {
            self.entries[at].1.files = Some(files);
        }
    }
}

/// The number and what stands behind it, if the fid is known.
fn find_entry<'a>(entries: &'a [(u32, Fid)], fid: u32) -> Option<&'a (u32, Fid)>
    ensures { option_copied result ≡ find (λ e. e.0 == fid) entries.now }
{
    entries.iter().find(|entry| entry.0 == fid)
}

/// Where in the list the fid stands, if it is known.
fn place_of(entries: &[(u32, Fid)], fid: u32) -> Option<usize>
    ensures { result ≡ position (λ e. e.0 == fid) entries.now }
{
    entries.iter().position(|entry| entry.0 == fid)
}
