//! The system's calls, each of which is told where it fails.
//!
//! What makes calls is wrapped: each call is made once, its answer is handed on as it is, and where
//! that is an error a teller is told. So what is wrapped tells in contracts just what is in it, and
//! each adapter is over a told system what it is over the system. The impls are in `told_files.rt`,
//! `told_folders.rt`, `told_streams.rt`, `told_net.rt` and `told_clock.rt`.

use crate::teller::{Call, Teller};
use std::alloc::Global;
use std::io;

/// What opens, and tells of each call that fails.
#[derive(Drop)]
pub struct Told<S, T> {
    /// What makes the calls.
    pub(crate) calls: S,
    /// What names are copied with.
    pub(crate) alloc: Global,
    pub(crate) teller: T,
}

impl<S, T: Teller + Copy> Told<S, T> {
    ghost use Rattle.std.specs.Prelude.{◌≡◌};
    ghost use Rattle.vt_told.specs.Telling.{told_calls};

    /// What makes these calls, and tells of those that fail.
    pub fn new(calls: S, alloc: Global, teller: T) -> Self
        ensures { told_calls result ≡ calls }
    {
        Told {
            calls,
            alloc,
            teller,
        }
    }

    /// What was opened, under this name.
    pub(crate) fn named<F>(&self, calls: F, name: &str) -> ToldAs<F, T>
        ensures { result.calls ≡ calls }
    {
        ToldAs::new(calls, self.alloc, name, self.teller)
    }
}

/// What has a name, under which its teller hears of each call that fails.
#[derive(Drop)]
pub struct ToldAs<S, T> {
    /// What makes the calls.
    pub(crate) calls: S,
    pub(crate) label: Label<T>,
}

impl<S, T: Teller + Copy> ToldAs<S, T> {
    ghost use Rattle.std.specs.Prelude.{◌≡◌};
    ghost use Rattle.vt_told.specs.Telling.{told_as_calls};

    /// What makes these calls, under this name.
    pub fn new(calls: S, alloc: Global, name: &str, teller: T) -> Self
        ensures { told_as_calls result ≡ calls }
    {
        ToldAs {
            calls,
            label: Label::new(alloc, name, teller),
        }
    }

    /// What makes the calls, and the name.
    pub(crate) fn into_parts(self) -> (S, Label<T>)
        ensures { self ≡ record { calls = result.0; label = result.1 } }
    {
        let ToldAs { calls, label } = self;
        (calls, label)
    }
}

/// A name, and who is told under it.
#[derive(Drop)]
pub struct Label<T> {
    /// None where there was no memory for a copy of it.
    name: Option<String>,
    teller: T,
}

impl<T: Teller + Copy> Label<T> {
    /// With a copy of this name.
    pub fn new(alloc: Global, name: &str, teller: T) -> Self {
        Label::with(String::from_str(alloc, name).ok(), teller)
    }

    /// With this name, if there is one.
    pub fn with(name: Option<String>, teller: T) -> Self {
        Label { name, teller }
    }

    /// Tells of this call, if that failed.
    pub fn hear<V>(&self, call: Call, answer: &io::Result<V>) {
        if let Err(why) = answer {
            self.tell(call, why);
        }
    }

    /// Tells of this call, which failed.
    pub fn tell(&self, call: Call, why: &io::Error) {
        match &self.name {
            Some(name) => self.teller.tell(call, name.as_str(), why),
            None => self.teller.tell(call, "a file", why),
        }
    }
}
