//! Who is told of a call of the system that failed.

use std::io;

/// A call of the system.
#[derive(Clone, Copy, PartialEq, Eq)]
pub enum Call {
    Open,
    /// Of a file's length.
    Measure,
    /// To another length.
    Resize,
    Read,
    Write,
    Flush,
    Lock,
    Sync,
    Connect,
    /// At what stands at a path.
    LookAt,
    /// Of the names in a folder.
    List,
    /// Of the time.
    Ask,
}

impl Call {
    /// As a line that tells of it begins.
    pub fn word(self) -> &'static str {
        match self {
            Call::Open => "open",
            Call::Measure => "measure",
            Call::Resize => "resize",
            Call::Read => "read",
            Call::Write => "write",
            Call::Flush => "flush",
            Call::Lock => "lock",
            Call::Sync => "sync",
            Call::Connect => "connect",
            Call::LookAt => "look at",
            Call::List => "list",
            Call::Ask => "ask",
        }
    }
}

/// Takes note of calls that failed. No clause speaks of what it does with that.
pub trait Teller {
    /// This call of what has this name failed, and why.
    fn tell(&self, call: Call, name: &str, why: &io::Error);
}
