//! The commands, each in a file of its name.

pub mod vac;
pub mod vacfs;
