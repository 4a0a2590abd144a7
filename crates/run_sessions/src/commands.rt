//! The commands, each in a file of its name.

pub mod read;
pub mod session;
pub mod session_at;
pub mod session_conf;
pub mod write;
