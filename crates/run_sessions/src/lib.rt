//! The commands that serve a session, and that read and write one block (venti(6), venti(8)).
// Tests: crates/run_tests_sessions/src.
#![tactic(auto)]

mod commands;

pub use commands::read::read;
pub use commands::session::session;
pub use commands::session_at::session_at;
pub use commands::write::write;
