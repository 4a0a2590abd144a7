//! One use of a store: of one on devices, of the one that a configuration names, or of a server's.
//! It is opened or met, a job is done with it, and it is closed or parted from. The jobs that stand
//! here serve one session, and read or write one block.
// Tests: crates/vt_store_tests/src/upkeep.rt, crates/vt_wire_tests/src/remote.rt,
// crates/run_tests_sessions/src/session_conf.rt, crates/run_tests_sessions/src/read.rt,
// crates/run_tests_sessions/src/write.rt.
#![tactic(auto)]

mod answer;
mod block_job;
mod block_laws;
mod core_blocks;
mod job;
mod laws;
mod one_block;
mod place;
mod place_laws;
mod server;
mod session;
mod session_laws;
mod used_at;
mod using;

pub use answer::answer_at;
pub use block_job::{BlockJob, LocalJob};
pub use block_laws::{
    blocks_are_kept, blocks_are_read, blocks_are_runs, blocks_have_causes, stores_are_read,
    stores_are_written,
};
pub use core_blocks::{read_block, write_block};
pub use job::Job;
pub use laws::{
    calls_are_answered, calls_are_runs, readers_leave_all, stores_are_used, uses_have_causes,
    uses_leave, uses_leave_the_store, uses_need_memory,
};
pub use one_block::{ReadBlock, WriteBlock, blocks_are_asked, own_answer};
pub use place::{use_at, use_conf};
pub use place_laws::local_refusals_have_causes;
pub use server::use_server;
pub use session::{ServeSession, StoreServed, serve_store};
pub use session_laws::{
    sessions_are_runs, sessions_end_well, sessions_leave_all, sessions_tell_causes,
    sound_stores_need_memory,
};
pub use used_at::{StoreAt, StoreError, UsedAt};
pub use using::{Used, use_core, use_store};
