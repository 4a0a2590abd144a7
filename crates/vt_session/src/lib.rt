//! What a whole link was, from its first byte to its last: what a server heard on it, what it said,
//! and which history of blocks answered.
// Tests: crates/vt_wire_tests/src/session.rt.
#![tactic(auto)]

mod laws;
mod parsed;
mod talker;
mod waiting;

pub use laws::{
    added_numbers_rise, alone_adds, alone_is_determined, alone_is_talk, alone_keeps_legal,
    bytes_tell_history, causes_join, cut_output, every_input_has_a_session, feeding_goes_on,
    heard_goes_on, heard_once, hearing_once, hearing_steps, later_turns_join, more_turns_join,
    one_count_rises, talk_of_longer, talks_go_on, turns_tell_in_order, write_fault_in_a_reply,
    written_blocks_are_held,
};
pub use parsed::Next;
pub use talker::{MAX_TAKEN, Talker};

/// How a session ended.
#[derive(Clone, Copy, Debug, PartialEq, Eq)]
pub enum Ended {
    /// By a goodbye.
    Goodbye,
    /// By the end of input, before any byte or right behind the line or a message.
    Closed,
    /// By the end of input inside the line or a message.
    Cut,
    /// By a wrong byte of the line, or a size field below 2, at this place of the input.
    Malformed(u64),
    /// By 2^62 bytes taken.
    Spent,
    /// By a read that failed.
    ReadFault,
    /// By a write that failed.
    WriteFault,
    /// For want of memory, before anything was written.
    NoMemory,
}
