//! What a section's next device call does: the phases of a writeback.

/// What the next device call of `advance` does. `NextPhase` (specs/Writeback.antt) says what comes
/// behind each; `IsWell` (specs/Section.antt) what holds in each.
#[derive(Clone, Copy, Debug, PartialEq, Eq)]
pub enum Phase {
    /// Nothing is under way.
    Rest,
    /// It reads the selector of the bucket under way, whose current frame isn't remembered.
    ReadSelector,
    /// It reads that bucket's current frame, which a selector with this first byte names.
    ReadFrame(u8),
    /// It writes that bucket's idle frame, beside the current one of this number.
    WriteFrame(u8),
    /// It syncs the frames of the group.
    SyncFrames,
    /// It writes the selector of this member of the group, counted from 0.
    WriteSelector(usize),
    /// It syncs the selectors of the group.
    SyncSelectors,
    /// It is one of the four that change the head's frame.
    ChangeHead,
}
