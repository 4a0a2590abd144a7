//! Laws of a bucket's frames, each the contract of a function that does nothing: bytes are read in one
//! way, or refused for one fault.

ghost use Rattle.vt_bucket.specs.Laws.{IsUnambiguous, AcceptsFrames, HasOneFault};

/// Bytes are the frame of one bucket at most, and have no fault then, and one fault at most.
pub fn frames_are_told_apart()
    ensures one { IsUnambiguous }
    ensures accepted { AcceptsFrames }
    ensures one_fault { HasOneFault }
{}
