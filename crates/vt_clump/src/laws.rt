//! Laws of clumps, each the contract of a function that does nothing: bytes are read in one way, or
//! refused by one test.

ghost use Rattle.vt_clump.specs.Laws.{IsUnambiguous, PassesClumps, PassesClumpsOnly, HasClumpLen};

/// Bytes begin with one clump at most, and do so exactly where no test fails.
pub fn clumps_are_told_apart()
    ensures one { IsUnambiguous }
    ensures passes { PassesClumps }
    ensures only { PassesClumpsOnly }
    ensures len { HasClumpLen }
{}
