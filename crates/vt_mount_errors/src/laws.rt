//! What is told has two values that differ.

ghost use Rattle.std.specs.Prelude.{ℕ, List};
ghost use Rattle.vt_bloom.specs.Faults.{NamesFilterCause};
ghost use Rattle.vt_bloom.specs.declared.error.BloomError.{BloomError};
ghost use Rattle.vt_isect.specs.Faults.{NamesSectionCause};
ghost use Rattle.vt_isect.specs.declared.error.SectBad.{SectBad};
ghost use Rattle.vt_log.specs.Faults.{RefusesLogMount};
ghost use Rattle.vt_log.specs.declared.error.LogBad.{LogBad};
ghost use Rattle.vt_mount_errors.specs.MountErrors.{NamesTwo, of_filter, of_log, of_part, of_section};
ghost use Rattle.vt_part.specs.Faults.{NamesPartCause};
ghost use Rattle.vt_part.specs.declared.error.PartBad.{PartBad};
ghost use Rattle.vt_part.specs.declared.layout.ArenaRegion.{ArenaRegion};

/// A part's refusal is told with two values that differ, whatever its device holds.
pub fn refusals_name_two()
    ensures part { (part size : ℕ) (why : PartBad) → NamesPartCause size why
        → NamesTwo (of_part part why) }
    ensures log { (names : List (List ℕ)) (layout : List ArenaRegion) (fields : List (List ℕ))
        (why : LogBad) → RefusesLogMount names layout fields why → NamesTwo (of_log layout why) }
    ensures section { (part size : ℕ) (why : SectBad) → NamesSectionCause size why
        → NamesTwo (of_section part why) }
    ensures filter { (part size : ℕ) (why : BloomError) → NamesFilterCause size why
        → NamesTwo (of_filter part why) }
{}
