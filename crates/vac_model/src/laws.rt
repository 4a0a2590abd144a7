//! Laws of archives, each the contract of a function that does nothing: that a score stands for one
//! folder, and the blocks of an archive for the folder that was archived.

ghost use Rattle.std.specs.Prelude.{◌≡◌, ◌^◌};
ghost use Rattle.vac_model.specs.declared.TheConstants.{MAX_FILE, MAX_METADATA, MAX_NESTING};
ghost use Rattle.vac_model.specs.declared.TheConstants.{MIN_BLOCK_SIZE, MAX_BLOCK_SIZE};
ghost use Rattle.vac_model.specs.Laws.{ArchivesReadBack, HasOneTree};

/// The limits of archives.
pub fn limits_are_fixed()
    ensures least { MIN_BLOCK_SIZE ≡ 512 }
    ensures most { MAX_BLOCK_SIZE ≡ 53248 }
    ensures file { MAX_FILE ≡ 2 ^ 40 }
    ensures metadata { MAX_METADATA ≡ 16777216 }
    ensures nesting { MAX_NESTING ≡ 256 }
{}

/// A score is that of one folder at most.
pub fn one_tree()
    ensures { HasOneTree }
{
    vt_tree::laws::one_root();
    vt_tree::laws::one_entry();
    vt_tree::laws::one_content();
    vac_meta::laws::one_metadata();
}

/// An archive stands for its folder, in each map that has its blocks.
pub fn archives_read_back()
    ensures { ArchivesReadBack }
{
    vt_tree::laws::depth_is_least();
    vt_tree::laws::streams_read_back();
}
