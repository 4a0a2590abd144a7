//! Laws of reading archives, each the contract of a function that does nothing: what the nodes of an
//! archive are where its score stands for a folder, which a reader can't see from one node alone.

ghost use Rattle.vac_read.specs.Laws.{TopsStand, ListsAreItems, ReadsAreBytes};
ghost use Rattle.vac_read.specs.Laws.{NoneIsRefused, NoneIsBroken, NoneIsUnfound};

/// Where a score is that of an archive of a folder, the archive's nodes are the folder's items, at
/// all depths, and what is read of a file are its bytes.
pub fn nodes_are_items()
    ensures top { TopsStand }
    ensures lists { ListsAreItems }
    ensures reads { ReadsAreBytes }
{
    vt_tree::laws::one_root();
    vt_tree::laws::one_entry();
    vt_tree::laws::one_content();
    vac_meta::laws::one_metadata();
}

/// Nothing of an archive of a folder is refused, but where a call fails or memory is short.
pub fn sound_archives_are_read()
    ensures opened { NoneIsRefused }
    ensures listed { NoneIsBroken }
    ensures walked { NoneIsUnfound }
{
    vt_tree::laws::one_root();
    vt_tree::laws::one_entry();
    vt_tree::laws::one_content();
    vac_meta::laws::one_metadata();
    vac_meta::laws::one_flaw();
}
