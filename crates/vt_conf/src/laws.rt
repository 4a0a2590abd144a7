//! What a configuration's text can say, each law the contract of a function that does nothing: no text is read in
//! two ways, and the files that one names can be numbered.

ghost use Rattle.std.specs.Prelude.{◌≡◌, ◌≤◌, ℕ, List, length};
ghost use Rattle.vt_conf.specs.declared.conf.Conf.{Conf};
ghost use Rattle.vt_conf.specs.declared.error.ConfCause.{ConfCause};
ghost use Rattle.vt_conf.specs.Addresses.{SpellsAddress};
ghost use Rattle.vt_conf.specs.Configuration.{Configures, IsFirstCause, SameConf};
ghost use Rattle.vt_conf.specs.Sizes.{SpellsSize};
ghost use Rattle.vt_conf.specs.declared.address.Address.{Address};

use crate::MAX_FILES;

/// A text says one size, and one address.
pub fn texts_have_one_meaning()
    ensures size { (text : List ℕ) (a b : ℕ) → SpellsSize a text → SpellsSize b text → a ≡ b }
    ensures address { (text : List ℕ) (a b : Address) → SpellsAddress a text
        → SpellsAddress b text → a ≡ b }
{}

/// A text says one configuration, and none that says one is refused.
pub fn configurations_have_one_meaning()
    ensures one { (text : List ℕ) (a b : Conf) → Configures text a → Configures text b
        → SameConf a b }
    ensures accepted { (text : List ℕ) (conf : Conf) (line : ℕ) (why : ConfCause)
        → Configures text conf → ¬ IsFirstCause text line why }
{}

/// A configuration names at most 64 files of arenas, and at most 64 of index sections.
pub fn configurations_name_few_files()
    ensures arenas { (text : List ℕ) (conf : Conf) → Configures text conf
        → length conf.arenas.items ≤ MAX_FILES }
    ensures sections { (text : List ℕ) (conf : Conf) → Configures text conf
        → length conf.sections.items ≤ MAX_FILES }
{}
