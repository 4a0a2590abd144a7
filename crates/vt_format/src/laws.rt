//! What is known of a configuration whose index is formatted.

ghost use Rattle.std.specs.Prelude.{◌^◌, ◌<◌, ℕ, List, length};
ghost use Rattle.vt_conf.specs.Configuration.{Configures};
ghost use Rattle.vt_conf.specs.declared.conf.Conf.{Conf};
ghost use Rattle.vt_format.specs.Index.{files_in_order};

use vt_conf::laws::configurations_name_few_files;

/// A configuration names so few files that each has a number.
pub fn configurations_number_their_files()
    ensures { (text : List ℕ) (conf : Conf) → Configures text conf
        → length (files_in_order conf) < 2 ^ 32 }
{
    configurations_name_few_files();
}
