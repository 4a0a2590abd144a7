//! The files of a configuration, in the order in which their partitions are opened.

ghost use Rattle.std.specs.Prelude.{◌≡◌, ◌+◌, ◌^◌, ◌<◌, length, slice_get};
ghost use Rattle.std.specs.Option.{option_map};
ghost use Rattle.vt_core.specs.Files.{all_of};
ghost use Rattle.vt_open.specs.Names.{files_of};

use vt_conf::{Conf, PartFile};

/// The file of the partition with this number: those of arenas come first, then those of index
/// sections, and then that of the Bloom filter.
pub fn file_of(conf: &Conf, part: u32) -> Option<&PartFile>
    ensures { option_map (λ file. file.now) result ≡ slice_get (all_of (files_of conf.now)) part }
{
    let part = part as usize;
    let behind = conf.arenas.len();
    if part < behind {
        return conf.arenas.get(part);
    }
    let part = part - behind;
    let behind = conf.sections.len();
    if part < behind {
        return conf.sections.get(part);
    }
    if part == behind {
        return conf.filter.as_ref();
    }
    None
}
