//! Opening the store that a configuration names.

ghost use Rattle.std.specs.Prelude.{◌≡◌, ◌+◌, ◌^◌, ◌<◌, ℕ, List, IfErr, IfOk, IsTrue, OnErr, OnOk, length};
ghost use Rattle.vt_core.specs.Files.{PerDevice};
ghost use Rattle.vt_core.specs.Mounting.{IsLogOf, KeepsLimits, LeavesStanding};
ghost use Rattle.vt_model.specs.History.{History};
ghost use Rattle.vt_model.specs.Places.{Setup};
ghost use Rattle.vt_open.specs.Names.{AreUnder};
ghost use Rattle.vt_open.specs.Opening.{IsFaultOrMemory, NamesCause, Opens, RefusesStore};
ghost use Rattle.vt_part.specs.Table.{Table};

use crate::closing::give_all;
use crate::error::OpenError;
use crate::laws::refused_stores_stand;
use crate::taking::take_all;
use std::alloc::Global;
use vt_base::Scorer;
use vt_conf::{Conf, cached_blocks, entry_room};
use vt_core::Core;
use vt_partitions::Parts;
use vt_shard::Sizes;

/// Opens the store that a configuration names: hands out the partitions of its files, those of
/// arenas first, then the index sections, then the Bloom filter, each in the order of its lines,
/// and mounts the store on them (venti.conf(6), venti(8)). There is room for so many sessions, and
/// in memory for as much as `mem` and `icmem` say.
///
/// Where one isn't handed out, or the store is refused, all that were handed out are handed back,
/// as the failed call left them.
pub fn open_store<P: Parts, S: Scorer + Drop>(
    alloc: Global,
    parts: &mut P,
    conf: &Conf,
    sessions: u32,
    scorer: S,
) -> Result<Core<P::Disk, S>, OpenError>
    requires few { length conf.now.arenas.items + length conf.now.sections.items + 1 < 2 ^ 32 }
    requires some_arenas { 0 < length conf.now.arenas.items }
    requires some_section { 0 < length conf.now.sections.items }

    // The store is that of the partitions under the names of the configuration.
    ensures opens { IfOk result (Opens S.score_of P.Disk.Disk (IsTrue P.tells) conf.now sessions
        (P.standing parts.old) (P.standing parts.new)) }
    ensures faults { OnOk result (P.faults parts.new ≡ P.faults parts.old) }

    // A refusal has its cause, with two values that are two, and the partitions that were handed out
    // are back. Where every combination of their images stood for a prefix of a legal history,
    // nothing but a failed call or want of memory keeps the store from being opened.
    ensures refused { IfErr result (RefusesStore S.score_of P.Disk.Disk (IsTrue P.tells) conf.now
        (P.standing parts.old) (P.standing parts.new) (P.faults parts.old) (P.faults parts.new)) }
    ensures differs { IfErr result NamesCause }
    ensures found { (tables : List Table) (devices : PerDevice P.Disk) (c : Setup)
        (h g : History) (base : ℕ) → IsTrue P.tells → IsTrue P.Disk.tells
        → AreUnder (P.standing parts.old) conf.now devices
        → IsLogOf S.score_of P.Disk.Disk tables devices c h g base → KeepsLimits tables c
        → IfErr result IsFaultOrMemory }

    // Whatever call failed, a crash then loses nothing more.
    ensures standing { (tables : List Table) (devices back : PerDevice P.Disk)
        → IsTrue P.tells → IsTrue P.Disk.tells → AreUnder (P.standing parts.old) conf.now devices
        → AreUnder (P.standing parts.new) conf.now back
        → OnErr result (LeavesStanding S.score_of P.Disk.Disk tables devices back) }
{
    refused_stores_stand::<P::Disk>();
    let devices = take_all(alloc, parts, conf)?;
    let sections = conf.sections.len() as u32;
    let sizes = Sizes {
        lumps: cached_blocks(conf.mem, sections),
        clean: entry_room(conf.icmem, sections),
    };
    match Core::mount(alloc, devices, sizes, sessions, scorer) {
        Ok(core) => Ok(core),
        Err((bad, devices)) => {
            give_all(parts, conf, devices);
            Err(OpenError::Refused(bad))
        }
    }
}
