//! Partitions that are handed back.

ghost use Rattle.std.specs.Prelude.{◌≡◌, IsTrue, length};
ghost use Rattle.std.specs.Option.{option_to_list};
ghost use Rattle.vt_core.specs.Core.{devices_of};
ghost use Rattle.vt_core.specs.Files.{all_of};
ghost use Rattle.vt_core.specs.Mounting.{devices_in};
ghost use Rattle.vt_log.specs.Log.{disks_of};
ghost use Rattle.vt_open.specs.Names.{HaveOneShape, files_of};
ghost use Rattle.vt_open.specs.Taking.{AreHandedBack};

use vt_base::Scorer;
use vt_conf::{Conf, PartFile};
use vt_core::Core;
use vt_part::Part;
use vt_partitions::Parts;
use vt_recover::Devices;

/// Hands back the partitions of an opened store, each under the name of its file. It makes no
/// device call and takes no memory: what is queued or dirty isn't on the partitions.
pub fn close_store<P: Parts, S: Scorer + Drop>(parts: &mut P, conf: &Conf, core: Core<P::Disk, S>)
    requires { HaveOneShape (devices_of core) (files_of conf.now) }
    ensures given { AreHandedBack (IsTrue P.tells) (all_of (files_of conf.now))
        (P.standing parts.old)
        (P.standing parts.new) (all_of (devices_of core)) }
    ensures faults { P.faults parts.new ≡ P.faults parts.old }
{
    give_all(parts, conf, core.into_devices());
}

/// Hands back the partitions of all files that a configuration names, as taking them gave them out.
pub fn give_all<P: Parts>(parts: &mut P, conf: &Conf, devices: Devices<P::Disk>)
    requires { HaveOneShape (devices_in devices) (files_of conf.now) }
    ensures given { AreHandedBack (IsTrue P.tells) (all_of (files_of conf.now))
        (P.standing parts.old)
        (P.standing parts.new) (all_of (devices_in devices)) }
    ensures faults { P.faults parts.new ≡ P.faults parts.old }
{
    let Devices {
        parts: arenas,
        sections,
        filter,
    } = devices;
    give_filter(parts, &conf.filter, filter);
    give_sections(parts, &conf.sections, sections);
    give_arenas(parts, &conf.arenas, arenas);
}

/// Hands back partitions of arenas.
pub(crate) fn give_arenas<P: Parts>(
    parts: &mut P,
    files: &[PartFile],
    mut arenas: Vec<Part<P::Disk>>,
)
    requires { length arenas.items ≡ length files.now }
    ensures given { AreHandedBack (IsTrue P.tells) files.now (P.standing parts.old)
        (P.standing parts.new) (disks_of arenas.items) }
    ensures faults { P.faults parts.new ≡ P.faults parts.old }
{
    while let Some(part) = arenas.pop() {
        parts.done(&files[arenas.len()].name, part.into_devices());
    }
}

/// Hands back partitions of index sections.
pub(crate) fn give_sections<P: Parts>(parts: &mut P, files: &[PartFile], mut disks: Vec<P::Disk>)
    requires { length disks.items ≡ length files.now }
    ensures given { AreHandedBack (IsTrue P.tells) files.now (P.standing parts.old)
        (P.standing parts.new) disks.items }
    ensures faults { P.faults parts.new ≡ P.faults parts.old }
{
    while let Some(disk) = disks.pop() {
        parts.done(&files[disks.len()].name, disk);
    }
}

/// Hands back the partition of the filter, if there is one.
fn give_filter<P: Parts>(parts: &mut P, file: &Option<PartFile>, disk: Option<P::Disk>)
    requires { length (option_to_list disk) ≡ length (option_to_list file.now) }
    ensures given { AreHandedBack (IsTrue P.tells) (option_to_list file.now) (P.standing parts.old)
        (P.standing parts.new) (option_to_list disk) }
    ensures faults { P.faults parts.new ≡ P.faults parts.old }
{
    if let Some(file) = file
        && let Some(disk) = disk
    {
        parts.done(&file.name, disk);
    }
}
