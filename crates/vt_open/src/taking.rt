//! Partitions that are handed out under the names of a configuration's files.

ghost use Rattle.std.specs.Prelude.{◌≡◌, ◌+◌, ◌^◌, ◌<◌, [], ◌∷◌, IfErr, IfOk, IsTrue, OnOk, length};
ghost use Rattle.std.specs.Option.{option_to_list};
ghost use Rattle.vt_core.specs.Files.{all_of};
ghost use Rattle.vt_open.specs.Names.{files_of};
ghost use Rattle.vt_open.specs.Taking.{AreTaken, AreTakenArenas, RefusesTaking};
ghost use Rattle.vt_open.specs.TakingAll.{AreAllTaken};

use crate::closing::{give_arenas, give_sections};
use crate::error::OpenError;
use std::alloc::Global;
use vt_base::{Failed, MountBad};
use vt_conf::{Conf, PartFile};
use vt_mount_errors::of_part;
use vt_part::Part;
use vt_partitions::Parts;
use vt_recover::Devices;

/// Hands out the partitions of all files that a configuration names, in order, and reads the tables
/// of those of arenas. A refusal hands back what was handed out.
pub fn take_all<P: Parts>(
    alloc: Global,
    parts: &mut P,
    conf: &Conf,
) -> Result<Devices<P::Disk>, OpenError>
    requires { length conf.now.arenas.items + length conf.now.sections.items + 1 < 2 ^ 32 }
    ensures taken { IfOk result (AreAllTaken P.Disk.Disk (IsTrue P.tells) conf.now
        (P.standing parts.old) (P.standing parts.new)) }
    ensures refused { IfErr result (RefusesTaking P.Disk.Disk (IsTrue P.tells) 0
        (length conf.now.arenas.items) (all_of (files_of conf.now)) (P.standing parts.old)
        (P.standing parts.new) (P.faults parts.old) (P.faults parts.new)) }
    ensures faults { OnOk result (P.faults parts.new ≡ P.faults parts.old) }
{
    let arenas = take_arenas(alloc, parts, &conf.arenas)?;
    let number = conf.arenas.len() as u32;
    let sections = match take_sections(alloc, parts, &conf.sections, number) {
        Ok(sections) => sections,
        Err(bad) => {
            give_arenas(parts, &conf.arenas, arenas);
            return Err(bad);
        }
    };
    let number = number + conf.sections.len() as u32;
    match take_filter(alloc, parts, &conf.filter, number) {
        Ok(filter) => Ok(Devices {
            parts: arenas,
            sections,
            filter,
        }),
        Err(bad) => {
            give_sections(parts, &conf.sections, sections);
            give_arenas(parts, &conf.arenas, arenas);
            Err(bad)
        }
    }
}

/// Hands out the partitions of arenas of these files, and reads their tables. The first that isn't
/// handed out, or is refused, is told.
fn take_arenas<P: Parts>(
    alloc: Global,
    parts: &mut P,
    files: &[PartFile],
) -> Result<Vec<Part<P::Disk>>, OpenError>
    requires { length files.now < 2 ^ 32 }
    ensures taken { IfOk result (λ arenas. AreTakenArenas P.Disk.Disk (IsTrue P.tells) files.now
        (P.standing parts.old) (P.standing parts.new) arenas.items) }
    ensures refused { IfErr result (RefusesTaking P.Disk.Disk (IsTrue P.tells) 0
        (length files.now) files.now (P.standing parts.old) (P.standing parts.new)
        (P.faults parts.old) (P.faults parts.new)) }
    ensures faults { OnOk result (P.faults parts.new ≡ P.faults parts.old) }
{
    let Ok(mut arenas) = Vec::with_capacity(alloc, files.len()) else {
        return Err(OpenError::Refused(MountBad::NoMemory));
    };
    for (number, file) in files.iter().enumerate() {
        match take_part(alloc, parts, file, number as u32) {
            Ok(part) => arenas.push_reserved(part),
            Err(bad) => {
                give_arenas(parts, &files[..number], arenas);
                return Err(bad);
            }
        }
    }
    Ok(arenas)
}

/// Hands out the partition of arenas of this file, which has this number, and reads its table. It
/// is told where that isn't handed out, or is refused.
fn take_part<P: Parts>(
    alloc: Global,
    parts: &mut P,
    file: &PartFile,
    number: u32,
) -> Result<Part<P::Disk>, OpenError>
    ensures taken { IfOk result (λ part. AreTakenArenas P.Disk.Disk (IsTrue P.tells)
        (file.now ∷ []) (P.standing parts.old) (P.standing parts.new) (part ∷ [])) }
    ensures refused { IfErr result (RefusesTaking P.Disk.Disk (IsTrue P.tells) number 1
        (file.now ∷ []) (P.standing parts.old) (P.standing parts.new)
        (P.faults parts.old) (P.faults parts.new)) }
    ensures faults { OnOk result (P.faults parts.new ≡ P.faults parts.old) }
{
    let Ok(disk) = parts.part(alloc, &file.name, None) else {
        return Err(OpenError::Missing { part: number });
    };
    match vt_part::mount(disk) {
        Ok(part) => Ok(part),
        Err((bad, disk)) => {
            parts.done(&file.name, disk);
            Err(OpenError::Refused(of_part(number, bad)))
        }
    }
}

/// Hands out the partitions of these files, of which the first has this number. The first that
/// isn't handed out is told.
fn take_sections<P: Parts>(
    alloc: Global,
    parts: &mut P,
    files: &[PartFile],
    first: u32,
) -> Result<Vec<P::Disk>, OpenError>
    requires { first + length files.now < 2 ^ 32 }
    ensures taken { IfOk result (λ disks. AreTaken (IsTrue P.tells) files.now
        (P.standing parts.old) (P.standing parts.new) disks.items) }
    ensures refused { IfErr result (RefusesTaking P.Disk.Disk (IsTrue P.tells) first 0 files.now
        (P.standing parts.old) (P.standing parts.new) (P.faults parts.old) (P.faults parts.new)) }
    ensures faults { OnOk result (P.faults parts.new ≡ P.faults parts.old) }
{
    let Ok(mut disks) = Vec::with_capacity(alloc, files.len()) else {
        return Err(OpenError::Refused(MountBad::NoMemory));
    };
    for (number, file) in files.iter().enumerate() {
        match take_disk(alloc, parts, file, first + number as u32) {
            Ok(disk) => disks.push_reserved(disk),
            Err(bad) => {
                give_sections(parts, &files[..number], disks);
                return Err(bad);
            }
        }
    }
    Ok(disks)
}

/// Hands out the partition of the filter, if there is one, which has this number.
fn take_filter<P: Parts>(
    alloc: Global,
    parts: &mut P,
    file: &Option<PartFile>,
    number: u32,
) -> Result<Option<P::Disk>, OpenError>
    ensures taken { IfOk result (λ disk. AreTaken (IsTrue P.tells) (option_to_list file.now)
        (P.standing parts.old) (P.standing parts.new) (option_to_list disk)) }
    ensures refused { IfErr result (RefusesTaking P.Disk.Disk (IsTrue P.tells) number 0
        (option_to_list file.now) (P.standing parts.old) (P.standing parts.new)
        (P.faults parts.old) (P.faults parts.new)) }
    ensures faults { OnOk result (P.faults parts.new ≡ P.faults parts.old) }
{
    let Some(file) = file else {
        return Ok(None);
    };
    let disk = take_disk(alloc, parts, file, number)?;
    Ok(Some(disk))
}

/// Hands out the partition of this file, which has this number. It is told where that isn't handed
/// out.
fn take_disk<P: Parts>(
    alloc: Global,
    parts: &mut P,
    file: &PartFile,
    number: u32,
) -> Result<P::Disk, OpenError>
    ensures taken { IfOk result (λ disk. AreTaken (IsTrue P.tells) (file.now ∷ [])
        (P.standing parts.old) (P.standing parts.new) (disk ∷ [])) }
    ensures refused { IfErr result (RefusesTaking P.Disk.Disk (IsTrue P.tells) number 0
        (file.now ∷ []) (P.standing parts.old) (P.standing parts.new)
        (P.faults parts.old) (P.faults parts.new)) }
    ensures faults { OnOk result (P.faults parts.new ≡ P.faults parts.old) }
{
    match parts.part(alloc, &file.name, None) {
        Ok(disk) => Ok(disk),
        Err(Failed) => Err(OpenError::Missing { part: number }),
    }
}
