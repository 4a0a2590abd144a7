//! Rebuilding the index of a store.

ghost use Rattle.std.specs.Prelude.{◌+◌, ◌^◌, ◌<◌, ◌≤◌, All, IfErr, IsTrue, length};
ghost use Rattle.vt_maintain.specs.Devices.{WorksOnDevices};
ghost use Rattle.vt_maintain.specs.Opened.{RefusesOpening};
ghost use Rattle.vt_maintain.specs.Rebuilding.{Rebuilds};
ghost use Rattle.vt_maintain.specs.Stores.{NamesUnopened, WorksOnStore};
ghost use Rattle.vt_part.specs.Parts.{disk_of, table_of};
ghost use Rattle.vt_part.specs.Table.{arenas_end};

use crate::error::MaintainError;
use crate::laws::refusals_name_two;
use crate::opened::Opened;
use std::alloc::Global;
use vt_base::Scorer;
use vt_conf::Conf;
use vt_disk::Disk;
use vt_open::{OpenError, give_all, refused_stores_stand, take_all};
use vt_out::Progress;
use vt_partitions::Parts;
use vt_rebuild::{RebuildBad, rebuild};
use vt_recover::Devices;

/// Rebuilds the index of the store that a configuration names from its log, in its sections,
/// whatever they hold, and gives the count of its blocks (venti(8), buildindex). The partition of
/// the Bloom filter is neither read nor written.
pub fn rebuild_store<P: Parts, S: Scorer + Drop, G: Progress>(
    alloc: Global,
    parts: &mut P,
    conf: &Conf,
    scorer: S,
    progress: &mut G,
) -> Result<u64, MaintainError<RebuildBad>>
    requires few { length conf.now.arenas.items + length conf.now.sections.items + 1 < 2 ^ 32 }
    requires some_section { 0 < length conf.now.sections.items }
    ensures uses { WorksOnStore P.Disk.Disk (IsTrue P.tells) conf.now (RefusesOpening P.Disk.Disk)
        (Rebuilds S.score_of P.Disk.Disk) (P.standing parts.old) (P.standing parts.new)
        (P.faults parts.old) (P.faults parts.new) result }
    ensures differs { IfErr result NamesUnopened }
{
    refused_stores_stand::<P::Disk>();
    refusals_name_two::<P::Disk>();
    let devices = match take_all(alloc, parts, conf) {
        Ok(devices) => devices,
        Err(bad) => return Err(MaintainError::Unopened(bad)),
    };
    let (done, devices) = rebuild_devices(alloc, devices, scorer, progress);
    give_all(parts, conf, devices);
    done
}

/// Rebuilds the index of a store on its devices, and hands them back.
fn rebuild_devices<D: Disk, S: Scorer + Drop, G: Progress>(
    alloc: Global,
    devices: Devices<D>,
    scorer: S,
    progress: &mut G,
) -> (Result<u64, MaintainError<RebuildBad>>, Devices<D>)
    requires many { length devices.parts.items + length devices.sections.items < 2 ^ 32 }
    requires rooms { All (λ part. arenas_end (table_of part) ≤ D.size (disk_of part))
        devices.parts.items }
    requires some_section { 0 < length devices.sections.items }
    ensures { WorksOnDevices D.Disk (RefusesOpening D.Disk) (Rebuilds S.score_of D.Disk) devices
        result.1
        result.0 }
{
    let mut opened = match Opened::open(alloc, devices, scorer) {
        Ok(opened) => opened,
        Err((bad, devices)) => return (
            Err(MaintainError::Unopened(OpenError::Refused(bad))),
            devices,
        ),
    };
    match rebuild(alloc, &mut opened.log, &mut opened.sections, progress) {
        Ok(blocks) => (Ok(blocks), opened.close()),
        Err(bad) => (Err(MaintainError::Ended(bad)), opened.close()),
    }
}
