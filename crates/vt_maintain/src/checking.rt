//! Checking the arenas of a store.

ghost use Rattle.std.specs.Prelude.{◌+◌, ◌^◌, ◌<◌, ◌≤◌, All, IfErr, IsTrue, length};
ghost use Rattle.vt_maintain.specs.Checking.{ChecksOn};
ghost use Rattle.vt_maintain.specs.Devices.{WorksOnDevices};
ghost use Rattle.vt_maintain.specs.Opened.{RefusesUse};
ghost use Rattle.vt_maintain.specs.Stores.{NamesUnopened, WorksOnStore};
ghost use Rattle.vt_part.specs.Parts.{disk_of, table_of};
ghost use Rattle.vt_part.specs.Table.{arenas_end};

use crate::error::MaintainError;
use crate::laws::refusals_name_two;
use crate::opened::Opened;
use std::alloc::Global;
use std::thread::Threads;
use vt_base::Scorer;
use vt_check::{CheckErr, Report, check};
use vt_conf::Conf;
use vt_disk::Disk;
use vt_open::{OpenError, give_all, refused_stores_stand, take_all};
use vt_out::Progress;
use vt_partitions::Parts;
use vt_recover::Devices;

/// Checks the arenas of the store that a configuration names, and reports of each of them
/// (venti(8), checkarenas). Of the index only the heads of its sections are read, and the Bloom
/// filter isn't. Nothing is written.
pub fn check_store<P: Parts, S: Scorer + Sync, G: Progress>(
    rt: &(impl Threads + Sync),
    alloc: Global,
    parts: &mut P,
    conf: &Conf,
    scorer: &S,
    progress: &mut G,
) -> Result<Report, MaintainError<CheckErr>>
    requires { length conf.now.arenas.items + length conf.now.sections.items + 1 < 2 ^ 32 }
    ensures uses { WorksOnStore P.Disk.Disk (IsTrue P.tells) conf.now
        (RefusesUse S.score_of P.Disk.Disk) (ChecksOn S.score_of P.Disk.Disk)
        (P.standing parts.old) (P.standing parts.new) (P.faults parts.old) (P.faults parts.new)
        result }
    ensures differs { IfErr result NamesUnopened }
{
    refused_stores_stand::<P::Disk>();
    refusals_name_two::<P::Disk>();
    let devices = match take_all(alloc, parts, conf) {
        Ok(devices) => devices,
        Err(bad) => return Err(MaintainError::Unopened(bad)),
    };
    let (done, devices) = check_devices(rt, alloc, devices, scorer, progress);
    give_all(parts, conf, devices);
    done
}

/// Checks the arenas of a store on its devices, and hands them back.
fn check_devices<D: Disk, S: Scorer + Sync, G: Progress>(
    rt: &(impl Threads + Sync),
    alloc: Global,
    devices: Devices<D>,
    scorer: &S,
    progress: &mut G,
) -> (Result<Report, MaintainError<CheckErr>>, Devices<D>)
    requires many { length devices.parts.items + length devices.sections.items < 2 ^ 32 }
    requires rooms { All (λ part. arenas_end (table_of part) ≤ D.size (disk_of part))
        devices.parts.items }
    ensures { WorksOnDevices D.Disk (RefusesUse S.score_of D.Disk) (ChecksOn S.score_of D.Disk)
        devices
        result.1 result.0 }
{
    let mut opened = match Opened::open_in_use(alloc, devices, scorer) {
        Ok(opened) => opened,
        Err((bad, devices)) => return (
            Err(MaintainError::Unopened(OpenError::Refused(bad))),
            devices,
        ),
    };
    match check(rt, alloc, &mut opened.log, &scorer, progress) {
        Ok(report) => (Ok(report), opened.close()),
        Err(bad) => (Err(MaintainError::Ended(bad)), opened.close()),
    }
}
