//! The log and the sections of a store, opened beside each other.

ghost use Rattle.std.specs.Prelude.{◌≡◌, ◌+◌, ◌^◌, ◌<◌, ◌≤◌, All, IfErr, IfOk, length};
ghost use Rattle.vt_core.specs.Mounting.{devices_in, tables_in};
ghost use Rattle.vt_core.specs.Opening.{with_log};
ghost use Rattle.vt_recover.specs.Opening.{HasRoomForDevices};
ghost use Rattle.vt_part.specs.Parts.{disk_of, table_of};
ghost use Rattle.vt_part.specs.Table.{arenas_end};
ghost use Rattle.vt_rebuild.specs.Building.{disks_under};

use std::alloc::Global;
use vt_base::{MountBad, Scorer};
use vt_core::{test_arenas, test_buckets, test_heads};
use vt_disk::Disk;
use vt_isect::Section;
use vt_log::Log;
use vt_mount_errors::of_log;
use vt_recover::{Devices, close_sections, open_sections};

/// The log of a store, and its sections, whatever their heads say and their buckets hold. Its Bloom
/// filter isn't read.
#[derive(Drop)]
pub(crate) struct Opened<D: Disk, S: Scorer> {
    pub(crate) log: Log<D, S>,
    pub(crate) sections: Vec<Section<D>>,
    /// The first section is this part of the store.
    pub(crate) part: u32,
    /// How many buckets all sections have.
    pub(crate) buckets: u32,
    /// Memory to hand the sections' devices back in.
    /// (the list that they came in, emptied, so that it takes none)
    pub(crate) room: Vec<D>,
    /// The filter's device, if there is one, which is only handed back.
    pub(crate) filter: Option<D>,
}

impl<D: Disk, S: Scorer + Drop> Opened<D, S> {
    ghost use Rattle.vt_maintain.specs.Devices.{RefusesDevices};
    ghost use Rattle.vt_maintain.specs.Opened.{AreInUse, AreOpened, IsLogOn, RefusesOpening, RefusesUse, StandsBeside};

    /// Finds the log and the sections on the devices of a store. A refusal hands the devices back,
    /// and nothing is written.
    pub(crate) fn open(
        alloc: Global,
        devices: Devices<D>,
        scorer: S,
    ) -> Result<Self, (MountBad, Devices<D>)>
        requires many { length devices.parts.items + length devices.sections.items < 2 ^ 32 }
        requires rooms { All (λ part. arenas_end (table_of part) ≤ D.size (disk_of part))
            devices.parts.items }
        ensures opened { IfOk result (λ it. AreOpened S.score_of D.Disk devices it.log
            it.sections.items) }
        ensures beside { IfOk result (λ it. StandsBeside (length devices.parts.items)
            it.sections.items it.part it.buckets it.room) }
        ensures filter { IfOk result (λ it. it.filter ≡ devices.filter) }
        ensures refused { IfErr result
            (λ refusal. RefusesDevices (RefusesOpening D.Disk devices) D.Disk
            devices refusal.0 refusal.1) }
    {
        let Devices {
            parts,
            sections,
            filter,
        } = devices;
        let part = parts.len() as u32;
        if let Err(bad) = test_arenas(&parts) {
            let devices = Devices {
                parts,
                sections,
                filter,
            };
            return Err((bad, devices));
        }
        match vt_log::mount(alloc, parts, scorer) {
            Ok(log) => Opened::open_beside(alloc, log, sections, filter, part),
            Err((bad, parts)) => {
                let bad = of_log(&parts, bad);
                let devices = Devices {
                    parts,
                    sections,
                    filter,
                };
                Err((bad, devices))
            }
        }
    }

    /// Finds the sections beside a log, and tests how many buckets they have.
    fn open_beside(
        alloc: Global,
        log: Log<D, S>,
        sections: Vec<D>,
        filter: Option<D>,
        part: u32,
    ) -> Result<Self, (MountBad, Devices<D>)>
        requires { part + length sections.items < 2 ^ 32 }
        ensures opened { (devices : Devices D) → IsLogOn S.score_of D.Disk devices log
            → devices.sections.items ≡ sections.items → IfOk result (λ it.
            AreOpened S.score_of D.Disk devices it.log it.sections.items) }
        ensures beside { IfOk result (λ it. StandsBeside part it.sections.items it.part it.buckets
            it.room) }
        ensures filter { IfOk result (λ it. it.filter ≡ filter) }
        ensures refused { (devices : Devices D) → IsLogOn S.score_of D.Disk devices log
            → devices.sections.items ≡ sections.items → devices.filter ≡ filter
            → length devices.parts.items ≡ part → IfErr result (λ refusal.
            RefusesDevices (RefusesOpening D.Disk devices) D.Disk devices refusal.0 refusal.1) }
    {
        let (sections, room) = match open_sections(alloc, sections, part) {
            Ok(opened) => opened,
            Err((bad, sections)) => {
                let devices = Devices {
                    parts: log.into_devices(),
                    sections,
                    filter,
                };
                return Err((bad, devices));
            }
        };
        match test_buckets(&sections, part) {
            Ok(buckets) => Ok(Opened {
                log,
                sections,
                part,
                buckets,
                room,
                filter,
            }),
            Err(bad) => {
                let devices = Devices {
                    parts: log.into_devices(),
                    sections: close_sections(sections, room),
                    filter,
                };
                Err((bad, devices))
            }
        }
    }

    /// Opens the log and the sections as `open` does, of a store whose index is in use.
    pub(crate) fn open_in_use(
        alloc: Global,
        devices: Devices<D>,
        scorer: S,
    ) -> Result<Self, (MountBad, Devices<D>)>
        requires many { length devices.parts.items + length devices.sections.items < 2 ^ 32 }
        requires rooms { All (λ part. arenas_end (table_of part) ≤ D.size (disk_of part))
            devices.parts.items }
        ensures opened { IfOk result (λ it. AreOpened S.score_of D.Disk devices it.log
            it.sections.items) }
        ensures in_use { IfOk result (λ it. AreInUse devices it.sections.items) }
        ensures room { IfOk result (λ it. HasRoomForDevices (length it.sections.items) it.room) }
        ensures filter { IfOk result (λ it. it.filter ≡ devices.filter) }
        ensures refused { IfErr result
            (λ refusal. RefusesDevices (RefusesUse S.score_of D.Disk devices)
            D.Disk devices refusal.0 refusal.1) }
    {
        let opened = Opened::open(alloc, devices, scorer)?;
        match test_heads(&opened.sections, opened.part, opened.buckets) {
            Ok(()) => Ok(opened),
            Err(bad) => Err((bad, opened.close())),
        }
    }

    /// Gives all devices of the store back, and takes no memory for it.
    pub(crate) fn close(self) -> Devices<D>
        requires { HasRoomForDevices (length self.sections.items) self.room }
        ensures devices { devices_in result
            ≡ with_log self.log.disks (disks_under self.sections.items) self.filter }
        ensures tables { tables_in result ≡ self.log.tables }
        ensures filter { result.filter ≡ self.filter }
    {
        let Opened {
            log,
            sections,
            room,
            filter,
            part: _,
            buckets: _,
        } = self;
        Devices {
            parts: log.into_devices(),
            sections: close_sections(sections, room),
            filter,
        }
    }
}
