//! Opening the sections and the filter of a store, and closing them.

ghost use Rattle.std.specs.Prelude.{◌≡◌, ◌⊎◌, ◌+◌, ◌++◌, ◌^◌, ◌<◌, ◌≤◌, ℕ, All, IfOk, IfErr, IsTrue, None, length, map, replicate, reverse, vec_capacity};
ghost use Rattle.std.specs.List.{AllZip};
ghost use Rattle.std.specs.Option.{ForSome, option_to_list};
ghost use Rattle.vt_base.specs.declared.mount.MountBad.{MountBad};
ghost use Rattle.vt_bloom.specs.Frame.{Saved, HasSaved};
ghost use Rattle.vt_isect.specs.Section.{IsAtRest};
ghost use Rattle.vt_log.specs.Answers.{HoldTheSame};
ghost use Rattle.vt_recover.specs.Opening.{CanBeOpened, CountsBack, IsFoundSection, IsShardMade, OpensFilter, filter_after, sections_after};
ghost use Rattle.vt_recover.specs.Refusals.{FilterIsRefused, SectionIsRefused};
ghost use Rattle.vt_recover.specs.Opening.{HasRoomForDevices};

use crate::devices::close_shards;
use std::alloc::{AllocError, Global};
use vt_base::MountBad;
use vt_bloom::{Bits, Bloom};
use vt_disk::Disk;
use vt_isect::Section;
use vt_mount_errors::{of_filter, of_section};
use vt_shard::{Shard, Sizes};

/// The counts of a filter that has no device.
const M: u8 = 16;

/// How many bits a score has in it.
const K: u8 = 8;

/// The sections of these devices, the first of which is this part of the store; beside them, the
/// memory for handing the devices back. A refusal hands them back.
pub fn open_sections<D: Disk>(
    alloc: Global,
    mut devices: Vec<D>,
    part: u32,
) -> Result<(Vec<Section<D>>, Vec<D>), (MountBad, Vec<D>)>
    requires { part + length devices.items < 2 ^ 32 }
    ensures opened { IfOk result (λ it. AllZip (IsFoundSection D.Disk) devices.items it.0.items
        × HasRoomForDevices (length devices.items) it.1) }
    ensures refused { IfErr result (λ refusal. (refusal.0 ≡ MountBad.NoMemory)
        ⊎ SectionIsRefused D.Disk part devices.items refusal.0) }
    ensures found { IsTrue D.tells → All (CanBeOpened D.Disk) devices.items
        → IfErr result (λ refusal. (refusal.0 ≡ MountBad.Fault)
        ⊎ (refusal.0 ≡ MountBad.NoMemory)) }
    ensures held { HoldTheSame D.Disk devices.items (sections_after result) }
    ensures counts { CountsBack result (map D.faults devices.items)
        (map D.faults (sections_after result)) }
{
    let Ok(mut sections) = Vec::with_capacity(alloc, devices.len()) else {
        return Err((MountBad::NoMemory, devices));
    };
    devices.reverse();
    while let Some(device) = devices.pop() {
        match vt_isect::mount(alloc, device) {
            Ok(section) => sections.push_reserved(section),
            Err((bad, device)) => {
                let bad = of_section(part + sections.len() as u32, bad);
                devices.push_reserved(device);
                return Err((bad, close_sections(sections, devices)));
            }
        }
    }
    // (this list is empty now: it is the room in which the devices are handed back)
    Ok((sections, devices))
}

/// The devices of sections, in order, and behind them those that wait, the last of which comes
/// first.
pub fn close_sections<D: Disk>(sections: Vec<Section<D>>, waiting: Vec<D>) -> Vec<D>
    requires { length waiting.items + length sections.items ≤ vec_capacity waiting }
    ensures { result.items ≡ map (λ s. s.disk) sections.items ++ reverse waiting.items }
{
    let mut devices = unpack(sections, waiting);
    devices.reverse();
    devices
}

/// Puts the devices of sections, the last of which comes first, behind these.
fn unpack<D: Disk>(mut sections: Vec<Section<D>>, mut devices: Vec<D>) -> Vec<D>
    requires { length devices.items + length sections.items ≤ vec_capacity devices }
    ensures items { result.items ≡ devices.items ++ reverse (map (λ s. s.disk) sections.items) }
    ensures room { vec_capacity result ≡ vec_capacity devices }
{
    while let Some(section) = sections.pop() {
        devices.push_reserved(section.into_devices());
    }
    sections.destroy_empty();
    devices
}

/// The shards of these sections, with room to hand their devices back in. Want of memory hands them
/// back.
fn open_shards<D: Disk>(
    alloc: Global,
    mut sections: Vec<Section<D>>,
    sizes: Sizes,
    // (the list that the devices came in, emptied: handing them back takes no memory)
    room: Vec<D>,
) -> Result<(Vec<Shard<D>>, Vec<D>), Vec<D>>
    requires lumps { 0 < sizes.lumps }
    requires clean { 0 < sizes.clean }
    requires rest { All (λ s. IsAtRest s) sections.items }
    requires room { HasRoomForDevices (length sections.items) room }
    ensures made { IfOk result (λ it. AllZip (IsShardMade D.Disk sizes.lumps sizes.clean)
        sections.items it.0.items × HasRoomForDevices (length sections.items) it.1) }
    ensures memory { IfErr result (λ devices. devices.items ≡ map (λ s. s.disk) sections.items) }
{
    let Ok(mut shards) = Vec::with_capacity(alloc, sections.len()) else {
        return Err(close_sections(sections, room));
    };
    sections.reverse();
    while let Some(section) = sections.pop() {
        match vt_shard::mount(alloc, section, sizes) {
            Ok(shard) => shards.push_reserved(shard),
            Err((AllocError, section)) => {
                sections.push_reserved(section);
                sections.reverse();
                return Err(close_shards(shards, unpack(sections, room)));
            }
        }
    }
    sections.destroy_empty();
    Ok((shards, room))
}

/// What a store has in memory: the shards of these sections, room to hand their devices back in,
/// and a row for each session, none of which waits. Want of memory hands the devices back.
pub fn open_memory<D: Disk>(
    alloc: Global,
    sections: Vec<Section<D>>,
    sizes: Sizes,
    sessions: u32,
    // (the list that the devices came in, emptied: handing them back takes no memory)
    room: Vec<D>,
) -> Result<(Vec<Shard<D>>, Vec<D>, Vec<Option<u64>>), Vec<D>>
    requires lumps { 0 < sizes.lumps }
    requires clean { 0 < sizes.clean }
    requires rest { All (λ s. IsAtRest s) sections.items }
    requires room { HasRoomForDevices (length sections.items) room }
    ensures made { IfOk result (λ it. AllZip (IsShardMade D.Disk sizes.lumps sizes.clean)
        sections.items it.0.items × HasRoomForDevices (length sections.items) it.1) }
    ensures rows { IfOk result (λ it. it.2.items ≡ replicate sessions None) }
    ensures memory { IfErr result (λ devices. devices.items ≡ map (λ s. s.disk) sections.items) }
{
    let (shards, room) = open_shards(alloc, sections, sizes, room)?;
    let Ok(rows) = vec![in alloc; None; sessions as usize] else {
        return Err(close_shards(shards, room));
    };
    Ok((shards, room, rows))
}

/// The filter of a device, which is this part of the store, and its bits. Without a device there
/// are 2^16 bits, none of them set, and a score has 8. A refusal hands the device back.
pub fn open_filter<D: Disk>(
    alloc: Global,
    device: Option<D>,
    part: u32,
) -> Result<(Option<Bloom<D>>, Bits), (MountBad, Option<D>)>
    ensures opened { IfOk result (λ it. OpensFilter D.Disk device it.0 it.1) }
    ensures refused { IfErr result (λ refusal. (refusal.0 ≡ MountBad.NoMemory)
        ⊎ FilterIsRefused D.Disk part (option_to_list device) refusal.0) }
    ensures found { IsTrue D.tells
        → ForSome device (λ it. (saved : Saved) × HasSaved saved (D.bytes it))
        → IfErr result (λ refusal. (refusal.0 ≡ MountBad.Fault)
        ⊎ (refusal.0 ≡ MountBad.NoMemory)) }
    ensures held { HoldTheSame D.Disk (option_to_list device)
        (option_to_list (filter_after result)) }
    ensures counts { CountsBack result (map D.faults (option_to_list device))
        (map D.faults (option_to_list (filter_after result))) }
{
    let Some(device) = device else {
        return match Bits::new(alloc, M, K) {
            Ok(bits) => Ok((None, bits)),
            Err(AllocError) => Err((MountBad::NoMemory, None)),
        };
    };
    match vt_bloom::mount(alloc, device) {
        Ok((bloom, bits)) => Ok((Some(bloom), bits)),
        Err((bad, device)) => Err((of_filter(part, bad), Some(device))),
    }
}
