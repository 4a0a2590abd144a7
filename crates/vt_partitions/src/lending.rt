//! Partitions by name, handed out and taken back.

ghost use Rattle.std.specs.Prelude.{◌≡◌, ◌≢◌, ◌<◌, ◌≤◌, ◌++◌, ◌∷◌, ℕ, List, [], Some, None, length};
ghost use Rattle.std.specs.Prelude.{IfErr, IfNone, IfOk, IfSome, IsTrue, OnOk};
ghost use Rattle.std.specs.List.{position};
ghost use Rattle.vt_disk.specs.Disk.{AreAmong, Only, with_bytes};
ghost use Rattle.vt_partitions.specs.NamedInMemory.{has_name, standing_in};
ghost use Rattle.vt_partitions.specs.Parts.{nothing, lent, there, HandsOut, IsMade, StaysThere};

use crate::making_disks::MakesDisks;
use std::alloc::Global;
use vt_base::{Bytes, Failed, Text};
use vt_disk::Disk;

/// A partition in memory, or the name of one that was handed out.
#[derive(Drop)]
pub struct MemPart<D> {
    pub name: Text,
    /// The partition, or None while it is handed out.
    pub disk: Option<D>,
}

/// Where the first partition of this name is kept, if there is one.
fn place_of<D>(parts: &[MemPart<D>], name: &Text) -> Option<usize>
    ensures place { result ≡ position (has_name name.now) parts.now }
    ensures within { IfSome result (λ i. i < length parts.now) }
{
    parts
        .iter()
        .position(|part| part.name.as_slice() == name.as_slice())
}

/// Writes these bytes at a disk's front, and syncs it.
fn put_front<D: Disk>(disk: &mut D, front: &[u8]) -> Result<(), Failed>
    requires { length front.now ≤ D.size disk.old }
    ensures bytes { OnOk result (IsTrue D.tells
        → D.bytes disk.new ≡ with_bytes 0 front.now (D.bytes disk.old)) }
    ensures settled { OnOk result (IsTrue D.tells → Only (D.bytes disk.new) (D.images disk.new)) }
    ensures size { D.size disk.new ≡ D.size disk.old }
{
    disk.write_at(0, front)?;
    disk.sync()
}

/// A partition of this length, with these bytes at its front; None where memory runs out or a call
/// fails.
fn made<D: Disk + Drop, M: MakesDisks<D>>(
    alloc: Global,
    maker: &M,
    len: u64,
    front: &[u8],
) -> Option<D>
    requires { length front.now ≤ len }
    ensures size { IfSome result (λ disk. D.size disk ≡ len) }
    ensures made { IfSome result (λ disk. IsTrue D.tells → IsMade D.Disk front.now len disk) }
{
    let mut disk = maker.make(alloc, len).ok()?;
    put_front(&mut disk, front).ok()?;
    Some(disk)
}

/// All that a partition holds, or None where memory runs out or the read fails.
fn content<D: Disk>(alloc: Global, disk: &mut D) -> Option<Bytes>
    ensures content { IfSome result (λ bytes. IsTrue D.tells → bytes ≡ D.bytes disk.old) }
    ensures len { IfSome result (λ bytes. length bytes ≡ D.size disk.old) }
    ensures bytes { D.bytes disk.new ≡ D.bytes disk.old }
    ensures size { D.size disk.new ≡ D.size disk.old }
    ensures images { AreAmong (D.images disk.new) (D.images disk.old) }
{
    let mut bytes = vec![in alloc; 0; disk.len() as usize].ok()?;
    disk.read_at(0, &mut bytes).ok()?;
    Some(Bytes::from_vec(bytes))
}

/// Makes a partition, and keeps its name; None where memory runs out or a call fails.
fn lend_new<D: Disk + Drop, M: MakesDisks<D>>(
    alloc: Global,
    maker: &M,
    parts: &mut Vec<MemPart<D>>,
    name: &Text,
    len: u64,
) -> Option<D>
    ensures size { IfSome result (λ disk. D.size disk ≡ len) }
    ensures made { IfSome result (IsMade D.Disk [] len) }
    ensures kept { IfSome result (λ _. parts.new.items
        ≡ parts.old.items ++ record { name = name.now; disk = None } ∷ []) }
    ensures none { IfNone result (parts.new.items ≡ parts.old.items) }
{
    let disk = maker.make(alloc, len).ok()?;
    let name = Text::copy_of(alloc, name.as_slice()).ok()?;
    parts.push(MemPart { name, disk: None }).ok()?;
    Some(disk)
}

/// The disk, filled up with zero bytes where it is shorter than wanted. Where that fails, it is
/// handed back.
fn grown<D: Disk + Drop, M: MakesDisks<D>>(
    alloc: Global,
    maker: &M,
    mut disk: D,
    grow_to: Option<u64>,
) -> Result<D, D>
    ensures least { IfOk result (λ disk. IfSome grow_to (λ least. least ≤ D.size disk)) }
    ensures ok { IfOk result (λ found. IsTrue D.tells
        → HandsOut D.Disk (there disk) grow_to found) }
    ensures err { IfErr result (λ back. StaysThere D.Disk (there disk) (there back)) }
{
    let least = grow_to.unwrap_or(0);
    if least <= disk.len() {
        return Ok(disk);
    }
    let Some(bytes) = content(alloc, &mut disk) else {
        return Err(disk);
    };
    match made(alloc, maker, least, bytes.as_slice()) {
        Some(made) => Ok(made),
        None => Err(disk),
    }
}

/// Hands out the first partition of this name, or makes one.
pub(crate) fn lend<D: Disk + Drop, M: MakesDisks<D>>(
    alloc: Global,
    maker: &M,
    parts: &mut Vec<MemPart<D>>,
    name: &Text,
    grow_to: Option<u64>,
) -> Option<D>
    ensures grown { IfSome result (λ disk. IfSome grow_to (λ least. least ≤ D.size disk)) }
    ensures found { IfSome result (λ disk. IsTrue D.tells
        → HandsOut D.Disk (standing_in parts.old.items name.now) grow_to disk) }
    ensures lent { IfSome result (λ _. standing_in parts.new.items name.now ≡ lent) }
    ensures stays { IfNone result (StaysThere D.Disk
        (standing_in parts.old.items name.now) (standing_in parts.new.items name.now)) }
    ensures others { (other : List ℕ) → other ≢ name.now
        → standing_in parts.new.items other ≡ standing_in parts.old.items other }
{
    let Some(place) = place_of(parts, name) else {
        return lend_new(alloc, maker, parts, name, grow_to?);
    };
    let part = &mut parts[place];
    let disk = part.disk.take()?;
    match grown(alloc, maker, disk, grow_to) {
        Ok(disk) => Some(disk),
        Err(disk) => {
            part.disk = Some(disk);
            None
        }
    }
}

/// Keeps the partition that was handed out under this name.
pub(crate) fn take_back<D: Drop>(parts: &mut Vec<MemPart<D>>, name: &Text, disk: D)
    ensures back { standing_in parts.old.items name.now ≡ lent
        → standing_in parts.new.items name.now ≡ there disk }
    ensures others { (other : List ℕ) → other ≢ name.now
        → standing_in parts.new.items other ≡ standing_in parts.old.items other }
{
    if let Some(place) = place_of(parts, name) {
        let part = &mut parts[place];
        part.disk = Some(disk);
    }
}
