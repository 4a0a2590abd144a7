//! Making a shard of a section.

ghost use Rattle.std.specs.Prelude.{◌≡◌, ◌<◌, ◌≤◌, ℕ, List, [], length, replicate, IsTrue, IfOk, IfErr, vec_capacity};
ghost use Rattle.lru.specs.LruCache.{lru_cache};
ghost use Rattle.vt_isect.specs.Agreement.{KnownAgrees};
ghost use Rattle.vt_isect.specs.Section.{IsAtRest};
ghost use Rattle.vt_isect.specs.Sound.{KnownBuckets, DiskHolds};
ghost use Rattle.vt_model.specs.History.{History};
ghost use Rattle.vt_model.specs.Places.{Setup};
ghost use Rattle.vt_shard.specs.Shard.{mounted_shard};
ghost use Rattle.vt_shard.specs.Sound.{IsSoundFrom};

use crate::ROOM;
use crate::shard::Shard;
use std::alloc::{AllocError, Global};
use vt_base::Entry;
use vt_disk::Disk;
use vt_icache::IndexCache;
use vt_isect::Section;
use vt_lumps::Lumps;

/// How much a shard keeps in memory at most, beside its dirty index entries.
#[derive(Clone, Copy, Debug, PartialEq, Eq)]
pub struct Sizes {
    /// How many blocks, which Venti calls lumps where they are in memory (`vt_lumps`).
    pub lumps: u32,
    /// How many index entries that are in their buckets on the disk as well.
    pub clean: u32,
}

/// A shard of a section that is at rest, with nothing in memory yet. It takes the memory for 1,024
/// dirty entries and a writeback of as many, and two bytes for each bucket. A refusal hands the
/// section back. Where the section stands, and what its head says, is for the caller to judge.
pub fn mount<D: Disk>(
    alloc: Global,
    mut section: Section<D>,
    sizes: Sizes,
) -> Result<Shard<D>, (AllocError, Section<D>)>
    requires rest { IsAtRest section }
    requires lumps { 0 < sizes.lumps }
    requires clean { 0 < sizes.clean }
    ensures mounted { IfOk result (λ it. it ≡ mounted_shard section sizes.lumps sizes.clean) }
    ensures refused { IfErr result (λ refusal. refusal.1 ≡ section) }

    // All blocks of a history with which the section agrees are durable, and those from its mark on
    // may lack their entries.
    ensures sound { (score : List ℕ → List ℕ) (c : Setup) (h : History) (known : KnownBuckets)
        → IfOk result (λ it. IsTrue D.tells
        → DiskHolds D.Disk section known → KnownAgrees score c h section known
        → section.head.state ≡ 1
        → IsSoundFrom score c D.Disk it h (length h) (length h)) }
{
    let changing = section.is_changing();
    prove!(!changing);
    match make(alloc, section.buckets(), sizes) {
        Ok(memory) => {
            drop(section.idle());
            Ok(Shard {
                section,
                index: memory.index,
                lumps: memory.lumps,
                bucket: None,
                waiting: memory.waiting,
                list: Some(memory.list),
                writeback: None,
                filed: 0,
                ended_at: None,
            })
        }
        Err(bad) => Err((bad, section)),
    }
}

/// The memory of a shard.
#[derive(Drop)]
struct Memory {
    index: IndexCache,
    lumps: Lumps,
    /// Of each bucket, how many dirty entries wait for it.
    waiting: Vec<u16>,
    /// Room for the entries of a writeback.
    list: Vec<Entry>,
}

/// Takes the memory for index entries, dirty and clean, for the counts of all buckets and for the
/// entries of a writeback, so that no call on them runs out of it later.
fn make(alloc: Global, buckets: u32, sizes: Sizes) -> Result<Memory, AllocError>
    requires lumps { 0 < sizes.lumps }
    requires clean { 0 < sizes.clean }
    ensures index { IfOk result (λ it. it.index ≡ record {
      dirty = [];
      room = ROOM;
      clean = [];
      clean_room = sizes.clean;
    }) }
    ensures lumps { IfOk result (λ it. it.lumps ≡ lru_cache [] sizes.lumps) }
    ensures waiting { IfOk result (λ it. it.waiting.items ≡ replicate buckets 0) }
    ensures list { IfOk result (λ it. ROOM ≤ vec_capacity it.list) }
{
    Ok(Memory {
        index: IndexCache::new(alloc, ROOM, sizes.clean)?,
        lumps: Lumps::new(alloc, sizes.lumps)?,
        waiting: vec![in alloc; 0; buckets as usize]?,
        list: Vec::with_capacity(alloc, ROOM as usize)?,
    })
}
