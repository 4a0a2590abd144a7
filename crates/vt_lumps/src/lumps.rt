//! The blocks that are kept in memory.

ghost use Rattle.std.specs.Prelude.{◌≡◌, ◌<◌, [], true, false, IsSome, IfOk, option_copied, is_some, slice_get};
ghost use Rattle.lru.specs.LruCache.{lru_cache};
ghost use Rattle.vt_lumps.specs.Lumps.{cached_bytes, used, with_lump, without_last};

use lru::LruCache;
use std::alloc::{AllocError, Global};
use std::marker::Model;
use std::num::NonZeroUsize;
use vt_base::{Bytes, Key};

/// A cache of blocks, which contracts see as the pairs of a key and its block's bytes, the most
/// recently used first.
#[derive(Drop)]
pub struct Lumps {
    cache: LruCache<Key, Bytes>,
}

impl Model for Lumps {
    ghost use Rattle.vt_lumps.specs.Lumps.{LumpsState};

    ghost Value = { LumpsState };

    ghost view = { λ l. l.cache };
}

impl Lumps {
    /// An empty cache that keeps so many blocks at most.
    pub fn new(alloc: Global, capacity: u32) -> Result<Self, AllocError>
        requires { 0 < capacity }
        ensures { IfOk result (λ it. it ≡ lru_cache [] capacity) }
    {
        let Some(capacity) = NonZeroUsize::new(capacity as usize) else {
            unreachable!()
        };
        Ok(Lumps {
            cache: LruCache::new(alloc, capacity)?,
        })
    }

    /// Whether the block of a key is kept. It becomes the most recently used, and `get` gives it.
    pub fn touch(&mut self, key: &Key) -> bool
        ensures kept { result ≡ is_some (cached_bytes key.now self.old) }
        ensures used { self.new ≡ used key.now self.old }
    {
        self.cache.promote(key)
    }

    /// The bytes of a key's block: None exactly where it isn't kept.
    pub fn get(&self, key: &Key) -> Option<&Bytes>
        ensures { option_copied result ≡ cached_bytes key.now self.now }
    {
        self.cache.peek(key)
    }

    /// Keeps a block, which becomes the most recently used, in place of the least recently used one
    /// where there is no room. False is want of memory: it leaves the cache as it was, and never
    /// comes for a key whose block is kept.
    pub fn keep(&mut self, key: Key, bytes: Bytes) -> bool
        ensures kept { result ≡ true → self.new ≡ with_lump key bytes self.old }
        ensures dropped { result ≡ false → self.new ≡ self.old }
        ensures succeeds { IsSome (cached_bytes key self.old) → result ≡ true }
    {
        self.cache.put(key, bytes).is_ok()
    }

    /// Drops the least recently used block. False says that there was none.
    pub fn drop_last(&mut self) -> bool
        ensures dropped { self.new ≡ without_last self.old }
        ensures some { result ≡ is_some (slice_get self.old.entries 0) }
    {
        self.cache.pop_lru().is_some()
    }
}
