//! The index cache.

ghost use Rattle.std.specs.Prelude.{◌≡◌, ◌≢◌, ◌⊎◌, ℕ, ◌≤◌, ◌<◌, ◌+◌, ◌-◌, ◌*◌, ◌++◌, ◌↔◌, ◌∷◌, [], length, take, true, false, IsTrue, IfOk, IfSome, IfNone, None, Some, slice_get};
ghost use Rattle.std.specs.Map.{lookup};
ghost use Rattle.std.specs.Option.{option_map};
ghost use Rattle.indexmap.specs.IndexMap.{IsUnique, index_map_len, spare};
ghost use Rattle.vt_base.specs.Key.{same_key};
ghost use Rattle.vt_base.specs.Kind.{IsKind};
ghost use Rattle.std.specs.List.{AllPairs};
ghost use Rattle.vt_base.specs.declared.place.Entry.{Entry};
ghost use Rattle.vt_base.specs.declared.place.Info.{Info};
ghost use Rattle.vt_icache.specs.Index.{IndexState, IsCached, SettlesEntry, dirty_info, entry_of, cached_entry, after_look_up};

use indexmap::IndexMap;
use lru::LruCache;
use std::alloc::{AllocError, Global};
use std::marker::Model;
use std::mem;
use std::num::NonZeroUsize;
use vt_base::{Entry, Info, Key, Kind, Score};

/// The entries of the index that are kept in memory.
#[derive(Drop)]
pub struct IndexCache {
    /// How many dirty entries there may be.
    room: u32,
    /// The dirty entries, and behind them those that were settled and are still here.
    infos: IndexMap<Key, Info>,
    /// How many are dirty.
    dirty: u32,
    /// No entries, but room for as many. The dirty ones move here where the settled ones go.
    blank: IndexMap<Key, Info>,
    /// The clean entries, of which the least recently used one makes room.
    clean: LruCache<Key, Entry>,
}

impl Model for IndexCache {
    ghost use Rattle.vt_icache.specs.Index.{IndexState};
    ghost use Rattle.vt_icache.specs.Keeping.{IsWell};
    ghost use Rattle.vt_icache.specs.View.{state_of};

    ghost Value = { IndexState };

    ghost view = { state_of };

    ghost invariant = { λ s. IsWell s.room s.infos s.dirty s.blank s.clean };
}

impl IndexCache {
    /// No entries, and room for so many dirty and so many clean ones.
    pub fn new(alloc: Global, dirty: u32, clean: u32) -> Result<Self, AllocError>
        requires { 0 < clean }
        ensures { IfOk result (λ it. it ≡ record {
          dirty = [];
          room = dirty;
          clean = [];
          clean_room = clean;
        }) }
    {
        let Some(capacity) = NonZeroUsize::new(clean as usize) else {
            unreachable!()
        };
        // settled entries take room until they are forgotten
        let room = 2 * dirty as usize;
        Ok(IndexCache {
            room: dirty,
            infos: IndexMap::with_capacity(alloc, room)?,
            dirty: 0,
            blank: IndexMap::with_capacity(alloc, room)?,
            clean: LruCache::new(alloc, capacity)?,
        })
    }

    /// The entry of a key: the dirty one or, where there is none, the clean one, which becomes the
    /// most recently used. None comes exactly where neither is kept.
    pub fn find(&mut self, key: &Key) -> Option<Entry>
        ensures found { result ≡ cached_entry key.now self.old }
        ensures used { self.new ≡ after_look_up key.now self.old }
        ensures key { IfSome result (λ entry. entry.key ≡ key.now) }
    {
        match self.dirty_at(key) {
            Some((_, info)) => Some(entry_of(&info)),
            None => {
                let found = self.clean.peek(key).copied();
                self.clean.promote(key);
                found
            }
        }
    }

    /// An entry of a score under any type. None comes exactly where none is kept.
    pub fn find_score(&self, score: &Score) -> Option<Entry>
        ensures found { IfSome result (λ entry.
            IsCached self.now entry × (entry.key.score.0 ≡ score.now.0)) }
        ensures none { IfNone result ((entry : Entry) → IsCached self.now entry
            → entry.key.score.0 ≢ score.now.0) }
    {
        // The check looks into the cache here, in which each entry has a type that there is: these
        // have numbers up to 13.
        let _ = &self.room;
        for number in 1..14 {
            if let Some(kind) = Kind::from_wire(number) {
                let found = self.get(&Key {
                    score: *score,
                    kind,
                });
                if found.is_some() {
                    return found;
                }
            }
        }
        None
    }

    /// The entry of a key, whose use leaves the order; None where none is kept.
    fn get(&self, key: &Key) -> Option<Entry>
        ensures found { result ≡ cached_entry key.now self.now }
        ensures key { IfSome result (λ entry. entry.key ≡ key.now) }
    {
        match self.dirty_at(key) {
            Some((_, info)) => Some(entry_of(&info)),
            None => self.clean.peek(key).copied(),
        }
    }

    /// The dirty entry of a key, and its place; None where it has no dirty one.
    fn dirty_at(&self, key: &Key) -> Option<(usize, Info)>
        ensures found { option_map (λ it. it.1) result ≡ dirty_info key.now self.now }
        ensures place { IfSome result (λ it. slice_get self.now.dirty it.0 ≡ Some it.1) }
        ensures key { IfSome result (λ it. it.1.key ≡ key.now) }
    {
        let Some((at, _, info)) = self.infos.get_full(key) else {
            return None;
        };
        if at < self.dirty as usize {
            Some((at, *info))
        } else {
            None
        }
    }

    /// Takes a dirty entry in, with its block's number.
    pub fn put_dirty(&mut self, info: Info)
        requires room { length self.old.dirty < self.old.room }
        requires absent { dirty_info info.key self.old ≡ None }
        ensures { self.new ≡ record self.old { dirty = self.old.dirty ++ info ∷ [] } }
    {
        // `find_score` looks under the types that there are
        let _ = type_number(&info);
        make_room(
            &mut self.infos,
            self.dirty as usize,
            &mut self.blank,
            &info.key,
        );
        // (there is room, and nothing stood under the key: what is given back tells nothing)
        let _ = self.infos.insert(info.key, info);
        let last = self.infos.len() - 1;
        self.infos.swap_indices(self.dirty as usize, last);
        self.dirty += 1;
    }

    /// How many dirty entries more there is room for.
    pub fn spare(&self) -> u32
        ensures count { result ≡ self.now.room - length self.now.dirty }
        ensures fits { length self.now.dirty ≤ self.now.room }
    {
        self.room - self.dirty
    }

    /// The dirty entries.
    pub fn dirty(&self) -> &[Info]
        ensures entries { result.now ≡ self.now.dirty }
        ensures apart { AllPairs (λ a b. a.key ≢ b.key) result.now }
        ensures fits { length result.now ≤ self.now.room }
    {
        &self.infos.values().as_slice()[..self.dirty as usize]
    }

    /// The dirty entry of a key becomes clean, where its block is below this number, since it was
    /// put into its bucket. False says that there is no such entry, and changes nothing.
    ///
    /// It becomes the most recently used clean one, in place of the least recently used one where
    /// there is no room. One for which there is no memory is dropped.
    pub fn settle(&mut self, key: &Key, below: u64) -> bool
        ensures settled { (info : Info) → result ≡ true → dirty_info key.now self.old ≡ Some info
            → (info.number < below) × SettlesEntry info self.old self.new }
        ensures found { IsTrue result ↔ ((info : Info)
            × (dirty_info key.now self.old ≡ Some info) × (info.number < below)) }
        ensures same { result ≡ false → self.new ≡ self.old }
    {
        let Some((at, info)) = self.dirty_at(key) else {
            return false;
        };
        if info.number >= below {
            return false;
        }
        let last = self.dirty - 1;
        self.infos.swap_indices(at, last as usize);
        self.dirty = last;
        // (what the cache evicts for it is dropped: it is on the disk)
        let _ = self.clean.put(info.key, entry_of(&info));
        true
    }

    /// Makes room of what settled entries have. A writeback begins with it, so that `put_dirty`
    /// never has to: it walks over the dirty entries.
    pub fn forget_settled(&mut self)
        ensures { self.new ≡ self.old }
    {
        drop_behind(&mut self.infos, self.dirty as usize, &mut self.blank);
    }

    /// Drops the least recently used clean entry, and never a dirty one. False says that there was
    /// none.
    pub fn evict(&mut self) -> bool
        ensures evicted { self.new ≡ record self.old {
          clean = take (length self.old.clean - 1) self.old.clean;
        } }
        ensures some { IsTrue result ↔ (0 < length self.old.clean) }
    {
        self.clean.pop_lru().is_some()
    }
}

/// The number of the type of an entry's block.
fn type_number(info: &Info) -> u8
    ensures number { result ≡ info.now.key.kind }
    ensures valid { IsKind result }
{
    info.key.kind.wire()
}

/// Makes room in a map for an entry of a key that none of the first so many entries has. Where that
/// takes it, those behind them go.
fn make_room(
    infos: &mut IndexMap<Key, Info>,
    count: usize,
    blank: &mut IndexMap<Key, Info>,
    key: &Key,
)
    requires within { count ≤ index_map_len infos.old }
    requires unique { IsUnique same_key infos.old }
    requires absent { lookup (same_key key.now) (take count infos.old.entries) ≡ None }
    requires empty { blank.old.entries ≡ [] }
    requires room { count < spare blank.old }
    ensures entries { (infos.new.entries ≡ infos.old.entries)
        ⊎ (infos.new.entries ≡ take count infos.old.entries) }
    ensures absent { lookup (same_key key.now) infos.new.entries ≡ None }
    ensures some { 0 < spare infos.new }
    ensures room { (n : ℕ) → n ≤ index_map_len infos.old + spare infos.old
        → n ≤ spare blank.old
        → (n ≤ index_map_len infos.new + spare infos.new) × (n ≤ spare blank.new) }
    ensures empty { blank.new.entries ≡ [] }
{
    if infos.contains_key(key) || infos.len() == infos.capacity() {
        drop_behind(infos, count, blank);
    }
}

/// Drops the entries of a map behind the first so many, by another map without entries.
fn drop_behind(infos: &mut IndexMap<Key, Info>, count: usize, blank: &mut IndexMap<Key, Info>)
    requires within { count ≤ index_map_len infos.old }
    requires unique { IsUnique same_key infos.old }
    requires empty { blank.old.entries ≡ [] }
    requires room { count ≤ spare blank.old }
    ensures entries { infos.new.entries ≡ take count infos.old.entries }
    ensures unique { IsUnique same_key infos.new }
    ensures room { spare blank.old ≤ index_map_len infos.new + spare infos.new }
    ensures empty { blank.new.entries ≡ [] }
    ensures blank { index_map_len infos.old + spare infos.old ≤ spare blank.new }
{
    copy_first(infos, count, blank);
    infos.clear();
    mem::swap(infos, blank);
}

/// Copies the first entries of a map into one without entries, which has room for them.
fn copy_first(from: &IndexMap<Key, Info>, count: usize, to: &mut IndexMap<Key, Info>)
    requires within { count ≤ index_map_len from.now }
    requires unique { IsUnique same_key from.now }
    requires empty { to.old.entries ≡ [] }
    requires room { count ≤ spare to.old }
    ensures entries { to.new.entries ≡ take count from.now.entries }
    ensures room { spare to.old ≤ index_map_len to.new + spare to.new }
    ensures unique { IsUnique same_key to.new }
{
    for i in 0..count {
        if let Some((key, info)) = from.get_index(i) {
            // (there is room, so that no insertion fails)
            let _ = to.insert(*key, *info);
        }
    }
}

/// The index entry of a directory entry.
pub fn entry_of(info: &Info) -> Entry
    ensures { result ≡ entry_of info.now }
{
    Entry {
        key: info.key,
        size: info.size,
        place: info.place,
    }
}
