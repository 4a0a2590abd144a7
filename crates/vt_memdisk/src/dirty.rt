//! The sectors with bytes that were written and not synced, which the next sync settles.

ghost use Rattle.std.specs.Prelude.{◌≡◌, ◌≢◌, ◌⊎◌, ◌+◌, ◌-◌, ◌<◌, ◌≤◌, ◌==◌, ℕ, length, slice_index, IfOk};
ghost use Rattle.vt_memdisk.specs.Sectors.{AreInverse, IsAmongFirst};

use std::alloc::{AllocError, Global};

/// Sectors by their numbers. Adding one needs no memory, and finding one takes no walk.
#[derive(Drop)]
pub struct Dirty {
    /// All sectors, the dirty ones first.
    order: Vec<usize>,
    /// Where each sector stands in the order.
    place: Vec<usize>,
    /// How many are dirty.
    count: usize,
    ghost inverse: { AreInverse order.items place.items },
    ghost few: { count ≤ length order.items },
}

/// The numbers below n, in order.
fn numbers(alloc: Global, n: usize) -> Result<Vec<usize>, AllocError>
    ensures length { IfOk result (λ v. length v.items ≡ n) }
    ensures own { IfOk result (λ v. (k : ℕ) → k < n → slice_index v.items k ≡ k) }
{
    let mut all = Vec::with_capacity(alloc, n)?;
    for k in 0..n {
        all.push(k)?;
    }
    Ok(all)
}

impl Dirty {
    /// Of so many sectors none is dirty.
    pub fn new(alloc: Global, sectors: usize) -> Result<Self, AllocError>
        ensures sectors { IfOk result (λ dirty. length dirty.place.items ≡ sectors) }
        ensures none { IfOk result (λ dirty. dirty.count ≡ 0) }
    {
        Ok(Dirty {
            order: numbers(alloc, sectors)?,
            place: numbers(alloc, sectors)?,
            count: 0,
        })
    }

    /// Makes a sector dirty. It changes places with the first clean one of the order.
    fn add(&mut self, sector: usize)
        requires { sector < length self.old.place.items }
        ensures sectors { length self.new.place.items ≡ length self.old.place.items }
        ensures added { IsAmongFirst self.new.place.items self.new.count sector }
        ensures kept { (s : ℕ) → s < length self.old.place.items
            → IsAmongFirst self.old.place.items self.old.count s
            → IsAmongFirst self.new.place.items self.new.count s }
        ensures others { (s : ℕ) → s < length self.old.place.items → s ≢ sector
            → IsAmongFirst self.new.place.items self.new.count s
            → IsAmongFirst self.old.place.items self.old.count s }
    {
        let from = self.place[sector];
        if from < self.count {
            return;
        }
        let other = self.order[self.count];
        self.order.swap(self.count, from);
        self.place.swap(sector, other);
        self.count += 1;
    }

    /// Adds the sectors from the first to the last.
    pub fn add_range(&mut self, first: usize, last: usize)
        requires { last < length self.old.place.items }
        ensures sectors { length self.new.place.items ≡ length self.old.place.items }
        ensures added { (s : ℕ) → first ≤ s → s ≤ last
            → IsAmongFirst self.new.place.items self.new.count s }
        ensures kept { (s : ℕ) → s < length self.old.place.items
            → IsAmongFirst self.old.place.items self.old.count s
            → IsAmongFirst self.new.place.items self.new.count s }
        ensures others { (s : ℕ) → s < length self.old.place.items → (s < first) ⊎ (last < s)
            → IsAmongFirst self.new.place.items self.new.count s
            → IsAmongFirst self.old.place.items self.old.count s }
    {
        for sector in first..last + 1 {
            self.add(sector);
        }
    }

    /// Whether a sync has no sector to settle.
    pub fn is_empty(&self) -> bool
        ensures { result ≡ (self.now.count == 0) }
    {
        self.count == 0
    }

    /// The dirty sector at the last dirty place of the order, whatever its number.
    pub fn last(&self) -> usize
        requires { 0 < self.now.count }
        ensures in_range { result < length self.now.place.items }
        ensures place { slice_index self.now.place.items result ≡ self.now.count - 1 }
    {
        self.order[self.count - 1]
    }

    /// The sector that `last` gives becomes clean.
    pub fn drop_last(&mut self)
        requires { 0 < self.old.count }
        ensures place { self.new.place ≡ self.old.place }
        ensures count { self.new.count ≡ self.old.count - 1 }
    {
        self.count -= 1;
    }
}
