//! The bits of the Bloom filter.

ghost use Rattle.std.specs.Prelude.{◌≡◌, ◌<◌, ◌/◌, All, MatchBool, [], ◌∷◌};
ghost use Rattle.vt_turns.specs.Views.{view, with_bits};
ghost use Rattle.vt_turns.specs.Steps.{LacksBit};
ghost use Rattle.vt_turns.specs.Calls.{word_count, IsPassOf, FindsUnset};

use crate::held::Held;
use crate::shared::Turns;
use crate::steps::{BitPlace, LoadsBit, SetsBit};
use crate::view::Pass;
use std::marker::Brand;

impl<P: Held<B>, B> Turns<P, B> {
    /// `set_bit`, where `W` says for the proof what the call at `Brand` was handed.
    fn set_bit_as<W: BitPlace>(&self, pass: &mut Pass<P, B>, place: u32)
        requires named { W.place ≡ place }
        requires own { IsPassOf self.now pass.old }
        requires place { place / 64 < word_count self.now }
        ensures own { IsPassOf self.now pass.new }
        ensures view { view pass.new ≡ with_bits (place ∷ []) (view pass.old) }
    {
        // (word 0 is the front, 1 + k that of part k, and the bits come behind: specs/Rule.antt)
        let word = self.parts + 1 + (place / 64) as usize;
        self.table
            .shared
            .fetch_or::<SetsBit<W>>(pass, word, 1 << (place % 64));
    }

    /// Sets the bit at this place, which the pass then knows as set.
    fn set_bit(&self, pass: &mut Pass<P, B>, place: u32)
        requires own { IsPassOf self.now pass.old }
        requires place { place / 64 < word_count self.now }
        ensures own { IsPassOf self.now pass.new }
        ensures view { view pass.new ≡ with_bits (place ∷ []) (view pass.old) }
    {
        self.set_bit_as::<Brand>(pass, place);
    }

    /// Sets the bits at these places, which the pass then knows as set.
    pub fn set_bits(&self, pass: &mut Pass<P, B>, places: &[u32])
        requires own { IsPassOf self.now pass.old }
        requires places { All (λ p. p / 64 < word_count self.now) places.now }
        ensures own { IsPassOf self.now pass.new }
        ensures view { view pass.new ≡ with_bits places.now (view pass.old) }
    {
        for place in places {
            self.set_bit(pass, *place);
        }
    }

    /// `load_bit`, where `W` says for the proof what the call at `Brand` was handed.
    fn load_bit_as<W: BitPlace>(&self, pass: &mut Pass<P, B>, place: u32) -> bool
        requires named { W.place ≡ place }
        requires own { IsPassOf self.now pass.old }
        requires place { place / 64 < word_count self.now }
        ensures own { IsPassOf self.now pass.new }
        ensures view { MatchBool result
            (view pass.new ≡ with_bits (place ∷ []) (view pass.old))
            ((view pass.new ≡ view pass.old) × LacksBit P.means place (view pass.old)) }
    {
        // (word 0 is the front, 1 + k that of part k, and the bits come behind: specs/Rule.antt)
        let word = self.parts + 1 + (place / 64) as usize;
        let found = self.table.shared.load::<LoadsBit<W>>(pass, word);
        (found >> (place % 64)) & 1 == 1
    }

    /// Whether the bit at this place is set. The pass then knows it as set; where it isn't, no
    /// block that the pass has seen has it.
    fn load_bit(&self, pass: &mut Pass<P, B>, place: u32) -> bool
        requires own { IsPassOf self.now pass.old }
        requires place { place / 64 < word_count self.now }
        ensures own { IsPassOf self.now pass.new }
        ensures view { MatchBool result
            (view pass.new ≡ with_bits (place ∷ []) (view pass.old))
            ((view pass.new ≡ view pass.old) × LacksBit P.means place (view pass.old)) }
    {
        self.load_bit_as::<Brand>(pass, place)
    }

    /// Whether the bits at these places are all set. The pass then knows them as set; at the first
    /// one that isn't, no block that the pass has seen has that bit.
    pub fn load_bits(&self, pass: &mut Pass<P, B>, places: &[u32]) -> bool
        requires own { IsPassOf self.now pass.old }
        requires places { All (λ p. p / 64 < word_count self.now) places.now }
        ensures own { IsPassOf self.now pass.new }
        ensures bits { MatchBool result
            (view pass.new ≡ with_bits places.now (view pass.old))
            (FindsUnset P.means places.now (view pass.old) (view pass.new)) }
    {
        for place in places {
            if !self.load_bit(pass, *place) {
                return false;
            }
        }
        true
    }
}
