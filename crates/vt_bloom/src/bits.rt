//! The bits of a filter in memory.

ghost use Rattle.std.specs.Prelude.{◌≡◌, ◌↔◌, ◌⊎◌, ℕ, ◌*◌, ◌^◌, ◌<◌, ◌≤◌, length, slice_index, IsTrue, IfOk};
ghost use Rattle.vt_bloom.specs.Bits.{position_of, stride_of, AreCounts, IsSetIn};

use arrayvec::ArrayVec;
use std::alloc::{AllocError, Global};
use std::marker::Model;
use vt_base::Score;
use vt_base::fields::u64_at;

/// Position i of a score among 2^m bits.
fn position(score: &Score, m: u8, i: u8) -> u32
    requires { m ≤ 23 }
    ensures value { result ≡ position_of m score.now.0 i }
    ensures within { result < 2 ^ m }
{
    let sum = u64_at(&score.0, 0) as u128 + i as u128 * stride(score) as u128;
    (sum % (1u128 << m)) as u32
}

/// How far apart the positions of a score are. It is odd.
fn stride(score: &Score) -> u64
    ensures { result ≡ stride_of score.now.0 }
{
    // (an odd stride meets each of 2^m positions before one a second time)
    u64_at(&score.0, 8) | 1
}

/// The k positions of a score among 2^m bits, in order. One may stand there twice.
pub fn positions(score: &Score, m: u8, k: u8) -> ArrayVec<u32, 32>
    requires bits { m ≤ 23 }
    requires most { k ≤ 32 }
    ensures count { length result.items ≡ k }
    ensures each { (i : ℕ) → i < k → slice_index result.items i ≡ position_of m score.now.0 i }
{
    let mut all = ArrayVec::new();
    for i in 0..k {
        all.push(position(score, m, i));
    }
    all
}

/// 2^m bits, of which each score has k. A score whose bits aren't all set was never marked.
#[derive(Drop)]
pub struct Bits {
    pub(crate) m: u8,
    pub(crate) k: u8,
    /// The bits, 64 in each word, the lowest first.
    pub(crate) words: Vec<u64>,
}

impl Model for Bits {
    ghost use Rattle.vt_bloom.specs.Bits.{Filter, IsFilter};

    ghost Value = { Filter };

    ghost use Rattle.vt_bloom.specs.States.{filter_of_bits};

    ghost view = { filter_of_bits };

    ghost invariant = { λ b. IsFilter (filter_of_bits b) };
}

impl Bits {
    ghost use Rattle.vt_bloom.specs.Bits.{IsFilter, IsSet, HasBitsOf, MarksScore, clear_of};

    /// Bits of which none is set. m is 16 to 23, k 1 to 32.
    pub fn new(alloc: Global, m: u8, k: u8) -> Result<Bits, AllocError>
        requires { AreCounts m k }
        ensures bits { IfOk result (λ bits. bits ≡ clear_of m k) }
        ensures clear { IfOk result (λ bits. (p : ℕ) → ¬ IsSet bits p) }
        ensures filter { IfOk result (λ bits. IsFilter bits) }
    {
        // (2^m bits, in words of 2^6)
        let words = vec![in alloc; 0; 1usize << (m - 6)]?;
        Ok(Bits { m, k, words })
    }

    /// The bits that these words are, the lowest first in each. m is 16 to 23, k 1 to 32.
    pub fn from_words(m: u8, k: u8, words: Vec<u64>) -> Bits
        requires counts { AreCounts m k }
        requires whole { 64 * length words.items ≡ 2 ^ m }
        ensures { result ≡ record { m = m; k = k; words = words.items } }
    {
        Bits { m, k, words }
    }

    /// The words, in order.
    pub fn words(&self) -> &[u64]
        ensures words { result.now ≡ self.now.words }
        ensures whole { 64 * length result.now ≡ 2 ^ self.now.m }
    {
        &self.words
    }

    /// The words, given back with their memory.
    pub fn into_words(self) -> Vec<u64>
        ensures words { result.items ≡ self.words }
        ensures whole { 64 * length result.items ≡ 2 ^ self.m }
    {
        let Bits { m: _, k: _, words } = self;
        words
    }

    /// How many bits there are, as a power of two.
    pub fn m(&self) -> u8
        ensures m { result ≡ self.now.m }
        ensures filter { IsFilter self.now }
    {
        self.m
    }

    /// How many of them each score has.
    pub fn k(&self) -> u8
        ensures k { result ≡ self.now.k }
        ensures filter { IsFilter self.now }
    {
        self.k
    }

    /// Whether all bits of a score are set.
    pub fn may_have(&self, score: &Score) -> bool
        ensures { IsTrue result ↔ HasBitsOf self.now score.now.0 }
    {
        for i in 0..self.k {
            if !is_set(&self.words, position(score, self.m, i)) {
                return false;
            }
        }
        true
    }

    /// Sets the bits of a score.
    pub fn mark_bits(&mut self, score: &Score)
        ensures { MarksScore self.old score.now.0 self.new }
    {
        for i in 0..self.k {
            set(&mut self.words, position(score, self.m, i));
        }
    }
}

/// Whether bit p of these words is set.
fn is_set(words: &[u64], p: u32) -> bool
    requires { p < 64 * length words.now }
    ensures { IsTrue result ↔ IsSetIn words.now p }
{
    words[p as usize / 64] >> (p % 64) & 1 == 1
}

/// Sets bit p of these words.
fn set(words: &mut [u64], p: u32)
    requires { p < 64 * length words.old }
    ensures { (q : ℕ) → IsSetIn words.new q ↔ (IsSetIn words.old q ⊎ (q ≡ p)) }
{
    words[p as usize / 64] |= 1 << (p % 64);
}
