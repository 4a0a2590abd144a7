//! How parts are shared, and how they are had back.

ghost use Rattle.std.specs.Prelude.{◌≡◌, ◌≤◌, [], List, length, IfOk, IfErr, vec_capacity};
ghost use Rattle.std.specs.Mem.Slots.{IsFull, slots_items, slots_len};
ghost use Rattle.vt_turns.specs.Lists.{FullOf, first_list};
ghost use Rattle.vt_turns.specs.Views.{view, first_view, HoldsNone};
ghost use Rattle.vt_turns.specs.Calls.{part_count, word_count, opening_of, IsPassOf, CanOpen, Closes};

use crate::held::Held;
use crate::shared::{Fixed, Turns};
use crate::steps::{Opened, Remembers};
use crate::view::{Opening, Pass};
use atomic_table::{Closed, Seat, Table};
use std::alloc::{AllocError, Global};
use std::snapshot::Snapshot;

/// The front, a word for each part, and the words of the bits.
fn first_words(
    alloc: Global,
    count: usize,
    front: u64,
    bits: &[u64],
) -> Result<Vec<u64>, AllocError>
    ensures { IfOk result (λ v. v.items ≡ first_list count front bits.now) }
{
    let mut words = Vec::new(alloc);
    words.push(front)?;
    for _ in 0..count {
        words.push(0)?;
    }
    words.extend_from_slice(bits)?;
    Ok(words)
}

/// What the store is opened with (`J`), as a value that stays with the table, since its rule
/// (`Law`, shared.rt) and clauses name it, and no type that `new` gives can. It is what a seat
/// knows (`me.0`), so that a table without words and slots is made for its seat alone.
fn opening_of_seat<P, B, J: Opened<P, B>>(
    alloc: Global,
) -> Result<Snapshot<Seat<(), Opening<P, B>>>, AllocError>
    ensures { IfOk result (λ s. s.value.me.0 ≡ J.opening) }
{
    let Ok((_table, seat)) = Table::<(), Opening<P, B>, (), Remembers<J>, Global>::new(
        alloc,
        &[],
        Vec::new(alloc),
        &(),
    ) else {
        return Err(AllocError);
    };
    Ok(Snapshot::of(&seat))
}

/// What is made before a part is moved.
struct Prepared<P, B> {
    /// With what the store is opened, for `Fixed`.
    opening: Snapshot<Seat<(), Opening<P, B>>>,
    /// The front, a word for each part, and behind these the bits.
    words: Vec<u64>,
    /// Memory for a slot for each part.
    slots: Vec<Option<P>>,
    /// Memory in which the parts are handed back.
    back: Vec<P>,
}

/// Makes what sharing so many parts takes: words, slots and memory, before a part is moved.
fn prepare_parts<P: Drop, B, J: Opened<P, B>>(
    alloc: Global,
    count: usize,
    front: u64,
    bits: &[u64],
) -> Result<Prepared<P, B>, AllocError>
    ensures opening { IfOk result (λ r. r.opening.value.me.0 ≡ J.opening) }
    ensures words { IfOk result (λ r. r.words.items ≡ first_list count front bits.now) }
    ensures slots { IfOk result (λ r. (r.slots.items ≡ []) × (count ≤ vec_capacity r.slots)) }
    ensures back { IfOk result (λ r. (r.back.items ≡ []) × (count ≤ vec_capacity r.back)) }
{
    Ok(Prepared {
        opening: opening_of_seat::<P, B, J>(alloc)?,
        words: first_words(alloc, count, front, bits)?,
        slots: Vec::with_capacity(alloc, count)?,
        back: Vec::with_capacity(alloc, count)?,
    })
}

/// Each part in a slot of its own, in a list that has room for them.
fn wrapped<P: Drop>(parts: Vec<P>, mut slots: Vec<Option<P>>) -> Vec<Option<P>>
    requires room { (slots.items ≡ []) × (length parts.items ≤ vec_capacity slots) }
    ensures { FullOf result.items parts.items }
{
    for part in parts {
        slots.push_reserved(Some(part));
    }
    slots
}

/// The parts of the slots, in a list that has room for them.
fn unwrapped<P: Drop>(slots: Vec<Option<P>>, mut parts: Vec<P>) -> Vec<P>
    requires full { (all : List P) × FullOf slots.items all }
    requires room { (parts.items ≡ []) × (length slots.items ≤ vec_capacity parts) }
    ensures { (all : List P) → FullOf slots.items all → result.items ≡ all }
{
    for slot in slots {
        let Some(part) = slot else { unreachable!() };
        parts.push_reserved(part);
    }
    parts
}

impl<P: Held<B> + Drop, B> Turns<P, B> {
    /// Shares these parts, of which the first is the log, whose history has `front` blocks, and the
    /// words of the Bloom bits. The first pass has all 65,536 shares. Where there is no memory the
    /// parts come back.
    pub fn new<J: Opened<P, B>>(
        alloc: Global,
        parts: Vec<P>,
        front: u64,
        bits: &[u64],
    ) -> Result<(Turns<P, B>, Pass<P, B>), (AllocError, Vec<P>)>
        requires parts { J.opening.parts ≡ parts.items }
        requires bits { J.opening.bits ≡ bits.now }
        requires opens { CanOpen P.means J.opening }
        requires front { front ≡ length J.opening.history }
        ensures pass { IfOk result (λ r. IsPassOf r.0 r.1) }
        ensures view { IfOk result (λ r. view r.1 ≡ first_view P.means J.opening) }
        ensures opening { IfOk result (λ r. opening_of r.0 ≡ J.opening) }
        ensures words { IfOk result (λ r. word_count r.0 ≡ length bits.now) }
        ensures count { IfOk result (λ r. part_count r.0 ≡ length parts.items) }
        ensures handed_back { IfErr result (λ refusal. refusal.1.items ≡ parts.items) }
    {
        let count = parts.len();
        let Ok(prepared) = prepare_parts::<P, B, J>(alloc, count, front, bits) else {
            return Err((AllocError, parts));
        };
        let Prepared {
            opening,
            words,
            slots,
            back,
        } = prepared;
        let fixed = Fixed {
            opening,
            bit_words: bits.len(),
        };
        match Table::new(alloc, words.as_slice(), wrapped(parts, slots), &fixed) {
            Ok((table, pass)) => Ok((
                Turns {
                    table,
                    parts: count,
                },
                pass,
            )),
            Err(refused) => Err((AllocError, unwrapped(refused.slots, back))),
        }
    }
}

/// The parts of a closed table that has them all.
fn gather<P>(mut closed: Closed<Option<P>, Global>, mut parts: Vec<P>) -> Vec<P>
    requires full { IsFull closed.slots × ((all : List P) × FullOf (slots_items closed.slots) all) }
    requires room { (parts.items ≡ []) × (slots_len closed.slots ≤ vec_capacity parts) }
    ensures { (all : List P) → FullOf (slots_items closed.slots) all → result.items ≡ all }
{
    for i in 0..closed.slot_count() {
        let Some(part) = closed.take(i) else {
            unreachable!()
        };
        parts.push_reserved(part);
    }
    closed.free();
    parts
}

impl<P: Held<B>, B> Turns<P, B> {
    /// The parts, into an empty list that has room for them, from a pass that has all shares and
    /// holds no part.
    pub fn close(self, pass: Pass<P, B>, parts: Vec<P>) -> Vec<P>
        requires own { IsPassOf self pass }
        requires all { (view pass).share ≡ 65536 }
        requires none_held { HoldsNone (view pass) }
        requires room { (parts.items ≡ []) × (part_count self ≤ vec_capacity parts) }
        ensures { Closes P.means (view pass) result.items }
    {
        let Turns { table, parts: _ } = self;
        gather(table.close_with(pass), parts)
    }
}
