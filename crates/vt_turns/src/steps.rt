//! What each atomic step tells, by its kind. These types are for the proofs alone.

ghost use Rattle.std.specs.Prelude.{ℕ, Option, None, [], false};
ghost use Rattle.vt_turns.specs.declared.view.Opening.{Opening};
ghost use Rattle.vt_turns.specs.Views.{less_one, split_off, noted, joined_views, spent};
ghost use Rattle.vt_turns.specs.Steps.{TellsTaken, TellsSlotHome, TellsSlotOut, TellsBooked, TellsGiven, TellsRaised, TellsFront, TellsBitSet, TellsBit};

use crate::held::Held;
use crate::view::{Opening, View};
use atomic_table::{Join, Play, Split, TableRule};
use std::marker::{Brand, PhantomData};

/// With what a store is opened, for the proofs alone. A call at `Brand` picks it, in the
/// `Invariants.antt` of the caller's proof, as that of `open` in vt_turns_example.
pub trait Opened<P, B> {
    ghost opening: { Opening P B };
}

impl<P, B> Opened<P, B> for Brand {
    ghost opening = { record { parts = []; history = []; bits = []; kept = false } };
}

/// The rule of a table that only remembers this.
pub(crate) struct Remembers<J> {
    opened: PhantomData<J>,
}

impl<P, B, J: Opened<P, B>> TableRule<(), Opening<P, B>, ()> for Remembers<J> {
    ghost holds = { λ key state. Unit {0} };

    ghost first = { λ key. J.opening };
}

/// The part that is booked.
pub(crate) trait BookedPart<P> {
    ghost part: { Option P };
}

impl<P> BookedPart<P> for Brand {
    ghost part = { None };
}

/// The log, a shard's number, the shard and the block, after the block was added.
pub(crate) trait AddedBlock<P, B> {
    ghost added: { Option (P × ℕ × P × B) };
}

impl<P, B> AddedBlock<P, B> for Brand {
    ghost added = { None };
}

/// The place of a bit.
pub(crate) trait BitPlace {
    ghost place: { ℕ };
}

impl BitPlace for Brand {
    ghost place = { 0 };
}

/// A pass takes a part. An exchange that finds it taken changes nothing.
pub(crate) struct TakesPart;

impl<P: Held<B>, B> Play<Option<P>, View<P, B>> for TakesPart {
    ghost then = { TellsTaken P.means };
}

/// The empty slot of a part goes back to the table, and the part stays with the pass.
pub(crate) struct SlotHome;

impl<P: Held<B>, B> Play<Option<P>, View<P, B>> for SlotHome {
    ghost then = { TellsSlotHome P.means };
}

/// The empty slot of a part that the pass has comes out of the table.
pub(crate) struct SlotOut;

impl<P: Held<B>, B> Play<Option<P>, View<P, B>> for SlotOut {
    ghost then = { TellsSlotOut P.means };
}

/// The new numbers of a part that is held are recorded, with its word.
pub(crate) struct BooksPart<W> {
    named: PhantomData<W>,
}

impl<P: Held<B>, B, W: BookedPart<P>> Play<Option<P>, View<P, B>> for BooksPart<W> {
    ghost then = { TellsBooked P.means W.part };
}

/// The part is in its slot, which goes back to the table: another pass may take it.
pub(crate) struct GivesPart;

impl<P: Held<B>, B> Play<Option<P>, View<P, B>> for GivesPart {
    ghost then = { TellsGiven P.means };
}

/// The front is raised by the block that was added.
pub(crate) struct RaisesFront<W> {
    named: PhantomData<W>,
}

impl<P: Held<B>, B, W: AddedBlock<P, B>> Play<Option<P>, View<P, B>> for RaisesFront<W> {
    ghost then = { TellsRaised P.means W.added };
}

/// The front is read.
pub(crate) struct LoadsFront;

impl<P: Held<B>, B> Play<Option<P>, View<P, B>> for LoadsFront {
    ghost then = { TellsFront P.means };
}

/// A bit is set.
pub(crate) struct SetsBit<W> {
    named: PhantomData<W>,
}

impl<P: Held<B>, B, W: BitPlace> Play<Option<P>, View<P, B>> for SetsBit<W> {
    ghost then = { TellsBitSet P.means W.place };
}

/// A word is read for one of its bits.
pub(crate) struct LoadsBit<W> {
    named: PhantomData<W>,
}

impl<P: Held<B>, B, W: BitPlace> Play<Option<P>, View<P, B>> for LoadsBit<W> {
    ghost then = { TellsBit P.means W.place };
}

/// A pass is split into two.
pub(crate) struct SplitsPass;

impl<P, B> Split<View<P, B>> for SplitsPass {
    ghost left = { less_one };

    ghost right = { split_off };
}

/// A note is taken of what a pass knows.
pub(crate) struct NotesPass;

impl<P, B> Split<View<P, B>> for NotesPass {
    ghost left = { λ v. v };

    ghost right = { noted };
}

/// Two passes become one again.
pub(crate) struct JoinsPasses;

impl<P, B> Join<View<P, B>> for JoinsPasses {
    ghost both = { joined_views };

    ghost spent = { spent };
}
