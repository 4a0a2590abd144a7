//! Taking a part and giving it back, and the front.

ghost use Rattle.std.specs.Prelude.{◌≡◌, ◌+◌, ◌<◌, ◌^◌, length, Some, MatchBool};
ghost use Rattle.vt_turns.specs.Views.{view, turn_of, without, booking, raising, KnowsAll, IsSole, StaysSole};
ghost use Rattle.vt_turns.specs.Steps.{Claimed, Loads};
ghost use Rattle.vt_turns.specs.Calls.{part_count, IsPassOf, Takes, MayBook, MayRaise};

use crate::held::Held;
use crate::shared::Turns;
use crate::steps::{
    AddedBlock, BookedPart, BooksPart, GivesPart, LoadsFront, RaisesFront, SlotHome, SlotOut,
    TakesPart,
};
use crate::view::Pass;
use std::marker::Brand;
use std::sync::Wait;
use std::thread;

impl<P: Held<B>, B> Turns<P, B> {
    /// Claims the part if no pass holds it. Its slot is then out.
    fn try_claim(&self, pass: &mut Pass<P, B>, part: u32) -> bool
        requires own { IsPassOf self.now pass.old }
        requires share { 0 < (view pass.old).share }
        requires part { part < part_count self.now }
        ensures own { (pass.new.table_id ≡ pass.old.table_id) × (pass.new.id ≡ pass.old.id) }
        ensures claimed { MatchBool result
            (Claimed P.means part pass.old.me pass.new.me) (pass.new.me ≡ pass.old.me) }
    {
        self.table
            .shared
            .compare_exchange::<TakesPart>(pass, part as usize + 1, 0, 1)
            == 0
    }

    /// Claims the part once no pass holds it.
    fn claim<R: Wait>(&self, rt: &R, pass: &mut Pass<P, B>, part: u32)
        requires own { IsPassOf self.now pass.old }
        requires share { 0 < (view pass.old).share }
        requires part { part < part_count self.now }
        ensures own { (pass.new.table_id ≡ pass.old.table_id) × (pass.new.id ≡ pass.old.id) }
        ensures claimed { Claimed P.means part pass.old.me pass.new.me }
    {
        for _ in rt.forever() {
            if self.try_claim(pass, part) {
                return;
            }
            thread::yield_now();
        }
        unreachable!()
    }

    /// Moves the part of this number out, once no other pass holds it. Part 0 is the log: who takes
    /// it sees the whole history, and how much of it is durable.
    ///
    /// It waits, and nothing says that the part ever comes.
    pub fn take<R: Wait>(&self, rt: &R, pass: &mut Pass<P, B>, part: u32) -> P
        requires own { IsPassOf self.now pass.old }
        requires share { 0 < (view pass.old).share }
        requires part { part < part_count self.now }
        ensures own { IsPassOf self.now pass.new }
        ensures takes { Takes P.means part (view pass.old) result (view pass.new) }
        ensures knows { KnowsAll (view pass.old) (view pass.new) }
        ensures sole { IsSole (view pass.old) → StaysSole (view pass.old) (view pass.new) }
    {
        self.claim(rt, pass, part);
        let shared = &self.table.shared;
        let held = shared.exchange(pass, part as usize, None);
        shared.store::<SlotHome>(pass, part as usize + 1, 1);
        let Some(held) = held else { unreachable!() };
        held
    }

    /// Puts the part of this number back, as it was when it was taken, raised or booked last.
    pub fn give(&self, pass: &mut Pass<P, B>, number: u32, part: P)
        requires own { IsPassOf self.now pass.old }
        requires number { number < part_count self.now }
        requires held { turn_of (view pass.old) number ≡ Some part }
        ensures own { IsPassOf self.now pass.new }
        ensures view { view pass.new ≡ without number (view pass.old) }
    {
        let shared = &self.table.shared;
        shared.store::<SlotOut>(pass, number as usize + 1, 1);
        match shared.exchange(pass, number as usize, Some(part)) {
            None => {}
            Some(_) => unreachable!(),
        }
        shared.store::<GivesPart>(pass, number as usize + 1, 0);
    }

    /// `book`, where `W` says for the proof what the call at `Brand` was handed.
    fn book_as<W: BookedPart<P>>(&self, pass: &mut Pass<P, B>, number: u32, part: &P)
        requires named { W.part ≡ Some part.now }
        requires own { IsPassOf self.now pass.old }
        requires number { number < part_count self.now }
        requires books { (x : P) × (turn_of (view pass.old) number ≡ Some x)
            × MayBook P.means (view pass.old) number x part.now }
        ensures own { IsPassOf self.now pass.new }
        ensures view { (x : P) → turn_of (view pass.old) number ≡ Some x
            → view pass.new ≡ booking P.means number x part.now (view pass.old) }
        ensures knows { KnowsAll (view pass.old) (view pass.new) }
    {
        let _part = part;
        self.table
            .shared
            .store::<BooksPart<W>>(pass, number as usize + 1, 1);
    }

    /// Records the new numbers of a part that the pass holds: its durable number, mark, stop and
    /// count of faults.
    pub fn book(&self, pass: &mut Pass<P, B>, number: u32, part: &P)
        requires own { IsPassOf self.now pass.old }
        requires number { number < part_count self.now }
        requires books { (x : P) × (turn_of (view pass.old) number ≡ Some x)
            × MayBook P.means (view pass.old) number x part.now }
        ensures own { IsPassOf self.now pass.new }
        ensures view { (x : P) → turn_of (view pass.old) number ≡ Some x
            → view pass.new ≡ booking P.means number x part.now (view pass.old) }
        ensures knows { KnowsAll (view pass.old) (view pass.new) }
    {
        self.book_as::<Brand>(pass, number, part);
    }

    /// `raise`, where `W` says for the proof what the call at `Brand` was handed.
    fn raise_as<W: AddedBlock<P, B>>(
        &self,
        pass: &mut Pass<P, B>,
        log: &P,
        number: u32,
        shard: &P,
        block: &B,
    )
        requires named { W.added ≡ Some (log.now, number, shard.now, block.now) }
        requires own { IsPassOf self.now pass.old }
        requires room { length (view pass.old).seen + 1 < 2 ^ 64 }
        requires raises { (x : P) × (o : P)
            × MayRaise P.means (view pass.old) x log.now number o shard.now block.now }
        ensures own { IsPassOf self.now pass.new }
        ensures view { view pass.new
            ≡ raising P.means log.now number shard.now block.now (view pass.old) }
    {
        let _log = log;
        let _shard = shard;
        let _block = block;
        self.table.shared.fetch_add::<RaisesFront<W>>(pass, 0, 1);
    }

    /// Raises the front by one, where the log and the block's shard, both held, have a new block.
    /// From then on the block is accepted, and each load of the front tells of it.
    pub fn raise(&self, pass: &mut Pass<P, B>, log: &P, number: u32, shard: &P, block: &B)
        requires own { IsPassOf self.now pass.old }
        requires room { length (view pass.old).seen + 1 < 2 ^ 64 }
        requires raises { (x : P) × (o : P)
            × MayRaise P.means (view pass.old) x log.now number o shard.now block.now }
        ensures own { IsPassOf self.now pass.new }
        ensures view { view pass.new
            ≡ raising P.means log.now number shard.now block.now (view pass.old) }
    {
        self.raise_as::<Brand>(pass, log, number, shard, block);
    }

    /// The count of accepted blocks, all of which are then seen.
    pub fn front(&self, pass: &mut Pass<P, B>) -> u64
        requires own { IsPassOf self.now pass.old }
        ensures own { IsPassOf self.now pass.new }
        ensures loads { Loads P.means (view pass.old) result (view pass.new) }
        ensures sole { IsSole (view pass.old) → StaysSole (view pass.old) (view pass.new) }
    {
        self.table.shared.load::<LoadsFront>(pass, 0)
    }
}
