//! What a worker does with the store: writes a block, looks a key up, counts the blocks.

ghost use Rattle.std.specs.Prelude.{◌≡◌, ◌≢◌, ◌⊎◌, ◌+◌, ◌<◌, ◌≤◌, ◌++◌, ◌∷◌, [], List, Some, None, true, length, ℕ};
ghost use Rattle.std.specs.Ordering.{nat_cmp};
ghost use Rattle.std.specs.BTreeMap.{get, Updates};
ghost use mathlib.Core.Option.{some};
ghost use mathlib.Core.List.{IsPrefix};
ghost use lib.ListN.{get_elem?};
ghost use Rattle.vt_turns.specs.Views.{view, turn_of, holding, booking, without};
ghost use Rattle.vt_turns.specs.Calls.{MayBook};
ghost use Rattle.vt_turns_example.specs.Keys.{IsKey};
ghost use Rattle.vt_turns_example.specs.Parts.{part_means, covers_key, sound_for, bit_place};
ghost use Rattle.vt_turns_example.specs.Stores.{IsPassOfStore, IsFree, GaveBoth, Answered, compared_values};

use crate::link::{Ask, Line, Said};
use crate::part::{Block, Log, Part, Shard};
use crate::store::Store;
use std::sync::Wait;
use vt_turns::Pass;

/// The place of a key's bit, of 128.
fn place_of(key: u64) -> u32
    ensures { result ≡ bit_place key }
{
    (key % 128) as u32
}

/// Puts the block, which gets this number, into the log and the shard, or leaves what they hold.
fn put(log: &mut Log, shard: &mut Shard, block: Block, number: u64) -> bool
    ensures range { (shard.new.low ≡ shard.old.low) × (shard.new.high ≡ shard.old.high) }
    ensures put { result ≡ true → (log.new.blocks.items ≡ log.old.blocks.items ++ block ∷ [])
        × Updates nat_cmp shard.old.numbers shard.new.numbers block.key (Some number) }
    ensures left { result ≢ true → (log.new.blocks.items ≡ log.old.blocks.items)
        × (shard.new.numbers.entries ≡ shard.old.numbers.entries) }
{
    if log.blocks.reserve(1).is_err() {
        return false;
    }
    if shard.numbers.insert(block.key, number).is_err() {
        return false;
    }
    log.blocks.push_reserved(block);
    true
}

/// What a write of this value is told where the block of this number has the key.
fn compare(log: &Log, number: u64, value: u64) -> Said
    requires near { number < length log.now.blocks.items }
    ensures { (b : Block) → get_elem? log.now.blocks.items number ≡ some b
        → result ≡ compared_values b.value value }
{
    if log.blocks[number as usize].value == value {
        Said::Held
    } else {
        Said::Collision
    }
}

impl Store {
    /// The number of the shard of a key.
    fn shard_of(&self, key: u64) -> u32
        ensures low { key < self.now.cut → result ≡ 1 }
        ensures high { self.now.cut ≤ key → result ≡ 2 }
    {
        // (part 0 is the log)
        if key < self.cut { 1 } else { 2 }
    }

    /// The shard of a key, with its number.
    fn take_shard<R: Wait>(&self, rt: &R, pass: &mut Pass<Part, Block>, key: u64) -> (Shard, u32)
        requires own { IsPassOfStore self.now pass.old }
        requires key { IsKey key }
        ensures own { IsPassOfStore self.now pass.new }
        ensures view { (h : List Block) × (view pass.new
            ≡ holding part_means result.1 h (Part.Shard result.0) (view pass.old)) }
        ensures number { (0 < result.1) × (result.1 < 3) }
        ensures covers { covers_key result.0 key ≡ true }
    {
        let number = self.shard_of(key);
        let Part::Shard(shard) = self.turns.take(rt, pass, number) else {
            unreachable!()
        };
        (shard, number)
    }

    /// Waits until no other thread has the log, and takes it. It is part 0, which is always a log.
    fn take_log<R: Wait>(&self, rt: &R, pass: &mut Pass<Part, Block>) -> Log
        requires own { IsPassOfStore self.now pass.old }
        ensures own { IsPassOfStore self.now pass.new }
        ensures view { (h : List Block) × (view pass.new
            ≡ holding part_means 0 h (Part.Log result) (view pass.old))
            × IsPrefix (view pass.old).seen h × (length result.blocks.items ≡ length h) }
        ensures sound { (k : ℕ) (x : Part) → turn_of (view pass.new) k ≡ Some x
            → sound_for (view pass.new).opening.kept (view pass.new).seen x }
    {
        let Part::Log(log) = self.turns.take(rt, pass, 0) else {
            unreachable!()
        };
        log
    }

    /// Books a part and gives it back.
    fn put_back(&self, pass: &mut Pass<Part, Block>, number: u32, part: Part)
        requires own { IsPassOfStore self.now pass.old }
        requires number { number < 3 }
        requires books { (x : Part) × (turn_of (view pass.old) number ≡ Some x)
            × MayBook part_means (view pass.old) number x part }
        ensures own { IsPassOfStore self.now pass.new }
        ensures view { (x : Part) → turn_of (view pass.old) number ≡ Some x → view pass.new
            ≡ without number (booking part_means number x part (view pass.old)) }
    {
        self.turns.book(pass, number, &part);
        self.turns.give(pass, number, part);
    }

    /// The log and a shard go back, of which only the room has changed.
    fn give_both(&self, pass: &mut Pass<Part, Block>, log: Log, number: u32, shard: Shard)
        requires own { IsPassOfStore self.now pass.old }
        requires number { (0 < number) × (number < 3) }
        requires log { (l : _) × (turn_of (view pass.old) 0 ≡ Some (Part.Log l))
            × (l.blocks.items ≡ log.blocks.items) }
        requires shard { (s : _) × (turn_of (view pass.old) number ≡ Some (Part.Shard s))
            × (s.numbers.entries ≡ shard.numbers.entries) × (s.low ≡ shard.low)
            × (s.high ≡ shard.high) }
        ensures own { IsPassOfStore self.now pass.new }
        ensures same { ((view pass.new).seen ≡ (view pass.old).seen)
            × ((view pass.new).own ≡ (view pass.old).own) }
        ensures gave { GaveBoth number (view pass.old) (view pass.new) }
    {
        self.put_back(pass, 0, Part::Log(log));
        self.put_back(pass, number, Part::Shard(shard));
    }

    /// Adds a block whose key is new, and gives both parts back.
    fn add(
        &self,
        pass: &mut Pass<Part, Block>,
        mut log: Log,
        number: u32,
        mut shard: Shard,
        block: Block,
    ) -> Said
        requires own { IsPassOfStore self.now pass.old }
        requires number { (0 < number) × (number < 3) }
        requires log { turn_of (view pass.old) 0 ≡ Some (Part.Log log) }
        requires shard { turn_of (view pass.old) number ≡ Some (Part.Shard shard) }
        requires front { length log.blocks.items ≡ length (view pass.old).seen }
        requires covers { covers_key shard block.key ≡ true }
        requires new { get nat_cmp shard.numbers block.key ≡ None }
        ensures own { IsPassOfStore self.now pass.new }
        ensures said { (result ≡ Said.Added × ((view pass.new).seen
            ≡ (view pass.old).seen ++ block ∷ []) × ((view pass.new).own
            ≡ (view pass.old).own ++ length (view pass.old).seen ∷ []))
            ⊎ (result ≡ Said.NoMemory × ((view pass.new).seen ≡ (view pass.old).seen)
            × ((view pass.new).own ≡ (view pass.old).own)) }
        ensures gave { GaveBoth number (view pass.old) (view pass.new) }
    {
        let at = log.blocks.len() as u64;
        if !put(&mut log, &mut shard, block, at) {
            self.give_both(pass, log, number, shard);
            return Said::NoMemory;
        }
        let log = Part::Log(log);
        let shard = Part::Shard(shard);
        self.turns.set_bits(pass, &[place_of(block.key)]);
        self.turns.raise(pass, &log, number, &shard, &block);
        self.turns.give(pass, 0, log);
        self.turns.give(pass, number, shard);
        Said::Added
    }

    /// Stores a block, whose key has one value for ever.
    pub fn write<R: Wait>(&self, rt: &R, pass: &mut Pass<Part, Block>, block: Block) -> Line
        requires free { IsFree self.now pass.old }
        requires key { IsKey block.key }
        ensures free { IsFree self.now pass.new }
        ensures ask { result.ask ≡ Ask.Write block }
        ensures answered { Answered (view pass.old) (Ask.Write block) result.said result.at
            (view pass.new) }
        ensures share { (view pass.new).share ≡ (view pass.old).share }
    {
        let (shard, number) = self.take_shard(rt, pass, block.key);
        let log = self.take_log(rt, pass);
        let at = log.blocks.len() as u64;
        let said = match shard.find(block.key) {
            Some(n) => {
                let said = compare(&log, n, block.value);
                self.give_both(pass, log, number, shard);
                said
            }
            None => self.add(pass, log, number, shard, block),
        };
        Line {
            ask: Ask::Write(block),
            said,
            at,
        }
    }

    /// Looks whether a key is absent from all that was accepted. It takes no part.
    pub fn look(&self, pass: &mut Pass<Part, Block>, key: u64) -> Line
        requires free { IsFree self.now pass.old }
        ensures free { IsFree self.now pass.new }
        ensures ask { result.ask ≡ Ask.Look key }
        ensures answered { Answered (view pass.old) (Ask.Look key) result.said result.at
            (view pass.new) }
        ensures share { (view pass.new).share ≡ (view pass.old).share }
    {
        let at = self.turns.front(pass);
        let said = if self.turns.load_bits(pass, &[place_of(key)]) {
            Said::Unknown
        } else {
            Said::Absent
        };
        Line {
            ask: Ask::Look(key),
            said,
            at,
        }
    }

    /// How many blocks were accepted, all of which are then seen.
    pub fn count(&self, pass: &mut Pass<Part, Block>) -> u64
        requires free { IsFree self.now pass.old }
        ensures free { IsFree self.now pass.new }
        ensures all { result ≡ length (view pass.new).seen }
        ensures seen { IsPrefix (view pass.old).seen (view pass.new).seen }
        ensures share { (view pass.new).share ≡ (view pass.old).share }
    {
        self.turns.front(pass)
    }

    /// Takes the part of this number, and gives it back as it was.
    pub fn turn<R: Wait>(&self, rt: &R, pass: &mut Pass<Part, Block>, number: u32)
        requires free { IsFree self.now pass.old }
        requires number { number < 3 }
        ensures free { IsFree self.now pass.new }
        ensures seen { IsPrefix (view pass.old).seen (view pass.new).seen }
        ensures share { (view pass.new).share ≡ (view pass.old).share }
    {
        let part = self.turns.take(rt, pass, number);
        self.turns.give(pass, number, part);
    }

    /// Splits a share off the pass, for another worker.
    pub fn split(&self, pass: &mut Pass<Part, Block>) -> Pass<Part, Block>
        requires free { IsFree self.now pass.old }
        requires two { 1 < (view pass.old).share }
        ensures free { IsFree self.now pass.new × IsFree self.now result }
        ensures share { (view pass.new).share + 1 ≡ (view pass.old).share }
    {
        self.turns.split(pass)
    }
}
