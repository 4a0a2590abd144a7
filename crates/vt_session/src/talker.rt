//! Hearing an input as it comes in, item by item.

ghost use Rattle.std.specs.Prelude.{◌≡◌, ◌+◌, ◌≤◌, ◌↔◌, min, [], length, take, drop, IsTrue, IsNone, IfOk, IfSome};
ghost use Rattle.vt_wire.specs.Lines.{line_of};
ghost use Rattle.vt_session.specs.Talk.{spent_len};
ghost use Rattle.vt_session.specs.Talking.{at_line, HearsStage, IsHeardStage, line_heard, fed, needs_more, IsOpen, IsNextHeard, EndsAnyhow, Passes, room, ended_at};
ghost use Rattle.vt_session.specs.Parsed.{unheard};
ghost use Rattle.vt_session.specs.Talker.{stage_of, HoldsIn, IsPhaseBehind};
ghost use Rattle.vt_session.specs.declared.Ended.{Ended as EndedOf};
ghost use Rattle.vt_session.specs.declared.parsed.Next.{Next as NextOf};

use crate::parsed::{Left, end_of};
use crate::waiting::{LONGEST, Waiting};
use crate::{Ended, Next};
use std::alloc::{AllocError, Global};
use std::marker::Model;
use vt_wire::{Line, decode_line, frame_len};

/// The most bytes that one link takes: `spent_len` of specs/Talk.antt.
pub const MAX_TAKEN: u64 = 1 << 62;

/// Hears an input as it comes in, to the same effect whatever the pieces.
///
/// It is fed while it needs more, and else tells what comes `next`, which stands until it is told
/// to `pass` it. Its buffer is made at the start, and no call takes memory.
#[derive(Drop)]
pub struct Talker {
    phase: Phase,
    /// Where the bytes that wait stand in the input.
    place: u64,
    /// What came in and isn't heard yet.
    waiting: Waiting,
}

/// How far the input was heard.
#[derive(Clone, Copy, Debug)]
enum Phase {
    /// The client's line isn't whole yet.
    AtLine,
    /// The line was heard: whether it offered version 02, and whether a hello was accepted since.
    BehindLine { offered: bool, greeted: bool },
    /// Nothing more is heard.
    Over(Ended),
}

impl Model for Talker {
    ghost use Rattle.vt_session.specs.Talking.{Talking};

    ghost Value = { Talking };

    ghost use Rattle.vt_session.specs.Talker.{talking_of, IsKeptTalker};

    ghost view = { talking_of };

    ghost invariant = { IsKeptTalker };
}

impl Talker {
    /// Hears a new input, of which nothing came yet.
    pub fn new(alloc: Global) -> Result<Self, AllocError>
        ensures { IfOk result (λ talker. talker ≡ record { stage = at_line []; taken = 0 }) }
    {
        let waiting = Waiting::new(alloc)?;
        Ok(Talker {
            phase: Phase::AtLine,
            place: 0,
            waiting,
        })
    }

    /// Takes the front of a piece that comes in, and says how many bytes: as many as it has room
    /// for. It has none exactly where `next` gives something, or where 2^62 bytes were taken.
    pub fn feed(&mut self, piece: &[u8]) -> usize
        ensures takes { result ≡ min (length piece.now) (room self.old) }
        ensures holds { self.new ≡ fed self.old (take result piece.now) }
        ensures goes_on { IsHeardStage self.new.stage }
    {
        let n = piece.len().min(self.room());
        self.waiting.push(&piece[..n]);
        if let Phase::AtLine = self.phase {
            let (phase, len) = hear_line(&mut self.waiting);
            self.phase = phase;
            self.place = len as u64;
        }
        n
    }

    /// How many bytes of a longer piece it takes now.
    pub fn room(&self) -> usize
        ensures is { result ≡ room self.now }
        ensures spent { IsTrue (needs_more self.now.stage) → result ≡ 0
            → self.now.taken ≡ spent_len }
    {
        if !self.needs_more() {
            return 0;
        }
        let left = (MAX_TAKEN - self.taken()) as usize;
        left.min(LONGEST - self.waiting.as_slice().len())
    }

    /// Whether more must come before there is something to hear.
    pub fn needs_more(&self) -> bool
        ensures is { result ≡ needs_more self.now.stage }
        ensures unfinished { IsTrue result → IsOpen self.now.stage }
    {
        match self.phase {
            Phase::AtLine => true,
            Phase::BehindLine { .. } => frame_len(self.waiting.as_slice()).is_none(),
            Phase::Over(_) => false,
        }
    }

    /// How many bytes of the input were taken, heard or still waiting: at most 2^62.
    pub fn taken(&self) -> u64
        ensures is { result ≡ self.now.taken }
        ensures most { result ≤ spent_len }
    {
        self.place + self.waiting.as_slice().len() as u64
    }

    /// What comes next; None exactly where what came holds no whole line or message behind what was
    /// passed. The client's line itself gives no item. Behind the last item it is the end.
    pub fn next(&self) -> Option<Next<'_>>
        ensures need { IsNone result ↔ IsTrue (needs_more self.now.stage) }
        ensures next { IfSome result (IsNextHeard self.now.stage) }
        ensures end { (ended : EndedOf) → result ≡ Some (NextOf.End ended) → EndsAnyhow ended }
    {
        match self.phase {
            Phase::AtLine => None,
            Phase::BehindLine { offered, greeted } => {
                let left = Left {
                    offered,
                    greeted,
                    place: self.place,
                    bytes: self.waiting.as_slice(),
                };
                let (next, _) = left.front()?;
                Some(next)
            }
            Phase::Over(ended) => Some(Next::End(ended)),
        }
    }

    /// Goes on behind what comes next. The end stays, and where more is needed nothing changes.
    pub fn pass(&mut self)
        ensures passes { (next : NextOf) → IsNextHeard self.old.stage next
            → Passes next self.old.stage self.new.stage }
        ensures stays { IsTrue (needs_more self.old.stage) → self.new ≡ self.old }
        ensures taken { self.new.taken ≡ self.old.taken }
        ensures goes_on { IsHeardStage self.new.stage }
    {
        let Phase::BehindLine { offered, greeted } = self.phase else {
            return;
        };
        let left = Left {
            offered,
            greeted,
            place: self.place,
            bytes: self.waiting.as_slice(),
        };
        let Some((next, len)) = left.front() else {
            return;
        };
        self.phase = phase_behind(&left, &next);
        self.waiting.skip(len);
        self.place += len as u64;
    }

    /// What the end of the input means, where `next` gives nothing.
    pub fn end(&self) -> Ended
        ensures is { result ≡ ended_at self.now.stage }
        ensures heard { IsTrue (needs_more self.now.stage) → HearsStage self.now.stage [] result }
    {
        match self.phase {
            Phase::AtLine | Phase::BehindLine { .. } => end_of(self.waiting.as_slice()),
            Phase::Over(ended) => ended,
        }
    }
}

/// Hears the client's line among the bytes that came, and gives how many bytes it has, once it is
/// whole; they wait no longer.
fn hear_line(waiting: &mut Waiting) -> (Phase, usize)
    ensures heard { stage_of result.0 result.1 waiting.new
        ≡ line_heard waiting.old (line_of waiting.old) }
    ensures same { result.1 + length waiting.new ≡ length waiting.old }
    ensures rest { waiting.new ≡ drop result.1 waiting.old }
    ensures holds { HoldsIn result.0 result.1 waiting.new }
{
    match decode_line(waiting.as_slice()) {
        Line::Whole { len, has_02 } => {
            waiting.skip(len);
            let phase = Phase::BehindLine {
                offered: has_02,
                greeted: false,
            };
            (phase, len)
        }
        Line::More => (Phase::AtLine, 0),
        Line::Bad(place) => (Phase::Over(Ended::Malformed(place as u64)), 0),
    }
}

/// How far the input was heard behind what comes next.
fn phase_behind(left: &Left<'_>, next: &Next<'_>) -> Phase
    ensures { IsPhaseBehind (unheard left.now) next.now result }
{
    match *next {
        Next::End(ended) => Phase::Over(ended),
        _ => Phase::BehindLine {
            offered: left.offered,
            greeted: left.greeted || next.is_hello(),
        },
    }
}
