//! What the next message of an input comes to.

ghost use Rattle.std.specs.Prelude.{◌≡◌, ◌+◌, ◌<◌, ◌^◌, ◌↔◌, List, drop, length, IsNone, IfSome};
ghost use Rattle.vt_base.specs.Bytes.{AreBytes};
ghost use Rattle.vt_wire.specs.Frames.{size_width, IsFrame, IsPartial};
ghost use Rattle.vt_wire.specs.Views.{message_of};
ghost use Rattle.vt_session.specs.Heard.{end_of};

use crate::Ended;
use vt_base::Operation;
use vt_wire::{ProtocolCause, Request, WireBad, decode, frame_len};

/// The version that a session is held in.
const VERSION: &[u8] = b"02";

/// Where a frame has its tag: behind the size field and the type.
const TAG_AT: usize = 3;

/// What comes next of an input.
#[derive(Clone, Copy, Debug, PartialEq, Eq)]
pub enum Next<'a> {
    /// The hello that begins the session, and its tag.
    Hello(u8),
    /// A ping behind it, and its tag.
    Ping(u8),
    /// An operation behind it, and its tag.
    Ask(u8, Operation<'a>),
    /// The rule that a message breaks, and its tag.
    Refused(ProtocolCause, u8),
    /// The end.
    End(Ended),
}

impl Next<'_> {
    ghost use Rattle.vt_session.specs.Parsed.{is_hello};

    /// Whether it is a hello that is accepted, with which the session begins.
    pub(crate) fn is_hello(&self) -> bool
        ensures { result ≡ is_hello self.now }
    {
        matches!(self, Next::Hello(_))
    }
}

/// What is left of an input, behind its line and whole frames.
#[derive(Clone, Copy)]
pub(crate) struct Left<'a> {
    /// Whether the line offered version 02.
    pub(crate) offered: bool,
    /// Whether a hello was accepted.
    pub(crate) greeted: bool,
    /// Where the bytes stand in the input.
    pub(crate) place: u64,
    pub(crate) bytes: &'a [u8],
    ghost are_bytes: { AreBytes bytes.now },
    ghost fits: { place + length bytes.now < 2 ^ 64 },
}

impl<'a> Left<'a> {
    ghost use Rattle.vt_session.specs.Parsed.{unheard, RulesGive, FrameGives, IsFrontFrame};

    /// What the first frame left comes to, and how many bytes it has; None exactly where none is
    /// whole.
    pub(crate) fn front(&self) -> Option<(Next<'a>, usize)>
        ensures partial { IsNone result ↔ IsPartial self.now.bytes.now }
        ensures front { IfSome result (λ it. IsFrontFrame (unheard self.now) it.0 it.1) }
    {
        let len = frame_len(self.bytes)?;
        let next = self.next_of(&self.bytes[..len]);
        Some((next, len))
    }

    /// What the first frame left comes to.
    fn next_of(&self, frame: &'a [u8]) -> Next<'a>
        requires { IsFrame frame.now (drop size_width frame.now) }
        ensures { FrameGives (unheard self.now) (drop size_width frame.now) result }
    {
        match decode(frame) {
            Ok((tag, request)) => self.next_by_rules(tag, request),
            Err(WireBad::Short) => Next::End(Ended::Malformed(self.place)),
            Err(WireBad::Unknown(_)) => Next::Refused(ProtocolCause::UnknownMessage, frame[TAG_AT]),
            Err(WireBad::Bad(_)) => Next::Refused(ProtocolCause::BadMessage, frame[TAG_AT]),
        }
    }

    /// What a message comes to by the rules of a session.
    fn next_by_rules(&self, tag: u8, request: Request<'a>) -> Next<'a>
        ensures { RulesGive (unheard self.now) tag (message_of request.entry) result }
    {
        match request {
            Request::Goodbye => Next::End(Ended::Goodbye),
            Request::Hello { .. } if self.greeted => Next::Refused(
                ProtocolCause::HelloRepeated,
                tag,
            ),
            Request::Hello { version } if self.offered && version == VERSION => Next::Hello(tag),
            Request::Hello { .. } => Next::Refused(ProtocolCause::VersionNotAgreed, tag),
            _ if !self.greeted => Next::Refused(ProtocolCause::HelloExpected, tag),
            Request::Ping => Next::Ping(tag),
            Request::Read { score, kind, count } => {
                Next::Ask(tag, Operation::Read { score, kind, count })
            }
            Request::Write { kind, bytes } => Next::Ask(tag, Operation::Write { kind, bytes }),
            Request::Sync => Next::Ask(tag, Operation::Sync),
        }
    }
}

/// How an input ends with these bytes, which are less than a whole line or frame.
pub(crate) fn end_of(rest: &[u8]) -> Ended
    ensures { result ≡ end_of rest.now }
{
    if rest.is_empty() {
        Ended::Closed
    } else {
        Ended::Cut
    }
}
