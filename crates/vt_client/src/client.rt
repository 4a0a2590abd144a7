//! A client of a Venti server.

ghost use Rattle.std.specs.Prelude.{◌≡◌, ◌≤◌, ℕ, List, IfOk, length};
ghost use Rattle.vt_base.specs.declared.TheConstants.{MAX_BLOCK};
ghost use Rattle.vt_wire.specs.Frames.{IsFrame};
ghost use Rattle.vt_client.specs.Clients.{wanted_block, committing, spent_by, taking_in};
ghost use Rattle.vt_client.specs.Taking.{ReadsReplyFrame};

use crate::exchange::{FRAME_MAX, exchange, remote, reply_in, zeros};
use crate::greeting::say_hello;
use crate::{ClientErr, LinkError};
use std::alloc::Global;
use std::marker::Model;
use vt_base::{Bytes, Kind, MAX_BLOCK, Score, Scorer};
use vt_out::Link;
use vt_wire::{Reply, Request, encode_request};

/// Rread, as a type of a reply's frame (venti(6)).
const READ: u8 = 13;

/// Rwrite.
const WRITE: u8 = 15;

/// Rsync.
const SYNC: u8 = 17;

/// A client of a Venti server that has greeted it. It asks one thing at a time.
#[derive(Drop)]
pub struct Client<L: Link, S: Scorer> {
    pub(crate) link: L,
    /// It tests the score of each block that comes, and the one that is told of a block that goes.
    pub(crate) scorer: S,
    /// Room for the longest frame.
    buf: Vec<u8>,
    /// The tag of the next request.
    tag: u8,
    /// Whether something went wrong on the link, so that nothing more is asked over it.
    spent: bool,
    /// How many calls of this client as a store of blocks were answered with a fault of the link.
    pub(crate) faults: u64,
    /// How many such calls were refused for another reason than a fault or want of memory.
    pub(crate) refusals: u64,
    /// Why the first such call failed or was refused, want of memory included, since that was last
    /// taken out.
    pub(crate) refused: Option<ClientErr>,
    /// How many blocks the server took in by such calls.
    pub(crate) sent: u64,
    ghost buf_len: { length buf.items ≡ 65537 },
}

impl<L: Link, S: Scorer> Model for Client<L, S> {
    ghost use Rattle.vt_client.specs.Clients.{ClientState};

    ghost Value = { ClientState L };

    ghost view = { λ c. record {
      link = c.link;
      tag = c.tag;
      spent = c.spent;
      counts = record { faults = c.faults; refusals = c.refusals };
      refused = c.refused;
      sent = c.sent;
    } };
}

impl<L: Link, S: Scorer + Drop> Client<L, S> {
    ghost use Rattle.std.specs.Prelude.{◌≡◌, ◌≢◌, ◌≤◌, ◌+◌, ◌%◌, true, false, None, Ok, Err, IsTrue};
    ghost use Rattle.std.specs.Prelude.{IfOk, IfErr, MatchResult, length};
    ghost use Rattle.vt_base.specs.declared.TheConstants.{MAX_BLOCK};
    ghost use Rattle.vt_client.specs.Clients.{AsksRequest, CountsSides, SaysGoodbye, wanted_block, committing};
    ghost use Rattle.vt_client.specs.Clients.{taking_in};
    ghost use Rattle.vt_client.specs.Exchanges.{traffic_of};
    ghost use Rattle.vt_client.specs.Greetings.{Greets, MayEndGreeting};

    /// Greets the server at the other end: puts this client's line, takes the server's, and then
    /// says hello, under tag 0. A refusal gives the link back.
    pub fn greet(alloc: Global, link: L, scorer: S) -> Result<Self, LinkError<L>>
        ensures greets { MatchResult result
            (λ client. IsTrue L.tells → Greets S.score_of (traffic_of L.Link link)
            (traffic_of L.Link client.link) (Ok tt))
            (λ parted. IsTrue L.tells → Greets S.score_of (traffic_of L.Link link)
            (traffic_of L.Link parted.link) (Err parted.why)) }
        ensures fresh { IfOk result (λ client. client ≡ record {
          link = client.link;
          tag = 1;
          spent = false;
          counts = record { faults = 0; refusals = 0 };
          refused = None;
          sent = 0;
        }) }
        ensures sides { MatchResult result
            (λ client. CountsSides {T = Unit {0}} L.Link link client.link (Ok tt))
            (λ parted. CountsSides {T = Unit {0}} L.Link link parted.link (Err parted.why)) }
        ensures refuses { IfErr result (λ parted. MayEndGreeting parted.why) }
    {
        let mut link = link;
        let Ok(mut buf) = zeros(alloc, FRAME_MAX) else {
            let why = ClientErr::NoMemory;
            return Err(LinkError { link, why });
        };
        match say_hello(alloc, &mut link, &mut buf) {
            Ok(()) => Ok(Client {
                link,
                scorer,
                buf,
                tag: 1,
                spent: false,
                faults: 0,
                refusals: 0,
                refused: None,
                sent: 0,
            }),
            Err(why) => Err(LinkError { link, why }),
        }
    }

    /// The block of this type and score. Whatever the server sends, the score is that of the bytes.
    pub fn get(&mut self, alloc: Global, kind: Kind, score: &Score) -> Result<Bytes, ClientErr>
        ensures asks { AsksRequest L.Link S.score_of (wanted_block score.now.0 kind)
            self.old self.new result }
        ensures scored { IfOk result (λ bytes. S.score_of bytes ≡ score.now.0) }
        ensures most { IfOk result (λ bytes. length bytes ≤ MAX_BLOCK) }
    {
        if self.spent {
            return Err(ClientErr::Spent);
        }
        let want = Score(score.0);
        let request = Request::Read {
            score: want,
            kind: kind.wire(),
            count: MAX_BLOCK as u32,
        };
        let tag = self.tag;
        self.tag = tag.wrapping_add(1);
        let answer = match exchange(&mut self.link, &mut self.buf, tag, &request) {
            Ok(len) => block_in(alloc, &self.scorer, &self.buf[..len], tag, want),
            Err(err) => Err(err),
        };
        self.spent = ends(&answer);
        answer
    }

    /// Hands a block in, and gives its score, which the server must have told.
    pub fn put(&mut self, alloc: Global, kind: Kind, bytes: &[u8]) -> Result<Score, ClientErr>
        requires { length bytes.now ≤ MAX_BLOCK }
        ensures asks { AsksRequest L.Link S.score_of (taking_in S.score_of kind bytes.now)
            self.old self.new result }
        ensures scored { IfOk result (λ score. score.0 ≡ S.score_of bytes.now) }
    {
        if self.spent {
            return Err(ClientErr::Spent);
        }
        let request = Request::Write {
            kind: kind.wire(),
            bytes,
        };
        let want = self.scorer.score(bytes);
        let tag = self.tag;
        self.tag = tag.wrapping_add(1);
        let answer = match exchange(&mut self.link, &mut self.buf, tag, &request) {
            Ok(len) => score_in(alloc, &self.buf[..len], tag, want),
            Err(err) => Err(err),
        };
        self.spent = ends(&answer);
        answer
    }

    /// After it, the server has committed what was handed in.
    pub fn sync(&mut self, alloc: Global) -> Result<(), ClientErr>
        ensures { AsksRequest L.Link S.score_of committing self.old self.new result }
    {
        if self.spent {
            return Err(ClientErr::Spent);
        }
        let tag = self.tag;
        self.tag = tag.wrapping_add(1);
        let answer = match exchange(&mut self.link, &mut self.buf, tag, &Request::Sync) {
            Ok(len) => synced_in(alloc, &self.buf[..len], tag),
            Err(err) => Err(err),
        };
        self.spent = ends(&answer);
        answer
    }

    /// Says goodbye, to which there is no reply, and gives the link back, also beside a refusal: a
    /// spent client's, or a failed write.
    pub fn goodbye(self) -> Result<L, LinkError<L>>
        ensures { SaysGoodbye L.Link self result }
    {
        let Client {
            link,
            scorer: _scorer,
            buf: _buf,
            tag,
            spent,
            faults: _,
            refusals: _,
            refused: _refused,
            sent: _,
        } = self;
        let mut link = link;
        if spent {
            let why = ClientErr::Spent;
            return Err(LinkError { link, why });
        }
        // (size, type and tag: a goodbye has no parameters)
        let mut frame = [0; 4];
        let len = encode_request(tag, &Request::Goodbye, &mut frame);
        match link.put(&frame[..len]) {
            Ok(()) => Ok(link),
            Err(_) => {
                let why = ClientErr::WriteFault;
                Err(LinkError { link, why })
            }
        }
    }

    /// Takes out why the first call of this client as a store of blocks was refused, or failed, of
    /// those since this was taken out.
    pub fn take_refused(&mut self) -> Option<ClientErr>
        ensures refused { result ≡ self.old.refused }
        ensures left { self.new ≡ record self.old { refused = None } }
    {
        self.refused.take()
    }

    /// How many blocks it was given as a store of blocks, and the server took in.
    pub fn sent(&self) -> u64
        ensures { result ≡ self.now.sent }
    {
        self.sent
    }
}

/// Whether no further request goes out behind this answer.
fn ends<T>(answer: &Result<T, ClientErr>) -> bool
    ensures { result ≡ spent_by answer.now }
{
    match answer {
        Ok(_) => false,
        Err(err) => err.spends(),
    }
}

/// The block in a frame that came for the reply, if it has this score.
fn block_in<S: Scorer>(
    alloc: Global,
    scorer: &S,
    frame: &[u8],
    tag: u8,
    want: Score,
) -> Result<Bytes, ClientErr>
    requires { (body : List ℕ) × IsFrame frame.now body }
    ensures reads { (kind : ℕ) →
        ReadsReplyFrame S.score_of tag (wanted_block want.0 kind) frame.now result }
    ensures scored { IfOk result (λ bytes. S.score_of bytes ≡ want.0) }
    ensures most { IfOk result (λ bytes. length bytes ≤ MAX_BLOCK) }
{
    match reply_in(frame, tag, READ)? {
        Reply::Read(bytes) => {
            let found = scorer.score(bytes);
            if found != want {
                return Err(ClientErr::WrongScore { want, found });
            }
            Ok(Bytes::copy_of(alloc, bytes)?)
        }
        Reply::Error(text) => Err(remote(alloc, text)),
        _ => unreachable!(),
    }
}

/// The score in a frame that came for the reply, if it is this one.
fn score_in(alloc: Global, frame: &[u8], tag: u8, want: Score) -> Result<Score, ClientErr>
    requires { (body : List ℕ) × IsFrame frame.now body }
    ensures reads { (score_of : List ℕ → List ℕ) (kind : ℕ) (bytes : List ℕ)
        → want.0 ≡ score_of bytes
        → ReadsReplyFrame score_of tag (taking_in score_of kind bytes) frame.now result }
    ensures scored { IfOk result (λ score. score ≡ want) }
{
    match reply_in(frame, tag, WRITE)? {
        Reply::Write(found) if found == want => Ok(found),
        Reply::Write(found) => Err(ClientErr::WrongScore { want, found }),
        Reply::Error(text) => Err(remote(alloc, text)),
        _ => unreachable!(),
    }
}

/// Whether a frame that came for the reply says that all is committed.
fn synced_in(alloc: Global, frame: &[u8], tag: u8) -> Result<(), ClientErr>
    requires { (body : List ℕ) × IsFrame frame.now body }
    ensures { (score_of : List ℕ → List ℕ)
        → ReadsReplyFrame score_of tag committing frame.now result }
{
    match reply_in(frame, tag, SYNC)? {
        Reply::Error(text) => Err(remote(alloc, text)),
        _ => Ok(()),
    }
}
