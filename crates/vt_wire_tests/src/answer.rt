//! Sessions over a store that answers what it is told to: bytes in, bytes out.

ghost use Rattle.std.specs.Prelude.{◌≡◌, ◌≤◌, ⊤, Bool, [], replicate, IsTrue};

use crate::tables::each;
use std::alloc::{AllocError, Global};
use std::test::Fail;
use vt_base::{Bytes, Failed, FieldValue, Operation, Said, Score, Site, Why};
use vt_handler::{
    Answering, Client, LinkClient, Output, Served, Store, Streams, read, reply, sync, write,
};
use vt_out::{MemLink, MemSink, MemSource};
use vt_rows::Rows;
use vt_session::Ended;
use vt_wire::Reply;

/// The line that a server of ours says first.
const OUR_LINE: &[u8] = b"venti-02-rattle\n";

/// A client's line and a hello, and the welcome.
const GREETING: &[u8] = b"venti-02-test\n\x00\x0b\x04\x00\x00\x0202\x00\x00\x00\x00\x00";

const WELCOME: &[u8] = b"\x00\x0f\x05\x00\x00\x09anonymous\x00\x00";

/// Writes of one byte under the tags 1, 2 and 3, of the types 13, 1 and 2.
const WRITES: &[u8] = b"\x00\x07\x0e\x01\x0d\x00\x00\x00x\x00\x07\x0e\x02\x01\x00\x00\x00x\
\x00\x07\x0e\x03\x02\x00\x00\x00x";

/// What is said to them: the score, and two failures.
const WROTE: &[u8] = b"\x00\x16\x0f\x01ssssssssssssssssssss\x00\x11\x01\x02\x00\x0dblock damaged\
\x00\x0d\x01\x03\x00\x09no memory";

/// A read of type 13 under tag 4, of three bytes at most, and of as many as a block may have.
const READ: &[u8] = b"\x00\x1a\x0c\x04ssssssssssssssssssss\x0d\x00\x00\x03";

const LONGEST: &[u8] = b"\x00\x1a\x0c\x04ssssssssssssssssssss\x0d\x00\xe0\x00";

/// A sync, a ping and a goodbye.
const REST: &[u8] = b"\x00\x02\x10\x05\x00\x02\x02\x06\x00\x02\x06\x07";

/// The score that is told for each write of type 13.
const SCORE: Score = Score(*b"ssssssssssssssssssss");

/// Why a write of type 1 is refused.
const DAMAGE: Why = Why::Damaged {
    site: Site::Bucket(1),
    want: FieldValue::Number(2),
    found: FieldValue::Number(3),
};

/// Answers each call with what stands here for its type, and counts the calls. It holds no history,
/// so nothing is claimed of its answers.
#[derive(Drop)]
struct Scripted {
    /// How many bytes a block has that is read.
    length: usize,
    /// How many calls there were of each kind.
    writes: u64,
    reads: u64,
    syncs: u64,
    ghost fits: { length ≤ 57344 },
}

impl Store for Scripted {
    ghost score_of = { λ bytes. replicate 20 115 };

    ghost condition = { λ s. record {
      setup = record { arenas = []; versions = []; base = 0; sections = [] };
      alone = Bool.false;
      faults = [];
      stops = [];
      durable = 0;
    } };

    ghost holds = { λ s h. ⊥ };

    ghost does = { λ s m answer s'. ⊤ };

    ghost durable_is_held = { λ s h hold. absurd hold };

    fn ask(&mut self, alloc: Global, operation: Operation<'_>) -> Said {
        match operation {
            Operation::Write { kind, .. } => {
                self.writes = self.writes.wrapping_add(1);
                match kind {
                    13 => Said::Score(SCORE),
                    1 => Said::Refused(DAMAGE),
                    _ => Said::Refused(Why::NoMemory),
                }
            }
            Operation::Read { count, .. } => {
                self.reads = self.reads.wrapping_add(1);
                let length = self.length.min(count as usize);
                match vec![in alloc; b'b'; length] {
                    Ok(block) => Said::Block(Bytes::from_vec(block)),
                    Err(_) => Said::Refused(Why::NoMemory),
                }
            }
            Operation::Sync => {
                self.syncs = self.syncs.wrapping_add(1);
                Said::Synced
            }
        }
    }
}

/// A store whose blocks have so many bytes, of which nothing was asked yet.
fn answering_reads(length: usize) -> Scripted
    requires { length ≤ 57344 }
{
    Scripted {
        length,
        writes: 0,
        reads: 0,
        syncs: 0,
    }
}

/// What comes of a session, and why the store failed first. It is generic, so that no clause is
/// looked at with the store and the client of a test.
fn served<T: Store, C: Client>(
    alloc: Global,
    store: &mut T,
    client: &mut C,
) -> Option<(Served, Option<Why>)>
    requires begins { IsTrue C.tells → IsTrue C.waits →
        (C.sent client.old ≡ []) × (C.written client.old ≡ []) }
{
    let Ok(mut answering) = Answering::new(alloc) else {
        return None;
    };
    let served = answering.serve(alloc, store, client);
    Some((served, answering.failure()))
}

/// Whether it ends so, for no failure of the store.
fn ends(found: Option<(Served, Option<Why>)>, ended: Ended) -> bool {
    matches!(found, Some((served, None)) if served.ended == ended)
}

/// A client that asks for three blocks, and of whose writes those with these numbers fail.
fn asking_thrice(
    alloc: Global,
    failing: &[u64],
) -> Result<Streams<MemSource, MemSink>, AllocError> {
    let input = [GREETING, LONGEST, LONGEST, LONGEST].concat(alloc)?;
    let failing = Vec::from_slice(alloc, failing)?;
    let sink = MemSink::new(alloc, 1 << 18)?.failing(failing);
    Ok(Streams {
        source: MemSource::new(alloc, input),
        sink,
    })
}

/// Which writes fail, how the session ends, and how many bytes went out.
type Long = (&'static [u64], Ended, usize);

const LINE: usize = OUR_LINE.len();

/// How many bytes go out first: a welcome, and two of the longest blocks.
const FIRST: usize = WELCOME.len() + 2 * 57_348;

const LONG: [Long; 4] = [
    (&[], Ended::Closed, LINE + FIRST + 57_348),
    (&[0], Ended::WriteFault, LINE / 2),
    (&[1], Ended::WriteFault, LINE + FIRST / 2),
    (&[2], Ended::WriteFault, LINE + FIRST + 57_348 / 2),
];

/// A session in which three blocks of 57,344 bytes are read ends as this row says.
fn long_is_replied(alloc: Global, row: usize, case: &Long) -> Result<(), Fail> {
    let (failing, ended, written) = *case;
    let mut client = asking_thrice(alloc, failing)?;
    let mut store = answering_reads(57_344);
    let found = served(alloc, &mut store, &mut client);
    let is_whole = client.sink.written().len() == written;
    let mut rows = Rows::new();
    rows.nth(
        row,
        "how a session with long replies ends",
        ends(found, ended),
    );
    rows.nth(row, "how many bytes of long replies went out", is_whole);
    rows.all()?;
    Ok(())
}

/// Three reads of the longest blocks, of which two wait for the third: with all writes well, and
/// with each of the three failing.
#[test]
fn long_replies(rt: HostRuntime) -> Result<(), Fail> {
    each(rt.alloc(), &LONG, long_is_replied)
}

/// A store that is asked without a session.
#[test]
fn asked_alone(rt: HostRuntime) -> Result<(), Fail> {
    let alloc = rt.alloc();
    let mut store = answering_reads(3);
    let said = store.ask(alloc, Operation::Sync);
    let written = write(alloc, &mut store, 13, b"x");
    let block = read(alloc, &mut store, &SCORE, 13, 2);
    let synced = sync(alloc, &mut store);
    let mut rows = Rows::new();
    rows.is("the reply to a sync", reply(&said) == Reply::Sync);
    rows.is("the score of a block", written == Ok(SCORE));
    rows.is(
        "what a block has",
        matches!(&block, Ok(block) if block.as_slice() == b"bb".as_slice()),
    );
    rows.is("a sync is done", synced == Ok(()));
    rows.all()?;
    Ok(())
}

/// A reply that waits.
#[test]
fn a_reply_waits(rt: HostRuntime) -> Result<(), Fail> {
    let alloc = rt.alloc();
    let written = [OUR_LINE, b"\x00\x02\x03\x06"].concat(alloc)?;
    let mut client = Streams {
        source: MemSource::new(alloc, Vec::new(alloc)),
        sink: MemSink::new(alloc, 100)?,
    };
    let mut output = Output::new(alloc)?;
    let mut rows = Rows::new();
    output.push(6, &Reply::Ping);
    rows.is("there is room behind a reply", !output.is_full());
    rows.is("a reply goes out", output.flush(&mut client).is_ok());
    rows.is(
        "the bytes that went out",
        client.sink.written() == written.as_slice(),
    );
    rows.all()?;
    Ok(())
}

/// A client that sends a piece once the replies to what it sent before came, and else fails.
#[derive(Drop)]
struct Patient {
    /// All that it sends.
    input: Vec<u8>,
    /// How many bytes of it were sent.
    given: usize,
    /// How many bytes each piece has, and how many must have come before it.
    pieces: Vec<(usize, usize)>,
    /// How many pieces were sent.
    sent: usize,
    /// The piece that doesn't come, since the link fails.
    lost: usize,
    /// What came to it.
    output: Vec<u8>,
    /// How many bytes come to it.
    room: usize,
    read_faults: u64,
    write_faults: u64,
}

impl Client for Patient {
    ghost use Rattle.std.specs.Prelude.{[], false, true};

    ghost tells = { false };

    ghost waits = { true };

    ghost sent = { λ client. [] };

    ghost left = { λ client. [] };

    ghost written = { λ client. [] };

    ghost read_faults = { λ client. client.read_faults };

    ghost write_faults = { λ client. client.write_faults };

    fn take(&mut self, buf: &mut [u8]) -> Result<usize, Failed> {
        let Some((length, owed)) = self.pieces.get(self.sent).copied() else {
            return Ok(0);
        };
        if self.output.len() < owed || self.sent == self.lost {
            self.read_faults = self.read_faults.saturating_add(1);
            return Err(Failed);
        }
        let piece = self.input.get(self.given..).unwrap_or(&[]);
        let n = length.min(piece.len()).min(buf.len());
        buf[..n].copy_from_slice(&piece[..n]);
        self.given = self.given.saturating_add(n);
        self.sent = self.sent.saturating_add(1);
        Ok(n)
    }

    fn put(&mut self, piece: &[u8]) -> Result<(), Failed> {
        let end = self.output.len().saturating_add(piece.len());
        if end > self.room || self.output.extend_from_slice(piece).is_err() {
            self.write_faults = self.write_faults.saturating_add(1);
            return Err(Failed);
        }
        Ok(())
    }
}

/// What is sent, and what is said to it.
type Part<'a> = (&'a [u8], &'a [u8]);

/// What is sent in these parts.
fn sent(alloc: Global, parts: &[Part]) -> Result<Vec<u8>, AllocError> {
    let mut input = Vec::new(alloc);
    for (part, _) in parts {
        input.extend_from_slice(part)?;
    }
    Ok(input)
}

/// Each of these parts in pieces of so many bytes, and what must have come before each piece.
fn cut_up(alloc: Global, parts: &[Part], cut: usize) -> Result<Vec<(usize, usize)>, AllocError> {
    let mut pieces = Vec::new(alloc);
    let mut owed = OUR_LINE.len();
    for (part, replies) in parts {
        for piece in part.chunks(cut.max(1)) {
            pieces.push((piece.len(), owed))?;
        }
        owed = owed.saturating_add(replies.len());
    }
    Ok(pieces)
}

/// A client that sends each of these parts in pieces of so many bytes, and waits for what is said
/// to it.
fn client_of(alloc: Global, parts: &[Part], cut: usize) -> Result<Patient, AllocError> {
    let input = sent(alloc, parts)?;
    let pieces = cut_up(alloc, parts, cut)?;
    Ok(Patient {
        input,
        given: 0,
        pieces,
        sent: 0,
        lost: usize::MAX,
        output: Vec::new(alloc),
        room: usize::MAX,
        read_faults: 0,
        write_faults: 0,
    })
}

/// What a client sends, and what is said to each part.
const PARTS: [Part<'static>; 6] = [
    (GREETING, WELCOME),
    (WRITES, WROTE),
    (READ, b"\x00\x05\x0d\x04bbb"),
    (b"\x00\x02\x10\x05", b"\x00\x02\x11\x05"),
    (b"\x00\x02\x02\x06", b"\x00\x02\x03\x06"),
    (b"\x00\x02\x06\x07", b""),
];

/// How many bytes its pieces have.
const CUTS: [usize; 5] = [1, 2, 3, 5, 65_537];

/// It gets this output in pieces of so many bytes.
fn pieces_are_answered(with: (Global, &[u8]), row: usize, cut: &usize) -> Result<(), Fail> {
    let (alloc, output) = with;
    let mut client = client_of(alloc, &PARTS, *cut)?;
    let mut store = answering_reads(3);
    let found = served(alloc, &mut store, &mut client);
    let is_output = client.output.as_slice() == output;
    let is_goodbye = matches!(found, Some((served, _)) if served.ended == Ended::Goodbye);
    let is_damage = matches!(found, Some((_, Some(why))) if why == DAMAGE);
    let calls = (store.writes, store.reads, store.syncs);
    let mut rows = Rows::new();
    rows.nth(row, "how a session in pieces ends", is_goodbye);
    rows.nth(row, "what it says", is_output);
    rows.nth(row, "why its store failed first", is_damage);
    rows.nth(row, "the calls of its store", calls == (3, 1, 1));
    rows.all()?;
    Ok(())
}

/// A client that waits for each reply gets it, however its bytes come in.
#[test]
fn a_client_waits_for_each_reply(rt: HostRuntime) -> Result<(), Fail> {
    let alloc = rt.alloc();
    let output = [
        OUR_LINE,
        WELCOME,
        WROTE,
        b"\x00\x05\x0d\x04bbb\x00\x02\x11\x05\x00\x02\x03\x06",
    ]
    .concat(alloc)?;
    each((alloc, output.as_slice()), &CUTS, pieces_are_answered)
}

/// What is sent last, the piece that is lost, how many bytes come to the client, how the session
/// ends and how many bytes were taken, and how many came to the client.
type End = (&'static [u8], usize, usize, (Ended, u64), usize);

const GREETED: usize = OUR_LINE.len() + WELCOME.len();

/// How many bytes the server says up to its replies to `WRITES`.
const ANSWERED: usize = OUR_LINE.len() + WELCOME.len() + WROTE.len();

const ENDS: [End; 4] = [
    (WRITES, 9, 1_000, (Ended::Closed, 54), ANSWERED),
    (b"\x00", 9, 1_000, (Ended::Cut, 28), GREETED),
    (WRITES, 1, 1_000, (Ended::ReadFault, 27), GREETED),
    (WRITES, 9, ANSWERED - 1, (Ended::WriteFault, 54), GREETED),
];

/// A session ends as this row says.
fn end_is_told(alloc: Global, row: usize, case: &End) -> Result<(), Fail> {
    let (last, lost, room, (ended, taken), written) = *case;
    let mut client = client_of(alloc, &[(GREETING, WELCOME), (last, b"")], 100)?;
    client.lost = lost;
    client.room = room;
    let mut store = answering_reads(3);
    let found = served(alloc, &mut store, &mut client);
    let is_written = client.output.len() == written;
    let is_ended = matches!(found, Some((served, _)) if served == Served { ended, taken });
    let mut rows = Rows::new();
    rows.nth(row, "how a session ends, and how much it took", is_ended);
    rows.nth(row, "how many bytes came to its client", is_written);
    rows.all()?;
    Ok(())
}

/// The end of the input, a read that fails and a write that fails are told apart.
#[test]
fn served_to_an_end(rt: HostRuntime) -> Result<(), Fail> {
    each(rt.alloc(), &ENDS, end_is_told)
}

/// A link in memory, as a client.
#[test]
fn a_link_in_memory(rt: HostRuntime) -> Result<(), Fail> {
    let alloc = rt.alloc();
    let output = [OUR_LINE, WELCOME, b"\x00\x05\x0d\x04bbb"].concat(alloc)?;
    let input = [GREETING, READ].concat(alloc)?;
    let pieces = vec![in alloc; 3, 40]?;
    let sink = MemSink::new(alloc, 1_000)?;
    let source = MemSource::new(alloc, input).in_pieces(pieces);
    let mut client = LinkClient {
        link: MemLink { source, sink },
    };
    let mut store = answering_reads(3);
    let found = served(alloc, &mut store, &mut client);
    let mut rows = Rows::new();
    rows.is("how a session over a link ends", ends(found, Ended::Closed));
    rows.is(
        "what it says",
        client.link.sink.written() == output.as_slice(),
    );
    rows.all()?;
    Ok(())
}

/// A source and a sink apart, as a client.
#[test]
fn streams_in_memory(rt: HostRuntime) -> Result<(), Fail> {
    let alloc = rt.alloc();
    let output = [OUR_LINE, WELCOME, b"\x00\x05\x0d\x04bbb"].concat(alloc)?;
    let input = [GREETING, READ].concat(alloc)?;
    let calls = vec![in alloc; 1]?;
    let sink = MemSink::new(alloc, 1_000)?;
    let source = MemSource::new(alloc, input).failing(calls);
    let mut client = Streams { source, sink };
    let mut store = answering_reads(3);
    let found = served(alloc, &mut store, &mut client);
    let mut rows = Rows::new();
    rows.is(
        "how a session over streams ends",
        ends(found, Ended::ReadFault),
    );
    rows.is("what it says", client.sink.written() == output.as_slice());
    rows.all()?;
    Ok(())
}
