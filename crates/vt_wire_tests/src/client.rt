//! A client at a server in memory, which says what was written down before.

use crate::blocks::{Told, gets, puts, syncs};
use crate::refusals::{Refusal, is_refusal};
use crate::tables::{each, in_turn};
use std::alloc::Global;
use std::test::Fail;
use vt_base::{Kind, Score, Scorer, Sha1Scorer};
use vt_client::Client;
use vt_out::{Link, MemLink, MemSink, MemSource};
use vt_rows::Rows;

/// The score of `abc`, by SHA-1.
const ABC: Score = Score(
    *b"\xa9\x99\x3e\x36\x47\x06\x81\x6a\xba\x3e\x25\x71\x78\x50\xc2\x6c\x9c\xd0\xd8\x9d",
);

/// The line that a client of ours says first.
const LINE: &[u8] = b"venti-02-rattle\n";

/// The client's line and its hello.
const GREETING: &[u8] = b"venti-02-rattle\n\x00\x14\x04\x00\x00\x0202\x00\x09anonymous\x00\x00\x00";

/// What a server says to these: its line and its welcome.
const WELCOME: &[u8] = b"venti-02-rattle\n\x00\x0f\x05\x00\x00\x09anonymous\x00\x00";

/// The reply with that score to a write under tag 1.
const WROTE_ABC: &[u8] = b"\x00\x16\x0f\x01\
    \xa9\x99\x3e\x36\x47\x06\x81\x6a\xba\x3e\x25\x71\x78\x50\xc2\x6c\x9c\xd0\xd8\x9d";

/// What a client that is spent says as a store of blocks.
const SPENT: Told = Told::Says(b"client spent");

type MemClient = Client<MemLink, Sha1Scorer>;

/// A link on which these bytes come in, one at a time.
fn link(alloc: Global, bytes: &[u8]) -> Result<MemLink, Fail> {
    let content = Vec::from_slice(alloc, bytes)?;
    let pieces = vec![in alloc; 1]?;
    let sink = MemSink::new(alloc, 1000)?;
    Ok(MemLink {
        source: MemSource::new(alloc, content).in_pieces(pieces),
        sink,
    })
}

/// A link on which these bytes come in, and of which the reads and the writes with these numbers
/// fail.
fn failing(alloc: Global, bytes: &[u8], reads: &[u64], writes: &[u64]) -> Result<MemLink, Fail> {
    let content = Vec::from_slice(alloc, bytes)?;
    let reads = Vec::from_slice(alloc, reads)?;
    let writes = Vec::from_slice(alloc, writes)?;
    let sink = MemSink::new(alloc, 1000)?;
    Ok(MemLink {
        source: MemSource::new(alloc, content).failing(reads),
        sink: sink.failing(writes),
    })
}

/// The client of a link over which it is greeted.
fn greeted(alloc: Global, link: MemLink) -> Result<MemClient, Fail> {
    match Client::greet(alloc, link, Sha1Scorer) {
        Ok(client) => Ok(client),
        Err(_) => Err("not greeted".into()),
    }
}

/// A client at a server that says this behind its welcome.
fn client(alloc: Global, replies: &[u8]) -> Result<MemClient, Fail> {
    let bytes = [WELCOME, replies].concat(alloc)?;
    greeted(alloc, link(alloc, &bytes)?)
}

/// What is asked of a client, and what it answers: by its own calls, or as a store of blocks.
enum Act {
    /// `abc` is written, and this score is answered.
    Writes(Score),
    /// A sync is asked for by the client's own call, and is done.
    Commits,
    /// `abc` is read by its score: these bytes come, or this refusal.
    Reads(Result<&'static [u8], Refusal>),
    /// `abc` is put as a block of data, by the calls of a store of blocks, as the next two are.
    Puts(Result<Score, Told>),
    Gets(Result<&'static [u8], Told>),
    Syncs(Result<(), Told>),
    /// This refusal, if any, is kept.
    Keeps(Option<Refusal>),
    /// So many blocks were sent.
    Sent(u64),
}

/// Whether a client answers so.
fn does<L: Link, S: Scorer + Drop>(alloc: Global, client: &mut Client<L, S>, act: &Act) -> bool {
    match act {
        Act::Writes(score) => writes(client, alloc, score),
        Act::Commits => Client::sync(client, alloc).is_ok(),
        Act::Reads(wanted) => reads(client, alloc, *wanted),
        Act::Puts(wanted) => puts(client, alloc, Kind::DATA, *wanted),
        Act::Gets(wanted) => gets(client, alloc, &ABC, *wanted),
        Act::Syncs(wanted) => syncs(client, alloc, *wanted),
        Act::Keeps(wanted) => keeps(client, *wanted),
        Act::Sent(blocks) => client.sent() == *blocks,
    }
}

/// Whether a client gives this score where the block `abc` is written.
fn writes<L: Link, S: Scorer + Drop>(
    client: &mut Client<L, S>,
    alloc: Global,
    wanted: &Score,
) -> bool {
    match &Client::put(client, alloc, Kind::DATA, b"abc") {
        Ok(score) => score == wanted,
        Err(_) => false,
    }
}

/// Whether it answers so where that block is asked for.
fn reads<L: Link, S: Scorer + Drop>(
    client: &mut Client<L, S>,
    alloc: Global,
    wanted: Result<&'static [u8], Refusal>,
) -> bool {
    match (&Client::get(client, alloc, Kind::DATA, &ABC), wanted) {
        (Ok(bytes), Ok(wanted)) => bytes.as_slice() == wanted,
        (Err(bad), Err(refusal)) => is_refusal(bad, refusal),
        _ => false,
    }
}

/// Whether it says that this refusal, if any, was kept.
fn keeps<L: Link, S: Scorer + Drop>(client: &mut Client<L, S>, wanted: Option<Refusal>) -> bool {
    match (&client.take_refused(), wanted) {
        (None, None) => true,
        (Some(bad), Some(refusal)) => is_refusal(bad, refusal),
        _ => false,
    }
}

const EXCHANGE: [Act; 3] = [Act::Writes(ABC), Act::Commits, Act::Reads(Ok(b"abc"))];

#[test]
fn a_write_a_sync_a_read_and_a_goodbye(rt: HostRuntime) -> Result<(), Fail> {
    let alloc = rt.alloc();
    let said = [
        GREETING,
        b"\x00\x09\x0e\x01\x0d\x00\x00\x00abc\x00\x02\x10\x02\x00\x1a\x0c\x03",
        &ABC.0,
        b"\x0d\x00\xe0\x00\x00\x02\x06\x04",
    ]
    .concat(alloc)?;
    let replies = [WROTE_ABC, b"\x00\x02\x11\x02\x00\x05\x0d\x03abc"].concat(alloc)?;
    let mut client = client(alloc, &replies)?;
    in_turn(
        alloc,
        &mut client,
        &EXCHANGE,
        "a write, a sync or a read",
        does,
    )?;
    let mut rows = Rows::new();
    match client.goodbye() {
        Ok(link) => {
            rows.is("what was said", link.sink.written() == said.as_slice());
            rows.is("all was heard", link.source.left().is_empty());
        }
        Err(_) => rows.is("a goodbye", false),
    }
    rows.all()?;
    Ok(())
}

/// What a server does, what it says behind its welcome, and what comes of it.
type Scenario = (&'static str, &'static [u8], &'static [Act]);

fn is_met(alloc: Global, _row: usize, case: &Scenario) -> Result<(), Fail> {
    let (what, replies, acts) = *case;
    let mut client = client(alloc, replies)?;
    in_turn(alloc, &mut client, acts, what, does)?;
    Ok(())
}

const REFUSALS: [Scenario; 2] = [
    (
        "a server that says no, and then no more",
        b"\x00\x11\x01\x01\x00\x0dno such block",
        &[
            Act::Reads(Err(Refusal::Remote(b"no such block"))),
            Act::Reads(Err(Refusal::Cut)),
            Act::Reads(Err(Refusal::Spent)),
        ],
    ),
    (
        "a server that gives another block, and then the right one",
        b"\x00\x05\x0d\x01abd\x00\x05\x0d\x02abc",
        &[Act::Reads(Err(Refusal::Not(ABC))), Act::Reads(Ok(b"abc"))],
    ),
];

/// Replies that have something wrong at a byte, each of which ends it.
const BAD_REPLIES: [Scenario; 4] = [
    (
        "a reply with a wrong size",
        b"\x00\x01\x02",
        &[Act::Reads(Err(Refusal::BadReply(0))), Act::Gets(Err(SPENT))],
    ),
    (
        "a reply of a wrong type",
        b"\x00\x02\x11\x01",
        &[Act::Reads(Err(Refusal::BadReply(2))), Act::Gets(Err(SPENT))],
    ),
    (
        "a reply under a wrong tag",
        b"\x00\x05\x0d\x02abc",
        &[Act::Reads(Err(Refusal::BadReply(3))), Act::Gets(Err(SPENT))],
    ),
    (
        "a reply with wrong parameters",
        b"\x00\x04\x01\x01\x00\x01",
        &[Act::Reads(Err(Refusal::BadReply(4))), Act::Gets(Err(SPENT))],
    ),
];

#[test]
fn refusals_and_which_of_them_end_it(rt: HostRuntime) -> Result<(), Fail> {
    let alloc = rt.alloc();
    each(alloc, &REFUSALS, is_met)?;
    each(alloc, &BAD_REPLIES, is_met)
}

/// What comes in on a link, how a greeting over it is refused, and what goes out before.
type Greeting = (&'static [u8], Refusal, &'static [u8]);

const REFUSED_GREETINGS: [Greeting; 6] = [
    (b"venti-04-x\n", Refusal::NoVersion, LINE),
    (b"ventu-02-x\n", Refusal::NoVersion, LINE),
    (b"venti-02", Refusal::Cut, LINE),
    (b"venti-04:02-x\n\x00\x0f\x05", Refusal::Cut, GREETING),
    (
        b"venti-02-x\n\x00\x06\x01\x00\x00\x02no",
        Refusal::Remote(b"no"),
        GREETING,
    ),
    (
        b"venti-02-x\n\x00\x02\x03\x00",
        Refusal::BadReply(2),
        GREETING,
    ),
];

fn is_refused(alloc: Global, row: usize, case: &Greeting) -> Result<(), Fail> {
    let (bytes, refusal, said) = *case;
    let link = link(alloc, bytes)?;
    let mut rows = Rows::new();
    match Client::greet(alloc, link, Sha1Scorer) {
        Ok(_) => rows.nth(row, "no greeting", false),
        Err(parted) => {
            let is_why = is_refusal(&parted.why, refusal);
            let is_said = parted.link.sink.written() == said;
            rows.nth(row, "why a greeting is refused", is_why);
            rows.nth(row, "what went out before", is_said);
        }
    }
    rows.all()?;
    Ok(())
}

#[test]
fn greetings_that_are_refused(rt: HostRuntime) -> Result<(), Fail> {
    each(rt.alloc(), &REFUSED_GREETINGS, is_refused)
}

/// What is kept of a failed read: once, and nothing before.
const READ_FAILS: [Act; 4] = [
    Act::Keeps(None),
    Act::Gets(Err(Told::Fault)),
    Act::Keeps(Some(Refusal::ReadFault)),
    Act::Keeps(None),
];

/// What is kept of a failed write, and behind it.
const WRITE_FAILS: [Act; 6] = [
    Act::Puts(Err(Told::Fault)),
    Act::Syncs(Err(SPENT)),
    Act::Keeps(Some(Refusal::WriteFault)),
    Act::Syncs(Err(SPENT)),
    Act::Keeps(Some(Refusal::Spent)),
    Act::Sent(0),
];

/// A failed read of the link is a fault, and it is kept which it was. The line is read in sixteen
/// calls, and a reply in two.
#[test]
fn a_failed_read_is_kept(rt: HostRuntime) -> Result<(), Fail> {
    let alloc = rt.alloc();
    let bytes = [WELCOME, b"\x00\x05\x0d\x01abc"].concat(alloc)?;
    let mut client = greeted(alloc, failing(alloc, &bytes, &[19], &[])?)?;
    in_turn(
        alloc,
        &mut client,
        &READ_FAILS,
        "a client whose read fails",
        does,
    )?;
    Ok(())
}

/// So is a failed write.
#[test]
fn a_failed_write_is_kept(rt: HostRuntime) -> Result<(), Fail> {
    let alloc = rt.alloc();
    let mut client = greeted(alloc, failing(alloc, WELCOME, &[], &[2])?)?;
    in_turn(
        alloc,
        &mut client,
        &WRITE_FAILS,
        "a client whose write fails",
        does,
    )?;
    let mut rows = Rows::new();
    match client.goodbye() {
        Ok(_) => rows.is("no goodbye", false),
        Err(parted) => {
            rows.is(
                "why there is no goodbye",
                is_refusal(&parted.why, Refusal::Spent),
            );
            rows.is("the writes that failed", parted.link.sink.faults() == 1);
        }
    }
    rows.all()?;
    Ok(())
}

const SENT: [Scenario; 1] = [(
    "blocks that are taken in, read, and refused",
    b"\x00\x16\x0f\x01\
    \xa9\x99\x3e\x36\x47\x06\x81\x6a\xba\x3e\x25\x71\x78\x50\xc2\x6c\x9c\xd0\xd8\x9d\
    \x00\x05\x0d\x02abc\x00\x06\x01\x03\x00\x02no",
    &[
        Act::Sent(0),
        Act::Puts(Ok(ABC)),
        Act::Gets(Ok(b"abc")),
        Act::Puts(Err(Told::Says(b"no"))),
        Act::Keeps(Some(Refusal::Remote(b"no"))),
        Act::Sent(1),
    ],
)];

/// Blocks that the server took in are counted, and no others.
#[test]
fn blocks_that_were_sent(rt: HostRuntime) -> Result<(), Fail> {
    each(rt.alloc(), &SENT, is_met)
}

/// What is told to who sees a store of blocks, where the reply to a read under tag 1 is this.
const AS_BLOCKS: [Scenario; 4] = [
    (
        "a server that says no, as a store of blocks",
        b"\x00\x06\x01\x01\x00\x02no",
        &[Act::Gets(Err(Told::Says(b"no")))],
    ),
    (
        "a reply that is cut, as a store of blocks",
        b"\x00\x05\x0d",
        &[Act::Gets(Err(Told::Says(b"peer cut")))],
    ),
    (
        "a reply of another type, as a store of blocks",
        b"\x00\x02\x11\x01",
        &[Act::Gets(Err(Told::Says(b"bad reply")))],
    ),
    (
        "another block, as a store of blocks",
        b"\x00\x05\x0d\x01abd",
        &[Act::Gets(Err(Told::Not(ABC)))],
    ),
];

#[test]
fn refusals_as_a_store_of_blocks(rt: HostRuntime) -> Result<(), Fail> {
    each(rt.alloc(), &AS_BLOCKS, is_met)
}
