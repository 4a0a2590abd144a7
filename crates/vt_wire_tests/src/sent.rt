//! Folders in memory are archived at a server in memory, which says what was written down before.

use crate::tables::each;
use std::alloc::Global;
use std::test::Fail;
use vac_store::{ArchiveError, ArchiveFolder, ArchivedAt, archived_at};
use vac_write::{VacErr, archive};
use vt_base::{Key, Kind, Score, Sha1Scorer, Text, parse_score};
use vt_client::ClientErr;
use vt_conf::{Address, VENTI_PORT};
use vt_dial::{Dialer, MemDialer};
use vt_out::{Facts, Folder, MemContent, MemFolder, MemItem, MemLink, MemSink, MemSource};
use vt_remote::RemoteError;
use vt_rows::Rows;
use vt_tree::{Blocks, MemBlocks};
use vt_use::{StoreError, use_server};

/// What the server says first, and what it has to hear.
const WELCOME: &[u8] = b"venti-02-rattle\n\x00\x0f\x05\x00\x00\x09anonymous\x00\x00";

const HELLO: &[u8] = b"venti-02-rattle\n\x00\x14\x04\x00\x00\x0202\x00\x09anonymous\x00\x00\x00";

fn text(alloc: Global, bytes: &[u8]) -> Result<Text, Fail> {
    Ok(Text::copy_of(alloc, bytes)?)
}

fn facts(alloc: Global, name: &[u8], mode: u32) -> Result<Facts, Fail> {
    let name = text(alloc, name)?;
    let uid = text(alloc, b"u")?;
    let gid = text(alloc, b"g")?;
    Ok(Facts {
        name,
        mode,
        mtime: 0,
        uid,
        gid,
    })
}

fn file(alloc: Global, name: &[u8], bytes: &[u8]) -> Result<MemItem, Fail> {
    let content = MemContent::from_vec(Vec::from_slice(alloc, bytes)?);
    let facts = facts(alloc, name, 0o644)?;
    Ok(MemItem::File(facts, content))
}

/// The folder `d` with the file `f` of `abc`.
fn folder(alloc: Global) -> Result<MemItem, Fail> {
    let facts = facts(alloc, b"d", 0o40755)?;
    let inside = vec![in alloc; file(alloc, b"f", b"abc")?]?;
    Ok(MemItem::Folder(facts, inside))
}

/// The empty file `a`, a link, and that folder.
fn small(alloc: Global) -> Result<Vec<MemItem>, Fail> {
    let empty = file(alloc, b"a", b"")?;
    let link = MemItem::Other(facts(alloc, b"link", 0o777)?);
    let folder = folder(alloc)?;
    Ok(vec![in alloc; empty, link, folder]?)
}

/// Two bytes that tell it from other leaves, and zeros.
fn leaf(i: u8) -> [u8; 512] {
    let mut leaf = [0; 512];
    leaf[0] = 1;
    leaf[1] = i;
    leaf
}

/// A file of 255 leaves of 512 bytes, of which each has two bytes of its own, and zeros.
fn large(alloc: Global) -> Result<Vec<MemItem>, Fail> {
    let mut bytes = Vec::new(alloc);
    for i in 0..255u8 {
        bytes.extend_from_slice(&leaf(i))?;
    }
    let large = file(alloc, b"large", &bytes)?;
    Ok(vec![in alloc; large]?)
}

/// A file whose name can't stand.
fn misnamed(alloc: Global) -> Result<Vec<MemItem>, Fail> {
    let file = file(alloc, b"a/b", b"")?;
    Ok(vec![in alloc; file]?)
}

/// A request to write a block comes behind these.
fn push_write(requests: &mut Vec<u8>, tag: u8, kind: Kind, bytes: &[u8]) -> Result<(), Fail> {
    let Ok(len) = u16::try_from(bytes.len().saturating_add(6)) else {
        return Err("too long".into());
    };
    let [high, low] = len.to_be_bytes();
    requests.extend_from_slice(&[high, low, 14, tag, kind.wire(), 0, 0, 0])?;
    requests.extend_from_slice(bytes)?;
    Ok(())
}

/// The reply to it comes behind these.
fn push_score(replies: &mut Vec<u8>, tag: u8, score: &Score) -> Result<(), Fail> {
    replies.extend_from_slice(&[0, 22, 15, tag])?;
    replies.extend_from_slice(&score.0)?;
    Ok(())
}

/// What goes over a link behind a welcome, to a server that takes in all blocks.
#[derive(Drop)]
struct Messages {
    /// What the client says, its line and hello first.
    requests: Vec<u8>,
    /// What the server says, its line and welcome first.
    replies: Vec<u8>,
    /// The tag of the next request.
    tag: u8,
    /// How many blocks were written.
    writes: u64,
}

impl Messages {
    fn new(alloc: Global) -> Result<Self, Fail> {
        let requests = Vec::from_slice(alloc, HELLO)?;
        let replies = Vec::from_slice(alloc, WELCOME)?;
        Ok(Messages {
            requests,
            replies,
            tag: 1,
            writes: 0,
        })
    }

    /// This block is written, and its score is replied.
    fn write(&mut self, key: &Key, bytes: &[u8]) -> Result<(), Fail> {
        push_write(&mut self.requests, self.tag, key.kind, bytes)?;
        push_score(&mut self.replies, self.tag, &key.score)?;
        self.tag = self.tag.wrapping_add(1);
        self.writes = self.writes.saturating_add(1);
        Ok(())
    }

    /// All is synced, and the client leaves.
    fn sync_and_goodbye(&mut self) -> Result<(), Fail> {
        let next = self.tag.wrapping_add(1);
        self.requests
            .extend_from_slice(&[0, 2, 16, self.tag, 0, 2, 6, next])?;
        self.replies.extend_from_slice(&[0, 2, 17, self.tag])?;
        Ok(())
    }
}

/// The score of an archive. It is generic, so that no clause is looked at with the folder and the
/// blocks in memory.
fn archived<F: Folder, B: Blocks>(
    alloc: Global,
    folder: &mut F,
    blocks: &mut B,
    bsize: u16,
) -> Option<Score> {
    match &archive(alloc, folder, blocks, bsize.clamp(512, 53_248)) {
        Ok(archived) => Some(archived.score),
        Err(_) => None,
    }
}

/// What goes over a link for these blocks.
fn messages_for(alloc: Global, blocks: &MemBlocks<Sha1Scorer>) -> Result<Messages, Fail> {
    let mut messages = Messages::new(alloc)?;
    for key in blocks.puts() {
        let bytes = blocks.held(key.kind, &key.score).ok_or("no block")?;
        messages.write(key, bytes)?;
    }
    messages.sync_and_goodbye()?;
    Ok(messages)
}

/// What is to go over a link where these items are archived in blocks of this size, and the
/// archive's score.
fn planned(alloc: Global, items: Vec<MemItem>, bsize: u16) -> Result<(Messages, Score), Fail> {
    let mut folder = MemFolder::new(alloc, items);
    let mut blocks = MemBlocks::new(alloc, Sha1Scorer);
    let score = archived(alloc, &mut folder, &mut blocks, bsize).ok_or("not archived")?;
    let messages = messages_for(alloc, &blocks)?;
    Ok((messages, score))
}

/// A server that says this, and of whose link the calls with these numbers fail.
fn server(alloc: Global, replies: &[u8], reads: &[u64], writes: &[u64]) -> Result<MemDialer, Fail> {
    let replies = Vec::from_slice(alloc, replies)?;
    let reads = Vec::from_slice(alloc, reads)?;
    let writes = Vec::from_slice(alloc, writes)?;
    let name = text(alloc, b"localhost")?;
    let sink = MemSink::new(alloc, 100_000)?;
    let link = MemLink {
        source: MemSource::new(alloc, replies).failing(reads),
        sink: sink.failing(writes),
    };
    Ok(MemDialer::new(name, VENTI_PORT, link))
}

fn address(alloc: Global, port: u16) -> Result<Address, Fail> {
    let host = text(alloc, b"localhost")?;
    Ok(Address {
        host: Some(host),
        port,
    })
}

/// Archives a folder at the server at this address. It is generic, so that no clause is looked at
/// with the folder and the server in memory.
fn sent<D: Dialer, F: Folder>(
    alloc: Global,
    dialer: &mut D,
    there: &Address,
    folder: &mut F,
    bsize: u16,
) -> Result<ArchivedAt, ArchiveError> {
    let bsize = bsize.clamp(512, 53_248);
    let job = ArchiveFolder { bsize };
    archived_at(use_server(alloc, dialer, there, &Sha1Scorer, job, folder))
}

/// Whether just this went to the server.
fn heard(dialer: MemDialer, requests: &[u8]) -> bool {
    match dialer.into_link() {
        Some(link) => link.sink.written() == requests,
        None => false,
    }
}

/// Whether an archive with this score was sent, in so many blocks, and this alone was skipped.
fn is_sent(
    answer: &Result<ArchivedAt, ArchiveError>,
    score: Score,
    blocks: u64,
    skipped: Option<&[u8]>,
) -> Rows {
    let mut rows = Rows::new();
    match answer {
        Ok(archive) => {
            rows.is("the score that is told", archive.archived.score == score);
            rows.is("how many blocks were sent", archive.blocks == blocks);
            let is_skipped = match (archive.archived.skipped.as_slice(), skipped) {
                ([], None) => true,
                ([path], Some(wanted)) => path.as_slice() == wanted,
                _ => false,
            };
            rows.is("what was skipped", is_skipped);
        }
        Err(_) => rows.is("an archive that is sent", false),
    }
    rows
}

/// An archive is sent, each block in order, and a sync behind them.
#[test]
fn an_archive_is_sent(rt: HostRuntime) -> Result<(), Fail> {
    let alloc = rt.alloc();
    let Ok(known) = parse_score(b"cfd1270f57bb4fddde84a62de63149f0b829e079") else {
        return Err("score".into());
    };
    let (messages, score) = planned(alloc, small(alloc)?, 8192)?;
    let there = address(alloc, VENTI_PORT)?;
    let items = small(alloc)?;
    let mut dialer = server(alloc, &messages.replies, &[], &[])?;
    let mut folder = MemFolder::new(alloc, items);
    let answer = sent(alloc, &mut dialer, &there, &mut folder, 8192);
    let mut rows = is_sent(&answer, known, 7, Some(b"link"));
    rows.is("the score in memory", score == known);
    rows.is("what went to the server", heard(dialer, &messages.requests));
    rows.all()?;
    Ok(())
}

/// So is a larger one, of which the tags run round.
#[test]
fn a_large_archive_is_sent(rt: HostRuntime) -> Result<(), Fail> {
    let alloc = rt.alloc();
    let (messages, score) = planned(alloc, large(alloc)?, 512)?;
    let there = address(alloc, VENTI_PORT)?;
    let items = large(alloc)?;
    let mut dialer = server(alloc, &messages.replies, &[], &[])?;
    let mut folder = MemFolder::new(alloc, items);
    let answer = sent(alloc, &mut dialer, &there, &mut folder, 512);
    let mut rows = is_sent(&answer, score, messages.writes, None);
    rows.is("the tags run round", messages.writes > 256);
    rows.is("what went to the server", heard(dialer, &messages.requests));
    rows.all()?;
    Ok(())
}

/// What came of it, in a letter.
fn letter(answer: &Result<ArchivedAt, ArchiveError>) -> char {
    let bad = match answer {
        Ok(_) => return 'o',
        Err(bad) => bad,
    };
    match bad {
        ArchiveError::Folder(VacErr::FolderFault) => 'f',
        ArchiveError::Folder(VacErr::BadName(_)) => 'n',
        ArchiveError::Folder(_) => '?',
        ArchiveError::Store(StoreError::Server(RemoteError::Undialled)) => 'u',
        ArchiveError::Store(StoreError::Server(RemoteError::Refused(why))) => match why {
            ClientErr::Remote(_) => 'e',
            ClientErr::ReadFault => 'r',
            ClientErr::WriteFault => 'w',
            ClientErr::Cut => 'c',
            ClientErr::BadReply(_) => 'b',
            ClientErr::NoVersion => 'v',
            ClientErr::WrongScore { .. } => 's',
            _ => '?',
        },
        ArchiveError::Store(_) => '?',
    }
}

/// So many bytes of the replies of a server that takes in all blocks, what comes instead of the
/// others, and which call of the folder fails, which read and which write of the link.
type Plan = (usize, &'static [u8], [u64; 3]);

/// What it comes to at such a server, and whether its link is given back.
fn comes_to(alloc: Global, (front, rest, failing): Plan) -> Result<(char, bool), Fail> {
    let [call, read, write] = failing;
    let (messages, _) = planned(alloc, small(alloc)?, 8192)?;
    let (front, _) = messages
        .replies
        .split_at_checked(front)
        .unwrap_or((&messages.replies, &[]));
    let replies = [front, rest].concat(alloc)?;
    let there = address(alloc, VENTI_PORT)?;
    let calls = vec![in alloc; call]?;
    let items = small(alloc)?;
    let mut dialer = server(alloc, &replies, &[read], &[write])?;
    let mut folder = MemFolder::new(alloc, items).failing(calls);
    let answer = sent(alloc, &mut dialer, &there, &mut folder, 8192);
    Ok((letter(&answer), dialer.into_link().is_some()))
}

/// A call that is never made.
const NEVER: u64 = u64::MAX;

/// No call of a plan fails.
const NO_FAULTS: [u64; 3] = [NEVER, NEVER, NEVER];

/// How many bytes a welcome has, and one with the replies to all seven blocks.
const MET: usize = 33;

const ALL: usize = 33 + 7 * 24;

/// What a row shows, its plan, and what it comes to.
type Row = (&'static str, Plan, char);

const ROWS: [Row; 12] = [
    ("all is said", (ALL + 4, b"", NO_FAULTS), 'o'),
    (
        "a sync under another tag",
        (ALL, b"\x00\x02\x11\x09", NO_FAULTS),
        'b',
    ),
    (
        "a sync that is refused",
        (ALL, b"\x00\x0e\x01\x08\x00\x0adisk fault", NO_FAULTS),
        'e',
    ),
    ("no reply to the sync", (ALL, b"", NO_FAULTS), 'c'),
    (
        "a block that is refused",
        (MET, b"\x00\x0f\x01\x01\x00\x0barenas full", NO_FAULTS),
        'e',
    ),
    (
        "another score",
        (MET, b"\x00\x16\x0f\x01ssssssssssssssssssss", NO_FAULTS),
        's',
    ),
    (
        "a reply of another type",
        (MET + 24, b"\x00\x02\x11\x02", NO_FAULTS),
        'b',
    ),
    ("a reply that is cut", (MET + 30, b"", NO_FAULTS), 'c'),
    (
        "a line of another version",
        (0, b"venti-04-x\n", NO_FAULTS),
        'v',
    ),
    (
        "a folder that can't be listed",
        (ALL + 4, b"", [0, NEVER, NEVER]),
        'f',
    ),
    ("a read that fails", (ALL + 4, b"", [NEVER, 20, NEVER]), 'r'),
    ("a write that fails", (ALL + 4, b"", [NEVER, NEVER, 4]), 'w'),
];

/// Archiving comes to what the row says, and the link is given back.
fn row_comes_to(alloc: Global, row: usize, case: &Row) -> Result<(), Fail> {
    let (what, plan, wanted) = *case;
    let (found, is_back) = comes_to(alloc, plan)?;
    let mut rows = Rows::new();
    rows.nth(row, what, found == wanted);
    rows.nth(row, "the link is given back", is_back);
    rows.all()?;
    Ok(())
}

#[test]
fn each_refusal_has_its_cause(rt: HostRuntime) -> Result<(), Fail> {
    each(rt.alloc(), &ROWS, row_comes_to)
}

/// What comes of these items at a server that says this, at this port.
fn items_come_to(
    alloc: Global,
    items: Vec<MemItem>,
    replies: &[u8],
    port: u16,
) -> Result<char, Fail> {
    let there = address(alloc, port)?;
    let mut dialer = server(alloc, replies, &[], &[])?;
    let mut folder = MemFolder::new(alloc, items);
    let answer = sent(alloc, &mut dialer, &there, &mut folder, 8192);
    Ok(letter(&answer))
}

#[test]
fn no_server_and_no_name(rt: HostRuntime) -> Result<(), Fail> {
    let alloc = rt.alloc();
    let (messages, _) = planned(alloc, Vec::new(alloc), 8192)?;
    let undialled = items_come_to(alloc, Vec::new(alloc), b"", 1)?;
    let unnamed = items_come_to(alloc, misnamed(alloc)?, &messages.replies, VENTI_PORT)?;
    let mut rows = Rows::new();
    rows.is("no server at this port", undialled == 'u');
    rows.is("a name that can't stand", unnamed == 'n');
    rows.all()?;
    Ok(())
}
