//! One block of a server in memory, which says what was written down before.

use crate::tables::each;
use std::alloc::Global;
use std::test::Fail;
use vt_base::{Bytes, Kind, Score, Scorer, Sha1Scorer, Text};
use vt_client::ClientErr;
use vt_conf::{Address, VENTI_PORT};
use vt_dial::{Dialer, MemDialer};
use vt_out::{MemLink, MemSink, MemSource};
use vt_remote::RemoteError;
use vt_rows::Rows;
use vt_use::{ReadBlock, StoreError, WriteBlock, answer_at, use_server};

/// The score of `abc`, by SHA-1.
const ABC: Score = Score(
    *b"\xa9\x99\x3e\x36\x47\x06\x81\x6a\xba\x3e\x25\x71\x78\x50\xc2\x6c\x9c\xd0\xd8\x9d",
);

/// What the server says first, and what it has to hear.
const WELCOME: &[u8] = b"venti-02-rattle\n\x00\x0f\x05\x00\x00\x09anonymous\x00\x00";

const HELLO: &[u8] = b"venti-02-rattle\n\x00\x14\x04\x00\x00\x0202\x00\x09anonymous\x00\x00\x00";

/// The name of the server's host.
fn host(alloc: Global) -> Result<Text, Fail> {
    match Text::copy_of(alloc, b"localhost") {
        Ok(host) => Ok(host),
        Err(_) => Err("no memory".into()),
    }
}

/// The address of the server that is there.
fn address(alloc: Global) -> Result<Address, Fail> {
    Ok(Address {
        host: Some(host(alloc)?),
        port: VENTI_PORT,
    })
}

/// A server that says this behind its welcome.
fn server(alloc: Global, replies: &[u8]) -> Result<MemDialer, Fail> {
    let bytes = [WELCOME, replies].concat(alloc)?;
    let pieces = vec![in alloc; 1, 7]?;
    let name = host(alloc)?;
    let sink = MemSink::new(alloc, 1000)?;
    let link = MemLink {
        source: MemSource::new(alloc, bytes).in_pieces(pieces),
        sink,
    };
    Ok(MemDialer::new(name, VENTI_PORT, link))
}

/// Whether just this went to the server.
fn heard(dialer: MemDialer, requests: &[u8]) -> bool {
    match dialer.into_link() {
        Some(link) => link.sink.written() == requests,
        None => false,
    }
}

/// What comes of reading the block `abc`. It is generic, so that no clause is looked at with the
/// server in memory.
fn read<D: Dialer>(alloc: Global, dialer: &mut D, address: &Address) -> Result<Bytes, StoreError> {
    let kind = Kind::DATA;
    let job = ReadBlock { kind, score: ABC };
    answer_at(use_server(alloc, dialer, address, &Sha1Scorer, job, &mut ()))
}

/// What comes of writing it.
fn write<D: Dialer>(alloc: Global, dialer: &mut D, address: &Address) -> Result<Score, StoreError> {
    let kind = Kind::DATA;
    let job = WriteBlock {
        kind,
        bytes: b"abc",
    };
    answer_at(use_server(alloc, dialer, address, &Sha1Scorer, job, &mut ()))
}

#[test]
fn a_block_goes_to_a_server(rt: HostRuntime) -> Result<(), Fail> {
    let alloc = rt.alloc();
    let here = address(alloc)?;
    let requests = [
        HELLO,
        b"\x00\x09\x0e\x01\x0d\x00\x00\x00abc",
        b"\x00\x02\x10\x02\x00\x02\x06\x03",
    ]
    .concat(alloc)?;
    let replies = [b"\x00\x16\x0f\x01".as_slice(), &ABC.0, b"\x00\x02\x11\x02"].concat(alloc)?;
    let mut dialer = server(alloc, &replies)?;
    let mut rows = Rows::new();
    let score = write(alloc, &mut dialer, &here);
    rows.is(
        "the score of a block that is written",
        matches!(score, Ok(score) if score == ABC),
    );
    rows.is("what went to the server", heard(dialer, &requests));
    rows.all()?;
    Ok(())
}

#[test]
fn a_block_comes_back(rt: HostRuntime) -> Result<(), Fail> {
    let alloc = rt.alloc();
    let here = address(alloc)?;
    let requests = [
        HELLO,
        b"\x00\x1a\x0c\x01",
        &ABC.0,
        b"\x0d\x00\xe0\x00\x00\x02\x06\x02",
    ]
    .concat(alloc)?;
    let mut dialer = server(alloc, b"\x00\x05\x0d\x01abc")?;
    let mut rows = Rows::new();
    let is_abc = match &read(alloc, &mut dialer, &here) {
        Ok(block) => block.as_slice() == b"abc".as_slice(),
        Err(_) => false,
    };
    rows.is("the block that is read", is_abc);
    rows.is("what went to the server", heard(dialer, &requests));
    rows.all()?;
    Ok(())
}

/// Why nothing was read, in a letter.
fn letter(bad: &StoreError) -> char {
    match bad {
        StoreError::Server(RemoteError::Undialled) => 'u',
        StoreError::Server(RemoteError::Refused(why)) => match why {
            ClientErr::Remote(_) => 'r',
            ClientErr::Cut => 'c',
            ClientErr::BadReply(_) => 'b',
            ClientErr::NoVersion => 'v',
            ClientErr::WrongScore { .. } => 'w',
            _ => '?',
        },
        StoreError::Unopened(_) | StoreError::Refused(_) => '?',
    }
}

/// What came of it, in a letter.
fn outcome<T: Drop>(answer: Result<T, StoreError>) -> char {
    match &answer {
        Ok(_) => 'o',
        Err(bad) => letter(bad),
    }
}

/// What a server does, the port that is dialled, what it says behind its welcome, and what comes of
/// asking it for a block.
type Asked = (&'static str, u16, &'static [u8], char);

const ASKED: [Asked; 5] = [
    (
        "a server that says no",
        VENTI_PORT,
        b"\x00\x11\x01\x01\x00\x0dno such block",
        'r',
    ),
    ("another block", VENTI_PORT, b"\x00\x05\x0d\x01abd", 'w'),
    (
        "a reply under another tag",
        VENTI_PORT,
        b"\x00\x05\x0d\x02abc",
        'b',
    ),
    (
        "a reply that is cut",
        VENTI_PORT,
        b"\x00\x05\x0d\x01ab",
        'c',
    ),
    ("another port", 1, b"", 'u'),
];

/// A read at the address with this port comes to what the row says.
fn is_asked(alloc: Global, row: usize, case: &Asked) -> Result<(), Fail> {
    let (what, port, reply, wanted) = *case;
    let mut there = address(alloc)?;
    there.port = port;
    let mut dialer = server(alloc, reply)?;
    let found = outcome(read(alloc, &mut dialer, &there));
    let mut rows = Rows::new();
    rows.nth(row, what, found == wanted);
    rows.all()?;
    Ok(())
}

/// What a server says to a sync behind a block whose score it tells, and what comes of giving it
/// the block.
type Given = (&'static str, &'static [u8], char);

const GIVEN: [Given; 2] = [
    ("a server that commits", b"\x00\x02\x11\x02", 'o'),
    (
        "a server that can't commit",
        b"\x00\x0e\x01\x02\x00\x0adisk fault",
        'r',
    ),
];

/// A write whose sync is replied to so comes to what the row says.
fn is_given(alloc: Global, row: usize, case: &Given) -> Result<(), Fail> {
    let (what, reply, wanted) = *case;
    let replies = [b"\x00\x16\x0f\x01", ABC.0.as_slice(), reply].concat(alloc)?;
    let here = address(alloc)?;
    let mut dialer = server(alloc, &replies)?;
    let found = outcome(write(alloc, &mut dialer, &here));
    let mut rows = Rows::new();
    rows.nth(row, what, found == wanted);
    rows.all()?;
    Ok(())
}

#[test]
fn each_refusal_has_its_cause(rt: HostRuntime) -> Result<(), Fail> {
    let alloc = rt.alloc();
    each(alloc, &ASKED, is_asked)?;
    each(alloc, &GIVEN, is_given)
}
