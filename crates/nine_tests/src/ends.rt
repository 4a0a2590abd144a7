//! What has an end: a folder's files by the count of each read, the fids of a client, the bytes of a
//! message, a store that fails, and one that refuses with a long text.

use crate::samples::{
    Came, Case, Failure, Row, Shown, Talk, calls_of_sample, see_shown, see_talk, serve,
};
use nine_view::View;
use std::alloc::{AllocError, Global};
use std::test::Fail;
use vt_base::{Bytes, Kind, Score, Scorer, ShortScorer, Text};
use vt_rows::Rows;
use vt_tree::{BlockErr, Blocks};

/// Serves a client that asks so.
fn serve_talk<B: Blocks>(
    alloc: Global,
    view: &mut View,
    blocks: &mut B,
    talk: &Talk,
) -> Result<Came, AllocError> {
    serve(
        alloc,
        view,
        blocks,
        &talk.asked,
        (100, 400_000),
        &talk.replied,
    )
}

/// The bytes of the folder's files from one place on, so many at most.
fn files_in(from: u32, most: u32) -> &'static [u8] {
    let files = FILES.get(from as usize..).unwrap_or(b"");
    files.get(..most as usize).unwrap_or(files)
}

/// A read of the top folder behind so many bytes, by this count.
fn read_of(from: u32, count: u32) -> [u8; 23] {
    let mut message = *b"\x17\0\0\0t\x01\0\x01\0\0\0\0\0\0\0\0\0\0\0\0\0\0\0";
    message[11..15].copy_from_slice(&from.to_le_bytes());
    message[19..].copy_from_slice(&count.to_le_bytes());
    message
}

/// What stands in front of the bytes of a reply to a read, so many.
fn read_head(len: u32) -> [u8; 11] {
    let mut head = *b"\0\0\0\0u\x01\0\0\0\0\0";
    head[..4].copy_from_slice(&len.saturating_add(11).to_le_bytes());
    head[7..].copy_from_slice(&len.to_le_bytes());
    head
}

/// An attach of a fid.
fn attach_of(fid: u32) -> [u8; 20] {
    let mut message = *b"\x14\0\0\0h\x01\0\0\0\0\0\xff\xff\xff\xff\x01\0u\0\0";
    message[7..11].copy_from_slice(&fid.to_le_bytes());
    message
}

/// Asks for the files of the top folder behind so many bytes, by this count: as many files are told as
/// have room, each whole and once.
fn say_read(talk: &mut Talk, from: u32, count: u32) -> Result<(), AllocError> {
    let most = (count / 53).saturating_mul(53);
    if most == 0 {
        return talk.say(&read_of(from, count), SMALL);
    }
    let files = files_in(from, most);
    // It has 212 bytes at most.
    let len = files.len().min(212) as u32;
    talk.say(&read_of(from, count), &read_head(len))?;
    talk.say(b"", files)
}

/// Such reads one behind the other, from the folder's start to its end.
fn reads(alloc: Global, count: u32) -> Result<Talk, AllocError> {
    let most = (count / 53).saturating_mul(53);
    let mut talk = Talk::new(alloc);
    for n in 0..5u32 {
        say_read(&mut talk, n.saturating_mul(most).min(212), count)?;
    }
    Ok(talk)
}

/// As many attaches as there may be fids, from 0 on.
fn attaches(alloc: Global) -> Result<Talk, AllocError> {
    let mut talk = Talk::new(alloc);
    talk.say(VERSION.0, VERSION.1)?;
    for fid in 0..1024u32 {
        talk.say(&attach_of(fid), ATTACH.1)?;
    }
    Ok(talk)
}

/// What the top folder tells of its four files.
const FILES: &[u8] =
    b"3\0\0\0\0\0\0\0\0\0\0\0\0\x01\0\0\0\0\0\0\0\xa4\x01\0\0\x07\0\0\0\x07\0\0\0\0\0\0\0\0\0\0\0\x01\0a\x01\0u\x01\0g\x01\0u3\0\0\0\0\0\0\0\0\0\0\0\0\x02\0\0\0\0\0\0\0\x80\x01\0\0\x09\0\0\0\x09\0\0\0\x03\0\0\0\0\0\0\0\x01\0b\x01\0u\x01\0g\x01\0u3\0\0\0\0\0\0\0\x80\0\0\0\0\x03\0\0\0\0\0\0\0\xed\x01\0\x80\x0b\0\0\0\x0b\0\0\0\0\0\0\0\0\0\0\0\x01\0d\x01\0u\x01\0g\x01\0u3\0\0\0\0\0\0\0\x80\0\0\0\0\x05\0\0\0\0\0\0\0\xed\x01\0\x80\x0b\0\0\0\x0b\0\0\0\0\0\0\0\0\0\0\0\x01\0e\x01\0u\x01\0g\x01\0u";

/// What a client begins with: a version, the top folder's fid, and that it is opened.
const VERSION: Row = (
    b"\x13\0\0\0d\xff\xff\0 \0\0\x06\09P2000",
    b"\x13\0\0\0e\xff\xff\0 \0\0\x06\09P2000",
);

const ATTACH: Row = (
    b"\x14\0\0\0h\x01\0\x01\0\0\0\xff\xff\xff\xff\x01\0u\0\0",
    b"\x14\0\0\0i\x01\0\x80\0\0\0\0\0\0\0\0\0\0\0\0",
);

const OPEN: Row = (
    b"\x0c\0\0\0p\x01\0\x01\0\0\0\0",
    b"\x18\0\0\0q\x01\0\x80\0\0\0\0\0\0\0\0\0\0\0\0\xe8\x1f\0\0",
);

/// A read that has no room for one file.
const SMALL: &[u8] = b"\x18\0\0\0k\x01\0\x0f\0count too small";

/// Where fids 0 to 1,023 are set, before and behind a clunk.
const FULL: &[Row] = &[
    (
        b"\x14\0\0\0h\x01\0\0\x04\0\0\xff\xff\xff\xff\x01\0u\0\0",
        b"\x16\0\0\0k\x01\0\x0d\0too many fids",
    ),
    (
        b"\x11\0\0\0n\x01\0\0\0\0\0\0\x04\0\0\0\0",
        b"\x16\0\0\0k\x01\0\x0d\0too many fids",
    ),
    (
        b"\x11\0\0\0n\x01\0\0\0\0\0\0\0\0\0\0\0",
        b"\x09\0\0\0o\x01\0\0\0",
    ),
    (b"\x0b\0\0\0x\x01\0\x05\0\0\0", b"\x07\0\0\0y\x01\0"),
    (
        b"\x11\0\0\0n\x01\0\0\0\0\0\0\x04\0\0\0\0",
        b"\x09\0\0\0o\x01\0\0\0",
    ),
];

/// What has no room in messages of 259 bytes is told in those of 260.
const WIDE: &[Row] = &[
    (
        b"\x13\0\0\0d\xff\xff\x03\x01\0\0\x06\09P2000",
        b"\x13\0\0\0e\xff\xff\x03\x01\0\0\x06\09P2000",
    ),
    (
        b"\x14\0\0\0h\x01\0\x01\0\0\0\xff\xff\xff\xff\x01\0u\0\0",
        b"\x14\0\0\0i\x01\0\x80\0\0\0\0\0\0\0\0\0\0\0\0",
    ),
    (
        b"\x14\0\0\0n\x01\0\x01\0\0\0\x02\0\0\0\x01\0\x01\0n",
        b"\x16\0\0\0o\x01\0\x01\0\0\0\0\0\0\x01\0\0\0\0\0\0\0",
    ),
    (
        b"\x0b\0\0\0|\x01\0\x02\0\0\0",
        b"\x18\0\0\0k\x01\0\x0f\0count too small",
    ),
    (
        b"\x0c\0\0\0p\x01\0\x01\0\0\0\0",
        b"\x18\0\0\0q\x01\0\x80\0\0\0\0\0\0\0\0\0\0\0\0\xeb\0\0\0",
    ),
    (
        b"\x17\0\0\0t\x01\0\x01\0\0\0\0\0\0\0\0\0\0\0\0 \0\0",
        b"\x18\0\0\0k\x01\0\x0f\0count too small",
    ),
    (
        b"\x13\0\0\0d\xff\xff\x04\x01\0\0\x06\09P2000",
        b"\x13\0\0\0e\xff\xff\x04\x01\0\0\x06\09P2000",
    ),
    (
        b"\x14\0\0\0h\x01\0\x01\0\0\0\xff\xff\xff\xff\x01\0u\0\0",
        b"\x14\0\0\0i\x01\0\x80\0\0\0\0\0\0\0\0\0\0\0\0",
    ),
    (
        b"\x14\0\0\0n\x01\0\x01\0\0\0\x02\0\0\0\x01\0\x01\0n",
        b"\x16\0\0\0o\x01\0\x01\0\0\0\0\0\0\x01\0\0\0\0\0\0\0",
    ),
    (
        b"\x0b\0\0\0|\x01\0\x02\0\0\0",
        b"\x04\x01\0\0}\x01\0\xfb\0\xf9\0\0\0\0\0\0\0\0\0\0\0\0\x01\0\0\0\0\0\0\0\xa4\x01\0\0\x07\0\0\0\x07\0\0\0\0\0\0\0\0\0\0\0\x01\0nd\0uuuuuuuuuuuuuuuuuuuuuuuuuuuuuuuuuuuuuuuuuuuuuuuuuuuuuuuuuuuuuuuuuuuuuuuuuuuuuuuuuuuuuuuuuuuuuuuuuuuu\x01\0gd\0uuuuuuuuuuuuuuuuuuuuuuuuuuuuuuuuuuuuuuuuuuuuuuuuuuuuuuuuuuuuuuuuuuuuuuuuuuuuuuuuuuuuuuuuuuuuuuuuuuuu",
    ),
];

/// Where the next call of the store fails, that is at the first walk.
const FAILING: &[Row] = &[
    VERSION,
    ATTACH,
    (
        b"\x14\0\0\0n\x01\0\x01\0\0\0\x02\0\0\0\x01\0\x01\0d",
        b"\x13\0\0\0k\x01\0\x0a\0disk fault",
    ),
    (
        b"\x0b\0\0\0|\x01\0\x02\0\0\0",
        b"\x14\0\0\0k\x01\0\x0b\0unknown fid",
    ),
    (
        b"\x14\0\0\0n\x01\0\x01\0\0\0\x02\0\0\0\x01\0\x01\0b",
        b"\x16\0\0\0o\x01\0\x01\0\0\0\0\0\0\x02\0\0\0\0\0\0\0",
    ),
    (
        b"\x0c\0\0\0p\x01\0\x02\0\0\0\0",
        b"\x18\0\0\0q\x01\0\0\0\0\0\0\x02\0\0\0\0\0\0\0\xe8\x1f\0\0",
    ),
    (
        b"\x17\0\0\0t\x01\0\x02\0\0\0\0\0\0\0\0\0\0\0\x05\0\0\0",
        b"\x16\0\0\0k\x01\0\x0d\0no such block",
    ),
];

/// The top folder is opened, and read by each count.
struct Counts;

impl Case for Counts {
    fn see<B: Blocks>(
        &self,
        alloc: Global,
        view: &mut View,
        blocks: &mut B,
        rows: &mut Rows,
    ) -> Result<(), AllocError> {
        let opened = see_talk(alloc, view, blocks, &[VERSION, ATTACH, OPEN], 100, rows)?;
        rows.is("a failure of an open", opened.failure == None);
        for count in 0..241u32 {
            let talk = reads(alloc, count)?;
            let came = serve_talk(alloc, view, blocks, &talk)?;
            let n = count as usize;
            rows.nth(n, "the replies to reads by this count", came.is_well());
            rows.nth(n, "a failure of a read", came.failure == None);
        }
        Ok(())
    }
}

#[test]
fn a_folder_is_read_by_each_count(rt: HostRuntime) -> Result<(), Fail> {
    see_shown(rt.alloc(), Shown::Small, Vec::new(rt.alloc()), &Counts)
}

/// As many fids are set as there may be, and no more.
struct Fids;

impl Case for Fids {
    fn see<B: Blocks>(
        &self,
        alloc: Global,
        view: &mut View,
        blocks: &mut B,
        rows: &mut Rows,
    ) -> Result<(), AllocError> {
        let talk = attaches(alloc)?;
        let attached = serve_talk(alloc, view, blocks, &talk)?;
        rows.is("the replies to 1,024 attaches", attached.is_well());
        rows.is("a failure of an attach", attached.failure == None);
        let came = see_talk(alloc, view, blocks, FULL, 100, rows)?;
        rows.is("a failure", came.failure == None);
        Ok(())
    }
}

#[test]
fn a_client_has_so_many_fids(rt: HostRuntime) -> Result<(), Fail> {
    see_shown(rt.alloc(), Shown::Small, Vec::new(rt.alloc()), &Fids)
}

/// What is asked over one connection, and why the archive couldn't be read the first time that it
/// couldn't.
#[derive(Clone, Copy)]
struct Told {
    /// All that is asked, and its replies.
    table: &'static [Row],
    failure: Option<Failure>,
}

impl Case for Told {
    fn see<B: Blocks>(
        &self,
        alloc: Global,
        view: &mut View,
        blocks: &mut B,
        rows: &mut Rows,
    ) -> Result<(), AllocError> {
        let came = see_talk(alloc, view, blocks, self.table, 100, rows)?;
        rows.is("the failure", came.failure == self.failure);
        Ok(())
    }
}

#[test]
fn a_message_has_so_many_bytes(rt: HostRuntime) -> Result<(), Fail> {
    let told = Told {
        table: WIDE,
        failure: None,
    };
    see_shown(rt.alloc(), Shown::Wide, Vec::new(rt.alloc()), &told)
}

#[test]
fn a_failure_is_told(rt: HostRuntime) -> Result<(), Fail> {
    // The first failure is kept.
    let told = Told {
        table: FAILING,
        failure: Some(Failure::Fault),
    };
    let calls = calls_of_sample(rt.alloc())?;
    let failing = vec![in rt.alloc(); calls]?;
    see_shown(rt.alloc(), Shown::Small, failing, &told)
}

/// A store that says no to each call, with a text of 300 bytes.
#[derive(Drop)]
struct Refusing {
    /// How often it said no.
    refusals: u64,
}

impl Refusing {
    ghost use Rattle.std.specs.Prelude.{◌≡◌, Some};
    ghost use Rattle.vt_tree.specs.Calls.{with_refusal};

    /// Counts a no, and says it; or that there is no memory for its text.
    fn refuse(&mut self, alloc: Global) -> BlockErr
        ensures { record { faults = 0; refusals = self.new.refusals }
            ≡ with_refusal (Some result) (record { faults = 0; refusals = self.old.refusals }) }
    {
        match Text::copy_of(alloc, &[b'x'; 300]) {
            Ok(text) => {
                self.refusals = self.refusals.saturating_add(1);
                BlockErr::Refused(text)
            }
            Err(AllocError) => BlockErr::NoMemory,
        }
    }
}

impl Scorer for Refusing {
    ghost use Rattle.vt_base.specs.Scores.{short_score, length-short_score, bytes-short_score};

    ghost score_of = { short_score };

    ghost score_len = { length-short_score };

    ghost score_bytes = { bytes-short_score };

    fn score(&self, block: &[u8]) -> Score {
        ShortScorer.score(block)
    }
}

impl Blocks for Refusing {
    ghost use Rattle.std.specs.Prelude.{◌≡◌};
    ghost use Rattle.vt_tree.specs.Calls.{with_refusal, refusal_of};

    ghost does = { λ s call s'. record { faults = 0; refusals = s'.refusals }
        ≡ with_refusal (refusal_of call) (record { faults = 0; refusals = s.refusals }) };

    ghost holds = { λ s m. ⊥ };

    ghost counts = { λ s. record { faults = 0; refusals = s.refusals } };

    ghost tells = { λ s s' call m does held. absurd held };

    ghost synced_is_held = { λ s m held. absurd held };

    ghost write_once = { λ s m held. absurd held };

    ghost counting = { λ s s' call does. does };

    fn get(&mut self, alloc: Global, _kind: Kind, _score: &Score) -> Result<Bytes, BlockErr> {
        Err(self.refuse(alloc))
    }

    fn put(&mut self, alloc: Global, _kind: Kind, _bytes: &[u8]) -> Result<Score, BlockErr> {
        Err(self.refuse(alloc))
    }

    fn sync(&mut self, alloc: Global) -> Result<(), BlockErr> {
        Err(self.refuse(alloc))
    }
}

/// A walk to `d`.
const WALK: &[u8] = b"\x14\0\0\0n\x01\0\x01\0\0\0\x02\0\0\0\x01\0\x01\0d";

/// The text of the store.
const TEXT: &[u8] = &[b'x'; 300];

/// A size of messages that is agreed on, the bytes of an Rerror in front of its text, and how much of
/// the text a message has room for.
const CUTS: &[(Row, &[u8], usize)] = &[
    (
        (
            b"\x13\0\0\0d\xff\xff\0\x01\0\0\x06\09P2000",
            b"\x13\0\0\0e\xff\xff\0\x01\0\0\x06\09P2000",
        ),
        b"\0\x01\0\0k\x01\0\xf7\0",
        247,
    ),
    (
        (
            b"\x13\0\0\0d\xff\xff\x34\x01\0\0\x06\09P2000",
            b"\x13\0\0\0e\xff\xff\x34\x01\0\0\x06\09P2000",
        ),
        b"\x34\x01\0\0k\x01\0\x2b\x01",
        299,
    ),
    (
        (
            b"\x13\0\0\0d\xff\xff\x35\x01\0\0\x06\09P2000",
            b"\x13\0\0\0e\xff\xff\x35\x01\0\0\x06\09P2000",
        ),
        b"\x35\x01\0\0k\x01\0\x2c\x01",
        300,
    ),
];

/// What is asked where the store says no, and what is replied with so much of its text.
fn cut_talk(alloc: Global, version: Row, head: &[u8], len: usize) -> Result<Talk, AllocError> {
    let mut talk = Talk::new(alloc);
    talk.say_all(&[version, ATTACH])?;
    talk.say(WALK, head)?;
    talk.say(b"", TEXT.get(..len).unwrap_or(b""))?;
    Ok(talk)
}

/// A store says no with a long text, which is cut to what a message has room for.
struct Cuts;

impl Case for Cuts {
    fn see<B: Blocks>(
        &self,
        alloc: Global,
        view: &mut View,
        _blocks: &mut B,
        rows: &mut Rows,
    ) -> Result<(), AllocError> {
        let mut refusing = Refusing { refusals: 0 };
        for (n, (version, head, len)) in CUTS.iter().enumerate() {
            let talk = cut_talk(alloc, *version, head, *len)?;
            let came = serve_talk(alloc, view, &mut refusing, &talk)?;
            rows.nth(n, "the text of the error", came.is_well());
            rows.nth(n, "the failure", came.failure == Some(Failure::Refused));
        }
        Ok(())
    }
}

#[test]
fn a_text_is_cut(rt: HostRuntime) -> Result<(), Fail> {
    see_shown(rt.alloc(), Shown::Small, Vec::new(rt.alloc()), &Cuts)
}
