//! Scores, block types, texts and keys: vectors from outside, and each call once.

use std::test::Fail;
use vt_base::{
    BadScore, Bytes, Entry, FieldValue, Info, Key, Kind, Place, Score, Scorer, Sha1Scorer,
    ShortScorer, Site, Text, Why, parse_score, score_text, why_text,
};
use vt_rows::Rows;

/// The digests of FIPS 180-4's examples, and of no bytes.
const DIGESTS: [(&str, &[u8], [u8; 20]); 3] = [
    (
        "SHA-1 of abc",
        b"abc",
        *b"\xa9\x99\x3e\x36\x47\x06\x81\x6a\xba\x3e\x25\x71\x78\x50\xc2\x6c\x9c\xd0\xd8\x9d",
    ),
    (
        "SHA-1 of no bytes",
        b"",
        *b"\xda\x39\xa3\xee\x5e\x6b\x4b\x0d\x32\x55\xbf\xef\x95\x60\x18\x90\xaf\xd8\x07\x09",
    ),
    (
        "SHA-1 of two blocks",
        b"abcdbcdecdefdefgefghfghighijhijkijkljklmklmnlmnomnopnopq",
        *b"\x84\x98\x3e\x44\x1c\x3b\xd2\x6e\xba\xae\x4a\xa1\xf9\x51\x29\xe5\xe5\x46\x70\xf1",
    ),
];

#[test]
fn scores() -> Result<(), Fail> {
    let abc = DIGESTS[0].2;
    let mut short = [0; 20];
    short[0] = b'a';
    let mut rows = Rows::new();
    for (row, (what, block, digest)) in DIGESTS.iter().enumerate() {
        rows.nth(row, *what, Sha1Scorer.score(block) == Score(*digest));
    }
    rows.is(
        "SHA-1 by a borrowed scorer",
        (&Sha1Scorer).score(b"abc") == Score(abc),
    );
    rows.is(
        "the short score of no bytes",
        ShortScorer.score(b"") == Score([0; 20]),
    );
    rows.is(
        "the short score of abc",
        ShortScorer.score(b"abc") == Score(short),
    );
    rows.passes()
}

/// The number that the block type of this number has, if it is one.
fn wire_again(number: u8) -> Option<u8> {
    match Kind::from_wire(number) {
        Some(kind) => Some(kind.wire()),
        None => None,
    }
}

/// The block types of venti(6).
#[test]
fn kinds() -> Result<(), Fail> {
    let mut rows = Rows::new();
    for number in 0..=255u8 {
        let is_one = (1..=9).contains(&number) || number == 13;
        rows.nth(
            number as usize,
            "the block type of this number",
            wire_again(number) == is_one.then_some(number),
        );
    }
    rows.is("the number of a root", Kind::ROOT.wire() == 1);
    rows.is("the number of a directory", Kind::DIRECTORY.wire() == 2);
    rows.is("the number of data", Kind::DATA.wire() == 13);
    rows.passes()
}

/// A clump is damaged. Its text doesn't tell where, nor the values.
const DAMAGE: Why = Why::Damaged {
    site: Site::Clump(Place {
        arena: 0,
        offset: 24_576,
    }),
    want: FieldValue::Number(1),
    found: FieldValue::Number(2),
};

/// The texts of the refusals.
const TEXTS: [(Why, &str); 11] = [
    (Why::BadType, "bad type"),
    (Why::TooBig, "block too big"),
    (Why::TooSmall, "count too small"),
    (Why::Absent, "no such block"),
    (Why::Collision, "score collision"),
    (Why::IndexFull, "index full"),
    (Why::ArenasFull, "arenas full"),
    (Why::DiskFault, "disk fault"),
    (Why::Stopped(7), "store stopped"),
    (DAMAGE, "block damaged"),
    (Why::NoMemory, "no memory"),
];

/// A row that doesn't hold is told by the text that it should have.
#[test]
fn texts() -> Result<(), Fail> {
    let mut rows = Rows::new();
    for (row, (why, text)) in TEXTS.iter().enumerate() {
        rows.nth(row, *text, why_text(why) == *text);
    }
    rows.passes()
}

/// What a copy of `abc` tells.
fn bytes_rows(bytes: Bytes) -> Rows {
    let mut rows = Rows::new();
    rows.is("a copy of bytes", bytes.as_slice() == b"abc".as_slice());
    rows.is("how many bytes there are", bytes.len() == 3);
    rows.is("whether there are no bytes", !bytes.is_empty());
    let content = Bytes::from_vec(bytes.into_vec()).into_vec();
    rows.is(
        "the bytes given back",
        content.as_slice() == b"abc".as_slice(),
    );
    rows
}

/// What a copy of `main` tells.
fn text_rows(text: Text) -> Rows {
    let mut rows = Rows::new();
    rows.is("a copy of text", text.as_slice() == b"main".as_slice());
    rows.is("how long the text is", text.len() == 4);
    rows.is("whether the text is empty", !text.is_empty());
    let content = Text::from_vec(text.into_vec()).into_vec();
    rows.is(
        "the text given back",
        content.as_slice() == b"main".as_slice(),
    );
    rows
}

/// Bytes and text go in and out.
#[test]
fn bytes_and_text(rt: HostRuntime) -> Result<(), Fail> {
    bytes_rows(Bytes::copy_of(rt.alloc(), b"abc")?).all()?;
    text_rows(Text::copy_of(rt.alloc(), b"main")?).passes()
}

const KEY: Key = Key {
    score: Score([1; 20]),
    kind: Kind::DATA,
};

/// A key of a higher score.
const LATER: Key = Key {
    score: Score([2; 20]),
    kind: Kind::ROOT,
};

/// A key of the same score, and of a lower type.
const EARLIER: Key = Key {
    score: Score([1; 20]),
    kind: Kind::ROOT,
};

const PLACE: Place = Place {
    arena: 1,
    offset: 24_576,
};

/// Keys are in order by score, and then by type.
#[test]
fn keys() -> Result<(), Fail> {
    let entry = Entry {
        key: KEY,
        size: 3,
        place: PLACE,
    };
    let info = Info {
        key: KEY,
        size: 3,
        place: PLACE,
        number: 0,
    };
    let mut rows = Rows::new();
    rows.is("a key of a higher score is later", KEY < LATER);
    rows.is("a key of a lower type is earlier", EARLIER < KEY);
    rows.is("the key of an entry", info.key == entry.key);
    rows.is("the size of an entry", info.size == entry.size);
    rows.is("the place of an entry", info.place == entry.place);
    rows.passes()
}

/// A score as text.
#[test]
fn a_score_is_printed(rt: HostRuntime) -> Result<(), Fail> {
    let text = score_text(rt.alloc(), &Sha1Scorer.score(b"abc"))?;
    let digits = b"a9993e364706816aba3e25717850c26c9cd0d89d";
    let mut rows = Rows::new();
    rows.is("the digits of a score", is(text, digits));
    rows.passes()
}

/// Whether a text has these bytes.
fn is(text: Text, bytes: &[u8]) -> bool {
    text.as_slice() == bytes
}

/// The score of `abc` as text, behind a label or without one.
const SPELLED: [&[u8]; 6] = [
    b"a9993e364706816aba3e25717850c26c9cd0d89d",
    b"vac:a9993e364706816aba3e25717850c26c9cd0d89d",
    b"ext2:a9993e364706816aba3e25717850c26c9cd0d89d",
    b"ab:a9993e364706816aba3e25717850c26c9cd0d89d",
    b"0:a9993e364706816aba3e25717850c26c9cd0d89d",
    b"vac:A9993E364706816ABA3E25717850C26C9CD0D89D",
];

/// Texts of no score, and the first byte that can't stand there.
const MISSPELLED: [(&[u8], usize); 10] = [
    (b"", 0),
    (b"a9993e364706816aba3e25717850c26c9cd0d89", 39),
    (b"a9993e364706816aba3e25717850c26c9cd0d89d ", 40),
    (b"VAC:a9993e364706816aba3e25717850c26c9cd0d89d", 0),
    (b":a9993e364706816aba3e25717850c26c9cd0d89d", 0),
    (b"vac::a9993e364706816aba3e25717850c26c9cd0d89d", 4),
    (b"vac:a9993e364706816aba3e25717850c26c9cd0d89g", 43),
    (b"vac:a9993e364706816aba3e25717850c26c9cd0d89d0", 44),
    (b"vac", 0),
    (b"abc", 3),
];

#[test]
fn score_texts() -> Result<(), Fail> {
    let abc = Sha1Scorer.score(b"abc");
    let mut rows = Rows::new();
    for (row, text) in SPELLED.iter().enumerate() {
        rows.nth(row, "the score of a text", parse_score(text) == Ok(abc));
    }
    rows.passes()
}

#[test]
fn texts_of_no_score() -> Result<(), Fail> {
    let mut rows = Rows::new();
    for (row, (text, at)) in MISSPELLED.iter().enumerate() {
        let bad = BadScore { at: *at };
        rows.nth(
            row,
            "the byte that can't stand there",
            parse_score(text) == Err(bad),
        );
    }
    rows.passes()
}

/// A scorer may cross threads, be shared by them, and be let go.
#[test]
fn scorers_are_handed_on() {
    hand_on(Sha1Scorer);
    hand_on(ShortScorer);
}

fn hand_on<S: Scorer + Send + Sync + Drop>(_scorer: S) {}
