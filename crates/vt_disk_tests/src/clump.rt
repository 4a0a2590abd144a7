//! The clump of `abc`, byte for byte, and each refusal before those that are tested later.

use std::alloc::Global;
use std::test::Fail;
use vt_base::{Bytes, Kind, Score, Scorer, Sha1Scorer};
use vt_clump::{
    Clump, ClumpBad, Encoding, HEADER_LEN, Packed, block_len, pack, unpack, unpack_block,
};
use vt_rows::Rows;

/// The score of `abc` (FIPS 180-4).
const ABC: Score = Score(
    *b"\xa9\x99\x3e\x36\x47\x06\x81\x6a\xba\x3e\x25\x71\x78\x50\xc2\x6c\x9c\xd0\xd8\x9d",
);

/// The score of `abd`.
const ABD: Score = Score(
    *b"\xcb\x4c\xc2\x8d\xf0\xfd\xbe\x0e\xcf\x9d\x96\x62\xe2\x94\xb1\x18\x09\x2a\x57\x35",
);

/// The clump of `abc`, of type 13, at time 0.
const CLUMP: [u8; 41] = *b"VCLP\x0d\x00\x03\x00\x03\
    \xa9\x99\x3e\x36\x47\x06\x81\x6a\xba\x3e\x25\x71\x78\x50\xc2\x6c\x9c\xd0\xd8\x9d\
    \x01\x00\x00\x00\x00\x00\x00\x00\x00abc";

/// What is packed, as a clump: its type, score and length, and whether its bytes are these.
fn packs(packed: Packed, bytes: &[u8]) -> (u8, Score, u32, bool) {
    let are_bytes = packed.bytes.as_slice() == bytes;
    (packed.kind.wire(), packed.score, packed.len, are_bytes)
}

#[test]
fn a_block_is_packed(rt: HostRuntime) -> Result<(), Fail> {
    let score = Sha1Scorer.score(b"abc");
    let found = packs(pack(rt.alloc(), Kind::DATA, b"abc", score, 0)?, &CLUMP);
    let mut rows = Rows::new();
    rows.is(
        "the type, score, length and bytes of the clump",
        found == (13, ABC, 3, true),
    );
    rows.passes()
}

/// What a clump tells: its type, score and time, and whether its block is this one.
type Told = (u8, Score, u32, bool);

fn told(clump: Clump, block: &[u8]) -> Told {
    let is_block = clump.bytes.as_slice() == block;
    (clump.kind.wire(), clump.score, clump.time, is_block)
}

#[test]
fn a_clump_is_read_whatever_its_creator_and_what_follows(rt: HostRuntime) -> Result<(), Fail> {
    let mut bytes = [0xee; 50];
    vt_base::fields::put(&mut bytes, 0, &CLUMP);
    vt_base::fields::put(&mut bytes, 30, b"\x01\x02\x03\x04\x65\x80\x00\x00");
    let found = told(unpack(rt.alloc(), &bytes, &Sha1Scorer)?, b"abc");
    let mut rows = Rows::new();
    rows.is(
        "the type, score, time and block of the clump",
        found == (13, ABC, 0x6580_0000, true),
    );
    rows.passes()
}

/// Whether the header of `abc` and this block, which is handed in and becomes the clump's own, are a
/// clump that tells this, or none for this cause.
fn is_taken(alloc: Global, block: &[u8], wanted: Result<Told, ClumpBad>) -> bool {
    let mut header = [0; HEADER_LEN];
    header.copy_from_slice(&CLUMP[..HEADER_LEN]);
    let Ok(bytes) = Bytes::copy_of(alloc, block) else {
        return false;
    };
    if bytes.len() > block_len(&header) as usize {
        return false;
    }
    match unpack_block(&header, bytes, &Sha1Scorer) {
        Ok(clump) => Ok(told(clump, block)) == wanted,
        Err(bad) => Err(bad) == wanted,
    }
}

/// Notes of each row whether it is what becomes of its block.
fn see_taken(rows: &mut Rows, alloc: Global, table: &[(&[u8], Result<Told, ClumpBad>)]) {
    for (row, (block, wanted)) in table.iter().enumerate() {
        let is_it = is_taken(alloc, block, *wanted);
        rows.nth(row, "the clump, or the refusal", is_it);
    }
}

#[test]
fn a_block_is_taken_over(rt: HostRuntime) -> Result<(), Fail> {
    let mut rows = Rows::new();
    let table = [
        (b"abc".as_slice(), Ok((13, ABC, 0, true))),
        (b"ab".as_slice(), Err(bad_size(2, 3))),
        (b"abd".as_slice(), Err(OTHER_SCORE)),
    ];
    see_taken(&mut rows, rt.alloc(), &table);
    rows.passes()
}

/// The block has the score of `abd` in place of that of `abc`.
const OTHER_SCORE: ClumpBad = ClumpBad::Score {
    want: ABC,
    found: ABD,
};

fn bad_size(want: u16, found: u16) -> ClumpBad {
    ClumpBad::Size { want, found }
}

/// Whether bytes begin with no clump, for this cause.
fn is_refused(alloc: Global, bytes: &[u8], bad: ClumpBad) -> bool {
    match unpack(alloc, bytes, &Sha1Scorer) {
        Ok(_clump) => false,
        Err(found) => found == bad,
    }
}

/// Puts the byte of each row at its place in the clump of `abc`, behind those of the rows above it,
/// and notes whether the refusal is the row's.
fn see_refused(rows: &mut Rows, alloc: Global, table: &[(usize, u8, ClumpBad)]) {
    let mut bytes = CLUMP;
    for (row, (place, byte, bad)) in table.iter().enumerate() {
        if let Some(found) = bytes.get_mut(*place) {
            *found = *byte;
        }
        let is_it = is_refused(alloc, &bytes, *bad);
        rows.nth(row, "the refusal", is_it);
    }
}

// Each row breaks one more field, from the last that is tested to the first.
#[test]
fn refusals_come_in_their_order(rt: HostRuntime) -> Result<(), Fail> {
    let mut rows = Rows::new();
    let table = [
        (40, b'd', OTHER_SCORE),
        (6, 4, bad_size(4, 3)),
        (8, 4, bad_size(3, 4)),
        (5, 0xe0, bad_size(0xe004, 4)),
        (7, 0xe0, bad_size(57_344, 0xe004)),
        (29, 0, ClumpBad::Encoding(Encoding::Unknown(0))),
        (29, 2, ClumpBad::Encoding(Encoding::Compressed)),
        (4, 10, ClumpBad::Kind(10)),
        (0, b'v', ClumpBad::Magic(*b"vCLP")),
    ];
    see_refused(&mut rows, rt.alloc(), &table);
    rows.passes()
}

#[test]
fn a_clump_that_is_cut_or_empty_is_refused(rt: HostRuntime) -> Result<(), Fail> {
    let mut empty = CLUMP;
    vt_base::fields::put(&mut empty, 5, &[0; 4]);
    let is_short = is_refused(rt.alloc(), &CLUMP[..37], ClumpBad::Short);
    let is_empty = is_refused(rt.alloc(), &empty, bad_size(1, 0));
    let mut rows = Rows::new();
    rows.is("the refusal of less than a header", is_short);
    rows.is("the refusal of a clump of no bytes", is_empty);
    rows.passes()
}
