//! A bucket that fills up, its frame byte for byte, and each refusal before those tested later.

use std::test::Fail;
use vt_base::{Entry, Key, Kind, Place, Score};
use vt_bucket::{Bucket, BucketBad, FRAME_LEN, Full, decode};
use vt_model::BUCKET_ROOM;
use vt_rows::Rows;

/// The frame of bucket 7 to the end of its last entry: one score with two types, and another.
const SPELLED: [u8; 103] = *b"VBKT\x00\x00\x00\x07\x00\x03\
    \xa0\x00\x00\x00\x00\x00\x00\x00\x00\x00\x00\x00\x00\x00\x00\x00\x00\x00\x00\x00\
    \x02\x00\x03\x00\x00\x00\x01\x00\x00\x60\x52\
    \xa0\x00\x00\x00\x00\x00\x00\x00\x00\x00\x00\x00\x00\x00\x00\x00\x00\x00\x00\x00\
    \x0d\x00\x03\x00\x00\x00\x01\x00\x00\x60\x29\
    \xb0\x00\x00\x00\x00\x00\x00\x00\x00\x00\x00\x00\x00\x00\x00\x00\x00\x00\x00\x00\
    \x02\x00\x03\x00\x00\x00\x01\x00\x00\x60\x00";

/// The entry of a block of three bytes, whose score begins with these two.
fn entry(first: u8, second: u8, kind: Kind, offset: u32) -> Entry {
    let mut score = [0; 20];
    score[0] = first;
    score[1] = second;
    Entry {
        key: Key {
            score: Score(score),
            kind,
        },
        size: 3,
        place: Place { arena: 1, offset },
    }
}

/// Puts entries in, one after another.
fn put(rows: &mut Rows, bucket: &mut Bucket, entries: &[Entry]) {
    for (row, entry) in entries.iter().enumerate() {
        rows.nth(row, "an entry is put in", bucket.with(*entry) == Ok(()));
    }
}

/// Whether a frame begins with the spelled one, and zeros fill it up.
fn is_spelled(frame: &[u8; FRAME_LEN]) -> (bool, bool) {
    let (front, unused) = frame.split_at(SPELLED.len());
    (front == SPELLED.as_slice(), unused.iter().all(|b| *b == 0))
}

/// Reads a frame, and notes whether it has these entries, among them one that is found, and not the
/// one that it lacks.
fn see_read(
    rows: &mut Rows,
    frame: &[u8; FRAME_LEN],
    entries: &[Entry],
    one: &Entry,
    lacking: &Entry,
) {
    let Ok(again) = decode(frame, 7) else {
        rows.is("the frame is read", false);
        return;
    };
    rows.is("the number that is read", again.number() == 7);
    let are_read = again.entries() == entries;
    rows.is("the entries that are read", are_read);
    let found = again.find(&one.key);
    rows.is("an entry is found under its type", found == Some(*one));
    let found = again.find(&lacking.key);
    rows.is("none is found under another type", found == None);
}

#[test]
fn a_frame_is_spelled_and_read(rt: HostRuntime) -> Result<(), Fail> {
    let high = entry(0xb0, 0, Kind::DIRECTORY, 0x6000);
    let odd = entry(0xa0, 0, Kind::DATA, 0x6029);
    let low = entry(0xa0, 0, Kind::DIRECTORY, 0x6052);
    let lacking = entry(0xb0, 0, Kind::DATA, 0);
    let mut frame = [0xee; FRAME_LEN];
    let mut bucket = Bucket::new(7);
    let mut rows = Rows::new();
    put(&mut rows, &mut bucket, &[high, odd, low]);
    bucket.encode(&mut frame);
    let (is_front, is_filled_up) = is_spelled(&frame);
    rows.is("the frame to the end of its last entry", is_front);
    rows.is("zeros fill the frame up", is_filled_up);
    see_read(&mut rows, &frame, bucket.entries(), &odd, &lacking);
    rows.passes()
}

/// Fills a bucket with entries of one type, not in the order of their keys.
fn fill(rows: &mut Rows, bucket: &mut Bucket) {
    for i in 0..263u16 {
        let score = u32::from(i) * 7 % 263;
        let one = entry((score / 256) as u8, (score % 256) as u8, Kind::DATA, 0x6000);
        rows.nth(i as usize, "an entry is put in", bucket.with(one) == Ok(()));
    }
}

#[test]
fn has_room_for_263(rt: HostRuntime) -> Result<(), Fail> {
    let again = entry(0, 5, Kind::DATA, 0x7000);
    let new = entry(0, 5, Kind::DIRECTORY, 0x6000);
    let mut bucket = Bucket::new(0);
    let mut rows = Rows::new();
    fill(&mut rows, &mut bucket);
    rows.is("the bucket is full", bucket.entries().len() == BUCKET_ROOM);
    rows.is("a further key is refused", bucket.with(new) == Err(Full));
    rows.is(
        "a key that is there is put in again",
        bucket.with(again) == Ok(()),
    );
    let found = bucket.find(&again.key);
    rows.is(
        "the entry that was put in last is found",
        found == Some(again),
    );
    rows.is(
        "there are as many entries",
        bucket.entries().len() == BUCKET_ROOM,
    );
    rows.passes()
}

/// Whether a frame isn't that of bucket 7, for this cause.
fn is_refused(frame: &[u8; FRAME_LEN], bad: BucketBad) -> bool {
    match decode(frame, 7) {
        Ok(_) => false,
        Err(found) => found == bad,
    }
}

fn out_of_order(entry: u16, count: u16) -> BucketBad {
    BucketBad::Order { entry, count }
}

/// Puts the byte of each row at its place in the frame, behind those of the rows above it, and
/// notes whether the refusal is the row's.
fn see_refused(rows: &mut Rows, table: &[(usize, u8, BucketBad)]) {
    let mut frame = [0xee; FRAME_LEN];
    vt_base::fields::put(&mut frame, 0, &SPELLED);
    for (row, (place, byte, bad)) in table.iter().enumerate() {
        if let Some(found) = frame.get_mut(*place) {
            *found = *byte;
        }
        rows.nth(row, "the refusal", is_refused(&frame, *bad));
    }
}

// Each row breaks what is tested before what the rows above it broke.
#[test]
fn refusals_come_in_their_order(rt: HostRuntime) -> Result<(), Fail> {
    let mut rows = Rows::new();
    let table = [
        (72, 0xa0, out_of_order(2, 3)),
        (30, 12, out_of_order(0, 3)),
        (8, 1, out_of_order(0, 259)),
        (9, 8, BucketBad::Count(264)),
        (4, 1, BucketBad::Number(0x0100_0007)),
        (3, 0, BucketBad::Magic(*b"VBK\x00")),
    ];
    see_refused(&mut rows, &table);
    rows.passes()
}
