//! What a cache keeps, and what goes first.

use std::alloc::Global;
use std::test::Fail;
use vt_base::{Bytes, Key, Kind, Score};
use vt_lumps::Lumps;
use vt_rows::Rows;

/// A key whose score begins with this byte.
fn key(first: u8, kind: Kind) -> Key {
    let mut score = [0; 20];
    score[0] = first;
    Key {
        score: Score(score),
        kind,
    }
}

/// Keeps a block of these bytes. Whether it is kept.
fn keep(lumps: &mut Lumps, alloc: Global, key: &Key, content: &[u8]) -> bool {
    match Bytes::copy_of(alloc, content) {
        Ok(bytes) => lumps.keep(*key, bytes),
        Err(_) => false,
    }
}

/// Whether the block of a key is kept, with these bytes.
fn has(lumps: &Lumps, key: &Key, content: &[u8]) -> bool {
    match lumps.get(key) {
        Some(bytes) => *bytes.as_slice() == *content,
        None => false,
    }
}

/// Whether the block of a key isn't kept.
fn lacks(lumps: &Lumps, key: &Key) -> bool {
    lumps.get(key).is_none()
}

/// Keeps one and two: a kept block is found again, and none of its score under another type.
fn keep_two(rows: &mut Rows, lumps: &mut Lumps, alloc: Global) {
    let one = key(1, Kind::DATA);
    let two = key(2, Kind::DATA);
    rows.is("one is kept", keep(lumps, alloc, &one, b"one"));
    rows.is("two is kept", keep(lumps, alloc, &two, b"two"));
    rows.is("one is found", has(lumps, &one, b"one"));
    rows.is("two is found", has(lumps, &two, b"two"));
    let other = key(1, Kind::DIRECTORY);
    rows.is("one isn't found under another type", lacks(lumps, &other));
    rows.is("three isn't found", lacks(lumps, &key(3, Kind::DATA)));
}

/// Keeps three, behind a touch of one: one that was touched stays, and the other goes.
fn keep_third(rows: &mut Rows, lumps: &mut Lumps, alloc: Global) {
    let one = key(1, Kind::DATA);
    let other = key(1, Kind::DIRECTORY);
    let three = key(3, Kind::DATA);
    rows.is("one is touched", lumps.touch(&one));
    rows.is("one isn't touched under another type", !lumps.touch(&other));
    rows.is("three is kept", keep(lumps, alloc, &three, b"three"));
    rows.is("one stays for three", has(lumps, &one, b"one"));
    rows.is("two goes for three", lacks(lumps, &key(2, Kind::DATA)));
}

/// Keeps one again, and drops all: kept again, it is the most recently used.
fn drop_all(rows: &mut Rows, lumps: &mut Lumps, alloc: Global) {
    let one = key(1, Kind::DATA);
    rows.is("one is kept again", keep(lumps, alloc, &one, b"other"));
    rows.is("the least recently used is dropped", lumps.drop_last());
    rows.is(
        "one stays, as it was kept again",
        has(lumps, &one, b"other"),
    );
    rows.is("three goes", lacks(lumps, &key(3, Kind::DATA)));
    rows.is("the last is dropped", lumps.drop_last());
    rows.is("one goes", lacks(lumps, &one));
    rows.is("none is left to be dropped", !lumps.drop_last());
}

/// Three blocks go into a cache for two, and then all are dropped.
fn keep_three(alloc: Global, mut lumps: Lumps) -> Rows {
    let mut rows = Rows::new();
    rows.is("none is dropped of none", !lumps.drop_last());
    keep_two(&mut rows, &mut lumps, alloc);
    keep_third(&mut rows, &mut lumps, alloc);
    drop_all(&mut rows, &mut lumps, alloc);
    rows
}

/// The same, with a new cache.
fn keep_some(alloc: Global) -> Rows {
    match Lumps::new(alloc, 2) {
        Ok(lumps) => keep_three(alloc, lumps),
        Err(_) => Rows::wrong("memory for the blocks"),
    }
}

#[test]
fn the_least_recently_used_goes(rt: HostRuntime) -> Result<(), Fail> {
    keep_some(rt.alloc()).passes()
}
