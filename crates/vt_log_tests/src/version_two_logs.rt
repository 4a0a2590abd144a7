//! Logs whose first arena is of version 2 and was spelled by hand: what is in it is read and walked, and
//! nothing goes behind it before it is sealed.

use crate::arena::{ABC, ABD};
use crate::disks::Crash;
use crate::logs::{MadeLog, TestLog, Write};
use crate::version_two::{DIRECTORY, FIRST, HEAD, SECOND};
use std::alloc::Global;
use std::test::Fail;
use vt_arena::BackBad;
use vt_base::{FieldValue, Info, Key, Kind, Place, Score, Scorer, Sha1Scorer};
use vt_clump::pack;
use vt_log::Progress;
use vt_rows::Rows;

/// The length of a partition of two arenas.
const TWO: u64 = 73_728;

/// Where its arena has the frames of a head.
const FRAMES: [u64; 2] = [0, 8_192];

/// Where the two blocks stand, and the first one of the arena behind theirs.
const AT_FIRST: Place = Place {
    arena: 0,
    offset: 24_576,
};

const AT_SECOND: Place = Place {
    arena: 0,
    offset: 25_088,
};

const NEXT: Place = Place {
    arena: 1,
    offset: 24_576,
};

/// Bytes of the first arena.
const fn over(at: u64, bytes: &[u8]) -> Write<'_> {
    Write {
        arena: 0,
        at,
        bytes,
    }
}

/// The head of arena 0 in version 2, with these bytes behind its number.
fn head(behind: &[u8; 13]) -> [u8; 47] {
    let mut head = HEAD;
    head[9] = 0;
    head[10..23].copy_from_slice(behind);
    head
}

/// It has both blocks and isn't sealed, or is.
const OPEN: [u8; 13] = *b"\x00\x00\x00\x00\x02\x00\x00\x00\x00\x00\x00\x04\x00";

const SEALED: [u8; 13] = *b"\x01\x00\x00\x00\x02\x00\x00\x00\x00\x00\x00\x04\x00";

/// A log of two arenas, of which the first has this head, both clumps, and this.
fn spelled<T: TestLog>(alloc: Global, head: &[u8], more: Write) -> Option<T> {
    let clean: T = T::made(alloc, TWO, &[])?;
    clean.with(
        alloc,
        &[
            over(24_576, &FIRST),
            over(25_088, &SECOND),
            over(FRAMES[0], head),
            over(FRAMES[1], head),
            more,
        ],
    )
}

/// The key of a block of type 13.
fn key_of(block: &[u8]) -> Key {
    Key {
        score: Sha1Scorer.score(block),
        kind: Kind::DATA,
    }
}

/// Whether the block of three bytes at a place is this one.
fn is_read<T: TestLog>(alloc: Global, log: &mut T, place: Place, block: &[u8]) -> bool {
    match log.find(alloc, place, 3, &key_of(block)) {
        Ok(found) => found.as_slice() == block,
        Err(_) => false,
    }
}

/// The place that a block of three bytes is given, if there is room.
fn added<T: TestLog>(alloc: Global, log: &mut T, block: &[u8; 3]) -> Option<Option<Place>> {
    let packed = pack(alloc, Kind::DATA, block, Sha1Scorer.score(block), 0).ok()?;
    log.add(packed)
}

/// Whether all that is queued is committed.
fn is_committed<T: TestLog>(log: &mut T) -> bool {
    for _ in 0..log.told().owed {
        match log.step() {
            Ok(Progress::Idle) => return true,
            Ok(_) => {}
            Err(_) => return false,
        }
    }
    log.told().owed == 0
}

/// Whether a walk gives blocks at these places with these scores, the last one first.
fn gives<T: TestLog>(alloc: Global, log: &mut T, blocks: &[(Key, Place)]) -> bool {
    let mut infos: Vec<Info> = Vec::new(alloc);
    if !log.walk(&mut infos) || infos.len() != blocks.len() {
        return false;
    }
    for (number, (key, place)) in blocks.iter().enumerate() {
        let info = infos[number];
        if info.key != *key || info.place != *place || info.size != 3 {
            return false;
        }
    }
    true
}

// ---- an open one

/// What is in it is read and walked, and no more goes behind it.
fn open<T: TestLog>(alloc: Global) -> Rows {
    let mut rows = Rows::new();
    let Some(mut log) = spelled::<T>(alloc, &head(&OPEN), over(10, &[0])) else {
        rows.is("it is mounted", false);
        return rows;
    };
    rows.is(
        "two blocks",
        log.told().front == 2 && log.told().durable == 2,
    );
    rows.is(
        "its head",
        log.head_of(0) == Some((false, 2)) && log.version(0) == Some(2),
    );
    rows.is(
        "the first is read",
        is_read(alloc, &mut log, AT_FIRST, b"abc"),
    );
    rows.is(
        "the second is read",
        is_read(alloc, &mut log, AT_SECOND, b"abd"),
    );
    rows.is("both are walked", gives(alloc, &mut log, &both()));
    rows.is(
        "no block has room",
        added(alloc, &mut log, b"abe") == Some(None),
    );
    rows.is(
        "nothing is owed",
        log.told().owed == 0 && log.told().front == 2,
    );
    rows.is(
        "they are read still",
        is_read(alloc, &mut log, AT_FIRST, b"abc"),
    );
    rows
}

/// Both blocks, the last one first.
fn both() -> [(Key, Place); 2] {
    [(keyed(ABD), AT_SECOND), (keyed(ABC), AT_FIRST)]
}

/// The key of a block of type 13 with this score.
fn keyed(score: Score) -> Key {
    Key {
        score,
        kind: Kind::DATA,
    }
}

#[test]
fn an_open_arena_of_version_2_takes_no_more(rt: HostRuntime) -> Result<(), Fail> {
    open::<MadeLog>(rt.alloc()).all()?;
    Ok(())
}

// ---- one without blocks

/// The head of arena 0 in version 2 without blocks.
const EMPTY: [u8; 47] = *b"VARN\x00\x02\x00\x00\x00\x00\x00\x00\x00\x00\x00\
    \x00\x00\x00\x00\x00\x00\x00\x00\
    \x00\x00\x00\x00\x00\x00\x00\x00\x00\x00\x00\x00\x00\x00\x00\x00\x00\x00\x00\x00\
    \x00\x00\x00\x00";

/// Its first commit makes it one of version 1.
fn fill_empty<T: TestLog>(alloc: Global) -> Rows {
    let mut rows = Rows::new();
    let Some(mut log) = spelled::<T>(alloc, &EMPTY, over(10, &[0])) else {
        rows.is("it is mounted", false);
        return rows;
    };
    rows.is(
        "no block",
        log.told().front == 0 && log.version(0) == Some(2),
    );
    rows.is(
        "a block has room",
        added(alloc, &mut log, b"abc") == Some(Some(AT_FIRST)),
    );
    rows.is("it is committed", is_committed(&mut log));
    rows.is(
        "its head",
        log.head_of(0) == Some((false, 1)) && log.version(0) == Some(1),
    );
    let Some(mut log) = log.again(alloc, Crash::None) else {
        rows.is("it is mounted again", false);
        return rows;
    };
    rows.is(
        "its head is there",
        log.version(0) == Some(1) && log.told().durable == 1,
    );
    rows.is(
        "the block is read",
        is_read(alloc, &mut log, AT_FIRST, b"abc"),
    );
    rows
}

#[test]
fn an_empty_arena_of_version_2_becomes_one_of_version_1(rt: HostRuntime) -> Result<(), Fail> {
    fill_empty::<MadeLog>(rt.alloc()).all()?;
    Ok(())
}

// ---- a sealed one

/// The next arena takes more, and a walk goes on from that to this one.
fn go_behind<T: TestLog>(alloc: Global) -> Rows {
    let mut rows = Rows::new();
    let Some(mut log) = spelled::<T>(alloc, &head(&SEALED), over(32_718, &DIRECTORY)) else {
        rows.is("it is mounted", false);
        return rows;
    };
    rows.is(
        "its head",
        log.head_of(0) == Some((true, 2)) && log.version(0) == Some(2),
    );
    rows.is(
        "a block has room",
        added(alloc, &mut log, b"abe") == Some(Some(NEXT)),
    );
    rows.is("it is committed", is_committed(&mut log));
    rows.is(
        "the next head",
        log.head_of(1) == Some((false, 1)) && log.version(1) == Some(1),
    );
    let blocks = [
        (key_of(b"abe"), NEXT),
        (keyed(ABD), AT_SECOND),
        (keyed(ABC), AT_FIRST),
    ];
    rows.is("all are walked", gives(alloc, &mut log, &blocks));
    rows.is(
        "those of version 2 are read",
        is_read(alloc, &mut log, AT_SECOND, b"abd"),
    );
    rows
}

#[test]
fn blocks_go_behind_a_sealed_arena_of_version_2(rt: HostRuntime) -> Result<(), Fail> {
    go_behind::<MadeLog>(rt.alloc()).all()?;
    Ok(())
}

// ---- a damaged header

const fn damaged(want: u128, found: u128) -> BackBad {
    BackBad::Damaged {
        want: FieldValue::Number(want),
        found: FieldValue::Number(found),
    }
}

/// A walk ends at the header that is damaged.
fn walk_damaged<T: TestLog>(alloc: Global) -> Rows {
    let mut rows = Rows::new();
    let last = spelled::<T>(alloc, &head(&OPEN), over(25_092, b"\x0c"));
    let stops = last.and_then(|mut log| log.stops());
    rows.is("the last one", stops == Some((0, damaged(13, 12))));
    let first = spelled::<T>(alloc, &head(&OPEN), over(24_606, b"\x00\x00\x00\x01"));
    let stops = first.and_then(|mut log| log.stops());
    rows.is("the first one", stops == Some((1, damaged(0, 1))));
    rows
}

#[test]
fn a_walk_of_a_log_ends_at_a_damaged_header(rt: HostRuntime) -> Result<(), Fail> {
    walk_damaged::<MadeLog>(rt.alloc()).all()?;
    Ok(())
}
