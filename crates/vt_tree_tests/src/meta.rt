//! A folder's metadata byte for byte, and each flaw with its place.

ghost use Rattle.vac_meta.specs.Records.{IsItemName};

use std::alloc::{AllocError, Global};
use std::test::Fail;
use vac_meta::{MetaErr, Record, RecordCause, RecordKind, decode, encode};
use vt_base::Text;
use vt_rows::Rows;

/// The records of the empty file `a` and the folder `d`.
const SPELLED: [u8; 60] = *b"\
    \x00\x01a\x00\x00\x00\x00\x00\x00\x00\x01\xa4\x00\x00\x00\x00\x00\x00\x00\x00\x00\x00\x00\x01\
    \x00\x01u\x00\x01g\
    \x00\x01d\x01\x00\x00\x00\x01\x00\x00\x01\xed\x00\x00\x00\x05\x00\x00\x00\x00\x00\x00\x00\x02\
    \x00\x01u\x00\x01g";

/// Puts the record of an item of this name, of user `u` and group `g`, behind others.
fn add(
    alloc: Global,
    metadata: &mut Vec<u8>,
    name: &[u8],
    kind: RecordKind,
    numbers: [u32; 4],
) -> Result<(), AllocError>
    requires { IsItemName name.now }
{
    let [entry, mode, mtime, qid] = numbers;
    let record = Record {
        name: Text::copy_of(alloc, name)?,
        kind,
        entry,
        mode,
        mtime,
        qid: u64::from(qid),
        uid: Text::copy_of(alloc, b"u")?,
        gid: Text::copy_of(alloc, b"g")?,
    };
    encode(&record, metadata)
}

#[test]
fn metadata_is_spelled(rt: HostRuntime) -> Result<(), Fail> {
    let mut bytes = Vec::new(rt.alloc());
    add(
        rt.alloc(),
        &mut bytes,
        b"a",
        RecordKind::File,
        [0, 0o644, 0, 1],
    )?;
    add(
        rt.alloc(),
        &mut bytes,
        b"d",
        RecordKind::Folder,
        [1, 0o755, 5, 2],
    )?;
    let mut rows = Rows::new();
    rows.is(
        "the bytes of two records",
        bytes.as_slice() == SPELLED.as_slice(),
    );
    rows.passes()
}

/// The second of two records is that of the folder.
fn see_records(records: &[Record], rows: &mut Rows) {
    let [_, last] = records else {
        rows.is("how many records there are", false);
        return;
    };
    rows.is("the last name", last.name.as_slice() == b"d".as_slice());
    rows.is("the last kind", last.kind == RecordKind::Folder);
    rows.is("the last entry", last.entry == 1);
    rows.is("the last mode", last.mode == 0o755);
    rows.is("the last time", last.mtime == 5);
    rows.is("the last number", last.qid == 2);
}

#[test]
fn metadata_is_read(rt: HostRuntime) -> Result<(), Fail> {
    let mut rows = Rows::new();
    let records = decode(rt.alloc(), &SPELLED)?;
    see_records(records.as_slice(), &mut rows);
    rows.passes()
}

/// Why so many bytes of the two records, one of them changed, aren't read.
fn refusal(alloc: Global, len: usize, at: usize, byte: u8) -> Option<MetaErr> {
    let mut bytes = SPELLED;
    if let Some(there) = bytes.get_mut(at) {
        *there = byte;
    }
    match decode(alloc, &bytes[..len.min(60)]) {
        Ok(_) => None,
        Err(bad) => Some(bad),
    }
}

/// How many bytes there are, which one is changed, and the flaw and its place.
type Row = (usize, usize, u8, usize, RecordCause);

const FLAWS: &[Row] = &[
    (1, 0, 0, 1, RecordCause::Cut),
    (2, 0, 0, 2, RecordCause::Cut),
    (3, 0, 0, 3, RecordCause::Cut),
    (23, 0, 0, 23, RecordCause::Cut),
    (25, 0, 0, 25, RecordCause::Cut),
    (29, 0, 0, 29, RecordCause::Cut),
    (31, 0, 0, 31, RecordCause::Cut),
    (59, 0, 0, 59, RecordCause::Cut),
    (60, 0, 1, 0, RecordCause::NameLength),
    (60, 1, 0, 0, RecordCause::NameLength),
    (60, 2, b'/', 2, RecordCause::NameByte),
    (60, 2, 0, 2, RecordCause::NameByte),
    (60, 3, 2, 3, RecordCause::Kind),
    (60, 24, 1, 24, RecordCause::OwnerLength),
    (60, 27, 1, 27, RecordCause::OwnerLength),
    (60, 32, b'a', 30, RecordCause::Order),
    (60, 32, b'Z', 30, RecordCause::Order),
    (60, 33, 9, 33, RecordCause::Kind),
    (2, 0, 1, 0, RecordCause::NameLength),
    (4, 2, b'/', 2, RecordCause::NameByte),
    (4, 3, 2, 3, RecordCause::Kind),
    (33, 32, b'a', 30, RecordCause::Order),
    (59, 57, 1, 57, RecordCause::OwnerLength),
];

/// Each flaw is told, with its place.
fn see_flaws(alloc: Global, rows: &mut Rows) {
    for (n, (len, at, byte, place, why)) in FLAWS.iter().enumerate() {
        let wanted = MetaErr::Bad {
            at: *place,
            why: *why,
        };
        let found = refusal(alloc, *len, *at, *byte);
        rows.nth(n, "the flaw and its place", found == Some(wanted));
    }
}

#[test]
fn flaws_have_their_places(rt: HostRuntime) -> Result<(), Fail> {
    let mut rows = Rows::new();
    rows.is("no bytes", refusal(rt.alloc(), 0, 0, 0) == None);
    see_flaws(rt.alloc(), &mut rows);
    rows.passes()
}
