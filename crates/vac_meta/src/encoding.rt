//! From a record to its bytes.

ghost use Rattle.std.specs.Prelude.{◌≡◌, ◌+◌, ◌≤◌, ◌++◌, true, List, [], ◌∷◌, length, take};
ghost use Rattle.std.specs.Prelude.{OnOk, OnErr};
ghost use Rattle.vac_meta.specs.declared.TheConstants.{MAX_NAME};
ghost use Rattle.vac_meta.specs.declared.record.Record.{Record};
ghost use Rattle.vac_meta.specs.Records.{FitsRecord, HasRanges, SpellsMetadata, is_next, last_name};
ghost use Rattle.vac_meta.specs.Records.{kind_byte, number_fields, record_bytes, string};

use crate::{Record, RecordKind};
use std::alloc::AllocError;
use vt_base::fields::{put, put_u8, put_u16, put_u32, put_u64};

/// The most bytes of a record.
const MAX_RECORD: usize = 792;

/// Puts the bytes of a record behind those of others. Its name is 1 to 255 bytes without a slash or
/// zero; its uid and gid have at most 255 bytes. Records of a folder stand in the order of their
/// names.
pub fn encode(item: &Record, metadata: &mut Vec<u8>) -> Result<(), AllocError>
    requires { FitsRecord item.now }
    ensures written { OnOk result
        (metadata.new.items ≡ metadata.old.items ++ record_bytes item.now) }
    ensures spells { OnOk result ((before : List Record) → SpellsMetadata before metadata.old.items
        →
        is_next (last_name None before) item.now.name ≡ true →
        SpellsMetadata (before ++ item.now ∷ []) metadata.new.items) }
    ensures unchanged { OnErr result (metadata.new.items ≡ metadata.old.items) }
{
    let mut bytes = [0; MAX_RECORD];
    let len = put_record(&mut bytes, item);
    metadata.extend_from_slice(&bytes[..len])?;
    Ok(())
}

/// Writes a record to the front of the buffer, and gives its length.
fn put_record(buf: &mut [u8], item: &Record) -> usize
    requires fits { FitsRecord item.now }
    requires room { MAX_RECORD ≤ length buf.old }
    ensures ranges { HasRanges item.now }
    ensures most { result ≤ MAX_RECORD }
    ensures written { take result buf.new ≡ record_bytes item.now }
{
    let at = put_string(buf, 0, item.name.as_slice());
    let at = put_numbers(buf, at, item);
    let at = put_string(buf, at, item.uid.as_slice());
    put_string(buf, at, item.gid.as_slice())
}

/// Writes the kind and the numbers of a record at this place, and gives the place behind them.
fn put_numbers(buf: &mut [u8], at: usize, item: &Record) -> usize
    requires { at + 21 ≤ length buf.old }
    ensures ranges { HasRanges item.now }
    ensures end { result ≡ at + 21 }
    ensures written { take result buf.new ≡ take at buf.old ++ number_fields item.now }
{
    let at = put_u8(buf, at, kind_byte(item.kind));
    let at = put_u32(buf, at, item.entry);
    let at = put_u32(buf, at, item.mode);
    let at = put_u32(buf, at, item.mtime);
    put_u64(buf, at, item.qid)
}

/// The byte of a kind.
fn kind_byte(kind: RecordKind) -> u8
    ensures { result ≡ kind_byte kind }
{
    match kind {
        RecordKind::File => 0,
        RecordKind::Folder => 1,
    }
}

/// Writes a string at this place, and gives the place behind it.
fn put_string(buf: &mut [u8], at: usize, text: &[u8]) -> usize
    requires short { length text.now ≤ MAX_NAME }
    requires room { at + length (string text.now) ≤ length buf.old }
    ensures end { result ≡ at + length (string text.now) }
    ensures written { take result buf.new ≡ take at buf.old ++ string text.now }
{
    let at = put_u16(buf, at, text.len() as u16);
    put(buf, at, text)
}
