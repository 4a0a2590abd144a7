//! From the bytes of a folder's metadata to its records.

ghost use Rattle.std.specs.Prelude.{◌≡◌, ◌+◌, ◌<◌, ◌≤◌, ◌^◌, ◌++◌, ℕ, List, true, Some, length};
ghost use Rattle.std.specs.Prelude.{IfOk, IfErr, MatchResult, position, slice_index};
ghost use Rattle.std.specs.Option.{option_copied};
ghost use Rattle.vac_meta.specs.declared.TheConstants.{MAX_NAME};
ghost use Rattle.vac_meta.specs.declared.error.RecordCause.{RecordCause};
ghost use Rattle.vac_meta.specs.declared.record.Record.{Record};
ghost use Rattle.vac_meta.specs.Flaws.{IsRefusedMetadata, first_flaw};
ghost use Rattle.vac_meta.specs.Flaws.{cut, string_in};
ghost use Rattle.vac_meta.specs.Flaws.{flaw_of_name, flaw_of_numbers, flaw_of_owner};
ghost use Rattle.vac_meta.specs.Records.{IsItemName, IsRecord, SpellsMetadata, is_barred, is_next};
ghost use Rattle.vac_meta.specs.Records.{record_bytes, string};
ghost use Rattle.vac_meta.specs.Found.{found_record};

use crate::{MAX_NAME, MetaErr, Record, RecordCause, RecordKind, Records};
use std::alloc::{AllocError, Global};
use vt_base::Text;
use vt_base::fields::{u16_at, u32_at, u64_at};

/// The records of a folder's metadata, or the first record that can't stand there: the first of its
/// fields that can't, and its place.
pub fn decode(alloc: Global, bytes: &[u8]) -> Result<Records, MetaErr>
    ensures found { IfOk result (λ records. SpellsMetadata records bytes.now) }
    ensures only { (records : List Record) → SpellsMetadata records bytes.now →
        MatchResult result (λ r. r ≡ records) (λ e. e ≡ MetaErr.NoMemory) }
    ensures refused { (at : ℕ) (why : RecordCause) →
        result ≡ Err (MetaErr.Bad at why) → IsRefusedMetadata bytes.now (MetaErr.Bad at why) }
{
    let mut records = Vec::new(alloc);
    let mut last = None;
    let mut rest = bytes;
    while !rest.is_empty() {
        let (found, behind) = record_in_front(rest, bytes.len() - rest.len(), last)?;
        records.push(found.kept(alloc)?)?;
        last = Some(found.name);
        rest = behind;
    }
    Ok(Records::from_vec(records))
}

/// How many bytes the kind and the numbers of a record have.
const NUMBERS_LEN: usize = 21;

const _: () = prove!(NUMBERS_LEN == 21);

/// The fields of a record, which stand in the metadata.
#[derive(Clone, Copy)]
struct Found<'a> {
    name: &'a [u8],
    /// Kind, entry, mode, mtime and qid, as they stand there.
    numbers: &'a [u8; 21],
    uid: &'a [u8],
    gid: &'a [u8],
}

impl<'a> Found<'a> {
    /// The record with copies of its fields, which outlive the metadata.
    fn kept(&self, alloc: Global) -> Result<Record, AllocError>
        requires { length self.now.numbers.now ≡ 21 }
        ensures { IfOk result (λ kept. kept ≡ found_record self.now) }
    {
        let numbers = self.numbers;
        Ok(Record {
            name: Text::copy_of(alloc, self.name)?,
            kind: if numbers[0] == 0 {
                RecordKind::File
            } else {
                RecordKind::Folder
            },
            // (the places of the numbers: docs/FORMATS.md, Metadata of archived folders)
            entry: u32_at(numbers, 1),
            mode: u32_at(numbers, 5),
            mtime: u32_at(numbers, 9),
            qid: u64_at(numbers, 13),
            uid: Text::copy_of(alloc, self.uid)?,
            gid: Text::copy_of(alloc, self.gid)?,
        })
    }
}

/// The record in front of these bytes, at this place and behind one of this name, and what stands
/// behind it. It is refused by the first of its fields that can't stand there.
fn record_in_front<'a>(
    bytes: &'a [u8],
    at: usize,
    last: Option<&[u8]>,
) -> Result<(Found<'a>, &'a [u8]), MetaErr>
    requires { at + length bytes.now < 2 ^ 63 }
    ensures numbers { IfOk result (λ r. length r.0.numbers.now ≡ 21) }
    ensures allowed { IfOk result (λ r. IsRecord (found_record r.0)) }
    ensures next { IfOk result (λ r. is_next (option_copied last.entry) r.0.name.now ≡ true) }
    ensures whole { IfOk result (λ r. bytes.now ≡ record_bytes (found_record r.0) ++ r.1.now) }
    ensures flaw { IfErr result (λ e. first_flaw (option_copied last.entry) at bytes.now ≡ Some e) }
{
    let (name, rest) = name_in_front(bytes, at, last)?;
    // (a name and an owner have two bytes of length in front)
    let at = at + 2 + name.len();
    let (numbers, rest) = numbers_in_front(rest, at)?;
    let at = at + NUMBERS_LEN;
    let (uid, rest) = owner_in_front(rest, at)?;
    let at = at + 2 + uid.len();
    let (gid, rest) = owner_in_front(rest, at)?;
    let found = Found {
        name,
        numbers,
        uid,
        gid,
    };
    Ok((found, rest))
}

/// The name in front of these bytes, at this place and behind this one, and what stands behind it.
/// It is refused where it can't stand there.
fn name_in_front<'a>(
    bytes: &'a [u8],
    at: usize,
    last: Option<&[u8]>,
) -> Result<(&'a [u8], &'a [u8]), MetaErr>
    requires { at + length bytes.now < 2 ^ 63 }
    ensures allowed { IfOk result (λ r. IsItemName r.0.now) }
    ensures next { IfOk result (λ r. is_next (option_copied last.entry) r.0.now ≡ true) }
    ensures whole { IfOk result (λ r. bytes.now ≡ string r.0.now ++ r.1.now) }
    ensures flaw { IfErr result
        (λ e. flaw_of_name (option_copied last.entry) at bytes.now ≡ Some e) }
{
    if bytes.len() < 2 {
        return Err(cut(bytes, at));
    }
    let len = usize::from(u16_at(bytes, 0));
    if len == 0 || len > MAX_NAME {
        return Err(MetaErr::Bad {
            at,
            why: RecordCause::NameLength,
        });
    }
    let name = string_in(bytes);
    if let Some(i) = first_barred(name) {
        return Err(MetaErr::Bad {
            at: at + 2 + i,
            why: RecordCause::NameByte,
        });
    }
    if bytes.len() < 2 + len {
        return Err(cut(bytes, at));
    }
    if !is_next(last, name) {
        return Err(MetaErr::Bad {
            at,
            why: RecordCause::Order,
        });
    }
    Ok((name, &bytes[2 + len..]))
}

/// As much of the string in front of these bytes as is there.
fn string_in(bytes: &[u8]) -> &[u8]
    requires { 2 ≤ length bytes.now }
    ensures { result.now ≡ string_in bytes.now }
{
    let len = usize::from(u16_at(bytes, 0));
    &bytes[2..bytes.len().min(2 + len)]
}

/// The place of the first byte that no name has.
fn first_barred(name: &[u8]) -> Option<usize>
    ensures { result ≡ position is_barred name.now }
{
    name.iter().position(|b| *b == b'/' || *b == 0)
}

/// Whether a name may stand behind this one.
fn is_next(last: Option<&[u8]>, name: &[u8]) -> bool
    ensures { result ≡ is_next (option_copied last.entry) name.now }
{
    match last {
        Some(before) => before.cmp(name).is_lt(),
        None => true,
    }
}

/// The kind and the numbers in front of these bytes, at this place, and what stands behind them.
/// They are refused by the first that can't stand there.
fn numbers_in_front(bytes: &[u8], at: usize) -> Result<(&[u8; 21], &[u8]), MetaErr>
    requires { at + length bytes.now < 2 ^ 63 }
    ensures kind { IfOk result (λ r. slice_index r.0.now 0 ≤ 1) }
    ensures len { IfOk result (λ r. length r.0.now ≡ 21) }
    ensures whole { IfOk result (λ r. bytes.now ≡ r.0.now ++ r.1.now) }
    ensures flaw { IfErr result (λ e. flaw_of_numbers at bytes.now ≡ Some e) }
{
    let kind = *bytes.first().ok_or(cut(bytes, at))?;
    if kind > 1 {
        return Err(MetaErr::Bad {
            at,
            why: RecordCause::Kind,
        });
    }
    bytes.split_first_chunk().ok_or(cut(bytes, at))
}

/// The uid or gid in front of these bytes, at this place, and what stands behind it. It is refused
/// where it can't stand there.
fn owner_in_front(bytes: &[u8], at: usize) -> Result<(&[u8], &[u8]), MetaErr>
    requires { at + length bytes.now < 2 ^ 63 }
    ensures most { IfOk result (λ r. length r.0.now ≤ MAX_NAME) }
    ensures whole { IfOk result (λ r. bytes.now ≡ string r.0.now ++ r.1.now) }
    ensures flaw { IfErr result (λ e. flaw_of_owner at bytes.now ≡ Some e) }
{
    if bytes.len() < 2 {
        return Err(cut(bytes, at));
    }
    let len = usize::from(u16_at(bytes, 0));
    if len > MAX_NAME {
        return Err(MetaErr::Bad {
            at,
            why: RecordCause::OwnerLength,
        });
    }
    if bytes.len() < 2 + len {
        return Err(cut(bytes, at));
    }
    Ok((&bytes[2..2 + len], &bytes[2 + len..]))
}

/// What stands from this place on ends too early.
fn cut(bytes: &[u8], at: usize) -> MetaErr
    requires { at + length bytes.now < 2 ^ 63 }
    ensures { Some result ≡ cut at bytes.now }
{
    MetaErr::Bad {
        at: at + bytes.len(),
        why: RecordCause::Cut,
    }
}
