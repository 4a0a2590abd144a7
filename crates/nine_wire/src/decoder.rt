//! Reading what a client sends.

ghost use Rattle.std.specs.Prelude.{◌≡◌, ◌≢◌, ◌↔◌, ◌++◌, ℕ, List, [], length, true, false};
ghost use Rattle.std.specs.Prelude.{IfOk, IfSome, IfNone, IsOkAnd, IsErrOf};
ghost use Rattle.std.specs.List.{AllByRecursion, flat_map};
ghost use Rattle.byteorder.specs.Endian.{little_bytes};
ghost use Rattle.nine_wire.specs.Frames.{IsFrame, Spells};
ghost use Rattle.nine_wire.specs.Messages.{TMessage, SpellsBody, is_request_type, string, IsString};
ghost use Rattle.nine_wire.specs.Refusals.{IsCutShort, IsUnknown, IsMisspelled};
ghost use Rattle.nine_wire.specs.Views.{message_of};

use crate::fields::{string_at, u16_at, u32_at, u64_at};
use crate::names::names_of;
use crate::{NineError, Request};

/// The request that a whole message spells, and its tag. Of the tests that a message fails, the
/// first is told: it is no whole message, no request has its type, or its parameters don't fill it.
pub fn decode(message: &[u8]) -> Result<(u16, Request<'_>), NineError>
    ensures ok { IfOk result (λ m. Spells m.0 (message_of m.1) message.now) }
    ensures only { (tag : ℕ) (m : TMessage) → Spells tag m message.now →
        IsOkAnd result (λ r. (r.0 ≡ tag) × (message_of r.1 ≡ m)) }
    ensures short { IsErrOf result NineError.Short ↔ IsCutShort message.now }
    ensures unknown { (tag : ℕ) → IsErrOf result (NineError.Unknown tag)
        ↔ IsUnknown message.now tag }
    ensures bad { (tag : ℕ) → IsErrOf result (NineError.Bad tag) ↔ IsMisspelled message.now tag }
{
    let Some((kind, tag, parameters)) = split_message(message) else {
        return Err(NineError::Short);
    };
    if !is_request(kind) {
        return Err(NineError::Unknown { tag });
    }
    match request_of(kind, parameters) {
        Some(request) => Ok((tag, request)),
        None => Err(NineError::Bad { tag }),
    }
}

/// The type, the tag and the parameters of a whole message; None where the bytes are cut short.
fn split_message(message: &[u8]) -> Option<(u8, u16, &[u8])>
    ensures found { IfSome result (λ r. IsFrame message.now r.0 r.1 r.2.now) }
    ensures none { IfNone result (IsCutShort message.now) }
{
    let (size, rest) = u32_at(message)?;
    if size as usize != message.len() {
        return None;
    }
    let (kind, rest) = rest.split_first()?;
    let (tag, parameters) = u16_at(rest)?;
    Some((*kind, tag, parameters))
}

/// Whether a request has this type.
fn is_request(kind: u8) -> bool
    ensures { result ≡ is_request_type kind }
{
    kind == 100
        || kind == 102
        || kind == 104
        || kind == 108
        || kind == 110
        || kind == 112
        || kind == 114
        || kind == 116
        || kind == 118
        || kind == 120
        || kind == 122
        || kind == 124
        || kind == 126
}

/// The request that a type and its parameters spell, or None where they spell none.
fn request_of(kind: u8, parameters: &[u8]) -> Option<Request<'_>>
    ensures found { IfSome result (λ m. SpellsBody (message_of m) kind parameters.now) }
    ensures none { IfNone result ((m : TMessage) → ¬ SpellsBody m kind parameters.now) }
{
    match kind {
        100 => version(parameters),
        102 => auth(parameters),
        104 => attach(parameters),
        108 => flush(parameters),
        110 => walk(parameters),
        112 => open(parameters),
        114 => create(parameters),
        116 => read(parameters),
        118 => write(parameters),
        120 => Some(Request::Clunk {
            fid: alone(parameters)?,
        }),
        122 => Some(Request::Remove {
            fid: alone(parameters)?,
        }),
        124 => Some(Request::Stat {
            fid: alone(parameters)?,
        }),
        126 => wstat(parameters),
        _ => None,
    }
}

/// Something, where nothing stands behind it.
fn at_end<'a>(value: Request<'a>, rest: &[u8]) -> Option<Request<'a>>
    ensures found { IfSome result (λ v. (v ≡ value.entry) × (rest.now ≡ [])) }
    ensures none { IfNone result (rest.now ≢ []) }
{
    if rest.is_empty() { Some(value) } else { None }
}

/// The parameters of a message that has a fid and nothing more; None where these aren't four bytes.
fn alone(parameters: &[u8]) -> Option<u32>
    ensures found { IfSome result (λ fid. parameters.now ≡ little_bytes 4 fid) }
    ensures none { IfNone result (length parameters.now ≢ 4) }
{
    let (fid, rest) = u32_at(parameters)?;
    if rest.is_empty() { Some(fid) } else { None }
}

/// msize[4] version[s]; None where the parameters aren't that, as in those below.
fn version(parameters: &[u8]) -> Option<Request<'_>>
    ensures found { IfSome result (λ m. SpellsBody (message_of m) 100 parameters.now) }
    ensures none { IfNone result ((m : TMessage) → ¬ SpellsBody m 100 parameters.now) }
{
    let (msize, rest) = u32_at(parameters)?;
    let (version, rest) = string_at(rest)?;
    at_end(Request::Version { msize, version }, rest)
}

/// afid[4] uname[s] aname[s]
fn auth(parameters: &[u8]) -> Option<Request<'_>>
    ensures found { IfSome result (λ m. SpellsBody (message_of m) 102 parameters.now) }
    ensures none { IfNone result ((m : TMessage) → ¬ SpellsBody m 102 parameters.now) }
{
    let (afid, rest) = u32_at(parameters)?;
    let (uname, rest) = string_at(rest)?;
    let (aname, rest) = string_at(rest)?;
    at_end(Request::Auth { afid, uname, aname }, rest)
}

/// fid[4] afid[4] uname[s] aname[s]
fn attach(parameters: &[u8]) -> Option<Request<'_>>
    ensures found { IfSome result (λ m. SpellsBody (message_of m) 104 parameters.now) }
    ensures none { IfNone result ((m : TMessage) → ¬ SpellsBody m 104 parameters.now) }
{
    let (fid, rest) = u32_at(parameters)?;
    let (afid, rest) = u32_at(rest)?;
    let (uname, rest) = string_at(rest)?;
    let (aname, rest) = string_at(rest)?;
    at_end(
        Request::Attach {
            fid,
            afid,
            uname,
            aname,
        },
        rest,
    )
}

/// oldtag[2]
fn flush(parameters: &[u8]) -> Option<Request<'_>>
    ensures found { IfSome result (λ m. SpellsBody (message_of m) 108 parameters.now) }
    ensures none { IfNone result ((m : TMessage) → ¬ SpellsBody m 108 parameters.now) }
{
    let (oldtag, rest) = u16_at(parameters)?;
    at_end(Request::Flush { oldtag }, rest)
}

/// fid[4] newfid[4] nwname[2], then nwname times wname[s]
fn walk(parameters: &[u8]) -> Option<Request<'_>>
    ensures found { IfSome result (λ m. SpellsBody (message_of m) 110 parameters.now) }
    ensures none { IfNone result ((m : TMessage) → ¬ SpellsBody m 110 parameters.now) }
{
    let (fid, rest) = u32_at(parameters)?;
    let (newfid, rest) = u32_at(rest)?;
    let (count, rest) = u16_at(rest)?;
    let names = names_of(count, rest)?;
    Some(Request::Walk { fid, newfid, names })
}

/// fid[4] mode[1]
fn open(parameters: &[u8]) -> Option<Request<'_>>
    ensures found { IfSome result (λ m. SpellsBody (message_of m) 112 parameters.now) }
    ensures none { IfNone result ((m : TMessage) → ¬ SpellsBody m 112 parameters.now) }
{
    let (fid, rest) = u32_at(parameters)?;
    let (mode, rest) = rest.split_first()?;
    at_end(Request::Open { fid, mode: *mode }, rest)
}

/// fid[4] name[s] perm[4] mode[1]
fn create(parameters: &[u8]) -> Option<Request<'_>>
    ensures found { IfSome result (λ m. SpellsBody (message_of m) 114 parameters.now) }
    ensures none { IfNone result ((m : TMessage) → ¬ SpellsBody m 114 parameters.now) }
{
    let (fid, rest) = u32_at(parameters)?;
    let (name, rest) = string_at(rest)?;
    let (perm, rest) = u32_at(rest)?;
    let (mode, rest) = rest.split_first()?;
    at_end(
        Request::Create {
            fid,
            name,
            perm,
            mode: *mode,
        },
        rest,
    )
}

/// fid[4] offset[8] count[4]
fn read(parameters: &[u8]) -> Option<Request<'_>>
    ensures found { IfSome result (λ m. SpellsBody (message_of m) 116 parameters.now) }
    ensures none { IfNone result ((m : TMessage) → ¬ SpellsBody m 116 parameters.now) }
{
    let (fid, rest) = u32_at(parameters)?;
    let (offset, rest) = u64_at(rest)?;
    let (count, rest) = u32_at(rest)?;
    at_end(Request::Read { fid, offset, count }, rest)
}

/// fid[4] offset[8] count[4] and so many bytes
fn write(parameters: &[u8]) -> Option<Request<'_>>
    ensures found { IfSome result (λ m. SpellsBody (message_of m) 118 parameters.now) }
    ensures none { IfNone result ((m : TMessage) → ¬ SpellsBody m 118 parameters.now) }
{
    let (fid, rest) = u32_at(parameters)?;
    let (offset, rest) = u64_at(rest)?;
    let (count, bytes) = u32_at(rest)?;
    if bytes.len() != count as usize {
        return None;
    }
    Some(Request::Write { fid, offset, bytes })
}

/// fid[4] n[2] and so many bytes
fn wstat(parameters: &[u8]) -> Option<Request<'_>>
    ensures found { IfSome result (λ m. SpellsBody (message_of m) 126 parameters.now) }
    ensures none { IfNone result ((m : TMessage) → ¬ SpellsBody m 126 parameters.now) }
{
    let (fid, rest) = u32_at(parameters)?;
    let (stat, rest) = string_at(rest)?;
    at_end(Request::Wstat { fid, stat }, rest)
}
