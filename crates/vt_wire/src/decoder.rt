//! Reading what a client sends.

ghost use Rattle.std.specs.Prelude.{◌≡◌, ◌≢◌, ◌↔◌, ℕ, true, false, [], IfOk, IfErr, IsOkAnd, IsErrOf};
ghost use Rattle.vt_base.specs.Protocol.{TMessage};
ghost use Rattle.vt_wire.specs.Messages.{is_request_type, Spells};
ghost use Rattle.vt_wire.specs.Refusals.{IsCutShort, IsUnknown, IsMisspelled, ReadsParameters};
ghost use Rattle.vt_wire.specs.Views.{message_of};

use crate::parameters::{alone, array_at, at_end, behind_list, string_at};
use crate::{Request, WireBad, frame_len};
use vt_base::Score;
use vt_base::fields::u16_at;

/// The request that a whole frame spells, and its tag. The size field is a part of the frame. Of
/// the tests that a frame fails, the first is told: it is no whole frame or has a size below 2, no
/// request has its type, or its parameters aren't spelled.
pub fn decode(frame: &[u8]) -> Result<(u8, Request<'_>), WireBad>
    ensures ok { IfOk result (λ m. Spells m.0 (message_of m.1) frame.now) }
    ensures only { (tag : ℕ) (m : TMessage) → Spells tag m frame.now →
        IsOkAnd result (λ r. (r.0 ≡ tag) × (message_of r.1 ≡ m)) }
    ensures short { IsErrOf result WireBad.Short ↔ IsCutShort frame.now }
    ensures unknown { (type : ℕ) →
        IsErrOf result (WireBad.Unknown type) ↔ IsUnknown frame.now type }
    ensures bad { (number : ℕ) →
        IsErrOf result (WireBad.Bad number) ↔ IsMisspelled frame.now number }
{
    if frame_len(frame) != Some(frame.len()) {
        return Err(WireBad::Short);
    }
    let [_, _, kind, tag, parameters @ ..] = frame else {
        return Err(WireBad::Short);
    };
    Ok((*tag, request_of(*kind, parameters)?))
}

/// The request that a type and its parameters spell. It is `Unknown` where no request has the type,
/// and `Bad` with the number of the first parameter that isn't spelled.
fn request_of(kind: u8, parameters: &[u8]) -> Result<Request<'_>, WireBad>
    ensures known { is_request_type kind ≡ true → ReadsParameters kind parameters.now result }
    ensures unknown { is_request_type kind ≡ false → result ≡ Err (WireBad.Unknown kind) }
{
    match kind {
        2 => alone(parameters, Request::Ping),
        4 => hello(parameters),
        6 => alone(parameters, Request::Goodbye),
        12 => read(parameters),
        14 => write(parameters),
        16 => alone(parameters, Request::Sync),
        other => Err(WireBad::Unknown(other)),
    }
}

/// Thello: version[s] uid[s] strength[1] crypto[n] codec[n]. It is `Bad` with the number of the
/// first parameter that isn't spelled, or with one past the last where bytes stand behind it.
fn hello(parameters: &[u8]) -> Result<Request<'_>, WireBad>
    ensures { ReadsParameters 4 parameters.now result }
{
    let (version, rest) = string_at(parameters, 0)?;
    // (The numbers are those of the parameters, for a refusal. Of a hello only the version counts;
    // the others have to be well formed.)
    let (_uid, rest) = string_at(rest, 1)?;
    let (_strength, rest) = array_at::<1>(rest, 2)?;
    let behind_crypto = behind_list(rest, 3)?;
    let behind_codec = behind_list(behind_crypto, 4)?;
    at_end(behind_codec, 5)?;
    Ok(Request::Hello { version })
}

/// Tread: score[20] type[1] pad[1] count[2]. It is `Bad` with the number of the first parameter
/// that isn't spelled, or with one past the last where bytes stand behind it.
fn read(parameters: &[u8]) -> Result<Request<'_>, WireBad>
    ensures { ReadsParameters 12 parameters.now result }
{
    let (score, rest) = array_at::<20>(parameters, 0)?;
    let ([kind], rest) = array_at::<1>(rest, 1)?;
    // (the pad byte may be anything)
    let (_pad, rest) = array_at::<1>(rest, 2)?;
    let (count, rest) = array_at::<2>(rest, 3)?;
    at_end(rest, 4)?;
    Ok(Request::Read {
        score: Score(*score),
        kind: *kind,
        count: u32::from(u16_at(count, 0)),
    })
}

/// Twrite: type[1] pad[3], and the block to the frame's end. It is `Bad` with the number of the
/// first parameter that isn't spelled.
fn write(parameters: &[u8]) -> Result<Request<'_>, WireBad>
    ensures { ReadsParameters 14 parameters.now result }
{
    let ([kind], rest) = array_at::<1>(parameters, 0)?;
    let (_pad, bytes) = array_at::<3>(rest, 1)?;
    Ok(Request::Write { kind: *kind, bytes })
}
