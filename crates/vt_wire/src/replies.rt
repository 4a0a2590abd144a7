//! Reading what a server sends.

ghost use Rattle.std.specs.Prelude.{◌≡◌, ◌≢◌, ◌↔◌, ℕ, true, false, [], IfOk, IfErr, IsOkAnd, IsErrOf};
ghost use Rattle.vt_base.specs.Protocol.{RMessage};
ghost use Rattle.vt_wire.specs.Messages.{is_reply_type, SpellsReply};
ghost use Rattle.vt_wire.specs.Refusals.{IsCutShort, IsUnknownReply, IsMisspelledReply, ReadsReply};
ghost use Rattle.vt_wire.specs.Views.{reply_of};

use crate::parameters::{alone, array_at, at_end, string_at};
use crate::{Reply, WireBad, frame_len};
use vt_base::Score;

/// The reply that a whole frame spells, and its tag. The size field is a part of the frame. Of the
/// tests that a frame fails, the first is told: it is no whole frame or has a size below 2, no
/// reply has its type, or its parameters aren't spelled.
pub fn decode_reply(frame: &[u8]) -> Result<(u8, Reply<'_>), WireBad>
    ensures ok { IfOk result (λ m. SpellsReply m.0 (reply_of m.1) frame.now) }
    ensures only { (tag : ℕ) (reply : RMessage) → SpellsReply tag reply frame.now →
        IsOkAnd result (λ r. (r.0 ≡ tag) × (reply_of r.1 ≡ reply)) }
    ensures short { IsErrOf result WireBad.Short ↔ IsCutShort frame.now }
    ensures unknown { (type : ℕ) →
        IsErrOf result (WireBad.Unknown type) ↔ IsUnknownReply frame.now type }
    ensures bad { (number : ℕ) →
        IsErrOf result (WireBad.Bad number) ↔ IsMisspelledReply frame.now number }
{
    if frame_len(frame) != Some(frame.len()) {
        return Err(WireBad::Short);
    }
    let [_, _, kind, tag, parameters @ ..] = frame else {
        return Err(WireBad::Short);
    };
    Ok((*tag, reply_from(*kind, parameters)?))
}

/// The reply that a type and its parameters spell. It is `Unknown` where no reply has the type, and
/// `Bad` with the number of the first parameter that isn't spelled.
fn reply_from(kind: u8, parameters: &[u8]) -> Result<Reply<'_>, WireBad>
    ensures known { is_reply_type kind ≡ true → ReadsReply kind parameters.now result }
    ensures unknown { is_reply_type kind ≡ false → result ≡ Err (WireBad.Unknown kind) }
{
    match kind {
        1 => error(parameters),
        3 => alone(parameters, Reply::Ping),
        5 => welcome(parameters),
        13 => Ok(Reply::Read(parameters)),
        15 => written(parameters),
        17 => alone(parameters, Reply::Sync),
        other => Err(WireBad::Unknown(other)),
    }
}

/// Rerror: error[s], the text of the refusal. It is `Bad` with the number of the first parameter
/// that isn't spelled, 0, or with 1 where bytes stand behind it.
fn error(parameters: &[u8]) -> Result<Reply<'_>, WireBad>
    ensures { ReadsReply 1 parameters.now result }
{
    let (text, rest) = string_at(parameters, 0)?;
    at_end(rest, 1)?;
    Ok(Reply::Error(text))
}

/// Rhello: sid[s] rcrypto[1] rcodec[1], none of which is looked at. It is `Bad` with the number of
/// the first that isn't spelled, or with 3 where bytes stand behind them.
fn welcome(parameters: &[u8]) -> Result<Reply<'_>, WireBad>
    ensures { ReadsReply 5 parameters.now result }
{
    let (_sid, rest) = string_at(parameters, 0)?;
    let (_cipher, rest) = array_at::<1>(rest, 1)?;
    let (_codec, rest) = array_at::<1>(rest, 2)?;
    at_end(rest, 3)?;
    Ok(Reply::Hello)
}

/// Rwrite: score[20], that of the block. It is `Bad` with 0 where that isn't spelled, or with 1
/// where bytes stand behind it.
fn written(parameters: &[u8]) -> Result<Reply<'_>, WireBad>
    ensures { ReadsReply 15 parameters.now result }
{
    let (score, rest) = array_at::<20>(parameters, 0)?;
    at_end(rest, 1)?;
    Ok(Reply::Write(Score(*score)))
}
