//! Writing what a server sends.

ghost use Rattle.std.specs.Prelude.{◌≡◌, ◌+◌, ◌≤◌, ◌++◌, length, take, drop};
ghost use Rattle.vt_wire.specs.Fields.{IsText, string};
ghost use Rattle.vt_wire.specs.Messages.{reply_type, reply_parameters, spelled_reply, FitsReply};
ghost use Rattle.vt_wire.specs.Views.{reply_of};

use crate::Reply;
use vt_base::MAX_BLOCK;
use vt_base::fields::{put, put_u8, put_u16};

/// The name that the server gives each session.
const SID: &[u8; 9] = b"anonymous";

/// Writes the frame of a reply under its request's tag to the front of the buffer, and gives its
/// length.
pub fn encode(tag: u8, reply: &Reply, buf: &mut [u8]) -> usize
    requires fits { FitsReply (reply_of reply.now) }
    requires room { length (spelled_reply tag (reply_of reply.now)) ≤ length buf.old }
    ensures len { result ≡ length (spelled_reply tag (reply_of reply.now)) }
    ensures written { take result buf.new ≡ spelled_reply tag (reply_of reply.now) }
    ensures behind { drop result buf.new ≡ drop result buf.old }
{
    // (the size counts type, tag and parameters, and not its own two bytes)
    let size = 2 + parameters_len(reply);
    let at = put_u16(buf, 0, size as u16);
    let at = put_u8(buf, at, type_of(reply));
    let at = put_u8(buf, at, tag);
    put_parameters(buf, at, reply)
}

/// The type of a reply.
fn type_of(reply: &Reply) -> u8
    ensures { result ≡ reply_type (reply_of reply.now) }
{
    match reply {
        Reply::Error(_) => 1,
        Reply::Ping => 3,
        Reply::Hello => 5,
        Reply::Read(_) => 13,
        Reply::Write(_) => 15,
        Reply::Sync => 17,
    }
}

/// How many bytes a reply's parameters have.
fn parameters_len(reply: &Reply) -> usize
    requires { FitsReply (reply_of reply.now) }
    ensures len { result ≡ length (reply_parameters (reply_of reply.now)) }
    ensures bounded { result ≤ MAX_BLOCK }
{
    match reply {
        Reply::Ping | Reply::Sync => 0,
        // (sid[s], rcrypto[1], rcodec[1]; a string has two bytes of length in front)
        Reply::Hello => 2 + SID.len() + 2,
        Reply::Read(bytes) => bytes.len(),
        Reply::Write(score) => score.0.len(),
        Reply::Error(text) => 2 + text.len(),
    }
}

/// Writes a reply's parameters at this place, and gives the place behind them.
fn put_parameters(buf: &mut [u8], at: usize, reply: &Reply) -> usize
    requires fits { FitsReply (reply_of reply.now) }
    requires room { at + length (reply_parameters (reply_of reply.now)) ≤ length buf.old }
    ensures end { result ≡ at + length (reply_parameters (reply_of reply.now)) }
    ensures written { take result buf.new
        ≡ take at buf.old ++ reply_parameters (reply_of reply.now) }
    ensures behind { drop result buf.new ≡ drop result buf.old }
{
    match reply {
        Reply::Ping | Reply::Sync => at,
        Reply::Hello => {
            let at = put_string(buf, at, SID);
            put(buf, at, &[0, 0])
        }
        Reply::Read(bytes) => put(buf, at, bytes),
        Reply::Write(score) => put(buf, at, &score.0),
        Reply::Error(text) => put_string(buf, at, text),
    }
}

/// Writes a string at this place, and gives the place behind it.
pub(crate) fn put_string(buf: &mut [u8], at: usize, text: &[u8]) -> usize
    requires fits { IsText text.now }
    requires room { at + length (string text.now) ≤ length buf.old }
    ensures end { result ≡ at + length (string text.now) }
    ensures written { take result buf.new ≡ take at buf.old ++ string text.now }
    ensures behind { drop result buf.new ≡ drop result buf.old }
{
    let at = put_u16(buf, at, text.len() as u16);
    put(buf, at, text)
}
