//! What goes over the link, whole.

ghost use Rattle.std.specs.Prelude.{◌≡◌, ◌≤◌, ◌<◌, ◌⊎◌, ◌+◌, ℕ, Bool, List, [], IsTrue, IfOk, IfErr};
ghost use Rattle.std.specs.Prelude.{MatchResult, length, take};
ghost use Rattle.vt_wire.specs.Awaited.{IsWrongAt};
ghost use Rattle.vt_wire.specs.Frames.{IsFrame, IsPartial};
ghost use Rattle.vt_wire.specs.Messages.{FitsRequest};
ghost use Rattle.vt_wire.specs.Views.{message_of, reply_of};
ghost use Rattle.vt_client.specs.Clients.{CountsSides};
ghost use Rattle.vt_client.specs.Exchanges.{IsWantedReply, traffic_of};
ghost use Rattle.vt_client.specs.Taking.{IsOfExchange, IsOfTaking, IsRemote, TakesInAll, TakesAnswer, TakesFrame};

use crate::ClientErr;
use std::alloc::{AllocError, Global};
use vt_base::fields::u16_at;
use vt_base::{MAX_BLOCK, Text};
use vt_out::Link;
use vt_wire::{Reply, Request, decode_reply, encode_request};

/// How many bytes the longest frame has.
pub(crate) const FRAME_MAX: usize = 65_537;

/// The type of an Rerror.
const ERROR: u8 = 1;

/// The type of an Rread.
const READ: u8 = 13;

/// Zeros of this length. (In a function of its own, so that no proof has the list of them.)
pub(crate) fn zeros(alloc: Global, len: usize) -> Result<Vec<u8>, AllocError>
    ensures { IfOk result (λ zeros. length zeros.items ≡ len) }
{
    vec![in alloc; 0u8; len]
}

/// Fills the buffer from the link.
pub(crate) fn take_all<L: Link>(link: &mut L, buf: &mut [u8]) -> Result<(), ClientErr>
    ensures taken { IsTrue L.tells → TakesInAll (length buf.old)
        (traffic_of L.Link link.old) (traffic_of L.Link link.new) buf.new result }
    ensures about { IfErr result IsOfTaking }
    ensures sides { CountsSides L.Link link.old link.new result }
{
    let mut n = 0;
    while n < buf.len() {
        let Ok(more) = link.take(&mut buf[n..]) else {
            return Err(ClientErr::ReadFault);
        };
        if more == 0 {
            return Err(ClientErr::Cut);
        }
        n += more;
    }
    Ok(())
}

/// Takes one frame into the buffer, which has room for any, and gives its length.
fn take_frame<L: Link>(link: &mut L, buf: &mut [u8]) -> Result<usize, ClientErr>
    requires { length buf.old ≡ 65537 }
    ensures within { IfOk result (λ n. n ≤ length buf.new) }
    ensures frame { IfOk result (λ n. (body : List ℕ) × IsFrame (take n buf.new) body) }
    ensures taken { IsTrue L.tells → TakesFrame
        (traffic_of L.Link link.old) (traffic_of L.Link link.new) buf.new result }
    ensures about { IfErr result IsOfTaking }
    ensures sides { CountsSides L.Link link.old link.new result }
{
    // (two bytes of size, which don't count themselves)
    take_all(link, &mut buf[..2])?;
    let end = 2 + usize::from(u16_at(buf, 0));
    take_all(link, &mut buf[2..end])?;
    Ok(end)
}

/// Puts a request under this tag, and takes one frame into the buffer, which has room for any, and
/// gives its length.
pub(crate) fn exchange<L: Link>(
    link: &mut L,
    buf: &mut [u8],
    tag: u8,
    request: &Request,
) -> Result<usize, ClientErr>
    requires fits { FitsRequest (message_of request.now) }
    requires room { length buf.old ≡ 65537 }
    ensures within { IfOk result (λ n. n ≤ length buf.new) }
    ensures frame { IfOk result (λ n. (body : List ℕ) × IsFrame (take n buf.new) body) }
    ensures exchanged { IsTrue L.tells → TakesAnswer (traffic_of L.Link link.old)
        (traffic_of L.Link link.new) tag (message_of request.now) buf.new result }
    ensures about { IfErr result IsOfExchange }
    ensures sides { CountsSides L.Link link.old link.new result }
{
    let len = encode_request(tag, request, buf);
    if link.put(&buf[..len]).is_err() {
        return Err(ClientErr::WriteFault);
    }
    take_frame(link, buf)
}

/// The reply in a whole frame, if it is one to a request of this tag, of the type that is wanted or
/// an Rerror.
pub(crate) fn reply_in(frame: &[u8], tag: u8, wanted: u8) -> Result<Reply<'_>, ClientErr>
    requires { (body : List ℕ) × IsFrame frame.now body }
    ensures ok { IfOk result (λ reply. IsWantedReply tag wanted (reply_of reply) frame.now) }
    ensures bad { IfErr result (λ err. (place : ℕ) × (err ≡ ClientErr.BadReply place)
        × ((body : List ℕ) → IsFrame frame.now body → IsWrongAt tag wanted body place)) }
{
    // (a frame: size 2, type 1, tag 1; the order of the tests: docs/FORMATS.md, A connection)
    if frame.len() < 4 {
        return Err(ClientErr::BadReply(0));
    }
    if frame[2] != wanted && frame[2] != ERROR {
        return Err(ClientErr::BadReply(2));
    }
    if frame[3] != tag {
        return Err(ClientErr::BadReply(3));
    }
    if frame[2] == READ && frame.len() > 4 + MAX_BLOCK {
        return Err(ClientErr::BadReply(4 + MAX_BLOCK));
    }
    match decode_reply(frame) {
        Ok((_, reply)) => Ok(reply),
        Err(_) => Err(ClientErr::BadReply(4)),
    }
}

/// The text of an Rerror.
pub(crate) fn remote(alloc: Global, text: &[u8]) -> ClientErr
    ensures { IsRemote text.now result }
{
    match Text::copy_of(alloc, text) {
        Ok(text) => ClientErr::Remote(text),
        Err(_) => ClientErr::NoMemory,
    }
}
