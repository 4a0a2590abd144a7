//! How a client begins: both sides say their line, and then the client a hello.

ghost use Rattle.std.specs.Prelude.{◌≡◌, ◌≤◌, ℕ, List, IsTrue, IfOk, IfErr, length, take};
ghost use Rattle.vt_wire.specs.Frames.{IsFrame};
ghost use Rattle.vt_client.specs.Clients.{CountsSides};
ghost use Rattle.vt_client.specs.Exchanges.{traffic_of};
ghost use Rattle.vt_client.specs.Greetings.{Greets, MayEndGreeting, welcome};
ghost use Rattle.vt_client.specs.Taking.{EndsLine, IsOfLine, IsOfTaking, TakesByte, TakesLine};
ghost use Rattle.vt_client.specs.Taking.{ReadsReplyFrame, TakesToNewline, offers_version};

use crate::ClientErr;
use crate::exchange::{exchange, remote, reply_in, take_all};
use std::alloc::Global;
use vt_out::Link;
use vt_wire::{Line, MAX_LINE, Reply, Request, decode_line};

/// What a client says first.
const LINE: &[u8; 16] = b"venti-02-rattle\n";

/// The type of an Rhello.
const HELLO: u8 = 5;

/// Puts the line, takes the server's, and says hello. The buffer has room for any frame.
pub(crate) fn say_hello<L: Link>(
    alloc: Global,
    link: &mut L,
    buf: &mut [u8],
) -> Result<(), ClientErr>
    requires { length buf.old ≡ 65537 }
    ensures greets { (score_of : List ℕ → List ℕ) → IsTrue L.tells
        → Greets score_of (traffic_of L.Link link.old) (traffic_of L.Link link.new) result }
    ensures about { IfErr result MayEndGreeting }
    ensures sides { CountsSides L.Link link.old link.new result }
{
    let Ok(()) = link.put(LINE) else {
        return Err(ClientErr::WriteFault);
    };
    take_line(link, buf)?;
    let len = exchange(link, buf, 0, &Request::Hello { version: b"02" })?;
    welcome_in(alloc, &buf[..len])
}

/// Whether a whole frame is the reply to the hello, which has tag 0.
fn welcome_in(alloc: Global, frame: &[u8]) -> Result<(), ClientErr>
    requires { (body : List ℕ) × IsFrame frame.now body }
    ensures { (score_of : List ℕ → List ℕ) → ReadsReplyFrame score_of 0 welcome frame.now result }
{
    match reply_in(frame, 0, HELLO)? {
        Reply::Error(text) => Err(remote(alloc, text)),
        _ => Ok(()),
    }
}

/// Takes the server's line, byte by byte, so that nothing behind it is taken.
fn take_line<L: Link>(link: &mut L, buf: &mut [u8]) -> Result<(), ClientErr>
    requires { length buf.old ≡ 65537 }
    ensures taken { IsTrue L.tells
        → TakesLine (traffic_of L.Link link.old) (traffic_of L.Link link.new) result }
    ensures about { IfErr result IsOfLine }
    ensures sides { CountsSides L.Link link.old link.new result }
{
    let n = take_to_newline(link, buf)?;
    if offers_version(decode_line(&buf[..n])) {
        Ok(())
    } else {
        Err(ClientErr::NoVersion)
    }
}

/// Whether a line is whole, and offers version 02.
fn offers_version(line: Line) -> bool
    ensures { result ≡ offers_version line }
{
    match line {
        Line::Whole { has_02, .. } => has_02,
        Line::More | Line::Bad(_) => false,
    }
}

/// Takes bytes up to a newline, or one byte more than a line has, and tells how many.
fn take_to_newline<L: Link>(link: &mut L, buf: &mut [u8]) -> Result<usize, ClientErr>
    requires { length buf.old ≡ 65537 }
    ensures within { IfOk result (λ n. n ≤ length buf.new) }
    ensures line { IfOk result (λ n. EndsLine (take n buf.new)) }
    ensures taken { IsTrue L.tells → TakesToNewline
        (traffic_of L.Link link.old) (traffic_of L.Link link.new) buf.new result }
    ensures about { IfErr result IsOfTaking }
    ensures sides { CountsSides L.Link link.old link.new result }
{
    let mut n = 0;
    while n < MAX_LINE {
        let byte = take_byte(link)?;
        buf[n] = byte;
        n += 1;
        if byte == b'\n' {
            return Ok(n);
        }
    }
    let byte = take_byte(link)?;
    buf[n] = byte;
    Ok(n + 1)
}

/// Takes the next byte of the server's line, which ends with a newline.
fn take_byte<L: Link>(link: &mut L) -> Result<u8, ClientErr>
    ensures taken { IsTrue L.tells
        → TakesByte (traffic_of L.Link link.old) (traffic_of L.Link link.new) result }
    ensures about { IfErr result IsOfTaking }
    ensures sides { CountsSides L.Link link.old link.new result }
{
    let mut byte = [0];
    take_all(link, &mut byte)?;
    Ok(byte[0])
}
