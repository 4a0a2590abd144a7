//! Serving a client over a link.

ghost use Rattle.std.specs.Prelude.{◌≡◌, ◌≢◌, ◌-◌, ◌≤◌, ◌<◌, min, IsTrue, IfErr, IfOk, OnOk, length};
ghost use Rattle.std.specs.Option.{option_or};
ghost use Rattle.vt_session.specs.Talk.{spent_len};
ghost use Rattle.nine_view.specs.Hearing.{FillsBuffer, HearsMessage};
ghost use Rattle.nine_view.specs.Serving.{ServesConnection, Turns, ReadCause, ReadsSo, WriteCause, WritesSo};

use crate::{MAX_MESSAGE, View};
use byteorder::{ByteOrder, LittleEndian};
use std::alloc::{AllocError, Global};
use vac_read::VacBad;
use vt_base::Failed;
use vt_out::Link;
use vt_session::MAX_TAKEN;
use vt_tree::Blocks;

/// How a connection ended.
#[derive(Clone, Copy, Debug, PartialEq, Eq)]
pub enum Ended {
    /// By the end of input, before any byte or right behind a message.
    Closed,
    /// By the end of input inside a message.
    Cut,
    /// By a size that no message may have, at this place of the input: below 7, or above what is
    /// agreed, which is 65,536 before a version is.
    Malformed(u64),
    /// By 2^62 bytes taken.
    Spent,
    /// By a read that failed.
    ReadFault,
    /// By a write that failed.
    WriteFault,
    /// For want of memory, before anything was taken.
    NoMemory,
}

/// What came of a connection.
#[derive(Drop)]
pub struct Served {
    pub ended: Ended,
    /// How many bytes were taken.
    pub taken: u64,
    /// Why the archive couldn't be read, the first time that it couldn't.
    pub failure: Option<VacBad>,
}

/// Serves a client until the connection ends, and tells how. One message at a time is taken and
/// answered, and its reply has gone out before more is taken. The buffers' memory is taken first.
pub fn serve_nine<B: Blocks, L: Link>(
    alloc: Global,
    view: &mut View,
    blocks: &mut B,
    link: &mut L,
) -> Served
    ensures serves { ServesConnection B.does B.holds B.score_of blocks.old blocks.new view.old
        view.new
        (IsTrue L.tells) (L.given link.old) (L.given link.new) (L.written link.old)
        (L.written link.new) (L.left link.new) result.ended result.taken result.failure }
    ensures most { result.taken ≤ spent_len }
    ensures reads { ReadCause result.ended (L.read_faults link.old) (L.read_faults link.new) }
    ensures writes { WriteCause result.ended (L.write_faults link.old) (L.write_faults link.new) }
    ensures memory { result.ended ≡ Ended.NoMemory → link.new ≡ link.old }
{
    let mut served = Served {
        ended: Ended::NoMemory,
        taken: 0,
        failure: None,
    };
    let Ok(mut buffers) = Buffers::new(alloc) else {
        return served;
    };
    loop {
        if let Err(ended) = turn(alloc, view, blocks, link, &mut buffers, &mut served) {
            served.ended = ended;
            return served;
        }
    }
}

/// A message and its reply.
#[derive(Drop)]
struct Buffers {
    message: Vec<u8>,
    reply: Vec<u8>,
}

impl Buffers {
    /// Both of zeros, and each as long as the longest message.
    fn new(alloc: Global) -> Result<Self, AllocError>
        ensures message { IfOk result (λ b. length b.message.items ≡ 65536) }
        ensures reply { IfOk result (λ b. length b.reply.items ≡ 65536) }
    {
        Ok(Buffers {
            message: vec![in alloc; 0; MAX_MESSAGE]?,
            reply: vec![in alloc; 0; MAX_MESSAGE]?,
        })
    }
}

/// Takes one message, answers it, and writes the reply; or tells how the connection ends.
fn turn<B: Blocks, L: Link>(
    alloc: Global,
    view: &mut View,
    blocks: &mut B,
    link: &mut L,
    buffers: &mut Buffers,
    served: &mut Served,
) -> Result<(), Ended>
    requires message { length buffers.old.message.items ≡ 65536 }
    requires reply { length buffers.old.reply.items ≡ 65536 }
    requires taken { served.old.taken ≤ spent_len }
    ensures message { length buffers.new.message.items ≡ 65536 }
    ensures reply { length buffers.new.reply.items ≡ 65536 }
    ensures most { served.new.taken ≤ spent_len }
    ensures turns { Turns B.does B.holds B.score_of blocks.old blocks.new view.old view.new
        (IsTrue L.tells) (L.given link.old) (L.given link.new) (L.written link.old)
        (L.written link.new) (L.left link.new) served.old.taken served.new.taken
        served.old.failure served.new.failure result }
    ensures less { OnOk result (served.old.taken < served.new.taken) }
    ensures memory { IfErr result (λ ended. ended ≢ Ended.NoMemory) }
    ensures reads { ReadsSo result (L.read_faults link.old) (L.read_faults link.new) }
    ensures writes { WritesSo result (L.write_faults link.old) (L.write_faults link.new) }
{
    let len = hear(view.limit(), &mut served.taken, &mut buffers.message, link)?;
    let message = &buffers.message[..len];
    let answered = view.answer(alloc, blocks, message, &mut buffers.reply);
    keep_first(&mut served.failure, answered.failure);
    match link.put(&buffers.reply[..answered.len]) {
        Ok(()) => Ok(()),
        Err(Failed) => Err(Ended::WriteFault),
    }
}

/// Keeps the failure of the first read of the archive that failed.
fn keep_first(first: &mut Option<VacBad>, failure: Option<VacBad>)
    ensures { first.new ≡ option_or first.old failure }
{
    if first.is_none() {
        *first = failure;
    }
}

/// Takes a whole message of at most so many bytes into the buffer's front, and says how many it
/// has; or tells how the connection ends.
fn hear<L: Link>(
    limit: usize,
    taken: &mut u64,
    message: &mut [u8],
    link: &mut L,
) -> Result<usize, Ended>
    requires room { length message.old ≡ 65536 }
    requires most { limit ≤ 65536 }
    requires taken { taken.old ≤ spent_len }
    ensures hears { HearsMessage (IsTrue L.tells) (L.given link.old) (L.given link.new)
        (L.left link.new) limit taken.old taken.new message.new result }
    ensures most { taken.new ≤ spent_len }
    ensures written { IsTrue L.tells → L.written link.new ≡ L.written link.old }
    ensures reads { ReadsSo result (L.read_faults link.old) (L.read_faults link.new) }
    ensures writes { L.write_faults link.new ≡ L.write_faults link.old }
{
    // (size[4] counts itself; behind it there are type[1] and tag[2] at least, so 7 bytes)
    fill(taken, false, &mut message[..4], link)?;
    let size = LittleEndian::read_u32(message) as usize;
    if size < 7 || size > limit {
        return Err(Ended::Malformed(*taken - 4));
    }
    fill(taken, true, &mut message[4..size], link)?;
    Ok(size)
}

/// Fills the buffer from the link, inside a message or in front of one; or tells how the connection
/// ends.
fn fill<L: Link>(taken: &mut u64, inside: bool, buf: &mut [u8], link: &mut L) -> Result<(), Ended>
    requires small { length buf.old ≤ 65536 }
    requires taken { taken.old ≤ spent_len }
    ensures fills { FillsBuffer (IsTrue L.tells) (L.given link.old) (L.given link.new)
        (L.left link.new) taken.old taken.new inside buf.new result }
    ensures most { taken.new ≤ spent_len }
    ensures written { IsTrue L.tells → L.written link.new ≡ L.written link.old }
    ensures reads { ReadsSo result (L.read_faults link.old) (L.read_faults link.new) }
    ensures writes { L.write_faults link.new ≡ L.write_faults link.old }
{
    let mut have = 0;
    while have < buf.len() {
        let most = (buf.len() - have).min(left_to_take(*taken));
        if most == 0 {
            return Err(Ended::Spent);
        }
        match link.take(&mut buf[have..have + most]) {
            Err(Failed) => return Err(Ended::ReadFault),
            Ok(0) if have == 0 && !inside => return Err(Ended::Closed),
            Ok(0) => return Err(Ended::Cut),
            Ok(n) => {
                have += n;
                *taken += n as u64;
            }
        }
    }
    Ok(())
}

/// How many bytes may still be taken, where so many were, and no more than a message has.
fn left_to_take(taken: u64) -> usize
    requires { taken ≤ spent_len }
    ensures { result ≡ min (spent_len - taken) 65536 }
{
    (MAX_TAKEN - taken).min(MAX_MESSAGE as u64) as usize
}
