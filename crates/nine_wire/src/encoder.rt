//! Writing replies.

ghost use Rattle.std.specs.Prelude.{◌≡◌, ◌+◌, ◌*◌, ◌≤◌, ◌++◌, ◌<◌, ◌^◌, if◌then◌else◌};
ghost use Rattle.std.specs.Prelude.{length, take, drop, map};
ghost use Rattle.byteorder.specs.Endian.{little_bytes};
ghost use Rattle.std.specs.List.{flat_map};
ghost use Rattle.nine_wire.specs.Frames.{spelled_reply};
ghost use Rattle.nine_wire.specs.Messages.{FitsReply, FitsStat, qid_bytes, stat_bytes};
ghost use Rattle.nine_wire.specs.Messages.{stat_numbers, reply_type, reply_parameters};
ghost use Rattle.nine_wire.specs.Views.{wire_qid, reply_of, wire_stat};
ghost use Rattle.nine_wire.specs.Writing.{WritesField};

use crate::fields::{put_string, put_u16, put_u32, put_u64};
use crate::{Qid, Reply, Stat};
use vt_base::fields::{put, put_u8};

/// Writes a reply under its request's tag to the front of the buffer, and says how many bytes it
/// has.
pub fn encode(tag: u16, reply: &Reply<'_>, buf: &mut [u8]) -> usize
    requires fits { FitsReply (reply_of reply.now) }
    requires room { length (spelled_reply tag (reply_of reply.now)) ≤ length buf.old }
    ensures written { take result buf.new ≡ spelled_reply tag (reply_of reply.now) }
    ensures len { result ≡ length (spelled_reply tag (reply_of reply.now)) }
    ensures behind { drop result buf.new ≡ drop result buf.old }
{
    let at = put_u8(buf, 4, type_of(reply));
    let at = put_u16(buf, at, tag);
    let end = put_parameters(buf, at, reply);
    put_u32(buf, 0, end as u32);
    end
}

/// The type of a reply.
fn type_of(reply: &Reply<'_>) -> u8
    ensures { result ≡ reply_type (reply_of reply.now) }
{
    match reply {
        Reply::Version { .. } => 101,
        Reply::Attach(_) => 105,
        Reply::Error(_) => 107,
        Reply::Flush => 109,
        Reply::Walk(_) => 111,
        Reply::Open { .. } => 113,
        Reply::Read(_) => 117,
        Reply::Clunk => 121,
        Reply::Stat(_) => 125,
    }
}

/// Writes a reply's parameters at this place, and gives the place behind them.
fn put_parameters(buf: &mut [u8], at: usize, reply: &Reply<'_>) -> usize
    requires fits { FitsReply (reply_of reply.now) }
    requires room { at + length (reply_parameters (reply_of reply.now)) ≤ length buf.old }
    ensures { WritesField at result buf.old buf.new (reply_parameters (reply_of reply.now)) }
{
    match reply {
        Reply::Version { msize, version } => {
            let at = put_u32(buf, at, *msize);
            put_string(buf, at, version)
        }
        Reply::Attach(qid) => put_qid(buf, at, qid),
        Reply::Flush | Reply::Clunk => at,
        Reply::Walk(qids) => put_qids(buf, at, qids),
        Reply::Open { qid, iounit } => {
            let at = put_qid(buf, at, qid);
            put_u32(buf, at, *iounit)
        }
        Reply::Read(bytes) => {
            let at = put_u32(buf, at, bytes.len() as u32);
            put(buf, at, bytes)
        }
        Reply::Stat(stat) => {
            let end = put_stat(buf, at + 2, stat);
            put_u16(buf, at, (end - at - 2) as u16);
            end
        }
        Reply::Error(text) => put_string(buf, at, text),
    }
}

/// Writes a qid at this place, and gives the place behind it.
fn put_qid(buf: &mut [u8], at: usize, qid: &Qid) -> usize
    requires { at + 13 ≤ length buf.old }
    ensures { WritesField at result buf.old buf.new (qid_bytes (wire_qid qid.now)) }
{
    let at = put_u8(buf, at, qid_type(qid));
    let at = put_u32(buf, at, 0);
    put_u64(buf, at, qid.path)
}

/// The type that a qid has on the wire.
fn qid_type(qid: &Qid) -> u8
    ensures { result ≡ (if qid.now.is_folder then 0x80 else 0) }
{
    if qid.is_folder { 0x80 } else { 0 }
}

/// Writes qids with their number before them, and gives the place behind them.
fn put_qids(buf: &mut [u8], at: usize, qids: &[Qid]) -> usize
    requires few { length qids.now < 2 ^ 16 }
    requires room { at + 2 + 13 * length qids.now ≤ length buf.old }
    ensures { WritesField at result buf.old buf.new
        (little_bytes 2 (length qids.now) ++ flat_map qid_bytes (map wire_qid qids.now)) }
{
    let mut at = put_u16(buf, at, qids.len() as u16);
    for qid in qids {
        at = put_qid(buf, at, qid);
    }
    at
}

/// Writes what is told of a file at this place, its size with it, and gives the place behind it.
/// The whole has fewer than 65,536 bytes.
pub fn put_stat(buf: &mut [u8], at: usize, stat: &Stat<'_>) -> usize
    requires fits { FitsStat (wire_stat stat.now) }
    requires room { at + length (stat_bytes (wire_stat stat.now)) ≤ length buf.old }
    ensures { WritesField at result buf.old buf.new (stat_bytes (wire_stat stat.now)) }
{
    // 47: type 2, dev 4, qid 13, mode 4, two times of 4, length 8, four lengths of 2.
    let size = 47 + stat.name.len() + 2 * stat.uid.len() + stat.gid.len();
    let at = put_u16(buf, at, size as u16);
    let at = put_numbers(buf, at, stat);
    let at = put_string(buf, at, stat.name);
    let at = put_string(buf, at, stat.uid);
    let at = put_string(buf, at, stat.gid);
    put_string(buf, at, stat.uid)
}

/// Writes the qid and the numbers of a file at this place, and gives the place behind them.
fn put_numbers(buf: &mut [u8], at: usize, stat: &Stat<'_>) -> usize
    requires { at + 39 ≤ length buf.old }
    ensures { WritesField at result buf.old buf.new (stat_numbers (wire_stat stat.now)) }
{
    let at = put_u16(buf, at, 0);
    let at = put_u32(buf, at, 0);
    let at = put_qid(buf, at, &stat.qid);
    let at = put_u32(buf, at, stat.mode);
    let at = put_u32(buf, at, stat.mtime);
    let at = put_u32(buf, at, stat.mtime);
    put_u64(buf, at, stat.len)
}
