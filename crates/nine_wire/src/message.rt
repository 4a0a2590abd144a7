//! Messages, over the bytes of their frames.

use crate::{Names, Qid, Stat};

/// A message of a client (manual section 5).
#[derive(Drop)]
pub enum Request<'a> {
    /// Begins anew, in this version and with messages of at most `msize` bytes (version(5)).
    Version {
        msize: u32,
        version: &'a [u8],
    },
    /// Asks to authenticate a user (attach(5)).
    Auth {
        afid: u32,
        uname: &'a [u8],
        aname: &'a [u8],
    },
    /// Sets `fid` at the top folder; `afid` is `NO_FID` without authentication (attach(5)).
    Attach {
        fid: u32,
        afid: u32,
        uname: &'a [u8],
        aname: &'a [u8],
    },
    /// Asks that the request of this tag be dropped (flush(5)).
    Flush {
        oldtag: u16,
    },
    /// Sets `newfid` where these names lead from `fid` (walk(5)).
    Walk {
        fid: u32,
        newfid: u32,
        names: Names<'a>,
    },
    /// Opens the file of a fid, to be read or written as `mode` says (open(5)).
    Open {
        fid: u32,
        mode: u8,
    },
    /// Makes a file of this name in the folder of a fid (open(5)).
    Create {
        fid: u32,
        name: &'a [u8],
        perm: u32,
        mode: u8,
    },
    /// Asks for `count` bytes from this place on, or for what of them there is (read(5)).
    Read {
        fid: u32,
        offset: u64,
        count: u32,
    },
    /// Writes these bytes from this place on (read(5)).
    Write {
        fid: u32,
        offset: u64,
        bytes: &'a [u8],
    },
    /// Forgets a fid (clunk(5)).
    Clunk {
        fid: u32,
    },
    /// Removes the file of a fid, and forgets the fid (remove(5)).
    Remove {
        fid: u32,
    },
    /// Asks what is known of the file of a fid (stat(5)).
    Stat {
        fid: u32,
    },
    /// Changes what is known of it (stat(5)).
    Wstat {
        fid: u32,
        stat: &'a [u8],
    },
}

/// A message of this server, which answers auth, create, write, remove and wstat with errors alone.
#[derive(Clone, Copy)]
pub enum Reply<'a> {
    /// The version, or `unknown`, and the most bytes of a message that are agreed.
    Version { msize: u32, version: &'a [u8] },
    /// The top folder.
    Attach(Qid),
    /// What was to be dropped was answered before.
    Flush,
    /// The files on the way, as far as the names lead.
    Walk(&'a [Qid]),
    /// The file, and the most bytes that one read of it gives.
    Open { qid: Qid, iounit: u32 },
    /// Bytes of a file, or what is known of files of a folder.
    Read(&'a [u8]),
    /// The fid is forgotten.
    Clunk,
    Stat(Stat<'a>),
    /// Why the request wasn't done.
    Error(&'a [u8]),
}

/// Why a message isn't one of these: the first test that fails. Beside the first it tells the tag.
#[derive(Clone, Copy, Debug, PartialEq, Eq)]
pub enum NineError {
    /// It is no whole message, or has a size below 7.
    Short,
    /// No request has this type.
    Unknown { tag: u16 },
    /// The parameters don't fill the message.
    Bad { tag: u16 },
}
