//! Answering a message: a request's type says which of the files beside this one answers it.

ghost use Rattle.std.specs.Prelude.{◌≡◌, ◌==◌, ◌≤◌, ℕ, List, IsSome, Some, None, length, take};
ghost use Rattle.std.specs.List.{position_or_len};
ghost use Rattle.nine_wire.specs.Messages.{RMessage, r_clunk, r_error, r_flush};
ghost use Rattle.nine_wire.specs.Views.{message_of};
ghost use Rattle.nine_view.specs.Answers.{request as asks, answer_to, answer_first, answer_agreed};
ghost use Rattle.nine_view.specs.Answers.{is_ours, may_open, of_fid, refused_answer, settled, stays};
ghost use Rattle.nine_view.specs.Answers.{to_attach, to_open, to_stat, to_version, with_known};
ghost use Rattle.nine_view.specs.Handling.{Handles, Says, SaysSo, SetsFid, SettlesRequest, SettlesSo};
ghost use Rattle.nine_view.specs.Handling.{archive_failure};
ghost use Rattle.nine_view.specs.Known.{limit, without_fid};
ghost use Rattle.nine_view.specs.Refusals.{refusal_words};
ghost use Rattle.nine_view.specs.Replies.{IsMessage, AnswersMessage};

use crate::error::{AnswerError, failure_words, first};
use crate::stats::{is_folder, qid_of, stat_len, stat_of};
use crate::{MAX_FIDS, MAX_MESSAGE, MIN_MESSAGE, Place, Reading, RequestError, View, Way};
use nine_wire::{NO_FID, NineError, Reply, Request, decode, encode};
use std::alloc::Global;
use vac_read::{Stored, VacBad};
use vt_tree::Blocks;

/// How many bytes of an Rstat stand before what is told of the file.
const STAT_HEAD: usize = 9;

/// What came of a message.
#[derive(Drop)]
pub struct Answered {
    /// How many bytes the reply has.
    pub len: usize,
    /// Why the archive couldn't be read, if it couldn't.
    pub failure: Option<VacBad>,
}

impl View {
    /// Answers a whole message, and writes the reply to the front of the buffer.
    pub fn answer<B: Blocks>(
        &mut self,
        alloc: Global,
        blocks: &mut B,
        message: &[u8],
        out: &mut [u8],
    ) -> Answered
        requires whole { IsMessage message.now }
        requires room { length out.old ≡ 65536 }
        ensures replies { AnswersMessage B.does B.holds B.score_of blocks.old blocks.new self.old
            self.new
            message.now (take result.len out.new) result.failure }
        ensures short { result.len ≤ limit self.old }
    {
        let limit = self.limit();
        match decode(message) {
            Ok((tag, request)) => {
                let answer = self.answer_request(alloc, blocks, tag, &request, out);
                said(tag, limit, answer, out)
            }
            Err(NineError::Unknown { tag }) => refuse(tag, RequestError::UnknownMessage, out),
            Err(NineError::Bad { tag }) => refuse(tag, RequestError::BadMessage, out),
            Err(NineError::Short) => unreachable!(),
        }
    }

    /// Answers a request by its type, once a message size is agreed.
    fn answer_request<B: Blocks>(
        &mut self,
        alloc: Global,
        blocks: &mut B,
        tag: u16,
        request: &Request<'_>,
        out: &mut [u8],
    ) -> Result<usize, AnswerError>
        requires { length out.old ≡ 65536 }
        ensures { Handles B.does B.holds B.score_of blocks.old blocks.new tag self.old self.new
            out.new result (answer_to self.old (asks (message_of request.now))) }
    {
        match self.msize {
            Some(msize) => self.answer_agreed(alloc, blocks, tag, msize, request, out),
            None => self.answer_first(tag, request, out),
        }
    }

    /// Answers a request where no version is agreed.
    fn answer_first(
        &mut self,
        tag: u16,
        request: &Request<'_>,
        out: &mut [u8],
    ) -> Result<usize, AnswerError>
        requires { length out.old ≡ 65536 }
        ensures { SettlesSo tag self.old self.new out.new result
            (answer_first self.old (message_of request.now)) }
    {
        match request {
            Request::Version { msize, version } => self.version(tag, *msize, version, out),
            _ => Err(RequestError::VersionExpected.into()),
        }
    }

    /// Answers a request where messages of this size are agreed.
    fn answer_agreed<B: Blocks>(
        &mut self,
        alloc: Global,
        blocks: &mut B,
        tag: u16,
        msize: u32,
        request: &Request<'_>,
        out: &mut [u8],
    ) -> Result<usize, AnswerError>
        requires agreed { self.old.msize ≡ Some msize }
        requires least { 256 ≤ msize }
        requires room { length out.old ≡ 65536 }
        ensures { Handles B.does B.holds B.score_of blocks.old blocks.new tag self.old self.new
            out.new result (answer_agreed self.old msize (message_of request.now)) }
    {
        match request {
            Request::Version { msize, version } => self.version(tag, *msize, version, out),
            Request::Auth { .. } => Err(RequestError::NoAuthentication.into()),
            Request::Attach { fid, afid, .. } => self.attach(alloc, tag, *fid, *afid, out),
            Request::Flush { .. } => self.flush(tag, out),
            Request::Walk { fid, newfid, names } => {
                self.walk(alloc, blocks, tag, *fid, *newfid, names, out)
            }
            Request::Open { fid, mode } => self.open(tag, msize, *fid, *mode, out),
            Request::Create { fid, .. } => self.change(*fid),
            Request::Read { fid, offset, count } => {
                self.read(alloc, blocks, tag, *fid, *offset, *count, out)
            }
            Request::Write { fid, .. } => self.change(*fid),
            Request::Clunk { fid } => self.clunk(tag, *fid, out),
            Request::Remove { fid } => self.remove(*fid),
            Request::Stat { fid } => self.stat(tag, msize, *fid, out),
            Request::Wstat { fid, .. } => self.change(*fid),
        }
    }

    /// Agrees on a version (version(5)).
    fn version(
        &mut self,
        tag: u16,
        msize: u32,
        version: &[u8],
        out: &mut [u8],
    ) -> Result<usize, AnswerError>
        requires { length out.old ≡ 65536 }
        ensures { SettlesRequest tag self.old self.new out.new result
            (to_version self.old msize version.now) }
    {
        if msize < MIN_MESSAGE {
            return Err(RequestError::SmallSize.into());
        }
        let msize = msize.min(MAX_MESSAGE as u32);
        self.fids.clear();
        if !is_ours(version) {
            self.msize = None;
            let version = b"unknown";
            return Ok(encode(tag, &Reply::Version { msize, version }, out));
        }
        self.msize = Some(msize);
        let version = b"9P2000";
        Ok(encode(tag, &Reply::Version { msize, version }, out))
    }

    /// Sets a fid at the top folder (attach(5)).
    fn attach(
        &mut self,
        alloc: Global,
        tag: u16,
        fid: u32,
        afid: u32,
        out: &mut [u8],
    ) -> Result<usize, AnswerError>
        requires agreed { IsSome self.old.msize }
        requires room { length out.old ≡ 65536 }
        ensures { SetsFid tag self.old self.new out.new result (to_attach self.old fid afid) }
    {
        if afid != NO_FID {
            return Err(RequestError::NoAuthentication.into());
        }
        if fid == NO_FID {
            return Err(RequestError::BadFid.into());
        }
        if self.fids.contains(fid) {
            return Err(RequestError::FidInUse.into());
        }
        if self.fids.len() >= MAX_FIDS {
            return Err(RequestError::TooManyFids.into());
        }
        let top = Place {
            node: self.top.copied(alloc)?,
            above: Way::new(alloc),
        };
        self.fids.set(fid, top.unopened())?;
        Ok(encode(tag, &Reply::Attach(qid_of(&self.top)), out))
    }

    /// Answers a flush: what it names was answered before it (flush(5)).
    fn flush(&self, tag: u16, out: &mut [u8]) -> Result<usize, AnswerError>
        requires agreed { IsSome self.now.msize }
        requires room { length out.old ≡ 65536 }
        ensures { SettlesRequest tag self.now self.now out.new result (stays self.now r_flush) }
    {
        // (so that what a view keeps is known here)
        let _ = &self.msize;
        Ok(encode(tag, &Reply::Flush, out))
    }

    /// Opens a fid (open(5)).
    fn open(
        &mut self,
        tag: u16,
        msize: u32,
        fid: u32,
        mode: u8,
        out: &mut [u8],
    ) -> Result<usize, AnswerError>
        requires agreed { self.old.msize ≡ Some msize }
        requires room { length out.old ≡ 65536 }
        ensures { SettlesSo tag self.old self.new out.new result
            (of_fid self.old fid (λ f. settled (to_open self.old msize fid mode f))) }
    {
        let Some(f) = self.fids.get(fid) else {
            return Err(RequestError::UnknownFid.into());
        };
        if f.reading.is_some() {
            return Err(RequestError::FidIsOpen.into());
        }
        if !may_open(&f.node.stored, mode) {
            return Err(RequestError::ReadOnly.into());
        }
        let qid = qid_of(&f.node);
        self.fids.set_reading(fid, Reading::new());
        // 24: room for the rest of a message round its data, as Plan 9's IOHDRSZ.
        let iounit = msize - 24;
        Ok(encode(tag, &Reply::Open { qid, iounit }, out))
    }

    /// Refuses to change a file.
    fn change(&self, fid: u32) -> Result<usize, AnswerError>
        ensures { (tag : ℕ) (out : List ℕ) → SettlesSo tag self.now self.now out result
            (of_fid self.now fid (λ f. refused_answer self.now RequestError.ReadOnly)) }
    {
        if self.fids.contains(fid) {
            Err(RequestError::ReadOnly.into())
        } else {
            Err(RequestError::UnknownFid.into())
        }
    }

    /// Forgets a fid (clunk(5)).
    fn clunk(&mut self, tag: u16, fid: u32, out: &mut [u8]) -> Result<usize, AnswerError>
        requires agreed { IsSome self.old.msize }
        requires room { length out.old ≡ 65536 }
        ensures { SettlesSo tag self.old self.new out.new result (of_fid self.old fid (λ f.
            settled (with_known self.old (without_fid fid self.old.fids) r_clunk))) }
    {
        if !self.fids.contains(fid) {
            return Err(RequestError::UnknownFid.into());
        }
        self.fids.remove(fid);
        Ok(encode(tag, &Reply::Clunk, out))
    }

    /// Refuses to remove a file, whose fid is forgotten (remove(5)).
    fn remove(&mut self, fid: u32) -> Result<usize, AnswerError>
        ensures { (tag : ℕ) (out : List ℕ) → SettlesSo tag self.old self.new out result
            (of_fid self.old fid (λ f. settled (with_known self.old
            (without_fid fid self.old.fids) (r_error (refusal_words RequestError.ReadOnly))))) }
    {
        if !self.fids.contains(fid) {
            return Err(RequestError::UnknownFid.into());
        }
        self.fids.remove(fid);
        Err(RequestError::ReadOnly.into())
    }

    /// Tells of a file (stat(5)).
    fn stat(&self, tag: u16, msize: u32, fid: u32, out: &mut [u8]) -> Result<usize, AnswerError>
        requires agreed { self.now.msize ≡ Some msize }
        requires room { length out.old ≡ 65536 }
        ensures { SettlesSo tag self.now self.now out.new result
            (of_fid self.now fid (λ f. settled (to_stat self.now msize f))) }
    {
        let Some(f) = self.fids.get(fid) else {
            return Err(RequestError::UnknownFid.into());
        };
        let stat = stat_of(&f.node);
        if STAT_HEAD + stat_len(&stat) > msize as usize {
            return Err(RequestError::SmallCount.into());
        }
        Ok(encode(tag, &Reply::Stat(stat), out))
    }
}

/// Whether what is stored so may be opened for this: 0 is reading, and 3 is executing a file.
fn may_open(stored: &Stored, mode: u8) -> bool
    ensures { result ≡ may_open stored.now mode }
{
    mode == 0 || (mode == 3 && !is_folder(stored))
}

/// Whether a version, up to its first period, is this one.
fn is_ours(version: &[u8]) -> bool
    ensures { result ≡ is_ours version.now }
{
    first(version, name_len(version)) == b"9P2000".as_slice()
}

/// How many bytes stand before the first period.
fn name_len(version: &[u8]) -> usize
    ensures { result ≡ position_or_len (λ b. b == 46) version.now }
{
    version.iter().take_while(|byte| **byte != b'.').count()
}

/// Writes the error that is still to be said, if one is.
fn said(tag: u16, limit: usize, answer: Result<usize, AnswerError>, out: &mut [u8]) -> Answered
    requires least { 256 ≤ limit }
    requires most { limit ≤ 65536 }
    requires room { length out.old ≡ 65536 }
    ensures said { (reply : RMessage) → SaysSo tag limit out.old answer reply
        → Says tag limit out.new result.len reply }
    ensures failure { result.failure ≡ archive_failure answer }
{
    match answer {
        Ok(len) => Answered { len, failure: None },
        Err(AnswerError::Refused(why)) => refuse(tag, why, out),
        Err(AnswerError::Failed(bad)) => {
            let len = encode(tag, &Reply::Error(failure_words(limit, &bad)), out);
            Answered {
                len,
                failure: Some(bad),
            }
        }
    }
}

/// Writes an Rerror with the words of this refusal.
fn refuse(tag: u16, why: RequestError, out: &mut [u8]) -> Answered
    requires { length out.old ≡ 65536 }
    ensures says { Says tag 256 out.new result.len (r_error (refusal_words why)) }
    ensures failure { result.failure ≡ None }
{
    let len = encode(tag, &Reply::Error(why.words()), out);
    Answered { len, failure: None }
}
