//! Walking from one file to another (walk(5)).

ghost use Rattle.std.specs.Prelude.{◌≡◌, ◌≤◌, [], IfErr, IfOk, IsSome, Ok, OnErr, OnOk, length, map};
ghost use Rattle.vt_tree.specs.Maps.{BlockMap};
ghost use Rattle.vac_read.specs.Asking.{ReadsFew};
ghost use Rattle.vac_read.specs.Kept.{IsRightKept};
ghost use Rattle.nine_wire.specs.Messages.{r_walk};
ghost use Rattle.nine_wire.specs.Views.{wire_qid};
ghost use Rattle.nine_view.specs.Answers.{of_fid, to_walk, unopened};
ghost use Rattle.nine_view.specs.Asking.{KeepsSearched, StepAsks, WalkAsks};
ghost use Rattle.nine_view.specs.Handling.{Handles, Says};
ghost use Rattle.nine_view.specs.Known.{IsRightView, IsWay, limit, with_fid};
ghost use Rattle.nine_view.specs.Walking.{AreQids, EndsShort, IsToldPlace, MayWalk, TellsStep, TellsWalk};
ghost use Rattle.nine_view.specs.Walking.{failure_of};

use crate::error::AnswerError;
use crate::stats::{is_folder, qid_of};
use crate::{MAX_FIDS, MAX_NAMES, Place, RequestError, View};
use nine_wire::{NO_FID, Names, Qid, Reply, encode};
use std::alloc::Global;
use vac_read::{Kept, VacBad, find_item};
use vt_tree::Blocks;

/// Where names lead.
#[derive(Drop)]
struct Walked {
    /// The qids of the files on the way.
    qids: Vec<Qid>,
    /// Where the last of them leads, or why one of them doesn't lead on.
    end: Result<Place, RequestError>,
}

impl View {
    /// Sets a fid where these names lead from another.
    pub(crate) fn walk<B: Blocks>(
        &mut self,
        alloc: Global,
        blocks: &mut B,
        tag: u16,
        fid: u32,
        newfid: u32,
        names: &Names<'_>,
        out: &mut [u8],
    ) -> Result<usize, AnswerError>
        requires agreed { IsSome self.old.msize }
        requires room { length out.old ≡ 65536 }
        ensures { Handles B.does B.holds B.score_of blocks.old blocks.new tag self.old self.new
            out.new result (of_fid self.old fid (to_walk self.old fid newfid names.now)) }
    {
        let from = self.walked_from(alloc, fid, newfid, names.len())?;
        if names.is_empty() {
            return self.set_walked(tag, newfid, from, &[], out);
        }
        let walked = walk_names(alloc, blocks, &mut self.kept, from, names)?;
        let Walked { qids, end } = walked;
        match end {
            Ok(at) => self.set_walked(tag, newfid, at, &qids, out),
            Err(why) => self.tell_short(tag, &qids, why, out),
        }
    }

    /// Sets a fid where a walk ended, and tells the qids on the way.
    fn set_walked(
        &mut self,
        tag: u16,
        fid: u32,
        at: Place,
        qids: &[Qid],
        out: &mut [u8],
    ) -> Result<usize, AnswerError>
        requires told { IsToldPlace at }
        requires few { length qids.now ≤ 16 }
        requires paths { AreQids qids.now }
        requires agreed { IsSome self.old.msize }
        requires room { length out.old ≡ 65536 }
        ensures known { OnOk result (self.new
            ≡ record self.old { fids = with_fid fid (unopened at) self.old.fids }) }
        ensures says { IfOk result (λ len.
            Says tag (limit self.old) out.new len (r_walk (map wire_qid qids.now))) }
        ensures err { IfErr result (λ denied. denied ≡ AnswerError.Failed VacBad.NoMemory) }
        ensures same { OnErr result (self.new ≡ self.old) }
    {
        self.fids.set(fid, at.unopened())?;
        Ok(encode(tag, &Reply::Walk(qids), out))
    }

    /// Tells the qids on the way of a walk that led on for a while, or why its first name leads
    /// nowhere.
    fn tell_short(
        &self,
        tag: u16,
        qids: &[Qid],
        why: RequestError,
        out: &mut [u8],
    ) -> Result<usize, AnswerError>
        requires few { length qids.now ≤ 16 }
        requires paths { AreQids qids.now }
        requires room { length out.old ≡ 65536 }
        ensures { EndsShort tag (limit self.now) out.new result (map wire_qid qids.now) why }
    {
        // (so that what a view keeps is known here)
        let _ = &self.msize;
        if qids.is_empty() {
            return Err(why.into());
        }
        Ok(encode(tag, &Reply::Walk(qids), out))
    }

    /// Where a walk from this fid begins, if it may.
    fn walked_from(
        &self,
        alloc: Global,
        fid: u32,
        newfid: u32,
        names: u16,
    ) -> Result<Place, AnswerError>
        ensures may { MayWalk self.now fid newfid names result }
        ensures few { OnOk result (names ≤ 16) }
        ensures told { IfOk result IsToldPlace }
        ensures way { IfOk result (λ at. (map : BlockMap) → IsRightView map self.now
            → IsWay map self.now.top at.node at.above) }
    {
        let Some(f) = self.fids.get(fid) else {
            return Err(RequestError::UnknownFid.into());
        };
        if names > MAX_NAMES {
            return Err(RequestError::TooManyNames.into());
        }
        if f.reading.is_some() {
            return Err(RequestError::FidIsOpen.into());
        }
        if newfid == NO_FID {
            return Err(RequestError::BadFid.into());
        }
        if newfid == fid {
            return Ok(f.place(alloc)?);
        }
        if self.fids.contains(newfid) {
            return Err(RequestError::FidInUse.into());
        }
        if self.fids.len() >= MAX_FIDS {
            return Err(RequestError::TooManyFids.into());
        }
        Ok(f.place(alloc)?)
    }
}

/// Where these names lead, one after another.
fn walk_names<B: Blocks>(
    alloc: Global,
    blocks: &mut B,
    kept: &mut Kept,
    from: Place,
    names: &Names<'_>,
) -> Result<Walked, VacBad>
    requires { IsToldPlace from }
    ensures reads { ReadsFew B.does B.holds B.score_of blocks.old blocks.new result
        (λ map. IsRightKept map kept.old → IsRightKept map kept.new
        × TellsWalk from names.now result map)
        (λ map n. IsRightKept map kept.old → WalkAsks (B.score_of []) map (failure_of result)
        kept.old kept.new (Ok from) names.now n) }
    ensures few { IfOk result (λ w. length w.qids.items ≤ length names.now) }
    ensures paths { IfOk result (λ w. AreQids w.qids.items) }
    ensures told { IfOk result (λ w. IfOk w.end IsToldPlace) }
{
    let mut qids = Vec::new(alloc);
    let mut end = Ok(from);
    let mut left = names.split_first();
    while let Some((name, rest)) = left {
        let at = match end {
            Ok(at) => at,
            Err(why) => return Ok(Walked {
                qids,
                end: Err(why),
            }),
        };
        end = step(alloc, blocks, kept, at, name)?;
        if let Ok(at) = &end {
            qids.push(qid_of(&at.node))?;
        }
        left = rest.split_first();
    }
    Ok(Walked { qids, end })
}

/// One name further, or why not.
fn step<B: Blocks>(
    alloc: Global,
    blocks: &mut B,
    kept: &mut Kept,
    at: Place,
    name: &[u8],
) -> Result<Result<Place, RequestError>, VacBad>
    requires { IsToldPlace at }
    ensures reads { ReadsFew B.does B.holds B.score_of blocks.old blocks.new result
        (λ map. IsRightKept map kept.old → IsRightKept map kept.new
        × TellsStep at name.now result map)
        (λ map n. StepAsks (B.score_of []) map at.node.stored name.now kept.old kept.new n) }
    ensures kept { OnOk result (KeepsSearched at.node.stored name.now kept.new) }
    ensures told { IfOk result (λ next. IfOk next IsToldPlace) }
{
    if !is_folder(&at.node.stored) {
        return Ok(Err(RequestError::NoDirectory));
    }
    if name == b"..".as_slice() {
        return Ok(Ok(at.parent()));
    }
    match find_item(alloc, blocks, kept, &at.node, name)? {
        Some(node) => Ok(Ok(at.into_file(node)?)),
        None => Ok(Err(RequestError::NoFile)),
    }
}
