//! Reading files and folders (read(5)).

ghost use Rattle.std.specs.Prelude.{◌≡◌, ◌≢◌, ◌==◌, ◌&&◌, ◌≤◌, not, nat_le, nat_lt, List, Some};
ghost use Rattle.std.specs.Prelude.{IfNone, IfSome, IsSome, length, drop};
ghost use Rattle.std.specs.List.{All};
ghost use Rattle.vac_read.specs.declared.node.Node.{Node};
ghost use Rattle.nine_view.specs.declared.fid.Fid.{Fid};
ghost use Rattle.nine_view.specs.declared.fid.Reading.{Reading};
ghost use Rattle.nine_view.specs.Answers.{first_file, is_rest, of_fid, reads_files, to_folder};
ghost use Rattle.nine_view.specs.Answers.{to_read};
ghost use Rattle.nine_view.specs.Files.{FitsMessage, stat_in};
ghost use Rattle.nine_view.specs.Handling.{Handles, KeepsFiles, PutsNext, SettlesRequest};
ghost use Rattle.nine_view.specs.Known.{fid_at};

use crate::error::{AnswerError, first};
use crate::fids::Fids;
use crate::stats::{put_files, stat_len, stat_of};
use crate::{Reading, RequestError, View};
use nine_wire::{Reply, encode};
use std::alloc::Global;
use vac_read::{Node, Stored, VacBad, list, read_on_way};
use vt_tree::Blocks;

impl View {
    /// Answers a read of at most so many bytes, and of no more than a message has room for.
    pub(crate) fn read<B: Blocks>(
        &mut self,
        alloc: Global,
        blocks: &mut B,
        tag: u16,
        fid: u32,
        offset: u64,
        count: u32,
        out: &mut [u8],
    ) -> Result<usize, AnswerError>
        requires agreed { IsSome self.old.msize }
        requires out { length out.old ≡ 65536 }
        ensures { Handles B.does B.holds B.score_of blocks.old blocks.new tag self.old self.new
            out.new result
            (of_fid self.old fid (λ f. to_read self.old fid offset count f f.reading)) }
    {
        let Some(f) = self.fids.get(fid) else {
            return Err(RequestError::UnknownFid.into());
        };
        let Some(reading) = f.reading else {
            return Err(RequestError::FidNotOpen.into());
        };
        let stored = f.node.stored;
        match stored {
            Stored::File(_) => {
                let room = count.min(self.most_data() as u32);
                let bytes = read_on_way(alloc, blocks, &mut self.way, &stored, offset, room)?;
                let told = first(bytes.as_slice(), room as usize);
                Ok(encode(tag, &Reply::Read(told), out))
            }
            Stored::Folder { .. } => {
                if is_bad_offset(&reading, offset) {
                    return Err(RequestError::BadOffset.into());
                }
                self.read_folder(alloc, blocks, tag, fid, offset, count, out)
            }
        }
    }

    /// Answers a read of an open folder, of which the files are kept once they are listed.
    fn read_folder<B: Blocks>(
        &mut self,
        alloc: Global,
        blocks: &mut B,
        tag: u16,
        fid: u32,
        offset: u64,
        count: u32,
        out: &mut [u8],
    ) -> Result<usize, AnswerError>
        requires out { length out.old ≡ 65536 }
        ensures { (f : Fid) (r : Reading) → fid_at fid self.old.fids ≡ Some f
            → f.reading ≡ Some r → Handles B.does B.holds B.score_of blocks.old blocks.new tag
            self.old self.new out.new result
            (to_folder self.old fid f r offset count f.files) }
    {
        self.list_files(alloc, blocks, fid)?;
        self.tell_files(tag, fid, offset, count, out)
    }

    /// Lists the files of an open folder, unless they are kept.
    fn list_files<B: Blocks>(
        &mut self,
        alloc: Global,
        blocks: &mut B,
        fid: u32,
    ) -> Result<(), VacBad>
        ensures keeps { (f : Fid) → fid_at fid self.old.fids ≡ Some f
            → KeepsFiles B.does B.holds B.score_of blocks.old blocks.new
            self.old self.new fid f result f.files }
        ensures msize { self.new.msize ≡ self.old.msize }
    {
        let Some(f) = self.fids.get(fid) else {
            return Ok(());
        };
        if f.files.is_some() {
            return Ok(());
        }
        let files = list(alloc, blocks, &f.node)?;
        self.fids.keep(fid, files);
        Ok(())
    }

    /// Tells of the files of an open folder, from its start on or from where the last read ended, in so many bytes at
    /// most.
    fn tell_files(
        &mut self,
        tag: u16,
        fid: u32,
        offset: u64,
        count: u32,
        out: &mut [u8],
    ) -> Result<usize, AnswerError>
        requires out { length out.old ≡ 65536 }
        ensures { (f : Fid) (r : Reading) (files : List Node) → fid_at fid self.old.fids ≡ Some f
            → f.reading ≡ Some r → f.files ≡ Some files
            → SettlesRequest tag self.old self.new out.new result
            (reads_files self.old fid f r offset count files) }
    {
        let most = self.most_data();
        let (reading, len) = put_next(&self.fids, fid, offset, count, most, &mut self.stats)?;
        self.fids.set_reading(fid, reading);
        Ok(encode(tag, &Reply::Read(&self.stats[..len]), out))
    }
}

/// Writes what a read by this count tells of the files of an open folder to the front of the buffer, and says how far
/// the folder is read then, and in how many bytes. A message has room for so many bytes at most.
fn put_next(
    fids: &Fids,
    fid: u32,
    offset: u64,
    count: u32,
    most: usize,
    buf: &mut [u8],
) -> Result<(Reading, usize), RequestError>
    requires told { (f : Fid) → fid_at fid fids.now ≡ Some f → IfSome f.files (All FitsMessage) }
    requires room { most ≤ length buf.old }
    ensures { PutsNext fids.now fid offset count most buf.new result }
{
    let Some((files, reading)) = listed(fids, fid) else {
        return Err(RequestError::FidNotOpen);
    };
    let from = first_file(&reading, offset);
    let next = files_from(files, from);
    let (told, len) = put_files(next, (count as usize).min(most), buf);
    let rest = is_rest(&reading, offset, count, most, next);
    if is_small(told, from, count_of(files), rest) {
        return Err(RequestError::SmallCount);
    }
    let reading = Reading {
        next: from + told,
        offset: u128::from(offset) + len as u128,
        left: count - len as u32,
    };
    Ok((reading, len))
}

/// The files of an open folder, where they are kept, and how far it was read.
fn listed(fids: &Fids, fid: u32) -> Option<(&[Node], Reading)>
    ensures some { IfSome result (λ l. (f : Fid) × (fid_at fid fids.now ≡ Some f)
        × (f.files ≡ Some l.0.now) × (f.reading ≡ Some l.1)) }
    ensures none { IfNone result ((f : Fid) (r : Reading) (files : List Node)
        → fid_at fid fids.now ≡ Some f → f.reading ≡ Some r → f.files ≢ Some files) }
{
    let f = fids.get(fid)?;
    let files = f.files.as_ref()?;
    let reading = f.reading?;
    Some((files.as_slice(), reading))
}

/// Whether a folder is read neither from its start nor from where the last read ended.
fn is_bad_offset(reading: &Reading, offset: u64) -> bool
    ensures { result ≡ (not (offset == 0) && not (offset == reading.now.offset)) }
{
    offset != 0 && u128::from(offset) != reading.offset
}

/// The number of the file with which a read begins: the first one, or the next.
fn first_file(reading: &Reading, offset: u64) -> usize
    ensures { result ≡ first_file reading.now offset }
{
    if offset == 0 { 0 } else { reading.next }
}

/// Whether there are files from this number on, of so many, not one of them was told, and it isn't the rest of a count
/// that is asked for.
fn is_small(told: usize, from: usize, files: usize, rest: bool) -> bool
    ensures { result ≡ ((told == 0 && nat_lt from files) && not rest) }
{
    told == 0 && from < files && !rest
}

/// Whether just what the last read left of its count is asked for, behind it, and the first of these files has room in
/// a message of data of so many bytes.
fn is_rest(reading: &Reading, offset: u64, count: u32, most: usize, next: &[Node]) -> bool
    requires { All FitsMessage next.now }
    ensures { result ≡ is_rest most reading.now offset count next.now }
{
    match next.first() {
        Some(node) => {
            let has_room = has_room(node, most);
            offset != 0 && count == reading.left && has_room
        }
        None => false,
    }
}

/// Whether what is told of a file has room in so many bytes.
fn has_room(node: &Node, room: usize) -> bool
    requires { FitsMessage node.now }
    ensures { result ≡ nat_le (length (stat_in node.now)) room }
{
    let stat = stat_of(node);
    stat_len(&stat) <= room
}

/// How many files there are.
fn count_of(files: &[Node]) -> usize
    ensures { result ≡ length files.now }
{
    files.len()
}

/// The files from this number on, that one among them; none where there are fewer.
fn files_from(files: &[Node], from: usize) -> &[Node]
    ensures { result.now ≡ drop from files.now }
{
    &files[from.min(files.len())..]
}
