//! The command `vac STORE FOLDER`, with `-b BSIZE`: archives a folder into the store of a configuration, or
//! at a server.

ghost use Rattle.std.specs.Prelude.{◌≡◌, ◌≤◌, ℕ, List, IsTrue, Ok, IfErr, IfOk};
ghost use Rattle.vt_use.specs.Places.{CanBeOpened};
ghost use Rattle.vac_model.specs.declared.TheConstants.{MIN_BLOCK_SIZE, MAX_BLOCK_SIZE};
ghost use Rattle.vac_store.specs.Storing.{CountsFailuresAt};
ghost use Rattle.vac_write.specs.Archiving.{folder_read};
ghost use Rattle.run_base.specs.Change.{dialer_change, files_change, folders_change, parts_change, sink_change};
ghost use Rattle.run_archives.specs.Vac.{Archives, ArchivesAt, ArchivesNone, AsksForNoSize, AsksForSize, DoesVac};
ghost use Rattle.run_archives.specs.Vac.{IsArchiveRefusal, StoresFolder, StoresNone};
ghost use Rattle.run_archives.specs.Vac.{PrintsArchive, unfit_for};
ghost use Rattle.run_base.specs.Errors.{HasCauseIn, no_cause, with_dialer, with_files, with_folders, with_parts, with_sink};
ghost use Rattle.run_base.specs.Said.{Said};
ghost use Rattle.run_archives.specs.Skipped.{left_out_lines};
ghost use Rattle.run_archives.specs.Watched.{watched_folder};

use crate::skipped::tell_left_out;
use crate::watched::Watched;
use run_base::{CommandError, hexadecimal, print, store_at, told_at};
use std::alloc::Global;
use vac_model::{MAX_BLOCK_SIZE, MIN_BLOCK_SIZE};
use vac_store::{ArchiveError, ArchiveFolder, ArchivedAt, archived_at};
use vac_write::{Archived, VacErr};
use vt_base::{Failed, Scorer, Text};
use vt_conf::parse_number;
use vt_dial::Dialer;
use vt_out::{Files, Folder, Folders, OutErr, Sink};
use vt_partitions::Parts;
use vt_remote::refusals_have_causes;
use vt_tree::TreeErr;
use vt_use::{StoreAt, local_refusals_have_causes, use_at};

/// The block size where none is asked for.
const BLOCK_SIZE: u16 = 8192;

/// Reads the word and finds the store, archives the folder of this name there, at this second, says on
/// the fault sink what was left out, and prints what the archive is found by. Where something couldn't
/// be read, that is the outcome then. Gives too whether the fault sink took what was said.
pub fn vac<I: Files, G: Folders, P: Parts, N: Dialer, K: Sink, F: Sink, T: Sink + Drop, S: Scorer>(
    alloc: Global,
    files: &mut I,
    folders: &mut G,
    parts: &mut P,
    dialer: &mut N,
    sink: &mut K,
    fault_sink: &mut F,
    terminal: Option<T>,
    now: u32,
    store: &Text,
    name: &Text,
    size: &Option<Text>,
    scorer: &S,
) -> (Result<(), Failed>, Result<(), CommandError>)
    ensures does { (preface : List ℕ) × DoesVac S.score_of P.Disk.Disk N.Link.Link now store.now
        name.now size.now preface result.1 (files_change I.Files files.old files.new)
        (folders_change G.Folders folders.old folders.new)
        (parts_change P.Parts parts.old parts.new)
        (dialer_change N.Dialer N.Link.Link dialer.old dialer.new)
        (sink_change K.Sink sink.old sink.new)
        × Said result.0 (sink_change F.Sink fault_sink.old fault_sink.new) preface }
    ensures cause { HasCauseIn (with_files (files_change I.Files files.old files.new)
        (with_folders (folders_change G.Folders folders.old folders.new)
        (with_parts P.Disk.Disk (parts_change P.Parts parts.old parts.new)
        (with_dialer (dialer_change N.Dialer N.Link.Link dialer.old dialer.new)
        (with_sink (sink_change K.Sink sink.old sink.new) no_cause))))) result.1 }
{
    local_refusals_have_causes::<P::Disk>();
    refusals_have_causes::<N::Link>();
    match archive(
        alloc, files, folders, parts, dialer, terminal, now, store, name, size, scorer,
    ) {
        Ok(stored) => tell(sink, fault_sink, &stored.archived),
        Err(failure) => (Ok(()), Err(failure)),
    }
}

/// Says what was left out of an archive, and prints what it is found by.
fn tell<K: Sink, F: Sink>(
    sink: &mut K,
    fault_sink: &mut F,
    archived: &Archived,
) -> (Result<(), Failed>, Result<(), CommandError>)
    ensures said { Said result.0 (sink_change F.Sink fault_sink.old fault_sink.new)
        (left_out_lines archived.now) }
    ensures printed { PrintsArchive archived.now result.1
        (sink_change K.Sink sink.old sink.new) }
{
    let said = tell_left_out(fault_sink, archived);
    (said, print_archive(sink, archived))
}

/// Prints what an archive is found by. Where something couldn't be read, that is the outcome, once it
/// is printed.
fn print_archive<K: Sink>(sink: &mut K, archived: &Archived) -> Result<(), CommandError>
    ensures { PrintsArchive archived.now result (sink_change K.Sink sink.old sink.new) }
{
    let mut digits = [0; 40];
    let score = hexadecimal(&mut digits, &archived.score.0);
    print(sink, &[b"vac:", score, b"\n"])?;
    if archived.failed.as_slice().is_empty() {
        Ok(())
    } else {
        Err(CommandError::FolderFault)
    }
}

/// Reads the word and finds the store, and archives the folder of this name there.
fn archive<I: Files, G: Folders, P: Parts, N: Dialer, T: Sink + Drop, S: Scorer>(
    alloc: Global,
    files: &mut I,
    folders: &mut G,
    parts: &mut P,
    dialer: &mut N,
    terminal: Option<T>,
    now: u32,
    store: &Text,
    name: &Text,
    size: &Option<Text>,
    scorer: &S,
) -> Result<ArchivedAt, CommandError>
    ensures stored { IfOk result (λ stored. Archives S.score_of P.Disk.Disk N.Link.Link now store.now
        name.now size.now stored (files_change I.Files files.old files.new)
        (folders_change G.Folders folders.old folders.new)
        (parts_change P.Parts parts.old parts.new)
        (dialer_change N.Dialer N.Link.Link dialer.old dialer.new)) }
    ensures none { IfErr result (λ failure. ArchivesNone S.score_of P.Disk.Disk N.Link.Link
        now store.now name.now size.now failure (files_change I.Files files.old files.new)
        (folders_change G.Folders folders.old folders.new)
        (parts_change P.Parts parts.old parts.new)
        (dialer_change N.Dialer N.Link.Link dialer.old dialer.new)) }
{
    let bsize = size_in(size)?;
    let at = store_at(alloc, files, store)?;
    archive_at(
        alloc, folders, parts, dialer, terminal, now, store, name, &at, bsize, scorer,
    )
}

/// Archives the folder of this name into the store at a place.
fn archive_at<G: Folders, P: Parts, N: Dialer, T: Sink + Drop, S: Scorer>(
    alloc: Global,
    folders: &mut G,
    parts: &mut P,
    dialer: &mut N,
    terminal: Option<T>,
    now: u32,
    file: &Text,
    name: &Text,
    at: &StoreAt,
    bsize: u16,
    scorer: &S,
) -> Result<ArchivedAt, CommandError>
    requires can { CanBeOpened at.now }
    requires least { MIN_BLOCK_SIZE ≤ bsize }
    requires most { bsize ≤ MAX_BLOCK_SIZE }
    ensures stored { IfOk result (λ stored. StoresFolder S.score_of P.Disk.Disk N.Link.Link now name.now
        at.now bsize (Ok stored) (folders_change G.Folders folders.old folders.new)
        (parts_change P.Parts parts.old parts.new)
        (dialer_change N.Dialer N.Link.Link dialer.old dialer.new)) }
    ensures none { IfErr result (λ failure. StoresNone S.score_of P.Disk.Disk N.Link.Link now file.now
        name.now at.now bsize failure (folders_change G.Folders folders.old folders.new)
        (parts_change P.Parts parts.old parts.new)
        (dialer_change N.Dialer N.Link.Link dialer.old dialer.new)) }
{
    let folder = match folders.folder(alloc, name) {
        Ok(folder) => folder,
        Err(OutErr::Failed) => return Err(CommandError::FolderFault),
        Err(OutErr::NoMemory) => return Err(CommandError::NoMemory),
    };
    let (stored, folder, terminal) = archive_watched(
        alloc, parts, dialer, folder, terminal, now, at, bsize, scorer,
    );
    folders.done(name, folder);
    match stored {
        Ok(stored) => Ok(stored),
        Err(bad) => Err(told(alloc, terminal, file, at, bad)),
    }
}

/// Archives a folder into the store at a place, shows on the terminal how far that is, and gives both
/// back.
fn archive_watched<P: Parts, N: Dialer, F: Folder, T: Sink + Drop, S: Scorer>(
    alloc: Global,
    parts: &mut P,
    dialer: &mut N,
    folder: F,
    terminal: Option<T>,
    now: u32,
    at: &StoreAt,
    bsize: u16,
    scorer: &S,
) -> (Result<ArchivedAt, ArchiveError>, F, Option<T>)
    requires can { CanBeOpened at.now }
    requires least { MIN_BLOCK_SIZE ≤ bsize }
    requires most { bsize ≤ MAX_BLOCK_SIZE }
    ensures archives { ArchivesAt S.score_of P.Disk.Disk N.Link.Link at.now now bsize
        (folder_read F.Folder folder result.1) result.0
        (parts_change P.Parts parts.old parts.new)
        (dialer_change N.Dialer N.Link.Link dialer.old dialer.new) }
    ensures cause { CountsFailuresAt result.0 (F.faults folder) (F.faults result.1) }
    ensures stays { IsTrue F.tells → F.holds result.1 ≡ F.holds folder }
    ensures paths { IsTrue F.tells → F.may_fail result.1 ≡ F.may_fail folder }
{
    let mut watched = Watched::new(folder, terminal);
    let job = ArchiveFolder { bsize };
    let used = use_at(alloc, parts, dialer, at, scorer, now, job, &mut watched);
    let stored = archived_at(used);
    show_end(&mut watched, at, &stored);
    let (folder, terminal) = watched.into_parts();
    (stored, folder, terminal)
}

/// Shows on the terminal how many blocks are new, or were sent, where a folder was archived.
fn show_end<F: Folder, K: Sink + Drop>(
    watched: &mut Watched<F, K>,
    at: &StoreAt,
    stored: &Result<ArchivedAt, ArchiveError>,
)
    ensures { watched_folder watched.new ≡ watched_folder watched.old }
{
    let Ok(stored) = stored else {
        return;
    };
    match at {
        StoreAt::Conf(_) => watched.show_end(stored.blocks, b" new blocks\n"),
        StoreAt::Server(_) => watched.show_end(stored.blocks, b" blocks sent\n"),
    }
}

/// The block size that is asked for.
fn size_in(word: &Option<Text>) -> Result<u16, CommandError>
    ensures size { IfOk result (AsksForSize word.now) }
    ensures none { IfErr result (AsksForNoSize word.now) }
    ensures least { IfOk result (λ bsize. MIN_BLOCK_SIZE ≤ bsize) }
    ensures most { IfOk result (λ bsize. bsize ≤ MAX_BLOCK_SIZE) }
{
    let Some(word) = word else {
        return Ok(BLOCK_SIZE);
    };
    let (least, most) = (u64::from(MIN_BLOCK_SIZE), u64::from(MAX_BLOCK_SIZE));
    match parse_number(word.as_slice(), least, most) {
        Ok(bsize) => Ok(bsize as u16),
        Err(bad) => Err(CommandError::BadNumber(bad.at as u64)),
    }
}

/// What is told where a folder isn't archived.
fn told<T: Sink + Drop>(
    alloc: Global,
    terminal: Option<T>,
    file: &Text,
    at: &StoreAt,
    bad: ArchiveError,
) -> CommandError
    ensures { IsArchiveRefusal file.now at.now bad result }
{
    match bad {
        ArchiveError::Store(bad) => told_at(alloc, terminal, file, at, bad),
        ArchiveError::Folder(err) => unfit_for(err),
    }
}

/// Why a folder isn't archived; the place of what is unfit is 0.
fn unfit_for(err: VacErr) -> CommandError
    ensures { result ≡ unfit_for err }
{
    match err {
        VacErr::FolderFault => CommandError::FolderFault,
        VacErr::Tree(TreeErr::TooLong) => CommandError::TooLong(0),
        VacErr::BadName(_) => CommandError::BadName(0),
        VacErr::TooDeep(_) => CommandError::TooDeep(0),
        VacErr::Tree(_) | VacErr::NoMemory => CommandError::NoMemory,
    }
}
