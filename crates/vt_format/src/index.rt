//! Putting the sections of an index to use, which a configuration names.

ghost use Rattle.std.specs.Prelude.{◌≡◌, ◌+◌, ◌^◌, ◌<◌, ◌≤◌, ℕ, List, [], All, IsTrue, IfErr, IfOk, OnOk, length, map};
ghost use Rattle.std.specs.List.{Contains};
ghost use Rattle.vt_format.specs.Index.{AnswersFor, ArePutToUse, IndexFails, IndexesArenas, IndexesSections, IsStoppedAmong, LeavesOpened, StopsIndex, LeavesThere, files_in_order};
ghost use Rattle.vt_format.specs.Opening.{FindsArenas, NamesCause};
ghost use Rattle.vt_format.specs.Usage.{IsOpened, total_buckets};
ghost use Rattle.vt_log.specs.Logs.{arena_count};
ghost use Rattle.vt_part.specs.Parts.{disk_of, table_of, tables_of};
ghost use Rattle.vt_part.specs.Table.{arenas_end};
ghost use Rattle.vt_partitions.specs.Parts.{StaysThere};

use crate::opening::{index_error, open_arenas, open_filter, open_section};
use crate::usage::{buckets_in, put_all_to_use};
use crate::{MAX_ARENAS, MAX_BUCKETS};
use std::alloc::Global;
use vt_base::{MountBad, Scorer};
use vt_conf::{Conf, PartFile};
use vt_disk::Disk;
use vt_isect::Section;
use vt_mount_errors::of_log;
use vt_out::Progress;
use vt_part::Part;
use vt_partitions::Parts;

/// How many buckets an index has, over how many sections.
#[derive(Clone, Copy, Debug, PartialEq, Eq)]
pub struct Index {
    pub buckets: u32,
    pub sections: u32,
}

/// Why an index isn't formatted. Partitions are counted from 0 in the order of the configuration:
/// first those of arenas, then the index sections, then the Bloom filter.
#[derive(Clone, Copy, Debug, PartialEq, Eq)]
pub enum IndexError {
    /// A partition isn't handed out, or a call of it fails, before anything is written: the one
    /// with this number or, where a call fails by which the log is found, one of those of arenas.
    Fault { part: Option<u32> },
    /// What is mounted is refused, or memory runs out, before anything is written.
    Refused(MountBad),
    /// A call fails of the section with this number, when sections are written. Those behind it are
    /// as they were.
    Stopped { part: u32 },
}

/// Divides the buckets of an index over the sections that a configuration names, in order, all
/// without entries. All that it names is opened and mounted first, in order: nothing is written
/// where one is refused, and what is told is the first refusal. A section's head says that it is
/// being built while its buckets are cleared, and that it is in use behind that. It is on the disks
/// when this answers.
///
/// It makes 24 syncs a section at most, besides those by which it is mounted, whatever its length.
pub fn format_index<P: Parts, S: Scorer + Drop, G: Progress>(
    alloc: Global,
    parts: &mut P,
    scorer: S,
    progress: &mut G,
    conf: &Conf,
) -> Result<Index, IndexError>
    requires many { length (files_in_order conf.now) < 2 ^ 32 }
    // The sections have all buckets, one section behind the other.
    ensures used { IfOk result (λ it. IsTrue P.tells → IsTrue P.Disk.tells
        → ArePutToUse P.Disk.Disk (P.standing parts.old) (P.standing parts.new)
        0 it.buckets conf.now.sections.items) }
    ensures sections { IfOk result (λ it. it.sections ≡ length conf.now.sections.items) }

    // Where a call fails of a section, those before it have their buckets of all, and those behind
    // it are as they were. That one has buckets without entries only where its head says that it is
    // being built, or all of them are cleared.
    ensures stopped { IfErr result (λ bad. IsTrue P.tells → IsTrue P.Disk.tells → (total : ℕ)
        × StopsIndex P.Disk.Disk (P.standing parts.old) (P.standing parts.new)
        0 total (length conf.now.arenas.items) conf.now.sections.items bad) }

    // It is refused for the first cause in the order of the configuration.
    ensures found { IsTrue P.tells → IsTrue P.Disk.tells → AnswersFor
        (FindsArenas P.Disk.Disk (P.standing parts.old) conf.now [] [] conf.now.arenas.items)
        result }
    ensures differs { IfErr result NamesCause }
    ensures cause { IfErr result
        (IndexFails P.Disk.Disk (IsTrue P.tells) 0 (files_in_order conf.now)
        (P.standing parts.old) (P.standing parts.new) (P.faults parts.old) (P.faults parts.new)) }
    ensures faults { OnOk result (P.faults parts.new ≡ P.faults parts.old) }

    // Each partition is handed back, and only sections are written, when all are mounted.
    ensures back { IsTrue P.tells → (name : List ℕ) → LeavesThere P.Disk.Disk result
        (P.standing parts.old name) (P.standing parts.new name) }
    ensures stays { IsTrue P.tells → (name : List ℕ)
        → ¬ Contains (map (λ file. file.name) conf.now.sections.items) name
        → StaysThere P.Disk.Disk (P.standing parts.old name) (P.standing parts.new name) }
{
    let opened = Vec::new(alloc);
    let (opened, done) = index_arenas(alloc, parts, scorer, progress, conf, &conf.arenas, opened);
    drop(opened);
    done
}

/// Opens the partitions of arenas of these files, behind those that are open, and goes on. It gives
/// these back.
fn index_arenas<P: Parts, S: Scorer + Drop, G: Progress>(
    alloc: Global,
    parts: &mut P,
    scorer: S,
    progress: &mut G,
    conf: &Conf,
    files: &[PartFile],
    opened: Vec<Part<P::Disk>>,
) -> (Vec<Part<P::Disk>>, Result<Index, IndexError>)
    requires many { length opened.items + length files.now ≡ length conf.now.arenas.items }
    requires all { length (files_in_order conf.now) < 2 ^ 32 }
    requires few { arena_count (tables_of opened.items) ≤ MAX_ARENAS }
    requires rooms { All (λ part. arenas_end (table_of part) ≤ P.Disk.size (disk_of part))
        opened.items }
    ensures { IndexesArenas P.Disk.Disk (IsTrue P.tells) conf.now files.now
        (P.standing parts.old) (P.standing parts.new) (P.faults parts.old) (P.faults parts.new)
        opened.items result.0.items result.1 }
{
    let [file, rest @ ..] = files else {
        return index_log(alloc, parts, scorer, progress, conf, opened);
    };
    let number = opened.len() as u32;
    let Ok(disk) = parts.part(alloc, &file.name, None) else {
        return (opened, Err(IndexError::Fault { part: Some(number) }));
    };
    let part = match open_arenas(disk, number, arenas_in(&opened)) {
        Ok(part) => part,
        Err((bad, disk)) => {
            parts.done(&file.name, disk);
            return (opened, Err(bad));
        }
    };
    let mut opened = opened;
    if let Err(full) = opened.push(part) {
        parts.done(&file.name, full.value.into_devices());
        return (opened, Err(IndexError::Refused(MountBad::NoMemory)));
    }
    let (mut opened, done) = index_arenas(alloc, parts, scorer, progress, conf, rest, opened);
    let Some(part) = opened.pop() else {
        unreachable!()
    };
    parts.done(&file.name, part.into_devices());
    (opened, done)
}

/// How many arenas these partitions have.
fn arenas_in<D>(parts: &[Part<D>]) -> u32
    requires { arena_count (tables_of parts.now) ≤ MAX_ARENAS }
    ensures { result ≡ arena_count (tables_of parts.now) }
{
    let mut arenas = 0;
    for part in parts {
        arenas += part.count();
    }
    arenas
}

/// Finds the log of all partitions of arenas, and goes on. It gives them back.
fn index_log<P: Parts, S: Scorer + Drop, G: Progress>(
    alloc: Global,
    parts: &mut P,
    scorer: S,
    progress: &mut G,
    conf: &Conf,
    opened: Vec<Part<P::Disk>>,
) -> (Vec<Part<P::Disk>>, Result<Index, IndexError>)
    requires many { length opened.items ≡ length conf.now.arenas.items }
    requires all { length (files_in_order conf.now) < 2 ^ 32 }
    requires few { arena_count (tables_of opened.items) ≤ MAX_ARENAS }
    requires rooms { All (λ part. arenas_end (table_of part) ≤ P.Disk.size (disk_of part))
        opened.items }
    ensures { IndexesArenas P.Disk.Disk (IsTrue P.tells) conf.now []
        (P.standing parts.old) (P.standing parts.new) (P.faults parts.old) (P.faults parts.new)
        opened.items result.0.items result.1 }
{
    match vt_log::mount(alloc, opened, scorer) {
        Ok(log) => {
            let mut sections = Vec::new(alloc);
            let done = index_sections(alloc, parts, progress, conf, &conf.sections, &mut sections);
            (log.into_devices(), done)
        }
        Err((bad, opened)) => {
            let bad = index_error(None, of_log(&opened, bad));
            (opened, Err(bad))
        }
    }
}

/// Opens the sections of these files, behind those that are open, and goes on. The first that is
/// refused is told, and nothing is written then.
fn index_sections<P: Parts, G: Progress>(
    alloc: Global,
    parts: &mut P,
    progress: &mut G,
    conf: &Conf,
    files: &[PartFile],
    opened: &mut Vec<Section<P::Disk>>,
) -> Result<Index, IndexError>
    requires many { length opened.old.items + length files.now ≡ length conf.now.sections.items }
    requires all { length (files_in_order conf.now) < 2 ^ 32 }
    requires opened { All (IsOpened P.Disk.Disk) opened.old.items }
    requires few { total_buckets opened.old.items ≤ MAX_BUCKETS }
    ensures { IndexesSections P.Disk.Disk (IsTrue P.tells) conf.now files.now
        (P.standing parts.old) (P.standing parts.new) (P.faults parts.old) (P.faults parts.new)
        opened.old.items opened.new.items result }
{
    let [file, rest @ ..] = files else {
        return index_filter(alloc, parts, progress, conf, opened);
    };
    let number = (conf.arenas.len() + opened.len()) as u32;
    let Ok(disk) = parts.part(alloc, &file.name, None) else {
        return Err(IndexError::Fault { part: Some(number) });
    };
    let section = match open_section(alloc, disk, number, buckets_in(opened)) {
        Ok(section) => section,
        Err((bad, disk)) => {
            parts.done(&file.name, disk);
            return Err(bad);
        }
    };
    if let Err(full) = opened.push(section) {
        parts.done(&file.name, full.value.into_devices());
        return Err(IndexError::Refused(MountBad::NoMemory));
    }
    let done = index_sections(alloc, parts, progress, conf, rest, opened);
    let Some(section) = opened.pop() else {
        unreachable!()
    };
    parts.done(&file.name, section.into_devices());
    done
}

/// Opens the filter, if there is one, and puts the sections to use.
fn index_filter<P: Parts, G: Progress>(
    alloc: Global,
    parts: &mut P,
    progress: &mut G,
    conf: &Conf,
    opened: &mut [Section<P::Disk>],
) -> Result<Index, IndexError>
    requires many { length opened.old ≡ length conf.now.sections.items }
    requires all { length (files_in_order conf.now) < 2 ^ 32 }
    requires opened { All (IsOpened P.Disk.Disk) opened.old }
    requires few { total_buckets opened.old ≤ MAX_BUCKETS }
    ensures { IndexesSections P.Disk.Disk (IsTrue P.tells) conf.now []
        (P.standing parts.old) (P.standing parts.new) (P.faults parts.old) (P.faults parts.new)
        opened.old opened.new result }
{
    let behind = conf.arenas.len() as u32;
    let Some(file) = &conf.filter else {
        return index_opened(behind, opened, progress);
    };
    let number = behind + opened.len() as u32;
    let Ok(disk) = parts.part(alloc, &file.name, None) else {
        return Err(IndexError::Fault { part: Some(number) });
    };
    match open_filter(alloc, disk, number) {
        Ok(filter) => {
            let done = index_opened(behind, opened, progress);
            parts.done(&file.name, filter.into_devices());
            done
        }
        Err((bad, disk)) => {
            parts.done(&file.name, disk);
            Err(bad)
        }
    }
}

/// Puts the sections to use, of which the first one's partition has this number. Where a call
/// fails, the partition is told at which it stopped.
fn index_opened<D: Disk, G: Progress>(
    behind: u32,
    opened: &mut [Section<D>],
    progress: &mut G,
) -> Result<Index, IndexError>
    requires many { behind + length opened.old < 2 ^ 32 }
    requires opened { All (IsOpened D.Disk) opened.old }
    requires few { total_buckets opened.old ≤ MAX_BUCKETS }
    ensures total { IfOk result (λ it. it.buckets
        ≡ total_buckets opened.old) }
    ensures sections { IfOk result (λ it. it.sections ≡ length opened.old) }
    ensures stopped { IfErr result (IsStoppedAmong behind (length opened.old)) }
    ensures left { LeavesOpened D.Disk behind (total_buckets opened.old) result
        opened.old opened.new }
{
    let sections = opened.len() as u32;
    match put_all_to_use(opened, progress) {
        Ok(buckets) => Ok(Index { buckets, sections }),
        Err(number) => Err(IndexError::Stopped {
            part: behind + number as u32,
        }),
    }
}
