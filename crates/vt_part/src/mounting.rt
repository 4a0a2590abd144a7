//! Finding the partition of a disk.

ghost use Rattle.std.specs.Prelude.{◌≡◌, ◌<◌, ◌≤◌, None, IsTrue, IfOk, IfErr, OnOk, MatchResult};
ghost use Rattle.vt_base.specs.Faults.{CountsFault};
ghost use Rattle.vt_disk.specs.Calls.{OnlyReads, MadeCalls};
ghost use Rattle.vt_part.specs.Faults.{first_bad_part, RefusesPartMount, NamesPartCause, is_part_fault};
ghost use Rattle.vt_part.specs.Parts.{table_in, table_of, disk_of, disk_after};
ghost use Rattle.vt_part.specs.Table.{Table, IsTable, IsPartition, head_of, table_bytes, arenas_end};

use crate::TABLE_LEN;
use crate::error::PartBad;
use crate::head::Head;
use crate::part::Part;
use vt_disk::{BLOCK_LEN, Disk};

/// Reads the table of a disk's arenas. It takes any name. A refusal hands the disk back.
///
/// It doesn't sync, so a table of which a part wasn't synced may be another one after a crash.
pub fn mount<D: Disk>(mut disk: D) -> Result<Part<D>, (PartBad, D)>
    // It finds the partition that is there, and nothing else.
    ensures found { IfOk result (λ part. IsTrue D.tells
        → IsPartition (table_of part) (D.bytes disk)) }
    ensures all_are_found { (t : Table) → IsTrue D.tells → IsPartition t (D.bytes disk)
        → MatchResult result (λ part. table_of part ≡ t) (λ refusal. refusal.0 ≡ PartBad.Fault) }
    ensures accepted { IfOk result (λ _. IsTrue D.tells
        → first_bad_part (D.size disk) (head_of (D.bytes disk)) ≡ None) }
    ensures refused { IfErr result (λ refusal. IsTrue D.tells
        → RefusesPartMount (D.size disk) (head_of (D.bytes disk)) refusal.0) }

    // So much is known of a disk that doesn't tell what it holds, too.
    ensures table { IfOk result (λ part. IsTable (table_of part)) }
    ensures room { IfOk result (λ part. arenas_end (table_of part) ≤ D.size disk) }
    ensures differs { IfErr result (λ refusal. NamesPartCause (D.size disk) refusal.0) }

    // It makes one read, or none where the disk has no block 0, and changes nothing.
    ensures untouched { D.size disk < BLOCK_LEN → disk_after result ≡ disk }
    ensures reads { OnlyReads D.Disk 1 disk (disk_after result) }
    ensures calls { BLOCK_LEN ≤ D.size disk → MadeCalls D.Disk 1 disk (disk_after result) }
    ensures cause { CountsFault (λ refusal. is_part_fault refusal.0) result
        (D.faults disk) (D.faults (disk_after result)) }
{
    match read_head(&mut disk) {
        Ok(head) => Ok(Part { disk, head }),
        Err(bad) => Err((bad, disk)),
    }
}

/// Reads the table, and tests it.
fn read_head<D: Disk>(disk: &mut D) -> Result<Head, PartBad>
    ensures spelling { IfOk result (λ head. IsTrue D.tells
        → head_of (D.bytes disk.old) ≡ table_bytes (table_in head)) }
    ensures table { IfOk result (λ head. IsTable (table_in head)) }
    ensures room { IfOk result (λ head. arenas_end (table_in head) ≤ D.size disk.old) }
    ensures accepted { OnOk result (IsTrue D.tells
        → first_bad_part (D.size disk.old) (head_of (D.bytes disk.old)) ≡ None) }
    ensures refused { IfErr result (λ bad. IsTrue D.tells
        → RefusesPartMount (D.size disk.old) (head_of (D.bytes disk.old)) bad) }
    ensures differs { IfErr result (NamesPartCause (D.size disk.old)) }
    ensures untouched { D.size disk.old < BLOCK_LEN → disk.new ≡ disk.old }
    ensures reads { OnlyReads D.Disk 1 disk.old disk.new }
    ensures calls { BLOCK_LEN ≤ D.size disk.old → MadeCalls D.Disk 1 disk.old disk.new }
    ensures cause { CountsFault is_part_fault result (D.faults disk.old) (D.faults disk.new) }
{
    let len = disk.len();
    if len < BLOCK_LEN as u64 {
        return Err(PartBad::TooSmall {
            len,
            need: BLOCK_LEN as u64,
        });
    }
    let mut head = [0; TABLE_LEN];
    disk.read_at(0, &mut head)?;
    Head::decode(&head, len)
}
