//! Partitions and files by name.

use crate::disk::opener;
use std::alloc::Global;
use std::test::Fail;
use vt_base::Text;
use vt_disk::Disk;
use vt_host::{FileParts, StdFiles};
use vt_out::{Files, OutErr};
use vt_partitions::Parts;
use vt_rows::Rows;

/// A partition of this name is handed out and taken back; then its opening fails.
fn see_parts<P: Parts>(rows: &mut Rows, alloc: Global, parts: &mut P, name: &Text, odd: &Text) {
    match parts.part(alloc, name, Some(9)) {
        Ok(disk) => {
            rows.is("the length of a partition", disk.len() == 9);
            parts.done(name, disk);
        }
        Err(_) => rows.is("a partition", false),
    }
    let again = parts.part(alloc, name, None);
    rows.is("an opening that fails", again.is_err());
    let odd = parts.part(alloc, odd, None);
    rows.is("a name that is no text", odd.is_err());
}

/// Whether all bytes are sevens, and so many.
fn are_sevens(bytes: &[u8], len: usize) -> bool {
    bytes.len() == len && bytes.iter().all(|byte| *byte == 7)
}

/// A file of eight sevens is read whole, and cut behind the most and one more; then its opening
/// fails.
fn see_files<F: Files>(rows: &mut Rows, alloc: Global, files: &mut F, name: &Text) {
    for (row, (most, len)) in [(8, 8), (4, 5)].into_iter().enumerate() {
        let found = files.read(alloc, name, most);
        let is_read = found.is_ok_and(|bytes| are_sevens(bytes.as_slice(), len));
        rows.nth(row, "a file", is_read);
    }
    let failed = files.read(alloc, name, 4);
    rows.is(
        "an opening that fails",
        matches!(failed, Err(OutErr::Failed)),
    );
}

#[test]
fn partitions_by_name(rt: HostRuntime) -> Result<(), Fail> {
    let alloc = rt.alloc();
    let name = Text::copy_of(alloc, b"disk")?;
    let odd = Text::copy_of(alloc, b"\xff")?;
    let mut parts = FileParts::new(opener(rt, alloc, 2, 9));
    let mut rows = Rows::new();
    see_parts(&mut rows, alloc, &mut parts, &name, &odd);
    rows.passes()
}

#[test]
fn files_by_name(rt: HostRuntime) -> Result<(), Fail> {
    let alloc = rt.alloc();
    let name = Text::copy_of(alloc, b"disk")?;
    let mut files = StdFiles::new(opener(rt, alloc, 2, 9));
    let mut rows = Rows::new();
    see_files(&mut rows, alloc, &mut files, &name);
    rows.passes()
}
