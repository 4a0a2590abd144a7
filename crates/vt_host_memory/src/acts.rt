//! Tables of runs.

use crate::bits::Bits;
use crate::host::Runtime;
use crate::partitions::{Partitions, Twin};
use crate::ran::Wanted;
use crate::running::{Given, run};
use crate::stores::{Commands, make};
use crate::talk::Talk;
use std::alloc::AllocError;
use vt_rows::Rows;

/// What a failed row of a table of runs tells: one text for each of what is compared.
#[derive(Clone, Copy)]
pub struct Told {
    pub status: &'static str,
    pub output: &'static str,
    pub line: &'static str,
}

/// The texts of the runs of which this literal speaks.
#[macro_export]
macro_rules! told {
    ($what:literal) => {
        $crate::Told {
            status: concat!($what, ": the status"),
            output: concat!($what, ": the output"),
            line: concat!($what, ": the line on the fault sink"),
        }
    };
}

/// The words, what comes in, the status, what goes out, and the line on the fault sink.
pub type Row = (&'static [&'static str], Bits, u8, Bits, &'static str);

/// What is done to partitions.
#[derive(Clone, Copy)]
pub enum Act {
    /// These commands are done, and end well.
    Make(Commands),
    /// These runs are as their rows say.
    See(Told, &'static [Row]),
    /// From this place on these are the bytes of the partition of this name.
    Spoil(&'static str, u64, &'static [u8]),
    /// From this place of its current frame on these are the bytes of this structure.
    SpoilCurrent(Twin, u64, &'static [u8]),
    /// The partition of this name has only its first so many bytes.
    Cut(&'static str, u64),
}

/// Does these one behind another, where there is no partition yet, and notes what they come to.
pub fn do_acts(rt: &impl Runtime, rows: &mut Rows, acts: &[Act]) -> Result<(), AllocError> {
    let mut parts = Partitions::new(rt.alloc());
    for next in acts {
        do_act(rt, rows, &mut parts, next)?;
    }
    Ok(())
}

/// Does this, and notes what it comes to.
pub fn do_act(
    rt: &impl Runtime,
    rows: &mut Rows,
    parts: &mut Partitions,
    act: &Act,
) -> Result<(), AllocError> {
    match act {
        Act::Make(commands) => make(rt, rows, parts, commands),
        Act::See(told, table) => see_rows(rt, rows, parts, told, table),
        Act::Spoil(name, at, bytes) => {
            let spoilt = parts.spoil(rt.alloc(), name, *at, bytes)?;
            rows.is("a partition has the places that are spoilt", spoilt);
            Ok(())
        }
        Act::SpoilCurrent(twin, at, bytes) => {
            let spoilt = parts.spoil_current(rt.alloc(), twin, *at, bytes)?;
            rows.is("a frame has the places that are spoilt", spoilt);
            Ok(())
        }
        Act::Cut(name, len) => {
            let is_cut = parts.cut(rt.alloc(), name, *len)?;
            rows.is("a partition is cut", is_cut);
            Ok(())
        }
    }
}

/// Notes whether these runs are as their rows say, one behind another, each over what those before
/// it left.
pub fn see_rows(
    rt: &impl Runtime,
    rows: &mut Rows,
    parts: &mut Partitions,
    told: &Told,
    table: &[Row],
) -> Result<(), AllocError> {
    for (number, row) in table.iter().enumerate() {
        see_row(rt, rows, parts, told, number, row)?;
    }
    Ok(())
}

/// Notes whether the run of this row, which has this number, is as it says.
pub fn see_row(
    rt: &impl Runtime,
    rows: &mut Rows,
    parts: &mut Partitions,
    told: &Told,
    number: usize,
    row: &Row,
) -> Result<(), AllocError> {
    let (words, input, status, output, complaint) = *row;
    let wanted = Wanted {
        status,
        output,
        complaint: complaint.as_bytes(),
    };
    let ran = run(rt, parts, &Given::new(words, input))?;
    ran.see(rows, number, told, &wanted);
    Ok(())
}

/// Notes as this row whether the run of these words, to which a client says this, replies as it has
/// to, and ends well.
pub fn see_talk(
    rt: &impl Runtime,
    rows: &mut Rows,
    parts: &mut Partitions,
    told: &Told,
    number: usize,
    words: &[&str],
    talk: &Talk,
) -> Result<(), AllocError> {
    let ran = run(rt, parts, &Given::new(words, &[&talk.asked]))?;
    let wanted = Wanted {
        status: 0,
        output: &[&talk.replied],
        complaint: b"",
    };
    ran.see(rows, number, told, &wanted);
    Ok(())
}
