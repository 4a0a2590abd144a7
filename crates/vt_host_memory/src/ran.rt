//! What a run left.

use crate::acts::Told;
use crate::bits::are_joined;
use vt_rows::Rows;

/// What a run left.
#[derive(Drop)]
pub struct Ran {
    pub status: u8,
    /// What went to the sink.
    pub output: Vec<u8>,
    /// What went to the fault sink.
    pub complaint: Vec<u8>,
    /// What a server heard.
    pub heard: Vec<u8>,
}

/// How a run has to end: its status, what goes out, and what goes to the fault sink.
#[derive(Clone, Copy)]
pub struct Wanted<'a> {
    pub status: u8,
    /// In parts, which have to be there one behind another.
    pub output: &'a [&'a [u8]],
    pub complaint: &'a [u8],
}

impl Ran {
    /// Notes as this row whether the run ended so.
    pub fn see(&self, rows: &mut Rows, row: usize, told: &Told, wanted: &Wanted<'_>) {
        rows.nth(row, told.status, self.status == wanted.status);
        rows.nth(row, told.output, are_joined(&self.output, wanted.output));
        rows.nth(
            row,
            told.line,
            self.complaint.as_slice() == wanted.complaint,
        );
    }
}
