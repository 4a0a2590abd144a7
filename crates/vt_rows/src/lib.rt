//! What the rows of a test came to: the first one that doesn't hold, and where it stands.
#![tactic(auto)]

use std::test::Fail;

/// The rows that a test compared: the first of them that didn't hold.
#[derive(Clone, Copy)]
pub struct Rows {
    /// None where each row held so far.
    wrong: Option<RowError>,
}

/// A row that didn't hold: what it compared, and its number in its table, from 0.
#[derive(Clone, Copy, Debug)]
pub struct RowError {
    pub what: &'static str,
    /// 0 where the comparison isn't one of a table.
    pub row: usize,
}

impl Rows {
    /// No row was compared yet.
    pub fn new() -> Rows {
        Rows { wrong: None }
    }

    /// Notes whether a comparison holds.
    pub fn is(&mut self, what: &'static str, holds: bool) {
        self.nth(0, what, holds);
    }

    /// Notes whether a comparison of this row of a table holds.
    pub fn nth(&mut self, row: usize, what: &'static str, holds: bool) {
        if !holds && self.wrong.is_none() {
            self.wrong = Some(RowError { what, row });
        }
    }

    /// Those of a test that can't begin, since this doesn't hold.
    pub fn wrong(what: &'static str) -> Rows {
        let mut rows = Rows::new();
        rows.is(what, false);
        rows
    }

    /// Notes at the row of a case what doesn't hold of it.
    pub fn note(&mut self, row: usize, found: &Rows) {
        if let Some(wrong) = found.wrong {
            self.nth(row, wrong.what, false);
        }
    }

    /// Refuses with the first comparison that didn't hold.
    pub fn all(&self) -> Result<(), RowError> {
        match self.wrong {
            None => Ok(()),
            Some(wrong) => Err(wrong),
        }
    }

    /// What a test comes to: it passes where each comparison holds.
    pub fn passes(&self) -> Result<(), Fail> {
        self.all()?;
        Ok(())
    }
}
