//! Tests of archives: folders in memory become archives that are known, also in stores that are kept
//! from one run to the next, and what was written is read back.
#![tactic(auto)]

#[cfg(test)]
mod archives;
#[cfg(test)]
mod items;
#[cfg(test)]
mod round_trip;
#[cfg(test)]
mod stored;
