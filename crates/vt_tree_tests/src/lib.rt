//! Tests of trees of blocks and of archives in them: entries, roots and streams, the metadata of
//! folders, and archives that are written by hand and read.
#![tactic(auto)]

#[cfg(test)]
mod blocks;
#[cfg(test)]
mod meta;
#[cfg(test)]
mod parts;
#[cfg(test)]
mod reading;
#[cfg(test)]
mod streams;
#[cfg(test)]
mod tree;
