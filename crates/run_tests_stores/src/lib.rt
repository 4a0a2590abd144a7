//! Tests of the whole program: stores that are made, rebuilt and checked.
#![tactic(auto)]

#[cfg(test)]
mod checkarenas;
#[cfg(test)]
mod formatting;
