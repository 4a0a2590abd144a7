//! Tests of what is told of calls that fail: that it is told, under which name, and by which line.
#![tactic(auto)]

#[cfg(test)]
mod calls;
#[cfg(test)]
mod fakes;
#[cfg(test)]
mod lines;
