//! Tests of what the whole store shares, each crate's in a module of its own.
#![tactic(auto)]

#[cfg(test)]
mod base;
#[cfg(test)]
mod conf;
#[cfg(test)]
mod dial;
#[cfg(test)]
mod fields;
#[cfg(test)]
mod folder;
#[cfg(test)]
mod folders;
#[cfg(test)]
mod model;
#[cfg(test)]
mod out;
#[cfg(test)]
mod steps;
#[cfg(test)]
mod words;
