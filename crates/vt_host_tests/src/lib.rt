//! Tests of the outside as it is, over the system and over what keeps a record of its calls.
#![tactic(auto)]

#[cfg(test)]
mod clock;
#[cfg(test)]
mod dialer;
#[cfg(test)]
mod disk;
#[cfg(test)]
mod fakes;
#[cfg(test)]
mod folder;
#[cfg(test)]
mod named;
#[cfg(test)]
mod owners;
#[cfg(test)]
mod streams;
#[cfg(test)]
mod terminal;
