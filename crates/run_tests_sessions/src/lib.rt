//! Tests of the whole program: sessions, and blocks that are written and read.
#![tactic(auto)]

#[cfg(test)]
mod devices;
#[cfg(test)]
mod links;
#[cfg(test)]
mod read;
#[cfg(test)]
mod session;
#[cfg(test)]
mod session_conf;
#[cfg(test)]
mod spoiled;
#[cfg(test)]
mod write;
