//! Tests of what goes over the wire: messages, sessions, answers, clients, and archives that are
//! sent. They stand in a crate of their own, so that the crates that they test are proved once.
#![tactic(auto)]

#[cfg(test)]
mod answer;
#[cfg(test)]
mod blocks;
#[cfg(test)]
mod client;
#[cfg(test)]
mod local;
#[cfg(test)]
mod refusals;
#[cfg(test)]
mod remote;
#[cfg(test)]
mod sent;
#[cfg(test)]
mod session;
#[cfg(test)]
mod tables;
#[cfg(test)]
mod wire;
