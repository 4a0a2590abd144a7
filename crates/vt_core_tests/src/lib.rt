//! Tests of stores on disks in memory, and of what drives them. They stand in a crate of their own,
//! so that `vt_core` and `vt_requests` are proved once.
#![tactic(auto)]

#[cfg(test)]
mod asking;
#[cfg(test)]
mod crashing;
#[cfg(test)]
mod disks;
#[cfg(test)]
mod drawn;
#[cfg(test)]
mod driving;
#[cfg(test)]
mod mounting;
#[cfg(test)]
mod refusals;
#[cfg(test)]
mod running;
#[cfg(test)]
mod steps;
#[cfg(test)]
mod stores;
