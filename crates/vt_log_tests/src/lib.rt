//! Tests of arenas and of logs, on disks in memory.
#![tactic(auto)]

#[cfg(test)]
mod arena;
#[cfg(test)]
mod arenas;
#[cfg(test)]
mod disks;
#[cfg(test)]
mod log;
#[cfg(test)]
mod logs;
#[cfg(test)]
mod version_two;
#[cfg(test)]
mod version_two_logs;
