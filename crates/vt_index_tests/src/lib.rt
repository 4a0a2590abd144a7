//! Tests of sections of the index and of shards, on disks in memory.
#![tactic(auto)]

#[cfg(test)]
mod disks;
#[cfg(test)]
mod isect;
#[cfg(test)]
mod sections;
#[cfg(test)]
mod shard;
#[cfg(test)]
mod shards;
