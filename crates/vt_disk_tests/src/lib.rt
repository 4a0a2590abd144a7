//! Tests of disks in memory and of what stands on a disk by itself: the pair of frames that changes
//! whole, partitions, clumps, buckets and filters; and of what is kept of them in memory. They stand
//! in a crate of their own, so that the crates that they test are proved once.
#![tactic(auto)]

#[cfg(test)]
mod bloom;
#[cfg(test)]
mod bucket;
#[cfg(test)]
mod clump;
#[cfg(test)]
mod disks;
#[cfg(test)]
mod icache;
#[cfg(test)]
mod lumps;
#[cfg(test)]
mod memdisk;
#[cfg(test)]
mod memparts;
#[cfg(test)]
mod part;
#[cfg(test)]
mod twin;
