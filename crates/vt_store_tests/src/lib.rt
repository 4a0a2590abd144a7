//! Tests of what is done to stores on partitions that have names: they are formatted, opened, checked
//! and rebuilt, made in memory, and rehearsed. They stand in a crate of their own, so that what they
//! test is proved once.
#![tactic(auto)]

#[cfg(test)]
mod check;
#[cfg(test)]
mod format;
#[cfg(test)]
mod fresh;
#[cfg(test)]
mod made;
#[cfg(test)]
mod opening;
#[cfg(test)]
mod rehearse;
#[cfg(test)]
mod upkeep;
