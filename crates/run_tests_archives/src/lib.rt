//! Tests of the whole program: folders that are archived, and archives that are shown.
#![tactic(auto)]

#[cfg(test)]
mod edges;
#[cfg(test)]
mod items;
#[cfg(test)]
mod vac;
#[cfg(test)]
mod vac_served;
#[cfg(test)]
mod vacfs;
