//! Tests of what is shown of archives: the messages of 9P2000 byte for byte, a small archive that is
//! served message by message, where that ends, a folder of 3,000 files, and an archive by another encoder.
#![tactic(auto)]

#[cfg(test)]
mod ends;
#[cfg(test)]
mod large;
#[cfg(test)]
mod samples;
#[cfg(test)]
mod shown;
#[cfg(test)]
mod view;
#[cfg(test)]
mod wire;
