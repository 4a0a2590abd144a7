//! The commands, each in a file of its name.

pub mod buildindex;
pub mod checkarenas;
pub mod fmtarenas;
pub mod fmtbloom;
pub mod fmtindex;
pub mod fmtisect;
pub mod rehearse;
