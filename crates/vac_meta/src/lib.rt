//! The metadata of archived folders (vac(1)): a record for each of a folder's items, and their
//! bytes.
// Tests: crates/vt_tree_tests/src/meta.rt.
#![tactic(auto)]

mod decoding;
mod encoding;
mod error;
pub mod laws;
mod record;

pub use decoding::decode;
pub use encoding::encode;
pub use error::{MetaErr, RecordCause};
pub use record::{Record, RecordKind, Records};

/// The most bytes of a name, a uid and a gid.
pub const MAX_NAME: usize = 255;

const _: () = prove!(MAX_NAME == 255);
