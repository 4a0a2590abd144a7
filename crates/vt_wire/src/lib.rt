//! How a client and a Venti server spell what they say (venti(6), version 02).
// Tests: crates/vt_wire_tests/src/wire.rt.
#![tactic(auto)]

mod decoder;
mod encoder;
mod frame;
pub mod laws;
mod line;
mod message;
mod parameters;
mod protocol_cause;
mod replies;
mod requests;

pub use decoder::decode;
pub use encoder::encode;
pub use frame::frame_len;
pub use line::{Line, MAX_LINE, decode_line};
pub use message::{MAX_STRING, Reply, Request, WireBad};
pub use protocol_cause::{ProtocolCause, rule_text};
pub use replies::decode_reply;
pub use requests::encode_request;
