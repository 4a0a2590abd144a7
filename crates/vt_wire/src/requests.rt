//! Writing what a client sends.

ghost use Rattle.std.specs.Prelude.{◌≡◌, ◌+◌, ◌≤◌, ◌++◌, length, take, drop};
ghost use Rattle.vt_wire.specs.Messages.{request_type, request_parameters, asked, FitsRequest};
ghost use Rattle.vt_wire.specs.Views.{message_of};

use crate::Request;
use crate::encoder::put_string;
use vt_base::MAX_BLOCK;
use vt_base::fields::{put, put_u8, put_u16};

/// The name that this client gives itself.
const UID: &[u8; 9] = b"anonymous";

/// Writes the frame of a request under a tag to the front of the buffer, and gives its length.
pub fn encode_request(tag: u8, request: &Request, buf: &mut [u8]) -> usize
    requires fits { FitsRequest (message_of request.now) }
    requires room { length (asked tag (message_of request.now)) ≤ length buf.old }
    ensures len { result ≡ length (asked tag (message_of request.now)) }
    ensures written { take result buf.new ≡ asked tag (message_of request.now) }
    ensures behind { drop result buf.new ≡ drop result buf.old }
{
    // (the size counts type, tag and parameters, and not its own two bytes)
    let size = 2 + parameters_len(request);
    let at = put_u16(buf, 0, size as u16);
    let at = put_u8(buf, at, type_of(request));
    let at = put_u8(buf, at, tag);
    put_parameters(buf, at, request)
}

/// The type of a request.
fn type_of(request: &Request) -> u8
    ensures { result ≡ request_type (message_of request.now) }
{
    match request {
        Request::Ping => 2,
        Request::Hello { .. } => 4,
        Request::Goodbye => 6,
        Request::Read { .. } => 12,
        Request::Write { .. } => 14,
        Request::Sync => 16,
    }
}

/// How many bytes a request's parameters have.
fn parameters_len(request: &Request) -> usize
    requires { FitsRequest (message_of request.now) }
    ensures len { result ≡ length (request_parameters (message_of request.now)) }
    ensures bounded { result ≤ MAX_BLOCK + 4 }
{
    match request {
        Request::Ping | Request::Goodbye | Request::Sync => 0,
        // (two lengths of 2; strength and two empty lists, 1 each)
        Request::Hello { version } => 2 + version.len() + 2 + UID.len() + 3,
        // (type 1, pad 1, count 2)
        Request::Read { score, .. } => score.0.len() + 4,
        // (type 1, pad 3)
        Request::Write { bytes, .. } => 4 + bytes.len(),
    }
}

/// Writes a request's parameters at this place, and gives the place behind them.
fn put_parameters(buf: &mut [u8], at: usize, request: &Request) -> usize
    requires fits { FitsRequest (message_of request.now) }
    requires room { at + length (request_parameters (message_of request.now)) ≤ length buf.old }
    ensures end { result ≡ at + length (request_parameters (message_of request.now)) }
    ensures written { take result buf.new
        ≡ take at buf.old ++ request_parameters (message_of request.now) }
    ensures behind { drop result buf.new ≡ drop result buf.old }
{
    match request {
        Request::Ping | Request::Goodbye | Request::Sync => at,
        Request::Hello { version } => {
            let at = put_string(buf, at, version);
            let at = put_string(buf, at, UID);
            put(buf, at, &[0, 0, 0])
        }
        Request::Read { score, kind, count } => {
            let at = put(buf, at, &score.0);
            let at = put(buf, at, &[*kind, 0]);
            put_u16(buf, at, *count as u16)
        }
        Request::Write { kind, bytes } => {
            let at = put(buf, at, &[*kind, 0, 0, 0]);
            put(buf, at, bytes)
        }
    }
}
