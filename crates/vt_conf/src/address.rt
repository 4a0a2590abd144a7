//! Addresses as text: `tcp!HOST!PORT` (venti.conf(6)).

ghost use Rattle.std.specs.Prelude.{◌≡◌, ◌<◌, ◌==◌, ℕ, List, Some, length, IfOk, IfSome, IsSomeAnd};
ghost use Rattle.std.specs.List.{position};
ghost use Rattle.std.specs.Bool.{OnTrue, OnFalse};
ghost use Rattle.vt_conf.specs.Addresses.{SpellsAddress, SpellsParts, IsHost, IsPort};

use crate::number::parse_number;
use std::alloc::{AllocError, Global};
use vt_base::Text;

/// The port of a Venti server, where an address says `venti` and where a configuration has no `addr`.
pub const VENTI_PORT: u16 = 17_034;

/// Where a server listens or is dialled.
#[derive(Drop)]
pub struct Address {
    /// The host, or none for every host.
    pub host: Option<Text>,
    /// The port, which isn't 0.
    pub port: u16,
}

/// The address that a text says (venti.conf(6)), as `tcp!localhost!venti`, if it says one. The host
/// `*` is every host; the port is a number from 1 to 65,535, or `venti`, which is 17034.
pub fn parse_address(alloc: Global, text: &[u8]) -> Result<Option<Address>, AllocError>
    ensures address { IfOk result (λ found. IfSome found (λ a. SpellsAddress a text.now)) }
    ensures only { IfOk result (λ found. (a : Address) → SpellsAddress a text.now
        → found ≡ Some a) }
{
    let Some((host, port)) = split_address(text) else {
        return Ok(None);
    };
    let host = host_of(alloc, host)?;
    Ok(Some(Address { host, port }))
}

/// Whether a text says an address.
pub(crate) fn is_address(text: &[u8]) -> bool
    ensures yes { OnTrue result ((a : Address) × SpellsAddress a text.now) }
    ensures no { OnFalse result ((a : Address) → ¬ SpellsAddress a text.now) }
{
    split_address(text).is_some()
}

/// The text of the host of an address, and its port; None where the text is no `tcp!HOST!PORT`.
fn split_address(text: &[u8]) -> Option<(&[u8], u16)>
    ensures parts { IfSome result (λ parts. SpellsParts parts.0.now parts.1 text.now) }
    ensures only { (host : List ℕ) (port : ℕ) → SpellsParts host port text.now
        → IsSomeAnd result (λ parts. (parts.0.now ≡ host) × (parts.1 ≡ port)) }
{
    let rest = text.strip_prefix(b"tcp!")?;
    let (host, rest) = rest.split_at(host_len(rest)?);
    if host.is_empty() {
        return None;
    }
    Some((host, port_of(&rest[1..])?))
}

/// How many bytes stand before the first `!`, if there is one.
fn host_len(text: &[u8]) -> Option<usize>
    ensures place { result ≡ position (λ b. b == 33) text.now }
    ensures within { IfSome result (λ n. n < length text.now) }
{
    text.iter().position(|b| *b == b'!')
}

/// The host that this text names, none where it is every host.
fn host_of(alloc: Global, text: &[u8]) -> Result<Option<Text>, AllocError>
    ensures { IfOk result (λ host. IsHost host text.now) }
{
    if text == b"*".as_slice() {
        return Ok(None);
    }
    Ok(Some(Text::copy_of(alloc, text)?))
}

/// The port that this text names, or None where it names none.
fn port_of(text: &[u8]) -> Option<u16>
    ensures port { IfSome result (λ port. IsPort port text.now) }
    ensures only { (port : ℕ) → IsPort port text.now → result ≡ Some port }
{
    if text == b"venti".as_slice() {
        return Some(VENTI_PORT);
    }
    match parse_number(text, 1, u64::from(u16::MAX)) {
        Ok(port) => Some(port as u16),
        Err(_) => None,
    }
}
