//! Connections to hosts by their names.

use crate::fakes::FakeConnector;
use std::alloc::{AllocError, Global};
use std::io;
use std::io::Write;
use std::net::TcpListener;
use std::process::Abort;
use std::test::Fail;
use vt_base::Text;
use vt_conf::Address;
use vt_dial::Dialer;
use vt_host::{StdDialer, System};
use vt_out::Link;
use vt_rows::Rows;

/// The address of a host, or of every host.
fn address(alloc: Global, host: Option<&[u8]>, port: u16) -> Result<Address, AllocError> {
    let host = match host {
        Some(name) => Some(Text::copy_of(alloc, name)?),
        None => None,
    };
    Ok(Address { host, port })
}

/// Whether a connection to this address is made, where the connection of this number fails.
fn dials<R: Abort + Copy + Drop>(rt: R, alloc: Global, failing: usize, to: &Address) -> bool {
    let mut dialer = StdDialer::new(FakeConnector::new(rt, alloc, failing));
    dialer.dial(to).is_ok()
}

/// A host, the connection that fails, and whether one is made.
const DIALS: [(Option<&[u8]>, usize, bool); 4] = [
    (Some(b"localhost"), 9, true),
    (Some(b"localhost"), 0, false),
    (Some(b"\xff"), 9, false),
    (None, 9, false),
];

#[test]
fn one_host_is_dialled_by_its_name(rt: HostRuntime) -> Result<(), Fail> {
    let mut rows = Rows::new();
    for (row, (host, failing, wanted)) in DIALS.into_iter().enumerate() {
        let to = address(rt.alloc(), host, 17_034)?;
        let found = dials(rt, rt.alloc(), failing, &to);
        rows.nth(row, "a connection is made", found == wanted);
    }
    rows.passes()
}

/// Two bytes go out and three come in.
fn see_swap<L: Link>(rows: &mut Rows, link: &mut L) {
    let mut buf = [b'.'; 4];
    rows.is("two bytes go out", link.put(b"ab").is_ok());
    let taken = link.take(&mut buf);
    rows.is("how many come in", taken.is_ok_and(|n| n == 3));
    rows.is("the bytes that come in", buf == *b"cde.");
}

#[test]
fn a_connection_is_a_link(rt: HostRuntime) -> Result<(), Fail> {
    let Ok(listener) = TcpListener::bind(&rt, "127.0.0.1:0") else {
        return Ok(());
    };
    let port = listener.local_addr()?.port();
    let to = address(rt.alloc(), Some(b"127.0.0.1"), port)?;
    let mut rows = Rows::new();
    let mut dialer = StdDialer::new(System(rt));
    let mut link = dialer.dial(&to)?;
    let (mut peer, _) = listener.accept()?;
    peer.write_all(b"cde")?;
    see_swap(&mut rows, &mut link);
    dialer.done(link);
    let heard = io::read_to_string(rt.alloc(), peer)?;
    rows.is("the bytes that went out", heard.as_str() == "ab");
    rows.passes()
}
