//! A server in memory: it is dialled once, at its address alone.

use std::alloc::{AllocError, Global};
use std::test::Fail;
use vt_base::Text;
use vt_conf::parse_address;
use vt_dial::{Dialer, MemDialer};
use vt_out::{Link, MemLink, MemSink, MemSource};
use vt_rows::Rows;

/// A server on this machine, which says two bytes.
fn dialer(alloc: Global) -> Result<MemDialer, AllocError> {
    let content = Vec::from_slice(alloc, b"hi")?;
    let host = Text::copy_of(alloc, b"localhost")?;
    let sink = MemSink::new(alloc, 10)?;
    let source = MemSource::new(alloc, content);
    Ok(MemDialer::new(host, 17_034, MemLink { source, sink }))
}

/// The link that dialling the address of this text makes, if it does.
fn dialled(alloc: Global, dialer: &mut MemDialer, text: &[u8]) -> Option<MemLink> {
    match parse_address(alloc, text) {
        Ok(Some(address)) => dialer.dial(&address).ok(),
        _ => None,
    }
}

/// Whether dialling the address of this text makes no link.
fn is_refused(alloc: Global, dialer: &mut MemDialer, text: &[u8]) -> bool {
    match dialled(alloc, dialer, text) {
        Some(_) => false,
        None => true,
    }
}

/// The address of the server that is there, by the name of Venti's port.
const SERVER: &[u8] = b"tcp!localhost!venti";

/// Addresses of no server.
const WRONG: [&[u8]; 3] = [b"tcp!*!venti", b"tcp!localhost!1", b"tcp!local!venti"];

/// Dials no server.
fn dial_wrong(alloc: Global, dialer: &mut MemDialer) -> Rows {
    let mut rows = Rows::new();
    for (row, text) in WRONG.iter().enumerate() {
        rows.nth(
            row,
            "an address of no server",
            is_refused(alloc, dialer, text),
        );
    }
    rows
}

/// Dials the server, puts two bytes on the link, and hands the link back.
fn dial_server(alloc: Global, dialer: &mut MemDialer, rows: Rows) -> Rows {
    let mut rows = rows;
    match dialled(alloc, dialer, SERVER) {
        Some(mut link) => {
            rows.is("a put", link.put(b"ho") == Ok(()));
            rows.is(
                "the server while its link is out",
                is_refused(alloc, dialer, SERVER),
            );
            dialer.done(link);
        }
        None => rows.is("the server at first", false),
    }
    rows
}

/// Whether this was written on the link that is back.
fn is_written(dialer: MemDialer, bytes: &[u8]) -> bool {
    match dialer.into_link() {
        Some(link) => link.sink.written() == bytes,
        None => false,
    }
}

/// Dials no server, and then the server, three times.
fn see(alloc: Global, dialer: MemDialer) -> Rows {
    let mut dialer = dialer;
    let rows = dial_wrong(alloc, &mut dialer);
    let mut rows = dial_server(alloc, &mut dialer, rows);
    rows.is(
        "the server when its link is back",
        is_refused(alloc, &mut dialer, SERVER),
    );
    rows.is("the faults", dialer.faults() == 5);
    rows.is("what was written", is_written(dialer, b"ho"));
    rows
}

#[test]
fn a_server_is_dialled_once(rt: HostRuntime) -> Result<(), Fail> {
    let dialer = dialer(rt.alloc())?;
    see(rt.alloc(), dialer).passes()
}
