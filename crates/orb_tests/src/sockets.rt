//! Connections over TCP, both ends in one process, one end after the other.

use crate::messages::{CLOSE, HERE, LOCATE};
use crate::visits::new_server;
use counter::{Counter, reference_text};
use ft_orb::{Clock, Server};
use ft_tcp::{SystemClock, serve_on};
use giop_core::UNIX_EPOCH;
use std::alloc::Global;
use std::hash::RandomState;
use std::io;
use std::io::{Read, Write};
use std::net::{TcpListener, TcpStream};
use std::test::Fail;

/// A client of a listener.
fn connect(rt: &HostRuntime, listener: &TcpListener) -> io::Result<TcpStream> {
    TcpStream::connect(rt, listener.local_addr()?)
}

/// Asks where the object is, and closes the connection in the words of the protocol.
fn ask(client: &mut TcpStream) -> io::Result<()> {
    client.write_all(LOCATE)?;
    client.write_all(CLOSE)
}

/// Whether the octets that come until the connection ends are these.
fn is_answer(alloc: Global, client: &mut TcpStream, wanted: &[u8]) -> io::Result<bool> {
    let mut answers = Vec::new(alloc);
    client.read_to_end(&mut answers)?;
    Ok(answers.as_slice() == wanted)
}

/// Serves so many connections, with the system's clock.
fn serve_all(
    rt: &HostRuntime,
    listener: &TcpListener,
    count: u32,
    server: &mut Server<Counter>,
) -> io::Result<()> {
    let mut clock = SystemClock::new(rt);
    serve_on(rt.alloc(), listener, count, None, server, &mut clock)
}

#[test]
fn a_client_is_answered(rt: HostRuntime) -> Result<(), Fail> {
    let listener = TcpListener::bind(&rt, "127.0.0.1:0")?;
    let mut client = connect(&rt, &listener)?;
    ask(&mut client)?;
    let mut server = new_server(rt.alloc(), RandomState::new(&rt)?)?;
    serve_all(&rt, &listener, 1, &mut server)?;
    assert!(rt; is_answer(rt.alloc(), &mut client, HERE)?);
    assert!(rt; server.is_closed(1));
    Ok(())
}

/// A server of a counter from 0 whose connection 1 is open.
fn used_server(alloc: Global, hasher: RandomState) -> Result<Server<Counter>, Fail> {
    let mut server = new_server(alloc, hasher)?;
    server.connect(1)?;
    Ok(server)
}

/// The connection whose number was used is dropped, and counts.
#[test]
fn a_used_number_is_dropped(rt: HostRuntime) -> Result<(), Fail> {
    let listener = TcpListener::bind(&rt, "127.0.0.1:0")?;
    let mut first = connect(&rt, &listener)?;
    let mut second = connect(&rt, &listener)?;
    ask(&mut second)?;
    let mut server = used_server(rt.alloc(), RandomState::new(&rt)?)?;
    serve_all(&rt, &listener, 2, &mut server)?;
    assert!(rt; is_answer(rt.alloc(), &mut first, b"")?);
    assert!(rt; is_answer(rt.alloc(), &mut second, HERE)?);
    Ok(())
}

/// Between 1 January 2020 and 1 January 2200, in units of 100 ns since 15 October 1582.
#[test]
fn the_systems_clock_shows_this_time(rt: HostRuntime) {
    let mut clock = SystemClock::new(&rt);
    let moment = clock.now();
    assert!(rt; moment > UNIX_EPOCH);
    assert!(rt; moment > 137_971_296_000_000_000);
    assert!(rt; moment < 194_774_112_000_000_000);
}

#[test]
fn the_reference_is_the_counters(rt: HostRuntime) -> Result<(), Fail> {
    let text = reference_text(rt.alloc(), 2809)?;
    let wanted = "IOR:000000000000001049444c3a436f756e7465723a312e3000000000010000000000000020\
        000102000000000a3132372e302e302e31000af9000000016300000000000000";
    assert_eq!(rt; text.as_str(), wanted);
    Ok(())
}
