//! The counter as a service on this machine.

ghost use Rattle.std.specs.Prelude.{◌≡◌, ◌≤◌};
ghost use Rattle.ft_orb.specs.Standing.{IsNew};
ghost use Rattle.giop_run.specs.Services.{AreTermsOf, IsOffered};
ghost use Rattle.giop_run.specs.Settings.{IsServable};

use crate::logging::LoggedCounter;
use crate::play::Terms;
use crate::program::terms_of;
use crate::setting::{DONE, FAILED, Service};
use crate::stop::Stop;
use counter::{Counter, reference_text};
use ft_log::Retention;
use ft_objects::Servant;
use ft_orb::{Clock, Server};
use ft_tcp::{SystemClock, serve_on};
use std::alloc::Global;
use std::hash::RandomState;
use std::io::Write;
use std::net::{Ipv4Addr, Net, TcpListener, TcpStream};
use std::rt;
use std::time::Duration;

/// Prints the counter's reference at a port, for a client that waits for it.
fn print_address<W: Write>(alloc: Global, port: u16, out: &mut W) -> Result<(), Stop> {
    let mut line = reference_text(alloc, port)?;
    line.push('\n')?;
    out.write_all(line.as_bytes())?;
    out.flush()?;
    Ok(())
}

/// A new server that keeps to these terms.
fn new_server<S: Servant + Drop>(
    alloc: Global,
    servant: S,
    terms: Terms,
    hasher: RandomState,
) -> Server<S>
    ensures { IsNew (record { limits = terms.limits; capacity = terms.capacity; share = terms.share; opening = servant }) result }
{
    let (capacity, share) = (terms.capacity, terms.share);
    Server::new(
        alloc,
        servant,
        terms.limits,
        Retention { capacity, share },
        hasher,
    )
}

/// How long a read or a write may take.
fn timeout_of(service: &Service) -> Option<Duration> {
    let seconds = service.timeout?;
    Some(Duration::from_secs(u64::from(seconds)))
}

/// Serves the connections of a listener by a server.
fn serve_by<S: Servant + Drop, C: Clock>(
    alloc: Global,
    listener: &TcpListener,
    service: &Service,
    server: &mut Server<S>,
    clock: &mut C,
) -> Result<(), Stop> {
    let timeout = timeout_of(service);
    match serve_on(alloc, listener, service.connections, timeout, server, clock) {
        Ok(()) => Ok(()),
        Err(_) => Err(Stop::CannotAccept),
    }
}

/// Serves the connections of a listener by a new server, and prints a line for each request.
fn serve_logged<C: Clock, L: Write + Drop>(
    alloc: Global,
    listener: &TcpListener,
    service: &Service,
    server: &mut Server<LoggedCounter<L>>,
    clock: &mut C,
) -> Result<(), Stop>
    requires { IsOffered service.now.numbers server.old }
{
    serve_by(alloc, listener, service, server, clock)
}

/// Serves the connections of a listener by a new server.
fn serve_plain<C: Clock>(
    alloc: Global,
    listener: &TcpListener,
    service: &Service,
    server: &mut Server<Counter>,
    clock: &mut C,
) -> Result<(), Stop>
    requires { IsOffered service.now.numbers server.old }
{
    serve_by(alloc, listener, service, server, clock)
}

/// Prints the reference, and listens.
fn listen<R: Net<Listener = TcpListener, Stream = TcpStream>, W: Write>(
    alloc: Global,
    rt: &R,
    port: u16,
    out: &mut W,
) -> Result<TcpListener, Stop> {
    print_address(alloc, port, out)?;
    match TcpListener::bind(rt, (Ipv4Addr::LOCALHOST, port)) {
        Ok(listener) => Ok(listener),
        Err(_) => Err(Stop::CannotListen),
    }
}

/// Serves the connections of a listener by a counter and a server that keep to these terms.
fn serve_counter<C: Clock, L: Write + Drop>(
    alloc: Global,
    listener: &TcpListener,
    service: &Service,
    terms: Terms,
    counter: Counter,
    hasher: RandomState,
    clock: &mut C,
    log: L,
) -> Result<(), Stop>
    requires asked { AreTermsOf service.now.numbers terms }
    requires total { counter ≡ terms.start }
{
    if service.log {
        let logged = LoggedCounter::new(alloc, counter, log);
        let mut server = new_server(alloc, logged, terms, hasher);
        return serve_logged(alloc, listener, service, &mut server, clock);
    }
    let mut server = new_server(alloc, counter, terms, hasher);
    serve_plain(alloc, listener, service, &mut server, clock)
}

/// Prints the reference, listens, and serves so many connections.
fn offer<R: Net<Listener = TcpListener, Stream = TcpStream> + rt::Clock, W: Write, L: Write + Drop>(
    alloc: Global,
    rt: &R,
    service: &Service,
    hasher: RandomState,
    out: &mut W,
    log: L,
) -> Result<(), Stop>
    requires { IsServable service.now }
{
    let Some(terms) = terms_of(service.numbers) else {
        return Err(Stop::BadServiceShare);
    };
    let counter = Counter::new(alloc, terms.start)?;
    let listener = listen(alloc, rt, service.port, out)?;
    let mut clock = SystemClock::new(rt);
    serve_counter(
        alloc, &listener, service, terms, counter, hasher, &mut clock, log,
    )
}

/// Serves a counter on 127.0.0.1: prints its reference, listens on the port, serves its connections one after another
/// as a play serves them, and returns the exit status: 0, or 1 where the share is bad, the port can't be listened on, a
/// connection can't be accepted, the reference can't be printed or an allocation fails. Why is printed to `err`, and the
/// lines of requests, where they are wished for, to `log`. The hasher is that of the server's log.
pub fn serve<
    R: Net<Listener = TcpListener, Stream = TcpStream> + rt::Clock,
    W: Write,
    E: Write,
    L: Write + Drop,
>(
    alloc: Global,
    rt: &R,
    service: &Service,
    hasher: RandomState,
    out: &mut W,
    err: &mut E,
    log: L,
) -> u8
    requires { IsServable service.now }
    ensures { result ≤ FAILED }
{
    match offer(alloc, rt, service, hasher, out, log) {
        Ok(()) => DONE,
        Err(stop) => {
            let _ = writeln!(err, "{stop}");
            FAILED
        }
    }
}
