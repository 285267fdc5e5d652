//! Connections one after another, by one engine.

ghost use Rattle.std.specs.Prelude.{◌≡◌, IfOk, None};
ghost use Rattle.ft_orb.specs.Engines.{waits_in};

use crate::echo::Echo;
use ft_log::Retention;
use ft_objects::Interfaces;
use ft_orb::{Engine, Places, serve_engine};
use ft_tcp::{Socket, SystemClock};
use giop_frames::Limits;
use std::hash::RandomState;
use std::io;
use std::net::{Ipv4Addr, TcpListener, TcpStream};

/// The most reads of a connection.
const MAX_READS: u32 = 1_000_000;

/// How many outcomes are kept, in all and of each client.
const CAPACITY: u32 = 1_024;

/// An engine for the object `echo`, whose every operation is raw.
fn new_engine(rt: &HostRuntime) -> io::Result<Engine<Interfaces>>
    ensures { IfOk result (λ engine. waits_in engine ≡ None) }
{
    let alloc = rt.alloc();
    let mut interfaces = Interfaces::new(alloc);
    if interfaces.add_raw_object(b"echo").is_err() {
        return Err(io::Error::from(io::ErrorKind::OutOfMemory));
    }
    let hasher = RandomState::new(rt)?;
    let limits = Limits::default();
    let retention = Retention {
        capacity: CAPACITY,
        share: CAPACITY,
    };
    Ok(Engine::new(alloc, interfaces, limits, retention, Places::none(), hasher))
}

/// Serves one connection to its end.
fn serve_connection(
    rt: &HostRuntime,
    engine: &mut Engine<Interfaces>,
    echo: &mut Echo,
    connection: u64,
    stream: TcpStream,
)
    requires idle { waits_in engine.old ≡ None }
    ensures idle { waits_in engine.new ≡ None }
{
    let mut wire = Socket::new(stream, None);
    let mut clock = SystemClock::new(rt);
    if engine.connect(connection).is_ok() {
        serve_engine(
            rt.alloc(),
            engine,
            echo,
            connection,
            &mut wire,
            &mut clock,
            MAX_READS,
        );
    }
}

/// Serves so many connections on a port of 127.0.0.1.
pub(crate) fn serve(rt: &HostRuntime, port: u16, connections: u32) -> io::Result<()> {
    let mut engine = new_engine(rt)?;
    let mut echo = Echo::new();
    let listener = TcpListener::bind(rt, (Ipv4Addr::LOCALHOST, port))?;
    for i in 0..connections {
        let (stream, _) = listener.accept()?;
        serve_connection(rt, &mut engine, &mut echo, u64::from(i) + 1, stream);
    }
    Ok(())
}
