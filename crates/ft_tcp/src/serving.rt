//! Connections over TCP, served one after another.

ghost use Rattle.std.specs.Prelude.{◌≡◌, ◌++◌, ◌≤◌, List, IfOk, length};
ghost use Rattle.ft_orb.specs.History as history;
ghost use Rattle.ft_orb.specs.Outputs.{Made, table_says};
ghost use Rattle.ft_orb.specs.Standing.{Stands};
ghost use Rattle.ft_orb.specs.Wires.{IfKnown};
ghost use Rattle.ft_tcp.specs.Visits.{AreVisits, IsVisit, Visit, acts_of, moments_in, moments_of, past_with_visit, past_with_visits};

use crate::socket::Socket;
use ft_objects::Servant;
use ft_orb::{Clock, Server, Wire, serve_stream};
use std::alloc::Global;
use std::io;
use std::net::TcpListener;
use std::time::Duration;

/// The most reads of a connection.
const MAX_READS: u32 = 1_000_000;

/// Opens a connection, and serves it over a wire to its end, however it ends, with at most 1,000,000 reads. Where it
/// can't be opened, the wire is left alone.
pub fn serve_connection<S: Servant + Drop, W: Wire, C: Clock>(
    alloc: Global,
    connection: u64,
    wire: &mut W,
    server: &mut Server<S>,
    clock: &mut C,
)
    ensures { (made : Made S) (past : List history.Event) → Stands S.meaning made server.old past → (v : Visit)
        × IsVisit made.limits S.meaning.knows (table_says S.meaning made) past connection v
        × Stands S.meaning made server.new (past_with_visit made.limits past connection v)
        × IfKnown (λ before now. now ≡ before ++ acts_of v) (W.traffic wire.old) (W.traffic wire.new)
        × IfKnown (λ before now. now ≡ before ++ moments_of v) (C.given clock.old) (C.given clock.new) }
{
    giop_link::laws::streams_are_heard::<giop_link::Server>();
    if server.connect(connection).is_ok() {
        serve_stream(alloc, server, connection, wire, clock, MAX_READS);
    }
}

/// Serves so many connections, one after another: the first that a listener accepts is connection 1, and each is
/// served to its end, however it ends, with at most 1,000,000 reads. One whose number the server refuses is
/// dropped, and counts. What is written on a socket goes out at once (TCP_NODELAY). With a timeout, which is not 0, a
/// connection ends with a read or a write that takes longer.
///
/// An error is that of accepting a connection. Those before it were served.
pub fn serve_on<S: Servant + Drop, C: Clock>(
    alloc: Global,
    listener: &TcpListener,
    connections: u32,
    timeout: Option<Duration>,
    server: &mut Server<S>,
    clock: &mut C,
) -> io::Result<()>
    ensures { (made : Made S) (past : List history.Event) → Stands S.meaning made server.old past → (visits : List Visit)
        × AreVisits made.limits S.meaning.knows (table_says S.meaning made) past 1 visits
        × Stands S.meaning made server.new (past_with_visits made.limits past 1 visits)
        × IfKnown (λ before now. now ≡ before ++ moments_in visits) (C.given clock.old) (C.given clock.new)
        × (length visits ≤ connections)
        × IfOk result (λ _. length visits ≡ connections) }
{
    for i in 0..connections {
        let (stream, _) = listener.accept()?;
        let mut socket = Socket::new(stream, timeout);
        serve_connection(alloc, u64::from(i) + 1, &mut socket, server, clock);
    }
    Ok(())
}
