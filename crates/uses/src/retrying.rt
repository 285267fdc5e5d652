//! Call again: what was sent on a connection that is lost is sent on the next, and acts once.

ghost use Rattle.std.specs.Prelude.{◌≡◌, [], false, is_some, IfOk, OnOk, map};
ghost use Rattle.std.specs.Option.{option_to_list};
ghost use Rattle.giop_frames.specs.declared.limits.Limits.{Limits};
ghost use Rattle.ft_client.specs.Ends.{completion_of, numbered};
ghost use Rattle.ft_client.specs.Standing.{FtStands};
ghost use Rattle.ft_orb.specs.Standing.{Stands};
ghost use Rattle.uses.specs.Retrying.{IsGiven, next_ended, served, unconnected};
ghost use Rattle.uses.specs.Serving.{tickets_made};
ghost use Rattle.uses.specs.Tickets.{tickets_meaning};

use crate::tickets::Tickets;
use ft_client::{CallError, Ended, FtClient};
use ft_log::Retention;
use ft_orb::{ConnectError, ServeError, Server};
use giop_core::Version;
use giop_frames::Limits;
use std::alloc::{AllocError, Global};
use std::hash::RandomState;
use thiserror::Error;

/// Why a call was not made.
#[derive(Debug, Drop, Error)]
pub enum RetryingError {
    #[error("memory")]
    Memory(#[from] AllocError),
    #[error("{0}")]
    Call(#[from] CallError),
    #[error("{0}")]
    Connect(#[from] ConnectError),
    #[error("{0}")]
    Serve(#[from] ServeError),
}

/// A client calls `next` of the tickets on connection 1, which is lost with the answer, and is connected again: how
/// its call ended.
fn call_twice(
    alloc: Global,
    client: &mut FtClient,
    server: &mut Server<Tickets>,
) -> Result<Option<(i32, Ended)>, RetryingError>
    requires { is_some client.old.link ≡ false }
    ensures ended { IfOk result (λ completion. (limits : Limits) → FtStands client.old (unconnected limits) → Stands tickets_meaning (tickets_made limits) server.old []
        → map completion_of (option_to_list completion) ≡ map numbered (next_ended limits)) }
    ensures stands { OnOk result ((limits : Limits) → FtStands client.old (unconnected limits) → Stands tickets_meaning (tickets_made limits) server.old []
        → Stands tickets_meaning (tickets_made limits) server.new (served limits)) }
{
    let mut request = Vec::new(alloc);
    server.connect(1)?;
    client.connected(50, &mut request)?;
    client.call(50, b"tickets", b"next", &[], 100, &mut request)?;
    let mut unheard = Vec::new(alloc);
    server.feed(1, 50, &request, &mut unheard)?;
    client.lost();
    server.lost(1);

    let mut again = Vec::new(alloc);
    server.connect(2)?;
    client.connected(60, &mut again)?;
    let mut answer = Vec::new(alloc);
    server.feed(2, 60, &again, &mut answer)?;
    client.feed(&answer)?;
    Ok(client.take_completion())
}

/// A new client asks a new server for a ticket, over two connections: how its call ended, and how many tickets were
/// given.
pub fn next_ticket(
    alloc: Global,
    hasher: RandomState,
    limits: Limits,
) -> Result<(Option<(i32, Ended)>, u64), RetryingError>
    ensures ended { IfOk result (λ told. map completion_of (option_to_list told.0) ≡ map numbered (next_ended limits)) }
    ensures given { IfOk result (λ told. IsGiven limits told.1) }
{
    let tickets = Tickets::new(alloc)?;
    let retention = Retention {
        capacity: 100,
        share: 10,
    };
    let mut client = FtClient::new(alloc, b"A", Version::V12, limits)?;
    let mut server = Server::new(alloc, tickets, limits, retention, hasher);
    let completion = call_twice(alloc, &mut client, &mut server)?;
    Ok((completion, server.servant().given()))
}
