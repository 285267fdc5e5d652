//! Serve: what comes again over another connection acts once.

ghost use Rattle.std.specs.Prelude.{◌≡◌, [], IfOk};
ghost use Rattle.giop_frames.specs.declared.limits.Limits.{Limits};
ghost use Rattle.ft_orb.specs.Standing.{Stands};
ghost use Rattle.uses.specs.Serving.{first_output, second_output, tickets_made};
ghost use Rattle.uses.specs.Tickets.{tickets_meaning};

use crate::tickets::Tickets;
use ft_log::Retention;
use ft_orb::{ConnectError, ServeError, Server};
use giop_frames::Limits;
use std::alloc::{AllocError, Global};
use std::hash::RandomState;
use thiserror::Error;

/// Why octets were not served.
#[derive(Debug, Drop, Error)]
pub enum ServingError {
    #[error("memory")]
    Memory(#[from] AllocError),
    #[error("{0}")]
    Connect(#[from] ConnectError),
    #[error("{0}")]
    Serve(#[from] ServeError),
}

/// Serves octets on connection 1, which is lost then, and again on connection 2: what is written on each.
fn serve_twice(
    alloc: Global,
    server: &mut Server<Tickets>,
    octets: &[u8],
) -> Result<(Vec<u8>, Vec<u8>), ServingError>
    ensures first { IfOk result (λ written. (limits : Limits) → Stands tickets_meaning (tickets_made limits) server.old [] → written.0.items ≡ first_output limits octets.now) }
    ensures second { IfOk result (λ written. (limits : Limits) → Stands tickets_meaning (tickets_made limits) server.old [] → written.1.items ≡ second_output limits octets.now) }
{
    let mut first = Vec::new(alloc);
    server.connect(1)?;
    server.feed(1, 50, octets, &mut first)?;
    server.lost(1);
    let mut second = Vec::new(alloc);
    server.connect(2)?;
    server.feed(2, 60, octets, &mut second)?;
    Ok((first, second))
}

/// Serves tickets to a client that loses its connection and sends its octets again on another: what is written
/// on the first and on the second.
pub fn serve_once(
    alloc: Global,
    hasher: RandomState,
    limits: Limits,
    octets: &[u8],
) -> Result<(Vec<u8>, Vec<u8>), ServingError>
    ensures first { IfOk result (λ written. written.0.items ≡ first_output limits octets.now) }
    ensures second { IfOk result (λ written. written.1.items ≡ second_output limits octets.now) }
{
    let tickets = Tickets::new(alloc)?;
    let retention = Retention {
        capacity: 100,
        share: 10,
    };
    let mut server = Server::new(alloc, tickets, limits, retention, hasher);
    serve_twice(alloc, &mut server, octets)
}
