//! Play a schedule: a client and a server, with the connection cut at each place of the request and of the reply.

ghost use Rattle.std.specs.Prelude.{◌≡◌, ◌≤◌, IfOk, map, OnOk};
ghost use Rattle.std.specs.List.{AllByRecursion};
ghost use Rattle.ft_client.specs.Ends.{ended_of};
ghost use Rattle.ft_ends.specs.Both.{ActsOnce};
ghost use Rattle.ft_ends.specs.Playing.{AreNew, IsCallable, given_of, numbered, step_as};
ghost use Rattle.uses.specs.Cutting.{IsFirst, given_at, newcomers, steps_at, world_at};
ghost use Rattle.uses.specs.Serving.{tickets_made};
ghost use Rattle.uses.specs.Tickets.{tickets_meaning};

use crate::tickets::Tickets;
use ft_client::{Ended, FtClient};
use ft_ends::{Call, Step, both_ends};
use ft_log::Retention;
use ft_orb::{PlayError, Server};
use giop_core::Version;
use giop_frames::Limits;
use std::alloc::{AllocError, Global};
use std::hash::RandomState;
use thiserror::Error;

/// Why a schedule was not played.
#[derive(Debug, Drop, Error)]
pub enum CuttingError {
    #[error("memory")]
    Memory(#[from] AllocError),
    #[error("{0}")]
    Play(#[from] PlayError),
}

/// What completed, each with the client's place and the number of its call, and how many tickets were given.
#[derive(Debug, Drop)]
pub struct AtCut {
    pub completions: Vec<(u32, i32, Ended)>,
    pub given: u64,
}

/// A new client `A`, alone in a list.
fn one_client(alloc: Global, limits: Limits) -> Result<Vec<FtClient>, AllocError>
    ensures { IfOk result (λ clients. AreNew (newcomers limits) clients.items) }
{
    Ok(vec![in alloc; FtClient::new(alloc, b"A", Version::V12, limits)?]?)
}

/// The client calls `next` of the tickets and connects. So many octets of the request and then of the reply are
/// delivered; then the connection is cut, and all goes well on another.
#[tactic(auto, unfolding(crate::specs::Cutting::steps_at))]
fn steps_at_cut(alloc: Global, request: u32, reply: u32) -> Result<Vec<Step>, AllocError>
    ensures steps { IfOk result (λ steps. map step_as steps.items ≡ steps_at request reply) }
    ensures callable { IfOk result (λ steps. AllByRecursion IsCallable steps.items) }
{
    let client = 0;
    let call = Call {
        object_key: Vec::from_slice(alloc, b"tickets")?,
        operation: Vec::from_slice(alloc, b"next")?,
        arguments: Vec::new(alloc),
        expiration: 100,
    };
    Ok(vec![in alloc;
        Step::Call {
            client,
            now: 50,
            call
        },
        Step::Connect { client, now: 50 },
        Step::Up {
            client,
            count: request,
            now: 50
        },
        Step::Down {
            client,
            count: reply
        },
        Step::Cut { client },
        Step::Connect { client, now: 60 },
        Step::Up {
            client,
            count: u32::MAX,
            now: 60
        },
        Step::Down {
            client,
            count: u32::MAX
        },
    ]?)
}

/// A new client asks a new server for a ticket, and the connection is cut after so many octets of the request, and
/// of the reply.
pub fn ticket_at_cut(
    alloc: Global,
    hasher: RandomState,
    limits: Limits,
    request: u32,
    reply: u32,
) -> Result<AtCut, CuttingError>
    ensures completed { IfOk result (λ told. map given_of told.completions.items ≡ map numbered (world_at limits request reply).completions) }
    ensures given { IfOk result (λ told. told.given ≡ given_at limits request reply) }
    ensures few { IfOk result (λ told. told.given ≤ 1) }
    ensures first { IfOk result (λ told. AllByRecursion (λ x. IsFirst (ended_of x.2)) told.completions.items) }
    ensures once { OnOk result (ActsOnce tickets_meaning (tickets_made limits) (newcomers limits) (world_at limits request reply)) }
{
    ft_ends::laws::calls_are_of_steps();
    let steps = steps_at_cut(alloc, request, reply)?;
    let mut clients = one_client(alloc, limits)?;
    let tickets = Tickets::new(alloc)?;
    let retention = Retention {
        capacity: 100,
        share: 10,
    };
    let mut server = Server::new(alloc, tickets, limits, retention, hasher);
    let mut completions = Vec::new(alloc);
    both_ends(alloc, &mut server, &mut clients, &steps, &mut completions)?;
    let given = server.servant().given();
    Ok(AtCut { completions, given })
}
