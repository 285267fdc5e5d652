//! Relay: an engine stands before a server in memory, which is asked for each call once.

ghost use Rattle.std.specs.Prelude.{◌≡◌, ◌+◌, ◌%◌, ◌^◌, List, Option, option_map};
ghost use Rattle.cdr_core.specs.View.{values_of};
ghost use Rattle.giop_core.specs.Content.{Rest};
ghost use Rattle.ft_log.specs.View.{performed_in};
ghost use Rattle.ft_objects.specs.Interfaces.{raw_arguments};
ghost use Rattle.uses.specs.Relaying.{Exchange, Exchanged, IsForwarded};

use crate::banking::{BankingError, serve_events};
use crate::forwarding::{ForwardError, body_of, forward_request, read_reply, untold};
use ft_log::{Completion, Outcome, Retention, SystemName};
use ft_objects::{Interfaces, Servant};
use ft_orb::{Asked, Engine, Event, Performer, Places, Server};
use giop_frames::Limits;
use std::alloc::{AllocError, Global};
use std::hash::RandomState;

/// A server behind, as a `Relay` asks it.
pub trait Back {
    /// The requests that it was sent, each with what it wrote for it, the first first, if they are known.
    ghost exchanges: { Self → Option (List Exchange) };

    /// Sends the octets of a request, and gives what the server writes up to its reply, or up to the loss of the
    /// connection.
    fn exchange(&mut self, alloc: Global, request: &[u8]) -> Vec<u8>
        ensures { Exchanged (record { request = request.now; written = result.items }) (exchanges self.old) (exchanges self.new) };
}

/// A server in memory, to which each request goes over a connection of its own.
#[derive(Drop)]
pub struct Behind<S: Drop> {
    server: Server<S>,
    connections: u64,
}

impl<S: Servant + Drop> Behind<S> {
    /// A server that has no connection yet.
    pub fn new(server: Server<S>) -> Behind<S> {
        Behind {
            server,
            connections: 0,
        }
    }

    /// Its servant.
    pub fn servant(&self) -> &S {
        self.server.servant()
    }
}

impl<S: Servant + Drop> Back for Behind<S> {
    ghost use Rattle.std.specs.Prelude.{None};

    ghost exchanges = { λ _. None };

    fn exchange(&mut self, alloc: Global, request: &[u8]) -> Vec<u8> {
        let mut written = Vec::new(alloc);
        self.connections = self.connections.saturating_add(1);
        if self.server.connect(self.connections).is_ok() {
            // without FT_REQUEST no moment counts; where an allocation fails, what is written before stands
            let _served = self.server.feed(self.connections, 0, request, &mut written);
            self.server.lost(self.connections);
        }
        written
    }
}

/// The owner of an engine whose calls a server behind performs. It forwards one call at a time, each under the next
/// request id.
#[derive(Drop)]
pub struct Relay<B: Drop> {
    back: B,
    limits: Limits,
    last_id: u32,
}

impl<B: Back + Drop> Relay<B> {
    /// A relay that has forwarded nothing. What the server behind writes keeps to the limits.
    pub fn new(back: B, limits: Limits) -> Relay<B>
        ensures { result ≡ record { back = back; limits = limits; last_id = 0 } }
    {
        Relay {
            back,
            limits,
            last_id: 0,
        }
    }

    /// The server behind.
    pub fn back(&self) -> &B
        ensures { result.now ≡ self.now.back }
    {
        &self.back
    }

    /// Asks the server behind for a raw call. None where nothing was done: an allocation failed before the call was
    /// sent, or the server closed the connection in place of a reply.
    pub fn forward(&mut self, alloc: Global, asked: &Asked<'_>) -> Option<Outcome>
        ensures id { self.new.last_id ≡ (self.old.last_id + 1) % 2 ^ 32 }
        ensures limits { self.new.limits ≡ self.old.limits }
        ensures forwarded { (body : Rest) → values_of asked.now.arguments.now ≡ raw_arguments body
            → IsForwarded self.old.limits self.new.last_id asked.now.object_key.now asked.now.operation.now body (option_map performed_in result) (B.exchanges self.old.back) (B.exchanges self.new.back) }
    {
        self.last_id = self.last_id.wrapping_add(1);
        let body = body_of(asked.arguments)?;
        let id = self.last_id;
        let request = match forward_request(alloc, id, asked.object_key, asked.operation, &body) {
            Ok(request) => request,
            Err(ForwardError::Unfit) => {
                return Some(Outcome::System(SystemName::ImpLimit, 0, Completion::No));
            }
            Err(ForwardError::Memory) => return None,
        };
        let written = self.back.exchange(alloc, &request);
        match read_reply(alloc, self.limits, id, &written) {
            Ok(told) => told,
            // it may have been performed, so it is not to be asked again
            Err(AllocError) => Some(untold()),
        }
    }
}

impl<B: Back + Drop> Performer for Relay<B> {
    ghost use Rattle.std.specs.Prelude.{None};

    ghost answered = { λ _. None };

    fn perform(&mut self, alloc: Global, asked: &Asked<'_>) -> Option<Outcome> {
        self.forward(alloc, asked)
    }
}

/// Serves events before a server behind, by an engine whose one object has this key and is raw as a whole: appends
/// what is to be sent for each.
pub fn serve_relay<B: Back + Drop>(
    alloc: Global,
    hasher: RandomState,
    limits: Limits,
    object_key: &[u8],
    relay: &mut Relay<B>,
    events: &[Event],
    out: &mut Vec<Vec<u8>>,
) -> Result<(), BankingError> {
    let mut interfaces = Interfaces::new(alloc);
    interfaces.add_raw_object(object_key)?;
    // at most 100 outcomes are kept, at most 100 of each client
    let retention = Retention {
        capacity: 100,
        share: 100,
    };
    let mut engine = Engine::new(alloc, interfaces, limits, retention, Places::none(), hasher);
    serve_events(alloc, &mut engine, relay, events, out)
}
