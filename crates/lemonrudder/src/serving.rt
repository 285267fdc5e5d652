//! A server, with the octets that are due on each of its connections: what it takes and writes.

ghost use Rattle.std.specs.Prelude.{◌≡◌, ◌↔◌, IsTrue, true};
ghost use Rattle.lemonrudder.specs.Connected.{is_asked_there};

mod beforehand;
mod declining;
mod leaving;
mod looking;
mod offering;
mod outcomes;
mod parking;
mod questions;
mod replying;
mod settling;
mod taken;

use crate::connections::Connections;
use crate::refusal::{Refusal, count_of};
use crate::terms::{Setup, Terms};
use ft_log::Retention;
use ft_objects::Families;
use ft_orb::Engine;
pub use replying::Said;
use std::alloc::Global;
use std::collections::BTreeSet;
use taken::taken_of;

/// An engine, and its connections: what is due on each, and those on which octets came due that the caller didn't ask for.
#[derive(Drop)]
pub struct Serving {
    engine: Engine<Families>,
    alloc: Global,
    setup: Setup,
    connections: Connections,
    ready: BTreeSet<u64>,
    ghost asked: { IsTrue (is_asked_there connections engine) },
}

impl Serving {
    ghost use Rattle.lemonrudder.specs.Openings.{IsNew};
    ghost use Rattle.lemonrudder.specs.Connected.{Hears, is_there};
    ghost use Rattle.lemonrudder.specs.Serves.{IsIdle, OnConnect, OnFarewell, OnFeed, OnGiveUp, OnIsClosed, OnLost, OnOutput, Serves};

    /// A server to which nothing has happened.
    pub fn new(alloc: Global, families: Families, terms: Terms) -> Serving
        ensures { IsNew families terms result }
    {
        let retention = Retention {
            capacity: terms.capacity,
            share: terms.share,
        };
        let mut engine = Engine::new(
            alloc,
            families,
            terms.limits,
            retention,
            terms.places,
            terms.hasher,
        );
        engine.bound_client_ids(terms.longest);
        engine.ask_first(terms.first);
        Serving {
            engine,
            alloc,
            setup: Setup {
                terms,
                opened: false,
                said: None,
            },
            connections: Connections::new(alloc),
            ready: BTreeSet::new(alloc),
        }
    }

    /// Opens a connection.
    pub fn connect(&mut self, connection: u64) -> Result<u64, Refusal>
        ensures { OnConnect connection self.old self.new result }
    {
        if self.engine.is_asking() {
            return Err(Refusal::Asking);
        }
        if !self.engine.is_new(connection) {
            return Err(Refusal::Connection);
        }
        let was = self.connections.has(connection);
        self.connections.open(connection)?;
        match self.engine.connect(connection) {
            Ok(()) => {
                self.setup.opened = true;
                Ok(0)
            }
            Err(error) => {
                self.connections.undo(connection, was);
                Err(Refusal::from(error))
            }
        }
    }

    /// Forgets a connection, and what is due on it.
    pub fn lost(&mut self, connection: u64) -> Result<u64, Refusal>
        ensures { OnLost connection self.old self.new result }
    {
        if self.engine.is_asking() {
            return Err(Refusal::Asking);
        }
        self.engine.lost(connection);
        self.connections.remove(connection);
        self.ready.remove(&connection);
        Ok(0)
    }

    /// Says goodbye on a connection; or answers how many wait there for what is parked, and it is leaving.
    pub fn farewell(&mut self, connection: u64) -> Result<u64, Refusal>
        ensures { OnFarewell connection self.old self.new result }
    {
        if self.engine.is_asking() {
            return Err(Refusal::Asking);
        }
        if !self.connections.has(connection) {
            return Err(Refusal::Connection);
        }
        let waits = self.engine.waits_on(connection);
        if waits > 0 {
            self.connections.leave(connection);
            return Ok(waits as u64);
        }
        self.close(connection)
    }

    /// Whether what comes on a connection has no meaning.
    pub fn is_closed(&self, connection: u64) -> u64
        ensures { OnIsClosed connection self.now self.now (Ok result) }
    {
        u64::from(self.engine.is_closed(connection))
    }

    /// Takes octets of a connection, and answers how many.
    pub fn feed(&mut self, connection: u64, moment: u64, octets: &[u8]) -> Result<u64, Refusal>
        ensures { OnFeed connection moment octets.now self.old self.new result }
    {
        if self.engine.is_asking() {
            return Err(Refusal::Asking);
        }
        if self.connections.hears(connection, self.setup.terms.due) {
            return self.serve(connection, moment, octets);
        }
        self.pass_over(connection, moment, octets)
    }

    /// Takes octets that are not heard, and answers how many.
    #[inline(never)]
    fn pass_over(&mut self, connection: u64, moment: u64, octets: &[u8]) -> Result<u64, Refusal>
        requires idle { IsIdle self.old }
        requires unheard { ¬ (Hears self.old.setup.terms.due self.old.connections connection) }
        ensures { OnFeed connection moment octets.now self.old self.new result }
    {
        if !self.connections.has(connection) {
            self.engine.tick(moment);
            return Err(Refusal::Connection);
        }
        if self.connections.is_leaving(connection) {
            self.engine.tick(moment);
            return Ok(count_of(octets));
        }
        Ok(0)
    }

    /// Takes octets of a connection, until as many are due on it as may be.
    fn serve(&mut self, connection: u64, moment: u64, octets: &[u8]) -> Result<u64, Refusal>
        requires idle { IsIdle self.old }
        requires there { is_there self.old.connections connection ≡ true }
        ensures { Serves connection moment octets.now self.old self.new result }
    {
        let Some(found) = self.connections.entries.get_mut(&connection) else {
            return Err(Refusal::Connection);
        };
        found.due.place();
        let most = found.due.most(self.setup.terms.due);
        let fed = self
            .engine
            .feed_within(connection, moment, octets, most, &mut found.due.octets);
        let why = self.engine.ending(connection);
        self.connections.note(connection, why);
        taken_of(octets, fed)
    }

    /// Gives up the request that waits.
    pub fn give_up(&mut self, ticket: u64) -> Result<u64, Refusal>
        ensures { OnGiveUp ticket self.old self.new result }
    {
        let asked = self.asked_by(ticket)?;
        let number = asked.number;
        let connection = asked.connection;
        self.engine.give_up(number);
        let why = self.engine.ending(connection);
        self.connections.note(connection, why);
        Ok(0)
    }

    /// Moves octets that are due on a connection into a room.
    pub fn output(&mut self, connection: u64, room: &mut [u8]) -> u64
        ensures { OnOutput connection room.old room.new self.old self.new (Ok result) }
    {
        self.connections.output(connection, room)
    }
}
