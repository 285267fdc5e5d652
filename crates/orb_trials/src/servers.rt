//! `Server::close`, and the pieces for which `Server::feed` takes no memory.

use crate::asking::new_server;
use crate::misses::{connect_miss, serve_miss};
use counter::Counter;
use ft_orb::{ServeError, Server};
use std::alloc::Global;
use std::hash::RandomState;
use trials::{Miss, Output, Room, Sample, Trial, Wrong};

/// `close` of a connection. It writes the octets of a sample.
#[derive(Drop)]
pub struct ServerClosing {
    sample: &'static Sample,
    server: Server<Counter>,
    connection: u64,
    output: Output,
    /// Whether the connection is gone whose close had no memory.
    is_gone: bool,
}

impl ServerClosing {
    /// A server with a connection.
    pub(crate) fn new(
        alloc: Global,
        hasher: RandomState,
        sample: &'static Sample,
        room: Room,
    ) -> Result<ServerClosing, Miss> {
        let mut server = new_server(alloc, hasher)?;
        server.connect(1).map_err(connect_miss)?;
        Ok(ServerClosing {
            sample,
            server,
            connection: 1,
            output: Output::new(alloc, room)?,
            is_gone: false,
        })
    }

    /// Opens the next connection in place of one that is gone.
    fn open(&mut self) -> Result<(), Miss> {
        if self.is_gone {
            self.connection = self.connection.saturating_add(1);
            self.server.connect(self.connection).map_err(connect_miss)?;
        }
        Ok(())
    }
}

impl Trial for ServerClosing {
    fn call(&mut self, _alloc: Global) -> Result<(), Miss> {
        self.open()?;
        let connection = self.connection;
        let closed = self.server.close(connection, &mut self.output.out);
        if closed.is_err() {
            let further = self.server.close(connection, &mut self.output.out);
            self.is_gone = further == Err(ServeError::NoConnection);
        }
        closed.map_err(serve_miss)?;
        if !self.server.is_closed(connection) {
            return Err(Wrong::Held.into());
        }
        if !self.output.has_gained(self.sample.octets) {
            return Err(Wrong::Octets.into());
        }
        Ok(())
    }

    /// Nothing is written, and the connection is gone.
    fn is_unchanged(&self) -> bool {
        let is_closed = self.server.is_closed(self.connection);
        is_closed && self.is_gone && self.output.has_gained(&[])
    }
}

/// `feed` of no octets on a connection, and of a sample's octets on one that the server closed.
#[derive(Drop)]
pub struct Idling {
    sample: &'static Sample,
    server: Server<Counter>,
    output: Output,
}

impl Idling {
    /// A server with a connection, and with one that it closed.
    pub(crate) fn new(
        alloc: Global,
        hasher: RandomState,
        sample: &'static Sample,
    ) -> Result<Idling, Miss> {
        let mut server = new_server(alloc, hasher)?;
        let mut close = Vec::new(alloc);
        server.connect(1).map_err(connect_miss)?;
        server.connect(2).map_err(connect_miss)?;
        server.close(2, &mut close).map_err(serve_miss)?;
        Ok(Idling {
            sample,
            server,
            output: Output::new(alloc, Room::Full)?,
        })
    }
}

impl Trial for Idling {
    fn call(&mut self, _alloc: Global) -> Result<(), Miss> {
        let out = &mut self.output.out;
        self.server.feed(1, 50, &[], out).map_err(serve_miss)?;
        self.server
            .feed(2, 60, self.sample.octets, out)
            .map_err(serve_miss)?;
        if self.server.servant().total() != 0 {
            return Err(Wrong::Value.into());
        }
        if !self.output.has_gained(&[]) {
            return Err(Wrong::Octets.into());
        }
        Ok(())
    }

    fn is_unchanged(&self) -> bool {
        self.output.has_gained(&[])
    }
}
