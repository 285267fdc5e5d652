//! `Server::connect` and `feed`: a counter is asked to add, and is asked again where an allocation was refused.

use crate::misses::{connect_miss, serve_miss};
use crate::server_samples::{AGAIN, ANSWER};
use counter::Counter;
use ft_log::Retention;
use ft_orb::{ServeError, Server};
use giop_frames::{Cuts, Limits};
use std::alloc::{AllocError, Global};
use std::hash::RandomState;
use trials::{Gives, Miss, Output, Room, Sample, Trial, Wrong};

/// The total after the addition. Before it the total is 0.
const SUM: i64 = 7;

/// How many outcomes a server may keep, and how many of each client.
const MOST: u32 = 2;

/// The least limits.
const LEAST: Limits = Limits {
    message: 4096,
    partials: 1,
    cuts: Cuts::Aligned,
};

/// A server of a counter, without connections.
pub(crate) fn new_server(
    alloc: Global,
    hasher: RandomState,
) -> Result<Server<Counter>, AllocError> {
    let counter = Counter::new(alloc, 0)?;
    let retention = Retention {
        capacity: MOST,
        share: MOST,
    };
    Ok(Server::new(alloc, counter, LEAST, retention, hasher))
}

/// A request, the moment at which it comes, and what is to be written for it.
#[derive(Clone, Copy)]
struct Asked {
    octets: &'static [u8],
    moment: u64,
    answer: &'static [u8],
}

/// The request of a sample, as it comes first.
fn first_of(sample: &Sample) -> Result<Asked, Wrong> {
    let Gives::Answer(answer) = sample.gives else {
        return Err(Wrong::Inputs);
    };
    Ok(Asked {
        octets: sample.octets,
        moment: 50,
        answer,
    })
}

/// The same request when it comes again.
const REPEAT: Asked = Asked {
    octets: AGAIN,
    moment: 60,
    answer: ANSWER,
};

/// A request on a connection that is opened for it.
#[derive(Drop)]
pub struct Asking {
    asked: Asked,
    server: Server<Counter>,
    /// The number of the connection that is opened next.
    connection: u64,
    /// What the total is to be.
    total: i64,
    output: Output,
    /// Whether a refused allocation left what `feed` promises.
    is_cut_well: bool,
}

impl Asking {
    /// A server that was asked nothing, and the request of a sample.
    pub(crate) fn new(alloc: Global, hasher: RandomState, sample: &Sample) -> Result<Asking, Miss> {
        Ok(Asking {
            asked: first_of(sample)?,
            server: new_server(alloc, hasher)?,
            connection: 1,
            total: 0,
            output: Output::new(alloc, Room::Full)?,
            is_cut_well: true,
        })
    }

    /// A server that was asked the request of a sample, and the request as it comes again.
    pub(crate) fn again(
        alloc: Global,
        hasher: RandomState,
        sample: &Sample,
    ) -> Result<Asking, Miss> {
        let mut asking = Asking::new(alloc, hasher, sample)?;
        asking.call(alloc)?;
        asking.turn();
        Ok(asking)
    }

    /// Turns to the request as it comes again, on the next connection.
    fn turn(&mut self) {
        self.asked = REPEAT;
        self.connection = self.connection.saturating_add(1);
        self.output.before = &[];
        self.output.out.clear();
    }

    /// Looks at what a refused allocation left: whole answers alone, and no connection.
    fn look(&mut self, handled: u64, answered: u64) {
        if handled == 1 {
            self.total = SUM;
        }
        let asked = self.asked;
        let connection = self.connection;
        let is_closed = self.server.is_closed(connection);
        let out = &mut self.output.out;
        let further = self
            .server
            .feed(connection, asked.moment, asked.octets, out);
        let answer: &[u8] = if answered == 1 { asked.answer } else { &[] };
        let is_whole = self.output.has_gained(answer);
        self.is_cut_well = is_closed && is_whole && further == Err(ServeError::NoConnection);
    }
}

impl Trial for Asking {
    fn call(&mut self, _alloc: Global) -> Result<(), Miss> {
        self.server.connect(self.connection).map_err(connect_miss)?;
        let asked = self.asked;
        let out = &mut self.output.out;
        let fed = self
            .server
            .feed(self.connection, asked.moment, asked.octets, out);
        if let Err(ServeError::Memory { handled, answered }) = fed {
            self.look(handled, answered);
            self.turn();
        }
        fed.map_err(serve_miss)?;
        self.total = SUM;
        if self.server.servant().total() != SUM {
            return Err(Wrong::Value.into());
        }
        if !self.output.has_gained(asked.answer) {
            return Err(Wrong::Octets.into());
        }
        Ok(())
    }

    /// The total is that of the request where it was handled, and nothing more is written.
    fn is_unchanged(&self) -> bool {
        let is_total = self.server.servant().total() == self.total;
        is_total && self.is_cut_well && self.output.has_gained(&[])
    }
}
