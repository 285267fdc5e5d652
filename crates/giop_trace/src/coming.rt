//! A connection whose packets come.

use crate::block::{Block, Piece};
use crate::item::Given;
use crate::session::Session;
use crate::sink::Sink;
use crate::stop::Stop;
use giop_lines::{Closing, Endpoints};
use giop_tap::Sender;
use std::alloc::Global;
use std::io::Write;

/// A connection whose packets come.
#[derive(Drop)]
pub(crate) struct Coming {
    pub block: Block,
    /// Its number in the trace, once it has one.
    number: u64,
    /// The greatest number of its packets so far.
    pub order: u64,
    /// Which sides have closed it.
    is_opener_done: bool,
    is_acceptor_done: bool,
}

/// Begins the connection of a block, and returns its number.
fn begin<W: Write>(
    block: &mut Block,
    session: &mut Session,
    out: &mut Sink<W>,
) -> Result<u64, Stop> {
    block.decide();
    block.is_traced = true;
    let stamp = block.first_stamp();
    let (opener, acceptor) = block.ends();
    let ends = Endpoints {
        stream: block.stream,
        opener,
        acceptor,
    };
    session.begin(&ends, stamp, out)
}

/// Hands on what is held of a block.
fn hand_on_pieces<W: Write>(
    block: &mut Block,
    session: &mut Session,
    out: &mut Sink<W>,
) -> Result<(), Stop> {
    for (sender, stamp, piece) in &block.pieces {
        let sender = block.side_of(*sender);
        if let Some(stamp) = stamp {
            session.stamp(sender, *stamp);
        }
        session.take(sender, piece, out)?;
    }
    block.pieces.clear();
    Ok(())
}

impl Coming {
    /// One of which nothing has come.
    pub fn new(alloc: Global, stream: Option<u64>) -> Coming {
        let mut block = Block::new(alloc);
        if let Some(stream) = stream {
            block.set_stream(stream);
        }
        Coming {
            block,
            number: 0,
            order: 0,
            is_opener_done: false,
            is_acceptor_done: false,
        }
    }

    /// Hands on what is held of it, and its line before it.
    fn hand_on<W: Write>(&mut self, session: &mut Session, out: &mut Sink<W>) -> Result<(), Stop> {
        if !self.block.is_traced {
            self.number = begin(&mut self.block, session, out)?;
        }
        session.turn_to(self.number)?;
        hand_on_pieces(&mut self.block, session, out)
    }

    /// Takes note of a side that closes it.
    fn note(&mut self, sender: Sender, closing: Closing) {
        match closing {
            Closing::Reset => {
                self.is_opener_done = true;
                self.is_acceptor_done = true;
            }
            Closing::Fin => match sender {
                Sender::Opener => self.is_opener_done = true,
                Sender::Acceptor => self.is_acceptor_done = true,
            },
        }
    }

    /// Takes what a packet gives.
    pub fn take<W: Write>(
        &mut self,
        given: Given,
        session: &mut Session,
        out: &mut Sink<W>,
    ) -> Result<(), Stop> {
        if let Piece::Closed(closing) = &given.piece {
            self.note(given.sender, *closing);
        }
        self.block
            .hold(given.sender, Some(given.stamp), given.piece)?;
        if self.block.is_traced || self.block.is_known() || self.is_done() {
            return self.hand_on(session, out);
        }
        Ok(())
    }

    /// Whether both sides have closed it.
    pub fn is_done(&self) -> bool {
        self.is_opener_done && self.is_acceptor_done
    }

    /// Ends it.
    pub fn end<W: Write>(&mut self, session: &mut Session, out: &mut Sink<W>) -> Result<(), Stop> {
        self.hand_on(session, out)?;
        session.end_connection(out)
    }
}
