//! Answer later: an engine parks what it asks for, and goes on; the outcomes come in any order.

ghost use Rattle.std.specs.Prelude.{◌≡◌, IsSome, None};
ghost use Rattle.ft_orb.specs.Engines.{waits_in};

use crate::banking::{BankingError, bank_interfaces};
use ft_log::{Outcome, Retention};
use ft_objects::Interfaces;
use ft_orb::{Engine, Event, Fed, Places};
use giop_frames::Limits;
use std::alloc::{AllocError, Global};
use std::hash::RandomState;

/// What happens.
#[derive(Debug, Drop)]
pub enum Turn {
    /// Something on a connection.
    Happens(Event),
    /// The outcome of the request of this number is there. Numbers count from 0 what the engine asked for.
    Settles(u64, Outcome),
}

/// What is to be sent: the connection, and the octets.
type Sent = Vec<(u64, Vec<u8>)>;

/// Appends what is to be sent on a connection, if anything is.
fn send(sent: &mut Sent, connection: u64, octets: Vec<u8>) -> Result<(), AllocError> {
    if octets.is_empty() {
        return Ok(());
    }
    match sent.push((connection, octets)) {
        Ok(()) => Ok(()),
        Err(_) => Err(AllocError),
    }
}

/// Parks the request that waits. Where there is no place for it, it is given up: nothing was done.
fn park(engine: &mut Engine<Interfaces>) -> Result<(), BankingError>
    requires asking { IsSome (waits_in engine.old) }
    ensures idle { waits_in engine.new ≡ None }
{
    let Some(asked) = engine.asked() else {
        return Ok(());
    };
    let number = asked.number;
    if engine.park(number).is_ok() {
        return Ok(());
    }
    engine.give_up(number);
    Err(BankingError::GivenUp)
}

/// Feeds a piece to its end, and parks each request that is asked for in it. A repeat of one that is parked waits with it.
fn feed(
    engine: &mut Engine<Interfaces>,
    connection: u64,
    moment: u64,
    piece: &[u8],
    out: &mut Vec<u8>,
) -> Result<(), BankingError>
    requires idle { waits_in engine.old ≡ None }
    ensures idle { waits_in engine.new ≡ None }
{
    let mut left = piece;
    while !left.is_empty() {
        let taken = match engine.feed(connection, moment, left, out)? {
            Fed::Whole => return Ok(()),
            Fed::Asks(taken) => {
                park(engine)?;
                taken
            }
            Fed::Repeats(taken) => taken,
        };
        (_, left) = left.split_at(taken);
    }
    Ok(())
}

/// Tells the outcome of a request that is parked to all who wait for it, each on its own connection.
fn settle(
    alloc: Global,
    engine: &mut Engine<Interfaces>,
    number: u64,
    outcome: Outcome,
    sent: &mut Sent,
) -> Result<(), BankingError>
    requires idle { waits_in engine.old ≡ None }
    ensures idle { waits_in engine.new ≡ None }
{
    if !engine.can_settle(number, &outcome) {
        return Err(BankingError::NotParked);
    }
    engine.settle(number, outcome);
    while let Some(connection) = engine.due(number) {
        let mut octets = Vec::new(alloc);
        // a refused allocation loses this connection, and no other
        if engine.reply(number, &mut octets).is_ok() {
            send(sent, connection, octets)?;
        }
    }
    Ok(())
}

/// Serves one turn.
fn serve_turn(
    alloc: Global,
    engine: &mut Engine<Interfaces>,
    turn: Turn,
    sent: &mut Sent,
) -> Result<(), BankingError>
    requires idle { waits_in engine.old ≡ None }
    ensures idle { waits_in engine.new ≡ None }
{
    let mut octets = Vec::new(alloc);
    let connection = match turn {
        Turn::Settles(number, outcome) => return settle(alloc, engine, number, outcome, sent),
        Turn::Happens(Event::Opened(connection)) => {
            engine.connect(connection)?;
            connection
        }
        Turn::Happens(Event::Piece(connection, moment, piece)) => {
            feed(engine, connection, moment, &piece, &mut octets)?;
            connection
        }
        Turn::Happens(Event::Close(connection)) => {
            engine.close(connection, &mut octets)?;
            connection
        }
        Turn::Happens(Event::Lost(connection)) => {
            engine.lost(connection);
            connection
        }
    };
    Ok(send(sent, connection, octets)?)
}

/// Serves turns, one after another.
fn serve_turns(
    alloc: Global,
    engine: &mut Engine<Interfaces>,
    turns: Vec<Turn>,
    sent: &mut Sent,
) -> Result<(), BankingError>
    requires idle { waits_in engine.old ≡ None }
    ensures idle { waits_in engine.new ≡ None }
{
    for turn in turns {
        serve_turn(alloc, engine, turn, sent)?;
    }
    Ok(())
}

/// Serves a bank whose outcomes come from elsewhere: appends what is to be sent, in order.
pub fn serve_later(
    alloc: Global,
    hasher: RandomState,
    limits: Limits,
    turns: Vec<Turn>,
    sent: &mut Vec<(u64, Vec<u8>)>,
) -> Result<(), BankingError> {
    let retention = Retention {
        capacity: 100,
        share: 100,
    };
    // at most 100 requests are parked, at most 20 of one connection, and at most 11 wait for one
    let places = Places {
        parked: 100,
        of_one: 20,
        joined: 10,
    };
    let interfaces = bank_interfaces(alloc)?;
    let mut engine = Engine::new(alloc, interfaces, limits, retention, places, hasher);
    serve_turns(alloc, &mut engine, turns, sent)
}
