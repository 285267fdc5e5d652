//! An engine and its owner: how pieces are fed, and what is asked for is answered or parked.

ghost use Rattle.std.specs.Prelude.{◌≡◌, IfOk, IsSome, None};
ghost use Rattle.ft_orb.specs.Engines.{IsOpen, waits_in};

use crate::journal::Journal;
use crate::owner::{Manner, Owner};
use crate::play::Terms;
use counter::Counter;
use ft_log::{Completion, Outcome, Retention, SystemName};
use ft_orb::{CloseError, ConnectError, Engine, Fed, ParkError, Places, ServeError};
use std::alloc::{AllocError, Global};
use std::hash::RandomState;

/// Why something that happened on a connection was not served to its end.
#[derive(Clone, Copy)]
pub(crate) enum Unserved {
    /// There is no such connection, or its number is not new.
    Refused,
    /// The connection is not closed, since somebody waits on it for the outcome of a parked request.
    Waits,
    /// An allocation failed, and the connection is lost: the first `handled` requests and locates that were fed
    /// last count, and the first `answered` are answered.
    Memory { handled: u64, answered: u64 },
    /// The owner gave a request up, and the connection is lost: so many requests and locates that were fed last
    /// came before it, and are answered.
    GivenUp(u64),
    /// The same, since there is no place to park it.
    Full(u64),
}

impl From<ConnectError> for Unserved {
    fn from(error: ConnectError) -> Unserved {
        match error {
            ConnectError::NotNew => Unserved::Refused,
            ConnectError::Memory => Unserved::Memory {
                handled: 0,
                answered: 0,
            },
        }
    }
}

impl From<CloseError> for Unserved {
    fn from(error: CloseError) -> Unserved {
        match error {
            CloseError::NoConnection => Unserved::Refused,
            CloseError::Waits => Unserved::Waits,
            CloseError::Memory => Unserved::Memory {
                handled: 0,
                answered: 0,
            },
        }
    }
}

impl From<ServeError> for Unserved {
    fn from(error: ServeError) -> Unserved {
        match error {
            ServeError::NoConnection => Unserved::Refused,
            ServeError::Memory { handled, answered } => Unserved::Memory { handled, answered },
        }
    }
}

/// An engine, and the owner that performs what it asks for. No request waits between two calls but those that are
/// parked.
#[derive(Drop)]
pub(crate) struct Host {
    pub(crate) engine: Engine<Counter>,
    pub(crate) owner: Owner,
    /// How many of the next requests that are asked for are to be parked.
    pub(crate) parks: u64,
    pub(crate) journal: Journal,
}

/// An engine to which nothing has happened.
fn new_engine(
    alloc: Global,
    catalogue: Counter,
    terms: Terms,
    places: Places,
    hasher: RandomState,
) -> Engine<Counter>
    ensures { waits_in result ≡ None }
{
    let retention = Retention {
        capacity: terms.capacity,
        share: terms.share,
    };
    Engine::new(alloc, catalogue, terms.limits, retention, places, hasher)
}

impl Host {
    /// An engine to which nothing has happened, and an owner that performs.
    pub(crate) fn new(
        alloc: Global,
        terms: Terms,
        places: Places,
        has_asks: bool,
        hasher: RandomState,
    ) -> Result<Host, AllocError>
        ensures { IfOk result (λ host. waits_in host.engine ≡ None) }
    {
        // (of this one only the types of the operations count)
        let catalogue = Counter::new(alloc, terms.start)?;
        let owner = Owner {
            alloc,
            counter: Counter::new(alloc, terms.start)?,
            manner: Manner::Performs,
        };
        let engine = new_engine(alloc, catalogue, terms, places, hasher);
        Ok(Host {
            engine,
            owner,
            parks: 0,
            journal: Journal::new(alloc, has_asks),
        })
    }

    /// Serves a piece of a connection's octets at a moment, and appends the answers.
    pub(crate) fn feed(
        &mut self,
        connection: u64,
        moment: u64,
        piece: &[u8],
        out: &mut Vec<u8>,
    ) -> Result<(), Unserved>
        requires idle { waits_in self.old.engine ≡ None }
        ensures idle { waits_in self.new.engine ≡ None }
    {
        let mut left = piece;
        while !left.is_empty() {
            let taken = match self.engine.feed(connection, moment, left, out)? {
                Fed::Whole => return Ok(()),
                Fed::Asks(taken) => {
                    self.take(out)?;
                    taken
                }
                Fed::Repeats(taken) => {
                    self.note_repeat(connection)?;
                    taken
                }
            };
            (_, left) = left.split_at(taken);
        }
        Ok(())
    }

    /// Parks the request that waits, where one is to be parked, or answers it.
    fn take(&mut self, out: &mut Vec<u8>) -> Result<(), Unserved>
        requires asking { IsSome (waits_in self.old.engine) }
        ensures idle { waits_in self.new.engine ≡ None }
    {
        if self.parks == 0 {
            return self.answer(out);
        }
        self.parks -= 1;
        self.park()
    }

    /// Answers the request that waits. It is given up where the owner does not perform it, or what it hands in is no
    /// outcome of the operation.
    fn answer(&mut self, out: &mut Vec<u8>) -> Result<(), Unserved>
        requires asking { IsSome (waits_in self.old.engine) }
        ensures idle { waits_in self.new.engine ≡ None }
    {
        let Some(asked) = self.engine.asked() else {
            return Ok(());
        };
        let number = asked.number;
        if self.journal.put_asked(&asked).is_err() {
            return Err(Unserved::GivenUp(self.engine.give_up(number)));
        }
        match self.owner.perform(&asked) {
            Some(outcome) => self.hand_in(number, outcome, out),
            None => self.refuse(number, out),
        }
    }

    /// Hands in the outcome of the request of this number, which waits.
    fn hand_in(&mut self, number: u64, outcome: Outcome, out: &mut Vec<u8>) -> Result<(), Unserved>
        requires open { IsOpen number (waits_in self.old.engine) }
        ensures idle { waits_in self.new.engine ≡ None }
    {
        if !self.engine.can_answer(number, &outcome) {
            return self.refuse(number, out);
        }
        Ok(self.engine.answer(number, outcome, out)?)
    }

    /// Declines the request of this number, which waits, or gives it up.
    fn refuse(&mut self, number: u64, out: &mut Vec<u8>) -> Result<(), Unserved>
        requires open { IsOpen number (waits_in self.old.engine) }
        ensures idle { waits_in self.new.engine ≡ None }
    {
        match self.owner.manner {
            Manner::Declines => Ok(self.engine.decline(number, SystemName::Transient, 0, out)?),
            Manner::Leaves => Err(Unserved::GivenUp(self.leave(number, out))),
            _ => Err(Unserved::GivenUp(self.engine.give_up(number))),
        }
    }

    /// Gives up the request of this number, which waits, and gives what `give_up` gives. CloseConnection is appended
    /// first, unless somebody waits on the connection for an outcome, or an allocation fails.
    fn leave(&mut self, number: u64, out: &mut Vec<u8>) -> u64
        requires open { IsOpen number (waits_in self.old.engine) }
        ensures idle { waits_in self.new.engine ≡ None }
    {
        match self.engine.goodbye(number, out) {
            Ok(answered) => answered,
            Err(_) => self.engine.give_up(number),
        }
    }

    /// Parks the request that waits. It is given up where there is no place for it, or an allocation fails.
    fn park(&mut self) -> Result<(), Unserved>
        requires asking { IsSome (waits_in self.old.engine) }
        ensures idle { waits_in self.new.engine ≡ None }
    {
        let Some(asked) = self.engine.asked() else {
            return Ok(());
        };
        let number = asked.number;
        if self.journal.put_asked(&asked).is_err() {
            return Err(Unserved::GivenUp(self.engine.give_up(number)));
        }
        let before = self.journal.lines.len();
        if self.journal.put_parked(&asked).is_err() {
            return Err(Unserved::GivenUp(self.engine.give_up(number)));
        }
        let Err(error) = self.engine.park(number) else {
            return Ok(());
        };
        self.journal.lines.truncate(before);
        let answered = self.engine.give_up(number);
        match error {
            ParkError::Full | ParkError::Share => Err(Unserved::Full(answered)),
            ParkError::Memory => Err(Unserved::GivenUp(answered)),
        }
    }

    /// Notes a repeat of a request that is parked. Where an allocation fails the connection is lost.
    fn note_repeat(&mut self, connection: u64) -> Result<(), Unserved>
        requires idle { waits_in self.old.engine ≡ None }
        ensures idle { waits_in self.new.engine ≡ None }
    {
        if self.journal.put_repeat(connection).is_ok() {
            return Ok(());
        }
        self.engine.lost(connection);
        Err(Unserved::Memory {
            handled: 0,
            answered: 0,
        })
    }

    /// Closes a connection, and appends what is written for that.
    pub(crate) fn close(&mut self, connection: u64, out: &mut Vec<u8>) -> Result<(), Unserved>
        requires idle { waits_in self.old.engine ≡ None }
        ensures idle { waits_in self.new.engine ≡ None }
    {
        Ok(self.engine.close(connection, out)?)
    }

    /// Performs the call that is parked under a number, and hands in its outcome. Where the owner has none of the
    /// operation, the request stays parked.
    pub(crate) fn settle(&mut self, number: u64) -> Settled
        requires idle { waits_in self.old.engine ≡ None }
        ensures idle { waits_in self.new.engine ≡ None }
    {
        let Some(asked) = self.engine.parked(number) else {
            return Settled::NotParked;
        };
        let Some(outcome) = self.owner.perform(&asked) else {
            return Settled::Unanswered;
        };
        if !self.engine.can_settle(number, &outcome) {
            return Settled::Unanswered;
        }
        self.engine.settle(number, outcome);
        Settled::Told
    }

    /// Declines the request that is parked under a number.
    pub(crate) fn withdraw(&mut self, number: u64) -> Settled
        requires idle { waits_in self.old.engine ≡ None }
        ensures idle { waits_in self.new.engine ≡ None }
    {
        let declined = Outcome::System(SystemName::Transient, 0, Completion::No);
        if !self.engine.can_settle(number, &declined) {
            return Settled::NotParked;
        }
        self.engine.withdraw(number, SystemName::Transient, 0);
        Settled::Told
    }
}

/// What came of an answer to a request that is parked, or of declining it.
#[derive(Clone, Copy)]
pub(crate) enum Settled {
    /// Replies are due to all who wait for it.
    Told,
    /// The owner has no outcome of the operation: it stays parked.
    Unanswered,
    /// Nothing is parked under the number.
    NotParked,
}
