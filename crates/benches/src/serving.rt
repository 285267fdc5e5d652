//! What messages are fed to: a server that performs them, an engine whose owner does, or one whose owner does later.

use cdr_core::Val;
use counter::Counter;
use ft_log::Outcome;
use ft_orb::{Engine, Fed, Server};

/// A counter that is served on connection 1.
pub(crate) trait Serving {
    /// Feeds a piece at a moment; none where an allocation fails.
    fn feed(&mut self, moment: u64, piece: &[u8], out: &mut Vec<u8>) -> Option<()>;

    /// The counter's total.
    fn total(&self) -> i64;
}

impl Serving for Server<Counter> {
    fn feed(&mut self, moment: u64, piece: &[u8], out: &mut Vec<u8>) -> Option<()> {
        Server::feed(self, 1, moment, piece, out).ok()
    }

    fn total(&self) -> i64 {
        self.servant().total()
    }
}

/// An engine, and the total that its owner keeps.
#[derive(Drop)]
pub(crate) struct Owned {
    pub(crate) engine: Engine<Counter>,
    pub(crate) total: i64,
}

impl Owned {
    /// Performs the call that waits.
    fn perform(&mut self) -> Option<Outcome> {
        let asked = self.engine.asked()?;
        outcome_of(asked.arguments, &mut self.total)
    }
}

/// The outcome of `add` or `get`, and the total after it.
fn outcome_of(arguments: &[Val], total: &mut i64) -> Option<Outcome> {
    if let [Val::Long(n)] = arguments {
        *total = total.checked_add(i64::from(*n))?;
    }
    Some(Outcome::One(Val::LongLong(*total)))
}

impl Serving for Owned {
    fn feed(&mut self, moment: u64, piece: &[u8], out: &mut Vec<u8>) -> Option<()> {
        let mut left = piece;
        // (each call that is asked for takes an octet at least)
        for _ in 0..=piece.len() {
            if self.engine.is_asking() {
                return None;
            }
            let Fed::Asks(taken) = self.engine.feed(1, moment, left, out).ok()? else {
                return Some(());
            };
            let number = self.engine.asked()?.number;
            let outcome = self.perform()?;
            if !self.engine.can_answer(number, &outcome) {
                return None;
            }
            self.engine.answer(number, outcome, out).ok()?;
            left = left.get(taken..)?;
        }
        None
    }

    fn total(&self) -> i64 {
        self.total
    }
}

/// An engine whose owner parks each request, and performs those that are parked once they are so many.
#[derive(Drop)]
pub(crate) struct Deferred {
    pub(crate) owned: Owned,
    pub(crate) parked: Vec<u64>,
    pub(crate) most: usize,
}

impl Deferred {
    /// Parks the request that waits.
    fn park(&mut self) -> Option<()> {
        let number = self.owned.engine.asked()?.number;
        self.owned.engine.park(number).ok()?;
        self.parked.push(number).ok()
    }

    /// Performs the request that is parked under a number, and tells it to the one that waits for it.
    fn settle(&mut self, number: u64, out: &mut Vec<u8>) -> Option<()> {
        let engine = &mut self.owned.engine;
        let parked = engine.parked(number)?;
        let outcome = outcome_of(parked.arguments, &mut self.owned.total)?;
        if engine.is_asking() || !engine.can_settle(number, &outcome) {
            return None;
        }
        engine.settle(number, outcome);
        engine.due(number)?;
        engine.reply(number, out).ok()?;
        match engine.due(number) {
            Some(_) => None,
            None => Some(()),
        }
    }

    /// Performs all that is parked.
    fn settle_all(&mut self, out: &mut Vec<u8>) -> Option<()> {
        for i in 0..self.parked.len() {
            let number = *self.parked.get(i)?;
            self.settle(number, out)?;
        }
        self.parked.clear();
        Some(())
    }
}

impl Serving for Deferred {
    fn feed(&mut self, moment: u64, piece: &[u8], out: &mut Vec<u8>) -> Option<()> {
        let mut left = piece;
        // (each call that is asked for takes an octet at least)
        for _ in 0..=piece.len() {
            if self.owned.engine.is_asking() {
                return None;
            }
            match self.owned.engine.feed(1, moment, left, out).ok()? {
                Fed::Whole => return Some(()),
                Fed::Repeats(taken) => left = left.get(taken..)?,
                Fed::Asks(taken) => {
                    self.park()?;
                    if self.parked.len() >= self.most {
                        self.settle_all(out)?;
                    }
                    left = left.get(taken..)?;
                }
            }
        }
        None
    }

    fn total(&self) -> i64 {
        self.owned.total
    }
}
