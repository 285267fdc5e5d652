//! Requests that are parked, and the connections on which octets came due for them.

ghost use Rattle.std.specs.Prelude.{Ok};

use crate::refusal::Refusal;
use crate::serving::Serving;
use ft_orb::ParkError;

impl Serving {
    ghost use Rattle.lemonrudder.specs.Parks.{OnNextDue, OnPark, OnParked, OnParkedOf};

    /// Parks the request that waits.
    pub fn park(&mut self, ticket: u64) -> Result<u64, Refusal>
        ensures { OnPark ticket self.old self.new result }
    {
        let number = self.asked_by(ticket)?.number;
        match self.engine.park(number) {
            Ok(()) => Ok(0),
            Err(ParkError::Full) => Err(Refusal::Parks),
            Err(ParkError::Share) => Err(Refusal::Parks),
            Err(ParkError::Memory) => Err(Refusal::Memory),
        }
    }

    /// How many requests are parked.
    pub fn parked(&self) -> u64
        ensures { OnParked self.now self.now (Ok result) }
    {
        self.engine.parked_len() as u64
    }

    /// How many of the parked requests came on a connection.
    pub fn parked_of(&self, connection: u64) -> u64
        ensures { OnParkedOf connection self.now self.now (Ok result) }
    {
        self.engine.parked_of(connection) as u64
    }

    /// Names a connection on which octets came due that no call on it brought, if there is one, and answers 1; else 0.
    pub fn next_due(&mut self, connection: &mut u64) -> u64
        ensures { OnNextDue connection.old connection.new self.old self.new (Ok result) }
    {
        let Some(first) = self.ready.pop_first() else {
            return 0;
        };
        *connection = first;
        1
    }
}
