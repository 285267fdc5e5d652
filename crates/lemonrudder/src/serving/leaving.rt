//! Connections on which goodbye is said, and why they end.

ghost use Rattle.std.specs.Prelude.{◌≡◌, ℕ, true};
ghost use Rattle.ft_orb.specs.Engines.{counts_in};
ghost use Rattle.ft_orb.specs.Parking.{AreParked, left_in, waits_on};
ghost use Rattle.lemonrudder.specs.Leaving.{why_number};

use crate::assembling::number_of_fault;
use crate::refusal::Refusal;
use crate::serving::Serving;
use ft_orb::{CloseError, Ending};
use giop_link::LinkFault;

impl Serving {
    ghost use Rattle.lemonrudder.specs.Connected.{is_there};
    ghost use Rattle.lemonrudder.specs.Leaving.{OnWhy};
    ghost use Rattle.lemonrudder.specs.Serves.{IsIdle, IsClosed, KeepsCatalogue, KeepsTickets};
    ghost use Rattle.lemonrudder.specs.Telling.{Parts};

    /// Says goodbye on a connection on which nobody waits.
    pub(super) fn close(&mut self, connection: u64) -> Result<u64, Refusal>
        requires idle { IsIdle self.old }
        requires there { is_there self.old.connections connection ≡ true }
        requires nobody { waits_on self.old.engine connection ≡ 0 }
        ensures closed { IsClosed connection self.old self.new result }
        ensures parked { AreParked self.old.engine self.new.engine }
        ensures left { (q : ℕ) → left_in self.new.engine q ≡ left_in self.old.engine q }
    {
        let mut due = self.connections.take(connection);
        let closed = self.engine.close(connection, &mut due.octets);
        self.connections.put(connection, due);
        let why = self.engine.ending(connection);
        self.connections.note(connection, why);
        match closed {
            Ok(()) => Ok(0),
            Err(CloseError::NoConnection) => Err(Refusal::Connection),
            Err(CloseError::Memory) => Err(Refusal::Lost),
            Err(CloseError::Waits) => Err(Refusal::Parks),
        }
    }

    /// .. where it is leaving, and nobody waits there any more.
    pub(super) fn finish(&mut self, connection: u64)
        requires idle { IsIdle self.old }
        ensures parts { Parts connection self.old self.new }
        ensures parked { AreParked self.old.engine self.new.engine }
        ensures left { (q : ℕ) → left_in self.new.engine q ≡ left_in self.old.engine q }
        ensures idle { IsIdle self.new }
        ensures catalogue { KeepsCatalogue self.old self.new }
        ensures tickets { KeepsTickets self.old self.new }
        ensures counts { counts_in self.new.engine ≡ counts_in self.old.engine }
    {
        if !self.connections.is_leaving(connection) {
            return;
        }
        let waits = self.engine.waits_on(connection);
        if waits > 0 {
            return;
        }
        let _closed = self.close(connection);
    }

    /// Why a connection ended.
    pub fn why(&self, connection: u64) -> Result<u64, Refusal>
        ensures { OnWhy connection self.now self.now result }
    {
        if !self.connections.has(connection) {
            return Err(Refusal::Connection);
        }
        Ok(number_of_ending(self.connections.why(connection)))
    }
}

/// The number of the header of why a connection ended.
fn number_of_ending(why: Option<Ending>) -> u64
    ensures { result ≡ why_number why }
{
    match why {
        None => 0,
        Some(Ending::Faulty(LinkFault::Stream(fault))) => number_of_fault(&fault),
        Some(Ending::Faulty(LinkFault::WrongDirection)) => 32,
        Some(Ending::PeerClosed) => 33,
        Some(Ending::PeerError) => 34,
        Some(Ending::Closed) => 35,
        Some(Ending::GivenUp) => 36,
        Some(Ending::Memory) => 37,
    }
}
