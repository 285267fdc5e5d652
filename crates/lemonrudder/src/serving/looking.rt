//! What a server says of itself: the service contexts of what waits, and its numbers for an operator.

ghost use Rattle.std.specs.Prelude.{◌≡◌};

use crate::lent::context_of;
use crate::refusal::{Refusal, copied};
use crate::serving::Serving;
use giop_core::Content;
use giop_link::Inbound;

impl Serving {
    ghost use Rattle.std.specs.Prelude.{Ok, OnErr};
    ghost use Rattle.lemonrudder.specs.Looks.{OnContext, OnCount, OnHeldBy, OnNextExpiry, OnTick, OnWanted};

    /// Copies a service context of the request that waits, and gives its id.
    pub fn context(&self, index: u32, id: &mut u32, room: &mut [u8]) -> Result<u64, Refusal>
        ensures copied { OnContext index id.old id.new room.old room.new self.now self.now result }
        ensures refused { OnErr result ((id.new ≡ id.old) × (room.new ≡ room.old)) }
    {
        if !self.engine.is_asking() {
            return Err(Refusal::Idle);
        }
        let Some(inbound) = self.engine.message() else {
            return Err(Refusal::None);
        };
        let Inbound::Request(_, request) = inbound else {
            return Err(Refusal::None);
        };
        let content = Content::Request(request);
        let (found, data) = context_of(content, index).ok_or(Refusal::None)?;
        *id = found;
        Ok(copied(data, room))
    }

    /// How many wait for the outcome of the request of a ticket, which is parked, on connections that go on.
    pub fn wanted(&self, ticket: u64) -> Result<u64, Refusal>
        ensures { OnWanted ticket self.now self.now result }
    {
        if ticket == 0 {
            return Err(Refusal::Ticket);
        }
        let number = ticket - 1;
        match self.engine.parked(number) {
            Some(_) => Ok(self.engine.wanted(number) as u64),
            None => Err(Refusal::Ticket),
        }
    }

    /// A number for an operator, by which of them the header says it is.
    pub fn count(&self, what: u32) -> Result<u64, Refusal>
        ensures { OnCount what self.now self.now result }
    {
        let counts = self.engine.counts();
        let all = [
            self.connections.len() as u64,
            self.engine.kept_len() as u64,
            self.engine.parked_len() as u64,
            counts.asked,
            counts.repeated,
            counts.joined,
            counts.expired,
            counts.malformed,
            counts.invalid,
            counts.log_full,
            counts.share_full,
            counts.located,
            counts.dropped,
            counts.answered,
            counts.parked,
            counts.settled,
            counts.given_up,
            counts.declined,
            counts.withdrawn,
        ];
        all.get(what as usize).copied().ok_or(Refusal::Range)
    }

    /// How many outcomes are kept for a client, and places of outcomes that will come.
    pub fn held_by(&self, client: &[u8]) -> u64
        ensures { OnHeldBy client.now self.now self.now (Ok result) }
    {
        u64::from(self.engine.held_by(client))
    }

    /// Says the least expiration under which something is kept.
    pub fn next_expiry(&self, moment: &mut u64) -> u64
        ensures told { OnNextExpiry moment.old moment.new self.now self.now (Ok result) }
        ensures none { result ≡ 0 → moment.new ≡ moment.old }
    {
        let Some(next) = self.engine.next_expiry() else {
            return 0;
        };
        *moment = next;
        1
    }

    /// A moment has come: what expired before it is forgotten.
    pub fn tick(&mut self, moment: u64) -> Result<u64, Refusal>
        ensures { OnTick moment self.old self.new result }
    {
        if self.engine.is_asking() {
            return Err(Refusal::Asking);
        }
        self.engine.tick(moment);
        Ok(0)
    }
}
