//! Requests that are not performed now, and may come again.

ghost use Rattle.ft_log.specs.View.{performed_in};
ghost use Rattle.ft_objects.specs.Replies.{IsRenderable};
ghost use Rattle.ft_orb.specs.Engines.{waits_in};

use crate::named::{order_of, raw_status_of, system_name_of};
use crate::refusal::Refusal;
use crate::serving::Serving;
use crate::serving::outcomes::copy_of;
use crate::serving::questions::Found;
use ft_log::{Completion, Outcome};
use ft_orb::{CloseError, Unkept};

impl Serving {
    ghost use Rattle.lemonrudder.specs.Declining.{DeclinesAsked, OnAnswerUnkept, OnGoodbye, OnRefuse, Tells};
    ghost use Rattle.lemonrudder.specs.Outcomes.{CanBe};
    ghost use Rattle.lemonrudder.specs.Tickets.{IsFound};
    ghost use Rattle.ft_orb.specs.declared.unkept.Unkept.TheVariants.{Performed};
    ghost use Rattle.lemonrudder.specs.declared.serving.questions.Found.TheVariants.{Waits};

    /// Tells an outcome to the request that waits, and keeps nothing.
    fn tell_asked(
        &mut self,
        number: u64,
        connection: u64,
        outcome: &Outcome,
        unkept: Unkept,
    ) -> Result<u64, Refusal>
        requires found { IsFound (Waits number connection) (waits_in self.old.engine) }
        requires renderable { IsRenderable (performed_in outcome.now) }
        ensures { DeclinesAsked unkept connection (performed_in outcome.now) self.old self.new result }
    {
        let mut due = self.connections.take(connection);
        let told = self.engine.tell(number, outcome, unkept, &mut due.octets);
        self.connections.put(connection, due);
        let why = self.engine.ending(connection);
        self.connections.note(connection, why);
        match told {
            Ok(()) => Ok(0),
            Err(error) => Err(Refusal::from(error)),
        }
    }

    /// .. that its owner has stored, to one that waits or is parked.
    fn pass_on(&mut self, found: Found, outcome: Outcome) -> Result<u64, Refusal>
        requires found { IsFound found (waits_in self.old.engine) }
        requires can { CanBe found (performed_in outcome) self.old }
        ensures { Tells Performed found (performed_in outcome) self.old self.new result }
    {
        match found {
            Found::Waits(number, connection) => {
                self.tell_asked(number, connection, &outcome, Unkept::Performed)
            }
            Found::Parked(number) => self.tell_parked(number, outcome, Unkept::Performed),
        }
    }

    /// Answers by an outcome that its owner has stored.
    pub fn answer_unkept(
        &mut self,
        ticket: u64,
        status: u32,
        order: u32,
        body: &[u8],
    ) -> Result<u64, Refusal>
        ensures { OnAnswerUnkept ticket status order body.now self.old self.new result }
    {
        let status = raw_status_of(status)?;
        let order = order_of(order)?;
        let called = self.called_by(ticket)?;
        let found = called.found;
        if !self.can_be_body(found, body) {
            return Err(Refusal::Outcome);
        }
        let body = copy_of(self.alloc, body)?;
        self.pass_on(found, Outcome::Raw(status, order, body))
    }

    /// Refuses the request of a ticket, for now: the one that waits, or one that is parked.
    pub fn refuse(&mut self, ticket: u64, name: u32, minor: u32) -> Result<u64, Refusal>
        ensures { OnRefuse ticket name minor self.old self.new result }
    {
        let name = system_name_of(name)?;
        let called = self.called_by(ticket)?;
        let outcome = Outcome::System(name, minor, Completion::No);
        match called.found {
            Found::Waits(number, connection) => {
                self.tell_asked(number, connection, &outcome, Unkept::Refusal)
            }
            Found::Parked(number) => self.tell_parked(number, outcome, Unkept::Refusal),
        }
    }

    /// Gives up the request that waits, and says goodbye first.
    pub fn goodbye(&mut self, ticket: u64) -> Result<u64, Refusal>
        ensures { OnGoodbye ticket self.old self.new result }
    {
        let asked = self.asked_by(ticket)?;
        let number = asked.number;
        let connection = asked.connection;
        let mut due = self.connections.take(connection);
        let given_up = self.engine.goodbye(number, &mut due.octets);
        self.connections.put(connection, due);
        match given_up {
            Ok(_) => {
                let why = self.engine.ending(connection);
                self.connections.note(connection, why);
                Ok(0)
            }
            Err(CloseError::Waits) => Err(Refusal::Parks),
            Err(CloseError::NoConnection) => Err(Refusal::Memory),
            Err(CloseError::Memory) => Err(Refusal::Memory),
        }
    }
}
