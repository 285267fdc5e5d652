//! The outcomes that are handed in for the request that waits, and for one that is parked.

ghost use Rattle.std.specs.Prelude.{◌≡◌, map};
ghost use Rattle.giop_core.specs.Items.{item_at};
ghost use Rattle.ft_log.specs.View.{performed_in};
ghost use Rattle.ft_orb.specs.Engines.{awaited_lent, waits_in};
ghost use Rattle.lemonrudder.specs.Outcomes.{IsCopy};

use crate::named::{completion_of, order_of, raw_status_of, system_name_of};
use crate::refusal::Refusal;
use crate::serving::Serving;
use crate::serving::questions::Found;
use crate::serving::replying::{answer_carrying, lent};
use crate::serving::taken::done_of;
use cdr_core::Val;
use ft_log::{Outcome, RawStatus};
use ft_objects::{Catalogue, string_at};
use ft_orb::Asked;
use std::alloc::Global;

impl Serving {
    ghost use Rattle.lemonrudder.specs.Tickets.{IsFound};
    ghost use Rattle.lemonrudder.specs.declared.serving.questions.Found.TheVariants.{Waits};
    ghost use Rattle.lemonrudder.specs.Outcomes.{Answers, AnswersAsked, CanBe, HandsIn, OnAnswer, OnAnswerRaw, OnIdentify, OnRaise, OnSystem, AnswersWith, identity_at};

    /// Hands in the outcome of the request of a number, which waits, and answers the count where it is taken.
    fn answer_asked(
        &mut self,
        number: u64,
        connection: u64,
        outcome: Outcome,
        contexts: &[(u32, &[u8])],
        count: u64,
    ) -> Result<u64, Refusal>
        requires found { IsFound (Waits number connection) (waits_in self.old.engine) }
        requires can { CanBe (Waits number connection) (performed_in outcome) self.old }
        ensures { AnswersAsked connection count (performed_in outcome) (map item_at contexts.now) self.old self.new result }
    {
        let Some(found) = self.connections.entries.get_mut(&connection) else {
            return Err(Refusal::Connection);
        };
        found.due.place();
        let answered = answer_carrying(
            &mut self.engine,
            number,
            outcome,
            contexts,
            &mut found.due.octets,
        );
        let why = self.engine.ending(connection);
        self.connections.note(connection, why);
        done_of(count, answered)
    }

    /// .. of one that waits or is parked.
    fn answer_found(
        &mut self,
        found: Found,
        outcome: Outcome,
        contexts: &[(u32, &[u8])],
        count: u64,
    ) -> Result<u64, Refusal>
        requires found { IsFound found (waits_in self.old.engine) }
        requires can { CanBe found (performed_in outcome) self.old }
        ensures { Answers found count (performed_in outcome) (map item_at contexts.now) self.old self.new result }
    {
        match found {
            Found::Waits(number, connection) => {
                self.answer_asked(number, connection, outcome, contexts, count)
            }
            Found::Parked(number) => self.settle(number, outcome, contexts, count),
        }
    }

    /// .. where it may be that of the request. What was said for the ticket goes with it.
    fn hand_in(
        &mut self,
        ticket: u64,
        found: Found,
        outcome: Outcome,
        count: u64,
    ) -> Result<u64, Refusal>
        requires found { IsFound found (waits_in self.old.engine) }
        ensures { HandsIn ticket found count (performed_in outcome) self.old self.new result }
    {
        if !self.can_be(found, &outcome) {
            return Err(Refusal::Outcome);
        }
        self.give(ticket, found, outcome, count)
    }

    /// .. which may be that of the request.
    #[inline(always)]
    fn give(
        &mut self,
        ticket: u64,
        found: Found,
        outcome: Outcome,
        count: u64,
    ) -> Result<u64, Refusal>
        requires found { IsFound found (waits_in self.old.engine) }
        requires can { CanBe found (performed_in outcome) self.old }
        ensures { AnswersWith ticket found count (performed_in outcome) self.old self.new result }
    {
        if self.setup.said.is_none() {
            return self.answer_found(found, outcome, &[], count);
        }
        self.give_saying(ticket, found, outcome, count)
    }

    /// .. with what was said for the ticket.
    #[inline(never)]
    fn give_saying(
        &mut self,
        ticket: u64,
        found: Found,
        outcome: Outcome,
        count: u64,
    ) -> Result<u64, Refusal>
        requires found { IsFound found (waits_in self.old.engine) }
        requires can { CanBe found (performed_in outcome) self.old }
        ensures { AnswersWith ticket found count (performed_in outcome) self.old self.new result }
    {
        let said = self.setup.take_said(ticket);
        let Ok(contexts) = lent(self.alloc, &said) else {
            self.setup.said = said;
            return Err(Refusal::Memory);
        };
        self.answer_found(found, outcome, &contexts, count)
    }

    /// Answers by results.
    pub fn answer(&mut self, ticket: u64, order: u32, octets: &[u8]) -> Result<u64, Refusal>
        ensures { OnAnswer ticket order octets.now self.old self.new result }
    {
        let order = order_of(order)?;
        let called = self.called_by(ticket)?;
        let found = called.found;
        if !self.are_results(&called.asked, order, octets) {
            return Err(Refusal::Outcome);
        }
        if !self.can_be_body(found, octets) {
            return Err(Refusal::Outcome);
        }
        let body = copy_of(self.alloc, octets)?;
        self.give(
            ticket,
            found,
            Outcome::Raw(RawStatus::NoException, order, body),
            0,
        )
    }

    /// Answers by an exception that the operation declares.
    pub fn raise(
        &mut self,
        ticket: u64,
        id: &[u8],
        order: u32,
        octets: &[u8],
    ) -> Result<u64, Refusal>
        ensures { OnRaise ticket id.now order octets.now self.old self.new result }
    {
        let order = order_of(order)?;
        let called = self.called_by(ticket)?;
        let found = called.found;
        let body = self.exception_of(&called.asked, id, order, octets)?;
        self.hand_in(
            ticket,
            found,
            Outcome::Raw(RawStatus::UserException, order, body),
            0,
        )
    }

    /// Answers by a system exception.
    pub fn system(
        &mut self,
        ticket: u64,
        name: u32,
        minor: u32,
        completed: u32,
    ) -> Result<u64, Refusal>
        ensures { OnSystem ticket name minor completed self.old self.new result }
    {
        let name = system_name_of(name)?;
        let completed = completion_of(completed)?;
        let called = self.called_by(ticket)?;
        let found = called.found;
        self.hand_in(ticket, found, Outcome::System(name, minor, completed), 0)
    }

    /// Answers a raw operation.
    pub fn answer_raw(
        &mut self,
        ticket: u64,
        status: u32,
        order: u32,
        body: &[u8],
    ) -> Result<u64, Refusal>
        ensures { OnAnswerRaw ticket status order body.now self.old self.new result }
    {
        let status = raw_status_of(status)?;
        let order = order_of(order)?;
        let called = self.called_by(ticket)?;
        let found = called.found;
        if !self.can_be_body(found, body) {
            return Err(Refusal::Outcome);
        }
        let body = copy_of(self.alloc, body)?;
        self.give(ticket, found, Outcome::Raw(status, order, body), 0)
    }

    /// The answer to a request, where it asks an object that names its repository ids what it is.
    fn identity(&self, asked: &Asked<'_>) -> Option<bool>
        ensures { result ≡ identity_at self.now (awaited_lent asked.now) }
    {
        let catalogue = self.engine.catalogue();
        if !catalogue.is_a(asked.object_key, OBJECT) {
            return None;
        }
        if asked.operation == NON_EXISTENT {
            return Some(false);
        }
        if asked.operation != IS_A {
            return None;
        }
        let id = string_at(asked.arguments, 0)?;
        Some(catalogue.is_a(asked.object_key, id))
    }

    /// Answers `_is_a` and `_non_existent`.
    pub fn identify(&mut self, ticket: u64) -> Result<u64, Refusal>
        ensures { OnIdentify ticket self.old self.new result }
    {
        let called = self.called_by(ticket)?;
        let found = called.found;
        let Some(truth) = self.identity(&called.asked) else {
            return Ok(0);
        };
        let results = vec![in self.alloc; Val::Boolean(truth)]?;
        self.hand_in(ticket, found, Outcome::Returned(results), 1)
    }
}

/// The repository id of every object (CORBA 3.3 Part 1, 8.3).
const OBJECT: &[u8] = b"IDL:omg.org/CORBA/Object:1.0";

/// The name of the operation that asks whether an object has an interface (CORBA 3.3 Part 1, 8.3).
const IS_A: &[u8] = b"_is_a";

/// The name of the operation that asks whether an object is gone (CORBA 3.3 Part 1, 8.3).
const NON_EXISTENT: &[u8] = b"_non_existent";

/// A copy of octets. For none no memory is taken.
pub(super) fn copy_of(alloc: Global, octets: &[u8]) -> Result<Vec<u8>, Refusal>
    ensures { IsCopy octets.now result }
{
    if octets.is_empty() {
        return Ok(Vec::new(alloc));
    }
    let copy = Vec::from_slice(alloc, octets)?;
    Ok(copy)
}
