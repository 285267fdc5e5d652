//! Service contexts of replies to come, which are said before an answer.

ghost use Rattle.std.specs.Prelude.{◌≡◌, ◌↔◌, ◌<◌, ◌++◌, ◌∷◌, [], ℕ, IfErr, IsSome, IsTrue, List, None, OnOk, Some, length, map};
ghost use Rattle.giop_core.specs.Items.{item_at};
ghost use Rattle.ft_log.specs.Holding.{Holding, known};
ghost use Rattle.ft_log.specs.Performed.{Performed};
ghost use Rattle.ft_log.specs.View.{performed_in};
ghost use Rattle.ft_objects.specs.Families.{families_offer};
ghost use Rattle.ft_orb.specs.declared.parked.Waiter.{Waiter};
ghost use Rattle.ft_orb.specs.Carrying.{CanCarry, asker_in, due_in, reply_if, unless_failed};
ghost use Rattle.ft_orb.specs.Engines.{AreEndings, Awaited, CanAnswer, EndsShort, asks_in, counts_in, waits_in};
ghost use Rattle.ft_orb.specs.History.{Event};
ghost use Rattle.ft_orb.specs.Parking.{AreParked, AsksLate, RepliesLate, ResumesLate, Settings, Stays, left_in, put_at, told_in};
ghost use Rattle.ft_orb.specs.Requests.{Call};
ghost use Rattle.ft_orb.specs.Standing.{note_of};
ghost use Rattle.lemonrudder.specs.Replying.{AreCarried, AreLent, Contexts, SaysOf, left_for, said_for};
ghost use Rattle.lemonrudder.specs.Tallied.{one_answered};

use crate::contexts::contexts_of;
use crate::named::order_of;
use crate::refusal::Refusal;
use crate::serving::Serving;
use crate::serving::outcomes::copy_of;
use crate::terms::Setup;
use cdr_core::Order;
use ft_log::Outcome;
use ft_objects::Families;
use ft_orb::{Engine, ServeError};
use std::alloc::Global;

/// Service contexts of the replies that the next answer of a ticket makes due, as octets of an order.
#[derive(Drop)]
pub struct Said {
    pub ticket: u64,
    pub order: Order,
    pub octets: Vec<u8>,
}

impl Setup {
    /// Takes what was said for a ticket.
    pub(super) fn take_said(&mut self, ticket: u64) -> Option<Said>
        ensures said { result ≡ said_for ticket self.old.said }
        ensures left { self.new ≡ record self.old { said = left_for ticket self.old.said } }
    {
        let said = self.said.take()?;
        if said.ticket == ticket {
            return Some(said);
        }
        self.said = Some(said);
        None
    }
}

impl Serving {
    ghost use Rattle.lemonrudder.specs.Beforehand.{OnReplyContexts};

    /// Says service contexts for the replies that the next answer of a ticket makes due.
    pub fn reply_contexts(&mut self, ticket: u64, order: u32, octets: &[u8]) -> Result<u64, Refusal>
        ensures { OnReplyContexts ticket order octets.now self.old self.new result }
    {
        let order = order_of(order)?;
        let _called = self.named_by(ticket)?;
        let said = said_of(self.alloc, ticket, order, octets)?;
        self.setup.said = said;
        Ok(0)
    }
}

/// Octets that are service contexts, for a ticket; nothing where there are none.
fn said_of(alloc: Global, ticket: u64, order: Order, octets: &[u8]) -> Result<Option<Said>, Refusal>
    ensures { SaysOf ticket order octets.now result }
{
    if octets.is_empty() {
        return Ok(None);
    }
    let _contexts = contexts_of(alloc, order, octets)?;
    let kept = copy_of(alloc, octets)?;
    Ok(Some(Said {
        ticket,
        order,
        octets: kept,
    }))
}

/// The service contexts that were said, lent.
pub(super) fn lent(alloc: Global, said: &Option<Said>) -> Result<Vec<(u32, &[u8])>, Refusal>
    ensures { AreLent said.now result }
{
    let Some(said) = said else {
        return Ok(Vec::new(alloc));
    };
    match contexts_of(alloc, said.order, &said.octets) {
        Ok(contexts) => Ok(contexts),
        Err(_) => Err(Refusal::Memory),
    }
}

/// Whether the reply to the request of a number, which waits, can carry service contexts with this outcome.
#[inline(always)]
fn carries(
    engine: &Engine<Families>,
    number: u64,
    outcome: &Outcome,
    contexts: &[(u32, &[u8])],
) -> bool
    requires can { CanAnswer (families_offer engine.now.offering.catalogue) (waits_in engine.now) number (performed_in outcome.now) }
    ensures { IsTrue result ↔ CanCarry (map item_at contexts.now) (asker_in engine.now) (Some (performed_in outcome.now)) }
{
    contexts.is_empty() || engine.can_answer_with(number, outcome, contexts)
}

/// Answers the request of a number, which waits, by a reply that carries service contexts where it can.
pub(super) fn answer_carrying(
    engine: &mut Engine<Families>,
    number: u64,
    outcome: Outcome,
    contexts: &[(u32, &[u8])],
    out: &mut Vec<u8>,
) -> Result<(), ServeError>
    requires can { CanAnswer (families_offer engine.old.offering.catalogue) (waits_in engine.old) number (performed_in outcome) }
    ensures sent { (carried : Contexts) → AreCarried (map item_at contexts.now) carried (asker_in engine.old) (Some (performed_in outcome)) → out.new.items ≡ out.old.items ++ unless_failed result (reply_if carried (asker_in engine.old) (Some (performed_in outcome))) }
    ensures late { (x : Settings) (held : ℕ → Holding) (calls : List Call) (past : List Event) (waiting : ℕ → List Waiter) (moment : ℕ) (octets written : List ℕ) (w : Awaited) → AsksLate families_offer x held calls engine.old past waiting moment octets written w
        → ResumesLate families_offer x (put_at (length calls) (known (performed_in outcome)) held) (calls ++ w.call ∷ []) past waiting w.connection moment octets written (note_of result) engine.new out.old.items (out.old.items ++ unless_failed result (reply_if [] (asker_in engine.old) (Some (performed_in outcome)))) }
    ensures idle { waits_in engine.new ≡ None }
    ensures asks { asks_in engine.new ≡ asks_in engine.old }
    ensures parked { AreParked engine.old engine.new }
    ensures catalogue { engine.new.offering ≡ engine.old.offering }
    ensures counted { counts_in engine.new ≡ one_answered (counts_in engine.old) }
    ensures ended { OnOk result (AreEndings engine.old engine.new) }
    ensures short { (w : Awaited) → waits_in engine.old ≡ Some w → IfErr result (λ e. EndsShort engine.old engine.new w.connection e) }
{
    if carries(engine, number, &outcome, contexts) {
        return engine.answer_with(number, outcome, contexts, out);
    }
    engine.answer_with(number, outcome, &[], out)
}

/// Makes the next reply that is due for what is parked under a number, which carries service contexts where it can.
pub(super) fn reply_carrying(
    engine: &mut Engine<Families>,
    number: u64,
    contexts: &[(u32, &[u8])],
    out: &mut Vec<u8>,
) -> Result<(), ServeError>
    requires idle { waits_in engine.old ≡ None }
    ensures sent { (carried : Contexts) → AreCarried (map item_at contexts.now) carried (due_in engine.old number) (told_in engine.old number) → out.new.items ≡ out.old.items ++ unless_failed result (reply_if carried (due_in engine.old number) (told_in engine.old number)) }
    ensures late { (x : Settings) (held : ℕ → Holding) (calls : List Call) (past : List Event) (waiting : ℕ → List Waiter) (outcome : Performed) (w : Waiter) (rest : List Waiter) → Stays families_offer x held calls engine.old past waiting
        → told_in engine.old number ≡ Some outcome → waiting number ≡ w ∷ rest → RepliesLate families_offer x held calls past waiting number outcome w rest result engine.new out.old.items (out.old.items ++ unless_failed result (reply_if [] (due_in engine.old number) (told_in engine.old number))) }
    ensures parked { AreParked engine.old engine.new }
    ensures fewer { IsSome (told_in engine.old number) → 0 < left_in engine.old number → left_in engine.new number < left_in engine.old number }
    ensures waits { waits_in engine.new ≡ waits_in engine.old }
    ensures asks { asks_in engine.new ≡ asks_in engine.old }
    ensures catalogue { engine.new.offering ≡ engine.old.offering }
    ensures counts { counts_in engine.new ≡ counts_in engine.old }
    ensures ended { OnOk result (AreEndings engine.old engine.new) }
    ensures short { (x : Settings) (held : ℕ → Holding) (calls : List Call) (past : List Event) (waiting : ℕ → List Waiter) (w : Waiter) (rest : List Waiter) → Stays families_offer x held calls engine.old past waiting
        → waiting number ≡ w ∷ rest → IfErr result (λ e. EndsShort engine.old engine.new w.connection e) }
{
    if engine.can_reply_with(number, contexts) {
        return engine.reply_with(number, contexts, out);
    }
    engine.reply_with(number, &[], out)
}
