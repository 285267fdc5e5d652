//! What is kept for clients once a request is performed, or parked.

ghost use Rattle.std.specs.Prelude.{◌≡◌, map, max};
ghost use Rattle.giop_core.specs.Items.{item_at};
ghost use Rattle.ft_log.specs.Holding.{known, parked};
ghost use Rattle.ft_log.specs.Kept.{unexpired};
ghost use Rattle.ft_log.specs.Logged.{logged};
ghost use Rattle.ft_log.specs.View.{performed_in};
ghost use Rattle.ft_objects.specs.Replies.{IsRenderable};
ghost use Rattle.ft_orb.specs.Carrying.{FitsBehind, reply_with};
ghost use Rattle.ft_orb.specs.Private.{IsPut};
ghost use Rattle.ft_orb.specs.Tellings.{reply_by};
ghost use Rattle.ft_orb.specs.Waits.{IsReady, filled_with, kept_with, without_parked};

use crate::arguments::let_go;
use crate::desk::{Step, forget_expired};
use crate::keeper::{Keeper, Retained};
use ft_log::Outcome;

/// The memory of how many outcomes that expired is given back at a moment, beside what is at each message.
const BY_MOMENT: u32 = 512;

impl Keeper {
    /// Keeps an outcome, if it is to be kept.
    #[inline(always)]
    fn keep(&mut self, retained: Option<Retained>, outcome: Outcome)
        requires ready { IsReady retained (logged self.old.log).room }
        requires renderable { IsRenderable (performed_in outcome) }
        ensures kept { (logged self.new.log).entries ≡ kept_with retained (known (performed_in outcome)) (logged self.old.log).entries }
        ensures clock { self.new.clock ≡ self.old.clock }
        ensures capacity { (logged self.new.log).capacity ≡ (logged self.old.log).capacity }
        ensures share { (logged self.new.log).share ≡ (logged self.old.log).share }
        ensures counts { self.new.counts ≡ self.old.counts }
        ensures ended { self.new.ended ≡ self.old.ended }
    {
        if let Some(Retained { key, expiration }) = retained {
            self.log.keep(key, expiration, outcome);
        }
    }

    /// Keeps the place of an outcome, if it is to be kept: its call is parked under a number.
    pub(crate) fn keep_parked(&mut self, retained: Option<Retained>, number: u64)
        requires ready { IsReady retained (logged self.old.log).room }
        ensures kept { (logged self.new.log).entries ≡ kept_with retained (parked number) (logged self.old.log).entries }
        ensures slot { self.new.slot ≡ self.old.slot }
        ensures clock { self.new.clock ≡ self.old.clock }
        ensures capacity { (logged self.new.log).capacity ≡ (logged self.old.log).capacity }
        ensures share { (logged self.new.log).share ≡ (logged self.old.log).share }
        ensures counts { self.new.counts ≡ self.old.counts }
        ensures ended { self.new.ended ≡ self.old.ended }
    {
        if let Some(Retained { key, expiration }) = retained {
            self.log.keep_parked(key, expiration, number);
        }
    }

    /// Puts an outcome in the place that is kept for it, if one is.
    pub(crate) fn fill(&mut self, retained: Option<Retained>, number: u64, outcome: Outcome)
        requires renderable { IsRenderable (performed_in outcome) }
        ensures filled { (logged self.new.log).entries ≡ filled_with retained number (performed_in outcome) (logged self.old.log).entries }
        ensures room { (logged self.new.log).room ≡ (logged self.old.log).room }
        ensures slot { self.new.slot ≡ self.old.slot }
        ensures clock { self.new.clock ≡ self.old.clock }
        ensures capacity { (logged self.new.log).capacity ≡ (logged self.old.log).capacity }
        ensures share { (logged self.new.log).share ≡ (logged self.old.log).share }
        ensures counts { self.new.counts ≡ self.old.counts }
        ensures ended { self.new.ended ≡ self.old.ended }
    {
        if let Some(Retained { key, .. }) = retained {
            self.log.fill(key, number, outcome);
        }
    }

    /// Takes out the place that is kept for an outcome, if one is.
    pub(crate) fn withdraw(&mut self, retained: Option<Retained>, number: u64)
        ensures entries { (logged self.new.log).entries ≡ without_parked retained number (logged self.old.log).entries }
        ensures room { (logged self.new.log).room ≡ (logged self.old.log).room }
        ensures slot { self.new.slot ≡ self.old.slot }
        ensures clock { self.new.clock ≡ self.old.clock }
        ensures capacity { (logged self.new.log).capacity ≡ (logged self.old.log).capacity }
        ensures share { (logged self.new.log).share ≡ (logged self.old.log).share }
        ensures counts { self.new.counts ≡ self.old.counts }
        ensures ended { self.new.ended ≡ self.old.ended }
    {
        if let Some(Retained { key, .. }) = retained {
            self.log.withdraw(&key, number);
        }
    }

    /// Answers the request in the slot with an outcome, and keeps nothing.
    pub(crate) fn tell(&mut self, outcome: &Outcome, out: &mut Vec<u8>) -> Step
        requires renderable { IsRenderable (performed_in outcome.now) }
        ensures put { IsPut (reply_by self.old.slot.asker.wish self.old.slot.asker.version self.old.slot.asker.request_id (performed_in outcome.now)) result out.old.items out.new.items }
        ensures log { self.new.log ≡ self.old.log }
        ensures slot { self.new.slot.retained ≡ None }
        ensures clock { self.new.clock ≡ self.old.clock }
        ensures counts { self.new.counts ≡ self.old.counts }
        ensures ended { self.new.ended ≡ self.old.ended }
    {
        let step = self.slot.asker.answer(outcome, out);
        self.slot.retained = None;
        let_go(&mut self.slot.arguments);
        step
    }

    /// A moment has come: what expired before it is forgotten, and the memory of more of it given back than at a message.
    pub(crate) fn tick(&mut self, moment: u64)
        ensures clock { self.new.clock ≡ max self.old.clock moment }
        ensures log { logged self.new.log ≡ record (logged self.old.log) { entries = unexpired self.new.clock (logged self.old.log).entries } }
        ensures slot { self.new.slot ≡ self.old.slot }
        ensures counts { self.new.counts ≡ self.old.counts }
        ensures ended { self.new.ended ≡ self.old.ended }
    {
        self.clock = self.clock.max(moment);
        forget_expired(&mut self.log, self.clock);
        self.log.give_back(BY_MOMENT);
    }

    /// Keeps the outcome of the request in the slot, if it has a key, and answers with it and with these service contexts,
    /// which are not kept.
    #[inline(always)]
    pub(crate) fn finish(
        &mut self,
        outcome: Outcome,
        contexts: &[(u32, &[u8])],
        out: &mut Vec<u8>,
    ) -> Step
        requires ready { IsReady self.old.slot.retained (logged self.old.log).room }
        requires renderable { IsRenderable (performed_in outcome) }
        requires fits { FitsBehind (map item_at contexts.now) self.old.slot.asker (performed_in outcome) }
        ensures kept { (logged self.new.log).entries ≡ kept_with self.old.slot.retained (known (performed_in outcome)) (logged self.old.log).entries }
        ensures put { IsPut (reply_with (map item_at contexts.now) self.old.slot.asker (performed_in outcome)) result out.old.items out.new.items }
        ensures clock { self.new.clock ≡ self.old.clock }
        ensures capacity { (logged self.new.log).capacity ≡ (logged self.old.log).capacity }
        ensures share { (logged self.new.log).share ≡ (logged self.old.log).share }
        ensures counts { self.new.counts ≡ self.old.counts }
        ensures ended { self.new.ended ≡ self.old.ended }
    {
        let step = self.slot.asker.answer_with(&outcome, contexts, out);
        let retained = self.slot.retained.take();
        self.keep(retained, outcome);
        let_go(&mut self.slot.arguments);
        step
    }
}
