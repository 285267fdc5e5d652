//! The outcome of a request that is parked, told to all who wait for it.

ghost use Rattle.std.specs.Prelude.{◌≡◌, ◌==◌, ◌∷◌, ℕ, List, ◌<◌, IsSome, None, Some, false, map};
ghost use Rattle.ft_log.specs.Holding.{Holding};
ghost use Rattle.ft_log.specs.Performed.{Performed};
ghost use Rattle.ft_log.specs.View.{performed_in};
ghost use Rattle.ft_objects.specs.Families.{families_offer};
ghost use Rattle.ft_orb.specs.declared.parked.Waiter.{Waiter};
ghost use Rattle.ft_orb.specs.Deeds.{Told};
ghost use Rattle.ft_orb.specs.Engines.{counts_in};
ghost use Rattle.ft_orb.specs.History.{Event};
ghost use Rattle.ft_orb.specs.Parking.{AreParked, Settings, Stays, left_in, parked_in, told_in};
ghost use Rattle.ft_orb.specs.Requests.{Call};
ghost use Rattle.giop_core.specs.Items.{item_at};
ghost use Rattle.lemonrudder.specs.Replying.{Carries, Contexts};

use crate::refusal::Refusal;
use crate::serving::Serving;
use crate::serving::replying::reply_carrying;
use ft_log::Outcome;
use ft_orb::{Ending, Unkept};

impl Serving {
    ghost use Rattle.lemonrudder.specs.Outcomes.{CanBe};
    ghost use Rattle.lemonrudder.specs.declared.serving.questions.Found.TheVariants.{Parked};
    ghost use Rattle.lemonrudder.specs.Serves.{IsIdle, KeepsCatalogue, KeepsTickets};
    ghost use Rattle.lemonrudder.specs.Settling.{Settles, TellsAll, Withdraws};
    ghost use Rattle.lemonrudder.specs.Telling.{Scene, Tells, who};

    /// Tells the outcome of what is parked to who is next, on its connection, and names that. The reply carries service
    /// contexts where it can. Where memory is short the connection is lost.
    fn tell(&mut self, number: u64, connection: u64, contexts: &[(u32, &[u8])])
        requires idle { IsIdle self.old }
        requires told { IsSome (told_in self.old.engine number) }
        requires left { 0 < left_in self.old.engine number }
        ensures late { (x : Settings) (held : ℕ → Holding) (calls : List Call) (past : List Event) (waiting : ℕ → List Waiter) (outcome : Performed) (carried : Waiter → Contexts) (w : Waiter) (rest : List Waiter) → Carries (map item_at contexts.now) outcome carried → Stays families_offer x held calls self.old.engine past waiting
            → told_in self.old.engine number ≡ Some outcome → waiting number ≡ w ∷ rest → w.connection ≡ connection
            → (d : Told) × (who d ≡ w) × Tells x held calls number carried outcome (record { past = past; waiting = waiting }) d self.old self.new }
        ensures parked { AreParked self.old.engine self.new.engine }
        ensures fewer { left_in self.new.engine number < left_in self.old.engine number }
        ensures idle { IsIdle self.new }
        ensures catalogue { KeepsCatalogue self.old self.new }
        ensures tickets { KeepsTickets self.old self.new }
        ensures counts { counts_in self.new.engine ≡ counts_in self.old.engine }
    {
        let mut due = self.connections.take(connection);
        let before = due.size();
        if reply_carrying(&mut self.engine, number, contexts, &mut due.octets).is_err() {
            self.connections.put(connection, due);
            self.connections.note(connection, Some(Ending::Memory));
            return;
        }
        if self.ready.insert(connection).is_ok() {
            self.connections.put(connection, due);
            return;
        }
        due.octets.truncate(before);
        self.engine.lost(connection);
        self.connections.put(connection, due);
        self.connections.note(connection, Some(Ending::Memory));
    }

    /// .. to all who wait, and says goodbye where that was the last who waited on a connection that is leaving.
    fn tell_all(&mut self, number: u64, contexts: &[(u32, &[u8])])
        requires idle { IsIdle self.old }
        ensures late { (x : Settings) (held : ℕ → Holding) (calls : List Call) (past : List Event) (waiting : ℕ → List Waiter) (outcome : Performed) (carried : Waiter → Contexts) → Carries (map item_at contexts.now) outcome carried → Stays families_offer x held calls self.old.engine past waiting
            → told_in self.old.engine number ≡ Some outcome → TellsAll x held calls number carried outcome (record { past = past; waiting = waiting }) self.old self.new }
        ensures done { IsSome (told_in self.old.engine number) → parked_in self.new.engine number ≡ None }
        ensures others { (q : ℕ) → (q == number) ≡ false → (parked_in self.new.engine q ≡ parked_in self.old.engine q) × (told_in self.new.engine q ≡ told_in self.old.engine q) }
        ensures idle { IsIdle self.new }
        ensures catalogue { KeepsCatalogue self.old self.new }
        ensures tickets { KeepsTickets self.old self.new }
        ensures counts { counts_in self.new.engine ≡ counts_in self.old.engine }
    {
        while let Some(connection) = self.engine.due(number) {
            self.tell(number, connection, contexts);
            self.finish(connection);
        }
    }

    /// Takes the outcome of the request that is parked under a number, and answers the count.
    pub(super) fn settle(
        &mut self,
        number: u64,
        outcome: Outcome,
        contexts: &[(u32, &[u8])],
        count: u64,
    ) -> Result<u64, Refusal>
        requires idle { IsIdle self.old }
        requires can { CanBe (Parked number) (performed_in outcome) self.old }
        ensures { Settles number count (performed_in outcome) (map item_at contexts.now) self.old self.new result }
    {
        self.engine.settle(number, outcome);
        self.tell_all(number, contexts);
        Ok(count)
    }

    /// Tells an outcome to all who wait for the request that is parked under a number, and keeps nothing.
    pub(super) fn tell_parked(
        &mut self,
        number: u64,
        outcome: Outcome,
        unkept: Unkept,
    ) -> Result<u64, Refusal>
        requires idle { IsIdle self.old }
        ensures { Withdraws unkept number (performed_in outcome) self.old self.new result }
    {
        if !self.engine.can_settle(number, &outcome) {
            return Err(Refusal::Outcome);
        }
        self.engine.tell_parked(number, outcome, unkept);
        self.tell_all(number, &[]);
        Ok(0)
    }
}
