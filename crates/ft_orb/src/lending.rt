//! What waits in an engine, as its owner sees it.

ghost use Rattle.std.specs.Prelude.{◌≡◌, ◌↔◌, ◌∷◌, ℕ, List, IsTrue, IsSome, None, Some, map, not};
ghost use Rattle.std.specs.Option.{option_map};
ghost use Rattle.ft_log.specs.View.{performed_in};
ghost use Rattle.giop_core.specs.Items.{item_at};
ghost use Rattle.giop_link.specs.Hearing.{asks, says};
ghost use Rattle.giop_link.specs.Linking.{meaning_at};
ghost use Rattle.ft_orb.specs.History as history;
ghost use Rattle.ft_orb.specs.History.{line};
ghost use Rattle.ft_orb.specs.Outputs.{is_going};
ghost use Rattle.ft_orb.specs.Owners.{Owner};
ghost use Rattle.ft_orb.specs.Requests.{Call};

use crate::asked::{Asked, lent};
use crate::carrying::can_carry;
use crate::counts::Counts;
use crate::ending::{Ended, Ending};
use crate::engine::Engine;
use crate::outcomes::may_answer;
use ft_log::Outcome;
use ft_objects::Catalogue;
use giop_link::Inbound;

impl<C: Catalogue + Drop> Engine<C> {
    ghost use Rattle.ft_orb.specs.Carrying.{CanCarry, asker_in};
    ghost use Rattle.ft_orb.specs.Engines.{Asks, Awaited, CanAnswer, IsOpen, Rests, awaited_lent, counts_in, ending_in, waits_in};
    ghost use Rattle.ft_orb.specs.Parking.{AsksLate, Settings, Stays};
    ghost use Rattle.ft_orb.specs.declared.parked.Waiter.{Waiter};
    ghost use Rattle.ft_log.specs.Holding.{Holding};

    /// The request that waits, if one does.
    pub fn asked(&self) -> Option<Asked<'_>>
        ensures { option_map awaited_lent result ≡ waits_in self.now }
    {
        let ask = self.asking?;
        let keeper = &self.keeper;
        let waiting = &keeper.slot;
        Some(Asked {
            number: ask.number,
            connection: ask.connection,
            ft_request: lent(&waiting.retained),
            object_key: &waiting.object_key,
            operation: &waiting.operation,
            arguments: &waiting.arguments,
            refused: waiting.refused,
        })
    }

    /// The request that waits as it came, with its version and its service contexts, if one does.
    pub fn message(&self) -> Option<Inbound<'_>>
        ensures asks { (owner : Owner) (calls : List Call) (past : List history.Event) (moment : ℕ) (octets written : List ℕ) (w : Awaited) → (a : Asks C.offers owner calls self.now past moment octets written w)
            → option_map meaning_at result ≡ Some (says (asks a.question)) }
        ensures late { (s : Settings) (held : ℕ → Holding) (calls : List Call) (past : List history.Event) (waiting : ℕ → List Waiter) (moment : ℕ) (octets written : List ℕ) (w : Awaited) → (a : AsksLate C.offers s held calls self.now past waiting moment octets written w)
            → option_map meaning_at result ≡ Some (says (asks a.asks.question)) }
        ensures none { waits_in self.now ≡ None → result ≡ None }
    {
        let ask = self.asking?;
        self.links.get(&ask.connection)?.inbound()
    }

    /// The catalogue, as for an answer to `_is_a` (`Interfaces::is_a`).
    pub fn catalogue(&self) -> &C
        ensures { result.now ≡ self.now.offering.catalogue }
    {
        &self.offering.catalogue
    }

    /// What became of the requests and locates so far, counted.
    pub fn counts(&self) -> Counts
        ensures { result ≡ counts_in self.now }
    {
        self.keeper.counts
    }

    /// Why nothing more is heard of a connection, if it is the one that ended last: who asks after each call of the engine's own
    /// hears of each.
    pub fn ending(&self, connection: u64) -> Option<Ending>
        ensures { result ≡ ending_in self.now connection }
    {
        Ended::of(self.keeper.ended, connection)
    }

    /// Whether a request waits for its outcome.
    pub fn is_asking(&self) -> bool
        ensures { IsTrue result ↔ IsSome (waits_in self.now) }
    {
        self.asking.is_some()
    }

    /// Whether the request of this number waits.
    pub fn is_open(&self, number: u64) -> bool
        ensures { IsTrue result ↔ IsOpen number (waits_in self.now) }
    {
        match self.asking {
            Some(ask) => ask.number == number,
            None => false,
        }
    }

    /// Whether an outcome can answer the request of this number: that waits, and the outcome can be sent, and is one of its
    /// operation, as each system exception is. A raw outcome is the stored form of any outcome, the status, byte order and body
    /// of a Reply, written for a place divisible by 8: its types are not looked at, and who hands it in answers for them.
    pub fn can_answer(&self, number: u64, outcome: &Outcome) -> bool
        ensures { IsTrue result ↔ CanAnswer (C.offers self.now.offering.catalogue) (waits_in self.now) number (performed_in outcome.now) }
    {
        let Some(ask) = self.asking else {
            return false;
        };
        if ask.number != number {
            return false;
        }
        let keeper = &self.keeper;
        let waiting = &keeper.slot;
        let catalogue = &self.offering.catalogue;
        may_answer(catalogue, &waiting.object_key, &waiting.operation, outcome)
    }

    /// Whether an outcome can answer the request of this number (`can_answer`), and the Reply can carry these service contexts:
    /// they take at most 1,048,576 octets, and the octets of a raw outcome stand behind them at a place divisible by 8,
    /// which only a Reply of 1.0 or 1.1 can miss (CDR 9.3.1). Where no Reply is wished for any contexts will do.
    pub fn can_answer_with(&self, number: u64, outcome: &Outcome, contexts: &[(u32, &[u8])]) -> bool
        ensures { IsTrue result ↔ (CanAnswer (C.offers self.now.offering.catalogue) (waits_in self.now) number (performed_in outcome.now) × CanCarry (map item_at contexts.now) (asker_in self.now) (Some (performed_in outcome.now))) }
    {
        self.can_answer(number, outcome) && can_carry(contexts, self.keeper.slot.asker, outcome)
    }

    /// Whether what comes on a connection has no meaning: false exactly where it is connected, the engine has not
    /// closed it, and its stream has not ended. The octets up to a request that waits have come.
    pub fn is_closed(&self, connection: u64) -> bool
        ensures rests { (owner : Owner) (calls : List Call) (past : List history.Event) → Rests C.offers owner calls self.now past → result ≡ not (is_going owner.limits (line past connection)) }
        ensures asks { (owner : Owner) (calls : List Call) (past : List history.Event) (moment : ℕ) (octets written : List ℕ) (w : Awaited) → Asks C.offers owner calls self.now past moment octets written w
            → result ≡ not (is_going owner.limits (line (history.Piece w.connection moment octets ∷ past) connection)) }
        // while requests are parked
        ensures stays { (s : Settings) (held : ℕ → Holding) (calls : List Call) (past : List history.Event) (waiting : ℕ → List Waiter) → Stays C.offers s held calls self.now past waiting → result ≡ not (is_going s.limits (line past connection)) }
        ensures late { (s : Settings) (held : ℕ → Holding) (calls : List Call) (past : List history.Event) (waiting : ℕ → List Waiter) (moment : ℕ) (octets written : List ℕ) (w : Awaited) → AsksLate C.offers s held calls self.now past waiting moment octets written w
            → result ≡ not (is_going s.limits (line (history.Piece w.connection moment octets ∷ past) connection)) }
    {
        match self.links.get(&connection) {
            Some(link) => link.is_closed(),
            None => true,
        }
    }
}
