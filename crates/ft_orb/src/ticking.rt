//! What becomes of an engine as time passes, while nothing comes.

ghost use Rattle.std.specs.Prelude.{◌≡◌, [], max, ℕ, List, None};
ghost use Rattle.ft_log.specs.Holding.{Holding};
ghost use Rattle.ft_log.specs.Kept.{unexpired};
ghost use Rattle.ft_orb.specs.History as history;
ghost use Rattle.ft_orb.specs.History.{Gone, line};
ghost use Rattle.ft_orb.specs.Owners.{Owner};
ghost use Rattle.ft_orb.specs.Requests.{Call};
ghost use Rattle.ft_orb.specs.declared.events.Note.TheVariants.{Refused};
ghost use Rattle.ft_orb.specs.declared.parked.Waiter.{Waiter};

use crate::engine::Engine;
use ft_objects::Catalogue;

impl<C: Catalogue + Drop> Engine<C> {
    ghost use Rattle.ft_orb.specs.Engines.{AreEndings, IsThen, Rests, asks_in, clock_in, counts_in, kept_in, waits_in};
    ghost use Rattle.ft_orb.specs.Parking.{AreParked, EndsLate, Settings, Stays, others_under};

    /// The greatest moment that came so far, 0 where none did.
    pub fn moment(&self) -> u64
        ensures { result ≡ clock_in self.now }
    {
        self.keeper.clock
    }

    /// A moment has come, as with a piece without octets on a connection that there is not: what expired before it is
    /// forgotten. So an engine forgets while no request comes. One that is told a moment before its first piece refuses what
    /// expired before that (BAD_CONTEXT), whatever moments come with later pieces. It takes no memory.
    ///
    /// A moment is a number of 100 ns since 15 October 1582, 00:00 UTC. One that goes back counts as the greatest so far.
    pub fn tick(&mut self, moment: u64)
        requires idle { waits_in self.old ≡ None }
        ensures clock { clock_in self.new ≡ max (clock_in self.old) moment }
        ensures forgotten { kept_in self.new ≡ unexpired (clock_in self.new) (kept_in self.old) }
        ensures table { (owner : Owner) (calls : List Call) (past : List history.Event) (c : ℕ) → Rests C.offers owner calls self.old past → line past c ≡ Gone
            → IsThen C.offers owner calls past (history.Piece c moment []) Refused self.new [] }
        ensures late { (s : Settings) (held : ℕ → Holding) (calls : List Call) (past : List history.Event) (waiting : ℕ → List Waiter) (c : ℕ) → Stays C.offers s held calls self.old past waiting → line past c ≡ Gone
            → EndsLate C.offers s held calls past waiting (history.Piece c moment []) Refused self.new [] [] }
        ensures idle { waits_in self.new ≡ None }
        ensures asks { asks_in self.new ≡ asks_in self.old }
        ensures parked { AreParked self.old self.new }
        ensures waiting { (c q : ℕ) → others_under self.new c q ≡ others_under self.old c q }
        ensures catalogue { self.new.offering ≡ self.old.offering }
        ensures counts { counts_in self.new ≡ counts_in self.old }
        ensures ended { AreEndings self.old self.new }
    {
        giop_link::laws::streams_are_heard::<giop_link::Server>();
        self.keeper.tick(moment);
    }
}
