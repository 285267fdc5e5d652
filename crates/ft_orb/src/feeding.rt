//! Pieces, taken up to what is asked for in them.

ghost use Rattle.std.specs.Prelude.{◌≡◌, ◌+◌, ◌<◌, ◌≤◌, ℕ, List, None, IfErr, IfOk, length};
ghost use Rattle.ft_orb.specs.History as history;
ghost use Rattle.ft_orb.specs.Owners.{Owner};
ghost use Rattle.ft_orb.specs.Requests.{Call};

use crate::asked::next_number;
use crate::ending::{Ending, end_link};
use crate::engine::{Engine, Fed, Taken};
use crate::error::ServeError;
use crate::pausing::{Ask, Pause, Place, serve_until_ask};
use crate::serving::counted;
use crate::waiters::answer_repeat;
use ft_objects::Catalogue;

impl<C: Catalogue + Drop> Engine<C> {
    ghost use Rattle.ft_orb.specs.Engines.{AreFew, EndsHeard, EndsShort, Feeds, FeedsOnce, IsFit, IsLeftAt, IsNumbered, Rests, asks_in, counts_in, handled_in, waits_in};
    ghost use Rattle.ft_orb.specs.EnginesNow.{FeedsNow};
    ghost use Rattle.ft_orb.specs.Tallies.{AreCounted};
    ghost use Rattle.ft_orb.specs.Bounds.{ComesDue, StopsWhereDue, fed_in, piece_in};
    ghost use Rattle.ft_orb.specs.Parking.{AreParked, FeedsLate, Settings, Stays, left_in, others_under};
    ghost use Rattle.ft_orb.specs.declared.parked.Waiter.{Waiter};
    ghost use Rattle.ft_log.specs.Holding.{Holding};

    /// Takes a piece of a connection's octets at a moment, up to and with the next request that is to be performed:
    /// appends the answers to all that came before it. A repeat of one that is parked ends it too. Where the piece has
    /// neither it is taken whole, and MessageError is appended where its stream ends by a fault or a message that only a
    /// server sends.
    ///
    /// A request whose key comes with one expiration is asked again only where it was given up, declined, or told an outcome
    /// unkept; who gives up or declines has to have done nothing.
    #[inline(always)]
    pub fn feed(
        &mut self,
        connection: u64,
        moment: u64,
        piece: &[u8],
        out: &mut Vec<u8>,
    ) -> Result<Fed, ServeError>
        requires idle { waits_in self.old ≡ None }
        ensures table { (owner : Owner) (calls : List Call) (past : List history.Event) → Rests C.offers owner calls self.old past
            → Feeds C.offers owner calls past connection moment piece.now result self.new out.old.items out.new.items }
        // each distinct admissible request is answered once, and one that waits is the first such that came
        ensures once { (owner : Owner) (calls : List Call) (past : List history.Event) → Rests C.offers owner calls self.old past
            → FeedsOnce C.offers owner calls past connection moment piece.now result (waits_in self.new) out.old.items out.new.items }
        // each key by itself: whatever expirations requests carry
        ensures now { (owner : Owner) (calls : List Call) (past : List history.Event) → Rests C.offers owner calls self.old past
            → FeedsNow owner calls past connection moment piece.now result (waits_in self.new) out.old.items out.new.items }
        // while requests are parked
        ensures late { (s : Settings) (held : ℕ → Holding) (calls : List Call) (past : List history.Event) (waiting : ℕ → List Waiter) → Stays C.offers s held calls self.old past waiting
            → FeedsLate C.offers s held calls past waiting connection moment piece.now result self.new out.old.items out.new.items }
        // what becomes of each arrival is counted
        ensures counted { (s : Settings) (held : ℕ → Holding) (calls : List Call) (past : List history.Event) (waiting : ℕ → List Waiter) → Stays C.offers s held calls self.old past waiting
            → AreCounted s held past connection moment piece.now result (counts_in self.old) (counts_in self.new) }
        ensures place { IsLeftAt connection (length piece.now) result (waits_in self.new) }
        ensures number { IsNumbered (asks_in self.old) (asks_in self.new) result (waits_in self.new) }
        ensures few { AreFew (length piece.now) result (handled_in self.new) }
        ensures ended { IfErr result (λ e. EndsShort self.old self.new connection e) }
        // the connection ends where its stream does, for that reason, and no other ends
        ensures heard { (s : Settings) (held : ℕ → Holding) (calls : List Call) (past : List history.Event) (waiting : ℕ → List Waiter) → Stays C.offers s held calls self.old past waiting
            → IfOk result (λ fed. EndsHeard self.old self.new connection s.limits (history.line past connection) piece.now fed) }
        ensures fit { IsFit self.new.offering.first (C.offers self.new.offering.catalogue) (waits_in self.new) }
        ensures parked { AreParked self.old self.new }
        ensures waiting { (q : ℕ) → others_under self.new connection q ≡ others_under self.old connection q }
        // no more wait for one outcome than may
        ensures few_wait { (q : ℕ) → left_in self.old q ≤ self.old.places.joined + 1 → left_in self.new q ≤ self.old.places.joined + 1 }
        ensures catalogue { self.new.offering ≡ self.old.offering }
    {
        match self.feed_within(connection, moment, piece, usize::MAX, out) {
            Ok(Taken::Fed(fed)) => Ok(fed),
            Ok(Taken::Due(_)) => unreachable!(), // no output is so long
            Err(e) => Err(e),
        }
    }

    /// Takes a piece as `feed` does, but stops after the first request or locate with whose answer `out` has at least `most`
    /// octets, so that one piece makes no more due than that and one answer. Where `out` has so many before, one request or
    /// locate is taken. What was taken is a piece of its own, and what is left is another, at the same moment: feed it when
    /// less is due.
    ///
    /// An answer that comes later, by `answer` or `reply`, is appended whatever is due.
    #[inline(always)]
    pub fn feed_within(
        &mut self,
        connection: u64,
        moment: u64,
        piece: &[u8],
        most: usize,
        out: &mut Vec<u8>,
    ) -> Result<Taken, ServeError>
        requires idle { waits_in self.old ≡ None }
        ensures table { (owner : Owner) (calls : List Call) (past : List history.Event) → Rests C.offers owner calls self.old past
            → Feeds C.offers owner calls past connection moment (piece_in piece.now result) (fed_in result) self.new out.old.items out.new.items }
        // each distinct admissible request is answered once, and one that waits is the first such that came
        ensures once { (owner : Owner) (calls : List Call) (past : List history.Event) → Rests C.offers owner calls self.old past
            → FeedsOnce C.offers owner calls past connection moment (piece_in piece.now result) (fed_in result) (waits_in self.new) out.old.items out.new.items }
        // each key by itself: whatever expirations requests carry
        ensures now { (owner : Owner) (calls : List Call) (past : List history.Event) → Rests C.offers owner calls self.old past
            → FeedsNow owner calls past connection moment (piece_in piece.now result) (fed_in result) (waits_in self.new) out.old.items out.new.items }
        // while requests are parked
        ensures late { (s : Settings) (held : ℕ → Holding) (calls : List Call) (past : List history.Event) (waiting : ℕ → List Waiter) → Stays C.offers s held calls self.old past waiting
            → FeedsLate C.offers s held calls past waiting connection moment (piece_in piece.now result) (fed_in result) self.new out.old.items out.new.items }
        // what becomes of each arrival is counted
        ensures counted { (s : Settings) (held : ℕ → Holding) (calls : List Call) (past : List history.Event) (waiting : ℕ → List Waiter) → Stays C.offers s held calls self.old past waiting
            → AreCounted s held past connection moment (piece_in piece.now result) (fed_in result) (counts_in self.old) (counts_in self.new) }
        ensures place { IsLeftAt connection (length (piece_in piece.now result)) (fed_in result) (waits_in self.new) }
        ensures number { IsNumbered (asks_in self.old) (asks_in self.new) (fed_in result) (waits_in self.new) }
        ensures few { AreFew (length (piece_in piece.now result)) (fed_in result) (handled_in self.new) }
        ensures ended { IfErr result (λ e. EndsShort self.old self.new connection e) }
        // the connection ends where its stream does, for that reason, and no other ends
        ensures heard { (s : Settings) (held : ℕ → Holding) (calls : List Call) (past : List history.Event) (waiting : ℕ → List Waiter) → Stays C.offers s held calls self.old past waiting
            → IfOk (fed_in result) (λ fed. EndsHeard self.old self.new connection s.limits (history.line past connection) (piece_in piece.now result) fed) }
        ensures fit { IsFit self.new.offering.first (C.offers self.new.offering.catalogue) (waits_in self.new) }
        ensures parked { AreParked self.old self.new }
        ensures waiting { (q : ℕ) → others_under self.new connection q ≡ others_under self.old connection q }
        // no more wait for one outcome than may
        ensures few_wait { (q : ℕ) → left_in self.old q ≤ self.old.places.joined + 1 → left_in self.new q ≤ self.old.places.joined + 1 }
        ensures catalogue { self.new.offering ≡ self.old.offering }
        // it is left only where so many octets are due, and with the first answer with which they are
        ensures due { ComesDue most (length out.new.items) (length piece.now) result }
        ensures below { (s : Settings) (held : ℕ → Holding) (calls : List Call) (past : List history.Event) (waiting : ℕ → List Waiter) → Stays C.offers s held calls self.old past waiting
            → StopsWhereDue s held past most (length out.old.items) connection moment piece.now result }
    {
        giop_link::laws::streams_are_heard::<giop_link::Server>();
        self.keeper.clock = self.keeper.clock.max(moment);
        let Some(link) = self.links.get_mut(&connection) else {
            return Err(ServeError::NoConnection);
        };
        if link.is_closed() {
            return Ok(Taken::Fed(Fed::Whole));
        }
        let from = Place {
            taken: 0,
            handled: 0,
        };
        match serve_until_ask(
            &mut self.keeper,
            &self.offering,
            connection,
            link,
            piece,
            from,
            most,
            out,
        ) {
            Ok(Pause::Whole) => Ok(Taken::Fed(Fed::Whole)),
            Ok(Pause::Due(place)) => Ok(Taken::Due(place.taken)),
            Ok(Pause::Asks(place)) => {
                let Some(number) = next_number(&mut self.asks) else {
                    end_link(
                        &mut self.links,
                        &mut self.keeper.ended,
                        connection,
                        Ending::Memory,
                    );
                    return Err(ServeError::Memory {
                        handled: place.handled,
                        answered: place.handled,
                    });
                };
                self.asking = Some(Ask {
                    number,
                    connection,
                    place,
                });
                Ok(Taken::Fed(Fed::Asks(place.taken)))
            }
            Ok(Pause::Repeats(repeat, place)) => {
                let step = answer_repeat(
                    &mut self.parked,
                    &self.links,
                    self.places.joined,
                    connection,
                    repeat,
                    out,
                );
                match counted(place.handled, step) {
                    Ok(_) => Ok(Taken::Fed(Fed::Repeats(place.taken))),
                    Err(cut) => {
                        end_link(
                            &mut self.links,
                            &mut self.keeper.ended,
                            connection,
                            Ending::Memory,
                        );
                        Err(ServeError::Memory {
                            handled: cut.handled,
                            answered: cut.answered,
                        })
                    }
                }
            }
            Err(cut) => {
                end_link(
                    &mut self.links,
                    &mut self.keeper.ended,
                    connection,
                    Ending::Memory,
                );
                Err(ServeError::Memory {
                    handled: cut.handled,
                    answered: cut.answered,
                })
            }
        }
    }
}
