//! A store of outcomes, which outlives an engine, as its owner's code sees it.

ghost use Rattle.std.specs.Prelude.{◌≡◌, ℕ};
ghost use Rattle.ft_log.specs.Performed.{Performed};
ghost use Rattle.ft_log.specs.View.{key_of};
ghost use Rattle.ft_orb.specs.Engines.{awaited_lent};
ghost use Rattle.ft_orb.specs.Requests.{Call};

use ft_log::{Key, Outcome};
use ft_orb::{Asked, FtRequest};
use std::alloc::Global;

/// What a store has for a request.
#[derive(Debug, Drop)]
pub enum Found {
    /// Its expiration lies before the mark: what was kept for it may have been taken out.
    Over,
    /// This outcome is held for its key.
    Held(Outcome),
    /// Nothing is held for its key.
    Free,
    /// The store does not say: it can't be reached, or an allocation failed.
    Silent,
}

/// How a transaction ended.
#[derive(Debug, Drop)]
pub enum Commit {
    /// It came true: the effect of the call is there, and its row, with this outcome.
    Done(Outcome),
    /// It did not, since a row of the key is held, or the mark lies behind the expiration by now. Nothing has happened.
    Taken,
    /// It did not, and can't come true any more. Nothing has happened.
    Failed,
    /// It may have come true, or may yet: no answer came.
    InDoubt,
}

/// A store of outcomes, and of the state that calls change, which outlives an engine. Others may change both at any time:
/// other lives, on other machines, a purge, and whoever writes the state.
///
/// What it promises is what its clauses say of the rows that it holds. The row of a key is there once, and a row of which the
/// expiration lies before the mark is never held: so the mark is read in each transaction, under a lock that a purge takes too.
pub trait Store {
    ghost use Rattle.ft_lives.specs.Steps.{Doubt, IsCommit, IsFound, Shown, Waits, ask_of};

    /// What effects change.
    type State;

    /// The next state, and the outcome, of a call.
    ghost apply: { Self.State → Call → Self.State × Performed };

    /// The calls that it can perform.
    ghost performs: { Call → Type 0 };

    /// The number of its owner's life.
    ghost life: { Self → ℕ };

    /// What it holds.
    ghost shown: { Self → Shown Self.State };

    /// Looks a request up: the mark and the row in one transaction.
    fn find(&mut self, alloc: Global, key: &Key, expiration: u64) -> Found
        ensures waits { Waits apply (life self.old) (shown self.old) (shown self.new) }
        ensures found { IsFound (key_of key.now) expiration (shown self.new).store result }
        ensures life { life self.new ≡ life self.old };

    /// Performs a call, and commits its effect and its row in one transaction, unless a row of its key is held or the mark
    /// lies behind its expiration, in that transaction. A result that is dropped has to be looked up again.
    fn commit(&mut self, alloc: Global, asked: &Asked<'_>, request: FtRequest<'_>) -> Commit
        requires performs { performs (awaited_lent asked.now).call }
        ensures commit { IsCommit apply (life self.old) (record { ask = ask_of (life self.old) asked.now; key = key_of request.entry.key.now; expiration = request.entry.expiration }) (shown self.old) result (shown self.new) }
        ensures life { life self.new ≡ life self.old };
}
