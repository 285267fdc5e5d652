//! A store in memory, which has its promises by proof. It ends with its process.

ghost use Rattle.std.specs.Prelude.{◌≡◌, [], max};
ghost use Rattle.ft_objects.specs.Interfaces.{AreArgumentsOf};

use crate::looking::{held, take_out};
use crate::row::Kept;
use crate::store::{Commit, Found, Store};
use ft_log::{Key, Outcome};
use ft_objects::Servant;
use ft_orb::{Asked, FtRequest};
use std::alloc::Global;

/// A servant, and the outcomes of its calls: a store that others don't change. It shows what a store does, and tests stand
/// on it.
#[derive(Drop)]
pub struct MemoryStore<S: Drop> {
    servant: S,
    rows: Vec<Kept>,
    mark: u64,
}

impl<S: Servant + Drop> MemoryStore<S> {
    ghost use Rattle.ft_lives.specs.Memory.{shown_in};
    ghost use Rattle.ft_lives.specs.Steps.{now_holds};
    ghost use Rattle.ft_lives.specs.Stores.{Purged, empty_store};

    /// A store without rows.
    pub fn new(alloc: Global, servant: S) -> MemoryStore<S>
        ensures { shown_in result ≡ record { store = empty_store; state = servant; doubts = [] } }
    {
        MemoryStore {
            servant,
            rows: Vec::new(alloc),
            mark: 0,
        }
    }

    /// The servant.
    pub fn servant(&self) -> &S
        ensures { result.now ≡ (shown_in self.now).state }
    {
        &self.servant
    }

    /// Takes out the rows that expired before a moment. The mark never goes back, whatever a clock says.
    pub fn purge(&mut self, moment: u64)
        ensures { shown_in self.new ≡ record (shown_in self.old) { store = now_holds (shown_in self.old).store (Purged (max (shown_in self.old).store.mark moment)) } }
    {
        let mark = self.mark.max(moment);
        take_out(&mut self.rows, mark);
        self.mark = mark;
    }
}

impl<S: Servant + Drop> Store for MemoryStore<S> {
    ghost use Rattle.ft_lives.specs.Memory.{shown_in};

    type State = S;

    ghost apply = { λ state call. S.meaning.apply state call.object_key call.operation call.arguments };

    ghost performs = { λ call. AreArgumentsOf (S.meaning.interface call.object_key call.operation) call.arguments };

    ghost life = { λ store. 0 };

    ghost shown = { λ store. shown_in store };

    fn find(&mut self, alloc: Global, key: &Key, expiration: u64) -> Found {
        if expiration < self.mark {
            return Found::Over;
        }
        let Some(row) = held(&self.rows, self.mark, key) else {
            return Found::Free;
        };
        match row.outcome.copy(alloc) {
            Ok(outcome) => Found::Held(outcome),
            Err(_) => Found::Silent,
        }
    }

    fn commit(&mut self, alloc: Global, asked: &Asked<'_>, request: FtRequest<'_>) -> Commit {
        if request.expiration < self.mark {
            return Commit::Taken;
        }
        if held(&self.rows, self.mark, request.key).is_some() {
            return Commit::Taken;
        }
        let Ok(key) = request.key.copy(alloc) else {
            return Commit::Failed;
        };
        if self.rows.reserve(1).is_err() {
            return Commit::Failed;
        }
        let (object_key, operation) = (asked.object_key, asked.operation);
        let Ok(outcome) = self
            .servant
            .perform(alloc, object_key, operation, asked.arguments)
        else {
            return Commit::Failed;
        };
        let copy = outcome.copy(alloc);
        let row = Kept {
            key,
            expiration: request.expiration,
            outcome,
        };
        self.rows.push(row).unwrap();
        match copy {
            Ok(answer) => Commit::Done(answer),
            Err(_) => Commit::InDoubt,
        }
    }
}
