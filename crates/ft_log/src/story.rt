//! The entries of a log in the order in which they were kept, which only proofs read.

ghost use Rattle.std.specs.Prelude.{◌≡◌, List, [], ◌∷◌, ◌++◌};
ghost use Rattle.std.specs.Borrow.{ftrue};
ghost use Rattle.std.specs.Coded.{coded_list};
ghost use Rattle.ft_log.specs.contracts.key.Key as key_row;
ghost use Rattle.ft_log.specs.contracts.story.Entry.{the_row};
ghost use Rattle.ft_log.specs.Filled.{filled_by};
ghost use Rattle.ft_log.specs.Maps.{marked_in};
ghost use Rattle.ft_log.specs.View.{key_of};
ghost use Rattle.ft_log.specs.Without.{without};
ghost use Rattle.ft_log.specs.declared.key.Key.{Key as MarkedKey};
ghost use Rattle.ft_log.specs.declared.story.Entry.{Entry as KeptEntry};

use crate::held::Held;
use crate::key::Key;
use crate::name::Name;
use std::marker::Model;

/// What is kept under a key, and the last moment at which it is repeated.
#[derive(Drop)]
pub(crate) struct Entry {
    pub(crate) key: Key,
    pub(crate) expiration: u64,
    pub(crate) outcome: Held,
}

/// The key of what it stands in. It takes no memory, and its call does nothing when it runs.
#[derive(Drop)]
pub(crate) struct Mark {
    pub(crate) ghost key: { MarkedKey } by { key_row.the_row.coded },
}

impl Model for Mark {
    ghost also_owns = { λ _. ftrue };
}

impl Mark {
    /// The mark of a key.
    pub(crate) fn of(_key: &Key) -> Mark
        ensures { result.key ≡ _key.now }
    {
        Mark {}
    }

    /// The mark of the key that a name with a number stands for.
    pub(crate) fn named(_name: &Name) -> Mark
        ensures { result.key ≡ marked_in _name.now }
    {
        Mark {}
    }

    /// The same mark.
    pub(crate) fn copy(_mark: &Mark) -> Mark
        ensures { result.key ≡ _mark.now.key }
    {
        Mark {}
    }
}

/// The entries that are kept, in order. It takes no memory, and its calls do nothing when they run.
#[derive(Drop)]
pub(crate) struct Story {
    pub(crate) ghost entries: { List KeptEntry } by { coded_list the_row.coded },
}

impl Model for Story {
    ghost also_owns = { λ _. ftrue };
}

impl Story {
    /// No entry.
    pub(crate) fn new() -> Story
        ensures { result.entries ≡ [] }
    {
        Story {}
    }

    /// The same with one more entry.
    pub(crate) fn with(_before: &Story, _entry: &Entry) -> Story
        ensures { result.entries ≡ _before.now.entries ++ _entry.now ∷ [] }
    {
        Story {}
    }

    /// The same with what another entry has, where one is of its key and of the call that is parked under the number that
    /// stands in the place of its expiration.
    pub(crate) fn filled(_before: &Story, _entry: &Entry) -> Story
        ensures { result.entries ≡ filled_by _entry.now _before.now.entries }
    {
        Story {}
    }

    /// The same without the entry of a key.
    pub(crate) fn without(_before: &Story, _key: &Mark) -> Story
        ensures { result.entries ≡ without (key_of _key.now.key) _before.now.entries }
    {
        Story {}
    }
}
