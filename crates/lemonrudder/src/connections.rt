//! The connections of a server, what is due on each, and what is noted of it.

ghost use Rattle.std.specs.Prelude.{◌≡◌, ◌↔◌, [], ℕ, false, true, drop, length, min, OnErr, OnOk, IfErr, IsTrue};
ghost use Rattle.lemonrudder.specs.Dues.{IsPlaced, owed};

use crate::due::Due;
use crate::refusal::Refusal;
use ft_orb::Ending;
use std::alloc::Global;
use std::collections::BTreeMap;
use std::mem;

/// A connection, from when it is opened until it is lost.
#[derive(Drop)]
pub struct Connection {
    pub(crate) due: Due,
    /// Goodbye is said on it once nobody waits there for an outcome.
    leaving: bool,
    /// Why it ended.
    why: Option<Ending>,
}

/// The connections, by their numbers.
#[derive(Drop)]
pub struct Connections {
    alloc: Global,
    pub(crate) entries: BTreeMap<u64, Connection>,
}

impl Connections {
    ghost use Rattle.lemonrudder.specs.Connected.{AreAsNoted, AreOthers, AreOthersNoted, AreSame, Hears, Notes, OnlyDue, StartsLeaving, how_many, is_there, leaves_in, owed_in, why_in};
    ghost use Rattle.lemonrudder.specs.Refusals.{filled};

    /// None.
    pub fn new(alloc: Global) -> Connections
        ensures { (c : ℕ) → is_there result c ≡ false }
    {
        Connections {
            alloc,
            entries: BTreeMap::new(alloc),
        }
    }

    /// Whether there is one of a number.
    #[inline(always)]
    pub fn has(&self, connection: u64) -> bool
        ensures { result ≡ is_there self.now connection }
    {
        self.entries.contains_key(&connection)
    }

    /// How many there are.
    pub fn len(&self) -> usize
        ensures { result ≡ how_many self.now }
    {
        self.entries.len()
    }

    /// Opens one, on which nothing is due, where there is none of the number.
    pub fn open(&mut self, connection: u64) -> Result<(), Refusal>
        ensures there { OnOk result (is_there self.new connection ≡ true) }
        ensures others { AreOthers connection self.old self.new }
        ensures owed { is_there self.old connection ≡ false → owed_in self.new connection ≡ [] }
        ensures stays { is_there self.old connection ≡ true → AreSame self.old self.new }
        ensures err { OnErr result (AreSame self.old self.new) }
        ensures why { IfErr result (λ e. (e ≡ Refusal.Memory) × (is_there self.old connection ≡ false)) }
        ensures noted { AreAsNoted self.old self.new }
    {
        if self.has(connection) {
            return Ok(());
        }
        let opened = Connection {
            due: Due::new(Vec::new(self.alloc)),
            leaving: false,
            why: None,
        };
        self.entries.insert(connection, opened)?;
        Ok(())
    }

    /// Forgets one, what is due on it, and what is noted of it.
    pub fn remove(&mut self, connection: u64)
        ensures gone { is_there self.new connection ≡ false }
        ensures others { AreOthers connection self.old self.new }
        ensures noted { AreOthersNoted connection self.old self.new }
    {
        self.entries.remove(&connection);
    }

    /// Forgets one, unless it was there.
    pub fn undo(&mut self, connection: u64, was: bool)
        ensures gone { was ≡ false → is_there self.new connection ≡ false }
        ensures stays { was ≡ true → AreSame self.old self.new }
        ensures others { AreOthers connection self.old self.new }
        ensures noted { AreOthersNoted connection self.old self.new }
        ensures noted_stays { was ≡ true → AreAsNoted self.old self.new }
    {
        if !was {
            self.remove(connection);
        }
    }

    /// Whether octets of one are heard: it is there, it is not leaving, and fewer octets are due on it than so many.
    #[inline(always)]
    pub fn hears(&self, connection: u64, most: usize) -> bool
        ensures { IsTrue result ↔ Hears most self.now connection }
    {
        match self.entries.get(&connection) {
            Some(found) => !found.leaving && found.due.len() < most,
            None => false,
        }
    }

    /// Takes what is due on one, to be put back.
    #[inline(always)]
    pub fn take(&mut self, connection: u64) -> Due
        ensures owed { owed result ≡ owed_in self.old connection }
        ensures placed { IsPlaced result }
        ensures only { OnlyDue connection self.old self.new }
        ensures noted { AreAsNoted self.old self.new }
    {
        let none = Due::new(Vec::new(self.alloc));
        match self.entries.get_mut(&connection) {
            Some(found) => mem::replace(&mut found.due, none).placed(),
            None => none,
        }
    }

    /// This is due on one, if there is one.
    #[inline(always)]
    pub fn put(&mut self, connection: u64, due: Due)
        ensures owed { is_there self.old connection ≡ true → owed_in self.new connection ≡ owed due }
        ensures only { OnlyDue connection self.old self.new }
        ensures noted { AreAsNoted self.old self.new }
    {
        if let Some(found) = self.entries.get_mut(&connection) {
            found.due = due;
        }
    }

    /// Moves octets that are due on one into a room, as many as it has, and answers how many.
    #[inline(always)]
    pub fn output(&mut self, connection: u64, room: &mut [u8]) -> u64
        ensures count { result ≡ min (length (owed_in self.old connection)) (length room.old) }
        ensures room { room.new ≡ filled (owed_in self.old connection) room.old }
        ensures owed { owed_in self.new connection ≡ drop result (owed_in self.old connection) }
        ensures only { OnlyDue connection self.old self.new }
        ensures noted { AreAsNoted self.old self.new }
    {
        match self.entries.get_mut(&connection) {
            Some(found) => found.due.output(room),
            None => 0,
        }
    }

    /// Whether goodbye is said on one once nobody waits there for an outcome.
    #[inline(always)]
    pub fn is_leaving(&self, connection: u64) -> bool
        ensures { result ≡ leaves_in self.now connection }
    {
        match self.entries.get(&connection) {
            Some(found) => found.leaving,
            None => false,
        }
    }

    /// One is leaving, if there is one.
    pub fn leave(&mut self, connection: u64)
        ensures { StartsLeaving connection self.old self.new }
    {
        if let Some(found) = self.entries.get_mut(&connection) {
            found.leaving = true;
        }
    }

    /// Why one ended.
    pub fn why(&self, connection: u64) -> Option<Ending>
        ensures { result ≡ why_in self.now connection }
    {
        match self.entries.get(&connection) {
            Some(found) => found.why,
            None => None,
        }
    }

    /// Notes why one ended, if it did and there is one.
    #[inline(always)]
    pub fn note(&mut self, connection: u64, why: Option<Ending>)
        ensures same { AreSame self.old self.new }
        ensures noted { Notes connection why self.old self.new }
    {
        if why.is_none() {
            return;
        }
        if let Some(found) = self.entries.get_mut(&connection) {
            found.why = why;
        }
    }
}
