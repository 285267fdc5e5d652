//! Octets on their way.

ghost use Rattle.std.specs.Prelude.{◌≡◌, ◌+◌, ℕ, List, drop, length, take};
ghost use Rattle.ft_ends.specs.Private.{IsIdle, IsWay};

use std::alloc::Global;

/// Octets in one direction of a connection: those that were written, and how many of them were delivered.
#[derive(Drop)]
pub(crate) struct Way {
    pub octets: Vec<u8>,
    pub delivered: usize,
}

impl Way {
    /// No octets.
    pub(crate) fn new(alloc: Global) -> Way
        ensures { IsIdle result }
    {
        Way {
            octets: Vec::new(alloc),
            delivered: 0,
        }
    }

    /// The next octets, at most so many.
    pub(crate) fn front(&self, count: u32) -> &[u8]
        ensures { result.now ≡ take count (drop self.now.delivered self.now.octets.items) }
    {
        let rest = &self.octets[self.delivered.min(self.octets.len())..];
        &rest[..rest.len().min(count as usize)]
    }

    /// The next octets are delivered, at most so many. Where no others are left, none are kept.
    pub(crate) fn pass(&mut self, count: u32)
        ensures { (all : List ℕ) (went : ℕ) → IsWay self.old all went → IsWay self.new all (went + length (take count (drop went all))) }
    {
        let left = self.octets.len().saturating_sub(self.delivered);
        self.delivered += left.min(count as usize);
        if self.delivered == self.octets.len() {
            self.clear();
        }
    }

    /// All octets are gone.
    pub(crate) fn clear(&mut self)
        ensures { IsIdle self.new }
    {
        self.octets.clear();
        self.delivered = 0;
    }
}
