//! A clock in memory.

use ft_orb::Clock;

/// A clock that gives the moments of a list. It says which it gave as long as the list lasts; after that it gives 0.
#[derive(Drop)]
pub struct MemoryClock<'a> {
    moments: &'a [u64],
    given: usize,
}

impl<'a> MemoryClock<'a> {
    ghost use Rattle.std.specs.Prelude.{◌≡◌, [], Some};
    ghost use Rattle.memory_wire.specs.Moments.{moments_given};

    /// A clock that has given no moment.
    pub fn new(moments: &'a [u64]) -> MemoryClock<'a>
        ensures { moments_given result.moments.now result.given ≡ Some [] }
    {
        MemoryClock { moments, given: 0 }
    }
}

impl<'a> Clock for MemoryClock<'a> {
    ghost use Rattle.memory_wire.specs.Moments.{moments_given};

    ghost given = { λ c. moments_given c.moments.now c.given };

    fn now(&mut self) -> u64 {
        let moment = self.moments.get(self.given);
        self.given = self.given.saturating_add(1);
        moment.copied().unwrap_or(0)
    }
}
