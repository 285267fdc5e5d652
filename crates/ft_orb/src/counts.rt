//! What became of requests, counted.

ghost use Rattle.std.specs.Prelude.{◌≡◌};
ghost use Rattle.std.specs.Hash.DefaultHasher.{wrapping_add};

use ft_objects::Decision;

/// How many requests and locates came, each by what became of it, and what the owner did with those that it was asked for. A
/// count wraps at 2^64.
#[derive(Clone, Copy, Debug, PartialEq, Eq)]
pub struct Counts {
    pub asked: u64,
    pub repeated: u64,
    pub joined: u64,
    pub expired: u64,
    pub malformed: u64,
    pub invalid: u64,
    pub log_full: u64,
    pub share_full: u64,
    pub located: u64,
    pub dropped: u64,
    /// Requests that the owner answered at once, also where it told an outcome unkept and that gave them up, as memory was
    /// short.
    pub answered: u64,
    pub parked: u64,
    /// Parked requests whose outcome was handed in.
    pub settled: u64,
    pub given_up: u64,
    /// Requests that the owner declined while they waited, also where that gave them up, as memory was short.
    pub declined: u64,
    /// Requests that the owner declined while they were parked.
    pub withdrawn: u64,
}

/// Counts one more.
#[inline(always)]
pub(crate) fn count(n: &mut u64)
    ensures { n.new ≡ wrapping_add n.old 1 }
{
    *n = n.wrapping_add(1);
}

impl Counts {
    ghost use Rattle.ft_orb.specs.Decisions.{counted_with, no_counts};

    /// Nothing came.
    pub(crate) fn none() -> Counts
        ensures { result ≡ no_counts }
    {
        Counts {
            asked: 0,
            repeated: 0,
            joined: 0,
            expired: 0,
            malformed: 0,
            invalid: 0,
            log_full: 0,
            share_full: 0,
            located: 0,
            dropped: 0,
            answered: 0,
            parked: 0,
            settled: 0,
            given_up: 0,
            declined: 0,
            withdrawn: 0,
        }
    }

    /// Counts what became of one.
    #[inline(always)]
    pub(crate) fn add(&mut self, decision: Decision)
        ensures { self.new ≡ counted_with self.old decision }
    {
        match decision {
            Decision::Asked => count(&mut self.asked),
            Decision::Repeated => count(&mut self.repeated),
            Decision::Joined => count(&mut self.joined),
            Decision::Expired => count(&mut self.expired),
            Decision::Malformed => count(&mut self.malformed),
            Decision::Invalid(_) => count(&mut self.invalid),
            Decision::LogFull => count(&mut self.log_full),
            Decision::ShareFull => count(&mut self.share_full),
            Decision::Located => count(&mut self.located),
            Decision::Dropped => count(&mut self.dropped),
        }
    }
}
