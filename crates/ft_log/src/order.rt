//! The expirations of the entries, the least first.

ghost use Rattle.std.specs.Prelude.{◌≡◌, ◌+◌, ◌<◌, ◌≤◌, ◌==◌, ◌&&◌, List, ℕ, [], is_some, length, nat_lt, IsTrue, OnOk, IfSome, IfNone, None, Some, true};
ghost use Rattle.std.specs.List.{count_by, sum_by};
ghost use Rattle.ft_log.specs.Keys.{same_key};
ghost use Rattle.ft_log.specs.Places.{IsChanged, IsMoved};
ghost use Rattle.ft_log.specs.Queue.{IsOut, is_topped, kept_dues};
ghost use Rattle.ft_log.specs.View.{key_of};

use crate::due::{Due, Spot};
use crate::queue::Queue;
use crate::story::Mark;
use std::alloc::{AllocError, Global};

/// The slots with their last moments, the least moment on top, and the place under each. What is withdrawn is never on top, and
/// never more than the rest.
#[derive(Drop)]
pub(crate) struct Order {
    queue: Queue,
    ghost topped: { IsTrue (is_topped queue) },
    ghost few: { queue.withdrawn ≤ length (kept_dues queue) },
}

impl Order {
    ghost use Rattle.ft_log.specs.Dues.{IsFirst, dues, places, under};

    /// No slots.
    pub(crate) fn new(alloc: Global) -> Order
        ensures { dues result ≡ [] }
    {
        Order {
            queue: Queue::new(alloc),
        }
    }

    /// How many slots.
    pub(crate) fn len(&self) -> usize
        ensures { result ≡ length (dues self.now) }
    {
        self.queue.len()
    }

    /// The least moment.
    pub(crate) fn least(&self) -> Option<u64>
        ensures none { IfNone result (dues self.now ≡ []) }
        ensures before { IfSome result (λ t. count_by (λ d. nat_lt d.until.0 t) (dues self.now) ≡ 0) }
        ensures there { IfSome result (λ t. 0 < count_by (λ d. d.until.0 == t) (dues self.now)) }
    {
        match self.queue.first() {
            Some(due) => Some(due.until.0),
            None => None,
        }
    }

    /// Where one is whose last moment lies before this one, if there is one.
    pub(crate) fn before(&self, now: u64) -> Option<Spot>
        ensures none { IfNone result (count_by (λ d. nat_lt d.until.0 now) (dues self.now) ≡ 0) }
        ensures first { IfSome result (λ spot. IsFirst spot now self.now) }
    {
        let due = self.queue.first()?;
        if now <= due.until.0 {
            return None;
        }
        Some(Spot {
            slot: due.slot,
            place: self.queue.place(due.slot)?,
            key: Mark::copy(&due.key),
        })
    }

    /// Makes room for one more slot.
    pub(crate) fn reserve(&mut self) -> Result<(), AllocError>
        ensures same { dues self.new ≡ dues self.old }
        ensures places { (slot : ℕ) → under self.new slot ≡ under self.old slot }
        ensures ok { OnOk result (length (dues self.new) < places self.new) }
    {
        self.queue.reserve()
    }

    /// Gives a slot to what is put in a place, for which there is room.
    pub(crate) fn push(&mut self, until: u64, key: Mark, place: usize) -> usize
        requires { length (dues self.old) < places self.old }
        ensures sums { (f : Due → ℕ) → sum_by f (dues self.new) ≡ f (record { until = record { 0 = until }; slot = result; key = key }) + sum_by f (dues self.old) }
        ensures was { under self.old result ≡ None }
        ensures places { IsChanged (under self.old) (under self.new) result (Some place) }
    {
        let slot = self.queue.push(until, key, place);
        self.queue.tidy();
        slot
    }

    /// Takes out a slot.
    pub(crate) fn withdraw(&mut self, slot: usize, _key: &Mark)
        requires place { IsTrue (is_some (under self.old slot)) }
        requires there { 0 < count_by (λ d. d.slot == slot && same_key (key_of d.key.key) (key_of _key.now.key)) (dues self.old) }
        ensures out { IsOut (key_of _key.now.key) (dues self.old) (dues self.new) }
        ensures places { IsChanged (under self.old) (under self.new) slot None }
        ensures room { places self.old ≤ places self.new + 1 }
    {
        self.queue.withdraw(slot, _key);
        self.queue.tidy();
    }

    /// Notes the place of what was moved, if there is something.
    pub(crate) fn move_to(&mut self, moved: Option<usize>, place: usize)
        requires { (slot : ℕ) → moved ≡ Some slot → is_some (under self.old slot) ≡ true }
        ensures dues { dues self.new ≡ dues self.old }
        ensures places { IsMoved moved place (under self.old) (under self.new) }
        ensures room { places self.new ≡ places self.old }
    {
        self.queue.move_to(moved, place);
    }
}
