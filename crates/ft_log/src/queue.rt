//! The slots of a log by their last moments, and the place under each.

ghost use Rattle.std.specs.Prelude.{◌≡◌, ◌+◌, ◌<◌, ◌≤◌, ◌==◌, ◌&&◌, if◌then◌else◌, ℕ, List, Option, [], not, is_some, length, slice_get, nat_lt, option_map, IsTrue, OnOk, IfSome, None, Some, true, false};
ghost use Rattle.std.specs.List.{count_by, sum_by};
ghost use Rattle.std.specs.Option.{option_copied};
ghost use Rattle.std.specs.BinaryHeap.{IsHeap, IsHeap-prop, heap_items};
ghost use Rattle.slab.specs.Slab.{Updates, get, slab_len};
ghost use Rattle.ft_log.specs.Keys.{same_key};
ghost use Rattle.ft_log.specs.Places.{IsChanged, IsMoved, is_kept, place_in};
ghost use Rattle.ft_log.specs.View.{key_of};

use crate::due::Due;
use crate::story::Mark;
use slab::Slab;
use std::alloc::{AllocError, Global};
use std::cmp::Reverse;
use std::collections::BinaryHeap;

/// Slots by their last moments, the least moment on top. Under each stands the place of its outcome, and none once that is
/// withdrawn. Then the slot stays until it leaves the heap, so that no other outcome gets it before.
#[derive(Drop)]
pub(crate) struct Queue {
    heap: BinaryHeap<Due>,
    places: Slab<Option<usize>>,
    withdrawn: usize,
    ghost ordered: { IsHeap (⟦<Due as Ord>⟧.cmp) (heap_items heap) } by { IsHeap-prop (⟦<Due as Ord>⟧.cmp) (heap_items heap) },
    ghost apart: { (slot : ℕ) → count_by (λ d. d.slot == slot) (heap_items heap) ≡ (if is_some (get places slot) then 1 else 0) },
    ghost counted: { count_by (λ d. not (is_kept places d)) (heap_items heap) ≡ withdrawn },
}

impl Queue {
    ghost use Rattle.ft_log.specs.Queue.{IsOut, fits, is_topped, kept_dues, place_at};

    /// No slots.
    pub(crate) fn new(alloc: Global) -> Queue
        ensures none { kept_dues result ≡ [] }
        ensures topped { IsTrue (is_topped result) }
        ensures withdrawn { result.withdrawn ≡ 0 }
    {
        Queue {
            heap: BinaryHeap::new(alloc),
            places: Slab::new(alloc),
            withdrawn: 0,
        }
    }

    /// How many are not withdrawn.
    pub(crate) fn len(&self) -> usize
        ensures { result ≡ length (kept_dues self.now) }
    {
        self.heap.len() - self.withdrawn
    }

    /// The first.
    pub(crate) fn first(&self) -> Option<&Due>
        requires { IsTrue (is_topped self.now) }
        ensures first { option_copied result ≡ slice_get (kept_dues self.now) 0 }
        ensures before { IfSome result (λ due. count_by (λ d. nat_lt d.until.0 due.now.until.0) (kept_dues self.now) ≡ 0) }
    {
        self.heap.peek()
    }

    /// The place under a slot.
    pub(crate) fn place(&self, slot: usize) -> Option<usize>
        ensures { result ≡ place_at self.now slot }
    {
        place_under(&self.places, slot)
    }

    /// Makes room for one more slot.
    pub(crate) fn reserve(&mut self) -> Result<(), AllocError>
        ensures dues { kept_dues self.new ≡ kept_dues self.old }
        ensures places { (slot : ℕ) → place_at self.new slot ≡ place_at self.old slot }
        ensures topped { is_topped self.new ≡ is_topped self.old }
        ensures withdrawn { self.new.withdrawn ≡ self.old.withdrawn }
        ensures ok { OnOk result (length (kept_dues self.new) < fits self.new) }
    {
        self.heap.reserve(1)?;
        self.places.reserve(1)
    }

    /// Gives a slot to what is put in a place, for which there is room.
    pub(crate) fn push(&mut self, until: u64, key: Mark, place: usize) -> usize
        requires { length (kept_dues self.old) < fits self.old }
        ensures sums { (f : Due → ℕ) → sum_by f (kept_dues self.new) ≡ f (record { until = record { 0 = until }; slot = result; key = key }) + sum_by f (kept_dues self.old) }
        ensures was { place_at self.old result ≡ None }
        ensures places { IsChanged (place_at self.old) (place_at self.new) result (Some place) }
        ensures withdrawn { self.new.withdrawn ≡ self.old.withdrawn }
    {
        let slot = self.places.insert_reserved(Some(place));
        let _ = self.heap.push(Due {
            until: Reverse(until),
            slot,
            key,
        });
        slot
    }

    /// Takes out what has a slot: at once where that is first, and else it is noted as withdrawn.
    pub(crate) fn withdraw(&mut self, slot: usize, _key: &Mark)
        requires place { IsTrue (is_some (place_at self.old slot)) }
        requires there { 0 < count_by (λ d. d.slot == slot && same_key (key_of d.key.key) (key_of _key.now.key)) (kept_dues self.old) }
        ensures out { IsOut (key_of _key.now.key) (kept_dues self.old) (kept_dues self.new) }
        ensures places { IsChanged (place_at self.old) (place_at self.new) slot None }
        ensures room { fits self.old ≤ fits self.new + 1 }
    {
        if self.is_first(slot) {
            self.heap.pop();
            self.places.remove(slot);
            return;
        }
        set(&mut self.places, slot, None);
        self.withdrawn += 1;
    }

    /// Whether a slot is first.
    fn is_first(&self, slot: usize) -> bool
        ensures { IsTrue result → option_map (λ d. d.slot) (slice_get (heap_items self.now.heap) 0) ≡ Some slot }
    {
        match self.heap.peek() {
            Some(due) => due.slot == slot,
            None => false,
        }
    }

    /// Notes the place of what was moved, if there is something.
    pub(crate) fn move_to(&mut self, moved: Option<usize>, place: usize)
        requires { (slot : ℕ) → moved ≡ Some slot → is_some (place_at self.old slot) ≡ true }
        ensures dues { kept_dues self.new ≡ kept_dues self.old }
        ensures places { IsMoved moved place (place_at self.old) (place_at self.new) }
        ensures topped { is_topped self.new ≡ is_topped self.old }
        ensures withdrawn { self.new.withdrawn ≡ self.old.withdrawn }
        ensures room { fits self.new ≡ fits self.old }
    {
        if let Some(slot) = moved {
            set(&mut self.places, slot, Some(place));
        }
    }

    /// Drops what is withdrawn where it is first, and all of it once it is more than the rest.
    #[inline(always)]
    pub(crate) fn tidy(&mut self)
        ensures sums { (f : Due → ℕ) → sum_by f (kept_dues self.new) ≡ sum_by f (kept_dues self.old) }
        ensures places { (slot : ℕ) → place_at self.new slot ≡ place_at self.old slot }
        ensures room { fits self.old ≤ fits self.new }
        ensures topped { IsTrue (is_topped self.new) }
        ensures few { self.new.withdrawn ≤ length (kept_dues self.new) }
    {
        if self.withdrawn == 0 {
            return;
        }
        self.drop_withdrawn();
    }

    /// .. where something is.
    fn drop_withdrawn(&mut self)
        ensures sums { (f : Due → ℕ) → sum_by f (kept_dues self.new) ≡ sum_by f (kept_dues self.old) }
        ensures places { (slot : ℕ) → place_at self.new slot ≡ place_at self.old slot }
        ensures room { fits self.old ≤ fits self.new }
        ensures topped { IsTrue (is_topped self.new) }
        ensures few { self.new.withdrawn ≤ length (kept_dues self.new) }
    {
        while self.drop_first() {}
        if self.len() < self.withdrawn {
            self.compact();
        }
    }

    /// Drops the first slot where what had it is withdrawn, and says whether it did.
    fn drop_first(&mut self) -> bool
        ensures sums { (f : Due → ℕ) → sum_by f (kept_dues self.new) ≡ sum_by f (kept_dues self.old) }
        ensures places { (slot : ℕ) → place_at self.new slot ≡ place_at self.old slot }
        ensures room { fits self.old ≤ fits self.new }
        ensures fewer { IsTrue result → self.new.withdrawn < self.old.withdrawn }
        ensures topped { result ≡ false → IsTrue (is_topped self.new) }
    {
        let Some(slot) = self.first_withdrawn() else {
            return false;
        };
        self.heap.pop();
        self.places.remove(slot);
        self.withdrawn -= 1;
        true
    }

    /// The first slot, where what had it is withdrawn.
    fn first_withdrawn(&self) -> Option<usize>
        ensures topped { result ≡ None → IsTrue (is_topped self.now) }
        ensures first { IfSome result (λ slot. option_map (λ d. d.slot) (slice_get (heap_items self.now.heap) 0) ≡ Some slot) }
        ensures withdrawn { IfSome result (λ slot. place_at self.now slot ≡ None) }
    {
        if self.withdrawn == 0 {
            return None;
        }
        let slot = self.heap.peek()?.slot;
        match self.place(slot) {
            Some(_) => None,
            None => Some(slot),
        }
    }

    /// Drops all that is withdrawn.
    fn compact(&mut self)
        ensures sums { (f : Due → ℕ) → sum_by f (kept_dues self.new) ≡ sum_by f (kept_dues self.old) }
        ensures places { (slot : ℕ) → place_at self.new slot ≡ place_at self.old slot }
        ensures room { fits self.old ≤ fits self.new }
        ensures topped { IsTrue (is_topped self.new) }
        ensures none { self.new.withdrawn ≡ 0 }
    {
        free(&mut self.places, self.heap.as_slice());
        let places = &self.places;
        self.heap
            .retain(|due| place_under(places, due.slot).is_some());
        self.withdrawn = 0;
    }
}

/// The place under a slot, if there is one.
fn place_under(places: &Slab<Option<usize>>, slot: usize) -> Option<usize>
    ensures { result ≡ place_in places.now slot }
{
    match places.get(slot) {
        Some(place) => *place,
        None => None,
    }
}

/// Puts another place under a slot, or none.
fn set(places: &mut Slab<Option<usize>>, slot: usize, place: Option<usize>)
    requires { is_some (get places.old slot) ≡ true }
    ensures updates { Updates places.old places.new slot (Some place) }
    ensures len { slab_len places.new ≡ slab_len places.old }
    ensures capacity { places.new.capacity ≡ places.old.capacity }
{
    if let Some(held) = places.get_mut(slot) {
        *held = place;
    }
}

/// Gives back the slots among these under which stands no place.
fn free(places: &mut Slab<Option<usize>>, dues: &[Due])
    ensures freed { (slot : ℕ) → get places.new slot ≡ (if nat_lt 0 (count_by (λ d. d.slot == slot) dues.now) then option_map Some (place_in places.old slot) else get places.old slot) }
    ensures len { slab_len places.new ≤ slab_len places.old }
    ensures capacity { places.new.capacity ≡ places.old.capacity }
{
    for due in dues {
        if place_under(places, due.slot).is_none() {
            places.try_remove(due.slot);
        }
    }
}
