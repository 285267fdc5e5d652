//! The requests that wait for an answer.

ghost use Rattle.std.specs.Prelude.{◌≡◌, ◌++◌, ◌∷◌, [], ℕ, List, if◌then◌else◌, true, OnOk, IfOk};
ghost use Rattle.giop_tap.specs.declared.place.Place.{Place};
ghost use Rattle.giop_tap.specs.Pairing.{Asked, is_about, is_asked, latest, number_of, waiting_after};
ghost use Rattle.giop_tap.specs.Waiting.{AreRising, AreWaiting, is_same_place, last_of, later_of, numbers, numbers_in, without_last};

use crate::part::Part;
use crate::place::{Place, Wanted};
use crate::sender::Sender;
use std::alloc::{AllocError, Global};
use std::collections::BTreeMap;

/// The numbers of the requests that wait, by their places, the latest last.
pub(crate) type Waiting = BTreeMap<Place, Vec<u64>>;

/// The latest request at a place.
fn latest_at(waiting: &Waiting, place: Place) -> Option<u64>
    ensures { result ≡ last_of (numbers_in waiting.now.entries place) }
{
    let numbers = waiting.get(&place)?;
    numbers.last().copied()
}

/// The later of two requests.
fn later_of(one: Option<u64>, other: Option<u64>) -> Option<u64>
    ensures { result ≡ later_of one other }
{
    one.max(other)
}

/// Appends a request at a place.
fn push(alloc: Global, waiting: &mut Waiting, place: Place, number: u64) -> Result<(), AllocError>
    ensures { OnOk result ((other : Place) → numbers_in waiting.new.entries other ≡ (if is_same_place place other then numbers_in waiting.old.entries place ++ number ∷ [] else numbers_in waiting.old.entries other)) }
{
    if let Some(numbers) = waiting.get_mut(&place) {
        numbers.push(number)?;
        return Ok(());
    }
    let mut numbers = Vec::new(alloc);
    numbers.push(number)?;
    waiting.insert(place, numbers)?;
    Ok(())
}

/// Takes the latest request at a place away, and keeps the place.
fn pop_last(waiting: &mut Waiting, place: Place) -> Option<u64>
    ensures number { result ≡ last_of (numbers_in waiting.old.entries place) }
    ensures left { (other : Place) → numbers_in waiting.new.entries other ≡ (if is_same_place place other then without_last (numbers_in waiting.old.entries place) else numbers_in waiting.old.entries other) }
{
    let numbers = waiting.get_mut(&place)?;
    numbers.pop()
}

/// Whether a place is kept at which no request waits.
fn is_emptied(waiting: &Waiting, place: Place) -> bool
    ensures { result ≡ true → numbers_in waiting.now.entries place ≡ [] }
{
    match waiting.get(&place) {
        Some(numbers) => numbers.is_empty(),
        None => false,
    }
}

/// Forgets a place at which no request waits.
fn forget(waiting: &mut Waiting, place: Place)
    ensures { (other : Place) → numbers_in waiting.new.entries other ≡ numbers_in waiting.old.entries other }
{
    if is_emptied(waiting, place) {
        waiting.remove(&place);
    }
}

/// Takes the latest request at a place away.
fn pop(waiting: &mut Waiting, place: Place) -> Option<u64>
    ensures number { result ≡ last_of (numbers_in waiting.old.entries place) }
    ensures left { (other : Place) → numbers_in waiting.new.entries other ≡ (if is_same_place place other then without_last (numbers_in waiting.old.entries place) else numbers_in waiting.old.entries other) }
{
    let number = pop_last(waiting, place);
    forget(waiting, place);
    number
}

/// The numbers of all that wait, in their order.
pub(crate) fn all_numbers(alloc: Global, waiting: &Waiting) -> Result<Vec<u64>, AllocError>
    ensures { (ws : List Asked) → AreRising ws → AreWaiting waiting.now.entries ws → IfOk result (λ v. v.items ≡ numbers ws) }
{
    let mut all = Vec::new(alloc);
    for numbers in waiting.values() {
        all.extend_from_slice(numbers.as_slice())?;
    }
    all.sort_unstable();
    Ok(all)
}

/// Takes the next message, and returns the request that it answers or cancels.
pub(crate) fn take_part(
    alloc: Global,
    waiting: &mut Waiting,
    number: u64,
    connection: u64,
    sender: Sender,
    part: Part,
) -> Result<Option<u64>, AllocError>
    ensures request { (ws : List Asked) → AreRising ws → AreWaiting waiting.old.entries ws → IfOk result (λ n. n ≡ number_of (latest (is_about connection sender part) ws)) }
    ensures waiting { (ws : List Asked) → AreWaiting waiting.old.entries ws → OnOk result (AreWaiting waiting.new.entries (waiting_after number connection sender part ws)) }
{
    match part {
        Part::Asks(wanted, id) => {
            let place = Place {
                connection,
                sender,
                wanted,
                id,
            };
            push(alloc, waiting, place, number)?;
            Ok(None)
        }
        Part::Answers(wanted, id) => {
            let place = Place {
                connection,
                sender: sender.peer(),
                wanted,
                id,
            };
            Ok(pop(waiting, place))
        }
        Part::Cancels(id) => Ok(latest_asked(waiting, connection, sender, id)),
        Part::Apart => Ok(None),
    }
}

/// The latest request of a side and an id that waits, whatever it waits for.
fn latest_asked(waiting: &Waiting, connection: u64, sender: Sender, id: u32) -> Option<u64>
    ensures { (ws : List Asked) → AreRising ws → AreWaiting waiting.now.entries ws → result ≡ number_of (latest (is_asked connection sender id) ws) }
{
    let request = Place {
        connection,
        sender,
        wanted: Wanted::Reply,
        id,
    };
    let locate = Place {
        connection,
        sender,
        wanted: Wanted::Location,
        id,
    };
    later_of(latest_at(waiting, request), latest_at(waiting, locate))
}
