//! Who waits for the outcome of a request that is parked.

ghost use Rattle.std.specs.Prelude.{◌≡◌, ◌==◌, ◌+◌, ℕ, false, ◌<◌, ◌≤◌, IfOk, length};
ghost use Rattle.std.specs.BTreeMap.{btree_map_len, get};
ghost use Rattle.std.specs.Ordering.{nat_cmp};
ghost use Rattle.ft_orb.specs.Carrying.{first_of};
ghost use Rattle.ft_orb.specs.Counts.{on_connection, waiters_on};
ghost use Rattle.ft_orb.specs.Parked.{IsCleared, IsCopy, JoinsAs, JoinsBy, going_in, on_going, own_waiters};
ghost use Rattle.ft_orb.specs.Parking.{left_of};

use crate::answering::Asker;
use crate::desk::Step;
use crate::keeper::{Repeat, Retained};
use crate::lot::Lot;
use crate::parked::{Parked, Waiter};
use ft_log::{Completion, Outcome, SystemName};
use giop_core::ReplyWish;
use giop_link::ServerLink;
use std::alloc::{AllocError, Global};
use std::collections::{BTreeMap, VecDeque};

/// What comes of a repeat of a parked request.
#[derive(Clone, Copy)]
pub(crate) enum Join {
    /// No answer to it is wished for.
    Silent,
    /// It waits.
    Waits,
    /// So many wait that it doesn't.
    Full,
    /// An allocation failed.
    Memory,
}

/// Whether what comes on a connection has a meaning, and what is written on it is read.
pub(crate) fn is_going(links: &BTreeMap<u64, ServerLink>, connection: u64) -> bool
    ensures { result ≡ going_in links.now connection }
{
    match links.get(&connection) {
        Some(link) => !link.is_closed(),
        None => false,
    }
}

/// A copy of the key and the expiration under which an outcome is to be kept, if it is.
pub(crate) fn copy_of(
    alloc: Global,
    retained: &Option<Retained>,
) -> Result<Option<Retained>, AllocError>
    ensures { IfOk result (λ copy. IsCopy retained.now copy) }
{
    match retained {
        Some(retained) => {
            Ok(Some(Retained {
                key: retained.key.copy(alloc)?,
                expiration: retained.expiration,
            }))
        }
        None => Ok(None),
    }
}

/// The list of the one who waits for the outcome of a request that is parked now: itself, where an answer is wished for.
pub(crate) fn own_waiter(
    alloc: Global,
    connection: u64,
    asker: Asker,
) -> Result<VecDeque<Waiter>, AllocError>
    ensures { IfOk result (λ list. list.items ≡ own_waiters connection asker) }
{
    let mut waiters = VecDeque::new(alloc);
    match asker.wish {
        ReplyWish::None => {}
        ReplyWish::Empty | ReplyWish::Full => {
            let waiter = Waiter { connection, asker };
            if waiters.push_back(waiter).is_err() {
                return Err(AllocError);
            }
        }
    }
    Ok(waiters)
}

/// How many of them wait on connections that go on.
pub(crate) fn count_going(waiters: &VecDeque<Waiter>, links: &BTreeMap<u64, ServerLink>) -> usize
    ensures { result ≡ length (on_going (going_in links.now) waiters.now.items) }
{
    waiters
        .iter()
        .filter(|waiter| is_going(links, waiter.connection))
        .count()
}

/// How many of them wait on a connection.
fn count_on(waiters: &VecDeque<Waiter>, connection: u64) -> usize
    ensures { result ≡ on_connection connection waiters.now.items }
{
    waiters
        .iter()
        .filter(|waiter| waiter.connection == connection)
        .count()
}

/// How many wait on a connection for the outcomes of all that is parked.
pub(crate) fn count_all(requests: &BTreeMap<u64, Parked>, connection: u64) -> usize
    requires { btree_map_len requests.now < 4294967296 }
    ensures { result ≡ waiters_on requests.now connection }
{
    let mut all: usize = 0;
    for parked in requests.values() {
        all = all.saturating_add(count_on(&parked.waiters, connection));
    }
    all
}

/// What is said to a repeat of a request that is parked under a number: nothing, where it waits, or none is wished for.
pub(crate) fn answer_repeat(
    parked: &mut Lot,
    links: &BTreeMap<u64, ServerLink>,
    most: u32,
    connection: u64,
    repeat: Repeat,
    out: &mut Vec<u8>,
) -> Step
    ensures joins { JoinsAs (going_in links.now) most connection repeat (get nat_cmp parked.old.requests repeat.number) result (get nat_cmp parked.new.requests repeat.number) out.old.items out.new.items }
    ensures others { (q : ℕ) → (q == repeat.number) ≡ false → get nat_cmp parked.new.requests q ≡ get nat_cmp parked.old.requests q }
    ensures few { (q : ℕ) → left_of (get nat_cmp parked.old.requests q) ≤ most + 1 → left_of (get nat_cmp parked.new.requests q) ≤ most + 1 }
{
    let waiter = Waiter {
        connection,
        asker: repeat.asker,
    };
    let Some(first) = parked.requests.get_mut(&repeat.number) else {
        return Step::Unhandled;
    };
    match first.join(links, most, waiter) {
        Join::Silent | Join::Waits => Step::Answered,
        Join::Full => {
            let outcome = Outcome::System(SystemName::Transient, 0, Completion::Maybe);
            match repeat.asker.answer(&outcome, out) {
                Step::Answered => Step::Answered,
                _ => Step::Unhandled,
            }
        }
        Join::Memory => Step::Unhandled,
    }
}

impl Parked {
    /// Has a repeat wait too, unless more than so many wait already.
    pub(crate) fn join(
        &mut self,
        links: &BTreeMap<u64, ServerLink>,
        most: u32,
        waiter: Waiter,
    ) -> Join
        ensures joins { JoinsBy (going_in links.now) most waiter self.old result self.new }
        ensures few { length self.old.waiters.items ≤ most + 1 → length self.new.waiters.items ≤ most + 1 }
    {
        if let ReplyWish::None = waiter.asker.wish {
            return Join::Silent;
        }
        if self.waiters.len() > most as usize {
            self.waiters
                .retain(|other| is_going(links, other.connection));
        }
        if self.waiters.len() > most as usize {
            return Join::Full;
        }
        match self.waiters.push_back(waiter) {
            Ok(()) => Join::Waits,
            Err(_) => Join::Memory,
        }
    }

    /// Drops those at the front whose connections have ended.
    pub(crate) fn clear(&mut self, links: &BTreeMap<u64, ServerLink>)
        ensures { IsCleared (going_in links.now) self.old self.new }
    {
        let Some(first) = self.waiters.front() else {
            return;
        };
        if !is_going(links, first.connection) {
            self.waiters
                .retain(|waiter| is_going(links, waiter.connection));
        }
    }

    /// Who waits first on a connection that goes on, if somebody does.
    #[tactic(auto, using(crate::proofs::Carried::first_here, crate::proofs::Carried::first_later))]
    pub(crate) fn first_going(&self, links: &BTreeMap<u64, ServerLink>) -> Option<Waiter>
        ensures { result ≡ first_of (on_going (going_in links.now) self.now.waiters.items) }
    {
        for i in 0..self.waiters.len() {
            let waiter = self.waiters[i];
            if is_going(links, waiter.connection) {
                return Some(waiter);
            }
        }
        None
    }
}
