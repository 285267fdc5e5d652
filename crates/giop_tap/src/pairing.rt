//! Which request a message answers or cancels, and which it repeats.

ghost use Rattle.std.specs.Prelude.{◌≡◌, suc, ◌∷◌, [], List, IfOk, OnOk};
ghost use Rattle.giop_core.specs.Lent.{content_of};
ghost use Rattle.giop_tap.specs.Pairing.{Said, unanswered_in};
ghost use Rattle.giop_tap.specs.Remembered.{tie_of};
ghost use Rattle.giop_tap.specs.Tracing.{PairsStand};

use crate::keys::Keyed;
use crate::part::{field_of, part_of};
use crate::sender::Sender;
use crate::waiting::{Waiting, all_numbers, take_part};
use giop_core::Content;
use std::alloc::{AllocError, Global};
use std::collections::BTreeMap;
use std::marker::Model;

/// What a message has to do with earlier ones, by their numbers.
#[derive(Clone, Copy, Debug, PartialEq, Eq)]
pub struct Tie {
    /// The request that it answers or cancels.
    pub request: Option<u64>,
    /// The first request with its key (FT_REQUEST), on this connection or an earlier one, as far as it is remembered.
    pub repeats: Option<u64>,
}

/// The messages of connections so far, as far as later ones have to do with them.
///
/// It keeps how many there were, what the last one had to do with those before it, the requests that wait for an answer
/// by where they wait, and the first request with each key that is remembered. A message costs as many steps as these
/// maps are deep, but that now and then keys are forgotten.
#[derive(Debug, Drop)]
pub(crate) struct Pairs {
    alloc: Global,
    count: u64,
    last: Option<Tie>,
    waiting: Waiting,
    keyed: Keyed,
}

impl Model for Pairs {
    ghost use Rattle.giop_tap.specs.Tracing.{Paired};

    ghost Value = { Paired };

    ghost view = { λ p. record { count = p.count; last = p.last; waiting = p.waiting.entries; keyed = p.keyed } };
}

/// The number after so many messages. (No machine counts so far that there is none.)
fn next_after(count: u64) -> Result<u64, AllocError>
    ensures { IfOk result (λ n. n ≡ suc count) }
{
    match count.checked_add(1) {
        Some(number) => Ok(number),
        None => Err(AllocError),
    }
}

impl Pairs {
    /// No message so far. The keys that are remembered weigh so much at most, twice.
    pub fn new(alloc: Global, keys: u64) -> Pairs
        ensures stands { PairsStand result [] }
        ensures keys { result.keyed.most ≡ keys }
    {
        Pairs {
            alloc,
            count: 0,
            last: None,
            waiting: BTreeMap::new(alloc),
            keyed: Keyed::new(alloc, keys),
        }
    }

    /// How many messages there were.
    pub fn count(&self) -> u64
        ensures { result ≡ self.now.count }
    {
        self.count
    }

    /// What the last message had to do with those before it.
    pub fn last(&self) -> Option<Tie>
        ensures { result ≡ self.now.last }
    {
        self.last
    }

    /// The number of the message at which keys were forgotten first, if some were.
    pub fn forgot(&self) -> Option<u64>
        ensures { result ≡ self.now.keyed.forgot }
    {
        self.keyed.forgot()
    }

    /// The numbers of the requests that no message has answered, in their order.
    pub fn unanswered(&self) -> Result<Vec<u64>, AllocError>
        ensures { (earlier : List Said) → PairsStand self.now earlier → IfOk result (λ v. v.items ≡ unanswered_in earlier) }
    {
        all_numbers(self.alloc, &self.waiting)
    }

    /// Takes the next message, and returns what it has to do with those before it.
    pub fn take(
        &mut self,
        connection: u64,
        sender: Sender,
        content: &Content,
    ) -> Result<Tie, AllocError>
        ensures stands { (earlier : List Said) → PairsStand self.old earlier → OnOk result (PairsStand self.new (record { connection = connection; sender = sender; content = content_of content.now } ∷ earlier)) }
        ensures tie { (earlier : List Said) → PairsStand self.old earlier → IfOk result (λ t. t ≡ tie_of self.old.keyed.most (record { connection = connection; sender = sender; content = content_of content.now }) earlier) }
        ensures keys { self.new.keyed.most ≡ self.old.keyed.most }
    {
        let number = next_after(self.count)?;
        let part = part_of(content);
        let request = take_part(
            self.alloc,
            &mut self.waiting,
            number,
            connection,
            sender,
            part,
        )?;
        let repeats = self.keyed.take(number, field_of(content))?;
        let tie = Tie { request, repeats };
        self.count = number;
        self.last = Some(tie);
        Ok(tie)
    }
}
