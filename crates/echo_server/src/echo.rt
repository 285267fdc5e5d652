//! The object: it counts its calls, and gives bodies back.

use cdr_core::{Order, Val};
use ft_log::{Outcome, RawStatus};
use ft_objects::{boolean_at, octets_at, ulong_at};
use ft_orb::{Asked, Performer};
use std::alloc::{AllocError, Global};

/// How many calls were performed.
#[derive(Drop)]
pub(crate) struct Echo {
    calls: u64,
}

/// A number as eight octets in a byte order.
fn octets_of(number: u64, is_little: bool) -> [u8; 8] {
    if is_little {
        number.to_le_bytes()
    } else {
        number.to_be_bytes()
    }
}

impl Echo {
    pub(crate) fn new() -> Echo {
        Echo { calls: 0 }
    }

    /// The number of this call, and the body after it.
    fn counted(
        &mut self,
        alloc: Global,
        body: &[u8],
        is_little: bool,
    ) -> Result<Outcome, AllocError> {
        let calls = self.calls.wrapping_add(1);
        let mut octets = Vec::from_slice(alloc, &octets_of(calls, is_little))?;
        octets.extend_from_slice(body)?;
        self.calls = calls;
        let order = if is_little { Order::Little } else { Order::Big };
        Ok(Outcome::Raw(RawStatus::NoException, order, octets))
    }
}

/// Whether octets at a place may be moved to a place divisible by 8, and mean the same there.
fn can_move(arguments: &[Val], body: &[u8]) -> bool {
    body.is_empty() || ulong_at(arguments, 2).is_some_and(|place| place % 8 == 0)
}

impl Performer for Echo {
    ghost use Rattle.std.specs.Prelude.{None};

    ghost answered = { λ _. None };

    /// A body that stands at another place than one divisible by 8 is not given back: the call is given up.
    fn perform(&mut self, alloc: Global, asked: &Asked<'_>) -> Option<Outcome> {
        let body = octets_at(asked.arguments, 0)?;
        let is_little = boolean_at(asked.arguments, 1)?;
        if !can_move(asked.arguments, body) {
            return None;
        }
        self.counted(alloc, body, is_little).ok()
    }
}
