//! Write a servant: an object that hands out numbers.

ghost use Rattle.std.specs.Prelude.{◌≡◌, IfOk};
ghost use Rattle.ft_objects.specs.Interfaces.{types_of};
ghost use Rattle.uses.specs.Tickets.{next_types};

use cdr_core::{Ty, Val};
use ft_log::{Completion, Outcome, SystemName};
use ft_objects::{Lookup, Servant, Signature};
use std::alloc::{AllocError, Global};
use std::marker::Model;

/// The object of the key `tickets`, with one operation,
///
/// ```idl
/// unsigned long long next();
/// ```
///
/// which hands out the numbers 1, 2, and so on. Contracts see how many were given.
#[derive(Drop)]
pub struct Tickets {
    next: Signature,
    given: u64,
}

impl Model for Tickets {
    ghost use Rattle.std.specs.Prelude.{◌≡◌, ℕ};
    ghost use Rattle.ft_objects.specs.Interfaces.{types_of};
    ghost use Rattle.uses.specs.Tickets.{next_types};

    ghost Value = { ℕ };

    ghost view = { λ tickets. tickets.given };

    ghost invariant = { λ tickets. types_of tickets.next ≡ next_types };
}

impl Tickets {
    /// Tickets of which none was given.
    pub fn new(alloc: Global) -> Result<Tickets, AllocError>
        ensures { IfOk result (λ tickets. tickets ≡ 0) }
    {
        let next = Signature {
            arguments: Vec::new(alloc),
            results: vec![in alloc; Ty::ULongLong]?,
            raises: Vec::new(alloc),
        };
        Ok(Tickets { next, given: 0 })
    }

    /// How many were given.
    pub fn given(&self) -> u64
        ensures { result ≡ self.now }
    {
        self.given
    }
}

impl Servant for Tickets {
    ghost use Rattle.uses.specs.Tickets.{tickets_meaning};
    ghost use Rattle.uses.specs.facts.Tickets.{tickets_are_servant};

    ghost meaning = { tickets_meaning };

    ghost promises = { tickets_are_servant };

    fn known(&self) {
        let _given = self.given();
    }

    fn interface(&self, object_key: &[u8], operation: &[u8]) -> Lookup<'_> {
        if !self.has_object(object_key) {
            return Lookup::NoObject;
        }
        if operation != b"next".as_slice() {
            return Lookup::NoOperation;
        }
        Lookup::Operation(&self.next)
    }

    fn has_object(&self, object_key: &[u8]) -> bool {
        object_key == b"tickets".as_slice()
    }

    fn perform(
        &mut self,
        alloc: Global,
        _object_key: &[u8],
        _operation: &[u8],
        _arguments: &[Val],
    ) -> Result<Outcome, AllocError> {
        let Some(ticket) = self.given.checked_add(1) else {
            return Ok(Outcome::System(SystemName::ImpLimit, 0, Completion::No));
        };
        let results = vec![in alloc; Val::ULongLong(ticket)]?;
        self.given = ticket;
        Ok(Outcome::Returned(results))
    }
}
