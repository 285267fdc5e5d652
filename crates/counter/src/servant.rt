//! The counter: an object that counts.

ghost use Rattle.std.specs.Prelude.{◌≡◌, IfOk, OnErr};
ghost use Rattle.counter.specs.Counter.{add_types, get_types, sum_of, tells};
ghost use Rattle.ft_objects.specs.Interfaces.{types_of};
ghost use Rattle.ft_log.specs.View.{performed_in};

use cdr_core::{Ty, Val};
use ft_log::{Completion, Outcome, SystemName};
use ft_objects::{Lookup, Servant, Signature, long_at};
use std::alloc::{AllocError, Global};
use std::marker::Model;

/// The repository id of the exception that an addition raises where its sum is no long long.
const OVERFLOW: &[u8] = b"IDL:Counter/Overflow:1.0";

/// An object that counts, and whose object key is the one octet `c`. Contracts see its total.
///
/// `add` takes a long and returns the new total, a long long; where that would leave the range of a long
/// long it changes nothing and raises `IDL:Counter/Overflow:1.0`, which has no members. `get` returns the
/// total.
#[derive(Drop)]
pub struct Counter {
    add: Signature,
    get: Signature,
    total: i64,
}

impl Model for Counter {
    ghost use Rattle.std.specs.Prelude.{◌≡◌, ℤ};
    ghost use Rattle.counter.specs.Counter.{add_types, get_types};
    ghost use Rattle.ft_objects.specs.Interfaces.{types_of};

    ghost Value = { ℤ };

    ghost view = { λ c. c.total };

    ghost invariant = { λ c. (types_of c.add ≡ add_types) × (types_of c.get ≡ get_types) };
}

/// The types of `add`.
fn add_signature(alloc: Global) -> Result<Signature, AllocError>
    ensures { IfOk result (λ s. types_of s ≡ add_types) }
{
    let overflow = Vec::from_slice(alloc, OVERFLOW)?;
    Ok(Signature {
        arguments: vec![in alloc; Ty::Long]?,
        results: vec![in alloc; Ty::LongLong]?,
        raises: vec![in alloc; (overflow, Vec::new(alloc))]?,
    })
}

/// The types of `get`.
fn get_signature(alloc: Global) -> Result<Signature, AllocError>
    ensures { IfOk result (λ s. types_of s ≡ get_types) }
{
    Ok(Signature {
        arguments: Vec::new(alloc),
        results: vec![in alloc; Ty::LongLong]?,
        raises: Vec::new(alloc),
    })
}

/// The outcome that returns a total.
fn telling(total: i64) -> Outcome
    ensures { performed_in result ≡ tells total }
{
    Outcome::One(Val::LongLong(total))
}

impl Counter {
    /// A counter whose total is `start`.
    pub fn new(alloc: Global, start: i64) -> Result<Counter, AllocError>
        ensures { IfOk result (λ counter. counter ≡ start) }
    {
        Ok(Counter {
            add: add_signature(alloc)?,
            get: get_signature(alloc)?,
            total: start,
        })
    }

    /// The total.
    pub fn total(&self) -> i64
        ensures { result ≡ self.now }
    {
        self.total
    }

    /// Adds a number to the total, unless the sum is no long long.
    fn add(&mut self, alloc: Global, n: i32) -> Result<Outcome, AllocError>
        ensures ok { IfOk result (λ outcome. sum_of self.old n ≡ (self.new, performed_in outcome)) }
        ensures err { OnErr result (self.new ≡ self.old) }
    {
        let total = &mut self.total;
        let Some(sum) = total.checked_add(i64::from(n)) else {
            let id = Vec::from_slice(alloc, OVERFLOW)?;
            return Ok(Outcome::Raised(id, Vec::new(alloc)));
        };
        *total = sum;
        Ok(telling(sum))
    }
}

impl Servant for Counter {
    ghost use Rattle.counter.specs.Counter.{counter_meaning};
    ghost use Rattle.counter.specs.facts.Counter.{counter_is_servant};

    ghost meaning = { counter_meaning };

    ghost promises = { counter_is_servant };

    fn known(&self) {
        let _total = self.total();
    }

    fn interface(&self, object_key: &[u8], operation: &[u8]) -> Lookup<'_> {
        if !self.has_object(object_key) {
            return Lookup::NoObject;
        }
        if operation == b"add".as_slice() {
            return Lookup::Operation(&self.add);
        }
        if operation == b"get".as_slice() {
            return Lookup::Operation(&self.get);
        }
        Lookup::NoOperation
    }

    fn has_object(&self, object_key: &[u8]) -> bool {
        object_key == b"c".as_slice()
    }

    fn perform(
        &mut self,
        alloc: Global,
        _object_key: &[u8],
        operation: &[u8],
        arguments: &[Val],
    ) -> Result<Outcome, AllocError> {
        if operation == b"get".as_slice() {
            return Ok(telling(self.total));
        }
        match long_at(arguments, 0) {
            Some(n) => self.add(alloc, n),
            None => Ok(Outcome::System(SystemName::BadOperation, 0, Completion::No)),
        }
    }
}
