//! Write a servant with an argument and an exception: an account that is never overdrawn.

ghost use Rattle.std.specs.Prelude.{◌≡◌, pos, IfOk, OnErr};
ghost use Rattle.ft_log.specs.View.{performed_in};
ghost use Rattle.ft_objects.specs.Interfaces.{types_of};
ghost use Rattle.uses.specs.Saving.{balance_types, deposit_types, deposited, tells};

use cdr_core::{Ty, Val};
use ft_log::{Completion, Outcome, SystemName};
use ft_objects::{Lookup, Servant, Signature, longlong_at};
use std::alloc::{AllocError, Global};
use std::marker::Model;

/// The repository id of `Overdrawn`.
const OVERDRAWN: &[u8] = b"IDL:Savings/Overdrawn:1.0";

/// The object of the key `savings`,
///
/// ```idl
/// interface Savings {
///   exception Overdrawn { long long balance; };
///   long long deposit(in long long cents) raises (Overdrawn);
///   long long balance();
/// };
/// ```
///
/// which is one account. A deposit may be negative: where the balance would be below 0 or no long long nothing is
/// done, and `Overdrawn` reports the balance. Contracts see the balance, in cents.
#[derive(Drop)]
pub struct Savings {
    deposit: Signature,
    balance: Signature,
    cents: i64,
}

impl Model for Savings {
    ghost use Rattle.std.specs.Prelude.{◌≡◌, ℤ};
    ghost use Rattle.ft_objects.specs.Interfaces.{types_of};
    ghost use Rattle.uses.specs.Saving.{balance_types, deposit_types};

    ghost Value = { ℤ };

    ghost view = { λ savings. savings.cents };

    ghost invariant = { λ savings. (types_of savings.deposit ≡ deposit_types) × (types_of savings.balance ≡ balance_types) };
}

/// The types of `deposit`.
fn deposit_signature(alloc: Global) -> Result<Signature, AllocError>
    ensures { IfOk result (λ types. types_of types ≡ deposit_types) }
{
    let id = Vec::from_slice(alloc, OVERDRAWN)?;
    let members = vec![in alloc; Ty::LongLong]?;
    Ok(Signature {
        arguments: vec![in alloc; Ty::LongLong]?,
        results: vec![in alloc; Ty::LongLong]?,
        raises: vec![in alloc; (id, members)]?,
    })
}

/// The types of `balance`.
fn balance_signature(alloc: Global) -> Result<Signature, AllocError>
    ensures { IfOk result (λ types. types_of types ≡ balance_types) }
{
    Ok(Signature {
        arguments: Vec::new(alloc),
        results: vec![in alloc; Ty::LongLong]?,
        raises: Vec::new(alloc),
    })
}

/// The outcome that returns a balance.
fn telling(alloc: Global, cents: i64) -> Result<Outcome, AllocError>
    ensures { IfOk result (λ outcome. performed_in outcome ≡ tells cents) }
{
    Ok(Outcome::Returned(vec![in alloc; Val::LongLong(cents)]?))
}

impl Savings {
    /// An account to which nothing was paid.
    pub fn new(alloc: Global) -> Result<Savings, AllocError>
        ensures { IfOk result (λ savings. savings ≡ pos 0) }
    {
        Ok(Savings {
            deposit: deposit_signature(alloc)?,
            balance: balance_signature(alloc)?,
            cents: 0,
        })
    }

    /// The balance, in cents.
    pub fn balance(&self) -> i64
        ensures { result ≡ self.now }
    {
        self.cents
    }

    /// Adds to the balance, unless the sum is below 0 or no long long.
    fn deposit(&mut self, alloc: Global, cents: i64) -> Result<Outcome, AllocError>
        ensures ok { IfOk result (λ outcome. deposited self.old cents ≡ (self.new, performed_in outcome)) }
        ensures err { OnErr result (self.new ≡ self.old) }
    {
        let balance = &mut self.cents;
        let sum = match balance.checked_add(cents) {
            Some(sum) if sum >= 0 => sum,
            _ => {
                let id = Vec::from_slice(alloc, OVERDRAWN)?;
                let members = vec![in alloc; Val::LongLong(*balance)]?;
                return Ok(Outcome::Raised(id, members));
            }
        };
        let outcome = telling(alloc, sum)?;
        *balance = sum;
        Ok(outcome)
    }
}

impl Servant for Savings {
    ghost use Rattle.uses.specs.Saving.{savings_meaning};
    ghost use Rattle.uses.specs.facts.Saving.{savings_are_servant};

    ghost meaning = { savings_meaning };

    ghost promises = { savings_are_servant };

    fn known(&self) {
        let _balance = self.balance();
    }

    fn interface(&self, object_key: &[u8], operation: &[u8]) -> Lookup<'_> {
        if !self.has_object(object_key) {
            return Lookup::NoObject;
        }
        if operation == b"deposit".as_slice() {
            return Lookup::Operation(&self.deposit);
        }
        if operation == b"balance".as_slice() {
            return Lookup::Operation(&self.balance);
        }
        Lookup::NoOperation
    }

    fn has_object(&self, object_key: &[u8]) -> bool {
        object_key == b"savings".as_slice()
    }

    fn perform(
        &mut self,
        alloc: Global,
        _object_key: &[u8],
        operation: &[u8],
        arguments: &[Val],
    ) -> Result<Outcome, AllocError> {
        if operation == b"balance".as_slice() {
            return telling(alloc, self.cents);
        }
        match longlong_at(arguments, 0) {
            Some(cents) => self.deposit(alloc, cents),
            None => Ok(Outcome::System(SystemName::BadOperation, 0, Completion::No)),
        }
    }
}
