//! Write a servant with an invariant and a sequence: a ledger whose total is never below 0.

ghost use Rattle.std.specs.Prelude.{◌≡◌, [], map, IfOk, IsTrue, OnErr};
ghost use Rattle.cdr_core.specs.Parts.{longlong_value};
ghost use Rattle.cdr_core.specs.View.{value_of};
ghost use Rattle.ft_log.specs.View.{performed_in};
ghost use Rattle.ft_objects.specs.Interfaces.{types_of};
ghost use Rattle.uses.specs.Ledger.{entries_types, is_ledger, lists, post_types, posted, refuses, settled, tells, total_types};

use cdr_core::{Ty, Val};
use ft_log::{Completion, Outcome, SystemName};
use ft_objects::{Lookup, Servant, Signature, longlong_at};
use std::alloc::{AllocError, Global};
use std::marker::Model;

/// The repository id of `Refused`.
const REFUSED: &[u8] = b"IDL:Ledger/Refused:1.0";

/// How many entries there can be.
const MOST: usize = 1000;

/// The object of the key `ledger`,
///
/// ```idl
/// interface Ledger {
///   typedef sequence<long long, 1000> Entries;
///   exception Refused { long long total; };
///   long long post(in long long cents) raises (Refused);
///   long long settle();
///   Entries entries();
///   long long total();
/// };
/// ```
///
/// which is one account with its entries. `post` adds an entry, and gives the new total; where there are 1000 or the
/// total would be below 0 or no long long nothing is done, and `Refused` reports the total. `settle` puts one entry,
/// their total, in the place of all. Contracts see the entries, in cents.
#[derive(Drop)]
pub struct Ledger {
    post: Signature,
    listing: Signature,
    telling: Signature,
    entries: Vec<i64>,
    total: i64,
}

impl Model for Ledger {
    ghost use Rattle.std.specs.Prelude.{◌≡◌, ℤ, List, IsTrue};
    ghost use Rattle.ft_objects.specs.Interfaces.{types_of};
    ghost use Rattle.uses.specs.Ledger.{entries_types, is_ledger, post_types, total_of, total_types};

    ghost Value = { List ℤ };

    ghost view = { λ ledger. ledger.entries.items };

    ghost invariant = { λ ledger. (types_of ledger.post ≡ post_types) × (types_of ledger.listing ≡ entries_types) × (types_of ledger.telling ≡ total_types) × (ledger.total ≡ total_of ledger.entries.items) × IsTrue (is_ledger ledger.entries.items) };
}

/// The types of `post`.
fn post_signature(alloc: Global) -> Result<Signature, AllocError>
    ensures { IfOk result (λ types. types_of types ≡ post_types) }
{
    let id = Vec::from_slice(alloc, REFUSED)?;
    let members = vec![in alloc; Ty::LongLong]?;
    Ok(Signature {
        arguments: vec![in alloc; Ty::LongLong]?,
        results: vec![in alloc; Ty::LongLong]?,
        raises: vec![in alloc; (id, members)]?,
    })
}

/// The types of `entries`.
fn entries_signature(alloc: Global) -> Result<Signature, AllocError>
    ensures { IfOk result (λ types. types_of types ≡ entries_types) }
{
    let entry = Box::new(alloc, Ty::LongLong)?;
    Ok(Signature {
        arguments: Vec::new(alloc),
        results: vec![in alloc; Ty::Seq(1000, entry)]?,
        raises: Vec::new(alloc),
    })
}

/// The types of `total` and of `settle`.
fn total_signature(alloc: Global) -> Result<Signature, AllocError>
    ensures { IfOk result (λ types. types_of types ≡ total_types) }
{
    Ok(Signature {
        arguments: Vec::new(alloc),
        results: vec![in alloc; Ty::LongLong]?,
        raises: Vec::new(alloc),
    })
}

/// The outcome that returns a total.
fn telling(alloc: Global, total: i64) -> Result<Outcome, AllocError>
    ensures { IfOk result (λ outcome. performed_in outcome ≡ tells total) }
{
    Ok(Outcome::Returned(vec![in alloc; Val::LongLong(total)]?))
}

/// The outcome that raises `Refused`.
fn refusing(alloc: Global, total: i64) -> Result<Outcome, AllocError>
    ensures { IfOk result (λ outcome. performed_in outcome ≡ refuses total) }
{
    let id = Vec::from_slice(alloc, REFUSED)?;
    let members = vec![in alloc; Val::LongLong(total)]?;
    Ok(Outcome::Raised(id, members))
}

/// Entries as values, one after another.
fn entry_values(alloc: Global, entries: &[i64]) -> Result<Vec<Val>, AllocError>
    ensures { IfOk result (λ values. map value_of values.items ≡ map longlong_value entries.now) }
{
    let mut values = Vec::with_capacity(alloc, entries.len())?;
    for cents in entries {
        values.push(Val::LongLong(*cents))?;
    }
    Ok(values)
}

/// The outcome that returns entries.
fn listing(alloc: Global, entries: &[i64]) -> Result<Outcome, AllocError>
    ensures { IfOk result (λ outcome. performed_in outcome ≡ lists entries.now) }
{
    let all = Val::Seq(entry_values(alloc, entries)?);
    Ok(Outcome::Returned(vec![in alloc; all]?))
}

impl Ledger {
    /// A ledger without an entry.
    pub fn new(alloc: Global) -> Result<Ledger, AllocError>
        ensures { IfOk result (λ ledger. ledger ≡ []) }
    {
        Ok(Ledger {
            post: post_signature(alloc)?,
            listing: entries_signature(alloc)?,
            telling: total_signature(alloc)?,
            entries: Vec::new(alloc),
            total: 0,
        })
    }

    /// The entries, the first one first.
    pub fn entries(&self) -> &[i64]
        ensures { result.now ≡ self.now }
    {
        &self.entries
    }

    /// The entries are those of a ledger.
    fn hold(&self)
        ensures { IsTrue (is_ledger self.now) }
    {
        let _total = self.total;
    }

    /// Adds an entry, unless there are 1000 or the total would be below 0 or no long long.
    fn post(&mut self, alloc: Global, cents: i64) -> Result<Outcome, AllocError>
        ensures ok { IfOk result (λ outcome. posted self.old cents ≡ (self.new, performed_in outcome)) }
        ensures err { OnErr result (self.new ≡ self.old) }
    {
        let total = match self.total.checked_add(cents) {
            Some(total) if total >= 0 && self.entries.len() < MOST => total,
            _ => return refusing(alloc, self.total),
        };
        let outcome = telling(alloc, total)?;
        self.entries.push(cents)?;
        self.total = total;
        Ok(outcome)
    }

    /// Puts one entry, the total, in the place of all.
    fn settle(&mut self, alloc: Global) -> Result<Outcome, AllocError>
        ensures ok { IfOk result (λ outcome. settled self.old ≡ (self.new, performed_in outcome)) }
        ensures err { OnErr result (self.new ≡ self.old) }
    {
        let outcome = telling(alloc, self.total)?;
        self.entries = vec![in alloc; self.total]?;
        Ok(outcome)
    }
}

impl Servant for Ledger {
    ghost use Rattle.uses.specs.Ledger.{ledger_meaning};
    ghost use Rattle.uses.specs.facts.Ledger.{ledger_is_servant};

    ghost meaning = { ledger_meaning };

    ghost promises = { ledger_is_servant };

    fn known(&self) {
        self.hold();
    }

    fn interface(&self, object_key: &[u8], operation: &[u8]) -> Lookup<'_> {
        if !self.has_object(object_key) {
            return Lookup::NoObject;
        }
        if operation == b"post".as_slice() {
            return Lookup::Operation(&self.post);
        }
        if operation == b"settle".as_slice() || operation == b"total".as_slice() {
            return Lookup::Operation(&self.telling);
        }
        if operation == b"entries".as_slice() {
            return Lookup::Operation(&self.listing);
        }
        Lookup::NoOperation
    }

    fn has_object(&self, object_key: &[u8]) -> bool {
        object_key == b"ledger".as_slice()
    }

    fn perform(
        &mut self,
        alloc: Global,
        _object_key: &[u8],
        operation: &[u8],
        arguments: &[Val],
    ) -> Result<Outcome, AllocError> {
        if operation == b"settle".as_slice() {
            return self.settle(alloc);
        }
        if operation == b"entries".as_slice() {
            return listing(alloc, &self.entries);
        }
        if operation == b"total".as_slice() {
            return telling(alloc, self.total);
        }
        if operation == b"post".as_slice()
            && let Some(cents) = longlong_at(arguments, 0)
        {
            return self.post(alloc, cents);
        }
        Ok(Outcome::System(SystemName::BadOperation, 0, Completion::No))
    }
}
