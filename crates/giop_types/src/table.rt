//! A table of types, and what it tells of bodies.

ghost use Rattle.std.specs.Prelude.{◌≡◌, ◌<◌, ◌^◌, ℕ, List, [], None, drop, map, IfOk};
ghost use Rattle.giop_types.specs.Tables.{IsTold, Tells, arguments_of, exception_of, operations_of, raised_of, results_of, side_of};

use crate::fault::TypesError;
use crate::fit::Fit;
use crate::operations::{Operation, Part};
use crate::reader::table_in;
use crate::signature::Signature;
use cdr_core::Val;
use giop_core::Body;
use std::alloc::{AllocError, Global};
use std::collections::BTreeMap;

/// What a table tells of a body.
#[derive(Drop)]
pub enum Told<'t> {
    /// It has no types for it.
    Unknown,
    /// Its types are not those of the body.
    Unfit,
    /// The first types whose values the body has, and these.
    Fits(Fit<'t>),
}

/// A table of types: those of operations by their names, and of exceptions by their repository ids.
#[derive(Drop)]
pub struct Table {
    alloc: Global,
    operations: BTreeMap<Vec<u8>, Vec<Operation>>,
    exceptions: BTreeMap<Vec<u8>, Signature>,
}

impl Table {
    /// One of no types.
    pub fn none(alloc: Global) -> Table
        ensures { (name : List ℕ) → (operations_of result name ≡ []) × (exception_of result name ≡ None) }
    {
        Table {
            alloc,
            operations: BTreeMap::new(alloc),
            exceptions: BTreeMap::new(alloc),
        }
    }

    /// The table in a text, and the operations of all objects. (Which types its lines are, and which lines are refused, is
    /// tested.)
    pub fn read(alloc: Global, text: &[u8]) -> Result<Table, TypesError> {
        table_in(alloc, text)
    }

    /// Adds an operation behind those of its name.
    pub(crate) fn add(&mut self, name: Vec<u8>, operation: Operation) -> Result<(), AllocError> {
        if let Some(known) = self.operations.get_mut(name.as_slice()) {
            return Ok(known.push(operation)?);
        }
        let mut known = Vec::new(self.alloc);
        known.push(operation)?;
        self.operations.insert(name, known)?;
        Ok(())
    }

    /// Adds an exception. False: one of its repository id is there.
    pub(crate) fn add_exception(
        &mut self,
        id: &[u8],
        signature: Signature,
    ) -> Result<bool, AllocError> {
        if self.exceptions.contains_key(id) {
            return Ok(false);
        }
        let id = Vec::from_slice(self.alloc, id)?;
        self.exceptions.insert(id, signature)?;
        Ok(true)
    }

    /// The operations of a name.
    fn known(&self, operation: &[u8]) -> &[Operation]
        ensures { result.now ≡ operations_of self.now operation.now }
    {
        match self.operations.get(operation) {
            Some(known) => known,
            None => &[],
        }
    }

    /// What the body of a request for an operation tells.
    pub fn arguments(&self, operation: &[u8], body: &Body) -> Result<Told<'_>, AllocError>
        ensures { body.now.at < 2 ^ 32 → IfOk result (λ told. IsTold (arguments_of self.now operation.now) body.now told) }
    {
        told_by(self.alloc, self.known(operation), Part::Arguments, body)
    }

    /// What the body of a reply tells, whose request was for an operation, and which no exception is. So many operations of
    /// that name count for none, since their arguments are not those of the request.
    pub fn results(
        &self,
        operation: &[u8],
        others: usize,
        body: &Body,
    ) -> Result<Told<'_>, AllocError>
        ensures { body.now.at < 2 ^ 32 → IfOk result (λ told. IsTold (drop others (results_of self.now operation.now)) body.now told) }
    {
        let known = self.known(operation);
        let (_, known) = known.split_at(others.min(known.len()));
        told_by(self.alloc, known, Part::Results, body)
    }

    /// What the body of a reply tells that is a user exception of this repository id.
    pub fn raised(&self, id: &[u8], body: &Body) -> Result<Told<'_>, AllocError>
        ensures { body.now.at < 2 ^ 32 → IfOk result (λ told. IsTold (raised_of self.now id.now) body.now told) }
    {
        let Some(signature) = self.exceptions.get(id) else {
            return Ok(Told::Unknown);
        };
        match values_of(self.alloc, signature, body)? {
            Some(values) => Ok(Told::Fits(Fit {
                place: 0,
                signature,
                values,
            })),
            None => Ok(Told::Unfit),
        }
    }
}

/// What a body tells by a side of the first of operations that it fits.
fn told_by<'t>(
    alloc: Global,
    known: &'t [Operation],
    part: Part,
    body: &Body,
) -> Result<Told<'t>, AllocError>
    ensures { body.now.at < 2 ^ 32 → IfOk result (λ told. IsTold (map (side_of part) known.now) body.now told) }
{
    if known.is_empty() {
        return Ok(Told::Unknown);
    }
    for (place, operation) in known.iter().enumerate() {
        let signature = operation.side(part);
        if let Some(values) = values_of(alloc, signature, body)? {
            return Ok(Told::Fits(Fit {
                place,
                signature,
                values,
            }));
        }
    }
    Ok(Told::Unfit)
}

/// The values of a signature that a body has from its first octet to its last.
fn values_of(
    alloc: Global,
    signature: &Signature,
    body: &Body,
) -> Result<Option<Vec<Val>>, AllocError>
    ensures { body.now.at < 2 ^ 32 → IfOk result (λ values. Tells signature.now body.now values) }
{
    match u32::try_from(body.at) {
        Ok(at) => signature.values_in(alloc, body.order, u64::from(at), body.octets),
        Err(_) => Ok(None),
    }
}
