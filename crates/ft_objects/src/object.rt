//! An object of a catalogue.

ghost use Rattle.std.specs.Prelude.{◌≡◌, Some, None, IfErr, IfOk, OnErr, OnOk, bytes_eq, false};
ghost use Rattle.std.specs.List.{list_any};
ghost use Rattle.ft_objects.specs.Adding.{AreAbsent, IsWhyNotHere};
ghost use Rattle.ft_objects.specs.Filling.{AreNoOperations, at, changed, identified, ids_in, is_a_name, is_a_types, is_raw, names_id, non_existent_name, non_existent_types, offered_by, offered_in, offered_with, texts};
ghost use Rattle.ft_objects.specs.Interfaces.{interface_of, no_operation, operation};

use crate::error::InterfacesError;
use crate::keyed::{put, take};
use crate::signature::{Lookup, Signature};
use crate::typed::Typed;
use cdr_core::Ty;
use std::alloc::{AllocError, Global};
use std::collections::BTreeMap;

/// The name of the operation that asks whether an object has an interface (CORBA 3.3 Part 1, 8.3).
const IS_A: &[u8] = b"_is_a";

/// The name of the operation that asks whether an object is gone (CORBA 3.3 Part 1, 8.3).
const NON_EXISTENT: &[u8] = b"_non_existent";

/// The repository id of what each object is (CORBA 3.3 Part 1, 8.3).
const OBJECT: &[u8] = b"IDL:omg.org/CORBA/Object:1.0";

/// An operation that is on offer.
#[derive(Drop)]
pub(crate) enum Offered {
    Typed(Typed),
    Checked(Typed),
    Raw,
}

/// The operations of an object by name, and the repository ids that it names, if it names any.
#[derive(Drop)]
pub(crate) struct Operations {
    by_name: BTreeMap<Vec<u8>, Offered>,
    ids: Option<Vec<Vec<u8>>>,
}

/// An object that is on offer.
#[derive(Drop)]
pub(crate) enum Object {
    /// Its every operation is raw.
    Raw,
    Named(Operations),
}

/// `_is_a`: from a repository id to a boolean.
fn is_a(alloc: Global) -> Result<Offered, AllocError>
    ensures { IfOk result (λ o. offered_in (Some o) ≡ operation is_a_types) }
{
    let signature = Signature {
        arguments: vec![in alloc; Ty::Str(u32::MAX)]?,
        results: vec![in alloc; Ty::Boolean]?,
        raises: Vec::new(alloc),
    };
    Ok(Offered::Typed(Typed { signature }))
}

/// `_non_existent`: to a boolean.
fn non_existent(alloc: Global) -> Result<Offered, AllocError>
    ensures { IfOk result (λ o. offered_in (Some o) ≡ operation non_existent_types) }
{
    let signature = Signature {
        arguments: Vec::new(alloc),
        results: vec![in alloc; Ty::Boolean]?,
        raises: Vec::new(alloc),
    };
    Ok(Offered::Typed(Typed { signature }))
}

/// Whether an id is one of these.
fn is_among(id: &[u8], ids: &[Vec<u8>]) -> bool
    ensures { result ≡ list_any (λ own. bytes_eq own.items id.now) ids.now }
{
    ids.iter().any(|own| own.as_slice() == id)
}

impl Operations {
    /// Adds the two operations, and names the repository ids.
    fn identify(&mut self, alloc: Global, ids: Vec<Vec<u8>>) -> Result<(), InterfacesError>
        ensures free { OnOk result (AreAbsent (at self.old.by_name)) }
        ensures ok { OnOk result (offered_with self.new ≡ identified (offered_with self.old)) }
        ensures ids { OnOk result (self.new.ids ≡ Some ids) }
        ensures why { IfErr result (λ e. IsWhyNotHere false (AreAbsent (at self.old.by_name)) e) }
        ensures err { OnErr result (at self.new.by_name ≡ at self.old.by_name) }
        ensures kept { OnErr result (self.new.ids ≡ self.old.ids) }
    {
        if self.by_name.contains_key(IS_A) || self.by_name.contains_key(NON_EXISTENT) {
            return Err(InterfacesError::Taken);
        }
        let Ok(is_a) = is_a(alloc) else {
            return Err(InterfacesError::Memory);
        };
        let Ok(non_existent) = non_existent(alloc) else {
            return Err(InterfacesError::Memory);
        };
        put(alloc, &mut self.by_name, IS_A, is_a)?;
        if let Err(error) = put(alloc, &mut self.by_name, NON_EXISTENT, non_existent) {
            take(&mut self.by_name, IS_A);
            return Err(error);
        }
        self.ids = Some(ids);
        Ok(())
    }
}

impl Object {
    /// An object without operations.
    pub(crate) fn new(alloc: Global) -> Object
        ensures operations { offered_by result ≡ (λ name. no_operation) }
        ensures raw { is_raw result ≡ false }
        ensures ids { ids_in result ≡ None }
    {
        Object::Named(Operations {
            by_name: BTreeMap::new(alloc),
            ids: None,
        })
    }

    /// What a name leads to.
    pub(crate) fn lookup(&self, name: &[u8]) -> Lookup<'_>
        ensures { interface_of result ≡ offered_by self.now name.now }
    {
        let Object::Named(operations) = self else {
            return Lookup::Raw;
        };
        match operations.by_name.get(name) {
            Some(Offered::Typed(typed)) => Lookup::Operation(&typed.signature),
            Some(Offered::Checked(typed)) => Lookup::Checked(&typed.signature),
            Some(Offered::Raw) => Lookup::Raw,
            None => Lookup::NoOperation,
        }
    }

    /// Whether the object names a repository id.
    pub(crate) fn is_a(&self, id: &[u8]) -> bool
        ensures { result ≡ names_id (ids_in self.now) id.now }
    {
        let Object::Named(operations) = self else {
            return false;
        };
        match &operations.ids {
            Some(ids) => id == OBJECT || is_among(id, ids),
            None => false,
        }
    }

    /// Adds an operation.
    pub(crate) fn add(
        &mut self,
        alloc: Global,
        name: &[u8],
        operation: Offered,
    ) -> Result<(), InterfacesError>
        ensures takes { OnOk result (is_raw self.old ≡ false) }
        ensures free { OnOk result (offered_by self.old name.now ≡ no_operation) }
        ensures ok { OnOk result (offered_by self.new ≡ changed name.now (offered_in (Some operation)) (offered_by self.old)) }
        ensures why { IfErr result (λ e. IsWhyNotHere (is_raw self.old) (offered_by self.old name.now ≡ no_operation) e) }
        ensures err { OnErr result (offered_by self.new ≡ offered_by self.old) }
        ensures raw { is_raw self.new ≡ is_raw self.old }
        ensures ids { ids_in self.new ≡ ids_in self.old }
    {
        match self {
            Object::Raw => Err(InterfacesError::RawObject),
            Object::Named(operations) => put(alloc, &mut operations.by_name, name, operation),
        }
    }

    /// Adds the two operations, and names the repository ids.
    pub(crate) fn identify(
        &mut self,
        alloc: Global,
        ids: Vec<Vec<u8>>,
    ) -> Result<(), InterfacesError>
        ensures takes { OnOk result (is_raw self.old ≡ false) }
        ensures free { OnOk result (AreNoOperations (offered_by self.old)) }
        ensures ok { OnOk result (offered_by self.new ≡ identified (offered_by self.old)) }
        ensures named { OnOk result (ids_in self.new ≡ Some (texts ids)) }
        ensures why { IfErr result (λ e. IsWhyNotHere (is_raw self.old) (AreNoOperations (offered_by self.old)) e) }
        ensures err { OnErr result (offered_by self.new ≡ offered_by self.old) }
        ensures raw { is_raw self.new ≡ is_raw self.old }
        ensures kept { OnErr result (ids_in self.new ≡ ids_in self.old) }
    {
        match self {
            Object::Raw => Err(InterfacesError::RawObject),
            Object::Named(operations) => operations.identify(alloc, ids),
        }
    }
}
