//! A catalogue as data, which its owner fills in call by call.

ghost use Rattle.std.specs.Prelude.{◌≡◌, ◌↔◌, IfErr, IsTrue, OnErr, OnOk, Some, None, false, map, option_copied, true};
ghost use Rattle.ft_objects.specs.Adding.{longer_front};
ghost use Rattle.cdr_core.specs.Spelling.{IsClean};
ghost use Rattle.ft_objects.specs.Interfaces.{checked_operation, operation, raw_operation, types_of};
ghost use Rattle.ft_objects.specs.Filling.{AreClean};

use crate::catalogue::Catalogue;
use crate::error::InterfacesError;
use crate::keyed::{put, take};
use crate::object::{Object, Offered};
use crate::signature::{Lookup, Signature};
use crate::typed::Typed;
use cdr_core::has_no_nul;
use std::alloc::Global;
use std::collections::BTreeMap;

/// Objects by their keys. Each has operations by name, or is raw as a whole: then its every operation is raw.
///
/// A contract sees what is on offer (`offer_of`), which objects are raw as a whole (`raw_objects`), and the
/// repository ids that an object names, if it names any (`ids_of`). On an error nothing has changed.
#[derive(Drop)]
pub struct Interfaces {
    alloc: Global,
    objects: BTreeMap<Vec<u8>, Object>,
}

/// Whether no id has a NUL.
fn are_clean(ids: &[Vec<u8>]) -> bool
    ensures { IsTrue result ↔ AreClean (map (λ id. id.items) ids.now) }
{
    for id in ids {
        if !has_no_nul(id) {
            return false;
        }
    }
    true
}

/// The longer of two fronts of a key: the one so far, if there is one, and this key, if it is one.
fn longer<'a>(key: &[u8], front: Option<&'a [u8]>, own: &'a [u8]) -> Option<&'a [u8]>
    ensures { option_copied result ≡ longer_front key.now (option_copied front.entry) own.now }
{
    let is_longer = match front {
        Some(front) => front.len() < own.len(),
        None => true,
    };
    if is_longer && key.starts_with(own) {
        Some(own)
    } else {
        front
    }
}

impl Interfaces {
    ghost use Rattle.ft_objects.specs.Filling.{AreClean, AreNoOperations, CanBeAdded, IsFree, IsNotValidOr, IsWhyNoObject, IsWhyNothing, OffersSame, TakesOperations, changed, ids_of, names_id, nothing, offer_of, offered_in, raw_objects, texts, with_identity, with_object, with_operation, with_raw_object, without_object};
    ghost use Rattle.ft_objects.specs.Families.{family};

    /// A catalogue without objects. It takes no memory.
    pub fn new(alloc: Global) -> Interfaces
        ensures offer { offer_of result ≡ nothing }
        ensures raw { raw_objects result ≡ (λ key. false) }
        ensures ids { ids_of result ≡ (λ key. None) }
    {
        Interfaces {
            alloc,
            objects: BTreeMap::new(alloc),
        }
    }

    /// Whether there are no objects.
    pub fn is_empty(&self) -> bool
        ensures { IsTrue result ↔ (offer_of self.now ≡ nothing) }
    {
        self.objects.is_empty()
    }

    /// Adds an object without operations.
    pub fn add_object(&mut self, key: &[u8]) -> Result<(), InterfacesError>
        ensures free { OnOk result ((offer_of self.old).knows key.now ≡ false) }
        ensures ok { OnOk result (offer_of self.new ≡ with_object key.now (offer_of self.old)) }
        ensures why { IfErr result (λ e. IsWhyNoObject (offer_of self.old) key.now e) }
        ensures err { OnErr result (offer_of self.new ≡ offer_of self.old) }
        ensures raw { raw_objects self.new ≡ raw_objects self.old }
        ensures ids { ids_of self.new ≡ ids_of self.old }
    {
        let object = Object::new(self.alloc);
        put(self.alloc, &mut self.objects, key, object)
    }

    /// Adds an object whose every operation is raw.
    pub fn add_raw_object(&mut self, key: &[u8]) -> Result<(), InterfacesError>
        ensures free { OnOk result ((offer_of self.old).knows key.now ≡ false) }
        ensures ok { OnOk result (offer_of self.new ≡ with_raw_object key.now (offer_of self.old)) }
        ensures raw { OnOk result (raw_objects self.new ≡ changed key.now true (raw_objects self.old)) }
        ensures why { IfErr result (λ e. IsWhyNoObject (offer_of self.old) key.now e) }
        ensures err { OnErr result (offer_of self.new ≡ offer_of self.old) }
        ensures raw_err { OnErr result (raw_objects self.new ≡ raw_objects self.old) }
        ensures ids { ids_of self.new ≡ ids_of self.old }
    {
        put(self.alloc, &mut self.objects, key, Object::Raw)
    }

    /// Adds an operation to the object under the key.
    fn add(&mut self, key: &[u8], name: &[u8], operation: Offered) -> Result<(), InterfacesError>
        ensures can { OnOk result (IsClean name.now) }
        ensures takes { OnOk result (TakesOperations (offer_of self.old) (raw_objects self.old) key.now) }
        ensures free { OnOk result (IsFree (offer_of self.old) key.now name.now) }
        ensures ok { OnOk result (offer_of self.new ≡ with_operation key.now name.now (offered_in (Some operation)) (offer_of self.old)) }
        ensures why { IfErr result (λ e. IsNotValidOr (IsClean name.now) (IsWhyNothing (offer_of self.old) (raw_objects self.old) key.now (IsFree (offer_of self.old) key.now name.now)) e) }
        ensures err { OnErr result (offer_of self.new ≡ offer_of self.old) }
        ensures raw { raw_objects self.new ≡ raw_objects self.old }
        ensures ids { ids_of self.new ≡ ids_of self.old }
    {
        if !has_no_nul(name) {
            return Err(InterfacesError::NotValid);
        }
        match self.objects.get_mut(key) {
            Some(object) => object.add(self.alloc, name, operation),
            None => Err(InterfacesError::NoObject),
        }
    }

    /// Adds an operation with the types of its arguments, its results and its exceptions.
    pub fn add_operation(
        &mut self,
        key: &[u8],
        name: &[u8],
        signature: Signature,
    ) -> Result<(), InterfacesError>
        ensures can { OnOk result (CanBeAdded name.now (operation (types_of signature))) }
        ensures takes { OnOk result (TakesOperations (offer_of self.old) (raw_objects self.old) key.now) }
        ensures free { OnOk result (IsFree (offer_of self.old) key.now name.now) }
        ensures ok { OnOk result (offer_of self.new ≡ with_operation key.now name.now (operation (types_of signature)) (offer_of self.old)) }
        ensures why { IfErr result (λ e. IsNotValidOr (CanBeAdded name.now (operation (types_of signature))) (IsWhyNothing (offer_of self.old) (raw_objects self.old) key.now (IsFree (offer_of self.old) key.now name.now)) e) }
        ensures err { OnErr result (offer_of self.new ≡ offer_of self.old) }
        ensures raw { raw_objects self.new ≡ raw_objects self.old }
        ensures ids { ids_of self.new ≡ ids_of self.old }
    {
        match Typed::new(signature) {
            Some(typed) => self.add(key, name, Offered::Typed(typed)),
            None => Err(InterfacesError::NotValid),
        }
    }

    /// Adds an operation that is checked: its bodies are octets, as of a raw one, and those of its requests are judged by
    /// the types of its arguments.
    pub fn add_checked_operation(
        &mut self,
        key: &[u8],
        name: &[u8],
        signature: Signature,
    ) -> Result<(), InterfacesError>
        ensures can { OnOk result (CanBeAdded name.now (checked_operation (types_of signature))) }
        ensures takes { OnOk result (TakesOperations (offer_of self.old) (raw_objects self.old) key.now) }
        ensures free { OnOk result (IsFree (offer_of self.old) key.now name.now) }
        ensures ok { OnOk result (offer_of self.new ≡ with_operation key.now name.now (checked_operation (types_of signature)) (offer_of self.old)) }
        ensures why { IfErr result (λ e. IsNotValidOr (CanBeAdded name.now (checked_operation (types_of signature))) (IsWhyNothing (offer_of self.old) (raw_objects self.old) key.now (IsFree (offer_of self.old) key.now name.now)) e) }
        ensures err { OnErr result (offer_of self.new ≡ offer_of self.old) }
        ensures raw { raw_objects self.new ≡ raw_objects self.old }
        ensures ids { ids_of self.new ≡ ids_of self.old }
    {
        match Typed::new(signature) {
            Some(typed) => self.add(key, name, Offered::Checked(typed)),
            None => Err(InterfacesError::NotValid),
        }
    }

    /// Adds an operation that is raw.
    pub fn add_raw_operation(&mut self, key: &[u8], name: &[u8]) -> Result<(), InterfacesError>
        ensures can { OnOk result (CanBeAdded name.now raw_operation) }
        ensures takes { OnOk result (TakesOperations (offer_of self.old) (raw_objects self.old) key.now) }
        ensures free { OnOk result (IsFree (offer_of self.old) key.now name.now) }
        ensures ok { OnOk result (offer_of self.new ≡ with_operation key.now name.now raw_operation (offer_of self.old)) }
        ensures why { IfErr result (λ e. IsNotValidOr (CanBeAdded name.now raw_operation) (IsWhyNothing (offer_of self.old) (raw_objects self.old) key.now (IsFree (offer_of self.old) key.now name.now)) e) }
        ensures err { OnErr result (offer_of self.new ≡ offer_of self.old) }
        ensures raw { raw_objects self.new ≡ raw_objects self.old }
        ensures ids { ids_of self.new ≡ ids_of self.old }
    {
        self.add(key, name, Offered::Raw)
    }

    /// Names the repository ids of the object under the key, and adds `_is_a`, from a string to a boolean, and
    /// `_non_existent`, from nothing to a boolean (CORBA 3.3 Part 1, 8.3).
    pub fn add_repository_ids(
        &mut self,
        key: &[u8],
        ids: Vec<Vec<u8>>,
    ) -> Result<(), InterfacesError>
        ensures can { OnOk result (AreClean (texts ids)) }
        ensures takes { OnOk result (TakesOperations (offer_of self.old) (raw_objects self.old) key.now) }
        ensures free { OnOk result (AreNoOperations ((offer_of self.old).interface key.now)) }
        ensures ok { OnOk result (offer_of self.new ≡ with_identity key.now (offer_of self.old)) }
        ensures named { OnOk result (ids_of self.new ≡ changed key.now (Some (texts ids)) (ids_of self.old)) }
        ensures why { IfErr result (λ e. IsNotValidOr (AreClean (texts ids)) (IsWhyNothing (offer_of self.old) (raw_objects self.old) key.now (AreNoOperations ((offer_of self.old).interface key.now))) e) }
        ensures err { OnErr result (offer_of self.new ≡ offer_of self.old) }
        ensures kept { OnErr result (ids_of self.new ≡ ids_of self.old) }
        ensures raw { raw_objects self.new ≡ raw_objects self.old }
    {
        if !are_clean(&ids) {
            return Err(InterfacesError::NotValid);
        }
        let Some(object) = self.objects.get_mut(key) else {
            return Err(InterfacesError::NoObject);
        };
        object.identify(self.alloc, ids)
    }

    /// Whether the object under the key names the repository id. An object that names ids is a
    /// `IDL:omg.org/CORBA/Object:1.0` (CORBA 3.3 Part 1, 8.3).
    pub fn is_a(&self, key: &[u8], id: &[u8]) -> bool
        ensures { result ≡ names_id (ids_of self.now key.now) id.now }
    {
        match self.objects.get(key) {
            Some(object) => object.is_a(id),
            None => false,
        }
    }

    /// Takes the object under the key away, with its operations and the repository ids that it names. Returns whether
    /// there was one; where there was none, nothing changes.
    pub fn remove(&mut self, key: &[u8]) -> bool
        ensures was { result ≡ (offer_of self.old).knows key.now }
        ensures offer { offer_of self.new ≡ without_object key.now (offer_of self.old) }
        ensures raw { raw_objects self.new ≡ changed key.now false (raw_objects self.old) }
        ensures ids { ids_of self.new ≡ changed key.now None (ids_of self.old) }
        ensures none { result ≡ false → OffersSame self.old self.new }
    {
        take(&mut self.objects, key)
    }

    /// The longest key of an object that the given key begins with, octet by octet: each key begins with itself, and
    /// with the empty key. It goes over all objects, and allocates nothing.
    pub fn family_of(&self, key: &[u8]) -> Option<&[u8]>
        ensures { option_copied result ≡ family (offer_of self.now).knows key.now }
    {
        let mut longest = None;
        for own in self.objects.keys() {
            longest = longer(key, longest, own);
        }
        longest
    }
}

impl Catalogue for Interfaces {
    ghost use Rattle.ft_objects.specs.Filling.{offer_of};
    ghost use Rattle.ft_objects.specs.facts.Promises.{offer-is};

    ghost offers = { offer_of };

    ghost promises = { offer-is };

    fn interface(&self, object_key: &[u8], operation: &[u8]) -> Lookup<'_> {
        match self.objects.get(object_key) {
            Some(object) => object.lookup(operation),
            None => Lookup::NoObject,
        }
    }

    fn has_object(&self, object_key: &[u8]) -> bool {
        self.objects.contains_key(object_key)
    }
}
