//! Which objects and operations a server has, as its owner fills them in.

mod families;

ghost use Rattle.std.specs.Prelude.{◌≡◌};
ghost use Rattle.lemonrudder.specs.Fills.{no_stock, stock_of};
ghost use Rattle.lemonrudder.specs.Identifies.{AreIds};

use crate::refusal::Refusal;
use crate::types::types_of;
use cdr_core::Ty;
use ft_objects::{Families, Interfaces, Signature};
use std::alloc::Global;
use std::mem;

/// A catalogue, and the exceptions of the operation that is added next.
#[derive(Drop)]
pub struct Cataloguing {
    pub families: Families,
    alloc: Global,
    raises: Vec<(Vec<u8>, Vec<Ty>)>,
}

/// The ids in octets that have a NUL after each.
fn ids_of(alloc: Global, octets: &[u8]) -> Result<Vec<Vec<u8>>, Refusal>
    ensures { AreIds octets.now result }
{
    let mut ids = Vec::new(alloc);
    let mut id = Vec::new(alloc);
    for octet in octets {
        if *octet == 0 {
            ids.push(mem::replace(&mut id, Vec::new(alloc)))?;
        } else {
            id.push(*octet)?;
        }
    }
    if ids.is_empty() || !id.is_empty() {
        return Err(Refusal::Text);
    }
    Ok(ids)
}

/// No objects and no families.
pub fn no_families(alloc: Global) -> Families
    ensures objects { stock_of result.objects ≡ no_stock }
    ensures families { stock_of result.families ≡ no_stock }
{
    Families {
        objects: Interfaces::new(alloc),
        families: Interfaces::new(alloc),
    }
}

impl Cataloguing {
    ghost use Rattle.std.specs.Prelude.{◌≡◌};
    ghost use Rattle.lemonrudder.specs.Declares.{OnException, OnOperation};
    ghost use Rattle.lemonrudder.specs.Fills.{OnObject, OnRawObject, OnRawOperation, empty, filling};
    ghost use Rattle.lemonrudder.specs.Identifies.{OnRepositoryIds};

    /// A catalogue without objects.
    pub fn new(alloc: Global) -> Cataloguing
        ensures { filling result ≡ empty }
    {
        Cataloguing {
            families: no_families(alloc),
            alloc,
            raises: Vec::new(alloc),
        }
    }

    /// Adds an object without operations.
    pub fn object(&mut self, key: &[u8]) -> Result<u64, Refusal>
        ensures { OnObject key.now self.old self.new result }
    {
        self.families.objects.add_object(key)?;
        Ok(0)
    }

    /// Adds an object whose every operation is raw.
    pub fn raw_object(&mut self, key: &[u8]) -> Result<u64, Refusal>
        ensures { OnRawObject key.now self.old self.new result }
    {
        self.families.objects.add_raw_object(key)?;
        Ok(0)
    }

    /// Adds an operation that is raw.
    pub fn raw_operation(&mut self, key: &[u8], name: &[u8]) -> Result<u64, Refusal>
        ensures { OnRawOperation key.now name.now self.old self.new result }
    {
        self.families.objects.add_raw_operation(key, name)?;
        Ok(0)
    }

    /// Declares an exception of the operation that is added next.
    pub fn exception(&mut self, id: &[u8], members: &[u8]) -> Result<u64, Refusal>
        ensures { OnException id.now members.now self.old self.new result }
    {
        let members = types_of(self.alloc, members)?;
        let id = Vec::from_slice(self.alloc, id)?;
        self.raises.push((id, members))?;
        Ok(0)
    }

    /// Adds an operation of types, with the exceptions that were declared. Its bodies are octets, which the types judge.
    pub fn operation(
        &mut self,
        key: &[u8],
        name: &[u8],
        arguments: &[u8],
        results: &[u8],
    ) -> Result<u64, Refusal>
        ensures { OnOperation key.now name.now arguments.now results.now self.old self.new result }
    {
        let raises = mem::replace(&mut self.raises, Vec::new(self.alloc));
        let signature = Signature {
            arguments: types_of(self.alloc, arguments)?,
            results: types_of(self.alloc, results)?,
            raises,
        };
        self.families
            .objects
            .add_checked_operation(key, name, signature)?;
        Ok(0)
    }

    /// Names the repository ids of an object.
    pub fn repository_ids(&mut self, key: &[u8], ids: &[u8]) -> Result<u64, Refusal>
        ensures { OnRepositoryIds key.now ids.now self.old self.new result }
    {
        let ids = ids_of(self.alloc, ids)?;
        self.families.objects.add_repository_ids(key, ids)?;
        Ok(0)
    }
}
