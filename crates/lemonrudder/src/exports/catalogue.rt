//! Which objects a server has.
#![tactic(auto, using(crate::proofs::Doors::by_catalogue))]

ghost use Rattle.lemonrudder.specs.Answers.{OnCatalogue};
ghost use Rattle.lemonrudder.specs.Declares.{OnException, OnOperation};
ghost use Rattle.lemonrudder.specs.Families.{OnDefault, OnFamilies, OnRemove};
ghost use Rattle.lemonrudder.specs.Fills.{OnObject, OnRawObject, OnRawOperation, OpensEmpty};
ghost use Rattle.lemonrudder.specs.Identifies.{OnRepositoryIds};
ghost use Rattle.lemonrudder.specs.Pairs.{OnCatalogues};
ghost use Rattle.lemonrudder.specs.Slots.{held_in};

use crate::cataloguing::Cataloguing;
use crate::object::Object;
use crate::opened::open;
use crate::paired;
use crate::refusal::Refusal;
use crate::slot::Slot;
use std::alloc::Global;

/// Opens a catalogue without objects.
pub fn lr_catalogue_open(alloc: Global, slot: &mut Slot) -> i64
    ensures { OpensEmpty (held_in slot.old) (held_in slot.new) result }
{
    open(alloc, slot, Object::Catalogue(Cataloguing::new(alloc)))
}

/// Adds an object without operations.
pub fn lr_catalogue_object(alloc: Global, slot: &mut Slot, key: &[u8]) -> i64
    ensures { OnCatalogue (OnObject key.now) (held_in slot.old) (held_in slot.new) result }
{
    slot.catalogue(alloc, &mut |catalogue| catalogue.object(key))
}

/// Adds an object whose every operation is raw.
pub fn lr_catalogue_raw_object(alloc: Global, slot: &mut Slot, key: &[u8]) -> i64
    ensures { OnCatalogue (OnRawObject key.now) (held_in slot.old) (held_in slot.new) result }
{
    slot.catalogue(alloc, &mut |catalogue| catalogue.raw_object(key))
}

/// Declares an exception of the operation that is added next.
pub fn lr_catalogue_exception(alloc: Global, slot: &mut Slot, id: &[u8], members: &[u8]) -> i64
    ensures { OnCatalogue (OnException id.now members.now) (held_in slot.old) (held_in slot.new) result }
{
    slot.catalogue(alloc, &mut |catalogue| catalogue.exception(id, members))
}

/// Adds an operation with the exceptions that were declared.
pub fn lr_catalogue_operation(
    alloc: Global,
    slot: &mut Slot,
    key: &[u8],
    name: &[u8],
    arguments: &[u8],
    results: &[u8],
) -> i64
    ensures { OnCatalogue (OnOperation key.now name.now arguments.now results.now) (held_in slot.old) (held_in slot.new) result }
{
    slot.catalogue(
        alloc,
        &mut |catalogue| catalogue.operation(key, name, arguments, results),
    )
}

/// Adds an operation that is raw.
pub fn lr_catalogue_raw_operation(alloc: Global, slot: &mut Slot, key: &[u8], name: &[u8]) -> i64
    ensures { OnCatalogue (OnRawOperation key.now name.now) (held_in slot.old) (held_in slot.new) result }
{
    slot.catalogue(alloc, &mut |catalogue| catalogue.raw_operation(key, name))
}

/// Names the repository ids of an object.
pub fn lr_catalogue_repository_ids(alloc: Global, slot: &mut Slot, key: &[u8], ids: &[u8]) -> i64
    ensures { OnCatalogue (OnRepositoryIds key.now ids.now) (held_in slot.old) (held_in slot.new) result }
{
    slot.catalogue(alloc, &mut |catalogue| catalogue.repository_ids(key, ids))
}

/// Adds an object whose every operation is raw, for each key that leads to no other.
pub fn lr_catalogue_default(alloc: Global, slot: &mut Slot) -> i64
    ensures { OnCatalogue OnDefault (held_in slot.old) (held_in slot.new) result }
{
    slot.catalogue(alloc, &mut |catalogue| catalogue.default())
}

/// Takes the objects of a catalogue that is in a slot as families.
fn joined(alloc: Global, object: &mut Object, families: &mut Slot) -> i64
    ensures { OnCatalogues OnFamilies (Some object.old) (Some object.new) (held_in families.old) (held_in families.new) result }
{
    let Some(mut other) = families.take(alloc) else {
        return Refusal::Empty.number();
    };
    let answer = paired::families(object, &mut other);
    families.put(other);
    answer
}

/// Takes the objects of another catalogue as families, which is empty afterwards.
pub fn lr_catalogue_families(alloc: Global, slot: &mut Slot, families: &mut Slot) -> i64
    ensures { OnCatalogues OnFamilies (held_in slot.old) (held_in slot.new) (held_in families.old) (held_in families.new) result }
{
    let Some(mut object) = slot.take(alloc) else {
        return Refusal::Empty.number();
    };
    let answer = joined(alloc, &mut object, families);
    slot.put(object);
    answer
}

/// Takes an object away.
pub fn lr_catalogue_remove(alloc: Global, slot: &mut Slot, key: &[u8]) -> i64
    ensures { OnCatalogue (OnRemove key.now) (held_in slot.old) (held_in slot.new) result }
{
    slot.catalogue(alloc, &mut |catalogue| catalogue.remove(key))
}
