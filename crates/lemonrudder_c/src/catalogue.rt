//! Which objects a server has.

ghost use Rattle.lemonrudder.specs.Answers.{OnCatalogue};
ghost use Rattle.lemonrudder.specs.Declares.{OnException, OnOperation};
ghost use Rattle.lemonrudder.specs.Families.{OnDefault, OnFamilies, OnRemove};
ghost use Rattle.lemonrudder.specs.Fills.{OnObject, OnRawObject, OnRawOperation, OpensEmpty};
ghost use Rattle.lemonrudder.specs.Identifies.{OnRepositoryIds};
ghost use Rattle.lemonrudder.specs.Pairs.{OnCatalogues};
ghost use Rattle.lemonrudder.specs.Slots.{held_in};

use lemonrudder::Slot;
use std::alloc::Global;

/// Opens a catalogue without objects.
#[unsafe(no_mangle)]
pub extern "C" fn lr_catalogue_open(alloc: Global, slot: &mut Slot) -> i64
    ensures { OpensEmpty (held_in slot.old) (held_in slot.new) result }
{
    lemonrudder::lr_catalogue_open(alloc, slot)
}

/// Adds an object without operations.
#[unsafe(no_mangle)]
pub extern "C" fn lr_catalogue_object(alloc: Global, slot: &mut Slot, key: &[u8]) -> i64
    ensures { OnCatalogue (OnObject key.now) (held_in slot.old) (held_in slot.new) result }
{
    lemonrudder::lr_catalogue_object(alloc, slot, key)
}

/// Adds an object whose every operation is raw.
#[unsafe(no_mangle)]
pub extern "C" fn lr_catalogue_raw_object(alloc: Global, slot: &mut Slot, key: &[u8]) -> i64
    ensures { OnCatalogue (OnRawObject key.now) (held_in slot.old) (held_in slot.new) result }
{
    lemonrudder::lr_catalogue_raw_object(alloc, slot, key)
}

/// Declares an exception of the operation that is added next.
#[unsafe(no_mangle)]
pub extern "C" fn lr_catalogue_exception(
    alloc: Global,
    slot: &mut Slot,
    id: &[u8],
    members: &[u8],
) -> i64
    ensures { OnCatalogue (OnException id.now members.now) (held_in slot.old) (held_in slot.new) result }
{
    lemonrudder::lr_catalogue_exception(alloc, slot, id, members)
}

/// Adds an operation with the exceptions that were declared.
#[unsafe(no_mangle)]
pub extern "C" fn lr_catalogue_operation(
    alloc: Global,
    slot: &mut Slot,
    key: &[u8],
    name: &[u8],
    arguments: &[u8],
    results: &[u8],
) -> i64
    ensures { OnCatalogue (OnOperation key.now name.now arguments.now results.now) (held_in slot.old) (held_in slot.new) result }
{
    lemonrudder::lr_catalogue_operation(alloc, slot, key, name, arguments, results)
}

/// Adds an operation that is raw.
#[unsafe(no_mangle)]
pub extern "C" fn lr_catalogue_raw_operation(
    alloc: Global,
    slot: &mut Slot,
    key: &[u8],
    name: &[u8],
) -> i64
    ensures { OnCatalogue (OnRawOperation key.now name.now) (held_in slot.old) (held_in slot.new) result }
{
    lemonrudder::lr_catalogue_raw_operation(alloc, slot, key, name)
}

/// Names the repository ids of an object.
#[unsafe(no_mangle)]
pub extern "C" fn lr_catalogue_repository_ids(
    alloc: Global,
    slot: &mut Slot,
    key: &[u8],
    ids: &[u8],
) -> i64
    ensures { OnCatalogue (OnRepositoryIds key.now ids.now) (held_in slot.old) (held_in slot.new) result }
{
    lemonrudder::lr_catalogue_repository_ids(alloc, slot, key, ids)
}

/// Adds an object whose every operation is raw, for each key that leads to no other.
#[unsafe(no_mangle)]
pub extern "C" fn lr_catalogue_default(alloc: Global, slot: &mut Slot) -> i64
    ensures { OnCatalogue OnDefault (held_in slot.old) (held_in slot.new) result }
{
    lemonrudder::lr_catalogue_default(alloc, slot)
}

/// Takes the objects of another catalogue as families, which is empty afterwards.
#[unsafe(no_mangle)]
pub extern "C" fn lr_catalogue_families(alloc: Global, slot: &mut Slot, families: &mut Slot) -> i64
    ensures { OnCatalogues OnFamilies (held_in slot.old) (held_in slot.new) (held_in families.old) (held_in families.new) result }
{
    lemonrudder::lr_catalogue_families(alloc, slot, families)
}

/// Takes an object away.
#[unsafe(no_mangle)]
pub extern "C" fn lr_catalogue_remove(alloc: Global, slot: &mut Slot, key: &[u8]) -> i64
    ensures { OnCatalogue (OnRemove key.now) (held_in slot.old) (held_in slot.new) result }
{
    lemonrudder::lr_catalogue_remove(alloc, slot, key)
}
