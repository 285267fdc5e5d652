//! Reading values of a type.

ghost use Rattle.std.specs.Prelude.{◌≡◌, ◌<◌, ◌≤◌, ◌^◌, ◌++◌, ◌∷◌, [], List, ℕ, length, IfOk, OnOk, vec_capacity};
ghost use Rattle.cdr_core.specs.Answering.{Answers, ListAnswers, ListReads, Reads};
ghost use Rattle.cdr_core.specs.Cursor.{Gives};
ghost use Rattle.cdr_core.specs.Fitting.{AreValid, IsValid};
ghost use Rattle.cdr_core.specs.Form.{octets, sequence, string};
ghost use Rattle.cdr_core.specs.Private.{union_at, united_at, IsBasic, StoresUnion, GivesUnlessMemory};
ghost use Rattle.cdr_core.specs.Reading.{each_at, members_at, value_at};
ghost use Rattle.cdr_core.specs.Spelling.{Spells, SpellsMembers};
ghost use Rattle.cdr_core.specs.Value.{label, Value, Values};
ghost use Rattle.cdr_core.specs.Memory.{StoresEach, StoresMembers, Stores};
ghost use Rattle.cdr_core.specs.View.{form_of, forms_of, held, value_of, values_of};

use crate::basic::Basic;
use crate::cursor::Cursor;
use crate::fault::{CdrError, Fault};
use crate::fitting::is_labelled;
use crate::order::Order;
use crate::passing::is_basic;
use crate::runs::more;
use crate::types::{Case, Ty};
use crate::values::Val;
use std::alloc::{AllocError, Global};

/// Reads a boolean, a number or an enumeration.
#[inline(always)]
#[tactic(auto, unfolding(crate::specs::Reading::value_at))]
pub(crate) fn basic(ty: &Ty, cursor: &mut Cursor) -> Result<Val, Fault>
    requires { IsBasic (form_of ty.now) }
    ensures { Gives value_of result (value_at (form_of ty.now) cursor.old.order) cursor.old cursor.new }
{
    match ty {
        Ty::Boolean => cursor.boolean().map(Val::Boolean),
        Ty::Char => cursor.character().map(Val::Char),
        Ty::Octet => cursor.octet().map(Val::Octet),
        Ty::Short => cursor.short().map(Val::Short),
        Ty::UShort => cursor.ushort().map(Val::UShort),
        Ty::Long => cursor.long().map(Val::Long),
        Ty::ULong => cursor.ulong().map(Val::ULong),
        Ty::LongLong => cursor.longlong().map(Val::LongLong),
        Ty::Enum(names) => cursor.ordinal(*names).map(Val::Enum),
        _ => cursor.ulonglong().map(Val::ULongLong),
    }
}

/// Reads a string.
#[tactic(auto, unfolding(crate::specs::Reading::value_at))]
fn string(alloc: Global, bound: u32, cursor: &mut Cursor) -> Result<Val, CdrError>
    ensures { GivesUnlessMemory value_of result (value_at (string bound) cursor.old.order) (Stores (string bound) cursor.old.order) cursor.old cursor.new }
{
    let text = cursor.string_within(bound)?;
    Ok(Val::Str(Vec::from_slice(alloc, text)?))
}

/// Reads a sequence of octets.
#[tactic(auto, unfolding(crate::specs::Reading::value_at))]
fn octets(alloc: Global, bound: u32, cursor: &mut Cursor) -> Result<Val, CdrError>
    ensures { GivesUnlessMemory value_of result (value_at (octets bound) cursor.old.order) (Stores (octets bound) cursor.old.order) cursor.old cursor.new }
{
    let all = cursor.octets_within(bound)?;
    Ok(Val::Octets(Vec::from_slice(alloc, all)?))
}

/// Reads a value of a type.
#[cycle(reading)]
#[tactic(auto, unfolding(crate::specs::Reading::value_at))]
fn value(alloc: Global, ty: &Ty, cursor: &mut Cursor) -> Result<Val, CdrError>
    ensures { GivesUnlessMemory value_of result (value_at (form_of ty.now) cursor.old.order) (Stores (form_of ty.now) cursor.old.order) cursor.old cursor.new }
{
    match ty {
        Ty::Str(bound) => string(alloc, *bound, cursor),
        Ty::Octets(bound) => octets(alloc, *bound, cursor),
        Ty::Seq(bound, member) => sequence(alloc, member, *bound, cursor),
        Ty::Array(count, member) => Ok(Val::Array(each(alloc, member, *count, cursor)?)),
        Ty::Struct(members) => {
            let members = each_of(alloc, members, Vec::new(alloc), cursor)?;
            Ok(Val::Struct(members))
        }
        Ty::Union(discriminator, _, _) => {
            let discriminator = value(alloc, discriminator, cursor)?;
            union(alloc, ty, discriminator, cursor)
        }
        _ => Ok(basic(ty, cursor)?),
    }
}

/// Reads a sequence of values.
#[cycle(reading)]
#[tactic(auto, unfolding(crate::specs::Reading::value_at))]
fn sequence(alloc: Global, ty: &Ty, bound: u32, cursor: &mut Cursor) -> Result<Val, CdrError>
    ensures { GivesUnlessMemory value_of result (value_at (sequence bound (form_of ty.now)) cursor.old.order) (Stores (sequence bound (form_of ty.now)) cursor.old.order) cursor.old cursor.new }
{
    let count = cursor.length(0, bound)?;
    Ok(Val::Seq(each(alloc, ty, count, cursor)?))
}

/// Reads the member of a union whose discriminator was read, and joins them.
#[cycle(reading)]
fn union(alloc: Global, ty: &Ty, discriminator: Val, cursor: &mut Cursor) -> Result<Val, CdrError>
    ensures { GivesUnlessMemory value_of result (united_at (form_of ty.now) cursor.old.order (value_of discriminator)) (StoresUnion (form_of ty.now) cursor.old.order (label (value_of discriminator))) cursor.old cursor.new }
{
    let member = chosen(alloc, ty, &discriminator, cursor)?;
    Ok(Val::Union(Box::new(alloc, discriminator)?, member))
}

/// Reads `count` values of one type. Memory is taken as they are read: a count that the octets don't
/// bear out reserves nothing.
#[cycle(reading)]
fn each(alloc: Global, ty: &Ty, count: u32, cursor: &mut Cursor) -> Result<Vec<Val>, CdrError>
    ensures { GivesUnlessMemory (λ v. values_of v.items) result (each_at (value_at (form_of ty.now) cursor.old.order) count) (StoresEach (value_at (form_of ty.now) cursor.old.order) (Stores (form_of ty.now) cursor.old.order) count) cursor.old cursor.new }
{
    let mut all = Vec::new(alloc);
    while all.len() < count as usize {
        all.push(value(alloc, ty, cursor)?)?;
        if let Some(kind) = Basic::of(ty) {
            all = more(kind, count as usize - all.len(), cursor, all)?;
        }
    }
    Ok(all)
}

/// Appends a struct's member to those before it. Memory for so many is taken with the first.
fn push_member(member: Val, members: usize, all: &mut Vec<Val>) -> Result<(), AllocError>
    ensures ok { OnOk result (all.new.items ≡ all.old.items ++ member ∷ []) }
    ensures room { vec_capacity all.old ≤ vec_capacity all.new }
{
    if all.is_empty() {
        all.reserve_exact(members)?;
    }
    all.push(member)?;
    Ok(())
}

/// Reads a member of a list, without a call where it is a boolean, a number or an enumeration.
#[cycle(reading)]
#[inline(always)]
fn member(alloc: Global, ty: &Ty, cursor: &mut Cursor) -> Result<Val, CdrError>
    ensures { GivesUnlessMemory value_of result (value_at (form_of ty.now) cursor.old.order) (Stores (form_of ty.now) cursor.old.order) cursor.old cursor.new }
{
    if is_basic(ty) {
        Ok(basic(ty, cursor)?)
    } else {
        value(alloc, ty, cursor)
    }
}

/// Reads a value of each type into a vector in place of what it holds. Memory is taken once the first is read, where
/// the vector has not room enough.
#[cycle(reading)]
fn each_of(
    alloc: Global,
    types: &[Ty],
    room: Vec<Val>,
    cursor: &mut Cursor,
) -> Result<Vec<Val>, CdrError>
    ensures gives { GivesUnlessMemory (λ v. values_of v.items) result (members_at (forms_of types.now) cursor.old.order) (StoresMembers (forms_of types.now) cursor.old.order) cursor.old cursor.new }
    ensures room { IfOk result (λ v. vec_capacity room ≤ vec_capacity v) }
{
    let mut all = room;
    all.clear();
    for ty in types {
        let value = member(alloc, ty, cursor)?;
        push_member(value, types.len(), &mut all)?;
    }
    Ok(all)
}

/// Reads the member of a union that a discriminator selects, if it selects one.
#[cycle(reading)]
fn chosen(
    alloc: Global,
    union: &Ty,
    discriminator: &Val,
    cursor: &mut Cursor,
) -> Result<Option<Box<Val>>, CdrError>
    ensures { GivesUnlessMemory held result (union_at (form_of union.now) cursor.old.order (label (value_of discriminator.now))) (StoresUnion (form_of union.now) cursor.old.order (label (value_of discriminator.now))) cursor.old cursor.new }
{
    let Ty::Union(_, cases, default) = union else {
        return Ok(None);
    };
    for case in cases {
        if is_labelled(case, discriminator) {
            let member = value(alloc, &case.member, cursor)?;
            return Ok(Some(Box::new(alloc, member)?));
        }
    }
    match default {
        None => Ok(None),
        Some(ty) => {
            let member = value(alloc, ty, cursor)?;
            Ok(Some(Box::new(alloc, member)?))
        }
    }
}

/// Reads a value from the front of the octets, the first of which stands at the place `at`. It returns
/// the value and how many octets it takes, its padding included; octets after it are ignored.
///
/// `Bad` is the first fault, with its place. `Memory`: an allocation failed. Memory is taken as values
/// are read, and never by a count alone; the depth of recursion is the type's, not the octets'.
pub fn read(
    alloc: Global,
    ty: &Ty,
    order: Order,
    at: u64,
    octets: &[u8],
) -> Result<(Val, usize), CdrError>
    requires valid { IsValid (form_of ty.now) }
    requires at { at < 2 ^ 32 }
    ensures answers { Answers (form_of ty.now) order at octets.now result }
    ensures only { (v : Value) (front rest : List ℕ) → octets.now ≡ front ++ rest → Spells (form_of ty.now) order v at front → Reads v (length front) result }
{
    let mut cursor = Cursor::new(octets, order, at);
    let value = value(alloc, ty, &mut cursor)?;
    let left = cursor.rest().len();
    Ok((value, octets.len() - left))
}

/// Reads a value of each type, one after another, from the front of the octets. It returns the values
/// and how many octets they take, and fails as `read` does.
pub fn read_list(
    alloc: Global,
    types: &[Ty],
    order: Order,
    at: u64,
    octets: &[u8],
) -> Result<(Vec<Val>, usize), CdrError>
    requires valid { AreValid (forms_of types.now) }
    requires at { at < 2 ^ 32 }
    ensures answers { ListAnswers (forms_of types.now) order at octets.now result }
    ensures only { (vs : Values) (front rest : List ℕ) → octets.now ≡ front ++ rest → SpellsMembers (forms_of types.now) order vs at front → ListReads vs (length front) result }
{
    read_list_into(alloc, types, order, at, octets, Vec::new(alloc))
}

/// Reads what `read_list` reads, into the room of a vector, whose values are dropped first.
///
/// A server that reads one request after another takes no memory for a list that has room already. At an error the
/// vector is dropped.
pub fn read_list_into(
    alloc: Global,
    types: &[Ty],
    order: Order,
    at: u64,
    octets: &[u8],
    room: Vec<Val>,
) -> Result<(Vec<Val>, usize), CdrError>
    requires valid { AreValid (forms_of types.now) }
    requires at { at < 2 ^ 32 }
    // it is that vector, which never shrinks
    ensures room { IfOk result (λ x. vec_capacity room ≤ vec_capacity x.0) }
    ensures answers { ListAnswers (forms_of types.now) order at octets.now result }
    ensures only { (vs : Values) (front rest : List ℕ) → octets.now ≡ front ++ rest → SpellsMembers (forms_of types.now) order vs at front → ListReads vs (length front) result }
{
    let mut cursor = Cursor::new(octets, order, at);
    let values = each_of(alloc, types, room, &mut cursor)?;
    let left = cursor.rest().len();
    Ok((values, octets.len() - left))
}
