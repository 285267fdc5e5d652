//! Passing over values of types, which are judged and not made.

ghost use Rattle.std.specs.Prelude.{◌≡◌, ◌≤◌, ◌<◌, ◌+◌, ◌^◌, ◌++◌, ◌↔◌, ◌⊎◌, IsTrue, IfSome, List, ℕ, length, drop, Ok};
ghost use Rattle.std.specs.Ordering.{int_eq};
ghost use Rattle.cdr_core.specs.Answering.{ListPasses};
ghost use Rattle.cdr_core.specs.Fitting.{AreValid};
ghost use Rattle.cdr_core.specs.Form.{sequence};
ghost use Rattle.cdr_core.specs.Private.{passing, union_at, IsBasic, IsNumberOf, GivesOf, Passes};
ghost use Rattle.cdr_core.specs.Reading.{each_at, members_at, value_at};
ghost use Rattle.cdr_core.specs.Spelling.{SpellsMembers};
ghost use Rattle.cdr_core.specs.Value.{label, Values};
ghost use Rattle.cdr_core.specs.View.{form_of, forms_of};

use crate::cursor::Cursor;
use crate::fault::Fault;
use crate::fitting::label_of;
use crate::numbers::gap;
use crate::order::Order;
use crate::reading::basic;
use crate::types::{Case, Ty};

/// Whether a type is a boolean, a number or an enumeration.
#[inline(always)]
pub(crate) fn is_basic(ty: &Ty) -> bool
    ensures { IsTrue result ↔ IsBasic (form_of ty.now) }
{
    match ty {
        Ty::Str(_) => false,
        Ty::Octets(_) => false,
        Ty::Seq(_, _) => false,
        Ty::Array(_, _) => false,
        Ty::Struct(_) => false,
        Ty::Union(_, _, _) => false,
        _ => true,
    }
}

/// Whether a case has the label.
fn has_label(case: &Case, label: i128) -> bool
    ensures { result ≡ int_eq case.now.label label }
{
    case.label == label
}

/// How many octets a number of a type has, where any octets are one.
fn number_size(ty: &Ty) -> Option<usize>
    ensures is { IfSome result (λ n. IsNumberOf (form_of ty.now) n) }
    ensures power { IfSome result (λ n. (n ≡ 1) ⊎ ((n ≡ 2) ⊎ ((n ≡ 4) ⊎ (n ≡ 8)))) }
{
    match ty {
        Ty::Char => Some(1),
        Ty::Octet => Some(1),
        Ty::Short => Some(2),
        Ty::UShort => Some(2),
        Ty::Long => Some(4),
        Ty::ULong => Some(4),
        Ty::LongLong => Some(8),
        Ty::ULongLong => Some(8),
        _ => None,
    }
}

/// How many octets `count` numbers take with the padding before them, where any octets are some and so many are left.
fn run_len(ty: &Ty, count: u32, cursor: &Cursor) -> Option<usize>
    ensures left { IfSome result (λ n. n ≤ length cursor.now.rest) }
    ensures passes { IfSome result (λ n. passing (each_at (value_at (form_of ty.now) cursor.now.order) count cursor.now.place cursor.now.rest) ≡ Ok (tt, cursor.now.place + n, drop n cursor.now.rest)) }
{
    let size = number_size(ty)?;
    if count == 0 {
        return None;
    }
    let (_, place, rest) = cursor.position();
    let octets = gap(place, size as u64) as usize + count as usize * size;
    if octets > rest.len() {
        return None;
    }
    Some(octets)
}

/// Passes over a value of a type.
#[cycle(passing)]
#[tactic(auto, unfolding(crate::specs::Reading::value_at))]
fn pass(ty: &Ty, cursor: &mut Cursor) -> Result<(), Fault>
    ensures { Passes result (value_at (form_of ty.now) cursor.old.order) cursor.old cursor.new }
{
    match ty {
        Ty::Str(bound) => {
            cursor.string_within(*bound)?;
            Ok(())
        }
        Ty::Octets(bound) => {
            cursor.octets_within(*bound)?;
            Ok(())
        }
        Ty::Seq(bound, member) => sequence(member, *bound, cursor),
        Ty::Array(count, member) => each(member, *count, cursor),
        Ty::Struct(members) => each_of(members, cursor),
        Ty::Union(own, _, _) => {
            let label = discriminator(own, cursor)?;
            chosen(ty, label, cursor)
        }
        _ => {
            basic(ty, cursor)?;
            Ok(())
        }
    }
}

/// Passes over a sequence of values.
#[cycle(passing)]
#[tactic(auto, unfolding(crate::specs::Reading::value_at))]
fn sequence(ty: &Ty, bound: u32, cursor: &mut Cursor) -> Result<(), Fault>
    ensures { Passes result (value_at (sequence bound (form_of ty.now)) cursor.old.order) cursor.old cursor.new }
{
    let count = cursor.length(0, bound)?;
    each(ty, count, cursor)
}

/// Passes over `count` values of one type: over numbers in one step.
#[cycle(passing)]
fn each(ty: &Ty, count: u32, cursor: &mut Cursor) -> Result<(), Fault>
    ensures { Passes result (each_at (value_at (form_of ty.now) cursor.old.order) count) cursor.old cursor.new }
{
    if let Some(octets) = run_len(ty, count, cursor) {
        cursor.skip(octets);
        return Ok(());
    }
    for _ in 0..count {
        pass(ty, cursor)?;
    }
    Ok(())
}

/// Passes over a value of each type.
#[cycle(passing)]
fn each_of(types: &[Ty], cursor: &mut Cursor) -> Result<(), Fault>
    ensures { Passes result (members_at (forms_of types.now) cursor.old.order) cursor.old cursor.new }
{
    for ty in types {
        pass(ty, cursor)?;
    }
    Ok(())
}

/// Passes over a discriminator, and returns its label.
#[cycle(passing)]
fn discriminator(ty: &Ty, cursor: &mut Cursor) -> Result<i128, Fault>
    ensures { GivesOf label result (value_at (form_of ty.now) cursor.old.order) cursor.old cursor.new }
{
    if is_basic(ty) {
        let value = basic(ty, cursor)?;
        return Ok(label_of(&value));
    }
    pass(ty, cursor)?;
    Ok(0)
}

/// Passes over the member of a union that a label selects, if it selects one.
#[cycle(passing)]
fn chosen(union: &Ty, label: i128, cursor: &mut Cursor) -> Result<(), Fault>
    ensures { Passes result (union_at (form_of union.now) cursor.old.order label) cursor.old cursor.new }
{
    let Ty::Union(_, cases, default) = union else {
        return Ok(());
    };
    for case in cases {
        if has_label(case, label) {
            return pass(&case.member, cursor);
        }
    }
    match default {
        None => Ok(()),
        Some(ty) => pass(ty, cursor),
    }
}

/// Passes over a value of each type, one after another, from the front of the octets, and returns how many
/// octets they take. It fails as `read_list` does, and takes no memory.
pub fn pass_list(types: &[Ty], order: Order, at: u64, octets: &[u8]) -> Result<usize, Fault>
    requires valid { AreValid (forms_of types.now) }
    requires at { at < 2 ^ 32 }
    ensures passes { ListPasses (forms_of types.now) order at octets.now result }
    ensures only { (vs : Values) (front rest : List ℕ) → octets.now ≡ front ++ rest → SpellsMembers (forms_of types.now) order vs at front → result ≡ Ok (length front) }
{
    let mut cursor = Cursor::new(octets, order, at);
    each_of(types, &mut cursor)?;
    let left = cursor.rest().len();
    Ok(octets.len() - left)
}
