//! Which values fit a type.

ghost use Rattle.std.specs.Prelude.{◌≡◌, IsTrue, ◌↔◌, ◌<◌, ◌≤◌, ◌^◌, length, Option};
ghost use Rattle.std.specs.Ordering.{int_eq};
ghost use Rattle.cdr_core.specs.Fitting.{AllFit, Fits, FitsMembers, IsValid, OneFits};
ghost use Rattle.cdr_core.specs.Private.{HasChosen};
ghost use Rattle.cdr_core.specs.Value.{count, label};
ghost use Rattle.cdr_core.specs.View.{form_of, forms_of, held, value_of, values_of};

use crate::parts::has_no_nul;
use crate::types::{Case, Ty};
use crate::values::Val;
use crate::writing::is_countable;

/// The label that a discriminator stands for.
pub(crate) fn label_of(value: &Val) -> i128
    ensures { result ≡ label (value_of value.now) }
{
    match value {
        Val::Boolean(b) => i128::from(*b),
        Val::Char(c) => i128::from(*c),
        Val::Octet(n) => i128::from(*n),
        Val::Short(n) => i128::from(*n),
        Val::UShort(n) => i128::from(*n),
        Val::Long(n) => i128::from(*n),
        Val::ULong(n) => i128::from(*n),
        Val::LongLong(n) => i128::from(*n),
        Val::ULongLong(n) => i128::from(*n),
        Val::Enum(n) => i128::from(*n),
        _ => 0,
    }
}

/// Whether a discriminator has the label of the case.
pub(crate) fn is_labelled(case: &Case, discriminator: &Val) -> bool
    ensures { result ≡ int_eq case.now.label (label (value_of discriminator.now)) }
{
    case.label == label_of(discriminator)
}

/// Whether a value is one of the type: it has the type's form, lengths and counts are within the
/// bounds and an unsigned long, no string holds a NUL, the ordinal of an enumeration has a name, and a
/// union holds the member that its discriminator selects. A value that fits can be written.
pub fn fits(ty: &Ty, value: &Val) -> bool
    requires { IsValid (form_of ty.now) }
    ensures { IsTrue result ↔ Fits (form_of ty.now) (value_of value.now) }
{
    value_fits(ty, value)
}

/// Whether a value is one of the type, as `fits` reports.
#[cycle(fits)]
fn value_fits(ty: &Ty, value: &Val) -> bool
    ensures { IsTrue result ↔ Fits (form_of ty.now) (value_of value.now) }
{
    match (ty, value) {
        (Ty::Boolean, Val::Boolean(_)) => true,
        (Ty::Char, &Val::Char(_n)) => true,
        (Ty::Octet, &Val::Octet(_n)) => true,
        (Ty::Short, &Val::Short(_n)) => true,
        (Ty::UShort, &Val::UShort(_n)) => true,
        (Ty::Long, &Val::Long(_n)) => true,
        (Ty::ULong, &Val::ULong(_n)) => true,
        (Ty::LongLong, &Val::LongLong(_n)) => true,
        (Ty::ULongLong, &Val::ULongLong(_n)) => true,
        (Ty::Str(bound), Val::Str(text)) => {
            text.len() <= *bound as usize && text.len() < u32::MAX as usize && has_no_nul(text)
        }
        (Ty::Octets(bound), Val::Octets(all)) => all.len() <= *bound as usize,
        (Ty::Seq(bound, member), Val::Seq(all)) => sequence_fits(member, *bound, all),
        (Ty::Array(count, member), Val::Array(all)) => array_fits(member, *count, all),
        (Ty::Enum(names), Val::Enum(n)) => n < names,
        (Ty::Struct(members), Val::Struct(all)) => members_fit(members, all),
        (Ty::Union(own, _, _), Val::Union(discriminator, member)) => {
            value_fits(own, discriminator) && chosen_fits(ty, discriminator, member)
        }
        _ => false,
    }
}

/// Whether there are at most `bound` values.
#[tactic(auto, using(crate::proofs::Views::count_values_of))]
fn is_count_within(all: &[Val], bound: u32) -> bool
    ensures { IsTrue result ↔ (count (values_of all.now) ≤ bound) }
{
    all.len() <= bound as usize
}

/// Whether there are exactly `expected` values.
#[tactic(auto, using(crate::proofs::Views::count_values_of))]
fn is_count(all: &[Val], expected: u32) -> bool
    ensures { IsTrue result ↔ (count (values_of all.now) ≡ expected) }
{
    all.len() == expected as usize
}

/// Whether the values are the elements of a sequence.
#[cycle(fits)]
fn sequence_fits(ty: &Ty, bound: u32, all: &[Val]) -> bool
    ensures { IsTrue result ↔ ((count (values_of all.now) ≤ bound) × (count (values_of all.now) < 2 ^ 32) × AllFit (Fits (form_of ty.now)) (values_of all.now)) }
{
    is_count_within(all, bound) && is_countable(all) && all_fit(ty, all)
}

/// Whether the values are the elements of an array.
#[cycle(fits)]
fn array_fits(ty: &Ty, expected: u32, all: &[Val]) -> bool
    ensures { IsTrue result ↔ ((count (values_of all.now) ≡ expected) × (count (values_of all.now) < 2 ^ 32) × AllFit (Fits (form_of ty.now)) (values_of all.now)) }
{
    is_count(all, expected) && is_countable(all) && all_fit(ty, all)
}

/// Whether each of the values is one of the type.
#[cycle(fits)]
fn all_fit(ty: &Ty, all: &[Val]) -> bool
    ensures { IsTrue result ↔ AllFit (Fits (form_of ty.now)) (values_of all.now) }
{
    for value in all {
        if !value_fits(ty, value) {
            return false;
        }
    }
    true
}

/// Whether the values are the members of a struct.
#[cycle(fits)]
#[tactic(auto, using(crate::proofs::Checks::members_count))]
fn members_fit(types: &[Ty], all: &[Val]) -> bool
    ensures { IsTrue result ↔ FitsMembers (forms_of types.now) (values_of all.now) }
{
    if types.len() != all.len() {
        return false;
    }
    for i in 0..types.len() {
        if !value_fits(&types[i], &all[i]) {
            return false;
        }
    }
    true
}

/// Whether there is a member, and it is one of the type.
#[cycle(fits)]
fn one_fits(ty: &Ty, member: &Option<Box<Val>>) -> bool
    ensures { IsTrue result ↔ OneFits (Fits (form_of ty.now)) (held member.now) }
{
    match member {
        None => false,
        Some(value) => value_fits(ty, value),
    }
}

/// Whether a union holds the member that its discriminator selects.
#[cycle(fits)]
fn chosen_fits(union: &Ty, discriminator: &Val, member: &Option<Box<Val>>) -> bool
    ensures { IsTrue result ↔ HasChosen (form_of union.now) (label (value_of discriminator.now)) (held member.now) }
{
    let Ty::Union(_, cases, default) = union else {
        return false;
    };
    for case in cases {
        if is_labelled(case, discriminator) {
            return one_fits(&case.member, member);
        }
    }
    match default {
        None => member.is_none(),
        Some(ty) => one_fits(ty, member),
    }
}
