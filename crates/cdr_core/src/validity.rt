//! Which types are valid.

ghost use Rattle.std.specs.Prelude.{◌≡◌, ◌≢◌, IsTrue, ◌↔◌, ◌≤◌, length, Option};
ghost use Rattle.std.proofs.Common.{Box, Global};
ghost use Rattle.cdr_core.specs.Fitting.{AreValid, IsDiscriminator, IsLabel, IsNoLabel, IsValid};
ghost use Rattle.cdr_core.specs.Form.{no_forms};
ghost use Rattle.cdr_core.specs.Private.{HasCases};
ghost use Rattle.cdr_core.specs.View.{cases_of, form_of, forms_of};
ghost use Rattle.cdr_core.specs.declared.types.Ty.{Ty};

use crate::types::{Case, Ty};

/// Whether a union may have a discriminator of this type.
fn is_discriminator(ty: &Ty) -> bool
    ensures { IsTrue result ↔ IsDiscriminator (form_of ty.now) }
{
    match ty {
        Ty::Boolean | Ty::Char | Ty::Enum(_) => true,
        Ty::Short | Ty::UShort | Ty::Long | Ty::ULong | Ty::LongLong | Ty::ULongLong => true,
        _ => false,
    }
}

/// Whether a label is a value of the discriminator's type.
fn is_label(ty: &Ty, label: i128) -> bool
    ensures { IsTrue result ↔ IsLabel (form_of ty.now) label }
{
    match ty {
        Ty::Boolean => 0 <= label && label < 2,
        Ty::Char | Ty::Octet => u8::try_from(label).is_ok(),
        Ty::Short => i16::try_from(label).is_ok(),
        Ty::UShort => u16::try_from(label).is_ok(),
        Ty::Long => i32::try_from(label).is_ok(),
        Ty::ULong => u32::try_from(label).is_ok(),
        Ty::LongLong => i64::try_from(label).is_ok(),
        Ty::ULongLong => u64::try_from(label).is_ok(),
        Ty::Enum(names) => 0 <= label && label < i128::from(*names),
        _ => false,
    }
}

/// Whether none of the cases has the label.
fn is_no_label(label: i128, cases: &[Case]) -> bool
    ensures { (o : Option (Box Ty Global)) → (IsTrue result ↔ IsNoLabel label (cases_of cases.now o)) }
{
    for case in cases {
        if case.label == label {
            return false;
        }
    }
    true
}

/// Whether there is at least one type.
#[tactic(auto, using(crate::proofs::Checks::members_is))]
fn has_members(types: &[Ty]) -> bool
    ensures { IsTrue result ↔ (forms_of types.now ≢ no_forms) }
{
    types.len() > 0
}

/// Whether a type is valid, as `Ty::is_valid` reports.
#[cycle(valid)]
fn valid(ty: &Ty) -> bool
    ensures { IsTrue result ↔ IsValid (form_of ty.now) }
{
    match ty {
        Ty::Seq(_, member) => valid(member),
        Ty::Array(count, member) => *count > 0 && valid(member),
        Ty::Enum(names) => *names > 0,
        Ty::Struct(members) => has_members(members) && are_valid(members),
        Ty::Union(discriminator, _, _) => is_discriminator(discriminator)
            && valid(discriminator)
            && are_cases(ty),
        _ => true,
    }
}

/// Whether each of the types is valid, as `read_list` requires.
#[cycle(valid)]
pub fn are_valid(types: &[Ty]) -> bool
    ensures { IsTrue result ↔ AreValid (forms_of types.now) }
{
    for ty in types {
        if !valid(ty) {
            return false;
        }
    }
    true
}

/// Whether a case is valid before the others: its label is a value of the discriminator's type that
/// none of the others has, and its member is valid.
#[cycle(valid)]
fn is_case(case: &Case, discriminator: &Ty, others: &[Case]) -> bool
    ensures { (o : Option (Box Ty Global)) → (IsTrue result ↔ (IsLabel (form_of discriminator.now) case.now.label × IsNoLabel case.now.label (cases_of others.now o) × IsValid (form_of case.now.member))) }
{
    is_label(discriminator, case.label) && is_no_label(case.label, others) && valid(&case.member)
}

/// Whether the cases of a union are valid, and its default if it has one: labels are values of the
/// discriminator's type and distinct, members are valid. It holds of all other types.
#[cycle(valid)]
fn are_cases(union: &Ty) -> bool
    ensures { IsTrue result ↔ HasCases (form_of union.now) }
{
    let Ty::Union(discriminator, cases, default) = union else {
        return true;
    };
    for (i, case) in cases.iter().enumerate() {
        if !is_case(case, discriminator, &cases[i + 1..]) {
            return false;
        }
    }
    match default {
        None => true,
        Some(ty) => valid(ty),
    }
}

impl Ty {
    /// Whether the type is valid, as `read` and `fits` require: each array has an element, each
    /// enumeration a name, each struct a member; the discriminator of a union is a boolean, a character,
    /// an enumeration or an integer of 16, 32 or 64 bits, and the labels are distinct values of it.
    pub fn is_valid(&self) -> bool
        ensures { IsTrue result ↔ IsValid (form_of self.now) }
    {
        valid(self)
    }
}
