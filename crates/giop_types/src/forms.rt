//! The forms of types, by which octets are read.

use crate::plain::plain_form;
use crate::shape::{Case, Member, Shape};
use cdr_core::Ty;
use std::alloc::{AllocError, Global};

/// How many names an enumeration has.
fn count_of(names: &[String]) -> u32 {
    u32::try_from(names.len()).unwrap_or(u32::MAX)
}

/// The form of a type.
#[cycle(forming)]
pub(crate) fn form_of(alloc: Global, shape: &Shape) -> Result<Ty, AllocError> {
    match shape {
        Shape::Plain(plain) => Ok(plain_form(*plain)),
        Shape::Text(bound) => Ok(Ty::Str(*bound)),
        Shape::Octets(bound) => Ok(Ty::Octets(*bound)),
        Shape::Sequence(bound, element) => {
            Ok(Ty::Seq(*bound, Box::new(alloc, form_of(alloc, element)?)?))
        }
        Shape::Array(size, element) => {
            Ok(Ty::Array(*size, Box::new(alloc, form_of(alloc, element)?)?))
        }
        Shape::Enum(names) => Ok(Ty::Enum(count_of(names))),
        Shape::Struct(members) => Ok(Ty::Struct(forms_of(alloc, members)?)),
        Shape::Union(switch, cases, default) => {
            let switch = Box::new(alloc, form_of(alloc, switch)?)?;
            let cases = cases_of(alloc, cases)?;
            match default {
                None => Ok(Ty::Union(switch, cases, None)),
                Some(member) => {
                    let form = Box::new(alloc, form_of(alloc, &member.shape)?)?;
                    Ok(Ty::Union(switch, cases, Some(form)))
                }
            }
        }
    }
}

/// The forms of members.
#[cycle(forming)]
pub(crate) fn forms_of(alloc: Global, members: &[Member]) -> Result<Vec<Ty>, AllocError> {
    let mut forms = Vec::with_capacity(alloc, members.len())?;
    for member in members {
        forms.push(form_of(alloc, &member.shape)?)?;
    }
    Ok(forms)
}

/// The forms of cases.
#[cycle(forming)]
fn cases_of(alloc: Global, cases: &[Case]) -> Result<Vec<cdr_core::Case>, AllocError> {
    let mut forms = Vec::with_capacity(alloc, cases.len())?;
    for case in cases {
        forms.push(cdr_core::Case {
            label: case.label,
            member: form_of(alloc, &case.member.shape)?,
        })?;
    }
    Ok(forms)
}
