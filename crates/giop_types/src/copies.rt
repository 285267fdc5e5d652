//! Copies of types.

use crate::shape::{Case, Member, Shape};
use std::alloc::{AllocError, Global};

/// A copy of a type.
#[cycle(copying)]
pub(crate) fn copied(alloc: Global, shape: &Shape) -> Result<Shape, AllocError> {
    match shape {
        Shape::Plain(plain) => Ok(Shape::Plain(*plain)),
        Shape::Text(bound) => Ok(Shape::Text(*bound)),
        Shape::Octets(bound) => Ok(Shape::Octets(*bound)),
        Shape::Sequence(bound, element) => {
            let element = Box::new(alloc, copied(alloc, element)?)?;
            Ok(Shape::Sequence(*bound, element))
        }
        Shape::Array(size, element) => {
            let element = Box::new(alloc, copied(alloc, element)?)?;
            Ok(Shape::Array(*size, element))
        }
        Shape::Enum(names) => Ok(Shape::Enum(copied_names(alloc, names)?)),
        Shape::Struct(members) => Ok(Shape::Struct(copied_members(alloc, members)?)),
        Shape::Union(switch, cases, default) => {
            let switch = Box::new(alloc, copied(alloc, switch)?)?;
            let cases = copied_cases(alloc, cases)?;
            match default {
                None => Ok(Shape::Union(switch, cases, None)),
                Some(member) => {
                    let member = Box::new(alloc, copied_member(alloc, member)?)?;
                    Ok(Shape::Union(switch, cases, Some(member)))
                }
            }
        }
    }
}

/// Copies of names.
fn copied_names(alloc: Global, names: &[String]) -> Result<Vec<String>, AllocError> {
    let mut copies = Vec::with_capacity(alloc, names.len())?;
    for name in names {
        copies.push(String::from_str(alloc, name)?)?;
    }
    Ok(copies)
}

/// A copy of a member.
#[cycle(copying)]
fn copied_member(alloc: Global, member: &Member) -> Result<Member, AllocError> {
    Ok(Member {
        name: String::from_str(alloc, &member.name)?,
        shape: copied(alloc, &member.shape)?,
    })
}

/// Copies of members.
#[cycle(copying)]
fn copied_members(alloc: Global, members: &[Member]) -> Result<Vec<Member>, AllocError> {
    let mut copies = Vec::with_capacity(alloc, members.len())?;
    for member in members {
        copies.push(copied_member(alloc, member)?)?;
    }
    Ok(copies)
}

/// Copies of cases.
#[cycle(copying)]
fn copied_cases(alloc: Global, cases: &[Case]) -> Result<Vec<Case>, AllocError> {
    let mut copies = Vec::with_capacity(alloc, cases.len())?;
    for case in cases {
        copies.push(Case {
            label: case.label,
            member: copied_member(alloc, &case.member)?,
        })?;
    }
    Ok(copies)
}
