//! Types in a word.
//!
//! The word is `-` where there is no type. Else it has parts, with a comma between them, and each makes one
//! type or one case: `boolean`, `char`, `octet`, `short`, `ushort`, `long`, `ulong`, `longlong`,
//! `ulonglong`; `string:BOUND`, `octets:BOUND` and `enum:NAMES`; `sequence:BOUND` and `array:COUNT` of the
//! type before; `struct:COUNT` of so many types before; `case:LABEL` of the type before; `union:COUNT` of
//! a discriminator and so many cases after it, and `default:COUNT` of these and the default after them.

use crate::input::ulong;
use crate::stack::{boxed, only, top};
use crate::stop::Stop;
use cdr_core::{Case, Ty};
use std::alloc::Global;

/// The types and the cases that are no part of another type.
#[derive(Drop)]
struct Made {
    types: Vec<Ty>,
    cases: Vec<Case>,
}

/// The type of that name, which has no parts and no number.
fn plain(name: &str) -> Option<Ty> {
    match name {
        "boolean" => Some(Ty::Boolean),
        "char" => Some(Ty::Char),
        "octet" => Some(Ty::Octet),
        "short" => Some(Ty::Short),
        "ushort" => Some(Ty::UShort),
        "long" => Some(Ty::Long),
        "ulong" => Some(Ty::ULong),
        "longlong" => Some(Ty::LongLong),
        "ulonglong" => Some(Ty::ULongLong),
        _ => None,
    }
}

/// A union of so many of the cases, with that default.
fn union(alloc: Global, made: &mut Made, count: u32, default: Option<Box<Ty>>) -> Result<Ty, Stop> {
    let cases = top(&mut made.cases, count)?;
    Ok(Ty::Union(boxed(alloc, &mut made.types)?, cases, default))
}

/// A union of so many of the cases, whose default is the last of the types.
fn defaulted(alloc: Global, made: &mut Made, count: u32) -> Result<Ty, Stop> {
    let default = boxed(alloc, &mut made.types)?;
    union(alloc, made, count, Some(default))
}

/// The type of that name and number.
fn numbered(alloc: Global, made: &mut Made, name: &str, number: u32) -> Result<Ty, Stop> {
    match name {
        "string" => Ok(Ty::Str(number)),
        "octets" => Ok(Ty::Octets(number)),
        "enum" => Ok(Ty::Enum(number)),
        "sequence" => Ok(Ty::Seq(number, boxed(alloc, &mut made.types)?)),
        "array" => Ok(Ty::Array(number, boxed(alloc, &mut made.types)?)),
        "struct" => Ok(Ty::Struct(top(&mut made.types, number)?)),
        "union" => union(alloc, made, number, None),
        "default" => defaulted(alloc, made, number),
        _ => Err(Stop::BadLine),
    }
}

/// Makes a case with that label.
fn push_case(made: &mut Made, label: &str) -> Result<(), Stop> {
    let label = label.parse().map_err(|_| Stop::BadLine)?;
    let member = made.types.pop().ok_or(Stop::BadLine)?;
    made.cases.push(Case { label, member })?;
    Ok(())
}

/// Makes the type or the case of a part.
fn push(alloc: Global, made: &mut Made, part: &str) -> Result<(), Stop> {
    let ty = match part.split_once(':') {
        Some(("case", label)) => return push_case(made, label),
        Some((name, number)) => numbered(alloc, made, name, ulong(number)?)?,
        None => plain(part).ok_or(Stop::BadLine)?,
    };
    made.types.push(ty)?;
    Ok(())
}

/// The types of a word.
pub fn types_in(alloc: Global, word: &str) -> Result<Vec<Ty>, Stop> {
    let mut made = Made {
        types: Vec::new(alloc),
        cases: Vec::new(alloc),
    };
    for part in word.split(',').filter(|part| *part != "-") {
        push(alloc, &mut made, part)?;
    }
    Ok(made.types)
}

/// The one type of a word.
pub fn type_in(alloc: Global, word: &str) -> Result<Ty, Stop> {
    only(types_in(alloc, word)?)
}
