//! Values in a word.
//!
//! The word is `-` where there is no value. Else it has parts, with a comma between them, and each makes
//! one value: `boolean:0` and `boolean:1`, the name of another type without parts with its number, as in
//! `short:-2` and `enum:2`; `string:HEX` and `octets:HEX`; `sequence:COUNT`, `array:COUNT` and
//! `struct:COUNT` of so many values before; `union:0` of the value before, and `union:1` of a
//! discriminator and a member before.

use cdr_core::Val;
use std::alloc::Global;
use trials::{Stop, boxed, only, top};

/// The value of that type and number, if that type has such a value and no parts.
fn plain(name: &str, number: i128) -> Option<Val> {
    match name {
        "boolean" => Some(Val::Boolean(number == 1)),
        "char" => u8::try_from(number).ok().map(Val::Char),
        "octet" => u8::try_from(number).ok().map(Val::Octet),
        "short" => i16::try_from(number).ok().map(Val::Short),
        "ushort" => u16::try_from(number).ok().map(Val::UShort),
        "long" => i32::try_from(number).ok().map(Val::Long),
        "ulong" => u32::try_from(number).ok().map(Val::ULong),
        "longlong" => i64::try_from(number).ok().map(Val::LongLong),
        "ulonglong" => u64::try_from(number).ok().map(Val::ULongLong),
        "enum" => u32::try_from(number).ok().map(Val::Enum),
        _ => None,
    }
}

/// A union of the last of the values, and of the member after it where there is one.
fn union(alloc: Global, made: &mut Vec<Val>, count: u32) -> Result<Val, Stop> {
    let last = boxed(alloc, made)?;
    match count {
        0 => Ok(Val::Union(last, None)),
        _ => Ok(Val::Union(boxed(alloc, made)?, Some(last))),
    }
}

/// The value of so many of the last ones.
fn composed(alloc: Global, made: &mut Vec<Val>, name: &str, count: u32) -> Result<Val, Stop> {
    match name {
        "sequence" => Ok(Val::Seq(top(made, count)?)),
        "array" => Ok(Val::Array(top(made, count)?)),
        "struct" => Ok(Val::Struct(top(made, count)?)),
        "union" => union(alloc, made, count),
        _ => Err(Stop::BadLine),
    }
}

/// The value of that name and number.
fn numbered(alloc: Global, made: &mut Vec<Val>, name: &str, word: &str) -> Result<Val, Stop> {
    let number = word.parse().map_err(|_| Stop::BadLine)?;
    match plain(name, number) {
        Some(value) => Ok(value),
        None => {
            let count = u32::try_from(number).map_err(|_| Stop::BadLine)?;
            composed(alloc, made, name, count)
        }
    }
}

/// Makes the value of a part.
fn push(alloc: Global, made: &mut Vec<Val>, part: &str) -> Result<(), Stop> {
    let (name, word) = part.split_once(':').ok_or(Stop::BadLine)?;
    let value = match name {
        "string" => Val::Str(hex::decode(alloc, word)?),
        "octets" => Val::Octets(hex::decode(alloc, word)?),
        _ => numbered(alloc, made, name, word)?,
    };
    made.push(value)?;
    Ok(())
}

/// The values of a word.
pub(crate) fn values_in(alloc: Global, word: &str) -> Result<Vec<Val>, Stop> {
    let mut made = Vec::new(alloc);
    for part in word.split(',').filter(|part| *part != "-") {
        push(alloc, &mut made, part)?;
    }
    Ok(made)
}

/// The one value of a word.
pub(crate) fn value_in(alloc: Global, word: &str) -> Result<Val, Stop> {
    only(values_in(alloc, word)?)
}
