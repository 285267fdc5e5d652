//! The values of IDL types.

ghost use Rattle.std.specs.Prelude.{◌≡◌, IfOk};
ghost use Rattle.cdr_core.specs.View.{value_of, values_of};

use std::alloc::{AllocError, Global};

/// A value of an IDL type. Each variant holds values of the `Ty` of the same name.
#[derive(Debug, Drop)]
pub enum Val {
    Boolean(bool),
    Char(u8),
    Octet(u8),
    Short(i16),
    UShort(u16),
    Long(i32),
    ULong(u32),
    LongLong(i64),
    ULongLong(u64),
    /// A string without its NUL.
    Str(Vec<u8>),
    Octets(Vec<u8>),
    Seq(Vec<Val>),
    Array(Vec<Val>),
    /// The ordinal, counted from 0.
    Enum(u32),
    Struct(Vec<Val>),
    /// The discriminator, and the member that it selects, if it selects one.
    Union(Box<Val>, Option<Box<Val>>),
}

impl Val {
    /// An equal value in memory of its own; an error if an allocation failed.
    pub fn copy(&self, alloc: Global) -> Result<Val, AllocError>
        ensures { IfOk result (λ v. value_of v ≡ value_of self.now) }
    {
        copied(alloc, self)
    }
}

/// An equal value in memory of its own.
#[cycle(copying)]
fn copied(alloc: Global, value: &Val) -> Result<Val, AllocError>
    ensures { IfOk result (λ v. value_of v ≡ value_of value.now) }
{
    match value {
        Val::Boolean(b) => Ok(Val::Boolean(*b)),
        Val::Char(c) => Ok(Val::Char(*c)),
        Val::Octet(n) => Ok(Val::Octet(*n)),
        Val::Short(n) => Ok(Val::Short(*n)),
        Val::UShort(n) => Ok(Val::UShort(*n)),
        Val::Long(n) => Ok(Val::Long(*n)),
        Val::ULong(n) => Ok(Val::ULong(*n)),
        Val::LongLong(n) => Ok(Val::LongLong(*n)),
        Val::ULongLong(n) => Ok(Val::ULongLong(*n)),
        Val::Str(text) => Ok(Val::Str(Vec::from_slice(alloc, text)?)),
        Val::Octets(all) => Ok(Val::Octets(Vec::from_slice(alloc, all)?)),
        Val::Seq(all) => Ok(Val::Seq(copied_all(alloc, all)?)),
        Val::Array(all) => Ok(Val::Array(copied_all(alloc, all)?)),
        Val::Enum(n) => Ok(Val::Enum(*n)),
        Val::Struct(all) => Ok(Val::Struct(copied_all(alloc, all)?)),
        Val::Union(discriminator, member) => {
            let discriminator = Box::new(alloc, copied(alloc, discriminator)?)?;
            match member {
                None => Ok(Val::Union(discriminator, None)),
                Some(member) => {
                    let member = Box::new(alloc, copied(alloc, member)?)?;
                    Ok(Val::Union(discriminator, Some(member)))
                }
            }
        }
    }
}

/// Equal values in memory of their own.
#[cycle(copying)]
fn copied_all(alloc: Global, all: &[Val]) -> Result<Vec<Val>, AllocError>
    ensures { IfOk result (λ v. values_of v.items ≡ values_of all.now) }
{
    let mut copies = Vec::with_capacity(alloc, all.len())?;
    for value in all {
        copies.push(copied(alloc, value)?)?;
    }
    Ok(copies)
}
