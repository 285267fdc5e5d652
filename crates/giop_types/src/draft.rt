//! What the lines of a table have begun.

use crate::fault::{Refusal, Why};
use crate::fields::{Cases, Fields, Names};
use crate::operations::Operation;
use crate::shape::Member;
use crate::signature::Signature;
use std::alloc::Global;

/// An operation, as its lines come.
#[derive(Drop)]
pub(crate) struct Draft {
    alloc: Global,
    pub name: Vec<u8>,
    pub arguments: Vec<Member>,
    pub results: Vec<Member>,
}

/// The signature of members, whose types are valid.
pub(crate) fn signature(alloc: Global, members: Vec<Member>) -> Result<Signature, Refusal> {
    match Signature::new(alloc, members)? {
        Some(signature) => Ok(signature),
        None => Err(Refusal::Bad(Why::Type)),
    }
}

impl Draft {
    /// One without parameters.
    pub fn new(alloc: Global, name: &str) -> Result<Draft, Refusal> {
        Ok(Draft {
            alloc,
            name: Vec::from_slice(alloc, name.as_bytes())?,
            arguments: Vec::new(alloc),
            results: Vec::new(alloc),
        })
    }

    /// The operation, and its name.
    pub fn end(self) -> Result<(Vec<u8>, Operation), Refusal> {
        let operation = Operation {
            arguments: signature(self.alloc, self.arguments)?,
            results: signature(self.alloc, self.results)?,
        };
        Ok((self.name, operation))
    }
}

/// What was begun.
#[derive(Drop)]
pub(crate) enum Begun {
    Nothing,
    Struct(Fields),
    Exception(Fields),
    Enum(Names),
    Union(Cases),
    /// An interface without operations so far.
    Interface,
    Operation(Draft),
}
