//! Decode a body: read the arguments of a request by the types of the operation's IDL.

ghost use Rattle.std.specs.Prelude.{IfOk, IfSome};
ghost use Rattle.cdr_core.specs.Fitting.{AreValid};
ghost use Rattle.cdr_core.specs.View.{forms_of, values_of};
ghost use Rattle.uses.specs.Arguments.{AreSpelled};

use cdr_core::{CdrError, Ty, Val};
use giop_core::Content;
use giop_frames::{Assembler, Limits, StreamFault};
use std::alloc::{AllocError, Global};
use thiserror::Error;

/// Why a stream gave no arguments.
#[derive(Debug, Drop, Error)]
pub enum DecodeError {
    #[error("{0}")]
    Stream(#[from] StreamFault),
    #[error("{0}")]
    Body(#[from] CdrError),
}

/// The types of the arguments of
///
/// ```idl
/// struct Quote { string symbol; long long cents; };
/// void publish(in sequence<Quote> quotes, in boolean is_final);
/// ```
pub fn publish_types(alloc: Global) -> Result<Vec<Ty>, AllocError>
    ensures { IfOk result (λ types. AreValid (forms_of types.items)) }
{
    let quote = Ty::Struct(vec![in alloc; Ty::Str(u32::MAX), Ty::LongLong]?);
    let quotes = Ty::Seq(u32::MAX, Box::new(alloc, quote)?);
    Ok(vec![in alloc; quotes, Ty::Boolean]?)
}

/// The arguments of the first request in a stream, read by their types. None where there is no request.
pub fn first_arguments(
    alloc: Global,
    limits: Limits,
    octets: &[u8],
    types: &[Ty],
) -> Result<Option<Vec<Val>>, DecodeError>
    requires { AreValid (forms_of types.now) }
    ensures { IfOk result (λ found. IfSome found (λ arguments. AreSpelled (forms_of types.now) (values_of arguments.items))) }
{
    let mut assembler = Assembler::new(alloc, limits);
    let mut taken = 0;
    while taken < octets.len() {
        taken += assembler.feed(&octets[taken..])?;
        let Some(message) = assembler.message() else {
            break;
        };
        if let Content::Request(request) = message.content {
            return Ok(Some(request.body.read(alloc, types)?));
        }
    }
    Ok(None)
}
