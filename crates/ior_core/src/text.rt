//! References as text (IOP 7.6.9).

ghost use Rattle.std.specs.Prelude.{◌≡◌, option_map, IfOk, IsSome, MatchResult, ◌⊎◌, length};
ghost use Rattle.std.specs.String.{string_bytes};
ghost use Rattle.cdr_core.specs.Writing.{IsWritable};
ghost use Rattle.ior_core.specs.Text.{after_prefix, reference_text, text_octets, ReadsText};
ghost use Rattle.ior_core.specs.View.{ior_value};
ghost use Rattle.ior_core.specs.Writing.{encapsulation_of};
ghost use Rattle.ior_core.specs.declared.error.IorError.TheVariants.{Memory};

use crate::error::IorError;
use crate::reference::{Ior, put, read};
use cdr_core::{Cursor, Order, Writer};
use std::alloc::{AllocError, Global};

/// What follows the prefix `IOR:`, whose letters may be in either case.
fn after_prefix(text: &[u8]) -> Option<&[u8]>
    ensures { option_map (λ d. d.now) result ≡ after_prefix text.now }
{
    match text {
        [b'I' | b'i', b'O' | b'o', b'R' | b'r', b':', digits @ ..] => Some(digits),
        _ => None,
    }
}

/// The octets whose digits follow the prefix of a text.
fn octets_in(alloc: Global, text: &str) -> Result<Vec<u8>, IorError>
    ensures { MatchResult result (λ v. text_octets text.now ≡ Ok v.items) (λ e. ((e ≡ Memory) × IsSome (after_prefix text.now)) ⊎ (text_octets text.now ≡ Err e)) }
{
    let digits = after_prefix(text.as_bytes()).ok_or(IorError::NoPrefix)?;
    Ok(hex::decode(alloc, digits)?)
}

/// Reads the text of a reference: `IOR:` and the hexadecimal digits of an encapsulation of the
/// reference, all in either case, and nothing before or after. Octets after the reference in its
/// encapsulation are ignored, which is an own rule.
///
/// Errors, in the order in which they are looked for: `NoPrefix`; `OddDigits`; `BadDigit`, the first;
/// `Cdr`, the first fault, with its place counted from the encapsulation's first octet. `Memory`
/// comes as soon as an allocation fails, and only after the prefix.
#[tactic(auto, using(crate::proofs::Texts::order_fails, crate::proofs::Texts::reference_is))]
pub fn parse_text(alloc: Global, text: &str) -> Result<Ior, IorError>
    ensures { ReadsText text.now result }
{
    let octets = octets_in(alloc, text)?;
    let mut cursor = Cursor::encapsulated(&octets)?;
    Ok(read(alloc, &mut cursor)?)
}

/// The octets of a big-endian encapsulation of a reference.
fn encapsulated(alloc: Global, ior: &Ior) -> Result<Vec<u8>, AllocError>
    requires { IsWritable (ior_value ior.now) }
    ensures { IfOk result (λ v. v.items ≡ encapsulation_of (ior_value ior.now)) }
{
    let mut octets = Vec::new(alloc);
    let writer = Writer::encapsulated(Order::Big, &mut octets)?;
    put(&writer, ior, &mut octets)?;
    Ok(octets)
}

/// The text of a reference: `IOR:` and the hexadecimal digits of an encapsulation of the reference.
/// The digits are in lower case and the encapsulation is big-endian, which are own rules
/// choices. An error means out of memory.
pub fn print_text(alloc: Global, ior: &Ior) -> Result<String, AllocError>
    requires { IsWritable (ior_value ior.now) }
    ensures { IfOk result (λ text. string_bytes text ≡ reference_text (ior_value ior.now)) }
{
    let digits = hex::encode(alloc, encapsulated(alloc, ior)?)?;
    let mut text = String::from_str(alloc, "IOR:")?;
    text.push_str(digits.as_str())?;
    Ok(text)
}
