//! CloseConnection and MessageError (GIOP 9.4.7 and GIOP 9.4.8), which are their headers alone.

ghost use Rattle.std.specs.Prelude.{◌≡◌, ◌++◌, [], MatchResult};
ghost use Rattle.cdr_core.specs.declared.order.Order.TheVariants.{Big};
ghost use Rattle.giop_core.specs.Written.{message_octets};
ghost use Rattle.giop_core.specs.declared.header.MessageKind.TheVariants as kind;
ghost use Rattle.giop_core.specs.declared.header.Version.TheVariants.{V10};

use crate::header::{Header, MessageKind, Version};
use cdr_core::Order;
use std::alloc::AllocError;

/// A message of 1.0 that is its header alone, in big-endian order.
fn bare_octets(kind: MessageKind) -> [u8; 12]
    ensures { result ≡ message_octets V10 kind Big [] }
{
    let header = Header {
        version: Version::V10,
        order: Order::Big,
        more: false,
        kind,
        size: 0,
    };
    header.octets()
}

/// CloseConnection (GIOP 9.4.7), as 1.0 has it, in big-endian order.
pub fn close_octets() -> [u8; 12]
    ensures { result ≡ message_octets V10 kind.CloseConnection Big [] }
{
    bare_octets(MessageKind::CloseConnection)
}

/// MessageError (GIOP 9.4.8), as 1.0 has it, in big-endian order.
pub fn error_octets() -> [u8; 12]
    ensures { result ≡ message_octets V10 kind.MessageError Big [] }
{
    bare_octets(MessageKind::MessageError)
}

/// Appends CloseConnection (GIOP 9.4.7), as 1.0 has it, in big-endian order. Where an
/// allocation fails `out` is as it was.
pub fn write_close(out: &mut Vec<u8>) -> Result<(), AllocError>
    ensures { MatchResult result (λ _. out.new.items ≡ out.old.items ++ message_octets V10 kind.CloseConnection Big []) (λ _. out.new.items ≡ out.old.items) }
{
    out.extend_from_slice(&close_octets())
}

/// Appends MessageError (GIOP 9.4.8), as 1.0 has it, in big-endian order. Where an
/// allocation fails `out` is as it was.
pub fn write_error(out: &mut Vec<u8>) -> Result<(), AllocError>
    ensures { MatchResult result (λ _. out.new.items ≡ out.old.items ++ message_octets V10 kind.MessageError Big []) (λ _. out.new.items ≡ out.old.items) }
{
    out.extend_from_slice(&error_octets())
}
