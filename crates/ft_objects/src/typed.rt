//! Types that an operation can have.

ghost use Rattle.std.specs.Prelude.{◌≡◌, ◌↔◌, IsTrue, IfNone, IfSome, map};
ghost use Rattle.std.specs.List.{AllByRecursion};
ghost use Rattle.ft_objects.specs.Interfaces.{IsValidInterface, operation, raise_of, types_of};
ghost use Rattle.ft_objects.specs.Sound.{AreSound, IsSound};
ghost use Rattle.ft_objects.specs.facts.Validity.{valid_interface_prop};

use crate::signature::Signature;
use cdr_core::{Ty, are_valid, has_no_nul};

/// The types of an operation, each of them valid.
#[derive(Drop)]
pub(crate) struct Typed {
    pub(crate) signature: Signature,
    ghost valid: { IsValidInterface (operation (types_of signature)) } by { valid_interface_prop (operation (types_of signature)) },
}

/// Whether the exceptions of an operation have ids without a NUL, and valid types.
fn are_sound(raises: &[(Vec<u8>, Vec<Ty>)]) -> bool
    ensures { IsTrue result ↔ AreSound (map raise_of raises.now) }
{
    for (id, members) in raises {
        if !has_no_nul(id) || !are_valid(members) {
            return false;
        }
    }
    true
}

/// Whether the types of an operation are valid, and no id of an exception has a NUL.
fn is_sound(signature: &Signature) -> bool
    ensures { IsTrue result ↔ IsSound (operation (types_of signature.now)) }
{
    are_valid(&signature.arguments) && are_valid(&signature.results) && are_sound(&signature.raises)
}

impl Typed {
    /// The types of a signature, if they are valid and no id of an exception has a NUL.
    pub(crate) fn new(signature: Signature) -> Option<Typed>
        ensures some { IfSome result (λ t. IsSound (operation (types_of signature)) × (types_of t.signature ≡ types_of signature)) }
        ensures none { IfNone result (¬ IsSound (operation (types_of signature))) }
    {
        if !is_sound(&signature) {
            return None;
        }
        Some(Typed { signature })
    }
}
