//! Where the octets of values end, before they are written.

ghost use Rattle.std.specs.Prelude.{◌≡◌, ◌≤◌, ◌+◌, ◌⊎◌, length, IfSome};
ghost use Rattle.cdr_core.specs.Numbers.{padding};
ghost use Rattle.cdr_core.specs.View.{value_of, values_of};
ghost use Rattle.cdr_core.specs.Writing.{octets_of, octets_of_all, EndsAt};
ghost use Rattle.cdr_core.specs.declared.order.Order.{Order};

use crate::numbers::gap;
use crate::values::Val;

/// The place after a number of that size at a place and `more` octets after it, if below 2^64.
#[inline]
fn after(place: u64, size: u64, more: u64) -> Option<u64>
    requires { (size ≡ 1) ⊎ ((size ≡ 2) ⊎ ((size ≡ 4) ⊎ (size ≡ 8))) }
    ensures { EndsAt result (place + (padding place size + size + more)) }
{
    let number = place.checked_add(gap(place, size))?;
    number.checked_add(size)?.checked_add(more)
}

/// The place after the octets that `write` appends for a value at a place; `None` if it is not below
/// 2^64.
#[cycle(measuring)]
#[tactic(auto, using(crate::proofs::Lengths::number_length))]
pub fn end_of(place: u64, value: &Val) -> Option<u64>
    ensures ends { (order : Order) → EndsAt result (place + length (octets_of order (value_of value.now) place)) }
    ensures after { IfSome result (λ end. place ≤ end) }
{
    match value {
        Val::Boolean(_) | Val::Char(_) | Val::Octet(_) => place.checked_add(1),
        Val::Short(_) | Val::UShort(_) => after(place, 2, 0),
        Val::Long(_) | Val::ULong(_) | Val::Enum(_) => after(place, 4, 0),
        Val::LongLong(_) | Val::ULongLong(_) => after(place, 8, 0),
        Val::Str(text) => after(place, 4, text.len() as u64 + 1),
        Val::Octets(all) => after(place, 4, all.len() as u64),
        Val::Seq(all) => end_of_list(after(place, 4, 0)?, all),
        Val::Array(all) | Val::Struct(all) => end_of_list(place, all),
        Val::Union(discriminator, member) => {
            let end = end_of(place, discriminator)?;
            match member {
                None => Some(end),
                Some(member) => end_of(end, member),
            }
        }
    }
}

/// The place after the octets that `write_list` appends for values at a place; `None` if it is not
/// below 2^64.
#[cycle(measuring)]
pub fn end_of_list(place: u64, values: &[Val]) -> Option<u64>
    ensures ends { (order : Order) → EndsAt result (place + length (octets_of_all order (values_of values.now) place)) }
    ensures after { IfSome result (λ end. place ≤ end) }
{
    let mut end = place;
    for value in values {
        end = end_of(end, value)?;
    }
    Some(end)
}
