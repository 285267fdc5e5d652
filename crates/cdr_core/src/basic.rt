//! The basic types, whose values have a fixed number of octets.

ghost use Rattle.std.specs.Prelude.{◌≡◌, ◌≤◌, ◌<◌, ◌+◌, ◌++◌, ◌⊎◌, ℕ, true, false, length, drop, Ok, IfSome, IsFalse, IsTrue, MatchOption, vec_capacity};
ghost use Rattle.cdr_core.specs.Numbers.{padding};
ghost use Rattle.cdr_core.specs.Private.{basic_form, basic_size};
ghost use Rattle.cdr_core.specs.Reading.{value_at};
ghost use Rattle.cdr_core.specs.Value as value;
ghost use Rattle.cdr_core.specs.View.{form_of, value_of};
ghost use Rattle.cdr_core.specs.Writing.{octets_of};

use crate::numbers::put_octets;
use crate::order::Order;
use crate::types::Ty;
use crate::values::Val;

/// The types whose values have no parts and a fixed number of octets.
#[derive(Clone, Copy, Drop)]
pub(crate) enum Basic {
    Boolean,
    Char,
    Octet,
    Short,
    UShort,
    Long,
    ULong,
    LongLong,
    ULongLong,
    Enum(u32),
}

impl Basic {
    /// The basic type that a type is, if it is one.
    #[inline(always)]
    pub(crate) fn of(ty: &Ty) -> Option<Basic>
        ensures { IfSome result (λ kind. form_of ty.now ≡ basic_form kind) }
    {
        match ty {
            Ty::Boolean => Some(Basic::Boolean),
            Ty::Char => Some(Basic::Char),
            Ty::Octet => Some(Basic::Octet),
            Ty::Short => Some(Basic::Short),
            Ty::UShort => Some(Basic::UShort),
            Ty::Long => Some(Basic::Long),
            Ty::ULong => Some(Basic::ULong),
            Ty::LongLong => Some(Basic::LongLong),
            Ty::ULongLong => Some(Basic::ULongLong),
            Ty::Enum(names) => Some(Basic::Enum(*names)),
            _ => None,
        }
    }

    /// The basic type of a value, if it has one. The number of an enumeration's names doesn't matter.
    #[inline(always)]
    pub(crate) fn of_value(value: &Val) -> Option<Basic> {
        match value {
            Val::Boolean(_) => Some(Basic::Boolean),
            Val::Char(_) => Some(Basic::Char),
            Val::Octet(_) => Some(Basic::Octet),
            Val::Short(_) => Some(Basic::Short),
            Val::UShort(_) => Some(Basic::UShort),
            Val::Long(_) => Some(Basic::Long),
            Val::ULong(_) => Some(Basic::ULong),
            Val::LongLong(_) => Some(Basic::LongLong),
            Val::ULongLong(_) => Some(Basic::ULongLong),
            Val::Enum(_) => Some(Basic::Enum(0)),
            _ => None,
        }
    }

    /// How many octets a value has, which is its alignment too.
    #[inline(always)]
    pub(crate) fn size(self) -> usize
        ensures is { result ≡ basic_size self }
        ensures power { (result ≡ 1) ⊎ ((result ≡ 2) ⊎ ((result ≡ 4) ⊎ (result ≡ 8))) }
    {
        match self {
            Basic::Boolean | Basic::Char | Basic::Octet => 1,
            Basic::Short | Basic::UShort => 2,
            Basic::Long | Basic::ULong | Basic::Enum(_) => 4,
            Basic::LongLong | Basic::ULongLong => 8,
        }
    }

    /// The value at the front of octets, at a place that its size divides, if there is one.
    #[inline(always)]
    pub(crate) fn value(self, order: Order, octets: &[u8]) -> Option<Val>
        requires { basic_size self ≤ length octets.now }
        ensures { (p : ℕ) → padding p (basic_size self) ≡ 0 → IfSome result (λ v. value_at (basic_form self) order p octets.now ≡ Ok (value_of v, p + basic_size self, drop (basic_size self) octets.now)) }
    {
        let number = &octets[..self.size()];
        match self {
            Basic::Boolean => boolean(order.octet_of(number)),
            Basic::Char => Some(Val::Char(order.octet_of(number))),
            Basic::Octet => Some(Val::Octet(order.octet_of(number))),
            Basic::Short => Some(Val::Short(order.ushort_of(number).cast_signed())),
            Basic::UShort => Some(Val::UShort(order.ushort_of(number))),
            Basic::Long => Some(Val::Long(order.ulong_of(number).cast_signed())),
            Basic::ULong => Some(Val::ULong(order.ulong_of(number))),
            Basic::LongLong => Some(Val::LongLong(order.ulonglong_of(number).cast_signed())),
            Basic::ULongLong => Some(Val::ULongLong(order.ulonglong_of(number))),
            Basic::Enum(names) => ordinal(order.ulong_of(number), names),
        }
    }

    /// Appends a value of this type at a place that its size divides, for which `out` has room. Of a value
    /// of another type it appends nothing, and says so.
    #[inline(always)]
    pub(crate) fn put(self, order: Order, value: &Val, out: &mut Vec<u8>) -> bool
        requires { length out.old.items + basic_size self ≤ vec_capacity out.old }
        ensures put { (p : ℕ) → padding p (basic_size self) ≡ 0 → IsTrue result → out.new.items ≡ out.old.items ++ octets_of order (value_of value.now) p }
        ensures long { IsTrue result → length out.new.items ≡ length out.old.items + basic_size self }
        ensures none { IsFalse result → out.new.items ≡ out.old.items }
        ensures capacity { vec_capacity out.old ≤ vec_capacity out.new }
    {
        match (self, value) {
            (Basic::Boolean, Val::Boolean(b)) => out.push_reserved(u8::from(*b)),
            (Basic::Char, Val::Char(c)) => out.push_reserved(*c),
            (Basic::Octet, Val::Octet(n)) => out.push_reserved(*n),
            (Basic::Short, Val::Short(n)) => put_octets(
                &order.ushort_octets(n.cast_unsigned()),
                out,
            ),
            (Basic::UShort, Val::UShort(n)) => put_octets(&order.ushort_octets(*n), out),
            (Basic::Long, Val::Long(n)) => put_octets(&order.ulong_octets(n.cast_unsigned()), out),
            (Basic::ULong, Val::ULong(n)) => put_octets(&order.ulong_octets(*n), out),
            (Basic::LongLong, Val::LongLong(n)) => put_octets(
                &order.ulonglong_octets(n.cast_unsigned()),
                out,
            ),
            (Basic::ULongLong, Val::ULongLong(n)) => put_octets(&order.ulonglong_octets(*n), out),
            (Basic::Enum(_), Val::Enum(n)) => put_octets(&order.ulong_octets(*n), out),
            _ => return false,
        }
        true
    }
}

/// The boolean that an octet is, if it is one.
#[inline(always)]
fn boolean(octet: u8) -> Option<Val>
    ensures { MatchOption result (1 < octet) (λ v. ((octet ≡ 0) × (value_of v ≡ value.boolean false)) ⊎ ((octet ≡ 1) × (value_of v ≡ value.boolean true))) }
{
    match octet {
        0 => Some(Val::Boolean(false)),
        1 => Some(Val::Boolean(true)),
        _ => None,
    }
}

/// The ordinal of an enumeration of so many names that a number is, if it is one.
#[inline(always)]
fn ordinal(number: u32, names: u32) -> Option<Val>
    ensures { MatchOption result (names ≤ number) (λ v. (number < names) × (value_of v ≡ value.enumeration number)) }
{
    if number < names {
        Some(Val::Enum(number))
    } else {
        None
    }
}
