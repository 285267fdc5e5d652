//! Reading part by part.

ghost use Rattle.std.specs.Prelude.{◌≡◌, ◌≤◌, ◌<◌, ◌+◌, ◌^◌, ◌⊎◌, length, drop, IfOk, MatchResult, position};
ghost use Rattle.cdr_core.specs.Cursor.{Gives, GoesTo};
ghost use Rattle.cdr_core.specs.Encapsulation.{order_at, order_of};
ghost use Rattle.cdr_core.specs.Form as form;
ghost use Rattle.cdr_core.specs.Numbers.{number_of, padding};
ghost use Rattle.cdr_core.specs.Parts.{char, char_value, enum_value, long, long_value, longlong, longlong_value, most, octet, octet_value, raw, raw_value, short, short_value, text, text_value, ulong, ulong_value, ulonglong, ulonglong_value, ushort, ushort_value};
ghost use Rattle.cdr_core.specs.Reading.{is_nul, length_at, number_at, part_at, taken, text_at, to_nul, value_at};
ghost use Rattle.cdr_core.specs.Value as value;

use crate::fault::{Fault, Kind};
use crate::numbers::{aligned, gap};
use crate::order::Order;
use crate::parts::{split, text_of};
use std::marker::Model;

/// A place in octets, from which parts are read one after another. Texts and octets are lent; no call
/// allocates.
///
/// Places count octets from the beginning of the message or encapsulation, not from that of the slice
/// (CDR 9.3.1.1). Each call that reads goes to the place after the value, or returns the
/// first `Fault` and stays where it is.
#[derive(Debug, Drop)]
pub struct Cursor<'a> {
    order: Order,
    place: u64,
    rest: &'a [u8],
}

impl<'a> Model for Cursor<'a> {
    ghost use Rattle.std.specs.Prelude.{◌≤◌, ◌+◌, ◌^◌, length};
    ghost use Rattle.cdr_core.specs.Cursor.{Position};

    ghost Value = { Position };

    ghost view = { λ c. record { order = c.order; place = c.place; rest = c.rest.now } };

    ghost invariant = { λ c. c.place + length c.rest.now ≤ 2 ^ 63 + 2 ^ 32 };
}

impl<'a> Cursor<'a> {
    /// A cursor at the first of the octets, which stands at the place `at`.
    #[inline(always)]
    pub fn new(octets: &'a [u8], order: Order, at: u64) -> Cursor<'a>
        requires { at < 2 ^ 32 }
        ensures { result ≡ record { order = order; place = at; rest = octets.now } }
    {
        Cursor {
            order,
            place: at,
            rest: octets,
        }
    }

    /// A cursor in an encapsulation, after its first octet, which names its byte order
    /// (CDR 9.3.3).
    #[inline]
    #[tactic(auto, unfolding(crate::specs::Encapsulation::order_at), using(crate::proofs::Enclosed::order_enclosed))]
    pub fn encapsulated(octets: &'a [u8]) -> Result<Cursor<'a>, Fault>
        ensures { MatchResult result (λ c. order_at octets.now ≡ Ok (c.order, c.place, c.rest)) (λ f. order_at octets.now ≡ Err f) }
    {
        let mut cursor = Cursor::new(octets, Order::Big, 0);
        let little = cursor.boolean()?;
        Ok(Cursor::new(cursor.rest(), Order::of_flag(little), 1))
    }

    /// The place of the next octet, or where it would stand.
    #[inline(always)]
    pub fn place(&self) -> u64
        ensures { result ≡ self.now.place }
    {
        self.place
    }

    /// The octets that are left.
    #[inline(always)]
    pub fn rest(&self) -> &'a [u8]
        ensures { result.now ≡ self.now.rest }
    {
        self.rest
    }

    /// Goes to the next place divisible by `size`, even if that lies past the end, where `rest` is
    /// empty.
    #[inline(always)]
    pub fn align(&mut self, size: u64)
        requires { (size ≡ 1) ⊎ ((size ≡ 2) ⊎ ((size ≡ 4) ⊎ (size ≡ 8))) }
        ensures { let step = padding self.old.place size in GoesTo self.old self.new (self.old.place + step) (drop step self.old.rest) }
    {
        let (place, rest) = aligned(self.place, self.rest, size);
        self.go_to(place, rest);
    }

    /// Goes past so many of the octets that are left.
    #[inline(always)]
    pub fn skip(&mut self, count: usize)
        requires { count ≤ length self.old.rest }
        ensures { GoesTo self.old self.new (self.old.place + count) (drop count self.old.rest) }
    {
        self.go_to(self.place + count as u64, &self.rest[count..]);
    }

    /// The order in which the octets of a number stand, the place of the next octet, and the octets that
    /// are left.
    #[inline(always)]
    pub(crate) fn position(&self) -> (Order, u64, &'a [u8])
        ensures is { (result.0 ≡ self.now.order) × (result.1 ≡ self.now.place) × (result.2.now ≡ self.now.rest) }
        ensures bound { result.1 + length result.2.now ≤ 2 ^ 63 + 2 ^ 32 }
    {
        (self.order, self.place, self.rest)
    }

    /// Goes to a place and the octets from there on.
    #[inline(always)]
    pub(crate) fn go_to(&mut self, place: u64, rest: &'a [u8])
        requires { place + length rest.now ≤ 2 ^ 63 + 2 ^ 32 }
        ensures { GoesTo self.old self.new place rest.now }
    {
        *self = Cursor {
            order: self.order,
            place,
            rest,
        };
    }

    /// The octets of a number of that size, after its padding.
    #[inline(always)]
    #[tactic(auto, unfolding(crate::specs::Reading::part_at))]
    fn part(&mut self, size: usize) -> Result<&'a [u8], Fault>
        requires { (size ≡ 1) ⊎ ((size ≡ 2) ⊎ ((size ≡ 4) ⊎ (size ≡ 8))) }
        ensures given { Gives (λ x. x.now) result (part_at size) self.old self.new }
        ensures long { IfOk result (λ x. length x.now ≡ size) }
    {
        let skip = gap(self.place, size as u64) as usize;
        let end = skip + size;
        if self.rest.len() < end {
            return Err(Fault {
                kind: Kind::Short,
                at: self.place + skip as u64,
            });
        }
        let octets = &self.rest[skip..end];
        self.go_to(self.place + end as u64, &self.rest[end..]);
        Ok(octets)
    }

    /// A number of one octet.
    #[inline(always)]
    #[tactic(auto, unfolding(crate::specs::Reading::number_at))]
    fn one(&mut self) -> Result<u8, Fault>
        ensures { Gives (λ x. x) result (number_at self.old.order 1) self.old self.new }
    {
        let octets = self.part(1)?;
        Ok(octets[0])
    }

    /// A number of two octets, after its padding.
    #[inline(always)]
    #[tactic(auto, unfolding(crate::specs::Reading::number_at))]
    fn two(&mut self) -> Result<u16, Fault>
        ensures { Gives (λ x. x) result (number_at self.old.order 2) self.old self.new }
    {
        let order = self.order;
        let octets = self.part(2)?;
        Ok(order.ushort_of(octets))
    }

    /// A number of four octets, after its padding.
    #[inline(always)]
    #[tactic(auto, unfolding(crate::specs::Reading::number_at))]
    fn four(&mut self) -> Result<u32, Fault>
        ensures { Gives (λ x. x) result (number_at self.old.order 4) self.old self.new }
    {
        let order = self.order;
        let octets = self.part(4)?;
        Ok(order.ulong_of(octets))
    }

    /// A number of eight octets, after its padding.
    #[inline(always)]
    #[tactic(auto, unfolding(crate::specs::Reading::number_at))]
    fn eight(&mut self) -> Result<u64, Fault>
        ensures { Gives (λ x. x) result (number_at self.old.order 8) self.old self.new }
    {
        let order = self.order;
        let octets = self.part(8)?;
        Ok(order.ulonglong_of(octets))
    }

    /// The place where the next number of that size stands, after its padding.
    #[inline(always)]
    fn place_of(&self, size: u64) -> u64
        requires { (size ≡ 1) ⊎ ((size ≡ 2) ⊎ ((size ≡ 4) ⊎ (size ≡ 8))) }
        ensures { result ≡ self.now.place + padding self.now.place size }
    {
        aligned(self.place, self.rest, size).0
    }

    /// A second cursor at the same place, to look ahead with.
    #[inline(always)]
    pub fn fork(&self) -> Cursor<'a>
        ensures { result ≡ self.now }
    {
        Cursor {
            order: self.order,
            place: self.place,
            rest: self.rest,
        }
    }

    /// The next octet.
    #[inline(always)]
    #[tactic(auto, unfolding(crate::specs::Reading::value_at, crate::specs::Reading::whole_at))]
    pub fn octet(&mut self) -> Result<u8, Fault>
        ensures { Gives octet_value result (value_at octet self.old.order) self.old self.new }
    {
        Ok(self.one()?)
    }

    /// A character, the next octet.
    #[inline(always)]
    #[tactic(auto, unfolding(crate::specs::Reading::value_at, crate::specs::Reading::whole_at))]
    pub fn character(&mut self) -> Result<u8, Fault>
        ensures { Gives char_value result (value_at char self.old.order) self.old self.new }
    {
        let code = self.one()?;
        Ok(code)
    }

    /// A boolean, an octet that is 0 or 1.
    #[inline(always)]
    #[tactic(auto, unfolding(crate::specs::Reading::value_at, crate::specs::Reading::boolean_at))]
    pub fn boolean(&mut self) -> Result<bool, Fault>
        ensures { Gives value.boolean result (value_at form.boolean self.old.order) self.old self.new }
    {
        let mut next = self.fork();
        let octet = next.one()?;
        if octet > 1 {
            return Err(Fault {
                kind: Kind::BadBoolean,
                at: self.place,
            });
        }
        *self = next;
        Ok(octet == 1)
    }

    /// A short, after its padding to a place divisible by 2.
    #[inline(always)]
    #[tactic(auto, unfolding(crate::specs::Reading::value_at, crate::specs::Reading::whole_at))]
    pub fn short(&mut self) -> Result<i16, Fault>
        ensures { Gives short_value result (value_at short self.old.order) self.old self.new }
    {
        Ok(self.two()?.cast_signed())
    }

    /// An unsigned short, after its padding to a place divisible by 2.
    #[inline(always)]
    #[tactic(auto, unfolding(crate::specs::Reading::value_at, crate::specs::Reading::whole_at))]
    pub fn ushort(&mut self) -> Result<u16, Fault>
        ensures { Gives ushort_value result (value_at ushort self.old.order) self.old self.new }
    {
        Ok(self.two()?)
    }

    /// A long, after its padding to a place divisible by 4.
    #[inline(always)]
    #[tactic(auto, unfolding(crate::specs::Reading::value_at, crate::specs::Reading::whole_at))]
    pub fn long(&mut self) -> Result<i32, Fault>
        ensures { Gives long_value result (value_at long self.old.order) self.old self.new }
    {
        Ok(self.four()?.cast_signed())
    }

    /// An unsigned long, after its padding to a place divisible by 4.
    #[inline(always)]
    #[tactic(auto, unfolding(crate::specs::Reading::value_at, crate::specs::Reading::whole_at))]
    pub fn ulong(&mut self) -> Result<u32, Fault>
        ensures { Gives ulong_value result (value_at ulong self.old.order) self.old self.new }
    {
        Ok(self.four()?)
    }

    /// A long long, after its padding to a place divisible by 8.
    #[inline(always)]
    #[tactic(auto, unfolding(crate::specs::Reading::value_at, crate::specs::Reading::whole_at))]
    pub fn longlong(&mut self) -> Result<i64, Fault>
        ensures { Gives longlong_value result (value_at longlong self.old.order) self.old self.new }
    {
        Ok(self.eight()?.cast_signed())
    }

    /// An unsigned long long, after its padding to a place divisible by 8.
    #[inline(always)]
    #[tactic(auto, unfolding(crate::specs::Reading::value_at, crate::specs::Reading::whole_at))]
    pub fn ulonglong(&mut self) -> Result<u64, Fault>
        ensures { Gives ulonglong_value result (value_at ulonglong self.old.order) self.old self.new }
    {
        Ok(self.eight()?)
    }

    /// The ordinal of an enumeration of `names` names, an unsigned long below that number.
    #[inline(always)]
    #[tactic(auto, unfolding(crate::specs::Reading::value_at, crate::specs::Reading::ordinal_at))]
    pub fn ordinal(&mut self, names: u32) -> Result<u32, Fault>
        ensures { Gives enum_value result (value_at (form.enumeration names) self.old.order) self.old self.new }
    {
        let mut next = self.fork();
        let ordinal = next.four()?;
        if ordinal >= names {
            return Err(Fault {
                kind: Kind::BadEnum,
                at: self.place_of(4),
            });
        }
        *self = next;
        Ok(ordinal)
    }

    /// A length, at most `bound` and the `extra` octets that don't count against the bound.
    #[inline(always)]
    #[tactic(auto, unfolding(crate::specs::Reading::length_at))]
    pub(crate) fn length(&mut self, extra: u32, bound: u32) -> Result<u32, Fault>
        ensures { Gives (λ x. x) result (length_at self.old.order extra bound) self.old self.new }
    {
        let mut next = self.fork();
        let length = next.four()?;
        if length.saturating_sub(extra) > bound {
            return Err(Fault {
                kind: Kind::OverBound,
                at: self.place_of(4),
            });
        }
        *self = next;
        Ok(length)
    }

    /// The count of a sequence, an unsigned long. The elements follow it.
    #[inline(always)]
    pub fn count(&mut self) -> Result<u32, Fault>
        ensures { Gives (λ x. x) result (length_at self.old.order 0 most) self.old self.new }
    {
        self.length(0, u32::MAX)
    }

    /// A sequence of at most `bound` octets, which are lent.
    #[inline(always)]
    #[tactic(auto, unfolding(crate::specs::Reading::value_at, crate::specs::Reading::octets_at))]
    pub(crate) fn octets_within(&mut self, bound: u32) -> Result<&'a [u8], Fault>
        ensures { Gives raw_value result (value_at (form.octets bound) self.old.order) self.old self.new }
    {
        let mut next = self.fork();
        let size = next.length(0, bound)?;
        let (octets, place, rest) = split(next.place, next.rest, size as usize)?;
        self.go_to(place, rest);
        Ok(octets)
    }

    /// A string of at most `bound` octets and its NUL, which is lent without the NUL.
    #[inline(always)]
    #[tactic(auto, unfolding(crate::specs::Reading::value_at, crate::specs::Reading::string_at))]
    pub(crate) fn string_within(&mut self, bound: u32) -> Result<&'a [u8], Fault>
        ensures { Gives text_value result (value_at (form.string bound) self.old.order) self.old self.new }
    {
        let mut next = self.fork();
        let size = next.length(1, bound)?;
        let (text, place, rest) = text_of(next.place, next.rest, size as usize)?;
        self.go_to(place, rest);
        Ok(text)
    }

    /// A sequence of octets, which are lent: its length, an unsigned long, and then the octets.
    #[inline(always)]
    pub fn octets(&mut self) -> Result<&'a [u8], Fault>
        ensures { Gives raw_value result (value_at raw self.old.order) self.old self.new }
    {
        self.octets_within(u32::MAX)
    }

    /// A string, which is lent without its NUL: its length, an unsigned long that counts the NUL, its
    /// octets, and the NUL. An octet of 0 before the last is a fault. The length 0 is read as the empty
    /// string (own rule).
    #[inline(always)]
    pub fn string(&mut self) -> Result<&'a [u8], Fault>
        ensures { Gives text_value result (value_at text self.old.order) self.old self.new }
    {
        self.string_within(u32::MAX)
    }
}
