//! The order in which the octets of a number stand.

ghost use Rattle.std.specs.Prelude.{◌≡◌, ◌≤◌, ◌++◌, length, drop, Some};
ghost use Rattle.cdr_core.specs.Encapsulation.{byte_order, order_of};
ghost use Rattle.cdr_core.specs.Numbers.{digits_of, number_of, order_text};
ghost use Rattle.cdr_core.specs.Value as value;

use byteorder::{BigEndian, ByteOrder, LittleEndian};
use std::fmt;

/// The order in which the octets of a number stand (CDR 9.3).
#[derive(Clone, Copy, Debug, PartialEq, Eq)]
pub enum Order {
    /// The most significant octet comes first.
    Big,
    /// The least significant octet comes first.
    Little,
}

impl Order {
    /// The unsigned long in the first four octets. Octets after them are ignored.
    #[inline(always)]
    pub fn ulong_of(self, octets: &[u8]) -> u32
        requires { 4 ≤ length octets.now }
        ensures { result ≡ number_of self 4 octets.now }
    {
        match self {
            Order::Big => BigEndian::read_u32(octets),
            Order::Little => LittleEndian::read_u32(octets),
        }
    }

    /// Writes an unsigned long over the first four octets. Octets after them stay as they are.
    #[inline(always)]
    pub fn put_ulong(self, number: u32, octets: &mut [u8])
        requires { 4 ≤ length octets.old }
        ensures { octets.new ≡ digits_of self 4 number ++ drop 4 octets.old }
    {
        match self {
            Order::Big => BigEndian::write_u32(octets, number),
            Order::Little => LittleEndian::write_u32(octets, number),
        }
    }

    /// The four octets of an unsigned long.
    #[inline(always)]
    pub(crate) fn ulong_octets(self, number: u32) -> [u8; 4]
        ensures { result ≡ digits_of self 4 number }
    {
        let mut octets = [0; 4];
        self.put_ulong(number, &mut octets);
        octets
    }

    /// The first octet, the same in either order.
    #[inline(always)]
    pub(crate) fn octet_of(self, octets: &[u8]) -> u8
        requires { length octets.now ≡ 1 }
        ensures { result ≡ number_of self 1 octets.now }
    {
        octets[0]
    }

    /// The unsigned short in the first two octets.
    #[inline(always)]
    pub(crate) fn ushort_of(self, octets: &[u8]) -> u16
        requires { 2 ≤ length octets.now }
        ensures { result ≡ number_of self 2 octets.now }
    {
        match self {
            Order::Big => BigEndian::read_u16(octets),
            Order::Little => LittleEndian::read_u16(octets),
        }
    }

    /// The two octets of an unsigned short.
    #[inline(always)]
    pub(crate) fn ushort_octets(self, number: u16) -> [u8; 2]
        ensures { result ≡ digits_of self 2 number }
    {
        let mut octets = [0; 2];
        match self {
            Order::Big => BigEndian::write_u16(&mut octets, number),
            Order::Little => LittleEndian::write_u16(&mut octets, number),
        }
        octets
    }

    /// The unsigned long long in the first eight octets.
    #[inline(always)]
    pub(crate) fn ulonglong_of(self, octets: &[u8]) -> u64
        requires { 8 ≤ length octets.now }
        ensures { result ≡ number_of self 8 octets.now }
    {
        match self {
            Order::Big => BigEndian::read_u64(octets),
            Order::Little => LittleEndian::read_u64(octets),
        }
    }

    /// The eight octets of an unsigned long long.
    #[inline(always)]
    pub(crate) fn ulonglong_octets(self, number: u64) -> [u8; 8]
        ensures { result ≡ digits_of self 8 number }
    {
        let mut octets = [0; 8];
        match self {
            Order::Big => BigEndian::write_u64(&mut octets, number),
            Order::Little => LittleEndian::write_u64(&mut octets, number),
        }
        octets
    }

    /// The order that the first octet of an encapsulation names, a boolean: true for little-endian.
    #[inline(always)]
    pub(crate) fn of_flag(little: bool) -> Order
        ensures { result ≡ order_of (value.boolean little) }
    {
        if little { Order::Little } else { Order::Big }
    }

    /// The first octet of an encapsulation in this order.
    #[inline(always)]
    pub(crate) fn flag(self) -> u8
        ensures { result ≡ byte_order self }
    {
        match self {
            Order::Big => 0,
            Order::Little => 1,
        }
    }
}

/// `big` or `little`.
impl fmt::Display for Order {
    ghost output = { λ order. Some (order_text order) };

    fn fmt<W: fmt::Write>(&self, f: &mut fmt::Formatter<W>) -> fmt::Result {
        match self {
            Order::Big => f.write_str("big"),
            Order::Little => f.write_str("little"),
        }
    }
}
