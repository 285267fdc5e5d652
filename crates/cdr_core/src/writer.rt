//! Writing part by part.

ghost use Rattle.std.specs.Prelude.{◌≡◌, ◌≤◌, ◌<◌, ◌+◌, ◌-◌, ◌^◌, ◌++◌, ◌⊎◌, length, replicate, [], ◌∷◌, MatchResult, OnErr, OnOk};
ghost use Rattle.cdr_core.specs.Encapsulation.{byte_order};
ghost use Rattle.cdr_core.specs.Numbers.{padding};
ghost use Rattle.cdr_core.specs.Parts.{long_value, octet_value, short_value, ulong_value, ulonglong_value, ushort_value};
ghost use Rattle.cdr_core.specs.Spelling.{IsClean};
ghost use Rattle.cdr_core.specs.Value as value;
ghost use Rattle.cdr_core.specs.View.{values_of};
ghost use Rattle.cdr_core.specs.Writing.{place_in, AreWritable, Puts, PutsAll};

use crate::numbers::{add_number, add_one, gap, put_zeros};
use crate::order::Order;
use crate::parts::{add_raw, add_string};
use crate::values::Val;
use crate::writing::append_all;
use std::alloc::AllocError;
use std::marker::Model;

/// The byte order and the places of an output to which parts are appended. The output itself is an
/// argument of each call: the one that the writer was made for, and never shorter than it was then.
///
/// Each call appends one part after its padding, as `write` appends a value of its type. The error: an
/// allocation failed, and the output is as it was.
#[derive(Debug, Drop)]
pub struct Writer {
    order: Order,
    at: u64,
    start: usize,
}

impl Model for Writer {
    ghost use Rattle.std.specs.Prelude.{◌<◌, ◌^◌};
    ghost use Rattle.cdr_core.specs.Writing.{Writing};

    ghost Value = { Writing };

    ghost view = { λ w. record { order = w.order; at = w.at; start = w.start } };

    ghost invariant = { λ w. w.at < 2 ^ 32 };
}

impl Writer {
    /// A writer that appends to what `out` holds now. The next octet stands at the place `at`.
    #[inline]
    pub fn new(order: Order, at: u64, out: &Vec<u8>) -> Writer
        requires { at < 2 ^ 32 }
        ensures { result ≡ record { order = order; at = at; start = length out.now.items } }
    {
        Writer {
            order,
            at,
            start: out.len(),
        }
    }

    /// Appends the first octet of an encapsulation, which names its byte order (CDR 9.3.3),
    /// and returns the writer for what follows. The places of the encapsulation begin at that octet.
    #[inline]
    pub fn encapsulated(order: Order, out: &mut Vec<u8>) -> Result<Writer, AllocError>
        ensures { MatchResult result
            (λ w. (out.new.items ≡ out.old.items ++ byte_order order ∷ []) × (w ≡ record { order = order; at = 1; start = length out.new.items }))
            (λ e. out.new.items ≡ out.old.items) }
    {
        add_one(order.flag(), out)?;
        Ok(Writer::new(order, 1, out))
    }

    /// The byte order.
    #[inline(always)]
    pub(crate) fn order(&self) -> Order
        ensures { result ≡ self.now.order }
    {
        self.order
    }

    /// The place of the next octet.
    #[inline]
    pub fn place(&self, out: &Vec<u8>) -> u64
        requires { self.now.start ≤ length out.now.items }
        ensures { result ≡ place_in self.now out.now.items }
    {
        self.at + (out.len() - self.start) as u64
    }

    /// Appends zeros up to the next place divisible by `size`.
    #[inline]
    pub fn align(&self, size: u64, out: &mut Vec<u8>) -> Result<(), AllocError>
        requires size { (size ≡ 1) ⊎ ((size ≡ 2) ⊎ ((size ≡ 4) ⊎ (size ≡ 8))) }
        requires start { self.now.start ≤ length out.old.items }
        ensures ok { OnOk result (out.new.items ≡ out.old.items ++ replicate (padding (place_in self.now out.old.items) size) 0) }
        ensures err { OnErr result (out.new.items ≡ out.old.items) }
    {
        let zeros = gap(self.place(out), size);
        out.reserve(zeros as usize)?;
        put_zeros(zeros, out);
        Ok(())
    }

    /// Appends an octet.
    #[inline]
    pub fn octet(&self, octet: u8, out: &mut Vec<u8>) -> Result<(), AllocError>
        requires { self.now.start ≤ length out.old.items }
        ensures { Puts self.now (octet_value octet) result out.old.items out.new.items }
    {
        add_one(octet, out)
    }

    /// Appends a boolean, the octet 0 or 1.
    #[inline]
    pub fn boolean(&self, truth: bool, out: &mut Vec<u8>) -> Result<(), AllocError>
        requires { self.now.start ≤ length out.old.items }
        ensures { Puts self.now (value.boolean truth) result out.old.items out.new.items }
    {
        add_one(u8::from(truth), out)
    }

    /// Appends a short.
    #[inline]
    pub fn short(&self, number: i16, out: &mut Vec<u8>) -> Result<(), AllocError>
        requires { self.now.start ≤ length out.old.items }
        ensures { Puts self.now (short_value number) result out.old.items out.new.items }
    {
        add_number(
            self.place(out),
            self.order.ushort_octets(number.cast_unsigned()),
            out,
        )
    }

    /// Appends an unsigned short.
    #[inline]
    pub fn ushort(&self, number: u16, out: &mut Vec<u8>) -> Result<(), AllocError>
        requires { self.now.start ≤ length out.old.items }
        ensures { Puts self.now (ushort_value number) result out.old.items out.new.items }
    {
        add_number(self.place(out), self.order.ushort_octets(number), out)
    }

    /// Appends a long.
    #[inline]
    pub fn long(&self, number: i32, out: &mut Vec<u8>) -> Result<(), AllocError>
        requires { self.now.start ≤ length out.old.items }
        ensures { Puts self.now (long_value number) result out.old.items out.new.items }
    {
        add_number(
            self.place(out),
            self.order.ulong_octets(number.cast_unsigned()),
            out,
        )
    }

    /// Appends an unsigned long.
    #[inline]
    pub fn ulong(&self, number: u32, out: &mut Vec<u8>) -> Result<(), AllocError>
        requires { self.now.start ≤ length out.old.items }
        ensures { Puts self.now (ulong_value number) result out.old.items out.new.items }
    {
        add_number(self.place(out), self.order.ulong_octets(number), out)
    }

    /// Appends an unsigned long long.
    #[inline]
    pub fn ulonglong(&self, number: u64, out: &mut Vec<u8>) -> Result<(), AllocError>
        requires { self.now.start ≤ length out.old.items }
        ensures { Puts self.now (ulonglong_value number) result out.old.items out.new.items }
    {
        add_number(self.place(out), self.order.ulonglong_octets(number), out)
    }

    /// Appends a string: its length with the NUL, the text, and a NUL. `has_no_nul` tests the text.
    #[inline]
    pub fn string(&self, text: &[u8], out: &mut Vec<u8>) -> Result<(), AllocError>
        requires start { self.now.start ≤ length out.old.items }
        requires long { length text.now + 1 < 2 ^ 32 }
        requires clean { IsClean text.now }
        ensures { Puts self.now (value.string text.now) result out.old.items out.new.items }
    {
        add_string(self.order, self.place(out), text, out)
    }

    /// Appends a sequence of octets: its length, and the octets.
    #[inline]
    pub fn octets(&self, all: &[u8], out: &mut Vec<u8>) -> Result<(), AllocError>
        requires start { self.now.start ≤ length out.old.items }
        requires long { length all.now < 2 ^ 32 }
        ensures { Puts self.now (value.octets all.now) result out.old.items out.new.items }
    {
        add_raw(self.order, self.place(out), all, out)
    }

    /// Appends values one after another. `are_writable` tests them.
    pub fn values(&self, values: &[Val], out: &mut Vec<u8>) -> Result<(), AllocError>
        requires start { self.now.start ≤ length out.old.items }
        requires writable { AreWritable (values_of values.now) }
        ensures ok { OnOk result (PutsAll self.now (values_of values.now) out.old.items out.new.items) }
        ensures err { OnErr result (out.new.items ≡ out.old.items) }
    {
        let end = out.len();
        let appended = append_all(self, values, out);
        if appended.is_err() {
            out.truncate(end);
        }
        appended
    }
}
