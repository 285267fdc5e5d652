//! Writing values, and which of them can be written.

ghost use Rattle.std.specs.Prelude.{◌≡◌, ◌≤◌, ◌<◌, ◌+◌, ◌^◌, ◌++◌, ◌↔◌, IsTrue, length, IsOk, OnErr, OnOk, vec_capacity};
ghost use Rattle.cdr_core.specs.Private.{Keeps};
ghost use Rattle.cdr_core.specs.Value as value;
ghost use Rattle.cdr_core.specs.Value.{count};
ghost use Rattle.cdr_core.specs.View.{value_of, values_of};
ghost use Rattle.cdr_core.specs.Writing.{octets_of, octets_of_all, place_in, Appends, AreWritable, IsWritable, PutsAll};

use crate::numbers::{add_number, add_one};
use crate::order::Order;
use crate::parts::{add_raw, add_string, has_no_nul};
use crate::runs::follow;
use crate::values::Val;
use crate::writer::Writer;
use std::alloc::AllocError;

/// Whether the count of the values fits an unsigned long.
#[tactic(auto, using(crate::proofs::Views::count_values_of))]
pub(crate) fn is_countable(all: &[Val]) -> bool
    ensures { IsTrue result ↔ (count (values_of all.now) < 2 ^ 32) }
{
    all.len() <= u32::MAX as usize
}

/// Whether a value can be written, as `write` requires: its lengths and counts fit an unsigned long,
/// and no string holds a NUL. Each value that fits a type can be.
#[cycle(writable)]
pub fn writable(value: &Val) -> bool
    ensures { IsTrue result ↔ IsWritable (value_of value.now) }
{
    match value {
        Val::Str(text) => text.len() < u32::MAX as usize && has_no_nul(text),
        Val::Octets(all) => all.len() <= u32::MAX as usize,
        Val::Seq(all) | Val::Array(all) => is_countable(all) && are_writable(all),
        Val::Struct(all) => are_writable(all),
        Val::Union(discriminator, None) => writable(discriminator),
        Val::Union(discriminator, Some(member)) => writable(discriminator) && writable(member),
        _ => true,
    }
}

/// Whether each of the values can be written, as `write_list` requires.
#[cycle(writable)]
pub fn are_writable(all: &[Val]) -> bool
    ensures { IsTrue result ↔ AreWritable (values_of all.now) }
{
    for value in all {
        if !writable(value) {
            return false;
        }
    }
    true
}

/// Appends a value. At an error `out` keeps what it held, and octets may have been appended.
#[cycle(writing)]
#[tactic(auto, using(crate::proofs::Views::count_values_of, crate::proofs::Lengths::number_length))]
fn append(writer: &Writer, value: &Val, out: &mut Vec<u8>) -> Result<(), AllocError>
    requires start { writer.now.start ≤ length out.old.items }
    requires writable { IsWritable (value_of value.now) }
    ensures ok { OnOk result (Appends writer.now (value_of value.now) out.old.items out.new.items) }
    ensures err { OnErr result (Keeps out.old.items out.new.items) }
    ensures succeeds { length out.old.items + length (octets_of writer.now.order (value_of value.now) (place_in writer.now out.old.items)) ≤ vec_capacity out.old → IsOk result }
    ensures capacity { vec_capacity out.old ≤ vec_capacity out.new }
{
    let order = writer.order();
    let place = writer.place(out);
    match value {
        Val::Boolean(b) => add_one(u8::from(*b), out),
        Val::Char(c) => add_one(*c, out),
        Val::Octet(n) => add_one(*n, out),
        Val::Short(n) => add_number(place, order.ushort_octets(n.cast_unsigned()), out),
        Val::UShort(n) => add_number(place, order.ushort_octets(*n), out),
        Val::Long(n) => add_number(place, order.ulong_octets(n.cast_unsigned()), out),
        Val::ULong(n) => add_number(place, order.ulong_octets(*n), out),
        Val::LongLong(n) => add_number(place, order.ulonglong_octets(n.cast_unsigned()), out),
        Val::ULongLong(n) => add_number(place, order.ulonglong_octets(*n), out),
        Val::Str(text) => add_string(order, place, text, out),
        Val::Octets(all) => add_raw(order, place, all, out),
        Val::Seq(all) => append_sequence(writer, all, out),
        Val::Array(all) => append_elements(writer, all, out),
        Val::Enum(n) => add_number(place, order.ulong_octets(*n), out),
        Val::Struct(all) => append_all(writer, all, out),
        Val::Union(discriminator, member) => {
            append(writer, discriminator, out)?;
            match member {
                None => Ok(()),
                Some(member) => append(writer, member, out),
            }
        }
    }
}

/// Appends a sequence: its count and its elements.
#[cycle(writing)]
#[tactic(auto, using(crate::proofs::Views::count_values_of, crate::proofs::Lengths::number_length, crate::proofs::Appending::place_behind))]
fn append_sequence(writer: &Writer, all: &[Val], out: &mut Vec<u8>) -> Result<(), AllocError>
    requires start { writer.now.start ≤ length out.old.items }
    requires count { count (values_of all.now) < 2 ^ 32 }
    requires writable { AreWritable (values_of all.now) }
    ensures ok { OnOk result (Appends writer.now (value.sequence (values_of all.now)) out.old.items out.new.items) }
    ensures err { OnErr result (Keeps out.old.items out.new.items) }
    ensures succeeds { length out.old.items + length (octets_of writer.now.order (value.sequence (values_of all.now)) (place_in writer.now out.old.items)) ≤ vec_capacity out.old → IsOk result }
    ensures capacity { vec_capacity out.old ≤ vec_capacity out.new }
{
    let count = writer.order().ulong_octets(all.len() as u32);
    add_number(writer.place(out), count, out)?;
    append_elements(writer, all, out)
}

/// Appends values of one type, one after another: what follows a value of a basic type at once.
#[cycle(writing)]
fn append_elements(writer: &Writer, all: &[Val], out: &mut Vec<u8>) -> Result<(), AllocError>
    requires start { writer.now.start ≤ length out.old.items }
    requires writable { AreWritable (values_of all.now) }
    ensures ok { OnOk result (PutsAll writer.now (values_of all.now) out.old.items out.new.items) }
    ensures err { OnErr result (Keeps out.old.items out.new.items) }
    ensures succeeds { length out.old.items + length (octets_of_all writer.now.order (values_of all.now) (place_in writer.now out.old.items)) ≤ vec_capacity out.old → IsOk result }
    ensures capacity { vec_capacity out.old ≤ vec_capacity out.new }
{
    let mut next = 0;
    while next < all.len() {
        let value = &all[next];
        append(writer, value, out)?;
        next += 1;
        next += follow(
            writer.order(),
            writer.place(out),
            value,
            all.split_at(next).1,
            out,
        );
    }
    Ok(())
}

/// Appends values one after another.
#[cycle(writing)]
pub(crate) fn append_all(writer: &Writer, all: &[Val], out: &mut Vec<u8>) -> Result<(), AllocError>
    requires start { writer.now.start ≤ length out.old.items }
    requires writable { AreWritable (values_of all.now) }
    ensures ok { OnOk result (PutsAll writer.now (values_of all.now) out.old.items out.new.items) }
    ensures err { OnErr result (Keeps out.old.items out.new.items) }
    ensures succeeds { length out.old.items + length (octets_of_all writer.now.order (values_of all.now) (place_in writer.now out.old.items)) ≤ vec_capacity out.old → IsOk result }
    ensures capacity { vec_capacity out.old ≤ vec_capacity out.new }
{
    for value in all {
        append(writer, value, out)?;
    }
    Ok(())
}

/// Appends a value at the place `at`: first its padding, which is written as zeros.
///
/// If an allocation fails, `out` is as it was. The call succeeds if `out` has room already.
pub fn write(order: Order, at: u64, value: &Val, out: &mut Vec<u8>) -> Result<(), AllocError>
    requires at { at < 2 ^ 32 }
    requires writable { IsWritable (value_of value.now) }
    ensures ok { OnOk result (out.new.items ≡ out.old.items ++ octets_of order (value_of value.now) at) }
    ensures err { OnErr result (out.new.items ≡ out.old.items) }
    ensures succeeds { length out.old.items + length (octets_of order (value_of value.now) at) ≤ vec_capacity out.old → IsOk result }
    ensures capacity { vec_capacity out.old ≤ vec_capacity out.new }
{
    let start = out.len();
    let appended = append(&Writer::new(order, at, out), value, out);
    if appended.is_err() {
        out.truncate(start);
    }
    appended
}

/// Appends values one after another, the first at the place `at`. It allocates and fails as `write`
/// does.
pub fn write_list(
    order: Order,
    at: u64,
    values: &[Val],
    out: &mut Vec<u8>,
) -> Result<(), AllocError>
    requires at { at < 2 ^ 32 }
    requires writable { AreWritable (values_of values.now) }
    ensures succeeds { length out.old.items + length (octets_of_all order (values_of values.now) at) ≤ vec_capacity out.old → IsOk result }
    ensures capacity { vec_capacity out.old ≤ vec_capacity out.new }
    ensures ok { OnOk result (out.new.items ≡ out.old.items ++ octets_of_all order (values_of values.now) at) }
    ensures err { OnErr result (out.new.items ≡ out.old.items) }
{
    let start = out.len();
    let appended = append_all(&Writer::new(order, at, out), values, out);
    if appended.is_err() {
        out.truncate(start);
    }
    appended
}
