//! Values of one basic type, one after another.

ghost use Rattle.std.specs.Prelude.{◌≡◌, ◌≤◌, ◌+◌, ◌^◌, ◌++◌, ℕ, length, take, IfOk, OnErr, vec_capacity};
ghost use Rattle.cdr_core.specs.Numbers.{padding};
ghost use Rattle.cdr_core.specs.Private.{basic_form, basic_size, ReadsOn};
ghost use Rattle.cdr_core.specs.View.{values_of};
ghost use Rattle.cdr_core.specs.Writing.{octets_of_all};

use crate::basic::Basic;
use crate::cursor::Cursor;
use crate::numbers::gap;
use crate::order::Order;
use crate::values::Val;
use std::alloc::AllocError;

/// Values of a basic type from the front of octets, at a place that its size divides: `count`, or as many
/// as there are before a fault. They are put after others, in room that there is. It returns them all, the
/// place after them and the octets from there on.
#[inline(always)]
fn run<'a>(
    kind: Basic,
    order: Order,
    place: u64,
    octets: &'a [u8],
    count: usize,
    others: Vec<Val>,
) -> (Vec<Val>, u64, &'a [u8])
    requires aligned { padding place (basic_size kind) ≡ 0 }
    requires bound { place + length octets.now ≤ 2 ^ 63 + 2 ^ 32 }
    requires room { length others.items + count ≤ vec_capacity others }
    ensures reads { (n : ℕ) → count ≤ n → ReadsOn (basic_form kind) order n others.items place octets.now result.0.items result.1 result.2.now }
    ensures bound { result.1 + length result.2.now ≤ 2 ^ 63 + 2 ^ 32 }
{
    let mut all = others;
    let mut place = place;
    let mut rest = octets;
    for _ in 0..count {
        if rest.len() < kind.size() {
            break;
        }
        let Some(value) = kind.value(order, rest) else {
            break;
        };
        all.push_reserved(value);
        place += kind.size() as u64;
        rest = rest.split_at(kind.size()).1;
    }
    (all, place, rest)
}

/// The same as `run`, each type with a loop of its own.
#[inline(always)]
fn run_of<'a>(
    kind: Basic,
    order: Order,
    place: u64,
    octets: &'a [u8],
    count: usize,
    others: Vec<Val>,
) -> (Vec<Val>, u64, &'a [u8])
    requires aligned { padding place (basic_size kind) ≡ 0 }
    requires bound { place + length octets.now ≤ 2 ^ 63 + 2 ^ 32 }
    requires room { length others.items + count ≤ vec_capacity others }
    ensures reads { (n : ℕ) → count ≤ n → ReadsOn (basic_form kind) order n others.items place octets.now result.0.items result.1 result.2.now }
    ensures bound { result.1 + length result.2.now ≤ 2 ^ 63 + 2 ^ 32 }
{
    match kind {
        Basic::Boolean => run(Basic::Boolean, order, place, octets, count, others),
        Basic::Char => run(Basic::Char, order, place, octets, count, others),
        Basic::Octet => run(Basic::Octet, order, place, octets, count, others),
        Basic::Short => run(Basic::Short, order, place, octets, count, others),
        Basic::UShort => run(Basic::UShort, order, place, octets, count, others),
        Basic::Long => run(Basic::Long, order, place, octets, count, others),
        Basic::ULong => run(Basic::ULong, order, place, octets, count, others),
        Basic::LongLong => run(Basic::LongLong, order, place, octets, count, others),
        Basic::ULongLong => run(Basic::ULongLong, order, place, octets, count, others),
        Basic::Enum(names) => run(Basic::Enum(names), order, place, octets, count, others),
    }
}

/// Goes on reading values of a basic type, of which `left` are left: as many as follow without a fault
/// and without padding. There may be none. Memory is taken for those that the octets can hold.
///
/// An error: an allocation failed, and the cursor is as it was.
#[inline(never)]
pub(crate) fn more(
    kind: Basic,
    left: usize,
    cursor: &mut Cursor,
    others: Vec<Val>,
) -> Result<Vec<Val>, AllocError>
    ensures reads { IfOk result (λ all. ReadsOn (basic_form kind) cursor.old.order left others.items cursor.old.place cursor.old.rest all.items cursor.new.place cursor.new.rest) }
    ensures order { cursor.new.order ≡ cursor.old.order }
    ensures err { OnErr result (cursor.new ≡ cursor.old) }
{
    let (order, place, rest) = cursor.position();
    let mut others = others;
    if gap(place, kind.size() as u64) > 0 {
        return Ok(others);
    }
    let count = left.min(rest.len() / kind.size());
    others.reserve_exact(count)?;
    let (all, place, rest) = match order {
        Order::Big => run_of(kind, Order::Big, place, rest, count, others),
        Order::Little => run_of(kind, Order::Little, place, rest, count, others),
    };
    cursor.go_to(place, rest);
    Ok(all)
}

/// Appends values of a basic type from the front of values, at a place that its size divides: as many as
/// there are, and as `out` has room for. It returns how many.
#[inline(always)]
fn put_run(kind: Basic, order: Order, place: u64, all: &[Val], out: &mut Vec<u8>) -> usize
    requires { padding place (basic_size kind) ≡ 0 }
    ensures within { result ≤ length all.now }
    ensures items { out.new.items ≡ out.old.items ++ octets_of_all order (values_of (take result all.now)) place }
    ensures capacity { vec_capacity out.old ≤ vec_capacity out.new }
{
    let mut done = 0;
    for value in all {
        if out.capacity() - out.len() < kind.size() || !kind.put(order, value, out) {
            break;
        }
        done += 1;
    }
    done
}

/// The same as `put_run`, each type with a loop of its own.
#[inline(always)]
fn put_run_of(kind: Basic, order: Order, place: u64, all: &[Val], out: &mut Vec<u8>) -> usize
    requires { padding place (basic_size kind) ≡ 0 }
    ensures within { result ≤ length all.now }
    ensures items { out.new.items ≡ out.old.items ++ octets_of_all order (values_of (take result all.now)) place }
    ensures capacity { vec_capacity out.old ≤ vec_capacity out.new }
{
    match kind {
        Basic::Boolean => put_run(Basic::Boolean, order, place, all, out),
        Basic::Char => put_run(Basic::Char, order, place, all, out),
        Basic::Octet => put_run(Basic::Octet, order, place, all, out),
        Basic::Short => put_run(Basic::Short, order, place, all, out),
        Basic::UShort => put_run(Basic::UShort, order, place, all, out),
        Basic::Long => put_run(Basic::Long, order, place, all, out),
        Basic::ULong => put_run(Basic::ULong, order, place, all, out),
        Basic::LongLong => put_run(Basic::LongLong, order, place, all, out),
        Basic::ULongLong => put_run(Basic::ULongLong, order, place, all, out),
        Basic::Enum(names) => put_run(Basic::Enum(names), order, place, all, out),
    }
}

/// Goes on writing values of the basic type that `first` has, at the place after it: as many as follow,
/// and as there is room for. It returns how many, and there may be none. Room is made for all of them at
/// once.
#[inline(never)]
pub(crate) fn follow(order: Order, place: u64, first: &Val, all: &[Val], out: &mut Vec<u8>) -> usize
    ensures within { result ≤ length all.now }
    ensures items { out.new.items ≡ out.old.items ++ octets_of_all order (values_of (take result all.now)) place }
    ensures capacity { vec_capacity out.old ≤ vec_capacity out.new }
{
    let Some(kind) = Basic::of_value(first) else {
        return 0;
    };
    if gap(place, kind.size() as u64) > 0 {
        return 0;
    }
    let _ = out.reserve(all.len().saturating_mul(kind.size()));
    match order {
        Order::Big => put_run_of(kind, Order::Big, place, all, out),
        Order::Little => put_run_of(kind, Order::Little, place, all, out),
    }
}
