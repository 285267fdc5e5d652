//! Reading and writing CDR in octets of the caller.

ghost use Rattle.std.specs.Prelude.{◌<◌, ◌≤◌, ◌+◌, [], ◌∷◌, length, Err};
ghost use Rattle.cdr_core.specs.Form as form;
ghost use Rattle.cdr_core.specs.Parts.{char, char_value, long, long_value, longlong, longlong_value, octet, octet_value, raw, short, short_value, text, ulong, ulong_value, ulonglong, ulonglong_value, ushort, ushort_value};
ghost use Rattle.cdr_core.specs.Reading.{value_at};
ghost use Rattle.cdr_core.specs.Spelling.{IsClean};
ghost use Rattle.cdr_core.specs.Value as value;
ghost use Rattle.lemonrudder.specs.Finds.{Enters, Finds};
ghost use Rattle.lemonrudder.specs.Places.{flag_value, put_at, put_long, read_at, written, Gets, Puts};

use crate::cdr::{Place, order_in};
use crate::refusal::{Refusal, count_of, number_of};

/// Reads an octet.
pub fn lr_get_octet(octets: &[u8], place: &mut Place, value: &mut u8) -> i64
    ensures { Gets octet_value (read_at (value_at octet) place.old octets.now) place.old place.new value.old value.new result }
{
    let mut cursor = match place.cursor(octets) {
        Ok(cursor) => cursor,
        Err(refusal) => return refusal.number(),
    };
    match cursor.octet() {
        Ok(found) => {
            *value = found;
            place.follow(octets, &cursor);
            0
        }
        Err(fault) => Refusal::from(fault).number(),
    }
}

/// Reads a char.
pub fn lr_get_char(octets: &[u8], place: &mut Place, value: &mut u8) -> i64
    ensures { Gets char_value (read_at (value_at char) place.old octets.now) place.old place.new value.old value.new result }
{
    let mut cursor = match place.cursor(octets) {
        Ok(cursor) => cursor,
        Err(refusal) => return refusal.number(),
    };
    match cursor.character() {
        Ok(found) => {
            *value = found;
            place.follow(octets, &cursor);
            0
        }
        Err(fault) => Refusal::from(fault).number(),
    }
}

/// Reads a boolean: 0 or 1.
pub fn lr_get_boolean(octets: &[u8], place: &mut Place, value: &mut u8) -> i64
    ensures { Gets flag_value (read_at (value_at form.boolean) place.old octets.now) place.old place.new value.old value.new result }
{
    let mut cursor = match place.cursor(octets) {
        Ok(cursor) => cursor,
        Err(refusal) => return refusal.number(),
    };
    match cursor.boolean() {
        Ok(found) => {
            *value = u8::from(found);
            place.follow(octets, &cursor);
            0
        }
        Err(fault) => Refusal::from(fault).number(),
    }
}

/// Reads a short.
pub fn lr_get_short(octets: &[u8], place: &mut Place, value: &mut i16) -> i64
    ensures { Gets short_value (read_at (value_at short) place.old octets.now) place.old place.new value.old value.new result }
{
    let mut cursor = match place.cursor(octets) {
        Ok(cursor) => cursor,
        Err(refusal) => return refusal.number(),
    };
    match cursor.short() {
        Ok(found) => {
            *value = found;
            place.follow(octets, &cursor);
            0
        }
        Err(fault) => Refusal::from(fault).number(),
    }
}

/// Reads an unsigned short.
pub fn lr_get_ushort(octets: &[u8], place: &mut Place, value: &mut u16) -> i64
    ensures { Gets ushort_value (read_at (value_at ushort) place.old octets.now) place.old place.new value.old value.new result }
{
    let mut cursor = match place.cursor(octets) {
        Ok(cursor) => cursor,
        Err(refusal) => return refusal.number(),
    };
    match cursor.ushort() {
        Ok(found) => {
            *value = found;
            place.follow(octets, &cursor);
            0
        }
        Err(fault) => Refusal::from(fault).number(),
    }
}

/// Reads a long.
pub fn lr_get_long(octets: &[u8], place: &mut Place, value: &mut i32) -> i64
    ensures { Gets long_value (read_at (value_at long) place.old octets.now) place.old place.new value.old value.new result }
{
    let mut cursor = match place.cursor(octets) {
        Ok(cursor) => cursor,
        Err(refusal) => return refusal.number(),
    };
    match cursor.long() {
        Ok(found) => {
            *value = found;
            place.follow(octets, &cursor);
            0
        }
        Err(fault) => Refusal::from(fault).number(),
    }
}

/// Reads an unsigned long.
pub fn lr_get_ulong(octets: &[u8], place: &mut Place, value: &mut u32) -> i64
    ensures { Gets ulong_value (read_at (value_at ulong) place.old octets.now) place.old place.new value.old value.new result }
{
    let mut cursor = match place.cursor(octets) {
        Ok(cursor) => cursor,
        Err(refusal) => return refusal.number(),
    };
    match cursor.ulong() {
        Ok(found) => {
            *value = found;
            place.follow(octets, &cursor);
            0
        }
        Err(fault) => Refusal::from(fault).number(),
    }
}

/// Reads a long long.
pub fn lr_get_longlong(octets: &[u8], place: &mut Place, value: &mut i64) -> i64
    ensures { Gets longlong_value (read_at (value_at longlong) place.old octets.now) place.old place.new value.old value.new result }
{
    let mut cursor = match place.cursor(octets) {
        Ok(cursor) => cursor,
        Err(refusal) => return refusal.number(),
    };
    match cursor.longlong() {
        Ok(found) => {
            *value = found;
            place.follow(octets, &cursor);
            0
        }
        Err(fault) => Refusal::from(fault).number(),
    }
}

/// Reads an unsigned long long.
pub fn lr_get_ulonglong(octets: &[u8], place: &mut Place, value: &mut u64) -> i64
    ensures { Gets ulonglong_value (read_at (value_at ulonglong) place.old octets.now) place.old place.new value.old value.new result }
{
    let mut cursor = match place.cursor(octets) {
        Ok(cursor) => cursor,
        Err(refusal) => return refusal.number(),
    };
    match cursor.ulonglong() {
        Ok(found) => {
            *value = found;
            place.follow(octets, &cursor);
            0
        }
        Err(fault) => Refusal::from(fault).number(),
    }
}

/// Reads a string: the index of its first octet, and its length without the NUL.
pub fn lr_get_string(octets: &[u8], place: &mut Place, start: &mut u64, length: &mut u64) -> i64
    ensures { Finds value.string (read_at (value_at text) place.old octets.now) octets.now place.old place.new start.old start.new length.old length.new result }
{
    match place.string(octets) {
        Ok((at, found)) => {
            (*start, *length) = (at, count_of(found));
            0
        }
        Err(refusal) => refusal.number(),
    }
}

/// Reads a sequence of octets: the index of the first, and how many there are.
pub fn lr_get_octets(octets: &[u8], place: &mut Place, start: &mut u64, length: &mut u64) -> i64
    ensures { Finds value.octets (read_at (value_at raw) place.old octets.now) octets.now place.old place.new start.old start.new length.old length.new result }
{
    match place.octets(octets) {
        Ok((at, found)) => {
            (*start, *length) = (at, count_of(found));
            0
        }
        Err(refusal) => refusal.number(),
    }
}

/// Enters an encapsulation: where its octets lie, and the place after its octet of the byte order.
pub fn lr_get_encapsulation(
    octets: &[u8],
    place: &mut Place,
    start: &mut u64,
    length: &mut u64,
    inner: &mut Place,
) -> i64
    ensures { Enters (read_at (value_at raw) place.old octets.now) octets.now place.old place.new start.old start.new length.old length.new inner.old inner.new result }
{
    let mut behind = *place;
    let (at, found) = match behind.octets(octets) {
        Ok(found) => found,
        Err(refusal) => return refusal.number(),
    };
    match order_in(found) {
        Ok(order) => {
            *inner = Place::inner(order);
            (*start, *length) = (at, count_of(found));
            *place = behind;
            0
        }
        Err(refusal) => refusal.number(),
    }
}

/// Writes an octet.
pub fn lr_put_octet(room: &mut [u8], place: &mut Place, value: u8) -> i64
    ensures { Puts (put_at (octet_value value) place.old room.old) place.old place.new room.old room.new result }
{
    number_of(place.put_number(room, &[value], &[value]))
}

/// Writes a char.
pub fn lr_put_char(room: &mut [u8], place: &mut Place, value: u8) -> i64
    ensures { Puts (put_at (char_value value) place.old room.old) place.old place.new room.old room.new result }
{
    number_of(place.put_number(room, &[value], &[value]))
}

/// Writes a short.
pub fn lr_put_short(room: &mut [u8], place: &mut Place, value: i16) -> i64
    ensures { Puts (put_at (short_value value) place.old room.old) place.old place.new room.old room.new result }
{
    number_of(place.put_number(room, &value.to_be_bytes(), &value.to_le_bytes()))
}

/// Writes an unsigned short.
pub fn lr_put_ushort(room: &mut [u8], place: &mut Place, value: u16) -> i64
    ensures { Puts (put_at (ushort_value value) place.old room.old) place.old place.new room.old room.new result }
{
    number_of(place.put_number(room, &value.to_be_bytes(), &value.to_le_bytes()))
}

/// Writes a long.
pub fn lr_put_long(room: &mut [u8], place: &mut Place, value: i32) -> i64
    ensures { Puts (put_at (long_value value) place.old room.old) place.old place.new room.old room.new result }
{
    number_of(place.put_number(room, &value.to_be_bytes(), &value.to_le_bytes()))
}

/// Writes an unsigned long.
pub fn lr_put_ulong(room: &mut [u8], place: &mut Place, value: u32) -> i64
    ensures { Puts (put_at (ulong_value value) place.old room.old) place.old place.new room.old room.new result }
{
    number_of(place.put_number(room, &value.to_be_bytes(), &value.to_le_bytes()))
}

/// Writes a long long.
pub fn lr_put_longlong(room: &mut [u8], place: &mut Place, value: i64) -> i64
    ensures { Puts (put_at (longlong_value value) place.old room.old) place.old place.new room.old room.new result }
{
    number_of(place.put_number(room, &value.to_be_bytes(), &value.to_le_bytes()))
}

/// Writes an unsigned long long.
pub fn lr_put_ulonglong(room: &mut [u8], place: &mut Place, value: u64) -> i64
    ensures { Puts (put_at (ulonglong_value value) place.old room.old) place.old place.new room.old room.new result }
{
    number_of(place.put_number(room, &value.to_be_bytes(), &value.to_le_bytes()))
}

/// Writes a boolean: 0 or 1.
pub fn lr_put_boolean(room: &mut [u8], place: &mut Place, value: u8) -> i64
    ensures bit { value ≤ 1 → Puts (put_at (octet_value value) place.old room.old) place.old place.new room.old room.new result }
    ensures other { 1 < value → Puts (Err Refusal.Value) place.old place.new room.old room.new result }
{
    if value > 1 {
        return Refusal::Value.number();
    }
    number_of(place.put_number(room, &[value], &[value]))
}

/// Writes a string, with its NUL.
pub fn lr_put_string(room: &mut [u8], place: &mut Place, text: &[u8]) -> i64
    ensures clean { IsClean text.now → Puts (put_long (length text.now + 1) (value.string text.now) place.old room.old) place.old place.new room.old room.new result }
    ensures unclean { ¬ (IsClean text.now) → Puts (Err Refusal.Text) place.old place.new room.old room.new result }
{
    number_of(place.put_string(room, text))
}

/// Writes a sequence of octets.
pub fn lr_put_octets(room: &mut [u8], place: &mut Place, octets: &[u8]) -> i64
    ensures { Puts (put_long (length octets.now) (value.octets octets.now) place.old room.old) place.old place.new room.old room.new result }
{
    number_of(place.put_all(room, octets, &[]))
}
