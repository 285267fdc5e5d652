//! Reading and writing CDR in octets of the caller.

ghost use Rattle.std.specs.Prelude.{◌<◌, ◌≤◌, ◌+◌, length, Err};
ghost use Rattle.cdr_core.specs.Form as form;
ghost use Rattle.cdr_core.specs.Parts.{char, char_value, long, long_value, longlong, longlong_value, octet, octet_value, raw, short, short_value, text, ulong, ulong_value, ulonglong, ulonglong_value, ushort, ushort_value};
ghost use Rattle.cdr_core.specs.Reading.{value_at};
ghost use Rattle.cdr_core.specs.Spelling.{IsClean};
ghost use Rattle.cdr_core.specs.Value as value;
ghost use Rattle.lemonrudder.specs.Finds.{Enters, Finds};
ghost use Rattle.lemonrudder.specs.Places.{flag_value, put_at, put_long, read_at, Gets, Puts};
ghost use Rattle.lemonrudder.specs.declared.refusal.Refusal.TheVariants as Refusal;

use lemonrudder::Place;

/// Reads an octet.
#[unsafe(no_mangle)]
pub extern "C" fn lr_get_octet(octets: &[u8], place: &mut Place, value: &mut u8) -> i64
    ensures { Gets octet_value (read_at (value_at octet) place.old octets.now) place.old place.new value.old value.new result }
{
    lemonrudder::lr_get_octet(octets, place, value)
}

/// Reads a char.
#[unsafe(no_mangle)]
pub extern "C" fn lr_get_char(octets: &[u8], place: &mut Place, value: &mut u8) -> i64
    ensures { Gets char_value (read_at (value_at char) place.old octets.now) place.old place.new value.old value.new result }
{
    lemonrudder::lr_get_char(octets, place, value)
}

/// Reads a boolean: 0 or 1.
#[unsafe(no_mangle)]
pub extern "C" fn lr_get_boolean(octets: &[u8], place: &mut Place, value: &mut u8) -> i64
    ensures { Gets flag_value (read_at (value_at form.boolean) place.old octets.now) place.old place.new value.old value.new result }
{
    lemonrudder::lr_get_boolean(octets, place, value)
}

/// Reads a short.
#[unsafe(no_mangle)]
pub extern "C" fn lr_get_short(octets: &[u8], place: &mut Place, value: &mut i16) -> i64
    ensures { Gets short_value (read_at (value_at short) place.old octets.now) place.old place.new value.old value.new result }
{
    lemonrudder::lr_get_short(octets, place, value)
}

/// Reads an unsigned short.
#[unsafe(no_mangle)]
pub extern "C" fn lr_get_ushort(octets: &[u8], place: &mut Place, value: &mut u16) -> i64
    ensures { Gets ushort_value (read_at (value_at ushort) place.old octets.now) place.old place.new value.old value.new result }
{
    lemonrudder::lr_get_ushort(octets, place, value)
}

/// Reads a long.
#[unsafe(no_mangle)]
pub extern "C" fn lr_get_long(octets: &[u8], place: &mut Place, value: &mut i32) -> i64
    ensures { Gets long_value (read_at (value_at long) place.old octets.now) place.old place.new value.old value.new result }
{
    lemonrudder::lr_get_long(octets, place, value)
}

/// Reads an unsigned long.
#[unsafe(no_mangle)]
pub extern "C" fn lr_get_ulong(octets: &[u8], place: &mut Place, value: &mut u32) -> i64
    ensures { Gets ulong_value (read_at (value_at ulong) place.old octets.now) place.old place.new value.old value.new result }
{
    lemonrudder::lr_get_ulong(octets, place, value)
}

/// Reads a long long.
#[unsafe(no_mangle)]
pub extern "C" fn lr_get_longlong(octets: &[u8], place: &mut Place, value: &mut i64) -> i64
    ensures { Gets longlong_value (read_at (value_at longlong) place.old octets.now) place.old place.new value.old value.new result }
{
    lemonrudder::lr_get_longlong(octets, place, value)
}

/// Reads an unsigned long long.
#[unsafe(no_mangle)]
pub extern "C" fn lr_get_ulonglong(octets: &[u8], place: &mut Place, value: &mut u64) -> i64
    ensures { Gets ulonglong_value (read_at (value_at ulonglong) place.old octets.now) place.old place.new value.old value.new result }
{
    lemonrudder::lr_get_ulonglong(octets, place, value)
}

/// Reads a string: the index of its first octet, and its length without the NUL.
#[unsafe(no_mangle)]
pub extern "C" fn lr_get_string(
    octets: &[u8],
    place: &mut Place,
    start: &mut u64,
    length: &mut u64,
) -> i64
    ensures { Finds value.string (read_at (value_at text) place.old octets.now) octets.now place.old place.new start.old start.new length.old length.new result }
{
    lemonrudder::lr_get_string(octets, place, start, length)
}

/// Reads a sequence of octets: the index of the first, and how many there are.
#[unsafe(no_mangle)]
pub extern "C" fn lr_get_octets(
    octets: &[u8],
    place: &mut Place,
    start: &mut u64,
    length: &mut u64,
) -> i64
    ensures { Finds value.octets (read_at (value_at raw) place.old octets.now) octets.now place.old place.new start.old start.new length.old length.new result }
{
    lemonrudder::lr_get_octets(octets, place, start, length)
}

/// Enters an encapsulation: where its octets lie, and the place after its octet of the byte order.
#[unsafe(no_mangle)]
pub extern "C" fn lr_get_encapsulation(
    octets: &[u8],
    place: &mut Place,
    start: &mut u64,
    length: &mut u64,
    inner: &mut Place,
) -> i64
    ensures { Enters (read_at (value_at raw) place.old octets.now) octets.now place.old place.new start.old start.new length.old length.new inner.old inner.new result }
{
    lemonrudder::lr_get_encapsulation(octets, place, start, length, inner)
}

/// Writes an octet.
#[unsafe(no_mangle)]
pub extern "C" fn lr_put_octet(room: &mut [u8], place: &mut Place, value: u8) -> i64
    ensures { Puts (put_at (octet_value value) place.old room.old) place.old place.new room.old room.new result }
{
    lemonrudder::lr_put_octet(room, place, value)
}

/// Writes a char.
#[unsafe(no_mangle)]
pub extern "C" fn lr_put_char(room: &mut [u8], place: &mut Place, value: u8) -> i64
    ensures { Puts (put_at (char_value value) place.old room.old) place.old place.new room.old room.new result }
{
    lemonrudder::lr_put_char(room, place, value)
}

/// Writes a short.
#[unsafe(no_mangle)]
pub extern "C" fn lr_put_short(room: &mut [u8], place: &mut Place, value: i16) -> i64
    ensures { Puts (put_at (short_value value) place.old room.old) place.old place.new room.old room.new result }
{
    lemonrudder::lr_put_short(room, place, value)
}

/// Writes an unsigned short.
#[unsafe(no_mangle)]
pub extern "C" fn lr_put_ushort(room: &mut [u8], place: &mut Place, value: u16) -> i64
    ensures { Puts (put_at (ushort_value value) place.old room.old) place.old place.new room.old room.new result }
{
    lemonrudder::lr_put_ushort(room, place, value)
}

/// Writes a long.
#[unsafe(no_mangle)]
pub extern "C" fn lr_put_long(room: &mut [u8], place: &mut Place, value: i32) -> i64
    ensures { Puts (put_at (long_value value) place.old room.old) place.old place.new room.old room.new result }
{
    lemonrudder::lr_put_long(room, place, value)
}

/// Writes an unsigned long.
#[unsafe(no_mangle)]
pub extern "C" fn lr_put_ulong(room: &mut [u8], place: &mut Place, value: u32) -> i64
    ensures { Puts (put_at (ulong_value value) place.old room.old) place.old place.new room.old room.new result }
{
    lemonrudder::lr_put_ulong(room, place, value)
}

/// Writes a long long.
#[unsafe(no_mangle)]
pub extern "C" fn lr_put_longlong(room: &mut [u8], place: &mut Place, value: i64) -> i64
    ensures { Puts (put_at (longlong_value value) place.old room.old) place.old place.new room.old room.new result }
{
    lemonrudder::lr_put_longlong(room, place, value)
}

/// Writes an unsigned long long.
#[unsafe(no_mangle)]
pub extern "C" fn lr_put_ulonglong(room: &mut [u8], place: &mut Place, value: u64) -> i64
    ensures { Puts (put_at (ulonglong_value value) place.old room.old) place.old place.new room.old room.new result }
{
    lemonrudder::lr_put_ulonglong(room, place, value)
}

/// Writes a boolean: 0 or 1.
#[unsafe(no_mangle)]
pub extern "C" fn lr_put_boolean(room: &mut [u8], place: &mut Place, value: u8) -> i64
    ensures bit { value ≤ 1 → Puts (put_at (octet_value value) place.old room.old) place.old place.new room.old room.new result }
    ensures other { 1 < value → Puts (Err Refusal.Value) place.old place.new room.old room.new result }
{
    lemonrudder::lr_put_boolean(room, place, value)
}

/// Writes a string, with its NUL.
#[unsafe(no_mangle)]
pub extern "C" fn lr_put_string(room: &mut [u8], place: &mut Place, text: &[u8]) -> i64
    ensures clean { IsClean text.now → Puts (put_long (length text.now + 1) (value.string text.now) place.old room.old) place.old place.new room.old room.new result }
    ensures unclean { ¬ (IsClean text.now) → Puts (Err Refusal.Text) place.old place.new room.old room.new result }
{
    lemonrudder::lr_put_string(room, place, text)
}

/// Writes a sequence of octets.
#[unsafe(no_mangle)]
pub extern "C" fn lr_put_octets(room: &mut [u8], place: &mut Place, octets: &[u8]) -> i64
    ensures { Puts (put_long (length octets.now) (value.octets octets.now) place.old room.old) place.old place.new room.old room.new result }
{
    lemonrudder::lr_put_octets(room, place, octets)
}
