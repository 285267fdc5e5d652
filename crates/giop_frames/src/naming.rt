//! The request id of a partial message of 1.1, which stands after its service contexts (GIOP 9.4.2, GIOP 9.4.3). Reading
//! goes on where it stopped, so each context is passed over once.

ghost use Rattle.std.specs.Prelude.{◌≡◌, ◌<◌, ◌≤◌, ◌++◌, ◌^◌, List, ℕ, length, IsErr};
ghost use Rattle.cdr_core.specs.Cursor.{Gives};
ghost use Rattle.cdr_core.specs.Reading.{value_at};
ghost use Rattle.ior_core.specs.Grammar.{tagged};
ghost use Rattle.ior_core.specs.View.{lent_value};
ghost use Rattle.giop_frames.specs.Fragments.{is_number};
ghost use Rattle.giop_frames.specs.Naming.{IsAt, IsReadTo, Passes, id_after, id_from, id_in, id_read, place_of};

use cdr_core::{Cursor, Fault, Order};
use giop_core::Header;
use ior_core::read_tagged;

/// How far a message of 1.1 was read for its request id.
#[derive(Clone, Copy)]
pub enum Named {
    /// Not at all.
    Unread,
    /// As far as a place in it, from which on so many service contexts come before the id.
    UpTo { at: u32, left: u32 },
    /// As far as the id.
    Id(u32),
}

/// Reads a service context, or stays before it where it is not there whole.
fn next_context<'a>(cursor: &mut Cursor<'a>) -> Result<(u32, &'a [u8]), Fault>
    ensures { Gives lent_value result (value_at tagged cursor.old.order) cursor.old cursor.new }
{
    let mut next = cursor.fork();
    let context = read_tagged(&mut next)?;
    *cursor = next;
    Ok(context)
}

/// Passes over the service contexts that are there whole, and returns how many are left.
fn pass(cursor: &mut Cursor, count: u32) -> u32
    ensures order { cursor.new.order ≡ cursor.old.order }
    ensures passes { (message : List ℕ) → IsAt cursor.old message → Passes cursor.old cursor.new count result message }
    ensures stops { 0 < result → IsErr (value_at tagged cursor.new.order cursor.new.place cursor.new.rest) }
{
    cdr_core::laws::read_is_spelled();
    cdr_core::laws::spelled_is_read();
    for passed in 0..count {
        if next_context(cursor).is_err() {
            return count - passed;
        }
    }
    0
}

/// Reads on from a place from which on so many service contexts come before the id.
fn read_from(order: Order, message: &[u8], at: u32, count: u32) -> Named
    requires at { at ≤ length message.now }
    requires short { length message.now < 2 ^ 32 }
    ensures place { place_of result ≤ length message.now }
    ensures same { (more : List ℕ) → id_from order result (message.now ++ more) ≡ id_after order (message.now ++ more) at count }
    ensures id { id_read result ≡ id_after order message.now at count }
{
    cdr_core::laws::read_is_spelled();
    cdr_core::laws::spelled_is_read();
    let (_, octets) = message.split_at(at as usize);
    let mut cursor = Cursor::new(octets, order, u64::from(at));
    let left = pass(&mut cursor, count);
    if left == 0 {
        if let Ok(id) = cursor.ulong() {
            return Named::Id(id);
        }
    }
    Named::UpTo {
        at: cursor.place() as u32,
        left,
    }
}

/// Reads the number of service contexts, where it is there, and on from there.
fn begin(order: Order, message: &[u8]) -> Named
    requires long { 12 ≤ length message.now }
    requires short { length message.now < 2 ^ 32 }
    ensures read { IsReadTo order result message.now }
    ensures id { id_read result ≡ id_in order message.now }
{
    cdr_core::laws::read_is_spelled();
    cdr_core::laws::spelled_is_read();
    let (_, octets) = message.split_at(Header::LEN);
    let mut cursor = Cursor::new(octets, order, Header::LEN as u64);
    match cursor.ulong() {
        Ok(count) => read_from(order, message, cursor.place() as u32, count),
        Err(_) => Named::Unread,
    }
}

impl Named {
    /// Reads on as far as the octets of the message have come.
    pub(crate) fn read_on(self, order: Order, message: &[u8]) -> Named
        requires long { 12 ≤ length message.now }
        requires short { length message.now < 2 ^ 32 }
        requires read { IsReadTo order self message.now }
        ensures read { IsReadTo order result message.now }
        ensures id { id_read result ≡ id_in order message.now }
    {
        match self {
            Named::Unread => begin(order, message),
            Named::UpTo { at, left } => read_from(order, message, at, left),
            Named::Id(_) => self,
        }
    }

    /// Whether the request id was read, and it is this one.
    pub(crate) fn is(self, id: u32) -> bool
        ensures { result ≡ is_number id (id_read self) }
    {
        match self {
            Named::Id(named) => id == named,
            Named::Unread | Named::UpTo { .. } => false,
        }
    }
}
