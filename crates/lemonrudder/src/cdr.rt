//! CDR (CDR 9.3) in octets of the caller, without an allocation.

ghost use Rattle.std.specs.Prelude.{◌≡◌, ◌<◌, ◌≤◌, ◌+◌, ◌^◌, [], ◌∷◌, ◌++◌, length, replicate, Err};
ghost use Rattle.cdr_core.specs.Parts.{raw, text};
ghost use Rattle.cdr_core.specs.Reading.{value_at};
ghost use Rattle.cdr_core.specs.Spelling.{IsClean};
ghost use Rattle.cdr_core.specs.Value as value;
ghost use Rattle.lemonrudder.specs.Finds.{Lends, behind_length, inside, order_in};
ghost use Rattle.lemonrudder.specs.Naming.{by_order, order_named};
ghost use Rattle.lemonrudder.specs.Places.{before, padded, position_at, put_counted, read_at, written, Writes};

use crate::named::{number_of_order, order_of};
use crate::refusal::{Refusal, count_of};
use cdr_core::laws::read_is_spelled;
use cdr_core::{Cursor, Order, has_no_nul};

/// Where reading or writing stands: `lr_place`.
#[repr(C)]
#[derive(Clone, Copy, Debug, Drop)]
pub struct Place {
    /// The place of the first octet, from which numbers are aligned.
    pub at: u64,
    /// The index of the next octet.
    pub next: u64,
    pub order: u32,
    pub reserved: u32,
}

/// The order of an encapsulation, by its first octet.
pub fn order_in(octets: &[u8]) -> Result<Order, Refusal>
    ensures { result ≡ order_in octets.now }
{
    match octets.first() {
        Some(octet) => order_of(u32::from(*octet)).map_err(|_| Refusal::Value),
        None => Err(Refusal::Short),
    }
}

/// Places are below this.
const END: u64 = 1 << 32;

/// Fills a room with zeros, so many, and octets after them.
fn lay(room: &mut [u8], zeros: usize, head: &[u8], octets: &[u8], tail: &[u8])
    requires { length room.old ≡ zeros + (length head.now + (length octets.now + length tail.now)) }
    ensures { room.new ≡ replicate zeros 0 ++ (head.now ++ (octets.now ++ tail.now)) }
{
    let (front, back) = room.split_at_mut(zeros);
    front.fill(0);
    let (front, back) = back.split_at_mut(head.len());
    front.copy_from_slice(head);
    let (front, back) = back.split_at_mut(octets.len());
    front.copy_from_slice(octets);
    back.copy_from_slice(tail);
}

impl Place {
    /// A cursor at the place.
    pub(crate) fn cursor<'o>(&self, octets: &'o [u8]) -> Result<Cursor<'o>, Refusal>
        ensures { result ≡ position_at self.now octets.now }
    {
        let order = order_of(self.order)?;
        if self.at >= END || self.next >= END || self.at + self.next >= END {
            return Err(Refusal::Range);
        }
        let rest = octets.get(self.next as usize..).ok_or(Refusal::Range)?;
        Ok(Cursor::new(rest, order, self.at + self.next))
    }

    /// Moves to where a cursor in these octets stands.
    pub(crate) fn follow(&mut self, octets: &[u8], cursor: &Cursor<'_>)
        ensures { self.new ≡ before self.old octets.now cursor.now.rest }
    {
        self.next = count_of(octets).saturating_sub(count_of(cursor.rest()));
    }

    /// The index of the first octet after a length that is to be read.
    fn behind_length(&self) -> u64
        requires { self.now.at + self.now.next < 2 ^ 32 }
        ensures { result ≡ behind_length self.now }
    {
        let padding = (4 - (self.at + self.next) % 4) % 4;
        self.next + (padding + 4)
    }

    /// Reads a sequence of octets: the index of the first, and the octets.
    pub(crate) fn octets<'o>(&mut self, octets: &'o [u8]) -> Result<(u64, &'o [u8]), Refusal>
        ensures { Lends value.octets (read_at (value_at raw) self.old octets.now) octets.now self.old self.new result }
    {
        read_is_spelled();
        let mut cursor = self.cursor(octets)?;
        let start = self.behind_length();
        let found = cursor.octets()?;
        self.follow(octets, &cursor);
        Ok((start, found))
    }

    /// Reads a string: the index of its first octet, and its octets without the NUL.
    pub(crate) fn string<'o>(&mut self, octets: &'o [u8]) -> Result<(u64, &'o [u8]), Refusal>
        ensures { Lends value.string (read_at (value_at text) self.old octets.now) octets.now self.old self.new result }
    {
        read_is_spelled();
        let mut cursor = self.cursor(octets)?;
        let start = self.behind_length();
        let found = cursor.string()?;
        self.follow(octets, &cursor);
        Ok((start, found))
    }

    /// The place in an encapsulation after its octet of the byte order.
    pub(crate) fn inner(order: Order) -> Place
        ensures { result ≡ inside order }
    {
        Place {
            at: 0,
            next: 1,
            order: number_of_order(order),
            reserved: 0,
        }
    }

    /// Writes octets at a place divisible by a size, with zeros before.
    pub(crate) fn put(
        &mut self,
        room: &mut [u8],
        size: u64,
        head: &[u8],
        octets: &[u8],
        tail: &[u8],
    ) -> Result<u64, Refusal>
        requires size { (0 < size) × (size ≤ 8) }
        requires long { length head.now + length octets.now + length tail.now < 2 ^ 62 }
        ensures { Writes (written self.old (padded self.old size (head.now ++ (octets.now ++ tail.now))) room.old) self.old self.new room.old room.new result }
    {
        if self.at >= END || self.next >= END || END <= self.at + self.next {
            return Err(Refusal::Range);
        }
        let padding = (size - (self.at + self.next) % size) % size;
        let (start, zeros) = (self.next as usize, padding as usize);
        if room.len() < start {
            return Err(Refusal::Range);
        }
        let size = zeros + (head.len() + (octets.len() + tail.len()));
        if room.len() - start < size {
            return Err(Refusal::Room);
        }
        lay(&mut room[start..start + size], zeros, head, octets, tail);
        self.next += size as u64;
        Ok(0)
    }

    /// Writes a length and as many octets, the last of which is a NUL where one is wanted.
    pub(crate) fn put_all(
        &mut self,
        room: &mut [u8],
        octets: &[u8],
        nul: &[u8],
    ) -> Result<u64, Refusal>
        ensures { Writes (put_counted octets.now nul.now self.old room.old) self.old self.new room.old room.new result }
    {
        let order = order_of(self.order)?;
        let length = count_of(octets).saturating_add(count_of(nul));
        let length = u32::try_from(length).map_err(|_| Refusal::Long)?;
        let mut number = [0; 4];
        order.put_ulong(length, &mut number);
        self.put(room, 4, &number, octets, nul)
    }

    /// Writes a string, with its NUL.
    pub(crate) fn put_string(&mut self, room: &mut [u8], text: &[u8]) -> Result<u64, Refusal>
        ensures clean { IsClean text.now → Writes (put_counted text.now (0 ∷ []) self.old room.old) self.old self.new room.old room.new result }
        ensures unclean { ¬ (IsClean text.now) → Writes (Err Refusal.Text) self.old self.new room.old room.new result }
    {
        if !has_no_nul(text) {
            return Err(Refusal::Text);
        }
        self.put_all(room, text, b"\0")
    }

    /// Writes a number of 1, 2, 4 or 8 octets, which are given in both orders.
    pub(crate) fn put_number(
        &mut self,
        room: &mut [u8],
        big: &[u8],
        little: &[u8],
    ) -> Result<u64, Refusal>
        requires { (0 < length big.now) × ((length big.now ≤ 8) × (length little.now ≡ length big.now)) }
        ensures { let size = length big.now in
            Writes (by_order (order_named self.old.order) (written self.old (padded self.old size big.now) room.old) (written self.old (padded self.old size little.now) room.old))
            self.old self.new room.old room.new result }
    {
        let size = count_of(big);
        match order_of(self.order)? {
            Order::Big => self.put(room, size, big, &[], &[]),
            Order::Little => self.put(room, size, little, &[], &[]),
        }
    }
}
