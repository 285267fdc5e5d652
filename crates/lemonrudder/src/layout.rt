//! Structs of C as octets.

ghost use Rattle.std.specs.Prelude.{◌≡◌, ◌+◌, ◌≤◌, ◌++◌, [], length};
ghost use Rattle.std.specs.Int.{cast_unsigned, to_le_bytes, w32, w64};
ghost use Rattle.lemonrudder.specs.Layouts.{laid, written};

use crate::refusal::copied;

/// How many octets the longest struct has.
const LONGEST: usize = 104;

/// The front of a struct: the octets of its members, each of which begins where the one before it ends.
#[derive(Drop)]
pub struct Layout {
    octets: [u8; 104],
    len: usize,
}

impl Layout {
    /// No member.
    #[inline(always)]
    pub fn new() -> Layout
        ensures written { written result ≡ [] }
        ensures len { result.len ≡ 0 }
    {
        Layout {
            octets: [0; LONGEST],
            len: 0,
        }
    }

    /// Appends octets.
    #[inline(always)]
    fn put(&mut self, octets: &[u8])
        requires { self.old.len + length octets.now ≤ 104 }
        ensures written { written self.new ≡ written self.old ++ octets.now }
        ensures len { self.new.len ≡ self.old.len + length octets.now }
    {
        let end = self.len + octets.len();
        self.octets[self.len..end].copy_from_slice(octets);
        self.len = end;
    }

    /// Appends a number of 64 bits.
    #[inline(always)]
    pub fn put_u64(&mut self, number: u64)
        requires { self.old.len + 8 ≤ 104 }
        ensures written { written self.new ≡ written self.old ++ to_le_bytes w64 number }
        ensures len { self.new.len ≡ self.old.len + 8 }
    {
        self.put(&number.to_le_bytes());
    }

    /// Appends a number of 32 bits.
    #[inline(always)]
    pub fn put_u32(&mut self, number: u32)
        requires { self.old.len + 4 ≤ 104 }
        ensures written { written self.new ≡ written self.old ++ to_le_bytes w32 number }
        ensures len { self.new.len ≡ self.old.len + 4 }
    {
        self.put(&number.to_le_bytes());
    }

    /// Appends a signed number of 32 bits.
    #[inline(always)]
    pub fn put_i32(&mut self, number: i32)
        requires { self.old.len + 4 ≤ 104 }
        ensures written { written self.new ≡ written self.old ++ to_le_bytes w32 (cast_unsigned w32 number) }
        ensures len { self.new.len ≡ self.old.len + 4 }
    {
        self.put(&number.to_le_bytes());
    }

    /// Fills a room: with the octets, as many as it has, and with zeros behind.
    #[inline(always)]
    pub fn fill(&self, room: &mut [u8])
        requires { self.now.len ≤ 104 }
        ensures { room.new ≡ laid (written self.now) room.old }
    {
        room.fill(0);
        copied(&self.octets[..self.len], room);
    }
}
