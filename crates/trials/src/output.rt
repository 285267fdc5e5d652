//! The vectors that octets are written into.

ghost use Rattle.std.specs.Prelude.{◌≡◌, ◌↔◌, ◌++◌, IfOk, IsTrue};

use std::alloc::{AllocError, Global};

/// What stands in a vector before a call, and how many octets it has reserved.
#[derive(Clone, Copy)]
pub enum Room {
    /// Nothing stands in it, and nothing is reserved.
    Empty,
    /// Octets stand in it, and nothing more is reserved.
    Full,
    /// Octets stand in it, and those of any sample are reserved.
    Ample,
}

/// The octets that stand in a vector before a call, if any do.
const BEFORE: [u8; 3] = [0xca, 0xfe, 1];

/// More octets than `BEFORE`, any sample, and what a writer reserves for a short message have together.
const AMPLE: usize = 256;

/// A vector, and the octets that stood in it before the call.
#[derive(Drop)]
pub struct Output {
    /// The octets that stood in it.
    pub before: &'static [u8],
    /// The vector.
    pub out: Vec<u8>,
}

impl Output {
    /// A vector before a call.
    pub fn new(alloc: Global, room: Room) -> Result<Output, AllocError>
        ensures { IfOk result (λ o. o.out.items ≡ o.before.now) }
    {
        let (before, capacity): (&'static [u8], usize) = match room {
            Room::Empty => (&[], 0),
            Room::Full => (&BEFORE, BEFORE.len()),
            Room::Ample => (&BEFORE, AMPLE),
        };
        let mut out = Vec::with_capacity(alloc, capacity)?;
        out.extend_from_slice(before)?;
        Ok(Output { before, out })
    }

    /// Whether these octets, and no others, stand in the vector after those from before.
    pub fn has_gained(&self, octets: &[u8]) -> bool
        ensures { IsTrue result ↔ (self.now.out.items ≡ self.now.before.now ++ octets.now) }
    {
        match self.out.strip_prefix(self.before) {
            Some(gained) => gained == octets,
            None => false,
        }
    }
}
