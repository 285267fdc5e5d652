//! A wire in memory.

ghost use Rattle.std.specs.Prelude.{◌≡◌, ◌≤◌, [], Some, length, map, option_map};

use crate::tape::{Act, with_act, with_read, with_write};
use ft_orb::{Wire, WireError};
use std::alloc::Global;

/// What a wire in memory does.
#[derive(Clone, Copy)]
pub struct Terms<'a> {
    /// The pieces that the peer sends, one for each read. After the last it sends no more.
    pub sends: &'a [&'a [u8]],
    /// How many octets a write takes at most.
    pub takes: usize,
    /// The call that fails, reads and writes counted together from 1. With 0 none does.
    pub fails: u32,
}

/// A wire in memory. It says what it has done as long as it can be written down.
#[derive(Drop)]
pub struct MemoryWire<'a> {
    alloc: Global,
    terms: Terms<'a>,
    reads: usize,
    calls: u32,
    tape: Option<Vec<Act>>,
}

impl<'a> MemoryWire<'a> {
    ghost use Rattle.memory_wire.specs.Tapes.{act_of, said_by};

    /// A wire that has done nothing.
    pub fn new(alloc: Global, terms: Terms<'a>) -> MemoryWire<'a>
        ensures { said_by result.tape ≡ Some [] }
    {
        MemoryWire {
            alloc,
            terms,
            reads: 0,
            calls: 0,
            tape: Some(Vec::new(alloc)),
        }
    }

    /// What its calls did, the first first, if it says that.
    pub fn acts(&self) -> Option<&[Act]>
        ensures { option_map (λ acts. map act_of acts.now) result ≡ said_by self.now.tape }
    {
        match &self.tape {
            Some(tape) => Some(tape.as_slice()),
            None => None,
        }
    }

    /// Counts a call, and returns whether it is the one that fails.
    fn is_failing(&mut self) -> bool
        ensures { self.new.tape ≡ self.old.tape }
    {
        self.calls = self.calls.saturating_add(1);
        self.calls == self.terms.fails
    }

    /// Copies the next piece to the front of a buffer, as far as there is room, and returns how many octets it has.
    fn fill(&mut self, buffer: &mut [u8]) -> usize
        ensures same { self.new.tape ≡ self.old.tape }
        ensures within { result ≤ length buffer.new }
    {
        let Some(piece) = self.terms.sends.get(self.reads) else {
            return 0;
        };
        self.reads = self.reads.saturating_add(1);
        let n = piece.len().min(buffer.len());
        buffer[..n].copy_from_slice(&piece[..n]);
        n
    }
}

impl<'a> Wire for MemoryWire<'a> {
    ghost use Rattle.memory_wire.specs.Tapes.{said_by};

    ghost traffic = { λ w. said_by w.tape };

    fn read(&mut self, buffer: &mut [u8]) -> Result<usize, WireError> {
        if self.is_failing() {
            self.tape = with_act(self.tape.take(), Act::ReadFailed);
            return Err(WireError);
        }
        let n = self.fill(buffer);
        self.tape = with_read(self.alloc, self.tape.take(), buffer, n);
        Ok(n)
    }

    fn write(&mut self, octets: &[u8]) -> Result<usize, WireError> {
        if self.is_failing() {
            self.tape = with_act(self.tape.take(), Act::WriteFailed);
            return Err(WireError);
        }
        let n = octets.len().min(self.terms.takes);
        self.tape = with_write(self.alloc, self.tape.take(), octets, n);
        Ok(n)
    }
}
