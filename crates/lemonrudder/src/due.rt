//! Octets that are to be sent, and that the caller has not taken yet.

ghost use Rattle.std.specs.Prelude.{◌≡◌, ◌+◌, [], drop, length, min};
ghost use Rattle.lemonrudder.specs.Refusals.{filled};

/// Octets that are due; the first `taken` are gone.
#[derive(Drop)]
pub struct Due {
    pub octets: Vec<u8>,
    taken: usize,
}

impl Due {
    ghost use Rattle.lemonrudder.specs.Dues.{IsPlaced, owed};

    /// Nothing is due.
    pub fn new(octets: Vec<u8>) -> Due
        ensures owed { owed result ≡ octets.items }
        ensures placed { IsPlaced result }
    {
        Due { octets, taken: 0 }
    }

    /// How many octets are due.
    pub fn len(&self) -> usize
        ensures { result ≡ length (owed self.now) }
    {
        self.octets.len().saturating_sub(self.taken)
    }

    /// How many octets there are, with those that are gone.
    pub fn size(&self) -> usize
        ensures { result ≡ length self.now.octets.items }
    {
        self.octets.len()
    }

    /// As many octets as may be, with those that are gone.
    pub fn most(&self, most: usize) -> usize
        ensures { result ≡ min (most + self.now.taken) 18446744073709551615 }
    {
        most.saturating_add(self.taken)
    }

    /// The same is due, and no more octets are taken than there are.
    pub fn placed(self) -> Due
        ensures owed { owed result ≡ owed self }
        ensures placed { IsPlaced result }
    {
        let Due { octets, taken } = self;
        let taken = taken.min(octets.len());
        Due { octets, taken }
    }

    /// No more octets are taken than there are, and the same is due.
    #[inline(always)]
    pub fn place(&mut self)
        ensures owed { owed self.new ≡ owed self.old }
        ensures octets { self.new.octets ≡ self.old.octets }
        ensures placed { IsPlaced self.new }
    {
        self.taken = self.taken.min(self.octets.len());
    }

    /// Drops what is due.
    pub fn drop_all(&mut self)
        ensures owed { owed self.new ≡ [] }
        ensures placed { IsPlaced self.new }
    {
        self.octets.clear();
        self.taken = 0;
    }

    /// Moves octets into a room, as many as it has, and answers how many.
    pub fn output(&mut self, room: &mut [u8]) -> u64
        ensures count { result ≡ min (length (owed self.old)) (length room.old) }
        ensures room { room.new ≡ filled (owed self.old) room.old }
        ensures owed { owed self.new ≡ drop result (owed self.old) }
        ensures placed { IsPlaced self.old → IsPlaced self.new }
    {
        let Some(left) = self.octets.get(self.taken..) else {
            return 0;
        };
        let count = left.len().min(room.len());
        room[..count].copy_from_slice(&left[..count]);
        if count == left.len() {
            self.drop_all();
        } else {
            self.taken += count;
        }
        count as u64
    }
}
