//! The random numbers of a hasher, which the caller gives.

ghost use Rattle.std.specs.Prelude.{◌≡◌, IsOk};
ghost use Rattle.lemonrudder.specs.Refusals.{filled};
ghost use Rattle.lemonrudder.specs.Seeds.{octets_of_seed};

use crate::refusal::copied;
use std::io;
use std::random::RandomSource;

/// Two random numbers.
#[derive(Clone, Copy)]
pub struct Seed {
    pub low: u64,
    pub high: u64,
}

impl Seed {
    /// The two numbers as octets, each with its lowest octet first.
    fn octets(&self) -> [u8; 16]
        ensures { result ≡ octets_of_seed self.now }
    {
        let mut octets = [0; 16];
        octets[..8].copy_from_slice(&self.low.to_le_bytes());
        octets[8..].copy_from_slice(&self.high.to_le_bytes());
        octets
    }
}

impl RandomSource for Seed {
    /// Fills the front of a buffer with the octets of the two numbers, as many as it has.
    fn fill_bytes(&self, buf: &mut [u8]) -> io::Result<()>
        ensures ok { IsOk result }
        ensures filled { buf.new ≡ filled (octets_of_seed self.now) buf.old }
    {
        copied(&self.octets(), buf);
        Ok(())
    }
}
