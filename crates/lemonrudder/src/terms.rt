//! The limits of a server, and its hasher.

ghost use Rattle.std.specs.Prelude.{◌≡◌, ◌≤◌, Some, None, IfErr, IfOk};
ghost use Rattle.lemonrudder.specs.Limited.{limited, set_to, usual};

use crate::named::{cuts_of, limits_of, truth_of};
use crate::refusal::Refusal;
use crate::seed::Seed;
use crate::serving::Said;
use ft_orb::Places;
use giop_frames::Limits;
use std::hash::RandomState;

/// How much a server takes, keeps and parks, and its hasher, which is made once: making one may fail.
#[derive(Clone, Copy)]
pub struct Terms {
    pub limits: Limits,
    pub capacity: u32,
    pub share: u32,
    pub places: Places,
    /// With so many octets due a connection is fed no more.
    pub due: usize,
    /// How many octets a client's id may have.
    pub longest: usize,
    /// Whether its owner is asked before a request with FT_REQUEST is refused.
    pub first: bool,
    /// The random numbers of the hasher.
    pub seed: Seed,
    pub hasher: RandomState,
}

/// What the owner of a server says of it: its terms, whether it has had a connection, and service contexts of replies to come.
#[derive(Drop)]
pub struct Setup {
    pub terms: Terms,
    pub opened: bool,
    pub said: Option<Said>,
}

/// A number that is to have 32 bits.
pub fn in_32_bits(value: u64) -> Result<u32, Refusal>
    ensures ok { IfOk result (λ n. (n ≡ value) × (value ≤ 4294967295)) }
    ensures err { IfErr result (λ e. (e ≡ Refusal.Range) × (4294967296 ≤ value)) }
{
    u32::try_from(value).map_err(|_| Refusal::Range)
}

/// A number that is not to be 0.
pub fn at_least_1(value: u64) -> Result<u64, Refusal>
    ensures ok { IfOk result (λ n. (n ≡ value) × (1 ≤ value)) }
    ensures err { IfErr result (λ e. (e ≡ Refusal.Range) × (value ≡ 0)) }
{
    if value == 0 {
        return Err(Refusal::Range);
    }
    Ok(value)
}

impl Terms {
    /// The limits of a server where nothing is set.
    pub fn new(seed: Seed, hasher: RandomState) -> Terms
        ensures limited { limited result ≡ usual }
        ensures seed { result.seed ≡ seed }
    {
        let Some(limits) = Limits::new(1_048_576, 4) else {
            unreachable!()
        };
        Terms {
            limits,
            capacity: 65_536,
            share: u32::MAX,
            places: Places {
                parked: 1024,
                of_one: 64,
                joined: 8,
            },
            due: 1_048_576,
            longest: 256,
            first: false,
            seed,
            hasher,
        }
    }

    /// With another value for the limit of a number.
    pub fn set_to(self, what: u32, value: u64) -> Result<Terms, Refusal>
        ensures ok { IfOk result (λ t. (set_to what value (limited self) ≡ Some (limited t)) × (t.seed ≡ self.seed)) }
        ensures err { IfErr result (λ e. (e ≡ Refusal.Range) × (set_to what value (limited self) ≡ None)) }
    {
        let mut terms = self;
        let set = self.limits;
        match what {
            1 => terms.limits = limits_of(in_32_bits(value)?, u32::from(set.partials), set.cuts)?,
            2 => terms.limits = limits_of(set.message, in_32_bits(value)?, set.cuts)?,
            3 => terms.capacity = in_32_bits(value)?,
            4 => terms.share = in_32_bits(value)?,
            5 => terms.places.parked = in_32_bits(value)?,
            6 => terms.places.of_one = in_32_bits(value)?,
            7 => terms.places.joined = in_32_bits(value)?,
            8 => terms.due = at_least_1(value)? as usize,
            9 => terms.longest = value as usize,
            10 => terms.first = truth_of(value)?,
            11 => terms.limits = set.with_cuts(cuts_of(value)?),
            _ => return Err(Refusal::Range),
        }
        Ok(terms)
    }
}
