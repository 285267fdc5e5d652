//! A life of an engine from a list of deeds: its owner answers at once, parks and settles, in any order.

ghost use Rattle.std.specs.Prelude.{◌≡◌, ◌++◌, ℕ, List, None, flat_map, length, map, take};
ghost use Rattle.ft_log.specs.Holding.{Holding};
ghost use Rattle.ft_orb.specs.Deeds.{Deed as History, notes_of};
ghost use Rattle.ft_orb.specs.DeedsPlayed.{AreOf, IsAnsweredLate, deeds_done};
ghost use Rattle.ft_orb.specs.Outputs.{noted};
ghost use Rattle.ft_orb.specs.Requests.{terms_of};

use crate::banking::{BankingError, bank_interfaces};
use ft_log::Retention;
use ft_objects::Catalogue;
use ft_orb::{Deed, DeedsError, Engine, Places, Written, play_deeds};
use giop_frames::Limits;
use std::alloc::Global;
use std::hash::RandomState;
use thiserror::Error;

/// Why deeds were not all done.
#[derive(Debug, Drop, Error)]
pub enum LifeError {
    #[error("{0}")]
    Bank(#[from] BankingError),
    #[error("{0}")]
    Deeds(#[from] DeedsError),
}

/// Makes an engine, does deeds on it one after another, and appends what was written in each.
///
/// Whatever they are, and whenever outcomes come: the calls that the owner took are those of the distinct admissible
/// requests, each once, in the order in which these came, where none is declined and requests with one key carry one expiration; a call has one
/// outcome, for ever, and each who waits for it is told it once, waits on, or its connection has ended. Where octets of a
/// piece are left the life ends there.
pub fn live<C: Catalogue + Drop>(
    alloc: Global,
    hasher: RandomState,
    catalogue: C,
    limits: Limits,
    deeds: &[Deed],
    out: &mut Vec<Written>,
) -> Result<(), DeedsError>
    ensures { (held : ℕ → Holding) → (ds : List History) × (written : List Written)
        × (out.new.items ≡ out.old.items ++ written)
        × AreOf (take (deeds_done (length deeds.now) result) deeds.now) ds
        × (flat_map notes_of ds ≡ map noted written)
        × IsAnsweredLate (record { terms = λ n. terms_of None (C.offers catalogue); limits = limits; capacity = 100; share = 100; places = record { parked = 100; of_one = 20; joined = 10 } }) held ds }
{
    let retention = Retention {
        capacity: 100,
        share: 100,
    };
    // at most 100 requests are parked, at most 20 of one connection, and at most 11 wait for one
    let places = Places {
        parked: 100,
        of_one: 20,
        joined: 10,
    };
    let mut engine = Engine::new(alloc, catalogue, limits, retention, places, hasher);
    play_deeds(alloc, &mut engine, deeds, out)
}

/// The life of an engine that offers a bank.
pub fn live_as_bank(
    alloc: Global,
    hasher: RandomState,
    limits: Limits,
    deeds: &[Deed],
    out: &mut Vec<Written>,
) -> Result<(), LifeError> {
    let interfaces = bank_interfaces(alloc)?;
    live(alloc, hasher, interfaces, limits, deeds, out)?;
    Ok(())
}
