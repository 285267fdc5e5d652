//! A request that waits for its outcome, as the owner of an engine sees it.

ghost use Rattle.std.specs.Prelude.{◌≡◌, ◌≤◌, ◌+◌, ◌^◌, MatchOption};
ghost use Rattle.ft_orb.specs.Engines.{field_lent};
ghost use Rattle.ft_orb.specs.Waits.{field_with};

use crate::keeper::Retained;
use cdr_core::Val;
use ft_log::{Key, SystemName};

/// Who asks, and until when the request may be sent again (FT_REQUEST, FT 23.2.7).
#[derive(Clone, Copy, Debug)]
pub struct FtRequest<'e> {
    /// The request over all its transmissions.
    pub key: &'e Key,
    /// A moment in units of 100 ns since 15 October 1582, 00:00 UTC.
    pub expiration: u64,
}

/// A request that waits for its outcome.
#[derive(Clone, Copy, Debug)]
pub struct Asked<'e> {
    /// By this number it is answered, parked or given up. No other request has it.
    pub number: u64,
    /// The connection that it came on.
    pub connection: u64,
    /// None: it has no FT_REQUEST, and each transmission of it waits by itself.
    pub ft_request: Option<FtRequest<'e>>,
    pub object_key: &'e [u8],
    pub operation: &'e [u8],
    pub arguments: &'e [Val],
    /// What would refuse it, where its owner is asked first (`Engine::ask_first`): its arguments are its body then, as those of a
    /// raw operation.
    pub refused: Option<SystemName>,
}

/// The key and the expiration of a request whose outcome is to be kept.
pub(crate) fn lent(retained: &Option<Retained>) -> Option<FtRequest<'_>>
    ensures { field_lent result ≡ field_with retained.now }
{
    match retained {
        Some(retained) => {
            Some(FtRequest {
                key: &retained.key,
                expiration: retained.expiration,
            })
        }
        None => None,
    }
}

/// The number of one request more, if one is left.
pub(crate) fn next_number(asks: &mut u64) -> Option<u64>
    ensures { MatchOption result ((asks.new ≡ asks.old) × (2 ^ 64 ≤ asks.old + 1)) (λ n. (n ≡ asks.old) × (asks.new ≡ asks.old + 1)) }
{
    let number = *asks;
    *asks = number.checked_add(1)?;
    Some(number)
}
