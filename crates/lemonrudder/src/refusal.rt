//! Why a call does nothing: the error numbers of the header.

ghost use Rattle.std.specs.Prelude.{◌≡◌, ◌<◌, ◌≤◌, length};
ghost use Rattle.lemonrudder.specs.declared.refusal.Refusal.TheVariants.{Memory};
ghost use Rattle.lemonrudder.specs.Refusals.{error_number, filled, number_in, refusal_of_calling, refusal_of_connecting, refusal_of_fault, refusal_of_offering, refusal_of_raw_calling, refusal_of_raw_recalling, refusal_of_raw_redirecting, refusal_of_reading, refusal_of_recalling, refusal_of_redirecting, refusal_of_referring, refusal_of_serving, refusal_of_writing, signed_of};

use cdr_core::{CdrError, Fault, Kind};
use ft_client::{
    CallError, RawCallError, RawRecallError, RawRedirectError, RecallError, RedirectError,
};
use ft_objects::InterfacesError;
use ft_orb::{ConnectError, ServeError};
use giop_core::WriteError;
use ior_core::IorError;
use std::alloc::{AllocError, AllocFailed};

/// Why a call is refused, or what it could not do.
#[derive(Clone, Copy, Debug, Drop)]
pub enum Refusal {
    /// The slot has no object of the kind.
    Empty,
    /// The slot has an object already.
    Open,
    /// An allocation failed, and nothing has changed.
    Memory,
    /// A number is none of those that are allowed.
    Range,
    /// There is no such connection, or its number is not new.
    Connection,
    /// A request waits for its outcome.
    Asking,
    /// No request waits.
    Idle,
    /// As many requests are parked as may be, or one is for whose outcome somebody waits on the connection.
    Parks,
    /// No outcome of the operation, or one that can't be sent.
    Outcome,
    /// The room is too small.
    Room,
    /// Octets are missing.
    Short,
    /// No value of the type.
    Value,
    /// The codes spell no valid types.
    Types,
    /// A NUL where none may be, or a length that is not allowed.
    Text,
    /// There is an object or operation of that name, or a call of that number or a greater one.
    Taken,
    /// There is no object of that key.
    Object,
    /// Every operation of the object is raw.
    Raw,
    /// No stringified reference.
    Reference,
    /// The stream has a fault.
    Stream,
    /// There is no such part.
    None,
    /// The moment is past the expiration.
    Expired,
    /// No more calls are taken.
    Calls,
    /// The message would be too long.
    Long,
    /// An allocation failed, and the connection is gone.
    Lost,
    /// The body would stand at a place that is not divisible by 8.
    Place,
    /// No request of that ticket waits, or is parked.
    Ticket,
    /// No pending call of that number is led elsewhere.
    Forward,
}

impl Refusal {
    /// The number of the header.
    pub fn number(self) -> i64
        ensures { result ≡ error_number self }
    {
        match self {
            Refusal::Empty => -1,
            Refusal::Open => -2,
            Refusal::Memory => -3,
            Refusal::Range => -4,
            Refusal::Connection => -5,
            Refusal::Asking => -6,
            Refusal::Idle => -7,
            Refusal::Parks => -8,
            Refusal::Outcome => -9,
            Refusal::Room => -10,
            Refusal::Short => -11,
            Refusal::Value => -12,
            Refusal::Types => -13,
            Refusal::Text => -14,
            Refusal::Taken => -15,
            Refusal::Object => -16,
            Refusal::Raw => -17,
            Refusal::Reference => -18,
            Refusal::Stream => -19,
            Refusal::None => -20,
            Refusal::Expired => -21,
            Refusal::Calls => -22,
            Refusal::Long => -23,
            Refusal::Lost => -24,
            Refusal::Place => -25,
            Refusal::Ticket => -26,
            Refusal::Forward => -27,
        }
    }
}

/// A count as an export answers it. No length of octets is over the greatest.
pub fn signed(count: u64) -> i64
    ensures { result ≡ signed_of count }
{
    i64::try_from(count).unwrap_or(i64::MAX)
}

/// The number that an export answers: a count, or that of a refusal.
pub fn number_of(answer: Result<u64, Refusal>) -> i64
    ensures { result ≡ number_in answer }
{
    match answer {
        Ok(count) => signed(count),
        Err(refusal) => refusal.number(),
    }
}

/// The length of octets, as a count.
pub fn count_of(octets: &[u8]) -> u64
    ensures { result ≡ length octets.now }
{
    octets.len() as u64
}

/// Copies octets into a room, as many as it has, and answers how many there are.
pub fn copied(octets: &[u8], room: &mut [u8]) -> u64
    ensures count { result ≡ length octets.now }
    ensures room { room.new ≡ filled octets.now room.old }
{
    let count = octets.len().min(room.len());
    room[..count].copy_from_slice(&octets[..count]);
    octets.len() as u64
}

/// Copies all of the octets into a room, and answers how many there are.
pub fn fitted(octets: &[u8], room: &mut [u8]) -> Result<u64, Refusal>
    ensures fits { length octets.now ≤ length room.old → (result ≡ Ok (length octets.now)) × (room.new ≡ filled octets.now room.old) }
    ensures room { length room.old < length octets.now → (result ≡ Err Refusal.Room) × (room.new ≡ room.old) }
{
    if room.len() < octets.len() {
        return Err(Refusal::Room);
    }
    Ok(copied(octets, room))
}

impl From<Fault> for Refusal {
    ghost from_gives = { λ e r. r ≡ refusal_of_fault e };

    fn from(fault: Fault) -> Refusal {
        match fault.kind {
            Kind::Short => Refusal::Short,
            _ => Refusal::Value,
        }
    }
}

impl<T: Drop> From<AllocFailed<T>> for Refusal {
    ghost from_gives = { λ _ r. r ≡ Memory };

    fn from(_error: AllocFailed<T>) -> Refusal {
        Refusal::Memory
    }
}

impl From<CdrError> for Refusal {
    ghost from_gives = { λ e r. r ≡ refusal_of_reading e };

    fn from(error: CdrError) -> Refusal {
        match error {
            CdrError::Memory => Refusal::Memory,
            CdrError::Bad(fault) => Refusal::from(fault),
        }
    }
}

impl From<InterfacesError> for Refusal {
    ghost from_gives = { λ e r. r ≡ refusal_of_offering e };

    fn from(error: InterfacesError) -> Refusal {
        match error {
            InterfacesError::NotValid => Refusal::Text,
            InterfacesError::NoObject => Refusal::Object,
            InterfacesError::RawObject => Refusal::Raw,
            InterfacesError::Taken => Refusal::Taken,
            InterfacesError::Memory => Refusal::Memory,
        }
    }
}

impl From<ConnectError> for Refusal {
    ghost from_gives = { λ e r. r ≡ refusal_of_connecting e };

    fn from(error: ConnectError) -> Refusal {
        match error {
            ConnectError::NotNew => Refusal::Connection,
            ConnectError::Memory => Refusal::Memory,
        }
    }
}

impl From<ServeError> for Refusal {
    ghost from_gives = { λ e r. r ≡ refusal_of_serving e };

    fn from(error: ServeError) -> Refusal {
        match error {
            ServeError::NoConnection => Refusal::Connection,
            ServeError::Memory {
                handled: _,
                answered: _,
            } => Refusal::Lost,
        }
    }
}

impl From<CallError> for Refusal {
    ghost from_gives = { λ e r. r ≡ refusal_of_calling e };

    fn from(error: CallError) -> Refusal {
        match error {
            CallError::Expired => Refusal::Expired,
            CallError::IdsUsed => Refusal::Calls,
            CallError::TooManyCalls => Refusal::Calls,
            CallError::TooLong => Refusal::Long,
            CallError::Memory => Refusal::Memory,
        }
    }
}

impl From<RecallError> for Refusal {
    ghost from_gives = { λ e r. r ≡ refusal_of_recalling e };

    fn from(error: RecallError) -> Refusal {
        match error {
            RecallError::NumberUsed => Refusal::Taken,
            RecallError::Expired => Refusal::Expired,
            RecallError::TooManyCalls => Refusal::Calls,
            RecallError::TooLong => Refusal::Long,
            RecallError::Memory => Refusal::Memory,
        }
    }
}

impl From<RawCallError> for Refusal {
    ghost from_gives = { λ e r. r ≡ refusal_of_raw_calling e };

    fn from(error: RawCallError) -> Refusal {
        match error {
            RawCallError::FtRequest => Refusal::Value,
            RawCallError::Untaken(error) => Refusal::from(error),
            RawCallError::Misplaced => Refusal::Place,
        }
    }
}

impl From<RawRecallError> for Refusal {
    ghost from_gives = { λ e r. r ≡ refusal_of_raw_recalling e };

    fn from(error: RawRecallError) -> Refusal {
        match error {
            RawRecallError::FtRequest => Refusal::Value,
            RawRecallError::Untaken(error) => Refusal::from(error),
            RawRecallError::Misplaced => Refusal::Place,
        }
    }
}

impl From<RedirectError> for Refusal {
    ghost from_gives = { λ e r. r ≡ refusal_of_redirecting e };

    fn from(error: RedirectError) -> Refusal {
        match error {
            RedirectError::NotForwarded => Refusal::Forward,
            RedirectError::TooLong => Refusal::Long,
            RedirectError::Memory => Refusal::Memory,
        }
    }
}

impl From<RawRedirectError> for Refusal {
    ghost from_gives = { λ e r. r ≡ refusal_of_raw_redirecting e };

    fn from(error: RawRedirectError) -> Refusal {
        match error {
            RawRedirectError::FtRequest => Refusal::Value,
            RawRedirectError::Unled(error) => Refusal::from(error),
            RawRedirectError::Misplaced => Refusal::Place,
        }
    }
}

impl From<WriteError> for Refusal {
    ghost from_gives = { λ e r. r ≡ refusal_of_writing e };

    fn from(error: WriteError) -> Refusal {
        match error {
            WriteError::TooLong => Refusal::Long,
            WriteError::Memory => Refusal::Memory,
        }
    }
}

impl From<IorError> for Refusal {
    ghost from_gives = { λ e r. r ≡ refusal_of_referring e };

    fn from(error: IorError) -> Refusal {
        match error {
            IorError::Memory => Refusal::Memory,
            _ => Refusal::Reference,
        }
    }
}

impl From<AllocError> for Refusal {
    ghost from_gives = { λ _ r. r ≡ Memory };

    fn from(_error: AllocError) -> Refusal {
        Refusal::Memory
    }
}
