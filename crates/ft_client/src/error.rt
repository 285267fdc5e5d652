//! Why a call was not taken, typed or raw, why one of before was not taken up again, and why one was not redirected.

ghost use Rattle.std.specs.Prelude.{◌≡◌};
ghost use Rattle.ft_client.specs.declared.error.CallError.TheVariants.{Memory};
ghost use Rattle.ft_client.specs.declared.error.RecallError.TheVariants as recall;
ghost use Rattle.ft_client.specs.Errors.{call_error_of, raw_error_of, raw_recall_error_of, raw_redirect_error_of, recall_error_of, redirect_error_of};

use giop_core::WriteError;
use std::alloc::AllocError;
use thiserror::Error;

/// Why a call was not taken: the first of these that holds, or `Memory` in place of `TooLong`. The client and
/// the output are as they were.
#[derive(Clone, Copy, Debug, PartialEq, Eq, Error)]
pub enum CallError {
    /// The moment is past the call's expiration.
    #[error("expired")]
    Expired,
    /// All numbers of calls were given, 2,147,483,647.
    #[error("ids used")]
    IdsUsed,
    /// As many calls are pending as a client keeps, 64.
    #[error("too many calls")]
    TooManyCalls,
    /// More octets would stand after the header than a message size can count, 4,294,967,295.
    #[error("too long")]
    TooLong,
    /// An allocation failed.
    #[error("memory")]
    Memory,
}

/// The message is too long, or an allocation failed.
impl From<WriteError> for CallError {
    ghost from_gives = { λ e f. f ≡ call_error_of e };

    fn from(error: WriteError) -> CallError {
        match error {
            WriteError::TooLong => CallError::TooLong,
            WriteError::Memory => CallError::Memory,
        }
    }
}

/// An allocation failed.
impl From<AllocError> for CallError {
    ghost from_gives = { λ e f. f ≡ Memory };

    fn from(_error: AllocError) -> CallError {
        CallError::Memory
    }
}

/// Why a call of before was not taken up again: the first of these that holds, or `Memory` in place of `TooLong`. The
/// client and the output are as they were.
#[derive(Clone, Copy, Debug, PartialEq, Eq, Error)]
pub enum RecallError {
    /// The number is not greater than each that this client has given or taken up, or is past 2,147,483,647.
    #[error("number used")]
    NumberUsed,
    /// The moment is past the call's expiration.
    #[error("expired")]
    Expired,
    /// As many calls are pending as a client keeps, 64.
    #[error("too many calls")]
    TooManyCalls,
    /// More octets would stand after the header than a message size can count, 4,294,967,295.
    #[error("too long")]
    TooLong,
    /// An allocation failed.
    #[error("memory")]
    Memory,
}

/// The message is too long, or an allocation failed.
impl From<WriteError> for RecallError {
    ghost from_gives = { λ e f. f ≡ recall_error_of e };

    fn from(error: WriteError) -> RecallError {
        match error {
            WriteError::TooLong => RecallError::TooLong,
            WriteError::Memory => RecallError::Memory,
        }
    }
}

/// An allocation failed.
impl From<AllocError> for RecallError {
    ghost from_gives = { λ e f. f ≡ recall.Memory };

    fn from(_error: AllocError) -> RecallError {
        RecallError::Memory
    }
}

/// Why a call was not redirected: the first of these that holds, or `Memory` in place of `TooLong`. The client is as it was.
#[derive(Clone, Copy, Debug, PartialEq, Eq, Error)]
pub enum RedirectError {
    /// No pending call of that number is led elsewhere.
    #[error("not forwarded")]
    NotForwarded,
    /// More octets would stand after the header than a message size can count, 4,294,967,295.
    #[error("too long")]
    TooLong,
    /// An allocation failed.
    #[error("memory")]
    Memory,
}

/// The message is too long, or an allocation failed.
impl From<WriteError> for RedirectError {
    ghost from_gives = { λ e f. f ≡ redirect_error_of e };

    fn from(error: WriteError) -> RedirectError {
        match error {
            WriteError::TooLong => RedirectError::TooLong,
            WriteError::Memory => RedirectError::Memory,
        }
    }
}

/// Why a raw call was not redirected: the first of these that holds, or `Unled(Memory)` in place of `Unled(TooLong)` and
/// `Misplaced`. The client is as it was.
#[derive(Clone, Copy, Debug, PartialEq, Eq, Error)]
pub enum RawRedirectError {
    /// FT_REQUEST is among its service contexts. It is the client's own (FT 23.2.7).
    #[error("ft request")]
    FtRequest,
    /// It is not redirected for what holds of every call.
    #[error("{0}")]
    Unled(RedirectError),
    /// Its body would stand at a place that differs modulo 8 from the place from which it came, so that its values would
    /// be read otherwise (CDR 9.3.1).
    #[error("misplaced")]
    Misplaced,
}

/// It is not redirected for what holds of every call.
impl From<RedirectError> for RawRedirectError {
    ghost from_gives = { λ e f. f ≡ raw_redirect_error_of e };

    fn from(error: RedirectError) -> RawRedirectError {
        RawRedirectError::Unled(error)
    }
}

/// The message is too long, or an allocation failed.
impl From<WriteError> for RawRedirectError {
    ghost from_gives = { λ e f. f ≡ raw_redirect_error_of (redirect_error_of e) };

    fn from(error: WriteError) -> RawRedirectError {
        RawRedirectError::Unled(RedirectError::from(error))
    }
}

/// Why a raw call was not taken: the first of these that holds, or `Untaken(Memory)` in place of `Untaken(TooLong)` and
/// `Misplaced`. The client and the output are as they were.
#[derive(Clone, Copy, Debug, PartialEq, Eq, Error)]
pub enum RawCallError {
    /// FT_REQUEST is among its service contexts. It is the client's own (FT 23.2.7).
    #[error("ft request")]
    FtRequest,
    /// It is not taken for what holds of every call.
    #[error("{0}")]
    Untaken(CallError),
    /// Its body would stand at a place that differs modulo 8 from the place from which it came, so that its values would
    /// be read otherwise (CDR 9.3.1).
    #[error("misplaced")]
    Misplaced,
}

/// It is not taken for what holds of every call.
impl From<CallError> for RawCallError {
    ghost from_gives = { λ e f. f ≡ raw_error_of e };

    fn from(error: CallError) -> RawCallError {
        RawCallError::Untaken(error)
    }
}

/// The message is too long, or an allocation failed.
impl From<WriteError> for RawCallError {
    ghost from_gives = { λ e f. f ≡ raw_error_of (call_error_of e) };

    fn from(error: WriteError) -> RawCallError {
        RawCallError::Untaken(CallError::from(error))
    }
}

/// An allocation failed.
impl From<AllocError> for RawCallError {
    ghost from_gives = { λ e f. f ≡ raw_error_of Memory };

    fn from(_error: AllocError) -> RawCallError {
        RawCallError::Untaken(CallError::Memory)
    }
}

/// Why a raw call of before was not taken up again: the first of these that holds, or `Untaken(Memory)` in place of
/// `Untaken(TooLong)` and `Misplaced`. The client and the output are as they were.
#[derive(Clone, Copy, Debug, PartialEq, Eq, Error)]
pub enum RawRecallError {
    /// FT_REQUEST is among its service contexts. It is the client's own (FT 23.2.7).
    #[error("ft request")]
    FtRequest,
    /// It is not taken up for what holds of every call of before.
    #[error("{0}")]
    Untaken(RecallError),
    /// Its body would stand at a place that differs modulo 8 from the place from which it came, so that its values would
    /// be read otherwise (CDR 9.3.1).
    #[error("misplaced")]
    Misplaced,
}

/// It is not taken up for what holds of every call of before.
impl From<RecallError> for RawRecallError {
    ghost from_gives = { λ e f. f ≡ raw_recall_error_of e };

    fn from(error: RecallError) -> RawRecallError {
        RawRecallError::Untaken(error)
    }
}

/// The message is too long, or an allocation failed.
impl From<WriteError> for RawRecallError {
    ghost from_gives = { λ e f. f ≡ raw_recall_error_of (recall_error_of e) };

    fn from(error: WriteError) -> RawRecallError {
        RawRecallError::Untaken(RecallError::from(error))
    }
}

/// An allocation failed.
impl From<AllocError> for RawRecallError {
    ghost from_gives = { λ e f. f ≡ raw_recall_error_of recall.Memory };

    fn from(_error: AllocError) -> RawRecallError {
        RawRecallError::Untaken(RecallError::Memory)
    }
}
