//! Which outcomes of the two sides' calls end a schedule: failed allocations alone. What is refused does nothing.

ghost use Rattle.std.specs.Prelude.{◌≡◌, IfErr, IfOk, OnErr, OnOk, false, true};
ghost use Rattle.std.specs.Result.{is_ok, result_ok};
ghost use Rattle.ft_orb.specs.Laws.{is_memory};
ghost use Rattle.ft_orb.specs.Standing.{note_of, note_of_opening};
ghost use Rattle.ft_ends.specs.Private.{IsRecallRefusal, IsRedirectRefusal, IsRefusal};

use ft_client::{CallError, RecallError, RedirectError};
use ft_orb::{ConnectError, ServeError};
use std::alloc::AllocError;

/// A call: its number, if it was taken.
pub(crate) fn after_call(outcome: Result<i32, CallError>) -> Result<Option<i32>, AllocError>
    ensures ok { OnOk result (IfErr outcome IsRefusal) }
    ensures number { IfOk result (λ number. number ≡ result_ok outcome) }
    ensures err { OnErr result (outcome ≡ Err CallError.Memory) }
{
    match outcome {
        Ok(number) => Ok(Some(number)),
        Err(CallError::Memory) => Err(AllocError),
        Err(_) => Ok(None),
    }
}

/// A call of before: whether it was taken up again.
pub(crate) fn after_recall(outcome: Result<(), RecallError>) -> Result<bool, AllocError>
    ensures ok { OnOk result (IfErr outcome IsRecallRefusal) }
    ensures taken { IfOk result (λ taken. taken ≡ is_ok outcome) }
    ensures err { OnErr result (outcome ≡ Err RecallError.Memory) }
{
    match outcome {
        Ok(()) => Ok(true),
        Err(RecallError::Memory) => Err(AllocError),
        Err(_) => Ok(false),
    }
}

/// A call that is redirected.
pub(crate) fn after_redirect(outcome: Result<(), RedirectError>) -> Result<(), AllocError>
    ensures ok { OnOk result (IfErr outcome IsRedirectRefusal) }
    ensures err { OnErr result (outcome ≡ Err RedirectError.Memory) }
{
    match outcome {
        Err(RedirectError::Memory) => Err(AllocError),
        _ => Ok(()),
    }
}

/// The opening of a connection.
pub(crate) fn after_opening(outcome: Result<(), ConnectError>) -> Result<(), AllocError>
    ensures ok { OnOk result (is_memory (note_of_opening outcome) ≡ false) }
    ensures err { OnErr result (is_memory (note_of_opening outcome) ≡ true) }
{
    match outcome {
        Err(ConnectError::Memory) => Err(AllocError),
        Ok(()) | Err(ConnectError::NotNew) => Ok(()),
    }
}

/// A piece or a close.
pub(crate) fn after_serving(outcome: Result<(), ServeError>) -> Result<(), AllocError>
    ensures ok { OnOk result (is_memory (note_of outcome) ≡ false) }
    ensures err { OnErr result (is_memory (note_of outcome) ≡ true) }
{
    match outcome {
        Err(ServeError::Memory { .. }) => Err(AllocError),
        Ok(()) | Err(ServeError::NoConnection) => Ok(()),
    }
}
