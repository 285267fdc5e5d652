//! What an error of a call says: that memory ran out, or that something is wrong.

use ft_client::{CallError, RawRecallError, RecallError};
use giop_link::{LinkFault, SendError};
use trials::{Miss, Wrong};

/// Out of memory, or a stream that ends where none is to end.
pub(crate) fn link_miss(fault: LinkFault) -> Miss {
    if fault.is_memory() {
        return Miss::Memory;
    }
    Miss::Wrong(Wrong::Fault)
}

/// Out of memory, or a link that does not send where it is to.
pub(crate) fn send_miss(error: SendError) -> Miss {
    match error {
        SendError::Memory => Miss::Memory,
        SendError::LinkClosed
        | SendError::TooManyOutstanding
        | SendError::IdsUsed
        | SendError::TooLong => Miss::Wrong(Wrong::Fault),
    }
}

/// Out of memory, or a call that is not taken where it is to be.
pub(crate) fn call_miss(error: CallError) -> Miss {
    match error {
        CallError::Expired | CallError::IdsUsed | CallError::TooManyCalls | CallError::TooLong =>
            Miss::Wrong(Wrong::Fault),
        CallError::Memory => Miss::Memory,
    }
}

/// Out of memory, or a call of before that is not taken up where it is to be.
pub(crate) fn recall_miss(error: RecallError) -> Miss {
    match error {
        RecallError::NumberUsed
        | RecallError::Expired
        | RecallError::TooManyCalls
        | RecallError::TooLong => Miss::Wrong(Wrong::Fault),
        RecallError::Memory => Miss::Memory,
    }
}

/// The same of a raw one.
pub(crate) fn raw_recall_miss(error: RawRecallError) -> Miss {
    match error {
        RawRecallError::FtRequest | RawRecallError::Misplaced => Miss::Wrong(Wrong::Fault),
        RawRecallError::Untaken(error) => recall_miss(error),
    }
}
