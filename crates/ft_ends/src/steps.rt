//! Steps of a schedule.

ghost use Rattle.std.specs.Prelude.{◌≡◌, ◌<◌, ◌^◌};

use cdr_core::Val;

/// What a client asks of an object, and until when: a number of 100 ns since 15 October 1582, 00:00 UTC.
#[derive(Debug, Drop)]
pub struct Call {
    pub object_key: Vec<u8>,
    pub operation: Vec<u8>,
    pub arguments: Vec<Val>,
    pub expiration: u64,
    ghost near: { expiration < 2 ^ 64 },
}

/// What may happen next. `client` is the place of a client in the list of clients, counted from 0, and `now` a
/// moment, a number of 100 ns since 15 October 1582, 00:00 UTC.
#[derive(Debug, Drop)]
pub enum Step {
    /// The client calls.
    Call {
        client: u32,
        now: u64,
        call: Call,
    },
    /// The client takes a call of before up again, under its number.
    Recall {
        client: u32,
        number: u32,
        now: u64,
        call: Call,
    },
    /// It learns up to which number calls of before were numbered.
    Skip {
        client: u32,
        number: u32,
    },
    /// It learns whether TRANSIENT leaves its calls pending from now on.
    Keep {
        client: u32,
        keeps: bool,
    },
    /// It learns whether a forward leaves its calls pending from now on.
    KeepForwards {
        client: u32,
        keeps: bool,
    },
    /// The call of a number, which is led elsewhere, is asked for under another object key from now on.
    Redirect {
        client: u32,
        id: i32,
        object_key: Vec<u8>,
    },
    /// It connects.
    Connect {
        client: u32,
        now: u64,
    },
    /// It sends what is due on its connection.
    Resend {
        client: u32,
        now: u64,
    },
    /// The next octets that it wrote come to the server, at most so many.
    Up {
        client: u32,
        count: u32,
        now: u64,
    },
    /// The next octets that the server wrote come to it, at most so many.
    Down {
        client: u32,
        count: u32,
    },
    /// Its connection is cut: what is on its way is gone.
    Cut {
        client: u32,
    },
    /// The server closes its connection.
    Shut {
        client: u32,
    },
    /// It cancels the call of a number.
    Cancel {
        client: u32,
        id: i32,
    },
    /// It learns of a moment.
    Tick {
        client: u32,
        now: u64,
    },
}

impl Step {
    ghost use Rattle.ft_ends.specs.Playing.{step_as};
    ghost use Rattle.ft_ends.specs.World.{client_of};

    /// The place of the client that takes it.
    pub(crate) fn client(&self) -> u32
        ensures { result ≡ client_of (step_as self.now) }
    {
        match self {
            Step::Call { client, .. }
            | Step::Recall { client, .. }
            | Step::Skip { client, .. }
            | Step::Keep { client, .. }
            | Step::KeepForwards { client, .. }
            | Step::Redirect { client, .. }
            | Step::Connect { client, .. }
            | Step::Resend { client, .. }
            | Step::Up { client, .. }
            | Step::Down { client, .. }
            | Step::Cut { client }
            | Step::Shut { client }
            | Step::Cancel { client, .. }
            | Step::Tick { client, .. } => *client,
        }
    }
}
