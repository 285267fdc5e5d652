//! What becomes of a request.

ghost use Rattle.std.specs.Prelude.{◌≡◌};
ghost use Rattle.ft_objects.specs.Decisions.{refusal_of};

use ft_log::SystemName;

/// What becomes of a request or a locate, once it is known and before anything is sent for it.
#[derive(Clone, Copy, Debug, PartialEq, Eq)]
pub enum Decision {
    /// It is to be performed.
    Asked,
    /// It repeats a request whose outcome is kept, and is answered with that, if it wishes an answer.
    Repeated,
    /// It repeats a request that is parked: it waits too, or hears TRANSIENT where all places are taken, or loses its
    /// connection where memory fails. One that wishes no answer neither waits nor hears.
    Joined,
    /// Its FT_REQUEST has expired: BAD_CONTEXT.
    Expired,
    /// Its FT_REQUEST can't be read: MARSHAL.
    Malformed,
    /// It asks for no call: its client's id has more octets than may be, there is no such object or operation, or its
    /// arguments are not of the operation's types.
    Invalid(SystemName),
    /// As many outcomes are kept as may be: NO_RESOURCES.
    LogFull,
    /// As many outcomes of its client are kept as may be: NO_RESOURCES.
    ShareFull,
    /// A locate: its target is on offer, or is not. It is counted alone: `decided` hears of requests.
    Located,
    /// An allocation failed before it was decided, so it may be a repeat or not: it has no answer, and its connection is
    /// lost.
    Dropped,
}

impl Decision {
    /// The system exception that answers a request which is refused.
    pub fn refusal(self) -> Option<SystemName>
        ensures { result ≡ refusal_of self }
    {
        match self {
            Decision::Expired => Some(SystemName::BadContext),
            Decision::Malformed => Some(SystemName::Marshal),
            Decision::Invalid(name) => Some(name),
            Decision::LogFull | Decision::ShareFull => Some(SystemName::NoResources),
            Decision::Asked
            | Decision::Repeated
            | Decision::Joined
            | Decision::Located
            | Decision::Dropped => None,
        }
    }
}
