//! What an owner does with a request that carries a key.

use ft_log::Outcome;

/// What an owner does with a request.
#[derive(Debug, Drop)]
pub enum Verdict {
    /// It answers with what the store holds.
    Answer(Outcome),
    /// It declines by BAD_CONTEXT: the request is over, by the store's mark, and nothing was done for it.
    Over,
    /// It may decline: nothing was done for the request, and none of it can come true any more.
    Decline,
    /// It is not known what came of it. It may be neither answered nor declined, so it is given up; a later transmission finds
    /// out.
    Unknown,
}
