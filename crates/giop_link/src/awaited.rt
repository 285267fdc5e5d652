//! The ids whose answers are wanted.

ghost use Rattle.std.specs.Prelude.{◌≡◌, IfOk, OnErr, OnOk, length, position};
ghost use Rattle.giop_link.specs.Ids.{entered, is_kind, is_of, wanted_by};

use giop_core::ReplyWish;
use std::alloc::AllocError;

/// The kind of answer that an id waits for.
#[derive(Clone, Copy, Debug)]
pub(crate) enum Wanted {
    /// A Reply, to a request.
    Reply,
    /// A LocateReply, to a locate.
    Location,
}

/// An id whose answer is wanted.
#[derive(Clone, Copy, Debug)]
pub(crate) struct Outstanding {
    pub id: u32,
    pub wanted: Wanted,
}

/// What a wish waits for.
pub(crate) fn wanted_by(wish: ReplyWish) -> Option<Wanted>
    ensures { result ≡ wanted_by wish }
{
    match wish {
        ReplyWish::None => None,
        ReplyWish::Empty | ReplyWish::Full => Some(Wanted::Reply),
    }
}

/// Whether two kinds are one.
fn is_kind(one: Wanted, other: Wanted) -> bool
    ensures { result ≡ is_kind one other }
{
    matches!(
        (one, other),
        (Wanted::Reply, Wanted::Reply) | (Wanted::Location, Wanted::Location)
    )
}

impl Outstanding {
    /// Whether it is of an id, and waits for an answer of a kind, or of any.
    fn is_of(&self, id: u32, wanted: Option<Wanted>) -> bool
        ensures { result ≡ is_of id wanted self.now }
    {
        match wanted {
            None => self.id == id,
            Some(kind) => self.id == id && is_kind(kind, self.wanted),
        }
    }
}

/// The place of an id among those that wait for an answer of a kind, or of any.
pub(crate) fn place_of(waiting: &[Outstanding], id: u32, wanted: Option<Wanted>) -> Option<usize>
    ensures { result ≡ position (is_of id wanted) waiting.now }
{
    waiting.iter().position(|one| one.is_of(id, wanted))
}

/// Enters an id where an answer is wanted, and returns how many there were before.
pub(crate) fn enter(
    waiting: &mut Vec<Outstanding>,
    id: u32,
    wanted: Option<Wanted>,
) -> Result<usize, AllocError>
    ensures ok { OnOk result (waiting.new.items ≡ entered wanted id waiting.old.items) }
    ensures before { IfOk result (λ n. n ≡ length waiting.old.items) }
    ensures err { OnErr result (waiting.new.items ≡ waiting.old.items) }
{
    let before = waiting.len();
    if let Some(wanted) = wanted {
        waiting.push(Outstanding { id, wanted })?;
    }
    Ok(before)
}
