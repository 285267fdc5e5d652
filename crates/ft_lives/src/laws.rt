//! Laws over the definitions: each is what a function with an empty body ensures. `lives` are lives of engines over one
//! store, which end anywhere and may overlap. No clock is compared with another.

ghost use Rattle.std.specs.Prelude.{ℕ};
ghost use Rattle.ft_lives.specs.Keeping.{OnceIsOwned, StoresMayForget};
ghost use Rattle.ft_lives.specs.Laws.{CommitsComeLater, CommitsWereAdmitted, HeldIsCommitted, KeyCommitsOnce};
ghost use Rattle.ft_lives.specs.Lives.{Life};
ghost use Rattle.ft_lives.specs.Replies.{DeclinedAreFree, FirstsLackRoomInLives, RefusedAreFree, RepeatsAreHeld, ToldAreHeld, UnkeptAreRight, WaitersAreToldRightly};
ghost use Rattle.ft_lives.specs.Serial.{SerialIsOfCommits};
ghost use Rattle.ft_lives.specs.Together.{LivesActOnce};

use crate::store::Store;
use ft_objects::Servant;

/// The law over lives, of each key whose requests carry one expiration in all of them: at most one call is committed; it was
/// asked for before, by an arrival that was not over; and each outcome that a life gives for the key, at once, later or
/// again, kept or not, is that of the one commit. What is told unkept may be a refusal: COMPLETED_MAYBE, or COMPLETED_NO of
/// what is over or free, and of which nothing is committed.
pub fn lives_act_once()
    ensures { (lives : ℕ → Life) → LivesActOnce lives }
{
    giop_link::laws::streams_are_heard::<giop_link::Server>();
}

/// No two commits have one key, where the requests with that key carry one expiration in all lives, and what the store held
/// for it at any point is the outcome of the one commit. Without that premise the second of two commits has the greater
/// expiration, and comes once the first is held no longer.
pub fn keys_commit_once()
    ensures later { CommitsComeLater }
    ensures once { (lives : ℕ → Life) → KeyCommitsOnce lives }
    ensures held { (lives : ℕ → Life) → HeldIsCommitted lives }
{}

/// What is committed was asked for before, by an arrival of its life with its key and its expiration, which was not over
/// then.
pub fn commits_were_admitted()
    ensures { (lives : ℕ → Life) → CommitsWereAdmitted lives }
{}

/// Whoever repeats a request gets what the store held for its key: from the log of a life, at once, or once the call that
/// it waits for is settled. So is what an owner tells unkept, at once or to all who wait, where it is no refusal.
pub fn replies_are_held()
    ensures repeats { (lives : ℕ → Life) → RepeatsAreHeld lives }
    ensures told { (lives : ℕ → Life) → ToldAreHeld lives }
    ensures unkept { (lives : ℕ → Life) → UnkeptAreRight lives }
    ensures waiters { (lives : ℕ → Life) → WaitersAreToldRightly lives }
{
    giop_link::laws::streams_are_heard::<giop_link::Server>();
}

/// No refusal with COMPLETED_NO is of a key that the store held when it was looked up, but BAD_CONTEXT of a request that is
/// over, and one that is itself the outcome: of its owner, and of an engine of whose own refusals none is of a key that is
/// held. An engine that asks its owner first refuses for want of room alone, where a request is not over and its client's
/// id is within the bound.
pub fn refused_are_free()
    ensures engine { (lives : ℕ → Life) → RefusedAreFree lives }
    ensures first { (lives : ℕ → Life) → FirstsLackRoomInLives lives }
    ensures owner { (lives : ℕ → Life) → DeclinedAreFree lives }
{
    ft_orb::laws::firsts_are_asked();
}

/// Where transactions are serial the state is that of the committed calls, each once, in the order of the commits, with what
/// others wrote in between, and the rows have their outcomes.
pub fn commits_are_serial<S: Servant>()
    ensures { SerialIsOfCommits (λ state call. S.meaning.apply state call.object_key call.operation call.arguments) }
{}

/// What an owner's steps come to, among the steps of all lives: the changes of the store are allowed, what its life commits
/// is of this request or was in doubt, and an answer, a refusal of what is over and a decline are as the owners' rules want
/// them. So it is of a store that takes out what is held no longer, too, which holds and allows the same.
pub fn once_is_owned<S: Store>()
    ensures forget { StoresMayForget }
    ensures owned { OnceIsOwned S.apply }
{}
