//! Performing a request once, over one store, whatever crashes.

ghost use Rattle.std.specs.Prelude.{◌≡◌, IfErr, IfOk};
ghost use Rattle.ft_log.specs.View.{key_of};
ghost use Rattle.ft_orb.specs.Engines.{awaited_lent};
ghost use Rattle.ft_lives.specs.Private.{IsSoFar};
ghost use Rattle.ft_lives.specs.Steps.{IsOnce, Shown, ask_of};

use crate::once::Verdict;
use crate::store::{Commit, Found, Store};
use ft_orb::{Asked, FtRequest};
use std::alloc::Global;

/// Looks a request up, and performs it where nothing is held for its key. The result is the verdict, or whether a
/// transaction of it is in doubt by now.
fn try_once<S: Store>(
    alloc: Global,
    store: &mut S,
    asked: &Asked<'_>,
    request: FtRequest<'_>,
    doubtful: bool,
) -> Result<bool, Verdict>
    requires performs { S.performs (awaited_lent asked.now).call }
    ensures again { IfOk result (λ now. (old : Shown S.State) → IsSoFar S.apply (S.life store.old) (record { ask = ask_of (S.life store.old) asked.now; key = key_of request.entry.key.now; expiration = request.entry.expiration }) doubtful old (S.shown store.old)
        → IsSoFar S.apply (S.life store.old) (record { ask = ask_of (S.life store.old) asked.now; key = key_of request.entry.key.now; expiration = request.entry.expiration }) now old (S.shown store.new)) }
    ensures told { IfErr result (λ verdict. (old : Shown S.State) → IsSoFar S.apply (S.life store.old) (record { ask = ask_of (S.life store.old) asked.now; key = key_of request.entry.key.now; expiration = request.entry.expiration }) doubtful old (S.shown store.old)
        → IsOnce S.apply (S.life store.old) (record { ask = ask_of (S.life store.old) asked.now; key = key_of request.entry.key.now; expiration = request.entry.expiration }) old verdict (S.shown store.new)) }
    ensures life { S.life store.new ≡ S.life store.old }
{
    match store.find(alloc, request.key, request.expiration) {
        Found::Over if doubtful => return Err(Verdict::Unknown),
        Found::Over => return Err(Verdict::Over),
        Found::Held(outcome) => return Err(Verdict::Answer(outcome)),
        Found::Silent => return Ok(doubtful),
        Found::Free => {}
    }
    match store.commit(alloc, asked, request) {
        Commit::Done(outcome) => Err(Verdict::Answer(outcome)),
        Commit::Taken => Ok(doubtful),
        Commit::Failed if doubtful => Ok(true),
        Commit::Failed => Err(Verdict::Decline),
        Commit::InDoubt => Ok(true),
    }
}

/// Takes an owner's steps for a request that waits and would be refused (`Engine::ask_first`), at most so many times: looks it
/// up, and performs nothing. It declines only what the store holds nothing of.
pub fn look_once<S: Store>(
    alloc: Global,
    store: &mut S,
    asked: &Asked<'_>,
    request: FtRequest<'_>,
    tries: u32,
) -> Verdict
    ensures once { IsOnce S.apply (S.life store.old) (record { ask = ask_of (S.life store.old) asked.now; key = key_of request.entry.key.now; expiration = request.entry.expiration }) (S.shown store.old) result (S.shown store.new) }
    ensures life { S.life store.new ≡ S.life store.old }
{
    for _attempt in 0..tries {
        match store.find(alloc, request.key, request.expiration) {
            Found::Over => return Verdict::Over,
            Found::Held(outcome) => return Verdict::Answer(outcome),
            Found::Free => return Verdict::Decline,
            Found::Silent => {}
        }
    }
    Verdict::Unknown
}

/// Takes an owner's steps for a request that waits, at most so many times: looks it up; answers by what is there; else
/// commits its effect and its row at once, and answers then. Where no answer came to a commit it looks up again, and
/// performs again: the store lets one of them come true. It declines only what has not come true, and can't any more: so of
/// what is over it does not know what came of it, where a commit is in doubt.
pub fn perform_once<S: Store>(
    alloc: Global,
    store: &mut S,
    asked: &Asked<'_>,
    request: FtRequest<'_>,
    tries: u32,
) -> Verdict
    requires performs { S.performs (awaited_lent asked.now).call }
    ensures once { IsOnce S.apply (S.life store.old) (record { ask = ask_of (S.life store.old) asked.now; key = key_of request.entry.key.now; expiration = request.entry.expiration }) (S.shown store.old) result (S.shown store.new) }
    ensures life { S.life store.new ≡ S.life store.old }
{
    let mut doubtful = false;
    for _attempt in 0..tries {
        match try_once(alloc, store, asked, request, doubtful) {
            Ok(now) => doubtful = now,
            Err(verdict) => return verdict,
        }
    }
    Verdict::Unknown
}
