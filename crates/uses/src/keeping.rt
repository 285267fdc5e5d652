//! Keep what a request gave, once.

ghost use Rattle.std.specs.Prelude.{◌≡◌, OnErr, OnOk};
ghost use Rattle.ft_log.specs.Holding.{known};
ghost use Rattle.ft_log.specs.Kept.{unexpired};
ghost use Rattle.ft_log.specs.Logged.{logged};
ghost use Rattle.ft_log.specs.View.{key_of, performed_in};
ghost use Rattle.uses.specs.Keeping.{kept_once};

use ft_log::{Key, Log, LogError, Outcome};

/// Keeps the outcome of a request until its expiration, unless one is kept for it, once what expired before `now`
/// is forgotten.
pub fn keep_once(
    log: &mut Log,
    key: Key,
    now: u64,
    expiration: u64,
    outcome: Outcome,
) -> Result<(), LogError>
    ensures kept { OnOk result ((logged log.new).entries ≡ kept_once (key_of key) expiration (known (performed_in outcome)) (unexpired now (logged log.old).entries)) }
    ensures err { OnErr result ((logged log.new).entries ≡ unexpired now (logged log.old).entries) }
{
    log.forget(now);
    if log.find(&key).is_none() {
        log.make_room(&key)?;
        log.keep(key, expiration, outcome);
    }
    Ok(())
}
