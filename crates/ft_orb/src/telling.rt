//! Outcomes and refusals, told to all who wait for what is parked; and those of which nothing is kept.

ghost use Rattle.std.specs.Prelude.{◌≡◌, ◌==◌, ◌++◌, ◌∷◌, ◌+◌, ◌≤◌, ◌<◌, ℕ, List, [], OnOk, IfErr, IfOk, IsSome, None, Some, false, length, map};
ghost use Rattle.std.specs.Vec.{vec_capacity};
ghost use Rattle.ft_log.specs.Performed.{Performed};
ghost use Rattle.ft_orb.specs.Deeds.{Ledger};
ghost use Rattle.ft_orb.specs.DeedsPlayed.{Becomes, Holds, IsDone, IsRefused, IsTold, Remains};
ghost use Rattle.ft_orb.specs.Engines.{asks_in, waits_in};
ghost use Rattle.ft_orb.specs.Outputs.{noted};
ghost use Rattle.ft_orb.specs.Parking.{Settings, Stays, left_in, parked_in, told_in};
ghost use Rattle.ft_orb.specs.declared.deeds.Deed.TheVariants as code;

use crate::deeds::DeedError;
use crate::engine::Engine;
use crate::events::Written;
use crate::outcomes::is_renderable;
use crate::playing::served;
use crate::unkept::Unkept;
use ft_log::{Completion, Outcome, SystemName};
use ft_objects::Catalogue;
use std::alloc::Global;

/// How many wait for the outcome of the request that is parked under a number, those among them whose connections have ended.
fn waiters<C: Catalogue + Drop>(engine: &Engine<C>, number: u64) -> usize
    ensures { result ≡ left_in engine.now number }
{
    match engine.parked.requests.get(&number) {
        Some(parked) => parked.waiters.len(),
        None => 0,
    }
}

/// Tells an outcome to all who wait for it. There is room for what is said of each.
fn tell_all<C: Catalogue + Drop>(
    alloc: Global,
    engine: &mut Engine<C>,
    number: u64,
    out: &mut Vec<Written>,
)
    requires idle { waits_in engine.old ≡ None }
    requires room { length out.old.items + left_in engine.old number ≤ vec_capacity out.old }
    ensures asks { asks_in engine.new ≡ asks_in engine.old }
    ensures done { IsSome (told_in engine.old number) → parked_in engine.new number ≡ None }
    ensures others { (q : ℕ) → (q == number) ≡ false → (parked_in engine.new q ≡ parked_in engine.old q) × (told_in engine.new q ≡ told_in engine.old q) }
    ensures told { (s : Settings) (g : Ledger) (outcome : Performed) → Stays C.offers s g.held g.calls engine.old g.past g.waiting → told_in engine.old number ≡ Some outcome
        → IsTold C.offers s g number outcome engine.new out.old.items out.new.items }
    ensures catalogue { engine.new.offering ≡ engine.old.offering }
{
    while let Some(connection) = engine.due(number) {
        let mut octets = Vec::new(alloc);
        let note = served(engine.reply(number, &mut octets));
        let written = Written {
            connection,
            octets,
            note,
        };
        out.push(written).unwrap();
    }
}

/// The request that is parked under a number has its outcome.
pub(crate) fn do_settle<C: Catalogue + Drop>(
    alloc: Global,
    engine: &mut Engine<C>,
    number: u64,
    outcome: &Outcome,
    out: &mut Vec<Written>,
) -> Result<(), DeedError>
    requires idle { waits_in engine.old ≡ None }
    ensures ok { OnOk result ((s : Settings) (g : Ledger) → Holds C.offers s g engine.old → (written : List Written) × (out.new.items ≡ out.old.items ++ written)
        × IsDone C.offers s g (code.Settle number outcome.now) None (map noted written) engine.new) }
    ensures err { IfErr result (λ why. (out.new.items ≡ out.old.items) × IsRefused C.offers engine.new (code.Settle number outcome.now) why × Remains C.offers engine.old engine.new) }
    ensures catalogue { engine.new.offering ≡ engine.old.offering }
{
    if !engine.can_settle(number, outcome) {
        return Err(DeedError::NotParked);
    }
    let Ok(copy) = outcome.copy(alloc) else {
        return Err(DeedError::Memory);
    };
    if out.reserve(waiters(engine, number)).is_err() {
        return Err(DeedError::Memory);
    }
    engine.settle(number, copy);
    tell_all(alloc, engine, number, out);
    Ok(())
}

/// The request that is parked under a number is declined.
pub(crate) fn do_withdraw<C: Catalogue + Drop>(
    alloc: Global,
    engine: &mut Engine<C>,
    number: u64,
    name: SystemName,
    minor: u32,
    out: &mut Vec<Written>,
) -> Result<(), DeedError>
    requires idle { waits_in engine.old ≡ None }
    ensures ok { OnOk result ((s : Settings) (g : Ledger) → Holds C.offers s g engine.old → (written : List Written) × (out.new.items ≡ out.old.items ++ written)
        × IsDone C.offers s g (code.Withdraw number name minor) None (map noted written) engine.new) }
    ensures err { IfErr result (λ why. (out.new.items ≡ out.old.items) × IsRefused C.offers engine.new (code.Withdraw number name minor) why × Remains C.offers engine.old engine.new) }
    ensures catalogue { engine.new.offering ≡ engine.old.offering }
{
    if !engine.can_settle(number, &Outcome::System(name, minor, Completion::No)) {
        return Err(DeedError::NotParked);
    }
    if out.reserve(waiters(engine, number)).is_err() {
        return Err(DeedError::Memory);
    }
    engine.withdraw(number, name, minor);
    tell_all(alloc, engine, number, out);
    Ok(())
}

/// An outcome is told to the request that waits, and nothing is kept; or it is given up.
pub(crate) fn do_tell<C: Catalogue + Drop>(
    alloc: Global,
    engine: &mut Engine<C>,
    outcome: &Outcome,
) -> Result<Written, DeedError>
    ensures ok { IfOk result (λ written. Becomes C.offers (code.Tell outcome.now) None (noted written ∷ []) engine.old engine.new) }
    ensures err { IfErr result (λ why. IsRefused C.offers engine.new (code.Tell outcome.now) why × Remains C.offers engine.old engine.new) }
    ensures catalogue { engine.new.offering ≡ engine.old.offering }
{
    let Some(asked) = engine.asked() else {
        return Err(DeedError::NothingAsked);
    };
    let number = asked.number;
    let connection = asked.connection;
    if !is_renderable(outcome) {
        return Err(DeedError::NotFit);
    }
    let mut octets = Vec::new(alloc);
    let note = served(engine.tell(number, outcome, Unkept::Performed, &mut octets));
    Ok(Written {
        connection,
        octets,
        note,
    })
}

/// An outcome is told to all who wait for the request that is parked under a number, and nothing is kept.
pub(crate) fn do_tell_parked<C: Catalogue + Drop>(
    alloc: Global,
    engine: &mut Engine<C>,
    number: u64,
    outcome: &Outcome,
    out: &mut Vec<Written>,
) -> Result<(), DeedError>
    requires idle { waits_in engine.old ≡ None }
    ensures ok { OnOk result ((s : Settings) (g : Ledger) → Holds C.offers s g engine.old → (written : List Written) × (out.new.items ≡ out.old.items ++ written)
        × IsDone C.offers s g (code.TellParked number outcome.now) None (map noted written) engine.new) }
    ensures err { IfErr result (λ why. (out.new.items ≡ out.old.items) × IsRefused C.offers engine.new (code.TellParked number outcome.now) why × Remains C.offers engine.old engine.new) }
    ensures catalogue { engine.new.offering ≡ engine.old.offering }
{
    if !engine.can_settle(number, outcome) {
        return Err(DeedError::NotParked);
    }
    let Ok(copy) = outcome.copy(alloc) else {
        return Err(DeedError::Memory);
    };
    if out.reserve(waiters(engine, number)).is_err() {
        return Err(DeedError::Memory);
    }
    engine.tell_parked(number, copy, Unkept::Performed);
    tell_all(alloc, engine, number, out);
    Ok(())
}
