//! Offer ten thousand accounts as one object: a family, an account with a key of its own, and a default object. Accounts of
//! their own come and go while an engine serves.

ghost use Rattle.std.specs.Prelude.{◌≡◌, ◌∷◌, ℕ, suc, false, List, IfOk, None, OnOk, OnErr, codes};
ghost use Rattle.ft_objects.specs.Families.{families_offer};
ghost use Rattle.ft_objects.specs.Filling.{offer_of, with_raw_object, without_object};
ghost use Rattle.ft_objects.specs.Interfaces.{no_operation, operation, raw_operation, types_of};
ghost use Rattle.ft_log.specs.Holding.{Holding};
ghost use Rattle.ft_orb.specs.Engines.{waits_in};
ghost use Rattle.ft_orb.specs.History as history;
ghost use Rattle.ft_orb.specs.History.{changes};
ghost use Rattle.ft_orb.specs.Offerings.{terms_by};
ghost use Rattle.ft_orb.specs.Parking.{Settings, Stays, is_wanted_in};
ghost use Rattle.ft_orb.specs.Requests.{Call};
ghost use Rattle.ft_orb.specs.declared.parked.Waiter.{Waiter};
ghost use Rattle.uses.specs.Accounts.{account_types, family_offers, own_offer};

use cdr_core::Ty;
use ft_objects::{Families, Interfaces, InterfacesError, Signature};
use ft_orb::{ChangeError, Engine};
use std::alloc::{AllocError, Global};
use thiserror::Error;

/// Why an account was not given an object of its own. What is on offer is as it was.
#[derive(Debug, Drop, Error)]
pub enum AccountError {
    /// A request of the account is parked.
    #[error("{0}")]
    Change(#[from] ChangeError),
    /// It has one, or there is no memory.
    #[error("{0}")]
    Interfaces(#[from] InterfacesError),
}

/// The types of `balance`: it takes nothing, and returns cents.
fn balance_types(alloc: Global) -> Result<Signature, AllocError>
    ensures { IfOk result (λ s. types_of s ≡ account_types) }
{
    Ok(Signature {
        arguments: Vec::new(alloc),
        results: vec![in alloc; Ty::LongLong]?,
        raises: Vec::new(alloc),
    })
}

/// The account of the house, which has a key of its own.
fn own_accounts(alloc: Global) -> Result<Interfaces, InterfacesError>
    ensures { IfOk result (λ own. offer_of own ≡ own_offer) }
{
    let mut own = Interfaces::new(alloc);
    own.add_raw_object(b"acct/house")?;
    Ok(own)
}

/// All accounts, by the prefix of their keys, and what every other key leads to.
fn account_families(alloc: Global) -> Result<Interfaces, InterfacesError>
    ensures { IfOk result (λ families. offer_of families ≡ family_offers) }
{
    let Ok(signature) = balance_types(alloc) else {
        return Err(InterfacesError::Memory);
    };
    let mut families = Interfaces::new(alloc);
    families.add_object(b"acct/")?;
    families.add_operation(b"acct/", b"balance", signature)?;
    families.add_raw_object(b"")?;
    Ok(families)
}

/// What a bank has on offer: `acct/house` has an object of its own, each other account has `balance`, and what is no
/// account is raw.
pub fn offer_accounts(alloc: Global) -> Result<Families, InterfacesError>
    ensures house { IfOk result (λ f. (families_offer f).interface (codes "acct/house") (codes "audit") ≡ raw_operation) }
    ensures account { IfOk result (λ f. (families_offer f).interface (codes "acct/10000") (codes "balance") ≡ operation account_types) }
    ensures none { IfOk result (λ f. (families_offer f).interface (codes "acct/10000") (codes "audit") ≡ no_operation) }
    ensures others { IfOk result (λ f. (families_offer f).interface (codes "printer") (codes "print") ≡ raw_operation) }
{
    Ok(Families {
        objects: own_accounts(alloc)?,
        families: account_families(alloc)?,
    })
}

/// Gives an account an object of its own while the engine serves, unless a request of the account is parked. What comes for
/// it from now on is raw; a repeat of what came before gets the outcome that is kept.
pub fn open_account(engine: &mut Engine<Families>, key: &[u8]) -> Result<(), AccountError>
    requires idle { waits_in engine.old ≡ None }
    ensures idle { waits_in engine.new ≡ None }
    ensures unwanted { OnOk result (is_wanted_in engine.old key.now ≡ false) }
    ensures ok { OnOk result (offer_of engine.new.offering.catalogue.objects ≡ with_raw_object key.now (offer_of engine.old.offering.catalogue.objects)) }
    ensures err { OnErr result (offer_of engine.new.offering.catalogue.objects ≡ offer_of engine.old.offering.catalogue.objects) }
    ensures families { engine.new.offering.catalogue.families ≡ engine.old.offering.catalogue.families }
    ensures bound { engine.new.offering.longest ≡ engine.old.offering.longest }
    ensures late { OnOk result ((s : Settings) (held : ℕ → Holding) (calls : List Call) (past : List history.Event) (waiting : ℕ → List Waiter) → Stays families_offer s held calls engine.old past waiting
        → s.terms (suc (changes past)) ≡ terms_by families_offer engine.new.offering → Stays families_offer s held calls engine.new (history.Changed ∷ past) waiting) }
{
    Ok(engine.change_object(key, |accounts| accounts.objects.add_raw_object(key))??)
}

/// Takes an account's own object away again, unless a request of the account is parked, so that the account is one of its
/// family. Returns whether it had one.
pub fn close_account(engine: &mut Engine<Families>, key: &[u8]) -> Result<bool, ChangeError>
    requires idle { waits_in engine.old ≡ None }
    ensures idle { waits_in engine.new ≡ None }
    ensures unwanted { OnOk result (is_wanted_in engine.old key.now ≡ false) }
    ensures was { IfOk result (λ had. had ≡ (offer_of engine.old.offering.catalogue.objects).knows key.now) }
    ensures gone { OnOk result (offer_of engine.new.offering.catalogue.objects ≡ without_object key.now (offer_of engine.old.offering.catalogue.objects)) }
    ensures same { OnErr result (engine.new ≡ engine.old) }
    ensures families { engine.new.offering.catalogue.families ≡ engine.old.offering.catalogue.families }
    ensures bound { engine.new.offering.longest ≡ engine.old.offering.longest }
    ensures late { OnOk result ((s : Settings) (held : ℕ → Holding) (calls : List Call) (past : List history.Event) (waiting : ℕ → List Waiter) → Stays families_offer s held calls engine.old past waiting
        → s.terms (suc (changes past)) ≡ terms_by families_offer engine.new.offering → Stays families_offer s held calls engine.new (history.Changed ∷ past) waiting) }
{
    engine.change_object(key, |accounts| accounts.objects.remove(key))
}
