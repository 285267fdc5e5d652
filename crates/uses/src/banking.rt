//! Serve what you don't prove: an engine asks a bank, which is plain code.

ghost use Rattle.std.specs.Prelude.{◌≡◌, IsSome, None};
ghost use Rattle.ft_orb.specs.Engines.{waits_in};

use cdr_core::{Ty, Val};
use ft_log::{Completion, Outcome, Retention, SystemName};
use ft_objects::{Catalogue, Interfaces, InterfacesError, Signature, longlong_at, string_at};
use ft_orb::{Asked, CloseError, ConnectError, Engine, Event, Fed, Performer, Places, ServeError};
use giop_frames::Limits;
use std::alloc::{AllocError, Global};
use std::collections::BTreeMap;
use std::hash::RandomState;
use thiserror::Error;

/// Why events were not served.
#[derive(Debug, Drop, Error)]
pub enum BankingError {
    #[error("memory")]
    Memory(#[from] AllocError),
    #[error("{0}")]
    Interfaces(#[from] InterfacesError),
    #[error("{0}")]
    Connect(#[from] ConnectError),
    #[error("{0}")]
    Serve(#[from] ServeError),
    #[error("{0}")]
    Close(#[from] CloseError),
    /// The owner gave a request up: nothing was done, and its connection is lost.
    #[error("given up")]
    GivenUp,
    /// No request is parked under this number, or the outcome is none of its operation.
    #[error("not parked")]
    NotParked,
}

/// The repository id of `Overdrawn`.
const OVERDRAWN: &[u8] = b"IDL:Bank/Overdrawn:1.0";

/// The object of the key `bank`,
///
/// ```idl
/// interface Bank {
///   exception Overdrawn { long long balance; };
///   long long deposit(in string account, in long long cents) raises (Overdrawn);
///   long long balance(in string account);
/// };
/// ```
///
/// with the balance of each account in cents. It is below 0 for none: where a deposit of fewer than 0 cents would
/// lead there, or one to no long long, `Overdrawn` reports the balance that stays.
#[derive(Drop)]
pub struct Bank {
    accounts: BTreeMap<Vec<u8>, i64>,
}

/// The outcome that returns an amount.
fn returned(alloc: Global, cents: i64) -> Result<Outcome, AllocError> {
    Ok(Outcome::Returned(vec![in alloc; Val::LongLong(cents)]?))
}

/// The outcome that raises `Overdrawn`.
fn overdrawn(alloc: Global, balance: i64) -> Result<Outcome, AllocError> {
    let id = Vec::from_slice(alloc, OVERDRAWN)?;
    Ok(Outcome::Raised(id, vec![in alloc; Val::LongLong(balance)]?))
}

impl Bank {
    /// A bank without accounts.
    pub fn new(alloc: Global) -> Bank {
        Bank {
            accounts: BTreeMap::new(alloc),
        }
    }

    /// The balance of an account: 0 before its first deposit.
    pub fn balance(&self, account: &[u8]) -> i64 {
        match self.accounts.get(account) {
            Some(balance) => *balance,
            None => 0,
        }
    }

    /// Adds to an account. Where an allocation fails nothing is done.
    fn deposit(
        &mut self,
        alloc: Global,
        account: &[u8],
        cents: i64,
    ) -> Result<Outcome, AllocError> {
        let balance = self.balance(account);
        let sum = match balance.checked_add(cents) {
            Some(sum) if sum >= 0 => sum,
            _ => return overdrawn(alloc, balance),
        };
        let outcome = returned(alloc, sum)?;
        self.accounts.insert(Vec::from_slice(alloc, account)?, sum)?;
        Ok(outcome)
    }
}

impl Performer for Bank {
    ghost answered = { λ bank. None };

    fn perform(&mut self, alloc: Global, asked: &Asked<'_>) -> Option<Outcome> {
        let account = string_at(asked.arguments, 0)?;
        if asked.operation == b"balance".as_slice() {
            return returned(alloc, self.balance(account)).ok();
        }
        let cents = longlong_at(asked.arguments, 1)?;
        self.deposit(alloc, account, cents).ok()
    }
}

/// The types of `deposit`.
fn deposit_types(alloc: Global) -> Result<Signature, AllocError> {
    let id = Vec::from_slice(alloc, OVERDRAWN)?;
    let members = vec![in alloc; Ty::LongLong]?;
    Ok(Signature {
        arguments: vec![in alloc; Ty::Str(u32::MAX), Ty::LongLong]?,
        results: vec![in alloc; Ty::LongLong]?,
        raises: vec![in alloc; (id, members)]?,
    })
}

/// The types of `balance`.
fn balance_types(alloc: Global) -> Result<Signature, AllocError> {
    Ok(Signature {
        arguments: vec![in alloc; Ty::Str(u32::MAX)]?,
        results: vec![in alloc; Ty::LongLong]?,
        raises: Vec::new(alloc),
    })
}

/// Adds the bank's key, its operations and their types.
fn add_bank(alloc: Global, interfaces: &mut Interfaces) -> Result<(), BankingError> {
    interfaces.add_object(b"bank")?;
    interfaces.add_operation(b"bank", b"deposit", deposit_types(alloc)?)?;
    Ok(interfaces.add_operation(b"bank", b"balance", balance_types(alloc)?)?)
}

/// The bank's key, its operations and their types.
pub(crate) fn bank_interfaces(alloc: Global) -> Result<Interfaces, BankingError> {
    let mut interfaces = Interfaces::new(alloc);
    add_bank(alloc, &mut interfaces)?;
    Ok(interfaces)
}

/// Lets the owner perform the call that waits, and answers it, or gives it up.
fn answer<C: Catalogue + Drop, O: Performer>(
    alloc: Global,
    engine: &mut Engine<C>,
    owner: &mut O,
    out: &mut Vec<u8>,
) -> Result<(), BankingError>
    requires asking { IsSome (waits_in engine.old) }
    ensures idle { waits_in engine.new ≡ None }
{
    let Some(asked) = engine.asked() else {
        return Ok(());
    };
    let number = asked.number;
    if let Some(outcome) = owner.perform(alloc, &asked) {
        // what was performed is answered in any case, by INTERNAL where its outcome is none of the operation
        let outcome = if engine.can_answer(number, &outcome) {
            outcome
        } else {
            Outcome::System(SystemName::Internal, 0, Completion::Maybe)
        };
        if engine.can_answer(number, &outcome) {
            return Ok(engine.answer(number, outcome, out)?);
        }
    }
    engine.give_up(number);
    Err(BankingError::GivenUp)
}

/// Feeds a piece to its end, and lets the owner perform each call that is asked for in it.
pub(crate) fn feed<C: Catalogue + Drop, O: Performer>(
    alloc: Global,
    engine: &mut Engine<C>,
    owner: &mut O,
    connection: u64,
    moment: u64,
    piece: &[u8],
    out: &mut Vec<u8>,
) -> Result<(), BankingError>
    requires idle { waits_in engine.old ≡ None }
    ensures idle { waits_in engine.new ≡ None }
{
    let mut left = piece;
    while let Fed::Asks(taken) = engine.feed(connection, moment, left, out)? {
        answer(alloc, engine, owner, out)?;
        (_, left) = left.split_at(taken);
    }
    Ok(())
}

/// Serves an event: what is to be sent on its connection.
fn serve_event<C: Catalogue + Drop, O: Performer>(
    alloc: Global,
    engine: &mut Engine<C>,
    owner: &mut O,
    event: &Event,
) -> Result<Vec<u8>, BankingError>
    requires idle { waits_in engine.old ≡ None }
    ensures idle { waits_in engine.new ≡ None }
{
    let mut out = Vec::new(alloc);
    match event {
        Event::Opened(connection) => engine.connect(*connection)?,
        Event::Piece(connection, moment, piece) => {
            feed(alloc, engine, owner, *connection, *moment, piece, &mut out)?;
        }
        Event::Close(connection) => engine.close(*connection, &mut out)?,
        Event::Lost(connection) => engine.lost(*connection),
    }
    Ok(out)
}

/// Serves events one after another: appends what is to be sent for each.
pub(crate) fn serve_events<C: Catalogue + Drop, O: Performer>(
    alloc: Global,
    engine: &mut Engine<C>,
    owner: &mut O,
    events: &[Event],
    out: &mut Vec<Vec<u8>>,
) -> Result<(), BankingError>
    requires idle { waits_in engine.old ≡ None }
    ensures idle { waits_in engine.new ≡ None }
{
    for event in events {
        let octets = serve_event(alloc, engine, owner, event)?;
        if out.push(octets).is_err() {
            return Err(BankingError::Memory(AllocError));
        }
    }
    Ok(())
}

/// Serves a bank by a new engine: appends what is to be sent for each event.
fn serve_before(
    alloc: Global,
    hasher: RandomState,
    limits: Limits,
    bank: &mut Bank,
    events: &[Event],
    out: &mut Vec<Vec<u8>>,
) -> Result<(), BankingError> {
    let interfaces = bank_interfaces(alloc)?;
    // at most 100 outcomes are kept, at most 100 of each client
    let retention = Retention {
        capacity: 100,
        share: 100,
    };
    let mut engine = Engine::new(alloc, interfaces, limits, retention, Places::none(), hasher);
    serve_events(alloc, &mut engine, bank, events, out)
}

/// Serves a new bank: appends what is to be sent for each event, and gives the bank after the last.
pub fn serve_bank(
    alloc: Global,
    hasher: RandomState,
    limits: Limits,
    events: &[Event],
    out: &mut Vec<Vec<u8>>,
) -> Result<Bank, BankingError> {
    let mut bank = Bank::new(alloc);
    serve_before(alloc, hasher, limits, &mut bank, events, out)?;
    Ok(bank)
}
