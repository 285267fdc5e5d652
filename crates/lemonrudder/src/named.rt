//! Numbers of the header, and what they name.

ghost use Rattle.std.specs.Prelude.{◌≡◌};
ghost use Rattle.lemonrudder.specs.Naming.{GivesLimits, call_numbered, completion_named, cuts_named, minor_number, or_range, order_named, order_number, raw_status_named, system_name_named, system_number, truth_named, version_named, wish_named, wish_number};

use crate::refusal::Refusal;
use cdr_core::Order;
use ft_log::{Completion, RawStatus, SystemName};
use giop_core::{ReplyWish, Version};
use giop_frames::{Cuts, Limits};

/// The version of a minor number.
pub fn version_of(minor: u32) -> Result<Version, Refusal>
    ensures { result ≡ or_range (version_named minor) }
{
    match minor {
        0 => Ok(Version::V10),
        1 => Ok(Version::V11),
        2 => Ok(Version::V12),
        _ => Err(Refusal::Range),
    }
}

/// The minor number of a version.
pub fn minor_of(version: Version) -> u32
    ensures { result ≡ minor_number version }
{
    match version {
        Version::V10 => 0,
        Version::V11 => 1,
        Version::V12 => 2,
    }
}

/// The order of a number: 0 is big, 1 little.
pub fn order_of(number: u32) -> Result<Order, Refusal>
    ensures { result ≡ or_range (order_named number) }
{
    match number {
        0 => Ok(Order::Big),
        1 => Ok(Order::Little),
        _ => Err(Refusal::Range),
    }
}

/// The number of an order.
pub fn number_of_order(order: Order) -> u32
    ensures { result ≡ order_number order }
{
    match order {
        Order::Big => 0,
        Order::Little => 1,
    }
}

/// The truth of a number: 0 is no, 1 yes.
pub fn truth_of(number: u64) -> Result<bool, Refusal>
    ensures { result ≡ or_range (truth_named number) }
{
    match number {
        0 => Ok(false),
        1 => Ok(true),
        _ => Err(Refusal::Range),
    }
}

/// The cuts of a number: 0 is aligned, 1 anywhere.
pub fn cuts_of(number: u64) -> Result<Cuts, Refusal>
    ensures { result ≡ or_range (cuts_named number) }
{
    match number {
        0 => Ok(Cuts::Aligned),
        1 => Ok(Cuts::Anywhere),
        _ => Err(Refusal::Range),
    }
}

/// The greatest number of a call, the greatest long.
const LAST: u32 = 2_147_483_647;

/// The number of a call.
pub fn number_of_call(call: i64) -> Result<u32, Refusal>
    ensures { result ≡ or_range (call_numbered call) }
{
    match u32::try_from(call) {
        Ok(number) if number <= LAST => Ok(number),
        _ => Err(Refusal::Range),
    }
}

/// The wish of a number.
pub fn wish_of(number: u32) -> Result<ReplyWish, Refusal>
    ensures { result ≡ or_range (wish_named number) }
{
    match number {
        0 => Ok(ReplyWish::None),
        1 => Ok(ReplyWish::Empty),
        2 => Ok(ReplyWish::Full),
        _ => Err(Refusal::Range),
    }
}

/// The number of a wish.
pub fn number_of_wish(wish: ReplyWish) -> u32
    ensures { result ≡ wish_number wish }
{
    match wish {
        ReplyWish::None => 0,
        ReplyWish::Empty => 1,
        ReplyWish::Full => 2,
    }
}

/// The limits of a connection.
pub fn limits_of(message: u32, partials: u32, cuts: Cuts) -> Result<Limits, Refusal>
    ensures { GivesLimits message partials cuts result }
{
    let partials = u8::try_from(partials).map_err(|_| Refusal::Range)?;
    let limits = Limits::new(message, partials).ok_or(Refusal::Range)?;
    Ok(limits.with_cuts(cuts))
}

/// The status of a raw reply.
pub fn raw_status_of(number: u32) -> Result<RawStatus, Refusal>
    ensures { result ≡ or_range (raw_status_named number) }
{
    match number {
        0 => Ok(RawStatus::NoException),
        1 => Ok(RawStatus::UserException),
        2 => Ok(RawStatus::SystemException),
        3 => Ok(RawStatus::LocationForward),
        _ => Err(Refusal::Range),
    }
}

/// The system exception of a number.
pub fn system_name_of(number: u32) -> Result<SystemName, Refusal>
    ensures { result ≡ or_range (system_name_named number) }
{
    match number {
        0 => Ok(SystemName::Marshal),
        1 => Ok(SystemName::BadContext),
        2 => Ok(SystemName::NoResources),
        3 => Ok(SystemName::BadOperation),
        4 => Ok(SystemName::ObjectNotExist),
        5 => Ok(SystemName::Unknown),
        6 => Ok(SystemName::BadParam),
        7 => Ok(SystemName::NoPermission),
        8 => Ok(SystemName::ImpLimit),
        9 => Ok(SystemName::Internal),
        10 => Ok(SystemName::Transient),
        11 => Ok(SystemName::NoMemory),
        12 => Ok(SystemName::CommFailure),
        13 => Ok(SystemName::InvObjref),
        14 => Ok(SystemName::Initialize),
        15 => Ok(SystemName::NoImplement),
        16 => Ok(SystemName::BadTypecode),
        17 => Ok(SystemName::NoResponse),
        18 => Ok(SystemName::PersistStore),
        19 => Ok(SystemName::BadInvOrder),
        20 => Ok(SystemName::FreeMem),
        21 => Ok(SystemName::InvIdent),
        22 => Ok(SystemName::InvFlag),
        23 => Ok(SystemName::IntfRepos),
        24 => Ok(SystemName::ObjAdapter),
        25 => Ok(SystemName::DataConversion),
        26 => Ok(SystemName::TransactionRequired),
        27 => Ok(SystemName::TransactionRolledback),
        28 => Ok(SystemName::InvalidTransaction),
        29 => Ok(SystemName::InvPolicy),
        30 => Ok(SystemName::CodesetIncompatible),
        31 => Ok(SystemName::Rebind),
        32 => Ok(SystemName::Timeout),
        33 => Ok(SystemName::TransactionUnavailable),
        34 => Ok(SystemName::TransactionMode),
        35 => Ok(SystemName::BadQos),
        36 => Ok(SystemName::InvalidActivity),
        37 => Ok(SystemName::ActivityCompleted),
        38 => Ok(SystemName::ActivityRequired),
        39 => Ok(SystemName::ThreadCancelled),
        _ => Err(Refusal::Range),
    }
}

/// The number of a system exception.
pub fn number_of_system_name(name: SystemName) -> u32
    ensures { result ≡ system_number name }
{
    match name {
        SystemName::Marshal => 0,
        SystemName::BadContext => 1,
        SystemName::NoResources => 2,
        SystemName::BadOperation => 3,
        SystemName::ObjectNotExist => 4,
        SystemName::Unknown => 5,
        SystemName::BadParam => 6,
        SystemName::NoPermission => 7,
        SystemName::ImpLimit => 8,
        SystemName::Internal => 9,
        SystemName::Transient => 10,
        SystemName::NoMemory => 11,
        SystemName::CommFailure => 12,
        SystemName::InvObjref => 13,
        SystemName::Initialize => 14,
        SystemName::NoImplement => 15,
        SystemName::BadTypecode => 16,
        SystemName::NoResponse => 17,
        SystemName::PersistStore => 18,
        SystemName::BadInvOrder => 19,
        SystemName::FreeMem => 20,
        SystemName::InvIdent => 21,
        SystemName::InvFlag => 22,
        SystemName::IntfRepos => 23,
        SystemName::ObjAdapter => 24,
        SystemName::DataConversion => 25,
        SystemName::TransactionRequired => 26,
        SystemName::TransactionRolledback => 27,
        SystemName::InvalidTransaction => 28,
        SystemName::InvPolicy => 29,
        SystemName::CodesetIncompatible => 30,
        SystemName::Rebind => 31,
        SystemName::Timeout => 32,
        SystemName::TransactionUnavailable => 33,
        SystemName::TransactionMode => 34,
        SystemName::BadQos => 35,
        SystemName::InvalidActivity => 36,
        SystemName::ActivityCompleted => 37,
        SystemName::ActivityRequired => 38,
        SystemName::ThreadCancelled => 39,
    }
}

/// The completion of a number, by the ordinals of the standard's enumeration.
pub fn completion_of(number: u32) -> Result<Completion, Refusal>
    ensures { result ≡ or_range (completion_named number) }
{
    match number {
        0 => Ok(Completion::Yes),
        1 => Ok(Completion::No),
        2 => Ok(Completion::Maybe),
        _ => Err(Refusal::Range),
    }
}
