//! The names and numbers of system exceptions, and the texts of errors.

use ft_log::{Completion, LogError, SystemName};
use std::alloc::Global;
use std::fmt::Display;
use std::process::Abort;

/// A name, its text, its repository id, and how many octets this is with the NUL of a string.
type Row = (SystemName, &'static str, &'static [u8], usize);

static NAMES: [Row; 40] = [
    (
        SystemName::Marshal,
        "MARSHAL",
        b"IDL:omg.org/CORBA/MARSHAL:1.0",
        0x1e,
    ),
    (
        SystemName::BadContext,
        "BAD_CONTEXT",
        b"IDL:omg.org/CORBA/BAD_CONTEXT:1.0",
        0x22,
    ),
    (
        SystemName::NoResources,
        "NO_RESOURCES",
        b"IDL:omg.org/CORBA/NO_RESOURCES:1.0",
        0x23,
    ),
    (
        SystemName::BadOperation,
        "BAD_OPERATION",
        b"IDL:omg.org/CORBA/BAD_OPERATION:1.0",
        0x24,
    ),
    (
        SystemName::ObjectNotExist,
        "OBJECT_NOT_EXIST",
        b"IDL:omg.org/CORBA/OBJECT_NOT_EXIST:1.0",
        0x27,
    ),
    (
        SystemName::Unknown,
        "UNKNOWN",
        b"IDL:omg.org/CORBA/UNKNOWN:1.0",
        0x1e,
    ),
    (
        SystemName::BadParam,
        "BAD_PARAM",
        b"IDL:omg.org/CORBA/BAD_PARAM:1.0",
        0x20,
    ),
    (
        SystemName::NoPermission,
        "NO_PERMISSION",
        b"IDL:omg.org/CORBA/NO_PERMISSION:1.0",
        0x24,
    ),
    (
        SystemName::ImpLimit,
        "IMP_LIMIT",
        b"IDL:omg.org/CORBA/IMP_LIMIT:1.0",
        0x20,
    ),
    (
        SystemName::Internal,
        "INTERNAL",
        b"IDL:omg.org/CORBA/INTERNAL:1.0",
        0x1f,
    ),
    (
        SystemName::Transient,
        "TRANSIENT",
        b"IDL:omg.org/CORBA/TRANSIENT:1.0",
        0x20,
    ),
    (
        SystemName::NoMemory,
        "NO_MEMORY",
        b"IDL:omg.org/CORBA/NO_MEMORY:1.0",
        0x20,
    ),
    (
        SystemName::CommFailure,
        "COMM_FAILURE",
        b"IDL:omg.org/CORBA/COMM_FAILURE:1.0",
        0x23,
    ),
    (
        SystemName::InvObjref,
        "INV_OBJREF",
        b"IDL:omg.org/CORBA/INV_OBJREF:1.0",
        0x21,
    ),
    (
        SystemName::Initialize,
        "INITIALIZE",
        b"IDL:omg.org/CORBA/INITIALIZE:1.0",
        0x21,
    ),
    (
        SystemName::NoImplement,
        "NO_IMPLEMENT",
        b"IDL:omg.org/CORBA/NO_IMPLEMENT:1.0",
        0x23,
    ),
    (
        SystemName::BadTypecode,
        "BAD_TYPECODE",
        b"IDL:omg.org/CORBA/BAD_TYPECODE:1.0",
        0x23,
    ),
    (
        SystemName::NoResponse,
        "NO_RESPONSE",
        b"IDL:omg.org/CORBA/NO_RESPONSE:1.0",
        0x22,
    ),
    (
        SystemName::PersistStore,
        "PERSIST_STORE",
        b"IDL:omg.org/CORBA/PERSIST_STORE:1.0",
        0x24,
    ),
    (
        SystemName::BadInvOrder,
        "BAD_INV_ORDER",
        b"IDL:omg.org/CORBA/BAD_INV_ORDER:1.0",
        0x24,
    ),
    (
        SystemName::FreeMem,
        "FREE_MEM",
        b"IDL:omg.org/CORBA/FREE_MEM:1.0",
        0x1f,
    ),
    (
        SystemName::InvIdent,
        "INV_IDENT",
        b"IDL:omg.org/CORBA/INV_IDENT:1.0",
        0x20,
    ),
    (
        SystemName::InvFlag,
        "INV_FLAG",
        b"IDL:omg.org/CORBA/INV_FLAG:1.0",
        0x1f,
    ),
    (
        SystemName::IntfRepos,
        "INTF_REPOS",
        b"IDL:omg.org/CORBA/INTF_REPOS:1.0",
        0x21,
    ),
    (
        SystemName::ObjAdapter,
        "OBJ_ADAPTER",
        b"IDL:omg.org/CORBA/OBJ_ADAPTER:1.0",
        0x22,
    ),
    (
        SystemName::DataConversion,
        "DATA_CONVERSION",
        b"IDL:omg.org/CORBA/DATA_CONVERSION:1.0",
        0x26,
    ),
    (
        SystemName::TransactionRequired,
        "TRANSACTION_REQUIRED",
        b"IDL:omg.org/CORBA/TRANSACTION_REQUIRED:1.0",
        0x2b,
    ),
    (
        SystemName::TransactionRolledback,
        "TRANSACTION_ROLLEDBACK",
        b"IDL:omg.org/CORBA/TRANSACTION_ROLLEDBACK:1.0",
        0x2d,
    ),
    (
        SystemName::InvalidTransaction,
        "INVALID_TRANSACTION",
        b"IDL:omg.org/CORBA/INVALID_TRANSACTION:1.0",
        0x2a,
    ),
    (
        SystemName::InvPolicy,
        "INV_POLICY",
        b"IDL:omg.org/CORBA/INV_POLICY:1.0",
        0x21,
    ),
    (
        SystemName::CodesetIncompatible,
        "CODESET_INCOMPATIBLE",
        b"IDL:omg.org/CORBA/CODESET_INCOMPATIBLE:1.0",
        0x2b,
    ),
    (
        SystemName::Rebind,
        "REBIND",
        b"IDL:omg.org/CORBA/REBIND:1.0",
        0x1d,
    ),
    (
        SystemName::Timeout,
        "TIMEOUT",
        b"IDL:omg.org/CORBA/TIMEOUT:1.0",
        0x1e,
    ),
    (
        SystemName::TransactionUnavailable,
        "TRANSACTION_UNAVAILABLE",
        b"IDL:omg.org/CORBA/TRANSACTION_UNAVAILABLE:1.0",
        0x2e,
    ),
    (
        SystemName::TransactionMode,
        "TRANSACTION_MODE",
        b"IDL:omg.org/CORBA/TRANSACTION_MODE:1.0",
        0x27,
    ),
    (
        SystemName::BadQos,
        "BAD_QOS",
        b"IDL:omg.org/CORBA/BAD_QOS:1.0",
        0x1e,
    ),
    (
        SystemName::InvalidActivity,
        "INVALID_ACTIVITY",
        b"IDL:omg.org/CORBA/INVALID_ACTIVITY:1.0",
        0x27,
    ),
    (
        SystemName::ActivityCompleted,
        "ACTIVITY_COMPLETED",
        b"IDL:omg.org/CORBA/ACTIVITY_COMPLETED:1.0",
        0x29,
    ),
    (
        SystemName::ActivityRequired,
        "ACTIVITY_REQUIRED",
        b"IDL:omg.org/CORBA/ACTIVITY_REQUIRED:1.0",
        0x28,
    ),
    (
        SystemName::ThreadCancelled,
        "THREAD_CANCELLED",
        b"IDL:omg.org/CORBA/THREAD_CANCELLED:1.0",
        0x27,
    ),
];

static COMPLETIONS: [(Completion, &str, u32); 3] = [
    (Completion::Yes, "COMPLETED_YES", 0),
    (Completion::No, "COMPLETED_NO", 1),
    (Completion::Maybe, "COMPLETED_MAYBE", 2),
];

static ERRORS: [(LogError, &str); 3] = [
    (LogError::Full, "full"),
    (LogError::ShareFull, "share full"),
    (LogError::Memory, "memory"),
];

/// Whether that is printed so.
fn is_printed<T: Display + Drop>(alloc: Global, found: T, wanted: &str) -> bool {
    match format!(in alloc; "{found}") {
        Ok(text) => text.as_str() == wanted,
        Err(_) => false,
    }
}

/// Asserts what holds of the row of that name.
fn assert_named(rt: &impl Abort, holds: bool, name: &str) {
    assert!(rt; holds, "{name}");
}

#[test]
fn names_have_their_ids(rt: HostRuntime) {
    for (name, text, id, size) in &NAMES {
        assert_named(&rt, is_printed(rt.alloc(), *name, text), text);
        assert_named(&rt, name.repository_id() == *id, text);
        assert_named(&rt, id.len() + 1 == *size, text);
    }
}

#[test]
fn completions_have_their_numbers(rt: HostRuntime) {
    for (completion, text, number) in &COMPLETIONS {
        assert_named(&rt, is_printed(rt.alloc(), *completion, text), text);
        assert_named(&rt, completion.number() == *number, text);
    }
}

#[test]
fn errors_are_printed(rt: HostRuntime) {
    for (error, text) in &ERRORS {
        assert_named(&rt, is_printed(rt.alloc(), *error, text), text);
    }
}
