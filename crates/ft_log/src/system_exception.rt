//! System exceptions (GIOP 9.4.3): their names, and whether the operation was completed.

ghost use Rattle.std.specs.Prelude.{◌≡◌, ◌≤◌, Some, length};
ghost use Rattle.cdr_core.specs.Spelling.{IsClean};
ghost use Rattle.ft_log.specs.Exceptions.{completion_number, completion_text, repository_id, system_text};

use std::fmt;

/// The name of a system exception. The first five are those that a server answers with by itself, the
/// others are a servant's.
#[derive(Clone, Copy, Debug, PartialEq, Eq)]
pub enum SystemName {
    /// The request or its parameters don't read.
    Marshal,
    /// A service context can't be processed.
    BadContext,
    /// The server's resources don't suffice.
    NoResources,
    /// The object has no such operation.
    BadOperation,
    /// There is no such object.
    ObjectNotExist,
    /// The servant had an error that no other name fits.
    Unknown,
    /// A parameter is out of range.
    BadParam,
    /// The client may not ask for this.
    NoPermission,
    /// A limit of the implementation is exceeded.
    ImpLimit,
    /// The servant found itself in error.
    Internal,
    /// The request may be asked again later.
    Transient,
    /// Memory is short.
    NoMemory,
    /// The connection was lost before the reply.
    CommFailure,
    /// An object reference is not valid.
    InvObjref,
    /// The ORB could not be initialized.
    Initialize,
    /// The operation has no implementation.
    NoImplement,
    /// A TypeCode is not valid.
    BadTypecode,
    /// The reply of a deferred request is not there yet.
    NoResponse,
    /// What is kept outside the process can't be reached.
    PersistStore,
    /// The operation may not be called now.
    BadInvOrder,
    /// Memory could not be given back.
    FreeMem,
    /// An identifier of IDL is not valid.
    InvIdent,
    /// A flag is not valid.
    InvFlag,
    /// The interface repository can't be reached.
    IntfRepos,
    /// The object adapter has failed.
    ObjAdapter,
    /// A value can't be converted.
    DataConversion,
    /// The operation wants a transaction.
    TransactionRequired,
    /// The transaction was rolled back.
    TransactionRolledback,
    /// The transaction's context is not valid.
    InvalidTransaction,
    /// Policies don't fit one another.
    InvPolicy,
    /// Code sets don't fit one another.
    CodesetIncompatible,
    /// The client would have to bind anew, and its policy forbids it.
    Rebind,
    /// The time for the request is over.
    Timeout,
    /// The transaction's service can't be reached.
    TransactionUnavailable,
    /// The transaction's mode and the object's policy differ.
    TransactionMode,
    /// A quality of service can't be had.
    BadQos,
    /// The activity's context is not valid.
    InvalidActivity,
    /// The activity is completed.
    ActivityCompleted,
    /// The operation wants an activity.
    ActivityRequired,
    /// The thread of the request was cancelled.
    ThreadCancelled,
}

impl SystemName {
    /// The repository id, as the body of a Reply has it: `IDL:omg.org/CORBA/MARSHAL:1.0`, without a NUL.
    pub fn repository_id(self) -> &'static [u8]
        ensures named { result.now ≡ repository_id self }
        ensures clean { IsClean result.now }
        ensures bound { length result.now ≤ 45 }
    {
        match self {
            SystemName::Marshal => b"IDL:omg.org/CORBA/MARSHAL:1.0",
            SystemName::BadContext => b"IDL:omg.org/CORBA/BAD_CONTEXT:1.0",
            SystemName::NoResources => b"IDL:omg.org/CORBA/NO_RESOURCES:1.0",
            SystemName::BadOperation => b"IDL:omg.org/CORBA/BAD_OPERATION:1.0",
            SystemName::ObjectNotExist => b"IDL:omg.org/CORBA/OBJECT_NOT_EXIST:1.0",
            SystemName::Unknown => b"IDL:omg.org/CORBA/UNKNOWN:1.0",
            SystemName::BadParam => b"IDL:omg.org/CORBA/BAD_PARAM:1.0",
            SystemName::NoPermission => b"IDL:omg.org/CORBA/NO_PERMISSION:1.0",
            SystemName::ImpLimit => b"IDL:omg.org/CORBA/IMP_LIMIT:1.0",
            SystemName::Internal => b"IDL:omg.org/CORBA/INTERNAL:1.0",
            SystemName::Transient => b"IDL:omg.org/CORBA/TRANSIENT:1.0",
            SystemName::NoMemory => b"IDL:omg.org/CORBA/NO_MEMORY:1.0",
            SystemName::CommFailure => b"IDL:omg.org/CORBA/COMM_FAILURE:1.0",
            SystemName::InvObjref => b"IDL:omg.org/CORBA/INV_OBJREF:1.0",
            SystemName::Initialize => b"IDL:omg.org/CORBA/INITIALIZE:1.0",
            SystemName::NoImplement => b"IDL:omg.org/CORBA/NO_IMPLEMENT:1.0",
            SystemName::BadTypecode => b"IDL:omg.org/CORBA/BAD_TYPECODE:1.0",
            SystemName::NoResponse => b"IDL:omg.org/CORBA/NO_RESPONSE:1.0",
            SystemName::PersistStore => b"IDL:omg.org/CORBA/PERSIST_STORE:1.0",
            SystemName::BadInvOrder => b"IDL:omg.org/CORBA/BAD_INV_ORDER:1.0",
            SystemName::FreeMem => b"IDL:omg.org/CORBA/FREE_MEM:1.0",
            SystemName::InvIdent => b"IDL:omg.org/CORBA/INV_IDENT:1.0",
            SystemName::InvFlag => b"IDL:omg.org/CORBA/INV_FLAG:1.0",
            SystemName::IntfRepos => b"IDL:omg.org/CORBA/INTF_REPOS:1.0",
            SystemName::ObjAdapter => b"IDL:omg.org/CORBA/OBJ_ADAPTER:1.0",
            SystemName::DataConversion => b"IDL:omg.org/CORBA/DATA_CONVERSION:1.0",
            SystemName::TransactionRequired => b"IDL:omg.org/CORBA/TRANSACTION_REQUIRED:1.0",
            SystemName::TransactionRolledback => b"IDL:omg.org/CORBA/TRANSACTION_ROLLEDBACK:1.0",
            SystemName::InvalidTransaction => b"IDL:omg.org/CORBA/INVALID_TRANSACTION:1.0",
            SystemName::InvPolicy => b"IDL:omg.org/CORBA/INV_POLICY:1.0",
            SystemName::CodesetIncompatible => b"IDL:omg.org/CORBA/CODESET_INCOMPATIBLE:1.0",
            SystemName::Rebind => b"IDL:omg.org/CORBA/REBIND:1.0",
            SystemName::Timeout => b"IDL:omg.org/CORBA/TIMEOUT:1.0",
            SystemName::TransactionUnavailable => b"IDL:omg.org/CORBA/TRANSACTION_UNAVAILABLE:1.0",
            SystemName::TransactionMode => b"IDL:omg.org/CORBA/TRANSACTION_MODE:1.0",
            SystemName::BadQos => b"IDL:omg.org/CORBA/BAD_QOS:1.0",
            SystemName::InvalidActivity => b"IDL:omg.org/CORBA/INVALID_ACTIVITY:1.0",
            SystemName::ActivityCompleted => b"IDL:omg.org/CORBA/ACTIVITY_COMPLETED:1.0",
            SystemName::ActivityRequired => b"IDL:omg.org/CORBA/ACTIVITY_REQUIRED:1.0",
            SystemName::ThreadCancelled => b"IDL:omg.org/CORBA/THREAD_CANCELLED:1.0",
        }
    }
}

/// The name that the standard gives it, as `OBJECT_NOT_EXIST`.
impl fmt::Display for SystemName {
    ghost output = { λ name. Some (system_text name) };

    fn fmt<W: fmt::Write>(&self, f: &mut fmt::Formatter<W>) -> fmt::Result {
        match self {
            SystemName::Marshal => f.write_str("MARSHAL"),
            SystemName::BadContext => f.write_str("BAD_CONTEXT"),
            SystemName::NoResources => f.write_str("NO_RESOURCES"),
            SystemName::BadOperation => f.write_str("BAD_OPERATION"),
            SystemName::ObjectNotExist => f.write_str("OBJECT_NOT_EXIST"),
            SystemName::Unknown => f.write_str("UNKNOWN"),
            SystemName::BadParam => f.write_str("BAD_PARAM"),
            SystemName::NoPermission => f.write_str("NO_PERMISSION"),
            SystemName::ImpLimit => f.write_str("IMP_LIMIT"),
            SystemName::Internal => f.write_str("INTERNAL"),
            SystemName::Transient => f.write_str("TRANSIENT"),
            SystemName::NoMemory => f.write_str("NO_MEMORY"),
            SystemName::CommFailure => f.write_str("COMM_FAILURE"),
            SystemName::InvObjref => f.write_str("INV_OBJREF"),
            SystemName::Initialize => f.write_str("INITIALIZE"),
            SystemName::NoImplement => f.write_str("NO_IMPLEMENT"),
            SystemName::BadTypecode => f.write_str("BAD_TYPECODE"),
            SystemName::NoResponse => f.write_str("NO_RESPONSE"),
            SystemName::PersistStore => f.write_str("PERSIST_STORE"),
            SystemName::BadInvOrder => f.write_str("BAD_INV_ORDER"),
            SystemName::FreeMem => f.write_str("FREE_MEM"),
            SystemName::InvIdent => f.write_str("INV_IDENT"),
            SystemName::InvFlag => f.write_str("INV_FLAG"),
            SystemName::IntfRepos => f.write_str("INTF_REPOS"),
            SystemName::ObjAdapter => f.write_str("OBJ_ADAPTER"),
            SystemName::DataConversion => f.write_str("DATA_CONVERSION"),
            SystemName::TransactionRequired => f.write_str("TRANSACTION_REQUIRED"),
            SystemName::TransactionRolledback => f.write_str("TRANSACTION_ROLLEDBACK"),
            SystemName::InvalidTransaction => f.write_str("INVALID_TRANSACTION"),
            SystemName::InvPolicy => f.write_str("INV_POLICY"),
            SystemName::CodesetIncompatible => f.write_str("CODESET_INCOMPATIBLE"),
            SystemName::Rebind => f.write_str("REBIND"),
            SystemName::Timeout => f.write_str("TIMEOUT"),
            SystemName::TransactionUnavailable => f.write_str("TRANSACTION_UNAVAILABLE"),
            SystemName::TransactionMode => f.write_str("TRANSACTION_MODE"),
            SystemName::BadQos => f.write_str("BAD_QOS"),
            SystemName::InvalidActivity => f.write_str("INVALID_ACTIVITY"),
            SystemName::ActivityCompleted => f.write_str("ACTIVITY_COMPLETED"),
            SystemName::ActivityRequired => f.write_str("ACTIVITY_REQUIRED"),
            SystemName::ThreadCancelled => f.write_str("THREAD_CANCELLED"),
        }
    }
}

/// Whether an operation was completed before a system exception was raised.
#[derive(Clone, Copy, Debug, PartialEq, Eq)]
pub enum Completion {
    Yes,
    No,
    Maybe,
}

impl Completion {
    /// The ordinal of the standard's enumeration: 0 for Yes, 1 for No, 2 for Maybe.
    pub fn number(self) -> u32
        ensures { result ≡ completion_number self }
    {
        match self {
            Completion::Yes => 0,
            Completion::No => 1,
            Completion::Maybe => 2,
        }
    }
}

/// The name that the standard gives it, as `COMPLETED_NO`.
impl fmt::Display for Completion {
    ghost output = { λ completion. Some (completion_text completion) };

    fn fmt<W: fmt::Write>(&self, f: &mut fmt::Formatter<W>) -> fmt::Result {
        match self {
            Completion::Yes => f.write_str("COMPLETED_YES"),
            Completion::No => f.write_str("COMPLETED_NO"),
            Completion::Maybe => f.write_str("COMPLETED_MAYBE"),
        }
    }
}
