//! The names that the standard gives: of system exceptions, of service contexts and of components of
//! profiles.

/// The system exceptions (CORBA 3.3 Part 1, annex A).
const SYSTEM_EXCEPTIONS: [&str; 40] = [
    "UNKNOWN",
    "BAD_PARAM",
    "NO_MEMORY",
    "IMP_LIMIT",
    "COMM_FAILURE",
    "INV_OBJREF",
    "NO_PERMISSION",
    "INTERNAL",
    "MARSHAL",
    "INITIALIZE",
    "NO_IMPLEMENT",
    "BAD_TYPECODE",
    "BAD_OPERATION",
    "NO_RESOURCES",
    "NO_RESPONSE",
    "PERSIST_STORE",
    "BAD_INV_ORDER",
    "TRANSIENT",
    "FREE_MEM",
    "INV_IDENT",
    "INV_FLAG",
    "INTF_REPOS",
    "BAD_CONTEXT",
    "OBJ_ADAPTER",
    "DATA_CONVERSION",
    "OBJECT_NOT_EXIST",
    "TRANSACTION_REQUIRED",
    "TRANSACTION_ROLLEDBACK",
    "INVALID_TRANSACTION",
    "INV_POLICY",
    "CODESET_INCOMPATIBLE",
    "REBIND",
    "TIMEOUT",
    "TRANSACTION_UNAVAILABLE",
    "TRANSACTION_MODE",
    "BAD_QOS",
    "INVALID_ACTIVITY",
    "ACTIVITY_COMPLETED",
    "ACTIVITY_REQUIRED",
    "THREAD_CANCELLED",
];

/// What stands before and after the name in the repository id of a system exception.
const BEFORE: &[u8] = b"IDL:omg.org/CORBA/";

const AFTER: &[u8] = b":1.0";

/// The name of a system exception, by its repository id; None where the standard has none such.
pub fn exception_name(id: &[u8]) -> Option<&'static str> {
    let name = id.strip_prefix(BEFORE)?.strip_suffix(AFTER)?;
    for known in SYSTEM_EXCEPTIONS {
        if known.as_bytes() == name {
            return Some(known);
        }
    }
    None
}

/// Whether the operation was performed, as a system exception says it (CORBA 3.3 Part 1, annex A:
/// completion_status).
pub fn completion_name(number: u32) -> &'static str {
    match number {
        0 => "YES",
        1 => "NO",
        _ => "MAYBE",
    }
}

/// The service contexts by their ids, from 0 on (IOP 7.7, and the standards that add to it).
const CONTEXTS: [&str; 22] = [
    "TransactionService",
    "CodeSets",
    "ChainBypassCheck",
    "ChainBypassInfo",
    "LogicalThreadId",
    "BI_DIR_IIOP",
    "SendingContextRunTime",
    "INVOCATION_POLICIES",
    "FORWARDED_IDENTITY",
    "UnknownExceptionInfo",
    "RTCorbaPriority",
    "RTCorbaPriorityRange",
    "FT_GROUP_VERSION",
    "FT_REQUEST",
    "ExceptionDetailMessage",
    "SecurityAttributeService",
    "ActivityService",
    "RMICustomMaxStreamFormat",
    "ACCESS_SESSION_ID",
    "SERVICE_SESSION_ID",
    "FIREWALL_PATH",
    "FIREWALL_PATH_RESP",
];

/// The name of a service context's id. None: the standards have none.
pub fn context_name(id: u32) -> Option<&'static str> {
    CONTEXTS.get(id as usize).copied()
}

/// The components of profiles by their tags (IOP 7.6.6, and the standards that add to it).
const COMPONENTS: [(u32, &str); 31] = [
    (0, "ORB_TYPE"),
    (1, "CODE_SETS"),
    (2, "POLICIES"),
    (3, "ALTERNATE_IIOP_ADDRESS"),
    (5, "COMPLETE_OBJECT_KEY"),
    (6, "ENDPOINT_ID_POSITION"),
    (12, "LOCATION_POLICY"),
    (13, "ASSOCIATION_OPTIONS"),
    (14, "SEC_NAME"),
    (15, "SPKM_1_SEC_MECH"),
    (16, "SPKM_2_SEC_MECH"),
    (17, "KerberosV5_SEC_MECH"),
    (18, "CSI_ECMA_Secret_SEC_MECH"),
    (19, "CSI_ECMA_Hybrid_SEC_MECH"),
    (20, "SSL_SEC_TRANS"),
    (21, "CSI_ECMA_Public_SEC_MECH"),
    (22, "GENERIC_SEC_MECH"),
    (23, "FIREWALL_TRANS"),
    (24, "SCCP_CONTACT_INFO"),
    (25, "JAVA_CODEBASE"),
    (27, "FT_GROUP"),
    (28, "FT_PRIMARY"),
    (29, "FT_HEARTBEAT_ENABLED"),
    (33, "CSI_SEC_MECH_LIST"),
    (34, "NULL_TAG"),
    (36, "TLS_SEC_TRANS"),
    (100, "DCE_STRING_BINDING"),
    (101, "DCE_BINDING_NAME"),
    (102, "DCE_NO_PIPES"),
    (103, "DCE_SEC_MECH"),
    (123, "INET_SEC_TRANS"),
];

/// The name of the tag of a component of a profile. None: the standards have none.
pub fn component_name(tag: u32) -> Option<&'static str> {
    for (known, name) in COMPONENTS {
        if known == tag {
            return Some(name);
        }
    }
    None
}

/// The name of the tag of a profile (IOP 7.6.4).
pub fn profile_name(tag: u32) -> Option<&'static str> {
    let name = match tag {
        0 => "INTERNET_IOP",
        1 => "MULTIPLE_COMPONENTS",
        2 => "SCCP_IOP",
        3 => "UIPMC",
        4 => "MOBILE_TERMINAL_IOP",
        _ => return None,
    };
    Some(name)
}
