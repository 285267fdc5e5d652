//! The samples on which each call is made.

use crate::calls::Call;
use crate::samples::{
    FAULTS, LISTS, PROFILE_FAULTS, PROFILES, REFERENCE_FAULTS, REFERENCES, TEXT_FAULTS, TEXTS,
    VALUES,
};
use trials::{Room, Sample, Samples, Suite};

/// A set of samples.
pub enum Set {
    /// A value of each kind of type for which memory is taken.
    Values,
    /// The structs, whose members are lists of values.
    Lists,
    /// Octets that are faulty after a part for which memory is taken.
    Faults,
    /// References.
    References,
    /// Octets that are faulty after a part of a reference.
    ReferenceFaults,
    /// Texts of references.
    Texts,
    /// Texts of octets that are faulty after a part of a reference.
    TextFaults,
    /// IIOP profiles.
    Profiles,
    /// Octets that are faulty after a component of a profile.
    ProfileFaults,
}

impl Samples for Set {
    fn samples(&self) -> &'static [Sample] {
        match self {
            Set::Values => &VALUES,
            Set::Lists => &LISTS,
            Set::Faults => &FAULTS,
            Set::References => &REFERENCES,
            Set::ReferenceFaults => &REFERENCE_FAULTS,
            Set::Texts => &TEXTS,
            Set::TextFaults => &TEXT_FAULTS,
            Set::Profiles => &PROFILES,
            Set::ProfileFaults => &PROFILE_FAULTS,
        }
    }
}

/// The calls of `cdr_core` and `ior_core`.
pub static SUITES: [Suite<Call, Set>; 23] = [
    Suite("read", Call::Read, Set::Values),
    Suite("read_faulty", Call::Read, Set::Faults),
    Suite("read_list", Call::ReadList, Set::Lists),
    Suite("write_empty", Call::Write(Room::Empty), Set::Values),
    Suite("write_full", Call::Write(Room::Full), Set::Values),
    Suite(
        "write_without_allocation",
        Call::Write(Room::Ample),
        Set::Values,
    ),
    Suite("write_list_empty", Call::WriteList(Room::Empty), Set::Lists),
    Suite("write_list_full", Call::WriteList(Room::Full), Set::Lists),
    Suite(
        "write_list_without_allocation",
        Call::WriteList(Room::Ample),
        Set::Lists,
    ),
    Suite("copy", Call::Copy, Set::Values),
    Suite("read_ior", Call::ReadReference, Set::References),
    Suite("read_ior_faulty", Call::ReadReference, Set::ReferenceFaults),
    Suite(
        "write_ior_empty",
        Call::WriteReference(Room::Empty),
        Set::References,
    ),
    Suite(
        "write_ior_full",
        Call::WriteReference(Room::Full),
        Set::References,
    ),
    Suite(
        "write_ior_without_allocation",
        Call::WriteReference(Room::Ample),
        Set::References,
    ),
    Suite("read_iiop", Call::ReadProfile, Set::Profiles),
    Suite("read_iiop_faulty", Call::ReadProfile, Set::ProfileFaults),
    Suite(
        "write_iiop_empty",
        Call::WriteProfile(Room::Empty),
        Set::Profiles,
    ),
    Suite(
        "write_iiop_full",
        Call::WriteProfile(Room::Full),
        Set::Profiles,
    ),
    Suite(
        "write_iiop_without_allocation",
        Call::WriteProfile(Room::Ample),
        Set::Profiles,
    ),
    Suite("parse_text", Call::Parse, Set::Texts),
    Suite("parse_text_faulty", Call::Parse, Set::TextFaults),
    Suite("print_text", Call::Print, Set::Texts),
];
