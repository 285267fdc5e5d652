//! What a server has on offer: its objects, each with a key, and the types of their operations (CORBA 3.3 Part 2,
//! chapter 9; GIOP 9.4.2).
//!
//! An application implements `Servant`, whose contract says what each operation does, or `Catalogue`, which says its
//! types alone; `Interfaces` is a catalogue that is filled in call by call, and `Families` one in which many keys lead to
//! one object. It promises which operation a key and a name lead to, and reads arguments by their index.
#![tactic(auto)]

mod accessors;
mod catalogue;
mod decided;
mod error;
mod families;
mod interfaces;
mod keyed;
mod object;
mod servant;
mod signature;
mod typed;

// what an application implements
pub use catalogue::Catalogue;
pub use decided::Decision;
pub use servant::Servant;
pub use signature::{Lookup, Signature};

// catalogues as data
pub use error::InterfacesError;
pub use families::Families;
pub use interfaces::Interfaces;

// the arguments of an operation
pub use accessors::{
    boolean_at, char_at, long_at, longlong_at, octet_at, octets_at, ordinal_at, short_at,
    string_at, ulong_at, ulonglong_at, ushort_at,
};
