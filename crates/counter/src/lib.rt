//! A counter as a CORBA object: a servant of `ft_objects`, and its object reference.
//!
//! It stands on `ft_objects`, whose servant it is, and on `ior_core`, which writes references. It promises that the
//! counter does what its table of operations says, and that its reference is that of an object of this type at a port of
//! this machine. Beside it is one that forwards each request.
#![tactic(auto)]

mod forwarding;
mod reference;
mod servant;

pub use forwarding::Forwarding;
pub use reference::reference_text;
pub use servant::Counter;
