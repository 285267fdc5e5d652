//! What an application gives the server.

ghost use Rattle.std.specs.Prelude.{◌≡◌, IfOk, IsTrue, OnErr};
ghost use Rattle.cdr_core.specs.View.{values_of};
ghost use Rattle.ft_log.specs.View.{performed_in};
ghost use Rattle.ft_objects.specs.Interfaces.{AreArgumentsOf, interface_of};
ghost use Rattle.ft_objects.specs.Servants.{IsServant, Meaning};

use crate::decided::Decision;
use crate::signature::Lookup;
use cdr_core::Val;
use ft_log::Outcome;
use giop_core::{Request, Version};
use std::alloc::{AllocError, Global};

/// The objects that a server serves, and what they do.
///
/// A contract sees a servant as its state; what it means is `meaning`, and what it promises, `promises`.
pub trait Servant {
    /// Its states, operations and objects, and the next state and the outcome of each operation.
    ghost meaning: { Meaning Self };

    /// Types are valid; a key names no object exactly where every look-up under it says so; and from each state
    /// a call leads to a state, and its outcome is one of its operation and can be sent.
    ghost promises: { IsServant meaning };

    /// The servant is in one of its states.
    fn known(&self)
        ensures { IsTrue (meaning.is_state self.now) };

    /// The types of an operation, the same in every state.
    fn interface(&self, object_key: &[u8], operation: &[u8]) -> Lookup<'_>
        ensures { interface_of result ≡ meaning.interface object_key.now operation.now };

    /// Whether a key names an object.
    fn has_object(&self, object_key: &[u8]) -> bool
        ensures { result ≡ meaning.knows object_key.now };

    /// Performs an operation, with arguments of its types. Where an allocation fails nothing has changed.
    fn perform(
        &mut self,
        alloc: Global,
        object_key: &[u8],
        operation: &[u8],
        arguments: &[Val],
    ) -> Result<Outcome, AllocError>
        requires { AreArgumentsOf (meaning.interface object_key.now operation.now) (values_of arguments.now) }
        ensures ok { IfOk result (λ outcome. meaning.apply self.old object_key.now operation.now (values_of arguments.now) ≡ (self.new, performed_in outcome)) }
        ensures err { OnErr result (self.new ≡ self.old) };

    /// Hears what becomes of a request that came on a connection, before anything is sent for it, and before it is performed.
    /// Each is told once, which is tested and no clause. Who wants to note it keeps a cell; left out, it does nothing.
    fn decided(
        &self,
        _connection: u64,
        _version: Version,
        _request: &Request<'_>,
        _decision: Decision,
    ) {}
}
