//! A call that a client took.

ghost use Rattle.cdr_core.specs.Spelling.{IsClean};
ghost use Rattle.cdr_core.specs.View.{values_of};
ghost use Rattle.cdr_core.specs.Writing.{AreWritable};
ghost use Rattle.ft_client.specs.facts.Texts.{clean_prop};
ghost use Rattle.ft_ends.specs.facts.Values.{are_writable_prop};

use crate::steps::Call;

/// A call that a client took, and its number.
#[derive(Drop)]
pub(crate) struct Taken<'a> {
    pub number: i32,
    pub call: &'a Call,
    ghost clean: { IsClean call.now.operation.items } by { clean_prop call.now.operation.items },
    ghost writable: { AreWritable (values_of call.now.arguments.items) } by { are_writable_prop (values_of call.now.arguments.items) },
}
