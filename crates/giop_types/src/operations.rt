//! Operations and what their bodies have.

ghost use Rattle.std.specs.Prelude.{◌≡◌};
ghost use Rattle.giop_types.specs.Tables.{side_of};

use crate::signature::Signature;

/// An operation of an interface: what the bodies of its requests and of its replies have.
#[derive(Drop)]
pub(crate) struct Operation {
    pub arguments: Signature,
    pub results: Signature,
}

/// A side of an operation.
#[derive(Clone, Copy)]
pub(crate) enum Part {
    Arguments,
    Results,
}

impl Operation {
    /// What the bodies of one side have.
    pub fn side(&self, part: Part) -> &Signature
        ensures { result.now ≡ side_of part self.now }
    {
        match part {
            Part::Arguments => &self.arguments,
            Part::Results => &self.results,
        }
    }
}
