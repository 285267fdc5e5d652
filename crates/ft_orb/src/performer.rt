//! Who performs the calls that an engine asks for.

ghost use Rattle.std.specs.Prelude.{◌≡◌, ◌++◌, List, Option};
ghost use Rattle.ft_orb.specs.Answers.{Answer};
ghost use Rattle.ft_orb.specs.Engines.{awaited_lent};
ghost use Rattle.ft_orb.specs.Handovers.{answers_given};
ghost use Rattle.ft_orb.specs.Wires.{IfKnown};

use crate::asked::Asked;
use ft_log::Outcome;
use std::alloc::Global;

/// The owner of an engine, as `serve_engine` calls it. It proves nothing of what it performs.
///
/// A contract sees what it has answered so far, where that can be known.
pub trait Performer {
    /// The calls that it performed, each with the outcome that it gave, the first first, if they are known.
    ghost answered: { Self → Option (List Answer) };

    /// Performs a call, and gives its outcome; or gives none where it can't be performed now, and then nothing was
    /// done: the client may ask again.
    ///
    /// An outcome is to be one that `Engine::can_answer` takes. Where it isn't, the client is answered INTERNAL.
    fn perform(&mut self, alloc: Global, asked: &Asked<'_>) -> Option<Outcome>
        ensures answered { IfKnown (λ before now. now ≡ before ++ answers_given (awaited_lent asked.now).call result) (answered self.old) (answered self.new) };
}
