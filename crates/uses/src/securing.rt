//! Answer with a service context: what a security service says to the client goes out with the Reply.

ghost use Rattle.std.specs.Prelude.{◌≡◌, ◌++◌, ◌∷◌, [], IfOk, IsTrue, None, Some, false};
ghost use Rattle.ft_log.specs.View.{performed_in};
ghost use Rattle.ft_orb.specs.Carrying.{asker_in, reply_if};
ghost use Rattle.ft_orb.specs.Engines.{waits_in};

use ft_log::Outcome;
use ft_objects::Catalogue;
use ft_orb::{Engine, ServeError};

/// The id of the service context SecurityAttributeService (CORBA 3.3 Part 2, 10.2): a server's answer to a security token.
const SECURITY: u32 = 15;

/// Answers the request of this number, which waits, with its outcome, and with a security service's answer to its client in the
/// same Reply. The outcome is kept, and that answer is not: a repeat comes with a token of its own.
///
/// False: it can't be answered so, and nothing has changed.
pub fn answer_secured<C: Catalogue + Drop>(
    engine: &mut Engine<C>,
    number: u64,
    outcome: Outcome,
    security: &[u8],
    out: &mut Vec<u8>,
) -> Result<bool, ServeError>
    ensures secured { IfOk result (λ did. IsTrue did → out.new.items ≡ out.old.items ++ reply_if ((15, security.now) ∷ []) (asker_in engine.old) (Some (performed_in outcome))) }
    ensures idle { IfOk result (λ did. IsTrue did → waits_in engine.new ≡ None) }
    ensures same { IfOk result (λ did. did ≡ false → (engine.new ≡ engine.old) × (out.new.items ≡ out.old.items)) }
{
    let contexts = [(SECURITY, security)];
    if !engine.can_answer_with(number, &outcome, &contexts) {
        return Ok(false);
    }
    engine.answer_with(number, outcome, &contexts, out)?;
    Ok(true)
}
