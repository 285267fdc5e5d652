//! What calls answer, by what the engine does.

ghost use Rattle.std.specs.Prelude.{◌≡◌, length};
ghost use Rattle.lemonrudder.specs.Refusals.{refusal_of_serving};
ghost use Rattle.lemonrudder.specs.Serves.{done_of, taken_of};

use crate::refusal::{Refusal, count_of};
use ft_orb::{Fed, ServeError, Taken};

/// How many octets were taken.
pub(super) fn taken_of(octets: &[u8], fed: Result<Taken, ServeError>) -> Result<u64, Refusal>
    ensures { result ≡ taken_of (length octets.now) fed }
{
    match fed? {
        Taken::Fed(Fed::Whole) => Ok(count_of(octets)),
        Taken::Fed(Fed::Asks(taken)) | Taken::Fed(Fed::Repeats(taken)) | Taken::Due(taken) => {
            Ok(taken as u64)
        }
    }
}

/// A count, where the engine has done it.
pub(super) fn done_of(count: u64, done: Result<(), ServeError>) -> Result<u64, Refusal>
    ensures { result ≡ done_of count refusal_of_serving done }
{
    done?;
    Ok(count)
}
