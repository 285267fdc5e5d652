//! The side that hears all.

ghost use Rattle.std.specs.Prelude.{◌≡◌, IfErr};

use giop_core::Reading;
use giop_link::{LinkFault, PeerEnd, Side};

/// A reader beside the connection, to whom each message counts, whoever sends it. CloseConnection and MessageError are
/// messages like any other to it, and end nothing.
#[derive(Debug, Drop)]
pub struct Either;

impl Side for Either {
    ghost use Rattle.giop_core.specs.Content.{Content};
    ghost use Rattle.giop_tap.specs.Tracing.{counts};

    ghost Heard = { Content };

    ghost meaning = { counts };

    fn turn_of(_message: &Reading<'_>) -> Result<Option<PeerEnd>, LinkFault> {
        Ok(None)
    }
}
