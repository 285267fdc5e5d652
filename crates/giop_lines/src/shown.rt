//! A message with all that its line says besides what it says itself.

ghost use Rattle.std.specs.Prelude.{◌↔◌, IsSome, IsTrue};

use crate::lines::Earlier;
use giop_tap::Seen;

/// A message, the place where it ends, and the request that it answers or cancels.
#[derive(Drop)]
pub struct Shown<'t> {
    pub seen: Seen<'t>,
    /// How many octets of its direction have come with its last one.
    pub end: u64,
    /// In how many frames it came.
    pub frames: u64,
    /// Whether it was cut where GIOP 9.4.9 leaves open how the octets behind are aligned.
    pub is_cut_otherwise: bool,
    /// The operation of the request that it answers or cancels; none where there is none, or it is a LocateRequest.
    pub operation: Option<&'t [u8]>,
    /// What a table of types tells of its body, in the form of the lines; none where it tells nothing.
    pub values: Option<&'t str>,
}

/// What is noted of a message that was cut so: what is aligned behind a cut may lie elsewhere than it is read.
const CUT_OTHERWISE: &str = "cut otherwise than 1.1 lets align";

impl<'t> Shown<'t> {
    /// What is noted of how it came.
    pub(crate) fn note(&self) -> Option<&'static str>
        ensures { IsSome result ↔ IsTrue self.now.is_cut_otherwise }
    {
        match self.is_cut_otherwise {
            true => Some(CUT_OTHERWISE),
            false => None,
        }
    }

    /// The request that it answers or cancels.
    pub(crate) fn earlier(&self) -> Option<Earlier<'t>> {
        let number = self.seen.tie.request?;
        Some(Earlier {
            number,
            operation: self.operation.unwrap_or(&[]),
            later: self.later(number),
        })
    }

    /// How many messages after the request of this number it came.
    pub fn later(&self, request: u64) -> u64 {
        self.seen.number.saturating_sub(request)
    }
}
