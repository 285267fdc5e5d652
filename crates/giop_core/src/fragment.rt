//! Fragment (GIOP 9.4.9).

ghost use Rattle.giop_core.specs.Places.{FindsParts};
ghost use Rattle.giop_core.specs.declared.header.MessageKind.TheVariants as kind;

use crate::error::MessageFault;
use crate::finder::Finder;
use crate::header::Version;
use crate::places::Parts;
use cdr_core::Order;

/// A Fragment (GIOP 9.4.9): more octets of a message that was cut.
#[derive(Clone, Copy, Debug, Drop)]
pub struct Fragment<'m> {
    /// The id of the request whose message goes on, which 1.2 alone has.
    pub request_id: Option<u32>,
    /// The octets that continue the message.
    pub payload: &'m [u8],
}

/// Finds the parts of a Fragment.
#[tactic(auto, unfolding(crate::specs::Messages::message_of, crate::specs::Rows::row, crate::specs::Content::content))]
pub(crate) fn find_fragment(
    version: Version,
    order: Order,
    octets: &[u8],
    parts: &mut Parts,
) -> Result<(), MessageFault>
    ensures { FindsParts version kind.Fragment order octets.now result parts.new }
{
    match version {
        Version::V10 | Version::V11 => {
            *parts = Parts::Fragment(None, 0);
        }
        Version::V12 => {
            let mut finder = Finder::new(octets, order);
            let request_id = finder.ulong()?;
            *parts = Parts::Fragment(Some(request_id), finder.start());
        }
    }
    Ok(())
}
