//! What comes of a side's octets beside the messages.

use giop_lines::Looks;
use giop_link::LinkFault;

/// What came of a step.
#[derive(Drop)]
pub(crate) enum Step {
    /// Nothing that is said.
    Idle,
    /// Octets were given to the trace, which may lend a message.
    Gave,
    /// A fault in the frame that begins at this place, and what its octets look like.
    Fault(u64, LinkFault, Option<Looks>),
    /// So many octets from this place on were passed over, and reading goes on.
    Passed(u64, u64),
}
