//! The limits of the links and the clients.

use giop_frames::{Cuts, Limits};

/// The least limits.
pub(crate) const LEAST: Limits = Limits {
    message: 4096,
    partials: 1,
    cuts: Cuts::Aligned,
};
