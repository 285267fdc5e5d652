//! What has come of messages.

ghost use Rattle.std.specs.Prelude.{◌<◌, ◌≤◌, ◌^◌};
ghost use Rattle.std.specs.Vec.{vec_len};

use crate::passes::keys::Key;
use giop_core::{Header, Places};
use giop_frames::StreamFault;

/// What has come of a message, and how: its header, its octets so far, those of the header of its first frame among them, the
/// place in the stream where that begins, and the places in the message where further frames go on with it.
#[derive(Drop)]
pub struct Coming {
    pub(crate) header: Header,
    pub(crate) octets: Vec<u8>,
    pub(crate) begins: u64,
    pub(crate) cuts: Vec<u32>,
    ghost headed: { 12 ≤ vec_len octets },
    ghost short: { vec_len octets < 2 ^ 32 },
}

/// A message whose fragments have not all come, under its key.
#[derive(Drop)]
pub struct Part {
    pub(crate) key: Key,
    pub(crate) message: Coming,
}

/// What is told of a message.
#[derive(Drop)]
pub struct Told {
    pub(crate) message: Coming,
    pub(crate) fault: Option<StreamFault>,
    pub(crate) places: Places,
}
