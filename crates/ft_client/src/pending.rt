//! What a call asks, and a call that has not ended.

ghost use Rattle.std.specs.Prelude.{◌≡◌, ◌≤◌, ◌+◌, vec_len};

use crate::ended::ReplyBody;
use cdr_core::{Order, Val};
use giop_core::ReplyWish;

/// Half of the ids of a link.
const HALF: u32 = 2_147_483_648;

/// What a call asks, and until when.
#[derive(Clone, Copy)]
pub(crate) struct Asked<'a> {
    pub object_key: &'a [u8],
    pub operation: &'a [u8],
    pub arguments: &'a [Val],
    pub expiration: u64,
}

/// A pending call: its number, its expiration, the byte order and the wish of its Request, the octets of that under the
/// request id 1, the place of that id in them, its request id on the present link, if it was sent there, and the reference to
/// which it is led, if it is led elsewhere.
#[derive(Debug, Drop)]
pub(crate) struct Pending {
    pub id: i32,
    pub expiration: u64,
    pub order: Order,
    pub wish: ReplyWish,
    pub message: Vec<u8>,
    pub id_at: usize,
    pub sent: Option<u32>,
    pub led: Option<ReplyBody>,
    ghost whole: { id_at + 4 ≤ vec_len message },
}

impl Pending {
    ghost use Rattle.ft_client.specs.Keeping.{is_due, kept_by};
    ghost use Rattle.ft_client.specs.Messages.{is_oneway};

    /// Whether it wishes for no reply (GIOP 9.4.2), and so ends when it is sent.
    pub(crate) fn is_oneway(&self) -> bool
        ensures { result ≡ is_oneway self.now.wish }
    {
        matches!(self.wish, ReplyWish::None)
    }

    /// Whether it is to be sent on a link that has given so many ids: it was not sent on it, it is not led elsewhere, it is not
    /// past its expiration, and fewer than half of all ids were given, so that there is one left for each call that is sent at
    /// once.
    pub(crate) fn is_due(&self, now: u64, given: u32) -> bool
        ensures { result ≡ is_due now given (kept_by self.now) }
    {
        self.sent.is_none() && self.led.is_none() && now <= self.expiration && given < HALF
    }
}
