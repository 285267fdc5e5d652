//! How calls end.

ghost use Rattle.std.specs.Prelude.{◌≡◌, ◌<◌, ◌^◌};
ghost use Rattle.giop_core.specs.Lent.{rest_of};

use cdr_core::Order;
use giop_core::Body;

/// The body of a Reply: its byte order, the place of its first octet in the message, and its octets.
#[derive(Debug, Drop)]
pub struct ReplyBody {
    pub order: Order,
    pub at: u64,
    pub octets: Vec<u8>,
    ghost near: { at < 2 ^ 32 },
}

impl ReplyBody {
    ghost use Rattle.ft_client.specs.Ends.{body_of};

    /// The body as a message lends it, to read values from.
    pub fn body(&self) -> Body<'_>
        ensures lent { rest_of result ≡ body_of self.now }
        ensures near { result.at < 2 ^ 32 }
    {
        Body {
            order: self.order,
            at: self.at,
            octets: self.octets.as_slice(),
        }
    }
}

/// How a call ended.
#[derive(Debug, Drop)]
pub enum Ended {
    /// It returned: the results.
    Returned(ReplyBody),
    /// It raised an exception that its operation declares: its repository id, and its members.
    Raised(ReplyBody),
    /// It raised a system exception: its repository id, its minor code, and its completion.
    System(ReplyBody),
    /// Another object is to be asked: its reference. Where `FtClient::keep_on_forward` is set, no call ends so.
    Forwarded(ReplyBody),
    /// Its server wants another addressing of the target.
    NeedsAddressing,
    /// It was sent, and wishes for no reply.
    Sent,
    /// A moment past its expiration came.
    Expired,
    /// Its caller cancelled it.
    Cancelled,
}
