//! The messages of GIOP 1.0, 1.1 and 1.2 (GIOP 9.4).
//!
//! `Header::read` and `read_message` turn octets into a `Message`, which is lent from them and takes no
//! memory. A writer for each kind appends one whole message to a vector. The crate stands on `cdr_core`
//! for values and on `ior_core` for profiles; streams of messages are the matter of the crate above.
#![tactic(auto)]

mod cancel;
mod control;
mod error;
mod exception;
mod finder;
mod fragment;
mod ft;
mod header;
mod ior_view;
pub mod laws;
mod locate;
mod message;
mod places;
mod raw_reply;
mod reading;
mod reply;
mod request;
mod service_context;
mod target_address;
mod writing;

// a message: its header, and what follows
pub use header::{Header, HeaderFault, MessageKind, Version};
pub use message::{Body, Content, Message, Places, read_message};
pub use reading::{
    LocateReplyReading, LocateRequestReading, Reading, ReplyReading, RequestReading, Said,
};

// each kind of message, and its writer
pub use cancel::{CancelRequest, cancel_octets, write_cancel};
pub use control::{close_octets, error_octets, write_close, write_error};
pub use exception::write_exception;
pub use fragment::Fragment;
pub use locate::{
    LocateReply, LocateRequest, LocateStatus, locate_reply_octets, write_locate_reply,
    write_locate_request,
};
pub use raw_reply::write_raw_reply;
pub use reply::{Reply, ReplyStatus, write_reply};
pub use request::{ReplyWish, Request, write_request};

// what messages lend
pub use ft::{FT_REQUEST, FtField, UNIX_EPOCH, ft_request, write_ft};
pub use ior_view::IorView;
pub use service_context::Contexts;
pub use target_address::Target;

// errors
pub use error::{MessageFault, WriteError};
