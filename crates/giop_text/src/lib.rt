//! The texts of messages: octets as characters and as digits, and what a message says, as `giop show` and `giop trace`
//! print it; and the standard's names of what stands in messages as a number.
//!
//! It stands on `giop_core`. It promises each text of a message to the octet.
#![tactic(auto)]

mod captures;
mod exceptions;
mod meanings;
mod messages;
mod names;
mod text;

// octets in lines of text
pub use text::{digits_of, host_port, text_of};

// a message, and its parts
pub use messages::{
    put_body, put_context, put_ft, put_locate_request, put_locate_status, put_message,
    put_reply_status, put_request, put_target,
};

// exceptions in the bodies of replies, and names
pub use exceptions::{SystemException, exception_id, system_exception};
pub use names::{completion_name, component_name, context_name, exception_name, profile_name};

// what the octets say that the standard has names for
pub use meanings::{code_set_name, component_meaning, context_meaning, put_component};

// what is no message
pub use captures::is_capture;
