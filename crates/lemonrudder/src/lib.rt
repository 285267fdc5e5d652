//! The engine for programs in C: what each function of lemonrudder.h does.
//!
//! Each calls a public function of the libraries below on the object in a slot (`slot`), and answers a count or an error
//! number (`refusal`). `lemonrudder_c` exports them.
#![tactic(auto)]

mod assembling;
mod calling;
mod cataloguing;
mod cdr;
mod connections;
mod contexts;
mod due;
mod exports;
mod handle;
mod layout;
mod lent;
mod messages;
mod named;
mod object;
mod opened;
mod paired;
mod referring;
mod refusal;
mod request;
mod seed;
mod serving;
mod sizes;
mod slot;
mod terms;
mod types;
mod unboxed;

// what the header declares
pub use exports::{lr_close, lr_moment, lr_version};

// the messages of a stream
pub use exports::assembler::{
    lr_assembler_context, lr_assembler_fault, lr_assembler_feed, lr_assembler_message,
    lr_assembler_open, lr_assembler_open_cuts, lr_assembler_part,
};

// which objects a server has
pub use exports::catalogue::{
    lr_catalogue_default, lr_catalogue_exception, lr_catalogue_families, lr_catalogue_object,
    lr_catalogue_open, lr_catalogue_operation, lr_catalogue_raw_object, lr_catalogue_raw_operation,
    lr_catalogue_remove, lr_catalogue_repository_ids,
};

// reading and writing CDR in octets of the caller
pub use exports::cdr::{
    lr_get_boolean, lr_get_char, lr_get_encapsulation, lr_get_long, lr_get_longlong, lr_get_octet,
    lr_get_octets, lr_get_short, lr_get_string, lr_get_ulong, lr_get_ulonglong, lr_get_ushort,
    lr_put_boolean, lr_put_char, lr_put_long, lr_put_longlong, lr_put_octet, lr_put_octets,
    lr_put_short, lr_put_string, lr_put_ulong, lr_put_ulonglong, lr_put_ushort,
};

// a client that sends its calls again
pub use exports::client::{
    lr_client_body, lr_client_call, lr_client_cancel, lr_client_completed, lr_client_connected,
    lr_client_feed, lr_client_forwarded, lr_client_is_connected, lr_client_lost, lr_client_open,
    lr_client_output, lr_client_recall, lr_client_redirect, lr_client_resend, lr_client_set,
    lr_client_skip_to, lr_client_tick,
};

// references to objects
pub use exports::ior::{
    lr_ior_component, lr_ior_iiop, lr_ior_parse, lr_ior_part, lr_ior_print, lr_ior_profile,
    lr_ior_profiles, lr_ior_type_id,
};

// why connections of a server end
pub use exports::leaving::lr_server_why;

// what a server says of itself: the service contexts of what waits, and its numbers for an operator
pub use exports::looking::{
    lr_server_context, lr_server_count, lr_server_held_by, lr_server_next_expiry, lr_server_tick,
    lr_server_wanted,
};

// messages that are written into the caller's room
pub use exports::message::{
    lr_write_cancel, lr_write_close, lr_write_error, lr_write_ft, lr_write_locate_reply,
    lr_write_locate_request, lr_write_reply, lr_write_request,
};

// requests that are parked, and the connections on which octets came due by their outcomes
pub use exports::parking::{
    lr_server_next_due, lr_server_park, lr_server_parked, lr_server_parked_of,
};

// raw calls of a client
pub use exports::raw_call::{lr_client_call_raw, lr_client_recall_raw, lr_client_redirect_raw};

// what is asked of an outcome before it is handed in, and said of its replies
pub use exports::replying::{lr_server_can_answer, lr_server_exception, lr_server_reply_contexts};

// a server of requests that may be sent again
pub use exports::server::{
    lr_server_answer, lr_server_answer_raw, lr_server_answer_unkept, lr_server_asked,
    lr_server_connect, lr_server_farewell, lr_server_feed, lr_server_give_up, lr_server_goodbye,
    lr_server_identify, lr_server_is_closed, lr_server_lost, lr_server_open, lr_server_output,
    lr_server_part, lr_server_raise, lr_server_refuse, lr_server_set, lr_server_swap,
    lr_server_system,
};

// what these are given
pub use cdr::Place;
pub use slot::Slot;
