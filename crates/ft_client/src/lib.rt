//! A client of CORBA requests that sends a call again until it is answered, and completes it once (CORBA 3.3 Part 2,
//! chapter 9; FT 23.2.7).
#![tactic(auto)]

mod client;
mod ended;
mod ending;
mod error;
mod feeding;
pub mod laws;
mod pending;
mod raw_call;
mod requests;
mod sending;
mod settling;

pub use client::FtClient;
pub use ended::{Ended, ReplyBody};
pub use error::{
    CallError, RawCallError, RawRecallError, RawRedirectError, RecallError, RedirectError,
};
pub use raw_call::RawCall;
