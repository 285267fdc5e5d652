//! Twenty-three uses of the libraries, as a caller writes them: each is one file with one subject, proved, and
//! run by a test of `uses_tests`, whose octets are written out by hand from the standard's layouts (CDR 9.3, GIOP 9.4).
//! The pages of the repository quote them.
#![tactic(auto)]

mod accounts;
mod arguments;
mod banking;
mod capture;
mod cutting;
mod durable;
mod endpoint;
mod forwarding;
mod handing;
mod hearing;
mod invocation;
mod keeping;
mod later;
mod ledger;
mod life;
mod locating;
mod pieces;
mod relaying;
mod retrying;
mod saving;
mod securing;
mod serving;
mod tickets;

pub use accounts::{AccountError, close_account, offer_accounts, open_account};
pub use arguments::{DecodeError, first_arguments, publish_types};
pub use banking::{Bank, BankingError, serve_bank};
pub use capture::{Capture, read_capture};
pub use cutting::{AtCut, CuttingError, ticket_at_cut};
pub use durable::{DurableError, live_durably};
pub use endpoint::first_endpoint;
pub use forwarding::{ForwardError, forward_request, read_reply};
pub use handing::hand_on;
pub use hearing::requests_heard;
pub use invocation::{Retry, add_request, cut};
pub use keeping::keep_once;
pub use later::{Turn, serve_later};
pub use ledger::Ledger;
pub use life::{LifeError, live, live_as_bank};
pub use locating::answer_locate;
pub use pieces::{Piece, serve_pieces};
pub use relaying::{Back, Behind, Relay, serve_relay};
pub use retrying::{RetryingError, next_ticket};
pub use saving::Savings;
pub use securing::answer_secured;
pub use serving::{ServingError, serve_once};
pub use tickets::Tickets;
