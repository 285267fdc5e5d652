//! The lines of a trace: of each message of either side of connections, with the request that it has to do with, and of
//! what lies between messages; for a person, or as JSON.
//!
//! It stands on `giop_tap`, whose messages it prints, and on `giop_text` for the words of a message. It promises how long after
//! a request its answer came; what its lines are is by tests.
#![tactic(auto)]

mod caught;
mod colours;
mod content;
mod counts;
mod end_lines;
mod fields;
mod forward_lines;
mod forwards;
mod json;
mod json_forwards;
mod left;
mod lines;
mod looks;
mod moments;
mod objects;
mod page;
mod places;
mod printing;
mod reports;
mod shown;
mod side_lines;
mod summaries;
mod summary;

// what is printed
pub use caught::{Caught, Stamp, later_time, time_between};
pub use counts::{Counts, Listed};
pub use left::Left;
pub use looks::{Looks, looks_of};
pub use objects::Objects;
pub use printing::{Closing, Endpoints, Spot};
pub use shown::Shown;
pub use summary::{Called, Ending, Endings, Row, Summary};

// its lines
pub use printing::{Format, Printer};
