//! What tests and programs of trials share: rows of tables, and octets as digits; the lines of an input, each of which
//! asks for a call; and trials. A trial makes one call that takes memory on a sample, and makes it again where an
//! allocation of it was refused.
#![tactic(auto)]

mod cases;
mod input;
mod lines;
mod output;
mod program;
mod rows;
mod sample;
mod shapes;
mod stack;
mod stop;
mod text;
mod trial;
mod types;

// rows of tables
pub use rows::{misprinted, octets_in};

// lines that ask for calls, and the words in them
pub use input::{Input, input_in, parted, place_in, print_found, print_given, ulong};
pub use lines::{Calls, play_lines};
pub use stack::{boxed, only, top};
pub use types::{type_in, types_in};

// the calls by their names
pub use cases::{Samples, Suite};

// the samples
pub use sample::{CLOSINGS, Gives, Sample, check_printed, ty};
pub use shapes::Shape;

// a trial, and the vectors that calls write into
pub use output::{Output, Room};
pub use trial::{Ending, Miss, Trial, Wrong, ended};

// a program of trials, and how it ends
pub use program::{Call, run};
pub use stop::{Stop, exit_code, status_of};
