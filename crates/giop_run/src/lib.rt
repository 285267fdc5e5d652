//! What the program `giop` does, over any reader and writers: it shows the messages of a stream and how
//! the stream ends, or its end alone; it shows an object reference; and it plays a script of events on a
//! server of one counter, or on an engine whose owner keeps one and may answer later, and prints the octets that are
//! written on each connection. And it serves the counter over TCP.
#![tactic(auto)]

mod hint;
mod host;
mod input;
mod journal;
mod logging;
mod naming;
mod owner;
mod play;
mod program;
mod reference;
mod script;
mod service;
mod setting;
mod stepping;
mod steps;
mod stop;
mod stream;
mod url;

// what the program is asked for, and all of it over a reader and writers
pub use hint::Hint;
pub use input::read_octets;
pub use program::{Streams, run};
pub use script::{ScriptError, read_script};
pub use setting::{
    CAPACITY, DONE, EnginePlay, FAILED, Form, Input, IorShow, JOINED, LEAST_LIMIT, LIMIT,
    MOST_CONNECTIONS, MOST_LIMIT, MOST_OUTCOMES, MOST_PARTIALS, MOST_PLACES, Numbers, PARKED,
    PARTIALS, REFUSED, START, Service, Task,
};
pub use stop::Stop;

// a server of the counter over TCP
pub use service::serve;
