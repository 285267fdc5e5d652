//! What the program can be asked for.

ghost use Rattle.std.specs.Prelude.{◌↔◌, IsTrue};
ghost use Rattle.giop_run.specs.Settings.{AreInRange, HasFile, IsInRange, IsPlayable, IsServable};

/// How many outcomes a server keeps at a time, where nothing else is asked for.
pub const CAPACITY: u32 = 1_024;

/// The most outcomes that a server may be asked to keep; the least is 1.
pub const MOST_OUTCOMES: u32 = 65_536;

/// The counter's total at the beginning.
pub const START: i64 = 0;

/// How many octets a message may have.
pub const LIMIT: u32 = 1_048_576;

/// The least octets to which a message may be limited.
pub const LEAST_LIMIT: u32 = 4_096;

/// The most octets that a message may be allowed.
pub const MOST_LIMIT: u32 = 16_777_216;

/// How many messages of a connection may be partial at a time.
pub const PARTIALS: u8 = 8;

/// The most messages of a connection that may be allowed to be partial at a time; the least is 1.
pub const MOST_PARTIALS: u8 = 16;

/// How many requests of an engine may be parked at a time, where nothing else is asked for.
pub const PARKED: u32 = 100;

/// How many repeats may wait for the outcome of one that is parked, where nothing else is asked for.
pub const JOINED: u32 = 10;

/// The most of either that may be allowed; the least is 0.
pub const MOST_PLACES: u32 = 65_536;

/// The most connections that may be served, one after another; the least is 1.
pub const MOST_CONNECTIONS: u32 = 1_000;

/// The exit status where what was asked for was done.
pub const DONE: u8 = 0;

/// The exit status where it was not: the input is refused or doesn't end well, or something failed.
pub const FAILED: u8 = 1;

/// The exit status where the words are refused.
pub const REFUSED: u8 = 2;

/// The numbers of a server of one counter.
#[derive(Clone, Copy)]
pub struct Numbers {
    /// How many outcomes the server keeps at a time: 1 to 65,536.
    pub capacity: u32,
    /// How many of them it keeps of one client. Without it there are as many as the capacity.
    pub share: Option<u32>,
    /// The counter's total at the beginning, 0 or greater.
    pub start: i64,
    /// How many octets a message may have, its header among them: 4,096 to 16,777,216.
    pub limit: u32,
    /// How many messages of a connection may be partial at a time: 1 to 16.
    pub partials: u8,
}

impl Numbers {
    /// Whether they lie in their ranges. A share has no range: who makes the server refuses a bad one.
    pub fn are_in_range(&self) -> bool
        ensures { IsTrue result ↔ AreInRange self.now }
    {
        matches!(self.capacity, 1..=MOST_OUTCOMES)
            && self.start >= 0
            && matches!(self.limit, LEAST_LIMIT..=MOST_LIMIT)
            && matches!(self.partials, 1..=MOST_PARTIALS)
    }
}

/// A play on an engine.
#[derive(Clone, Copy)]
pub struct EnginePlay {
    /// The numbers of the engine, and of the counter that its owner keeps.
    pub numbers: Numbers,
    /// How many requests may be parked at a time: at most 65,536.
    pub parked: u32,
    /// How many repeats may wait for the outcome of one that is parked, beside the first: at most 65,536.
    pub joined: u32,
    /// Whether a line is printed for each request that the engine asks for.
    pub asks: bool,
}

impl EnginePlay {
    /// Whether its numbers lie in their ranges.
    pub fn is_in_range(&self) -> bool
        ensures { IsTrue result ↔ IsPlayable self.now }
    {
        self.parked <= MOST_PLACES && self.joined <= MOST_PLACES && self.numbers.are_in_range()
    }
}

/// How the octets of a stream are given.
#[derive(Clone, Copy, PartialEq, Eq)]
pub enum Form {
    /// As hexadecimal digits.
    Digits,
    /// As they are.
    Raw,
}

/// Where the octets of a stream are read.
#[derive(Clone, Copy)]
pub struct Input<'a> {
    /// The name of a file; without it standard input is read.
    pub file: Option<&'a str>,
    /// How they are given.
    pub form: Form,
}

/// A reference that is shown.
#[derive(Clone, Copy)]
pub struct IorShow<'a> {
    /// Its text; without one it is that on standard input.
    pub text: Option<&'a str>,
    /// Whether it is shown to a person, with names.
    pub has_names: bool,
}

/// What is done over a reader and two writers.
#[derive(Clone, Copy)]
pub enum Task<'a> {
    /// Play the script on standard input, on a server of one counter.
    Play(Numbers),
    /// Play the script on standard input, on an engine whose owner keeps the counter.
    Engine(EnginePlay),
    /// Show the messages of a stream.
    Show(Input<'a>),
    /// Tell how a stream ends.
    Check(Input<'a>),
    /// Show a reference.
    Ior(IorShow<'a>),
}

impl Task<'_> {
    /// Whether its numbers lie in their ranges.
    pub fn is_in_range(&self) -> bool
        ensures { IsTrue result ↔ IsInRange self.now }
    {
        match *self {
            Task::Play(numbers) => numbers.are_in_range(),
            Task::Engine(play) => play.is_in_range(),
            Task::Show(_) | Task::Check(_) | Task::Ior(_) => true,
        }
    }

    /// Whether it reads a file.
    pub fn has_file(&self) -> bool
        ensures { IsTrue result ↔ HasFile self.now }
    {
        match self {
            Task::Show(input) | Task::Check(input) => input.file.is_some(),
            Task::Play(_) | Task::Engine(_) | Task::Ior(_) => false,
        }
    }

    /// Whether it reads standard input.
    pub fn has_input(&self) -> bool {
        match self {
            Task::Show(input) | Task::Check(input) => input.file.is_none(),
            Task::Play(_) | Task::Engine(_) => true,
            Task::Ior(reference) => reference.text.is_none(),
        }
    }
}

/// A service of the counter on 127.0.0.1.
#[derive(Clone, Copy)]
pub struct Service {
    /// The TCP port: 1 to 65,535.
    pub port: u16,
    /// How many connections are served, one after another: 1 to 1,000.
    pub connections: u32,
    /// The numbers of its server.
    pub numbers: Numbers,
    /// After how many seconds a read or a write fails that takes longer, at least 1. Without it there is no limit.
    pub timeout: Option<u32>,
    /// Whether a line is written for each request.
    pub log: bool,
}

impl Service {
    /// Whether its numbers lie in their ranges.
    pub fn is_in_range(&self) -> bool
        ensures { IsTrue result ↔ IsServable self.now }
    {
        self.port != 0
            && matches!(self.connections, 1..=MOST_CONNECTIONS)
            && self.timeout != Some(0)
            && self.numbers.are_in_range()
    }
}
