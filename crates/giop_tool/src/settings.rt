//! What the words of the command line ask for.

ghost use Rattle.std.specs.Prelude.{◌↔◌, IfErr, IfOk, IsTrue};
ghost use Rattle.giop_tool.specs.Settings.{IsMeant, IsOfWords};

use crate::help;
use crate::help::{Page, Texts};
use crate::options::with_options;
use crate::tracing::{Colouring, Tracing};
use clap::error::ErrorKind;
use clap::{ArgMatches, Command};
use giop_frames::Cuts;
use giop_lines::Format;
use giop_run::{
    CAPACITY, EnginePlay, Form, Input, IorShow, JOINED, LIMIT, Numbers, PARKED, PARTIALS, START,
    Service, Task,
};
use giop_trace::{Choice, KEYS, Options};
use std::alloc::{AllocError, Global};

/// What the program is to do.
#[derive(Clone, Copy)]
pub(crate) enum Setting<'a> {
    /// A task on the standard streams.
    Run(Task<'a>),
    /// To serve over TCP.
    Serve(Service),
    /// To trace what was said on connections.
    Trace(Tracing<'a>),
}

impl Setting<'_> {
    /// Whether its numbers lie in their ranges.
    fn is_in_range(&self) -> bool
        ensures { IsTrue result ↔ IsMeant self.now }
    {
        match *self {
            Setting::Run(task) => task.is_in_range(),
            Setting::Serve(service) => service.is_in_range(),
            Setting::Trace(_) => true,
        }
    }
}

/// Why the words were refused.
#[derive(Drop)]
pub(crate) enum SettingError {
    /// The words are not those of the program, or ask for help or the version.
    Words(clap::Error),
    /// A number is out of its range.
    Range,
    /// An allocation failed.
    Memory,
}

/// A subcommand without its options.
fn plain<'a>(alloc: Global, name: &'a str, about: &'a str, after: &'a str) -> Command<'a> {
    Command::new(alloc, name).about(about).after_help(after)
}

/// A subcommand.
fn subcommand_of<'a>(
    alloc: Global,
    texts: &'a Texts,
    page: &'a Page,
) -> Result<Command<'a>, AllocError> {
    let name = page.subcommand.name;
    let command = plain(alloc, name, page.subcommand.about, &page.after);
    with_options(alloc, &texts.options, name, command)
}

/// The command line with a subcommand.
fn with_subcommand<'a>(
    alloc: Global,
    texts: &'a Texts,
    page: &'a Page,
    command: Command<'a>,
) -> Result<Command<'a>, AllocError> {
    let subcommand = subcommand_of(alloc, texts, page)?;
    command.subcommand(subcommand)
}

/// `giop` without a subcommand.
fn base_command<'a>(alloc: Global) -> Result<Command<'a>, AllocError> {
    Command::new(alloc, "giop")
        .version(help::VERSION)
        .about(help::BASE)
        .after_help(help::DOCUMENTS)
        .no_binary_name(true)
        .bin_name("giop")
}

/// The whole command line.
fn command<'a>(alloc: Global, texts: &'a Texts) -> Result<Command<'a>, AllocError> {
    let mut command = base_command(alloc)?;
    for page in &texts.pages {
        command = with_subcommand(alloc, texts, page, command)?;
    }
    Ok(command)
}

/// The numbers of a server where the words say none.
const USUAL: Numbers = Numbers {
    capacity: CAPACITY,
    share: None,
    start: START,
    limit: LIMIT,
    partials: PARTIALS,
};

/// The numbers of a server that the words say.
fn numbers_of(words: &ArgMatches) -> Numbers {
    Numbers {
        capacity: words.get_one::<u32>("capacity").unwrap_or(CAPACITY),
        share: words.get_one::<u32>("share"),
        start: words.get_one::<i64>("start").unwrap_or(START),
        limit: words.get_one::<u32>("limit").unwrap_or(LIMIT),
        partials: words.get_one::<u8>("partials").unwrap_or(PARTIALS),
    }
}

/// The play that the words of `giop play` ask for.
fn play_of<'a>(words: &ArgMatches) -> Task<'a> {
    let numbers = numbers_of(words);
    if !words.get_flag("engine") {
        return Task::Play(numbers);
    }
    Task::Engine(EnginePlay {
        numbers,
        parked: words.get_one::<u32>("parked").unwrap_or(PARKED),
        joined: words.get_one::<u32>("joined").unwrap_or(JOINED),
        asks: words.get_flag("asks"),
    })
}

/// The service that the words of `giop serve` ask for. A number that is not there is out of its range.
fn service_of(words: &ArgMatches) -> Service {
    Service {
        port: words.get_one::<u16>("port").unwrap_or(0),
        connections: words.get_one::<u32>("connections").unwrap_or(0),
        numbers: numbers_of(words),
        timeout: words.get_one::<u32>("timeout"),
        log: words.get_flag("log"),
    }
}

/// The name of standard input where a file or a text may stand.
const STANDARD: &str = "-";

/// The input that the words of a subcommand that reads a stream ask for.
fn input_of<'a>(words: &ArgMatches<'a>) -> Input<'a> {
    let form = if words.get_flag("raw") {
        Form::Raw
    } else {
        Form::Digits
    };
    Input {
        file: words.get_str("FILE").filter(|name| *name != STANDARD),
        form,
    }
}

/// The task that parsed words ask for. Each subcommand that reads a stream takes its input by `input_of`.
fn task_of<'a>(matches: &ArgMatches<'a>) -> Task<'a> {
    if let Some(words) = matches.subcommand_matches("show") {
        return Task::Show(input_of(words));
    }
    if let Some(words) = matches.subcommand_matches("check") {
        return Task::Check(input_of(words));
    }
    if let Some(words) = matches.subcommand_matches("play") {
        return play_of(words);
    }
    match matches.subcommand_matches("ior") {
        Some(words) => Task::Ior(ior_of(words)),
        None => Task::Play(USUAL),
    }
}

/// The reference that the words of `giop ior` ask for; without a text, or for `-`, it stands on standard input.
fn ior_of<'a>(words: &ArgMatches<'a>) -> IorShow<'a> {
    IorShow {
        text: words.get_str("TEXT").filter(|text| *text != STANDARD),
        has_names: words.get_flag("names"),
    }
}

/// Nanoseconds in a millisecond.
const MILLISECOND: u64 = 1_000_000;

/// The messages that the words of `giop trace` ask for.
fn choice_of<'a>(words: &ArgMatches<'a>) -> Choice<'a> {
    let milliseconds = words.get_one::<u32>("slower");
    Choice {
        operation: words.get_str("operation"),
        object: words.get_str("object"),
        client: words.get_str("client"),
        call: words.get_one::<u64>("call"),
        has_faults: words.get_flag("faults"),
        is_unanswered: words.get_flag("unanswered"),
        slower: milliseconds.map(|number| u64::from(number).saturating_mul(MILLISECOND)),
    }
}

/// When the words of `giop trace` ask for colours.
fn colouring_of(words: &ArgMatches) -> Colouring {
    match words.get_str("color") {
        Some("always") => Colouring::Always,
        Some("never") => Colouring::Never,
        _ => Colouring::Terminal,
    }
}

/// Where the words of `giop trace` let messages of 1.1 be cut.
fn cuts_of(words: &ArgMatches) -> Cuts {
    match words.get_str("cuts") {
        Some("anywhere") => Cuts::Anywhere,
        _ => Cuts::Aligned,
    }
}

/// The trace that the words of `giop trace` ask for.
fn tracing_of<'a>(words: &ArgMatches<'a>) -> Tracing<'a> {
    let input = input_of(words);
    Tracing {
        input,
        types: words.get_str("types"),
        colouring: colouring_of(words),
        options: Options {
            is_raw: input.form == Form::Raw,
            resumes: words.get_flag("resume"),
            cuts: cuts_of(words),
            format: if words.get_flag("json") {
                Format::Json
            } else {
                Format::Lines
            },
            has_bodies: words.get_flag("bodies"),
            is_clock: words.get_flag("clock"),
            // (a terminal is looked for where it is run)
            is_coloured: false,
            choice: choice_of(words),
            is_summary: words.get_flag("summary"),
            keys: words.get_one::<u32>("keys").unwrap_or(KEYS),
        },
    }
}

/// The setting that parsed words ask for.
fn setting_of<'a>(matches: &ArgMatches<'a>) -> Setting<'a> {
    if let Some(words) = matches.subcommand_matches("serve") {
        return Setting::Serve(service_of(words));
    }
    match matches.subcommand_matches("trace") {
        Some(words) => Setting::Trace(tracing_of(words)),
        None => Setting::Run(task_of(matches)),
    }
}

/// A setting, unless a number of it is out of its range.
fn in_range<'a>(setting: Setting<'a>) -> Result<Setting<'a>, SettingError>
    ensures range { IfOk result IsMeant }
    ensures words { IfErr result IsOfWords }
{
    if !setting.is_in_range() {
        return Err(SettingError::Range);
    }
    Ok(setting)
}

/// What words ask a command line for.
fn setting_in<'a>(command: Command<'a>, words: &'a [&'a str]) -> Result<Setting<'a>, SettingError>
    ensures range { IfOk result IsMeant }
    ensures words { IfErr result IsOfWords }
{
    match command.try_get_matches_from(words) {
        Ok(matches) => in_range(setting_of(&matches)),
        Err(error) => {
            if error.kind() == ErrorKind::OutOfMemory {
                return Err(SettingError::Memory);
            }
            Err(SettingError::Words(error))
        }
    }
}

/// What the words after the program's name ask for: the setting, or a text to print. No words ask for
/// `play`.
pub(crate) fn settings<'a>(
    alloc: Global,
    texts: &'a Texts,
    words: &'a [&'a str],
) -> Result<Setting<'a>, SettingError>
    ensures range { IfOk result IsMeant }
    ensures words { IfErr result IsOfWords }
{
    match command(alloc, texts) {
        Ok(command) => setting_in(command, words),
        Err(AllocError) => Err(SettingError::Memory),
    }
}
