//! The program over a reader and two writers.

ghost use Rattle.std.specs.Prelude.{◌≡◌, ◌<◌, ◌≤◌, ◌⊎◌, MatchOption, unwrap_or};
ghost use Rattle.giop_run.specs.Services.{AreTermsOf, HasBadShare};
ghost use Rattle.giop_run.specs.Settings.{AreInRange, HasFile, IsInRange};

use crate::hint::{Hint, hint_of};
use crate::host::Host;
use crate::input::{read_input, read_octets};
use crate::naming::named_lines;
use crate::play::{Played, Terms, play_events};
use crate::reference::reference_lines;
use crate::script::read_script;
use crate::setting::{DONE, EnginePlay, FAILED, Form, Input, IorShow, Numbers, REFUSED, Task};
use crate::stepping::print_play;
use crate::steps::{Line, read_steps};
use crate::stop::Stop;
use crate::stream::{Detail, show_octets, show_stream};
use crate::url::reference_in;
use ft_orb::{Event, Note, Places, Written};
use giop_frames::Limits;
use std::alloc::Global;
use std::hash::RandomState;
use std::io::{BufWriter, Read, Write};
use std::rt::Files;
use std::str;

/// Prints a line for an entry, if it has octets.
fn print_entry<W: Write>(alloc: Global, entry: &Written, out: &mut W) -> Result<(), Stop> {
    if entry.octets.is_empty() {
        return Ok(());
    }
    let connection = entry.connection;
    let digits = digits::encode(alloc, &entry.octets)?;
    writeln!(out, "{connection} {digits}")?;
    Ok(())
}

/// Prints a line for each entry with octets, and the total.
fn print_entries<W: Write>(alloc: Global, played: &Played, out: &mut W) -> Result<(), Stop> {
    for entry in &played.written {
        print_entry(alloc, entry, out)?;
    }
    let total = played.total;
    writeln!(out, "total {total}")?;
    out.flush()?;
    Ok(())
}

/// Whether an allocation failed while an entry was made.
fn is_cut_short(entry: &Written) -> bool {
    matches!(entry.note, Note::Memory { .. })
}

/// The events of the script that a reader gives.
fn read_events<R: Read>(alloc: Global, input: &mut R) -> Result<Vec<Event>, Stop> {
    let octets = read_input(alloc, input)?;
    let Ok(script) = str::from_utf8(&octets) else {
        return Err(Stop::Unreadable);
    };
    Ok(read_script(alloc, script)?)
}

/// Prints what a play wrote, unless an allocation failed in it.
fn print_played<W: Write>(alloc: Global, played: &Played, out: &mut W) -> Result<(), Stop> {
    if played.written.iter().any(is_cut_short) {
        return Err(Stop::Memory);
    }
    let mut out = BufWriter::new(alloc, out)?;
    print_entries(alloc, played, &mut out)
}

/// Plays events on a server, and prints what is written.
fn play_on_server<W: Write>(
    alloc: Global,
    terms: Terms,
    hasher: RandomState,
    events: &[Event],
    out: &mut W,
) -> Result<(), Stop> {
    let played = play_events(alloc, terms, hasher, events)?;
    print_played(alloc, &played, out)
}

/// The lines of the script of a play on an engine that a reader gives.
fn read_lines<R: Read>(alloc: Global, input: &mut R) -> Result<Vec<Line>, Stop> {
    let octets = read_input(alloc, input)?;
    let Ok(script) = str::from_utf8(&octets) else {
        return Err(Stop::Unreadable);
    };
    Ok(read_steps(alloc, script)?)
}

/// Plays lines on an engine whose owner keeps the counter, and prints what comes of them.
fn play_on_engine<W: Write>(
    alloc: Global,
    terms: Terms,
    play: &EnginePlay,
    hasher: RandomState,
    lines: &[Line],
    out: &mut W,
) -> Result<(), Stop> {
    let places = Places {
        parked: play.parked,
        of_one: play.parked,
        joined: play.joined,
    };
    let mut host = Host::new(alloc, terms, places, play.asks, hasher)?;
    print_play(alloc, &mut host, lines, out)
}

/// The share of each client, which is the capacity where none is given. None where it is 0 or greater than the
/// capacity.
fn share_in(capacity: u32, share: Option<u32>) -> Option<u32>
    requires { 1 ≤ capacity }
    ensures { MatchOption result ((unwrap_or share capacity ≡ 0) ⊎ (capacity < unwrap_or share capacity)) (λ n. (n ≡ unwrap_or share capacity) × (1 ≤ n) × (n ≤ capacity)) }
{
    match share.unwrap_or(capacity) {
        0 => None,
        n if capacity < n => None,
        n => Some(n),
    }
}

/// The lines of the reference that a text is.
fn lines_of(alloc: Global, text: &str, has_names: bool) -> Result<String, Stop> {
    let ior = reference_in(alloc, text)?;
    let lines = match has_names {
        true => named_lines(alloc, &ior),
        false => reference_lines(alloc, &ior),
    };
    Ok(lines?)
}

/// Prints the lines of the reference that a text is.
fn print_reference<W: Write>(
    alloc: Global,
    text: &str,
    has_names: bool,
    out: &mut W,
) -> Result<(), Stop> {
    let lines = lines_of(alloc, text, has_names)?;
    out.write_all(lines.as_bytes())?;
    out.flush()?;
    Ok(())
}

/// A text without the line end that it ends in.
fn without_end(text: &str) -> &str {
    text.trim_end_matches(['\r', '\n'])
}

/// Shows a reference.
fn show_reference<R: Read, W: Write>(
    alloc: Global,
    reference: &IorShow,
    input: &mut R,
    out: &mut W,
) -> Result<(), Stop> {
    let has_names = reference.has_names;
    if let Some(text) = reference.text {
        return print_reference(alloc, without_end(text), has_names, out);
    }
    let octets = read_input(alloc, input)?;
    match str::from_utf8(&octets) {
        Ok(text) => print_reference(alloc, without_end(text), has_names, out),
        Err(_) => Err(Stop::Unreadable),
    }
}

/// Shows a stream that was read, under the default limits, and returns whether it ends well.
fn show<W: Write>(
    alloc: Global,
    form: Form,
    octets: &[u8],
    detail: Detail,
    out: &mut W,
) -> Result<bool, Stop> {
    let limits = Limits::default();
    if form == Form::Raw {
        return show_octets(alloc, limits, octets, detail, out);
    }
    match str::from_utf8(octets) {
        Ok(text) => show_stream(alloc, limits, text, detail, out),
        Err(_) => Err(Stop::Unreadable),
    }
}

/// What came of a task: whether it ended well, or why it stopped, and what helps where it did not.
#[derive(Drop)]
struct End {
    came: Result<bool, Stop>,
    hint: Option<Hint>,
}

impl End {
    /// An end with which nothing helps.
    fn of(came: Result<(), Stop>) -> End {
        let came = match came {
            Ok(()) => Ok(true),
            Err(stop) => Err(stop),
        };
        End { came, hint: None }
    }
}

/// Reads an input and shows its stream.
fn show_input<F: Files, R: Read, W: Write, E: Write>(
    alloc: Global,
    rt: &F,
    input: &Input,
    detail: Detail,
    streams: &mut Streams<'_, R, W, E>,
) -> End {
    let octets = match read_octets(alloc, rt, input, streams.input) {
        Ok(octets) => octets,
        Err(stop) => return End::of(Err(stop)),
    };
    let came = show(alloc, input.form, &octets, detail, streams.out);
    // (to look for one takes a pass over the octets)
    let hint = match came {
        Ok(true) => None,
        _ if streams.is_read => hint_of(&octets, input.form),
        _ => None,
    };
    End { came, hint }
}

/// What a server with these numbers keeps to, but where the share is bad.
pub(crate) fn terms_of(numbers: Numbers) -> Option<Terms>
    requires { AreInRange numbers }
    ensures { MatchOption result (HasBadShare numbers) (AreTermsOf numbers) }
{
    Some(Terms {
        capacity: numbers.capacity,
        share: share_in(numbers.capacity, numbers.share)?,
        start: numbers.start,
        limits: Limits::new(numbers.limit, numbers.partials).unwrap(),
    })
}

/// Plays the script that a reader gives, unless the share is bad.
fn play_input<R: Read, W: Write>(
    alloc: Global,
    numbers: Numbers,
    hasher: RandomState,
    input: &mut R,
    out: &mut W,
) -> Result<(), Stop>
    requires { AreInRange numbers }
{
    let Some(terms) = terms_of(numbers) else {
        return Err(Stop::BadShare);
    };
    let events = read_events(alloc, input)?;
    play_on_server(alloc, terms, hasher, &events, out)
}

/// Plays the script that a reader gives on an engine, unless the share is bad.
fn play_input_on_engine<R: Read, W: Write>(
    alloc: Global,
    play: &EnginePlay,
    hasher: RandomState,
    input: &mut R,
    out: &mut W,
) -> Result<(), Stop>
    requires { AreInRange play.now.numbers }
{
    let Some(terms) = terms_of(play.numbers) else {
        return Err(Stop::BadShare);
    };
    let lines = read_lines(alloc, input)?;
    play_on_engine(alloc, terms, play, hasher, &lines, out)
}

/// Does a task.
fn perform<F: Files, R: Read, W: Write, E: Write>(
    alloc: Global,
    rt: &F,
    task: &Task,
    hasher: RandomState,
    streams: &mut Streams<'_, R, W, E>,
) -> End
    requires { IsInRange task.now }
{
    match task {
        Task::Play(numbers) => {
            End::of(play_input(alloc, *numbers, hasher, streams.input, streams.out))
        }
        Task::Engine(play) => {
            End::of(play_input_on_engine(alloc, play, hasher, streams.input, streams.out))
        }
        Task::Ior(reference) => {
            End::of(show_reference(alloc, reference, streams.input, streams.out))
        }
        Task::Show(input) => show_input(alloc, rt, input, Detail::Messages, streams),
        Task::Check(input) => show_input(alloc, rt, input, Detail::EndAlone, streams),
    }
}

/// The standard streams.
#[derive(Drop)]
pub struct Streams<'s, R, W, E> {
    pub input: &'s mut R,
    pub out: &'s mut W,
    pub err: &'s mut E,
    /// Whether `input` is a terminal.
    pub is_typed: bool,
    /// Whether `err` is a terminal: then a line more says what helps.
    pub is_read: bool,
}

/// Prints a line that helps, where one sits before a terminal.
fn print_hint<R: Read, W: Write, E: Write>(hint: Option<Hint>, streams: &mut Streams<'_, R, W, E>) {
    if let Some(hint) = hint
        && streams.is_read
    {
        let _ = writeln!(streams.err, "{hint}");
    }
}

/// The status of a task that stopped.
fn status_of(task: &Task, stop: &Stop) -> u8
    ensures { (result ≡ FAILED) ⊎ ((result ≡ REFUSED) × HasFile task.now) }
{
    match stop {
        Stop::File(..) if task.has_file() => REFUSED,
        _ => FAILED,
    }
}

/// Does a task, and returns the exit status: 0; or 2 where its file can't be read; or 1 where a stream doesn't end
/// after a message, the input is refused, the output can't be written or an allocation fails. Why the input is
/// refused, the output can't be written, and that an allocation failed, is printed to `err`; and where that is a
/// terminal, what helps. The hasher is that of the log of a play.
pub fn run<F: Files, R: Read, W: Write, E: Write>(
    alloc: Global,
    rt: &F,
    task: &Task,
    hasher: RandomState,
    streams: &mut Streams<'_, R, W, E>,
) -> u8
    requires { IsInRange task.now }
    ensures status { result ≤ REFUSED }
    ensures file { result ≡ REFUSED → HasFile task.now }
{
    if streams.is_typed && task.has_input() {
        print_hint(Some(Hint::Waiting), streams);
    }
    let End { came, hint } = perform(alloc, rt, task, hasher, streams);
    let status = match came {
        Ok(true) => DONE,
        Ok(false) => FAILED,
        // no error of the program
        Err(stop) if stop.is_reader_gone() => DONE,
        Err(stop) => {
            let _ = writeln!(streams.err, "{stop}");
            status_of(task, &stop)
        }
    };
    if status != DONE {
        print_hint(hint, streams);
    }
    status
}
