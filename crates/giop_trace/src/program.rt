//! What `giop trace` does with its input.

ghost use Rattle.std.specs.Prelude.{◌≡◌};

use crate::choice::{Choice, Chooser};
use crate::direction::Reading;
use crate::session::Session;
use crate::sink::{Sink, Source};
use crate::stop::{Failure, Stop};
use crate::telling::Teller;
use crate::text::Text;
use giop_frames::{Cuts, Limits};
use giop_lines::{Endpoints, Format, Printer};
use giop_text::is_capture;
use giop_types::Table;
use std::alloc::{AllocError, Global};
use std::io::{BufWriter, Read, Write};

/// What is asked of a trace.
#[derive(Clone, Copy)]
pub struct Options<'a> {
    /// The input is octets of one direction, and not what tshark prints.
    pub is_raw: bool,
    /// After a fault reading goes on at the next header of a plausible message.
    pub resumes: bool,
    /// Where messages of 1.1 may be cut that are read.
    pub cuts: Cuts,
    /// The form of the lines.
    pub format: Format,
    /// Whether bodies are printed where the input tells packets; else they always are.
    pub has_bodies: bool,
    /// Whether times are those of the day.
    pub is_clock: bool,
    /// Whether lines have colours.
    pub is_coloured: bool,
    /// Which messages are printed.
    pub choice: Choice<'a>,
    /// Whether counts of calls are printed, and no messages.
    pub is_summary: bool,
    /// How many keys of FT_REQUEST are remembered at least; at most twice as many are.
    pub keys: u32,
}

/// How many keys are remembered at least where nothing is asked for.
pub const KEYS: u32 = 500_000;

/// Whether octets begin a message.
fn is_octets(input: &[u8]) -> bool {
    matches!(input, [b'G', b'I', b'O', b'P', ..])
}

/// How many octets are read at a time.
const PIECE: usize = 65_536;

/// What the octets are read into, and what is read of them.
#[derive(Drop)]
struct Run<'r, R> {
    alloc: Global,
    is_raw: bool,
    source: Source<'r, R>,
    session: Session,
}

/// The connection that octets without lines are of.
const ALONE: Endpoints = Endpoints {
    stream: None,
    opener: &[],
    acceptor: &[],
};

/// Refuses an input by its first octets.
fn judge(is_raw: bool, first: &[u8]) -> Result<(), Stop> {
    if is_capture(first) {
        return Err(Stop::Packets);
    }
    if !is_raw && is_octets(first) {
        return Err(Stop::Octets);
    }
    Ok(())
}

impl<R: Read> Run<'_, R> {
    /// Traces octets as they are.
    fn run_raw<W: Write>(&mut self, first: &[u8], out: &mut Sink<W>) -> Result<(), Stop> {
        if first.is_empty() {
            return Ok(());
        }
        self.session.begin(&ALONE, None, out)?;
        self.session.take_raw(first, out)?;
        let mut buffer = vec![in self.alloc; 0u8; PIECE]?;
        self.read_raw(&mut buffer, out)
    }

    /// Traces the octets that come, which are read into a buffer.
    fn read_raw<W: Write>(&mut self, buffer: &mut [u8], out: &mut Sink<W>) -> Result<(), Stop> {
        for _ in 0..u64::MAX {
            let count = self.source.read(buffer)?;
            if count == 0 {
                break;
            }
            self.session
                .take_raw(buffer.get(..count).unwrap_or(&[]), out)?;
        }
        self.session.end_connection(out)
    }

    /// Traces the connections in lines.
    fn run_text<W: Write>(&mut self, first: &[u8], out: &mut Sink<W>) -> Result<(), Stop> {
        let mut text = Text::new(self.alloc);
        self.run_lines(&mut text, first, out)
    }

    /// Traces those, of which these are the first octets.
    fn run_lines<W: Write>(
        &mut self,
        text: &mut Text,
        first: &[u8],
        out: &mut Sink<W>,
    ) -> Result<(), Stop> {
        text.take(first, &mut self.session, out)?;
        let mut buffer = vec![in self.alloc; 0u8; PIECE]?;
        self.read_lines(text, &mut buffer, out)
    }

    /// Traces the lines that come, which are read into a buffer.
    fn read_lines<W: Write>(
        &mut self,
        text: &mut Text,
        buffer: &mut [u8],
        out: &mut Sink<W>,
    ) -> Result<(), Stop> {
        for _ in 0..u64::MAX {
            // (the next octets may be long in coming)
            out.flush()?;
            let count = self.source.read(buffer)?;
            if count == 0 {
                break;
            }
            text.take(buffer.get(..count).unwrap_or(&[]), &mut self.session, out)?;
        }
        text.end(&mut self.session, out)
    }

    /// The first octets: four, unless there are fewer.
    fn first(&mut self) -> Result<Vec<u8>, Stop> {
        let mut first = Vec::new(self.alloc);
        let mut buffer = [0u8; 4];
        for _ in 0..4 {
            let wanted = 4usize.saturating_sub(first.len());
            if wanted == 0 {
                break;
            }
            let count = self
                .source
                .read(buffer.get_mut(..wanted).unwrap_or(&mut []))?;
            first.extend_from_slice(buffer.get(..count).unwrap_or(&[]))?;
        }
        Ok(first)
    }

    /// Traces the input, of which these are the first octets.
    fn run_from<W: Write>(&mut self, first: &[u8], out: &mut Sink<W>) -> Result<(), Stop> {
        judge(self.is_raw, first)?;
        match self.is_raw {
            true => self.run_raw(first, out),
            false => self.run_text(first, out),
        }
    }

    /// Traces the input, and prints at the end what was counted.
    fn run<W: Write>(&mut self, out: &mut Sink<W>) -> Result<bool, Stop> {
        let first = self.first()?;
        self.run_from(&first, out)?;
        self.session.end(out)?;
        out.flush()?;
        Ok(self.session.is_clean)
    }
}

/// What prints and counts the messages that are asked for.
fn teller_of(alloc: Global, options: &Options, types: Table) -> Result<Teller, AllocError> {
    let printer = Printer {
        alloc,
        format: options.format,
        has_bodies: options.has_bodies,
        is_clock: options.is_clock,
        is_coloured: options.is_coloured,
    };
    let chooser = Chooser::new(alloc, &options.choice)?;
    Ok(Teller::new(alloc, printer, chooser, types, options.is_summary))
}

/// How octets are read: under the default limits, with the cuts that are asked for.
fn reading_of(options: &Options) -> Reading
    ensures limits { (result.limits.message ≡ 1048576) × (result.limits.partials ≡ 8) }
    ensures cuts { result.limits.cuts ≡ options.now.cuts }
    ensures resumes { result.resumes ≡ options.now.resumes }
{
    Reading {
        limits: Limits::default().with_cuts(options.cuts),
        resumes: options.resumes,
    }
}

/// Traces the connections in an input under the default limits, as it comes, and prints a line for each message, what
/// the types tell of its body, and at the end what was counted. Returns whether each direction ends after a message,
/// with nothing left over.
pub fn trace<R: Read, W: Write>(
    alloc: Global,
    options: &Options,
    types: Table,
    input: &mut R,
    out: &mut W,
) -> Result<bool, Failure> {
    let Ok(teller) = teller_of(alloc, options, types) else {
        return Err(Failure::Stop(Stop::Memory));
    };
    let mut out = match BufWriter::new(alloc, out) {
        Ok(writer) => Sink::new(writer),
        Err(_) => return Err(Failure::Stop(Stop::Memory)),
    };
    let mut tracing = Run {
        alloc,
        is_raw: options.is_raw,
        source: Source {
            input,
            is_ended: false,
            error: None,
        },
        session: Session::new(alloc, reading_of(options), u64::from(options.keys), teller),
    };
    let came = tracing.run(&mut out);
    let Err(stop) = came else {
        return came.map_err(Failure::Stop);
    };
    match tracing.source.failure() {
        Some(failure) if stop == Stop::Unreadable => Err(failure),
        _ => Err(out.failure(stop)),
    }
}
