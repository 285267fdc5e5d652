//! A stream of GIOP messages in hexadecimal digits: its messages, and how it ends.

ghost use Rattle.std.specs.Prelude.{◌≡◌, ◌≢◌, ◌↔◌, ℕ, List, Ok, IfOk, IsTrue, OnOk};
ghost use Rattle.std.specs.Io.KnownBytes.{Appends};
ghost use Rattle.giop_core.specs.Lent.{content_of};
ghost use Rattle.giop_frames.specs.declared.fault.StreamFault.TheVariants.{Memory};
ghost use Rattle.giop_run.specs.declared.stream.Ending.TheVariants.{Fault};
ghost use Rattle.digits.specs.Digits.{octets_in};
ghost use Rattle.giop_text.specs.MessageLines.{message_lines};
ghost use Rattle.giop_run.specs.Private as private;
ghost use Rattle.giop_run.specs.Private.{printed};
ghost use Rattle.giop_run.specs.StreamEnds.{EndsWell, IsSummary};
ghost use Rattle.giop_run.specs.StreamLines.{stream_lines};

use crate::stop::Stop;
use digits::{DigitError, octets_of, place_of_bad};
use giop_core::Message;
use giop_frames::{Assembler, Limits, StreamFault};
use giop_text::put_message;
use std::alloc::Global;
use std::io;
use std::io::{BufWriter, Write};

/// What is printed of a stream.
#[derive(Clone, Copy)]
pub enum Detail {
    /// The lines of each message, and how the stream ends.
    Messages,
    /// How the stream ends, and no more.
    EndAlone,
}

/// How a stream ends.
#[derive(Clone, Copy)]
pub enum Ending {
    /// After its last message, with nothing left.
    Clean,
    /// After its last message, with so many octets of a frame that is not whole, and so many partial
    /// messages: those whose last fragment has not come. At least one of the two is not 0.
    Rest { octets: usize, partial: usize },
    /// In a fault.
    Fault(StreamFault),
}

/// How many messages a stream has before its end, and how it ends.
#[derive(Clone, Copy)]
pub struct Summary {
    pub messages: usize,
    pub ending: Ending,
}

/// How a stream ends that is at its end without a fault.
fn ending_with(octets: usize, partial: usize) -> Ending
    ensures { result ≡ private.ending_with octets partial }
{
    if octets == 0 && partial == 0 {
        return Ending::Clean;
    }
    Ending::Rest { octets, partial }
}

/// The summary of a stream that a fault ends after so many messages. A failed allocation is no fault
/// of the stream.
fn summary_at(messages: usize, fault: StreamFault) -> Result<Summary, Stop>
    ensures { IfOk result (λ s. (s.messages ≡ messages) × (s.ending ≡ Fault fault) × (fault ≢ Memory)) }
{
    match fault {
        StreamFault::Memory => Err(Stop::Memory),
        fault => Ok(Summary {
            messages,
            ending: Ending::Fault(fault),
        }),
    }
}

/// For so many octets of a message's lines memory is taken at once.
const USUAL: usize = 256;

/// Prints the lines of a message.
fn print_message<W: Write>(alloc: Global, message: Message, out: &mut W) -> Result<(), Stop>
    ensures { OnOk result (Appends (W.contents out.old) (W.contents out.new) (message_lines message.entry.version message.entry.order (content_of message.entry.content))) }
{
    let mut lines = String::with_capacity(alloc, USUAL)?;
    put_message(alloc, message, &mut lines)?;
    out.write_all(lines.as_bytes())?;
    Ok(())
}

/// Reads a stream to its end or its first fault, counts its messages, and prints those that are asked
/// for.
fn read_stream<W: Write>(
    alloc: Global,
    limits: Limits,
    octets: &[u8],
    detail: Detail,
    out: &mut W,
) -> Result<Summary, Stop>
    ensures summary { IfOk result (IsSummary limits octets.now) }
    ensures lines { OnOk result (Appends (W.contents out.old) (W.contents out.new) (printed detail (stream_lines limits octets.now))) }
{
    let mut assembler = Assembler::new(alloc, limits);
    let mut messages = 0;
    let mut taken = 0;
    while taken < octets.len() {
        let (_, left) = octets.split_at(taken);
        match assembler.feed(left) {
            Ok(n) => taken += n,
            Err(fault) => return summary_at(messages, fault),
        }
        if let Some(message) = assembler.message() {
            messages += 1;
            match detail {
                Detail::Messages => print_message(alloc, message, out)?,
                Detail::EndAlone => {}
            }
        }
    }
    let ending = ending_with(assembler.pending(), assembler.partial());
    Ok(Summary { messages, ending })
}

/// Prints how a stream ends.
fn print_summary<W: Write>(summary: Summary, out: &mut W) -> io::Result<()> {
    let messages = summary.messages;
    match summary.ending {
        Ending::Clean => writeln!(out, "end {messages} messages"),
        Ending::Rest { octets, partial } => {
            writeln!(out, "rest {octets} octets, {partial} partial")
        }
        Ending::Fault(fault) => writeln!(out, "fault after {messages} messages: {fault}"),
    }
}

/// Why a text of digits is refused.
fn stop_in(text: &str, error: DigitError) -> Stop {
    match error {
        DigitError::Odd => Stop::OddDigits,
        DigitError::Bad => {
            let (line, place) = place_of_bad(text);
            Stop::BadDigit(line, place)
        }
        DigitError::Memory => Stop::Memory,
    }
}

/// Prints how a stream ends, and before it the messages, where they are asked for. Returns whether it ends after a
/// message with nothing left.
pub fn show_octets<W: Write>(
    alloc: Global,
    limits: Limits,
    octets: &[u8],
    detail: Detail,
    out: &mut W,
) -> Result<bool, Stop>
    ensures { IfOk result (λ ends_well. IsTrue ends_well ↔ EndsWell limits octets.now) }
{
    let mut out = BufWriter::new(alloc, out)?;
    let summary = read_stream(alloc, limits, octets, detail, &mut out)?;
    print_summary(summary, &mut out)?;
    out.flush()?;
    Ok(matches!(summary.ending, Ending::Clean))
}

/// The same of the octets that a text gives in digits.
pub fn show_stream<W: Write>(
    alloc: Global,
    limits: Limits,
    text: &str,
    detail: Detail,
    out: &mut W,
) -> Result<bool, Stop>
    ensures { IfOk result (λ ends_well. (s : List ℕ) × (octets_in text.now ≡ Ok s) × (IsTrue ends_well ↔ EndsWell limits s)) }
{
    match octets_of(alloc, text) {
        Ok(octets) => show_octets(alloc, limits, octets.as_slice(), detail, out),
        Err(error) => Err(stop_in(text, error)),
    }
}
