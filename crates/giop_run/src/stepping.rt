//! Steps of a script on an engine, and what is printed of them.
//!
//! For each event these lines are printed, with what a line has to say:
//!
//! - `ask CONNECTION KEY OPERATION` for each request that the engine asked for, where that is wanted; `parked NUMBER
//!   CONNECTION KEY OPERATION` for each that was parked; `repeat CONNECTION` for each repeat of one that is parked
//! - `CONNECTION HEX`, the octets that were written
//! - `memory CONNECTION HANDLED ANSWERED` where memory ran out, `given_up CONNECTION ANSWERED` where the owner gave a
//!   request up, and `full CONNECTION ANSWERED` where it did so since there is no place to park it; these count what
//!   came in the event after the last request that was parked, or repeated one that is
//! - `waits CONNECTION` where a connection is not closed, since somebody waits on it for an outcome
//!
//! And for each request that is answered or declined late `CONNECTION HEX` for each reply, or `unanswered NUMBER` where
//! the owner has no outcome.

ghost use Rattle.std.specs.Prelude.{◌≡◌, None};
ghost use Rattle.ft_orb.specs.Engines.{waits_in};

use crate::host::{Host, Settled, Unserved};
use crate::steps::{Line, Step};
use crate::stop::Stop;
use ft_orb::Event;
use std::alloc::Global;
use std::io;
use std::io::{BufWriter, Write};

/// Prints the octets that were written on a connection, if there are some. It takes no memory.
fn print_octets<W: Write>(connection: u64, octets: &[u8], out: &mut W) -> io::Result<()> {
    if octets.is_empty() {
        return Ok(());
    }
    write!(out, "{connection} ")?;
    for octet in octets {
        write!(out, "{octet:02x}")?;
    }
    writeln!(out)
}

/// Prints what was written on a connection, and why no more was, if there is a reason.
fn print_served<W: Write>(
    connection: u64,
    octets: &[u8],
    served: Result<(), Unserved>,
    out: &mut W,
) -> io::Result<()> {
    print_octets(connection, octets, out)?;
    match served {
        Ok(()) | Err(Unserved::Refused) => Ok(()),
        Err(Unserved::Waits) => writeln!(out, "waits {connection}"),
        Err(Unserved::Memory { handled, answered }) => {
            writeln!(out, "memory {connection} {handled} {answered}")
        }
        Err(Unserved::GivenUp(answered)) => writeln!(out, "given_up {connection} {answered}"),
        Err(Unserved::Full(answered)) => writeln!(out, "full {connection} {answered}"),
    }
}

/// Serves an event, appends the octets that it writes, and returns its connection and how it was served.
fn serve(host: &mut Host, event: &Event, written: &mut Vec<u8>) -> (u64, Result<(), Unserved>)
    requires idle { waits_in host.old.engine ≡ None }
    ensures idle { waits_in host.new.engine ≡ None }
{
    match event {
        Event::Opened(c) => (*c, host.engine.connect(*c).map_err(Unserved::from)),
        Event::Piece(c, moment, piece) => (*c, host.feed(*c, *moment, piece, written)),
        Event::Close(c) => (*c, host.close(*c, written)),
        Event::Lost(c) => {
            host.engine.lost(*c);
            (*c, Ok(()))
        }
    }
}

/// Serves an event, and prints its lines.
fn happen<W: Write>(alloc: Global, host: &mut Host, event: &Event, out: &mut W) -> io::Result<()>
    requires idle { waits_in host.old.engine ≡ None }
    ensures idle { waits_in host.new.engine ≡ None }
{
    let mut written = Vec::new(alloc);
    let (connection, served) = serve(host, event, &mut written);
    out.write_all(&host.journal.lines)?;
    host.journal.lines.clear();
    print_served(connection, &written, served, out)
}

/// Tells the outcome of the request that is parked under a number to all who wait for it, and prints each reply.
fn tell<W: Write>(alloc: Global, host: &mut Host, number: u64, out: &mut W) -> io::Result<()>
    requires idle { waits_in host.old.engine ≡ None }
    ensures idle { waits_in host.new.engine ≡ None }
{
    while let Some(connection) = host.engine.due(number) {
        let mut written = Vec::new(alloc);
        let served = host.engine.reply(number, &mut written);
        print_served(connection, &written, served.map_err(Unserved::from), out)?;
    }
    Ok(())
}

/// Prints what came of the request that was parked under a number, once it was answered or declined in this line.
fn finish<W: Write>(
    alloc: Global,
    host: &mut Host,
    line: u64,
    number: u64,
    settled: Settled,
    out: &mut W,
) -> Result<(), Stop>
    requires idle { waits_in host.old.engine ≡ None }
    ensures idle { waits_in host.new.engine ≡ None }
{
    match settled {
        Settled::Told => tell(alloc, host, number, out)?,
        Settled::Unanswered => writeln!(out, "unanswered {number}")?,
        Settled::NotParked => return Err(Stop::NotParked(line)),
    }
    Ok(())
}

/// Takes a step of a script, and prints its lines.
fn take_step<W: Write>(alloc: Global, host: &mut Host, line: &Line, out: &mut W) -> Result<(), Stop>
    requires idle { waits_in host.old.engine ≡ None }
    ensures idle { waits_in host.new.engine ≡ None }
{
    match &line.step {
        Step::Happens(event) => happen(alloc, host, event, out)?,
        Step::Owner(manner) => host.owner.manner = *manner,
        Step::Park => host.parks = host.parks.saturating_add(1),
        Step::Answer(number) => {
            let settled = host.settle(*number);
            finish(alloc, host, line.number, *number, settled, out)?;
        }
        Step::Decline(number) => {
            let settled = host.withdraw(*number);
            finish(alloc, host, line.number, *number, settled, out)?;
        }
    }
    Ok(())
}

/// Plays the lines of a script on a host, and prints what comes of each, and the total, up to the first that answers or
/// declines what is not parked.
fn play_lines<W: Write>(
    alloc: Global,
    host: &mut Host,
    lines: &[Line],
    out: &mut W,
) -> Result<(), Stop>
    requires idle { waits_in host.old.engine ≡ None }
    ensures idle { waits_in host.new.engine ≡ None }
{
    for line in lines {
        take_step(alloc, host, line, out)?;
    }
    writeln!(out, "total {}", host.owner.counter.total())?;
    Ok(())
}

/// Plays the lines of a script on a host, and prints what comes of each, and the total.
pub(crate) fn print_play<W: Write>(
    alloc: Global,
    host: &mut Host,
    lines: &[Line],
    out: &mut W,
) -> Result<(), Stop>
    requires idle { waits_in host.old.engine ≡ None }
    ensures idle { waits_in host.new.engine ≡ None }
{
    let mut out = BufWriter::new(alloc, out)?;
    let played = play_lines(alloc, host, lines, &mut out);
    // (what was played before a bad answer is printed too)
    match out.flush() {
        Ok(()) => played,
        Err(error) => Err(Stop::from(error)),
    }
}
