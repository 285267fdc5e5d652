//! Connections, as they are traced and printed: one after another, or by turns.

use crate::block::Piece;
use crate::direction::Reading;
use crate::open::Open;
use crate::sink::Sink;
use crate::steps::Step;
use crate::stop::Stop;
use crate::telling::Teller;
use giop_lines::{Closing, Endpoints, Left, Spot, Stamp};
use giop_tap::{Ends, Sender, Trace};
use std::alloc::Global;
use std::collections::BTreeMap;
use std::io::Write;
use std::mem;

/// What is traced, and what was counted so far.
#[derive(Drop)]
pub(crate) struct Session {
    alloc: Global,
    reading: Reading,
    trace: Trace,
    teller: Teller,
    /// The connection that the trace is on.
    open: Open,
    /// The others that have not ended.
    others: BTreeMap<u64, (Open, Ends)>,
    /// The first time that came.
    beginning: Option<u64>,
    /// Whether each direction so far ended after a message, with nothing left.
    pub is_clean: bool,
}

impl Session {
    /// One in which nothing has come.
    pub fn new(alloc: Global, reading: Reading, keys: u64, teller: Teller) -> Session {
        Session {
            alloc,
            reading,
            trace: Trace::new(alloc, reading.limits, keys),
            teller,
            open: Open::none(alloc),
            others: BTreeMap::new(alloc),
            beginning: None,
            is_clean: true,
        }
    }

    /// Where something of a side is said to be.
    fn spot(&self, sender: Sender) -> Spot<'_> {
        Spot {
            connection: self.open.number,
            sender,
            caught: self.open.caught(sender, self.beginning, None),
        }
    }

    /// Says what is to be said of the message that is lent, if one is.
    fn tell_seen<W: Write>(&mut self, out: &mut Sink<W>) -> Result<(), Stop> {
        let Some(seen) = self.trace.seen() else {
            return Ok(());
        };
        self.open.hear(&seen.message.content);
        self.teller.tell(seen, &self.open, self.beginning, out)
    }

    /// Prints what is wrong with octets, where it is asked for.
    fn print_fault<W: Write>(&mut self, text: &str, out: &mut Sink<W>) -> Result<(), Stop> {
        match self.teller.prints_faults() {
            true => out.print(text),
            false => Ok(()),
        }
    }

    /// Prints what came of a step.
    fn print_step<W: Write>(
        &mut self,
        sender: Sender,
        step: Step,
        out: &mut Sink<W>,
    ) -> Result<(), Stop> {
        match step {
            Step::Idle => Ok(()),
            Step::Gave => self.tell_seen(out),
            Step::Fault(at, fault, looks) => {
                self.teller.counts.faults = self.teller.counts.faults.saturating_add(1);
                self.is_clean = false;
                let spot = self.spot(sender);
                let text = self.teller.printer.fault(&spot, at, fault, looks)?;
                self.print_fault(&text, out)
            }
            Step::Passed(from, octets) => {
                self.teller.counts.pass(octets);
                let spot = self.spot(sender);
                let text = self.teller.printer.passed(&spot, from, octets)?;
                self.print_fault(&text, out)
            }
        }
    }

    /// Takes a step with octets of a side, and returns how many of them it took.
    fn step<W: Write>(
        &mut self,
        sender: Sender,
        octets: &[u8],
        out: &mut Sink<W>,
    ) -> Result<usize, Stop> {
        let (step, count) = self
            .open
            .step(sender, self.reading, octets, &mut self.trace)?;
        self.print_step(sender, step, out)?;
        Ok(count)
    }

    /// Traces octets of a side.
    fn take_octets<W: Write>(
        &mut self,
        sender: Sender,
        octets: &[u8],
        out: &mut Sink<W>,
    ) -> Result<(), Stop> {
        let mut left = octets;
        for _ in 0..u64::MAX {
            let count = self.step(sender, left, out)?;
            left = left.get(count..).unwrap_or(&[]);
            if left.is_empty() && !self.open.is_due(sender) {
                break;
            }
        }
        Ok(())
    }

    /// Goes on behind octets of a side that the capture missed.
    fn miss<W: Write>(
        &mut self,
        sender: Sender,
        octets: u64,
        out: &mut Sink<W>,
    ) -> Result<(), Stop> {
        self.open.miss(sender, octets, &mut self.trace);
        self.teller.counts.miss(octets);
        self.is_clean = false;
        let text = self.teller.printer.missing(&self.spot(sender), octets)?;
        self.print_fault(&text, out)
    }

    /// Prints what is left of a side.
    fn print_left<W: Write>(
        &mut self,
        sender: Sender,
        left: Left,
        out: &mut Sink<W>,
    ) -> Result<(), Stop> {
        match left {
            Left::Nothing => return Ok(()),
            Left::Passed(_, octets) => self.teller.counts.pass(octets),
            Left::Rest(_, _) | Left::Unread(_) => {}
        }
        self.is_clean = false;
        let text = self.teller.printer.left(&self.spot(sender), left)?;
        self.print_fault(&text, out)
    }

    /// Ends the connection.
    pub fn end_connection<W: Write>(&mut self, out: &mut Sink<W>) -> Result<(), Stop> {
        let left = self.open.left(Sender::Opener, &mut self.trace);
        self.print_left(Sender::Opener, left, out)?;
        let left = self.open.left(Sender::Acceptor, &mut self.trace);
        self.print_left(Sender::Acceptor, left, out)?;
        self.teller.count_ending(&self.open);
        self.open = Open::none(self.alloc);
        Ok(())
    }

    /// Sets a connection aside, if it is one.
    fn keep(&mut self, open: Open, ends: Ends) -> Result<(), Stop> {
        if open.number != 0 {
            self.others.insert(open.number, (open, ends))?;
        }
        Ok(())
    }

    /// Sets the connection aside that the trace is on, if it is on one, and goes on with this one.
    fn go_on(&mut self, open: Open, ends: Ends) -> Result<(), Stop> {
        let ends = self.trace.turn_to(ends);
        let open = mem::replace(&mut self.open, open);
        self.keep(open, ends)
    }

    /// Goes on with a new connection.
    fn go_on_anew(&mut self, number: u64, ends: &Endpoints) -> Result<(), Stop> {
        let open = Open::new(self.alloc, number, ends)?;
        let ends = Ends::new(self.alloc, self.reading.limits, number);
        self.go_on(open, ends)
    }

    /// Prints what stands before all lines of packets.
    fn print_head<W: Write>(&mut self, out: &mut Sink<W>) -> Result<(), Stop> {
        let text = self.teller.printer.head()?;
        out.print(&text)
    }

    /// Prints the line of a connection.
    fn print_connection<W: Write>(
        &mut self,
        number: u64,
        ends: &Endpoints,
        stamp: Option<Stamp>,
        out: &mut Sink<W>,
    ) -> Result<(), Stop> {
        let text = self.teller.printer.connection(number, ends, stamp)?;
        out.print(&text)
    }

    /// Begins another connection, with its first packet where that is known, and returns its number. The one before
    /// goes on later, unless it has ended.
    pub fn begin<W: Write>(
        &mut self,
        ends: &Endpoints,
        stamp: Option<Stamp>,
        out: &mut Sink<W>,
    ) -> Result<u64, Stop> {
        let number = self.teller.counts.connections.saturating_add(1);
        self.teller.counts.connections = number;
        self.go_on_anew(number, ends)?;
        if stamp.is_some() && number == 1 {
            self.print_head(out)?;
        }
        if self.teller.prints_connections() {
            self.print_connection(number, ends, stamp, out)?;
        }
        Ok(number)
    }

    /// Goes on with the connection of a number, if it has not ended.
    pub fn turn_to(&mut self, number: u64) -> Result<(), Stop> {
        if self.open.number == number {
            return Ok(());
        }
        match self.others.remove(&number) {
            Some((open, ends)) => self.go_on(open, ends),
            None => Ok(()),
        }
    }

    /// Takes note of the packet in which what comes next of a side stands.
    pub fn stamp(&mut self, sender: Sender, stamp: Stamp) {
        if self.beginning.is_none() {
            self.beginning = stamp.time;
        }
        self.open.set_stamp(sender, stamp);
    }

    /// Traces what a line gives of a side, and prints what comes of it.
    pub fn take<W: Write>(
        &mut self,
        sender: Sender,
        piece: &Piece,
        out: &mut Sink<W>,
    ) -> Result<(), Stop> {
        match piece {
            Piece::Octets(octets) => self.take_octets(sender, octets, out),
            Piece::Missing(octets) => self.miss(sender, *octets, out),
            Piece::Closed(closing) => self.close(sender, *closing, out),
        }
    }

    /// Prints that a side closed the connection.
    fn close<W: Write>(
        &mut self,
        sender: Sender,
        closing: Closing,
        out: &mut Sink<W>,
    ) -> Result<(), Stop> {
        self.open.close(closing);
        let text = self.teller.printer.closed(&self.spot(sender), closing)?;
        match self.teller.prints_connections() {
            true => out.print(&text),
            false => Ok(()),
        }
    }

    /// Traces octets of a side, and prints what comes of them.
    pub fn take_raw<W: Write>(&mut self, octets: &[u8], out: &mut Sink<W>) -> Result<(), Stop> {
        self.take_octets(Sender::Opener, octets, out)
    }

    /// Prints what was counted.
    pub fn end<W: Write>(&mut self, out: &mut Sink<W>) -> Result<(), Stop> {
        self.teller.counts.messages = self.trace.count();
        self.teller.counts.forgot = self.trace.forgot();
        let unanswered = self.trace.unanswered()?;
        self.teller.end(unanswered, out)
    }
}
