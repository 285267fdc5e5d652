//! The lines of a trace, for a person or as JSON.

use crate::caught::{Caught, Stamp};
use crate::colours::{Tone, coloured, tone_of};
use crate::counts::Counts;
use crate::left::Left;
use crate::looks::Looks;
use crate::objects::Objects;
use crate::page::Page;
use crate::shown::Shown;
use crate::summary::Summary;
use crate::{end_lines, json, lines, reports, side_lines, summaries};
use giop_link::LinkFault;
use giop_tap::Sender;
use std::alloc::{AllocError, Global};

/// In which form lines are printed.
#[derive(Clone, Copy)]
pub enum Format {
    /// Lines that a person reads.
    Lines,
    /// An object of JSON a line.
    Json,
}

/// What is known of a connection beside its octets.
#[derive(Clone, Copy)]
pub struct Endpoints<'t> {
    /// The number of its stream in the capture.
    pub stream: Option<u64>,
    /// The address of the side that opened it; empty where it is not known.
    pub opener: &'t [u8],
    /// That of the other.
    pub acceptor: &'t [u8],
}

impl Endpoints<'_> {
    /// Both addresses, where they are known.
    pub fn addresses(&self) -> Option<(&[u8], &[u8])> {
        if self.opener.is_empty() || self.acceptor.is_empty() {
            return None;
        }
        Some((self.opener, self.acceptor))
    }
}

/// A side of a connection in a line, and what a capture tells of it, where it tells more than octets.
#[derive(Clone, Copy)]
pub struct Spot<'t> {
    pub connection: u64,
    pub sender: Sender,
    pub caught: Option<Caught<'t>>,
}

impl Spot<'_> {
    /// The packet of what is said there, where packets are known.
    pub(crate) fn stamp(&self) -> Option<Stamp> {
        match &self.caught {
            Some(caught) => Some(caught.stamp),
            None => None,
        }
    }
}

/// How a side closed its connection, as TCP has it (RFC 9293, 3.6 and 3.5.3).
#[derive(Clone, Copy)]
pub enum Closing {
    /// It sends no more.
    Fin,
    /// The connection is no more.
    Reset,
}

impl Closing {
    /// Its name in TCP.
    pub fn name(self) -> &'static str {
        match self {
            Closing::Fin => "FIN",
            Closing::Reset => "RST",
        }
    }
}

/// The lines in a form.
#[derive(Clone, Copy)]
pub struct Printer {
    pub alloc: Global,
    pub format: Format,
    /// Of a capture that tells times: whether bodies are printed, and contexts' octets.
    pub has_bodies: bool,
    /// Of such a capture: whether times are those of the day in UTC, and not since the beginning.
    pub is_clock: bool,
    /// Whether lines that a person reads have colours.
    pub is_coloured: bool,
}

impl Printer {
    /// A text in the colour of its tone, where lines have colours.
    fn in_colour(&self, tone: Tone, text: String) -> Result<String, AllocError> {
        match self.format {
            Format::Lines if self.is_coloured => coloured(self.alloc, tone, &text),
            _ => Ok(text),
        }
    }

    /// A text that was made, in the colour of its tone.
    fn made(&self, tone: Tone, page: Page) -> Result<String, AllocError> {
        let text = page.finish()?;
        self.in_colour(tone, text)
    }

    /// The same behind the lines of the objects that have their letter from it.
    fn made_behind(
        &self,
        tone: Tone,
        page: Page,
        objects: &mut Objects,
    ) -> Result<String, AllocError> {
        let text = page.finish()?;
        match self.format {
            Format::Lines => self.in_colour(tone, objects.behind_fresh(text)?),
            Format::Json => Ok(text),
        }
    }

    /// What stands before all lines of a capture that tells times.
    pub fn head(&self) -> Result<String, AllocError> {
        let mut page = Page::new(self.alloc);
        if let Format::Json = self.format {
            reports::put_version(&mut page);
        }
        page.finish()
    }

    /// The line of a connection.
    pub fn connection(
        &self,
        connection: u64,
        ends: &Endpoints,
        stamp: Option<Stamp>,
    ) -> Result<String, AllocError> {
        let mut page = Page::new(self.alloc);
        match self.format {
            Format::Lines => side_lines::put_connection(connection, ends, &mut page),
            Format::Json => reports::put_connection(connection, ends, stamp, &mut page),
        }
        self.made(Tone::Frame, page)
    }

    /// The lines of a message. `objects` has the letters of object keys.
    pub fn message(
        &self,
        shown: Shown,
        caught: Option<&Caught>,
        objects: &mut Objects,
    ) -> Result<String, AllocError> {
        let mut page = Page::of_message(self.alloc);
        let tone = tone_of(&shown);
        match self.format {
            Format::Lines => lines::put_message(self, shown, caught, objects, &mut page),
            Format::Json => json::put_message(self, shown, caught, objects, &mut page),
        }
        self.made_behind(tone, page, objects)
    }

    /// The line of a fault.
    pub fn fault(
        &self,
        spot: &Spot,
        at: u64,
        fault: LinkFault,
        looks: Option<Looks>,
    ) -> Result<String, AllocError> {
        let mut page = Page::new(self.alloc);
        match self.format {
            Format::Lines => side_lines::put_fault(self, spot, at, fault, looks, &mut page),
            Format::Json => reports::put_fault(spot, at, fault, looks, &mut page),
        }
        self.made(Tone::Fault, page)
    }

    /// The line of octets that were passed over.
    pub fn passed(&self, spot: &Spot, from: u64, octets: u64) -> Result<String, AllocError> {
        self.left(spot, Left::Passed(from, octets))
    }

    /// The line of octets that the capture missed.
    pub fn missing(&self, spot: &Spot, octets: u64) -> Result<String, AllocError> {
        let mut page = Page::new(self.alloc);
        match self.format {
            Format::Lines => side_lines::put_missing(self, spot, octets, &mut page),
            Format::Json => reports::put_missing(spot, octets, &mut page),
        }
        self.made(Tone::Fault, page)
    }

    /// The line of a side that closed its connection.
    pub fn closed(&self, spot: &Spot, closing: Closing) -> Result<String, AllocError> {
        let mut page = Page::new(self.alloc);
        match self.format {
            Format::Lines => side_lines::put_closed(self, spot, closing.name(), &mut page),
            Format::Json => reports::put_closed(spot, closing.name(), &mut page),
        }
        let tone = match closing {
            Closing::Fin => Tone::Frame,
            Closing::Reset => Tone::Fault,
        };
        self.made(tone, page)
    }

    /// The line of what is left of a side, if something is.
    pub fn left(&self, spot: &Spot, left: Left) -> Result<String, AllocError> {
        let mut page = Page::new(self.alloc);
        match self.format {
            Format::Lines => side_lines::put_left(self, spot, left, &mut page),
            Format::Json => reports::put_left(spot, left, &mut page),
        }
        self.made(Tone::Fault, page)
    }

    /// The lines of a summary.
    pub fn summary(&self, summary: &Summary, objects: &mut Objects) -> Result<String, AllocError> {
        let mut page = Page::new(self.alloc);
        summaries::put_summary(self, summary, objects, &mut page);
        self.made_behind(Tone::Plain, page, objects)
    }

    /// The lines at the end.
    pub fn counts(&self, counts: &Counts) -> Result<String, AllocError> {
        let mut page = Page::new(self.alloc);
        match self.format {
            Format::Lines => end_lines::put_counts(counts, &mut page),
            Format::Json => reports::put_counts(counts, &mut page),
        }
        page.finish()
    }
}
