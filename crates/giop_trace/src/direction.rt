//! One side's octets on a connection, as they are given to the trace: frame by frame, so that the place of a fault is
//! known, and reading can go on after it, or after octets that the capture missed. What is read is not held.

use crate::frames::Frames;
use crate::headers::{HEADER, header_in, is_cut, is_fragment, is_plausible};
use crate::steps::Step;
use crate::stop::Stop;
use giop_core::Header;
use giop_frames::{Limits, StreamFault};
use giop_lines::{Left, looks_of};
use giop_link::LinkFault;
use giop_tap::{Sender, Trace};
use std::alloc::{AllocError, Global};

/// What is done with a side's octets.
#[derive(Clone, Copy)]
enum Mode {
    /// The header of a frame is awaited.
    Header,
    /// The octets after a frame's header are read.
    Body,
    /// The octets of a frame are passed over.
    Skipping,
    /// A frame was passed over, and so is the next if it is a Fragment.
    Next,
    /// The next header of a plausible message is looked for.
    Seeking,
    /// There was a fault, and no more is read.
    Ended,
}

/// A side's octets.
#[derive(Drop)]
pub(crate) struct Direction {
    mode: Mode,
    /// Those that may be a header, and wait for the rest of it.
    head: Vec<u8>,
    /// The place where the frame begins, or what is passed over.
    start: u64,
    /// The place after what has come, those that the capture missed among them.
    taken: u64,
    /// How many octets of the frame are still to come, its header not counted.
    left: u64,
    /// How many octets since `start` were passed over, or how many have come since the direction ended.
    passed: u64,
    /// Whether Fragments whose message did not begin are passed over, as some beginnings were.
    forgives: bool,
    pub frames: Frames,
}

/// How the octets of a side are read.
#[derive(Clone, Copy)]
pub(crate) struct Reading {
    pub limits: Limits,
    /// After a fault reading goes on at the next header of a plausible message.
    pub resumes: bool,
}

/// So many octets of a frame, and of partial messages, if there are some.
fn rest_of(octets: u64, partial: u64) -> Left {
    match (octets, partial) {
        (0, 0) => Left::Nothing,
        _ => Left::Rest(octets, partial),
    }
}

impl Direction {
    /// A side of which nothing has come.
    pub fn new(alloc: Global) -> Direction {
        Direction {
            mode: Mode::Header,
            head: Vec::new(alloc),
            start: 0,
            taken: 0,
            left: 0,
            passed: 0,
            forgives: false,
            frames: Frames::new(alloc),
        }
    }

    /// The place after what has come.
    pub fn taken(&self) -> u64 {
        self.taken
    }

    /// Lets the stream begin anew.
    fn resume(&mut self, sender: Sender, trace: &mut Trace) {
        self.frames.clear();
        trace.resume(sender);
    }

    /// Counts octets as come.
    fn count(&mut self, octets: usize) {
        self.taken = self.taken.saturating_add(octets as u64);
    }

    /// Counts octets as passed over.
    fn pass(&mut self, octets: u64) {
        self.passed = self.passed.saturating_add(octets);
    }

    /// How many octets of the frame have come, its header among them.
    fn frame_given(&self) -> u64 {
        self.taken.saturating_sub(self.start)
    }

    /// Takes octets up to the end of a header, and returns how many. The header is whole where it has as many as one
    /// has then.
    fn fill(&mut self, piece: &[u8]) -> Result<usize, AllocError> {
        let wanted = Header::LEN.saturating_sub(self.head.len());
        let octets = piece.get(..wanted).unwrap_or(piece);
        self.head.extend_from_slice(octets)?;
        self.count(octets.len());
        Ok(octets.len())
    }

    /// Whether a whole header is held.
    fn has_header(&self) -> bool {
        self.head.len() >= Header::LEN
    }

    /// Whether a step is due before more octets come: a whole header is held that was not read.
    pub fn is_due(&self) -> bool {
        matches!(self.mode, Mode::Header) && self.head.len() >= Header::LEN
    }

    /// Goes on behind the frame.
    fn end_frame(&mut self) -> Result<(), AllocError> {
        self.mode = Mode::Header;
        self.start = self.taken;
        self.frames.end()
    }

    /// Passes over the frame whose header is held.
    fn skip_frame(&mut self) {
        self.left = match header_in(&self.head) {
            Some(header) => u64::from(header.size),
            None => 0,
        };
        self.pass(HEADER);
        self.head.clear();
        self.mode = if self.left == 0 {
            Mode::Next
        } else {
            Mode::Skipping
        };
    }

    /// What a fault of the header that is held does.
    fn fail_header(
        &mut self,
        sender: Sender,
        reading: Reading,
        fault: LinkFault,
        trace: &mut Trace,
    ) -> Step {
        let at = self.start;
        let looks = looks_of(&self.head);
        self.passed = 0;
        match fault {
            LinkFault::Stream(StreamFault::StrayFragment) if self.forgives => {
                self.resume(sender, trace);
                self.skip_frame();
                return Step::Idle;
            }
            LinkFault::Stream(StreamFault::UnalignedFragment) if is_cut(&self.head) => {
                self.resume(sender, trace);
                self.forgives = true;
                self.skip_frame();
            }
            _ if reading.resumes => self.mode = Mode::Seeking,
            _ => self.mode = Mode::Ended,
        }
        Step::Fault(at, fault, looks)
    }

    /// What a fault of the frame does whose octets have come.
    fn fail_frame(
        &mut self,
        sender: Sender,
        reading: Reading,
        fault: LinkFault,
        trace: &mut Trace,
    ) -> Step {
        let at = self.start;
        self.passed = 0;
        match fault {
            LinkFault::Stream(StreamFault::StrayFragment) if self.forgives => {
                self.resume(sender, trace);
                self.passed = self.frame_given();
                self.mode = Mode::Next;
                return Step::Idle;
            }
            _ if reading.resumes => {
                self.passed = self.frame_given();
                self.mode = Mode::Seeking;
            }
            _ => self.mode = Mode::Ended,
        }
        Step::Fault(at, fault, None)
    }

    /// Reads the header of a frame.
    fn read_header(
        &mut self,
        sender: Sender,
        reading: Reading,
        piece: &[u8],
        trace: &mut Trace,
    ) -> Result<(Step, usize), Stop> {
        let count = self.fill(piece)?;
        if !self.has_header() {
            return Ok((Step::Idle, count));
        }
        match trace.feed(sender, &self.head) {
            Ok(_) => {
                self.left = trace.left(sender);
                self.frames.begin(&self.head);
                self.head.clear();
                self.mode = Mode::Body;
                if self.left == 0 {
                    self.end_frame()?;
                }
                Ok((Step::Gave, count))
            }
            Err(LinkFault::Stream(StreamFault::Memory)) => Err(Stop::Memory),
            Err(fault) => Ok((self.fail_header(sender, reading, fault, trace), count)),
        }
    }

    /// As many of these octets as the frame still has.
    fn of_frame<'p>(&self, piece: &'p [u8]) -> &'p [u8] {
        if self.left < piece.len() as u64 {
            return piece.get(..self.left as usize).unwrap_or(piece);
        }
        piece
    }

    /// Reads octets after the header of a frame.
    fn read_body(
        &mut self,
        sender: Sender,
        reading: Reading,
        piece: &[u8],
        trace: &mut Trace,
    ) -> Result<(Step, usize), Stop> {
        let octets = self.of_frame(piece);
        let count = octets.len();
        if count == 0 {
            return Ok((Step::Idle, 0));
        }
        self.count(count);
        self.left = self.left.saturating_sub(count as u64);
        match trace.feed(sender, octets) {
            Ok(_) => {
                self.frames.take(octets)?;
                if self.left == 0 {
                    self.end_frame()?;
                }
                Ok((Step::Gave, count))
            }
            Err(LinkFault::Stream(StreamFault::Memory)) => Err(Stop::Memory),
            Err(fault) => Ok((self.fail_frame(sender, reading, fault, trace), count)),
        }
    }

    /// Passes over octets of a frame.
    fn skip(&mut self, piece: &[u8]) -> (Step, usize) {
        let count = self.of_frame(piece).len();
        self.count(count);
        self.pass(count as u64);
        self.left = self.left.saturating_sub(count as u64);
        if self.left == 0 {
            self.mode = Mode::Next;
        }
        (Step::Idle, count)
    }

    /// Reads on behind what was passed over, where the header that is held begins.
    fn go_on(&mut self) -> Step {
        let step = match self.passed {
            0 => Step::Idle,
            octets => Step::Passed(self.start, octets),
        };
        self.mode = Mode::Header;
        self.start = self.taken.saturating_sub(self.head.len() as u64);
        self.passed = 0;
        step
    }

    /// Looks whether the frame behind one that was passed over is a Fragment, and passes over it too.
    fn skip_on(&mut self, piece: &[u8]) -> Result<(Step, usize), Stop> {
        let count = self.fill(piece)?;
        if !self.has_header() {
            return Ok((Step::Idle, count));
        }
        if is_fragment(&self.head) {
            self.skip_frame();
            return Ok((Step::Idle, count));
        }
        Ok((self.go_on(), count))
    }

    /// Looks for the next header of a plausible message.
    fn seek(
        &mut self,
        sender: Sender,
        limit: u32,
        piece: &[u8],
        trace: &mut Trace,
    ) -> Result<(Step, usize), Stop> {
        let mut count = 0usize;
        for octet in piece {
            if self.head.len() >= Header::LEN {
                self.head.remove(0);
                self.pass(1);
            }
            self.head.push(*octet)?;
            self.count(1);
            count = count.saturating_add(1);
            if is_plausible(&self.head, limit) {
                self.resume(sender, trace);
                return Ok((self.go_on(), count));
            }
        }
        Ok((Step::Idle, count))
    }

    /// Takes a step with octets that have come, and returns how many of them it took.
    pub fn step(
        &mut self,
        sender: Sender,
        reading: Reading,
        piece: &[u8],
        trace: &mut Trace,
    ) -> Result<(Step, usize), Stop> {
        match self.mode {
            Mode::Header => self.read_header(sender, reading, piece, trace),
            Mode::Body => self.read_body(sender, reading, piece, trace),
            Mode::Skipping => Ok(self.skip(piece)),
            Mode::Next => self.skip_on(piece),
            Mode::Seeking => self.seek(sender, reading.limits.message, piece, trace),
            Mode::Ended => {
                self.count(piece.len());
                self.pass(piece.len() as u64);
                Ok((Step::Idle, piece.len()))
            }
        }
    }

    /// Leaves so many octets out, which the capture missed. The message that they fall into ends there; reading goes on
    /// behind its frame where that is known, and else at the next header of a plausible message.
    pub fn miss(&mut self, sender: Sender, octets: u64, trace: &mut Trace) {
        if let Mode::Ended = self.mode {
            self.taken = self.taken.saturating_add(octets);
            return;
        }
        let held = self.head.len() as u64;
        match self.mode {
            Mode::Body => self.passed = self.frame_given(),
            _ => self.pass(held),
        }
        self.head.clear();
        let is_within = matches!(self.mode, Mode::Body | Mode::Skipping) && octets <= self.left;
        self.left = self.left.saturating_sub(octets);
        self.mode = match is_within {
            false => Mode::Seeking,
            true if self.left == 0 => Mode::Next,
            true => Mode::Skipping,
        };
        self.taken = self.taken.saturating_add(octets);
        self.forgives = true;
        self.resume(sender, trace);
    }

    /// What is left at the end of the connection.
    pub fn left(&self, sender: Sender, trace: &mut Trace) -> Left {
        // no message is lent any more, and so none is held
        let _ = trace.feed(sender, &[]);
        let head = self.head.len() as u64;
        match self.mode {
            Mode::Ended if self.passed == 0 => Left::Nothing,
            Mode::Ended => Left::Unread(self.passed),
            Mode::Skipping | Mode::Next | Mode::Seeking if self.passed == 0 && head == 0 =>
                Left::Nothing,
            Mode::Skipping | Mode::Next | Mode::Seeking => {
                Left::Passed(self.start, self.passed.saturating_add(head))
            }
            Mode::Header => rest_of(head, trace.held(sender) as u64),
            Mode::Body => {
                let octets = self.frame_given();
                let held = trace.held(sender) as u64;
                rest_of(octets, held.saturating_sub(octets))
            }
        }
    }
}
