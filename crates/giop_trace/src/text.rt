//! The connections in what tshark prints, line by line, each handed on as soon as it is its turn.

use crate::block::{Block, Piece};
use crate::follow::{Line, LineError, line_of};
use crate::notes::{Note, first_line, is_dump, is_silent, missing_in, note_of};
use crate::packets::Packets;
use crate::session::Session;
use crate::sink::Sink;
use crate::stop::Stop;
use crate::yaml::is_yaml;
use giop_lines::Endpoints;
use giop_tap::Sender;
use std::alloc::Global;
use std::collections::BTreeMap;
use std::io::Write;
use std::mem;

/// What was found in the lines so far.
#[derive(Clone, Copy, PartialEq, Eq)]
enum Found {
    /// No line that says anything.
    Nothing,
    /// The head of a connection, or octets.
    Connections,
    /// Lines as of a dump of packets.
    Dump,
    /// Other text.
    Text,
}

/// The connections in lines, as far as they have come.
///
/// tshark prints several streams in one run the last first. So one whose number is not the next is held until those
/// before it have come, the lines end, or too much is held: then the one with the lowest number is the next.
#[derive(Drop)]
pub(crate) struct Text {
    alloc: Global,
    /// The line that has not ended.
    line: Vec<u8>,
    /// The number of that line, from 1.
    number: u64,
    found: Found,
    /// The packets, where the lines have those.
    packets: Option<Packets>,
    block: Option<Block>,
    /// Those that wait for their turn, by their streams and the order in which they came.
    waiting: BTreeMap<(u64, u64), Block>,
    /// The stream whose turn it is.
    next: u64,
    /// How many octets of memory those that wait take, about.
    held: u64,
}

/// So many octets of memory are taken at most by those that wait for their turn.
const MOST_WAITING: u64 = 67_108_864;

/// What a line without octets shows.
fn found_in(line: &[u8]) -> Found {
    if is_silent(line) {
        return Found::Nothing;
    }
    if is_dump(line) {
        Found::Dump
    } else {
        Found::Text
    }
}

/// Hands on what is held of a connection, and its line before it.
fn hand_on<W: Write>(
    block: &mut Block,
    session: &mut Session,
    out: &mut Sink<W>,
) -> Result<(), Stop> {
    if !block.is_traced {
        block.decide();
        block.is_traced = true;
        let (opener, acceptor) = block.ends();
        let ends = Endpoints {
            stream: block.stream,
            opener,
            acceptor,
        };
        session.begin(&ends, None, out)?;
    }
    for (sender, _, piece) in &block.pieces {
        session.take(block.side_of(*sender), piece, out)?;
    }
    block.pieces.clear();
    Ok(())
}

/// Hands it on, and ends it.
fn hand_on_whole<W: Write>(
    block: &mut Block,
    session: &mut Session,
    out: &mut Sink<W>,
) -> Result<(), Stop> {
    hand_on(block, session, out)?;
    session.end_connection(out)
}

impl Text {
    /// Before the first line.
    pub fn new(alloc: Global) -> Text {
        Text {
            alloc,
            line: Vec::new(alloc),
            number: 1,
            found: Found::Nothing,
            packets: None,
            block: None,
            waiting: BTreeMap::new(alloc),
            next: 0,
            held: 0,
        }
    }

    /// Hands on those whose turn it is.
    fn hand_on_next<W: Write>(
        &mut self,
        is_end: bool,
        session: &mut Session,
        out: &mut Sink<W>,
    ) -> Result<(), Stop> {
        for _ in 0..u64::MAX {
            let Some((key, _)) = self.waiting.first_key_value() else {
                break;
            };
            if key.0 > self.next && !is_end {
                break;
            }
            let Some((key, block)) = self.waiting.pop_first() else {
                break;
            };
            self.hand_on_waiting(key.0, block, session, out)?;
        }
        Ok(())
    }

    /// Hands on one whose turn it is.
    fn hand_on_waiting<W: Write>(
        &mut self,
        stream: u64,
        mut block: Block,
        session: &mut Session,
        out: &mut Sink<W>,
    ) -> Result<(), Stop> {
        self.held = self.held.saturating_sub(block.held);
        self.next = stream.saturating_add(1);
        hand_on_whole(&mut block, session, out)
    }

    /// Holds a connection until its turn.
    fn keep(&mut self, stream: u64, block: Block) -> Result<(), Stop> {
        self.held = self.held.saturating_add(block.held);
        self.waiting.insert((stream, self.number), block)?;
        Ok(())
    }

    /// Where those that wait take too much with this one, lets it be the turn of the one with the lowest number.
    fn make_room<W: Write>(
        &mut self,
        stream: u64,
        held: u64,
        session: &mut Session,
        out: &mut Sink<W>,
    ) -> Result<(), Stop> {
        if self.held.saturating_add(held) <= MOST_WAITING {
            return Ok(());
        }
        match self.waiting.first_key_value() {
            Some((key, _)) if key.0 <= stream => self.next = key.0,
            _ => {
                self.next = stream;
                return Ok(());
            }
        }
        self.hand_on_next(false, session, out)
    }

    /// Ends the connection, if there is one.
    fn end_block<W: Write>(
        &mut self,
        session: &mut Session,
        out: &mut Sink<W>,
    ) -> Result<(), Stop> {
        match self.block.take() {
            Some(block) if block.is_absent() => Err(Stop::NoStream(self.number)),
            Some(block) if block.is_behind(self.next) => self.put_behind(block, session, out),
            Some(mut block) => self.hand_on_now(&mut block, session, out),
            None => Ok(()),
        }
    }

    /// Holds a connection that has ended, and makes room for it.
    fn put_behind<W: Write>(
        &mut self,
        block: Block,
        session: &mut Session,
        out: &mut Sink<W>,
    ) -> Result<(), Stop> {
        self.keep(block.stream.unwrap_or(0), block)?;
        self.make_room(u64::MAX, 0, session, out)
    }

    /// Hands on a connection that has ended, and those behind it.
    fn hand_on_now<W: Write>(
        &mut self,
        block: &mut Block,
        session: &mut Session,
        out: &mut Sink<W>,
    ) -> Result<(), Stop> {
        hand_on_whole(block, session, out)?;
        if let Some(stream) = block.stream {
            self.next = self.next.max(stream.saturating_add(1));
        }
        self.hand_on_next(false, session, out)
    }

    /// Takes what a line gives of a side.
    fn take_piece<W: Write>(
        &mut self,
        sender: Sender,
        piece: Piece,
        session: &mut Session,
        out: &mut Sink<W>,
    ) -> Result<(), Stop> {
        self.found = Found::Connections;
        let mut block = match self.block.take() {
            Some(block) => block,
            None => Block::new(self.alloc),
        };
        let came = self.give(&mut block, sender, piece, session, out);
        self.block = Some(block);
        came
    }

    /// Hands on what a line gives, or holds it.
    fn give<W: Write>(
        &mut self,
        block: &mut Block,
        sender: Sender,
        piece: Piece,
        session: &mut Session,
        out: &mut Sink<W>,
    ) -> Result<(), Stop> {
        if block.is_traced {
            return session.take(block.side_of(sender), &piece, out);
        }
        block.hold(sender, None, piece)?;
        if block.is_behind(self.next) {
            self.make_room(block.stream.unwrap_or(0), block.held, session, out)?;
        }
        if block.is_behind(self.next) || !block.is_known() {
            return Ok(());
        }
        hand_on(block, session, out)
    }

    /// Takes what a line says beside octets.
    fn take_note<W: Write>(
        &mut self,
        note: Note,
        session: &mut Session,
        out: &mut Sink<W>,
    ) -> Result<(), Stop> {
        if let Note::Head(form) = note {
            self.end_block(session, out)?;
            self.found = Found::Connections;
            self.block = Some(Block::new(self.alloc));
            return if form.ends_with(b"raw") {
                Ok(())
            } else {
                Err(Stop::Form(self.number))
            };
        }
        match (note, &mut self.block) {
            (Note::Stream(stream), Some(block)) => block.set_stream(stream),
            (Note::Node(is_second, address), Some(block)) => block.set_node(is_second, address)?,
            _ => {}
        }
        Ok(())
    }

    /// Why a line of this number is refused.
    fn stop_at(&self, error: LineError) -> Stop {
        match error {
            LineError::OddDigits => Stop::OddDigits(self.number),
            LineError::Colons => Stop::Colons(self.number),
            LineError::Memory => Stop::Memory,
        }
    }

    /// Takes a line of any kind.
    fn take_line<W: Write>(
        &mut self,
        line: &[u8],
        session: &mut Session,
        out: &mut Sink<W>,
    ) -> Result<(), Stop> {
        if self.found != Found::Connections && self.packets.is_none() && is_yaml(line) {
            self.packets = Some(Packets::new(self.alloc));
        }
        match &mut self.packets {
            Some(packets) => packets.take_line(line, self.number, session, out),
            None => self.take_raw_line(line, session, out),
        }
    }

    /// Takes a line of octets of a side, or what stands around those.
    fn take_raw_line<W: Write>(
        &mut self,
        line: &[u8],
        session: &mut Session,
        out: &mut Sink<W>,
    ) -> Result<(), Stop> {
        if let Some(note) = note_of(line) {
            return self.take_note(note, session, out);
        }
        match line_of(self.alloc, line) {
            Ok(Line::Gives(sender, octets)) => {
                let piece = match missing_in(&octets) {
                    Some(count) => Piece::Missing(count),
                    None => Piece::Octets(octets),
                };
                self.take_piece(sender, piece, session, out)
            }
            Ok(Line::Head) => self.take_note(Note::Head(b"raw"), session, out),
            Ok(Line::Other) => {
                if self.found == Found::Nothing {
                    self.found = found_in(line);
                }
                Ok(())
            }
            Err(error) => Err(self.stop_at(error)),
        }
    }

    /// Takes the line that has ended, of which these octets are the last.
    fn end_line<W: Write>(
        &mut self,
        last: &[u8],
        session: &mut Session,
        out: &mut Sink<W>,
    ) -> Result<(), Stop> {
        if self.line.is_empty() {
            return self.take_line(last, session, out);
        }
        self.line.extend_from_slice(last)?;
        let none = Vec::new(self.alloc);
        let mut line = mem::replace(&mut self.line, none);
        let came = self.take_line(&line, session, out);
        line.clear();
        self.line = line;
        came
    }

    /// Takes octets of the lines.
    pub fn take<W: Write>(
        &mut self,
        octets: &[u8],
        session: &mut Session,
        out: &mut Sink<W>,
    ) -> Result<(), Stop> {
        let mut left = octets;
        for _ in 0..u64::MAX {
            let Some((line, rest)) = first_line(left) else {
                break;
            };
            self.end_line(line, session, out)?;
            if rest.starts_with(b"\n") {
                self.number = self.number.saturating_add(1);
            }
            left = rest.get(1..).unwrap_or(&[]);
        }
        self.line.extend_from_slice(left)?;
        Ok(())
    }

    /// Ends the lines.
    pub fn end<W: Write>(&mut self, session: &mut Session, out: &mut Sink<W>) -> Result<(), Stop> {
        self.end_line(&[], session, out)?;
        if let Some(packets) = &mut self.packets {
            return packets.end(session, out);
        }
        self.end_block(session, out)?;
        self.hand_on_next(true, session, out)?;
        match self.found {
            Found::Dump => Err(Stop::Dump),
            Found::Text => Err(Stop::Text),
            Found::Nothing | Found::Connections => Ok(()),
        }
    }
}
