//! The connections in packets, as they come: all that a capture has of both sides, by turns.

use crate::coming::Coming;
use crate::item::{Given, Item};
use crate::session::Session;
use crate::sink::Sink;
use crate::stop::Stop;
use crate::yaml::{YamlLine, yaml_line};
use giop_tap::Sender;
use std::alloc::Global;
use std::collections::BTreeMap;
use std::io::Write;

/// The connections in packets, as far as they have come.
///
/// `giop-capture` gives packets in their order, with the number of the stream of each: they are traced at once. tshark
/// gives one stream after another: all packets are held, up to 64 MiB of memory, and traced in the order of their numbers.
#[derive(Drop)]
pub(crate) struct Packets {
    alloc: Global,
    /// The connections by the numbers of their streams, or where these are not told by the order in which they came.
    coming: BTreeMap<u64, Coming>,
    /// The key of the connection that came last, and the greatest so far.
    last: u64,
    greatest: Option<u64>,
    /// The number of the stream that was told for the next connection.
    told: Option<u64>,
    /// The end that is told of.
    peer: Sender,
    item: Option<Item>,
    /// What is held, by the numbers of the packets and the order in which it came.
    held: BTreeMap<(u64, u64), Given>,
    /// How many octets of memory that takes, about, and how much was held so far.
    octets: u64,
    arrivals: u64,
}

/// So many octets of memory are taken at most by packets that are held.
const MOST_HELD: u64 = 67_108_864;

/// So many connections are followed at a time at most.
const MOST_CONNECTIONS: usize = 65_536;

/// Ends a connection at the end of the lines.
fn end_coming<W: Write>(
    mut coming: Coming,
    session: &mut Session,
    out: &mut Sink<W>,
) -> Result<(), Stop> {
    match coming.block.is_absent() {
        true => Err(Stop::Absent),
        false => coming.end(session, out),
    }
}

impl Packets {
    /// Before the first line.
    pub fn new(alloc: Global) -> Packets {
        Packets {
            alloc,
            coming: BTreeMap::new(alloc),
            last: 0,
            greatest: None,
            told: None,
            peer: Sender::Opener,
            item: None,
            held: BTreeMap::new(alloc),
            octets: 0,
            arrivals: 0,
        }
    }

    /// Traces what a packet gives. That of a connection that has ended is left out.
    fn trace<W: Write>(
        &mut self,
        given: Given,
        session: &mut Session,
        out: &mut Sink<W>,
    ) -> Result<(), Stop> {
        let key = given.key;
        let Some(coming) = self.coming.get_mut(&key) else {
            return Ok(());
        };
        coming.take(given, session, out)?;
        if coming.is_done() {
            coming.end(session, out)?;
            self.coming.remove(&key);
        }
        Ok(())
    }

    /// Traces what is held, from the packet with the lowest number on, until it takes no more than so much memory.
    fn release<W: Write>(
        &mut self,
        most: u64,
        session: &mut Session,
        out: &mut Sink<W>,
    ) -> Result<(), Stop> {
        for _ in 0..u64::MAX {
            if self.octets <= most {
                break;
            }
            let Some((_, given)) = self.held.pop_first() else {
                break;
            };
            self.octets = self.octets.saturating_sub(given.piece.size());
            self.trace(given, session, out)?;
        }
        Ok(())
    }

    /// Holds what a packet gives until its turn.
    fn hold(&mut self, given: Given) -> Result<(), Stop> {
        let Some(coming) = self.coming.get_mut(&given.key) else {
            return Ok(());
        };
        coming.order = coming.order.max(given.stamp.frame);
        let key = (coming.order, self.arrivals);
        self.arrivals = self.arrivals.saturating_add(1);
        self.octets = self.octets.saturating_add(given.piece.size());
        self.held.insert(key, given)?;
        Ok(())
    }

    /// Takes the packet whose lines have come.
    fn end_item<W: Write>(&mut self, session: &mut Session, out: &mut Sink<W>) -> Result<(), Stop> {
        match self.item.take() {
            Some(item) => self.take_item(&item, session, out),
            None => Ok(()),
        }
    }

    /// Takes such a packet.
    fn take_item<W: Write>(
        &mut self,
        item: &Item,
        session: &mut Session,
        out: &mut Sink<W>,
    ) -> Result<(), Stop> {
        let given = item.given(self.alloc)?;
        match self.is_told(given.key) {
            Some(true) => self.trace(given, session, out),
            Some(false) => self.hold_on(given, session, out),
            None => Err(Stop::Yaml(item.line)),
        }
    }

    /// Whether the packets of a connection are told with the number of its stream. None: no such one has come.
    fn is_told(&self, key: u64) -> Option<bool> {
        match self.coming.get(&key) {
            Some(coming) => Some(coming.block.stream.is_some()),
            None if Some(key) <= self.greatest => Some(true),
            None => None,
        }
    }

    /// Holds what a packet gives, and makes room for it.
    fn hold_on<W: Write>(
        &mut self,
        given: Given,
        session: &mut Session,
        out: &mut Sink<W>,
    ) -> Result<(), Stop> {
        self.hold(given)?;
        self.release(MOST_HELD, session, out)
    }

    /// Ends the connection of a key, if there is one.
    fn end_earlier<W: Write>(
        &mut self,
        key: u64,
        session: &mut Session,
        out: &mut Sink<W>,
    ) -> Result<(), Stop> {
        match self.coming.remove(&key) {
            Some(mut earlier) => earlier.end(session, out),
            None => Ok(()),
        }
    }

    /// Begins the next connection.
    fn begin<W: Write>(
        &mut self,
        line: u64,
        session: &mut Session,
        out: &mut Sink<W>,
    ) -> Result<(), Stop> {
        let told = self.told.take();
        let key = match told {
            Some(stream) => stream,
            None => self.last.saturating_add(1),
        };
        self.end_earlier(key, session, out)?;
        if self.coming.len() >= MOST_CONNECTIONS {
            return Err(Stop::Connections(line));
        }
        self.last = key;
        self.greatest = self.greatest.max(Some(key));
        self.coming.insert(key, Coming::new(self.alloc, told))?;
        Ok(())
    }

    /// Takes a part of the address of an end.
    fn take_address(&mut self, is_port: bool, part: &[u8], line: u64) -> Result<(), Stop> {
        match self.coming.get_mut(&self.last) {
            Some(coming) => Ok(coming.block.add_to_node(self.peer, is_port, part)?),
            None => Err(Stop::Yaml(line)),
        }
    }

    /// Takes a line of a packet.
    fn take_part(&mut self, part: YamlLine, line: u64) -> Result<(), Stop> {
        let Some(item) = &mut self.item else {
            return Err(Stop::Yaml(line));
        };
        match part {
            YamlLine::PacketStream(stream) => item.key = stream,
            YamlLine::Side(sender) => item.sender = Some(sender),
            YamlLine::Time(time) => item.time = time,
            YamlLine::Missing(octets) => item.missing = Some(octets),
            YamlLine::Closed(closing) => item.closing = Some(closing),
            YamlLine::Data(digits) | YamlLine::Digits(digits) => {
                item.digits.extend_from_slice(digits.trim_ascii())?
            }
            _ => {}
        }
        Ok(())
    }

    /// Takes a line of a number.
    pub fn take_line<W: Write>(
        &mut self,
        line: &[u8],
        number: u64,
        session: &mut Session,
        out: &mut Sink<W>,
    ) -> Result<(), Stop> {
        match yaml_line(line) {
            YamlLine::Peers => {
                self.end_item(session, out)?;
                self.begin(number, session, out)
            }
            YamlLine::Stream(stream) => {
                self.end_item(session, out)?;
                self.told = Some(stream);
                Ok(())
            }
            YamlLine::Packet(packet) => {
                self.end_item(session, out)?;
                self.item = Some(Item::new(self.alloc, packet, self.last, number));
                Ok(())
            }
            YamlLine::Peer(sender) => {
                self.peer = sender;
                Ok(())
            }
            YamlLine::Host(host) => self.take_address(false, host, number),
            YamlLine::Port(port) => self.take_address(true, port, number),
            YamlLine::Other => Ok(()),
            YamlLine::Bad => Err(Stop::Yaml(number)),
            part => self.take_part(part, number),
        }
    }

    /// Ends the lines.
    pub fn end<W: Write>(&mut self, session: &mut Session, out: &mut Sink<W>) -> Result<(), Stop> {
        self.end_item(session, out)?;
        self.release(0, session, out)?;
        for _ in 0..u64::MAX {
            let Some((_, coming)) = self.coming.pop_first() else {
                break;
            };
            end_coming(coming, session, out)?;
        }
        Ok(())
    }
}
