//! A client and a server over octets in memory: wherever the first connection is cut, the call acts once and is
//! completed once.

use crate::clients::{Done, add, client, completes, feed_in_pieces, join};
use crate::octets::{ADD_7, SEVEN, SEVEN_1};
use cdr_core::Order;
use counter::Counter;
use ft_client::FtClient;
use ft_log::Retention;
use ft_orb::Server;
use giop_frames::Limits;
use giop_run::CAPACITY;
use std::alloc::Global;
use std::hash::RandomState;
use std::process::Abort;
use std::test::Fail;

/// How many octets a piece has.
static SIZES: [usize; 3] = [1, 13, 4096];

/// A connection: its number, the moment of what comes on it, and how many octets a piece has at most.
#[derive(Clone, Copy)]
struct Way {
    connection: u64,
    now: u64,
    size: usize,
}

/// A client, and the server of a counter from 0.
#[derive(Drop)]
struct Ends {
    client: FtClient,
    server: Server<Counter>,
}

impl Ends {
    /// Without a connection.
    fn new(alloc: Global, hasher: RandomState) -> Result<Ends, Fail> {
        let counter = Counter::new(alloc, 0)?;
        let limits = Limits::default();
        let retention = Retention {
            capacity: CAPACITY,
            share: CAPACITY,
        };
        Ok(Ends {
            client: client(alloc)?,
            server: Server::new(alloc, counter, limits, retention, hasher),
        })
    }

    /// Connects both, and returns what the client writes.
    fn join(&mut self, alloc: Global, way: Way) -> Result<Vec<u8>, Fail> {
        self.server.connect(way.connection)?;
        join(alloc, &mut self.client, way.now)
    }

    /// Feeds the server, and returns what it writes.
    fn answer(&mut self, alloc: Global, way: Way, octets: &[u8]) -> Result<Vec<u8>, Fail> {
        let mut out = Vec::new(alloc);
        for piece in octets.chunks(way.size.max(1)) {
            self.server.feed(way.connection, way.now, piece, &mut out)?;
        }
        Ok(out)
    }

    /// Cuts a connection.
    fn part(&mut self, way: Way) {
        self.client.lost();
        self.server.lost(way.connection);
    }
}

/// How many octets of the request, and of the reply to it, come before the first connection is cut.
#[derive(Clone, Copy)]
struct Cut {
    request: usize,
    reply: usize,
}

/// The first octets, as many as that.
fn front(octets: &[u8], count: usize) -> &[u8] {
    octets.get(..count).unwrap_or(octets)
}

/// Calls `add` of 7 on a first connection, in pieces of as many octets, and loses it.
fn call_and_lose(alloc: Global, ends: &mut Ends, cut: Cut, size: usize) -> Result<(), Fail> {
    let way = Way {
        connection: 1,
        now: 50,
        size,
    };
    let mut request = ends.join(alloc, way)?;
    add(&mut ends.client, way.now, 7, &mut request)?;
    let reply = ends.answer(alloc, way, front(&request, cut.request))?;
    feed_in_pieces(&mut ends.client, front(&reply, cut.reply), size)?;
    ends.part(way);
    Ok(())
}

/// Connects again, and says whether the call was sent again.
fn call_again(alloc: Global, ends: &mut Ends, size: usize) -> Result<bool, Fail> {
    let way = Way {
        connection: 2,
        now: 60,
        size,
    };
    let again = ends.join(alloc, way)?;
    let reply = ends.answer(alloc, way, &again)?;
    feed_in_pieces(&mut ends.client, &reply, size)?;
    Ok(!again.is_empty())
}

/// Whether that call acts once and is completed once, and is sent again exactly where its reply did not come whole.
fn acts_once(alloc: Global, hasher: RandomState, cut: Cut, size: usize) -> Result<bool, Fail> {
    let mut ends = Ends::new(alloc, hasher)?;
    call_and_lose(alloc, &mut ends, cut, size)?;
    let is_again = call_again(alloc, &mut ends, size)? == (cut.reply < SEVEN_1.len());
    let is_completed = completes(&mut ends.client, &[(1, Done::Returned(Order::Big, SEVEN))]);
    Ok(is_again && is_completed && ends.server.servant().total() == 7)
}

/// Asserts that of a cut, in pieces of each size.
fn assert_acts_once(
    rt: &(impl Abort + AllocGlobal),
    hasher: RandomState,
    cut: Cut,
) -> Result<(), Fail> {
    for size in &SIZES {
        let holds = acts_once(rt.alloc(), hasher, cut, *size)?;
        assert!(rt; holds, "cut at {} and {} by {size}", cut.request, cut.reply);
    }
    Ok(())
}

#[test]
fn a_call_acts_once_wherever_its_request_is_cut(rt: HostRuntime) -> Result<(), Fail> {
    let hasher = RandomState::new(&rt)?;
    for request in 0..=ADD_7.len() {
        let cut = Cut { request, reply: 0 };
        assert_acts_once(&rt, hasher, cut)?;
    }
    Ok(())
}

#[test]
fn a_call_acts_once_wherever_its_reply_is_cut(rt: HostRuntime) -> Result<(), Fail> {
    let hasher = RandomState::new(&rt)?;
    let request = ADD_7.len();
    for reply in 0..=SEVEN_1.len() {
        let cut = Cut { request, reply };
        assert_acts_once(&rt, hasher, cut)?;
    }
    Ok(())
}
