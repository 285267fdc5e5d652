//! A schedule, played, and what is printed of it.

ghost use Rattle.std.specs.List.{AllByRecursion};
ghost use Rattle.ft_ends.specs.Playing.{IsCallable};

use crate::schedule::Terms;
use cdr_core::Order;
use counter::{Counter, Forwarding};
use ft_client::{Ended, FtClient, ReplyBody};
use ft_ends::{Step, both_ends};
use ft_log::Retention;
use ft_orb::{PlayError, Server};
use std::alloc::{AllocError, Global};
use std::hash::RandomState;
use std::io;
use std::io::Write;

/// Prints how a reply ended a call, with the order, the place and the octets of its body.
fn print_reply<W: Write>(name: &str, body: &ReplyBody, out: &mut W) -> io::Result<()> {
    let order = match body.order {
        Order::Big => "big",
        Order::Little => "little",
    };
    write!(out, "{name} {order} {} ", body.at)?;
    for octet in &body.octets {
        write!(out, "{octet:02x}")?;
    }
    writeln!(out)
}

/// Prints how a call ended.
fn print_ended<W: Write>(ended: &Ended, out: &mut W) -> io::Result<()> {
    match ended {
        Ended::Returned(body) => print_reply("returned", body, out),
        Ended::Raised(body) => print_reply("raised", body, out),
        Ended::System(body) => print_reply("system", body, out),
        Ended::Forwarded(body) => print_reply("forwarded", body, out),
        Ended::NeedsAddressing => writeln!(out, "needs_addressing"),
        Ended::Sent => writeln!(out, "sent"),
        Ended::Expired => writeln!(out, "expired"),
        Ended::Cancelled => writeln!(out, "cancelled"),
    }
}

/// Prints what completed: the client, the number of its call, and how that ended.
fn print_completions<W: Write>(completions: &[(u32, i32, Ended)], out: &mut W) -> io::Result<()> {
    for (client, number, ended) in completions {
        write!(out, "{client} {number} ")?;
        print_ended(ended, out)?;
    }
    Ok(())
}

/// Prints the counter's total, or after how many steps memory ran out, and `end`.
fn print_end<W: Write>(played: Result<(), PlayError>, total: i64, out: &mut W) -> io::Result<()> {
    match played {
        Ok(()) => writeln!(out, "total {total}")?,
        Err(PlayError::Memory { events }) => writeln!(out, "memory after {events} steps")?,
    }
    writeln!(out, "end")
}

/// What a schedule comes to.
#[derive(Drop)]
pub(crate) struct Played {
    completions: Vec<(u32, i32, Ended)>,
    played: Result<(), PlayError>,
    total: i64,
}

/// Prints what completed, the total or after how many steps memory ran out, and `end`.
pub(crate) fn print_played<W: Write>(played: &Played, out: &mut W) -> io::Result<()> {
    print_completions(&played.completions, out)?;
    print_end(played.played, played.total, out)
}

/// Plays the steps of a schedule, with its clients, on a new server.
pub(crate) fn play(
    alloc: Global,
    hasher: RandomState,
    terms: Terms,
    clients: &mut Vec<FtClient>,
    steps: &[Step],
) -> Result<Played, AllocError>
    requires { AllByRecursion IsCallable steps.now }
{
    let counter = Counter::new(alloc, terms.total)?;
    let retention = Retention {
        capacity: terms.capacity,
        share: terms.share,
    };
    let servant = Forwarding { counter };
    let mut server = Server::new(alloc, servant, terms.limits, retention, hasher);
    let mut completions = Vec::new(alloc);
    let played = both_ends(alloc, &mut server, clients, steps, &mut completions);
    Ok(Played {
        completions,
        played,
        total: server.servant().counter.total(),
    })
}
