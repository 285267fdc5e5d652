//! The lines of what lies between messages.

use crate::left::Left;
use crate::looks::Looks;
use crate::page::Page;
use crate::places::put_head;
use crate::printing::{Endpoints, Printer, Spot};
use giop_link::LinkFault;

/// Appends the line of a connection.
pub(crate) fn put_connection(connection: u64, ends: &Endpoints, page: &mut Page) {
    page.number("connection ", connection, "");
    if let Some(stream) = ends.stream {
        page.number(", stream ", stream, "");
    }
    if let Some((opener, acceptor)) = ends.addresses() {
        page.put(", ");
        page.octets(opener);
        page.put(" > ");
        page.octets(acceptor);
    }
    page.put("\n");
}

/// Appends the line of a fault in the frame that begins at a place.
pub(crate) fn put_fault(
    printer: &Printer,
    spot: &Spot,
    at: u64,
    fault: LinkFault,
    looks: Option<Looks>,
    page: &mut Page,
) {
    put_head(printer, "fault", spot, page);
    page.number(" at ", at, ": ");
    page.show(&fault);
    if let Some(looks) = looks {
        page.put_all(&[", octets of ", looks.name()]);
    }
    page.put("\n");
}

/// What stands between where something is and how many octets it has.
fn between(spot: &Spot) -> &'static str {
    match spot.caught {
        Some(_) => ": ",
        None => " ",
    }
}

/// Appends the line of octets that the capture missed.
pub(crate) fn put_missing(printer: &Printer, spot: &Spot, octets: u64, page: &mut Page) {
    put_head(printer, "missing", spot, page);
    page.number(between(spot), octets, " octets\n");
}

/// Appends the line of a side that closed its connection, which captures tell that have times.
pub(crate) fn put_closed(printer: &Printer, spot: &Spot, by: &str, page: &mut Page) {
    if spot.caught.is_some() {
        put_head(printer, "closed", spot, page);
        page.put_all(&[": ", by, "\n"]);
    }
}

/// Appends the line of octets that were passed over.
fn put_passed(printer: &Printer, spot: &Spot, from: u64, octets: u64, page: &mut Page) {
    put_head(printer, "passed over", spot, page);
    page.number(" from ", from, "");
    page.number(": ", octets, " octets\n");
}

/// Appends the line of octets that are left of a frame, and of partial messages.
fn put_rest(printer: &Printer, spot: &Spot, octets: u64, partial: u64, page: &mut Page) {
    put_head(printer, "rest", spot, page);
    page.number(between(spot), octets, " octets of a frame, ");
    page.number("", partial, " of partial messages\n");
}

/// Appends the line of octets that were not read.
fn put_unread(printer: &Printer, spot: &Spot, octets: u64, page: &mut Page) {
    put_head(printer, "unread", spot, page);
    page.number(between(spot), octets, " octets; --resume reads on\n");
}

/// Appends the line of what is left of a side at the end of its connection, if something is.
pub(crate) fn put_left(printer: &Printer, spot: &Spot, left: Left, page: &mut Page) {
    match left {
        Left::Nothing => {}
        Left::Rest(octets, partial) => put_rest(printer, spot, octets, partial, page),
        Left::Passed(from, octets) => put_passed(printer, spot, from, octets, page),
        Left::Unread(octets) => put_unread(printer, spot, octets, page),
    }
}
