//! When, in which packet and on which connection something came, and from whom to whom.

use crate::caught::Caught;
use crate::moments::moment_of;
use crate::page::Page;
use crate::printing::{Printer, Spot};
use giop_tap::Sender;

/// Appends a span of nanoseconds in seconds, down to a microsecond.
pub(crate) fn put_seconds(nanoseconds: u64, page: &mut Page) {
    let seconds = nanoseconds / 1_000_000_000;
    let rest = nanoseconds % 1_000_000_000 / 1_000;
    let came = write!(page.text, "{seconds}.{rest:06}");
    page.note(came);
}

/// Appends when something came: since the beginning, or the time of UTC; a dash where it is not known.
fn put_time(is_clock: bool, caught: &Caught, page: &mut Page) {
    if is_clock {
        return match caught.stamp.time.and_then(moment_of) {
            Some(time) => page.show(&time),
            None => page.put("-"),
        };
    }
    match caught.since() {
        Some(since) => put_seconds(since, page),
        None => page.put("-"),
    }
}

/// Appends an address, or a question mark where it is not known.
fn put_address(address: &[u8], page: &mut Page) {
    match address {
        [] => page.put("?"),
        _ => page.octets(address),
    }
}

/// Appends when, in which packet and on which connection something came, and from whom to whom.
pub(crate) fn put_place(
    printer: &Printer,
    caught: &Caught,
    connection: u64,
    sender: Sender,
    page: &mut Page,
) {
    put_time(printer.is_clock, caught, page);
    page.number(" frame ", caught.stamp.frame, "");
    page.number(" connection ", connection, " ");
    let (from, to) = caught.sent_between(sender);
    put_address(from, page);
    page.put(" > ");
    put_address(to, page);
}

/// Appends the name of what happened that is no message, and where.
pub(crate) fn put_head(printer: &Printer, name: &str, spot: &Spot, page: &mut Page) {
    page.put_all(&[name, " "]);
    match &spot.caught {
        Some(caught) => put_place(printer, caught, spot.connection, spot.sender, page),
        None => page.show(&spot.sender),
    }
}
