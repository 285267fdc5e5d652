//! The lines beside those of messages as JSON, an object each.

use crate::caught::Stamp;
use crate::counts::Counts;
use crate::fields::Value;
use crate::left::Left;
use crate::looks::Looks;
use crate::moments::moment_of;
use crate::page::Page;
use crate::printing::{Endpoints, Spot};
use giop_link::LinkFault;
use giop_tap::Sender;

/// The form of the lines, which changes where a line is read otherwise than before.
const FORM: u64 = 1;

/// A count, where something is counted.
fn count_value<'v>(count: u64) -> Value<'v> {
    match count {
        0 => Value::Absent,
        _ => Value::Number(count),
    }
}

/// The name of a direction.
pub(crate) fn direction_name(sender: Sender) -> &'static str {
    match sender {
        Sender::Opener => "opener",
        Sender::Acceptor => "acceptor",
    }
}

/// A time in nanoseconds since 1970; where it is not known null, or nothing.
pub(crate) fn time_value<'v>(time: Option<u64>, is_null: bool) -> Value<'v> {
    match time.and_then(moment_of) {
        Some(time) => Value::Time(time),
        None => Value::lacking(is_null),
    }
}

/// The packet and the time of a line; where they are not known null, or nothing.
fn place_values<'v>(stamp: Option<Stamp>, is_null: bool) -> (Value<'v>, Value<'v>) {
    match stamp {
        Some(stamp) => (Value::Number(stamp.frame), time_value(stamp.time, is_null)),
        None => (Value::lacking(is_null), Value::lacking(is_null)),
    }
}

/// An address; where it is not known null, or nothing.
pub(crate) fn address_value<'v>(address: &'v [u8], is_null: bool) -> Value<'v> {
    match address {
        [] => Value::lacking(is_null),
        _ => Value::Octets(address),
    }
}

/// Appends the packet and the time of a line, where they are not known null or nothing, and ends its object.
fn end_at(spot: &Spot, is_null: bool, page: &mut Page) {
    let (frame, time) = place_values(spot.stamp(), is_null);
    page.field("frame", &frame);
    page.field("time", &time);
    page.end();
}

/// Begins an object of a side of a connection.
fn begin_at(line: &str, spot: &Spot, page: &mut Page) {
    page.begin(line);
    page.field("connection", &Value::Number(spot.connection));
    page.field("direction", &Value::Word(direction_name(spot.sender)));
}

/// Appends the line of the form.
pub(crate) fn put_version(page: &mut Page) {
    page.begin("trace");
    page.field("form", &Value::Number(FORM));
    page.end();
}

/// Appends the line of a side that closed its connection.
pub(crate) fn put_closed(spot: &Spot, by: &str, page: &mut Page) {
    begin_at("closed", spot, page);
    page.field("by", &Value::Word(by));
    end_at(spot, true, page);
}

/// Appends the line of a connection.
pub(crate) fn put_connection(
    connection: u64,
    ends: &Endpoints,
    stamp: Option<Stamp>,
    page: &mut Page,
) {
    let (frame, time) = place_values(stamp, false);
    page.begin("connection");
    page.fields(&[
        ("connection", Value::Number(connection)),
        ("stream", Value::number(ends.stream)),
        ("opener", address_value(ends.opener, true)),
        ("acceptor", address_value(ends.acceptor, true)),
        ("frame", frame),
        ("time", time),
    ]);
    page.end();
}

/// Appends the line of octets of a direction that are no message: those that the capture missed, that were passed over, or
/// that are left.
fn put_octets(line: &str, spot: &Spot, fields: &[(&str, Value)], page: &mut Page) {
    begin_at(line, spot, page);
    page.fields(fields);
    end_at(spot, false, page);
}

/// Appends the line of octets that the capture missed.
pub(crate) fn put_missing(spot: &Spot, octets: u64, page: &mut Page) {
    put_octets("missing", spot, &[("octets", Value::Number(octets))], page);
}

/// What octets look like, where that is known.
fn looks_value<'v>(looks: Option<Looks>) -> Value<'v> {
    match looks {
        Some(looks) => Value::Word(looks.name()),
        None => Value::Null,
    }
}

/// Appends the line of a fault in the frame that begins at a place.
pub(crate) fn put_fault(
    spot: &Spot,
    at: u64,
    fault: LinkFault,
    looks: Option<Looks>,
    page: &mut Page,
) {
    begin_at("fault", spot, page);
    page.field("at", &Value::Number(at));
    page.shown("fault", &fault);
    page.field("looks", &looks_value(looks));
    end_at(spot, false, page);
}

/// Appends the line of what is left of a side at the end of its connection, if something is.
pub(crate) fn put_left(spot: &Spot, left: Left, page: &mut Page) {
    let (line, octets, partial) = match left {
        Left::Nothing => return,
        Left::Passed(from, octets) => {
            let fields = [
                ("from", Value::Number(from)),
                ("octets", Value::Number(octets)),
            ];
            return put_octets("passed", spot, &fields, page);
        }
        Left::Rest(octets, partial) => ("rest", octets, partial),
        Left::Unread(octets) => ("unread", octets, 0),
    };
    let fields = [
        ("octets", Value::Number(octets)),
        ("partial", Value::Number(partial)),
    ];
    put_octets(line, spot, &fields, page);
}

/// Appends the line at the end.
pub(crate) fn put_counts(counts: &Counts, page: &mut Page) {
    page.begin("end");
    page.fields(&[
        ("messages", Value::Number(counts.messages)),
        ("connections", Value::Number(counts.connections)),
        ("unanswered", Value::Numbers(&counts.unanswered)),
        ("cancelled", Value::Numbers(&counts.cancelled)),
        ("strays", Value::Numbers(&counts.strays.numbers)),
        ("repeats", Value::Numbers(&counts.repeats.numbers)),
        ("faults", Value::Number(counts.faults)),
        ("passed", Value::Number(counts.passed)),
        ("missing", Value::Number(counts.missing)),
        ("more_strays", count_value(counts.strays.others)),
        ("more_repeats", count_value(counts.repeats.others)),
        ("forgot", Value::number_if(counts.forgot)),
    ]);
    page.end();
}
