//! The lines at the end of a trace.

use crate::counts::{Counts, Listed};
use crate::page::Page;

/// Appends a count and what is counted, by number, and how many others there are.
fn put_counted(what: &str, numbers: &[u64], others: u64, page: &mut Page) {
    let count = (numbers.len() as u64).saturating_add(others);
    page.number(what, count, "");
    if !numbers.is_empty() {
        page.put(":");
    }
    for number in numbers {
        page.number(" ", *number, "");
    }
    if others > 0 {
        page.number(" and ", others, " later ones");
    }
    page.put("\n");
}

/// Appends a count of messages of which the first ones are listed.
fn put_listed(what: &str, listed: &Listed, page: &mut Page) {
    put_counted(what, &listed.numbers, listed.others, page);
}

/// Appends the line of keys that were forgotten, if some were.
fn put_forgot(counts: &Counts, page: &mut Page) {
    if let Some(number) = counts.forgot {
        let behind = " on: a later request may repeat one unnoticed\n";
        page.number("keys forgotten from message ", number, behind);
    }
}

/// Appends the lines at the end.
pub(crate) fn put_counts(counts: &Counts, page: &mut Page) {
    page.number("end ", counts.messages, " messages on ");
    page.number("", counts.connections, " connections");
    if counts.missing > 0 {
        page.number(", ", counts.missing, " octets missing");
    }
    page.put("\n");
    put_counted("requests without a reply ", &counts.unanswered, 0, page);
    put_counted("of these cancelled ", &counts.cancelled, 0, page);
    put_listed("replies without a request ", &counts.strays, page);
    put_listed("repeats ", &counts.repeats, page);
    put_forgot(counts, page);
    page.number("faults ", counts.faults, ", ");
    page.number("", counts.passed, " octets passed over\n");
}
