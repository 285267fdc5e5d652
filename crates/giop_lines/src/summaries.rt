//! The lines of what was counted of calls, for a person and as JSON.

use crate::fields::Value;
use crate::forward_lines::put_key;
use crate::json::put_letter;
use crate::objects::Objects;
use crate::page::Page;
use crate::places::put_seconds;
use crate::printing::{Format, Printer};
use crate::summary::{Called, Endings, Row, Summary};

/// Appends a latency at a place among a hundred.
fn put_latency(name: &str, latency: Option<u64>, page: &mut Page) {
    if let Some(latency) = latency {
        page.put_all(&[" ", name, " "]);
        put_seconds(latency, page);
    }
}

/// Appends what calls a row is of.
fn put_called(called: &Called, objects: &mut Objects, page: &mut Page) {
    match &called.key {
        Some(key) => put_key(key, objects, page),
        None => page.put("no key"),
    }
    match &called.operation {
        Some(operation) => {
            page.put(" operation ");
            page.octets(operation);
            page.put(":")
        }
        None => page.put(" LocateRequest:"),
    }
}

/// Appends the lines of a row; none is the one of all other calls.
fn put_row(called: Option<&Called>, row: &Row, objects: &mut Objects, page: &mut Page) {
    match called {
        Some(called) => put_called(called, objects, page),
        None => page.put("(others):"),
    }
    page.number(" ", row.requests, " requests, ");
    page.number("", row.answers, " answers, ");
    page.number("", row.repeats, " repeats, ");
    page.number("", row.asked, " octets asked, ");
    page.number("", row.answered, " answered\n");
    put_latencies(row, page);
    for (name, count) in &row.exceptions {
        page.put("  exception ");
        page.octets(name);
        page.number(": ", *count, "\n");
    }
}

/// Appends the line of latencies, if some are known.
fn put_latencies(row: &Row, page: &mut Page) {
    if row.greatest.is_none() {
        return;
    }
    page.put("  latency in seconds:");
    put_latency("50%", row.latency_at(50), page);
    put_latency("90%", row.latency_at(90), page);
    put_latency("99%", row.latency_at(99), page);
    put_latency("greatest", row.greatest, page);
    page.put("\n");
}

/// Appends the fields of which calls a row is; those of all other calls are of none.
fn put_called_fields(called: Option<&Called>, objects: &mut Objects, page: &mut Page) {
    let (key, operation) = match called {
        Some(called) => (called.key(), called.operation()),
        None => (None, None),
    };
    page.field("key", &Value::digits(key));
    match key {
        Some(key) => put_letter(true, key, objects, page),
        None => page.field("object", &Value::Null),
    }
    page.field("operation", &Value::octets(operation));
}

/// Appends how many answers were an exception, by their names.
fn put_exceptions(row: &Row, page: &mut Page) {
    page.name("exceptions");
    page.put("[");
    for (name, count) in &row.exceptions {
        page.apart();
        page.put("{");
        page.fields(&[
            ("name", Value::Octets(name)),
            ("count", Value::Number(*count)),
        ]);
        page.put("}");
    }
    page.put("]");
}

/// Appends the object of a row; none is the one of all other calls.
fn put_row_object(called: Option<&Called>, row: &Row, objects: &mut Objects, page: &mut Page) {
    page.begin("calls");
    put_called_fields(called, objects, page);
    page.fields(&[
        ("requests", Value::Number(row.requests)),
        ("answers", Value::Number(row.answers)),
        ("repeats", Value::Number(row.repeats)),
        ("asked", Value::Number(row.asked)),
        ("answered", Value::Number(row.answered)),
        ("latency50", Value::number(row.latency_at(50))),
        ("latency90", Value::number(row.latency_at(90))),
        ("latency99", Value::number(row.latency_at(99))),
        ("greatest", Value::number(row.greatest)),
    ]);
    put_exceptions(row, page);
    if called.is_none() {
        page.field("others", &Value::Truth(true));
    }
    page.end();
}

/// Appends the lines of a row, in the form of the printer.
fn put_calls(
    format: Format,
    called: Option<&Called>,
    row: &Row,
    objects: &mut Objects,
    page: &mut Page,
) {
    match format {
        Format::Lines => put_row(called, row, objects, page),
        Format::Json => put_row_object(called, row, objects, page),
    }
}

/// Appends the line of how connections ended.
fn put_endings(endings: &Endings, page: &mut Page) {
    page.number(
        "connections by their end: CloseConnection ",
        endings.close,
        "",
    );
    page.number(", MessageError ", endings.error, "");
    page.number(", RST ", endings.reset, "");
    page.number(", FIN ", endings.fin, "");
    page.number(", none ", endings.open, "\n");
}

/// Appends the object of how connections ended.
fn put_endings_object(endings: &Endings, page: &mut Page) {
    page.begin("endings");
    page.fields(&[
        ("close", Value::Number(endings.close)),
        ("error", Value::Number(endings.error)),
        ("reset", Value::Number(endings.reset)),
        ("fin", Value::Number(endings.fin)),
        ("open", Value::Number(endings.open)),
    ]);
    page.end();
}

/// Appends the lines of a summary.
pub(crate) fn put_summary(
    printer: &Printer,
    summary: &Summary,
    objects: &mut Objects,
    page: &mut Page,
) {
    for (called, row) in &summary.rows {
        put_calls(printer.format, Some(called), row, objects, page);
    }
    if summary.others.requests > 0 {
        put_calls(printer.format, None, &summary.others, objects, page);
    }
    match printer.format {
        Format::Lines => put_endings(&summary.endings, page),
        Format::Json => put_endings_object(&summary.endings, page),
    }
}
