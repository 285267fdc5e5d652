//! A counter that prints a line for each request that it is asked.

ghost use Rattle.std.specs.Prelude.{◌≡◌};

use cdr_core::Val;
use counter::Counter;
use ft_log::Outcome;
use ft_objects::{Decision, Lookup, Servant};
use giop_core::{Request, Version, ft_request};
use giop_text::{put_ft, put_target, text_of};
use std::alloc::{AllocError, Global};
use std::cell::RefCell;
use std::io::Write;
use std::marker::Model;

/// Where lines go, and the front of the line of the request that is performed next.
#[derive(Drop)]
struct Lines<E> {
    err: E,
    next: Option<String>,
}

/// A counter, and a line for each request: what it was, and what became of it.
#[derive(Drop)]
pub(crate) struct LoggedCounter<E> {
    alloc: Global,
    counter: Counter,
    lines: RefCell<Lines<E>>,
}

impl<E> Model for LoggedCounter<E> {
    ghost use Rattle.std.specs.Prelude.{ℤ};

    ghost Value = { ℤ };

    ghost view = { λ l. l.counter };
}

/// Appends which request it is.
fn put_request(
    alloc: Global,
    connection: u64,
    request: &Request,
    line: &mut String,
) -> Result<(), AllocError> {
    let id = request.request_id;
    write!(line, "{connection} Request id {id} ")?;
    put_target(alloc, &request.target, line)?;
    line.push_str(" operation ")?;
    line.push_str(&text_of(alloc, request.operation)?)?;
    put_ft(alloc, &ft_request(&request.contexts), line)
}

/// The front of a request's line: its connection, and which it is.
fn front_of(alloc: Global, connection: u64, request: &Request) -> Result<String, AllocError> {
    let mut line = String::new(alloc);
    put_request(alloc, connection, request, &mut line)?;
    Ok(line)
}

impl<E: Write> Lines<E> {
    /// Prints the line of a request that is not performed.
    fn tell(&mut self, alloc: Global, front: &str, decision: Decision) -> Result<(), AllocError> {
        let _ = match (decision, decision.refusal()) {
            (_, Some(name)) => {
                let id = text_of(alloc, name.repository_id())?;
                writeln!(self.err, "{front} refused {id}")
            }
            (Decision::Repeated | Decision::Joined, None) => writeln!(self.err, "{front} repeat"),
            _ => writeln!(self.err, "{front} not performed"),
        };
        Ok(())
    }

    /// Keeps the line of a request that is performed next, and prints that of any other. Without memory there is none.
    fn note(&mut self, alloc: Global, front: Result<String, AllocError>, decision: Decision) {
        self.next = None;
        let Ok(front) = front else {
            return;
        };
        if decision == Decision::Asked {
            self.next = Some(front);
            return;
        }
        let _ = self.tell(alloc, &front, decision);
    }

    /// Prints the line of the request that was performed, or was to be.
    fn end(&mut self, is_performed: bool) {
        let Some(front) = self.next.take() else {
            return;
        };
        let _ = if is_performed {
            writeln!(self.err, "{front} performed")
        } else {
            writeln!(self.err, "{front} not performed")
        };
    }
}

impl<E: Write> LoggedCounter<E> {
    /// A counter whose lines go to a writer.
    pub(crate) fn new(alloc: Global, counter: Counter, err: E) -> LoggedCounter<E>
        ensures { result ≡ counter }
    {
        LoggedCounter {
            alloc,
            counter,
            lines: RefCell::new(Lines { err, next: None }),
        }
    }
}

impl<E: Write> Servant for LoggedCounter<E> {
    ghost use Rattle.counter.specs.Counter.{counter_meaning};
    ghost use Rattle.counter.specs.facts.Counter.{counter_is_servant};

    ghost meaning = { counter_meaning };

    ghost promises = { counter_is_servant };

    fn known(&self) {
        self.counter.known();
    }

    fn interface(&self, object_key: &[u8], operation: &[u8]) -> Lookup<'_> {
        self.counter.interface(object_key, operation)
    }

    fn has_object(&self, object_key: &[u8]) -> bool {
        self.counter.has_object(object_key)
    }

    fn perform(
        &mut self,
        alloc: Global,
        object_key: &[u8],
        operation: &[u8],
        arguments: &[Val],
    ) -> Result<Outcome, AllocError> {
        let came = self
            .counter
            .perform(alloc, object_key, operation, arguments);
        if let Ok(mut lines) = self.lines.try_borrow_mut() {
            lines.end(came.is_ok());
        }
        came
    }

    fn decided(
        &self,
        connection: u64,
        _version: Version,
        request: &Request<'_>,
        decision: Decision,
    ) {
        let front = front_of(self.alloc, connection, request);
        if let Ok(mut lines) = self.lines.try_borrow_mut() {
            lines.note(self.alloc, front, decision);
        }
    }
}
