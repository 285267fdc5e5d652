//! A value of a megabyte that is read or written again and again.
//!
//! The words are what is done, `read` or `write`, the kind of the value, and how often. The kinds are
//! `structs`, a sequence of structs with strings; `ulongs`, `longlongs`, `shorts` and `booleans`, sequences
//! of them; and `octets`. What it gives is how many octets the value has and a checksum. With 0 rounds it only
//! makes the value and its octets.

ghost use Rattle.std.specs.Prelude.{◌≤◌};

use crate::report::{Report, mixed};
use crate::stop::Stop;
use crate::words::number;
use cdr_core::{Order, Ty, Val, read, writable, write};
use std::alloc::{AllocError, Global};

/// How the words go.
const USAGE: &str =
    "usage: benches values read|write structs|ulongs|longlongs|shorts|booleans|octets ROUNDS";

/// What is done with a value.
#[derive(Clone, Copy)]
enum Action {
    Read,
    Write,
}

impl Action {
    fn named(word: &str) -> Option<Action> {
        match word {
            "read" => Some(Action::Read),
            "write" => Some(Action::Write),
            _ => None,
        }
    }
}

/// An element of a sequence.
#[derive(Clone, Copy)]
enum Element {
    Struct,
    ULong,
    LongLong,
    Short,
    Boolean,
}

/// A kind of values.
#[derive(Clone, Copy)]
enum Kind {
    Sequence(Element),
    Octets,
}

impl Kind {
    fn named(word: &str) -> Option<Kind> {
        match word {
            "structs" => Some(Kind::Sequence(Element::Struct)),
            "ulongs" => Some(Kind::Sequence(Element::ULong)),
            "longlongs" => Some(Kind::Sequence(Element::LongLong)),
            "shorts" => Some(Kind::Sequence(Element::Short)),
            "booleans" => Some(Kind::Sequence(Element::Boolean)),
            "octets" => Some(Kind::Octets),
            _ => None,
        }
    }
}

/// How many octets a value has, about.
const SIZE: u32 = 1_048_576;

/// A struct of 64 octets.
fn quote(alloc: Global, number: u32) -> Result<Val, AllocError> {
    let symbol = Vec::from_slice(alloc, b"lemonrudder")?;
    let text = Vec::from_slice(alloc, b"a struct with strings")?;
    let members = vec![in alloc;
        Val::ULong(number),
        Val::Str(symbol),
        Val::Boolean(number % 2 == 0),
        Val::Str(text),
        Val::LongLong(i64::from(number)),
    ]?;
    Ok(Val::Struct(members))
}

/// The type of such a struct.
fn quote_type(alloc: Global) -> Result<Ty, AllocError> {
    let members = vec![in alloc;
        Ty::ULong,
        Ty::Str(u32::MAX),
        Ty::Boolean,
        Ty::Str(u32::MAX),
        Ty::LongLong,
    ]?;
    Ok(Ty::Struct(members))
}

/// The type of an element.
fn element_type(alloc: Global, element: Element) -> Result<Ty, AllocError> {
    match element {
        Element::Struct => quote_type(alloc),
        Element::ULong => Ok(Ty::ULong),
        Element::LongLong => Ok(Ty::LongLong),
        Element::Short => Ok(Ty::Short),
        Element::Boolean => Ok(Ty::Boolean),
    }
}

/// How many octets an element has.
fn element_size(element: Element) -> u32
    ensures { 1 ≤ result }
{
    match element {
        Element::Struct => 64,
        Element::ULong => 4,
        Element::LongLong => 8,
        Element::Short => 2,
        Element::Boolean => 1,
    }
}

/// The element of a sequence at a number.
fn element_at(alloc: Global, element: Element, number: u32) -> Result<Val, AllocError> {
    match element {
        Element::Struct => quote(alloc, number),
        Element::ULong => Ok(Val::ULong(number)),
        Element::LongLong => Ok(Val::LongLong(i64::from(number))),
        Element::Short => Ok(Val::Short((number % 30_000) as i16)),
        Element::Boolean => Ok(Val::Boolean(number % 2 == 0)),
    }
}

/// A sequence of a megabyte.
fn sequence_of(alloc: Global, element: Element) -> Result<Val, AllocError> {
    let mut elements = Vec::new(alloc);
    for number in 0..SIZE / element_size(element) {
        elements.push(element_at(alloc, element, number)?)?;
    }
    Ok(Val::Seq(elements))
}

/// The type of a kind.
fn type_of(alloc: Global, kind: Kind) -> Result<Ty, AllocError> {
    match kind {
        Kind::Sequence(element) => {
            let element = element_type(alloc, element)?;
            Ok(Ty::Seq(u32::MAX, Box::new(alloc, element)?))
        }
        Kind::Octets => Ok(Ty::Octets(u32::MAX)),
    }
}

/// The value of a kind.
fn value_of(alloc: Global, kind: Kind) -> Result<Val, AllocError> {
    match kind {
        Kind::Sequence(element) => sequence_of(alloc, element),
        Kind::Octets => Ok(Val::Octets(vec![in alloc; 7; SIZE as usize]?)),
    }
}

/// How many elements or octets a value has.
fn count(value: &Val) -> u64 {
    match value {
        Val::Seq(all) => all.len() as u64,
        Val::Octets(all) => all.len() as u64,
        _ => 0,
    }
}

/// Reads a value so often.
#[inline(never)]
fn read_rounds(alloc: Global, ty: &Ty, octets: &[u8], rounds: u32) -> Option<u64> {
    let mut sum = 0;
    if !ty.is_valid() {
        return None;
    }
    for _ in 0..rounds {
        let (value, size) = read(alloc, ty, Order::Big, 0, octets).ok()?;
        sum = mixed(mixed(sum, size as u64), count(&value));
    }
    Some(sum)
}

/// Writes a value so often, each time into the same output.
#[inline(never)]
fn write_rounds(value: &Val, rounds: u32, out: &mut Vec<u8>) -> Option<u64> {
    let mut sum = 0;
    if !writable(value) {
        return None;
    }
    for _ in 0..rounds {
        out.clear();
        write(Order::Big, 0, value, out).ok()?;
        let last = out.last().copied().unwrap_or(0);
        sum = mixed(mixed(sum, out.len() as u64), u64::from(last));
    }
    Some(sum)
}

/// What the words ask for.
#[derive(Clone, Copy)]
struct Task {
    action: Action,
    kind: Kind,
    rounds: u32,
}

/// The task that the words are.
fn task_of(words: &[&str]) -> Option<Task> {
    let [action, kind, rounds] = *words else {
        return None;
    };
    Some(Task {
        action: Action::named(action)?,
        kind: Kind::named(kind)?,
        rounds: number(rounds)?,
    })
}

/// Reads a value that was written, or writes it again, so often.
fn again(alloc: Global, task: Task, value: &Val, out: &mut Vec<u8>) -> Option<u64> {
    match task.action {
        Action::Read => {
            let ty = type_of(alloc, task.kind).ok()?;
            read_rounds(alloc, &ty, out.as_slice(), task.rounds)
        }
        Action::Write => write_rounds(value, task.rounds, out),
    }
}

/// Writes a value, and then does with it what is asked.
fn work(alloc: Global, task: Task, value: &Val) -> Option<Report> {
    let mut out = Vec::new(alloc);
    write_rounds(value, 1, &mut out)?;
    let octets = out.len();
    let sum = again(alloc, task, value, &mut out)?;
    Some(Report::Value { octets, sum })
}

/// Does what the words ask for.
pub(crate) fn run(alloc: Global, words: &[&str]) -> Result<Report, Stop> {
    let task = task_of(words).ok_or(Stop::Words(USAGE))?;
    let value = value_of(alloc, task.kind)?;
    work(alloc, task, &value).ok_or(Stop::Memory)
}
