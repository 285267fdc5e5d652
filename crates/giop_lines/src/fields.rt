//! Objects of JSON, by pairs of names and values (RFC 8259).

use crate::page::Page;
use jiff::Timestamp;
use std::alloc::{AllocError, Global};
use std::fmt;

/// The value of a field.
#[derive(Clone, Copy)]
pub(crate) enum Value<'v> {
    /// There is no such field.
    Absent,
    Null,
    Truth(bool),
    Number(u64),
    Signed(i32),
    /// A word that stands for itself.
    Word(&'v str),
    /// Octets as text.
    Octets(&'v [u8]),
    /// Octets as digits.
    Digits(&'v [u8]),
    Numbers(&'v [u64]),
    /// When a packet came, down to nanoseconds.
    Time(Timestamp),
    /// A moment, as far as its digits go.
    Moment(Timestamp),
}

impl<'v> Value<'v> {
    /// What stands where something is not known: null, or nothing.
    pub fn lacking(is_null: bool) -> Value<'v> {
        match is_null {
            true => Value::Null,
            false => Value::Absent,
        }
    }

    /// A number that is not known everywhere.
    pub fn number(number: Option<u64>) -> Value<'v> {
        match number {
            Some(number) => Value::Number(number),
            None => Value::Null,
        }
    }

    /// A shorter one.
    pub fn short(number: Option<u32>) -> Value<'v> {
        match number {
            Some(number) => Value::Number(u64::from(number)),
            None => Value::Null,
        }
    }

    /// A number that stands only where it is known.
    pub fn number_if(number: Option<u64>) -> Value<'v> {
        match number {
            Some(number) => Value::Number(number),
            None => Value::Absent,
        }
    }

    /// A word that is not known everywhere.
    pub fn word(word: Option<&'v str>) -> Value<'v> {
        match word {
            Some(word) => Value::Word(word),
            None => Value::Null,
        }
    }

    /// A text that is not known everywhere.
    pub fn octets(octets: Option<&'v [u8]>) -> Value<'v> {
        match octets {
            Some(octets) => Value::Octets(octets),
            None => Value::Null,
        }
    }

    /// Digits that are not known everywhere.
    pub fn digits(octets: Option<&'v [u8]>) -> Value<'v> {
        match octets {
            Some(octets) => Value::Digits(octets),
            None => Value::Null,
        }
    }
}

/// Appends digits between quotes; nothing stands there where there are no octets.
fn add_digits(alloc: Global, octets: &[u8], text: &mut String) -> Result<(), AllocError> {
    let digits = digits::encode(alloc, octets)?;
    write!(text, "\"{digits}\"")
}

/// Appends a text that prints in ASCII between quotes.
fn add_quoted(words: &str, text: &mut String) -> Result<(), AllocError> {
    text.push('"')?;
    for letter in words.chars() {
        if letter == '"' || letter == '\\' {
            text.push('\\')?;
        }
        text.push(letter)?;
    }
    text.push('"')
}

impl Page {
    /// Appends a comma, unless an object or an array begins before it.
    pub fn apart(&mut self) {
        match self.text.as_bytes() {
            [] | [.., b'{' | b'['] => {}
            _ => self.put(","),
        }
    }

    /// Appends the name of a field.
    pub fn name(&mut self, name: &str) {
        self.apart();
        self.put_all(&["\"", name, "\":"]);
    }

    /// Appends a text that prints in ASCII between quotes.
    pub fn quote(&mut self, words: &str) {
        let came = add_quoted(words, &mut self.text);
        self.note(came);
    }

    /// Appends octets as text between quotes.
    fn quote_octets(&mut self, octets: &[u8]) {
        match giop_text::text_of(self.alloc, octets) {
            Ok(words) => self.quote(&words),
            Err(_) => self.is_whole = false,
        }
    }

    /// Appends octets as digits between quotes.
    fn quote_digits(&mut self, octets: &[u8]) {
        let came = add_digits(self.alloc, octets, &mut self.text);
        self.note(came);
    }

    /// Appends numbers as an array.
    fn numbers(&mut self, numbers: &[u64]) {
        self.put("[");
        for number in numbers {
            self.apart();
            self.show(number);
        }
        self.put("]");
    }

    /// Appends a time between quotes, with so many digits behind its seconds at least.
    fn time(&mut self, time: Timestamp, is_whole: bool) {
        let came = match is_whole {
            true => write!(self.text, "\"{time:.9}\""),
            false => write!(self.text, "\"{time}\""),
        };
        self.note(came);
    }

    /// Appends a value.
    fn value(&mut self, value: &Value) {
        match value {
            Value::Absent | Value::Null => self.put("null"),
            Value::Truth(truth) => self.show(truth),
            Value::Number(number) => self.show(number),
            Value::Signed(number) => self.show(number),
            Value::Word(word) => self.put_all(&["\"", word, "\""]),
            Value::Octets(octets) => self.quote_octets(octets),
            Value::Digits(octets) => self.quote_digits(octets),
            Value::Numbers(numbers) => self.numbers(numbers),
            Value::Time(time) => self.time(*time, true),
            Value::Moment(time) => self.time(*time, false),
        }
    }

    /// Appends a field, unless it is absent.
    pub fn field(&mut self, name: &str, value: &Value) {
        if let Value::Absent = value {
            return;
        }
        self.name(name);
        self.value(value);
    }

    /// Appends fields, but those that are absent.
    pub fn fields(&mut self, fields: &[(&str, Value)]) {
        for (name, value) in fields {
            self.field(name, value);
        }
    }

    /// Appends a field whose value is the text of something, which prints in ASCII and has no quotes.
    pub fn shown<T: fmt::Display>(&mut self, name: &str, it: &T) {
        self.name(name);
        self.put("\"");
        self.show(it);
        self.put("\"");
    }

    /// Begins an object that is a line of its own, by what it is of.
    pub fn begin(&mut self, line: &str) {
        self.put_all(&["{\"line\":\"", line, "\""]);
    }

    /// Ends such an object.
    pub fn end(&mut self) {
        self.put("}\n");
    }
}
