//! A text as it is made, which tells at its end alone that memory ran out.

use giop_text::{digits_of, text_of};
use std::alloc::{AllocError, Global};
use std::fmt;

/// A text as it is made. Where memory ran out it lacks something, and is not printed.
#[derive(Drop)]
pub(crate) struct Page {
    pub alloc: Global,
    pub text: String,
    /// Whether there was memory for all of it.
    pub is_whole: bool,
}

/// For so many octets of a message's lines memory is taken at once.
const USUAL: usize = 256;

/// Appends octets as text.
fn add_text(alloc: Global, octets: &[u8], text: &mut String) -> Result<(), AllocError> {
    let words = text_of(alloc, octets)?;
    text.push_str(&words)
}

/// Appends octets as digits, or a dash where there are none.
fn add_digits(alloc: Global, octets: &[u8], text: &mut String) -> Result<(), AllocError> {
    let digits = digits_of(alloc, octets)?;
    text.push_str(&digits)
}

impl Page {
    /// An empty text.
    pub fn new(alloc: Global) -> Page {
        Page {
            alloc,
            text: String::new(alloc),
            is_whole: true,
        }
    }

    /// An empty text with memory for a message's lines.
    pub fn of_message(alloc: Global) -> Page {
        match String::with_capacity(alloc, USUAL) {
            Ok(text) => Page {
                alloc,
                text,
                is_whole: true,
            },
            Err(_) => Page {
                alloc,
                text: String::new(alloc),
                is_whole: false,
            },
        }
    }

    /// The text, if there was memory for all of it.
    pub fn finish(self) -> Result<String, AllocError> {
        if self.is_whole {
            Ok(self.text)
        } else {
            Err(AllocError)
        }
    }

    /// Takes note whether there was memory for what was appended.
    pub fn note(&mut self, came: Result<(), AllocError>) {
        if came.is_err() {
            self.is_whole = false;
        }
    }

    /// What was made, if there was memory for it, and there is such.
    pub fn made<T: Drop>(&mut self, came: Result<Option<T>, AllocError>) -> Option<T> {
        match came {
            Ok(made) => made,
            Err(_) => {
                self.is_whole = false;
                None
            }
        }
    }

    /// Appends words.
    pub fn put(&mut self, words: &str) {
        let came = self.text.push_str(words);
        self.note(came);
    }

    /// Appends all of these words.
    pub fn put_all(&mut self, all: &[&str]) {
        for words in all {
            self.put(words);
        }
    }

    /// Appends a number between words.
    pub fn number(&mut self, before: &str, number: u64, behind: &str) {
        self.put(before);
        let came = write!(self.text, "{number}");
        self.note(came);
        self.put(behind);
    }

    /// Appends the text of something.
    pub fn show<T: fmt::Display>(&mut self, it: &T) {
        let came = write!(self.text, "{it}");
        self.note(came);
    }

    /// Appends octets as text.
    pub fn octets(&mut self, octets: &[u8]) {
        let came = add_text(self.alloc, octets, &mut self.text);
        self.note(came);
    }

    /// Appends octets as digits, or a dash where there are none.
    pub fn digits(&mut self, octets: &[u8]) {
        let came = add_digits(self.alloc, octets, &mut self.text);
        self.note(came);
    }

    /// Appends how many octets there are.
    pub fn count(&mut self, octets: &[u8]) {
        self.number(", ", octets.len() as u64, " octets");
    }
}
