//! Octets, characters and floats in values.

use crate::style::Style;
use giop_text::{digits_of, text_of};
use ryu::Buffer;
use std::alloc::{AllocError, Global};
use std::num::{f32_from_bits_with_nan, f64_from_bits_with_nan};

/// So many octets of a text, or of octets, are printed.
const MOST_OCTETS: usize = 256;

/// Appends a text between two of a character, which stands for itself in no other place there.
fn put_quoted(
    style: Style,
    mark: char,
    words: &str,
    behind: &str,
    text: &mut String,
) -> Result<(), AllocError> {
    text.push(mark)?;
    for letter in words.chars() {
        match style {
            Style::Json if letter == '"' || letter == '\\' => {
                text.push('\\')?;
                text.push(letter)?
            }
            Style::Words if letter == mark => {
                let code = u32::from(letter);
                write!(text, "\\x{code:02x}")?
            }
            _ => text.push(letter)?,
        }
    }
    match style {
        Style::Words => {
            text.push(mark)?;
            text.push_str(behind)
        }
        Style::Json => {
            text.push_str(behind)?;
            text.push(mark)
        }
    }
}

/// What stands behind the first of octets, where they are too many.
fn behind_of(alloc: Global, octets: &[u8]) -> Result<String, AllocError> {
    let count = octets.len();
    match count > MOST_OCTETS {
        true => format!(in alloc; " .. {count} octets"),
        false => Ok(String::new(alloc)),
    }
}

/// The first of octets that are printed.
fn front_of(octets: &[u8]) -> &[u8] {
    octets.get(..MOST_OCTETS).unwrap_or(octets)
}

/// Appends a string.
pub(crate) fn put_string(
    alloc: Global,
    style: Style,
    octets: &[u8],
    text: &mut String,
) -> Result<(), AllocError> {
    let words = text_of(alloc, front_of(octets))?;
    put_quoted(style, '"', &words, &behind_of(alloc, octets)?, text)
}

/// Appends a character.
pub(crate) fn put_char(
    alloc: Global,
    style: Style,
    octet: u8,
    text: &mut String,
) -> Result<(), AllocError> {
    let mark = match style {
        Style::Words => '\'',
        Style::Json => '"',
    };
    put_quoted(style, mark, &text_of(alloc, &[octet])?, "", text)
}

/// Appends a word, which JSON has between quotes.
pub(crate) fn put_word(style: Style, word: &str, text: &mut String) -> Result<(), AllocError> {
    match style {
        Style::Words => text.push_str(word),
        Style::Json => {
            text.push('"')?;
            text.push_str(word)?;
            text.push('"')
        }
    }
}

/// Appends octets as digits.
pub(crate) fn put_octets(
    alloc: Global,
    style: Style,
    octets: &[u8],
    text: &mut String,
) -> Result<(), AllocError> {
    let mut word = digits_of(alloc, front_of(octets))?;
    word.push_str(&behind_of(alloc, octets)?)?;
    put_word(style, &word, text)
}

/// The word of a number that is not finite.
fn word_of(is_nan: bool, is_negative: bool) -> &'static str {
    match (is_nan, is_negative) {
        (true, _) => "NaN",
        (false, true) => "-inf",
        (false, false) => "inf",
    }
}

/// Appends the double of these bits.
pub(crate) fn put_double(style: Style, bits: u64, text: &mut String) -> Result<(), AllocError> {
    let number = f64_from_bits_with_nan(bits);
    if !number.is_finite() {
        return put_word(style, word_of(number.is_nan(), number < 0.0), text);
    }
    text.push_str(Buffer::new().format_finite(number))
}

/// Appends the float of these bits.
pub(crate) fn put_float(style: Style, bits: u32, text: &mut String) -> Result<(), AllocError> {
    let number = f32_from_bits_with_nan(bits);
    if !number.is_finite() {
        return put_word(style, word_of(number.is_nan(), number < 0.0), text);
    }
    text.push_str(Buffer::new().format_finite(number))
}
