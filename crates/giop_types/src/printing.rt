//! Values in lines, by the names of their types.

use crate::shape::{Member, Plain, Shape};
use crate::style::Style;
use crate::texts::{put_char, put_double, put_float, put_octets, put_string, put_word};
use cdr_core::Val;
use giop_text::text_of;
use std::alloc::{AllocError, Global};

/// So many elements of a sequence or an array are printed, and no more once a text has so many characters.
const MOST_ELEMENTS: usize = 64;

const MOST_CHARACTERS: usize = 16_384;

/// Appends what stands between two values.
fn put_between(style: Style, is_first: bool, text: &mut String) -> Result<(), AllocError> {
    match (is_first, style) {
        (true, _) => Ok(()),
        (false, Style::Words) => text.push_str(", "),
        (false, Style::Json) => text.push(','),
    }
}

/// Appends a name before its value.
fn put_name(style: Style, name: &str, text: &mut String) -> Result<(), AllocError> {
    put_word(style, name, text)?;
    text.push_str(match style {
        Style::Words => " = ",
        Style::Json => ":",
    })
}

/// Appends a value of a type that is not made of others.
fn put_plain(
    alloc: Global,
    style: Style,
    plain: Plain,
    value: &Val,
    text: &mut String,
) -> Result<(), AllocError> {
    match (plain, value) {
        (Plain::Float, Val::ULong(bits)) => put_float(style, *bits, text),
        (Plain::Double, Val::ULongLong(bits)) => put_double(style, *bits, text),
        (_, Val::Boolean(truth)) => write!(text, "{truth}"),
        (_, Val::Char(octet)) => put_char(alloc, style, *octet, text),
        (_, Val::Octet(number)) => write!(text, "{number}"),
        (_, Val::Short(number)) => write!(text, "{number}"),
        (_, Val::UShort(number)) => write!(text, "{number}"),
        (_, Val::Long(number)) => write!(text, "{number}"),
        (_, Val::ULong(number)) => write!(text, "{number}"),
        (_, Val::LongLong(number)) => write!(text, "{number}"),
        (_, Val::ULongLong(number)) => write!(text, "{number}"),
        _ => put_word(style, "..", text),
    }
}

/// Appends the name of an enumeration.
fn put_enumerator(
    style: Style,
    names: &[String],
    ordinal: u32,
    text: &mut String,
) -> Result<(), AllocError> {
    match names.get(ordinal as usize) {
        Some(name) => put_word(style, name, text),
        None => put_word(style, "..", text),
    }
}

/// Appends a value of a type.
#[cycle(printing)]
fn put_value(
    alloc: Global,
    style: Style,
    shape: &Shape,
    value: &Val,
    text: &mut String,
) -> Result<(), AllocError> {
    match (shape, value) {
        (Shape::Plain(plain), _) => put_plain(alloc, style, *plain, value, text),
        (Shape::Text(_), Val::Str(octets)) => put_string(alloc, style, octets, text),
        (Shape::Octets(_), Val::Octets(octets)) => put_octets(alloc, style, octets, text),
        (Shape::Sequence(_, element), Val::Seq(values)) => {
            put_elements(alloc, style, element, values, text)
        }
        (Shape::Array(_, element), Val::Array(values)) => {
            put_elements(alloc, style, element, values, text)
        }
        (Shape::Enum(names), Val::Enum(ordinal)) => put_enumerator(style, names, *ordinal, text),
        (Shape::Struct(members), Val::Struct(values)) => {
            text.push('{')?;
            put_members(alloc, style, members, values, text)?;
            text.push('}')
        }
        (Shape::Union(switch, _, _), Val::Union(label, value)) => {
            put_label(alloc, style, switch, label, text)?;
            if let Some(value) = value {
                put_held(alloc, style, shape, label, value, text)?;
            }
            text.push('}')
        }
        _ => put_word(style, "..", text),
    }
}

/// Appends how many elements there are, where they are not all printed.
fn put_rest(style: Style, count: usize, text: &mut String) -> Result<(), AllocError> {
    put_between(style, false, text)?;
    match style {
        Style::Words => write!(text, ".. {count}"),
        Style::Json => write!(text, "\".. {count}\""),
    }
}

/// Appends the elements of a sequence or an array.
#[cycle(printing)]
fn put_elements(
    alloc: Global,
    style: Style,
    element: &Shape,
    values: &[Val],
    text: &mut String,
) -> Result<(), AllocError> {
    text.push('[')?;
    for (i, value) in values.iter().enumerate() {
        if i >= MOST_ELEMENTS || text.len() >= MOST_CHARACTERS {
            put_rest(style, values.len(), text)?;
            break;
        }
        put_between(style, i == 0, text)?;
        put_value(alloc, style, element, value, text)?;
    }
    text.push(']')
}

/// Appends members by name.
#[cycle(printing)]
fn put_members(
    alloc: Global,
    style: Style,
    members: &[Member],
    values: &[Val],
    text: &mut String,
) -> Result<(), AllocError> {
    for (i, (member, value)) in members.iter().zip(values.iter()).enumerate() {
        put_between(style, i == 0, text)?;
        put_name(style, &member.name, text)?;
        put_value(alloc, style, &member.shape, value, text)?;
    }
    Ok(())
}

/// Appends the discriminator of a union.
#[cycle(printing)]
fn put_label(
    alloc: Global,
    style: Style,
    switch: &Shape,
    label: &Val,
    text: &mut String,
) -> Result<(), AllocError> {
    text.push('{')?;
    if let Style::Json = style {
        text.push_str("\"case\":")?;
    }
    put_value(alloc, style, switch, label, text)
}

/// The label that a discriminator is.
fn label_of(value: &Val) -> Option<i128> {
    match value {
        Val::Boolean(truth) => Some(i128::from(*truth)),
        Val::Char(number) | Val::Octet(number) => Some(i128::from(*number)),
        Val::Short(number) => Some(i128::from(*number)),
        Val::UShort(number) => Some(i128::from(*number)),
        Val::Long(number) => Some(i128::from(*number)),
        Val::ULong(number) | Val::Enum(number) => Some(i128::from(*number)),
        Val::LongLong(number) => Some(i128::from(*number)),
        Val::ULongLong(number) => Some(i128::from(*number)),
        _ => None,
    }
}

/// Appends the member of a union that its discriminator selects.
#[cycle(printing)]
fn put_held(
    alloc: Global,
    style: Style,
    union: &Shape,
    label: &Val,
    value: &Val,
    text: &mut String,
) -> Result<(), AllocError> {
    let Shape::Union(_, cases, default) = union else {
        return Ok(());
    };
    let label = label_of(label);
    for case in cases {
        if Some(case.label) == label {
            put_held_name(style, &case.member.name, text)?;
            return put_value(alloc, style, &case.member.shape, value, text);
        }
    }
    match default {
        Some(member) => {
            put_held_name(style, &member.name, text)?;
            put_value(alloc, style, &member.shape, value, text)
        }
        None => Ok(()),
    }
}

/// Appends the name of a union's member before its value.
fn put_held_name(style: Style, name: &str, text: &mut String) -> Result<(), AllocError> {
    match style {
        Style::Words => {
            text.push_str(": ")?;
            put_name(style, name, text)
        }
        Style::Json => {
            text.push_str(",\"member\":")?;
            put_word(style, name, text)?;
            text.push_str(",\"value\":")
        }
    }
}

/// Appends members between brackets.
fn put_all(
    alloc: Global,
    style: Style,
    brackets: (char, char),
    members: &[Member],
    values: &[Val],
    text: &mut String,
) -> Result<(), AllocError> {
    text.push(brackets.0)?;
    put_members(alloc, style, members, values, text)?;
    text.push(brackets.1)
}

/// Appends an operation and its arguments.
pub(crate) fn put_call(
    alloc: Global,
    style: Style,
    operation: &[u8],
    members: &[Member],
    values: &[Val],
    text: &mut String,
) -> Result<(), AllocError> {
    match style {
        Style::Words => {
            text.push_str(&text_of(alloc, operation)?)?;
            put_all(alloc, style, ('(', ')'), members, values, text)
        }
        Style::Json => put_all(alloc, style, ('{', '}'), members, values, text),
    }
}

/// Appends the result of an operation, and what its other results are.
fn put_answer(
    alloc: Global,
    members: &[Member],
    values: &[Val],
    text: &mut String,
) -> Result<(), AllocError> {
    text.push('=')?;
    if let ([first, others @ ..], [value, rest @ ..]) = (members, values) {
        if first.name.as_str() == "-" {
            text.push(' ')?;
            put_value(alloc, Style::Words, &first.shape, value, text)?;
            if others.is_empty() {
                return Ok(());
            }
            text.push(' ')?;
            return put_all(alloc, Style::Words, ('(', ')'), others, rest, text);
        }
    }
    text.push(' ')?;
    put_all(alloc, Style::Words, ('(', ')'), members, values, text)
}

/// Appends the results of an operation.
pub(crate) fn put_results(
    alloc: Global,
    style: Style,
    members: &[Member],
    values: &[Val],
    text: &mut String,
) -> Result<(), AllocError> {
    match style {
        Style::Words => put_answer(alloc, members, values, text),
        Style::Json => put_all(alloc, style, ('{', '}'), members, values, text),
    }
}

/// Appends an exception of a repository id, which is the first of its members.
pub(crate) fn put_raised(
    alloc: Global,
    style: Style,
    id: &[u8],
    members: &[Member],
    values: &[Val],
    text: &mut String,
) -> Result<(), AllocError> {
    if let Style::Words = style {
        text.push_str("raised ")?;
        text.push_str(&text_of(alloc, id)?)?;
        text.push(' ')?;
    }
    let members = members.get(1..).unwrap_or(&[]);
    let values = values.get(1..).unwrap_or(&[]);
    put_all(alloc, style, ('{', '}'), members, values, text)
}
