//! The lines of a table.

use crate::draft::{Begun, Draft, signature};
use crate::fault::{Refusal, TypesError, Why};
use crate::fields::{Cases, Fields, Names};
use crate::shape::{Member, Shape};
use crate::table::Table;
use crate::typed::{Declared, MOST_PARTS, Typed, label_in, typed_in};
use std::alloc::{AllocError, Global};
use std::collections::BTreeMap;
use std::mem;

/// The first line.
const HEAD: &[u8] = b"giop-types 1";

/// The operations of each object that an ORB performs itself (CORBA 3.3 Part 1, 8.3).
const USUAL: [&str; 12] = [
    "interface IDL:omg.org/CORBA/Object:1.0",
    "operation _is_a",
    "in logical_type_id string",
    "out - boolean",
    "operation _non_existent",
    "out - boolean",
    "operation _interface",
    "out - object",
    "operation _component",
    "out - object",
    "operation _repository_id",
    "out - string",
];

/// A table, as its lines come.
#[derive(Drop)]
pub(crate) struct Reader {
    alloc: Global,
    pub table: Table,
    declared: Declared,
    begun: Begun,
    /// Whether that is an interface, or of one.
    has_interface: bool,
    /// The line that began it, and the one that came last.
    at: u64,
    line: u64,
    /// How many parts the types have so far.
    parts: u64,
}

/// Whether a word is a name of IDL.
fn is_name(word: &str) -> bool {
    for octet in word.bytes() {
        if !octet.is_ascii_alphanumeric() && octet != b'_' {
            return false;
        }
    }
    !word.is_empty()
}

/// The name that a word is.
fn name_in(alloc: Global, word: &str) -> Result<String, Refusal> {
    if !is_name(word) {
        return Err(Refusal::Bad(Why::Name));
    }
    Ok(String::from_str(alloc, word)?)
}

/// The member of an exception's body that is its repository id.
fn id_member(alloc: Global) -> Result<Member, AllocError> {
    Ok(Member {
        name: String::from_str(alloc, "-")?,
        shape: Shape::Text(u32::MAX),
    })
}

/// Appends members.
fn add_members(all: &mut Vec<Member>, members: Vec<Member>) -> Result<(), AllocError> {
    for member in members {
        all.push(member)?;
    }
    Ok(())
}

/// The members of an exception's body: its repository id, and these.
fn raised_members(alloc: Global, members: Vec<Member>) -> Result<Vec<Member>, AllocError> {
    let mut all = Vec::new(alloc);
    all.push(id_member(alloc)?)?;
    add_members(&mut all, members)?;
    Ok(all)
}

/// Whether octets are of ASCII, and print.
fn is_plain(octets: &[u8]) -> bool {
    for octet in octets {
        if !matches!(octet, 0x20..=0x7e) {
            return false;
        }
    }
    true
}

/// A line as text, if it is of ASCII that prints.
fn text_in(line: &[u8]) -> Result<&str, Refusal> {
    match str::from_utf8(line) {
        Ok(text) if is_plain(line) => Ok(text),
        _ => Err(Refusal::Bad(Why::Characters)),
    }
}

/// What came of the line of a number.
fn told(line: u64, taken: Result<(), Refusal>) -> Result<(), TypesError> {
    match taken {
        Ok(()) => Ok(()),
        Err(refusal) => Err(refusal.at(line)),
    }
}

/// Appends a member.
fn add_member(members: &mut Vec<Member>, name: String, shape: Shape) -> Result<(), Refusal> {
    members.push(Member { name, shape })?;
    Ok(())
}

/// The first of words, and the others.
fn first_of(words: &str) -> (&str, &str) {
    words.split_once(' ').unwrap_or((words, ""))
}

impl Reader {
    /// Before the first line.
    pub fn new(alloc: Global) -> Reader {
        Reader {
            alloc,
            table: Table::none(alloc),
            declared: BTreeMap::new(alloc),
            begun: Begun::Nothing,
            has_interface: false,
            at: 0,
            line: 0,
            parts: 0,
        }
    }

    /// The type in words, which counts.
    fn typed(&mut self, words: &str) -> Result<Typed, Refusal> {
        let typed = typed_in(self.alloc, &self.declared, words)?;
        self.parts = self.parts.saturating_add(typed.size.parts);
        match self.parts > MOST_PARTS {
            true => Err(Refusal::Bad(Why::Large)),
            false => Ok(typed),
        }
    }

    /// Keeps a type by its repository id.
    fn declare(&mut self, ended: (String, Typed)) -> Result<(), Refusal> {
        let (id, typed) = ended;
        if self.declared.contains_key(id.as_str()) {
            return Err(Refusal::Bad(Why::Twice));
        }
        self.declared.insert(id, typed)?;
        Ok(())
    }

    /// Keeps an exception by its repository id, with which its body begins.
    fn declare_exception(&mut self, fields: Fields) -> Result<(), Refusal> {
        let members = raised_members(self.alloc, fields.members)?;
        self.add_exception(&fields.id, members)
    }

    /// Keeps an exception of these members, of which its repository id is the first.
    fn add_exception(&mut self, id: &str, members: Vec<Member>) -> Result<(), Refusal> {
        let signature = signature(self.alloc, members)?;
        match self.table.add_exception(id.as_bytes(), signature)? {
            true => Ok(()),
            false => Err(Refusal::Bad(Why::Twice)),
        }
    }

    /// Keeps an operation.
    fn add_operation(&mut self, draft: Draft) -> Result<(), Refusal> {
        let (name, operation) = draft.end()?;
        Ok(self.table.add(name, operation)?)
    }

    /// Ends what was begun.
    fn finish(&mut self) -> Result<(), Refusal> {
        match mem::replace(&mut self.begun, Begun::Nothing) {
            Begun::Nothing | Begun::Interface => Ok(()),
            Begun::Struct(fields) => self.declare(fields.end()?),
            Begun::Exception(fields) => self.declare_exception(fields),
            Begun::Enum(names) => self.declare(names.end()?),
            Begun::Union(cases) => self.declare(cases.end()?),
            Begun::Operation(draft) => self.add_operation(draft),
        }
    }

    /// What begins in a line, if something does.
    fn beginning(&mut self, word: &str, words: &str) -> Result<Option<Begun>, Refusal> {
        let alloc = self.alloc;
        let (id, others) = first_of(words);
        if word == "union" && !id.is_empty() {
            let switch = self.typed(others)?;
            return Ok(Some(Begun::Union(Cases::new(alloc, id, switch)?)));
        }
        if id.is_empty() || !others.is_empty() {
            return Ok(None);
        }
        match word {
            "struct" => Ok(Some(Begun::Struct(Fields::new(alloc, id)?))),
            "exception" => Ok(Some(Begun::Exception(Fields::new(alloc, id)?))),
            "enum" => Ok(Some(Begun::Enum(Names::new(alloc, id)?))),
            "interface" => Ok(Some(Begun::Interface)),
            "operation" if is_name(id) => Ok(Some(Begun::Operation(Draft::new(alloc, id)?))),
            _ => Ok(None),
        }
    }

    /// Takes a line that begins something.
    fn begin(&mut self, word: &str, words: &str) -> Result<(), Refusal> {
        if word == "operation" && !self.has_interface {
            return Err(Refusal::Bad(Why::Place));
        }
        let Some(begun) = self.beginning(word, words)? else {
            return Err(Refusal::Bad(Why::Word));
        };
        self.begun = begun;
        self.has_interface = matches!(word, "interface" | "operation");
        self.at = self.line;
        Ok(())
    }

    /// Takes a member or a parameter.
    fn take_member(&mut self, word: &str, words: &str) -> Result<(), Refusal> {
        let (name, words) = first_of(words);
        let typed = self.typed(words)?;
        self.take_typed(word, name, typed)
    }

    /// Takes one of this type.
    fn take_typed(&mut self, word: &str, name: &str, typed: Typed) -> Result<(), Refusal> {
        let name = match (word, name) {
            ("out", "-") => String::from_str(self.alloc, name)?,
            _ => name_in(self.alloc, name)?,
        };
        self.take_named(word, name, typed)
    }

    /// Takes one of this name and type.
    fn take_named(&mut self, word: &str, name: String, typed: Typed) -> Result<(), Refusal> {
        match (word, &mut self.begun) {
            ("member", Begun::Struct(fields) | Begun::Exception(fields)) => {
                fields.take(name, typed)
            }
            ("default", Begun::Union(cases)) => cases.take(None, name, typed),
            ("in", Begun::Operation(draft)) => add_member(&mut draft.arguments, name, typed.shape),
            ("out", Begun::Operation(draft)) => add_member(&mut draft.results, name, typed.shape),
            _ => Err(Refusal::Bad(Why::Place)),
        }
    }

    /// Takes a member of a union at a label.
    fn take_case(&mut self, words: &str) -> Result<(), Refusal> {
        let (label, words) = first_of(words);
        let (name, words) = first_of(words);
        let label = label_in(label)?;
        let typed = self.typed(words)?;
        self.take_labelled(label, name, typed)
    }

    /// Takes one of this type at a label.
    fn take_labelled(&mut self, label: i128, name: &str, typed: Typed) -> Result<(), Refusal> {
        let name = name_in(self.alloc, name)?;
        match &mut self.begun {
            Begun::Union(cases) => cases.take(Some(label), name, typed),
            _ => Err(Refusal::Bad(Why::Place)),
        }
    }

    /// Takes the next name of an enum.
    fn take_name(&mut self, words: &str) -> Result<(), Refusal> {
        let name = name_in(self.alloc, words)?;
        match &mut self.begun {
            Begun::Enum(names) => Ok(names.names.push(name)?),
            _ => Err(Refusal::Bad(Why::Place)),
        }
    }

    /// Takes a line that says what no body shows.
    fn take_other(&self, word: &str, words: &str) -> Result<(), Refusal> {
        match (word, &self.begun) {
            ("base", Begun::Interface) => {}
            ("oneway", Begun::Operation(_)) if words.is_empty() => return Ok(()),
            ("raises", Begun::Operation(_)) => {}
            _ => return Err(Refusal::Bad(Why::Place)),
        }
        match words.is_empty() || words.contains(' ') {
            true => Err(Refusal::Bad(Why::Word)),
            false => Ok(()),
        }
    }

    /// Takes a line that is part of what was begun.
    fn take_part(&mut self, line: &str) -> Result<(), Refusal> {
        let (word, words) = first_of(line);
        match word {
            "member" | "default" | "in" | "out" => self.take_member(word, words),
            "case" => self.take_case(words),
            "name" => self.take_name(words),
            "base" | "oneway" | "raises" => self.take_other(word, words),
            _ => Err(Refusal::Bad(Why::Word)),
        }
    }

    /// Takes a line behind the first.
    fn take(&mut self, line: &[u8]) -> Result<(), TypesError> {
        self.line = self.line.saturating_add(1);
        match text_in(line) {
            Ok(line) => self.take_text_line(line),
            Err(refusal) => Err(refusal.at(self.line)),
        }
    }

    /// Takes such a line as text.
    fn take_text_line(&mut self, line: &str) -> Result<(), TypesError> {
        if line.is_empty() || line.starts_with('#') {
            return Ok(());
        }
        let (word, words) = first_of(line);
        if !begins(word) {
            let taken = self.take_part(line);
            return told(self.line, taken);
        }
        self.end()?;
        let taken = self.begin(word, words);
        told(self.line, taken)
    }

    /// Ends what was begun.
    fn end(&mut self) -> Result<(), TypesError> {
        let taken = self.finish();
        told(self.at, taken)
    }

    /// Ends what was begun, and goes on with the first line of another text.
    fn begin_anew(&mut self) -> Result<(), TypesError> {
        self.end()?;
        self.has_interface = false;
        self.line = 0;
        Ok(())
    }

    /// Takes the lines of a text behind its first.
    fn take_all(&mut self, text: &[u8]) -> Result<(), TypesError> {
        for line in text.split(|octet| *octet == b'\n') {
            self.take(line)?;
        }
        self.end()
    }

    /// Takes the operations of all objects.
    fn take_usual(&mut self) -> Result<(), TypesError> {
        for line in USUAL {
            self.take(line.as_bytes())?;
        }
        self.begin_anew()
    }

    /// Takes those, and a text.
    fn take_text(&mut self, text: &[u8]) -> Result<(), TypesError> {
        self.take_usual()?;
        match text.strip_prefix(HEAD) {
            Some(lines) if matches!(lines, [] | [b'\n', ..]) => self.take_all(lines),
            _ => Err(TypesError::Line(1, Why::Head)),
        }
    }
}

/// The table in a text.
pub(crate) fn table_in(alloc: Global, text: &[u8]) -> Result<Table, TypesError> {
    let mut reader = Reader::new(alloc);
    match reader.take_text(text) {
        Ok(()) => Ok(reader.table),
        Err(error) => Err(error),
    }
}

/// Whether a line that begins with this word begins something.
fn begins(word: &str) -> bool {
    matches!(
        word,
        "struct" | "exception" | "enum" | "union" | "interface" | "operation"
    )
}
