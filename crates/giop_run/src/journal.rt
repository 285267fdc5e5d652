//! What an engine asked for, in lines.

use ft_orb::Asked;
use giop_text::text_of;
use std::alloc::{AllocError, Global};

/// The lines of what was asked for and not yet printed. Where an allocation fails for a line, nothing of it is here.
#[derive(Drop)]
pub(crate) struct Journal {
    pub(crate) alloc: Global,
    /// Whether each request that is asked for has a line.
    pub(crate) has_asks: bool,
    pub(crate) lines: Vec<u8>,
}

/// Appends what is asked for: its connection, its object key and its operation.
fn put_call(alloc: Global, asked: &Asked<'_>, line: &mut String) -> Result<(), AllocError> {
    let connection = asked.connection;
    write!(line, "{connection} ")?;
    line.push_str(&text_of(alloc, asked.object_key)?)?;
    line.push(' ')?;
    line.push_str(&text_of(alloc, asked.operation)?)?;
    line.push('\n')
}

impl Journal {
    /// Without lines.
    pub(crate) fn new(alloc: Global, has_asks: bool) -> Journal {
        Journal {
            alloc,
            has_asks,
            lines: Vec::new(alloc),
        }
    }

    /// A request that is asked for.
    pub(crate) fn put_asked(&mut self, asked: &Asked<'_>) -> Result<(), AllocError> {
        if !self.has_asks {
            return Ok(());
        }
        let mut line = String::from_str(self.alloc, "ask ")?;
        put_call(self.alloc, asked, &mut line)?;
        self.lines.extend_from_slice(line.as_bytes())
    }

    /// A request that is to be parked.
    pub(crate) fn put_parked(&mut self, asked: &Asked<'_>) -> Result<(), AllocError> {
        let number = asked.number;
        let mut line = format!(in self.alloc; "parked {number} ")?;
        put_call(self.alloc, asked, &mut line)?;
        self.lines.extend_from_slice(line.as_bytes())
    }

    /// A repeat of a request that is parked.
    pub(crate) fn put_repeat(&mut self, connection: u64) -> Result<(), AllocError> {
        let line = format!(in self.alloc; "repeat {connection}\n")?;
        self.lines.extend_from_slice(line.as_bytes())
    }
}
