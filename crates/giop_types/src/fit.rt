//! A body as types have it, and its texts.

use crate::printing::{put_call, put_raised, put_results};
use crate::signature::Signature;
use crate::style::Style;
use cdr_core::Val;
use std::alloc::{AllocError, Global};

/// A body as types have it.
#[derive(Drop)]
pub struct Fit<'t> {
    /// How many other types were tried before these.
    pub place: usize,
    pub signature: &'t Signature,
    pub values: Vec<Val>,
}

impl Fit<'_> {
    /// The text of a request for an operation with these arguments.
    pub fn call_text(
        &self,
        alloc: Global,
        style: Style,
        operation: &[u8],
    ) -> Result<String, AllocError> {
        let mut text = String::new(alloc);
        let members = self.signature.members();
        put_call(alloc, style, operation, members, &self.values, &mut text)?;
        Ok(text)
    }

    /// The text of a reply with these results.
    pub fn results_text(&self, alloc: Global, style: Style) -> Result<String, AllocError> {
        let mut text = String::new(alloc);
        put_results(
            alloc,
            style,
            self.signature.members(),
            &self.values,
            &mut text,
        )?;
        Ok(text)
    }

    /// The text of the exception of a repository id with these members, the first of which is that id.
    pub fn raised_text(
        &self,
        alloc: Global,
        style: Style,
        id: &[u8],
    ) -> Result<String, AllocError> {
        let mut text = String::new(alloc);
        let members = self.signature.members();
        put_raised(alloc, style, id, members, &self.values, &mut text)?;
        Ok(text)
    }
}
