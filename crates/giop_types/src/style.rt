//! In which form values are printed.

/// In which form values are printed.
#[derive(Clone, Copy)]
pub enum Style {
    /// As a person reads them.
    Words,
    /// As a value of JSON.
    Json,
}
