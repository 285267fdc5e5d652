//! Values compared with texts, without memory.

use std::fmt;
use std::fmt::{Debug, Display, Write};

/// What is left of a text. Writing what the text begins with removes that; writing anything else fails.
#[derive(Drop)]
struct Left<'a>(&'a str);

impl fmt::Write for Left<'_> {
    ghost use Rattle.std.specs.Prelude.{◌≡◌, ◌++◌};

    ghost write_str_gives = { λ before written after. before.0.now ≡ written ++ after.0.now };

    fn write_str(&mut self, s: &str) -> fmt::Result {
        self.0 = self.0.strip_prefix(s).ok_or(fmt::Error)?;
        Ok(())
    }
}

/// Whether `{:?}` prints a value as the text. It takes no memory.
pub(crate) fn is_printed_as<T: Debug>(value: &T, text: &str) -> bool {
    let mut left = Left(text);
    write!(left, "{value:?}").is_ok() && left.0.is_empty()
}

/// Whether `{}` prints a value as the text. It takes no memory.
pub(crate) fn is_shown_as<T: Display>(value: &T, text: &str) -> bool {
    let mut left = Left(text);
    write!(left, "{value}").is_ok() && left.0.is_empty()
}
