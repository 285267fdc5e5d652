//! The exceptions in the bodies of replies (GIOP 9.4.3.2).

use cdr_core::Cursor;
use giop_core::Body;

/// A system exception.
#[derive(Clone, Copy, Debug)]
pub struct SystemException<'m> {
    /// Its repository id, without the NUL.
    pub id: &'m [u8],
    pub minor: u32,
    /// Whether the operation was performed: yes 0, no 1, maybe 2.
    pub completed: u32,
}

/// A cursor at the beginning of a body.
fn cursor_at<'m>(body: &Body<'m>) -> Option<Cursor<'m>> {
    let at = u32::try_from(body.at).ok()?;
    Some(Cursor::new(body.octets, body.order, u64::from(at)))
}

/// The system exception that a body is: its id, its minor code and its completion. None where the body is none, or its
/// completion is none that the standard has (CDR 9.3.2.6: an enum's number is one of its members).
pub fn system_exception<'m>(body: &Body<'m>) -> Option<SystemException<'m>> {
    let mut cursor = cursor_at(body)?;
    let id = cursor.string().ok()?;
    let minor = cursor.ulong().ok()?;
    let completed = cursor.ordinal(3).ok()?;
    Some(SystemException {
        id,
        minor,
        completed,
    })
}

/// The repository id of the exception that a body begins with. None where it begins with none.
pub fn exception_id<'m>(body: &Body<'m>) -> Option<&'m [u8]> {
    let mut cursor = cursor_at(body)?;
    cursor.string().ok()
}
