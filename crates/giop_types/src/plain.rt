//! Types that are not made of others: their names, and their forms in octets.

use crate::shape::Plain;
use cdr_core::Ty;

/// The type of a name, if it is one of these.
pub(crate) fn plain_of(name: &str) -> Option<Plain> {
    match name {
        "boolean" => Some(Plain::Boolean),
        "char" => Some(Plain::Char),
        "octet" => Some(Plain::Octet),
        "short" => Some(Plain::Short),
        "ushort" => Some(Plain::UShort),
        "long" => Some(Plain::Long),
        "ulong" => Some(Plain::ULong),
        "longlong" => Some(Plain::LongLong),
        "ulonglong" => Some(Plain::ULongLong),
        "float" => Some(Plain::Float),
        "double" => Some(Plain::Double),
        _ => None,
    }
}

/// The form of its values. The octets of a float are those of an unsigned long with its bits, of a double those of an
/// unsigned long long (CDR 9.3.1.3).
pub(crate) fn plain_form(plain: Plain) -> Ty {
    match plain {
        Plain::Boolean => Ty::Boolean,
        Plain::Char => Ty::Char,
        Plain::Octet => Ty::Octet,
        Plain::Short => Ty::Short,
        Plain::UShort => Ty::UShort,
        Plain::Long => Ty::Long,
        Plain::ULong | Plain::Float => Ty::ULong,
        Plain::LongLong => Ty::LongLong,
        Plain::ULongLong | Plain::Double => Ty::ULongLong,
    }
}
