//! What the octets of service contexts and of components say, where the standard has names for it: code sets (IOP 7.10.2), the
//! ORB that made a reference and other addresses of an object (IOP 7.6.6).

use crate::names::component_name;
use crate::text::host_port;
use cdr_core::Cursor;
use ior_core::Component;
use std::alloc::{AllocError, Global};

/// The tags of components whose octets have names.
const ORB_TYPE: u32 = 0;

const CODE_SETS: u32 = 1;

const ALTERNATE_IIOP_ADDRESS: u32 = 3;

/// The service context that says in which code sets characters come.
const CODE_SETS_CONTEXT: u32 = 1;

/// What stands for octets that are not what their number says.
const BAD: &str = "bad";

/// The name of a code set, by its number in the registry of the Open Group. None: it is none of those in use.
pub fn code_set_name(number: u32) -> Option<&'static str> {
    let name = match number {
        0x0000_0000 => "none",
        0x0001_0001 => "ISO-8859-1",
        0x0001_0002 => "ISO-8859-2",
        0x0001_0003 => "ISO-8859-3",
        0x0001_0004 => "ISO-8859-4",
        0x0001_0005 => "ISO-8859-5",
        0x0001_0006 => "ISO-8859-6",
        0x0001_0007 => "ISO-8859-7",
        0x0001_0008 => "ISO-8859-8",
        0x0001_0009 => "ISO-8859-9",
        0x0001_000a => "ISO-8859-10",
        0x0001_000f => "ISO-8859-15",
        0x0001_0020 => "ISO-646",
        0x0001_0100..=0x0001_0102 => "UCS-2",
        0x0001_0104..=0x0001_0106 => "UCS-4",
        0x0001_0108 => "UTF-1",
        0x0001_0109 => "UTF-16",
        0x0003_0010 => "EUC-JP",
        0x0004_000a => "EUC-KR",
        0x0501_0001 => "UTF-8",
        0x1002_04e4 => "windows-1252",
        _ => return None,
    };
    Some(name)
}

/// Appends a code set.
fn put_code_set(number: u32, text: &mut String) -> Result<(), AllocError> {
    match code_set_name(number) {
        Some(name) => text.push_str(name),
        None => write!(text, "{number:#010x}"),
    }
}

/// The code sets of one kind of characters in a component: the native one, and those others that are converted. None: there
/// are none.
fn code_sets_in(alloc: Global, cursor: &mut Cursor) -> Result<Option<Vec<u32>>, AllocError> {
    let mut sets = Vec::new(alloc);
    let Ok(native) = cursor.ulong() else {
        return Ok(None);
    };
    let Ok(count) = cursor.count() else {
        return Ok(None);
    };
    sets.push(native)?;
    for _ in 0..count {
        match cursor.ulong() {
            Ok(set) if set == native => {}
            Ok(set) => sets.push(set)?,
            Err(_) => return Ok(None),
        }
    }
    Ok(Some(sets))
}

/// Appends code sets, the native one first.
fn put_code_sets(sets: &[u32], text: &mut String) -> Result<(), AllocError> {
    for (place, set) in sets.iter().enumerate() {
        if place > 0 {
            text.push_str(" or ")?;
        }
        put_code_set(*set, text)?;
    }
    Ok(())
}

/// Appends the code sets that a component offers.
fn put_offered(alloc: Global, octets: &[u8], text: &mut String) -> Result<(), AllocError> {
    let Ok(mut cursor) = Cursor::encapsulated(octets) else {
        return text.push_str(BAD);
    };
    let Some(narrow) = code_sets_in(alloc, &mut cursor)? else {
        return text.push_str(BAD);
    };
    let Some(wide) = code_sets_in(alloc, &mut cursor)? else {
        return text.push_str(BAD);
    };
    text.push_str("char ")?;
    put_code_sets(&narrow, text)?;
    text.push_str(", wchar ")?;
    put_code_sets(&wide, text)
}

/// The two code sets that a service context chooses.
fn chosen_in(octets: &[u8]) -> Option<(u32, u32)> {
    let mut cursor = Cursor::encapsulated(octets).ok()?;
    let narrow = cursor.ulong().ok()?;
    let wide = cursor.ulong().ok()?;
    Some((narrow, wide))
}

/// Appends the code sets that a service context chooses.
fn put_chosen(octets: &[u8], text: &mut String) -> Result<(), AllocError> {
    let Some((narrow, wide)) = chosen_in(octets) else {
        return text.push_str(BAD);
    };
    text.push_str("char ")?;
    put_code_set(narrow, text)?;
    text.push_str(", wchar ")?;
    put_code_set(wide, text)
}

/// The number of the ORB in a component.
fn orb_in(octets: &[u8]) -> Option<u32> {
    Cursor::encapsulated(octets).ok()?.ulong().ok()
}

/// Appends the ORB that a component names: those whose numbers the OMG has given out, and else the number.
fn put_orb(octets: &[u8], text: &mut String) -> Result<(), AllocError> {
    match orb_in(octets) {
        Some(0x4154_5400) => text.push_str("omniORB"),
        Some(0x5441_4f00) => text.push_str("TAO"),
        Some(0x4a41_4300) => text.push_str("JacORB"),
        Some(number) => write!(text, "{number:#010x}"),
        None => text.push_str(BAD),
    }
}

/// The address in a component: its host, without the NUL, and its port.
fn address_in<'c>(octets: &'c [u8]) -> Option<(&'c [u8], u16)> {
    let mut cursor = Cursor::encapsulated(octets).ok()?;
    let host = cursor.string().ok()?;
    let port = cursor.ushort().ok()?;
    Some((host, port))
}

/// Appends the address in a component.
fn put_address(alloc: Global, octets: &[u8], text: &mut String) -> Result<(), AllocError> {
    let Some((host, port)) = address_in(octets) else {
        return text.push_str(BAD);
    };
    text.push_str(&host_port(alloc, host, port)?)
}

/// What the octets of a component say: code sets, an ORB or an address, or `bad` where they are none. None: its tag says
/// nothing of them.
pub fn component_meaning(
    alloc: Global,
    tag: u32,
    octets: &[u8],
) -> Result<Option<String>, AllocError> {
    let mut text = String::new(alloc);
    match tag {
        ORB_TYPE => put_orb(octets, &mut text)?,
        CODE_SETS => put_offered(alloc, octets, &mut text)?,
        ALTERNATE_IIOP_ADDRESS => put_address(alloc, octets, &mut text)?,
        _ => return Ok(None),
    }
    Ok(Some(text))
}

/// Appends the name of a component, or its tag, how many octets it has, and what they say.
pub fn put_component(
    alloc: Global,
    component: &Component,
    text: &mut String,
) -> Result<(), AllocError> {
    let tag = component.tag;
    match component_name(tag) {
        Some(name) => write!(text, "component {name}")?,
        None => write!(text, "component {tag}")?,
    }
    let count = component.octets.len();
    write!(text, ", {count} octets")?;
    match component_meaning(alloc, tag, &component.octets)? {
        Some(meaning) => write!(text, ": {meaning}"),
        None => Ok(()),
    }
}

/// What the octets of a service context say: code sets, or `bad` where they are none. None: its id says nothing of them.
pub fn context_meaning(
    alloc: Global,
    id: u32,
    octets: &[u8],
) -> Result<Option<String>, AllocError> {
    if id != CODE_SETS_CONTEXT {
        return Ok(None);
    }
    let mut text = String::new(alloc);
    put_chosen(octets, &mut text)?;
    Ok(Some(text))
}
