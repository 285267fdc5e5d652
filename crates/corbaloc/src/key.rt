//! Keys of locations.

ghost use Rattle.std.specs.Prelude.{◌≡◌, ◌≢◌, ◌<◌, ◌+◌, ◌*◌, ℕ, List, length, slice_index, IfErr, IfOk, IfSome, MatchOption};
ghost use Rattle.std.specs.Char.{digit_value};
ghost use Rattle.corbaloc.specs.Faults.{IsKeyFault};
ghost use Rattle.corbaloc.specs.Grammar.{is_plain, SpellsKey, TakesOctet};

use crate::error::LocationError;
use crate::places::place_of;
use std::alloc::Global;

/// Whether an octet of a key stands for itself.
fn is_plain(octet: u8) -> bool
    ensures { result ≡ is_plain octet }
{
    octet.is_ascii_alphanumeric() || b";/:?@&=+$,-_.!~*'()".contains(&octet)
}

/// The value of a hexadecimal digit.
fn digit(octet: u8) -> Option<u8>
    ensures { MatchOption result (digit_value octet < 16 → ⊥) (λ d. (digit_value octet < 16) × (d ≡ digit_value octet)) }
{
    match octet {
        b'0'..=b'9' => Some(octet - b'0'),
        b'A'..=b'F' => Some(octet - b'A' + 10),
        b'a'..=b'f' => Some(octet - b'a' + 10),
        _ => None,
    }
}

/// The octet that two hexadecimal digits stand for.
fn octet_of(high: u8, low: u8) -> Option<u8>
    ensures { MatchOption result (digit_value high < 16 → digit_value low < 16 → ⊥) (λ octet. (digit_value high < 16) × (digit_value low < 16) × (octet ≡ 16 * digit_value high + digit_value low)) }
{
    Some(16 * digit(high)? + digit(low)?)
}

/// The first octet of the key that a text spells, and what follows it. The text is not empty, and
/// begins at this place.
fn first_octet(at: usize, text: &[u8]) -> Result<(u8, &[u8]), LocationError>
    ensures spelled { IfOk result (λ x. TakesOctet text.now x.0 x.1.now) }
    ensures shorter { IfOk result (λ x. length x.1.now < length text.now) }
    ensures refused { IfErr result (λ e. (octet : ℕ) (rest : List ℕ) → TakesOctet text.now octet rest → ⊥) }
    ensures escape { IfErr result (λ e. slice_index text.now 0 ≡ 37 → e ≡ LocationError.BadEscape at) }
    ensures unescaped { IfErr result (λ e. slice_index text.now 0 ≢ 37 → e ≡ LocationError.Unescaped at) }
{
    match text {
        [b'%', high, low, rest @ ..] => {
            let octet = octet_of(*high, *low).ok_or(LocationError::BadEscape(at))?;
            Ok((octet, rest))
        }
        [b'%', ..] => Err(LocationError::BadEscape(at)),
        [octet, rest @ ..] if is_plain(*octet) => Ok((*octet, rest)),
        _ => Err(LocationError::Unescaped(at)),
    }
}

/// The octets of the key that a text spells, which begins at this place.
pub(crate) fn key_in(alloc: Global, at: usize, text: &[u8]) -> Result<Vec<u8>, LocationError>
    ensures spelled { IfOk result (λ key. SpellsKey text.now key.items) }
    ensures refused { IfErr result (λ e. e ≢ LocationError.Memory → IsKeyFault at text.now e) }
{
    let mut key = Vec::new(alloc);
    let mut left = text;
    while !left.is_empty() {
        let (octet, rest) = first_octet(place_of(at, text.len(), left.len()), left)?;
        key.push(octet)?;
        left = rest;
    }
    Ok(key)
}
