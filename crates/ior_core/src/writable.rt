//! Which strings and lists of references and profiles can be written.

ghost use Rattle.std.specs.Prelude.{◌↔◌, ◌<◌, ◌^◌, IsTrue};
ghost use Rattle.cdr_core.specs.Value as value;
ghost use Rattle.cdr_core.specs.Writing.{AreWritable, IsWritable};
ghost use Rattle.ior_core.specs.View.{list_value, tagged_values};

use crate::tagged::Tagged;
use cdr_core::has_no_nul;

/// Whether a length or a count fits an unsigned long.
pub(crate) fn is_length(length: usize) -> bool
    ensures { IsTrue result ↔ (length < 2 ^ 32) }
{
    length <= u32::MAX as usize
}

/// Whether octets can be written as a string: none is NUL, and the length with the NUL at the end
/// fits an unsigned long.
pub(crate) fn is_string_writable(octets: &[u8]) -> bool
    ensures { IsTrue result ↔ IsWritable (value.string octets.now) }
{
    octets.len() < u32::MAX as usize && has_no_nul(octets)
}

/// Whether each item's octets can be written.
fn are_writable(all: &[Tagged]) -> bool
    ensures { IsTrue result ↔ AreWritable (tagged_values all.now) }
{
    for one in all {
        if !is_length(one.octets.len()) {
            return false;
        }
    }
    true
}

/// Whether the items can be written as a sequence.
#[tactic(auto, using(cdr_core::proofs::Turns::count_values))]
pub(crate) fn is_list_writable(all: &[Tagged]) -> bool
    ensures { IsTrue result ↔ IsWritable (list_value all.now) }
{
    is_length(all.len()) && are_writable(all)
}
