//! How many octets are to be written, before they are.

ghost use Rattle.std.specs.Prelude.{◌≡◌, ◌↔◌, ◌+◌, ◌<◌, ◌≤◌, ◌^◌, IsTrue, length};
ghost use Rattle.lemonrudder.specs.Sizes.{HasRoom, behind, contexts_end, ft_end, profile_end, profiles_end, Within, text_size};

use crate::refusal::{Refusal, count_of};
use ior_core::{Ior, Profile};

/// The most octets that have a count.
pub const COUNTED: u64 = 4_294_967_295;

/// The most octets of a message, whose header counts those behind it.
pub const MOST: u64 = 4_294_967_307;

/// A place that no room reaches.
const FAR: u64 = 1 << 62;

/// Judges whether so many octets are within a limit, and whether there is room for all.
pub fn check_room(limit: u64, size: u64, room: &[u8]) -> Result<(), Refusal>
    ensures { HasRoom limit size (length room.now) result }
{
    if size > limit {
        return Err(Refusal::Long);
    }
    if count_of(room) < size {
        return Err(Refusal::Room);
    }
    Ok(())
}

/// Where so many octets end that stand behind their count, at a place.
#[tactic(auto, unfolding(crate::specs::Sizes::behind))]
pub fn behind(place: u64, count: u64) -> u64
    requires { place + count < 2 ^ 63 + 2 ^ 62 + 2 ^ 61 }
    ensures is { result ≡ behind place count }
    ensures most { result ≤ place + count + 7 }
{
    let padding = (4 - place % 4) % 4;
    place + padding + 4 + count
}

/// Where service contexts end at a place: one of so many octets, or none.
#[tactic(auto, using(crate::proofs::Sized::contexts_none, crate::proofs::Sized::contexts_some))]
pub fn contexts_end(place: u64, context: u64) -> u64
    requires { place + context < 2 ^ 62 }
    ensures is { result ≡ contexts_end place context }
    ensures most { result ≤ place + context + 21 }
{
    let count = behind(place, 0);
    if context == 0 {
        return count;
    }
    behind(behind(count, 0), context)
}

/// How many octets the data of an FT_REQUEST context has, by those of the client id.
pub fn ft_end(client: u64) -> u64
    requires { client < 2 ^ 63 }
    ensures { result ≡ ft_end client }
{
    let place = behind(behind(1, client + 1), 0);
    let padding = (8 - place % 8) % 8;
    place + padding + 8
}

/// How many octets the profile of an address has in its encapsulation, by those of the host and of the key.
#[tactic(auto, using(crate::proofs::Sized::bare_profile, crate::proofs::Sized::whole_profile))]
pub fn profile_end(minor: u8, host: u64, key: u64) -> u64
    requires { (host < 2 ^ 32) × (key < 2 ^ 32) }
    ensures { result ≡ profile_end minor host key }
{
    let place = behind(3, host + 1);
    let padding = (2 - place % 2) % 2;
    let end = behind(place + padding + 2, key);
    if minor == 0 {
        return end;
    }
    behind(end, 0)
}

/// Where profiles end at a place, if no room ends before.
#[tactic(auto, using(crate::proofs::Sized::profiles_next, crate::proofs::Sized::profiles_least))]
fn profiles_end(place: u64, profiles: &[Profile]) -> Option<u64>
    ensures { Within result (profiles_end place profiles.now) }
{
    let mut end = place;
    for profile in profiles {
        if end >= FAR {
            return None;
        }
        end = behind(behind(end, 0), count_of(&profile.octets));
    }
    Some(end)
}

/// Whether a room has as many octets as the text of a reference has characters.
pub fn has_room_for_text(ior: &Ior, room: &[u8]) -> bool
    ensures { IsTrue result ↔ (text_size ior.now ≤ length room.now) }
{
    let count = behind(behind(1, count_of(&ior.type_id) + 1), 0);
    let Some(end) = profiles_end(count, &ior.profiles) else {
        return false;
    };
    if end > count_of(room) / 2 {
        return false;
    }
    4 + 2 * end <= count_of(room)
}
