//! Laws over the definitions, and over the values of the code's types: each is what a function ensures
//! that has nothing to compute.

ghost use Rattle.std.specs.Prelude.{◌≡◌};
ghost use Rattle.cdr_core.specs.Laws.{IsReadAgain};
ghost use Rattle.cdr_core.specs.Writing.{IsWritable};
ghost use Rattle.ior_core.specs.Grammar.{reference};
ghost use Rattle.ior_core.specs.Laws.{IsTextReadAgain, ProfilesAreSpelled, ProfilesStop, ReferencesAreSpelled, ReferencesStop, SpelledProfilesAreRead, SpelledReferencesAreRead, WrittenProfileIsRead, WrittenTextIsRead};
ghost use Rattle.ior_core.specs.Private.{AreOfCode};
ghost use Rattle.ior_core.specs.Profiles.{body_of, iiop_body, IsWritableProfile};
ghost use Rattle.ior_core.specs.View.{ior_value};
ghost use Rattle.ior_core.specs.Writing.{encapsulation_of};

use crate::profile::IiopProfile;
use crate::reference::Ior;
use crate::tagged::Tagged;

/// A reference is read from an encapsulation exactly where the octets spell it.
#[tactic(auto, using(crate::proofs::Enclosed::references_found))]
pub fn references_are_spelled()
    ensures spelled { ReferencesAreSpelled }
    ensures read { SpelledReferencesAreRead }
{
    cdr_core::laws::read_is_spelled();
    cdr_core::laws::spelled_is_read();
}

/// A profile is read from an encapsulation exactly where the octets spell it.
#[tactic(auto, using(crate::proofs::Enclosed::profiles_found))]
pub fn profiles_are_spelled()
    ensures spelled { ProfilesAreSpelled }
    ensures read { SpelledProfilesAreRead }
{
    cdr_core::laws::read_is_spelled();
    cdr_core::laws::spelled_is_read();
}

/// Reading a reference in an encapsulation returns the first fault of the octets there, and no other.
/// The fault of the byte order's octet comes before those of the reference.
pub fn references_stop()
    ensures { ReferencesStop }
{
    cdr_core::laws::faults_stop();
}

/// Reading a profile returns the first fault of its octets, and no other: that of the byte order's
/// octet, of the members that each version has, or of the type that the version gives.
pub fn profiles_stop()
    ensures { ProfilesStop }
{
    cdr_core::laws::read_is_spelled();
    cdr_core::laws::spelled_is_read();
    cdr_core::laws::faults_stop();
}

/// A text or a profile that was written is read as the same reference or the same profile.
#[tactic(auto, using(crate::proofs::Enclosed::text_read, crate::proofs::Enclosed::profile_read))]
pub fn written_is_read()
    ensures text { WrittenTextIsRead }
    ensures profile { WrittenProfileIsRead }
{
    cdr_core::laws::read_is_spelled();
    cdr_core::laws::spelled_is_read();
    cdr_core::laws::written_is_spelled();
}

/// What the types say of items: each tag is an unsigned long, and octets are octets.
fn are_of_code(all: &[Tagged])
    ensures { AreOfCode all.now }
{
    for one in all {
        let _tag = one.tag;
        cdr_core::laws::are_octets(&one.octets);
    }
}

/// A reference that can be written is read again: from its octets in either byte order at any place,
/// whatever follows, and from its text.
pub fn written_reference_is_read(ior: &Ior)
    requires { IsWritable (ior_value ior.now) }
    ensures octets { IsReadAgain reference (ior_value ior.now) }
    ensures text { IsTextReadAgain (ior_value ior.now) }
{
    cdr_core::laws::are_octets(&ior.type_id);
    are_of_code(&ior.profiles);
    cdr_core::laws::written_is_read();
    written_is_read();
}

/// A profile that can be written is read again from its octets.
pub fn written_profile_is_read(profile: &IiopProfile)
    requires { IsWritableProfile profile.now }
    ensures { body_of (encapsulation_of (iiop_body profile.now)) ≡ Ok (iiop_body profile.now) }
{
    let _minor = profile.minor;
    let _port = profile.port;
    are_of_code(&profile.components);
    written_is_read();
}
