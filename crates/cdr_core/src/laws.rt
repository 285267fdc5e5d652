//! Laws over the definitions. Each is ensured by a function with an empty body, which a crate above
//! calls where a proof of its own rests on the law.
//!
//! They tie reading and writing (`specs/Reading.antt`, `Writing.antt`) to what octets mean
//! (`specs/Spelling.antt`, `Stopping.antt`).

ghost use Rattle.cdr_core.specs.Laws.{ByteOrderIsRead, ByteOrderStops, EitherWay, EncapsulatedStops, FaultsStop, FittingIsWritable, LengthIsUnsignedLong, NotBoth, OneFault, OneFront, PaddingIsLeast, ReadFits, ReadIsSpelled, SpelledFits, SpelledIsRead, StopsAreFaults, WrittenIsOctets, WrittenIsRead, WrittenIsSpelled, WrittenValuesAreRead};
ghost use Rattle.cdr_core.specs.Numbers.{AreOctets};

/// Padding is the fewest octets that lead to a place divisible by the alignment
/// (CDR 9.3.1.1).
#[tactic(auto, using(crate::proofs::Padding::least))]
pub fn padding_is_least()
    ensures { PaddingIsLeast }
{}

/// What is read is spelled.
#[tactic(auto, using(crate::proofs::Found::found))]
pub fn read_is_spelled()
    ensures { ReadIsSpelled }
{}

/// What is spelled is read, whatever follows.
#[tactic(auto, using(crate::proofs::Only::only))]
pub fn spelled_is_read()
    ensures { SpelledIsRead }
{}

/// At most one front of any octets is a spelling of a type at an offset, and of one value.
#[tactic(auto, using(crate::proofs::Unique::one_front))]
pub fn one_front()
    ensures { OneFront }
{}

/// A front of any octets is a spelling, or they have a fault.
pub fn either_way()
    ensures { EitherWay }
{}

/// Octets of which a front is a spelling have no fault.
#[tactic(auto, using(crate::proofs::Answered::not_both))]
pub fn not_both()
    ensures { NotBoth }
{}

/// Octets have one first fault.
#[tactic(auto, using(crate::proofs::Answered::one_fault))]
pub fn one_fault()
    ensures { OneFault }
{}

/// Reading returns the first fault of the octets, and no other.
#[tactic(auto, using(crate::proofs::Stops::fails, crate::proofs::Stops::tells))]
pub fn faults_stop()
    ensures stop { FaultsStop }
    ensures faults { StopsAreFaults }
{}

/// What is written for a value is a spelling by every type that the value fits.
#[tactic(auto, using(crate::proofs::Written::spelled))]
pub fn written_is_spelled()
    ensures { WrittenIsSpelled }
{}

/// What is written for a value is read again by every type that the value fits, whatever follows; and
/// so are values, one after another, by a list of types.
#[tactic(auto, using(crate::proofs::Again::read_again, crate::proofs::Again::all_read_again))]
pub fn written_is_read()
    ensures value { WrittenIsRead }
    ensures values { WrittenValuesAreRead }
{}

/// A value that fits a type can be written.
#[tactic(auto, using(crate::proofs::MayWrite::may))]
pub fn fitting_is_writable()
    ensures { FittingIsWritable }
{}

/// What octets spell by a valid type fits it.
#[tactic(auto, using(crate::proofs::SpelledFits::spelled_fits))]
pub fn spelled_fits()
    ensures { SpelledFits }
{}

/// A value that was read by a valid type fits it, and can be written.
#[tactic(auto, using(crate::proofs::SpelledFits::read_fits))]
pub fn read_fits()
    ensures { ReadFits }
{}

/// What is written for a value is octets, where each octet in it is one.
#[tactic(auto, using(crate::proofs::WrittenOctets::written_octets))]
pub fn written_is_octets()
    ensures { WrittenIsOctets }
{}

/// A length without a bound, as `Cursor::count` reads it, is an unsigned long.
#[tactic(auto, using(crate::proofs::Counts::count_is))]
pub fn length_is_unsigned_long()
    ensures { LengthIsUnsignedLong }
{}

/// The first octet of an encapsulation gives its byte order, and a fault exactly where there is none or
/// it is no boolean (CDR 9.3.3).
#[tactic(auto, using(crate::proofs::Refused::byte_order_read))]
pub fn byte_order_is_read()
    ensures read { ByteOrderIsRead }
    ensures stops { ByteOrderStops }
{}

/// Reading a value in an encapsulation returns the first fault of the octets there, and no other.
pub fn encapsulated_stops()
    ensures { EncapsulatedStops }
{}

/// A slice of `u8` holds octets, a premise of the laws of reading.
pub fn are_octets(octets: &[u8])
    ensures { AreOctets octets.now }
{}
