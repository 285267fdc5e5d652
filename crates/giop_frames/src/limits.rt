//! The limits under which a stream is read.

ghost use Rattle.std.specs.Prelude.{◌≤◌};

/// Where a message of 1.1 may be cut: GIOP 9.4.9 leaves open whether the alignment in a Fragment of 1.1 counts from its
/// own beginning or the message's.
#[derive(Clone, Copy, Debug, PartialEq, Eq)]
pub enum Cuts {
    /// Where both ways agree: where the octets of each frame but the last, its header among them, leave 4 when divided
    /// by 8 (own rule).
    Aligned,
    /// Anywhere. The frames are joined by their octets, so what is aligned across a cut lies as the sender counted it,
    /// which the message doesn't tell.
    Anywhere,
}

/// How long a message may be, how many may be partial at a time, and where one of 1.1 may be cut.
#[derive(Clone, Copy, Debug, PartialEq, Eq)]
pub struct Limits {
    /// How many octets a message may have, its header among them: 4,096 to 16,777,216.
    pub message: u32,
    /// How many messages may be partial at a time, which are those whose fragments have not all come: 1 to 16.
    pub partials: u8,
    /// Where a message of 1.1 may be cut.
    pub cuts: Cuts,
    ghost message_in_range: { (4096 ≤ message) × (message ≤ 16777216) },
    ghost partials_in_range: { (1 ≤ partials) × (partials ≤ 16) },
}

impl Limits {
    ghost use Rattle.std.specs.Prelude.{◌≡◌, ◌↔◌, ◌≤◌, IsSome, IfSome};

    /// The limits of a message's octets and of partial messages, where both numbers lie in their ranges. Cuts are to be
    /// aligned.
    pub fn new(message: u32, partials: u8) -> Option<Limits>
        ensures in_range { IsSome result ↔ ((4096 ≤ message) × (message ≤ 16777216) × (1 ≤ partials) × (partials ≤ 16)) }
        ensures numbers { IfSome result (λ l. (l.message ≡ message) × (l.partials ≡ partials)) }
        ensures cuts { IfSome result (λ l. l.cuts ≡ Cuts.Aligned) }
    {
        if message < 4_096 || 16_777_216 < message || partials == 0 || 16 < partials {
            return None;
        }
        Some(Limits {
            message,
            partials,
            cuts: Cuts::Aligned,
        })
    }

    /// These limits with other cuts of 1.1.
    pub fn with_cuts(mut self, cuts: Cuts) -> Limits
        ensures { result ≡ record self { cuts = cuts } }
    {
        self.cuts = cuts;
        self
    }
}

/// Messages of 1,048,576 octets, 8 that are partial, and aligned cuts: choices of this project.
impl Default for Limits {
    ghost use Rattle.std.specs.Prelude.{◌≡◌};
    ghost use Rattle.giop_frames.specs.declared.limits.Cuts.TheVariants.{Aligned};

    ghost is_default = { λ l. (l.message ≡ 1048576) × (l.partials ≡ 8) × (l.cuts ≡ Aligned) };

    fn default() -> Limits {
        Limits {
            message: 1_048_576,
            partials: 8,
            cuts: Cuts::Aligned,
        }
    }
}
