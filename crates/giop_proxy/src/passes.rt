//! What a proxy reads of the octets of one direction of a connection, which come in pieces of any size.

ghost use Rattle.std.specs.Prelude.{◌≡◌, ◌<◌, ◌≤◌, ◌++◌, List, [], ℕ, length, take, None, Err, IfOk, IfErr, OnErr, MatchResult, IsTrue};
ghost use Rattle.std.specs.Option.{option_map};
ghost use Rattle.giop_proxy.specs.Passing.{given};
ghost use Rattle.giop_proxy.specs.PassingMessages.{AreWithin, IsBounded, IsFault, StandsFor, all_held, begins_told, cuts_told, fault_told, header_told, id_told, is_amid, octets_told, parts_held, told_held, told_of, whole_told, wish_told};
ghost use Rattle.giop_proxy.specs.PassingPrivate.{AreHeld, IsFrontHeld, IsHeard, IsPlacedIf, entries, told_at};

mod coming;
mod cutting;
mod joining;
mod keys;
mod knowing;
mod looking;
pub(crate) mod splitting;

use crate::passes::coming::{Coming, Part, Told};
use crate::passes::joining::settle;
use crate::passes::keys::Key;
use crate::passes::knowing::{known_id, may_wish};
use crate::passes::splitting::Frames;
use giop_core::{Header, Reading};
use giop_frames::{Limits, StreamFault};
use std::alloc::Global;
use std::marker::Model;

/// How many octets were taken, and what is told.
#[derive(Drop)]
struct Heard {
    taken: usize,
    told: Option<Told>,
}

/// Takes octets up to the end of what is kept of the next frame, or all, and hears what that frame brings.
fn hear_once(
    frames: &mut Frames,
    alloc: Global,
    place: &mut u64,
    parts: &mut Vec<Part>,
    passed: &mut Vec<Key>,
    piece: &[u8],
) -> Result<Heard, StreamFault>
    requires some { 0 < length piece.now }
    requires alone { frames.old.frame ≡ None }
    ensures hears { (s : List ℕ) → StandsFor (record { frames = frames.old; place = place.old; parts = entries parts.old.items; passed = passed.old.items; told = None }) s → MatchResult result
        (λ r. IsHeard frames.old.limits s (take r.taken piece.now) r.told (record { frames = frames.new; place = place.new; parts = entries parts.new.items; passed = passed.new.items; told = None }))
        (λ e. IsFault frames.old.limits s piece.now e) }
    ensures taken { IfOk result (λ r. (0 < r.taken) × (r.taken ≤ length piece.now)) }
    ensures all { IfOk result (λ r. frames.new.frame ≡ None) }
    ensures placed { IfOk result (λ r. IsPlacedIf r.told) }
    ensures limits { frames.new.limits ≡ frames.old.limits }
    ensures held { AreWithin frames.old.limits (entries parts.old.items) → IfOk result (λ r. AreHeld frames.new (option_map told_at r.told) (entries parts.new.items)) }
{
    let taken = match frames.feed(piece) {
        Ok(taken) => taken,
        Err(fault) => return Err(fault),
    };
    let Some(header) = frames.header() else {
        return Ok(Heard { taken, told: None });
    };
    let octets = frames.take();
    let message = Coming {
        header,
        octets,
        begins: *place,
        cuts: Vec::new(alloc),
    };
    *place = place.saturating_add(Header::LEN as u64 + u64::from(header.size));
    let limits = frames.limits();
    let told = settle(&limits, message, parts, passed)?;
    Ok(Heard { taken, told })
}

/// Takes octets up to the end of the next frame of which something is told, or all.
fn hear(
    frames: &mut Frames,
    alloc: Global,
    place: &mut u64,
    parts: &mut Vec<Part>,
    passed: &mut Vec<Key>,
    piece: &[u8],
) -> Result<Heard, StreamFault>
    requires alone { frames.old.frame ≡ None }
    requires front { IsFrontHeld frames.old None }
    ensures hears { (s : List ℕ) → StandsFor (record { frames = frames.old; place = place.old; parts = entries parts.old.items; passed = passed.old.items; told = None }) s → MatchResult result
        (λ r. IsHeard frames.old.limits s (take r.taken piece.now) r.told (record { frames = frames.new; place = place.new; parts = entries parts.new.items; passed = passed.new.items; told = None }))
        (λ e. IsFault frames.old.limits s piece.now e) }
    ensures taken { IfOk result (λ r. r.taken ≤ length piece.now) }
    ensures some { IfOk result (λ r. 0 < length piece.now → 0 < r.taken) }
    ensures all { IfOk result (λ r. r.told ≡ None → r.taken ≡ length piece.now) }
    ensures alone { IfOk result (λ r. frames.new.frame ≡ None) }
    ensures placed { IfOk result (λ r. IsPlacedIf r.told) }
    ensures limits { frames.new.limits ≡ frames.old.limits }
    ensures held { AreWithin frames.old.limits (entries parts.old.items) → IfOk result (λ r. AreHeld frames.new (option_map told_at r.told) (entries parts.new.items)) }
{
    let mut taken = 0;
    while taken < piece.len() {
        let (_, left) = piece.split_at(taken);
        match hear_once(frames, alloc, place, parts, passed, left) {
            Ok(heard) => {
                taken += heard.taken;
                if heard.told.is_some() {
                    return Ok(Heard {
                        taken,
                        told: heard.told,
                    });
                }
            }
            Err(fault) => return Err(fault),
        }
    }
    Ok(Heard { taken, told: None })
}

/// How many octets the messages hold whose fragments have not all come.
fn parts_held(limits: &Limits, parts: &[Part]) -> usize
    requires { AreWithin limits.now (entries parts.now) }
    ensures { result ≡ parts_held (entries parts.now) }
{
    let mut held = 0;
    for part in parts {
        held += part.message.octets.len();
    }
    held
}

/// How many octets what is told holds.
fn told_held(told: &Option<Told>) -> usize
    ensures { result ≡ told_held (option_map told_at told.now) }
{
    match told {
        Some(told) => told.message.octets.len(),
        None => 0,
    }
}

/// Takes the octets of one direction of a connection, and lends what is told of each message: that it is whole, its
/// fragments joined, and how it came; or that it is too long or at fault, with what has come of it. The others go on.
///
/// It buffers what is kept of the frame that has not come, or the message that it lends, and the messages whose
/// fragments have not all come, each of which is at most as long as a message may be.
#[derive(Drop)]
pub struct Passing {
    frames: Frames,
    alloc: Global,
    place: u64,
    parts: Vec<Part>,
    passed: Vec<Key>,
    told: Option<Told>,
}

impl Model for Passing {
    ghost use Rattle.std.specs.Option.{option_map};
    ghost use Rattle.giop_proxy.specs.PassingMessages.{Hearing};
    ghost use Rattle.giop_proxy.specs.PassingPrivate.{IsHearing, entries, told_at};

    ghost Value = { Hearing };

    ghost view = { λ a. record { frames = a.frames; place = a.place; parts = entries a.parts.items; passed = a.passed.items; told = option_map told_at a.told } };

    ghost invariant = { λ a. IsHearing a.frames a.told (entries a.parts.items) };
}

impl Passing {
    /// A reader of messages for a stream of which no octet has come.
    pub fn new(alloc: Global, limits: Limits) -> Passing
        ensures stands { StandsFor result [] }
        ensures told { result.told ≡ None }
        ensures limits { result.frames.limits ≡ limits }
        ensures bounded { IsBounded result }
    {
        Passing {
            frames: Frames::new(alloc, limits),
            alloc,
            place: 0,
            parts: Vec::new(alloc),
            passed: Vec::new(alloc),
            told: None,
        }
    }

    /// Takes octets of a piece up to the end of the next frame of which something is told, or all of them, and returns
    /// how many. What it lent before is dropped.
    ///
    /// An error is the fault of the header of a frame, which ends the stream, or `Memory` where an allocation failed.
    /// From then on each call returns `Failed`, and nothing is held or lent.
    pub fn feed(&mut self, piece: &[u8]) -> Result<usize, StreamFault>
        ensures stands { (s : List ℕ) → StandsFor self.old s → IfOk result (λ n. StandsFor self.new (s ++ take n piece.now)) }
        // all that is told is what was told before, and then what is lent, if something is
        ensures told { (s : List ℕ) → StandsFor self.old s → IfOk result (λ n.
            told_of self.old.frames.limits (s ++ take n piece.now) ≡ told_of self.old.frames.limits s ++ given self.new.told) }
        ensures within { IfOk result (λ n. n ≤ length piece.now) }
        ensures some { IfOk result (λ n. 0 < length piece.now → 0 < n) }
        ensures all { IfOk result (λ n. self.new.told ≡ None → n ≡ length piece.now) }
        // an allocation failed, or it is the fault of the stream with the piece, and nothing is told before it
        ensures fault { (s : List ℕ) → StandsFor self.old s → IfErr result (λ e. IsFault self.old.frames.limits s piece.now e) }
        ensures failed { IsTrue self.old.frames.failed → result ≡ Err StreamFault.Failed }
        ensures err { OnErr result (IsTrue self.new.frames.failed × (self.new.frames.pending ≡ []) × (self.new.told ≡ None) × (self.new.parts ≡ []) × (self.new.passed ≡ [])) }
        ensures limits { self.new.frames.limits ≡ self.old.frames.limits }
        ensures bounded { IsBounded self.new }
    {
        self.told = None;
        if self.frames.has_failed() {
            self.frames.fail();
            self.parts.clear();
            self.passed.clear();
            return Err(StreamFault::Failed);
        }
        match hear(
            &mut self.frames,
            self.alloc,
            &mut self.place,
            &mut self.parts,
            &mut self.passed,
            piece,
        ) {
            Ok(heard) => {
                self.told = heard.told;
                Ok(heard.taken)
            }
            Err(fault) => {
                self.frames.fail();
                self.parts.clear();
                self.passed.clear();
                Err(fault)
            }
        }
    }

    /// The header of the message that is told of, if one is: that of its first frame, or, where it is whole, as of one
    /// frame.
    pub fn header(&self) -> Option<Header>
        ensures { result ≡ option_map header_told self.now.told }
    {
        match &self.told {
            Some(told) => Some(told.message.header),
            None => None,
        }
    }

    /// Its fault; none where it is whole. One that is too long is at fault by `TooLarge`.
    pub fn fault(&self) -> Option<StreamFault>
        ensures { result ≡ fault_told self.now.told }
    {
        match &self.told {
            Some(told) => told.fault,
            None => None,
        }
    }

    /// What has come of it after its header, fragments joined: all, where it is whole.
    pub fn octets(&self) -> &[u8]
        ensures { result.now ≡ octets_told self.now.told }
    {
        match &self.told {
            Some(told) => {
                let (_, octets) = told.message.octets.as_slice().split_at(Header::LEN);
                octets
            }
            None => &[],
        }
    }

    /// Its request id, where that is known: in 1.0 and 1.1 where no service contexts stand before it.
    pub fn request_id(&self) -> Option<u32>
        ensures { result ≡ id_told self.now.told }
    {
        match &self.told {
            Some(told) => {
                let (_, octets) = told.message.octets.as_slice().split_at(Header::LEN);
                known_id(&told.message.header, octets)
            }
            None => None,
        }
    }

    /// Whether it may wish for a reply: all but a Request that is known not to.
    pub fn may_wish(&self) -> bool
        ensures { result ≡ wish_told self.now.told }
    {
        match &self.told {
            Some(told) => {
                let (_, octets) = told.message.octets.as_slice().split_at(Header::LEN);
                may_wish(&told.message.header, octets)
            }
            None => false,
        }
    }

    /// Whether octets of a frame are still to come.
    pub fn is_amid(&self) -> bool
        ensures { result ≡ is_amid self.now.frames }
    {
        self.frames.is_amid()
    }

    /// The place in the stream where its first frame begins.
    pub fn begins(&self) -> u64
        ensures { result ≡ begins_told self.now.told }
    {
        match &self.told {
            Some(told) => told.message.begins,
            None => 0,
        }
    }

    /// The places in the message, its header counted, where further frames went on with it: it had one frame more than there
    /// are such places.
    pub fn cuts(&self) -> &[u32]
        ensures { result.now ≡ cuts_told self.now.told }
    {
        match &self.told {
            Some(told) => told.message.cuts.as_slice(),
            None => &[],
        }
    }

    /// The message that is told of, where it is whole, as its reading left it.
    pub fn reading(&self) -> Option<Reading<'_>>
        ensures { result ≡ whole_told self.now.told }
    {
        match &self.told {
            Some(told) => {
                if told.fault.is_some() {
                    return None;
                }
                let (_, octets) = told.message.octets.as_slice().split_at(Header::LEN);
                Some(Reading::new(&told.message.header, octets, &told.places))
            }
            None => None,
        }
    }
    /// How many octets are held: those of the frame that has not come, of what is lent, and of the messages whose
    /// fragments have not all come, the headers of their first frames among them.
    pub fn held(&self) -> usize
        ensures octets { result ≡ all_held self.now }
        ensures bounded { IsBounded self.now }
    {
        let limits = self.frames.limits();
        let front = self.frames.held() + told_held(&self.told);
        front + parts_held(&limits, self.parts.as_slice())
    }

    /// How many messages there are whose fragments have not all come.
    pub fn partial(&self) -> usize
        ensures parts { result ≡ length self.now.parts }
        ensures bound { result ≤ self.now.frames.limits.partials }
    {
        self.parts.len()
    }
}
