//! The assembler: octets as they come, and each message that completes.

ghost use Rattle.std.specs.Prelude.{◌≡◌, ◌<◌, ◌≤◌, ◌+◌, ◌++◌, List, [], ℕ, length, take, false, None, Ok, Err, IfOk, IfErr, IfSome, IsOk, IsSomeAnd, OnErr, OnOk, MatchResult, MatchOption, IsTrue};
ghost use Rattle.std.specs.Option.{option_map};
ghost use Rattle.giop_core.specs.Lent.{content_of as content_said};
ghost use Rattle.giop_core.specs.Messages.{OnBody};
ghost use Rattle.giop_core.specs.Places.{said_by};
ghost use Rattle.giop_frames.specs.Private.{ArePlaced, Needs, IsKept, IsStep};
ghost use Rattle.giop_frames.specs.Fragments.{content_of, partials_in};
ghost use Rattle.giop_frames.specs.Standing.{AreWithin, HasPlace, IsBounded, IsFault, IsLent, StandsFor, completed_at, entries, frame_held, frame_of, octets_held, parts_held, pending_at};
ghost use Rattle.giop_frames.specs.Streams.{Awaits, Stands, frame_begins, frames_of, messages_of, rest_of};

use crate::deframer::{Gathered, Seen, frame_size, gather};
use crate::fault::StreamFault;
use crate::in_place::find_whole;
use crate::limits::Limits;
use crate::partial::Part;
use crate::reassembly::{Settled, settle};
use giop_core::{Header, Message, Places, Reading};
use std::alloc::Global;
use std::fmt;
use std::marker::Model;

/// How many octets were taken, and the header of the message that they complete, if they do.
#[derive(Drop)]
struct Step {
    taken: usize,
    complete: Option<Header>,
}

/// Takes octets up to the next place where something can be judged, and judges it.
fn advance_once(
    limits: &Limits,
    alloc: Global,
    frame: &mut Vec<u8>,
    needed: &mut usize,
    parts: &mut Vec<Part>,
    places: &mut Places,
    piece: &[u8],
) -> Result<Step, StreamFault>
    requires needed { Needs limits.now frame.old.items needed.old }
    requires some { 0 < length piece.now }
    ensures stands { (s : List ℕ) → Stands limits.now frame.old.items (entries parts.old.items) s → MatchResult result
        (λ r. IsStep limits.now s (take r.taken piece.now) r.complete frame.new.items (entries parts.new.items))
        (λ e. IsFault limits.now s piece.now e) }
    ensures taken { IfOk result (λ r. (0 < r.taken) × (r.taken ≤ length piece.now)) }
    ensures needed { IfOk result (λ r. Needs limits.now (pending_at r.complete frame.new.items) needed.new) }
    ensures kept { IfOk result (λ r. IsKept limits.now r.complete frame.new.items) }
    ensures placed { IfOk result (λ r. ArePlaced r.complete frame.new.items places.new) }
    ensures within { AreWithin limits.now (entries parts.old.items) → IfOk result (λ r. AreWithin limits.now (entries parts.new.items)) }
{
    let Gathered { taken, seen } = gather(limits, frame, *needed, piece)?;
    match seen {
        Seen::Waiting(more) => {
            *needed = more;
            Ok(Step {
                taken,
                complete: None,
            })
        }
        Seen::Refused(fault) => Err(fault),
        Seen::Whole(header) => {
            *needed = Header::LEN;
            match settle(limits, alloc, &header, frame, parts, places)? {
                Settled::Quiet => Ok(Step {
                    taken,
                    complete: None,
                }),
                Settled::Done(joined) => Ok(Step {
                    taken,
                    complete: Some(joined),
                }),
                Settled::Bad(fault) => Err(fault),
            }
        }
    }
}

/// Takes octets up to the end of the next message that completes, or all.
fn advance(
    limits: &Limits,
    alloc: Global,
    frame: &mut Vec<u8>,
    needed: &mut usize,
    parts: &mut Vec<Part>,
    places: &mut Places,
    piece: &[u8],
) -> Result<Step, StreamFault>
    requires needed { Needs limits.now frame.old.items needed.old }
    ensures stands { (s : List ℕ) → Stands limits.now frame.old.items (entries parts.old.items) s → MatchResult result
        (λ r. IsStep limits.now s (take r.taken piece.now) r.complete frame.new.items (entries parts.new.items))
        (λ e. IsFault limits.now s piece.now e) }
    ensures taken { IfOk result (λ r. r.taken ≤ length piece.now) }
    ensures some { IfOk result (λ r. 0 < length piece.now → 0 < r.taken) }
    ensures all { IfOk result (λ r. r.complete ≡ None → r.taken ≡ length piece.now) }
    ensures empty { piece.now ≡ [] → OnErr result ⊥ × IfOk result (λ r. (r.taken ≡ 0) × (r.complete ≡ None)) × (frame.new.items ≡ frame.old.items) × (parts.new.items ≡ parts.old.items) }
    ensures needed { IfOk result (λ r. Needs limits.now (pending_at r.complete frame.new.items) needed.new) }
    ensures kept { IfOk result (λ r. IsKept limits.now r.complete frame.new.items) }
    ensures placed { IfOk result (λ r. ArePlaced r.complete frame.new.items places.new) }
    ensures within { AreWithin limits.now (entries parts.old.items) → IfOk result (λ r. AreWithin limits.now (entries parts.new.items)) }
{
    if frame.is_empty() && parts.is_empty() {
        if let Some(header) = find_whole(limits, places, piece) {
            let (front, _) = piece.split_at(frame_size(&header));
            if frame.extend_from_slice(front).is_err() {
                return Err(StreamFault::Memory);
            }
            return Ok(Step {
                taken: front.len(),
                complete: Some(header),
            });
        }
    }
    let mut taken = 0;
    while taken < piece.len() {
        let (_, left) = piece.split_at(taken);
        match advance_once(limits, alloc, frame, needed, parts, places, left) {
            Ok(step) => {
                taken += step.taken;
                if step.complete.is_some() {
                    return Ok(Step {
                        taken,
                        complete: step.complete,
                    });
                }
            }
            Err(fault) => return Err(fault),
        }
    }
    Ok(Step {
        taken,
        complete: None,
    })
}

/// Drops the octets of the message that was lent, if one was.
fn drop_given(frame: &mut Vec<u8>, complete: &Option<Header>)
    ensures { frame.new.items ≡ pending_at complete.now frame.old.items }
{
    if complete.is_some() {
        frame.clear();
    }
}

/// How many octets the partial messages hold.
fn parts_held(limits: &Limits, parts: &[Part]) -> usize
    requires { AreWithin limits.now (entries parts.now) }
    ensures { result ≡ parts_held (entries parts.now) }
{
    let mut held = 0;
    for part in parts {
        held += part.octets.len();
    }
    held
}

/// Takes the octets of one direction of a connection, and lends each message that completes.
///
/// It buffers the octets of the frame that is not whole, or of the message that it lends, and those of the
/// partial messages, whose fragments have not all come: no others. Each of these is at most as long as the
/// limit, and its buffer grows as its octets come.
#[derive(Drop)]
pub struct Assembler {
    limits: Limits,
    alloc: Global,
    frame: Vec<u8>,
    needed: usize,
    parts: Vec<Part>,
    complete: Option<Header>,
    places: Places,
    failed: bool,
}

impl Model for Assembler {
    ghost use Rattle.std.specs.Prelude.{◌≡◌, true, None};
    ghost use Rattle.giop_frames.specs.Private.{Needs, IsKept, IsSound};
    ghost use Rattle.giop_frames.specs.Standing.{AreWithin, Standing, entries, message_at, pending_at};

    ghost Value = { Standing };

    ghost view = { λ a. record { limits = a.limits; failed = a.failed; pending = pending_at a.complete a.frame.items; parts = entries a.parts.items; message = message_at a.complete a.frame.items } };

    ghost invariant = { λ a. IsSound a.limits a.failed a.complete a.frame.items a.places a.needed (entries a.parts.items) };
}

impl Assembler {
    /// An assembler for a stream of which no octet has come.
    pub fn new(alloc: Global, limits: Limits) -> Assembler
        ensures stands { StandsFor result [] }
        ensures message { result.message ≡ None }
        ensures limits { result.limits ≡ limits }
        ensures bounded { IsBounded result }
    {
        Assembler {
            limits,
            alloc,
            frame: Vec::new(alloc),
            needed: Header::LEN,
            parts: Vec::new(alloc),
            complete: None,
            places: Places::new(),
            failed: false,
        }
    }

    /// Takes octets of a piece up to and with the end of the next message that completes, or all of them, and
    /// returns how many. The message that it lent before is dropped.
    ///
    /// An error is the first fault of the stream, or `Memory` where an allocation failed. From then on each
    /// call returns `Failed`, and nothing is held or lent. An empty piece completes nothing, and takes no
    /// memory.
    pub fn feed(&mut self, piece: &[u8]) -> Result<usize, StreamFault>
        ensures stands { (s : List ℕ) → StandsFor self.old s → IfOk result (λ n. StandsFor self.new (s ++ take n piece.now)) }
        // the messages are those before, and then the one that is lent, if there is one, which ends where the octets taken end
        ensures messages { (s : List ℕ) → StandsFor self.old s → IfOk result (λ n.
            messages_of self.old.limits (s ++ take n piece.now) ≡ messages_of self.old.limits s ++ completed_at (length (s ++ take n piece.now)) self.new.message) }
        ensures within { IfOk result (λ n. n ≤ length piece.now) }
        ensures some { IfOk result (λ n. 0 < length piece.now → 0 < n) }
        ensures all { IfOk result (λ n. self.new.message ≡ None → n ≡ length piece.now) }
        // an allocation failed, or it is the fault of the stream with the piece, and no message comes before it
        ensures fault { (s : List ℕ) → StandsFor self.old s → IfErr result (λ e. IsFault self.old.limits s piece.now e) }
        ensures failed { IsTrue self.old.failed → result ≡ Err StreamFault.Failed }
        ensures err { OnErr result (IsTrue self.new.failed × (self.new.message ≡ None) × (self.new.pending ≡ []) × (self.new.parts ≡ [])) }
        ensures live { OnOk result (self.new.failed ≡ false) }
        ensures limits { self.new.limits ≡ self.old.limits }
        // an empty piece needs no memory, and drops no more than the message that was lent
        ensures empty { self.old.failed ≡ false → piece.now ≡ [] → (result ≡ Ok 0) × (self.new ≡ record self.old { message = None }) }
        ensures bounded { IsBounded self.new }
    {
        drop_given(&mut self.frame, &self.complete);
        if self.failed {
            return Err(StreamFault::Failed);
        }
        match advance(
            &self.limits,
            self.alloc,
            &mut self.frame,
            &mut self.needed,
            &mut self.parts,
            &mut self.places,
            piece,
        ) {
            Ok(step) => {
                self.complete = step.complete;
                Ok(step.taken)
            }
            Err(fault) => {
                self.failed = true;
                self.complete = None;
                self.frame.clear();
                self.parts.clear();
                self.needed = Header::LEN;
                Err(fault)
            }
        }
    }

    /// The header of the message that the last call of `feed` completed, if it did: its version and kind,
    /// before it is read.
    pub fn header(&self) -> Option<Header>
        // the message is valid
        ensures { MatchOption result (self.now.message ≡ None) (λ h. IsSomeAnd self.now.message (λ f. (f.header ≡ h) × IsOk (content_of f.header f.octets))) }
    {
        self.complete // set anew by each call of `feed`
    }

    /// The message that the last call of `feed` completed, if it did, as its reading left it.
    #[inline(always)]
    pub fn reading(&self) -> Option<Reading<'_>>
        ensures lent { option_map frame_of result ≡ self.now.message }
        // it has no fault
        ensures valid { IfSome result (λ m. IsOk (said_by m)) }
        ensures within { IfSome result (λ m. 12 + length m.octets ≤ self.now.limits.message) }
    {
        match &self.complete {
            Some(header) => {
                let (_, octets) = self.frame.as_slice().split_at(Header::LEN);
                Some(Reading::new(header, octets, &self.places))
            }
            None => None,
        }
    }

    /// The message that the last call of `feed` completed, if it did.
    #[inline(always)]
    pub fn message(&self) -> Option<Message<'_>>
        ensures lent { MatchOption result (self.now.message ≡ None) (λ m. IsSomeAnd self.now.message (λ f. IsLent m f)) }
        ensures within { frame_held self.now.message self.now.pending ≤ self.now.limits.message }
        // its body begins where the readers of values take it
        ensures place { IfSome result (λ m. OnBody HasPlace (content_said m.content)) }
    {
        let _ = &self.limits; // so that its bound is known
        match self.reading() {
            Some(reading) => Some(reading.message()),
            None => None,
        }
    }

    /// How many octets are held: those of the frame that is not whole, or of the message that is lent, and
    /// those of the partial messages, the headers of their first frames among them.
    pub fn held(&self) -> usize
        ensures octets { result ≡ octets_held self.now }
        ensures bounded { IsBounded self.now }
    {
        self.frame.len() + parts_held(&self.limits, self.parts.as_slice())
    }

    /// How many octets there are of the frame that is not whole.
    pub fn pending(&self) -> usize
        ensures octets { result ≡ length self.now.pending }
        ensures stands { (s : List ℕ) → StandsFor self.now s → result ≡ length (rest_of self.now.limits s) }
        // the frame begins so many octets before the end of what has come
        ensures begins { (s : List ℕ) → StandsFor self.now s → frame_begins self.now.limits s + result ≡ length s }
    {
        if self.complete.is_some() {
            return 0;
        }
        self.frame.len()
    }

    /// How many more octets are needed before anything can be judged: those up to the end of the frame's header, or of the
    /// frame.
    ///
    /// With fewer no frame ends, and there is no fault. A fault that so many bring is one of the frame that has begun,
    /// `pending` octets before them: who gives no more at a time knows where the frame of a fault begins.
    pub fn needed(&self) -> usize
        ensures some { 0 < result }
        ensures awaits { (s : List ℕ) → StandsFor self.now s → Awaits self.now.limits s result }
    {
        self.needed // set anew by each call of `feed`
    }

    /// How many messages are partial: their fragments have not all come.
    pub fn partial(&self) -> usize
        ensures parts { result ≡ length self.now.parts }
        ensures stands { (s : List ℕ) → StandsFor self.now s → result ≡ partials_in (frames_of self.now.limits s) }
        ensures bound { result ≤ self.now.limits.partials }
    {
        self.parts.len()
    }
}

/// The limits, how much is held, and whether there was a fault; not the octets.
impl fmt::Debug for Assembler {
    fn fmt<W: fmt::Write>(&self, f: &mut fmt::Formatter<W>) -> fmt::Result {
        f.debug_struct("Assembler")
            .field("limits", &self.limits)
            .field("held", &self.held())
            .field("partial", &self.partial())
            .field("failed", &self.failed)
            .finish_non_exhaustive()
    }
}
