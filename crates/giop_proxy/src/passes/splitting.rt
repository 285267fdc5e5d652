//! Octets as they come, and each frame.

ghost use Rattle.std.specs.Prelude.{◌≡◌, ◌<◌, ◌≤◌, ◌++◌, ◌||◌, nat_lt, List, [], ℕ, length, take, true, false, None, Ok, Err, IfOk, IfErr, IsSome, IsSomeAnd, OnErr, OnOk, MatchResult, MatchOption, IsTrue};
ghost use Rattle.std.specs.Option.{option_map};
ghost use Rattle.std.specs.Vec.{vec_len};
ghost use Rattle.giop_proxy.specs.Passing.{FramesStand, IsFrameFault, IsHeld, given, frames_of, is_lent_long, octets_held, octets_lent};
ghost use Rattle.giop_proxy.specs.PassingPrivate.{IsKept, IsPassed, IsRefused, Needs, framed, header_of_frame, pending_at};

use crate::passes::looking::{Gathered, Seen, gather, is_long, over_size};
use giop_core::Header;
use giop_frames::{Limits, StreamFault};
use std::alloc::Global;
use std::marker::Model;
use std::mem;

/// How many octets were taken, and the header of the frame of which they complete what is kept, if they do.
#[derive(Drop)]
struct Step {
    taken: usize,
    complete: Option<Header>,
}

/// Passes over octets that are not kept, or takes those up to the next place where something can be judged, and
/// judges it.
fn advance_once(
    limits: &Limits,
    frame: &mut Vec<u8>,
    needed: &mut usize,
    over: &mut usize,
    piece: &[u8],
) -> Result<Step, StreamFault>
    requires needed { Needs limits.now frame.old.items needed.old }
    requires some { 0 < length piece.now }
    ensures passes { MatchResult result
        (λ r. IsPassed limits.now frame.old.items over.old (take r.taken piece.now) r.complete frame.new.items over.new)
        (λ e. IsRefused limits.now frame.old.items over.old piece.now e) }
    ensures taken { IfOk result (λ r. (0 < r.taken) × (r.taken ≤ length piece.now)) }
    ensures needed { IfOk result (λ r. Needs limits.now (pending_at r.complete frame.new.items) needed.new) }
    ensures kept { IfOk result (λ r. IsKept limits.now r.complete frame.new.items) }
{
    if 0 < *over {
        let taken = piece.len().min(*over);
        *over -= taken;
        return Ok(Step {
            taken,
            complete: None,
        });
    }
    let Gathered { taken, seen } = gather(limits, frame, *needed, piece)?;
    match seen {
        Seen::Waiting(more) => {
            *needed = more;
            Ok(Step {
                taken,
                complete: None,
            })
        }
        Seen::Refused(fault) => Err(fault),
        Seen::Kept(header) => {
            *needed = Header::LEN;
            *over = over_size(limits, &header);
            Ok(Step {
                taken,
                complete: Some(header),
            })
        }
    }
}

/// Takes octets up to the end of what is kept of the next frame, or all.
fn advance(
    limits: &Limits,
    frame: &mut Vec<u8>,
    needed: &mut usize,
    over: &mut usize,
    piece: &[u8],
) -> Result<Step, StreamFault>
    requires needed { Needs limits.now frame.old.items needed.old }
    ensures passes { MatchResult result
        (λ r. IsPassed limits.now frame.old.items over.old (take r.taken piece.now) r.complete frame.new.items over.new)
        (λ e. IsRefused limits.now frame.old.items over.old piece.now e) }
    ensures taken { IfOk result (λ r. r.taken ≤ length piece.now) }
    ensures some { IfOk result (λ r. 0 < length piece.now → 0 < r.taken) }
    ensures all { IfOk result (λ r. r.complete ≡ None → r.taken ≡ length piece.now) }
    ensures needed { IfOk result (λ r. Needs limits.now (pending_at r.complete frame.new.items) needed.new) }
    ensures kept { IfOk result (λ r. IsKept limits.now r.complete frame.new.items) }
{
    let mut taken = 0;
    while taken < piece.len() {
        let (_, left) = piece.split_at(taken);
        match advance_once(limits, frame, needed, over, left) {
            Ok(step) => {
                taken += step.taken;
                if step.complete.is_some() {
                    return Ok(Step {
                        taken,
                        complete: step.complete,
                    });
                }
            }
            Err(fault) => return Err(fault),
        }
    }
    Ok(Step {
        taken,
        complete: None,
    })
}

/// Drops the octets of the frame that was lent, if one was.
fn drop_given(frame: &mut Vec<u8>, complete: &Option<Header>)
    ensures { frame.new.items ≡ pending_at complete.now frame.old.items }
{
    if complete.is_some() {
        frame.clear();
    }
}

/// Takes the octets of one direction of a connection, and lends each frame: all of it, or the beginning of one that is
/// longer than a message may be, whose other octets are passed over.
///
/// It buffers what is kept of the frame that has not come, or of the one that it lends: no more octets than a message
/// may have.
#[derive(Drop)]
pub struct Frames {
    limits: Limits,
    alloc: Global,
    frame: Vec<u8>,
    needed: usize,
    over: usize,
    complete: Option<Header>,
    failed: bool,
}

impl Model for Frames {
    ghost use Rattle.giop_proxy.specs.Passing.{Splitting};
    ghost use Rattle.giop_proxy.specs.PassingPrivate.{IsSplitting, frame_at, pending_at};

    ghost Value = { Splitting };

    ghost view = { λ a. record { limits = a.limits; failed = a.failed; pending = pending_at a.complete a.frame.items; over = a.over; frame = frame_at a.complete a.frame.items } };

    ghost invariant = { λ a. IsSplitting a.limits a.failed a.complete a.frame.items a.needed };
}

impl Frames {
    /// A reader of frames for a stream of which no octet has come.
    pub fn new(alloc: Global, limits: Limits) -> Frames
        ensures stands { FramesStand result [] }
        ensures frame { result.frame ≡ None }
        ensures limits { result.limits ≡ limits }
        ensures held { IsHeld result }
    {
        Frames {
            limits,
            alloc,
            frame: Vec::new(alloc),
            needed: Header::LEN,
            over: 0,
            complete: None,
            failed: false,
        }
    }

    /// Takes octets of a piece up to the end of what is kept of the next frame, or all of them, and returns how many.
    /// The frame that it lent before is dropped.
    ///
    /// An error is the fault of the header of a frame, or `Memory` where an allocation failed. From then on each call
    /// returns `Failed`, and nothing is held or lent.
    pub fn feed(&mut self, piece: &[u8]) -> Result<usize, StreamFault>
        ensures stands { (s : List ℕ) → FramesStand self.old s → IfOk result (λ n. FramesStand self.new (s ++ take n piece.now)) }
        // the frames are those before, and then the one that is lent, if there is one
        ensures frames { (s : List ℕ) → FramesStand self.old s → IfOk result (λ n.
            frames_of self.old.limits (s ++ take n piece.now) ≡ frames_of self.old.limits s ++ given self.new.frame) }
        ensures within { IfOk result (λ n. n ≤ length piece.now) }
        ensures some { IfOk result (λ n. 0 < length piece.now → 0 < n) }
        ensures all { IfOk result (λ n. self.new.frame ≡ None → n ≡ length piece.now) }
        // an allocation failed, or it is the fault of the stream with the piece, and no frame comes before it
        ensures fault { (s : List ℕ) → FramesStand self.old s → IfErr result (λ e. IsFrameFault self.old.limits s piece.now e) }
        ensures failed { IsTrue self.old.failed → result ≡ Err StreamFault.Failed }
        ensures err { OnErr result (IsTrue self.new.failed × (self.new.frame ≡ None) × (self.new.pending ≡ [])) }
        ensures live { OnOk result (self.new.failed ≡ false) }
        ensures limits { self.new.limits ≡ self.old.limits }
        ensures held { IsHeld self.new }
    {
        drop_given(&mut self.frame, &self.complete);
        if self.failed {
            self.complete = None;
            return Err(StreamFault::Failed);
        }
        match advance(
            &self.limits,
            &mut self.frame,
            &mut self.needed,
            &mut self.over,
            piece,
        ) {
            Ok(step) => {
                self.complete = step.complete;
                Ok(step.taken)
            }
            Err(fault) => {
                self.failed = true;
                self.complete = None;
                self.frame.clear();
                self.needed = Header::LEN;
                Err(fault)
            }
        }
    }

    /// The header of the frame that the last call of `feed` completed, if it did.
    pub fn header(&self) -> Option<Header>
        ensures { MatchOption result (self.now.frame ≡ None) (λ h. IsSomeAnd self.now.frame (λ f. f.header ≡ h)) }
    {
        self.complete
    }

    /// Whether that frame is longer than a message may be, so that only its beginning is kept.
    pub fn is_long(&self) -> bool
        ensures { result ≡ is_lent_long self.now }
    {
        match &self.complete {
            Some(header) => is_long(&self.limits, header),
            None => false,
        }
    }

    /// What is kept of that frame after its header; none where none was completed.
    pub fn octets(&self) -> &[u8]
        ensures { result.now ≡ octets_lent self.now.frame }
    {
        if self.complete.is_none() {
            return &[];
        }
        let (_, octets) = self.frame.as_slice().split_at(Header::LEN);
        octets
    }

    /// Takes the octets of that frame out, those of its header among them.
    pub(crate) fn take(&mut self) -> Vec<u8>
        requires { IsSome self.old.frame }
        ensures taken { self.old.frame ≡ option_map (λ h. framed h result.items) (header_of_frame self.old.frame) }
        ensures long { (12 ≤ vec_len result) × (vec_len result ≤ self.old.limits.message) }
        ensures rest { self.new ≡ record self.old { frame = None } }
        ensures empty { self.new.pending ≡ [] }
    {
        self.complete = None;
        mem::replace(&mut self.frame, Vec::new(self.alloc))
    }

    /// Whether octets of a frame are still to come.
    pub fn is_amid(&self) -> bool
        ensures { result ≡ (nat_lt 0 self.now.over || nat_lt 0 (length self.now.pending)) }
    {
        if 0 < self.over {
            return true;
        }
        match self.complete {
            Some(_) => false,
            None => 0 < self.frame.len(),
        }
    }

    /// Whether there was an error.
    pub(crate) fn has_failed(&self) -> bool
        ensures { result ≡ self.now.failed }
    {
        self.failed
    }

    /// From now on each call of `feed` returns `Failed`, and nothing is held or lent.
    pub(crate) fn fail(&mut self)
        ensures { self.new ≡ record { limits = self.old.limits; failed = true; pending = []; over = self.old.over; frame = None } }
    {
        self.failed = true;
        self.complete = None;
        self.frame.clear();
        self.needed = Header::LEN;
    }

    /// The limits.
    pub(crate) fn limits(&self) -> Limits
        ensures { result ≡ self.now.limits }
    {
        self.limits
    }

    /// How many octets are held: those that are kept of the frame that has not come, or of the one that is lent.
    pub fn held(&self) -> usize
        ensures octets { result ≡ octets_held self.now.frame self.now.pending }
        ensures bounded { IsHeld self.now }
    {
        self.frame.len()
    }
}
