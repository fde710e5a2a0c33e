//! I frames of one direction: those that are held, and the last one of each number.

ghost use Rattle.std.specs.Prelude.{◌≡◌, ◌<◌, ◌≤◌, ◌++◌, [], ◌∷◌, IfOk, OnOk, drop, filter, length, slice_set, take};
ghost use Rattle.lapb_link.specs.Frames.{i_frame};

use crate::modulus::Modulus;
use capture_model::time::Nanos;
use line_model::state::Side;
use std::alloc::{AllocError, Global};
use std::marker::Model;

/// The place of a frame in its capture.
#[derive(Clone, Copy)]
pub struct Place {
    /// The number of the frame.
    pub frame: u64,
    /// When it was recorded, where the capture says.
    pub time: Option<Nanos>,
}

/// The frame that is read, for a receiver.
#[derive(Clone, Copy)]
pub struct Reading {
    /// The side whose I frames the receiver accepts.
    pub side: Side,
    /// The modulus of the link.
    pub modulus: Modulus,
    /// The place of the frame.
    pub place: Place,
    /// The frame of the last gap of the link before it.
    pub last_gap: u64,
}

/// An I frame, with its packet in the octets of the capture.
#[derive(Clone, Copy)]
pub struct Information<'a> {
    /// N(S).
    pub send: u8,
    /// Its place.
    pub place: Place,
    /// Its packet, or the part of it that was recorded.
    pub octets: &'a [u8],
    /// Whether the recorder cut it.
    pub is_cut: bool,
}

/// Octets of a frame, copied.
#[derive(Drop)]
pub struct Octets {
    bytes: Vec<u8>,
}

impl Model for Octets {
    ghost use Rattle.std.specs.Prelude.{ℕ, List};

    ghost Value = { List ℕ };

    ghost view = { λ o. o.bytes.items };
}

impl Octets {
    /// Returns a copy of octets.
    fn copied(alloc: Global, octets: &[u8]) -> Result<Self, AllocError>
        ensures { IfOk result (λ o. o ≡ octets.now) }
    {
        let mut bytes = Vec::new(alloc);
        bytes.extend_from_slice(octets)?;
        Ok(Octets { bytes })
    }

    /// Returns them.
    pub fn as_slice(&self) -> &[u8]
        ensures { result.now ≡ self.now }
    {
        &self.bytes
    }

    /// Replaces them by others.
    fn replace(&mut self, octets: &[u8]) -> Result<(), AllocError>
        ensures { OnOk result (self.new ≡ octets.now) }
    {
        self.bytes.clear();
        self.bytes.extend_from_slice(octets)
    }
}

/// An I frame that is held until its receiver shows whether it accepted it.
#[derive(Drop)]
pub struct HeldFrame {
    /// The side that sent it.
    pub side: Side,
    /// N(S).
    pub send: u8,
    /// Its place.
    pub place: Place,
    /// Its packet, or the part of it that was recorded.
    pub octets: Octets,
    /// Whether the recorder cut it.
    pub is_cut: bool,
    /// The frame of the last gap before it.
    pub last_gap: u64,
    /// Whether its receiver had asked for another frame before (REJ).
    pub after_reject: bool,
}

impl HeldFrame {
    ghost use Rattle.lapb_link.specs.Frames.{is_kept};

    /// Returns whether it was not refused.
    fn is_kept(&self, send: u8, again: bool, rejected: bool) -> bool
        ensures { result ≡ is_kept send again rejected self.now }
    {
        !(again && self.send == send || rejected && self.after_reject)
    }
}

/// The last frame with a number.
#[derive(Drop)]
struct RecentFrame {
    is_there: bool,
    is_cut: bool,
    octets: Octets,
}

/// The frames that are held, in the order of their numbers from the next one on.
#[derive(Drop)]
pub(crate) struct HeldFrames {
    pub(crate) items: Vec<HeldFrame>,
}

impl Model for HeldFrames {
    ghost use Rattle.std.specs.Prelude.{List};
    ghost use Rattle.lapb_link.specs.declared.frames.HeldFrame.{HeldFrame};

    ghost Value = { List HeldFrame };

    ghost view = { λ h. h.items.items };
}

/// The last frame of each number.
#[derive(Drop)]
pub(crate) struct RecentFrames {
    items: Vec<RecentFrame>,
}

impl Model for RecentFrames {
    ghost use Rattle.std.specs.Prelude.{◌≡◌, List, length};
    ghost use Rattle.lapb_link.specs.declared.frames.RecentFrame.{RecentFrame};

    ghost Value = { List RecentFrame };

    ghost view = { λ r. r.items.items };

    ghost invariant = { λ r. length r.items.items ≡ 128 };
}

impl HeldFrames {
    ghost use Rattle.lapb_link.specs.declared.frames.HeldFrame.{HeldFrame as AnyHeld};
    ghost use Rattle.lapb_link.specs.Frames.{held_of, is_held, is_kept, is_late, placed, run_from};

    /// Returns no frames.
    pub(crate) fn new(alloc: Global) -> Self
        ensures { result ≡ [] }
    {
        HeldFrames {
            items: Vec::new(alloc),
        }
    }

    /// Returns how many they are.
    pub(crate) fn len(&self) -> usize
        ensures { result ≡ length self.now }
    {
        self.items.len()
    }

    /// Returns whether one has a number.
    pub(crate) fn has(&self, send: u8) -> bool
        ensures { result ≡ is_held send self.now }
    {
        self.items.iter().any(|held| held.send == send)
    }

    /// Returns whether one has a later number than another, in the order of the numbers from `next` on.
    pub(crate) fn is_late(&self, modulus: Modulus, next: u8, send: u8) -> bool
        ensures { result ≡ is_late modulus next send self.now }
    {
        let ahead = modulus.ahead(next, send);
        self.items
            .iter()
            .any(|held| ahead < modulus.ahead(next, held.send))
    }

    /// Returns the first number from one on that is not held.
    pub(crate) fn run_from(&self, modulus: Modulus, number: u8) -> u8
        ensures { result ≡ run_from modulus number self.now }
    {
        let mut end = number;
        for held in &self.items {
            if held.send == end {
                end = modulus.after(end, 1);
            }
        }
        end
    }

    /// Forgets them.
    pub(crate) fn clear(&mut self)
        ensures { self.new ≡ [] }
    {
        self.items.clear();
    }

    /// Removes the frames that were refused: with `again` those that have a number, with `rejected` those that came after
    /// a reject.
    pub(crate) fn drop_refused(
        &mut self,
        send: u8,
        again: bool,
        rejected: bool,
    ) -> Result<(), AllocError>
        ensures { OnOk result (self.new ≡ filter (is_kept send again rejected) self.old) }
    {
        if self.items.is_empty() {
            return Ok(());
        }
        let mut kept = Vec::new(*self.items.allocator());
        while !self.items.is_empty() {
            let held = self.items.remove(0);
            if held.is_kept(send, again, rejected) {
                kept.push(held)?;
            }
        }
        self.items = kept;
        Ok(())
    }

    /// Returns how many frames come before one with a number, in the order of the numbers from `next` on.
    fn place(&self, modulus: Modulus, next: u8, send: u8) -> usize
        ensures within { result ≤ length self.now }
        ensures placed { (f : AnyHeld) → f.send ≡ send
            → placed modulus next f self.now ≡ take result self.now ++ f ∷ drop result self.now }
    {
        let ahead = modulus.ahead(next, send);
        let mut at = 0;
        while at < self.items.len() && modulus.ahead(next, self.items[at].send) <= ahead {
            at += 1;
        }
        at
    }

    /// Holds a frame, in the order of the numbers from `next` on.
    pub(crate) fn hold(
        &mut self,
        reading: &Reading,
        next: u8,
        frame: &Information<'_>,
        after_reject: bool,
    ) -> Result<(), AllocError>
        ensures { OnOk result (self.new ≡ placed reading.now.modulus next
            (held_of reading.now after_reject (i_frame frame.now)) self.old) }
    {
        let alloc = *self.items.allocator();
        let held = HeldFrame {
            side: reading.side,
            send: frame.send,
            place: frame.place,
            octets: Octets::copied(alloc, frame.octets)?,
            is_cut: frame.is_cut,
            last_gap: reading.last_gap,
            after_reject,
        };
        let at = self.place(reading.modulus, next, frame.send);
        self.items.insert(at, held)?;
        Ok(())
    }
}

impl RecentFrames {
    ghost use Rattle.lapb_link.specs.Frames.{is_repeated, no_frames, recent_of};

    /// Returns no frames.
    pub(crate) fn new(alloc: Global) -> Result<Self, AllocError>
        ensures { IfOk result (λ r. r ≡ no_frames) }
    {
        let mut items = Vec::new(alloc);
        for _ in 0..128u8 {
            items.push(RecentFrame {
                is_there: false,
                is_cut: false,
                octets: Octets {
                    bytes: Vec::new(alloc),
                },
            })?;
        }
        Ok(RecentFrames { items })
    }

    /// Returns whether a frame has the packet of the last one with its number. `set_up`: all frames since the link was
    /// set up were recorded.
    pub(crate) fn is_repeated(&self, frame: &Information<'_>, set_up: bool) -> bool
        requires { frame.now.send < 128 }
        ensures { result ≡ is_repeated set_up (i_frame frame.now) self.now }
    {
        let recent = &self.items[usize::from(frame.send)];
        if !recent.is_there {
            return !set_up;
        }
        let (one, other) = (recent.octets.as_slice(), frame.octets);
        if recent.is_cut || frame.is_cut {
            let count = one.len().min(other.len());
            return one[..count] == other[..count];
        }
        one == other
    }

    /// Keeps a frame as the last one with its number.
    pub(crate) fn keep(&mut self, frame: &Information<'_>) -> Result<(), AllocError>
        requires { frame.now.send < 128 }
        ensures { OnOk result (self.new ≡ slice_set self.old frame.now.send (recent_of (i_frame frame.now))) }
    {
        let recent = &mut self.items[usize::from(frame.send)];
        recent.octets.replace(frame.octets)?;
        recent.is_there = true;
        recent.is_cut = frame.is_cut;
        Ok(())
    }
}
