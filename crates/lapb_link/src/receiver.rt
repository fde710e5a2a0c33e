//! The receiver of one direction: which of its I frames it accepted.

ghost use Rattle.std.specs.Prelude.{◌≡◌, ◌-◌, ◌++◌, ◌<◌, ◌||◌, IfOk, OnOk, filter, length, not, true};
ghost use Rattle.lapb_link.specs.Frames.{i_frame};
ghost use Rattle.lapb_link.specs.Receiving.{given, passed_over, passing};

use crate::control::{Supervisory, SupervisoryField};
use crate::frames::{HeldFrame, HeldFrames, Information, Place, Reading, RecentFrames};
use crate::modulus::Modulus;
use line_model::state::Side;
use std::alloc::{AllocError, Global};

/// Frames of a link that were not recorded: packets of any channel may be missing.
#[derive(Clone, Copy)]
pub struct Gap {
    /// The frame after which they were sent.
    pub since: u64,
    /// The place of the frame before which they were sent.
    pub place: Place,
}

/// What a frame shows of frames before it.
#[derive(Drop)]
pub enum Shown {
    /// A gap.
    Gap(Gap),
    /// A held frame was accepted.
    Accepted(HeldFrame),
    /// I frames of the side were accepted and not recorded: how many, and the number after them.
    Lost(Side, usize, u8),
    /// So many held frames were refused.
    Refused(usize),
}

/// What becomes of an I frame.
#[derive(Clone, Copy, PartialEq, Eq, Debug)]
pub enum Fate {
    /// Its receiver accepted it.
    Accepted,
    /// It is held.
    Held,
    /// It repeats a frame that was accepted.
    Repeated,
}

/// The receiver of one direction.
///
/// ```text
///     acknowledged        next
///     .....|#################|.......
///            repeats          held: refused, or frames before them were not recorded
/// ```
#[derive(Drop)]
pub struct Receiver {
    /// The N(S) that it expects; none until a frame or the set-up shows it.
    next: Option<u8>,
    /// The last N(R) that it sent.
    acknowledged: Option<u8>,
    /// Whether all frames since the link was set up were recorded.
    set_up: bool,
    /// Whether the place of the held frames is uncertain.
    doubtful: bool,
    /// Whether it rejected the frames from the next one on, which has not come since.
    rejects: bool,
    /// The last frame up to which nothing is missing: it comes before those that are held.
    since: u64,
    held: HeldFrames,
    recent: RecentFrames,
}

/// What the last frame with the number of an I frame says of it.
#[derive(Clone, Copy)]
enum Recall {
    /// The number is new.
    New,
    /// It repeats that frame.
    Same,
    /// It does not, so all numbers have passed since that frame.
    Other,
}

/// The way of a receiver to a number, over frames that it accepted.
#[derive(Clone, Copy)]
struct Way {
    from: u8,
    to: u8,
    /// Whether the place of the held frames is uncertain.
    doubtful: bool,
}

/// How far held frames were given out.
#[derive(Clone, Copy)]
struct Progress {
    since: u64,
    next: u8,
    doubtful: bool,
    last_gap: u64,
}

impl HeldFrames {
    ghost use Rattle.std.specs.Prelude.{◌≡◌, ◌∷◌, MatchOption};
    ghost use Rattle.lapb_link.specs.Receiving.{ends_here, is_passed};

    /// Removes the first frame where a way passes its number.
    fn take_passed(&mut self, modulus: Modulus, way: Way) -> Option<HeldFrame>
        ensures { MatchOption result ((self.new ≡ self.old) × (ends_here modulus way self.old ≡ true))
            (λ h. (self.old ≡ h ∷ self.new) × (is_passed modulus way h ≡ true)) }
    {
        let first = self.items.first()?;
        if modulus.ahead(way.from, first.send) >= modulus.ahead(way.from, way.to) {
            return None;
        }
        Some(self.items.remove(0))
    }
}

/// Gives out the held frames that a way passes, and says where frames are missing. Returns the frame after which what is
/// missing before the next held one was sent.
fn give_out(
    reading: &Reading,
    way: Way,
    progress: Progress,
    held: &mut HeldFrames,
    out: &mut Vec<Shown>,
) -> Result<u64, AllocError>
    ensures since { IfOk result (λ since. since ≡ (passing reading.now.modulus way progress held.old).since) }
    ensures held { OnOk result (held.new ≡ passed_over reading.now.modulus way held.old) }
    ensures shown { OnOk result (out.new.items
        ≡ out.old.items ++ given reading.now way progress held.old) }
{
    let mut progress = progress;
    while let Some(frame) = held.take_passed(reading.modulus, way) {
        if progress.is_gap_before(&frame) {
            out.push(Shown::Gap(Gap {
                since: progress.since,
                place: frame.place,
            }))?;
        }
        progress = progress.past(reading.modulus, way, &frame);
        out.push(Shown::Accepted(frame))?;
    }
    if way.doubtful || progress.next != way.to {
        out.push(Shown::Gap(Gap {
            since: progress.since,
            place: reading.place,
        }))?;
    }
    Ok(progress.since)
}

impl Progress {
    ghost use Rattle.lapb_link.specs.Receiving.{is_gap_before, past};

    /// Returns whether frames may be missing before a held frame.
    fn is_gap_before(&self, held: &HeldFrame) -> bool
        ensures { result ≡ is_gap_before self.now held.now }
    {
        self.doubtful || held.send != self.next || self.last_gap < held.last_gap
    }

    /// Returns how far frames were given out with a held frame.
    fn past(&self, modulus: Modulus, way: Way, held: &HeldFrame) -> Progress
        ensures { result ≡ past modulus way self.now held.now }
    {
        Progress {
            since: if way.doubtful {
                self.since
            } else {
                held.place.frame
            },
            next: modulus.after(held.send, 1),
            doubtful: false,
            last_gap: held.last_gap,
        }
    }
}

impl Receiver {
    ghost use Rattle.lapb_link.specs.Frames.{is_kept};
    ghost use Rattle.lapb_link.specs.Receiving.{accepted, acknowledged, all_passed, caught_up, count_shown, expected, first_acknowledged, forgotten, freed, gap_if, held_shown, informed, is_beyond, is_holding, is_inside, is_repeated_number, new_frame, recall_of, refused, rejected, set_up_again, supervised, unknown, widened};

    /// Returns the receiver of a link of which nothing was read.
    pub fn new(alloc: Global) -> Result<Self, AllocError>
        ensures { IfOk result (λ r. r ≡ unknown) }
    {
        Ok(Receiver {
            next: None,
            acknowledged: None,
            set_up: false,
            doubtful: false,
            rejects: false,
            since: 0,
            held: HeldFrames::new(alloc),
            recent: RecentFrames::new(alloc)?,
        })
    }

    /// Reads a SABM, SABME or UA: the numbers begin anew.
    pub fn set_up(
        &mut self,
        alloc: Global,
        reading: &Reading,
        out: &mut Vec<Shown>,
    ) -> Result<(), AllocError>
        ensures after { OnOk result (self.new ≡ (set_up_again reading.now self.old).after) }
        ensures shown { OnOk result (out.new.items
            ≡ out.old.items ++ (set_up_again reading.now self.old).shown) }
    {
        let held = self.held.len();
        self.held.clear();
        self.recent = RecentFrames::new(alloc)?;
        self.next = Some(0);
        self.acknowledged = Some(0);
        self.set_up = true;
        self.doubtful = false;
        self.rejects = false;
        self.since = reading.place.frame;
        if held > 0 {
            out.push(Shown::Refused(held))?;
        }
        Ok(())
    }

    /// Forgets the frames that were read: they may have been of the other direction.
    pub fn forget(&mut self, alloc: Global) -> Result<(), AllocError>
        ensures { OnOk result (self.new ≡ forgotten self.old) }
    {
        let first = if self.set_up { Some(0) } else { None };
        *self = Receiver {
            next: first,
            acknowledged: first,
            set_up: self.set_up,
            since: self.since,
            ..Receiver::new(alloc)?
        };
        Ok(())
    }

    /// Returns whether frames are held.
    pub fn is_holding(&self) -> bool
        ensures { result ≡ is_holding self.now }
    {
        self.held.len() > 0
    }

    /// Returns the last frame up to which nothing is missing.
    pub fn since(&self) -> u64
        ensures { result ≡ self.now.since }
    {
        self.since
    }

    /// Drops the held frames, as at the end of a recording.
    pub fn finish(&mut self, out: &mut Vec<Shown>) -> Result<(), AllocError>
        ensures shown { OnOk result (out.new.items ≡ out.old.items ++ held_shown self.old) }
    {
        let held = self.held.len();
        self.held.clear();
        if held > 0 {
            out.push(Shown::Refused(held))?;
        }
        Ok(())
    }

    /// Reads a supervisory frame, or the N(R) of an I frame. `proves`: it is surely of the receiver.
    #[inline(always)]
    pub fn supervise(
        &mut self,
        reading: &Reading,
        field: SupervisoryField,
        proves: bool,
        out: &mut Vec<Shown>,
    ) -> Result<(), AllocError>
        ensures after { OnOk result (self.new ≡ (supervised reading.now field proves self.old).after) }
        ensures shown { OnOk result (out.new.items
            ≡ out.old.items ++ (supervised reading.now field proves self.old).shown) }
    {
        match field.kind {
            Supervisory::Rej => self.reject(reading, field.receive, proves, out),
            Supervisory::Srej | Supervisory::Rr | Supervisory::Rnr => {
                self.acknowledge(reading, field.receive, proves, out)
            }
        }
    }

    /// Reads a REJ: the receiver refused the frames that are held.
    #[cold]
    #[inline(never)]
    fn reject(
        &mut self,
        reading: &Reading,
        receive: u8,
        proves: bool,
        out: &mut Vec<Shown>,
    ) -> Result<(), AllocError>
        ensures after { OnOk result (self.new ≡ (rejected reading.now proves receive self.old).after) }
        ensures shown { OnOk result (out.new.items
            ≡ out.old.items ++ (rejected reading.now proves receive self.old).shown) }
    {
        if self.acknowledged.is_none() {
            self.acknowledged = Some(receive);
            return Ok(());
        }
        self.refuse(receive, out)?;
        self.acknowledge(reading, receive, proves, out)
    }

    /// Drops the held frames, where the receiver expects the number that it rejects.
    fn refuse(&mut self, receive: u8, out: &mut Vec<Shown>) -> Result<(), AllocError>
        ensures after { OnOk result (self.new ≡ (refused receive self.old).after) }
        ensures shown { OnOk result (out.new.items ≡ out.old.items ++ (refused receive self.old).shown) }
    {
        if self.next != Some(receive) {
            return Ok(());
        }
        let held = self.held.len();
        self.held.clear();
        self.doubtful = false;
        self.rejects = true;
        if held > 0 {
            out.push(Shown::Refused(held))?;
        }
        Ok(())
    }

    /// Reads an N(R), of an I frame, an RR, an RNR or an SREJ.
    #[inline(always)]
    fn acknowledge(
        &mut self,
        reading: &Reading,
        receive: u8,
        proves: bool,
        out: &mut Vec<Shown>,
    ) -> Result<(), AllocError>
        ensures after { OnOk result (self.new ≡ (acknowledged reading.now proves receive self.old).after) }
        ensures shown { OnOk result (out.new.items
            ≡ out.old.items ++ (acknowledged reading.now proves receive self.old).shown) }
    {
        let Some(next) = self.next else {
            return self.acknowledge_first(reading, receive, out);
        };
        if self.is_inside(reading.modulus, receive, next) {
            self.acknowledged = Some(receive);
            return Ok(());
        }
        if proves && self.is_beyond(reading.modulus, receive) {
            return self.catch_up(reading, next, receive, out);
        }
        Ok(())
    }

    /// Reads an N(R) before the first I frame.
    #[cold]
    #[inline(never)]
    fn acknowledge_first(
        &mut self,
        reading: &Reading,
        receive: u8,
        out: &mut Vec<Shown>,
    ) -> Result<(), AllocError>
        ensures after { OnOk result (self.new ≡ (first_acknowledged reading.now receive self.old).after) }
        ensures shown { OnOk result (out.new.items
            ≡ out.old.items ++ (first_acknowledged reading.now receive self.old).shown) }
    {
        let (before, since) = (self.acknowledged, self.since);
        self.acknowledged = Some(receive);
        self.since = reading.place.frame;
        match before {
            Some(before) => {
                if before != receive {
                    let lost = reading.modulus.ahead(before, receive);
                    out.push(Shown::Gap(Gap {
                        since,
                        place: reading.place,
                    }))?;
                    out.push(Shown::Lost(reading.side, usize::from(lost), receive))?;
                }
            }
            None => {}
        }
        Ok(())
    }

    /// Returns whether an N(R) acknowledges frames that were recorded.
    #[inline(always)]
    fn is_inside(&self, modulus: Modulus, receive: u8, next: u8) -> bool
        ensures { result ≡ is_inside modulus receive next self.now }
    {
        match self.acknowledged {
            Some(acknowledged) => {
                modulus.ahead(acknowledged, receive) <= modulus.ahead(acknowledged, next)
            }
            None => {
                !self.held.has(modulus.before(receive))
                    && modulus.ahead(receive, next) <= modulus.size() / 2
            }
        }
    }

    /// Returns whether an N(R) that is not inside acknowledges frames after those.
    fn is_beyond(&self, modulus: Modulus, receive: u8) -> bool
        ensures { result ≡ is_beyond modulus receive self.now }
    {
        self.acknowledged.is_some() || self.held.has(modulus.before(receive))
    }

    /// Goes on to a number: frames before it were accepted.
    #[cold]
    #[inline(never)]
    fn catch_up(
        &mut self,
        reading: &Reading,
        from: u8,
        to: u8,
        out: &mut Vec<Shown>,
    ) -> Result<(), AllocError>
        ensures after { OnOk result (self.new ≡ (caught_up reading.now from to self.old).after) }
        ensures shown { OnOk result (out.new.items
            ≡ out.old.items ++ (caught_up reading.now from to self.old).shown) }
    {
        let way = Way {
            from,
            to,
            doubtful: self.doubtful,
        };
        let progress = Progress {
            since: self.since,
            next: from,
            doubtful: self.doubtful,
            last_gap: reading.last_gap,
        };
        let before = self.held.len();
        let since = give_out(reading, way, progress, &mut self.held, out)?;
        let given = before.saturating_sub(self.held.len());
        self.next = Some(to);
        self.acknowledged = Some(to);
        self.since = if self.held.len() > 0 {
            since
        } else {
            reading.place.frame
        };
        self.doubtful = self.doubtful && self.held.len() > 0;
        let lost = usize::from(reading.modulus.ahead(from, to)).saturating_sub(given);
        if lost > 0 {
            out.push(Shown::Lost(reading.side, lost, to))?;
        }
        Ok(())
    }

    /// Reads an I frame.
    #[inline(always)]
    pub fn information(
        &mut self,
        reading: &Reading,
        frame: &Information<'_>,
        out: &mut Vec<Shown>,
    ) -> Result<Fate, AllocError>
        requires { frame.now.send < 128 }
        ensures after { OnOk result (self.new ≡ (informed reading.now (i_frame frame.now) self.old).after) }
        ensures shown { OnOk result (out.new.items
            ≡ out.old.items ++ (informed reading.now (i_frame frame.now) self.old).shown) }
        ensures fate { IfOk result (λ fate. fate ≡ (informed reading.now (i_frame frame.now) self.old).fate) }
    {
        let Some(next) = self.next else {
            return self.accept(reading, frame, out);
        };
        self.drop_refused(next, frame, out)?;
        match self.recall(reading.modulus, next, frame) {
            Recall::New => self.take_new(reading, next, frame, out),
            Recall::Same => Ok(Fate::Repeated),
            Recall::Other => {
                self.pass_all(reading, next, frame.send, out)?;
                self.accept(reading, frame, out)
            }
        }
    }

    /// Removes the held frames that were refused, as a frame shows that comes.
    #[inline(always)]
    fn drop_refused(
        &mut self,
        next: u8,
        frame: &Information<'_>,
        out: &mut Vec<Shown>,
    ) -> Result<(), AllocError>
        requires { frame.now.send < 128 }
        ensures after { OnOk result (self.new ≡ (freed next (i_frame frame.now) self.old).after) }
        ensures shown { OnOk result (out.new.items
            ≡ out.old.items ++ (freed next (i_frame frame.now) self.old).shown) }
    {
        let comes = frame.send == next;
        if self.held.len() > 0 {
            let again = self.held.has(frame.send) && self.recent.is_repeated(frame, self.set_up);
            self.drop_held(frame.send, again, self.rejects && comes, out)?;
        }
        self.rejects = self.rejects && !comes;
        self.doubtful = self.doubtful && self.held.len() > 0;
        Ok(())
    }

    /// Removes held frames that were refused: with `again` those that have a number, with `rejected` those that came
    /// after a reject.
    #[cold]
    #[inline(never)]
    fn drop_held(
        &mut self,
        send: u8,
        again: bool,
        rejected: bool,
        out: &mut Vec<Shown>,
    ) -> Result<(), AllocError>
        ensures after { OnOk result (self.new
            ≡ record self.old { held = filter (is_kept send again rejected) self.old.held }) }
        ensures shown { OnOk result (out.new.items ≡ out.old.items
            ++ count_shown (length self.old.held - length (filter (is_kept send again rejected) self.old.held))) }
    {
        let before = self.held.len();
        self.held.drop_refused(send, again, rejected)?;
        let refused = before.saturating_sub(self.held.len());
        if refused > 0 {
            out.push(Shown::Refused(refused))?;
        }
        Ok(())
    }

    /// Returns what is known of the number of a frame.
    #[inline(always)]
    fn recall(&self, modulus: Modulus, next: u8, frame: &Information<'_>) -> Recall
        requires { frame.now.send < 128 }
        ensures { result ≡ recall_of modulus next (i_frame frame.now) self.now }
    {
        let send = frame.send;
        if send == next || !self.held.has(send) && !self.is_repeated_number(modulus, next, send) {
            return Recall::New;
        }
        if self.recent.is_repeated(frame, self.set_up) {
            Recall::Same
        } else {
            Recall::Other
        }
    }

    /// Returns whether an N(S) is one that was accepted: it is not acknowledged, or it is just before those, where no
    /// window reaches.
    fn is_repeated_number(&self, modulus: Modulus, next: u8, send: u8) -> bool
        ensures { result ≡ is_repeated_number modulus next send self.now }
    {
        let follows_held = self.held.has(modulus.before(send));
        match self.acknowledged {
            Some(acknowledged) => {
                let ahead = modulus.ahead(acknowledged, send);
                ahead < modulus.ahead(acknowledged, next)
                    || !follows_held && ahead == modulus.size() - 1
            }
            None => !follows_held && modulus.ahead(send, next) <= modulus.size() / 2,
        }
    }

    /// Goes on by all numbers, to one.
    #[cold]
    #[inline(never)]
    fn pass_all(
        &mut self,
        reading: &Reading,
        next: u8,
        send: u8,
        out: &mut Vec<Shown>,
    ) -> Result<(), AllocError>
        ensures after { OnOk result (self.new ≡ (all_passed reading.now next send self.old).after) }
        ensures shown { OnOk result (out.new.items
            ≡ out.old.items ++ (all_passed reading.now next send self.old).shown) }
    {
        if !self.held.has(send) {
            return self.catch_up(reading, next, send, out);
        }
        let following = reading.modulus.after(send, 1);
        self.catch_up(reading, next, following, out)?;
        self.catch_up(reading, following, send, out)
    }

    /// Reads a frame with a new number.
    #[inline(always)]
    fn take_new(
        &mut self,
        reading: &Reading,
        next: u8,
        frame: &Information<'_>,
        out: &mut Vec<Shown>,
    ) -> Result<Fate, AllocError>
        requires { frame.now.send < 128 }
        ensures after { OnOk result (self.new ≡ (new_frame reading.now next (i_frame frame.now) self.old).after) }
        ensures shown { OnOk result (out.new.items
            ≡ out.old.items ++ (new_frame reading.now next (i_frame frame.now) self.old).shown) }
        ensures fate { IfOk result (λ fate. fate ≡ (new_frame reading.now next (i_frame frame.now) self.old).fate) }
    {
        if reading.modulus.after(frame.send, 1) == next {
            let to = self
                .held
                .run_from(reading.modulus, reading.modulus.after(next, 1));
            self.catch_up(reading, next, to, out)?;
            return self.take_expected(reading, to, frame, out);
        }
        self.widen(reading.modulus, next, frame.send);
        self.take_expected(reading, next, frame, out)
    }

    /// Notes that the receiver acknowledged so many frames that a window reaches a number.
    #[inline(always)]
    fn widen(&mut self, modulus: Modulus, next: u8, send: u8)
        ensures { self.new ≡ widened modulus next send self.old }
    {
        match self.acknowledged {
            Some(acknowledged) => {
                let reach = u16::from(modulus.ahead(next, send))
                    + 2
                    + u16::from(modulus.ahead(acknowledged, next));
                if reach > u16::from(modulus.size()) {
                    self.acknowledged = Some(modulus.after(send, 2));
                }
            }
            None => {}
        }
    }

    /// Accepts a frame with the next number, and holds another.
    #[inline(always)]
    fn take_expected(
        &mut self,
        reading: &Reading,
        next: u8,
        frame: &Information<'_>,
        out: &mut Vec<Shown>,
    ) -> Result<Fate, AllocError>
        requires { frame.now.send < 128 }
        ensures after { OnOk result (self.new ≡ (expected reading.now next (i_frame frame.now) self.old).after) }
        ensures shown { OnOk result (out.new.items
            ≡ out.old.items ++ (expected reading.now next (i_frame frame.now) self.old).shown) }
        ensures fate { IfOk result (λ fate. fate ≡ (expected reading.now next (i_frame frame.now) self.old).fate) }
    {
        if frame.send == next {
            return self.accept(reading, frame, out);
        }
        let is_late = self.held.is_late(reading.modulus, next, frame.send);
        self.doubtful = self.doubtful || is_late;
        self.held.hold(reading, next, frame, self.rejects)?;
        self.recent.keep(frame)?;
        Ok(Fate::Held)
    }

    /// Says that the held frames may be of numbers that all have passed.
    #[cold]
    #[inline(never)]
    fn doubt_held(&mut self, place: Place, out: &mut Vec<Shown>) -> Result<(), AllocError>
        ensures after { OnOk result (self.new ≡ record self.old { doubtful = true }) }
        ensures shown { OnOk result (out.new.items ≡ out.old.items ++ gap_if true self.old.since place) }
    {
        self.doubtful = true;
        out.push(Shown::Gap(Gap {
            since: self.since,
            place,
        }))?;
        Ok(())
    }

    /// Accepts a frame.
    #[inline(always)]
    fn accept(
        &mut self,
        reading: &Reading,
        frame: &Information<'_>,
        out: &mut Vec<Shown>,
    ) -> Result<Fate, AllocError>
        requires { frame.now.send < 128 }
        ensures after { OnOk result (self.new ≡ (accepted reading.now (i_frame frame.now) self.old).after) }
        ensures shown { OnOk result (out.new.items
            ≡ out.old.items ++ (accepted reading.now (i_frame frame.now) self.old).shown) }
        ensures fate { IfOk result (λ fate. fate ≡ (accepted reading.now (i_frame frame.now) self.old).fate) }
    {
        if self.held.len() > 0 {
            self.doubt_held(frame.place, out)?;
            self.drop_held(frame.send, true, false, out)?;
        }
        self.recent.keep(frame)?;
        self.next = Some(reading.modulus.after(frame.send, 1));
        if self.held.len() == 0 {
            self.since = frame.place.frame;
        }
        Ok(Fate::Accepted)
    }
}
