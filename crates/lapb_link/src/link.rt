//! A link: the frames of both directions.

ghost use Rattle.std.specs.Prelude.{◌≡◌, ◌<◌, ◌≤◌, ◌++◌, IfOk, OnOk, drop, vec_len};
ghost use Rattle.std.specs.List.{list_any};
ghost use Rattle.lapb_link.specs.Links.{is_gap, link_frame_view, no_packet, supervisor, surely, taken_view, what_of, what_view};

use crate::control::{
    Control, Supervisory, SupervisoryField, Unnumbered, command_side, read_control,
};
use crate::ends::{Ends, Sender};
use crate::frames::{Information, Place, Reading};
use crate::modulus::Modulus;
use crate::receiver::{Fate, Gap, Receiver, Shown};
use capture_model::reason::Reason;
use line_model::state::Side;
use std::alloc::{AllocError, Global};

/// A frame of a link, from its address on, without a frame check sequence.
#[derive(Clone, Copy)]
pub struct LinkFrame<'a> {
    /// Its place.
    pub place: Place,
    /// The number of the station that sent it, where the capture shows it: by its direction or its link address.
    pub source: Option<u64>,
    /// Its octets, as far as the recorder kept them.
    pub octets: &'a [u8],
    /// Whether the recorder cut it.
    pub is_cut: bool,
}

/// What a frame of a link is.
#[derive(Clone, Copy)]
pub enum What<'a> {
    /// An I frame that was accepted, with its packet.
    Packet(&'a [u8]),
    /// An I frame that is held, with its packet.
    Held(&'a [u8]),
    /// A frame that sets up, ends or rejects the link.
    Unnumbered(Unnumbered),
    /// No packet comes of it.
    LeftOut(Reason),
}

/// What a frame of a link is, and who sent it.
#[derive(Clone, Copy)]
pub struct Taken<'a> {
    /// Who sent it, where that is known.
    pub sender: Option<Sender>,
    /// What it is.
    pub what: What<'a>,
}

/// The frames of a link that were read.
#[derive(Drop)]
pub struct Link {
    modulus: Modulus,
    /// Whether SABM and SABME set the modulus.
    learns: bool,
    ends: Ends,
    /// The frame of the last gap.
    last_gap: u64,
    of_t: Receiver,
    of_n: Receiver,
}

impl Link {
    ghost use Rattle.lapb_link.specs.Receiving.{held_shown};
    ghost use Rattle.lapb_link.specs.Frames.{i_frame};
    ghost use Rattle.lapb_link.specs.Links.{held_since, identified, information_read, informed_on, link_set_up, linked, marked, new_link, read, reading_of, set_up_shown, supervised_on, supervisory_read, told, unnumbered_read};

    /// Returns a link of which nothing was read. `modulus`: `None` where SABM and SABME show it.
    pub fn new(alloc: Global, modulus: Option<Modulus>, ends: Ends) -> Result<Link, AllocError>
        ensures { IfOk result (λ l. l ≡ new_link modulus ends) }
    {
        let (modulus, learns) = match modulus {
            Some(modulus) => (modulus, false),
            None => (Modulus::Basic, true),
        };
        Ok(Link {
            modulus,
            learns,
            ends,
            last_gap: 0,
            of_t: Receiver::new(alloc)?,
            of_n: Receiver::new(alloc)?,
        })
    }

    /// Reads the next frame. What it shows of frames before it is appended to `out`; its own packet comes after that.
    pub fn read<'a>(
        &mut self,
        alloc: Global,
        frame: &LinkFrame<'a>,
        out: &mut Vec<Shown>,
    ) -> Result<Taken<'a>, AllocError>
        ensures taken { IfOk result (λ taken. taken_view taken ≡ (read (link_frame_view frame.now) self.old).taken) }
        ensures after { OnOk result (self.new ≡ (read (link_frame_view frame.now) self.old).after) }
        ensures shown { OnOk result (out.new.items ≡ out.old.items ++ (read (link_frame_view frame.now) self.old).shown) }
    {
        let Some((control, rest)) = read_control(self.modulus, frame.octets) else {
            return Ok(left_out(None, Reason::BadHeader));
        };
        let address = frame.octets[0];
        let Some(commander) = command_side(address) else {
            return Ok(left_out(None, Reason::OtherAddress(address)));
        };
        match control {
            Control::Information(send, receive) => {
                let information = Information {
                    send,
                    place: frame.place,
                    octets: rest,
                    is_cut: frame.is_cut,
                };
                let sender = self.sender(alloc, frame.source, commander)?;
                self.read_information(sender, &information, receive, out)
            }
            Control::Supervisory(field) => self.read_supervisory(frame, commander, field, out),
            Control::Unnumbered(Some(kind)) => {
                self.read_unnumbered(alloc, frame, commander, kind, out)
            }
            Control::Unnumbered(None) => Ok(left_out(None, Reason::LinkFrame)),
        }
    }

    /// Reads the end of the recording: what is held was not accepted.
    pub fn finish(&mut self, out: &mut Vec<Shown>) -> Result<(), AllocError>
        ensures { OnOk result (out.new.items
            ≡ out.old.items ++ (held_shown self.old.of_t ++ held_shown self.old.of_n)) }
    {
        self.of_t.finish(out)?;
        self.of_n.finish(out)
    }

    /// Reads an I frame.
    #[tactic(auto, unfolding(crate::specs::Links::information_read))]
    #[inline(always)]
    fn read_information<'a>(
        &mut self,
        sender: Sender,
        information: &Information<'a>,
        receive: u8,
        out: &mut Vec<Shown>,
    ) -> Result<Taken<'a>, AllocError>
        requires { information.now.send < 128 }
        ensures taken { IfOk result (λ taken. taken_view taken
            ≡ (information_read sender receive (i_frame information.now) self.old).taken) }
        ensures after { OnOk result (self.new
            ≡ (information_read sender receive (i_frame information.now) self.old).after) }
        ensures shown { OnOk result (out.new.items ≡ out.old.items
            ++ (information_read sender receive (i_frame information.now) self.old).shown) }
    {
        let field = SupervisoryField {
            kind: Supervisory::Rr,
            receive,
            last: false,
        };
        let place = information.place;
        self.supervise(sender.side.other(), place, field, true, out)?;
        let fate = self.inform(sender.side, place, information, out)?;
        Ok(Taken {
            sender: Some(sender),
            what: what_of(fate, information.octets),
        })
    }

    /// Reads a supervisory frame. Where it may be a command or a response, it proves no loss.
    #[tactic(auto, unfolding(crate::specs::Links::supervisory_read))]
    #[inline(never)]
    fn read_supervisory<'a>(
        &mut self,
        frame: &LinkFrame<'a>,
        commander: Side,
        field: SupervisoryField,
        out: &mut Vec<Shown>,
    ) -> Result<Taken<'a>, AllocError>
        ensures taken { IfOk result (λ taken. taken_view taken
            ≡ (supervisory_read (link_frame_view frame.now) commander field self.old).taken) }
        ensures after { OnOk result (self.new
            ≡ (supervisory_read (link_frame_view frame.now) commander field self.old).after) }
        ensures shown { OnOk result (out.new.items ≡ out.old.items
            ++ (supervisory_read (link_frame_view frame.now) commander field self.old).shown) }
    {
        let known = self.ends.known(frame.source);
        let Some(side) = supervisor(field.last, commander, known) else {
            return Ok(left_out(None, Reason::LinkFrame));
        };
        self.supervise(side.other(), frame.place, field, known.is_some(), out)?;
        Ok(left_out(Some(surely(side)), Reason::LinkFrame))
    }

    /// Reads an unnumbered frame.
    #[tactic(auto, unfolding(crate::specs::Links::unnumbered_read))]
    #[cold]
    #[inline(never)]
    fn read_unnumbered<'a>(
        &mut self,
        alloc: Global,
        frame: &LinkFrame<'a>,
        commander: Side,
        kind: Unnumbered,
        out: &mut Vec<Shown>,
    ) -> Result<Taken<'a>, AllocError>
        ensures taken { IfOk result (λ taken. taken_view taken
            ≡ (unnumbered_read (link_frame_view frame.now) commander kind self.old).taken) }
        ensures after { OnOk result (self.new
            ≡ (unnumbered_read (link_frame_view frame.now) commander kind self.old).after) }
        ensures shown { OnOk result (out.new.items ≡ out.old.items
            ++ (unnumbered_read (link_frame_view frame.now) commander kind self.old).shown) }
    {
        let by_address = if kind.is_command() {
            commander
        } else {
            commander.other()
        };
        let sender = self.sender(alloc, frame.source, by_address)?;
        if self.learns {
            self.modulus = kind.modulus_after(self.modulus);
        }
        if kind.is_set_up() {
            self.set_up(alloc, frame.place, out)?;
        }
        Ok(Taken {
            sender: Some(sender),
            what: What::Unnumbered(kind),
        })
    }

    /// Begins the numbers of both directions anew. Held frames may have been accepted, with those before them.
    fn set_up(
        &mut self,
        alloc: Global,
        place: Place,
        out: &mut Vec<Shown>,
    ) -> Result<(), AllocError>
        ensures after { OnOk result (self.new ≡ link_set_up place self.old) }
        ensures shown { OnOk result (out.new.items ≡ out.old.items ++ set_up_shown place self.old) }
    {
        let is_gap = self.of_t.is_holding() || self.of_n.is_holding();
        let since = self.held_since();
        let (reading_t, reading_n) = (self.reading(Side::T, place), self.reading(Side::N, place));
        self.of_t.set_up(alloc, &reading_t, out)?;
        self.of_n.set_up(alloc, &reading_n, out)?;
        if is_gap {
            out.push(Shown::Gap(Gap { since, place }))?;
            self.last_gap = place.frame;
        }
        Ok(())
    }

    /// Returns the last frame up to which nothing is missing of a side with held frames.
    fn held_since(&self) -> u64
        ensures { result ≡ held_since self.now }
    {
        if !self.of_t.is_holding() {
            return self.of_n.since();
        }
        if self.of_n.is_holding() {
            self.of_t.since().min(self.of_n.since())
        } else {
            self.of_t.since()
        }
    }

    /// Reads the N(R) of a supervisory frame or an I frame, for the frames of a side.
    #[inline(always)]
    fn supervise(
        &mut self,
        side: Side,
        place: Place,
        field: SupervisoryField,
        proves: bool,
        out: &mut Vec<Shown>,
    ) -> Result<(), AllocError>
        ensures after { OnOk result (self.new
            ≡ linked side place (supervised_on side place field proves self.old) self.old) }
        ensures shown { OnOk result (out.new.items ≡ out.old.items
            ++ (supervised_on side place field proves self.old).shown) }
    {
        let reading = self.reading(side, place);
        let before = out.len();
        match side {
            Side::T => self.of_t.supervise(&reading, field, proves, out)?,
            Side::N => self.of_n.supervise(&reading, field, proves, out)?,
        }
        self.mark(place.frame, out, before);
        Ok(())
    }

    /// Reads an I frame of a side.
    #[inline(always)]
    fn inform(
        &mut self,
        side: Side,
        place: Place,
        information: &Information<'_>,
        out: &mut Vec<Shown>,
    ) -> Result<Fate, AllocError>
        requires { information.now.send < 128 }
        ensures fate { IfOk result (λ fate. fate ≡ (informed_on side place (i_frame information.now) self.old).fate) }
        ensures after { OnOk result (self.new ≡ told side place (i_frame information.now) self.old) }
        ensures shown { OnOk result (out.new.items ≡ out.old.items
            ++ (informed_on side place (i_frame information.now) self.old).shown) }
    {
        let reading = self.reading(side, place);
        let before = out.len();
        let fate = match side {
            Side::T => self.of_t.information(&reading, information, out)?,
            Side::N => self.of_n.information(&reading, information, out)?,
        };
        self.mark(place.frame, out, before);
        if information.is_cut && matches!(fate, Fate::Accepted) {
            self.last_gap = place.frame;
        }
        Ok(fate)
    }

    /// Keeps the frame as that of the last gap, if a gap or a cut packet was shown from an index on.
    #[inline(always)]
    fn mark(&mut self, frame: u64, out: &Vec<Shown>, before: usize)
        requires { before ≤ vec_len out.now }
        ensures { self.new ≡ marked frame (drop before out.now.items) self.old }
    {
        if out.len() > before && shows_gap(&out[before..]) {
            self.last_gap = frame;
        }
    }

    /// Returns what the receiver of a side has to know of a frame.
    #[inline(always)]
    fn reading(&self, side: Side, place: Place) -> Reading
        ensures { result ≡ reading_of side place self.now }
    {
        Reading {
            side,
            modulus: self.modulus,
            place,
            last_gap: self.last_gap,
        }
    }

    /// Returns who sent a frame that is surely a command or a response. Where it shows that both ends have one address, an
    /// RR of its end that was recorded before may have been read as one of the other end.
    #[tactic(auto, unfolding(crate::specs::Links::identified))]
    #[inline(always)]
    fn sender(
        &mut self,
        alloc: Global,
        source: Option<u64>,
        by_address: Side,
    ) -> Result<Sender, AllocError>
        ensures sender { IfOk result (λ s. s ≡ (identified source by_address self.old).sender) }
        ensures after { OnOk result (self.new ≡ (identified source by_address self.old).after) }
    {
        let sender = self.ends.sender(source, by_address);
        if sender.is_news {
            match sender.side {
                Side::T => self.of_t.forget(alloc)?,
                Side::N => self.of_n.forget(alloc)?,
            }
        }
        Ok(sender)
    }
}

/// Returns a sender whose side no address and no station contradicts.
fn surely(side: Side) -> Sender
    ensures { result ≡ surely side }
{
    Sender {
        side,
        is_news: false,
        is_contradiction: false,
    }
}

/// Returns the side that sent a supervisory frame, by its station, else as a response.
fn supervisor(last: bool, commander: Side, known: Option<Side>) -> Option<Side>
    ensures { result ≡ supervisor last commander known }
{
    match known {
        Some(side) => Some(side),
        None => { if last { None } else { Some(commander.other()) } }
    }
}

/// Returns whether a gap or a cut packet is shown.
fn shows_gap(shown: &[Shown]) -> bool
    ensures { result ≡ list_any is_gap shown.now }
{
    shown.iter().any(|one| match one {
        Shown::Gap(_) => true,
        Shown::Accepted(held) => held.is_cut,
        _ => false,
    })
}

/// Returns a frame of which no packet comes.
fn left_out<'a>(sender: Option<Sender>, reason: Reason) -> Taken<'a>
    ensures { taken_view result ≡ no_packet sender reason }
{
    Taken {
        sender,
        what: What::LeftOut(reason),
    }
}

/// Returns what an I frame is.
fn what_of<'a>(fate: Fate, packet: &'a [u8]) -> What<'a>
    ensures { what_view result ≡ what_of fate packet.now }
{
    match fate {
        Fate::Accepted => What::Packet(packet),
        Fate::Held => What::Held(packet),
        Fate::Repeated => What::LeftOut(Reason::RepeatedFrame),
    }
}
