//! A connection as XOT: two streams and a circuit.

ghost use Rattle.std.specs.Prelude.{◌≡◌, ◌+◌, ◌++◌, ◌<◌, ◌∷◌, [], MatchOption, IfOk, OnOk, false, length};
ghost use Rattle.xot_circuits.specs.Exchanges.{behind, contents_of, cut_octets, direction_of, gap_at, gap_items, carried, is_left_out, octets_carried, origin_of, side_by};
ghost use Rattle.xot_circuits.specs.Items.{item_view};

use crate::circuit::{Circuit, What};
use crate::item::{CircuitGap, EndedCircuit, Item, Items, Origin, Sent};
use crate::stream::{Found, Stream};
use line_model::state::Side;
use std::alloc::{AllocError, Global};
use std::marker::Model;
use tcp_streams::connection::{End, EndSet, Event, Fed};
use tcp_streams::ends::Ends;
use tcp_streams::piece::{Piece, Recorded};

/// What the packets of both directions say.
#[derive(Clone, Copy)]
pub struct Dialogue {
    /// The side of the opener.
    pub side: Side,
    /// The circuit.
    pub circuit: Circuit,
    /// The gap before its next packet.
    pub gap: Option<CircuitGap>,
    /// The ends with a packet.
    pub senders: EndSet,
    /// The ends of which octets surely are missing.
    pub lacking: EndSet,
}

/// A connection as XOT.
#[derive(Drop)]
pub struct Exchange {
    opener: Stream,
    answerer: Stream,
    dialogue: Dialogue,
}

impl Model for Exchange {
    ghost use Rattle.xot_circuits.specs.Exchanges.{ExchangeView, direction_of};

    ghost Value = { ExchangeView };

    ghost view = { λ x. record { opener = direction_of x.opener; answerer = direction_of x.answerer; dialogue = x.dialogue } };
}

/// Returns the side of an end, by that of the opener.
fn side_by(opener: Side, end: End) -> Side
    ensures { result ≡ side_by opener end }
{
    match end {
        End::Opener => opener,
        End::Answerer => opener.other(),
    }
}

/// Returns whether a packet is not of the circuit.
fn is_left_out(what: What) -> bool
    ensures { result ≡ is_left_out what }
{
    matches!(what, What::SetUp | What::OfInterface(_))
}

/// Returns how many octets of a piece are missing that the recorder cut off.
fn cut_octets(piece: &Piece) -> u64
    ensures { result ≡ cut_octets piece.now }
{
    let length = piece.octets.as_slice().len() as u64 + u64::from(piece.is_end);
    piece.until.saturating_sub(piece.at).saturating_sub(length)
}

/// Gives out a gap.
fn give_gap<I: Items>(gap: Option<CircuitGap>, out: &mut I) -> Result<(), AllocError>
    ensures { OnOk result (I.taken out.new ≡ I.taken out.old ++ gap_items gap) }
{
    match gap {
        Some(gap) => out.take(&Item::Gap(gap)),
        None => Ok(()),
    }
}

impl Dialogue {
    ghost use Rattle.xot_circuits.specs.Exchanges.{alone, has_packet, is_alone, lacked, missed, new_dialogue, refused, sent, sent_by};

    /// Returns the dialogue of a connection of which nothing was read. `gap`: the recording began inside of it.
    fn new(side: Side, gap: Option<CircuitGap>) -> Dialogue
        ensures { result ≡ new_dialogue side gap }
    {
        Dialogue {
            side,
            circuit: Circuit::new(gap.is_some()),
            gap,
            senders: EndSet::none(),
            lacking: EndSet::none(),
        }
    }

    /// Reads a packet.
    fn follow<I: Items>(
        &mut self,
        origin: &Origin,
        octets: &[u8],
        out: &mut I,
    ) -> Result<(), AllocError>
        ensures after { OnOk result (self.new ≡ (sent origin.now octets.now self.old).after) }
        ensures items { OnOk result (I.taken out.new ≡ I.taken out.old ++ (sent origin.now octets.now self.old).items) }
    {
        let side = side_by(self.side, origin.from);
        let what = self.circuit.follow(side, octets);
        let sent = Sent {
            origin: *origin,
            side,
            what,
            octets,
        };
        if is_left_out(what) {
            return out.take(&Item::LeftOut(sent));
        }
        give_gap(self.gap, out)?;
        self.gap = None;
        self.senders = self.senders.with(origin.from);
        out.take(&Item::Packet(sent))
    }

    /// Reads a gap. Of several before a packet the last one counts.
    fn miss(&mut self, origin: &Origin)
        ensures { self.new ≡ missed origin.now self.old }
    {
        self.circuit.lose();
        self.gap = Some(gap_at(origin));
    }

    /// Notes that octets of an end are missing, where some surely are.
    fn lack(&mut self, end: End, octets: u64)
        ensures { self.new ≡ lacked end octets self.old }
    {
        if octets > 0 {
            self.lacking = self.lacking.with(end);
        }
    }

    /// Returns whether it has a packet.
    fn has_packet(&self) -> bool
        ensures { result ≡ has_packet self.now }
    {
        self.senders.opener || self.senders.answerer
    }

    /// Returns whether an end alone was recorded: it has packets, the other one has none, and octets of that are missing.
    fn is_alone(&self, end: End) -> bool
        ensures { result ≡ is_alone end self.now }
    {
        let other = end.other();
        self.senders.has(end) && !self.senders.has(other) && self.lacking.has(other)
    }

    /// Returns the side that alone was recorded.
    fn alone(&self) -> Option<Side>
        ensures { result ≡ alone self.now }
    {
        if self.is_alone(End::Opener) {
            Some(self.side)
        } else if self.is_alone(End::Answerer) {
            Some(self.side.other())
        } else {
            None
        }
    }

    /// Reads the header of another version.
    fn refuse(&mut self, origin: &Origin)
        ensures { self.new ≡ refused origin.now self.old }
    {
        if self.circuit.has_gap {
            self.gap = Some(gap_at(origin));
        }
        self.circuit.refuse();
    }
}

/// Returns the gap that a frame shows.
fn gap_at(origin: &Origin) -> CircuitGap
    ensures { result ≡ gap_at origin.now }
{
    CircuitGap {
        connection: origin.connection,
        recorded: origin.recorded,
        is_beginning: false,
    }
}

/// Reads what octets begin with. Returns the octets after it, where they may go on with a packet.
fn follow_next<'a, I: Items>(
    stream: &mut Stream,
    dialogue: &mut Dialogue,
    origin: &Origin,
    octets: &'a [u8],
    out: &mut I,
) -> Result<Option<&'a [u8]>, AllocError>
    requires { stream.old.is_sought ≡ false }
    ensures { IfOk result (λ next. MatchOption next
        (behind (I.taken out.old) (carried origin.now (contents_of (stream.old.rest ++ octets.entry.now)) dialogue.old)
        ≡ record { direction = direction_of stream.new; after = dialogue.new; items = I.taken out.new })
        (λ rest. (behind (I.taken out.old) (carried origin.now (contents_of (stream.old.rest ++ octets.entry.now)) dialogue.old)
        ≡ behind (I.taken out.new) (carried origin.now (contents_of (stream.new.rest ++ rest.now)) dialogue.new))
        × (length stream.new.rest + length rest.now < length stream.old.rest + length octets.entry.now)
        × (stream.new.is_sought ≡ false))) }
{
    let next = stream.next(octets)?;
    match next.found {
        Found::Lent(packet) => dialogue.follow(origin, packet, out)?,
        Found::Kept => dialogue.follow(origin, stream.packet(), out)?,
        Found::Partial => return Ok(None),
        Found::OtherVersion { .. } => {
            dialogue.refuse(origin);
            return Ok(None);
        }
    }
    Ok(Some(next.rest))
}

/// Reads octets of a direction in which no packet is sought.
fn follow_all<I: Items>(
    stream: &mut Stream,
    dialogue: &mut Dialogue,
    origin: &Origin,
    octets: &[u8],
    out: &mut I,
) -> Result<(), AllocError>
    requires { stream.old.is_sought ≡ false }
    ensures direction { OnOk result (direction_of stream.new ≡ (carried origin.now (contents_of (stream.old.rest ++ octets.now)) dialogue.old).direction) }
    ensures after { OnOk result (dialogue.new ≡ (carried origin.now (contents_of (stream.old.rest ++ octets.now)) dialogue.old).after) }
    ensures items { OnOk result (I.taken out.new ≡ I.taken out.old ++ (carried origin.now (contents_of (stream.old.rest ++ octets.now)) dialogue.old).items) }
{
    let mut left = octets;
    while let Some(rest) = follow_next(stream, dialogue, origin, left, out)? {
        left = rest;
    }
    Ok(())
}

/// Reads octets of a direction.
fn follow_octets<I: Items>(
    stream: &mut Stream,
    dialogue: &mut Dialogue,
    origin: &Origin,
    octets: &[u8],
    out: &mut I,
) -> Result<(), AllocError>
    ensures direction { OnOk result (direction_of stream.new ≡ (octets_carried origin.now octets.now (direction_of stream.old) dialogue.old).direction) }
    ensures after { OnOk result (dialogue.new ≡ (octets_carried origin.now octets.now (direction_of stream.old) dialogue.old).after) }
    ensures items { OnOk result (I.taken out.new ≡ I.taken out.old ++ (octets_carried origin.now octets.now (direction_of stream.old) dialogue.old).items) }
{
    if stream.is_sought() {
        let side = side_by(dialogue.side, origin.from);
        let passed = stream.join(octets, &dialogue.circuit.expected(side))?;
        if passed > 0 {
            dialogue.miss(origin);
        }
        if stream.is_sought() {
            return Ok(());
        }
    }
    follow_all(stream, dialogue, origin, octets, out)
}

impl Exchange {
    ghost use Rattle.xot_circuits.specs.Exchanges.{ended, event_read, is_left, lost, new_exchange, octets_read, piece_read, shown, with_seen};

    /// Returns an exchange of which nothing was read. `gap`: the recording began inside of the connection.
    pub fn new(alloc: Global, opener: Side, gap: Option<CircuitGap>) -> Exchange
        ensures { result ≡ new_exchange opener gap }
    {
        Exchange {
            opener: Stream::new(alloc, gap.is_some()),
            answerer: Stream::new(alloc, gap.is_some()),
            dialogue: Dialogue::new(opener, gap),
        }
    }

    /// Returns whether the connection does not carry XOT. Nothing more is read of it then.
    pub fn is_left(&self) -> bool
        ensures { result ≡ is_left self.now }
    {
        self.dialogue.circuit.is_left
    }

    /// Reads the next octets of an end. Fails only when memory is refused; drop the exchange then.
    pub fn read<I: Items>(
        &mut self,
        origin: &Origin,
        octets: &[u8],
        out: &mut I,
    ) -> Result<(), AllocError>
        ensures after { OnOk result (self.new ≡ (octets_read origin.now octets.now self.old).after) }
        ensures items { OnOk result (I.taken out.new ≡ I.taken out.old ++ (octets_read origin.now octets.now self.old).items) }
    {
        if self.is_left() {
            return Ok(());
        }
        match origin.from {
            End::Opener => follow_octets(&mut self.opener, &mut self.dialogue, origin, octets, out),
            End::Answerer => {
                follow_octets(&mut self.answerer, &mut self.dialogue, origin, octets, out)
            }
        }
    }

    /// Reads a gap of an end, of so many octets; 0 where nobody knows how many. The next packet of the end is sought.
    pub fn lose(&mut self, origin: &Origin, octets: u64)
        ensures { self.new ≡ lost origin.now octets self.old }
    {
        if self.is_left() {
            return;
        }
        match origin.from {
            End::Opener => self.opener.lose(),
            End::Answerer => self.answerer.lose(),
        };
        self.dialogue.lack(origin.from, octets);
        self.dialogue.miss(origin);
    }

    /// Notes of which ends segments were recorded: of the others all octets are missing.
    pub fn note_seen(&mut self, seen: EndSet)
        ensures { self.new ≡ with_seen seen self.old }
    {
        let lacking = self.dialogue.lacking;
        self.dialogue.lacking = EndSet {
            opener: lacking.opener || !seen.opener,
            answerer: lacking.answerer || !seen.answerer,
        };
    }

    /// Reads the gaps that a segment shows at once.
    pub fn show(&mut self, origin: &Origin, fed: &Fed)
        ensures { self.new ≡ shown origin.now fed.now self.old }
    {
        if let Some(octets) = fed.unsaid {
            let other = Origin {
                from: origin.from.other(),
                ..*origin
            };
            self.lose(&other, octets);
        }
        if let Some(octets) = fed.opening {
            self.lose(origin, octets);
        }
    }

    /// Reads a piece. Octets that the recorder cut off are missing after it.
    fn read_piece<I: Items>(
        &mut self,
        origin: &Origin,
        piece: &Piece,
        out: &mut I,
    ) -> Result<(), AllocError>
        ensures after { OnOk result (self.new ≡ (piece_read origin.now piece.now self.old).after) }
        ensures items { OnOk result (I.taken out.new ≡ I.taken out.old ++ (piece_read origin.now piece.now self.old).items) }
    {
        self.read(origin, piece.octets.as_slice(), out)?;
        let cut = cut_octets(piece);
        if cut > 0 {
            self.lose(origin, cut);
        }
        Ok(())
    }

    /// Reads what comes next in the connection of a number. Fails only when memory is refused; drop the exchange then.
    pub fn take<I: Items>(
        &mut self,
        connection: u64,
        event: &Event,
        out: &mut I,
    ) -> Result<(), AllocError>
        ensures after { OnOk result (self.new ≡ (event_read connection event.now self.old).after) }
        ensures items { OnOk result (I.taken out.new ≡ I.taken out.old ++ (event_read connection event.now self.old).items) }
    {
        match event {
            Event::Piece(from, piece) => {
                self.read_piece(&origin_of(connection, *from, piece.recorded), piece, out)
            }
            Event::Gap(gap) => {
                let origin = origin_of(connection, gap.end, gap.recorded);
                self.lose(&origin, gap.octets);
                Ok(())
            }
        }
    }

    /// Gives out what is left at the end of the connection: a gap after the last packet, and the circuit. `ends`: those of the
    /// connection, the opener first.
    pub fn end<I: Items>(
        &self,
        ends: Ends,
        connection: u64,
        recorded: Option<Recorded>,
        out: &mut I,
    ) -> Result<(), AllocError>
        ensures { OnOk result (I.taken out.new ≡ I.taken out.old ++ ended ends connection recorded self.now) }
    {
        let dialogue = &self.dialogue;
        give_gap(
            if dialogue.has_packet() {
                dialogue.gap
            } else {
                None
            },
            out,
        )?;
        out.take(&Item::Ended(EndedCircuit {
            connection,
            ends,
            opener: dialogue.side,
            recorded,
            circuit: dialogue.circuit,
            alone: dialogue.alone(),
        }))
    }
}

/// Returns where octets come from.
fn origin_of(connection: u64, from: End, recorded: Recorded) -> Origin
    ensures { result ≡ origin_of connection from recorded }
{
    Origin {
        connection,
        from,
        recorded,
    }
}
