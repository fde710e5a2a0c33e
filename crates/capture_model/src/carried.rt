//! What a frame carries after its link header.

ghost use Rattle.std.specs.Prelude.{◌≡◌, length, nat_lt};

/// The octets after a header, as far as the recorder kept them.
#[derive(Clone, Copy)]
pub struct Payload<'a> {
    /// Those that were kept.
    pub octets: &'a [u8],
    /// How many there were on the line.
    pub length: u32,
}

impl Payload<'_> {
    /// Returns whether the recorder kept fewer octets than there were on the line.
    pub fn is_cut(&self) -> bool
        ensures { result ≡ nat_lt (length self.now.octets.now) self.now.length }
    {
        self.octets.len() < self.length as usize
    }
}

/// What comes after the link header of a frame.
#[derive(Clone, Copy)]
pub enum Carried<'a> {
    /// An IPv4 or IPv6 datagram.
    Internet(Payload<'a>),
    /// A LAPB frame from its address on, without flags and without a frame check sequence (X.25 clause 2.2).
    Lapb(Payload<'a>),
    /// A LAPB frame with its frame check sequence, and perhaps with flags around it.
    CheckedLapb(Payload<'a>),
    /// An X.25 packet alone.
    Packet(Payload<'a>),
    /// An octet of the X.25 device of Linux, which may be left out, then the packet where that octet is 0.
    Device(Payload<'a>),
    /// Another protocol.
    Other,
    /// The frame ends inside of its link header.
    Cut,
    /// The link type is not known.
    Unknown,
}
