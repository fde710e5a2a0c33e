//! What is given of how captures are read.

ghost use Rattle.std.specs.Prelude.{◌≡◌};
ghost use Rattle.capture_report.specs.Given.{has_ranges, is_plain, is_unnamed, is_whole, last_given, none_given, plain, reads_once, with_unknown};

use crate::row_source::RowSource;
use capture_model::kind::LinkKind;
use capture_rows::choices::Choices;
use capture_rows::station::StationBy;
use lapb_link::modulus::Modulus;
use line_model::state::Side;
use xot_circuits::roles::Host;

/// The numbers of a header that are given. The others are estimated.
#[derive(Clone, Copy)]
pub struct GivenHeader {
    /// The modulus of packets.
    pub modulus: Option<Modulus>,
    /// The default window.
    pub window: Option<u8>,
    /// The default packet size.
    pub size: Option<u16>,
    /// The last permanent channel.
    pub pvc: Option<u16>,
    /// The last channel for incoming calls.
    pub incoming: Option<u16>,
    /// The last two-way channel.
    pub two_way: Option<u16>,
    /// The last channel.
    pub svc: Option<u16>,
    /// The last channel too, as that for outgoing calls.
    pub outgoing: Option<u16>,
    /// Whether the recording began in the middle.
    pub join: Option<bool>,
}

impl GivenHeader {
    /// Returns a header of which nothing is given.
    pub fn none() -> GivenHeader
        ensures { result ≡ none_given }
    {
        GivenHeader {
            modulus: None,
            window: None,
            size: None,
            pvc: None,
            incoming: None,
            two_way: None,
            svc: None,
            outgoing: None,
            join: None,
        }
    }

    /// Returns whether nothing is to be estimated.
    pub fn is_whole(&self) -> bool
        ensures { result ≡ is_whole self.now }
    {
        self.modulus.is_some()
            && self.window.is_some()
            && self.size.is_some()
            && self.pvc.is_some()
            && self.last().is_some()
    }

    /// Returns the last channel, by either name.
    pub(crate) fn last(&self) -> Option<u16>
        ensures { result ≡ last_given self.now }
    {
        self.svc.or(self.outgoing)
    }

    /// Returns whether the last channels of kinds of calls are given.
    pub(crate) fn has_ranges(&self) -> bool
        ensures { result ≡ has_ranges self.now }
    {
        self.incoming.is_some() || self.two_way.is_some() || self.outgoing.is_some()
    }

    /// Returns whether nothing is given.
    fn is_unnamed(&self) -> bool
        ensures { result ≡ is_unnamed self.now }
    {
        self.modulus.is_none()
            && self.window.is_none()
            && self.size.is_none()
            && self.pvc.is_none()
            && self.incoming.is_none()
            && self.two_way.is_none()
            && self.svc.is_none()
            && self.outgoing.is_none()
            && self.join.is_none()
    }
}

/// How captures are read.
#[derive(Clone, Copy)]
pub struct CaptureOptions {
    /// The numbers of the header.
    pub header: GivenHeader,
    /// How the frames of the line are read.
    pub choices: Choices,
    /// How LAPB counts its frames, where SABM and SABME don't show it.
    pub modulus: Option<Modulus>,
    /// Whether the sides are exchanged: what the choices call the DTE is the DCE of the trace.
    pub is_swapped: bool,
    /// The host of the DTE of circuits of XOT; `None` where the hosts that opened the connections are.
    pub dte: Option<Host>,
    /// What carries the packets that are read; `None` where the capture shows it.
    pub source: Option<RowSource>,
    /// The port of XOT.
    pub port: u16,
}

/// The port of XOT (RFC 1613).
pub const XOT_PORT: u16 = 1998;

impl CaptureOptions {
    /// Returns what holds where nothing is given: the addresses show the ends of a link, and the recording host is the DTE.
    pub fn plain() -> CaptureOptions
        ensures { result ≡ plain }
    {
        CaptureOptions {
            header: GivenHeader::none(),
            choices: Choices {
                unknown: None,
                carrier: None,
                interface: None,
                station_by: StationBy::Either,
                host: Side::T,
            },
            modulus: None,
            is_swapped: false,
            dte: None,
            source: None,
            port: XOT_PORT,
        }
    }

    /// Returns the same with a link header for unknown link types.
    pub(crate) fn with_unknown(&self, kind: LinkKind) -> CaptureOptions
        ensures { result ≡ with_unknown kind self.now }
    {
        CaptureOptions {
            choices: Choices {
                unknown: Some(kind),
                ..self.choices
            },
            ..*self
        }
    }

    /// Returns whether nothing is given.
    pub fn is_plain(&self) -> bool
        ensures { result ≡ is_plain self.now }
    {
        self.header.is_unnamed()
            && self.choices.unknown.is_none()
            && self.choices.carrier.is_none()
            && self.choices.interface.is_none()
            && self.modulus.is_none()
            && !self.is_swapped
            && self.dte.is_none()
            && self.source.is_none()
            && self.port == XOT_PORT
    }

    /// Returns whether a capture in a pipe is read once, as its frames come. Otherwise it is read to its end first: numbers of
    /// the header are to be estimated, or XOT is chosen, whose circuits are looked for first.
    pub(crate) fn reads_once(&self) -> bool
        ensures { result ≡ reads_once self.now }
    {
        self.header.is_whole() && !matches!(self.source, Some(RowSource::Xot))
    }
}
