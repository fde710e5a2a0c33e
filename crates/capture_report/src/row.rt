//! The rows of a capture.

use lapb_link::frames::Place;
use line_model::state::Side;

/// What a row says.
#[derive(Clone, Copy)]
pub enum Content<'a> {
    /// A packet of a side.
    Packet(Side, &'a [u8]),
    /// Packets of this channel, or of any, may be missing.
    Gap(Option<u16>),
}

impl<'a> Content<'a> {
    ghost use Rattle.std.specs.Prelude.{◌≡◌};
    ghost use Rattle.capture_report.specs.Contents.{content_view};
    ghost use Rattle.capture_report.specs.Texts.{sided};

    /// Returns what the row says where the sides are exchanged, or as it is.
    pub(crate) fn sided(self, is_swapped: bool) -> Content<'a>
        ensures { content_view result ≡ sided is_swapped (content_view self.entry) }
    {
        match self {
            Content::Packet(side, octets) if is_swapped => Content::Packet(side.other(), octets),
            content => content,
        }
    }
}

/// A row of a capture, without its number.
#[derive(Clone, Copy)]
pub struct Row<'a> {
    /// The place of its frame.
    pub place: Place,
    /// The number of its circuit; `None` where it is of no circuit.
    pub circuit: Option<u64>,
    /// What it says.
    pub content: Content<'a>,
}

impl Row<'_> {
    ghost use Rattle.std.specs.Prelude.{◌≡◌};
    ghost use Rattle.capture_report.specs.Contents.{gap_of_all, is_of_all, row_view};

    /// Returns a gap of all channels.
    pub fn gap_of_all(place: Place) -> Row<'static>
        ensures { row_view result ≡ gap_of_all place }
    {
        Row {
            place,
            circuit: None,
            content: Content::Gap(None),
        }
    }

    /// Returns whether it is a gap of all channels.
    pub fn is_gap_of_all(&self) -> bool
        ensures { result ≡ is_of_all (row_view self.now).content }
    {
        matches!(self.content, Content::Gap(None))
    }
}
