//! The two ends of a link.

ghost use Rattle.std.specs.Prelude.{◌≡◌, false, true};
ghost use Rattle.lapb_link.specs.Ends.{is_other, is_station};

use line_model::state::Side;

/// A station that sent frames: a number that all its frames have, as of their direction or their link address, and its
/// side.
#[derive(Clone, Copy)]
pub struct Station {
    /// The number.
    pub source: u64,
    /// The side.
    pub side: Side,
}

/// The two ends of a link. By its address a command is of the DTE (01) or the DCE (03), and a response of the other one
/// (X.25 clause 2.4.2). This decides while both ends follow it. Where a second station sends as the same end, both are
/// DTEs of LAPB, or both are DCEs: from then on the station decides, and the first one keeps the side of its address.
#[derive(Clone, Copy)]
pub struct Ends {
    /// Whether the station decides.
    by_station: bool,
    /// Whether a second station that sends as the same end makes the station decide.
    may_separate: bool,
    /// Whether a station sent as both ends.
    is_mixed: bool,
    first: Option<Station>,
    second: Option<Station>,
}

/// Who sent a frame that is surely a command or a response.
#[derive(Clone, Copy)]
pub struct Sender {
    /// The side.
    pub side: Side,
    /// Whether this frame showed that both ends have one address.
    pub is_news: bool,
    /// Whether its address contradicts its station.
    pub is_contradiction: bool,
}

/// Returns whether sides differ.
fn is_other(one: Side, other: Side) -> bool
    ensures { result ≡ is_other one other }
{
    match one {
        Side::T => matches!(other, Side::N),
        Side::N => matches!(other, Side::T),
    }
}

/// Returns whether a station is known, and has a number.
fn is_station(source: u64, station: Option<Station>) -> bool
    ensures { result ≡ is_station source station }
{
    match station {
        Some(station) => station.source == source,
        None => false,
    }
}

impl Ends {
    ghost use Rattle.lapb_link.specs.Ends.{by_address, has_station, known, sender_by, sender_from, with_station};

    /// Returns ends that the addresses show, until a second station sends as the same end.
    pub fn by_address() -> Ends
        ensures { result ≡ by_address }
    {
        Ends {
            by_station: false,
            may_separate: true,
            is_mixed: false,
            first: None,
            second: None,
        }
    }

    /// Returns ends that the addresses alone show.
    pub fn by_address_alone() -> Ends
        ensures { result ≡ record by_address { may_separate = false } }
    {
        Ends {
            may_separate: false,
            ..Ends::by_address()
        }
    }

    /// Returns ends that stations show, the first of which may be known.
    pub fn by_station(first: Option<Station>) -> Ends
        ensures { result ≡ record by_address { by_station = true; may_separate = false; first = first } }
    {
        Ends {
            by_station: true,
            may_separate: false,
            first,
            ..Ends::by_address()
        }
    }

    /// Returns the side of a station. A link has two ends, so a second station has the other side.
    pub fn known(&self, source: Option<u64>) -> Option<Side>
        ensures { result ≡ known source self.now }
    {
        let source = source?;
        let first = self.first?;
        if first.source == source {
            return Some(first.side);
        }
        match self.second {
            None => Some(first.side.other()),
            Some(second) => {
                if second.source == source {
                    Some(second.side)
                } else {
                    None
                }
            }
        }
    }

    /// Returns who sent a command or a response, by its address and its station.
    #[inline(always)]
    pub fn sender(&mut self, source: Option<u64>, by_address: Side) -> Sender
        ensures sender { result ≡ (sender_from source by_address self.old).sender }
        ensures after { self.new ≡ (sender_from source by_address self.old).after }
    {
        match source {
            None => Sender {
                side: by_address,
                is_news: false,
                is_contradiction: false,
            },
            Some(source) => self.sender_by(source, by_address),
        }
    }

    /// Returns who sent a frame of a station.
    fn sender_by(&mut self, source: u64, by_address: Side) -> Sender
        ensures sender { result ≡ (sender_by source by_address self.old).sender }
        ensures after { self.new ≡ (sender_by source by_address self.old).after }
    {
        let known = self.known(Some(source)).unwrap_or(by_address);
        let is_contradiction = is_other(known, by_address);
        let is_station = self.has_station(source);
        if self.by_station {
            if !is_station {
                self.set_station(source, known);
            }
            return Sender {
                side: known,
                is_news: false,
                is_contradiction,
            };
        }
        if is_contradiction && !is_station && self.may_separate && !self.is_mixed {
            self.by_station = true;
            self.set_station(source, known);
            return Sender {
                side: known,
                is_news: true,
                is_contradiction: false,
            };
        }
        self.is_mixed = self.is_mixed || is_station && is_contradiction;
        self.set_station(source, by_address);
        Sender {
            side: by_address,
            is_news: false,
            is_contradiction,
        }
    }

    /// Returns whether a station is known.
    fn has_station(&self, source: u64) -> bool
        ensures { result ≡ has_station source self.now }
    {
        is_station(source, self.first) || is_station(source, self.second)
    }

    /// Sets the side of a station; of a third one nothing is kept.
    fn set_station(&mut self, source: u64, side: Side)
        ensures { self.new ≡ with_station source side self.old }
    {
        let station = Some(Station { source, side });
        if self.first.is_none() || is_station(source, self.first) {
            self.first = station;
        } else if self.second.is_none() || is_station(source, self.second) {
            self.second = station;
        }
    }
}
