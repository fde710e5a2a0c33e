//! The facilities of a call packet (X.25 clauses 6, 7.1 and 7.2).

ghost use Rattle.std.specs.Prelude.{◌≡◌, ◌≤◌, length, IfSome, MatchOption, is_none, true};
ghost use Rattle.line_model.specs.packets.Facilities.{octets_after, facilities_of};
ghost use Rattle.packet_decode.specs.Reading.{ReadsAs};
ghost use Rattle.packet_decode.specs.Asked.{asked_in, with_facility, nothing_asked, IsInRange, is_bad_size, is_bad_window};
ghost use Rattle.line_model.specs.declared.interface.Interface.{Interface};

use line_model::interface::Interface;

/// The code of the facility marker (X.25 clause 7.1).
const MARKER: u8 = 0;

/// What the facilities of a call packet ask. Of two with one code the last counts (profile).
#[derive(Clone, Copy)]
pub(crate) struct Asked {
    /// The parameter octet of reverse charging and fast select.
    pub(crate) charging: Option<u8>,
    /// Packet sizes by their logarithms, for data from the called and from the calling DTE.
    pub(crate) sizes: Option<(u8, u8)>,
    /// Windows, for data from the called and from the calling DTE.
    pub(crate) windows: Option<(u8, u8)>,
    /// Whether a size or a window is out of range.
    pub(crate) out_of_range: bool,
}

/// Returns how many octets a facility has after its code.
fn octets_after(code: u8, rest: &[u8]) -> usize
    ensures { result ≡ octets_after code rest.now }
{
    if code < 192 {
        return usize::from(code / 64) + 1;
    }
    rest.first().map_or(0, |size| usize::from(*size)) + 1
}

/// Whether the logarithm of a size is not 4 to 12.
fn is_bad_size(logarithm: u8) -> bool
    ensures { result ≡ is_bad_size logarithm }
{
    !(4..=12).contains(&logarithm)
}

/// Whether a window is 0 or not below the modulus.
fn is_bad_window(interface: &Interface, window: u8) -> bool
    ensures { result ≡ is_bad_window interface.now window }
{
    window == 0 || window >= interface.modulus
}

/// Returns what the facilities in some octets ask, `None` where one is cut. Those after a marker are skipped.
fn read(interface: &Interface, octets: &[u8]) -> Option<Asked>
    ensures asked { result ≡ asked_in interface.now octets.now }
    ensures in_range { IfSome result (λ a. IsInRange interface.now a) }
{
    let mut asked = Asked::nothing();
    let mut is_marked = false;
    let mut left = octets;
    while let [code, rest @ ..] = left {
        let size = octets_after(*code, rest);
        if rest.len() < size {
            return None;
        }
        is_marked = is_marked || *code == MARKER;
        if !is_marked {
            asked = asked.with(interface, *code, rest);
        }
        left = &rest[size..];
    }
    Some(asked)
}

/// Returns what the facilities ask, `None` where one is cut.
pub(crate) fn facilities(interface: &Interface, octets: &[u8]) -> Option<Asked>
    ensures reads { MatchOption result (is_none (facilities_of (length octets.now) octets.now)
        ≡ true) (λ a. ReadsAs interface.now octets.now a) }
    ensures in_range { IfSome result (λ a. IsInRange interface.now a) }
{
    read(interface, octets)
}

impl Asked {
    ghost use Rattle.packet_decode.specs.Reading.{charges_fast, charges_reverse};

    /// Returns what no facilities ask.
    fn nothing() -> Asked
        ensures value { result ≡ nothing_asked }
        ensures in_range { (i : Interface) → IsInRange i result }
    {
        Asked {
            charging: None,
            sizes: None,
            windows: None,
            out_of_range: false,
        }
    }

    /// Returns what is asked with one facility more, which replaces an earlier one of its code.
    fn with(self, interface: &Interface, code: u8, rest: &[u8]) -> Asked
        requires whole { octets_after code rest.now ≤ length rest.now }
        requires in_range { IsInRange interface.now self }
        ensures value { result ≡ with_facility interface.now code rest.now self }
        ensures in_range { IsInRange interface.now result }
    {
        match code {
            0x01 => Asked {
                charging: Some(rest[0]),
                ..self
            },
            0x42 => Asked {
                sizes: Some((rest[0], rest[1])),
                out_of_range: self.out_of_range || is_bad_size(rest[0]) || is_bad_size(rest[1]),
                ..self
            },
            0x43 => Asked {
                windows: Some((rest[0], rest[1])),
                out_of_range: self.out_of_range
                    || is_bad_window(interface, rest[0])
                    || is_bad_window(interface, rest[1]),
                ..self
            },
            _ => self,
        }
    }

    /// Returns whether fast select is asked.
    pub(crate) fn fast(&self) -> bool
        ensures { result ≡ charges_fast self.now }
    {
        self.charging.map_or(false, |octet| octet / 128 == 1)
    }

    /// Returns whether reverse charging is asked.
    pub(crate) fn reverse(&self) -> bool
        ensures { result ≡ charges_reverse self.now }
    {
        self.charging.map_or(false, |octet| octet % 2 == 1)
    }
}
