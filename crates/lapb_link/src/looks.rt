//! What octets of an unknown link look like.

ghost use Rattle.std.specs.Prelude.{◌≡◌, ◌<◌};
ghost use Rattle.lapb_link.specs.Looks.{form_of, has_format, is_supervisory, looks_like_frame};

use crate::check::unframe;
use crate::control::{Unnumbered, command_side, unnumbered_of};

/// How LAPB frames are recorded.
#[derive(Clone, Copy, PartialEq, Eq, Debug)]
pub enum Form {
    /// From the address on, without flags and check sequence.
    Plain,
    /// With the check sequence, and perhaps with flags.
    Checked,
}

/// Returns the form in which octets look like a LAPB frame: by their check sequence, address, control field and length,
/// and of an I frame by the general format identifier of its packet. `None` where they look like none.
pub fn form_of(octets: &[u8]) -> Option<Form>
    ensures { result ≡ form_of octets.now }
{
    match unframe(octets) {
        Some(frame) if looks_like_frame(frame) => Some(Form::Checked),
        _ => {
            if looks_like_frame(octets) {
                Some(Form::Plain)
            } else {
                None
            }
        }
    }
}

/// Returns whether octets look like a frame.
fn looks_like_frame(octets: &[u8]) -> bool
    ensures { result ≡ looks_like_frame octets.now }
{
    match octets {
        [1 | 3, control, ..] => {
            if control % 2 == 0 {
                return has_format(octets, 2) || has_format(octets, 3);
            }
            if control % 4 == 1 {
                return is_supervisory(*control, octets.len());
            }
            match unnumbered_of(*control) {
                Some(Unnumbered::Frmr) => octets.len() == 5 || octets.len() == 7,
                Some(_) => octets.len() == 2,
                None => false,
            }
        }
        _ => false,
    }
}

/// Returns whether the general format identifier of a packet stands at a place, and a whole packet header.
fn has_format(octets: &[u8], at: usize) -> bool
    requires { at < 4 }
    ensures { result ≡ has_format octets.now at }
{
    octets.len() >= at + 3 && matches!(octets[at] / 16 % 4, 1 | 2)
}

/// Returns whether an RR, RNR or REJ has a control field and a length: of one octet modulo 8, of two modulo 128.
fn is_supervisory(control: u8, length: usize) -> bool
    ensures { result ≡ is_supervisory control length }
{
    length == 2 && matches!(control % 16, 1 | 5 | 9) || length == 3 && matches!(control, 1 | 5 | 9)
}
