//! The messages that a PAD and its partner exchange (X.29 clause 4).

ghost use Rattle.std.specs.Prelude.{◌≡◌, ◌≤◌, ◌∷◌, None, Some, length, IfOk, MatchResult};
ghost use Rattle.line_model.specs.channels.Pad.{form_fault, is_badly_formed};
ghost use Rattle.pad.specs.Codes.{code_number, octets_of, code_of};

use crate::pairs::Pairs;
use line_model::finding::Xcode;

/// What a message is for, by bits 4 to 1 of its first octet (X.29 Table 3).
#[derive(Clone, Copy, PartialEq, Eq, Debug)]
pub enum MessageCode {
    /// 0: parameter indication.
    Indication,
    /// 1: invitation to clear.
    InvitationToClear,
    /// 2: set parameters.
    Set,
    /// 3: indication of break.
    Break,
    /// 4: read parameters.
    Read,
    /// 5: error.
    Error,
    /// 6: set and read parameters.
    SetAndRead,
    /// 7: reselection.
    Reselection,
    /// 8: reselection with TOA/NPI addresses.
    ReselectionWithAddress,
}

/// A message without a fault of its own: its code, and the octets after it.
#[derive(Clone, Copy)]
pub struct Message<'a> {
    /// What the message is for.
    pub code: MessageCode,
    /// The octets after the code.
    pub pairs: &'a [u8],
    pub ghost well_formed: { form_fault (octets_of code pairs.now) ≡ None },
}

impl MessageCode {
    ghost use Rattle.std.specs.Prelude.{ℕ, List};
    ghost use Rattle.line_model.specs.channels.Pad.{is_indication};

    /// Returns whether it is that of a parameter indication.
    fn is_indication(self) -> bool
        ensures { (pairs : List ℕ) → result ≡ is_indication (octets_of self pairs) }
    {
        matches!(self, MessageCode::Indication)
    }
}

impl<'a> Message<'a> {
    ghost use Rattle.line_model.specs.channels.Pad.{standard_pairs};

    /// Returns the standard pairs of the message, those before the separator.
    pub fn standard_pairs(&self) -> Pairs<'a>
        ensures { result ≡ standard_pairs (octets_of self.now.code self.now.pairs.now) }
    {
        Pairs::new(self.code.is_indication(), self.pairs)
    }
}

/// Returns the message of a complete sequence with Q 1, or its fault, the first of X1 (no octets, bits 8
/// to 5 not 0, or a code over 8), XL (more than 1,024 octets) and X2 (pairs cut, or a break with anything but no pair
/// or the pair (8, 1)). The codes, the length and the order are profile.
pub fn read_message(octets: &[u8]) -> Result<Message<'_>, Xcode>
    ensures message { IfOk result (λ m. octets_of m.code m.pairs.now ≡ octets.now) }
    ensures fault { MatchResult result (λ _. form_fault octets.now ≡ None) (λ x.
        form_fault octets.now ≡ Some x) }
{
    let [first, pairs @ ..] = octets else {
        return Err(Xcode::X1);
    };
    let Some(code) = code_of(*first) else {
        return Err(Xcode::X1);
    };
    if octets.len() > 1024 {
        return Err(Xcode::XL);
    }
    if is_badly_formed(code, pairs) {
        return Err(Xcode::X2);
    }
    Ok(Message { code, pairs })
}

/// Returns the code of a first octet, `None` where its bits 8 to 5 are not 0, or the code is over 8.
fn code_of(octet: u8) -> Option<MessageCode>
    ensures { result ≡ code_of octet }
{
    match octet {
        0 => Some(MessageCode::Indication),
        1 => Some(MessageCode::InvitationToClear),
        2 => Some(MessageCode::Set),
        3 => Some(MessageCode::Break),
        4 => Some(MessageCode::Read),
        5 => Some(MessageCode::Error),
        6 => Some(MessageCode::SetAndRead),
        7 => Some(MessageCode::Reselection),
        8 => Some(MessageCode::ReselectionWithAddress),
        _ => None,
    }
}

/// Returns whether the pairs of a message are cut, or a break carries anything but its pair.
fn is_badly_formed(code: MessageCode, pairs: &[u8]) -> bool
    ensures { result ≡ is_badly_formed (octets_of code pairs.now) }
{
    match code {
        MessageCode::Indication | MessageCode::Set | MessageCode::Read | MessageCode::SetAndRead =>
            pairs.len() % 2 == 1,
        MessageCode::Break => !matches!(pairs, [] | [8, 1]),
        _ => false,
    }
}
