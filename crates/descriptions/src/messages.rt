//! PAD messages in words (X.29 clause 4).

use crate::parameters::parameter;
use crate::prose::{Prose, say_number};
use pad::message::{Message, MessageCode, read_message};
use pad::pairs::Pairs;

/// Returns what a message is for (X.29 Table 3).
pub fn name(code: MessageCode) -> &'static str {
    match code {
        MessageCode::Indication => "parameter indication",
        MessageCode::InvitationToClear => "invitation to clear",
        MessageCode::Set => "set",
        MessageCode::Break => "indication of break",
        MessageCode::Read => "read",
        MessageCode::Error => "error",
        MessageCode::SetAndRead => "set and read",
        MessageCode::Reselection => "reselection",
        MessageCode::ReselectionWithAddress => "reselection with TOA/NPI addresses",
    }
}

/// Returns the standard pairs of a message, none where its kind has none.
pub fn pairs_of<'a>(message: &Message<'a>) -> Pairs<'a> {
    match message.code {
        MessageCode::Indication | MessageCode::Set | MessageCode::Read | MessageCode::SetAndRead =>
            message.standard_pairs(),
        _ => Pairs::new(false, &[]),
    }
}

/// Writes the name and the standard pairs of a PAD message that is whole in these octets; a read has no values.
pub fn message<P: Prose>(out: &mut P, octets: &[u8]) {
    let Ok(message) = read_message(octets) else {
        return out.say("; a PAD message that can't be read");
    };
    out.say("; PAD message: ");
    out.say(name(message.code));
    for pair in pairs_of(&message) {
        out.say(", ");
        parameter(out, pair.reference % 128);
        if message.code != MessageCode::Read {
            say_number(out, " = ", u64::from(pair.value));
        }
    }
}
