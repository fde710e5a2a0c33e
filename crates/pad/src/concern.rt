//! What a PAD message means for the PAD of a side.

ghost use Rattle.std.specs.Prelude.{◌≡◌};
ghost use Rattle.pad.specs.Concerns.{concern_of};

use crate::message::MessageCode;

/// What a message means for a PAD: an indication from it, a set (or set and read) for it, a read for it, or none of
/// these.
#[derive(Clone, Copy)]
pub(crate) enum Concern {
    Indicates,
    Sets,
    Reads,
    Nothing,
}

/// Returns what a message with a code means for a PAD, by whether the PAD sent it.
pub(crate) fn concern_of(own: bool, code: MessageCode) -> Concern
    ensures { result ≡ concern_of own code }
{
    match code {
        MessageCode::Indication if own => Concern::Indicates,
        MessageCode::Set | MessageCode::SetAndRead if !own => Concern::Sets,
        MessageCode::Read if !own => Concern::Reads,
        _ => Concern::Nothing,
    }
}
