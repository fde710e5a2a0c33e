//! Theorems about the definitions alone.

ghost use Rattle.xot_circuits.specs.Calls.{ClearIsAnswered};
ghost use Rattle.xot_circuits.specs.Exchanges.{SplitIsRead};
ghost use Rattle.xot_circuits.specs.Joining.{FirstBegins};
ghost use Rattle.xot_circuits.specs.Packets.{AnyPieces, OneSplit};

/// A stream is these packets and a rest, and no others.
pub fn one_split()
    ensures { OneSplit }
{}

/// While a packet is sought, and each segment has enough octets to decide, reading goes on from the first one that begins
/// with a packet.
pub fn first_begins()
    ensures { FirstBegins }
{}

/// Where a channel is surely in p1, a side cleared the call, the other one answered, and only the DCE sent after that.
pub fn clear_is_answered()
    ensures { ClearIsAnswered }
{}

/// However a stream was cut into pieces, they complete the packets that the whole stream is.
pub fn any_pieces()
    ensures { AnyPieces }
{}

/// Of octets that are split into packets and a rest, these packets are read.
pub fn split_is_read()
    ensures { SplitIsRead }
{}
