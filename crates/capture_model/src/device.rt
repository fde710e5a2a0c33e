//! The X.25 device of Linux.

ghost use Rattle.std.specs.Prelude.{◌≡◌, MatchResult, None, Some};
ghost use Rattle.capture_model.specs.Devices.{device_word, device_packet};
ghost use Rattle.capture_model.specs.Views.{payload_view};

use crate::carried::Payload;
use crate::reason::Reason;

/// Returns the packet of an X.25 device: after its octet 0, or where there is no such octet. Fails with the word of the
/// device, where it says that the link came up (1), went down (2), or its parameters (3).
pub fn device_packet<'a>(payload: Payload<'a>) -> Result<Payload<'a>, Reason>
    ensures { MatchResult result (λ p. (device_word payload.entry.octets.now ≡ None) × (payload_view p ≡ device_packet (payload_view payload.entry)))
        (λ reason. device_word payload.entry.octets.now ≡ Some reason) }
{
    match payload.octets {
        [0, octets @ ..] => Ok(Payload {
            octets,
            length: payload.length.saturating_sub(1),
        }),
        [word @ (1 | 2 | 3), ..] => Err(Reason::DeviceWord(*word)),
        _ => Ok(payload),
    }
}
