//! What a receiver does where no frame is missing.

ghost use Rattle.std.specs.Prelude.{◌≡◌, ◌==◌, ℕ, Bool, List, [], false, Some, true};
ghost use Rattle.lapb_link.specs.Frames.{IFrame, is_repeated};
ghost use Rattle.lapb_link.specs.Receiving.{acknowledged, informed, is_inside, is_repeated_number};
ghost use Rattle.lapb_link.specs.WithoutLosses.{AreNumbered, AreWhole, IsAccepted, IsInside, IsRepeated, Seen, all_frames, all_shown};
ghost use Rattle.lapb_link.specs.declared.frames.Reading.{Reading as AnyReading};
ghost use Rattle.lapb_link.specs.declared.receiver.Receiver.{Receiver as AnyReceiver};

/// A frame with the next number is accepted, nothing is shown, and the number after it is the next one.
pub fn next_frame_is_accepted()
    ensures { (g : AnyReading) (f : IFrame) (r : AnyReceiver) → r.next ≡ Some f.send → r.held ≡ []
        → IsAccepted g f (informed g f r) }
{}

/// A frame that repeats an accepted one changes nothing, and nothing is shown.
pub fn repeated_frame_is_left_out()
    ensures { (g : AnyReading) (f : IFrame) (r : AnyReceiver) (n : ℕ) → r.next ≡ Some n → r.held ≡ []
        → (f.send == n) ≡ false → is_repeated_number g.modulus n f.send r ≡ true
        → is_repeated r.set_up f r.recent ≡ true → IsRepeated r (informed g f r) }
{}

/// An N(R) of a frame that was recorded shows nothing, and changes only what is acknowledged.
pub fn inside_acknowledgement_shows_nothing()
    ensures { (g : AnyReading) (proves : Bool) (receive n : ℕ) (r : AnyReceiver) → r.next ≡ Some n
        → is_inside g.modulus receive n r ≡ true → IsInside receive r (acknowledged g proves receive r) }
{}

/// Where no frame is missing, nothing is shown, so there is no gap, and the frames that are accepted have the numbers from
/// the next one on, each once.
pub fn without_losses()
    ensures { (ss : List Seen) (r : AnyReceiver) (n : ℕ) → r.next ≡ Some n → r.held ≡ [] → AreWhole ss r
        → (all_shown ss r ≡ []) × AreNumbered n (all_frames ss r) }
{
    next_frame_is_accepted();
    repeated_frame_is_left_out();
    inside_acknowledgement_shows_nothing();
}
