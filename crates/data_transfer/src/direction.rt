//! The sequence numbers of one direction of transfer, by their residues.

ghost use Rattle.std.specs.Prelude.{◌≡◌, ◌⊎◌, ◌<◌, ◌≤◌, ℕ, ◌+◌, ◌%◌, min, IsTrue};
ghost use Rattle.line_model.specs.channels.FlowControl.{is_send_valid};
ghost use Rattle.data_transfer.specs.FlowResidues.{outstanding, IsDirection, Residues, IsAcknowledged};

/// What is kept of one direction: its window, and the residues of the numbers of packets sent and acknowledged. Its three
/// bytes are copied one by one: LLVM copies four as one number, and keeps them in it.
#[derive(Clone, Copy)]
pub(crate) struct Direction {
    pub(crate) window: u8,
    pub(crate) sent: u8,
    pub(crate) acknowledged: u8,
}

/// Returns the residue of a number. The modulus is a power of two: a mask replaces a division, which would cost more
/// than the rest of a data packet's judgement.
pub(crate) fn residue(number: u8, modulus: u8) -> u8
    requires eight { (modulus ≡ 8) ⊎ (modulus ≡ 128) }
    ensures { result ≡ number % modulus }
{
    number & (modulus - 1)
}

impl Direction {
    /// Returns a direction in which nothing was sent.
    pub(crate) fn fresh(window: u8) -> Direction
        ensures { result ≡ record {
          window = window;
          sent = 0;
          acknowledged = 0;
        } }
    {
        Direction {
            window,
            sent: 0,
            acknowledged: 0,
        }
    }

    /// Returns how many packets are sent and not acknowledged.
    pub(crate) fn outstanding(self, modulus: u8) -> u8
        requires eight { (modulus ≡ 8) ⊎ (modulus ≡ 128) }
        requires sent_below { self.sent < modulus }
        requires acknowledged_below { self.acknowledged < modulus }
        ensures { result ≡ outstanding modulus self.sent self.acknowledged }
    {
        residue(self.sent + (modulus - self.acknowledged), modulus)
    }

    /// Returns whether a P(R) acknowledges packets that were sent.
    pub(crate) fn acknowledges(self, modulus: u8, number: u8) -> bool
        requires eight { (modulus ≡ 8) ⊎ (modulus ≡ 128) }
        requires sent_below { self.sent < modulus }
        requires acknowledged_below { self.acknowledged < modulus }
        ensures below { IsTrue result → number < modulus }
        ensures fewer { IsTrue result → outstanding modulus self.sent number
            ≤ outstanding modulus self.sent self.acknowledged }
        ensures counts { (s a : ℕ) → Residues modulus s a self.sent self.acknowledged
            → IsAcknowledged result modulus s a number }
    {
        number < modulus
            && residue(number + (modulus - self.acknowledged), modulus) <= self.outstanding(modulus)
    }

    /// Returns whether a P(S) is the next number and lies in a window, which may be narrower than that of the direction.
    pub(crate) fn is_next(self, modulus: u8, window: u8, number: u8) -> bool
        requires eight { (modulus ≡ 8) ⊎ (modulus ≡ 128) }
        requires sent_below { self.sent < modulus }
        requires acknowledged_below { self.acknowledged < modulus }
        ensures room { IsTrue result → outstanding modulus self.sent self.acknowledged
            < self.window }
        ensures counts { (s a : ℕ) → Residues modulus s a self.sent self.acknowledged
            → result ≡ is_send_valid modulus (min window self.window) s a number }
    {
        number == self.sent && self.outstanding(modulus) < window.min(self.window)
    }

    /// Returns whether these are a window and two residues, with no more packets unacknowledged than the window.
    pub(crate) fn is_in_range(self, modulus: u8) -> bool
        requires { (modulus ≡ 8) ⊎ (modulus ≡ 128) }
        ensures yes { IsTrue result → IsDirection modulus self.window self.sent self.acknowledged }
        ensures no { ¬ (IsTrue result) → ¬ (IsDirection modulus self.window self.sent
            self.acknowledged) }
    {
        (1..modulus).contains(&self.window)
            && self.sent < modulus
            && self.acknowledged < modulus
            && self.outstanding(modulus) <= self.window
    }
}
