//! The circle of the sequence numbers.

ghost use Rattle.std.specs.Prelude.{◌≡◌};

/// The modulus of the sequence numbers (X.25 clause 2.3.2).
#[derive(Clone, Copy, PartialEq, Eq, Debug)]
pub enum Modulus {
    /// 8, of a link that SABM set up.
    Basic,
    /// 128, of a link that SABME set up.
    Extended,
}

impl Modulus {
    ghost use Rattle.lapb_link.specs.Numbers.{after, ahead, before, size};

    /// Returns how many numbers there are.
    pub fn size(self) -> u8
        ensures { result ≡ size self }
    {
        match self {
            Modulus::Basic => 8,
            Modulus::Extended => 128,
        }
    }

    /// Returns how many steps lead from a number to another.
    pub fn ahead(self, from: u8, to: u8) -> u8
        ensures { result ≡ ahead self from to }
    {
        let steps = u16::from(to) + 256 - u16::from(from);
        match self {
            Modulus::Basic => (steps % 8) as u8,
            Modulus::Extended => (steps % 128) as u8,
        }
    }

    /// Returns the number that is some steps after another.
    pub fn after(self, number: u8, steps: u8) -> u8
        ensures { result ≡ after self number steps }
    {
        let sum = u16::from(number) + u16::from(steps);
        match self {
            Modulus::Basic => (sum % 8) as u8,
            Modulus::Extended => (sum % 128) as u8,
        }
    }

    /// Returns the number before another.
    pub fn before(self, number: u8) -> u8
        ensures { result ≡ before self number }
    {
        self.after(number, self.size() - 1)
    }
}
