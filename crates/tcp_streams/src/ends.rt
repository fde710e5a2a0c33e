//! The ends of a TCP connection.

ghost use Rattle.std.specs.Prelude.{◌≡◌};

/// An end of a TCP connection.
#[derive(Clone, Copy, PartialEq, Eq, PartialOrd, Ord, Debug)]
pub struct Endpoint {
    /// Its port. It comes first: connections of the same hosts differ by it, so most comparisons end with it.
    pub port: u16,
    /// Its address, the first octet as the highest one.
    pub address: u128,
    /// Whether its address is one of IPv6.
    pub is_version_6: bool,
}

/// Two ends: where a segment comes from and where it goes, or the opener of a connection and the other end.
#[derive(Clone, Copy, PartialEq, Eq, PartialOrd, Ord, Debug)]
pub struct Ends {
    /// The sender, or the opener.
    pub first: Endpoint,
    /// The receiver, or the end that answers.
    pub second: Endpoint,
}

impl Ends {
    ghost use Rattle.tcp_streams.specs.Ends.{turned};

    /// Returns the ends in the other order.
    pub fn turned(self) -> Ends
        ensures { result ≡ turned self }
    {
        Ends {
            first: self.second,
            second: self.first,
        }
    }
}
