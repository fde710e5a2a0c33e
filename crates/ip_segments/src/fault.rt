//! Why a datagram has no segment.

/// What is wrong with the headers of a datagram or of its segment.
#[derive(Clone, Copy, PartialEq, Eq, Debug)]
pub enum HeaderFault {
    /// The Internet header is cut.
    InternetCut,
    /// The Internet header has this version, neither 4 nor 6.
    Version(u8),
    /// The header of an IPv4 datagram has fewer than 20 octets, or more than the datagram.
    Lengths {
        /// How many octets the header has.
        header: u8,
        /// How many octets the datagram has.
        total: u32,
    },
    /// The extension headers of an IPv6 datagram are cut, or are more than 64 (profile).
    ExtensionsCut,
    /// The TCP header is cut.
    TcpCut,
    /// The TCP header has fewer than 20 octets, or more than the segment.
    TcpLength(u8),
}
