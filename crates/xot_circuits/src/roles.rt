//! Which end of a connection is the DTE.

ghost use Rattle.std.specs.Prelude.{◌≡◌};
ghost use Rattle.xot_circuits.specs.Roles.{is_of, opener_side};

use line_model::state::Side;
use tcp_streams::ends::{Endpoint, Ends};

/// A host, by its address.
#[derive(Clone, Copy)]
pub struct Host {
    /// Whether its address is one of IPv6.
    pub is_version_6: bool,
    /// Its address, the first octet as the highest one.
    pub address: u128,
}

/// Which ends are the DTE.
#[derive(Clone, Copy)]
pub struct Roles {
    /// The host of the DTE; `None` for the openers of the connections.
    pub dte: Option<Host>,
    /// Whether the sides are exchanged.
    pub is_swapped: bool,
}

/// Returns whether an end is one of a host.
fn is_of(host: Option<Host>, end: Endpoint) -> bool
    ensures { result ≡ is_of host end }
{
    match host {
        Some(host) => { host.is_version_6 == end.is_version_6 && host.address == end.address }
        None => true,
    }
}

impl Roles {
    /// Returns the side of the opener of a connection.
    pub fn opener_side(&self, ends: &Ends) -> Side
        ensures { result ≡ opener_side self.now ends.now }
    {
        if is_of(self.dte, ends.first) == self.is_swapped {
            Side::N
        } else {
            Side::T
        }
    }
}
