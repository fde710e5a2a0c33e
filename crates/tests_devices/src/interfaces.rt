//! The interface of the tests that bring their own rows.

use line_model::interface::Interface;

/// Four two-way channels with window 2, and the packet size 128.
pub const PLAIN: Interface = Interface {
    modulus: 8,
    window: 2,
    size: 128,
    pvc: 0,
    incoming: 0,
    two_way: 4,
    svc: 4,
    join: false,
    gaps: false,
};
