//! The headers that are tried on the rows of a trace.

ghost use Rattle.std.specs.Prelude.{◌≡◌, ◌==◌, IfSome};
ghost use Rattle.std.specs.List.{list_any};
ghost use Rattle.line_model.specs.basics.Limits.{is_numbering, packet_sizes};
ghost use Rattle.header_trials.specs.Headers.{IsLike, windows, with_numbers};

use line_model::interface::Interface;

/// The packet sizes that are tried (X.25 clause 4.3.2).
pub const SIZES: [u16; 9] = [16, 32, 64, 128, 256, 512, 1024, 2048, 4096];

/// Returns the windows that are tried with a modulus.
pub fn windows(modulus: u8) -> &'static [u8]
    ensures { result.now ≡ windows modulus }
{
    if modulus == 8 {
        &[1, 2, 3, 4, 5, 6, 7]
    } else {
        &[1, 2, 3, 4, 5, 6, 7, 8, 16, 32, 64, 127]
    }
}

fn is_numbered(modulus: u8, window: u8) -> bool
    ensures { result ≡ is_numbering modulus window }
{
    (modulus == 8 || modulus == 128) && 1 <= window && window < modulus
}

fn is_packet_size(size: u16) -> bool
    ensures { result ≡ list_any (λ n. size == n) packet_sizes }
{
    matches!(size, 16 | 32 | 64 | 128 | 256 | 512 | 1024 | 2048 | 4096)
}

/// Returns the interface with other numbers in its header; `None` where they break a rule of headers.
pub fn with_numbers(own: &Interface, modulus: u8, window: u8, size: u16) -> Option<Interface>
    ensures numbers { result ≡ with_numbers own.now modulus window size }
    ensures like { IfSome result (IsLike own.now) }
{
    if !is_numbered(modulus, window) || !is_packet_size(size) {
        return None;
    }
    Some(Interface {
        modulus,
        window,
        size,
        pvc: own.pvc,
        incoming: own.incoming,
        two_way: own.two_way,
        svc: own.svc,
        join: own.join,
        gaps: own.gaps,
    })
}
