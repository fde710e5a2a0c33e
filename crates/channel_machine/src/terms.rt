//! What was agreed on a channel: its call, and the packet sizes and windows in force.

ghost use Rattle.std.specs.Prelude.{◌≡◌, ◌==◌, Some, None, ℕ, List};
ghost use Rattle.std.specs.Option.{option_map_or};
ghost use Rattle.line_model.specs.declared.state.Side.TheVariants.{T, N};
ghost use Rattle.line_model.specs.packets.Facilities.{fields_of};
ghost use Rattle.line_model.specs.packets.Formats.{for_side};
ghost use Rattle.line_model.specs.basics.Octets.{octet};
ghost use Rattle.packet_decode.specs.Shown.{shown, IsUsable};
ghost use Rattle.channel_machine.specs.Terms.{AreUsable};
ghost use Rattle.channel_machine.specs.TermsRepresent.{is_fast, is_out_of, is_pad, opened_of, values_of, with_asked};

use line_model::interface::Interface;
use packet_decode::fields::CallFields;

/// What the packet that opened a call says.
#[derive(Clone, Copy)]
pub struct Opened {
    pub(crate) out: bool,
    pub(crate) fast: bool,
    /// Whether the user data names a PAD.
    pub(crate) pad_call: bool,
}

/// Packet sizes in octets and windows in force, for data from T and from N.
#[derive(Clone, Copy)]
pub struct Values {
    pub(crate) size_t: u16,
    pub(crate) size_n: u16,
    pub(crate) window_t: u8,
    pub(crate) window_n: u8,
}

impl Values {
    /// The values of an interface.
    fn of(interface: &Interface) -> Values
        ensures { result ≡ values_of interface.now }
    {
        Values {
            size_t: interface.size,
            size_n: interface.size,
            window_t: interface.window,
            window_n: interface.window,
        }
    }

    /// The values after a packet of a call, which may ask for others.
    fn asked(self, out: bool, fields: &CallFields<'_>) -> Values
        ensures { result ≡ with_asked out fields.now.sizes fields.now.windows self }
    {
        self.with_sizes(out, fields.sizes)
            .with_windows(out, fields.windows)
    }

    /// With packet sizes for data from the called and from the calling DTE.
    fn with_sizes(self, out: bool, sizes: Option<(u16, u16)>) -> Values
        ensures { result ≡ record self {
          size_t = option_map_or
              (for_side out T) sizes self.size_t;
          size_n = option_map_or
              (for_side out N) sizes self.size_n;
        } }
    {
        match sizes {
            Some((called, calling)) => Values {
                size_t: if out { calling } else { called },
                size_n: if out { called } else { calling },
                ..self
            },
            None => self,
        }
    }

    /// With windows for data from the called and from the calling DTE.
    fn with_windows(self, out: bool, windows: Option<(u8, u8)>) -> Values
        ensures { result ≡ record self {
          window_t = option_map_or
              (for_side out T) windows self.window_t;
          window_n = option_map_or
              (for_side out N) windows self.window_n;
        } }
    {
        match windows {
            Some((called, calling)) => Values {
                window_t: if out { calling } else { called },
                window_n: if out { called } else { calling },
                ..self
            },
            None => self,
        }
    }
}

/// What was agreed on a channel: the call that is open, and the values in force.
#[derive(Clone, Copy)]
pub struct Terms {
    pub(crate) interface: Interface,
    pub(crate) call: Option<Opened>,
    pub(crate) values: Values,
    ghost usable: { AreUsable interface.modulus values },
}

impl Terms {
    /// Returns a channel without a call: the values of the interface are in force.
    pub(crate) fn new(interface: Interface) -> Terms
        ensures interface { result.interface ≡ interface }
        ensures call { result.call ≡ None }
        ensures values { result.values ≡ values_of interface }
    {
        Terms {
            interface,
            call: None,
            values: Values::of(&interface),
        }
    }

    /// Returns the terms of a call that a packet opens.
    pub(crate) fn opened(interface: Interface, out: bool, fields: &CallFields<'_>) -> Terms
        requires usable { IsUsable interface fields.now }
        ensures interface { result.interface ≡ interface }
        ensures call { (xs : List ℕ) → shown fields.now ≡ fields_of xs
            → result.call ≡ Some (opened_of (record { out = out; packet = xs })) }
        ensures values { result.values ≡ with_asked out fields.now.sizes fields.now.windows
            (values_of interface) }
    {
        Terms {
            interface,
            call: Some(Opened {
                out,
                fast: fields.fast,
                pad_call: names_pad(fields.user_data),
            }),
            values: Values::of(&interface).asked(out, fields),
        }
    }

    /// Returns the terms of a call that a packet accepts: what that packet asks is in force, and otherwise what was
    /// agreed before.
    pub(crate) fn accepted(self, fields: &CallFields<'_>) -> Terms
        requires usable { IsUsable self.interface fields.now }
        ensures interface { result.interface ≡ self.interface }
        ensures call { result.call ≡ self.call }
        ensures values { result.values ≡ with_asked
            (is_out_of self.call) fields.now.sizes fields.now.windows self.values }
    {
        Terms {
            interface: self.interface,
            call: self.call,
            values: self.values.asked(is_out(self.call), fields),
        }
    }
}

/// Whether the call goes out.
fn is_out(call: Option<Opened>) -> bool
    ensures { result ≡ is_out_of call }
{
    match call {
        Some(opened) => opened.out,
        None => false,
    }
}

/// Whether user data names a PAD.
fn names_pad(user_data: &[u8]) -> bool
    ensures { result ≡ (octet 1 user_data.now == 1) }
{
    match user_data {
        [first, ..] => *first == 1,
        [] => false,
    }
}

/// Returns whether the packet that opened the call asked fast select.
pub(crate) fn was_fast(call: Option<Opened>) -> bool
    ensures { result ≡ is_fast call }
{
    match call {
        Some(opened) => opened.fast,
        None => false,
    }
}

/// Returns whether the call is a PAD call.
pub(crate) fn is_pad_call(call: Option<Opened>) -> bool
    ensures { result ≡ is_pad call }
{
    match call {
        Some(opened) => opened.pad_call,
        None => false,
    }
}
