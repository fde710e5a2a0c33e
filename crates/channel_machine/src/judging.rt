//! The entry of a packet in the state tables.

ghost use Rattle.std.specs.Prelude.{◌≡◌};
ghost use Rattle.line_model.specs.channels.Tables.{action};
ghost use Rattle.line_model.specs.channels.ChannelStep.{judged, joining, is_reset, is_call_or_clear};
ghost use Rattle.channel_machine.specs.Entries.{is_transfer};

use line_model::packet::Class;
use line_model::state::{ChannelState, Side, StateName};
use line_model::table::{Action, table_n, table_t};

/// The entry of a side's table.
fn entry(side: Side, state: StateName, owed: bool, class: Class) -> Action
    ensures { result ≡ action side state owed class }
{
    match side {
        Side::T => table_t(state, class),
        Side::N => table_n(state, owed, class),
    }
}

/// Returns the state in whose column a packet is judged, and the entry there: in p4 that of the first table, or of the
/// second where the first says so. Of an unknown channel a packet that shows its state is judged as in p1, on a
/// permanent circuit as in d1.
#[inline(always)]
pub(crate) fn judged(
    permanent: bool,
    side: Side,
    state: ChannelState,
    owed: bool,
    class: Class,
) -> (StateName, Action)
    ensures { record { state = result.0; entry = result.1 }
        ≡ judged permanent side state owed class }
{
    match state {
        ChannelState::Setup(state) => (state.name(), entry(side, state.name(), owed, class)),
        ChannelState::Transfer(state) => {
            if !permanent {
                let first = entry(side, StateName::P4, owed, class);
                if first != Action::Below {
                    return (StateName::P4, first);
                }
            }
            (state.name(), entry(side, state.name(), owed, class))
        }
        ChannelState::Unknown => {
            if permanent {
                let in_d1 = entry(side, StateName::D1, owed, class);
                joining(is_reset(class), StateName::D1, in_d1)
            } else {
                let in_p1 = entry(side, StateName::P1, owed, class);
                joining(is_call_or_clear(class), StateName::P1, in_p1)
            }
        }
    }
}

/// The entry of an unknown channel: every packet passes except those that show its state.
fn joining(taken: bool, state: StateName, entry: Action) -> (StateName, Action)
    ensures { record { state = result.0; entry = result.1 } ≡ joining taken state entry }
{
    if taken {
        (state, entry)
    } else {
        (state, Action::Pass)
    }
}

/// Whether a class shows the state of an unknown permanent circuit.
fn is_reset(class: Class) -> bool
    ensures { result ≡ is_reset class }
{
    matches!(class, Class::Reset)
}

/// Whether a class shows the state of an unknown virtual call channel.
fn is_call_or_clear(class: Class) -> bool
    ensures { result ≡ is_call_or_clear class }
{
    matches!(class, Class::Call | Class::Clear)
}

/// Returns whether a packet of a class is one of data transfer.
#[inline(always)]
pub(crate) fn is_transfer(class: Class) -> bool
    ensures { result ≡ is_transfer class }
{
    matches!(
        class,
        Class::Data | Class::Interrupt | Class::InterruptConfirm | Class::Rr | Class::Rnr
    )
}
