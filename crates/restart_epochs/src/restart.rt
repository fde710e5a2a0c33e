//! The restart machine.

ghost use Rattle.std.specs.Prelude.{◌≡◌};
ghost use Rattle.std.specs.Bool.{OnTrue};
ghost use Rattle.line_model.specs.packets.Classes.{packet_class};
ghost use Rattle.line_model.specs.packets.Says.{gap_of, packet_channel};
ghost use Rattle.line_model.specs.observer.Observer.{start};
ghost use Rattle.line_model.specs.channels.RestartMachine.{restart_fault, restart_move, restart_error, restart_step, passes_joining, level_step};
ghost use Rattle.line_model.specs.channels.GapRestart.{adrift_confirmation, adrift_restart, gap_in, gap_level_step, gap_on, is_of_restart, level_in_r1_with, level_takes, routing_by, start_by};

use line_model::diagnostic::{PACKET_TOO_LONG, PACKET_TOO_SHORT};
use line_model::gap::EpochStart;
use line_model::interface::Interface;
use line_model::packet::{Class, Packet, PacketKind};
pub use line_model::route::Route;
use line_model::state::{RState, Side, StateName};
use line_model::table::{Action, table_n, table_t};
use std::marker::Model;

/// The restart machine: its state, and whether the DCE still owes its indication.
#[derive(Clone, Copy)]
pub struct Restart {
    state: RState,
    owed: bool,
    /// Whether the trace began in the middle, and r1 was not left yet.
    joining: bool,
    /// Whether it is in r1 after a gap of all channels: a restart may have been missed.
    adrift: bool,
    /// Whether the restart indication was owed as the interface came adrift.
    owed_before: bool,
}

impl Model for Restart {
    ghost use Rattle.line_model.specs.channels.GapRestart.{GapInterfaceState};

    ghost Value = { GapInterfaceState };

    ghost view = { λ r. record {
      level = record { state = r.state; owed = r.owed; joining = r.joining };
      adrift = r.adrift;
      owed_before = r.owed_before;
    } };

    ghost inverse = { λ g. record {
      state = g.level.state;
      owed = g.level.owed;
      joining = g.level.joining;
      adrift = g.adrift;
      owed_before = g.owed_before;
    } };
}

/// The fault of a restart packet's format.
fn fault(class: Class, length: usize) -> Option<u8>
    ensures { result ≡ restart_fault class length }
{
    match class {
        Class::Restart if length < 4 => Some(PACKET_TOO_SHORT),
        Class::Restart if length > 5 => Some(PACKET_TOO_LONG),
        Class::RestartConfirm if length > 3 => Some(PACKET_TOO_LONG),
        _ => None,
    }
}

/// Returns the logical channel of a packet, 0 where the channel is not assigned.
pub fn packet_channel(packet: &Packet) -> u16
    ensures { result ≡ packet_channel packet.now }
{
    match packet {
        Packet::Channel { channel, .. } => *channel,
        _ => 0,
    }
}

/// Whether a packet is a restart or confirms one.
fn is_of_restart(class: Class) -> bool
    ensures { result ≡ is_of_restart class }
{
    matches!(class, Class::Restart | Class::RestartConfirm)
}

impl Restart {
    /// Returns the machine before the first row.
    pub fn first(interface: &Interface) -> Self
        ensures { result ≡ (start interface.now).level }
    {
        Restart {
            state: RState::R1,
            owed: false,
            joining: interface.join && !interface.gaps,
            adrift: interface.join && interface.gaps,
            owed_before: false,
        }
    }

    /// Returns the machine as it enters r1.
    fn in_r1(adrift: bool, owed_before: bool) -> Self
        ensures { result ≡ level_in_r1_with adrift owed_before }
    {
        Restart {
            state: RState::R1,
            owed: false,
            joining: false,
            adrift,
            owed_before,
        }
    }

    /// Returns `true` only where both machines are the same.
    pub fn is_same(&self, other: &Restart) -> bool
        ensures { OnTrue result (self.now ≡ other.now) }
    {
        self.state == other.state
            && self.owed == other.owed
            && self.joining == other.joining
            && self.adrift == other.adrift
            && self.owed_before == other.owed_before
    }

    /// Returns the state of the machine.
    pub fn state(&self) -> RState
        ensures { result ≡ self.now.level.state }
    {
        self.state
    }

    /// Returns how an epoch begins with this machine.
    pub fn start(&self) -> EpochStart
        ensures { result ≡ start_by self.now }
    {
        if self.adrift {
            EpochStart::Drifting(self.owed_before)
        } else {
            EpochStart::Restarted
        }
    }

    /// Steps by one row, and returns where it goes.
    pub fn step(&mut self, packet: &Packet, length: usize, side: Side) -> Route
        ensures { record { route = result; after = self.new }
            ≡ routing_by (gap_of packet.now) self.old side (packet_class packet.now) length }
    {
        match packet {
            Packet::GapOfAll => self.pass_gap(),
            Packet::Channel {
                kind: PacketKind::Gap,
                ..
            } => self.hand_on_gap(),
            _ => self.step_by_class(packet.class(), length, side),
        }
    }

    /// Steps by a gap of all channels. Outside r1 the other packet of the restart may be missing in it.
    fn pass_gap(&mut self) -> Route
        ensures { record { route = result; after = self.new } ≡ gap_in self.old.level.state self.old }
    {
        match self.state {
            RState::R1 => {
                self.adrift = true;
                return Route::Pass;
            }
            RState::R2 => *self = Restart::in_r1(true, false),
            RState::R3 => *self = Restart::in_r1(true, self.owed),
        }
        Route::Enter
    }

    /// Returns where a gap of a channel goes: to the channel in r1.
    fn hand_on_gap(&self) -> Route
        ensures { record { route = result; after = self.now } ≡ gap_on self.now.level.state self.now }
    {
        match self.state {
            RState::R1 => Route::ToChannel,
            _ => Route::Pass,
        }
    }

    /// Steps by a packet of a class, and returns where it goes.
    fn step_by_class(&mut self, class: Class, length: usize, side: Side) -> Route
        ensures { record { route = result; after = self.new }
            ≡ gap_level_step self.old side class length }
    {
        if self.adrift && self.state == RState::R1 && is_of_restart(class) {
            self.restart_adrift(class, length, side)
        } else {
            self.step_by_table(class, length, side)
        }
    }

    /// Steps by a packet of a restart while the interface is adrift: none is a finding, and each shows that an epoch
    /// ended.
    fn restart_adrift(&mut self, class: Class, length: usize, side: Side) -> Route
        ensures { record { route = result; after = self.new }
            ≡ adrift_restart side class (restart_fault class length) self.old }
    {
        match fault(class, length) {
            Some(_) => Route::Pass,
            None if class == Class::RestartConfirm => self.confirm_adrift(side),
            None => {
                *self = Restart::in_r1(true, false);
                Route::Renew
            }
        }
    }

    /// Steps by a confirmation while the interface is adrift. One of the DCE may be in place of the indication that was
    /// owed.
    fn confirm_adrift(&mut self, side: Side) -> Route
        ensures { record { route = result; after = self.new } ≡ adrift_confirmation side self.old }
    {
        if side == Side::N && self.owed_before {
            Route::Pass
        } else {
            *self = Restart::in_r1(false, false);
            Route::Renew
        }
    }

    /// Steps by a packet, by the table of the restart machine.
    fn step_by_table(&mut self, class: Class, length: usize, side: Side) -> Route
        ensures { record { route = result; after = self.new }
            ≡ level_takes self.old (level_step self.old.level side class length) }
    {
        let name = self.state.name();
        let action = match side {
            Side::T => table_t(name, class),
            Side::N => table_n(name, self.owed, class),
        };
        if class.is_outside() {
            match action {
                Action::Error(code) => Route::Found(StateName::Dash, code),
                _ => Route::Pass,
            }
        } else if self.passes(class) {
            Route::Pass
        } else {
            self.act(class, length, side, action)
        }
    }

    /// Whether a packet confirms a restart before the trace.
    fn passes(&self, class: Class) -> bool
        ensures { result ≡ passes_joining self.now.level class }
    {
        match class {
            Class::RestartConfirm => self.joining,
            _ => false,
        }
    }

    /// Does what an entry of the table says.
    fn act(&mut self, class: Class, length: usize, side: Side, action: Action) -> Route
        ensures { record { route = result; after = self.new }
            ≡ level_takes self.old (restart_step self.old.level side class length action) }
    {
        match action {
            Action::Move(state) => match fault(class, length) {
                Some(code) => Route::Found(self.state.name(), code),
                None => self.enter(state),
            },
            Action::Error(code) => self.fail(side, code),
            Action::Ends => {
                self.owed = false;
                Route::Pass
            }
            Action::ToChannel => Route::ToChannel,
            _ => Route::Pass,
        }
    }

    /// Moves to a state.
    fn enter(&mut self, state: StateName) -> Route
        ensures { record { route = result; after = self.new }
            ≡ level_takes self.old (restart_move self.old.level.state state) }
    {
        let left = self.state == RState::R1;
        self.owed = false;
        self.joining = false;
        match state {
            StateName::R1 => {
                self.state = RState::R1;
                return Route::Enter;
            }
            StateName::R2 => self.state = RState::R2,
            _ => self.state = RState::R3,
        }
        if left {
            Route::Leave(None)
        } else {
            Route::Pass
        }
    }

    /// Handles an error: one of the DTE has the DCE restart.
    fn fail(&mut self, side: Side, code: u8) -> Route
        ensures { record { route = result; after = self.new }
            ≡ level_takes self.old (restart_error self.old.level side code) }
    {
        let state = self.state;
        if side == Side::N {
            return Route::Found(state.name(), code);
        }
        self.state = RState::R3;
        self.owed = true;
        self.joining = false;
        if state == RState::R1 {
            Route::Leave(Some(code))
        } else {
            Route::Found(state.name(), code)
        }
    }
}
