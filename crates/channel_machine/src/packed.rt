//! The status of a channel in one word of 64 bits.

ghost use Rattle.std.specs.Prelude.{ℕ, ◌≡◌, ◌<◌, ◌+◌, ◌/◌, ◌%◌, ◌^◌, ◌==◌};
ghost use Rattle.packet_decode.specs.Shown.{IsPacketSize};
ghost use Rattle.channel_machine.specs.Terms.{AreUsable};
ghost use Rattle.channel_run.specs.StatusWord.{state_by, state_in, owed_in};
ghost use Rattle.channel_machine.specs.PackedStatus.{call_by, call_in, values_in, status_in, settled};

use crate::status::StatusStore;
use crate::terms::{Opened, Terms, Values};
use channel_run::status_word::{bit, power, state_in};
use data_transfer::flow::Flow;
use data_transfer::packed::FlowWord;
use line_model::interface::Interface;
use line_model::state::{ChannelState, DState, PState, Side};

/// The status of a channel in one word, and its interface (profile): `channel_run::status_word::view_in` has its
/// layout.
#[derive(Clone, Copy)]
pub struct PackedStatus {
    word: FlowWord,
    interface: Interface,
    ghost usable: { AreUsable interface.modulus (values_in word) },
}

impl StatusStore for PackedStatus {
    ghost status = { λ p. status_in p.interface p.word };

    fn entered(channel: u16, state: ChannelState, owed: bool, terms: &Terms) -> Self {
        let Values {
            window_t,
            window_n,
            ..
        } = terms.values;
        let flow = Flow::new(terms.interface.modulus, window_t, window_n);
        let permanent = terms.interface.is_permanent(channel);
        let owner_bits = owner_bits_of(state_bits(permanent, state), owed, terms);
        PackedStatus {
            word: FlowWord::new(&flow, owner_bits),
            interface: terms.interface,
        }
    }

    #[inline(always)]
    fn interface(&self) -> Interface {
        self.interface
    }

    #[inline(always)]
    fn state(&self) -> ChannelState {
        state_in(self.word.owner_bits())
    }

    #[inline(always)]
    fn is_owed(&self) -> bool {
        bit(self.word.owner_bits(), 5)
    }

    fn settle(&mut self) {
        let owner_bits = self.word.owner_bits();
        self.word.set_owner_bits(settled(owner_bits));
    }

    fn terms(&self) -> Terms {
        Terms {
            interface: self.interface,
            call: call_in(self.word.owner_bits()),
            values: Values {
                size_t: self.size(Side::T),
                size_n: self.size(Side::N),
                window_t: self.word.window(Side::T),
                window_n: self.word.window(Side::N),
            },
        }
    }

    fn call(&self) -> Option<Opened> {
        call_in(self.word.owner_bits())
    }

    fn word(&self) -> FlowWord {
        self.word
    }

    #[inline(always)]
    fn size(&self, side: Side) -> u16 {
        match side {
            Side::T => power((self.word.owner_bits() >> 10) % 16),
            Side::N => power((self.word.owner_bits() >> 14) % 16),
        }
    }

    #[inline(always)]
    fn data(&mut self, side: Side, send: u8, receive: u8) -> Result<(), u8> {
        // Each side has an arm of its own, so that the places of its numbers in the word are constants.
        match side {
            Side::T => {
                let mut flow = self.word.flow();
                flow.data(Side::T, send, receive)?;
                self.word.set_numbers(&flow);
            }
            Side::N => {
                let mut flow = self.word.flow();
                flow.data(Side::N, send, receive)?;
                self.word.set_numbers(&flow);
            }
        }
        Ok(())
    }

    #[inline(always)]
    fn ack(&mut self, side: Side, receive: u8) -> Result<(), u8> {
        match side {
            Side::T => {
                let mut flow = self.word.flow();
                flow.ack(Side::T, receive)?;
                self.word.set_numbers(&flow);
            }
            Side::N => {
                let mut flow = self.word.flow();
                flow.ack(Side::N, receive)?;
                self.word.set_numbers(&flow);
            }
        }
        Ok(())
    }

    fn interrupt(&mut self, side: Side) -> Result<(), u8> {
        let mut flow = self.word.flow();
        flow.interrupt(side)?;
        self.word.set_interrupts(&flow);
        Ok(())
    }

    fn confirm(&mut self, side: Side) -> Result<(), u8> {
        let mut flow = self.word.flow();
        flow.confirm(side)?;
        self.word.set_interrupts(&flow);
        Ok(())
    }
}

/// Returns the bits above those of the windows and interrupts.
pub(crate) fn owner_bits_of(state: u32, owed: bool, terms: &Terms) -> u32
    requires state { state < 32 }
    ensures fits { result < 2 ^ 19 }
    ensures state { state_in result ≡ state_by (state % 8) (state / 8 % 4) }
    ensures owed { owed_in result ≡ owed }
    ensures call { call_in result ≡ terms.now.call }
    ensures size_t { 2 ^ (result / 1024 % 16) ≡ terms.now.values.size_t }
    ensures size_n { 2 ^ (result / 16384 % 16) ≡ terms.now.values.size_n }
{
    let size_t = logarithm(terms.values.size_t);
    let size_n = logarithm(terms.values.size_n);
    state + u32::from(owed) * 32 + call_bits(terms.call) * 64 + size_t * 1024 + size_n * 16384
}

/// Returns these bits with no indication owed.
fn settled(owner_bits: u32) -> u32
    ensures { result ≡ settled owner_bits }
{
    owner_bits - owner_bits / 32 % 2 * 32
}

/// Returns the bits of a state: three for p1 to p7, which are those of p4 on a virtual channel in data transfer, and
/// two for d1 to d3.
pub(crate) fn state_bits(permanent: bool, state: ChannelState) -> u32
    ensures below { result < 32 }
    ensures state { state_by (result % 8) (result / 8 % 4) ≡ state }
{
    match state {
        ChannelState::Setup(state) => match state {
            PState::P1 => 1,
            PState::P2 => 2,
            PState::P3 => 3,
            PState::P4 => 4,
            PState::P5 => 5,
            PState::P6 => 6,
            PState::P7 => 7,
        },
        ChannelState::Transfer(state) => {
            let in_p4 = if permanent { 0 } else { 4 };
            in_p4 + transfer_bits(state)
        }
        ChannelState::Unknown => 0,
    }
}

/// The bits of a state of data transfer.
fn transfer_bits(state: DState) -> u32
    ensures below { result < 25 }
    ensures state { (p : ℕ) → p < 8 → state_by ((p + result) % 8) ((p + result) / 8 % 4)
        ≡ ChannelState.Transfer state }
{
    match state {
        DState::D1 => 8,
        DState::D2 => 16,
        DState::D3 => 24,
    }
}

/// The bits of a call.
fn call_bits(call: Option<Opened>) -> u32
    ensures below { result < 16 }
    ensures call { call_by result ≡ call }
{
    match call {
        Some(opened) => {
            8 + (u32::from(opened.out) << 2)
                + (u32::from(opened.fast) << 1)
                + u32::from(opened.pad_call)
        }
        None => 0,
    }
}

/// The call of the owner's number.
fn call_in(owner_bits: u32) -> Option<Opened>
    ensures { result ≡ call_in owner_bits }
{
    let bits = (owner_bits >> 6) % 16;
    if bits >> 3 != 1 {
        return None;
    }
    Some(Opened {
        out: bit(bits, 2),
        fast: bit(bits, 1),
        pad_call: bits % 2 == 1,
    })
}

/// The logarithm of a packet size.
fn logarithm(size: u16) -> u32
    requires { IsPacketSize size }
    ensures below { result < 16 }
    ensures power { 2 ^ result ≡ size }
{
    match size {
        16 => 4,
        32 => 5,
        64 => 6,
        128 => 7,
        256 => 8,
        512 => 9,
        1024 => 10,
        2048 => 11,
        _ => 12,
    }
}
