//! A value for each logical channel of the epoch that has not ended.

ghost use Rattle.std.specs.Prelude.{◌≡◌, ◌<◌, [], MatchOption, OnOk, OnErr, length};
ghost use Rattle.std.specs.Option.{option_map};
ghost use Rattle.restart_epochs.specs.ChannelTables.{no_open_channels, value_at, IsAlike, HasListed, HasTaken, HasPut, HasPopped};

use std::alloc::{AllocError, Allocator};
use std::boxed::Box;
use std::collections::BTreeSet;
use std::marker::Model;
use std::mem;

/// A place for each channel up to the highest that was listed, most of them empty, and the channels that are listed, in
/// ascending order.
#[derive(Drop)]
pub struct ChannelTable<T, A: Allocator> {
    open_channels: Vec<Option<Box<T, A>>, A>,
    channels: BTreeSet<u16, A>,
}

impl<T, A: Allocator> Model for ChannelTable<T, A> {
    ghost use Rattle.std.specs.Prelude.{map};
    ghost use Rattle.std.specs.Option.{option_map};
    ghost use Rattle.restart_epochs.specs.ChannelTables.{ChannelTables};

    ghost Value = { ChannelTables T };

    ghost view = { λ l. record {
      open_channels = map (λ o. option_map (λ b. b.value) o) l.open_channels.items;
      channels = l.channels.keys;
    } };
}

impl<T: Drop, A: Allocator + Copy> ChannelTable<T, A> {
    /// Returns a table of no channel. Allocates nothing.
    pub fn new(alloc: A) -> Self
        ensures { result ≡ no_open_channels }
    {
        ChannelTable {
            open_channels: Vec::new(alloc),
            channels: BTreeSet::new(alloc),
        }
    }

    /// Returns how many channels are listed.
    pub fn len(&self) -> usize
        ensures { result ≡ length self.now.channels }
    {
        self.channels.len()
    }

    /// Returns the channels that are listed, in ascending order.
    pub fn channels(&self) -> &BTreeSet<u16, A>
        ensures { result.now.keys ≡ self.now.channels }
    {
        &self.channels
    }

    /// Makes a place for each channel up to this one.
    fn widen(&mut self, channel: u16) -> Result<(), AllocError>
        ensures alike { IsAlike self.old self.new }
        ensures wide { OnOk result (channel < length self.new.open_channels) }
    {
        while self.open_channels.len() <= channel as usize {
            self.open_channels.push(None)?;
        }
        Ok(())
    }

    /// Lists a channel, and makes a place for it. Fails only when memory is refused; then no value has changed, and the
    /// same channels are listed.
    pub fn list(&mut self, channel: u16) -> Result<(), AllocError>
        ensures ok { OnOk result (HasListed channel self.old self.new) }
        ensures refused { OnErr result (IsAlike self.old self.new) }
    {
        self.widen(channel)?;
        self.channels.insert(channel)?;
        Ok(())
    }

    /// Removes and returns the value of a channel, if it has one. The channel stays listed.
    #[inline(always)]
    pub fn take(&mut self, channel: u16) -> Option<Box<T, A>>
        ensures { HasTaken channel (option_map (λ b. b.value) result) self.old self.new }
    {
        if (channel as usize) < self.open_channels.len() {
            return mem::replace(&mut self.open_channels[channel as usize], None);
        }
        None
    }

    /// Puts a value into the place of a channel.
    #[inline(always)]
    pub fn put(&mut self, channel: u16, value: Box<T, A>)
        requires { channel < length self.old.open_channels }
        ensures { HasPut channel value.value self.old self.new }
    {
        self.open_channels[channel as usize] = Some(value);
    }

    /// Removes the first channel that is listed, and returns it with its value.
    pub fn pop_first(&mut self) -> Option<(u16, Option<Box<T, A>>)>
        ensures { MatchOption result ((self.old.channels ≡ []) × (self.new ≡ self.old))
            (λ first. HasPopped first.0 (option_map (λ b. b.value) first.1) self.old self.new) }
    {
        let channel = self.channels.pop_first()?;
        let value = self.take(channel);
        Some((channel, value))
    }

    /// Returns the value of a channel, if it has one.
    pub fn get(&self, channel: u16) -> Option<&T>
        ensures { option_map (λ r. r.now) result ≡ value_at self.now channel }
    {
        if (channel as usize) < self.open_channels.len() {
            if let Some(value) = &self.open_channels[channel as usize] {
                return Some(value);
            }
        }
        None
    }
}
