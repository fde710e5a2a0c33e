//! The logical channels of a trace for circuits that have others in their capture.

ghost use Rattle.std.specs.Prelude.{◌≡◌, IfOk, length};
ghost use Rattle.xot_circuits.specs.Plans.{AreApart, AreOrdered, ArePlanned, AreWithin, fits, longer, new_channels, plan_of, use_after};

use line_model::interface::Interface;
use line_model::state::Side;
use std::alloc::{AllocError, Global};
use std::marker::Model;

/// For what a circuit needs a logical channel.
#[derive(Clone, Copy)]
pub enum Purpose {
    /// A permanent circuit.
    Permanent,
    /// Calls, the first of which is of this side.
    Calls(Side),
}

/// A circuit that needs a logical channel.
#[derive(Clone, Copy)]
pub struct Wanted {
    /// For what.
    pub purpose: Purpose,
    /// The number of its first row.
    pub first: u64,
    /// The number of its last row.
    pub last: u64,
    /// Whether its channel is surely in p1 after its last row.
    pub is_clear: bool,
}

/// A logical channel of the trace.
#[derive(Clone, Copy)]
pub struct Given {
    /// Its number.
    pub channel: u16,
    /// Whether another circuit had it before.
    pub is_again: bool,
}

/// Who has a logical channel.
#[derive(Clone, Copy)]
pub enum ChannelUse {
    /// No circuit had it.
    Unused,
    /// A circuit has it, or left it in another state than p1.
    Taken,
    /// Circuits had it, and it is surely in p1 after this row.
    Free(u64),
}

/// A channel that is free, and the row after which it is.
#[derive(Clone, Copy)]
struct FreeChannel {
    channel: u16,
    since: u64,
}

/// For each purpose a channel before which none is new.
#[derive(Clone, Copy)]
struct Starts {
    permanent: u16,
    of_t: u16,
    of_n: u16,
}

/// The logical channels of a trace. Permanent circuits have 1 to PVC, and calls those after them.
#[derive(Drop)]
pub struct Channels {
    interface: Interface,
    uses: Vec<ChannelUse>,
    starts: Starts,
}

impl Model for Channels {
    ghost use Rattle.std.specs.Prelude.{◌≡◌, ◌+◌, length};
    ghost use Rattle.xot_circuits.specs.Plans.{AreStarts, ChannelsView};

    ghost Value = { ChannelsView };

    ghost view = { λ c. record { interface = c.interface; uses = c.uses.items } };

    ghost invariant = { λ c. (length c.uses.items ≡ c.interface.svc + 1)
        × AreStarts (record { interface = c.interface; uses = c.uses.items }) c.starts };
}

/// Returns whether a logical channel is for circuits of a purpose.
fn fits(interface: &Interface, purpose: Purpose, channel: u16) -> bool
    ensures { result ≡ fits interface.now purpose channel }
{
    channel <= interface.svc
        && match purpose {
            Purpose::Permanent => interface.is_permanent(channel),
            Purpose::Calls(side) => {
                interface.pvc < channel && !interface.is_against(side, channel)
            }
        }
}

/// Returns the channel that has been free longest, of the best one so far and another one, if that is free since a row.
fn longer(best: Option<FreeChannel>, channel: u16, since: Option<u64>) -> Option<FreeChannel>
    ensures { result ≡ longer best channel since }
{
    match since {
        None => best,
        Some(since) => match best {
            Some(known) if known.since <= since => best,
            _ => Some(FreeChannel { channel, since }),
        },
    }
}

impl Starts {
    ghost use Rattle.xot_circuits.specs.Plans.{start_of, with_start};

    /// Returns the one for a purpose.
    fn of(&self, purpose: Purpose) -> u16
        ensures { result ≡ start_of purpose self.now }
    {
        match purpose {
            Purpose::Permanent => self.permanent,
            Purpose::Calls(Side::T) => self.of_t,
            Purpose::Calls(Side::N) => self.of_n,
        }
    }

    /// Returns them with another one for a purpose.
    fn with(self, purpose: Purpose, channel: u16) -> Starts
        ensures { result ≡ with_start purpose channel self }
    {
        match purpose {
            Purpose::Permanent => Starts {
                permanent: channel,
                ..self
            },
            Purpose::Calls(Side::T) => Starts {
                of_t: channel,
                ..self
            },
            Purpose::Calls(Side::N) => Starts {
                of_n: channel,
                ..self
            },
        }
    }
}

impl Channels {
    ghost use Rattle.xot_circuits.specs.Plans.{IsNextNew, after_given, first_new, found, free_since, is_new, longest_free, new_channels};

    /// Returns the channels of an interface, none of which was used.
    pub fn new(alloc: Global, interface: Interface) -> Result<Channels, AllocError>
        ensures { IfOk result (λ c. c ≡ new_channels interface) }
    {
        let uses = vec![in alloc; ChannelUse::Unused; usize::from(interface.svc) + 1]?;
        let starts = Starts {
            permanent: 1,
            of_t: 1,
            of_n: 1,
        };
        Ok(Channels {
            interface,
            uses,
            starts,
        })
    }

    /// Returns whether a channel is for circuits of a purpose, and none had it.
    fn is_new(&self, purpose: Purpose, channel: u16) -> bool
        ensures { result ≡ is_new self.now purpose channel }
    {
        fits(&self.interface, purpose, channel)
            && matches!(self.uses[usize::from(channel)], ChannelUse::Unused)
    }

    /// Returns the row after which a channel for circuits of a purpose is free, if that is before another row.
    fn free_since(&self, purpose: Purpose, row: u64, channel: u16) -> Option<u64>
        ensures { result ≡ free_since self.now purpose row channel }
    {
        if !fits(&self.interface, purpose, channel) {
            return None;
        }
        match self.uses[usize::from(channel)] {
            ChannelUse::Free(since) if since < row => Some(since),
            _ => None,
        }
    }

    /// Returns the first channel for circuits of a purpose that none had, or the number after the last channel.
    fn next_new(&self, purpose: Purpose) -> u16
        ensures { IsNextNew self.now purpose result }
    {
        for channel in self.starts.of(purpose)..self.interface.svc + 1 {
            if self.is_new(purpose, channel) {
                return channel;
            }
        }
        self.interface.svc + 1
    }

    /// Returns the first channel for circuits of a purpose that none had. The next search goes on from it.
    fn first_new(&mut self, purpose: Purpose) -> Option<u16>
        ensures found { result ≡ first_new self.old purpose }
        ensures same { self.new ≡ self.old }
    {
        let channel = self.next_new(purpose);
        self.starts = self.starts.with(purpose, channel);
        if channel <= self.interface.svc {
            Some(channel)
        } else {
            None
        }
    }

    /// Returns the channel for circuits of a purpose that has been free longest before a row.
    fn longest_free(&self, purpose: Purpose, row: u64) -> Option<u16>
        ensures { result ≡ longest_free self.now purpose row }
    {
        let mut best = None;
        for channel in 1..self.interface.svc + 1 {
            best = longer(best, channel, self.free_since(purpose, row, channel));
        }
        match best {
            Some(best) => Some(best.channel),
            None => None,
        }
    }

    /// Returns the channel for a circuit: the first one that no circuit had, or where there is none the one that has been
    /// free longest.
    fn find(&mut self, wanted: &Wanted) -> Option<Given>
        ensures found { result ≡ found self.old wanted.now }
        ensures same { self.new ≡ self.old }
    {
        if let Some(channel) = self.first_new(wanted.purpose) {
            return Some(Given {
                channel,
                is_again: false,
            });
        }
        match self.longest_free(wanted.purpose, wanted.first) {
            Some(channel) => Some(Given {
                channel,
                is_again: true,
            }),
            None => None,
        }
    }

    /// Gives a channel to the next circuit, in the order of the first rows: the first one that no circuit had, or where
    /// there is none the one that has been free longest. Returns `None` where none is left.
    pub fn give(&mut self, wanted: &Wanted) -> Option<Given>
        ensures found { result ≡ found self.old wanted.now }
        ensures after { self.new ≡ after_given result wanted.now self.old }
    {
        let given = self.find(wanted);
        if let Some(given) = given {
            self.uses[usize::from(given.channel)] = use_after(wanted);
        }
        given
    }
}

/// Returns who has the channel of a circuit after its last row.
fn use_after(wanted: &Wanted) -> ChannelUse
    ensures { result ≡ use_after wanted.now }
{
    if wanted.is_clear {
        ChannelUse::Free(wanted.last)
    } else {
        ChannelUse::Taken
    }
}

/// Gives channels to circuits, in the order of their first rows. A circuit for which none is left gets `None`.
pub fn assign(
    alloc: Global,
    interface: Interface,
    circuits: &[Wanted],
) -> Result<Vec<Option<Given>>, AllocError>
    ensures each { IfOk result (λ given. length given.items ≡ length circuits.now) }
    ensures planned { IfOk result (λ given. given.items ≡ plan_of (new_channels interface) circuits.now) }
    ensures within { IfOk result (λ given. AreWithin interface given.items) }
    ensures plan { IfOk result (λ given. ArePlanned (new_channels interface) circuits.now given.items) }
    ensures apart { IfOk result (λ given. AreOrdered circuits.now → AreApart circuits.now given.items) }
{
    let mut channels = Channels::new(alloc, interface)?;
    let mut all = Vec::new(alloc);
    for circuit in circuits {
        all.push(channels.give(circuit))?;
    }
    Ok(all)
}
