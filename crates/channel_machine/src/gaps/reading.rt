//! What packets say on a channel adrift.

ghost use Rattle.std.specs.Prelude.{◌≡◌, ◌≤◌, IfOk};
ghost use Rattle.std.specs.Result.{result_err};
ghost use Rattle.line_model.specs.basics.Bounds.{IsSaid};
ghost use Rattle.line_model.specs.channels.Channels.{Channel};
ghost use Rattle.channel_machine.specs.Channels.{StatusRepresents};
ghost use Rattle.channel_machine.specs.Contents.{AreOf, AreUsable};
ghost use Rattle.line_model.specs.channels.GapStep.{adrift_fault};
ghost use Rattle.line_model.specs.packets.Classes.{packet_class};
ghost use Rattle.channel_machine.specs.Sizes.{largest_length};

use crate::channel::StatusChannel;
use crate::format::{Contents, between};
use crate::status::StatusStore;
use line_model::items::ItemRef;
use line_model::packet::Class;
use packet_decode::decode::header_length;
use std::alloc::Allocator;

/// The largest packet size that a call may agree to, in octets (X.25 clause 7.2.2.1).
const LARGEST_SIZE: usize = 4096;

impl<A: Allocator + Clone, S: StatusStore> StatusChannel<A, S> {
    /// Returns what a packet says on a channel adrift, or its first fault; data is only too long if no packet size
    /// allows it.
    pub(crate) fn read_adrift<'a>(&self, item: &ItemRef<'a>) -> Result<Contents<'a>, u8>
        requires said { IsSaid self.now.terms.interface item.now }
        ensures fault { (c : Channel) → StatusRepresents self.now c
            → result_err result ≡ adrift_fault self.now.terms.interface self.now.channel c item.now }
        ensures contents { IfOk result (λ r. AreOf r item.now) }
        ensures usable { IfOk result (λ r. AreUsable r self.now.terms.interface) }
        ensures short { IfOk result (λ r. packet_class item.now.packet ≡ Class.Data
            → item.now.length ≤ largest_length) }
    {
        match item.packet.class() {
            Class::Data => {
                let header = header_length(&self.status.interface());
                match between(header, header + LARGEST_SIZE, item.length) {
                    Some(code) => Err(code),
                    None => Ok(Contents::Other),
                }
            }
            _ => self.read(item),
        }
    }
}
