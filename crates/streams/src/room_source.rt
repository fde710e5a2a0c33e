//! Sources that read into a room of their caller.

ghost use Rattle.std.specs.Prelude.{◌≡◌, ◌+◌, ◌≤◌, ◌^◌, IfOk, OnErr, if◌then◌else◌, length, take};
ghost use Rattle.std.specs.Result.{is_err};
ghost use Rattle.line_model.specs.basics.Device.{Gives};

use line_model::device::{SliceSource, Source};

/// A source that reads where its caller keeps the bytes, so that they are not copied.
pub trait RoomSource: Source {
    /// Reads the next bytes into the front of a room of 65,536 bytes, and returns how many; 0 at the end. The bytes
    /// after them may change too. No clause says which bytes `latest` lends afterwards. Fails where the source fails.
    fn read_into(&mut self, room: &mut [u8]) -> Result<usize, ()>
        requires room { length room.old ≡ 2 ^ 16 }
        ensures few { IfOk result (λ n. n ≤ 2 ^ 16) }
        ensures given { IfOk result (λ n. Gives (Self.left self.old) (Self.left self.new) (take n room.new)) }
        ensures failed { OnErr result (Self.left self.new ≡ Self.left self.old) }
        ensures before { Self.before self.new ≡ Self.left self.old }
        ensures calls { Self.calls self.new ≡ Self.calls self.old + 1 }
        ensures failures { Self.failures self.new ≡ (if is_err result then Self.failures self.old + 1 else Self.failures self.old) }
    {
        self.read()?;
        let bytes = self.latest();
        room[..bytes.len()].copy_from_slice(bytes);
        Ok(bytes.len())
    }
}

impl RoomSource for SliceSource<'_> {}
