ghost use Rattle.std.specs.Prelude.{◌≡◌, ◌+◌, ◌<◌, ◌≤◌, ◌^◌, [], ◌++◌, length, take, OnOk, OnErr, IsErr};
ghost use Rattle.link_capture.specs.Buffering.{Buffers, kept_in};
ghost use Rattle.link_capture.specs.Capture.{entry};
ghost use Rattle.vc_ports.specs.Faults.{HasCause};
ghost use Rattle.vc_ports.specs.Writing.{Grew, GrewBySome};

use crate::buffer::{EntryBuffer, ROOM};
use crate::writer::head_of;
use vc_ports::{Sink, WriteFault, write_all};

impl EntryBuffer {
    /// No entries.
    pub fn new() -> EntryBuffer
        ensures { result.len ≡ 0 }
    {
        EntryBuffer {
            bytes: [0; ROOM],
            len: 0,
        }
    }

    /// Keeps the entry of a datagram, which has at most 65,535 bytes. Where it has no room, what was kept
    /// goes out first. After a fault a prefix of that went out.
    #[tactic(auto, using(crate::proofs::Buffered::kept_behind))]
    pub fn put<O: Sink>(&mut self, sink: &mut O, datagram: &[u8]) -> Result<(), WriteFault>
        requires { length datagram.now < 2 ^ 16 }
        ensures ok { OnOk result (Buffers (O.held sink.old) (O.held sink.new) (kept_in self.old)
            (kept_in self.new) (entry datagram.now)) }
        ensures err { OnErr result
            (GrewBySome (O.held sink.old) (O.held sink.new) (kept_in self.old)) }
        ensures cause { HasCause (O.faults sink.old) (O.faults sink.new) (IsErr result) }
    {
        self.make_room(sink, datagram.len())?;
        self.add(datagram);
        Ok(())
    }

    // Makes room for the entry of a datagram of so many bytes.
    #[tactic(auto, using(crate::proofs::Buffered::still_kept, crate::proofs::Buffered::gone_out))]
    fn make_room<O: Sink>(&mut self, sink: &mut O, len: usize) -> Result<(), WriteFault>
        requires { len < 2 ^ 16 }
        ensures ok { OnOk result (Buffers (O.held sink.old) (O.held sink.new) (kept_in self.old)
            (kept_in self.new) []) }
        ensures room { OnOk result (self.new.len + 2 + len ≤ 65537) }
        ensures err { OnErr result
            (GrewBySome (O.held sink.old) (O.held sink.new) (kept_in self.old)) }
        ensures cause { HasCause (O.faults sink.old) (O.faults sink.new) (IsErr result) }
    {
        if self.len + 2 + len <= ROOM {
            return Ok(());
        }
        self.flush(sink)
    }

    // Keeps an entry that has room.
    #[tactic(auto, using(crate::proofs::Buffered::entry_added))]
    fn add(&mut self, datagram: &[u8])
        requires { self.old.len + 2 + length datagram.now ≤ 65537 }
        ensures { kept_in self.new ≡ kept_in self.old ++ entry datagram.now }
    {
        self.append(&head_of(datagram));
        self.append(datagram);
    }

    // Puts bytes that have room behind the others.
    fn append(&mut self, more: &[u8])
        requires { self.old.len + length more.now ≤ 65537 }
        ensures kept { kept_in self.new ≡ kept_in self.old ++ more.now }
        ensures len { self.new.len ≡ self.old.len + length more.now }
    {
        let end = self.len + more.len();
        copy_to(&mut self.bytes, self.len, more);
        self.len = end;
    }

    /// Writes what is kept, and keeps nothing then. After a fault a prefix of it went out.
    pub fn flush<O: Sink>(&mut self, sink: &mut O) -> Result<(), WriteFault>
        ensures ok { OnOk result (Grew (O.held sink.old) (O.held sink.new) (kept_in self.old)) }
        ensures err { OnErr result
            (GrewBySome (O.held sink.old) (O.held sink.new) (kept_in self.old)) }
        ensures empty { self.new.len ≡ 0 }
        ensures cause { HasCause (O.faults sink.old) (O.faults sink.new) (IsErr result) }
    {
        let written = write_all(sink, &self.bytes[..self.len]);
        self.len = 0;
        written
    }
}

// Copies bytes to a place, and leaves those before it.
#[tactic(auto, using(crate::proofs::Buffered::copied_behind))]
fn copy_to(bytes: &mut [u8], at: usize, more: &[u8])
    requires { at + length more.now ≤ length bytes.old }
    ensures { take (at + length more.now) bytes.new ≡ take at bytes.old ++ more.now }
{
    let (_, free) = bytes.split_at_mut(at);
    let (place, _) = free.split_at_mut(more.len());
    place.copy_from_slice(more);
}
