ghost use Rattle.std.specs.Prelude.{◌≡◌, ◌<◌, List, ℕ, length};
ghost use Rattle.std.specs.declared.option.Option.{Option};
ghost use Rattle.vc_ports.specs.Faults.{HasCause};
ghost use Rattle.vc_ports.specs.Reading.{Reads};

/// What a read answered.
#[derive(Clone, Copy)]
pub enum Got {
    /// So many bytes stand at the front of the buffer: 1 to the buffer's length.
    Bytes(usize),
    /// Nothing is left.
    End,
    /// The read failed, and nothing was read.
    Failed,
}

/// Where bytes come from.
pub trait Source {
    /// The bytes that are left, where the source tells them.
    ghost left: { Self → Option (List ℕ) };

    /// How often it has failed. The count never falls.
    ghost faults: { Self → ℕ };

    /// How often it has said that nothing is left. The count never falls.
    ghost ends: { Self → ℕ };

    /// Reads some bytes into the front of a buffer that is not empty. The rest of the buffer stays.
    fn read(&mut self, buf: &mut [u8]) -> Got
        requires { 0 < length buf.old }
        ensures bytes { Reads (left self.old) (left self.new) buf.old buf.new result }
        ensures cause { HasCause (faults self.old) (faults self.new) (result ≡ Got.Failed) }
        ensures end { HasCause (ends self.old) (ends self.new) (result ≡ Got.End) };
}
