ghost use Rattle.std.specs.Prelude.{◌≡◌, ◌<◌, List, ℕ, length};
ghost use Rattle.std.specs.declared.option.Option.{Option};
ghost use Rattle.vc_ports.specs.Faults.{HasCause};
ghost use Rattle.vc_ports.specs.Writing.{Writes};

/// What a write answered.
#[derive(Clone, Copy)]
pub enum Took {
    /// So many first bytes of the piece went out: 1 to the piece's length.
    Bytes(usize),
    /// The write failed, and nothing went out.
    Failed,
}

/// A write failed.
#[derive(Clone, Copy, Debug, PartialEq, Eq)]
pub struct WriteFault;

/// Where bytes go.
pub trait Sink {
    /// The bytes that it holds, where the sink tells them.
    ghost held: { Self → Option (List ℕ) };

    /// How often it has failed. The count never falls.
    ghost faults: { Self → ℕ };

    /// Writes some first bytes of a piece that is not empty.
    fn write(&mut self, piece: &[u8]) -> Took
        requires { 0 < length piece.now }
        ensures bytes { Writes (held self.old) (held self.new) piece.now result }
        ensures cause { HasCause (faults self.old) (faults self.new) (result ≡ Took.Failed) };
}
