ghost use Rattle.std.specs.Prelude.{◌≡◌, ◌≤◌, ℕ, IsTrue, length};
ghost use Rattle.vc_ports.specs.Faults.{HasCause};
ghost use Rattle.vc_ports.specs.Wires.{WireTold, Reaches, Sends, Comes, listening, aiming, waiting, keeping};

/// The result of a call that returns no data.
#[derive(Clone, Copy)]
pub enum Reached {
    Yes,
    /// The call failed, and changed nothing.
    Failed,
}

/// What became of a datagram that is to be sent.
#[derive(Clone, Copy)]
pub enum Sent {
    Yes,
    /// The network refused it for now: it is lost, as any may be on its way, and the next one may go out.
    Lost,
    /// The call failed, and changed nothing.
    Failed,
}

/// What came from a wire.
#[derive(Clone, Copy, Debug, PartialEq, Eq)]
pub enum Came {
    /// A datagram of so many bytes stands at the front of the buffer.
    Datagram(usize),
    /// Nothing more will come.
    End,
    /// The call failed, and nothing came.
    Failed,
}

/// Where datagrams go, and where they come from.
pub trait Wire {
    /// What it was asked to do and what will come, each list where the wire tells it, and its counts.
    ghost told: { Self → WireTold };

    /// How often it has failed. The count never falls.
    ghost faults: { Self → ℕ };

    /// Receives at this address from now on.
    fn listen(&mut self, at: &str) -> Reached
        ensures told { Reaches (told self.old) (listening (told self.old) at.now)
            (told self.new) result }
        ensures cause { HasCause (faults self.old) (faults self.new) (result ≡ Reached.Failed) };

    /// Sends to this address from now on.
    fn aim(&mut self, to: &str) -> Reached
        ensures told { Reaches (told self.old) (aiming (told self.old) to.now)
            (told self.new) result }
        ensures cause { HasCause (faults self.old) (faults self.new) (result ≡ Reached.Failed) };

    /// Sends a datagram.
    fn send(&mut self, datagram: &[u8]) -> Sent
        requires aimed { IsTrue (told self.old).aimed }
        requires size { length datagram.now ≤ 65507 }
        ensures told { Sends (told self.old) (told self.new) datagram.now result }
        ensures cause { HasCause (faults self.old) (faults self.new) (result ≡ Sent.Failed) };

    /// A wire that tells nothing may end from now on, once no datagram has come for so many seconds that was
    /// kept. 0: it never ends.
    fn end_after(&mut self, seconds: u32)
        ensures told { told self.new ≡ waiting seconds (told self.old) }
        ensures faults { faults self.new ≡ faults self.old };

    /// The datagram that came last was kept.
    fn keep(&mut self)
        ensures told { told self.new ≡ keeping (told self.old) }
        ensures faults { faults self.new ≡ faults self.old };

    /// Receives a datagram into the front of a buffer that has room for any.
    fn recv(&mut self, buf: &mut [u8]) -> Came
        requires listens { IsTrue (told self.old).listens }
        requires room { length buf.old ≡ 65535 }
        ensures told { Comes (told self.old) (told self.new) buf.new result }
        ensures cause { HasCause (faults self.old) (faults self.new) (result ≡ Came.Failed) };
}
