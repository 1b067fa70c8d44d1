ghost use Rattle.std.specs.Prelude.{◌≡◌, ◌≤◌, IsTrue, length};
ghost use Rattle.vc_ports.specs.Faults.{HasCause};
ghost use Rattle.vc_ports.specs.Wires.{Reaches, listening, sending, waiting};

use vc_ports::{Reached, Sent, Wire};

/// Has a wire listen at an address and, where it tells nothing, end once no datagram has come for so many
/// seconds that was kept. 0: it never ends.
pub fn listen<N: Wire>(wire: &mut N, at: &str, idle: u32) -> Reached
    ensures told { Reaches (N.told wire.old) (waiting idle (listening (N.told wire.old) at.now))
        (N.told wire.new) result }
    ensures cause { HasCause (N.faults wire.old) (N.faults wire.new) (result ≡ Reached.Failed) }
{
    let Reached::Yes = wire.listen(at) else {
        return Reached::Failed;
    };
    wire.end_after(idle);
    Reached::Yes
}

/// Sends a datagram. One that the network loses was sent.
pub fn send<N: Wire>(wire: &mut N, datagram: &[u8]) -> Reached
    requires aimed { IsTrue (N.told wire.old).aimed }
    requires size { length datagram.now ≤ 65507 }
    ensures told { Reaches (N.told wire.old) (sending (N.told wire.old) datagram.now) (N.told wire.new)
        result }
    ensures cause { HasCause (N.faults wire.old) (N.faults wire.new) (result ≡ Reached.Failed) }
{
    match wire.send(datagram) {
        Sent::Yes | Sent::Lost => Reached::Yes,
        Sent::Failed => Reached::Failed,
    }
}
