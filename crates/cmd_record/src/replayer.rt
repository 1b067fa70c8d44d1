ghost use Rattle.std.proofs.Common.{◌∙◌};
ghost use Rattle.std.specs.Prelude.{◌≡◌, ◌<◌, ◌≤◌, ◌^◌, None, refl};
ghost use Rattle.cmd_record.specs.ReplayLaws.{breaks_then, loses_last, more_sent_again, none_sent_again};

use bytes::Bytes;
use link_hearing::{Listener, ListenerFault};
use link_outside::send;
use link_report::Summary;
use rtp_head::read_rtp;
use vc_ports::{Pace, Reached, Turn, Wire};

// A datagram that is sent has at most so many bytes.
const LONGEST: usize = 65507;

// So many datagrams can be counted.
const MOST: u64 = 1 << 32;

/// Sends the datagrams that it hears to a wire, and counts them. It keeps the wire borrowed. It breaks off
/// with `Output` where a datagram doesn't go out: the wire failed, or it is too long. It keeps the pace
/// borrowed too.
#[derive(Drop)]
pub(crate) struct Replayer<'a, N, P> {
    wire: &'a mut N,
    pace: &'a mut P,
    datagrams: u64,
    // The lengths of the datagrams, together.
    bytes: u64,
    /// Where in the capture the entry of a datagram begins that is too long to be sent.
    pub(crate) long_at: Option<u64>,
}

impl<'a, N: Wire, P: Pace> Replayer<'a, N, P> {
    ghost use Rattle.cmd_record.specs.Replayers.{counts_of, replay_state};

    pub(crate) fn new(wire: &'a mut N, pace: &'a mut P) -> Replayer<'a, N, P>
        ensures borrows { result.wire.ghost_name ≡ wire.entry.ghost_name }
        ensures wire { result.wire.now ≡ wire.old }
        ensures datagrams { result.datagrams ≡ 0 }
        ensures bytes { result.bytes ≡ 0 }
        ensures short { result.long_at ≡ None }
    {
        Replayer {
            wire,
            pace,
            datagrams: 0,
            bytes: 0,
            long_at: None,
        }
    }

    /// What was sent.
    pub(crate) fn summary(&self) -> Summary
        ensures { result ≡ counts_of (replay_state N.told N.faults self.now) }
    {
        Summary::Replayed {
            datagrams: self.datagrams,
            bytes: self.bytes,
        }
    }
}

// Waits for the moment of a datagram's timestamp, if it has one.
fn wait_for<P: Pace>(pace: &mut P, datagram: &[u8]) {
    if let Some(turn) = turn_of(datagram) {
        pace.wait(&turn);
    }
}

// The turn of a datagram that has a timestamp.
fn turn_of(datagram: &[u8]) -> Option<Turn> {
    let Ok(head) = read_rtp(datagram) else {
        return None;
    };
    Some(Turn {
        timestamp: head.timestamp,
        ticks: 0,
        before: 0,
        count: 1,
    })
}

impl<'a, N: Wire, P: Pace> Listener for Replayer<'a, N, P> {
    ghost use Rattle.cmd_record.specs.Replayers.{BreaksOff, CanSendAgain, SendsAgain, replay_state};

    ghost is_ready = { λ x. CanSendAgain (replay_state N.told N.faults x) };

    ghost wants_one = { λ x. x.datagrams < 2 ^ 32 };

    ghost has_enough = { λ x. 2 ^ 32 ≤ x.datagrams };

    ghost heard = { λ x y datagrams. (y.wire.ghost_name ≡ x.wire.ghost_name)
        × SendsAgain (replay_state N.told N.faults x) (replay_state N.told N.faults y) datagrams };

    ghost broke = { λ x y datagrams fault. (y.wire.ghost_name ≡ x.wire.ghost_name)
        × BreaksOff (replay_state N.told N.faults x) (replay_state N.told N.faults y)
        datagrams fault };

    fn wants_more(&self) -> bool {
        self.datagrams < MOST
    }

    fn hear(&mut self, datagram: Bytes) -> Result<bool, ListenerFault> {
        let bytes = datagram.as_slice();
        if bytes.len() > LONGEST {
            self.long_at = Some(self.bytes + 2 * self.datagrams);
            return Err(ListenerFault::Output);
        }
        wait_for(self.pace, bytes);
        match send(self.wire, bytes) {
            Reached::Yes => {
                self.datagrams += 1;
                self.bytes += bytes.len() as u64;
                Ok(true)
            }
            Reached::Failed => Err(ListenerFault::Output),
        }
    }

    ghost none = { λ x. (refl, none_sent_again _) };

    ghost more = { λ x y z first second a b.
        (b.0 ∙ a.0, more_sent_again _ _ _ first second a.1 b.1) };

    ghost breaks_then = { λ x y z first second fault a b.
        (b.0 ∙ a.0, breaks_then _ _ _ first second fault a.1 b.1) };

    ghost loses_last = { λ x y first lost few a. (a.0, loses_last _ _ first lost few a.1) };
}
