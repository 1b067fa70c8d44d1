ghost use Rattle.std.specs.Prelude.{◌≡◌, ◌≤◌, ◌<◌, ◌+◌, ◌^◌, ℕ, List, [], ◌∷◌, ◌++◌, length};
ghost use Rattle.std.specs.Prelude.{IsTrue, IsFalse, OnOk, OnErr, IsErr};
ghost use Rattle.link_capture.specs.Capture.{entry};
ghost use Rattle.vc_ports.specs.Faults.{HasCause};
ghost use Rattle.vc_ports.specs.Writing.{Grew, GrewBySome};
ghost use Rattle.cmd_record.specs.Recorders.{HasCounted, counts_of};
ghost use Rattle.cmd_record.specs.Watching.{Watches};

use crate::watch::SessionWatch;
use link_capture::put_entry;
use link_report::Summary;
use vc_ports::{Sink, WriteFault};

/// Writes datagrams as the entries of a capture, and counts them and the sessions that they end.
#[derive(Clone, Copy)]
pub(crate) struct Recorder {
    /// So many are to end.
    pub(crate) sessions: u32,
    pub(crate) datagrams: u64,
    pub(crate) watch: SessionWatch,
}

impl Recorder {
    /// Before any datagram.
    pub(crate) fn new(sessions: u32) -> Recorder
        ensures sessions { result.sessions ≡ sessions }
        ensures none { HasCounted result result.sessions [] }
        ensures within { result.watch.left ≤ result.sessions }
    {
        Recorder {
            sessions,
            datagrams: 0,
            watch: SessionWatch::new(sessions),
        }
    }

    /// Whether all sessions that are to end have had their end.
    pub(crate) fn has_enough(&self) -> bool
        ensures enough { IsTrue result → self.now.watch.left ≡ 0 }
        ensures more { IsFalse result → 0 < self.now.watch.left }
    {
        self.watch.left == 0
    }

    /// What was counted.
    pub(crate) fn summary(&self) -> Summary
        requires { self.now.watch.left ≤ self.now.sessions }
        ensures { result ≡ counts_of self.now }
    {
        Summary::Recorded {
            datagrams: self.datagrams,
            sessions: u64::from(self.sessions - self.watch.left),
        }
    }

    /// Writes a datagram's entry, and counts it. After a fault a prefix of the entry went out.
    pub(crate) fn take<O: Sink>(
        &mut self,
        datagram: &[u8],
        output: &mut O,
    ) -> Result<(), WriteFault>
        requires fits { length datagram.now < 2 ^ 16 }
        requires few { self.old.datagrams < 2 ^ 32 }
        requires wanted { 0 < self.old.watch.left }
        ensures sessions { self.new.sessions ≡ self.old.sessions }
        ensures datagrams { OnOk result (self.new.datagrams ≡ self.old.datagrams + 1) }
        ensures watches { OnOk result ((sessions : ℕ) (heard : List (List ℕ))
            → Watches self.old.watch sessions heard
            → Watches self.new.watch sessions (heard ++ datagram.now ∷ [])) }
        ensures stays { OnErr result (self.new ≡ self.old) }
        ensures ok { OnOk result (Grew (O.held output.old) (O.held output.new) (entry datagram.now)) }
        ensures err { OnErr result
            (GrewBySome (O.held output.old) (O.held output.new) (entry datagram.now)) }
        ensures cause { HasCause (O.faults output.old) (O.faults output.new) (IsErr result) }
    {
        match put_entry(output, datagram) {
            Ok(()) => {
                self.watch.take(datagram);
                self.datagrams += 1;
                Ok(())
            }
            Err(fault) => Err(fault),
        }
    }
}
