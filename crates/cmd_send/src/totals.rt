ghost use Rattle.std.specs.Prelude.{◌≡◌, IfErr, OnOk};
ghost use Rattle.cmd_send.specs.Counted.{HasRoomFor, totals_with};
ghost use Rattle.link_report.specs.declared.summary.Summary.{Summary};
ghost use Rattle.link_sender.specs.Packing.{bytes_of_all};

use crate::turns::Turns;
use link_outside::{Outlet, OutletFault};
use link_report::Summary;
use link_sender::Datagram;
use run_counts::{Flow, RunCounts};
use vc_ports::Pace;

/// How many frames went out, and how many datagrams, and how many bytes these have.
#[derive(Clone, Copy)]
pub struct Totals {
    pub frames: u64,
    pub datagrams: u64,
    pub bytes: u64,
}

impl Totals {
    /// What a command says of them.
    pub fn summary(&self) -> Summary
        ensures { result ≡ Summary.Sent self.now.frames self.now.datagrams self.now.bytes }
    {
        Summary::Sent {
            frames: self.frames,
            datagrams: self.datagrams,
            bytes: self.bytes,
        }
    }

    /// Tells what went out so far, where there is somebody to tell.
    pub(crate) fn tell(&self, watch: Option<&RunCounts>) {
        if let Some(watch) = watch {
            watch.tell_frames(self.frames);
            watch.tell_passed(Flow {
                datagrams: self.datagrams,
                bytes: self.bytes,
            });
        }
    }

    /// Puts a frame's datagrams, each at its turn, counts them, and lets all go out. The next frame has that
    /// timestamp.
    pub(crate) fn put_all<O: Outlet, P: Pace>(
        &mut self,
        datagrams: &[Datagram],
        next_frame: u32,
        outlet: &mut O,
        pace: &mut P,
    ) -> Result<(), OutletFault>
        requires ready { O.is_ready outlet.old }
        requires room { HasRoomFor self.old (bytes_of_all datagrams.now) }
        ensures ready { OnOk result (O.is_ready outlet.new) }
        ensures carried { OnOk result (O.carried outlet.old outlet.new
            (bytes_of_all datagrams.now)) }
        ensures broke { IfErr result (λ fault. O.broke outlet.old outlet.new
            (bytes_of_all datagrams.now) fault) }
        ensures totals { OnOk result
            (self.new ≡ totals_with self.old (bytes_of_all datagrams.now)) }
    {
        let mut turns = Turns::new(datagrams, next_frame);
        for datagram in datagrams {
            pace.wait(&turns.next());
            match outlet.put(&datagram.bytes) {
                Ok(()) => {
                    self.datagrams += 1;
                    self.bytes += datagram.bytes.len() as u64;
                }
                Err(fault) => return Err(fault),
            }
        }
        outlet.flush()
    }
}
