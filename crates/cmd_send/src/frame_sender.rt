ghost use Rattle.std.specs.Prelude.{◌≡◌, ◌+◌, ◌<◌, ◌^◌, [], ◌∷◌, List, OnOk, length};
ghost use Rattle.cmd_send.specs.Steps.{IsBehindFrames, TakesFrame, Finishes, put_ending, refusal_ending};
ghost use Rattle.link_model.specs.SendingPictures.{IsFrame, wants_lengths};
ghost use Rattle.picture_encode.specs.Answering.{ChoosesAs};
ghost use Rattle.picture_encode.specs.Choosing.{AnswersAtMost127};
ghost use Rattle.vc_types.specs.Planes.{Planes, planes_in};
ghost use Rattle.vc_types.specs.SenderSettings.{sending_view};

use crate::totals::Totals;
use crate::{Encoder, FrameOptions, Host};
use link_outside::{Outlet, OutletFault};
use link_report::Ending;
use link_sender::{SendRefusal, Sender};
use std::thread::Threads;
use vc_ports::{NoPace, Pace};
use vc_types::{NoMemory, Plane, SliceNeed};

/// Sends frames to an outlet, and counts what goes out.
#[derive(Drop)]
pub(crate) struct FrameSender<'w, H, F> {
    pub(crate) host: Host<'w, H>,
    workers: u32,
    pub(crate) sender: Sender<F>,
    pub(crate) totals: Totals,
}

impl<'w, H: Threads + Copy + Send + Sync, F: Fn(&SliceNeed) -> u8 + Sync> FrameSender<'w, H, F> {
    /// One that has sent nothing. `options.workers` threads will encode each frame.
    pub(crate) fn new(encoder: Encoder<'w, H, F>, options: FrameOptions) -> FrameSender<'w, H, F>
        ensures chooser { result.sender.chooser ≡ encoder.entry.chooser }
        ensures settings { result.sender.settings ≡ options.sender }
        ensures behind { IsBehindFrames (sending_view options.sender) [] result }
    {
        let Encoder { host, chooser } = encoder;
        let sender = Sender::new(host.alloc, options.sender, chooser);
        FrameSender {
            host,
            workers: options.workers,
            sender,
            totals: Totals {
                frames: 0,
                datagrams: 0,
                bytes: 0,
            },
        }
    }

    /// Sends a frame: its datagrams go out at a pace, or none of them where it is refused.
    pub(crate) fn take<O: Outlet, P: Pace>(
        &mut self,
        frame: &[Plane; 3],
        outlet: &mut O,
        pace: &mut P,
    ) -> Result<(), Ending>
        requires callable { F.IsAlwaysCallable self.old.sender.chooser.choose }
        requires range { AnswersAtMost127 F.Fn self.old.sender.chooser.choose }
        requires chooses { ChoosesAs F.Fn self.old.sender.chooser
            (sending_view self.old.sender.settings) }
        requires wants { self.old.sender.chooser.wants_lens
            ≡ wants_lengths self.old.sender.settings.choice }
        requires sizes { IsFrame (sending_view self.old.sender.settings) (planes_in frame.now) }
        requires ready { O.is_ready outlet.old }
        requires behind { (sent : List Planes) × (length sent + 1 < 2 ^ 32)
            × IsBehindFrames (sending_view self.old.sender.settings) sent self.old }
        ensures ready { OnOk result (O.is_ready outlet.new) }
        ensures chooser { self.new.sender.chooser ≡ self.old.sender.chooser }
        ensures settings { self.new.sender.settings ≡ self.old.sender.settings }
        ensures value { (sent : List Planes) → length sent + 1 < 2 ^ 32
            → IsBehindFrames (sending_view self.old.sender.settings) sent self.old
            → TakesFrame (sending_view self.old.sender.settings) sent (planes_in frame.now) self.new
            (O.carried outlet.old outlet.new) (O.broke outlet.old outlet.new) result }
    {
        match self
            .sender
            .send_frame_joined(self.host.rt, self.workers, frame)
        {
            Ok(datagrams) => {
                let next = self.sender.next_timestamp();
                match self.totals.put_all(&datagrams, next, outlet, pace) {
                    Ok(()) => {
                        self.totals.frames += 1;
                        self.totals.tell(self.host.watch);
                        Ok(())
                    }
                    Err(fault) => Err(put_ending(fault)),
                }
            }
            Err(refusal) => Err(refusal_ending(refusal)),
        }
    }

    /// Sends the end of the sequence, at once.
    pub(crate) fn finish<O: Outlet>(&mut self, outlet: &mut O) -> Result<Totals, Ending>
        requires ready { O.is_ready outlet.old }
        requires behind { (sent : List Planes) × (length sent < 2 ^ 32)
            × IsBehindFrames (sending_view self.old.sender.settings) sent self.old }
        ensures value { (sent : List Planes)
            → IsBehindFrames (sending_view self.old.sender.settings) sent self.old
            → Finishes (sending_view self.old.sender.settings) sent
            (O.carried outlet.old outlet.new) (O.broke outlet.old outlet.new) result }
    {
        let Ok(end) = self.sender.finish() else {
            return Err(Ending::NoMemory);
        };
        match self.totals.put_all(&[end], 0, outlet, &mut NoPace) {
            Ok(()) => Ok(self.totals),
            Err(fault) => Err(put_ending(fault)),
        }
    }
}

/// How sending, or checking, ends where a frame is refused.
pub fn refusal_ending(refusal: SendRefusal) -> Ending
    ensures { result ≡ refusal_ending refusal }
{
    match refusal {
        SendRefusal::SampleRange {
            plane,
            place,
            value,
        } => Ending::SampleTooLarge {
            place,
            plane,
            value,
        },
        SendRefusal::SliceTooLarge { slice, bytes } => Ending::SliceTooLarge { slice, bytes },
        SendRefusal::NoMemory => Ending::NoMemory,
    }
}

// How sending ends where a datagram didn't go out.
fn put_ending(fault: OutletFault) -> Ending
    ensures { result ≡ put_ending fault }
{
    match fault {
        OutletFault::NoMemory => Ending::NoMemory,
        OutletFault::Output => Ending::OutputFailed,
        OutletFault::Wire => Ending::WireFailed,
    }
}
