ghost use Rattle.std.specs.Prelude.{◌≡◌, [], Err, IsTrue, OnOk};
ghost use Rattle.cmd_send.specs.Counted.{sent_answer};
ghost use Rattle.cmd_send.specs.FramesSent.{frame_shape};
ghost use Rattle.cmd_send.specs.Sends.{SendsFrames};
ghost use Rattle.cmd_send.specs.Steps.{IsBehindFrames, ReadsFrames, unread_ending};
ghost use Rattle.link_model.specs.SendingPictures.{wants_lengths};
ghost use Rattle.picture_encode.specs.Answering.{ChoosesAs};
ghost use Rattle.picture_encode.specs.Choosing.{AnswersAtMost127};
ghost use Rattle.vc_ports.specs.Changes.{input_of};
ghost use Rattle.vc_ports.specs.Faults.{HasCause};
ghost use Rattle.vc_types.specs.Limits.{shape_fits};
ghost use Rattle.vc_types.specs.SenderSettings.{sending_view};

use crate::frame_sender::FrameSender;
use crate::options::RawFrames;
use crate::shape::frame_shape;
use crate::totals::Totals;
use crate::{Encoder, FrameOptions, Host};
use frame_writer::{FrameReadFault, FrameRoom, read_frame};
use link_outside::Outlet;
use link_report::Ending;
use link_sender::Chooser;
use std::thread::Threads;
use vc_ports::{Filled, Pace, Source, fill};
use vc_types::SliceNeed;

/// Sends at most `options.frames` raw frames: reads them one after another, up to one that is refused or the
/// end of the input, puts the datagrams that carry each into the outlet, and at the end of the input that of
/// the end of the sequence. Raw frames are this project's own. A frame's datagrams go out before the next
/// frame is read, when the pace lets them; one frame and its datagrams are kept, and `options.workers`
/// threads, at most 64, encode each frame: none of this is part of the contract. With fewer than two threads
/// everything is done in turn.
pub fn send_frames<H: Threads + Copy + Send + Sync, S: Source, O: Outlet, P: Pace>(
    host: Host<H>,
    options: &FrameOptions,
    input: &mut S,
    outlet: &mut O,
    pace: &mut P,
) -> Result<Totals, Ending>
    requires ready { O.is_ready outlet.old }
    ensures { SendsFrames (sending_view options.now.sender) options.now.frames (sent_answer result)
        (input_of S.left S.faults input.old input.new)
        (O.carried outlet.old outlet.new) (O.broke outlet.old outlet.new) }
{
    let chooser = Chooser::by(options.sender.choice, |_need: &SliceNeed| 0);
    send_by(Encoder { host, chooser }, *options, input, outlet, pace)
}

// The same by a chooser that chooses as the settings do.
fn send_by<
    H: Threads + Copy + Send + Sync,
    F: Fn(&SliceNeed) -> u8 + Sync,
    S: Source,
    O: Outlet,
    P: Pace,
>(
    encoder: Encoder<H, F>,
    options: FrameOptions,
    input: &mut S,
    outlet: &mut O,
    pace: &mut P,
) -> Result<Totals, Ending>
    requires callable { F.IsAlwaysCallable encoder.chooser.choose }
    requires range { AnswersAtMost127 F.Fn encoder.chooser.choose }
    requires chooses { ChoosesAs F.Fn encoder.chooser (sending_view options.sender) }
    requires wants { encoder.chooser.wants_lens ≡ wants_lengths options.sender.choice }
    requires ready { O.is_ready outlet.old }
    ensures { SendsFrames (sending_view options.sender) options.frames (sent_answer result)
        (input_of S.left S.faults input.old input.new)
        (O.carried outlet.old outlet.new) (O.broke outlet.old outlet.new) }
{
    let raw = RawFrames {
        most: options.frames,
        shape: frame_shape(&options.sender),
    };
    let mut sender = FrameSender::new(encoder, options);
    send_each(raw, &mut sender, input, outlet, pace)?;
    sender.finish(outlet)
}

// Sends the frames of an input, at most so many. It is well where the input ended behind them.
fn send_each<
    H: Threads + Copy + Send + Sync,
    F: Fn(&SliceNeed) -> u8 + Sync,
    S: Source,
    O: Outlet,
    P: Pace,
>(
    raw: RawFrames,
    sender: &mut FrameSender<H, F>,
    input: &mut S,
    outlet: &mut O,
    pace: &mut P,
) -> Result<(), Ending>
    requires callable { F.IsAlwaysCallable sender.old.sender.chooser.choose }
    requires range { AnswersAtMost127 F.Fn sender.old.sender.chooser.choose }
    requires chooses { ChoosesAs F.Fn sender.old.sender.chooser
        (sending_view sender.old.sender.settings) }
    requires wants { sender.old.sender.chooser.wants_lens
        ≡ wants_lengths sender.old.sender.settings.choice }
    requires behind { IsBehindFrames (sending_view sender.old.sender.settings) [] sender.old }
    requires shape { raw.shape ≡ frame_shape (sending_view sender.old.sender.settings) }
    requires fits { IsTrue (shape_fits raw.shape) }
    requires ready { O.is_ready outlet.old }
    ensures ready { OnOk result (O.is_ready outlet.new) }
    ensures settings { sender.new.sender.settings ≡ sender.old.sender.settings }
    ensures value { ReadsFrames (sending_view sender.old.sender.settings) raw.most sender.new
        (input_of S.left S.faults input.old input.new)
        (O.carried outlet.old outlet.new) (O.broke outlet.old outlet.new) result }
    ensures input_cause { HasCause (S.faults input.old) (S.faults input.new)
        (result ≡ Err Ending.InputFailed) }
{
    let alloc = sender.host.alloc;
    let mut room = FrameRoom::new(alloc);
    for frame in 0..raw.most {
        match read_frame(alloc, input, &raw.shape, &mut room) {
            Ok(Some(planes)) => match sender.take(&planes, outlet, pace) {
                Ok(()) => room.keep(planes),
                Err(ending) => return Err(ending),
            },
            Ok(None) => return Ok(()),
            Err(fault) => return Err(unread(fault, frame)),
        }
    }
    match fill(input, &mut [0; 1]) {
        Filled::Whole => Err(Ending::FrameLimit { limit: raw.most }),
        Filled::End(_) => Ok(()),
        Filled::Failed(_) => Err(Ending::InputFailed),
    }
}

// How sending ends where a frame isn't read, by its number.
fn unread(fault: FrameReadFault, frame: u32) -> Ending
    ensures { result ≡ unread_ending fault frame }
{
    match fault {
        FrameReadFault::Cut => Ending::RawCut {
            frame: u64::from(frame),
        },
        FrameReadFault::ReadFault => Ending::InputFailed,
        FrameReadFault::NoMemory => Ending::NoMemory,
    }
}
