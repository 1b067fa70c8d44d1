ghost use Rattle.cmd_send.specs.Encodes.{Encodes};
ghost use Rattle.vc_ports.specs.Changes.{input_of, output_of};
ghost use Rattle.vc_types.specs.SenderSettings.{sending_view};

use crate::{FrameOptions, Host, send_frames};
use link_outside::CaptureOutlet;
use link_report::{Ending, Summary};
use std::thread::Threads;
use vc_ports::{NoPace, Sink, Source};

/// Encodes at most `options.frames` raw frames: reads them one after another, up to one that is refused or
/// the end of the input, writes the entries of the datagrams that carry each, and at the end of the input
/// that of the end of the sequence. Raw frames and captures are this project's own. `options.workers`
/// threads, at most 64, encode each frame.
pub fn encode<H: Threads + Copy + Send + Sync, S: Source, O: Sink>(
    host: Host<H>,
    options: &FrameOptions,
    input: &mut S,
    output: &mut O,
) -> Result<Summary, Ending>
    ensures { Encodes (sending_view options.now.sender) options.now.frames result
        (input_of S.left S.faults input.old input.new)
        (output_of O.held O.faults output.old output.new) }
{
    let mut outlet = CaptureOutlet::new(output);
    match send_frames(host, options, input, &mut outlet, &mut NoPace) {
        Ok(totals) => Ok(totals.summary()),
        Err(ending) => Err(ending),
    }
}
