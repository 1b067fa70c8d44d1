ghost use Rattle.std.specs.Prelude.{◌≡◌, None};
ghost use Rattle.link_model.specs.SendingFaults.{first_sample_fault};
ghost use Rattle.link_model.specs.SendingPictures.{IsFrame, sent_parameters};
ghost use Rattle.link_sender.specs.Sent.{EncodesFrame};
ghost use Rattle.picture_encode.specs.Answering.{Answers};
ghost use Rattle.picture_encode.specs.Choosing.{AnswersAtMost127};
ghost use Rattle.vc_types.specs.Planes.{planes_in};
ghost use Rattle.vc_types.specs.SenderSettings.{sending_view};
ghost use Rattle.vc_types.specs.TransformParameters.{parameters_of};

use field_pairs::split;
use picture_encode::{
    Chooser, EncodedRun, PictureGrids, SliceRefusal, encode_picture, encode_picture_joined,
};
use std::alloc::Global;
use std::thread::Threads;
use vc_types::{Plan, Plane, SendSettings, SliceNeed};

/// The encoded slices of a frame's pictures, in runs: of the frame itself, or of its earlier and of its
/// later field.
#[derive(Drop)]
pub(crate) struct FrameSlices {
    pub(crate) first: Vec<EncodedRun>,
    pub(crate) second: Option<Vec<EncodedRun>>,
}

/// Encodes the pictures of a frame, whose samples are in range. The plan is the one that the
/// settings make. Of the grids only the memory is used.
pub(crate) fn encode_frame<F: Fn(&SliceNeed) -> u8>(
    alloc: Global,
    s: &SendSettings,
    plan: &Plan,
    chooser: &Chooser<F>,
    grids: &mut PictureGrids,
    frame: &[Plane; 3],
) -> Result<FrameSlices, SliceRefusal>
    requires callable { F.IsAlwaysCallable chooser.now.choose }
    requires range { AnswersAtMost127 F.Fn chooser.now.choose }
    requires plan { parameters_of plan.now ≡ sent_parameters (sending_view s.now) }
    requires sizes { IsFrame (sending_view s.now) (planes_in frame.now) }
    requires samples { first_sample_fault (sending_view s.now) (planes_in frame.now) ≡ None }
    ensures { EncodesFrame (Answers F.Fn (sending_view s.now) chooser.now) chooser.now.wants_lens
        (sending_view s.now) (planes_in frame.now) result }
{
    if !s.fields {
        let first = encode_picture(alloc, s, plan, chooser, grids, frame)?;
        return Ok(FrameSlices {
            first,
            second: None,
        });
    }
    let (earlier, later) = split(alloc, frame, s.top)?;
    let first = encode_picture(alloc, s, plan, chooser, grids, &earlier)?;
    let second = encode_picture(alloc, s, plan, chooser, grids, &later)?;
    Ok(FrameSlices {
        first,
        second: Some(second),
    })
}

/// The same by so many threads.
pub(crate) fn encode_frame_joined<H: Threads + Copy + Send + Sync, F: Fn(&SliceNeed) -> u8 + Sync>(
    rt: H,
    workers: u32,
    alloc: Global,
    s: &SendSettings,
    plan: &Plan,
    chooser: &Chooser<F>,
    grids: &mut PictureGrids,
    frame: &[Plane; 3],
) -> Result<FrameSlices, SliceRefusal>
    requires callable { F.IsAlwaysCallable chooser.now.choose }
    requires range { AnswersAtMost127 F.Fn chooser.now.choose }
    requires plan { parameters_of plan.now ≡ sent_parameters (sending_view s.now) }
    requires sizes { IsFrame (sending_view s.now) (planes_in frame.now) }
    requires samples { first_sample_fault (sending_view s.now) (planes_in frame.now) ≡ None }
    ensures { EncodesFrame (Answers F.Fn (sending_view s.now) chooser.now) chooser.now.wants_lens
        (sending_view s.now) (planes_in frame.now) result }
{
    if !s.fields {
        let first = encode_picture_joined(rt, workers, alloc, s, plan, chooser, grids, frame)?;
        return Ok(FrameSlices {
            first,
            second: None,
        });
    }
    let (earlier, later) = split(alloc, frame, s.top)?;
    let first = encode_picture_joined(rt, workers, alloc, s, plan, chooser, grids, &earlier)?;
    let second = encode_picture_joined(rt, workers, alloc, s, plan, chooser, grids, &later)?;
    Ok(FrameSlices {
        first,
        second: Some(second),
    })
}
