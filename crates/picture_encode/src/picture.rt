ghost use Rattle.std.specs.Prelude.{◌≡◌, IfOk, IfErr};
ghost use Rattle.link_model.specs.SendingPictures.{sent_parameters};
ghost use Rattle.picture_encode.specs.Answering.{Answers};
ghost use Rattle.picture_encode.specs.Choosing.{AnswersAtMost127};
ghost use Rattle.picture_encode.specs.Encoded.{AreFirstSlices, IsRefusedPicture};
ghost use Rattle.picture_encode.specs.Shapes.{CanBeTransformed};
ghost use Rattle.vc_types.specs.Fields.{joined};
ghost use Rattle.vc_types.specs.Planes.{planes_in};
ghost use Rattle.vc_types.specs.SenderSettings.{sending_view};
ghost use Rattle.vc_types.specs.Subbands.{slice_count};
ghost use Rattle.vc_types.specs.TransformParameters.{parameters_of};

use crate::chooser::Chooser;
use crate::grids::PictureGrids;
use crate::parts::{encode_in_turn, encode_parts};
use crate::refusal::SliceRefusal;
use crate::run::EncodedRun;
use crate::transform::{transform_picture, transform_picture_joined};
use std::alloc::Global;
use std::mem::replace;
use std::thread::Threads;
use vc_types::{Plan, Plane, SendSettings, SliceNeed};

// Into how many parts a picture's slices are cut at most.
const MOST_PARTS: u32 = 64;

/// Encodes the slices of a picture (ST 2042-1, high-quality slices): the forward transform of its
/// planes, and each slice at the index that the chooser answers on what it is told of it, from 0 to
/// 127. The plan is the one that the settings make, and the planes have its sizes and samples of
/// its depths. The first slice that is too large, for its lengths or for a datagram, refuses the
/// picture. Of the grids only the memory is used.
pub fn encode_picture<F: Fn(&SliceNeed) -> u8>(
    alloc: Global,
    s: &SendSettings,
    plan: &Plan,
    chooser: &Chooser<F>,
    grids: &mut PictureGrids,
    planes: &[Plane; 3],
) -> Result<Vec<EncodedRun>, SliceRefusal>
    requires callable { F.IsAlwaysCallable chooser.now.choose }
    requires range { AnswersAtMost127 F.Fn chooser.now.choose }
    requires plan { parameters_of plan.now ≡ sent_parameters (sending_view s.now) }
    requires planes { CanBeTransformed (parameters_of plan.now) (planes_in planes.now) }
    ensures encoded { IfOk result (λ runs. AreFirstSlices
        (Answers F.Fn (sending_view s.now) chooser.now) chooser.now.wants_lens (sending_view s.now)
        (planes_in planes.now) (slice_count (parameters_of plan.now)) (joined runs.items)) }
    ensures refused { IfErr result (λ e. IsRefusedPicture
        (Answers F.Fn (sending_view s.now) chooser.now) chooser.now.wants_lens (sending_view s.now)
        (planes_in planes.now) e) }
{
    let used = replace(grids, PictureGrids::new(alloc));
    *grids = transform_picture(alloc, plan, planes, used)?;
    encode_in_turn(alloc, s, plan, chooser, grids)
}

/// The same by so many threads, at most 64, which each encode a part of the slices; luma is
/// transformed beside the colours. Fewer than two threads do all in turn.
pub fn encode_picture_joined<H: Threads + Copy + Send + Sync, F: Fn(&SliceNeed) -> u8 + Sync>(
    rt: H,
    workers: u32,
    alloc: Global,
    s: &SendSettings,
    plan: &Plan,
    chooser: &Chooser<F>,
    grids: &mut PictureGrids,
    planes: &[Plane; 3],
) -> Result<Vec<EncodedRun>, SliceRefusal>
    requires callable { F.IsAlwaysCallable chooser.now.choose }
    requires range { AnswersAtMost127 F.Fn chooser.now.choose }
    requires plan { parameters_of plan.now ≡ sent_parameters (sending_view s.now) }
    requires planes { CanBeTransformed (parameters_of plan.now) (planes_in planes.now) }
    ensures encoded { IfOk result (λ runs. AreFirstSlices
        (Answers F.Fn (sending_view s.now) chooser.now) chooser.now.wants_lens (sending_view s.now)
        (planes_in planes.now) (slice_count (parameters_of plan.now)) (joined runs.items)) }
    ensures refused { IfErr result (λ e. IsRefusedPicture
        (Answers F.Fn (sending_view s.now) chooser.now) chooser.now.wants_lens (sending_view s.now)
        (planes_in planes.now) e) }
{
    if workers < 2 {
        return encode_picture(alloc, s, plan, chooser, grids, planes);
    }
    let parts = workers.min(MOST_PARTS) as usize;
    let used = replace(grids, PictureGrids::new(alloc));
    *grids = transform_picture_joined(&rt, alloc, plan, planes, used)?;
    encode_parts(&rt, alloc, s, plan, chooser, grids, parts)
}
