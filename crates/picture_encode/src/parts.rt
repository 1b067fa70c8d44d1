ghost use Rattle.std.specs.Prelude.{◌≡◌, ◌+◌, ◌<◌, ◌≤◌, ◌++◌, IfOk, OnOk, vec_len};
ghost use Rattle.picture_encode.specs.Answering.{Answers};
ghost use Rattle.picture_encode.specs.Choosing.{AnswersAtMost127};
ghost use Rattle.picture_encode.specs.Encoded.{EncodesRuns, EncodesSlices};
ghost use Rattle.picture_encode.specs.Grids.{AreGrids, HaveCoefficients};
ghost use Rattle.picture_encode.specs.Parts.{EncodesPart, EncodesParts};
ghost use Rattle.link_model.specs.SendingPictures.{sent_parameters};
ghost use Rattle.vc_types.specs.Fields.{joined};
ghost use Rattle.vc_types.specs.Planes.{Planes};
ghost use Rattle.vc_types.specs.SenderSettings.{sending_view};
ghost use Rattle.vc_types.specs.Subbands.{share_start, slice_count};
ghost use Rattle.vc_types.specs.TransformParameters.{parameters_of};

use crate::ceiling::index_ceiling;
use crate::chooser::Chooser;
use crate::grids::PictureGrids;
use crate::refusal::SliceRefusal;
use crate::run::EncodedRun;
use crate::side_by_side::map_side_by_side;
use crate::slices::{SentSlice, SliceRoom, encode_slice};
use std::alloc::Global;
use std::thread::Threads;
use vc_slice::SliceParts;
use vc_types::{NoMemory, Plan, SendSettings, SliceNeed};

// Slices of a picture that are encoded one after another: from one up to another.
#[derive(Clone, Copy)]
struct Part {
    from: u32,
    to: u32,
    ghost ordered: { from ≤ to },
}

impl Part {
    // Part k of n of so many slices.
    fn new(count: u32, n: u32, k: u32) -> Part
        requires part { k < n }
        requires few_slices { count ≤ 131072 }
        requires few_parts { n ≤ 64 }
        ensures from { result.from ≡ share_start count n k }
        ensures to { result.to ≡ share_start count n (k + 1) }
        ensures within { result.to ≤ count }
    {
        Part {
            from: start(count, n, k),
            to: start(count, n, k + 1),
        }
    }
}

// Where part k of n begins.
fn start(count: u32, n: u32, k: u32) -> u32
    requires some { 0 < n }
    requires part { k ≤ n }
    requires small { (count ≤ 131072) × (n ≤ 64) }
    ensures value { result ≡ share_start count n k }
    ensures within { result ≤ count }
{
    count * k / n
}

// Encodes slices of a picture, one after another, up to the first that is refused.
fn encode_slices<F: Fn(&SliceNeed) -> u8>(
    alloc: Global,
    s: &SendSettings,
    plan: &Plan,
    chooser: &Chooser<F>,
    grids: &PictureGrids,
    part: Part,
) -> Result<EncodedRun, SliceRefusal>
    requires callable { F.IsAlwaysCallable chooser.now.choose }
    requires range { AnswersAtMost127 F.Fn chooser.now.choose }
    requires plan { parameters_of plan.now ≡ sent_parameters (sending_view s.now) }
    requires grids { AreGrids (parameters_of plan.now) grids.now }
    requires within { part.to ≤ slice_count (parameters_of plan.now) }
    ensures { (planes : Planes) → HaveCoefficients (parameters_of plan.now) planes grids.now
        → EncodesSlices (Answers F.Fn (sending_view s.now) chooser.now) chooser.now.wants_lens
        (sending_view s.now) planes part.from part.to result }
{
    let from = part.from;
    let to = part.to;
    let mut slices = EncodedRun::with_room(alloc, (to - from) as usize)?;
    let mut room = SliceRoom::new(alloc);
    let mut near = 127;
    for slice in from..to {
        if slice == from || slice % plan.slices_x == 0 {
            near = near.min(index_ceiling(plan, grids, slice));
        }
        let parts = SliceParts::new(plan, slice);
        let sent = SentSlice { s, parts };
        let encoded = encode_slice(&mut room, &sent, chooser, grids, near)?;
        near = encoded.index;
        slices.push(&encoded)?;
    }
    Ok(slices)
}

// Encodes one of so many parts of a picture's slices, by its number from 0 on.
fn encode_part<F: Fn(&SliceNeed) -> u8>(
    alloc: Global,
    s: &SendSettings,
    plan: &Plan,
    chooser: &Chooser<F>,
    grids: &PictureGrids,
    number: usize,
    parts: usize,
) -> Result<EncodedRun, SliceRefusal>
    requires callable { F.IsAlwaysCallable chooser.now.choose }
    requires range { AnswersAtMost127 F.Fn chooser.now.choose }
    requires plan { parameters_of plan.now ≡ sent_parameters (sending_view s.now) }
    requires grids { AreGrids (parameters_of plan.now) grids.now }
    requires number { number < parts }
    requires few { parts ≤ 64 }
    ensures { EncodesPart (Answers F.Fn (sending_view s.now) chooser.now) chooser.now.wants_lens
        (sending_view s.now) (parameters_of plan.now) grids.now parts number result }
{
    let count = plan.slices_x * plan.slices_y;
    let part = Part::new(count, parts as u32, number as u32);
    encode_slices(alloc, s, plan, chooser, grids, part)
}

// Encodes so many parts of a picture's slices, each in a thread of its own where one can be made.
fn encode_each<H: Threads + Sync, F: Fn(&SliceNeed) -> u8 + Sync>(
    rt: &H,
    alloc: Global,
    s: &SendSettings,
    plan: &Plan,
    chooser: &Chooser<F>,
    grids: &PictureGrids,
    parts: usize,
) -> Result<Vec<Result<EncodedRun, SliceRefusal>>, NoMemory>
    requires callable { F.IsAlwaysCallable chooser.now.choose }
    requires range { AnswersAtMost127 F.Fn chooser.now.choose }
    requires plan { parameters_of plan.now ≡ sent_parameters (sending_view s.now) }
    requires grids { AreGrids (parameters_of plan.now) grids.now }
    requires few { parts ≤ 64 }
    ensures len { IfOk result (λ answers. vec_len answers ≡ parts) }
    ensures each { IfOk result (λ answers. EncodesParts (Answers F.Fn (sending_view s.now) chooser.now)
        chooser.now.wants_lens (sending_view s.now) (parameters_of plan.now) grids.now parts
        answers.items) }
{
    let encode = |number: usize| -> Result<EncodedRun, SliceRefusal>
        requires callable { F.IsAlwaysCallable chooser.now.choose }
        requires range { AnswersAtMost127 F.Fn chooser.now.choose }
        requires plan { parameters_of plan.now ≡ sent_parameters (sending_view s.now) }
        requires grids { AreGrids (parameters_of plan.now) grids.now }
        requires number { number < parts }
        requires few { parts ≤ 64 }
        ensures { EncodesPart (Answers F.Fn (sending_view s.entry.now) chooser.entry.now)
            chooser.entry.now.wants_lens (sending_view s.entry.now)
            (parameters_of plan.entry.now) grids.entry.now parts number result }
    { encode_part(alloc, s, plan, chooser, grids, number, parts) };
    let answers = map_side_by_side(rt, alloc, parts, &encode)?;
    Ok(answers)
}

// Adds a run behind the others.
fn add(runs: &mut Vec<EncodedRun>, run: EncodedRun) -> Result<(), NoMemory>
    ensures { OnOk result (joined runs.new.items ≡ joined runs.old.items ++ run) }
{
    runs.push(run)?;
    Ok(())
}

/// Encodes the slices of a picture in turn, up to the first that is refused.
pub(crate) fn encode_in_turn<F: Fn(&SliceNeed) -> u8>(
    alloc: Global,
    s: &SendSettings,
    plan: &Plan,
    chooser: &Chooser<F>,
    grids: &PictureGrids,
) -> Result<Vec<EncodedRun>, SliceRefusal>
    requires callable { F.IsAlwaysCallable chooser.now.choose }
    requires range { AnswersAtMost127 F.Fn chooser.now.choose }
    requires plan { parameters_of plan.now ≡ sent_parameters (sending_view s.now) }
    requires grids { AreGrids (parameters_of plan.now) grids.now }
    ensures { (planes : Planes) → HaveCoefficients (parameters_of plan.now) planes grids.now
        → EncodesRuns (Answers F.Fn (sending_view s.now) chooser.now) chooser.now.wants_lens
        (sending_view s.now) planes 0 (slice_count (parameters_of plan.now)) result }
{
    let all = Part {
        from: 0,
        to: plan.slices_x * plan.slices_y,
    };
    let slices = encode_slices(alloc, s, plan, chooser, grids, all)?;
    let mut runs = Vec::with_capacity(alloc, 1)?;
    add(&mut runs, slices)?;
    Ok(runs)
}

/// Encodes the slices of a picture by so many parts, each in a thread of its own where one can be
/// made. The first slice that is refused, by its number, refuses the picture: the parts after it ran
/// for nothing.
pub(crate) fn encode_parts<H: Threads + Sync, F: Fn(&SliceNeed) -> u8 + Sync>(
    rt: &H,
    alloc: Global,
    s: &SendSettings,
    plan: &Plan,
    chooser: &Chooser<F>,
    grids: &PictureGrids,
    parts: usize,
) -> Result<Vec<EncodedRun>, SliceRefusal>
    requires callable { F.IsAlwaysCallable chooser.now.choose }
    requires range { AnswersAtMost127 F.Fn chooser.now.choose }
    requires plan { parameters_of plan.now ≡ sent_parameters (sending_view s.now) }
    requires grids { AreGrids (parameters_of plan.now) grids.now }
    requires some { 0 < parts }
    requires few { parts ≤ 64 }
    ensures { (planes : Planes) → HaveCoefficients (parameters_of plan.now) planes grids.now
        → EncodesRuns (Answers F.Fn (sending_view s.now) chooser.now) chooser.now.wants_lens
        (sending_view s.now) planes 0 (slice_count (parameters_of plan.now)) result }
{
    let answers = encode_each(rt, alloc, s, plan, chooser, grids, parts)?;
    let mut runs = Vec::with_capacity(alloc, parts)?;
    for answer in answers {
        let more = answer?;
        add(&mut runs, more)?;
    }
    Ok(runs)
}
