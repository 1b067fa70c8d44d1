ghost use Rattle.std.specs.Prelude.{◌≡◌, ◌^◌, ◌≤◌, All, None, Some, MatchOption, OnOk, IfErr};
ghost use Rattle.std.specs.Option.{option_or};
ghost use Rattle.link_model.specs.SendingFaults.{first_outside, first_sample_fault, plane_fault};
ghost use Rattle.link_model.specs.SendingPictures.{sent_parameters};
ghost use Rattle.link_sender.specs.Refusals.{SaysFault};
ghost use Rattle.vc_types.specs.Planes.{planes_in};
ghost use Rattle.vc_types.specs.SenderSettings.{Sending};
ghost use Rattle.vc_types.specs.TransformParameters.{parameters_of};

use crate::refusal::SendRefusal;
use std::thread::{Threads, join};
use vc_types::{Plan, Plane};

/// Refuses the first sample of a frame, in raw order, that has more bits than the plan's samples of
/// its plane.
pub(crate) fn check_samples(plan: &Plan, frame: &[Plane; 3]) -> Result<(), SendRefusal>
    ensures sound { OnOk result ((s : Sending) → sent_parameters s ≡ parameters_of plan.now
        → first_sample_fault s (planes_in frame.now) ≡ None) }
    ensures refused { IfErr result (λ e. (s : Sending)
        → sent_parameters s ≡ parameters_of plan.now
        → SaysFault (first_sample_fault s (planes_in frame.now)) e) }
{
    let shape = &plan.shape;
    check_planes(
        (shape.luma_depth, shape.colour_depth),
        &frame[0],
        &frame[1],
        &frame[2],
    )
}

/// The same; with two workers or more by four threads.
pub(crate) fn check_samples_joined<H: Threads + Sync>(
    rt: &H,
    workers: u32,
    plan: &Plan,
    frame: &[Plane; 3],
) -> Result<(), SendRefusal>
    ensures sound { OnOk result ((s : Sending) → sent_parameters s ≡ parameters_of plan.now
        → first_sample_fault s (planes_in frame.now) ≡ None) }
    ensures refused { IfErr result (λ e. (s : Sending)
        → sent_parameters s ≡ parameters_of plan.now
        → SaysFault (first_sample_fault s (planes_in frame.now)) e) }
{
    if workers < 2 {
        return check_samples(plan, frame);
    }
    let shape = &plan.shape;
    check_planes_joined(
        rt,
        (shape.luma_depth, shape.colour_depth),
        &frame[0],
        &frame[1],
        &frame[2],
    )
}

// The same of three planes, by the bits of luma and of colour samples.
#[tactic(auto, using(crate::proofs::SampleFaults::says_first, crate::proofs::SampleFaults::says_rest, crate::proofs::SampleFaults::none_rest))]
fn check_planes(depths: (u8, u8), y: &Plane, c1: &Plane, c2: &Plane) -> Result<(), SendRefusal>
    requires { (depths.0 ≤ 16) × (depths.1 ≤ 16) }
    ensures sound { OnOk result (option_or (plane_fault depths.0 0 y.now)
        (option_or (plane_fault depths.1 1 c1.now) (plane_fault depths.1 2 c2.now)) ≡ None) }
    ensures refused { IfErr result (λ e. SaysFault (option_or (plane_fault depths.0 0 y.now)
        (option_or (plane_fault depths.1 1 c1.now) (plane_fault depths.1 2 c2.now))) e) }
{
    check_plane(0, y, depths.0)?;
    check_colours(depths.1, c1, c2)
}

// The same; a frame is mostly sound, and that is known fastest by four threads.
fn check_planes_joined<H: Threads + Sync>(
    rt: &H,
    depths: (u8, u8),
    y: &Plane,
    c1: &Plane,
    c2: &Plane,
) -> Result<(), SendRefusal>
    requires { (depths.0 ≤ 16) × (depths.1 ≤ 16) }
    ensures sound { OnOk result (option_or (plane_fault depths.0 0 y.now)
        (option_or (plane_fault depths.1 1 c1.now) (plane_fault depths.1 2 c2.now)) ≡ None) }
    ensures refused { IfErr result (λ e. SaysFault (option_or (plane_fault depths.0 0 y.now)
        (option_or (plane_fault depths.1 1 c1.now) (plane_fault depths.1 2 c2.now))) e) }
{
    let (front, back) = y.samples().split_at(y.samples().len() / 2);
    let (luma, colour) = greatest_by_four(rt, front, back, c1.samples(), c2.samples());
    if u32::from(luma) < 1 << depths.0 && u32::from(colour) < 1 << depths.1 {
        return Ok(());
    }
    check_planes(depths, y, c1, c2)
}

// The greatest luma sample, of two parts, and the greatest colour sample. This thread starts the three
// others: one that is new may have to wait for a processor before it can start another.
fn greatest_by_four<H: Threads + Sync>(
    rt: &H,
    front: &[u16],
    back: &[u16],
    c1: &[u16],
    c2: &[u16],
) -> (u16, u16)
    ensures front { All (λ s. s ≤ result.0) front.now }
    ensures back { All (λ s. s ≤ result.0) back.now }
    ensures c1 { All (λ s. s ≤ result.1) c1.now }
    ensures c2 { All (λ s. s ≤ result.1) c2.now }
{
    let (second, (first, luma)) = join(
        rt,
        || greatest(c2),
        || greatest_beside(rt, c1, front, back),
    );
    (luma, first.max(second))
}

// The greatest of some samples, and that of two other parts, by join.
fn greatest_beside<H: Threads>(rt: &H, some: &[u16], front: &[u16], back: &[u16]) -> (u16, u16)
    ensures some { All (λ s. s ≤ result.0) some.now }
    ensures front { All (λ s. s ≤ result.1) front.now }
    ensures back { All (λ s. s ≤ result.1) back.now }
{
    join(rt, || greatest(some), || greatest_of(rt, front, back))
}

// The greatest of two parts, by join.
fn greatest_of<H: Threads>(rt: &H, front: &[u16], back: &[u16]) -> u16
    ensures front { All (λ s. s ≤ result) front.now }
    ensures back { All (λ s. s ≤ result) back.now }
{
    let (first, second) = join(rt, || greatest(front), || greatest(back));
    first.max(second)
}

// The same of the colour planes, by the bits of their samples.
#[tactic(auto, using(crate::proofs::SampleFaults::says_first, crate::proofs::SampleFaults::says_rest, crate::proofs::SampleFaults::none_rest))]
fn check_colours(depth: u8, c1: &Plane, c2: &Plane) -> Result<(), SendRefusal>
    requires { depth ≤ 16 }
    ensures sound { OnOk result
        (option_or (plane_fault depth 1 c1.now) (plane_fault depth 2 c2.now) ≡ None) }
    ensures refused { IfErr result (λ e.
        SaysFault (option_or (plane_fault depth 1 c1.now) (plane_fault depth 2 c2.now)) e) }
{
    check_plane(1, c1, depth)?;
    check_plane(2, c2, depth)
}

fn check_plane(number: u8, plane: &Plane, depth: u8) -> Result<(), SendRefusal>
    requires { depth ≤ 16 }
    ensures sound { OnOk result (plane_fault depth number plane.now ≡ None) }
    ensures refused { IfErr result (λ e. SaysFault (plane_fault depth number plane.now) e) }
{
    match first_outside(1 << depth, plane.samples()) {
        Some((place, value)) => Err(SendRefusal::SampleRange {
            plane: number,
            place,
            value,
        }),
        None => Ok(()),
    }
}

// The first sample that isn't below a limit, and its place.
fn first_outside(limit: u32, samples: &[u16]) -> Option<(u64, u16)>
    ensures { result ≡ first_outside limit 0 samples.now }
{
    // A frame is mostly sound, and that is known fastest without a place to stop at.
    if u32::from(greatest(samples)) < limit {
        return None;
    }
    for (place, sample) in samples.iter().enumerate() {
        if u32::from(*sample) >= limit {
            return Some((place as u64, *sample));
        }
    }
    None
}

// The greatest of some samples, and 0 of none.
fn greatest(samples: &[u16]) -> u16
    ensures { All (λ s. s ≤ result) samples.now }
{
    let mut greatest = 0;
    for sample in samples {
        greatest = greatest.max(*sample);
    }
    greatest
}
