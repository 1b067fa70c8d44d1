ghost use Rattle.std.specs.Prelude.{◌≡◌, ◌+◌, ◌<◌, ◌≤◌, ℕ, All, IfOk, IfSome, OnOk, Ok, Some, length, map};
ghost use Rattle.vc_types.specs.declared.video.Component.{Component};
ghost use Rattle.vc_types.specs.declared.video.Component.TheVariants.{Y, C1, C2};
ghost use Rattle.vc_types.specs.Slices.{slice_length};
ghost use Rattle.vc_geometry.specs.OfPlan.{IsRun};
ghost use Rattle.vc_slice.specs.OneBlock.{three_parts};
ghost use Rattle.vc_slice.specs.OfPlan.{IsStripOf, IsWholeStrip, decodings, run_answers, strip_slices};
ghost use Rattle.vc_slice.specs.RunSlices.{strip_length};

use crate::bands::SliceParts;
use crate::coeffs::SliceCoeffs;
use crate::decoding::answer;
use crate::narrow::TooWide;
use crate::run::{RunDone, RunJob};
use crate::run_answer::RunAnswer;
use crate::run_parts::RunParts;
use crate::strip::Strip;
use crate::strip_blocks::put_slice;
use bytes::Bytes;
use std::alloc::Global;
use vc_types::{Component, NoMemory, Plan, Unsound};

/// Decodes a run, each slice as `decode` does. The memory is for the strip; other memory is taken where it is
/// too small.
pub fn decode_run(alloc: Global, job: RunJob, room: Vec<i32>) -> Result<RunDone, NoMemory>
    ensures job { IfOk result (λ done. done.job ≡ job) }
{
    let answer = run_answer(alloc, &job.plan, job.first, job.slices.as_slice(), room)?;
    Ok(RunDone { job, answer })
}

fn run_answer(
    alloc: Global,
    plan: &Plan,
    first: u32,
    slices: &[Bytes],
    room: Vec<i32>,
) -> Result<RunAnswer, NoMemory>
    requires run { IsRun plan.now first (length slices.now) }
    requires some { 0 < length slices.now }
    requires whole { All (λ bytes. slice_length plan.now.prefix plan.now.scaler bytes
        ≡ Some (length bytes)) slices.now }
    ensures value { IfOk result
        (λ answer. run_answers plan.now first (length slices.now) answer
        ≡ decodings plan.now first slices.now) }
    ensures strip { IfOk result
        (λ answer. IsWholeStrip plan.now first (length slices.now) answer) }
{
    let run = RunParts::new(plan, first, slices.len() as u32);
    match strip_of(alloc, &run, slices, room)? {
        Some(strip) => Ok(RunAnswer::Together(strip)),
        None => Ok(RunAnswer::Apart(apart(alloc, plan, first, slices)?)),
    }
}

// What each slice decodes to by itself.
fn apart(
    alloc: Global,
    plan: &Plan,
    first: u32,
    slices: &[Bytes],
) -> Result<Vec<Result<SliceCoeffs, Unsound>>, NoMemory>
    requires run { IsRun plan.now first (length slices.now) }
    requires whole { All (λ bytes. slice_length plan.now.prefix plan.now.scaler bytes
        ≡ Some (length bytes)) slices.now }
    ensures { IfOk result
        (λ answers. answers.items ≡ decodings plan.now first slices.now) }
{
    let mut answers = Vec::with_capacity(alloc, slices.len())?;
    for k in 0..slices.len() {
        let answer = answer(alloc, plan, first + k as u32, slices[k].as_slice())?;
        answers.push(answer)?;
    }
    Ok(answers)
}

// The strip of a run, unless a slice is unsound or may be wide.
fn strip_of(
    alloc: Global,
    run: &RunParts,
    slices: &[Bytes],
    room: Vec<i32>,
) -> Result<Option<Strip>, NoMemory>
    requires count { run.now.count ≡ length slices.now }
    requires whole { All (λ bytes. slice_length run.now.plan.prefix run.now.plan.scaler bytes
        ≡ Some (length bytes)) slices.now }
    ensures value { IfOk result (λ found. IfSome found
        (λ strip. map Ok (strip_slices run.now.plan run.now.first run.now.count strip)
        ≡ decodings run.now.plan run.now.first slices.now)) }
    ensures strip { IfOk result (λ found. IfSome found
        (λ strip. IsStripOf run.now.plan run.now.first run.now.count strip)) }
{
    let y = run.coefficients(Component::Y) as usize;
    let c = run.coefficients(Component::C1) as usize;
    let mut room = with_room(alloc, room, y + c + c + (y + c + 8))?;
    match strip_all(run, slices, y, c, &mut room) {
        Ok(()) => Ok(Some(Strip::new(room, y, c))),
        Err(TooWide) => Ok(None),
    }
}

fn with_room(alloc: Global, room: Vec<i32>, len: usize) -> Result<Vec<i32>, NoMemory>
    ensures { IfOk result (λ room. len ≤ length room.items) }
{
    if room.len() < len {
        Ok(vec![in alloc; 0; len]?)
    } else {
        Ok(room)
    }
}

// Decodes all slices of a run to a strip at the front of the room. Nothing is said of the room otherwise.
fn strip_all(
    run: &RunParts,
    slices: &[Bytes],
    y: usize,
    c: usize,
    room: &mut [i32],
) -> Result<(), TooWide>
    requires count { run.now.count ≡ length slices.now }
    requires whole { All (λ bytes. slice_length run.now.plan.prefix run.now.plan.scaler bytes
        ≡ Some (length bytes)) slices.now }
    requires y { y ≡ strip_length run.now Y }
    requires c { c ≡ strip_length run.now C1 }
    requires room { y + c + c + (y + c + 8) ≤ length room.old }
    ensures value { OnOk result
        (map Ok (strip_slices run.now.plan run.now.first run.now.count
        (three_parts y c c room.new))
        ≡ decodings run.now.plan run.now.first slices.now) }
{
    let (strip, numbers) = room.split_at_mut(y + c + c);
    let (for_y, colours) = strip.split_at_mut(y);
    let (for_c1, for_c2) = colours.split_at_mut(c);
    strip_each(run, slices, numbers, for_y, for_c1, for_c2)
}

fn strip_each(
    run: &RunParts,
    slices: &[Bytes],
    numbers: &mut [i32],
    y: &mut [i32],
    c1: &mut [i32],
    c2: &mut [i32],
) -> Result<(), TooWide>
    requires count { run.now.count ≡ length slices.now }
    requires whole { All (λ bytes. slice_length run.now.plan.prefix run.now.plan.scaler bytes
        ≡ Some (length bytes)) slices.now }
    requires room { (c : Component) → strip_length run.now c + 8 ≤ length numbers.old }
    requires y { length y.old ≡ strip_length run.now Y }
    requires c1 { length c1.old ≡ strip_length run.now C1 }
    requires c2 { length c2.old ≡ strip_length run.now C2 }
    ensures value { OnOk result
        (map Ok (strip_slices run.now.plan run.now.first run.now.count
        (record { y = y.new; c1 = c1.new; c2 = c2.new }))
        ≡ decodings run.now.plan run.now.first slices.now) }
{
    for k in 0..run.count {
        let parts = SliceParts::new(&run.plan, run.first + k);
        let bytes = slices[k as usize].as_slice();
        put_slice(run, &parts, bytes, numbers, y, c1, c2)?;
    }
    Ok(())
}
