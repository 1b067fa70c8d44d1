ghost use Rattle.std.specs.Prelude.{◌≡◌, ◌≤◌, ◌*◌, IfOk, IsTrue};
ghost use Rattle.cmd_gen.specs.Defaults.{shape_of_frames};
ghost use Rattle.cmd_gen.specs.Generator.{frame_samples, generated_frame, plane_behind, state_behind};
ghost use Rattle.vc_types.specs.Limits.{shape_fits};
ghost use Rattle.vc_types.specs.Planes.{planes_in};
ghost use Rattle.vc_types.specs.SenderSettings.{generating_view};

use crate::samples::gen_samples;
use crate::shape::frame_shape;
use std::alloc::Global;
use vc_types::{GenSettings, NoMemory, Plane, Shape};

/// The frame that is generated from a state, which is the seed for the first frame, and the state after it.
pub fn gen_frame(alloc: Global, s: &GenSettings, state: u64) -> Result<([Plane; 3], u64), NoMemory>
    ensures frame { IfOk result (λ made. planes_in made.0
        ≡ generated_frame (shape_of_frames (generating_view s.now).frames) state) }
    ensures state { IfOk result (λ made. made.1
        ≡ state_behind state (frame_samples (shape_of_frames (generating_view s.now).frames))) }
{
    shaped_frame(alloc, &frame_shape(s), state)
}

#[tactic(auto, using(crate::proofs::States::behind_more))]
fn shaped_frame(alloc: Global, shape: &Shape, state: u64) -> Result<([Plane; 3], u64), NoMemory>
    requires { IsTrue (shape_fits shape.now) }
    ensures frame { IfOk result (λ made. planes_in made.0 ≡ generated_frame shape.now state) }
    ensures state { IfOk result
        (λ made. made.1 ≡ state_behind state (frame_samples shape.now)) }
{
    let (width, height, depth) = (shape.colour_width, shape.colour_height, shape.colour_depth);
    let (y, state) = gen_plane(
        alloc,
        shape.luma_width,
        shape.luma_height,
        shape.luma_depth,
        state,
    )?;
    let (c1, state) = gen_plane(alloc, width, height, depth, state)?;
    let (c2, state) = gen_plane(alloc, width, height, depth, state)?;
    Ok(([y, c1, c2], state))
}

// A plane behind a state, and the state behind it.
fn gen_plane(
    alloc: Global,
    width: u32,
    height: u32,
    depth: u8,
    state: u64,
) -> Result<(Plane, u64), NoMemory>
    requires across { width ≤ 8192 }
    requires down { height ≤ 8192 }
    requires some { 1 ≤ depth }
    requires few { depth ≤ 16 }
    ensures plane { IfOk result (λ made. made.0 ≡ plane_behind state width height depth) }
    ensures state { IfOk result (λ made. made.1 ≡ state_behind state (width * height)) }
{
    let (samples, state) = gen_samples(alloc, depth, state, width as usize * height as usize)?;
    Ok((Plane::new(width, height, samples), state))
}
