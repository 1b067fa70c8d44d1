ghost use Rattle.std.specs.Prelude.{◌≡◌, Err, IfErr, IfOk};
ghost use Rattle.cmd_gen.specs.Generating.{Generates};
ghost use Rattle.cmd_gen.specs.Steps.{PutsFrame};
ghost use Rattle.cmd_gen.specs.Defaults.{shape_of_frames};
ghost use Rattle.cmd_gen.specs.Generator.{frame_samples, generated_frame, state_behind};
ghost use Rattle.vc_ports.specs.Changes.{output_of};
ghost use Rattle.vc_ports.specs.Faults.{HasCause};
ghost use Rattle.vc_types.specs.Planes.{planes_in};
ghost use Rattle.vc_types.specs.SenderSettings.{generating_view};

use crate::count::samples_of;
use crate::frame::gen_frame;
use crate::shape::frame_shape;
use frame_writer::{FrameFault, is_wide, write_frame};
use link_report::{Ending, Summary};
use std::alloc::Global;
use vc_ports::Sink;
use vc_types::{GenSettings, NoMemory, Plane};

/// Writes generated raw frames (this project's own), one after another. One frame is kept in memory, which
/// no clause says.
pub fn generate<O: Sink>(alloc: Global, g: &GenSettings, output: &mut O) -> Result<Summary, Ending>
    ensures { Generates (generating_view g.now) result
        (output_of O.held O.faults output.old output.new) }
{
    let mut state = u64::from(g.seed);
    for _frame in 0..g.frames {
        match put_frame(alloc, g, state, output) {
            Ok(behind) => state = behind,
            Err(ending) => return Err(ending),
        }
    }
    let frames = u64::from(g.frames);
    let samples = samples_of(g);
    Ok(Summary::Generated { frames, samples })
}

// Writes the frame behind a state, and answers the state behind it.
fn put_frame<O: Sink>(
    alloc: Global,
    g: &GenSettings,
    state: u64,
    output: &mut O,
) -> Result<u64, Ending>
    ensures value { PutsFrame (shape_of_frames (generating_view g.now).frames) state
        (O.held output.old) (O.held output.new) result }
    ensures cause { HasCause (O.faults output.old) (O.faults output.new)
        (result ≡ Err Ending.OutputFailed) }
{
    let (frame, behind) = next_frame(alloc, g, state)?;
    match write_frame(alloc, output, &frame, is_wide(&frame_shape(g))) {
        Ok(()) => Ok(behind),
        Err(FrameFault::WriteFault) => Err(Ending::OutputFailed),
        Err(FrameFault::NoMemory) => Err(Ending::NoMemory),
    }
}

// The frame behind a state, and the state behind it.
fn next_frame(alloc: Global, g: &GenSettings, state: u64) -> Result<([Plane; 3], u64), Ending>
    ensures frame { IfOk result (λ made. planes_in made.0
        ≡ generated_frame (shape_of_frames (generating_view g.now).frames) state) }
    ensures state { IfOk result (λ made. made.1
        ≡ state_behind state (frame_samples (shape_of_frames (generating_view g.now).frames))) }
    ensures no_memory { IfErr result (λ ending. ending ≡ Ending.NoMemory) }
{
    match gen_frame(alloc, g, state) {
        Ok(made) => Ok(made),
        Err(NoMemory) => Err(Ending::NoMemory),
    }
}
