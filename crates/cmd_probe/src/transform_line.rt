ghost use Rattle.std.specs.Prelude.{◌≡◌, ◌++◌, IfOk, OnOk};
ghost use Rattle.std.specs.String.{string_bytes};
ghost use Rattle.vc_types.specs.TransformParameters.{parameters_of};
ghost use Rattle.cmd_probe.specs.TransformLine.{across_words, matrix_word, slicing_words};
ghost use Rattle.cmd_probe.specs.TransformLine.{transform_line, wavelet_words};

use crate::line::Line;
use crate::matrix::has_default_matrix;
use std::alloc::Global;
use vc_types::{NoMemory, Plan};

/// The line of transform parameters.
#[tactic(auto, unfolding(crate::specs::TransformLine::transform_line))]
pub(crate) fn transform_line(alloc: Global, plan: &Plan) -> Result<Line, NoMemory>
    ensures { IfOk result (λ line. line ≡ transform_line (parameters_of plan.now)) }
{
    let mut text = String::new(alloc);
    push_wavelet(&mut text, plan)?;
    push_across(&mut text, plan)?;
    push_slicing(&mut text, plan)?;
    Ok(Line::of(text))
}

#[tactic(auto, unfolding(crate::specs::TransformLine::wavelet_words))]
fn push_wavelet(text: &mut String, plan: &Plan) -> Result<(), NoMemory>
    ensures { OnOk result
        (string_bytes text.new ≡ string_bytes text.old ++ wavelet_words (parameters_of plan.now)) }
{
    let Plan { wavelet, depth, .. } = *plan;
    write!(text, "transform wavelet {wavelet} depth {depth}")?;
    Ok(())
}

// The wavelet and the levels across alone, where the transform isn't the same across as down.
#[tactic(auto, unfolding(crate::specs::TransformLine::across_words))]
fn push_across(text: &mut String, plan: &Plan) -> Result<(), NoMemory>
    ensures { OnOk result
        (string_bytes text.new ≡ string_bytes text.old ++ across_words (parameters_of plan.now)) }
{
    let Plan {
        wavelet,
        wavelet_ho,
        depth_ho,
        ..
    } = *plan;
    if wavelet_ho != wavelet || depth_ho != 0 {
        write!(text, " across {wavelet_ho} {depth_ho}")?;
    }
    Ok(())
}

#[tactic(auto, unfolding(crate::specs::TransformLine::slicing_words))]
fn push_slicing(text: &mut String, plan: &Plan) -> Result<(), NoMemory>
    ensures { OnOk result
        (string_bytes text.new ≡ string_bytes text.old ++ slicing_words (parameters_of plan.now)) }
{
    let Plan {
        slices_x,
        slices_y,
        prefix,
        scaler,
        ..
    } = *plan;
    let matrix = matrix_word(has_default_matrix(plan));
    write!(
        text,
        " slices {slices_x}x{slices_y} prefix {prefix} scaler {scaler} matrix {matrix}\n"
    )?;
    Ok(())
}

fn matrix_word(is_default: bool) -> &'static str
    ensures { result.now ≡ matrix_word is_default }
{
    if is_default { "default" } else { "custom" }
}
