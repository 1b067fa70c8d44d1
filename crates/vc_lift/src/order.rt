ghost use Rattle.std.specs.Prelude.{◌≡◌, ◌≤◌, ◌<◌, length, slice_index_or};
ghost use Rattle.vc_lift.specs.CountedSteps.{opposite_counted};
ghost use Rattle.vc_lift.specs.Growth.{IsPlain};
ghost use Rattle.vc_lift.specs.Ranges.{counted_synthesis, counted_analysis};
ghost use Rattle.vc_lift.specs.StepLists.{steps_of};
ghost use Rattle.vc_lift.specs.Steps.{counted_of, counted_row};

use crate::step::Step;
use crate::steps::Steps;
use crate::table::Parity::{Even, Odd};
use crate::table::{Row, rows};

/// The steps of synthesis by a wavelet.
pub(crate) fn synthesis(wavelet: u8) -> Steps
    requires { wavelet ≤ 6 }
    ensures { steps_of result ≡ counted_synthesis wavelet }
{
    Steps {
        rows: rows(wavelet),
        undo: false,
    }
}

/// The steps of analysis by a wavelet.
pub(crate) fn analysis(wavelet: u8) -> Steps
    requires { wavelet ≤ 6 }
    ensures { steps_of result ≡ counted_analysis wavelet }
{
    Steps {
        rows: rows(wavelet),
        undo: true,
    }
}

/// How many steps there are.
pub(crate) fn step_count(steps: &Steps) -> usize
    ensures { result ≡ length (steps_of steps.now) }
{
    steps.rows.len()
}

/// The step at place i.
pub(crate) fn step_at(steps: &Steps, i: usize) -> Step<'static>
    requires { i < length (steps_of steps.now) }
    ensures { counted_of result ≡ slice_index_or (steps_of steps.now) i (counted_of result) }
{
    if steps.undo {
        opposite(step_of(steps.rows[steps.rows.len() - 1 - i]))
    } else {
        step_of(steps.rows[i])
    }
}

fn opposite(step: Step<'static>) -> Step<'static>
    ensures { counted_of result ≡ opposite_counted (counted_of step.entry) }
{
    Step {
        parity: step.parity,
        adds: !step.adds,
        taps: step.taps,
        back: step.back,
        shift: step.shift,
    }
}

fn step_of(row: Row) -> Step<'static>
    requires { IsPlain (counted_row row) }
    ensures { counted_of result ≡ counted_row row }
{
    let Row(parity, adds, taps, shift, first) = row;
    let (parity, back) = match parity {
        Even => (0, 1 - i32::from(first)),
        Odd => (1, i32::from(first)),
    };
    let back = back.unsigned_abs() as usize;
    Step {
        parity,
        adds,
        taps,
        back,
        shift,
    }
}
