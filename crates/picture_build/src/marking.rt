ghost use Rattle.std.specs.Prelude.{◌≤◌, ◌+◌, length};
ghost use Rattle.picture_build.specs.Marks.{MarksRun, MarksRuns, AreInside};

use crate::waiting::WaitingRun;

/// These slices came, one after another.
pub(crate) fn mark_run(came: &mut Vec<bool>, first: usize, count: usize)
    requires { first + count ≤ length came.old.items }
    ensures { MarksRun first count came.old.items came.new.items }
{
    for k in 0..count {
        came[first + k] = true;
    }
}

/// The slices of these runs came.
pub(crate) fn mark_runs(came: &mut Vec<bool>, runs: &[WaitingRun])
    requires { AreInside (length came.old.items) runs.now }
    ensures { MarksRuns runs.now came.old.items came.new.items }
{
    for run in runs {
        mark_run(came, run.first as usize, run.count as usize);
    }
}
