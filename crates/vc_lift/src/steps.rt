ghost use Rattle.std.specs.Prelude.{IsTrue, map};
ghost use Rattle.vc_lift.specs.CountedSteps.{in_order};
ghost use Rattle.vc_lift.specs.Growth.{grows_little};
ghost use Rattle.vc_lift.specs.Steps.{counted_row};

use crate::table::Row;

/// The steps of a wavelet's synthesis in turn or, to undo them, the opposite steps from the last to the
/// first.
#[derive(Clone, Copy)]
pub(crate) struct Steps {
    pub rows: &'static [Row],
    pub undo: bool,
    pub ghost little: { IsTrue (grows_little 16 (in_order undo (map counted_row rows.now))) },
}
