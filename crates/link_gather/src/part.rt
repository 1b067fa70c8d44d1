ghost use Rattle.std.specs.Prelude.{◌≡◌, ◌<◌, Some, length, []};
ghost use Rattle.vc_types.specs.OfPlan.{slice_count};
ghost use Rattle.vc_types.specs.Slices.{slice_length};

use bytes::Bytes;
use link_model::Outcome;
use std::alloc::Global;
use vc_types::Plan;

/// Slices as they were sent in one fragment (RFC 8450, 4): so many in raster order, from the one at x and y
/// on.
#[derive(Drop)]
pub struct SlicePart {
    /// Slice prefix bytes.
    pub prefix: u16,
    /// Slice size scaler.
    pub scaler: u16,
    pub count: u16,
    pub x: u16,
    pub y: u16,
    /// The slices one after another, and whatever follows them.
    pub body: Bytes,
}

/// A slice that a picture newly has: its number and its bytes, which are one whole slice, and the
/// picture's plan.
#[derive(Drop)]
pub struct NewSlice {
    pub plan: Plan,
    pub index: u32,
    pub bytes: Bytes,
    pub ghost whole: { slice_length plan.prefix plan.scaler bytes ≡ Some (length bytes) },
    pub ghost in_plan: { index < slice_count plan },
}

/// What became of a part, and the slices that its picture newly has, in raster order.
#[derive(Drop)]
pub struct Taken {
    pub outcome: Outcome,
    pub slices: Vec<NewSlice>,
}

impl Taken {
    // No slice is new.
    pub(crate) fn nothing(alloc: Global, outcome: Outcome) -> Taken
        ensures outcome { result.outcome ≡ outcome }
        ensures slices { result.slices.items ≡ [] }
    {
        Taken {
            outcome,
            slices: Vec::new(alloc),
        }
    }
}
