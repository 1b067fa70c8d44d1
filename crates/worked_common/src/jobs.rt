ghost use Rattle.std.specs.Prelude.{◌≡◌, IfSome};

use bytes::Bytes;
use vc_slice::{SliceJob, cut};
use vc_types::Plan;

/// The job of a slice, if the plan has a slice of that index, and these bytes are one whole slice of it.
pub fn job_of(plan: Plan, number: u64, index: u32, bytes: Bytes) -> Option<SliceJob>
    ensures { IfSome result (λ job. (job.plan ≡ plan) × (job.index ≡ index)) }
{
    if index >= plan.slices_x * plan.slices_y {
        return None;
    }
    match cut(plan.prefix, plan.scaler, bytes.as_slice()) {
        Ok(len) if len == bytes.len() => Some(SliceJob {
            plan,
            number,
            index,
            bytes,
        }),
        _ => None,
    }
}
