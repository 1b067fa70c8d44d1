ghost use Rattle.std.specs.Prelude.{◌≡◌, ◌<◌, IfOk, Some, length};
ghost use Rattle.vc_types.specs.Slices.{slice_length};
ghost use Rattle.vc_types.specs.OfPlan.{slice_count};

use bytes::Bytes;
use vc_types::{NoMemory, Plan};

/// A slice that is to be decoded: the plan and the number of its picture, its own number there, and its
/// bytes, prefix bytes included. The bytes are one whole slice, and the plan has a slice of that number.
#[derive(Drop)]
pub struct SliceJob {
    pub plan: Plan,
    pub number: u64,
    pub index: u32,
    pub bytes: Bytes,
    pub ghost whole: { slice_length plan.prefix plan.scaler bytes ≡ Some (length bytes) },
    pub ghost in_plan: { index < slice_count plan },
}

impl SliceJob {
    /// The same job. The bytes are shared.
    pub fn copy(&self) -> Result<SliceJob, NoMemory>
        ensures value { IfOk result (λ copy. copy ≡ self.now) }
    {
        let Ok(bytes) = self.bytes.clone() else {
            return Err(NoMemory);
        };
        Ok(SliceJob {
            plan: self.plan,
            number: self.number,
            index: self.index,
            bytes,
        })
    }
}
