ghost use Rattle.std.specs.Prelude.{◌≡◌, bytes_eq};
ghost use Rattle.machine_model.specs.Feeding.{is_same_job};
ghost use Rattle.link_slices.specs.Jobs.{job_of};

use vc_slice::SliceJob;

/// Whether two jobs have the same plan, number, index and bytes.
pub fn same_job(a: &SliceJob, b: &SliceJob) -> bool
    ensures { result ≡ is_same_job (job_of a.now) (job_of b.now) }
{
    a.plan.is_same(&b.plan)
        && a.number == b.number
        && a.index == b.index
        && a.bytes.as_slice() == b.bytes.as_slice()
}
