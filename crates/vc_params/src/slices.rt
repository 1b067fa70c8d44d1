ghost use Rattle.std.specs.Prelude.{◌≡◌, ◌≤◌, IfOk, IsTrue};
ghost use Rattle.vc_types.specs.Fields.{Gives};
ghost use Rattle.vc_types.specs.Limits.{slices_fit};
ghost use Rattle.vc_types.specs.TransformParameters.{slice_counts, prefix_bytes, size_scaler};

use crate::fields::number;
use vc_bits::BitReader;
use vc_types::{ParamsRefusal, slices_fit};

/// How many slices there are across and down. Refused with `Slices`, once both are read.
#[tactic(auto, unfolding(vc_types::specs::TransformParameters::slice_counts))]
pub fn slice_counts(r: &mut BitReader) -> Result<(u32, u32), ParamsRefusal>
    ensures gives { Gives (λ x. (x.0, x.1)) result r.new.left (slice_counts r.old.left) }
    ensures fits { IfOk result (λ x. IsTrue (slices_fit x.0 x.1)) }
{
    let across = number(r)?;
    let down = number(r)?;
    if !slices_fit(across, down) {
        return Err(ParamsRefusal::Slices);
    }
    Ok((across, down))
}

#[tactic(auto, unfolding(vc_types::specs::TransformParameters::prefix_bytes))]
pub fn prefix_bytes(r: &mut BitReader) -> Result<u32, ParamsRefusal>
    ensures gives { Gives (λ n. n) result r.new.left (prefix_bytes r.old.left) }
    ensures small { IfOk result (λ n. n ≤ 65535) }
{
    let prefix = number(r)?;
    if prefix > 65535 {
        return Err(ParamsRefusal::SliceBytes);
    }
    Ok(prefix)
}

#[tactic(auto, unfolding(vc_types::specs::TransformParameters::size_scaler))]
pub fn size_scaler(r: &mut BitReader) -> Result<u32, ParamsRefusal>
    ensures gives { Gives (λ n. n) result r.new.left (size_scaler r.old.left) }
    ensures some { IfOk result (λ n. 1 ≤ n) }
    ensures small { IfOk result (λ n. n ≤ 65535) }
{
    let scaler = number(r)?;
    if scaler < 1 || scaler > 65535 {
        return Err(ParamsRefusal::SliceBytes);
    }
    Ok(scaler)
}
