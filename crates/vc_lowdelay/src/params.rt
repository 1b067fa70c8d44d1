ghost use Rattle.std.specs.Prelude.{◌≤◌, ◌/◌, IfOk};
ghost use Rattle.vc_types.specs.Fields.{IsReadAs, Gives};
ghost use Rattle.vc_types.specs.SequenceHeader.{sequence_of};
ghost use Rattle.vc_types.specs.TransformParameters.{number};
ghost use Rattle.vc_lowdelay.specs.LowDelay.{coded_low_parameters, low_bytes, low_transform_parameters};
ghost use Rattle.vc_lowdelay.specs.LowDelay.{symmetric_transform};
ghost use Rattle.vc_lowdelay.specs.OfPlan.{low_parameters_of, transform_of};

use crate::plan::LowPlan;
use vc_bits::BitReader;
use vc_golomb::{UintRefusal, read_uint};
use vc_params::{
    extended_parameters, padded_luma_fits, picture_shape, quantisation_matrix, slice_counts,
    wavelet_depth, wavelet_index,
};
use vc_types::{Header, ParamsRefusal, Plan};

/// The transform parameters at the front of the bytes (ST 2042-1, transform parameters), of a low-delay
/// picture of this header's sequence, and how many bytes they take. The fields are read in order, and the
/// first that is missing or out of range decides the refusal: `Asymmetric` comes where the parts across
/// differ from those down, once both are read, and `SliceBytes` once both numbers of the fraction are: where
/// a slice may have no byte, or the denominator is 0, or a slice has 65,536 bytes or more on an average. The
/// size of the padded luma is tested last.
pub fn read_low_params(h: &Header, bytes: &[u8]) -> Result<(LowPlan, usize), ParamsRefusal>
    ensures exact { IsReadAs (λ x. (low_parameters_of x.0, x.1)) result
        (coded_low_parameters (sequence_of h.now) bytes.now) }
{
    let mut r = BitReader::new(bytes);
    let plan = parameters(h, &mut r)?;
    let used = bytes.len().saturating_sub(r.bytes_left());
    Ok((plan, used))
}

#[tactic(auto, unfolding(crate::specs::LowDelay::low_transform_parameters, vc_types::specs::TransformParameters::with_matrix))]
fn parameters(h: &Header, r: &mut BitReader) -> Result<LowPlan, ParamsRefusal>
    ensures { Gives (λ p. low_parameters_of p) result r.new.left
        (low_transform_parameters (sequence_of h.now) r.old.left) }
{
    let (wavelet, depth) = transform(h.major, r)?;
    let (slices_x, slices_y) = slice_counts(r)?;
    let (numerator, denominator) = slice_fraction(r)?;
    let matrix = quantisation_matrix(wavelet, depth, (wavelet, 0), r)?;
    let shape = picture_shape(h);
    if !padded_luma_fits(&shape, 0, depth) {
        return Err(ParamsRefusal::TooLarge);
    }
    let plan = Plan {
        shape,
        wavelet,
        wavelet_ho: wavelet,
        depth,
        depth_ho: 0,
        slices_x,
        slices_y,
        prefix: 0,
        scaler: 1,
        matrix,
    };
    Ok(LowPlan {
        plan,
        numerator,
        denominator,
    })
}

// The wavelet and the depth of a transform that is the same across as down.
#[tactic(auto, unfolding(crate::specs::LowDelay::symmetric_transform, vc_types::specs::TransformParameters::wavelet_transform))]
fn transform(major: u32, r: &mut BitReader) -> Result<(u8, u8), ParamsRefusal>
    ensures gives { Gives (λ x. transform_of x.0 x.1) result r.new.left
        (symmetric_transform major r.old.left) }
    ensures known { IfOk result (λ x. x.0 ≤ 6) }
    ensures some_levels { IfOk result (λ x. 1 ≤ x.1) }
    ensures few_levels { IfOk result (λ x. x.1 ≤ 5) }
{
    let wavelet = wavelet_index(r)?;
    let depth = wavelet_depth(r)?;
    let (wavelet_across, levels_across) = extended_parameters(major, wavelet, depth, r)?;
    if wavelet_across != wavelet || levels_across != 0 {
        return Err(ParamsRefusal::Asymmetric);
    }
    Ok((wavelet, depth))
}

// How many bytes a slice has on an average: numerator and denominator.
#[tactic(auto, unfolding(crate::specs::LowDelay::low_bytes))]
fn slice_fraction(r: &mut BitReader) -> Result<(u32, u32), ParamsRefusal>
    ensures gives { Gives (λ x. (x.0, x.1)) result r.new.left (low_bytes r.old.left) }
    ensures some_denominator { IfOk result (λ x. 1 ≤ x.1) }
    ensures some_bytes { IfOk result (λ x. x.1 ≤ x.0) }
    ensures few_bytes { IfOk result (λ x. x.0 / x.1 ≤ 65535) }
{
    let numerator = number(r)?;
    let denominator = number(r)?;
    if denominator < 1 || numerator < denominator || numerator / denominator > 65535 {
        return Err(ParamsRefusal::SliceBytes);
    }
    Ok((numerator, denominator))
}

// The next number.
#[tactic(auto, unfolding(vc_types::specs::TransformParameters::number, vc_types::specs::Fields::number_up_to))]
fn number(r: &mut BitReader) -> Result<u32, ParamsRefusal>
    ensures { Gives (λ n. n) result r.new.left (number r.old.left) }
{
    match read_uint(r, u32::MAX) {
        Ok(number) => Ok(number),
        Err(UintRefusal::End) => Err(ParamsRefusal::Short),
        Err(UintRefusal::TooLarge) => Err(ParamsRefusal::TooLarge),
    }
}
