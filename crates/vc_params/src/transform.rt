ghost use Rattle.std.specs.Prelude.{◌≡◌, ◌≤◌, ◌+◌, ◌&&◌, nat_le, IfOk};
ghost use Rattle.vc_types.specs.Fields.{Gives, tested, behind_flag};
ghost use Rattle.vc_types.specs.TransformParameters.{number, wavelet_index, wavelet_depth};
ghost use Rattle.vc_types.specs.TransformParameters.{extended_parameters};

use crate::fields::{flag, number};
use vc_bits::BitReader;
use vc_types::ParamsRefusal;

/// The wavelet, refused with `Wavelet` where its index is above 6.
#[tactic(auto, unfolding(vc_types::specs::TransformParameters::wavelet_index))]
pub fn wavelet_index(r: &mut BitReader) -> Result<u8, ParamsRefusal>
    ensures gives { Gives (λ n. n) result r.new.left (wavelet_index r.old.left) }
    ensures known { IfOk result (λ n. n ≤ 6) }
{
    let index = number(r)?;
    if index > 6 {
        return Err(ParamsRefusal::Wavelet);
    }
    Ok(index as u8)
}

/// How many levels there are both ways, 1 to 5, refused with `Depth`.
#[tactic(auto, unfolding(vc_types::specs::TransformParameters::wavelet_depth))]
pub fn wavelet_depth(r: &mut BitReader) -> Result<u8, ParamsRefusal>
    ensures gives { Gives (λ n. n) result r.new.left (wavelet_depth r.old.left) }
    ensures some_levels { IfOk result (λ n. 1 ≤ n) }
    ensures few_levels { IfOk result (λ n. n ≤ 5) }
{
    let depth = number(r)?;
    if depth < 1 || depth > 5 {
        return Err(ParamsRefusal::Depth);
    }
    Ok(depth as u8)
}

// The wavelet across, which is the other one where it isn't coded.
fn wavelet_across(wavelet: u8, r: &mut BitReader) -> Result<u8, ParamsRefusal>
    requires { wavelet ≤ 6 }
    ensures gives { Gives (λ n. n) result r.new.left
        (behind_flag ParamsRefusal.Short wavelet wavelet_index r.old.left) }
    ensures known { IfOk result (λ n. n ≤ 6) }
{
    if flag(r)? {
        return wavelet_index(r);
    }
    Ok(wavelet)
}

// How many levels are across alone.
fn levels_across(depth: u8, r: &mut BitReader) -> Result<u8, ParamsRefusal>
    requires { depth ≤ 5 }
    ensures gives { Gives (λ n. n) result r.new.left
        (behind_flag ParamsRefusal.Short 0
        (tested (λ n. nat_le (depth + n) 5) ParamsRefusal.Depth number) r.old.left) }
    ensures few { IfOk result (λ n. depth + n ≤ 5) }
{
    if !flag(r)? {
        return Ok(0);
    }
    let levels = number(r)?;
    if depth as u64 + levels as u64 > 5 {
        return Err(ParamsRefusal::Depth);
    }
    Ok(levels as u8)
}

/// The wavelet across and how many levels are across alone, which major version 3 may code (ST 2042-1,
/// extended transform parameters); of other versions, and where they aren't coded, the wavelet itself and no
/// level. Refused with `Wavelet`, or with `Depth` where there are more than 5 levels together.
#[tactic(auto, unfolding(vc_types::specs::TransformParameters::extended_parameters))]
pub fn extended_parameters(
    major: u32,
    wavelet: u8,
    depth: u8,
    r: &mut BitReader,
) -> Result<(u8, u8), ParamsRefusal>
    requires wavelet { wavelet ≤ 6 }
    requires depth { depth ≤ 5 }
    ensures gives { Gives (λ x. (x.0, x.1)) result r.new.left
        (extended_parameters major wavelet depth r.old.left) }
    ensures known { IfOk result (λ x. x.0 ≤ 6) }
    ensures few_levels { IfOk result (λ x. depth + x.1 ≤ 5) }
{
    if major != 3 {
        return Ok((wavelet, 0));
    }
    let wavelet_across = wavelet_across(wavelet, r)?;
    let levels_across = levels_across(depth, r)?;
    Ok((wavelet_across, levels_across))
}
