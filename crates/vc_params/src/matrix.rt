ghost use Rattle.std.specs.Prelude.{◌≡◌, ◌≤◌, ◌+◌, ◌*◌, IfOk, IsTrue, MatchResult, Some, None, take};
ghost use Rattle.vc_types.specs.Fields.{Gives};
ghost use Rattle.vc_types.specs.Limits.{matrix_fits};
ghost use Rattle.vc_types.specs.Quantisation.{filled_matrix, used_entries};
ghost use Rattle.vc_types.specs.TransformParameters.{matrix_value, custom_matrix, default_of};
ghost use Rattle.vc_types.specs.TransformParameters.{quantisation_matrix};

use crate::fields::{flag, number};
use vc_bits::BitReader;
use vc_quant::{NoDefault, default_matrix};
use vc_types::ParamsRefusal;

#[tactic(auto, unfolding(vc_types::specs::TransformParameters::matrix_value))]
fn matrix_value(r: &mut BitReader) -> Result<u8, ParamsRefusal>
    ensures gives { Gives (λ n. n) result r.new.left (matrix_value r.old.left) }
    ensures small { IfOk result (λ n. n ≤ 127) }
{
    let value = number(r)?;
    if value > 127 {
        return Err(ParamsRefusal::Matrix);
    }
    Ok(value as u8)
}

// So many values of a custom matrix, and 0 behind them.
fn matrix_values(count: usize, r: &mut BitReader) -> Result<[u8; 16], ParamsRefusal>
    requires { count ≤ 16 }
    ensures gives { Gives (λ m. m) result r.new.left (custom_matrix count r.old.left) }
    ensures fits { IfOk result (λ m. IsTrue (matrix_fits m)) }
    ensures ends { IfOk result (λ m. filled_matrix (take count m) ≡ m) }
{
    let mut matrix = [0; 16];
    for place in 0..count {
        matrix[place] = matrix_value(r)?;
    }
    Ok(matrix)
}

/// The quantisation matrix (ST 2042-1, quantisation matrix): the custom one, or the default one of the
/// transform, given its wavelet and its levels across. It has a value for each subband in order, and then
/// zeros. Refused with `Matrix` where a value is above 127, and with `NoDefault` where none is coded and the
/// transform has no default.
#[tactic(auto, unfolding(vc_types::specs::TransformParameters::quantisation_matrix))]
pub fn quantisation_matrix(
    wavelet: u8,
    depth: u8,
    across: (u8, u8),
    r: &mut BitReader,
) -> Result<[u8; 16], ParamsRefusal>
    requires wavelet { wavelet ≤ 6 }
    requires some_levels { 1 ≤ depth }
    requires few_levels { depth + across.1 ≤ 5 }
    ensures gives { Gives (λ m. m) result r.new.left
        (quantisation_matrix wavelet depth (across.0, across.1) r.old.left) }
    ensures fits { IfOk result (λ m. IsTrue (matrix_fits m)) }
    ensures ends { IfOk result (λ m. filled_matrix (used_entries across.1 depth m) ≡ m) }
{
    if flag(r)? {
        return matrix_values(1 + across.1 as usize + 3 * depth as usize, r);
    }
    match default_of(wavelet, depth, across) {
        Ok(matrix) => Ok(matrix),
        Err(_) => Err(ParamsRefusal::NoDefault),
    }
}

/// The default matrix of a transform that is the same across as down, if there is one.
pub fn default_of(wavelet: u8, depth: u8, across: (u8, u8)) -> Result<[u8; 16], NoDefault>
    requires wavelet { wavelet ≤ 6 }
    requires levels { (1 ≤ depth) × (depth ≤ 5) }
    ensures value { MatchResult result (λ m. default_of wavelet depth (across.0, across.1) ≡ Some m)
        (λ e. default_of wavelet depth (across.0, across.1) ≡ None) }
    ensures fits { IfOk result (λ m. IsTrue (matrix_fits m)) }
{
    if across.0 != wavelet || across.1 != 0 {
        return Err(NoDefault);
    }
    default_matrix(wavelet, depth)
}
