ghost use Rattle.std.specs.Prelude.{◌≡◌, ◌++◌, ℕ, Bool, List, length, Ok, IfOk};
ghost use Rattle.vc_types.specs.Bits.{bits_of};
ghost use Rattle.vc_types.specs.Fields.{Gives, IsReadAs, bytes_for};
ghost use Rattle.vc_types.specs.ParameterSpelling.{ParameterSpelling, parameter_bits, spelled_parameters};
ghost use Rattle.vc_types.specs.ParameterSpelling.{AreParameters, BeginsWithParameters};
ghost use Rattle.vc_types.specs.SequenceHeader.{sequence_of};
ghost use Rattle.vc_types.specs.TransformParameters.{Parameters, parameters_of, transform_parameters};
ghost use Rattle.vc_types.specs.TransformParameters.{coded_parameters};

use crate::limits::{padded_luma_fits, picture_shape};
use crate::matrix::quantisation_matrix;
use crate::slices::{prefix_bytes, size_scaler, slice_counts};
use crate::transform::{extended_parameters, wavelet_depth, wavelet_index};
use vc_bits::BitReader;
use vc_types::{Header, ParamsRefusal, Plan};

/// The transform parameters at the front of the bytes (ST 2042-1, transform parameters), of a picture of this
/// header's sequence, and how many bytes they take. The fields are read in order, and the first that is
/// missing or out of range decides the refusal; the size of the padded luma is tested last.
pub fn read_params(h: &Header, bytes: &[u8]) -> Result<(Plan, usize), ParamsRefusal>
    // What is read is spelled so.
    ensures found { IfOk result
        (λ x. BeginsWithParameters (sequence_of h.now) bytes.now (parameters_of x.0) x.1) }
    // What is spelled so is read, whatever follows.
    ensures only { (s : ParameterSpelling) (rest : List Bool) → AreParameters (sequence_of h.now) s
        → bits_of bytes.now ≡ parameter_bits h.now.major s ++ rest
        → IsReadAs {Y = Parameters × ℕ} (λ x. (parameters_of x.0, x.1)) result
        (Ok (
          spelled_parameters (sequence_of h.now) s,
          bytes_for (length (parameter_bits h.now.major s)),
        )) }
    // Which plan it is, or which refusal.
    ensures exact { IsReadAs (λ x. (parameters_of x.0, x.1)) result
        (coded_parameters (sequence_of h.now) bytes.now) }
{
    front(h, bytes)
}

fn front(h: &Header, bytes: &[u8]) -> Result<(Plan, usize), ParamsRefusal>
    ensures { IsReadAs (λ x. (parameters_of x.0, x.1)) result
        (coded_parameters (sequence_of h.now) bytes.now) }
{
    let mut r = BitReader::new(bytes);
    let plan = parameters(h, &mut r)?;
    let used = bytes.len().saturating_sub(r.bytes_left());
    Ok((plan, used))
}

#[tactic(auto, unfolding(vc_types::specs::TransformParameters::transform_parameters, vc_types::specs::TransformParameters::wavelet_transform, vc_types::specs::TransformParameters::with_matrix))]
fn parameters(h: &Header, r: &mut BitReader) -> Result<Plan, ParamsRefusal>
    ensures { Gives (λ p. parameters_of p) result r.new.left
        (transform_parameters (sequence_of h.now) r.old.left) }
{
    let wavelet = wavelet_index(r)?;
    let depth = wavelet_depth(r)?;
    let (wavelet_ho, depth_ho) = extended_parameters(h.major, wavelet, depth, r)?;
    let (slices_x, slices_y) = slice_counts(r)?;
    let prefix = prefix_bytes(r)?;
    let scaler = size_scaler(r)?;
    let matrix = quantisation_matrix(wavelet, depth, (wavelet_ho, depth_ho), r)?;
    let shape = picture_shape(h);
    if !padded_luma_fits(&shape, depth_ho, depth) {
        return Err(ParamsRefusal::TooLarge);
    }
    Ok(Plan {
        shape,
        wavelet,
        wavelet_ho,
        depth,
        depth_ho,
        slices_x,
        slices_y,
        prefix,
        scaler,
        matrix,
    })
}
