ghost use Rattle.std.specs.Prelude.{◌≡◌, ◌+◌, ◌*◌, ◌≤◌, ◌<◌, ◌^◌, ◌++◌, ◌∷◌, [], true, false, ℕ, List};
ghost use Rattle.std.specs.Prelude.{length, take, IfOk, OnOk, Ok};
ghost use Rattle.vc_types.specs.Bits.{bits_of};
ghost use Rattle.vc_types.specs.Codes.{uint_bits};
ghost use Rattle.vc_types.specs.Fields.{joined, pair_bits, filled_up, flagged_bits};
ghost use Rattle.vc_types.specs.ParameterSpelling.{parameter_bits, extension_bits, numbers_bits};
ghost use Rattle.vc_types.specs.ParameterSpelling.{encoder_parameters, coded_unless, default_for, is_default};
ghost use Rattle.vc_types.specs.SequenceHeader.{Sequence, picture_shape};
ghost use Rattle.vc_types.specs.TransformParameters.{parameters_of, is_symmetric, coded_parameters};

use crate::matrix::default_of;
use std::alloc::Global;
use vc_bits::BitWriter;
use vc_golomb::write_uint;
use vc_types::{NoMemory, Plan};

/// The bytes of a plan's transform parameters (ST 2042-1, transform parameters), for a sequence header of a
/// major version, which is 3 for a transform that isn't the same across as down. The parts across are coded
/// where they differ, and the matrix where it isn't the default one.
pub fn write_params(alloc: Global, major: u32, plan: &Plan) -> Result<Vec<u8>, NoMemory>
    requires version { is_symmetric (parameters_of plan.now) ≡ false → major ≡ 3 }
    ensures value { IfOk result
        (λ v. bits_of v.items
        ≡ filled_up (parameter_bits major (encoder_parameters (parameters_of plan.now)))) }
    // They are read again as the same plan, for a picture of that shape, whatever follows.
    ensures read_again { IfOk result (λ v. (sequence : Sequence) (behind : List ℕ)
        → sequence.major ≡ major → picture_shape sequence ≡ plan.now.shape
        → coded_parameters sequence (v.items ++ behind)
        ≡ Ok (parameters_of plan.now, length v.items)) }
{
    spell(alloc, major, plan)
}

fn spell(alloc: Global, major: u32, plan: &Plan) -> Result<Vec<u8>, NoMemory>
    ensures { IfOk result
        (λ v. bits_of v.items
        ≡ filled_up (parameter_bits major (encoder_parameters (parameters_of plan.now)))) }
{
    let mut w = BitWriter::new(alloc);
    write_uint(&mut w, plan.wavelet as u64)?;
    write_uint(&mut w, plan.depth as u64)?;
    write_extension(&mut w, major, plan)?;
    write_slices(&mut w, plan)?;
    write_matrix(&mut w, plan)?;
    Ok(w.finish())
}

// The parts across, which major version 3 has.
fn write_extension(w: &mut BitWriter, major: u32, plan: &Plan) -> Result<(), NoMemory>
    ensures { OnOk result (w.new ≡ w.old ++ extension_bits major
        (coded_unless plan.now.wavelet_ho plan.now.wavelet, coded_unless plan.now.depth_ho 0)) }
{
    if major == 3 {
        write_unless(w, plan.wavelet_ho, plan.wavelet)?;
        write_unless(w, plan.depth_ho, 0)?;
    }
    Ok(())
}

// A number behind its flag, which is 0 where it is the one that stands in its place.
fn write_unless(w: &mut BitWriter, number: u8, default: u8) -> Result<(), NoMemory>
    ensures { OnOk result (w.new ≡ w.old ++ flagged_bits uint_bits (coded_unless number default)) }
{
    if number == default {
        return w.bit(false);
    }
    w.bit(true)?;
    write_uint(w, number as u64)
}

fn write_slices(w: &mut BitWriter, plan: &Plan) -> Result<(), NoMemory>
    ensures { OnOk result (w.new ≡ w.old ++ joined
        (pair_bits (plan.now.slices_x, plan.now.slices_y)
        ∷ uint_bits plan.now.prefix ∷ uint_bits plan.now.scaler ∷ [])) }
{
    write_uint(w, plan.slices_x as u64)?;
    write_uint(w, plan.slices_y as u64)?;
    write_uint(w, plan.prefix as u64)?;
    write_uint(w, plan.scaler as u64)
}

// The matrix behind its flag, which is 0 where it is the default one.
fn write_matrix(w: &mut BitWriter, plan: &Plan) -> Result<(), NoMemory>
    ensures { OnOk result (w.new ≡ w.old
        ++ flagged_bits numbers_bits (encoder_parameters (parameters_of plan.now)).matrix) }
{
    if has_default_matrix(plan) {
        return w.bit(false);
    }
    w.bit(true)?;
    let (values, _) = plan
        .matrix
        .split_at(1 + plan.depth_ho as usize + 3 * plan.depth as usize);
    write_values(w, values)
}

fn has_default_matrix(plan: &Plan) -> bool
    ensures { result ≡ is_default (default_for (parameters_of plan.now)) plan.now.matrix }
{
    match default_of(plan.wavelet, plan.depth, (plan.wavelet_ho, plan.depth_ho)) {
        Ok(default) => default == plan.matrix,
        Err(_) => false,
    }
}

fn write_values(w: &mut BitWriter, values: &[u8]) -> Result<(), NoMemory>
    ensures { OnOk result (w.new ≡ w.old ++ numbers_bits values.now) }
{
    for value in values {
        write_uint(w, *value as u64)?;
    }
    Ok(())
}
