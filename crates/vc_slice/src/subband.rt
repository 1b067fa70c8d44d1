ghost use Rattle.std.specs.Prelude.{◌≡◌, ◌++◌, ℕ, List, replicate, true, false, Err, OnOk};
ghost use Rattle.std.specs.List.{list_any};
ghost use Rattle.vc_types.specs.Bounded.{bounded_sint};
ghost use Rattle.vc_types.specs.Quantisation.{dequantised};
ghost use Rattle.vc_types.specs.Slices.{is_large};
ghost use Rattle.vc_slice.specs.Inside.{IsNotLarge, coefficients_by};
ghost use Rattle.vc_slice.specs.declared.subband.Stopped.TheVariants.{Large};

use vc_bits::Block;
use vc_golomb::read_sint_bounded;
use vc_quant::Quantiser;

/// Why coefficients weren't read.
#[derive(Clone, Copy, PartialEq, Eq)]
pub(crate) enum Stopped {
    /// A coefficient has a magnitude of 2^60 or more.
    Large,
    NoMemory,
}

// Reads the next numbers of a block, and puts their coefficients at the end of others.
pub(crate) fn read_subband(
    block: &mut Block,
    count: u32,
    quantiser: &Quantiser,
    coeffs: &mut Vec<i64>,
) -> Result<(), Stopped>
    requires sound { list_any is_large coeffs.old.items ≡ false }
    ensures read { OnOk result ((indices : List ℕ)
        → coeffs.new.items ++ coefficients_by indices block.new
        ≡ coeffs.old.items
        ++ coefficients_by (replicate count quantiser.now.index ++ indices) block.old) }
    ensures sound { OnOk result (list_any is_large coeffs.new.items ≡ false) }
    ensures large { result ≡ Err Large → (indices : List ℕ)
        → list_any is_large (coeffs.old.items
        ++ coefficients_by (replicate count quantiser.now.index ++ indices) block.old) ≡ true }
{
    for _i in 0..count {
        let Some(coefficient) = read_coefficient(block, quantiser) else {
            return Err(Stopped::Large);
        };
        let Ok(()) = coeffs.push(coefficient) else {
            return Err(Stopped::NoMemory);
        };
    }
    Ok(())
}

// The coefficient that the next number of a block stands for, unless it is large.
fn read_coefficient(block: &mut Block, quantiser: &Quantiser) -> Option<i64>
    ensures value { IsNotLarge (dequantised (bounded_sint block.old).0 quantiser.now.index) result }
    ensures rest { block.new ≡ (bounded_sint block.old).1 }
{
    match read_sint_bounded(block, (1 << 60) - 1) {
        Ok(number) => not_large(quantiser.dequant(number)),
        Err(_) => None,
    }
}

// The coefficient, unless its magnitude is 2^60 or more.
fn not_large(coefficient: i128) -> Option<i64>
    ensures { IsNotLarge coefficient result }
{
    if coefficient.unsigned_abs() >= 1 << 60 {
        return None;
    }
    Some(coefficient as i64)
}
