ghost use Rattle.std.specs.Prelude.{◌≡◌, [], Ok, Err, IfOk, IfErr};
ghost use Rattle.vc_types.specs.Slices.{in_range};
ghost use Rattle.vc_types.specs.declared.refusal.Unsound.TheVariants.{CoefficientRange};
ghost use Rattle.vc_slice.specs.Bands.{coefficients_of_slice};
ghost use Rattle.vc_slice.specs.Coded.{coded_of};
ghost use Rattle.vc_slice.specs.declared.subband.Stopped.TheVariants as stopped;

use crate::bands::SliceBands;
use crate::coded::CodedSlice;
use crate::coeffs::SliceCoeffs;
use crate::component::read_component;
use crate::subband::Stopped;
use std::alloc::Global;
use vc_types::Component;

// The coefficients of a slice in 64 bits each.
pub(crate) fn wide_coefficients(
    alloc: Global,
    bands: &SliceBands,
    coded: &CodedSlice<'_>,
) -> Result<SliceCoeffs, Stopped>
    requires index { bands.now.index ≡ coded.now.index }
    ensures value { IfOk result (λ coeffs. Ok coeffs
        ≡ in_range (coefficients_of_slice bands.now.parts.now (coded_of coded.now))) }
    ensures large { result ≡ Err stopped.Large
        → in_range (coefficients_of_slice bands.now.parts.now (coded_of coded.now))
        ≡ Err CoefficientRange }
{
    let y = bands.parts.count(Component::Y) as usize;
    let c1 = bands.parts.count(Component::C1) as usize;
    let c2 = bands.parts.count(Component::C2) as usize;
    let mut numbers = with_room(alloc, y + c1 + c2)?;
    read_component(bands, Component::Y, coded.y, &mut numbers)?;
    read_component(bands, Component::C1, coded.c1, &mut numbers)?;
    read_component(bands, Component::C2, coded.c2, &mut numbers)?;
    Ok(SliceCoeffs::wide(numbers, y, c1, c2))
}

fn with_room(alloc: Global, len: usize) -> Result<Vec<i64>, Stopped>
    ensures value { IfOk result (λ numbers. numbers.items ≡ []) }
    ensures cause { IfErr result (λ e. e ≡ stopped.NoMemory) }
{
    match Vec::with_capacity(alloc, len) {
        Ok(numbers) => Ok(numbers),
        Err(_) => Err(Stopped::NoMemory),
    }
}
