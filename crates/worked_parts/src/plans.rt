//! Plans of pictures, as rows say them.
use crate::words::{natural, parted, two};
use std::alloc::Global;
use vc_bits::BitWriter;
use vc_golomb::write_uint;
use vc_params::read_params;
use vc_types::{Component, Header, Plan, Sampling, SignalRange, dimensions_fit};
use worked_common::Bad;

/// A plan, and one of its components.
#[derive(Clone, Copy)]
pub(crate) struct PlannedPlane {
    pub(crate) plan: Plan,
    pub(crate) component: Component,
}

pub(crate) fn sampling(word: &str) -> Result<Sampling, Bad> {
    match word {
        "444" => Ok(Sampling::S444),
        "422" => Ok(Sampling::S422),
        "420" => Ok(Sampling::S420),
        _ => Err(Bad::NoRow),
    }
}

fn component(word: &str) -> Result<Component, Bad> {
    match word {
        "y" => Ok(Component::Y),
        "c1" => Ok(Component::C1),
        "c2" => Ok(Component::C2),
        _ => Err(Bad::NoRow),
    }
}

fn header(size: (u32, u32), sampling: Sampling, bits: u32) -> Result<Header, Bad> {
    if bits < 1 || bits > 16 || !dimensions_fit(size.0, size.1, sampling, false) {
        return Err(Bad::NoRow);
    }
    let excursion = u32::from(u16::MAX >> (16 - bits));
    if excursion < 1 {
        return Err(Bad::NoRow);
    }
    Ok(Header {
        major: 3,
        minor: 0,
        level: 0,
        base: 0,
        width: size.0,
        height: size.1,
        sampling,
        interlaced: false,
        top_first: false,
        range: SignalRange {
            luma_offset: 0,
            luma_excursion: excursion,
            colour_offset: 0,
            colour_excursion: excursion,
        },
        fields: false,
    })
}

fn write_numbers(w: &mut BitWriter, numbers: &[u32]) -> Result<(), Bad> {
    for number in numbers {
        write_uint(w, u64::from(*number))?;
    }
    Ok(())
}

fn write_parameters(
    w: &mut BitWriter,
    wavelets: (u32, u32),
    levels: (u32, u32),
    slices: (u32, u32),
) -> Result<(), Bad> {
    write_numbers(w, &[wavelets.0, levels.0])?;
    for across in [wavelets.1, levels.1] {
        w.bit(true)?;
        write_uint(w, u64::from(across))?;
    }
    write_numbers(w, &[slices.0, slices.1, 0, 1])?;
    w.bit(true)?;
    w.repeat(true, 16)?;
    Ok(())
}

// Wavelets, levels and slices as transform parameters, with a matrix of zeros.
fn parameters(
    alloc: Global,
    wavelets: (u32, u32),
    levels: (u32, u32),
    slices: (u32, u32),
) -> Result<Vec<u8>, Bad> {
    let mut w = BitWriter::new(alloc);
    write_parameters(&mut w, wavelets, levels, slices)?;
    Ok(w.finish())
}

fn plan(header: &Header, bytes: &[u8]) -> Result<Plan, Bad> {
    match read_params(header, bytes) {
        Ok((plan, _)) => Ok(plan),
        Err(_) => Err(Bad::NoRow),
    }
}

/// A plan and a component of words as `13x6 444 8 2,6 2,1 3x2 y`: the luma's size, the sampling, the bits
/// of samples, the wavelets down and across, the levels both ways and across alone, and the slices across
/// and down. Its matrix is 0.
fn planned_of(alloc: Global, text: &str) -> Result<PlannedPlane, Bad> {
    let mut words = text.split_whitespace();
    let size = two(words.next().unwrap_or(""), 'x')?;
    let sampling = sampling(words.next().unwrap_or(""))?;
    let header = header(size, sampling, natural(words.next().unwrap_or(""))?)?;
    let wavelets = two(words.next().unwrap_or(""), ',')?;
    let levels = two(words.next().unwrap_or(""), ',')?;
    let slices = two(words.next().unwrap_or(""), 'x')?;
    let bytes = parameters(alloc, wavelets, levels, slices)?;
    Ok(PlannedPlane {
        plan: plan(&header, bytes.as_slice())?,
        component: component(words.next().unwrap_or(""))?,
    })
}

/// A plan and a component, and what stands behind them.
pub(crate) fn planned(alloc: Global, given: &str) -> Result<(PlannedPlane, &str), Bad> {
    let (front, rest) = parted(given);
    Ok((planned_of(alloc, front)?, rest))
}
