ghost use Rattle.std.specs.Prelude.{◌≡◌, ◌+◌, ◌*◌, ◌^◌, ◌<◌, ◌≤◌, length, map, false, IfOk, IfErr, OnOk};
ghost use Rattle.std.specs.List.{range_with_len};
ghost use Rattle.vc_types.specs.declared.video.Component.TheVariants.{Y, C1, C2};
ghost use Rattle.vc_types.specs.Bits.{bits_of};
ghost use Rattle.vc_types.specs.Encoding.{block_units};
ghost use Rattle.vc_slice.specs.Bands.{AreCoefficients, codes_at};
ghost use Rattle.vc_slice.specs.OfPlan.{IsRefusal};
ghost use Rattle.vc_types.specs.OfPlan.{AreSliceCoefficients, encoded_length};
ghost use Rattle.vc_types.specs.OfPlan.{encoded_slice, is_too_long, slice_count};

use crate::bands::{SliceBands, SliceParts};
use crate::blocks::{are_too_long, joined};
use crate::coeffs::SliceCoeffs;
use crate::counting::block_len;
use crate::encode_room::EncodeRoom;
use crate::falls::all_lens;
use std::alloc::Global;
use vc_types::{Component, NoMemory, Plan};

/// Why a slice isn't encoded.
#[derive(Clone, Copy, Debug, PartialEq, Eq)]
pub enum EncodeRefusal {
    /// A block is longer than 255 times the slice size scaler. The whole slice would have this many bytes.
    TooLong { bytes: u64 },
    NoMemory,
}

/// How many bytes a slice has, prefix bytes included, that is encoded at the quantisation index `q` from 0
/// to 127 (this project's own encoder): also where a block is longer than 255 times the slice size scaler.
pub fn encoded_len(plan: &Plan, index: u32, coeffs: &SliceCoeffs, q: u8) -> u64
    requires slice { index < slice_count plan.now }
    requires coefficients { AreSliceCoefficients plan.now index coeffs.now }
    requires index { q ≤ 127 }
    ensures { result ≡ encoded_length plan.now index q coeffs.now }
{
    len_of_parts(&SliceParts::new(plan, index), coeffs, q)
}

/// The same of a slice whose parts are known.
pub fn len_of_parts(parts: &SliceParts, coeffs: &SliceCoeffs, q: u8) -> u64
    requires coefficients { AreCoefficients parts.now coeffs.now }
    requires index { q ≤ 127 }
    ensures { result ≡ encoded_length parts.now.plan parts.now.slice q coeffs.now }
{
    slice_len(&parts.plan, block_lens(parts, coeffs, q))
}

/// How many bytes a slice has, prefix bytes included, at each of the quantisation indices from 0 to 127:
/// the same as `encoded_len` says of each, found at once.
pub fn encoded_lens(
    alloc: Global,
    plan: &Plan,
    index: u32,
    coeffs: &SliceCoeffs,
) -> Result<Vec<u64>, NoMemory>
    requires slice { index < slice_count plan.now }
    requires coefficients { AreSliceCoefficients plan.now index coeffs.now }
    ensures { IfOk result (λ lens. lens.items
        ≡ map (λ q. encoded_length plan.now index q coeffs.now)
        (range_with_len 0 128)) }
{
    lens_of(alloc, &SliceParts::new(plan, index), coeffs)
}

fn lens_of(alloc: Global, parts: &SliceParts, coeffs: &SliceCoeffs) -> Result<Vec<u64>, NoMemory>
    requires { AreCoefficients parts.now coeffs.now }
    ensures { IfOk result (λ lens. lens.items
        ≡ map (λ q. encoded_length parts.now.plan parts.now.slice q coeffs.now)
        (range_with_len 0 128)) }
{
    let y = all_lens(parts, Component::Y, coeffs);
    let c1 = all_lens(parts, Component::C1, coeffs);
    let c2 = all_lens(parts, Component::C2, coeffs);
    let mut lens = Vec::with_capacity(alloc, 128)?;
    for q in 0..128usize {
        let of_blocks = BlockLens {
            y: y[q],
            c1: c1[q],
            c2: c2[q],
        };
        lens.push(slice_len(&parts.plan, of_blocks))?;
    }
    Ok(lens)
}

/// Encodes a slice (ST 2042-1, high-quality slice) at the quantisation index `q` from 0 to 127, in this
/// project's own way: prefix bytes of 0, and each block as short as its codes allow. TooLong exactly where
/// a block is longer than 255 times the slice size scaler.
pub fn encode(
    alloc: Global,
    plan: &Plan,
    index: u32,
    coeffs: &SliceCoeffs,
    q: u8,
) -> Result<Vec<u8>, EncodeRefusal>
    requires slice { index < slice_count plan.now }
    requires coefficients { AreSliceCoefficients plan.now index coeffs.now }
    requires index { q ≤ 127 }
    ensures value { IfOk result
        (λ bytes. bits_of bytes.items ≡ encoded_slice plan.now index q coeffs.now) }
    ensures len { IfOk result
        (λ bytes. length bytes.items ≡ encoded_length plan.now index q coeffs.now) }
    ensures fits { OnOk result (is_too_long plan.now index q coeffs.now ≡ false) }
    ensures too_long { IfErr result (λ e. IsRefusal plan.now index q coeffs.now e) }
{
    encode_in(
        &mut EncodeRoom::new(alloc),
        &SliceParts::new(plan, index),
        coeffs,
        q,
    )
}

/// The same of a slice whose parts are known, by means of memory that serves one slice after another.
pub fn encode_in(
    room: &mut EncodeRoom,
    parts: &SliceParts,
    coeffs: &SliceCoeffs,
    q: u8,
) -> Result<Vec<u8>, EncodeRefusal>
    requires coefficients { AreCoefficients parts.now coeffs.now }
    requires index { q ≤ 127 }
    ensures value { IfOk result
        (λ bytes. bits_of bytes.items ≡ encoded_slice parts.now.plan parts.now.slice q coeffs.now) }
    ensures len { IfOk result
        (λ bytes. length bytes.items ≡ encoded_length parts.now.plan parts.now.slice q coeffs.now) }
    ensures fits { OnOk result (is_too_long parts.now.plan parts.now.slice q coeffs.now ≡ false) }
    ensures too_long { IfErr result
        (λ e. IsRefusal parts.now.plan parts.now.slice q coeffs.now e) }
{
    let plan = &parts.plan;
    let Ok(()) = room.fill(parts, coeffs, q) else {
        return Err(EncodeRefusal::NoMemory);
    };
    let blocks = &room.blocks;
    if are_too_long(plan, blocks) {
        return Err(EncodeRefusal::TooLong {
            bytes: len_of_parts(parts, coeffs, q),
        });
    }
    match joined(room.alloc, plan, q, blocks) {
        Ok(bytes) => Ok(bytes),
        Err(_) => Err(EncodeRefusal::NoMemory),
    }
}

// How many bits the codes of the three blocks have.
#[derive(Clone, Copy)]
struct BlockLens {
    y: u64,
    c1: u64,
    c2: u64,
}

fn block_lens(parts: &SliceParts, coeffs: &SliceCoeffs, q: u8) -> BlockLens
    requires coefficients { AreCoefficients parts.now coeffs.now }
    requires index { q ≤ 127 }
    ensures y { result.y ≡ length (codes_at parts.now q coeffs.now Y) }
    ensures c1 { result.c1 ≡ length (codes_at parts.now q coeffs.now C1) }
    ensures c2 { result.c2 ≡ length (codes_at parts.now q coeffs.now C2) }
    ensures range { (result.y < 2 ^ 40) × (result.c1 < 2 ^ 40) × (result.c2 < 2 ^ 40) }
{
    let bands = SliceBands::new(parts, q);
    BlockLens {
        y: block_len(&bands, Component::Y, coeffs),
        c1: block_len(&bands, Component::C1, coeffs),
        c2: block_len(&bands, Component::C2, coeffs),
    }
}

fn slice_len(plan: &Plan, lens: BlockLens) -> u64
    requires { (lens.y < 2 ^ 40) × (lens.c1 < 2 ^ 40) × (lens.c2 < 2 ^ 40) }
    ensures { result ≡ plan.now.prefix + 4 + plan.now.scaler
        * (block_units plan.now.scaler lens.y + block_units plan.now.scaler lens.c1
        + block_units plan.now.scaler lens.c2) }
{
    let units = units(plan, lens.y) + units(plan, lens.c1) + units(plan, lens.c2);
    u64::from(plan.prefix) + 4 + u64::from(plan.scaler) * units
}

// The length of a block whose codes have so many bits, in units of the plan's slice size scaler.
fn units(plan: &Plan, bits: u64) -> u64
    requires range { bits < 2 ^ 40 }
    ensures value { result ≡ block_units plan.now.scaler bits }
    ensures range { result * plan.now.scaler < 2 ^ 40 }
{
    let bytes = (bits + 7) / 8;
    let scaler = u64::from(plan.scaler);
    (bytes + scaler - 1) / scaler
}
