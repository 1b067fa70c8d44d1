//! Rows of slices: their lengths, their coefficients, and their bytes.
ghost use Rattle.std.specs.Prelude.{◌≡◌, ◌<◌, ◌≤◌, IfOk, IsTrue, length, false};
ghost use Rattle.std.specs.List.{list_any};
ghost use Rattle.vc_slice.specs.Listed.{listed};
ghost use Rattle.vc_types.specs.SliceCoefficients.{AreSliceCoefficients};
ghost use Rattle.vc_types.specs.Slices.{coefficients_of, is_large};
ghost use Rattle.vc_types.specs.Subbands.{slice_coefficient_count, slice_count};
ghost use Rattle.vc_types.specs.TransformParameters.{parameters_of};

use crate::parameters::plan_of;
use crate::said::Said;
use crate::words::{bytes_of, long_numbers, natural, parted};
use bytes::Bytes;
use std::alloc::Global;
use vc_geometry::slice_len;
use vc_slice::{
    CoefficientList, EncodeRefusal, SliceCoeffs, SliceDone, SliceJob, Unsound, cut, decode, encode,
    encoded_len, encoded_lens,
};
use vc_types::{Component, Plan};
use worked_common::{Bad, NamedBytes};

// How slices are coded, and bytes that begin with one.
#[derive(Drop)]
struct Cut {
    prefix: u32,
    scaler: u32,
    bytes: Vec<u8>,
}

// prefix bytes : size scaler : the bytes.
fn cut_of(alloc: Global, parts: &[NamedBytes], given: &str) -> Result<Cut, Bad> {
    let (prefix, rest) = parted(given);
    let (scaler, bytes) = parted(rest);
    Ok(Cut {
        prefix: natural(prefix)?,
        scaler: natural(scaler)?,
        bytes: bytes_of(alloc, parts, bytes)?,
    })
}

fn add_cut(of: &Cut, bytes: &[u8], said: &mut Said) {
    match cut(of.prefix, of.scaler, bytes) {
        Ok(length) => said.word(length),
        Err(_) => said.word("Short"),
    }
}

/// The length of the slice that begins bytes: prefix bytes : size scaler : the bytes.
pub(crate) fn cut_slice(parts: &[NamedBytes], given: &str, said: &mut Said) -> Result<(), Bad> {
    let of = cut_of(said.alloc(), parts, given)?;
    add_cut(&of, of.bytes.as_slice(), said);
    Ok(())
}

fn add_cuts(of: &Cut, said: &mut Said) {
    let bytes = of.bytes.as_slice();
    for length in 0..=bytes.len() {
        add_cut(of, bytes.get(..length).unwrap_or(bytes), said);
    }
}

/// The same of the first 0, 1, 2, .. and all of the bytes.
pub(crate) fn cut_cuts(parts: &[NamedBytes], given: &str, said: &mut Said) -> Result<(), Bad> {
    add_cuts(&cut_of(said.alloc(), parts, given)?, said);
    Ok(())
}

fn slice_count(plan: &Plan) -> u32
    ensures { result ≡ slice_count (parameters_of plan.now) }
{
    plan.slices_x * plan.slices_y
}

// A plan, and the number of a slice that it has.
fn plan_and_slice(
    alloc: Global,
    parts: &[NamedBytes],
    plan: &str,
    slice: &str,
) -> Result<(Plan, u32), Bad>
    ensures { IfOk result (λ x. x.1 < slice_count (parameters_of x.0)) }
{
    let plan = plan_of(alloc, parts, plan)?;
    let slice = natural(slice)?;
    if slice >= slice_count(&plan) {
        return Err(Bad::NoRow);
    }
    Ok((plan, slice))
}

pub(crate) fn shared(bytes: Vec<u8>) -> Result<Bytes, Bad> {
    match Bytes::from_vec(bytes) {
        Ok(bytes) => Ok(bytes),
        Err(_) => Err(Bad::NoMemory),
    }
}

// A whole slice of a plan.
fn whole(plan: Plan, index: u32, bytes: Bytes) -> Result<SliceJob, Bad>
    requires { index < slice_count (parameters_of plan) }
{
    match cut(plan.prefix, plan.scaler, bytes.as_slice()) {
        Ok(length) if length == bytes.len() => Ok(SliceJob {
            plan,
            number: 0,
            index,
            bytes,
        }),
        _ => Err(Bad::NoRow),
    }
}

// A slice that is decoded: plan : number of the slice : its bytes.
fn job_of(alloc: Global, parts: &[NamedBytes], given: &str) -> Result<SliceJob, Bad> {
    let (plan, rest) = parted(given);
    let (index, bytes) = parted(rest);
    let (plan, index) = plan_and_slice(alloc, parts, plan, index)?;
    whole(plan, index, shared(bytes_of(alloc, parts, bytes)?)?)
}

/// Coefficients behind the name of their component.
pub(crate) fn add_numbers(name: &str, numbers: &CoefficientList<'_>, said: &mut Said) {
    said.word(name);
    for place in 0..numbers.len() {
        said.word(numbers.get(place));
    }
}

/// A slice's coefficients.
pub(crate) fn add_coefficients(coeffs: &SliceCoeffs, said: &mut Said) {
    add_numbers("y", &coeffs.component(Component::Y), said);
    add_numbers("c1", &coeffs.component(Component::C1), said);
    add_numbers("c2", &coeffs.component(Component::C2), said);
}

fn decoded(alloc: Global, parts: &[NamedBytes], given: &str) -> Result<SliceDone, Bad> {
    let job = job_of(alloc, parts, given)?;
    Ok(decode(alloc, job)?)
}

/// The coefficients of a slice, or why it has none: plan : number of the slice : its bytes.
pub(crate) fn slice(parts: &[NamedBytes], given: &str, said: &mut Said) -> Result<(), Bad> {
    let done = decoded(said.alloc(), parts, given)?;
    match &done.answer {
        Ok(coeffs) => add_coefficients(coeffs, said),
        Err(why) => said.shown(*why),
    }
    Ok(())
}

fn bits_of(coeffs: &SliceCoeffs) -> &'static str {
    match coeffs.component(Component::Y) {
        CoefficientList::Narrow(_) => "32",
        CoefficientList::Wide(_) => "64",
    }
}

/// In how many bits the coefficients of a slice are kept.
pub(crate) fn slice_kept(parts: &[NamedBytes], given: &str, said: &mut Said) -> Result<(), Bad> {
    let done = decoded(said.alloc(), parts, given)?;
    match &done.answer {
        Ok(coeffs) => said.word(bits_of(coeffs)),
        Err(_) => return Err(Bad::NoRow),
    }
    Ok(())
}

// ---- encoding

fn is_any_large(numbers: &CoefficientList<'_>) -> bool
    ensures { result ≡ list_any is_large (listed numbers.now) }
{
    match numbers {
        CoefficientList::Narrow(numbers) => numbers
            .iter()
            .any(|number| number.unsigned_abs() as u64 >= 1 << 60),
        CoefficientList::Wide(numbers) => numbers
            .iter()
            .any(|number| number.unsigned_abs() >= 1 << 60),
    }
}

fn fit(plan: &Plan, slice: u32, coeffs: &SliceCoeffs, c: Component) -> bool
    requires slice { slice < slice_count (parameters_of plan.now) }
    ensures length { IsTrue result → length (coefficients_of coeffs.now c)
        ≡ slice_coefficient_count (parameters_of plan.now) c slice }
    ensures small { IsTrue result → list_any is_large (coefficients_of coeffs.now c) ≡ false }
{
    let numbers = coeffs.component(c);
    numbers.len() == slice_len(plan, c, slice) as usize && !is_any_large(&numbers)
}

// The same coefficients, where the slice has as many and they are small enough.
fn of_slice(plan: &Plan, slice: u32, coeffs: SliceCoeffs) -> Result<SliceCoeffs, Bad>
    requires slice { slice < slice_count (parameters_of plan.now) }
    ensures { IfOk result (λ s. AreSliceCoefficients (parameters_of plan.now) slice s) }
{
    if fit(plan, slice, &coeffs, Component::Y)
        && fit(plan, slice, &coeffs, Component::C1)
        && fit(plan, slice, &coeffs, Component::C2)
    {
        Ok(coeffs)
    } else {
        Err(Bad::NoRow)
    }
}

// What stands of each of three components: y 1 2 c1 0*2 c2 0*2.
fn components_of(text: &str) -> Result<(&str, &str, &str), Bad> {
    let Some((y, rest)) = text.split_once("c1") else {
        return Err(Bad::NoRow);
    };
    let Some((c1, c2)) = rest.split_once("c2") else {
        return Err(Bad::NoRow);
    };
    match y.trim().strip_prefix('y') {
        Some(y) => Ok((y, c1, c2)),
        None => Err(Bad::NoRow),
    }
}

// The coefficients of three components.
fn coefficients_of_text(alloc: Global, text: &str) -> Result<SliceCoeffs, Bad> {
    let (y, c1, c2) = components_of(text)?;
    let y = long_numbers(alloc, y)?;
    let (c1, c2) = (long_numbers(alloc, c1)?, long_numbers(alloc, c2)?);
    Ok(SliceCoeffs::joined(alloc, y.as_slice(), c1.as_slice(), c2.as_slice())?)
}

// Numbers in 32 bits, where they fit.
fn in_32_bits(alloc: Global, numbers: &CoefficientList<'_>) -> Result<Option<Vec<i32>>, Bad> {
    let mut narrow = Vec::new(alloc);
    for place in 0..numbers.len() {
        let Ok(number) = i32::try_from(numbers.get(place)) else {
            return Ok(None);
        };
        narrow.push(number)?;
    }
    Ok(Some(narrow))
}

// The same coefficients in 32 bits, where they fit.
fn narrowed(alloc: Global, coeffs: &SliceCoeffs) -> Result<Option<SliceCoeffs>, Bad> {
    let y = in_32_bits(alloc, &coeffs.component(Component::Y))?;
    let c1 = in_32_bits(alloc, &coeffs.component(Component::C1))?;
    let c2 = in_32_bits(alloc, &coeffs.component(Component::C2))?;
    let (Some(mut all), Some(c1), Some(c2)) = (y, c1, c2) else {
        return Ok(None);
    };
    let y = all.len();
    all.extend_from_slice(c1.as_slice())?;
    all.extend_from_slice(c2.as_slice())?;
    Ok(Some(SliceCoeffs::narrow(all, y, c1.len(), c2.len())))
}

// A quantisation index.
fn index_of(word: &str) -> Result<u8, Bad>
    ensures { IfOk result (λ index. index ≤ 127) }
{
    match u8::try_from(natural(word)?) {
        Ok(index) if index <= 127 => Ok(index),
        _ => Err(Bad::NoRow),
    }
}

// A plan, and the coefficients of one of its slices.
#[derive(Drop)]
struct PlannedSlice {
    plan: Plan,
    slice: u32,
    coeffs: SliceCoeffs,
    ghost slice_is_planned: { slice < slice_count (parameters_of plan) },
    ghost coefficients_fit: { AreSliceCoefficients (parameters_of plan) slice coeffs },
}

fn planned_slice(plan: Plan, slice: u32, coeffs: SliceCoeffs) -> Result<PlannedSlice, Bad>
    requires { slice < slice_count (parameters_of plan) }
{
    let coeffs = of_slice(&plan, slice, coeffs)?;
    Ok(PlannedSlice {
        plan,
        slice,
        coeffs,
    })
}

fn planned_slice_of(
    alloc: Global,
    parts: &[NamedBytes],
    plan: &str,
    slice: &str,
    coefficients: &str,
) -> Result<PlannedSlice, Bad> {
    let (plan, slice) = plan_and_slice(alloc, parts, plan, slice)?;
    planned_slice(plan, slice, coefficients_of_text(alloc, coefficients)?)
}

// The same slice with its coefficients in 32 bits, where they fit.
fn narrowed_slice(alloc: Global, wide: &PlannedSlice) -> Result<Option<PlannedSlice>, Bad> {
    match narrowed(alloc, &wide.coeffs)? {
        Some(coeffs) => Ok(Some(planned_slice(wide.plan, wide.slice, coeffs)?)),
        None => Ok(None),
    }
}

// A slice with its coefficients in 64 bits and, where they fit, in 32.
#[derive(Drop)]
struct Widths {
    wide: PlannedSlice,
    narrow: Option<PlannedSlice>,
}

// plan : number of the slice : what is asked of it : coefficients.
fn asked<'a>(
    alloc: Global,
    parts: &[NamedBytes],
    given: &'a str,
) -> Result<(Widths, &'a str), Bad> {
    let (plan, rest) = parted(given);
    let (slice, rest) = parted(rest);
    let (asked, coefficients) = parted(rest);
    let wide = planned_slice_of(alloc, parts, plan, slice, coefficients)?;
    let narrow = narrowed_slice(alloc, &wide)?;
    Ok((Widths { wide, narrow }, asked))
}

// Adds the bytes of a slice at an index, or how many it would have.
fn add_encoded(of: &PlannedSlice, index: u8, said: &mut Said) -> Result<(), Bad>
    requires { index ≤ 127 }
{
    match encode(said.alloc(), &of.plan, of.slice, &of.coeffs, index) {
        Ok(bytes) => said.bytes(bytes.as_slice()),
        Err(EncodeRefusal::TooLong { bytes }) => write!(said, "TooLong {bytes} "),
        Err(EncodeRefusal::NoMemory) => return Err(Bad::NoMemory),
    }
    Ok(())
}

fn encoded(alloc: Global, of: &PlannedSlice, index: u8) -> Result<String, Bad>
    requires { index ≤ 127 }
{
    let mut said = Said::new(alloc);
    add_encoded(of, index, &mut said)?;
    said.into_text()
}

// Adds what is found of a slice in 64 bits, and what is in 32, where it differs.
fn add_both(in_64: &str, in_32: &str, said: &mut Said) {
    said.word(in_64);
    if in_64 != in_32 {
        write!(said, "in 64 bits, in 32 {in_32}");
    }
}

fn add_written(of: &Widths, index: u8, said: &mut Said) -> Result<(), Bad>
    requires { index ≤ 127 }
{
    let Some(narrow) = &of.narrow else {
        return add_encoded(&of.wide, index, said);
    };
    let in_64 = encoded(said.alloc(), &of.wide, index)?;
    let in_32 = encoded(said.alloc(), narrow, index)?;
    add_both(in_64.as_str(), in_32.as_str(), said);
    Ok(())
}

/// The bytes of a slice, or TooLong and how many it would have. Given is
/// plan : number of the slice : quantisation index : coefficients.
/// These are encoded in 64 bits and, where they fit, in 32: what differs is told too.
pub(crate) fn slice_written(parts: &[NamedBytes], given: &str, said: &mut Said) -> Result<(), Bad> {
    let (of, index) = asked(said.alloc(), parts, given)?;
    add_written(&of, index_of(index)?, said)
}

// Adds the length of a slice at an index, and what was found at once, where it differs.
fn add_length(of: &PlannedSlice, index: u8, at_once: &[u64], said: &mut Said)
    requires { index ≤ 127 }
{
    let length = encoded_len(&of.plan, of.slice, &of.coeffs, index);
    said.word(length);
    let other = at_once.get(usize::from(index)).copied().unwrap_or(0);
    if length != other {
        write!(said, "alone, at once {other} ");
    }
}

fn add_lengths(of: &PlannedSlice, indices: &str, said: &mut Said) -> Result<(), Bad> {
    let at_once = encoded_lens(said.alloc(), &of.plan, of.slice, &of.coeffs)?;
    for word in indices.split_whitespace() {
        add_length(of, index_of(word)?, at_once.as_slice(), said);
    }
    Ok(())
}

fn lengths(alloc: Global, of: &PlannedSlice, indices: &str) -> Result<String, Bad> {
    let mut said = Said::new(alloc);
    add_lengths(of, indices, &mut said)?;
    said.into_text()
}

fn add_all_lengths(of: &Widths, indices: &str, said: &mut Said) -> Result<(), Bad> {
    let Some(narrow) = &of.narrow else {
        return add_lengths(&of.wide, indices, said);
    };
    let in_64 = lengths(said.alloc(), &of.wide, indices)?;
    let in_32 = lengths(said.alloc(), narrow, indices)?;
    add_both(in_64.as_str(), in_32.as_str(), said);
    Ok(())
}

/// The lengths of a slice at some indices, each found alone and all at once. Given is
/// plan : number of the slice : the indices : coefficients.
/// They are found in 64 bits and, where the coefficients fit, in 32: what differs is told too.
pub(crate) fn slice_lengths(parts: &[NamedBytes], given: &str, said: &mut Said) -> Result<(), Bad> {
    let (of, indices) = asked(said.alloc(), parts, given)?;
    add_all_lengths(&of, indices, said)
}
