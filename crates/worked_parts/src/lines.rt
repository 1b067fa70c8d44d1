//! Rows of lines of samples, synthesised and analysed.
ghost use Rattle.std.specs.Prelude.{◌≡◌, ◌≤◌, ◌*◌, ◌%◌, ◌^◌, ◌<◌, All, IfOk, IsTrue, length, unsigned_abs};

use crate::said::Said;
use crate::words::{natural, number, numbers, parted, range, weighed};
use std::alloc::Global;
use vc_lift::{
    analyse, analyse_columns, narrow_analysis_bound, narrow_bound, synth, synth_columns,
};
use worked_common::Bad;

// Whether they are such samples as lines may have.
fn are_small(samples: &[i128]) -> bool
    ensures { IsTrue result → All (λ z. unsigned_abs z < 2 ^ 108) samples.now }
{
    samples.iter().all(|z| z.unsigned_abs() < 1 << 108)
}

fn wavelet_of(word: &str) -> Result<u8, Bad>
    ensures { IfOk result (λ w. w ≤ 6) }
{
    let wavelet = natural(word)?;
    if wavelet > 6 {
        return Err(Bad::NoRow);
    }
    Ok(wavelet as u8)
}

fn change_line(wavelet: u8, line: &mut [i128], undo: bool) -> Result<(), Bad>
    requires { wavelet ≤ 6 }
{
    if line.len() < 2 || line.len() % 2 != 0 || !are_small(line) {
        return Err(Bad::NoRow);
    }
    if undo {
        analyse(wavelet, line);
    } else {
        synth(wavelet, line);
    }
    Ok(())
}

// A wavelet, and what stands behind it.
fn of_wavelet(given: &str) -> Result<(u8, &str), Bad>
    ensures { IfOk result (λ x. x.0 ≤ 6) }
{
    let (word, rest) = parted(given);
    let wavelet = wavelet_of(word)?;
    Ok((wavelet, rest))
}

fn changed(given: &str, undo: bool, said: &mut Said) -> Result<(), Bad> {
    let (wavelet, line) = of_wavelet(given)?;
    let mut line = numbers(said.alloc(), line)?;
    change_line(wavelet, line.as_mut_slice(), undo)?;
    said.words(line.as_slice());
    Ok(())
}

/// What a wavelet synthesises of a line.
pub(crate) fn synthesised(given: &str, said: &mut Said) -> Result<(), Bad> {
    changed(given, false, said)
}

/// What a wavelet analyses a line to.
pub(crate) fn analysed(given: &str, said: &mut Said) -> Result<(), Bad> {
    changed(given, true, said)
}

/// Cells whose place i, counted from 0, has (i * i + 7 * i) mod 61 - 30.
pub(crate) fn some_cells(alloc: Global, count: u32) -> Result<Vec<i128>, Bad> {
    let mut cells = Vec::new(alloc);
    for i in 0..count {
        let i = i128::from(i % 61);
        cells.push((i * i + 7 * i) % 61 - 30)?;
    }
    Ok(cells)
}

// The sum of each sample times its place in a line of so many cells that is changed.
fn sum_of_changed(alloc: Global, wavelet: u8, length: u32, undo: bool) -> Result<i128, Bad>
    requires { wavelet ≤ 6 }
{
    let mut line = some_cells(alloc, length)?;
    change_line(wavelet, line.as_mut_slice(), undo)?;
    Ok(weighed(line.as_slice()))
}

// A wavelet, and the first and the last of lengths.
fn of_lengths(given: &str) -> Result<(u8, u32, u32), Bad>
    ensures { IfOk result (λ x. x.0 ≤ 6) }
{
    let (wavelet, lengths) = of_wavelet(given)?;
    let (first, last) = range(lengths)?;
    Ok((wavelet, first, last))
}

fn sums(given: &str, undo: bool, said: &mut Said) -> Result<(), Bad> {
    let (wavelet, first, last) = of_lengths(given)?;
    for length in first..=last {
        if length % 2 == 0 {
            said.word(sum_of_changed(said.alloc(), wavelet, length, undo)?);
        }
    }
    Ok(())
}

/// For each even length of a range, the sum of each sample times its place that is synthesised of a line of
/// such cells.
pub(crate) fn synthesised_sums(given: &str, said: &mut Said) -> Result<(), Bad> {
    sums(given, false, said)
}

/// The same that such a line is analysed to.
pub(crate) fn analysed_sums(given: &str, said: &mut Said) -> Result<(), Bad> {
    sums(given, true, said)
}

fn comes_back(alloc: Global, wavelet: u8, length: u32) -> Result<bool, Bad>
    requires { wavelet ≤ 6 }
{
    let line = some_cells(alloc, length)?;
    let mut changed = some_cells(alloc, length)?;
    change_line(wavelet, changed.as_mut_slice(), true)?;
    change_line(wavelet, changed.as_mut_slice(), false)?;
    Ok(line.as_slice() == changed.as_slice())
}

fn all_come_back(alloc: Global, wavelet: u8, first: u32, last: u32) -> Result<bool, Bad>
    requires { wavelet ≤ 6 }
{
    for length in first..=last {
        if length % 2 == 0 && !comes_back(alloc, wavelet, length)? {
            return Ok(false);
        }
    }
    Ok(true)
}

/// Whether a line of each even length of a range comes back where it is analysed and then synthesised.
pub(crate) fn back(given: &str, said: &mut Said) -> Result<(), Bad> {
    let (wavelet, first, last) = of_lengths(given)?;
    let all = all_come_back(said.alloc(), wavelet, first, last)?;
    said.word(if all { "same" } else { "another" });
    Ok(())
}

fn change_columns(wavelet: u8, cells: &mut [i128], width: usize, undo: bool) -> Result<(), Bad>
    requires { wavelet ≤ 6 }
{
    if width == 0 || width > 8192 || !are_small(cells) {
        return Err(Bad::NoRow);
    }
    let half = cells.len() / (2 * width);
    if half == 0 || cells.len() != 2 * half * width {
        return Err(Bad::NoRow);
    }
    if undo {
        analyse_columns(wavelet, cells, width, half);
    } else {
        synth_columns(wavelet, cells, width, half);
    }
    Ok(())
}

// A wavelet, and how many columns stand side by side.
fn wavelet_and_width(text: &str) -> Result<(u8, usize), Bad>
    ensures { IfOk result (λ x. x.0 ≤ 6) }
{
    let Some((word, width)) = text.trim().split_once(' ') else {
        return Err(Bad::NoRow);
    };
    let wavelet = wavelet_of(word)?;
    let width = natural(width)? as usize;
    Ok((wavelet, width))
}

fn columns_changed(given: &str, undo: bool, said: &mut Said) -> Result<(), Bad> {
    let (front, cells) = parted(given);
    let (wavelet, width) = wavelet_and_width(front)?;
    let mut cells = numbers(said.alloc(), cells)?;
    change_columns(wavelet, cells.as_mut_slice(), width, undo)?;
    said.words(cells.as_slice());
    Ok(())
}

/// What a wavelet synthesises of columns that stand side by side, so many in a row.
pub(crate) fn columns_synthesised(given: &str, said: &mut Said) -> Result<(), Bad> {
    columns_changed(given, false, said)
}

/// What a wavelet analyses such columns to.
pub(crate) fn columns_analysed(given: &str, said: &mut Said) -> Result<(), Bad> {
    columns_changed(given, true, said)
}

fn bound(wavelet: u8, most: i128, undo: bool) -> Result<Option<u64>, Bad>
    requires { wavelet ≤ 6 }
{
    let Ok(most) = u64::try_from(most) else {
        return Err(Bad::NoRow);
    };
    if most >= 1 << 31 {
        return Err(Bad::NoRow);
    }
    if undo {
        Ok(narrow_analysis_bound(wavelet, most))
    } else {
        Ok(narrow_bound(wavelet, most))
    }
}

fn bounds(given: &str, undo: bool, said: &mut Said) -> Result<(), Bad> {
    let (wavelet, most) = of_wavelet(given)?;
    match bound(wavelet, number(most)?, undo)? {
        Some(after) => said.word(after),
        None => said.word("none"),
    }
    Ok(())
}

/// A bound on the samples that are synthesised in 32 bits, from one before that.
pub(crate) fn synthesis_bound(given: &str, said: &mut Said) -> Result<(), Bad> {
    bounds(given, false, said)
}

/// The same of samples that are analysed.
pub(crate) fn analysis_bound(given: &str, said: &mut Said) -> Result<(), Bad> {
    bounds(given, true, said)
}
