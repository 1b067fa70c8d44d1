ghost use Rattle.std.specs.Prelude.{◌≡◌, ◌+◌, ◌-◌, ◌*◌, ◌^◌, ◌<◌, ◌≤◌, ◌⊎◌, ℕ, true, length};
ghost use Rattle.std.specs.Prelude.{unsigned_abs};
ghost use Rattle.vc_types.specs.Lifting.{line_of};
ghost use Rattle.vc_types.specs.Subbands.{padded_width, padded_height};
ghost use Rattle.vc_types.specs.TransformParameters.{parameters_of};
ghost use Rattle.vc_types.specs.Transforms.{inverse_level, inverse_levels, levels_across, lowest_width};
ghost use Rattle.vc_types.specs.Transforms.{lowest_height};
ghost use Rattle.vc_types.specs.Wavelets.{is_shifted};
ghost use Rattle.vc_lift.specs.Reach.{HoldsPairs};
ghost use Rattle.vc_wave.specs.declared.pass.Direction.TheVariants.{Synthesis};
ghost use Rattle.vc_wave.specs.Layout.{after_levels};
ghost use Rattle.vc_wave.specs.NarrowBounds.{HasBound, RowHasBound, rows_bound};
ghost use Rattle.vc_wave.specs.Parts.{with_low, subbands_of, pairs_held, held};
ghost use Rattle.vc_wave.specs.Planes.{plane_of};
ghost use Rattle.vc_wave.specs.Remade.{half_place, remade, shifted_down};
ghost use Rattle.vc_wave.specs.Sides.{highest_width, highest_height};

use crate::bands::{band_from, put_cells, synth_band};
use crate::bounds::greatest;
use crate::extents::{Level, Levels, Rows, levels_of};
use crate::narrow::{merge_across, shifted_down};
use crate::parts::{Band, Span, Subbands};
use crate::shift::is_shifted;
use crate::sides::{lowest, side_at};
use vc_geometry::padded;
use vc_lift::{Halves, synth_narrow};
use vc_types::{Component, Plan};

// Puts two halves of a row in turn, from one list to another, and shifts the samples if that is wanted.
#[inline(always)]
fn weave_over(out: &mut [i32], at: usize, cells: &[i32], start: usize, half: usize, shifted: bool)
    requires half { half < 2 ^ 60 }
    requires at { at + 2 * half ≤ length out.old }
    requires inside { start + 2 * half ≤ length cells.now }
    requires small { shifted ≡ true → (k : ℕ) → k < 2 * half
        → unsigned_abs (line_of cells.now (start + k)) + 1 < 2 ^ 31 }
    ensures on { (k : ℕ) → k < 2 * half → line_of out.new (at + k)
        ≡ shifted_down shifted (line_of cells.now (start + half_place half k)) }
    ensures off { (i : ℕ) → (i < at) ⊎ (at + 2 * half ≤ i)
        → line_of out.new i ≡ line_of out.old i }
{
    for k in 0..half {
        out[at + 2 * k] = shifted_down(cells[start + k], shifted);
        out[at + 2 * k + 1] = shifted_down(cells[start + half + k], shifted);
    }
}

// Puts the two halves of a row together (ST 2042-1, horizontal synthesis), and leaves its samples in another
// list, shifted if the wavelet wants that. The halves are left synthesised where they stand.
#[inline(always)]
fn keep_row(wavelet: u8, cells: &mut [i32], start: usize, half: usize, out: &mut [i32], at: usize)
    requires wavelet { wavelet ≤ 6 }
    requires some { (0 < half) × (half < 2 ^ 60) }
    requires at { at + 2 * half ≤ length out.old }
    requires inside { start + 2 * half ≤ length cells.old }
    requires bound { RowHasBound (rows_bound wavelet) cells.old start (2 * half) }
    ensures on { (k : ℕ) → k < 2 * half → line_of out.new (at + k)
        ≡ remade Synthesis wavelet (is_shifted wavelet) half
        (λ j. line_of cells.old (start + j)) k }
    ensures off { (i : ℕ) → (i < at) ⊎ (at + 2 * half ≤ i)
        → line_of out.new i ≡ line_of out.old i }
    ensures beside { (i : ℕ) → (i < start) ⊎ (start + 2 * half ≤ i)
        → line_of cells.new i ≡ line_of cells.old i }
{
    let halves = Halves {
        even: start,
        odd: start + half,
        pitch: 1,
        half,
    };
    synth_narrow(wavelet, cells, &halves, 1);
    weave_over(out, at, cells, start, half, is_shifted(wavelet));
}

// Puts the halves of some rows together, and leaves them in rows of another list.
fn keep_rows(rows: Rows, span: Span, cells: &mut [i32], out: &mut [i32])
    requires across { 2 * rows.half ≤ rows.pitch }
    requires from { (span.first + span.count) * rows.pitch ≤ length cells.old }
    requires to { (span.at + span.count) * (2 * rows.half) ≤ length out.old }
    requires bound { HasBound (rows_bound rows.wavelet) cells.old }
    ensures on { (x y : ℕ) → x < 2 * rows.half → y < span.count
        → line_of out.new ((span.at + y) * (2 * rows.half) + x)
        ≡ remade Synthesis rows.wavelet (is_shifted rows.wavelet)
        rows.half (λ k. plane_of rows.pitch cells.old k (span.first + y)) x }
    ensures before { (i : ℕ) → i < span.at * (2 * rows.half)
        → line_of out.new i ≡ line_of out.old i }
{
    for y in 0..span.count {
        keep_row(
            rows.wavelet,
            cells,
            (span.first + y) * rows.pitch,
            rows.half,
            out,
            (span.at + y) * (2 * rows.half),
        );
    }
}

// Makes a band of a level below the highest, and leaves its samples in rows of another list. It tells whether
// 32 bits were enough.
fn merge_band(subbands: &Subbands<'_>, band: &Band, window: &mut [i32], out: &mut [i32]) -> bool
    requires holds { HoldsPairs subbands.now.level.wavelets.down subbands.now.level.h
        band.now.from band.now.to band.now.first band.now.pairs }
    requires window { length window.old ≡ 2 * band.now.pairs * (2 * subbands.now.level.w) }
    requires order { (band.now.from < band.now.to) × (band.now.to ≤ subbands.now.level.h) }
    requires out { 2 * subbands.now.level.h * (2 * subbands.now.level.w) ≤ length out.old }
    ensures made { result ≡ true → (x y : ℕ) → x < 2 * subbands.now.level.w
        → 2 * band.now.from ≤ y → y < 2 * band.now.to
        → line_of out.new (y * (2 * subbands.now.level.w) + x)
        ≡ inverse_level subbands.now.level.wavelets.down subbands.now.level.wavelets.across
        subbands.now.level.w subbands.now.level.h (subbands_of subbands.now) x y }
    ensures before { (i : ℕ) → i < 2 * band.now.from * (2 * subbands.now.level.w)
        → line_of out.new i ≡ line_of out.old i }
{
    let Some(_after) = synth_band(subbands, band, window) else {
        return false;
    };
    let level = subbands.level;
    let rows = Rows {
        wavelet: level.wavelets.across,
        pitch: 2 * level.w,
        count: 2 * band.pairs,
        half: level.w,
    };
    let span = Span {
        first: 2 * (band.from - band.first),
        at: 2 * band.from,
        count: 2 * (band.to - band.from),
    };
    keep_rows(rows, span, window, out);
    true
}

// Makes a level below the highest band by band, and leaves its samples row by row in another list. It tells
// whether 32 bits were enough.
fn merge_level(subbands: &Subbands<'_>, room: &mut [i32], out: &mut [i32]) -> bool
    requires room { 2 * pairs_held subbands.now.level.wavelets.down * (2 * subbands.now.level.w)
        ≤ length room.old }
    requires out { 2 * subbands.now.level.h * (2 * subbands.now.level.w) ≤ length out.old }
    ensures { result ≡ true
        → with_low (2 * subbands.now.level.w) (2 * subbands.now.level.h) subbands.now.level.pitch
        out.new subbands.now.nested.now
        ≡ inverse_level subbands.now.level.wavelets.down subbands.now.level.wavelets.across
        subbands.now.level.w subbands.now.level.h (subbands_of subbands.now) }
{
    let level = subbands.level;
    let mut pair = 0;
    while pair < level.h {
        let band = band_from(level.wavelets.down, level.h, pair);
        let window = &mut room[..2 * band.pairs * (2 * level.w)];
        if !merge_band(subbands, &band, window, out) {
            return false;
        }
        pair = band.to;
    }
    true
}

// Makes level number `n` out of the list that has the samples below it, and leaves its samples in the other.
// It tells whether 32 bits were enough.
fn merge_turn(
    level: Level,
    n: u8,
    nested: &[i32],
    first: &mut [i32],
    second: &mut [i32],
    room: &mut [i32],
) -> bool
    requires across { 2 * level.w ≤ level.pitch }
    requires down { 2 * level.h * level.pitch ≤ length nested.now }
    requires first { 2 * level.h * (2 * level.w) ≤ length first.old }
    requires second { 2 * level.h * (2 * level.w) ≤ length second.old }
    requires room { 2 * pairs_held level.wavelets.down * (2 * level.w) ≤ length room.old }
    ensures { result ≡ true
        → with_low (2 * level.w) (2 * level.h) level.pitch (held (n + 1) first.new second.new) nested.now
        ≡ inverse_level level.wavelets.down level.wavelets.across level.w level.h
        (with_low level.w level.h level.pitch (held n first.old second.old) nested.now) }
{
    if n % 2 == 0 {
        let subbands = Subbands {
            level,
            low: first,
            nested,
        };
        merge_level(&subbands, room, second)
    } else {
        let subbands = Subbands {
            level,
            low: second,
            nested,
        };
        merge_level(&subbands, room, first)
    }
}

// Makes the first levels both ways. The samples below the lowest of them stand in the first of two lists. It
// tells whether 32 bits were enough.
#[tactic(auto, using(crate::proofs::Levels::level_fits, crate::proofs::Levels::level_some))]
fn merge_levels(
    levels: Levels,
    count: u8,
    nested: &[i32],
    first: &mut [i32],
    second: &mut [i32],
    room: &mut [i32],
) -> bool
    requires count { count < levels.nesting.levels }
    requires across { levels.nesting.w * 2 ^ levels.nesting.levels ≤ levels.pitch }
    requires down { levels.nesting.h * 2 ^ levels.nesting.levels * levels.pitch
        ≤ length nested.now }
    requires first { levels.nesting.h * 2 ^ count * (levels.nesting.w * 2 ^ count)
        ≤ length first.old }
    requires second { levels.nesting.h * 2 ^ count * (levels.nesting.w * 2 ^ count)
        ≤ length second.old }
    requires room { 2 * pairs_held levels.wavelets.down * (levels.nesting.w * 2 ^ count)
        ≤ length room.old }
    ensures { result ≡ true
        → with_low (levels.nesting.w * 2 ^ count) (levels.nesting.h * 2 ^ count) levels.pitch
        (held count first.new second.new) nested.now
        ≡ inverse_levels levels.wavelets.down levels.wavelets.across count levels.nesting.w
        levels.nesting.h
        (with_low levels.nesting.w levels.nesting.h levels.pitch first.old nested.now) }
{
    for n in 0..count {
        let level = levels.level(n, levels.pitch);
        if !merge_turn(level, n, nested, first, second, room) {
            return false;
        }
    }
    true
}

// Copies the first columns and rows of nested subbands to a list of their own, row by row.
fn copy_corner(nested: &[i32], stride: usize, cells: &mut [i32], columns: usize, rows: usize)
    requires across { columns ≤ stride }
    requires down { rows * stride ≤ length nested.now }
    requires cells { length cells.old ≡ rows * columns }
    ensures { (x y : ℕ) → x < columns → y < rows
        → plane_of columns cells.new x y ≡ plane_of stride nested.now x y }
{
    for y in 0..rows {
        put_cells(cells, y * columns, nested, y * stride, columns);
    }
}

// Takes the lowest subbands of a component, which have these rows once so many levels across alone are
// made, and makes these levels, in a list that is as long as the rows are. The line is room to work in. It
// tells whether 32 bits were enough.
fn corner_across(
    rows: Rows,
    levels: u8,
    nested: &[i32],
    stride: usize,
    cells: &mut [i32],
    line: &mut [i32],
) -> bool
    requires levels { levels ≤ 5 }
    requires pitch { rows.pitch ≡ rows.half * 2 ^ levels }
    requires narrow { rows.half * 2 ^ levels < 2 ^ 60 }
    requires across { rows.pitch ≤ stride }
    requires down { rows.count * stride ≤ length nested.now }
    requires cells { length cells.old ≡ rows.count * rows.pitch }
    requires line { rows.pitch ≤ length line.old }
    ensures { result ≡ true → (x y : ℕ) → x < rows.pitch → y < rows.count
        → plane_of rows.pitch cells.new x y
        ≡ levels_across rows.wavelet levels rows.half rows.count (plane_of stride nested.now) x y }
{
    copy_corner(nested, stride, cells, rows.pitch, rows.count);
    let most = u64::from(greatest(cells));
    if most >= 1 << 31 {
        return false;
    }
    let Some(_after) = merge_across(rows, levels, cells, line, most) else {
        return false;
    };
    true
}

// The samples below the levels both ways of a component, in the first rows of a list. It tells whether 32
// bits were enough.
fn lowest_rows(plan: &Plan, c: Component, nested: &[i32], low: &mut [i32], line: &mut [i32]) -> bool
    requires nested { padded_height (parameters_of plan.now) c
        * padded_width (parameters_of plan.now) c ≤ length nested.now }
    requires low { lowest_height (parameters_of plan.now) c
        * (lowest_width (parameters_of plan.now) c * 2 ^ (parameters_of plan.now).depth_ho)
        ≤ length low.old }
    requires line { lowest_width (parameters_of plan.now) c * 2 ^ (parameters_of plan.now).depth_ho
        ≤ length line.old }
    ensures { result ≡ true
        → with_low (lowest_width (parameters_of plan.now) c * 2 ^ (parameters_of plan.now).depth_ho)
        (lowest_height (parameters_of plan.now) c) (padded_width (parameters_of plan.now) c) low.new
        nested.now
        ≡ levels_across (parameters_of plan.now).wavelet_ho (parameters_of plan.now).depth_ho
        (lowest_width (parameters_of plan.now) c) (lowest_height (parameters_of plan.now) c)
        (plane_of (padded_width (parameters_of plan.now) c) nested.now) }
{
    let (w, h) = lowest(plan, c);
    let (stride, _) = padded(plan, c);
    let width = side_at(w, plan.depth_ho);
    let rows = Rows {
        wavelet: plan.wavelet_ho,
        pitch: width,
        count: h,
        half: w,
    };
    corner_across(
        rows,
        plan.depth_ho,
        nested,
        stride as usize,
        &mut low[..h * width],
        line,
    )
}

/// Makes the levels across alone of a component, and all both ways but the highest, in 32 bits (ST 2042-1,
/// inverse wavelet transform). The coefficients stand row by row in nested subbands, and are only read. The
/// samples below the highest level are left row by row in one of two lists, as `held` says. It tells whether
/// 32 bits were enough.
pub(crate) fn merge_below(
    plan: &Plan,
    c: Component,
    nested: &[i32],
    first: &mut [i32],
    second: &mut [i32],
    room: &mut [i32],
) -> bool
    requires nested { padded_height (parameters_of plan.now) c
        * padded_width (parameters_of plan.now) c ≤ length nested.now }
    requires first { highest_height (parameters_of plan.now) c * highest_width (parameters_of plan.now) c
        ≤ length first.old }
    requires second { highest_height (parameters_of plan.now) c
        * highest_width (parameters_of plan.now) c ≤ length second.old }
    requires room { 2 * pairs_held plan.now.wavelet * (2 * highest_width (parameters_of plan.now) c)
        ≤ length room.old }
    ensures { result ≡ true
        → with_low (highest_width (parameters_of plan.now) c) (highest_height (parameters_of plan.now) c)
        (padded_width (parameters_of plan.now) c) (held (plan.now.depth - 1) first.new second.new)
        nested.now
        ≡ after_levels (parameters_of plan.now) c (plan.now.depth - 1)
        (plane_of (padded_width (parameters_of plan.now) c) nested.now) }
{
    if !lowest_rows(plan, c, nested, first, room) {
        return false;
    }
    let (stride, _) = padded(plan, c);
    let levels = levels_of(plan, c, stride as usize);
    merge_levels(levels, plan.depth - 1, nested, first, second, room)
}
