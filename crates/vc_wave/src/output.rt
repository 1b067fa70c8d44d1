ghost use Rattle.std.specs.Prelude.{◌≡◌, ◌+◌, ◌-◌, ◌*◌, ◌^◌, ◌<◌, ◌≤◌, ◌⊎◌, ℕ, true, length, slice_index_or};
ghost use Rattle.std.specs.Prelude.{unsigned_abs};
ghost use Rattle.vc_types.specs.Lifting.{line_of};
ghost use Rattle.vc_types.specs.Planes.{output_sample};
ghost use Rattle.vc_types.specs.Subbands.{plane_width, plane_height, plane_depth, padded_width};
ghost use Rattle.vc_types.specs.Subbands.{padded_height};
ghost use Rattle.vc_types.specs.TransformParameters.{parameters_of};
ghost use Rattle.vc_types.specs.Transforms.{inverse_level, inverse_transform};
ghost use Rattle.vc_types.specs.Wavelets.{is_shifted};
ghost use Rattle.vc_lift.specs.Reach.{HoldsPairs};
ghost use Rattle.vc_wave.specs.declared.pass.Direction.TheVariants.{Synthesis};
ghost use Rattle.vc_wave.specs.NarrowBounds.{HasBound, RowHasBound, rows_bound};
ghost use Rattle.vc_wave.specs.Parts.{subbands_of, pairs_held, held, room_length};
ghost use Rattle.vc_wave.specs.Parts.{joined_room_length};
ghost use Rattle.vc_wave.specs.Planes.{plane_of};
ghost use Rattle.vc_wave.specs.Remade.{half_place, remade, shifted_down};

use crate::bands::{band_from, pairs_held, synth_band};
use crate::extents::{Rows, highest};
use crate::lower::merge_below;
use crate::narrow::shifted_down;
use crate::parts::{Band, Span, Subbands};
use crate::shift::is_shifted;
use std::thread::{Threads, join_mut};
use vc_lift::{Halves, synth_narrow};
use vc_types::{Component, Plan};

/// The size of a plane, and how many bits its samples have.
#[derive(Clone, Copy)]
pub struct Format {
    pub columns: usize,
    pub rows: usize,
    pub depth: u8,
}

// The sample of so many bits: a number clipped to half of their range on either side of 0, and that half
// added.
#[inline(always)]
fn sample(cell: i32, depth: u8) -> u16
    requires { (1 ≤ depth) × (depth ≤ 16) }
    ensures { result ≡ output_sample depth cell }
{
    let half = i32::from(1u16 << (depth - 1));
    (cell.clamp(-half, half - 1) + half) as u16
}

// Puts two halves of a row in turn, as far as a row of the plane reaches, shifts the samples if that is
// wanted, and clips them.
#[inline(always)]
fn weave_samples(
    samples: &mut [u16],
    at: usize,
    cells: &[i32],
    start: usize,
    half: usize,
    shifted: bool,
    format: Format,
)
    requires depth { (1 ≤ format.depth) × (format.depth ≤ 16) }
    requires half { half < 2 ^ 60 }
    requires width { format.columns ≤ 2 * half }
    requires at { at + format.columns ≤ length samples.old }
    requires inside { start + 2 * half ≤ length cells.now }
    requires small { shifted ≡ true → (k : ℕ) → k < 2 * half
        → unsigned_abs (line_of cells.now (start + k)) + 1 < 2 ^ 31 }
    ensures on { (k : ℕ) → k < format.columns → slice_index_or samples.new (at + k) 0
        ≡ output_sample format.depth
        (shifted_down shifted (line_of cells.now (start + half_place half k))) }
    ensures off { (i : ℕ) → (i < at) ⊎ (at + format.columns ≤ i)
        → slice_index_or samples.new i 0 ≡ slice_index_or samples.old i 0 }
{
    let pairs = format.columns / 2;
    for k in 0..pairs {
        samples[at + 2 * k] = sample(shifted_down(cells[start + k], shifted), format.depth);
        samples[at + 2 * k + 1] = sample(
            shifted_down(cells[start + half + k], shifted),
            format.depth,
        );
    }
    if format.columns % 2 == 1 {
        samples[at + 2 * pairs] = sample(shifted_down(cells[start + pairs], shifted), format.depth);
    }
}

// Puts the two halves of a row together (ST 2042-1, horizontal synthesis), and clips its samples to a row of
// the plane. The halves are left synthesised where they stand.
#[inline(always)]
fn put_row(
    wavelet: u8,
    cells: &mut [i32],
    start: usize,
    half: usize,
    samples: &mut [u16],
    at: usize,
    format: Format,
)
    requires wavelet { wavelet ≤ 6 }
    requires depth { (1 ≤ format.depth) × (format.depth ≤ 16) }
    requires some { (0 < half) × (half < 2 ^ 60) }
    requires width { format.columns ≤ 2 * half }
    requires at { at + format.columns ≤ length samples.old }
    requires inside { start + 2 * half ≤ length cells.old }
    requires bound { RowHasBound (rows_bound wavelet) cells.old start (2 * half) }
    ensures on { (k : ℕ) → k < format.columns → slice_index_or samples.new (at + k) 0
        ≡ output_sample format.depth (remade Synthesis wavelet (is_shifted wavelet) half
        (λ j. line_of cells.old (start + j)) k) }
    ensures off { (i : ℕ) → (i < at) ⊎ (at + format.columns ≤ i)
        → slice_index_or samples.new i 0 ≡ slice_index_or samples.old i 0 }
    ensures beside { (i : ℕ) → (i < start) ⊎ (start + 2 * half ≤ i)
        → line_of cells.new i ≡ line_of cells.old i }
{
    let halves = Halves {
        even: start,
        odd: start + half,
        pitch: 1,
        half,
    };
    synth_narrow(wavelet, cells, &halves, 1);
    weave_samples(samples, at, cells, start, half, is_shifted(wavelet), format);
}

// Puts the halves of some rows together, and puts their samples into rows of the plane.
fn put_rows(rows: Rows, span: Span, cells: &mut [i32], samples: &mut [u16], format: Format)
    requires depth { (1 ≤ format.depth) × (format.depth ≤ 16) }
    requires width { format.columns ≤ 2 * rows.half }
    requires across { 2 * rows.half ≤ rows.pitch }
    requires from { (span.first + span.count) * rows.pitch ≤ length cells.old }
    requires to { (span.at + span.count) * format.columns ≤ length samples.old }
    requires small { span.at + span.count < 2 ^ 62 }
    requires bound { HasBound (rows_bound rows.wavelet) cells.old }
    ensures on { (x y : ℕ) → x < format.columns → y < span.count
        → slice_index_or samples.new ((span.at + y) * format.columns + x) 0
        ≡ output_sample format.depth (remade Synthesis rows.wavelet (is_shifted rows.wavelet)
        rows.half (λ k. plane_of rows.pitch cells.old k (span.first + y)) x) }
    ensures before { (i : ℕ) → i < span.at * format.columns
        → slice_index_or samples.new i 0 ≡ slice_index_or samples.old i 0 }
{
    for y in 0..span.count {
        put_row(
            rows.wavelet,
            cells,
            (span.first + y) * rows.pitch,
            rows.half,
            samples,
            (span.at + y) * format.columns,
            format,
        );
    }
}

// Makes a band of the highest level, and puts its samples, clipped, into rows of the plane that lie below so
// many pairs of the level's rows. It tells whether 32 bits were enough.
fn put_band(
    subbands: &Subbands<'_>,
    band: &Band,
    window: &mut [i32],
    above: usize,
    samples: &mut [u16],
    format: Format,
) -> bool
    requires holds { HoldsPairs subbands.now.level.wavelets.down subbands.now.level.h
        band.now.from band.now.to band.now.first band.now.pairs }
    requires window { length window.old ≡ 2 * band.now.pairs * (2 * subbands.now.level.w) }
    requires depth { (1 ≤ format.depth) × (format.depth ≤ 16) }
    requires width { format.columns ≤ 2 * subbands.now.level.w }
    requires height { 2 * above + format.rows ≤ 2 * subbands.now.level.h }
    requires order { (above ≤ band.now.from) × (band.now.from < band.now.to) }
    requires some { 2 * band.now.from < 2 * above + format.rows }
    requires samples { length samples.old ≡ format.rows * format.columns }
    ensures made { result ≡ true → (x y : ℕ) → x < format.columns
        → 2 * (band.now.from - above) ≤ y → y < 2 * (band.now.to - above) → y < format.rows
        → slice_index_or samples.new (y * format.columns + x) 0
        ≡ output_sample format.depth (inverse_level subbands.now.level.wavelets.down
        subbands.now.level.wavelets.across subbands.now.level.w subbands.now.level.h
        (subbands_of subbands.now) x (2 * above + y)) }
    ensures before { (i : ℕ) → i < 2 * (band.now.from - above) * format.columns
        → slice_index_or samples.new i 0 ≡ slice_index_or samples.old i 0 }
{
    let Some(_after) = synth_band(subbands, band, window) else {
        return false;
    };
    let level = subbands.level;
    let rows = Rows {
        wavelet: level.wavelets.across,
        pitch: 2 * level.w,
        count: 2 * band.pairs,
        half: level.w,
    };
    let end = (2 * above + format.rows).min(2 * band.to);
    let span = Span {
        first: 2 * (band.from - band.first),
        at: 2 * (band.from - above),
        count: end - 2 * band.from,
    };
    put_rows(rows, span, window, samples, format);
    true
}

// Makes rows of the highest level, below so many pairs of them, band by band, and fills a plane of as many
// rows with their samples, which are clipped. It tells whether 32 bits were enough.
fn put_level(
    subbands: &Subbands<'_>,
    room: &mut [i32],
    above: usize,
    samples: &mut [u16],
    format: Format,
) -> bool
    requires room { 2 * pairs_held subbands.now.level.wavelets.down * (2 * subbands.now.level.w)
        ≤ length room.old }
    requires depth { (1 ≤ format.depth) × (format.depth ≤ 16) }
    requires width { format.columns ≤ 2 * subbands.now.level.w }
    requires height { 2 * above + format.rows ≤ 2 * subbands.now.level.h }
    requires samples { length samples.old ≡ format.rows * format.columns }
    ensures { result ≡ true → (x y : ℕ) → x < format.columns → y < format.rows
        → slice_index_or samples.new (y * format.columns + x) 0
        ≡ output_sample format.depth (inverse_level subbands.now.level.wavelets.down
        subbands.now.level.wavelets.across subbands.now.level.w subbands.now.level.h
        (subbands_of subbands.now) x (2 * above + y)) }
{
    let level = subbands.level;
    let mut pair = above;
    while 2 * pair < 2 * above + format.rows {
        let band = band_from(level.wavelets.down, level.h, pair);
        let window = &mut room[..2 * band.pairs * (2 * level.w)];
        if !put_band(subbands, &band, window, above, samples, format) {
            return false;
        }
        pair = band.to;
    }
    true
}

/// How many cells `inverse_output` needs to work in.
pub fn room_len(plan: &Plan, c: Component) -> usize
    ensures { result ≡ room_length (parameters_of plan.now) c }
{
    let level = highest(plan, c);
    2 * (level.h * level.w) + 2 * pairs_held(plan.wavelet) * (2 * level.w)
}

/// How many cells `inverse_output_joined` needs to work in.
pub fn joined_room_len(plan: &Plan, c: Component) -> usize
    ensures { result ≡ joined_room_length (parameters_of plan.now) c }
{
    let level = highest(plan, c);
    2 * (level.h * level.w) + 2 * (2 * pairs_held(plan.wavelet) * (2 * level.w))
}

// Makes the upper rows of the highest level beside the lower ones, by join, and fills the plane with their
// samples, as `put_level` does. Each half has a room of its own.
fn put_halves<H: Threads>(
    rt: &H,
    subbands: &Subbands<'_>,
    room: &mut [i32],
    samples: &mut [u16],
    format: Format,
) -> bool
    requires room { 2 * (2 * pairs_held subbands.now.level.wavelets.down
        * (2 * subbands.now.level.w)) ≤ length room.old }
    requires depth { (1 ≤ format.depth) × (format.depth ≤ 16) }
    requires width { format.columns ≤ 2 * subbands.now.level.w }
    requires height { format.rows ≤ 2 * subbands.now.level.h }
    requires samples { length samples.old ≡ format.rows * format.columns }
    ensures { result ≡ true → (x y : ℕ) → x < format.columns → y < format.rows
        → slice_index_or samples.new (y * format.columns + x) 0
        ≡ output_sample format.depth (inverse_level subbands.now.level.wavelets.down
        subbands.now.level.wavelets.across subbands.now.level.w subbands.now.level.h
        (subbands_of subbands.now) x y) }
{
    let held = 2 * pairs_held(subbands.level.wavelets.down) * (2 * subbands.level.w);
    let pairs = format.rows / 4;
    let upper = Format {
        columns: format.columns,
        rows: 2 * pairs,
        depth: format.depth,
    };
    let lower = Format {
        columns: format.columns,
        rows: format.rows - 2 * pairs,
        depth: format.depth,
    };
    let (front, back) = room.split_at_mut(held);
    let (top, bottom) = samples.split_at_mut(2 * pairs * format.columns);
    let (first, second) = join_mut(
        rt,
        &mut || put_level(subbands, front, 0, top, upper),
        &mut || put_level(subbands, back, pairs, bottom, lower),
    );
    first && second
}

// Which of two lists has the samples below a level, where each level goes from one to the other.
fn held<'a>(level: u8, first: &'a [i32], second: &'a [i32]) -> &'a [i32]
    ensures { result.now ≡ held level first.now second.now }
{
    if level % 2 == 0 { first } else { second }
}

/// The samples of a component's plane from its coefficients, in 32 bits (ST 2042-1, inverse wavelet transform
/// and picture output): without the padding, clipped, and with half of their range added. The coefficients
/// stand row by row in nested subbands of the padded size, and are only read. The room is to work in, and
/// what is in it is of no use before or afterwards. It answers whether 32 bits were enough; where they
/// weren't, the samples are of no use either.
pub fn inverse_output(
    plan: &Plan,
    c: Component,
    nested: &[i32],
    room: &mut [i32],
    samples: &mut [u16],
    format: Format,
) -> bool
    requires nested { padded_height (parameters_of plan.now) c
        * padded_width (parameters_of plan.now) c ≤ length nested.now }
    requires room { room_length (parameters_of plan.now) c ≤ length room.old }
    requires columns { format.columns ≡ plane_width plan.now.shape c }
    requires rows { format.rows ≡ plane_height plan.now.shape c }
    requires depth { format.depth ≡ plane_depth plan.now.shape c }
    requires range { (1 ≤ format.columns) × (1 ≤ format.rows)
        × (1 ≤ format.depth) × (format.depth ≤ 16) }
    requires samples { length samples.old ≡ format.rows * format.columns }
    ensures { result ≡ true → (x y : ℕ) → x < format.columns → y < format.rows
        → slice_index_or samples.new (y * format.columns + x) 0
        ≡ output_sample format.depth (inverse_transform (parameters_of plan.now) c
        (plane_of (padded_width (parameters_of plan.now) c) nested.now) x y) }
{
    let level = highest(plan, c);
    let count = level.h * level.w;
    let (low, rest) = room.split_at_mut(count);
    let (next, band) = rest.split_at_mut(count);
    if !merge_below(plan, c, nested, low, next, band) {
        return false;
    }
    let subbands = Subbands {
        level,
        low: held(plan.depth - 1, low, next),
        nested,
    };
    put_level(&subbands, band, 0, samples, format)
}

/// The same, with the highest level in two halves that are made side by side, by join. The room is larger,
/// and is there before they begin.
pub fn inverse_output_joined<H: Threads>(
    rt: &H,
    plan: &Plan,
    c: Component,
    nested: &[i32],
    room: &mut [i32],
    samples: &mut [u16],
    format: Format,
) -> bool
    requires nested { padded_height (parameters_of plan.now) c
        * padded_width (parameters_of plan.now) c ≤ length nested.now }
    requires room { joined_room_length (parameters_of plan.now) c ≤ length room.old }
    requires columns { format.columns ≡ plane_width plan.now.shape c }
    requires rows { format.rows ≡ plane_height plan.now.shape c }
    requires depth { format.depth ≡ plane_depth plan.now.shape c }
    requires range { (1 ≤ format.columns) × (1 ≤ format.rows)
        × (1 ≤ format.depth) × (format.depth ≤ 16) }
    requires samples { length samples.old ≡ format.rows * format.columns }
    ensures { result ≡ true → (x y : ℕ) → x < format.columns → y < format.rows
        → slice_index_or samples.new (y * format.columns + x) 0
        ≡ output_sample format.depth (inverse_transform (parameters_of plan.now) c
        (plane_of (padded_width (parameters_of plan.now) c) nested.now) x y) }
{
    let level = highest(plan, c);
    let count = level.h * level.w;
    let (low, rest) = room.split_at_mut(count);
    let (next, bands) = rest.split_at_mut(count);
    if !merge_below(plan, c, nested, low, next, bands) {
        return false;
    }
    let subbands = Subbands {
        level,
        low: held(plan.depth - 1, low, next),
        nested,
    };
    put_halves(rt, &subbands, bands, samples, format)
}
