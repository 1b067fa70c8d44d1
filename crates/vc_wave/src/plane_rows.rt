ghost use Rattle.std.specs.Prelude.{◌≡◌, ◌+◌, ◌*◌, ◌^◌, ◌<◌, ◌≤◌, ◌⊎◌, ℕ, if◌then◌else◌, length, pos, ◌-ℤ◌};
ghost use Rattle.vc_types.specs.Lifting.{line_of};
ghost use Rattle.vc_types.specs.Transforms.{doubled};
ghost use Rattle.vc_types.specs.Wavelets.{is_shifted};
ghost use Rattle.vc_wave.specs.declared.pass.Direction.TheVariants.{Analysis};
ghost use Rattle.vc_wave.specs.Remade.{halves_apart, on_samples, remade};
ghost use Rattle.vc_wave.specs.Samples.{centred_row, padded_sample};

use crate::narrow_analysis::{half_range, readied};
use crate::shift::is_shifted;
use crate::source::Source;
use vc_lift::{Halves, analyse_narrow};

// What is done to samples before they are analysed: half of their range is taken away, and what is left is
// doubled, if that is wanted.
#[derive(Clone, Copy)]
struct Readying {
    middle: u16,
    shifted: bool,
}

// A sample less half of the range.
#[inline(always)]
fn centred(sample: u16, middle: u16) -> i32
    ensures { result ≡ (pos sample -ℤ pos middle) }
{
    i32::from(sample) - i32::from(middle)
}

#[inline(always)]
fn ready(sample: u16, how: Readying) -> i32
    ensures { result ≡ (if how.shifted then doubled (pos sample -ℤ pos how.middle)
        else (pos sample -ℤ pos how.middle)) }
{
    readied(centred(sample, how.middle), how.shifted)
}

// Readies the samples of a row, and puts the even and the odd ones apart into two halves; past the last
// sample, that one is repeated.
#[inline(always)]
fn ready_row(cells: &mut [i32], at: usize, half: usize, samples: &[u16], how: Readying)
    requires some { 0 < length samples.now }
    requires few { length samples.now ≤ 2 * half }
    requires half { half < 2 ^ 60 }
    requires inside { at + 2 * half ≤ length cells.old }
    ensures on { (k : ℕ) → k < 2 * half → line_of cells.new (at + k)
        ≡ halves_apart half (on_samples doubled how.shifted (2 * half)
        (centred_row samples.now how.middle)) k }
    ensures off { (i : ℕ) → (i < at) ⊎ (at + 2 * half ≤ i)
        → line_of cells.new i ≡ line_of cells.old i }
{
    let last = samples.len() - 1;
    let pairs = samples.len() / 2;
    for k in 0..pairs {
        cells[at + k] = ready(samples[2 * k], how);
        cells[at + half + k] = ready(samples[2 * k + 1], how);
    }
    for k in pairs..half {
        cells[at + k] = ready(samples[(2 * k).min(last)], how);
        cells[at + half + k] = ready(samples[last], how);
    }
}

// Takes a row of a plane apart into two halves, as the highest level does, from a place of the window on;
// past the last row, that one.
fn part_plane_row(source: &Source<'_>, y: usize, window: &mut [i32], start: usize)
    requires inside { start + 2 * source.now.level.w ≤ length window.old }
    ensures on { (x : ℕ) → x < 2 * source.now.level.w → line_of window.new (start + x)
        ≡ remade Analysis source.now.level.wavelets.down (is_shifted source.now.level.wavelets.down)
        source.now.level.w (λ j. padded_sample source.now.plane.now source.now.depth j y) x }
    ensures off { (i : ℕ) → (i < start) ⊎ (start + 2 * source.now.level.w ≤ i)
        → line_of window.new i ≡ line_of window.old i }
{
    let plane = source.plane;
    let level = source.level;
    let (width, height) = (plane.width() as usize, plane.height() as usize);
    let from = y.min(height - 1) * width;
    let all = plane.samples();
    let how = Readying {
        middle: half_range(source.depth),
        shifted: is_shifted(level.wavelets.down),
    };
    ready_row(window, start, level.w, &all[from..from + width], how);
    let halves = Halves {
        even: start,
        odd: start + level.w,
        pitch: 1,
        half: level.w,
    };
    analyse_narrow(level.wavelets.down, window, &halves, 1);
}

/// Takes so many rows of a plane apart, from one of them on, as the highest level does.
pub(crate) fn part_plane_rows(source: &Source<'_>, first: usize, rows: usize, window: &mut [i32])
    requires small { first + rows < 2 ^ 62 }
    requires window { length window.old ≡ rows * (2 * source.now.level.w) }
    ensures { (x y : ℕ) → x < 2 * source.now.level.w → y < rows
        → line_of window.new (y * (2 * source.now.level.w) + x)
        ≡ remade Analysis source.now.level.wavelets.down (is_shifted source.now.level.wavelets.down)
        source.now.level.w
        (λ j. padded_sample source.now.plane.now source.now.depth j (first + y)) x }
{
    for y in 0..rows {
        part_plane_row(source, first + y, window, y * (2 * source.level.w));
    }
}
