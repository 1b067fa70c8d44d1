ghost use Rattle.std.specs.Prelude.{◌≡◌, ◌+◌, ◌-◌, ◌*◌, ◌^◌, ◌<◌, ◌≤◌, ◌⊎◌, ℕ, IfSome, length, unsigned_abs};
ghost use Rattle.vc_types.specs.Lifting.{line_of};
ghost use Rattle.vc_lift.specs.Reach.{HoldsPairs};
ghost use Rattle.vc_wave.specs.NarrowBounds.{AreWithin, CarriesTo, rows_bound};
ghost use Rattle.vc_wave.specs.Parts.{subbands_of, pairs_held};
ghost use Rattle.vc_wave.specs.Planes.{plane_of};
ghost use Rattle.vc_wave.specs.Remade.{half_place, merged};

use crate::bounds::rows_reach;
use crate::extents::Level;
use crate::narrow::merge_columns;
use crate::parts::{Band, Subbands};
use vc_lift::{narrow_bound, reach_of};

// So many pairs of rows are made together that they stay in the cache from one step to the next, with those
// that are gathered for them.
const PAIRS: usize = 16;

/// How many pairs of rows are gathered at most for those that are made together.
pub(crate) fn pairs_held(wavelet: u8) -> usize
    requires { wavelet ≤ 6 }
    ensures value { result ≡ pairs_held wavelet }
    ensures small { result ≤ 32 }
{
    let reach = reach_of(wavelet);
    PAIRS + reach.back + reach.ahead
}

/// The pairs of a level's rows that are made together, from one of its h pairs on.
pub(crate) fn band_from(wavelet: u8, h: usize, from: usize) -> Band
    requires wavelet { wavelet ≤ 6 }
    requires from { from < h }
    requires small { h < 2 ^ 60 }
    ensures from { result.from ≡ from }
    ensures to { (from < result.to) × (result.to ≤ h) }
    ensures few { result.pairs ≤ pairs_held wavelet }
    ensures holds { HoldsPairs wavelet h result.from result.to result.first result.pairs }
{
    let reach = reach_of(wavelet);
    let to = h.min(from + PAIRS);
    let first = from.saturating_sub(reach.back);
    let end = h.min(to + reach.ahead);
    Band {
        from,
        to,
        first,
        pairs: end - first,
    }
}

/// Copies so many cells, from one of them on, to those from another on.
#[inline(always)]
pub(crate) fn put_cells(cells: &mut [i32], at: usize, nested: &[i32], from: usize, width: usize)
    requires at { at + width ≤ length cells.old }
    requires from { from + width ≤ length nested.now }
    ensures on { (x : ℕ) → x < width → line_of cells.new (at + x) ≡ line_of nested.now (from + x) }
    ensures off { (i : ℕ) → (i < at) ⊎ (at + width ≤ i)
        → line_of cells.new i ≡ line_of cells.old i }
{
    let _most = put_bounded(cells, at, nested, from, width);
}

// The same, and a bound on their magnitudes.
#[inline(always)]
fn put_bounded(cells: &mut [i32], at: usize, nested: &[i32], from: usize, width: usize) -> u32
    requires at { at + width ≤ length cells.old }
    requires from { from + width ≤ length nested.now }
    ensures on { (x : ℕ) → x < width → line_of cells.new (at + x) ≡ line_of nested.now (from + x) }
    ensures off { (i : ℕ) → (i < at) ⊎ (at + width ≤ i)
        → line_of cells.new i ≡ line_of cells.old i }
    ensures small { (x : ℕ) → x < width → unsigned_abs (line_of nested.now (from + x)) ≤ result }
{
    let mut most = 0u32;
    for x in 0..width {
        let cell = nested[from + x];
        cells[at + x] = cell;
        most = most.max(cell.unsigned_abs());
    }
    most
}

// Gathers one pair of rows of a level, the low one and then the high one, and tells a bound on their cells.
#[inline(always)]
fn gather_pair(subbands: &Subbands<'_>, pair: usize, window: &mut [i32], at: usize) -> u32
    requires pair { pair < subbands.now.level.h }
    requires room { at + 4 * subbands.now.level.w ≤ length window.old }
    ensures low_small { (x : ℕ) → x < 2 * subbands.now.level.w
        → unsigned_abs (subbands_of subbands.now x pair) ≤ result }
    ensures high_small { (x : ℕ) → x < 2 * subbands.now.level.w
        → unsigned_abs (subbands_of subbands.now x (subbands.now.level.h + pair)) ≤ result }
    ensures low { (x : ℕ) → x < 2 * subbands.now.level.w
        → line_of window.new (at + x) ≡ subbands_of subbands.now x pair }
    ensures high { (x : ℕ) → x < 2 * subbands.now.level.w
        → line_of window.new (at + 2 * subbands.now.level.w + x)
        ≡ subbands_of subbands.now x (subbands.now.level.h + pair) }
    ensures off { (i : ℕ) → (i < at) ⊎ (at + 4 * subbands.now.level.w ≤ i)
        → line_of window.new i ≡ line_of window.old i }
{
    let level = subbands.level;
    let low = pair * level.w;
    let beside = pair * level.pitch + level.w;
    let below = (level.h + pair) * level.pitch;
    let first = put_bounded(window, at, subbands.low, low, level.w);
    let second = put_bounded(window, at + level.w, subbands.nested, beside, level.w);
    let third = put_bounded(
        window,
        at + 2 * level.w,
        subbands.nested,
        below,
        2 * level.w,
    );
    first.max(second).max(third)
}

// Gathers so many pairs of rows of a level, from one of them on, with the low and the high rows in turn, and
// tells a bound on their cells.
fn gather(subbands: &Subbands<'_>, first: usize, pairs: usize, window: &mut [i32]) -> u32
    requires inside { first + pairs ≤ subbands.now.level.h }
    requires window { length window.old ≡ 2 * pairs * (2 * subbands.now.level.w) }
    ensures made { (x k : ℕ) → x < 2 * subbands.now.level.w → k < 2 * pairs
        → plane_of (2 * subbands.now.level.w) window.new x k
        ≡ subbands_of subbands.now x (half_place subbands.now.level.h (2 * first + k)) }
    ensures within { AreWithin result window.new }
{
    let mut most = 0u32;
    for n in 0..pairs {
        let seen = gather_pair(subbands, first + n, window, 2 * n * (2 * subbands.level.w));
        most = most.max(seen);
    }
    most
}

/// Gathers a band of a level and synthesises its columns (ST 2042-1, vertical synthesis), as many of its rows
/// as are wanted. It tells a bound on the rows once they are synthesised too; none where 32 bits may not be
/// enough.
pub(crate) fn synth_band(subbands: &Subbands<'_>, band: &Band, window: &mut [i32]) -> Option<u64>
    requires holds { HoldsPairs subbands.now.level.wavelets.down subbands.now.level.h
        band.now.from band.now.to band.now.first band.now.pairs }
    requires window { length window.old ≡ 2 * band.now.pairs * (2 * subbands.now.level.w) }
    ensures made { IfSome result (λ after. (x k : ℕ) → x < 2 * subbands.now.level.w
        → 2 * band.now.from ≤ 2 * band.now.first + k → 2 * band.now.first + k < 2 * band.now.to
        → plane_of (2 * subbands.now.level.w) window.new x k
        ≡ merged subbands.now.level.wavelets.down subbands.now.level.h
        (λ j. subbands_of subbands.now x j) (2 * band.now.first + k)) }
    ensures bound { IfSome result
        (λ after. CarriesTo (rows_bound subbands.now.level.wavelets.across) window.new after) }
{
    let most = u64::from(gather(subbands, band.first, band.pairs, window));
    if most >= 1 << 31 {
        return None;
    }
    let level = subbands.level;
    let made = narrow_bound(level.wavelets.down, most)?;
    let rows = Level {
        wavelets: level.wavelets,
        pitch: 2 * level.w,
        w: level.w,
        h: band.pairs,
    };
    merge_columns(rows, window);
    let after = rows_reach(level.wavelets.across, window, made)?;
    Some(after)
}
