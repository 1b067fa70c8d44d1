ghost use Rattle.std.specs.Prelude.{◌≡◌, ◌+◌, ◌-◌, ◌*◌, ◌^◌, ◌<◌, ◌≤◌, ℕ, length};
ghost use Rattle.vc_types.specs.Lifting.{line_of};
ghost use Rattle.vc_lift.specs.Reach.{HoldsPairs};
ghost use Rattle.vc_wave.specs.Parts.{pairs_held};
ghost use Rattle.vc_wave.specs.Remade.{parted_in_turn};
ghost use Rattle.vc_wave.specs.Samples.{padded_sample};

use crate::bands::{band_from, pairs_held, put_cells};
use crate::extents::Level;
use crate::narrow_analysis::part_columns;
use crate::parts::{Band, Pairs};
use crate::plane_rows::part_plane_rows;
use crate::source::Source;
use std::thread::{Threads, join_mut};

/// How many cells are needed to take pairs of a level's rows apart, band by band.
pub(crate) fn parting_room(level: Level) -> usize
    requires { level.w ≤ 4096 }
    ensures { result ≡ 2 * pairs_held level.wavelets.down * (2 * level.w) }
{
    2 * pairs_held(level.wavelets.down) * (2 * level.w)
}

// Takes a band of the highest level apart, in a window that has the rows that are gathered for it: as many of
// its rows as are wanted. They stand in turn, the low and the high ones.
fn part_band(source: &Source<'_>, band: &Band, window: &mut [i32])
    requires holds { HoldsPairs source.now.level.wavelets.down source.now.level.h
        band.now.from band.now.to band.now.first band.now.pairs }
    requires window { length window.old ≡ 2 * band.now.pairs * (2 * source.now.level.w) }
    ensures { (x k : ℕ) → x < 2 * source.now.level.w → 2 * band.now.from ≤ 2 * band.now.first + k
        → 2 * band.now.first + k < 2 * band.now.to
        → line_of window.new (k * (2 * source.now.level.w) + x)
        ≡ parted_in_turn source.now.level.wavelets.down source.now.level.w source.now.level.h
        (padded_sample source.now.plane.now source.now.depth) x (2 * band.now.first + k) }
{
    let level = source.level;
    part_plane_rows(source, 2 * band.first, 2 * band.pairs, window);
    let rows = Level {
        wavelets: level.wavelets,
        pitch: 2 * level.w,
        w: level.w,
        h: band.pairs,
    };
    part_columns(rows, window);
}

// Takes a band of the highest level apart, and leaves its rows, as far as they are wanted, in a list of all
// that are wanted, row by row. The room is to work in.
fn keep_band(source: &Source<'_>, band: &Band, wanted: Pairs, room: &mut [i32], out: &mut [i32])
    requires holds { HoldsPairs source.now.level.wavelets.down source.now.level.h
        band.now.from band.now.to band.now.first band.now.pairs }
    requires few { band.now.pairs ≤ pairs_held source.now.level.wavelets.down }
    requires order { (wanted.from ≤ band.now.from) × (band.now.from < band.now.to)
        × (band.now.from < wanted.to) × (wanted.to ≤ source.now.level.h) }
    requires room { 2 * pairs_held source.now.level.wavelets.down * (2 * source.now.level.w)
        ≤ length room.old }
    requires out { length out.old ≡ 2 * (wanted.to - wanted.from) * (2 * source.now.level.w) }
    ensures made { (x y : ℕ) → x < 2 * source.now.level.w → 2 * (band.now.from - wanted.from) ≤ y
        → y < 2 * (band.now.to - wanted.from) → y < 2 * (wanted.to - wanted.from)
        → line_of out.new (y * (2 * source.now.level.w) + x)
        ≡ parted_in_turn source.now.level.wavelets.down source.now.level.w source.now.level.h
        (padded_sample source.now.plane.now source.now.depth) x (2 * wanted.from + y) }
    ensures before { (i : ℕ) → i < 2 * (band.now.from - wanted.from) * (2 * source.now.level.w)
        → line_of out.new i ≡ line_of out.old i }
{
    let columns = 2 * source.level.w;
    let window = &mut room[..2 * band.pairs * columns];
    part_band(source, band, window);
    let end = band.to.min(wanted.to);
    put_cells(
        out,
        2 * (band.from - wanted.from) * columns,
        window,
        2 * (band.from - band.first) * columns,
        2 * (end - band.from) * columns,
    );
}

/// Takes pairs of rows of the highest level apart, band by band, and leaves them row by row in a list. They
/// stand in turn, the low and the high ones. The room is to work in.
pub(crate) fn part_pairs(source: &Source<'_>, wanted: Pairs, room: &mut [i32], out: &mut [i32])
    requires wanted { (wanted.from ≤ wanted.to) × (wanted.to ≤ source.now.level.h) }
    requires room { 2 * pairs_held source.now.level.wavelets.down * (2 * source.now.level.w)
        ≤ length room.old }
    requires out { length out.old ≡ 2 * (wanted.to - wanted.from) * (2 * source.now.level.w) }
    ensures { (x y : ℕ) → x < 2 * source.now.level.w → y < 2 * (wanted.to - wanted.from)
        → line_of out.new (y * (2 * source.now.level.w) + x)
        ≡ parted_in_turn source.now.level.wavelets.down source.now.level.w source.now.level.h
        (padded_sample source.now.plane.now source.now.depth) x (2 * wanted.from + y) }
{
    let level = source.level;
    let mut pair = wanted.from;
    while pair < wanted.to {
        let band = band_from(level.wavelets.down, level.h, pair);
        keep_band(source, &band, wanted, room, out);
        pair = band.to;
    }
}

/// Takes the upper pairs of rows of the highest level apart beside the lower ones, by join, as `part_pairs`
/// does. Each half has a room of its own.
pub(crate) fn part_halves<H: Threads>(
    rt: &H,
    source: &Source<'_>,
    room: &mut [i32],
    out: &mut [i32],
)
    requires small { source.now.level.w ≤ 4096 }
    requires room { 2 * (2 * pairs_held source.now.level.wavelets.down * (2 * source.now.level.w))
        ≤ length room.old }
    requires out { length out.old ≡ 2 * source.now.level.h * (2 * source.now.level.w) }
    ensures { (x y : ℕ) → x < 2 * source.now.level.w → y < 2 * source.now.level.h
        → line_of out.new (y * (2 * source.now.level.w) + x)
        ≡ parted_in_turn source.now.level.wavelets.down source.now.level.w source.now.level.h
        (padded_sample source.now.plane.now source.now.depth) x y }
{
    let level = source.level;
    let middle = level.h / 2;
    let upper = Pairs {
        from: 0,
        to: middle,
    };
    let lower = Pairs {
        from: middle,
        to: level.h,
    };
    let (front, back) = room.split_at_mut(parting_room(level));
    let (top, bottom) = out.split_at_mut(2 * middle * (2 * level.w));
    join_mut(
        rt,
        &mut || part_pairs(source, upper, front, top),
        &mut || part_pairs(source, lower, back, bottom),
    );
}
