ghost use Rattle.std.specs.Prelude.{◌≡◌, ◌+◌, ◌-◌, ◌*◌, ◌^◌, ◌<◌, ◌≤◌, length, unsigned_abs, All, false};
ghost use Rattle.vc_types.specs.Transforms.{on_columns, on_rows, inverse_level, forward_level, levels_across};
ghost use Rattle.vc_types.specs.Transforms.{inverse_levels, forward_levels};
ghost use Rattle.vc_types.specs.Wavelets.{is_shifted};
ghost use Rattle.vc_wave.specs.Planes.{AreBelow, HasRoom, plane_of};
ghost use Rattle.vc_wave.specs.Remade.{remade};

use crate::extents::{Level, Levels, Rows};
use crate::lines::{Lines, remake};
use crate::pass::{Direction, Pass};
use crate::shift::is_shifted;
use crate::sides::side_at;

/// So many columns are worked on side by side: whole cache lines of a row are read, and tall columns still
/// fit the cache.
pub(crate) const BLOCK: usize = 32;

// Puts a level's columns together, or takes them apart.
fn remake_columns(direction: Direction, level: Level, cells: &mut [i128], scratch: &mut [i128])
    requires room { HasRoom (2 * level.w) (2 * level.h) level.pitch (length cells.old) BLOCK
        (length scratch.old) }
    requires small { AreBelow (2 ^ 107) (plane_of level.pitch cells.old) }
    ensures { plane_of level.pitch cells.new
        ≡ on_columns (remade direction level.wavelets.down false level.h) (2 * level.w)
        (plane_of level.pitch cells.old) }
{
    let pass = Pass {
        direction,
        wavelet: level.wavelets.down,
        shifted: false,
    };
    let mut start = 0;
    while start < 2 * level.w {
        let width = BLOCK.min(2 * level.w - start);
        let lines = Lines {
            start,
            step: level.pitch,
            width,
            half: level.h,
        };
        let block = &mut scratch[..2 * level.h * width];
        remake(pass, cells, &lines, block);
        start += width;
    }
}

// Puts rows together, or takes them apart.
fn remake_rows(direction: Direction, rows: Rows, cells: &mut [i128], scratch: &mut [i128])
    requires room { HasRoom (2 * rows.half) rows.count rows.pitch (length cells.old) BLOCK
        (length scratch.old) }
    requires small { AreBelow (2 ^ 107) (plane_of rows.pitch cells.old) }
    ensures { plane_of rows.pitch cells.new
        ≡ on_rows (remade direction rows.wavelet (is_shifted rows.wavelet) rows.half) rows.count
        (plane_of rows.pitch cells.old) }
{
    let shifted = is_shifted(rows.wavelet);
    let pass = Pass {
        direction,
        wavelet: rows.wavelet,
        shifted,
    };
    for y in 0..rows.count {
        let lines = Lines {
            start: y * rows.pitch,
            step: 1,
            width: 1,
            half: rows.half,
        };
        remake(pass, cells, &lines, &mut scratch[..2 * rows.half]);
    }
}

// The inverse of one level both ways: it goes over columns and then rows.
fn merge_level(level: Level, cells: &mut [i128], scratch: &mut [i128])
    requires room { HasRoom (2 * level.w) (2 * level.h) level.pitch (length cells.old) BLOCK
        (length scratch.old) }
    requires small { AreBelow (2 ^ 100) (plane_of level.pitch cells.old) }
    ensures { plane_of level.pitch cells.new
        ≡ inverse_level level.wavelets.down level.wavelets.across level.w level.h
        (plane_of level.pitch cells.old) }
{
    remake_columns(Direction::Synthesis, level, cells, scratch);
    let rows = Rows {
        wavelet: level.wavelets.across,
        pitch: level.pitch,
        count: 2 * level.h,
        half: level.w,
    };
    remake_rows(Direction::Synthesis, rows, cells, scratch);
}

// One level of a symmetric forward transform: it goes over rows and then columns.
fn part_level(level: Level, cells: &mut [i128], scratch: &mut [i128])
    requires room { HasRoom (2 * level.w) (2 * level.h) level.pitch (length cells.old) BLOCK
        (length scratch.old) }
    requires small { AreBelow (2 ^ 100) (plane_of level.pitch cells.old) }
    ensures { plane_of level.pitch cells.new
        ≡ forward_level level.wavelets.down level.w level.h (plane_of level.pitch cells.old) }
{
    let rows = Rows {
        wavelet: level.wavelets.down,
        pitch: level.pitch,
        count: 2 * level.h,
        half: level.w,
    };
    remake_rows(Direction::Analysis, rows, cells, scratch);
    remake_columns(Direction::Analysis, level, cells, scratch);
}

/// The inverse of so many levels across alone, the lowest of which has these rows.
#[tactic(auto, using(crate::proofs::Levels::level_fits, crate::proofs::Levels::level_some))]
pub(crate) fn merge_across(rows: Rows, levels: u8, cells: &mut [i128], scratch: &mut [i128])
    requires levels { levels ≤ 5 }
    requires narrow { rows.half * 2 ^ levels < 2 ^ 60 }
    requires room { HasRoom (rows.half * 2 ^ levels) rows.count rows.pitch (length cells.old) BLOCK
        (length scratch.old) }
    requires small { AreBelow (2 ^ 60) (plane_of rows.pitch cells.old) }
    ensures { plane_of rows.pitch cells.new
        ≡ levels_across rows.wavelet levels rows.half rows.count (plane_of rows.pitch cells.old) }
{
    for level in 0..levels {
        let half = side_at(rows.half, level);
        let here = Rows {
            wavelet: rows.wavelet,
            pitch: rows.pitch,
            count: rows.count,
            half,
        };
        remake_rows(Direction::Synthesis, here, cells, scratch);
    }
}

/// The inverse of levels both ways.
#[tactic(auto, using(crate::proofs::Levels::level_fits, crate::proofs::Levels::level_some))]
pub(crate) fn merge_levels(levels: Levels, cells: &mut [i128], scratch: &mut [i128])
    requires room { HasRoom (levels.nesting.w * 2 ^ levels.nesting.levels)
        (levels.nesting.h * 2 ^ levels.nesting.levels) levels.pitch (length cells.old) BLOCK
        (length scratch.old) }
    requires small { AreBelow (2 ^ (100 - 8 * levels.nesting.levels)) (plane_of levels.pitch cells.old) }
    ensures { plane_of levels.pitch cells.new
        ≡ inverse_levels levels.wavelets.down levels.wavelets.across levels.nesting.levels
        levels.nesting.w levels.nesting.h (plane_of levels.pitch cells.old) }
{
    for n in 0..levels.nesting.levels {
        merge_level(levels.level(n, levels.pitch), cells, scratch);
    }
}

/// The levels of a symmetric forward transform.
#[tactic(auto, using(crate::proofs::Levels::level_fits, crate::proofs::Levels::level_some))]
pub(crate) fn part_levels(levels: Levels, cells: &mut [i128], scratch: &mut [i128])
    requires room { HasRoom (levels.nesting.w * 2 ^ levels.nesting.levels)
        (levels.nesting.h * 2 ^ levels.nesting.levels) levels.pitch (length cells.old) BLOCK
        (length scratch.old) }
    requires small { AreBelow (2 ^ 16) (plane_of levels.pitch cells.old) }
    ensures { plane_of levels.pitch cells.new
        ≡ forward_levels levels.wavelets.down levels.nesting.levels levels.nesting.w
        levels.nesting.h (plane_of levels.pitch cells.old) }
{
    for n in 0..levels.nesting.levels {
        let left = levels.nesting.levels - 1 - n;
        part_level(levels.level(left, levels.pitch), cells, scratch);
    }
}
