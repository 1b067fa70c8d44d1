ghost use Rattle.std.specs.Prelude.{◌≡◌, ◌-◌, ◌*◌, ◌^◌, ◌<◌, ◌≤◌, ℕ, All, IsTrue, length};
ghost use Rattle.vc_types.specs.Rasters.{sample_at};
ghost use Rattle.vc_types.specs.Subbands.{plane_width, plane_height, plane_depth, padded_width};
ghost use Rattle.vc_types.specs.Subbands.{padded_height};
ghost use Rattle.vc_types.specs.TransformParameters.{is_symmetric, parameters_of};
ghost use Rattle.vc_types.specs.Transforms.{forward_transform};
ghost use Rattle.vc_wave.specs.ForwardBounds.{forward_fits_narrow, parted_level_bound};
ghost use Rattle.vc_wave.specs.Highest.{IsHighestParted};
ghost use Rattle.vc_wave.specs.Layout.{nested_in};
ghost use Rattle.vc_wave.specs.NarrowBounds.{HasBound, bound_over};
ghost use Rattle.vc_wave.specs.Parts.{forward_room_length, joined_forward_room_length};

use crate::bands::pairs_held;
use crate::extents::{highest, levels_of};
use crate::narrow_analysis::part_levels;
use crate::parting::{part_halves, part_pairs, parting_room};
use crate::parts::Pairs;
use crate::source::source_of;
use std::thread::Threads;
use vc_geometry::padded;
use vc_types::{Component, Plan, Plane};

/// How many cells `forward_narrow` needs to work in.
pub fn forward_room_len(plan: &Plan, c: Component) -> usize
    ensures { result ≡ forward_room_length (parameters_of plan.now) c }
{
    parting_room(highest(plan, c))
}

/// How many cells `forward_narrow_joined` needs to work in.
pub fn joined_forward_room_len(plan: &Plan, c: Component) -> usize
    ensures { result ≡ joined_forward_room_length (parameters_of plan.now) c }
{
    let level = highest(plan, c);
    2 * (2 * pairs_held(plan.wavelet) * (2 * level.w))
}

// Takes the highest level of a plane apart.
fn part_highest(plan: &Plan, c: Component, plane: &Plane, cells: &mut [i32], room: &mut [i32])
    requires width { plane.now.width ≡ plane_width plan.now.shape c }
    requires height { plane.now.height ≡ plane_height plan.now.shape c }
    requires samples { All (λ s. s < 2 ^ plane_depth plan.now.shape c) plane.now.samples }
    requires narrow { IsTrue (forward_fits_narrow (parameters_of plan.now)
        (2 ^ (plane_depth plan.now.shape c - 1))) }
    requires cells { length cells.old ≡ padded_height (parameters_of plan.now) c
        * padded_width (parameters_of plan.now) c }
    requires room { forward_room_length (parameters_of plan.now) c ≤ length room.old }
    ensures made { IsHighestParted (parameters_of plan.now) c (sample_at plane.now) cells.new }
    ensures bound { HasBound (bound_over (parted_level_bound plan.now.wavelet) (plan.now.depth - 1))
        cells.new }
{
    let source = source_of(plan, c, plane);
    let all = Pairs {
        from: 0,
        to: source.level.h,
    };
    part_pairs(&source, all, room, cells);
}

// The same, the upper half beside the lower one.
fn part_highest_joined<H: Threads>(
    rt: &H,
    plan: &Plan,
    c: Component,
    plane: &Plane,
    cells: &mut [i32],
    room: &mut [i32],
)
    requires width { plane.now.width ≡ plane_width plan.now.shape c }
    requires height { plane.now.height ≡ plane_height plan.now.shape c }
    requires samples { All (λ s. s < 2 ^ plane_depth plan.now.shape c) plane.now.samples }
    requires narrow { IsTrue (forward_fits_narrow (parameters_of plan.now)
        (2 ^ (plane_depth plan.now.shape c - 1))) }
    requires cells { length cells.old ≡ padded_height (parameters_of plan.now) c
        * padded_width (parameters_of plan.now) c }
    requires room { joined_forward_room_length (parameters_of plan.now) c ≤ length room.old }
    ensures made { IsHighestParted (parameters_of plan.now) c (sample_at plane.now) cells.new }
    ensures bound { HasBound (bound_over (parted_level_bound plan.now.wavelet) (plan.now.depth - 1))
        cells.new }
{
    let source = source_of(plan, c, plane);
    part_halves(rt, &source, room, cells);
}

// Takes the levels of a component below the highest apart, once the highest is. The line is room to work in.
fn part_below(plan: &Plan, c: Component, cells: &mut [i32], line: &mut [i32])
    requires symmetric { IsTrue (is_symmetric (parameters_of plan.now)) }
    requires cells { length cells.old ≡ padded_height (parameters_of plan.now) c
        * padded_width (parameters_of plan.now) c }
    requires line { padded_width (parameters_of plan.now) c ≤ length line.old }
    requires bound { HasBound (bound_over (parted_level_bound plan.now.wavelet) (plan.now.depth - 1))
        cells.old }
    ensures { (samples : ℕ → ℕ → ℕ) → IsHighestParted (parameters_of plan.now) c samples cells.old
        → (x y : ℕ) → x < padded_width (parameters_of plan.now) c
        → y < padded_height (parameters_of plan.now) c
        → nested_in (parameters_of plan.now) c (padded_width (parameters_of plan.now) c) cells.new
        x y ≡ forward_transform (parameters_of plan.now) c samples x y }
{
    let (width, _) = padded(plan, c);
    part_levels(levels_of(plan, c, width as usize), cells, line);
}

/// The coefficients of a component's plane by a symmetric transform, in 32 bits, as `forward` makes them;
/// whether they fit is what `forward_fits_narrow` says. The plane's last column and row are repeated, half of
/// the samples' range is taken away, and the forward transform is applied. The coefficients stand in rows of
/// the padded width, whose rows are taken in turn as `nested_in` says; nothing of the cells as they were is
/// read. The room is to work in, and what is in it is of no use before or afterwards. It takes no memory.
pub fn forward_narrow(plan: &Plan, c: Component, plane: &Plane, cells: &mut [i32], room: &mut [i32])
    requires symmetric { IsTrue (is_symmetric (parameters_of plan.now)) }
    requires width { plane.now.width ≡ plane_width plan.now.shape c }
    requires height { plane.now.height ≡ plane_height plan.now.shape c }
    requires samples { All (λ s. s < 2 ^ plane_depth plan.now.shape c) plane.now.samples }
    requires narrow { IsTrue (forward_fits_narrow (parameters_of plan.now)
        (2 ^ (plane_depth plan.now.shape c - 1))) }
    requires cells { length cells.old ≡ padded_height (parameters_of plan.now) c
        * padded_width (parameters_of plan.now) c }
    requires room { forward_room_length (parameters_of plan.now) c ≤ length room.old }
    ensures { (x y : ℕ) → x < padded_width (parameters_of plan.now) c
        → y < padded_height (parameters_of plan.now) c
        → nested_in (parameters_of plan.now) c (padded_width (parameters_of plan.now) c) cells.new
        x y ≡ forward_transform (parameters_of plan.now) c (sample_at plane.now) x y }
{
    part_highest(plan, c, plane, cells, room);
    part_below(plan, c, cells, room);
}

/// The same, with the highest level in two halves that are made side by side, by join. The room is larger,
/// and is there before they begin.
pub fn forward_narrow_joined<H: Threads>(
    rt: &H,
    plan: &Plan,
    c: Component,
    plane: &Plane,
    cells: &mut [i32],
    room: &mut [i32],
)
    requires symmetric { IsTrue (is_symmetric (parameters_of plan.now)) }
    requires width { plane.now.width ≡ plane_width plan.now.shape c }
    requires height { plane.now.height ≡ plane_height plan.now.shape c }
    requires samples { All (λ s. s < 2 ^ plane_depth plan.now.shape c) plane.now.samples }
    requires narrow { IsTrue (forward_fits_narrow (parameters_of plan.now)
        (2 ^ (plane_depth plan.now.shape c - 1))) }
    requires cells { length cells.old ≡ padded_height (parameters_of plan.now) c
        * padded_width (parameters_of plan.now) c }
    requires room { joined_forward_room_length (parameters_of plan.now) c ≤ length room.old }
    ensures { (x y : ℕ) → x < padded_width (parameters_of plan.now) c
        → y < padded_height (parameters_of plan.now) c
        → nested_in (parameters_of plan.now) c (padded_width (parameters_of plan.now) c) cells.new
        x y ≡ forward_transform (parameters_of plan.now) c (sample_at plane.now) x y }
{
    part_highest_joined(rt, plan, c, plane, cells, room);
    part_below(plan, c, cells, room);
}
