ghost use Rattle.std.specs.Prelude.{◌≡◌, ◌<◌, IfOk, Some, None, length};
ghost use Rattle.vc_types.specs.Planes.{planes_in, planes_of};
ghost use Rattle.vc_types.specs.SameValues.{same_parameters};
ghost use Rattle.vc_types.specs.SliceCoefficients.{AreSliceCoefficients};
ghost use Rattle.vc_types.specs.Slices.{slice_coefficients, slice_length};
ghost use Rattle.vc_types.specs.Subbands.{slice_count};
ghost use Rattle.vc_types.specs.TransformParameters.{parameters_of};
ghost use Rattle.picture_build.specs.Kept.{no_slices, slice_that_came, with_slice, slices_of};
ghost use Rattle.picture_build.specs.Kept.{HasAllSlices};
ghost use Rattle.picture_build.specs.Puts.{Puts};
ghost use Rattle.picture_build.specs.Waiting.{MayAllCome, with_runs};

use crate::builder::NotPut;
use crate::cells::CoefficientCells;
use crate::filling::{fill_slice, place_runs, place_runs_joined, put_blocks};
use crate::finishing::{PictureCells, Rooms, planes_at_once, planes_in_turn};
use crate::marking::mark_runs;
use crate::sizes::{cell_count, most_coefficients};
use crate::touching::touch_row;
use crate::waiting::WaitingRun;
use std::alloc::Global;
use std::marker::Model;
use std::thread::Threads;
use vc_slice::{SliceCoeffs, TooWide, parts_of};
use vc_types::{Component, NoMemory, Plan, Plane, Unsound};

/// The slices of a picture that are in their places, which are the cells of its three components. It is seen
/// as a `PictureBuilder` is.
#[derive(Drop)]
pub(crate) struct PlacedSlices {
    alloc: Global,
    plan: Plan,
    // Of each slice whether it is in its places.
    came: Vec<bool>,
    y: CoefficientCells,
    c1: CoefficientCells,
    c2: CoefficientCells,
    // The coefficients of a component of the slice that is coming.
    numbers: Vec<i32>,
    // Room for the transform of each component, kept from picture to picture.
    rooms: Rooms,
    // What was read where slices come next. It is kept so that it is read.
    touched: i32,
}

impl Model for PlacedSlices {
    ghost use Rattle.std.specs.Prelude.{◌≡◌, ◌+◌, ◌*◌, ◌<◌, ◌≤◌, ℕ, length, true, false, slice_index_or};
    ghost use Rattle.vc_types.specs.declared.video.Component.{Component};
    ghost use Rattle.vc_types.specs.declared.video.Component.TheVariants.{Y, C1, C2};
    ghost use Rattle.vc_types.specs.TransformParameters.{parameters_of};
    ghost use Rattle.picture_build.specs.Kept.{PartPicture, kept_slices, IsKept};

    ghost Value = { PartPicture };

    ghost view = { λ s. record {
      parameters = parameters_of s.plan;
      slices = kept_slices (parameters_of s.plan) s.came.items s.y s.c1 s.c2;
    } };

    ghost invariant = { λ s. IsKept (parameters_of s.plan) s.came.items s.y s.c1 s.c2
        (length s.numbers.items) };
}

impl PlacedSlices {
    /// No slice is in its places.
    pub(crate) fn new(alloc: Global, plan: Plan) -> Result<PlacedSlices, NoMemory>
        ensures value { IfOk result (λ placed. placed ≡ no_slices (parameters_of plan)) }
    {
        let most = most_coefficients(&plan) as usize + 8;
        let came = vec![in alloc; false; (plan.slices_x * plan.slices_y) as usize]?;
        let y = CoefficientCells::new(alloc, cell_count(&plan, Component::Y))?;
        let c1 = CoefficientCells::new(alloc, cell_count(&plan, Component::C1))?;
        let c2 = CoefficientCells::new(alloc, cell_count(&plan, Component::C2))?;
        let numbers = vec![in alloc; 0i32; most]?;
        Ok(PlacedSlices {
            alloc,
            plan,
            came,
            y,
            c1,
            c2,
            numbers,
            rooms: Rooms::new(alloc),
            touched: 0,
        })
    }

    /// Begins another picture of the same plan, in the same memory.
    pub(crate) fn restart(&mut self)
        ensures value { self.new ≡ no_slices self.old.parameters }
    {
        self.came.fill(false);
        self.y.restart();
        self.c1.restart();
        self.c2.restart();
    }

    pub(crate) fn has_plan(&self, plan: &Plan) -> bool
        ensures { result ≡ same_parameters self.now.parameters (parameters_of plan.now) }
    {
        self.plan.is_same(plan)
    }

    /// Puts a slice that isn't there into its places.
    pub(crate) fn fill(&mut self, index: u32, c: &SliceCoeffs)
        requires in_plan { index < slice_count self.old.parameters }
        requires once { slice_that_came self.old index ≡ None }
        requires whole { AreSliceCoefficients self.old.parameters index c.now }
        ensures value { self.new ≡ with_slice self.old index c.now }
    {
        fill_slice(
            &self.plan,
            index,
            c,
            &mut self.numbers,
            &mut self.y,
            &mut self.c1,
            &mut self.c2,
        );
        self.came[index as usize] = true;
    }

    /// Puts runs into their places, one component after another.
    pub(crate) fn place(&mut self, runs: &[WaitingRun])
        requires { MayAllCome self.old runs.now }
        ensures value { self.new ≡ with_runs self.old runs.now }
    {
        place_runs(&self.plan, Component::Y, runs, &mut self.y);
        place_runs(&self.plan, Component::C1, runs, &mut self.c1);
        place_runs(&self.plan, Component::C2, runs, &mut self.c2);
        mark_runs(&mut self.came, runs);
    }

    /// The same, the components side by side, by join.
    pub(crate) fn place_joined<H: Threads>(&mut self, rt: &H, runs: &[WaitingRun])
        requires { MayAllCome self.old runs.now }
        ensures value { self.new ≡ with_runs self.old runs.now }
    {
        place_runs_joined(
            rt,
            &self.plan,
            runs,
            &mut self.y,
            &mut self.c1,
            &mut self.c2,
        );
        mark_runs(&mut self.came, runs);
    }

    /// Decodes a slice that isn't there straight to its places. After a refusal the picture is as before.
    pub(crate) fn put(&mut self, index: u32, bytes: &[u8]) -> Result<(), NotPut>
        requires in_plan { index < slice_count self.old.parameters }
        requires once { slice_that_came self.old index ≡ None }
        requires whole { slice_length self.old.parameters.prefix self.old.parameters.scaler
            bytes.now ≡ Some (length bytes.now) }
        ensures value { Puts (slice_coefficients self.old.parameters index bytes.now) index
            self.old self.new result }
    {
        let coded = parts_of(&self.plan, bytes);
        if coded.index > 127 {
            return Err(NotPut::Unsound(Unsound::IndexRange));
        }
        self.touched = touch_row(&self.plan, index, &self.y, &self.c1, &self.c2);
        match put_blocks(
            &self.plan,
            index,
            &coded,
            &mut self.numbers,
            &mut self.y,
            &mut self.c1,
            &mut self.c2,
        ) {
            Ok(()) => {
                self.came[index as usize] = true;
                Ok(())
            }
            Err(TooWide) => Err(NotPut::Wide),
        }
    }

    /// The planes of a picture all of whose slices are there. Another picture begins then.
    pub(crate) fn planes(&mut self) -> Result<[Plane; 3], NoMemory>
        requires whole { HasAllSlices self.old }
        ensures value { IfOk result (λ planes. planes_in planes
            ≡ planes_of self.old.parameters (slices_of self.old)) }
        ensures restarted { self.new ≡ no_slices self.old.parameters }
    {
        let cells = PictureCells {
            y: &self.y,
            c1: &self.c1,
            c2: &self.c2,
        };
        let planes = planes_in_turn(self.alloc, &self.plan, &cells, &mut self.rooms);
        self.restart();
        planes
    }

    /// The same, where the components are transformed side by side, by join, luma's highest level in two
    /// halves.
    pub(crate) fn planes_joined<H: Threads>(&mut self, rt: &H) -> Result<[Plane; 3], NoMemory>
        requires whole { HasAllSlices self.old }
        ensures value { IfOk result (λ planes. planes_in planes
            ≡ planes_of self.old.parameters (slices_of self.old)) }
        ensures restarted { self.new ≡ no_slices self.old.parameters }
    {
        let cells = PictureCells {
            y: &self.y,
            c1: &self.c1,
            c2: &self.c2,
        };
        let planes = planes_at_once(rt, self.alloc, &self.plan, &cells, &mut self.rooms);
        self.restart();
        planes
    }

    /// The memory of planes that are done with serves the next ones.
    pub(crate) fn keep_planes(&mut self, planes: [Plane; 3])
        ensures unchanged { self.new ≡ self.old }
    {
        self.rooms.keep(planes);
    }
}
