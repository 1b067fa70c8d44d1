ghost use Rattle.std.specs.Prelude.{◌≡◌, ◌+◌, ◌<◌, ℕ, IfOk, None, Some, [], length};
ghost use Rattle.std.specs.Option.{is_some};
ghost use Rattle.vc_types.specs.Planes.{planes_in, planes_of};
ghost use Rattle.vc_types.specs.SameValues.{same_parameters};
ghost use Rattle.vc_types.specs.SliceCoefficients.{AreSliceCoefficients};
ghost use Rattle.vc_types.specs.Slices.{slice_coefficients, slice_length};
ghost use Rattle.vc_types.specs.Subbands.{slice_count};
ghost use Rattle.vc_types.specs.TransformParameters.{parameters_of};
ghost use Rattle.vc_geometry.specs.Runs.{IsRun};
ghost use Rattle.vc_slice.specs.Strips.{IsStripOf, strip_slice, strip_slices};
ghost use Rattle.picture_build.specs.Kept.{no_slices, slice_that_came, with_run, with_slice, slices_of};
ghost use Rattle.picture_build.specs.Kept.{HasAllSlices};
ghost use Rattle.picture_build.specs.Puts.{Puts};
ghost use Rattle.picture_build.specs.Waiting.{MayAllCome, with_runs};

use crate::marking::mark_run;
use crate::placed::PlacedSlices;
use crate::waiting::{WaitingRun, WaitingRuns};
use std::alloc::Global;
use std::marker::Model;
use std::slice::from_ref;
use std::thread::Threads;
use vc_slice::{SliceCoeffs, Strip};
use vc_types::{NoMemory, Plan, Plane, Unsound};

// How many runs are many: so few that their strips are still in the cache when they come to their places, and
// so many that starting three threads for them takes little of the time.
const MANY: usize = 256;

/// Why a slice wasn't put into a picture.
#[derive(Clone, Copy, Debug, PartialEq, Eq)]
pub enum NotPut {
    /// It decodes to no coefficients.
    Unsound(Unsound),
    /// It has a number with a magnitude of 2^30 or more, or may have a coefficient with one of 2^60 or more.
    /// It is to be decoded by itself, and then filled in.
    Wide,
}

/// A picture whose slices come one after another, in any order. It is seen as the transform parameters and
/// a finite map from a slice's number to its coefficients. It reserves 8 bytes a coefficient, half of which
/// stay untouched until one may not fit 32 bits, and 4 more for each coefficient that a slice may have at
/// most. A slice that comes by itself takes no more. A run waits in its strip until it comes to its places,
/// by `place_many` or once the planes are made; the memory of strips that are done with is kept for other
/// runs, and that of planes for the next picture's.
#[derive(Drop)]
pub struct PictureBuilder {
    placed: PlacedSlices,
    // Of each slice whether it came, also where its run waits.
    came: Vec<bool>,
    runs: WaitingRuns,
}

impl Model for PictureBuilder {
    ghost use Rattle.picture_build.specs.Kept.{PartPicture};
    ghost use Rattle.picture_build.specs.Waiting.{AreWaiting, with_runs};

    ghost Value = { PartPicture };

    ghost view = { λ s. with_runs s.placed s.runs };

    ghost invariant = { λ s. AreWaiting s.placed s.runs s.came.items };
}

impl PictureBuilder {
    /// A picture of which no slice came.
    pub fn new(alloc: Global, plan: Plan) -> Result<PictureBuilder, NoMemory>
        ensures value { IfOk result (λ builder. builder ≡ no_slices (parameters_of plan)) }
    {
        let came = vec![in alloc; false; (plan.slices_x * plan.slices_y) as usize]?;
        let placed = PlacedSlices::new(alloc, plan)?;
        Ok(PictureBuilder {
            placed,
            came,
            runs: WaitingRuns::new(alloc),
        })
    }

    /// Begins another picture of the same plan, in the same memory.
    pub fn restart(&mut self)
        ensures value { self.new ≡ no_slices self.old.parameters }
    {
        self.placed.restart();
        self.came.fill(false);
        self.runs.clear();
    }

    /// Whether the picture is of this plan.
    pub fn has_plan(&self, plan: &Plan) -> bool
        ensures { result ≡ same_parameters self.now.parameters (parameters_of plan.now) }
    {
        self.placed.has_plan(plan)
    }

    /// Whether the slice came.
    pub fn has(&self, index: u32) -> bool
        ensures { result ≡ is_some (slice_that_came self.now index) }
    {
        let index = index as usize;
        index < self.came.len() && self.came[index]
    }

    /// Fills in a slice that didn't come yet. It takes no memory.
    pub fn fill(&mut self, index: u32, c: &SliceCoeffs)
        requires in_plan { index < slice_count self.old.parameters }
        requires once { slice_that_came self.old index ≡ None }
        requires whole { AreSliceCoefficients self.old.parameters index c.now }
        ensures value { self.new ≡ with_slice self.old index c.now }
    {
        self.placed.fill(index, c);
        self.came[index as usize] = true;
    }

    /// Fills in the slices of a run, none of which came yet, out of its strip. The run waits; where there is
    /// no memory for that, all runs come to their places.
    pub fn fill_run(&mut self, first: u32, count: u32, strip: Strip)
        requires run { IsRun self.old.parameters first count }
        requires some { 0 < count }
        requires once { (k : ℕ) → k < count → slice_that_came self.old (first + k) ≡ None }
        requires whole { IsStripOf self.old.parameters first count strip }
        requires sound { (k : ℕ) → k < count
            → AreSliceCoefficients self.old.parameters (first + k)
            (strip_slice self.old.parameters first count strip (first + k)) }
        ensures value { self.new ≡ with_run self.old first
            (strip_slices self.old.parameters first count strip) }
    {
        mark_run(&mut self.came, first as usize, count as usize);
        let run = WaitingRun {
            first,
            count,
            strip,
        };
        let Err(run) = self.runs.push(run) else {
            return;
        };
        place_waiting(&mut self.placed, &mut self.runs);
        self.placed.place(from_ref(&run));
    }

    /// Where many runs wait, they come to their places, the components side by side, by join. Called after
    /// each run, it keeps the runs that wait few, and the memory that their strips take.
    pub fn place_many<H: Threads>(&mut self, rt: &H)
        ensures unchanged { self.new ≡ self.old }
    {
        if self.runs.runs().len() < MANY {
            return;
        }
        place_waiting_joined(rt, &mut self.placed, &mut self.runs);
    }

    /// Decodes a slice that didn't come yet (ST 2042-1, high-quality slice) straight to the places of its
    /// coefficients. After a refusal the picture is as before.
    pub fn put(&mut self, index: u32, bytes: &[u8]) -> Result<(), NotPut>
        requires in_plan { index < slice_count self.old.parameters }
        requires once { slice_that_came self.old index ≡ None }
        requires whole { slice_length self.old.parameters.prefix self.old.parameters.scaler
            bytes.now ≡ Some (length bytes.now) }
        ensures value { Puts (slice_coefficients self.old.parameters index bytes.now) index
            self.old self.new result }
    {
        match self.placed.put(index, bytes) {
            Ok(()) => {
                self.came[index as usize] = true;
                Ok(())
            }
            Err(why) => Err(why),
        }
    }

    /// The planes of a picture all of whose slices came. Another picture begins then, in the same memory.
    pub fn planes(&mut self) -> Result<[Plane; 3], NoMemory>
        requires whole { HasAllSlices self.old }
        ensures value { IfOk result (λ planes. planes_in planes
            ≡ planes_of self.old.parameters (slices_of self.old)) }
        ensures restarted { self.new ≡ no_slices self.old.parameters }
    {
        place_waiting(&mut self.placed, &mut self.runs);
        let made = self.placed.planes();
        self.came.fill(false);
        made
    }

    /// The same, where the components are placed and transformed side by side, by join, luma's highest level
    /// in two halves.
    pub fn planes_joined<H: Threads + Copy>(&mut self, rt: H) -> Result<[Plane; 3], NoMemory>
        requires whole { HasAllSlices self.old }
        ensures value { IfOk result (λ planes. planes_in planes
            ≡ planes_of self.old.parameters (slices_of self.old)) }
        ensures restarted { self.new ≡ no_slices self.old.parameters }
    {
        place_waiting_joined(&rt, &mut self.placed, &mut self.runs);
        let made = self.placed.planes_joined(&rt);
        self.came.fill(false);
        made
    }

    /// The planes of a picture all of whose slices came.
    pub fn finish(self) -> Result<[Plane; 3], NoMemory>
        requires whole { HasAllSlices self }
        ensures value { IfOk result (λ planes. planes_in planes
            ≡ planes_of self.parameters (slices_of self)) }
    {
        let mut builder = self;
        builder.planes()
    }

    /// The memory of planes that are done with serves the next ones.
    pub fn keep_planes(&mut self, planes: [Plane; 3])
        ensures unchanged { self.new ≡ self.old }
    {
        self.placed.keep_planes(planes);
    }

    /// The memory of a strip that is in its places, if there is one, for another run's.
    pub fn spare_room(&mut self) -> Option<Vec<i32>>
        ensures unchanged { self.new ≡ self.old }
    {
        self.runs.spare_room()
    }
}

// Puts the runs that wait into their places.
fn place_waiting(placed: &mut PlacedSlices, runs: &mut WaitingRuns)
    requires { MayAllCome placed.old runs.old }
    ensures placed { placed.new ≡ with_runs placed.old runs.old }
    ensures none { runs.new ≡ [] }
{
    placed.place(runs.runs());
    runs.clear();
}

// The same, the components side by side, by join.
fn place_waiting_joined<H: Threads>(rt: &H, placed: &mut PlacedSlices, runs: &mut WaitingRuns)
    requires { MayAllCome placed.old runs.old }
    ensures placed { placed.new ≡ with_runs placed.old runs.old }
    ensures none { runs.new ≡ [] }
{
    placed.place_joined(rt, runs.runs());
    runs.clear();
}
