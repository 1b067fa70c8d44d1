ghost use Rattle.std.specs.Prelude.{◌≡◌, ◌<◌, IfOk, None, Some, is_some, length};
ghost use Rattle.std.specs.List.{range_with_len};
ghost use Rattle.std.specs.Option.{option_map};
ghost use Rattle.receiver_model.specs.Releasing.{sound_slices};
ghost use Rattle.link_pictures.specs.Completing.{ComesInto, CompletesPicture};
ghost use Rattle.link_pictures.specs.Completing.{HasWholeSlices, PutsDecoded, comes_to};
ghost use Rattle.link_pictures.specs.SeenAnswers.{HasEntries};
ghost use Rattle.picture_build.specs.Kept.{slice_that_came};
ghost use Rattle.vc_types.specs.Planes.{planes_in, planes_of};
ghost use Rattle.vc_types.specs.Slices.{slice_coefficients, slice_length};
ghost use Rattle.vc_types.specs.Subbands.{slice_count};
ghost use Rattle.vc_types.specs.TransformParameters.{parameters_of};

use crate::picture::why_unsound;
use bytes::Bytes;
use link_gather::PictureBook;
use picture_build::{NotPut, PictureBuilder};
use std::alloc::Global;
use std::thread::Threads;
use vc_slice::{SliceDone, SliceJob, decode};
use vc_types::{NoMemory, Plan, Plane, Unsound};

/// A picture that is built of the slices of its book.
#[derive(Clone, Copy)]
pub(crate) struct Source<'a> {
    pub(crate) alloc: Global,
    pub(crate) plan: Plan,
    pub(crate) number: u64,
    pub(crate) book: &'a PictureBook,
}

impl Source<'_> {
    /// The planes of a picture, whose builder has the slices with a sound answer; none where a
    /// slice is unsound. The builder is then as for another picture of the plan, after a restart.
    /// Where there are threads, the planes are made in parts side by side.
    pub(crate) fn planes<H: Threads + Copy>(
        &self,
        threads: Option<H>,
        unsound: &[Option<Unsound>],
        builder: &mut PictureBuilder,
    ) -> Result<Option<[Plane; 3]>, NoMemory>
        requires plan { builder.old.parameters ≡ parameters_of self.now.plan }
        requires entries { HasEntries builder.old unsound.now }
        requires slices { HasWholeSlices (parameters_of self.now.plan) self.now.book.now }
        ensures value { let p = parameters_of self.now.plan in
            IfOk result (λ planes. option_map planes_in planes ≡ option_map (planes_of p)
            (sound_slices (comes_to builder.old unsound.now self.now.book.now)
            (range_with_len 0 (slice_count p)))) }
    {
        if !self.complete(unsound, builder)? {
            return Ok(None);
        }
        let planes = match threads {
            Some(rt) => builder.planes_joined(rt)?,
            None => builder.planes()?,
        };
        Ok(Some(planes))
    }

    /// Whether each slice is sound, without the planes. The builder is then as for another picture of
    /// the plan, after a restart.
    pub(crate) fn is_sound(
        &self,
        unsound: &[Option<Unsound>],
        builder: &mut PictureBuilder,
    ) -> Result<bool, NoMemory>
        requires plan { builder.old.parameters ≡ parameters_of self.now.plan }
        requires entries { HasEntries builder.old unsound.now }
        requires slices { HasWholeSlices (parameters_of self.now.plan) self.now.book.now }
        ensures value { let p = parameters_of self.now.plan in
            IfOk result (λ sound. sound ≡ is_some
            (sound_slices (comes_to builder.old unsound.now self.now.book.now)
            (range_with_len 0 (slice_count p)))) }
    {
        self.complete(unsound, builder)
    }

    // Decodes each slice that has no answer; false where a slice is unsound.
    fn complete(
        &self,
        unsound: &[Option<Unsound>],
        builder: &mut PictureBuilder,
    ) -> Result<bool, NoMemory>
        requires plan { builder.old.parameters ≡ parameters_of self.now.plan }
        requires entries { HasEntries builder.old unsound.now }
        requires slices { HasWholeSlices (parameters_of self.now.plan) self.now.book.now }
        ensures value { IfOk result (CompletesPicture
            (comes_to builder.old unsound.now self.now.book.now)
            (parameters_of self.now.plan) builder.new) }
    {
        for index in 0..self.plan.slices_x * self.plan.slices_y {
            if !self.complete_slice(index, unsound, builder)? {
                return Ok(false);
            }
        }
        Ok(true)
    }

    // The slice comes into the picture, if it isn't there; false where it is unsound.
    fn complete_slice(
        &self,
        index: u32,
        unsound: &[Option<Unsound>],
        builder: &mut PictureBuilder,
    ) -> Result<bool, NoMemory>
        requires plan { builder.old.parameters ≡ parameters_of self.now.plan }
        requires entries { HasEntries builder.old unsound.now }
        requires slices { HasWholeSlices (parameters_of self.now.plan) self.now.book.now }
        requires index { index < slice_count (parameters_of self.now.plan) }
        ensures value { IfOk result
            (ComesInto (comes_to builder.old unsound.now self.now.book.now index) index
            builder.old builder.new) }
    {
        if builder.has(index) {
            return Ok(true);
        }
        if why_unsound(unsound, index).is_some() {
            return Ok(false);
        }
        let Some(bytes) = self.book.slice(index) else {
            unreachable!();
        };
        self.put_slice(index, bytes, builder)
    }

    // Decodes a slice to its place, or by itself where it may be too wide for that.
    fn put_slice(
        &self,
        index: u32,
        bytes: &Bytes,
        builder: &mut PictureBuilder,
    ) -> Result<bool, NoMemory>
        requires plan { builder.old.parameters ≡ parameters_of self.now.plan }
        requires index { index < slice_count (parameters_of self.now.plan) }
        requires once { slice_that_came builder.old index ≡ None }
        requires whole { slice_length self.now.plan.prefix self.now.plan.scaler bytes.now
            ≡ Some (length bytes.now) }
        ensures value { IfOk result
            (PutsDecoded (slice_coefficients (parameters_of self.now.plan) index bytes.now) index
            builder.old builder.new) }
    {
        match builder.put(index, bytes.as_slice()) {
            Ok(()) => Ok(true),
            Err(NotPut::Unsound(_)) => Ok(false),
            Err(NotPut::Wide) => {
                let Ok(bytes) = bytes.clone() else {
                    return Err(NoMemory);
                };
                let job = SliceJob {
                    plan: self.plan,
                    number: self.number,
                    index,
                    bytes,
                };
                fill_slice(self.alloc, job, builder)
            }
        }
    }
}

// Decodes a slice by itself, and fills it in.
fn fill_slice(alloc: Global, job: SliceJob, builder: &mut PictureBuilder) -> Result<bool, NoMemory>
    requires plan { builder.old.parameters ≡ parameters_of job.plan }
    requires once { slice_that_came builder.old job.index ≡ None }
    ensures value { IfOk result
        (PutsDecoded (slice_coefficients (parameters_of job.plan) job.index job.bytes) job.index
        builder.old builder.new) }
{
    let index = job.index;
    let SliceDone { job: _, answer } = decode(alloc, job)?;
    match answer {
        Ok(coeffs) => {
            builder.fill(index, &coeffs);
            Ok(true)
        }
        Err(_) => Ok(false),
    }
}
