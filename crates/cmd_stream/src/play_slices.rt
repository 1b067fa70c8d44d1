ghost use Rattle.std.specs.Prelude.{◌≡◌, ◌<◌, [], None, Some, true, IfOk, MatchOption, length};
ghost use Rattle.vc_types.specs.Slices.{slice_length};
ghost use Rattle.vc_types.specs.Subbands.{slice_count};
ghost use Rattle.vc_types.specs.TransformParameters.{parameters_of};
ghost use Rattle.picture_build.specs.Kept.{no_slices, slice_that_came};
ghost use Rattle.cmd_stream.specs.Slices.{GaveSlice, TookSlice, TookSlices, TookWhole};

use bytes::Bytes;
use picture_build::{NotPut, PictureBuilder};
use std::alloc::Global;
use vc_slice::{SliceDone, SliceJob, cut, decode};
use vc_types::{NoMemory, Plan};

/// A picture's number and plan.
#[derive(Clone, Copy)]
pub(crate) struct PictureHead {
    pub(crate) number: u32,
    pub(crate) plan: Plan,
}

/// Puts a picture's slices, one after another at the front of the bytes, into a builder of its plan; false
/// where a slice is cut short or unsound.
pub(crate) fn take_slices(
    alloc: Global,
    head: &PictureHead,
    bytes: Bytes,
    builder: &mut PictureBuilder,
) -> Result<bool, NoMemory>
    requires { builder.old ≡ no_slices (parameters_of head.now.plan) }
    ensures value { IfOk result (TookSlices (parameters_of head.now.plan) bytes builder.new) }
{
    let mut rest = bytes.as_slice();
    for index in 0..head.plan.slices_x * head.plan.slices_y {
        match take_slice(alloc, head, index, rest, builder)? {
            Some(behind) => rest = behind,
            None => return Ok(false),
        }
    }
    Ok(true)
}

// Puts the slice at the front of the bytes into the builder: the bytes behind it, or none where it is cut
// short or unsound.
fn take_slice<'a>(
    alloc: Global,
    head: &PictureHead,
    index: u32,
    rest: &'a [u8],
    builder: &mut PictureBuilder,
) -> Result<Option<&'a [u8]>, NoMemory>
    requires plan { builder.old.parameters ≡ parameters_of head.now.plan }
    requires index { index < slice_count (parameters_of head.now.plan) }
    requires once { slice_that_came builder.old index ≡ None }
    ensures value { IfOk result (λ taken. MatchOption taken
        (GaveSlice (parameters_of head.now.plan) index rest.now [] None)
        (λ behind. TookSlice (parameters_of head.now.plan) index rest.now behind.now
        builder.old builder.new true)) }
{
    let Ok(len) = cut(head.plan.prefix, head.plan.scaler, rest) else {
        return Ok(None);
    };
    let (bytes, behind) = rest.split_at(len);
    if put_slice(alloc, head, index, bytes, builder)? {
        Ok(Some(behind))
    } else {
        Ok(None)
    }
}

// Decodes a slice to its place, or by itself where it may be too wide for that.
fn put_slice(
    alloc: Global,
    head: &PictureHead,
    index: u32,
    bytes: &[u8],
    builder: &mut PictureBuilder,
) -> Result<bool, NoMemory>
    requires plan { builder.old.parameters ≡ parameters_of head.now.plan }
    requires index { index < slice_count (parameters_of head.now.plan) }
    requires once { slice_that_came builder.old index ≡ None }
    requires whole { slice_length head.now.plan.prefix head.now.plan.scaler bytes.now
        ≡ Some (length bytes.now) }
    ensures value { IfOk result (TookWhole (parameters_of head.now.plan) index bytes.now
        builder.old builder.new) }
{
    match builder.put(index, bytes) {
        Ok(()) => Ok(true),
        Err(NotPut::Unsound(_)) => Ok(false),
        Err(NotPut::Wide) => {
            let job = SliceJob {
                plan: head.plan,
                number: head.number as u64,
                index,
                bytes: copied(alloc, bytes)?,
            };
            fill_slice(alloc, job, builder)
        }
    }
}

fn copied(alloc: Global, bytes: &[u8]) -> Result<Bytes, NoMemory>
    ensures { IfOk result (λ copy. copy ≡ bytes.now) }
{
    let mut copy = Vec::with_capacity(alloc, bytes.len())?;
    copy.extend_from_slice(bytes)?;
    match Bytes::from_vec(copy) {
        Ok(bytes) => Ok(bytes),
        Err(_) => Err(NoMemory),
    }
}

// Decodes a slice by itself, and fills it in.
fn fill_slice(alloc: Global, job: SliceJob, builder: &mut PictureBuilder) -> Result<bool, NoMemory>
    requires plan { builder.old.parameters ≡ parameters_of job.plan }
    requires once { slice_that_came builder.old job.index ≡ None }
    ensures value { IfOk result (TookWhole (parameters_of job.plan) job.index job.bytes
        builder.old builder.new) }
{
    let index = job.index;
    let SliceDone { job: _, answer } = decode(alloc, job)?;
    match answer {
        Ok(coeffs) => {
            builder.fill(index, &coeffs);
            Ok(true)
        }
        Err(_) => Ok(false),
    }
}
