ghost use Rattle.std.specs.Prelude.{◌≡◌, IfOk, IfSome};
ghost use Rattle.std.specs.Option.{option_map};
ghost use Rattle.vc_types.specs.Planes.{planes_in, decoded_planes};
ghost use Rattle.vc_types.specs.SequenceHeader.{sequence_of, picture_shape};
ghost use Rattle.vc_types.specs.TransformParameters.{parameters_of};
ghost use Rattle.vc_lowdelay.specs.LowDelay.{decoded_low_planes, if_decoded, low_planes};
ghost use Rattle.vc_lowdelay.specs.OfPlan.{low_parameters_of};
ghost use Rattle.picture_build.specs.Kept.{no_slices};
ghost use Rattle.frame_writer.specs.Shapes.{HaveShape};
ghost use Rattle.cmd_stream.specs.Slices.{IsBuilt};
ghost use Rattle.cmd_stream.specs.Stream.{decoded, picture_in};
ghost use Rattle.cmd_stream.specs.PlayViews.{picture_of};

use crate::coding::Coding;
use crate::machine::Machine;
use crate::play_slices::{PictureHead, take_slices};
use byteorder::{BigEndian, ByteOrder};
use bytes::Bytes;
use picture_build::PictureBuilder;
use std::alloc::Global;
use std::thread::Threads;
use vc_lowdelay::{LowPlan, LowRefusal, LowRoom, decode_low_kept, read_low_params};
use vc_params::read_params;
use vc_types::{Header, NoMemory, Plan, Plane};

// A picture's number has so many bytes.
const NUMBER_BYTES: usize = 4;

/// A picture of the stream.
#[derive(Drop)]
pub(crate) struct Picture {
    pub(crate) number: u32,
    pub(crate) planes: [Plane; 3],
}

/// A picture's number, and its own bytes: its transform parameters and its slices.
#[derive(Drop)]
struct CodedPicture {
    number: u32,
    bytes: Bytes,
}

/// The memory that the last picture was decoded in.
#[derive(Drop)]
pub(crate) struct KeptMemory {
    builder: Option<PictureBuilder>,
    low: Option<LowRoom>,
}

impl KeptMemory {
    /// None before the first picture.
    pub(crate) fn new() -> KeptMemory {
        KeptMemory {
            builder: None,
            low: None,
        }
    }

    /// The memory of planes that are done with serves the next picture.
    pub(crate) fn reuse(&mut self, planes: [Plane; 3]) {
        if let Some(builder) = &mut self.builder {
            builder.keep_planes(planes);
        } else if let Some(room) = &mut self.low {
            room.keep_planes(planes);
        }
    }
}

/// The picture of a data unit's body; none where it is refused. The memory is kept from picture to picture.
#[tactic(auto, unfolding(crate::specs::Stream::picture_in))]
pub(crate) fn read_picture<H: Threads + Copy + Send + Sync>(
    host: Machine<H>,
    coding: Coding,
    header: &Header,
    kept: &mut KeptMemory,
    body: Vec<u8>,
) -> Result<Option<Picture>, NoMemory>
    ensures value { IfOk result (λ picture.
        option_map picture_of picture ≡ picture_in coding (sequence_of header.now) body.items) }
    ensures shape { IfOk result (λ picture. IfSome picture (λ p.
        HaveShape (picture_shape (sequence_of header.now)) (planes_in p.planes))) }
{
    if body.len() < NUMBER_BYTES {
        return Ok(None);
    }
    let number = BigEndian::read_u32(&body);
    let Ok(mut bytes) = Bytes::from_vec(body) else {
        return Err(NoMemory);
    };
    bytes.advance(NUMBER_BYTES);
    match planes_by(host, coding, header, kept, CodedPicture { number, bytes })? {
        Some(planes) => Ok(Some(Picture { number, planes })),
        None => Ok(None),
    }
}

// The planes of a picture's own bytes, by how it is coded.
fn planes_by<H: Threads + Copy + Send + Sync>(
    host: Machine<H>,
    coding: Coding,
    header: &Header,
    kept: &mut KeptMemory,
    coded: CodedPicture,
) -> Result<Option<[Plane; 3]>, NoMemory>
    ensures value { IfOk result (λ planes.
        option_map planes_in planes ≡ decoded coding (sequence_of header.now) coded.bytes) }
    ensures shape { IfOk result (λ planes. IfSome planes (λ p.
        HaveShape (picture_shape (sequence_of header.now)) (planes_in p))) }
{
    match coding {
        Coding::HighQuality => read_planes(host, header, &mut kept.builder, coded),
        Coding::LowDelay => read_low_planes(host, header, &mut kept.low, coded.bytes.as_slice()),
    }
}

// The planes of a low-delay picture's own bytes: its transform parameters and its slices.
fn read_low_planes<H: Threads + Copy + Send + Sync>(
    host: Machine<H>,
    header: &Header,
    kept: &mut Option<LowRoom>,
    bytes: &[u8],
) -> Result<Option<[Plane; 3]>, NoMemory>
    ensures value { IfOk result (λ planes. option_map planes_in planes
        ≡ decoded_low_planes (sequence_of header.now) bytes.now) }
    ensures shape { IfOk result (λ planes. IfSome planes (λ p.
        HaveShape (picture_shape (sequence_of header.now)) (planes_in p))) }
{
    let Ok((plan, used)) = read_low_params(header, bytes) else {
        return Ok(None);
    };
    let (_, slices) = bytes.split_at(used);
    low_planes_of(host, &plan, kept, slices)
}

// The planes of a low-delay picture's slices.
fn low_planes_of<H: Threads + Copy + Send + Sync>(
    host: Machine<H>,
    plan: &LowPlan,
    kept: &mut Option<LowRoom>,
    slices: &[u8],
) -> Result<Option<[Plane; 3]>, NoMemory>
    ensures value { IfOk result (λ planes. option_map planes_in planes
        ≡ if_decoded (low_planes (low_parameters_of plan.now) slices.now)) }
{
    let mut room = match kept.take() {
        Some(room) => room,
        None => LowRoom::new(host.alloc),
    };
    let planes = decode_low_kept(host.rt, host.alloc, plan, slices, &mut room);
    *kept = Some(room);
    match planes {
        Ok(planes) => Ok(Some(planes)),
        Err(LowRefusal::Short) => Ok(None),
        Err(LowRefusal::CoefficientRange) => Ok(None),
        Err(LowRefusal::NoMemory) => Err(NoMemory),
    }
}

// The planes of a high-quality picture's own bytes: its transform parameters and its slices.
fn read_planes<H: Threads + Copy + Send + Sync>(
    host: Machine<H>,
    header: &Header,
    kept: &mut Option<PictureBuilder>,
    coded: CodedPicture,
) -> Result<Option<[Plane; 3]>, NoMemory>
    ensures value { IfOk result (λ planes.
        option_map planes_in planes ≡ decoded_planes (sequence_of header.now) coded.bytes) }
    ensures shape { IfOk result (λ planes. IfSome planes (λ p.
        HaveShape (picture_shape (sequence_of header.now)) (planes_in p))) }
{
    let Ok((plan, used)) = read_params(header, coded.bytes.as_slice()) else {
        return Ok(None);
    };
    let number = coded.number;
    let mut slices = coded.bytes;
    slices.advance(used);
    built(host, &PictureHead { number, plan }, kept, slices)
}

// The planes of a picture's slices.
fn built<H: Threads + Copy + Send + Sync>(
    host: Machine<H>,
    head: &PictureHead,
    kept: &mut Option<PictureBuilder>,
    slices: Bytes,
) -> Result<Option<[Plane; 3]>, NoMemory>
    ensures value { IfOk result (IsBuilt (parameters_of head.now.plan) slices) }
{
    let mut builder = begun(host.alloc, head.plan, kept.take())?;
    let planes = planes_of(host, head, slices, &mut builder);
    *kept = Some(builder);
    planes
}

// What the builder makes of the slices.
fn planes_of<H: Threads + Copy + Send + Sync>(
    host: Machine<H>,
    head: &PictureHead,
    slices: Bytes,
    builder: &mut PictureBuilder,
) -> Result<Option<[Plane; 3]>, NoMemory>
    requires { builder.old ≡ no_slices (parameters_of head.now.plan) }
    ensures value { IfOk result (IsBuilt (parameters_of head.now.plan) slices) }
{
    let all = take_slices(host.alloc, head, slices, builder)?;
    if !all {
        return Ok(None);
    }
    Ok(Some(builder.planes_joined(host.rt)?))
}

// A builder that no slice of the plan came to: the one that was kept, if it is of the same plan.
fn begun(
    alloc: Global,
    plan: Plan,
    kept: Option<PictureBuilder>,
) -> Result<PictureBuilder, NoMemory>
    ensures value { IfOk result (λ builder. builder ≡ no_slices (parameters_of plan)) }
{
    if let Some(mut builder) = kept {
        if builder.has_plan(&plan) {
            builder.restart();
            return Ok(builder);
        }
    }
    PictureBuilder::new(alloc, plan)
}
