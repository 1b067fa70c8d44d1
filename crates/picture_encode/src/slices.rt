ghost use Rattle.std.specs.Prelude.{◌≡◌, ◌≤◌, IfOk, IfErr, IsTrue};
ghost use Rattle.link_model.specs.SendingPictures.{chosen_by, packed_bits, need_of, sent_parameters};
ghost use Rattle.link_model.specs.SendingPictures.{told_lengths, wants_lengths};
ghost use Rattle.picture_encode.specs.Answering.{Answers};
ghost use Rattle.picture_encode.specs.Choosing.{AnswersAtMost127, AnswersNeed};
ghost use Rattle.picture_encode.specs.IndexedSlices.{indexed_slice};
ghost use Rattle.picture_encode.specs.Encoded.{IsEncodedAt, RefusesAt, IsEncoded, IsRefusedSlice};
ghost use Rattle.picture_encode.specs.Grids.{HaveCoefficients};
ghost use Rattle.picture_encode.specs.PartsInGrids.{AreGrids, AreOf};
ghost use Rattle.picture_encode.specs.Refusals.{refusal_of};
ghost use Rattle.vc_slice.specs.Bands.{AreCoefficients};
ghost use Rattle.vc_types.specs.Bits.{bits_of};
ghost use Rattle.vc_types.specs.Planes.{Planes};
ghost use Rattle.vc_types.specs.SenderSettings.{sending_view};
ghost use Rattle.vc_types.specs.Settings.{choice_fits};
ghost use Rattle.vc_types.specs.Subbands.{slice_count};
ghost use Rattle.vc_types.specs.TransformParameters.{parameters_of};

use crate::chooser::Chooser;
use crate::fitting::{budget_share, least_index};
use crate::gathering::gather;
use crate::grids::PictureGrids;
use crate::refusal::SliceRefusal;
use std::alloc::Global;
use std::mem::replace;
use vc_slice::{EncodeRefusal, EncodeRoom, SliceCoeffs, SliceParts, encode_in, encoded_lens};
use vc_types::{IndexChoice, NoMemory, SendSettings, SliceNeed};

// The heads of the packet and of the payload in front of slices have so many bytes.
const HEADS: u32 = 32;

/// An encoded slice, and the quantisation index that it has.
#[derive(Drop)]
pub(crate) struct EncodedSlice {
    pub(crate) index: u8,
    pub(crate) bytes: Vec<u8>,
}

// Bytes are their own bits, packed.
fn bits_are_packed(bytes: &[u8])
    ensures { packed_bits (bits_of bytes.now) ≡ bytes.now }
{}

/// A slice of a picture that is sent: by these settings, in the plan that they make.
#[derive(Clone, Copy)]
pub(crate) struct SentSlice<'a> {
    pub(crate) s: &'a SendSettings,
    pub(crate) parts: SliceParts,
    pub(crate) ghost sent: { parameters_of parts.plan ≡ sent_parameters (sending_view s.now) },
}

/// Memory to encode slices by means of, one after another.
#[derive(Drop)]
pub(crate) struct SliceRoom {
    alloc: Global,
    numbers: Vec<i32>,
    codes: EncodeRoom,
}

impl SliceRoom {
    /// No memory yet.
    pub(crate) fn new(alloc: Global) -> SliceRoom {
        SliceRoom {
            alloc,
            numbers: Vec::new(alloc),
            codes: EncodeRoom::new(alloc),
        }
    }
}

/// Encodes a slice at the index that the chooser answers, which may be near another.
pub(crate) fn encode_slice<F: Fn(&SliceNeed) -> u8>(
    room: &mut SliceRoom,
    sent: &SentSlice<'_>,
    chooser: &Chooser<F>,
    grids: &PictureGrids,
    near: u8,
) -> Result<EncodedSlice, SliceRefusal>
    requires callable { F.IsAlwaysCallable chooser.now.choose }
    requires range { AnswersAtMost127 F.Fn chooser.now.choose }
    requires grids { AreGrids sent.now.parts grids.now }
    ensures encoded { IfOk result (λ e. (planes : Planes)
        → HaveCoefficients (parameters_of sent.now.parts.plan) planes grids.now
        → IsEncoded (Answers F.Fn (sending_view sent.now.s.now) chooser.now)
        chooser.now.wants_lens (sending_view sent.now.s.now) planes sent.now.parts.slice
        (indexed_slice e)) }
    ensures refused { IfErr result (λ e. (planes : Planes)
        → HaveCoefficients (parameters_of sent.now.parts.plan) planes grids.now
        → IsRefusedSlice (Answers F.Fn (sending_view sent.now.s.now) chooser.now)
        chooser.now.wants_lens (sending_view sent.now.s.now) planes sent.now.parts.slice e) }
{
    let alloc = room.alloc;
    let used = replace(&mut room.numbers, Vec::new(alloc));
    let coeffs = gather(alloc, used, &sent.parts, grids)?;
    let index = choose(alloc, sent, chooser, &coeffs, near)?;
    let bytes = encode_at(&mut room.codes, sent, &coeffs, index)?;
    room.numbers = coeffs.into_room(alloc);
    Ok(EncodedSlice { index, bytes })
}

// The index of a slice, which may be near another.
fn choose<F: Fn(&SliceNeed) -> u8>(
    alloc: Global,
    sent: &SentSlice<'_>,
    chooser: &Chooser<F>,
    coeffs: &SliceCoeffs,
    near: u8,
) -> Result<u8, NoMemory>
    requires callable { F.IsAlwaysCallable chooser.now.choose }
    requires range { AnswersAtMost127 F.Fn chooser.now.choose }
    requires coefficients { AreCoefficients sent.now.parts coeffs.now }
    ensures answer { IfOk result (λ index. (planes : Planes) → AreOf planes sent.now.parts coeffs.now
        → Answers F.Fn (sending_view sent.now.s.now) chooser.now (need_of (sending_view sent.now.s.now)
        chooser.now.wants_lens planes sent.now.parts.slice) index) }
    ensures range { IfOk result (λ index. index ≤ 127) }
{
    match chooser.by {
        Some(choice) => Ok(chosen(sent, choice, coeffs, near)),
        None => ask(alloc, sent, chooser, coeffs),
    }
}

// The index of a slice by a choice, which may be near another.
fn chosen(sent: &SentSlice<'_>, choice: IndexChoice, coeffs: &SliceCoeffs, near: u8) -> u8
    requires coefficients { AreCoefficients sent.now.parts coeffs.now }
    requires fits { IsTrue (choice_fits choice) }
    ensures value { (planes : Planes) → AreOf planes sent.now.parts coeffs.now
        → result ≡ chosen_by (slice_count (sent_parameters (sending_view sent.now.s.now))) choice
        (need_of (sending_view sent.now.s.now) (wants_lengths choice) planes sent.now.parts.slice) }
    ensures range { result ≤ 127 }
{
    let parts = &sent.parts;
    match choice {
        IndexChoice::Index(index) => index,
        IndexChoice::Fit(bytes) => least_index(parts, coeffs, u64::from(bytes), near),
        IndexChoice::Budget(bytes) => {
            let slices = parts.plan.slices_x * parts.plan.slices_y;
            least_index(
                parts,
                coeffs,
                budget_share(bytes, slices, parts.slice),
                near,
            )
        }
    }
}

// The index that the function of a chooser answers on what it is told.
fn ask<F: Fn(&SliceNeed) -> u8>(
    alloc: Global,
    sent: &SentSlice<'_>,
    chooser: &Chooser<F>,
    coeffs: &SliceCoeffs,
) -> Result<u8, NoMemory>
    requires callable { F.IsAlwaysCallable chooser.now.choose }
    requires range { AnswersAtMost127 F.Fn chooser.now.choose }
    requires coefficients { AreCoefficients sent.now.parts coeffs.now }
    ensures answer { IfOk result (λ index. (planes : Planes) → AreOf planes sent.now.parts coeffs.now
        → AnswersNeed F.Fn chooser.now.choose (need_of (sending_view sent.now.s.now)
        chooser.now.wants_lens planes sent.now.parts.slice) index) }
    ensures range { IfOk result (λ index. index ≤ 127) }
{
    let need = SliceNeed {
        index: sent.parts.slice,
        room: sent.s.size - HEADS,
        lens: told_lens(alloc, chooser.wants_lens, &sent.parts, coeffs)?,
    };
    Ok(chooser.index(&need))
}

// A slice's length at each index, if lengths are wanted.
fn told_lens(
    alloc: Global,
    wanted: bool,
    parts: &SliceParts,
    coeffs: &SliceCoeffs,
) -> Result<Vec<u64>, NoMemory>
    requires coefficients { AreCoefficients parts.now coeffs.now }
    ensures { IfOk result (λ lens. (planes : Planes) → AreOf planes parts.now coeffs.now
        → lens.items ≡ told_lengths wanted (parameters_of parts.now.plan) planes parts.now.slice) }
{
    if wanted {
        encoded_lens(alloc, &parts.plan, parts.slice, coeffs)
    } else {
        Ok(Vec::new(alloc))
    }
}

// A slice's bytes at an index. It is refused where it is too large for its lengths or for a
// datagram.
fn encode_at(
    room: &mut EncodeRoom,
    sent: &SentSlice<'_>,
    coeffs: &SliceCoeffs,
    index: u8,
) -> Result<Vec<u8>, SliceRefusal>
    requires coefficients { AreCoefficients sent.now.parts coeffs.now }
    requires index { index ≤ 127 }
    ensures encoded { IfOk result (λ bytes. (planes : Planes) → AreOf planes sent.now.parts coeffs.now
        → IsEncodedAt (sending_view sent.now.s.now) planes sent.now.parts.slice index bytes.items) }
    ensures refused { IfErr result (λ e. (planes : Planes) → AreOf planes sent.now.parts coeffs.now
        → RefusesAt (sending_view sent.now.s.now) planes sent.now.parts.slice index e) }
{
    let slice = sent.parts.slice;
    match encode_in(room, &sent.parts, coeffs, index) {
        Ok(bytes) if bytes.len() <= (sent.s.size - HEADS) as usize => {
            bits_are_packed(&bytes);
            Ok(bytes)
        }
        Ok(bytes) => Err(SliceRefusal::SliceTooLarge {
            slice,
            bytes: bytes.len() as u64,
        }),
        Err(e) => Err(refusal_of(slice, e)),
    }
}

// The refusal of a slice that the encoder refuses.
fn refusal_of(slice: u32, e: EncodeRefusal) -> SliceRefusal
    ensures { result ≡ refusal_of slice e }
{
    match e {
        EncodeRefusal::TooLong { bytes } => SliceRefusal::SliceTooLarge { slice, bytes },
        EncodeRefusal::NoMemory => SliceRefusal::NoMemory,
    }
}
