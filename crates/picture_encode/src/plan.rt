ghost use Rattle.std.specs.Prelude.{◌≡◌, ◌≤◌, [], unwrap_or, IsTrue};
ghost use Rattle.link_model.specs.SendingPictures.{sent_sequence, sent_presentation, sent_parameters};
ghost use Rattle.vc_types.specs.HeaderSpelling.{encoder_base, IsPresentation};
ghost use Rattle.vc_types.specs.Limits.{matrix_fits, shape_fits};
ghost use Rattle.vc_types.specs.Quantisation.{default_matrix, filled_matrix, used_entries};
ghost use Rattle.vc_types.specs.SenderSettings.{sending_view};
ghost use Rattle.vc_types.specs.SequenceHeader.{sequence_of, picture_shape};
ghost use Rattle.vc_types.specs.TransformParameters.{parameters_of};
ghost use Rattle.vc_types.specs.Video.{range_of};

use vc_quant::default_matrix;
use vc_types::{CodedPresentation, Header, Plan, SendSettings, Shape, SignalRange};

/// The sequence header of a sender: version 3.0, level 0, base video format 14 with the top field
/// first and else 0, interlaced exactly with field coding.
#[tactic(auto, unfolding(link_model::specs::SendingPictures::sent_sequence))]
pub fn header_of(s: &SendSettings) -> Header
    ensures value { sequence_of result ≡ sent_sequence (sending_view s.now) }
{
    Header {
        major: 3,
        minor: 0,
        level: 0,
        base: base(s.top),
        width: s.width,
        height: s.height,
        sampling: s.sampling,
        interlaced: s.fields,
        top_first: s.top,
        range: signal_range(s.range),
        fields: s.fields,
    }
}

/// What the sequence header of a sender codes of how its frames are shown.
#[tactic(auto, unfolding(link_model::specs::SendingPictures::sent_presentation))]
pub fn presentation_of(s: &SendSettings) -> CodedPresentation
    ensures value { result ≡ sent_presentation (sending_view s.now) }
    ensures coded { IsPresentation result }
{
    match s.told {
        Some(told) => told.presentation(s.width, s.height),
        None => CodedPresentation::nothing(),
    }
}

// The base video format that has this field first.
fn base(top_first: bool) -> u8
    ensures value { result ≡ encoder_base top_first }
    ensures range { result ≤ 16 }
{
    if top_first { 14 } else { 0 }
}

// A signal range by its number.
#[tactic(auto, unfolding(vc_types::specs::Video::range_of))]
fn signal_range(number: u8) -> SignalRange
    requires { (1 ≤ number) × (number ≤ 4) }
    ensures value { result ≡ range_of number }
    ensures luma { (1 ≤ result.luma_excursion) × (result.luma_excursion ≤ 65535) }
    ensures colour { (1 ≤ result.colour_excursion) × (result.colour_excursion ≤ 65535) }
{
    match number {
        1 => range(0, 255, 128, 255),
        2 => range(16, 219, 128, 224),
        3 => range(64, 876, 512, 896),
        _ => range(256, 3504, 2048, 3584),
    }
}

fn range(
    luma_offset: u32,
    luma_excursion: u32,
    colour_offset: u32,
    colour_excursion: u32,
) -> SignalRange
    ensures { result ≡ record {
      luma_offset = luma_offset;
      luma_excursion = luma_excursion;
      colour_offset = colour_offset;
      colour_excursion = colour_excursion;
    } }
{
    SignalRange {
        luma_offset,
        luma_excursion,
        colour_offset,
        colour_excursion,
    }
}

/// The transform parameters of a sender: the same transform across as down, and the default matrix.
pub fn plan_of(s: &SendSettings) -> Plan
    ensures { parameters_of result ≡ sent_parameters (sending_view s.now) }
{
    plan_with(s, header_of(s).shape())
}

#[tactic(auto, unfolding(link_model::specs::SendingPictures::sent_parameters))]
fn plan_with(s: &SendSettings, shape: Shape) -> Plan
    requires shape { shape ≡ picture_shape (sent_sequence (sending_view s.now)) }
    requires fits { IsTrue (shape_fits shape) }
    ensures { parameters_of result ≡ sent_parameters (sending_view s.now) }
{
    Plan {
        shape,
        wavelet: s.wavelet,
        wavelet_ho: s.wavelet,
        depth: s.depth,
        depth_ho: 0,
        slices_x: s.slices_x,
        slices_y: s.slices_y,
        prefix: s.prefix,
        scaler: s.scaler,
        matrix: matrix(s.wavelet, s.depth),
    }
}

// The default matrix of a wavelet at a depth that has one.
fn matrix(wavelet: u8, depth: u8) -> [u8; 16]
    requires wavelet { wavelet ≤ 6 }
    requires levels { (1 ≤ depth) × (depth ≤ 4) }
    ensures value { result ≡ unwrap_or (default_matrix wavelet depth) [] }
    ensures fits { IsTrue (matrix_fits result) }
    ensures unused { filled_matrix (used_entries 0 depth result) ≡ result }
{
    match default_matrix(wavelet, depth) {
        Ok(matrix) => matrix,
        Err(_) => unreachable!(),
    }
}
