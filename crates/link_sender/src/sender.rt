ghost use Rattle.std.specs.Prelude.{◌≡◌, ◌<◌, ◌^◌};
ghost use Rattle.link_model.specs.SendingPictures.{sent_sequence, sent_parameters};
ghost use Rattle.vc_types.specs.SenderSettings.{sending_view};
ghost use Rattle.vc_types.specs.SequenceHeader.{sequence_of};
ghost use Rattle.vc_types.specs.TransformParameters.{parameters_of};

use picture_encode::{Chooser, PictureGrids};
use std::alloc::Global;
use vc_types::{Header, Plan, SendSettings};

/// Sends frames: what it keeps from one to the next are three numbers, which wrap, and the memory of
/// the last picture's coefficients.
#[derive(Drop)]
pub struct Sender<F> {
    pub(crate) alloc: Global,
    pub(crate) settings: SendSettings,
    pub(crate) chooser: Chooser<F>,
    pub(crate) header: Header,
    pub(crate) plan: Plan,
    pub(crate) frame: u64,
    pub(crate) number: u32,
    // That of the last datagram, and 0 before the first.
    pub(crate) timestamp: u32,
    pub(crate) grids: PictureGrids,
    ghost few_frames: { frame < 2 ^ 63 },
    ghost header_is: { sequence_of header ≡ sent_sequence (sending_view settings) },
    ghost plan_is: { parameters_of plan ≡ sent_parameters (sending_view settings) },
}
