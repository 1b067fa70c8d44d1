ghost use Rattle.std.specs.Prelude.{◌≤◌, IsTrue, true};
ghost use Rattle.std.specs.Option.{option_map_or};
ghost use Rattle.vc_types.specs.Presentations.{told_fits};
ghost use Rattle.vc_types.specs.Video.{dimensions_fit};
ghost use Rattle.vc_types.specs.Limits.{slices_fit};
ghost use Rattle.vc_types.specs.Settings.{within, choice_fits, luma_fits, first_picture_fits, can_be_sent};

use crate::choice::IndexChoice;
use crate::rate::FrameRate;
use crate::video::Sampling;

/// How frames are coded and sent. Width and height are those of a frame, `range` the number of its signal
/// range. `size` is the length of a whole datagram of RTP, without the headers of IP and UDP: its slices get
/// `size - 32`, for the RTP header has 12 bytes and the payload header 20.
#[derive(Clone, Copy)]
pub struct SendSettings {
    pub width: u32,
    pub height: u32,
    pub sampling: Sampling,
    pub range: u8,
    pub fields: bool,
    /// Whether the top field is the first.
    pub top: bool,
    pub wavelet: u8,
    pub depth: u8,
    pub slices_x: u32,
    pub slices_y: u32,
    pub prefix: u32,
    pub scaler: u32,
    pub size: u32,
    pub choice: IndexChoice,
    pub ssrc: u32,
    /// The first extended sequence number.
    pub seq: u32,
    /// The first picture number.
    pub picture: u32,
    /// How fast frames follow one another.
    pub rate: FrameRate,
    /// The RTP payload type.
    pub pt: u8,
    /// What the sequence header tells of how the frames are shown.
    pub told: Option<Told>,
    pub ghost dimensions: { IsTrue (dimensions_fit width height sampling fields) },
    pub ghost range_is_known: { IsTrue (within 1 4 range) },
    pub ghost wavelet_is_known: { wavelet ≤ 6 },
    pub ghost levels: { IsTrue (within 1 4 depth) },
    pub ghost slices: { IsTrue (slices_fit slices_x slices_y) },
    pub ghost prefix_fits: { prefix ≤ 255 },
    pub ghost scaler_fits: { IsTrue (within 1 255 scaler) },
    pub ghost size_fits: { IsTrue (within 64 65507 size) },
    pub ghost choice_is_known: { IsTrue (choice_fits choice) },
    pub ghost padded_luma: { IsTrue (luma_fits width height fields depth) },
    pub ghost first_picture: { IsTrue (first_picture_fits fields picture) },
    pub ghost payload_type: { pt ≤ 127 },
    pub ghost told_is_known: { IsTrue (option_map_or told_fits told true) },
}

/// What a sender's header tells of how frames are shown. `rate` is frames over seconds, `aspect` the width of
/// a pixel over its height, `colour` the number of a colour specification of the standard, 1 to 7.
#[derive(Clone, Copy)]
pub struct Told {
    pub rate: (u32, u32),
    pub aspect: Option<(u32, u32)>,
    pub colour: Option<u8>,
}

/// Which frames are generated. Width and height are those of a frame, `range` the number of its signal range.
#[derive(Clone, Copy)]
pub struct GenSettings {
    pub width: u32,
    pub height: u32,
    pub sampling: Sampling,
    pub range: u8,
    pub fields: bool,
    /// Whether the top field is the first.
    pub top: bool,
    pub seed: u32,
    pub frames: u32,
    pub ghost dimensions: { IsTrue (dimensions_fit width height sampling fields) },
    pub ghost range_is_known: { IsTrue (within 1 4 range) },
    pub ghost frames_fit: { IsTrue (within 1 1000 frames) },
    pub ghost sendable: { IsTrue (can_be_sent width height fields) },
}

/// How the pictures of an elementary stream are sent. `size` is the length of a whole datagram of RTP,
/// without the headers of IP and UDP; `fields` says whether the stream's pictures are fields.
#[derive(Clone, Copy)]
pub struct PackSettings {
    pub size: u32,
    pub ssrc: u32,
    /// The RTP payload type.
    pub pt: u8,
    /// The first extended sequence number.
    pub seq: u32,
    /// How fast frames follow one another.
    pub rate: FrameRate,
    pub fields: bool,
    pub ghost size_fits: { IsTrue (within 64 65507 size) },
    pub ghost payload_type: { pt ≤ 127 },
}
