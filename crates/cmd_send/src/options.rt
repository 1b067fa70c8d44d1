ghost use Rattle.std.specs.Prelude.{◌<◌, ◌^◌};

use vc_types::{SendSettings, Shape};

/// Which frames are sent, and how.
#[derive(Clone, Copy)]
pub struct FrameOptions {
    /// How frames are coded and sent.
    pub sender: SendSettings,
    /// How many frames are read at most.
    pub frames: u32,
    /// How many threads, at most 64, encode each frame.
    pub workers: u32,
}

/// Which frames are sent over a wire, how, and where.
#[derive(Clone, Copy)]
pub struct SendOptions<'a> {
    pub sent: FrameOptions,
    /// The address that the wire is aimed at.
    pub to: &'a str,
}

/// Which raw frames are read.
#[derive(Clone, Copy)]
pub(crate) struct RawFrames {
    pub(crate) most: u32,
    pub(crate) shape: Shape,
    ghost few: { most < 2 ^ 32 },
}
