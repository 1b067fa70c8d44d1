ghost use Rattle.std.specs.Prelude.{◌≡◌};
ghost use Rattle.cmd_stream.specs.Stream.{picture_code_of, profile_of};

use vc_types::{HIGH_QUALITY_PICTURE, HIGH_QUALITY_PROFILE, LOW_DELAY_PICTURE, LOW_DELAY_PROFILE};

/// How the pictures of a stream are coded, as its profile says (ST 2042-1, profiles).
#[derive(Clone, Copy)]
pub enum Coding {
    HighQuality,
    LowDelay,
}

impl Coding {
    /// The profile of the stream's headers.
    pub(crate) fn profile(self) -> u8
        ensures { result ≡ profile_of self }
    {
        match self {
            Coding::HighQuality => HIGH_QUALITY_PROFILE,
            Coding::LowDelay => LOW_DELAY_PROFILE,
        }
    }

    /// The parse code of its pictures.
    pub(crate) fn picture_code(self) -> u8
        ensures { result ≡ picture_code_of self }
    {
        match self {
            Coding::HighQuality => HIGH_QUALITY_PICTURE,
            Coding::LowDelay => LOW_DELAY_PICTURE,
        }
    }
}
