ghost use Rattle.std.specs.Prelude.{◌≡◌, false, IsTrue};
ghost use Rattle.cmd_send.specs.FramesSent.{frame_shape};
ghost use Rattle.vc_types.specs.Limits.{shape_fits};
ghost use Rattle.vc_types.specs.SenderSettings.{sending_view};
ghost use Rattle.vc_types.specs.SequenceHeader.{sequence_of};

use picture_encode::header_of;
use vc_types::{Header, SendSettings, Shape};

/// The shape of a sender's frames: that of its pictures with frame coding.
pub(crate) fn frame_shape(s: &SendSettings) -> Shape
    ensures value { result ≡ frame_shape (sending_view s.now) }
    ensures fits { IsTrue (shape_fits result) }
{
    progressive(&header_of(s)).shape()
}

// The header with frame coding in place of field coding.
fn progressive(header: &Header) -> Header
    ensures { sequence_of result ≡ record (sequence_of header.now) { fields = false } }
{
    Header {
        major: header.major,
        minor: header.minor,
        level: header.level,
        base: header.base,
        width: header.width,
        height: header.height,
        sampling: header.sampling,
        interlaced: header.interlaced,
        top_first: header.top_first,
        range: header.range,
        fields: false,
    }
}
