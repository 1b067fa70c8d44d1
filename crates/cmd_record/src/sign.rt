ghost use Rattle.std.specs.Prelude.{◌≡◌, ◌==◌, ◌&&◌, false};
ghost use Rattle.link_model.specs.Session.{Session, is_end, session_by, session_with};
ghost use Rattle.vc2_payload.specs.Views.{payload_value};
ghost use Rattle.vc_types.specs.SequenceHeader.{coded_whole_header_of, high_quality_profile};
ghost use Rattle.cmd_record.specs.Signs.{IsSign, begun_by, ends_by};

use rtp_head::read_rtp;
use vc_seqhdr::read_whole_header_of;
use vc_types::{HIGH_QUALITY_PROFILE, Header, Presentation};
use vc2_payload::{Payload, read_payload};

/// A sequence header with its source, which may begin a session.
#[derive(Clone, Copy)]
pub(crate) struct Opening {
    pub(crate) ssrc: u32,
    pub(crate) header: Header,
    pub(crate) presentation: Presentation,
}

/// What a datagram is to sessions.
#[derive(Clone, Copy)]
pub(crate) enum Sign {
    Begins(Opening),
    /// An end of sequence of this source.
    Ends { ssrc: u32 },
    Nothing,
}

/// Reads what a datagram is to sessions.
pub(crate) fn sign_of(datagram: &[u8]) -> Sign
    ensures { IsSign datagram.now result }
{
    match read_rtp(datagram) {
        Ok(packet) => match read_payload(&datagram[packet.from..packet.to]) {
            Ok(payload) => payload_sign(packet.ssrc, payload),
            Err(_) => Sign::Nothing,
        },
        Err(_) => Sign::Nothing,
    }
}

#[tactic(auto, using(crate::proofs::Truths::and_true, crate::proofs::Truths::and_false))]
fn payload_sign(ssrc: u32, payload: Payload<'_>) -> Sign
    ensures begins { begun_by result ≡ session_by ssrc (payload_value payload.entry) }
    ensures ends { (s : Session)
        → ends_by s result ≡ (ssrc == s.ssrc && is_end (payload_value payload.entry)) }
{
    match payload {
        Payload::Header { body, .. } => header_sign(ssrc, body),
        Payload::End { .. } => Sign::Ends { ssrc },
        Payload::Skip { .. } | Payload::Params { .. } | Payload::Slices { .. } => Sign::Nothing,
    }
}

fn header_sign(ssrc: u32, body: &[u8]) -> Sign
    ensures begins { begun_by result
        ≡ session_with ssrc (coded_whole_header_of high_quality_profile body.now) }
    ensures ends { (s : Session) → ends_by s result ≡ false }
{
    match read_whole_header_of(HIGH_QUALITY_PROFILE, body) {
        Ok(whole) => Sign::Begins(Opening {
            ssrc,
            header: whole.header,
            presentation: whole.presentation,
        }),
        Err(_) => Sign::Nothing,
    }
}
