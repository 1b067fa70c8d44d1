ghost use Rattle.std.specs.Prelude.{◌≡◌, ◌≤◌, length, slice_range, IfOk, IfErr, Ok, Err};
ghost use Rattle.link_model.specs.Judgement.{rtp_outcome, payload_outcome, refusal_outcome};
ghost use Rattle.link_model.specs.Session.{received, DatagramRefusal};
ghost use Rattle.vc2_payload.specs.Views.{payload_value, HasBodyIn, StandsAt};

use bytes::Bytes;
use link_model::Outcome;
use rtp_head::{RtpRefusal, read_rtp};
use vc_types::NoMemory;
use vc2_payload::{Payload, PayloadRefusal, read_payload};

/// The source of a datagram, its payload, and where in the datagram that stands.
#[derive(Clone, Copy)]
pub(crate) struct Packet<'a> {
    pub(crate) ssrc: u32,
    pub(crate) from: usize,
    pub(crate) to: usize,
    pub(crate) payload: Payload<'a>,
}

fn rtp_outcome(refusal: RtpRefusal) -> Outcome
    ensures { result ≡ rtp_outcome refusal }
{
    match refusal {
        RtpRefusal::Short => Outcome::RtpShort,
        RtpRefusal::Version => Outcome::RtpVersion,
        RtpRefusal::Shape => Outcome::RtpShape,
    }
}

fn payload_outcome(refusal: PayloadRefusal) -> Outcome
    ensures { result ≡ payload_outcome refusal }
{
    match refusal {
        PayloadRefusal::Short => Outcome::PayloadShort,
        PayloadRefusal::Code => Outcome::PayloadCode,
        PayloadRefusal::Fragment => Outcome::PayloadFragment,
    }
}

/// Takes a datagram apart, or answers the outcome of one that can't be read.
#[tactic(auto, unfolding(link_model::specs::Session::received))]
pub(crate) fn read_datagram(datagram: &[u8]) -> Result<Packet<'_>, Outcome>
    ensures read { IfOk result (λ r. received datagram.now
        ≡ Ok (record { ssrc = r.ssrc; value = payload_value r.payload })) }
    ensures places { IfOk result (λ r. (r.from ≤ r.to) × (r.to ≤ length datagram.now)) }
    ensures body { IfOk result
        (λ r. HasBodyIn (slice_range datagram.now r.from r.to) r.payload) }
    ensures refused { IfErr result (λ outcome. (refusal : DatagramRefusal)
        × (received datagram.now ≡ Err refusal) × (outcome ≡ refusal_outcome refusal)) }
{
    let view = match read_rtp(datagram) {
        Ok(view) => view,
        Err(refusal) => return Err(rtp_outcome(refusal)),
    };
    match read_payload(&datagram[view.from..view.to]) {
        Ok(payload) => Ok(Packet {
            ssrc: view.ssrc,
            from: view.from,
            to: view.to,
            payload,
        }),
        Err(refusal) => Err(payload_outcome(refusal)),
    }
}

/// A body of the payload that stands from one place of a datagram up to another, shared.
pub(crate) fn shared_body(
    datagram: &Bytes,
    from: usize,
    to: usize,
    place: usize,
    body: &[u8],
) -> Result<Bytes, NoMemory>
    requires ordered { from ≤ to }
    requires within { to ≤ length datagram.now }
    requires body { StandsAt (slice_range datagram.now from to) place body.now }
    ensures { IfOk result (λ shared. shared ≡ body.now) }
{
    let start = from + place;
    Ok(datagram.slice(start..start + body.len())?)
}
