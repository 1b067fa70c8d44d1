ghost use Rattle.std.specs.Prelude.{◌≡◌, ◌≤◌, ℕ, List, length, slice_range, IfOk, Ok, Some, None};
ghost use Rattle.std.specs.Option.{option_copied, option_map};
ghost use Rattle.link_model.specs.Judgement.{early_outcome};
ghost use Rattle.link_model.specs.Session.{received, session_by};
ghost use Rattle.receiver_model.specs.Judging.{opens_from};
ghost use Rattle.link_window.specs.Hearing.{IsHeard};
ghost use Rattle.link_window.specs.Openings.{session_of};
ghost use Rattle.vc2_payload.specs.Views.{payload_value, HasBodyIn};

use crate::datagram::{Packet, read_datagram, shared_body};
use crate::heard::{Heard, Opening};
use crate::standing::Standing;
use crate::{Fragment, Part, SlicePart};
use bytes::Bytes;
use link_model::Outcome;
use vc_seqhdr::read_whole_header_of;
use vc_types::{HIGH_QUALITY_PROFILE, NoMemory};
use vc2_payload::Payload;

/// What a datagram is to the session that stands, if one does. The body of a fragment is shared
/// with the datagram.
pub fn hear(standing: Option<&Standing>, datagram: &Bytes) -> Result<Heard, NoMemory>
    ensures { IfOk result (IsHeard (option_copied standing.entry) datagram.now) }
{
    match read_datagram(datagram.as_slice()) {
        Ok(packet) => match standing {
            Some(standing) => hear_behind(standing, datagram, &packet),
            None => Ok(hear_first(&packet)),
        },
        Err(outcome) => Ok(Heard::Nothing(outcome)),
    }
}

// Before a session stands.
fn hear_first(packet: &Packet<'_>) -> Heard
    ensures { (d : List ℕ) → received d ≡ Ok (record {
      ssrc = packet.now.ssrc;
      value = payload_value packet.now.payload;
    })
        → IsHeard None d result }
{
    match opening(packet) {
        Some(opening) => Heard::Opens(opening),
        None => Heard::Nothing(early_outcome(&packet.payload)),
    }
}

// The session that a datagram begins.
fn opening(packet: &Packet<'_>) -> Option<Opening>
    ensures { option_map session_of result
        ≡ session_by packet.now.ssrc (payload_value packet.now.payload) }
{
    let Payload::Header { body, .. } = packet.payload else {
        return None;
    };
    match read_whole_header_of(HIGH_QUALITY_PROFILE, body) {
        Ok(whole) => Some(Opening {
            ssrc: packet.ssrc,
            header: whole.header,
            presentation: whole.presentation,
        }),
        Err(_) => None,
    }
}

// The outcome of a datagram that begins no session, before one stands.
fn early_outcome(payload: &Payload<'_>) -> Outcome
    ensures { (ssrc : ℕ) → session_by ssrc (payload_value payload.now) ≡ None
        → result ≡ early_outcome (payload_value payload.now) }
{
    match payload {
        Payload::Header { .. } => Outcome::HeaderBad,
        _ => Outcome::Foreign,
    }
}

fn hear_behind(
    standing: &Standing,
    datagram: &Bytes,
    packet: &Packet<'_>,
) -> Result<Heard, NoMemory>
    requires read { received datagram.now ≡ Ok (record {
      ssrc = packet.now.ssrc;
      value = payload_value packet.now.payload;
    }) }
    requires ordered { packet.now.from ≤ packet.now.to }
    requires within { packet.now.to ≤ length datagram.now }
    requires body { HasBodyIn (slice_range datagram.now packet.now.from packet.now.to)
        packet.now.payload }
    ensures { IfOk result (IsHeard (Some standing.now) datagram.now) }
{
    let opening = opening(packet);
    match next_session(standing, opening) {
        Some(next) => Ok(Heard::Opens(next)),
        None => hear_within(standing, datagram, packet, opening),
    }
}

// The session that follows the one that stands.
fn next_session(standing: &Standing, opening: Option<Opening>) -> Option<Opening>
    ensures { option_map session_of result
        ≡ opens_from standing.now (option_map session_of opening) }
{
    let opening = opening?;
    if standing.is_followed_by(&opening) {
        Some(opening)
    } else {
        None
    }
}

// A datagram that opens no session.
fn hear_within(
    standing: &Standing,
    datagram: &Bytes,
    packet: &Packet<'_>,
    opening: Option<Opening>,
) -> Result<Heard, NoMemory>
    requires read { received datagram.now ≡ Ok (record {
      ssrc = packet.now.ssrc;
      value = payload_value packet.now.payload;
    }) }
    requires ordered { packet.now.from ≤ packet.now.to }
    requires within { packet.now.to ≤ length datagram.now }
    requires body { HasBodyIn (slice_range datagram.now packet.now.from packet.now.to)
        packet.now.payload }
    requires opening { option_map session_of opening
        ≡ session_by packet.now.ssrc (payload_value packet.now.payload) }
    requires goes_on { opens_from standing.now (option_map session_of opening) ≡ None }
    ensures { IfOk result (IsHeard (Some standing.now) datagram.now) }
{
    if packet.ssrc != standing.ssrc() {
        return Ok(Heard::Nothing(Outcome::Foreign));
    }
    let (first, end) = (packet.from, packet.to);
    match packet.payload {
        Payload::Header { .. } => Ok(Heard::Nothing(standing.header_outcome(opening))),
        Payload::End { .. } => Ok(Heard::Ends),
        Payload::Skip { .. } => Ok(Heard::Nothing(Outcome::Skipped)),
        Payload::Params { head, from, body } => {
            let body = shared_body(datagram, first, end, from, body)?;
            Ok(Heard::Brings(Fragment {
                number: head.number,
                part: Part::Params(body),
            }))
        }
        Payload::Slices {
            head,
            count,
            x,
            y,
            from,
            body,
        } => {
            let body = shared_body(datagram, first, end, from, body)?;
            let slices = SlicePart {
                prefix: head.prefix,
                scaler: head.scaler,
                count,
                x,
                y,
                body,
            };
            Ok(Heard::Brings(Fragment {
                number: head.number,
                part: Part::Slices(slices),
            }))
        }
    }
}
