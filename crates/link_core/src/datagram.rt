ghost use Rattle.std.specs.Prelude.{◌≡◌, IfOk, MatchOption, IsErr, Ok};
ghost use Rattle.std.specs.Option.{option_map};
ghost use Rattle.link_core.specs.Hearing.{opened_session};
ghost use Rattle.link_model.specs.Session.{received, begins, ends, fragment_by, fragment_in};
ghost use Rattle.link_window.specs.Views.{sent_fragment};
ghost use Rattle.vc2_payload.specs.Views.{payload_value};

use bytes::Bytes;
use link_window::{Fragment, Part, SlicePart};
use rtp_head::read_rtp;
use std::alloc::Global;
use vc_seqhdr::read_whole_header_of;
use vc_types::{HIGH_QUALITY_PROFILE, Header, NoMemory, Presentation};
use vc2_payload::{Payload, read_payload};

// The source and the payload of a datagram.
#[derive(Clone, Copy)]
struct Received<'a> {
    ssrc: u32,
    payload: Payload<'a>,
}

#[tactic(auto, unfolding(link_model::specs::Session::received))]
fn read_datagram(datagram: &[u8]) -> Option<Received<'_>>
    ensures { MatchOption result (IsErr (received datagram.now)) (λ r. received datagram.now
        ≡ Ok (record { ssrc = r.ssrc; value = payload_value r.payload })) }
{
    let Ok(view) = read_rtp(datagram) else {
        return None;
    };
    match read_payload(&datagram[view.from..view.to]) {
        Ok(payload) => Some(Received {
            ssrc: view.ssrc,
            payload,
        }),
        Err(_) => None,
    }
}

/// What opens a session: its source, the header of its sequence, and how its frames are meant to be shown.
#[derive(Clone, Copy)]
pub(crate) struct Opening {
    pub(crate) ssrc: u32,
    pub(crate) header: Header,
    pub(crate) presentation: Presentation,
}

impl Opening {
    /// The session that a datagram begins.
    #[tactic(auto, unfolding(link_model::specs::Session::begins))]
    pub(crate) fn read(datagram: &[u8]) -> Option<Opening>
        ensures { option_map opened_session result ≡ begins datagram.now }
    {
        let Received { ssrc, payload } = read_datagram(datagram)?;
        let Payload::Header { body, .. } = payload else {
            return None;
        };
        match read_whole_header_of(HIGH_QUALITY_PROFILE, body) {
            Ok(whole) => Some(Opening {
                ssrc,
                header: whole.header,
                presentation: whole.presentation,
            }),
            Err(_) => None,
        }
    }

    /// The fragment in a datagram of the session's source.
    #[tactic(auto, unfolding(link_model::specs::Session::fragment_in))]
    pub(crate) fn fragment_in(
        &self,
        alloc: Global,
        datagram: &[u8],
    ) -> Result<Option<Fragment>, NoMemory>
        ensures { IfOk result (λ fragment. option_map sent_fragment fragment
            ≡ fragment_in (opened_session self.now) datagram.now) }
    {
        match read_datagram(datagram) {
            Some(r) if r.ssrc == self.ssrc => fragment_by(alloc, r.payload),
            _ => Ok(None),
        }
    }

    /// Whether a datagram is the end of the session's sequence.
    #[tactic(auto, unfolding(link_model::specs::Session::ends))]
    pub(crate) fn is_ended_by(&self, datagram: &[u8]) -> bool
        ensures { result ≡ ends (opened_session self.now) datagram.now }
    {
        match read_datagram(datagram) {
            Some(r) if r.ssrc == self.ssrc => matches!(r.payload, Payload::End { .. }),
            _ => false,
        }
    }
}

fn copied(alloc: Global, body: &[u8]) -> Result<Bytes, NoMemory>
    ensures { IfOk result (λ bytes. bytes ≡ body.now) }
{
    match Bytes::copy_from_slice(alloc, body) {
        Ok(bytes) => Ok(bytes),
        Err(_) => Err(NoMemory),
    }
}

// The fragment that a payload is.
fn fragment_by(alloc: Global, payload: Payload<'_>) -> Result<Option<Fragment>, NoMemory>
    ensures { IfOk result (λ fragment. option_map sent_fragment fragment
        ≡ fragment_by (payload_value payload.entry)) }
{
    match payload {
        Payload::Params { head, body, .. } => {
            let body = copied(alloc, body)?;
            Ok(Some(Fragment {
                number: head.number,
                part: Part::Params(body),
            }))
        }
        Payload::Slices {
            head,
            count,
            x,
            y,
            body,
            ..
        } => {
            let body = copied(alloc, body)?;
            Ok(Some(Fragment {
                number: head.number,
                part: Part::Slices(SlicePart {
                    prefix: head.prefix,
                    scaler: head.scaler,
                    count,
                    x,
                    y,
                    body,
                }),
            }))
        }
        _ => Ok(None),
    }
}
