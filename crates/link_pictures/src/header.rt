ghost use Rattle.std.specs.Prelude.{◌≡◌, IfOk};
ghost use Rattle.stream_model.specs.Streams.{header_in, header_of_payload};
ghost use Rattle.vc2_payload.specs.Views.{payload_value};

use rtp_head::read_rtp;
use std::alloc::Global;
use vc_seqhdr::read_header;
use vc_types::NoMemory;
use vc2_payload::{Payload, read_payload};

/// The bytes of the sequence header in a datagram that begins a session, as they came.
#[tactic(auto, unfolding(stream_model::specs::Streams::header_in, link_model::specs::Session::received))]
pub(crate) fn header_in(alloc: Global, datagram: &[u8]) -> Result<Vec<u8>, NoMemory>
    ensures { IfOk result (λ bytes. bytes.items ≡ header_in datagram.now) }
{
    let Ok(view) = read_rtp(datagram) else {
        return Ok(Vec::new(alloc));
    };
    match read_payload(&datagram[view.from..view.to]) {
        Ok(payload) => header_of(alloc, &payload),
        Err(_) => Ok(Vec::new(alloc)),
    }
}

fn header_of(alloc: Global, payload: &Payload<'_>) -> Result<Vec<u8>, NoMemory>
    ensures { IfOk result (λ bytes. bytes.items ≡ header_of_payload (payload_value payload.now)) }
{
    let mut bytes = Vec::new(alloc);
    if let Payload::Header { body, .. } = payload {
        if let Ok((_, used)) = read_header(body) {
            bytes.extend_from_slice(&body[..used])?;
        }
    }
    Ok(bytes)
}
