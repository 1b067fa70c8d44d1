//! Rows of RTP headers, and of the payloads behind them.
use crate::named::field;
use crate::said::Said;
use crate::words::{bytes_of, parted};
use rtp_head::{RtpView, read_rtp, write_rtp};
use vc2_payload::{FragmentHead, Payload, read_payload, write_payload};
use worked_common::{Bad, NamedBytes};

fn add_view(view: &RtpView, said: &mut Said) {
    said.named(&[
        ("marker", u32::from(view.marker)),
        ("type", u32::from(view.payload_type)),
        ("sequence", u32::from(view.sequence)),
        ("timestamp", view.timestamp),
        ("ssrc", view.ssrc),
    ]);
    said.word("payload");
    said.words(&[view.from, view.to]);
}

/// The RTP header of a datagram, and where the payload begins and ends.
pub(crate) fn rtp(parts: &[NamedBytes], given: &str, said: &mut Said) -> Result<(), Bad> {
    let bytes = bytes_of(said.alloc(), parts, given)?;
    match read_rtp(bytes.as_slice()) {
        Ok(view) => add_view(&view, said),
        Err(refusal) => said.shown(refusal),
    }
    Ok(())
}

fn add_rtp_cuts(bytes: &[u8], said: &mut Said) {
    for length in 0..=bytes.len() {
        match read_rtp(bytes.get(..length).unwrap_or(bytes)) {
            Ok(_) => said.word("read"),
            Err(refusal) => said.shown(refusal),
        }
    }
}

/// What is read of the first 0, 1, 2, .. and all of a datagram's bytes.
pub(crate) fn rtp_cuts(parts: &[NamedBytes], given: &str, said: &mut Said) -> Result<(), Bad> {
    let bytes = bytes_of(said.alloc(), parts, given)?;
    add_rtp_cuts(bytes.as_slice(), said);
    Ok(())
}

fn byte(number: u32) -> Result<u8, Bad> {
    match u8::try_from(number) {
        Ok(number) => Ok(number),
        Err(_) => Err(Bad::NoRow),
    }
}

fn sequence(number: u32) -> Result<u16, Bad> {
    match u16::try_from(number) {
        Ok(number) => Ok(number),
        Err(_) => Err(Bad::NoRow),
    }
}

// The head with these fields, where they fit.
fn view_of(given: &str) -> Result<RtpView, Bad> {
    Ok(RtpView {
        marker: field(given, "marker")? == 1,
        payload_type: byte(field(given, "type")?)?,
        sequence: sequence(field(given, "sequence")?)?,
        timestamp: field(given, "timestamp")?,
        ssrc: field(given, "ssrc")?,
        from: 12,
        to: 12,
    })
}

/// The bytes of an RTP header, written over others.
pub(crate) fn rtp_written(given: &str, said: &mut Said) -> Result<(), Bad> {
    let view = view_of(given)?;
    if view.payload_type > 127 {
        return Err(Bad::NoRow);
    }
    let mut out = [255; 12];
    write_rtp(&view, &mut out);
    said.bytes(&out);
    Ok(())
}

fn add_head(head: &FragmentHead, said: &mut Said) {
    said.named(&[
        ("high", u32::from(head.high)),
        ("flags", u32::from(head.flags)),
        ("number", head.number),
        ("prefix", u32::from(head.prefix)),
        ("scaler", u32::from(head.scaler)),
    ]);
}

fn add_body(from: usize, body: &[u8], said: &mut Said) {
    write!(said, "from {from} body ");
    said.bytes(body);
}

// The upper half of an extended sequence number, after what it's of.
fn add_high(what: &str, high: u16, said: &mut Said) {
    write!(said, "{what} high {high} ");
}

fn add_payload(payload: &Payload<'_>, said: &mut Said) {
    match payload {
        Payload::Header { high, from, body } => {
            add_high("header", *high, said);
            add_body(*from, body, said);
        }
        Payload::End { high } => add_high("end", *high, said),
        Payload::Skip { high, code } => {
            add_high("skip", *high, said);
            write!(said, "code {code:02x} ");
        }
        Payload::Params { head, from, body } => {
            said.word("parameters");
            add_head(head, said);
            add_body(*from, body, said);
        }
        Payload::Slices {
            head,
            count,
            x,
            y,
            from,
            body,
        } => {
            write!(said, "slices {count} x {x} y {y} ");
            add_head(head, said);
            add_body(*from, body, said);
        }
    }
}

/// A payload, by its parse code.
pub(crate) fn payload(parts: &[NamedBytes], given: &str, said: &mut Said) -> Result<(), Bad> {
    let bytes = bytes_of(said.alloc(), parts, given)?;
    match read_payload(bytes.as_slice()) {
        Ok(payload) => add_payload(&payload, said),
        Err(refusal) => said.shown(refusal),
    }
    Ok(())
}

fn add_payload_cuts(bytes: &[u8], said: &mut Said) {
    for length in 0..=bytes.len() {
        match read_payload(bytes.get(..length).unwrap_or(bytes)) {
            Ok(_) => said.word("read"),
            Err(refusal) => said.shown(refusal),
        }
    }
}

/// What is read of the first 0, 1, 2, .. and all of a payload's bytes.
pub(crate) fn payload_cuts(parts: &[NamedBytes], given: &str, said: &mut Said) -> Result<(), Bad> {
    let bytes = bytes_of(said.alloc(), parts, given)?;
    add_payload_cuts(bytes.as_slice(), said);
    Ok(())
}

/// The bytes that are written of what was read of a payload, behind others that are there.
pub(crate) fn payload_written(
    parts: &[NamedBytes],
    given: &str,
    said: &mut Said,
) -> Result<(), Bad> {
    let (before, bytes) = parted(given);
    let mut out = bytes_of(said.alloc(), parts, before)?;
    let bytes = bytes_of(said.alloc(), parts, bytes)?;
    let Ok(payload) = read_payload(bytes.as_slice()) else {
        return Err(Bad::NoRow);
    };
    write_payload(&mut out, &payload)?;
    said.bytes(out.as_slice());
    Ok(())
}
