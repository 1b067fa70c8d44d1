ghost use Rattle.std.specs.Prelude.{◌≡◌, ◌≤◌, ◌<◌, [], OnOk, IfSome, length, position};
ghost use Rattle.rtp_head.specs.Views.{packet_of};
ghost use Rattle.cmd_probe.specs.Probers.{HasProbed, due_description, probed_by};
ghost use Rattle.cmd_probe.specs.ProberLaws.{all_due, more_due, none_due};
ghost use Rattle.cmd_probe.specs.Sources.{is_source, with_datagram, with_one};

use crate::description::description;
use crate::source::Source;
use cmd_rtcp::{Piece, Scribe};
use rtp_head::{RtpView, read_rtp};
use std::alloc::Global;
use vc_types::NoMemory;

// So many sources are told of.
const MOST_SOURCES: usize = 64;

/// Keeps what is known of the sources of datagrams, and describes them at the end.
#[derive(Drop)]
pub(crate) struct Prober {
    pub(crate) alloc: Global,
    pub(crate) sources: Vec<Source>,
    /// Whether there are others.
    pub(crate) others: bool,
}

impl Prober {
    /// Before any datagram.
    pub(crate) fn new(alloc: Global) -> Prober
        ensures { HasProbed result [] }
    {
        Prober {
            alloc,
            sources: Vec::new(alloc),
            others: false,
        }
    }

    // Takes a datagram, which is a packet or isn't.
    fn hear(&mut self, datagram: &[u8]) -> Result<(), NoMemory>
        ensures { OnOk result
            (probed_by self.new ≡ with_datagram (probed_by self.old) datagram.now) }
    {
        match read_rtp(datagram) {
            Ok(packet) => self.take_packet(&packet, datagram),
            Err(_) => Ok(()),
        }
    }

    // Takes a packet, of a source that is known or of a new one.
    #[tactic(auto, unfolding(crate::specs::Sources::with_one))]
    fn take_packet(&mut self, packet: &RtpView, datagram: &[u8]) -> Result<(), NoMemory>
        requires from { packet.now.from ≤ packet.now.to }
        requires to { packet.now.to ≤ length datagram.now }
        ensures { OnOk result
            (probed_by self.new ≡ with_one (probed_by self.old) (packet_of packet.now) datagram.now) }
    {
        match place_of(&self.sources, packet.ssrc) {
            Some(place) => self.sources[place].take(self.alloc, packet, datagram),
            None if self.sources.len() < MOST_SOURCES => {
                let mut source = Source::new(self.alloc, packet);
                source.take(self.alloc, packet, datagram)?;
                self.sources.push(source)?;
                Ok(())
            }
            None => {
                self.others = true;
                Ok(())
            }
        }
    }
}

fn place_of(sources: &[Source], ssrc: u32) -> Option<usize>
    ensures value { result ≡ position (is_source ssrc) sources.now }
    ensures within { IfSome result (λ place. place < length sources.now) }
{
    sources.iter().position(|source| source.ssrc == ssrc)
}

impl Scribe for Prober {
    ghost has_heard = { λ _ now heard. HasProbed now heard };

    ghost has_ended = { λ _ now heard. HasProbed now heard };

    ghost due = { λ _. due_description };

    fn take(&mut self, datagram: &[u8]) -> Result<Piece, NoMemory> {
        self.hear(datagram)?;
        Ok(Piece::Nothing)
    }

    fn end(&mut self) -> Result<Piece, NoMemory> {
        match description(self.alloc, &self.sources, self.others) {
            Ok(text) => Ok(Piece::Text(text)),
            Err(fault) => Err(fault),
        }
    }

    ghost none = { λ _. none_due };

    ghost more = { λ _ heard datagram. more_due heard datagram };

    ghost all = { λ _ heard. all_due heard };
}
