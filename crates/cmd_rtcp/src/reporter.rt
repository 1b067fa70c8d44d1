ghost use Rattle.std.specs.Prelude.{◌≡◌, ◌≤◌, ◌-◌, ◌+◌, ◌^◌, ℕ, List, [], Some, IfOk, IfSome};
ghost use Rattle.link_model.specs.Packets.{RtpPacket};
ghost use Rattle.rtp_head.specs.Views.{packet_of};
ghost use Rattle.cmd_rtcp.specs.Pieces.{EntryFits};
ghost use Rattle.cmd_rtcp.specs.ReporterLaws.{all_due, more_due, none_due};
ghost use Rattle.cmd_rtcp.specs.Reporters.{HasReported, HasSummedUp, due_reports, summary_by};
ghost use Rattle.cmd_rtcp.specs.Sources.{CanReport, IsWithin, KeepsSource, MakesNext, reporting_of};

use crate::piece::Piece;
use crate::scribe::Scribe;
use crate::settings::ReportSettings;
use crate::source::Source;
use link_report::Summary;
use rtp_head::{RtpView, read_rtp};
use std::alloc::Global;
use vc_types::NoMemory;

/// Makes reports on the source of datagrams, which is who sends the first of them that is an RTP packet.
#[derive(Drop)]
pub(crate) struct Reporter<'a> {
    pub(crate) alloc: Global,
    pub(crate) settings: ReportSettings<'a>,
    /// None before its first packet.
    pub(crate) source: Option<Source>,
}

impl<'a> Reporter<'a> {
    pub(crate) fn new(alloc: Global, settings: ReportSettings<'a>) -> Reporter<'a>
        requires { CanReport settings }
        ensures settings { result.settings ≡ settings.entry }
        ensures none { HasReported (reporting_of settings.entry) result [] }
    {
        Reporter {
            alloc,
            settings,
            source: None,
        }
    }

    /// What was counted, beside the datagrams.
    pub(crate) fn summary(&self, datagrams: u64) -> Summary
        ensures { result ≡ summary_by self.now datagrams }
    {
        match &self.source {
            Some(source) => Summary::Reported {
                datagrams,
                packets: source.packets,
                reports: source.reports,
            },
            None => Summary::Reported {
                datagrams,
                packets: 0,
                reports: 0,
            },
        }
    }

    // Takes a packet, of the source or of another.
    fn take_packet(&mut self, packet: &RtpView) -> Result<Piece, NoMemory>
        requires can { CanReport self.old.settings }
        requires few { IfSome self.old.source (λ source. IsWithin source (2 ^ 32 - 1)) }
        requires payload { packet.now.from ≤ packet.now.to }
        ensures settings { self.new.settings ≡ self.old.settings }
        ensures fits { IfOk result EntryFits }
        ensures makes { IfOk result (λ piece. (packets : List RtpPacket) (n : ℕ)
            → KeepsSource (reporting_of self.old.settings) self.old.source packets n
            → MakesNext (reporting_of self.old.settings) packets (Some (packet_of packet.now)) (n + 1)
            self.new.source piece) }
    {
        match &mut self.source {
            Some(source) if source.ssrc == packet.ssrc => {
                source.take(self.alloc, &self.settings, packet)
            }
            Some(_) => Ok(Piece::Nothing),
            None => self.begin(packet),
        }
    }

    // Takes the first packet.
    fn begin(&mut self, packet: &RtpView) -> Result<Piece, NoMemory>
        requires can { CanReport self.old.settings }
        requires payload { packet.now.from ≤ packet.now.to }
        ensures settings { self.new.settings ≡ self.old.settings }
        ensures fits { IfOk result EntryFits }
        ensures makes { IfOk result (λ piece. (n : ℕ)
            → MakesNext (reporting_of self.old.settings) [] (Some (packet_of packet.now)) (n + 1)
            self.new.source piece) }
    {
        let mut source = Source::new(packet);
        let piece = source.take(self.alloc, &self.settings, packet)?;
        self.source = Some(source);
        Ok(piece)
    }
}

impl<'a> Scribe for Reporter<'a> {
    ghost has_heard = { λ first now heard. HasReported (reporting_of first.settings) now heard };

    ghost has_ended = { λ first now heard. HasSummedUp (reporting_of first.settings) now heard };

    ghost due = { λ first. due_reports (reporting_of first.settings) };

    fn take(&mut self, datagram: &[u8]) -> Result<Piece, NoMemory> {
        match read_rtp(datagram) {
            Ok(packet) => self.take_packet(&packet),
            Err(_) => Ok(Piece::Nothing),
        }
    }

    fn end(&mut self) -> Result<Piece, NoMemory> {
        match &mut self.source {
            Some(source) => source.end(self.alloc, &self.settings),
            None => Ok(Piece::Nothing),
        }
    }

    ghost none = { λ first. none_due (reporting_of first.settings) };

    ghost more = { λ first heard datagram. more_due (reporting_of first.settings) heard datagram };

    ghost all = { λ first heard. all_due (reporting_of first.settings) heard };
}
