ghost use Rattle.std.specs.Prelude.{◌≡◌, ◌≤◌, ◌<◌, ◌+◌, ◌-◌, ◌%◌, ◌^◌, ℕ, length, IfOk, OnOk, option_copied};
ghost use Rattle.rtcp_reports.specs.Reports.{Followed, block_on, with_last_report, followed_from};
ghost use Rattle.rtcp_reports.specs.Reports.{after_packet, with_packet, with_report};
ghost use Rattle.rtcp_reports.specs.Rtcp.{LossFitsIn};
ghost use Rattle.rtcp_reports.specs.Tracks.{reported};
ghost use Rattle.rtp_head.specs.Views.{packet_of};
ghost use Rattle.cmd_rtcp.specs.Pieces.{EntryFits};
ghost use Rattle.cmd_rtcp.specs.Sources.{CanReport, IsKept, IsWithin, Makes, compound_by};
ghost use Rattle.cmd_rtcp.specs.Sources.{info_of, reporting_of};

use crate::piece::Piece;
use crate::settings::ReportSettings;
use rtcp_reports::{Block, SenderInfo, Track, write_rr, write_sr};
use rtp_head::RtpView;
use std::alloc::Global;
use vc_types::NoMemory;

/// What is known of the source of datagrams.
#[derive(Drop)]
pub(crate) struct Source {
    pub(crate) ssrc: u32,
    pub(crate) track: Track,
    /// How many packets came.
    pub(crate) packets: u64,
    /// How many bytes of payload these have, modulo 2^32.
    pub(crate) octets: u32,
    /// The timestamp of the last packet.
    pub(crate) timestamp: u32,
    /// Whether a packet came since the last report.
    pub(crate) is_due: bool,
    /// How many reports were made.
    pub(crate) reports: u64,
}

impl Source {
    /// Before its first packet, which is given.
    pub(crate) fn new(first: &RtpView) -> Source
        ensures kept { IsKept result first.now.ssrc (followed_from (packet_of first.now)) }
        ensures within { IsWithin result 0 }
    {
        Source {
            ssrc: first.ssrc,
            track: Track::new(first.sequence),
            packets: 0,
            octets: 0,
            timestamp: 0,
            is_due: false,
            reports: 0,
        }
    }

    /// Takes its next packet, and makes the report that is due behind it.
    pub(crate) fn take(
        &mut self,
        alloc: Global,
        settings: &ReportSettings,
        packet: &RtpView,
    ) -> Result<Piece, NoMemory>
        requires can { CanReport settings.now }
        requires few { IsWithin self.old (2 ^ 32 - 1) }
        requires payload { packet.now.from ≤ packet.now.to }
        ensures fits { IfOk result EntryFits }
        ensures within { OnOk result ((n : ℕ) → IsWithin self.old n → IsWithin self.new (n + 1)) }
        ensures makes { IfOk result (λ piece. (source : ℕ) (f : Followed) → IsKept self.old source f
            → Makes self.new source f
            (after_packet (reporting_of settings.now) source f (packet_of packet.now)) piece) }
    {
        self.count(packet);
        if self.packets % u64::from(settings.every) == 0 {
            self.report(alloc, settings)
        } else {
            Ok(Piece::Nothing)
        }
    }

    /// Makes the last report, where a packet came since the one before.
    pub(crate) fn end(
        &mut self,
        alloc: Global,
        settings: &ReportSettings,
    ) -> Result<Piece, NoMemory>
        requires can { CanReport settings.now }
        requires few { self.old.reports ≤ 2 ^ 32 }
        ensures fits { IfOk result EntryFits }
        ensures makes { IfOk result (λ piece. (source : ℕ) (f : Followed) → IsKept self.old source f
            → Makes self.new source f (with_last_report (reporting_of settings.now) source f) piece) }
    {
        if self.is_due {
            self.report(alloc, settings)
        } else {
            Ok(Piece::Nothing)
        }
    }

    // Makes a report.
    fn report(&mut self, alloc: Global, settings: &ReportSettings) -> Result<Piece, NoMemory>
        requires can { CanReport settings.now }
        requires few { self.old.reports ≤ 2 ^ 32 }
        ensures fits { IfOk result EntryFits }
        ensures updates { self.new.track.updates ≡ self.old.track.updates }
        ensures packets { self.new.packets ≡ self.old.packets }
        ensures reports { OnOk result (self.new.reports ≡ self.old.reports + 1) }
        ensures makes { IfOk result (λ piece. (source : ℕ) (f : Followed) → IsKept self.old source f
            → Makes self.new source f (with_report (reporting_of settings.now) source f) piece) }
    {
        let block = self.block();
        let info = self.info(settings.ntp);
        let report = compound(alloc, settings, &info, block.as_ref())?;
        self.is_due = false;
        self.reports += 1;
        Ok(Piece::Entry(report))
    }

    // Counts a packet.
    fn count(&mut self, packet: &RtpView)
        requires few { IsWithin self.old (2 ^ 32 - 1) }
        requires payload { packet.now.from ≤ packet.now.to }
        ensures within { (n : ℕ) → IsWithin self.old n → IsWithin self.new (n + 1) }
        ensures reports { self.new.reports ≡ self.old.reports }
        ensures kept { (source : ℕ) (f : Followed) → IsKept self.old source f
            → IsKept self.new source (with_packet f (packet_of packet.now)) }
    {
        let _counts = self.track.update(packet.sequence);
        self.packets += 1;
        self.octets = self.octets.wrapping_add(low_word(packet.to - packet.from));
        self.timestamp = packet.timestamp;
        self.is_due = true;
    }

    // What a receiver's report says, and the begin of the next report's interval; none on probation.
    fn block(&mut self) -> Option<Block>
        ensures value { result ≡ block_on self.old.ssrc self.old.track }
        ensures fits { LossFitsIn result }
        ensures source { self.new ≡ record self.old { track = reported self.old.track } }
        ensures updates { self.new.track.updates ≡ self.old.track.updates }
    {
        self.track.block(self.ssrc)
    }

    // What a sender's report says.
    fn info(&self, ntp: u32) -> SenderInfo
        ensures { result ≡ info_of self.now ntp }
    {
        SenderInfo {
            ssrc: self.ssrc,
            ntp,
            timestamp: self.timestamp,
            packets: (self.packets % (1 << 32)) as u32,
            octets: self.octets,
        }
    }
}

// The number modulo 2^32.
fn low_word(number: usize) -> u32
    ensures { result ≡ number % 2 ^ 32 }
{
    (number % (1 << 32)) as u32
}

// The compound packet of a report.
#[tactic(auto, using(crate::proofs::CompoundSizes::sizes))]
fn compound(
    alloc: Global,
    settings: &ReportSettings,
    info: &SenderInfo,
    block: Option<&Block>,
) -> Result<Vec<u8>, NoMemory>
    requires can { CanReport settings.now }
    requires loss { LossFitsIn (option_copied block) }
    ensures value { IfOk result (λ report. report.items
        ≡ compound_by (reporting_of settings.now) info.now (option_copied block.entry)) }
    ensures fits { IfOk result (λ report. length report.items < 2 ^ 16) }
{
    let mut report = Vec::new(alloc);
    if settings.sender {
        write_sr(&mut report, info, settings.cname)?;
        return Ok(report);
    }
    write_rr(&mut report, settings.ssrc, block, settings.cname)?;
    Ok(report)
}
