ghost use Rattle.std.specs.Prelude.{◌≡◌};
ghost use Rattle.rtcp_reports.specs.Rtcp.{refusal_number};

/// Why a compound packet is refused.
#[derive(Clone, Copy, Debug, PartialEq, Eq)]
pub enum RtcpRefusal {
    /// There are fewer than 8 bytes.
    Short,
    /// Fewer than 4 bytes are left for a packet, a packet passes the end, or the first packet hasn't the room
    /// for its blocks.
    Length,
    /// A packet's version isn't 2.
    Version,
    /// The first packet is no report, or is padded.
    First,
}

impl RtcpRefusal {
    /// The number of a refusal in a text.
    pub fn number(self) -> u8
        ensures { result ≡ refusal_number self }
    {
        match self {
            RtcpRefusal::Short => 1,
            RtcpRefusal::Length => 2,
            RtcpRefusal::Version => 3,
            RtcpRefusal::First => 4,
        }
    }
}
