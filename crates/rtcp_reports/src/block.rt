/// What a report says of one source's packets (RFC 3550, 6.4.1), but for the jitter and the two times of the
/// last sender report.
#[derive(Clone, Copy)]
pub struct Block {
    /// The source.
    pub ssrc: u32,
    /// The share that was lost of the packets expected since the report before, in 256ths.
    pub fraction: u8,
    /// How many of all packets expected were lost, from -8,388,608 to 8,388,607: below 0 where more came than
    /// were expected.
    pub lost: i32,
    /// The highest sequence number, and above it how often the numbers wrapped.
    pub highest: u32,
}

/// What a sender report says of its sender (RFC 3550, 6.4.1).
#[derive(Clone, Copy)]
pub struct SenderInfo {
    pub ssrc: u32,
    /// The upper half of the NTP time, which is in seconds.
    pub ntp: u32,
    /// The RTP time.
    pub timestamp: u32,
    /// How many packets were sent.
    pub packets: u32,
    /// How many bytes of payload these had, modulo 2^32.
    pub octets: u32,
}

/// What the report says that a compound packet begins with.
#[derive(Clone, Copy)]
pub struct CompoundView {
    /// In a sender report.
    pub sender: Option<SenderInfo>,
    /// Who reports.
    pub ssrc: u32,
    /// How many blocks there are, at most 31.
    pub blocks: u8,
}
