/// What an RTP header says, and where the payload stands in the datagram: from one byte up to another.
#[derive(Clone, Copy)]
pub struct RtpView {
    pub marker: bool,
    /// 7 bits.
    pub payload_type: u8,
    pub sequence: u16,
    pub timestamp: u32,
    pub ssrc: u32,
    pub from: usize,
    pub to: usize,
}
