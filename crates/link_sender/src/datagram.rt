ghost use Rattle.std.specs.Prelude.{◌≤◌, length};

use rtp_head::read_rtp;

/// The bytes of one RTP datagram, as many as a datagram of UDP can carry.
#[derive(Drop)]
pub struct Datagram {
    pub bytes: Vec<u8>,
    pub ghost fits: { length bytes.items ≤ 65507 },
}

impl Datagram {
    /// Its RTP timestamp; 0 where the bytes are no RTP packet.
    pub fn timestamp(&self) -> u32 {
        match read_rtp(&self.bytes) {
            Ok(head) => head.timestamp,
            Err(_) => 0,
        }
    }
}
