ghost use Rattle.std.specs.Prelude.{◌<◌, ◌^◌};

use std::alloc::Global;
use vc_types::PackSettings;

/// Packs the pictures of an elementary stream: what it keeps from one to the next are how many there were,
/// modulo 2^63, the extended sequence number of the next datagram, and the timestamp of the last.
#[derive(Drop)]
pub struct Packer {
    pub(crate) alloc: Global,
    pub(crate) settings: PackSettings,
    pub(crate) pictures: u64,
    pub(crate) sequence: u32,
    // 0 before the first datagram.
    pub(crate) timestamp: u32,
    pub(crate) ghost few: { pictures < 2 ^ 63 },
}
