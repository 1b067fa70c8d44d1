use vc_types::{FrameRate, GenSettings, SendSettings};

/// What the words of a command line say: a command and its options, defaults filled in. An address is a word,
/// and so is a reporter's name. `pcap` is the port of the datagrams in a pcap file, where the input is one
/// and no capture; port 0 stands for all. With `fill` the frame before is written once more for each that is
/// missing.
#[derive(Clone, Copy)]
pub enum Settings<'a> {
    Decode {
        window: u8,
        workers: u32,
        packets: u32,
        pcap: Option<u16>,
        fill: bool,
    },
    Encode {
        sender: SendSettings,
        frames: u32,
        workers: u32,
    },
    Send {
        sender: SendSettings,
        frames: u32,
        workers: u32,
        paced: bool,
        to: &'a str,
    },
    Recv {
        window: u8,
        workers: u32,
        packets: u32,
        sessions: u32,
        idle: u32,
        fill: bool,
        at: &'a str,
    },
    Loop {
        sender: SendSettings,
        frames: u32,
        window: u8,
        workers: u32,
        at: &'a str,
    },
    Unpack {
        window: u8,
        workers: u32,
        packets: u32,
        pcap: Option<u16>,
    },
    Pack {
        packets: u32,
        size: u32,
        ssrc: u32,
        pt: u8,
        seq: u32,
        rate: FrameRate,
    },
    Play {
        packets: u32,
    },
    Gen {
        frames_of: GenSettings,
        check: bool,
        window: u8,
        workers: u32,
    },
    Rtcp {
        every: u32,
        ssrc: u32,
        name: &'a str,
        is_sender: bool,
        ntp: u32,
        packets: u32,
        pcap: Option<u16>,
    },
    RtcpShow {
        packets: u32,
        pcap: Option<u16>,
    },
    Probe {
        packets: u32,
        pcap: Option<u16>,
    },
    Record {
        packets: u32,
        sessions: u32,
        idle: u32,
        at: &'a str,
    },
    Replay {
        packets: u32,
        paced: bool,
        to: &'a str,
    },
}
