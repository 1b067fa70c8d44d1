use crate::options::{Command, Name};

/// The commands in the order of the page, each with what it reads and writes.
pub(crate) const COMMANDS: [(Command, &str); 14] = [
    (
        Command::Encode,
        "raw frames from the input; a capture of the datagrams that carry them to the output",
    ),
    (
        Command::Decode,
        "a capture from the input; raw frames to the output",
    ),
    (
        Command::Send,
        "raw frames from the input; the datagrams that carry them to the network",
    ),
    (
        Command::Recv,
        "datagrams from the network up to the end of a session; raw frames to the output",
    ),
    (
        Command::Loop,
        "raw frames from the input, sent to an address and received there; raw frames to the output",
    ),
    (
        Command::Record,
        "datagrams from the network up to the end of a session; a capture of them to the output",
    ),
    (
        Command::Replay,
        "a capture from the input; its datagrams to the network",
    ),
    (
        Command::Play,
        "a VC-2 elementary stream from the input; raw frames to the output",
    ),
    (
        Command::Unpack,
        "a capture from the input; an elementary stream of its whole pictures to the output",
    ),
    (
        Command::Pack,
        "an elementary stream from the input; a capture of the datagrams that carry it to the output",
    ),
    (
        Command::Gen,
        "nothing from the input; generated raw frames to the output, or with --check 1 nothing",
    ),
    (
        Command::Rtcp,
        "a capture from the input; a capture of the RTCP reports on its first source to the output",
    ),
    (
        Command::RtcpShow,
        "a capture of RTCP reports from the input; each of them as lines of text to the output",
    ),
    (
        Command::Probe,
        "a capture from the input; what its datagrams hold as lines of text to the output",
    ),
];

/// The options in the order of the page, each with what it means.
pub(crate) const NAMES: [(Name, &str); 47] = [
    (Name::Width, "samples in a row of luma"),
    (Name::Height, "rows of luma in a frame"),
    (Name::Sampling, "4:4:4, 4:2:2 or 4:2:0"),
    (
        Name::Range,
        "1: 8 bits, full; 2: 8 bits, video; 3: 10 bits, video; 4: 12 bits, video",
    ),
    (Name::Fields, "1: each frame is sent as two fields"),
    (Name::Top, "1: the top field is the earlier one"),
    (
        Name::Wavelet,
        "0: Deslauriers-Dubuc (9,7); 1: LeGall (5,3); 2: Deslauriers-Dubuc (13,7);\n\
         \x20   3 and 4: Haar without and with a shift; 5: Fidelity; 6: Daubechies (9,7)",
    ),
    (Name::Depth, "levels of the transform"),
    (Name::Slices, "slices across and down a picture"),
    (Name::Prefix, "bytes in front of each slice"),
    (Name::Scaler, "the unit of a slice's lengths, in bytes"),
    (
        Name::Index,
        "the quantisation index of all slices; 0 loses nothing",
    ),
    (
        Name::Fit,
        "the lowest index at which a slice has at most this many bytes, else 127; not with --index",
    ),
    (
        Name::Budget,
        "bytes of a picture's slices, of which each fits its share, as by --fit; not with --index or --fit",
    ),
    (
        Name::Size,
        "bytes of a datagram at most: RTP, without the headers of IP and UDP",
    ),
    (Name::Ssrc, "the source's number in RTP"),
    (Name::Seq, "the first sequence number, of 32 bits"),
    (
        Name::Picture,
        "the first picture's number; even with --fields 1",
    ),
    (
        Name::Tick,
        "how far the timestamps of two frames are apart: 3600 is 25 frames a second",
    ),
    (
        Name::Rate,
        "so many frames in so many seconds: 60000:1001 is 59.94 a second; not with --tick",
    ),
    (
        Name::Aspect,
        "the width of a pixel over its height, which the header says beside --rate; only with it",
    ),
    (
        Name::Colour,
        "1: 525 lines; 2: 625; 3: HDTV; 4: D-Cinema; 5: UHDTV; 6: PQ; 7: HLG; as --aspect, only with --rate",
    ),
    (Name::Pt, "the payload type in RTP"),
    (Name::Frames, "frames at most"),
    (
        Name::First,
        "frames of the input that are read, which ends with them; 0: all",
    ),
    (
        Name::Pace,
        "1: datagrams wait for the moments of their timestamps; 0: they go as fast as they can",
    ),
    (Name::To, "where datagrams go, as 192.0.2.1:5004"),
    (Name::At, "where datagrams come, as 0.0.0.0:5004"),
    (
        Name::Window,
        "how many pictures are open at a time; more tolerates later datagrams, and delays the frames",
    ),
    (
        Name::Workers,
        "threads that encode frames or decode slices; 0: none beside the first",
    ),
    (
        Name::Packets,
        "datagrams, entries, records or units at most",
    ),
    (
        Name::Pcap,
        "1: the input is a pcap file; its datagrams are the UDP payloads in it",
    ),
    (
        Name::Port,
        "with --pcap 1: the port to which datagrams go; 0: all ports",
    ),
    (Name::Sessions, "how many ends of a sequence to wait for"),
    (
        Name::Idle,
        "seconds without a datagram of use, after which it ends; 0: it waits for ever",
    ),
    (
        Name::Seconds,
        "seconds after which it listens no longer, whatever comes; 0: it goes on",
    ),
    (
        Name::Written,
        "frames after which it listens no longer; those of open pictures follow; 0: it goes on",
    ),
    (
        Name::Fill,
        "1: the frame before is written once more for each that is missing, if at most 250 are in a row",
    ),
    (
        Name::Progress,
        "seconds from one line that says how far it is to the next; 0: none",
    ),
    (Name::Seed, "where the noise begins"),
    (Name::Count, "frames that are generated"),
    (
        Name::Check,
        "1: the frames are encoded and decoded, and the samples that differ are counted",
    ),
    (
        Name::Every,
        "packets of the source from one report to the next",
    ),
    (Name::Reporter, "the reporter's number in RTP"),
    (Name::Cname, "the name that a report gives"),
    (
        Name::BySender,
        "1: sender reports, as the source itself would write them",
    ),
    (
        Name::Ntp,
        "the time in a sender report, in seconds since 1900",
    ),
];
