ghost use Rattle.std.specs.Prelude.{◌≡◌};
ghost use Rattle.link_words.specs.Options.{command_of, names_of, option_row, name_in, is_required};

use Name::{
    Aspect, At, Budget, BySender, Check, Cname, Colour, Count, Depth, Every, Fields, Fill, First,
    Fit, Frames, Height, Idle, Index, Ntp, Pace, Packets, Pcap, Picture, Port, Prefix, Progress,
    Pt, Range, Rate, Reporter, Sampling, Scaler, Seconds, Seed, Seq, Sessions, Size, Slices, Ssrc,
    Tick, To, Top, Wavelet, Width, Window, Workers, Written,
};
use Values::{Address, Number, Optional, Pair, Ratio, Required, Subsampling, Text};

/// The first word.
#[derive(Clone, Copy, PartialEq)]
pub(crate) enum Command {
    Decode,
    Encode,
    Send,
    Recv,
    Loop,
    Unpack,
    Pack,
    Play,
    Gen,
    Rtcp,
    RtcpShow,
    Probe,
    Record,
    Replay,
}

/// The options of all commands. `--frames` is three: how many are sent, how many are generated, and how many
/// are written before a wire listens no longer. `--ssrc` is two: a sender's number, and a reporter's.
#[derive(Clone, Copy, PartialEq)]
pub(crate) enum Name {
    Width,
    Height,
    Sampling,
    Range,
    Fields,
    Top,
    Wavelet,
    Depth,
    Slices,
    Prefix,
    Scaler,
    Size,
    Index,
    Fit,
    Budget,
    Ssrc,
    Seq,
    Picture,
    Tick,
    Rate,
    Aspect,
    Colour,
    Pt,
    Frames,
    Seed,
    Count,
    Check,
    Window,
    Workers,
    Packets,
    Pcap,
    Port,
    Idle,
    Seconds,
    Written,
    First,
    Progress,
    Sessions,
    Fill,
    Pace,
    To,
    At,
    Every,
    Reporter,
    Cname,
    BySender,
    Ntp,
}

/// Which values an option takes.
#[derive(Clone, Copy)]
pub(crate) enum Values {
    // A number: the least, the greatest, and the one that is meant where none is given.
    Number(u32, u32, u32),
    // A number without a default, and one that has to be given.
    Optional(u32, u32),
    Required(u32, u32),
    // 444, 422 or 420.
    Subsampling,
    // Two numbers with `x` between, and two of 1 to a greatest with `:` between.
    Pair,
    Ratio(u32),
    // Any word that is not empty; it has to be given.
    Address,
    // A word of 1 to 255 bytes, all of them ASCII.
    Text,
}

pub(crate) fn command_of(word: &str) -> Option<Command>
    ensures { result ≡ command_of word.now }
{
    match word {
        "decode" => Some(Command::Decode),
        "encode" => Some(Command::Encode),
        "send" => Some(Command::Send),
        "recv" => Some(Command::Recv),
        "loop" => Some(Command::Loop),
        "unpack" => Some(Command::Unpack),
        "pack" => Some(Command::Pack),
        "play" => Some(Command::Play),
        "gen" => Some(Command::Gen),
        "rtcp" => Some(Command::Rtcp),
        "rtcp-show" => Some(Command::RtcpShow),
        "probe" => Some(Command::Probe),
        "record" => Some(Command::Record),
        "replay" => Some(Command::Replay),
        _ => None,
    }
}

/// The word of a name and its values.
pub(crate) fn option_row(name: Name) -> (&'static str, Values)
    ensures { (result.0.now, result.1) ≡ option_row name }
{
    match name {
        Width => ("--width", Required(1, 8192)),
        Height => ("--height", Required(1, 8192)),
        Sampling => ("--sampling", Subsampling),
        Range => ("--range", Number(1, 4, 3)),
        Fields => ("--fields", Number(0, 1, 0)),
        Top => ("--top", Number(0, 1, 1)),
        Wavelet => ("--wavelet", Number(0, 6, 1)),
        Depth => ("--depth", Number(1, 4, 3)),
        Slices => ("--slices", Pair),
        Prefix => ("--prefix", Number(0, 255, 0)),
        Scaler => ("--scaler", Number(1, 255, 2)),
        Size => ("--size", Number(64, 65507, 1400)),
        Index => ("--index", Number(0, 127, 0)),
        Fit => ("--fit", Optional(4, 65535)),
        Budget => ("--budget", Optional(4, 4294967295)),
        Ssrc => ("--ssrc", Number(0, 4294967295, 1)),
        Seq => ("--seq", Number(0, 4294967295, 0)),
        Picture => ("--picture", Number(0, 4294967295, 0)),
        Tick => ("--tick", Number(0, 4294967295, 3600)),
        Rate => ("--rate", Ratio(4294967295)),
        Aspect => ("--aspect", Ratio(65535)),
        Colour => ("--colour", Optional(1, 7)),
        Pt => ("--pt", Number(0, 127, 96)),
        Frames => ("--frames", Number(1, 4294967295, 4294967295)),
        Seed => ("--seed", Number(0, 4294967295, 0)),
        Count => ("--frames", Number(1, 1000, 1)),
        Check => ("--check", Number(0, 1, 0)),
        Window => ("--window", Number(2, 8, 4)),
        Workers => ("--workers", Number(0, 64, 4)),
        Packets => ("--packets", Number(1, 4294967295, 4294967295)),
        Pcap => ("--pcap", Number(0, 1, 0)),
        Port => ("--port", Number(0, 65535, 0)),
        Idle => ("--idle", Number(0, 86400, 0)),
        Seconds => ("--seconds", Number(0, 86400, 0)),
        Written => ("--frames", Number(0, 4294967295, 0)),
        First => ("--first", Number(0, 4294967295, 0)),
        Progress => ("--progress", Number(0, 86400, 0)),
        Sessions => ("--sessions", Number(1, 4294967295, 1)),
        Fill => ("--fill", Number(0, 1, 0)),
        Pace => ("--pace", Number(0, 1, 1)),
        To => ("--to", Address),
        At => ("--at", Address),
        Every => ("--every", Number(1, 4294967295, 100)),
        Reporter => ("--ssrc", Number(0, 4294967295, 2)),
        Cname => ("--cname", Text),
        BySender => ("--sender", Number(0, 1, 0)),
        Ntp => ("--ntp", Number(0, 4294967295, 0)),
    }
}

/// The options of a command.
pub(crate) fn names_of(command: Command) -> &'static [Name]
    ensures { result.now ≡ names_of command }
{
    match command {
        Command::Decode => &[Window, Workers, Packets, Pcap, Port, Fill, Progress],
        Command::Unpack => &[Window, Workers, Packets, Pcap, Port],
        Command::Encode => &[
            Width, Height, Sampling, Range, Fields, Top, Wavelet, Depth, Slices, Prefix, Scaler,
            Size, Index, Fit, Budget, Ssrc, Seq, Picture, Tick, Rate, Aspect, Colour, Pt, Frames,
            First, Workers, Progress,
        ],
        Command::Send => &[
            Width, Height, Sampling, Range, Fields, Top, Wavelet, Depth, Slices, Prefix, Scaler,
            Size, Index, Fit, Budget, Ssrc, Seq, Picture, Tick, Rate, Aspect, Colour, Pt, Frames,
            First, Workers, Pace, To, Progress,
        ],
        Command::Recv => &[
            Window, Workers, Packets, Sessions, Idle, Seconds, Written, Fill, At, Progress,
        ],
        Command::Loop => &[
            Width, Height, Sampling, Range, Fields, Top, Wavelet, Depth, Slices, Prefix, Scaler,
            Size, Index, Fit, Budget, Ssrc, Seq, Picture, Tick, Rate, Aspect, Colour, Pt, Frames,
            First, Window, Workers, At, Progress,
        ],
        Command::Pack => &[Packets, Size, Ssrc, Pt, Seq, Tick, Rate],
        Command::Play => &[Packets, Progress],
        Command::Gen => &[
            Width, Height, Sampling, Range, Fields, Top, Seed, Count, Check, Window, Workers,
        ],
        Command::Rtcp => &[Every, Reporter, Cname, BySender, Ntp, Packets, Pcap, Port],
        Command::RtcpShow => &[Packets, Pcap, Port],
        Command::Probe => &[Packets, Pcap, Port],
        Command::Record => &[Packets, Sessions, Idle, Seconds, At, Progress],
        Command::Replay => &[Packets, Pace, To, Progress],
    }
}

/// The first of some options whose word this is.
pub(crate) fn name_in(names: &[Name], word: &str) -> Option<Name>
    ensures { result ≡ name_in names.now word.now }
{
    names
        .iter()
        .copied()
        .find(|name| option_row(*name).0 == word)
}

impl Values {
    /// Whether an option has to be given.
    pub(crate) fn is_required(self) -> bool
        ensures { result ≡ is_required self }
    {
        matches!(self, Required(_, _) | Address)
    }
}
