/// Why a datagram's RTP header is refused (RFC 3550, 5.1).
#[derive(Clone, Copy, Debug, PartialEq, Eq)]
pub enum RtpRefusal {
    /// There are fewer than 12 bytes.
    Short,
    /// The version isn't 2.
    Version,
    /// The CSRC list, the extension or the padding doesn't fit the datagram.
    Shape,
}

/// Why a payload is refused (RFC 8450, 4).
#[derive(Clone, Copy, Debug, PartialEq, Eq)]
pub enum PayloadRefusal {
    /// There are fewer than 4 bytes.
    Short,
    /// The parse code isn't one of this project's profile.
    Code,
    /// The fragment's header or its body passes the end.
    Fragment,
}
