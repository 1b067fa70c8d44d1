/// When a datagram is to go out. It is one of those of a picture, which go out evenly from the picture's RTP
/// timestamp on, over so many ticks of a clock of 90,000 a second (RFC 8450, 4.1).
#[derive(Clone, Copy, Debug, PartialEq, Eq)]
pub struct Turn {
    pub timestamp: u32,
    /// How many ticks there are to the next picture's timestamp; 0 where nobody knows.
    pub ticks: u32,
    /// How many datagrams of the picture go out before this one.
    pub before: usize,
    /// How many datagrams the picture has.
    pub count: usize,
}

/// What waits until a datagram may go out. It promises nothing: a pace may let everything go at once.
pub trait Pace {
    fn wait(&mut self, turn: &Turn);
}

/// A pace that lets everything go at once.
#[derive(Clone, Copy)]
pub struct NoPace;

impl Pace for NoPace {
    fn wait(&mut self, _turn: &Turn) {}
}
