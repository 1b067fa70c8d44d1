use cmd_send::FrameOptions;

/// Which datagrams of a wire are received, and how.
#[derive(Clone, Copy)]
pub struct ReceiveOptions<'a> {
    /// How many pictures may be open, 2 to 8.
    pub window: u8,
    /// How many workers slices are offered to.
    pub workers: u32,
    /// How many datagrams are received at most.
    pub packets: u32,
    /// Whether gaps between frames are filled.
    pub fill: bool,
    /// How many sessions are to end.
    pub sessions: u32,
    /// For how many seconds a wire that tells nothing may bring the session nothing new before it ends; with
    /// 0 it never ends.
    pub idle: u32,
    /// The address that the wire listens at.
    pub at: &'a str,
}

/// Which frames are sent over a wire and received back, and how. As many workers as threads that encode a
/// frame are offered slices.
#[derive(Clone, Copy)]
pub struct LoopOptions<'a> {
    pub sent: FrameOptions,
    /// How many pictures may be open, 2 to 8.
    pub window: u8,
    /// The address that the wire listens at and is aimed at.
    pub at: &'a str,
}
