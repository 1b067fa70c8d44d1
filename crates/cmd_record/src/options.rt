/// Which datagrams of a wire are recorded.
#[derive(Clone, Copy)]
pub struct RecordOptions<'a> {
    /// How many datagrams are recorded at most.
    pub packets: u32,
    /// How many sessions are to end.
    pub sessions: u32,
    /// For how many seconds a wire that tells nothing may bring no datagram before it ends; with 0 it never
    /// ends.
    pub idle: u32,
    /// The address that the wire listens at.
    pub at: &'a str,
}

/// Which datagrams of a capture are sent, and where.
#[derive(Clone, Copy)]
pub struct ReplayOptions<'a> {
    /// How many entries are read at most.
    pub packets: u32,
    /// The address that the wire is aimed at.
    pub to: &'a str,
}
